//! Vectors of `XREAD`, `XREADGROUP` and `XNACK`.
ghost use Rattle.std.specs.Prelude.{◌≡◌, [], ◌∷◌, IfOk, codes, map};

use crate::vectors::OptionsVector;
use std::alloc::{AllocError, Global};
use stream_options::{StreamNackMode, StreamNackOptions, StreamReadOptions};

/// Read options, v32 to v34.
pub fn read_vectors(alloc: Global) -> Result<[OptionsVector<StreamReadOptions>; 3], AllocError>
    ensures { IfOk result (λ vectors. map (λ v. v.0.now) vectors
        ≡ codes "v32" ∷ codes "v33" ∷ codes "v34" ∷ []) }
{
    let alone = StreamReadOptions::default().noack().claim(100);
    let grouped = for_consumer(alloc)?;
    let unnamed = for_two_words(alloc)?.count(2);
    Ok([
        ("v32", alone, "-"),
        ("v33", grouped, "GROUP g c BLOCK 5 COUNT 2 NOACK CLAIM 100"),
        ("v34", unnamed, "GROUP c BLOCK COUNT 2"),
    ])
}

/// All settings, for the consumer `c` of the group `g`.
fn for_consumer(alloc: Global) -> Result<StreamReadOptions, AllocError> {
    StreamReadOptions::default()
        .claim(100)
        .noack()
        .count(2)
        .block(5)
        .group(alloc, "g", "c")
}

/// The words of a consumer, and none of a group.
fn for_two_words(alloc: Global) -> Result<StreamReadOptions, AllocError> {
    let nothing: Vec<&str> = Vec::new(alloc);
    let somebody = vec![in alloc; "c", "BLOCK"]?;
    StreamReadOptions::default().group(alloc, nothing, somebody)
}

/// Nack options, v35.
pub fn nack_vectors() -> [OptionsVector<StreamNackOptions>; 1]
    ensures { map (λ v. v.0.now) result
        ≡ codes "v35" ∷ [] }
{
    [("v35", StreamNackOptions::new(StreamNackMode::Fail), "FAIL")]
}

/// Read options whose names write no argument, or several, v68 and v69.
pub fn names_vectors(alloc: Global) -> Result<[OptionsVector<StreamReadOptions>; 2], AllocError>
    ensures { IfOk result (λ vectors. map (λ v. v.0.now) vectors
        ≡ codes "v68" ∷ codes "v69" ∷ []) }
{
    let unnamed = for_nobody(alloc)?;
    let named = for_two_groups(alloc)?;
    Ok([
        ("v68", unnamed.noack(), "GROUP NOACK"),
        ("v69", named.claim(1), "GROUP g h c CLAIM 1"),
    ])
}

/// No word of a group, and none of a consumer.
fn for_nobody(alloc: Global) -> Result<StreamReadOptions, AllocError> {
    let nothing: Vec<&str> = Vec::new(alloc);
    let nobody: Vec<&str> = Vec::new(alloc);
    StreamReadOptions::default().group(alloc, nothing, nobody)
}

/// Two words of a group.
fn for_two_groups(alloc: Global) -> Result<StreamReadOptions, AllocError> {
    let groups = vec![in alloc; "g", "h"]?;
    let consumers = vec![in alloc; "c"]?;
    StreamReadOptions::default().group(alloc, groups, consumers)
}
