//! Vectors of `XADD`.
ghost use Rattle.std.specs.Prelude.{◌≡◌, [], ◌∷◌, IfOk, codes, map};

use crate::vectors::OptionsVector;
use std::alloc::{AllocError, Global};
use stream_options::{
    StreamAddOptions, StreamDeletionPolicy, StreamTrimStrategy, StreamTrimmingMode,
};

/// Add options without idempotency, v09 to v12.
pub fn trimmed_vectors() -> [OptionsVector<StreamAddOptions>; 4]
    ensures { map (λ v. v.0.now) result
        ≡ codes "v09" ∷ codes "v10" ∷ codes "v11" ∷ codes "v12" ∷ [] }
{
    [
        ("v09", StreamAddOptions::default(), "-"),
        (
            "v10",
            StreamAddOptions::default().trim(exactly(10)),
            "MAXLEN = 10",
        ),
        (
            "v11",
            StreamAddOptions::default().nomkstream(),
            "NOMKSTREAM",
        ),
        (
            "v12",
            StreamAddOptions::default().nomkstream().trim(exactly(10)),
            "NOMKSTREAM MAXLEN = 10",
        ),
    ]
}

/// Add options with idempotency, v13 to v16.
pub fn idempotent_vectors(alloc: Global) -> Result<[OptionsVector<StreamAddOptions>; 4], AllocError>
    ensures { IfOk result (λ vectors. map (λ v. v.0.now) vectors
        ≡ codes "v13" ∷ codes "v14" ∷ codes "v15" ∷ codes "v16" ∷ []) }
{
    let automatic = by_producer(alloc)?;
    let manual = produced(alloc, StreamAddOptions::default())?;
    let existing = produced(alloc, StreamAddOptions::default().nomkstream())?;
    let trimmed = produced(alloc, StreamAddOptions::default().trim(exactly(100)))?;
    Ok([
        ("v13", manual, "IDMP producer-1 iid-1"),
        ("v14", automatic, "IDMPAUTO producer-1"),
        ("v15", existing, "NOMKSTREAM IDMP producer-1 iid-1"),
        ("v16", trimmed, "IDMP producer-1 iid-1 MAXLEN = 100"),
    ])
}

/// The id of a producer alone.
fn by_producer(alloc: Global) -> Result<StreamAddOptions, AllocError> {
    let producer_id = String::from_str(alloc, "producer-1")?;
    Ok(StreamAddOptions::default().idmpauto(producer_id))
}

/// Add options with all settings, and with one that is set twice, v17 to v19.
pub fn full_vectors(alloc: Global) -> Result<[OptionsVector<StreamAddOptions>; 3], AllocError>
    ensures { IfOk result (λ vectors. map (λ v. v.0.now) vectors
        ≡ codes "v17" ∷ codes "v18" ∷ codes "v19" ∷ []) }
{
    let manual = all_by_hand(alloc)?;
    let automatic = all_automatic(alloc)?;
    let twice = set_twice(alloc)?;
    Ok([
        (
            "v17",
            manual,
            "NOMKSTREAM KEEPREF IDMP producer-1 iid-1 MAXLEN ~ 100",
        ),
        (
            "v18",
            automatic,
            "NOMKSTREAM DELREF IDMPAUTO producer-2 MINID = 123456-0",
        ),
        ("v19", twice, "IDMPAUTO NOMKSTREAM"),
    ])
}

/// All settings, with both ids of an entry that is added once.
fn all_by_hand(alloc: Global) -> Result<StreamAddOptions, AllocError> {
    let about = StreamTrimStrategy::maxlen(StreamTrimmingMode::Approx, 100);
    let options = produced(alloc, StreamAddOptions::default().nomkstream().trim(about))?;
    Ok(options.set_deletion_policy(StreamDeletionPolicy::KeepRef))
}

/// All settings, with the id of a producer alone.
fn all_automatic(alloc: Global) -> Result<StreamAddOptions, AllocError> {
    let from = String::from_str(alloc, "123456-0")?;
    let producer_id = String::from_str(alloc, "producer-2")?;
    Ok(
        StreamAddOptions::default()
            .nomkstream()
            .trim(StreamTrimStrategy::minid(StreamTrimmingMode::Exact, from))
            .idmpauto(producer_id)
            .set_deletion_policy(StreamDeletionPolicy::DelRef),
    )
}

/// One setting that is set twice.
fn set_twice(alloc: Global) -> Result<StreamAddOptions, AllocError> {
    let producer_id = String::from_str(alloc, "a")?;
    let idempotent_id = String::from_str(alloc, "b")?;
    let last = String::from_str(alloc, "NOMKSTREAM")?;
    Ok(
        StreamAddOptions::default()
            .idmp(producer_id, idempotent_id)
            .idmpauto(last),
    )
}

/// Add options whose texts spell keywords, v66.
pub fn keyword_vectors(alloc: Global) -> Result<[OptionsVector<StreamAddOptions>; 1], AllocError>
    ensures { IfOk result (λ vectors. map (λ v. v.0.now) vectors
        ≡ codes "v66" ∷ []) }
{
    let from = String::from_str(alloc, "=")?;
    let producer_id = String::from_str(alloc, "NOMKSTREAM")?;
    let idempotent_id = String::from_str(alloc, "IDMPAUTO")?;
    let options = StreamAddOptions::default()
        .idmp(producer_id, idempotent_id)
        .trim(StreamTrimStrategy::minid(StreamTrimmingMode::Approx, from).limit(0));
    Ok([("v66", options, "IDMP NOMKSTREAM IDMPAUTO MINID ~ = LIMIT 0")])
}

/// Keeps exactly this number of entries.
fn exactly(entries: usize) -> StreamTrimStrategy {
    StreamTrimStrategy::maxlen(StreamTrimmingMode::Exact, entries)
}

/// The options with the id `iid-1` of the producer `producer-1`.
fn produced(alloc: Global, options: StreamAddOptions) -> Result<StreamAddOptions, AllocError> {
    let producer_id = String::from_str(alloc, "producer-1")?;
    let idempotent_id = String::from_str(alloc, "iid-1")?;
    Ok(options.idmp(producer_id, idempotent_id))
}
