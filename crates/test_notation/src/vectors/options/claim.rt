//! Vectors of `XAUTOCLAIM` and `XCLAIM`.
ghost use Rattle.std.specs.Prelude.{◌≡◌, [], ◌∷◌, IfOk, codes, map};

use crate::vectors::OptionsVector;
use std::alloc::{AllocError, Global};
use stream_options::{StreamAutoClaimOptions, StreamClaimOptions};

/// Automatic claim options, v29.
pub fn autoclaim_vectors() -> [OptionsVector<StreamAutoClaimOptions>; 1]
    ensures { map (λ v. v.0.now) result
        ≡ codes "v29" ∷ [] }
{
    [(
        "v29",
        StreamAutoClaimOptions::default().with_justid().count(3),
        "COUNT 3 JUSTID",
    )]
}

/// Claim options, v30 and v31.
pub fn claim_vectors(alloc: Global) -> Result<[OptionsVector<StreamClaimOptions>; 2], AllocError>
    ensures { IfOk result (λ vectors. map (λ v. v.0.now) vectors
        ≡ codes "v30" ∷ codes "v31" ∷ []) }
{
    let forced = StreamClaimOptions::default()
        .with_lastid(String::from_str(alloc, "1-0")?)
        .with_force()
        .idle(7);
    let retried = StreamClaimOptions::default()
        .retry(4)
        .time(9)
        .with_justid()
        .idle(0);
    Ok([
        ("v30", forced, "IDLE 7 FORCE LASTID 1-0"),
        ("v31", retried, "IDLE 0 TIME 9 RETRYCOUNT 4 JUSTID"),
    ])
}

/// Claim options whose id spells a keyword, v67.
pub fn keyword_vectors(alloc: Global) -> Result<[OptionsVector<StreamClaimOptions>; 1], AllocError>
    ensures { IfOk result (λ vectors. map (λ v. v.0.now) vectors
        ≡ codes "v67" ∷ []) }
{
    let options = StreamClaimOptions::default().with_lastid(String::from_str(alloc, "FORCE")?);
    Ok([("v67", options, "LASTID FORCE")])
}
