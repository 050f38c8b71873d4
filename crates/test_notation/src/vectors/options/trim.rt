//! Vectors of `XTRIM`.
ghost use Rattle.std.specs.Prelude.{◌≡◌, [], ◌∷◌, IfOk, codes, map};

use crate::vectors::OptionsVector;
use std::alloc::{AllocError, Global};
use stream_options::{StreamDeletionPolicy, StreamMaxlen, StreamTrimOptions, StreamTrimmingMode};

/// Trim options, v01 to v06.
pub fn trim_vectors(alloc: Global) -> Result<[OptionsVector<StreamTrimOptions>; 6], AllocError>
    ensures { IfOk result (λ vectors. map (λ v. v.0.now) vectors
        ≡ codes "v01" ∷ codes "v02" ∷ codes "v03" ∷ codes "v04" ∷ codes "v05" ∷ codes "v06" ∷ []) }
{
    let id = String::from_str(alloc, "123456-7")?;
    let keyword = String::from_str(alloc, "LIMIT")?;
    let about_ten = StreamTrimOptions::maxlen(StreamTrimmingMode::Approx, 10);
    Ok([
        (
            "v01",
            StreamTrimOptions::maxlen(StreamTrimmingMode::Approx, 10).limit(5),
            "MAXLEN ~ 10 LIMIT 5",
        ),
        ("v02", about_ten, "MAXLEN ~ 10"),
        (
            "v03",
            StreamTrimOptions::maxlen(StreamTrimmingMode::Exact, 10),
            "MAXLEN = 10",
        ),
        (
            "v04",
            StreamTrimOptions::minid(StreamTrimmingMode::Exact, id).limit(5),
            "MINID = 123456-7 LIMIT 5",
        ),
        (
            "v05",
            StreamTrimOptions::maxlen(StreamTrimmingMode::Approx, 10)
                .limit(5)
                .limit(7),
            "MAXLEN ~ 10 LIMIT 7",
        ),
        (
            "v06",
            StreamTrimOptions::minid(StreamTrimmingMode::Exact, keyword).set_deletion_policy(
                StreamDeletionPolicy::Acked,
            ),
            "MINID = LIMIT ACKED",
        ),
    ])
}

/// Lengths, v07 and v08.
pub fn maxlen_vectors() -> [OptionsVector<StreamMaxlen>; 2]
    ensures { map (λ v. v.0.now) result
        ≡ codes "v07" ∷ codes "v08" ∷ [] }
{
    [
        ("v07", StreamMaxlen::Equals(0), "MAXLEN = 0"),
        (
            "v08",
            StreamMaxlen::Approx(18446744073709551615),
            "MAXLEN ~ 18446744073709551615",
        ),
    ]
}
