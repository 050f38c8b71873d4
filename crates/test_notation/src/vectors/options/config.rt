//! Vectors of the idempotency configuration, `XCFGSET`.
ghost use Rattle.std.specs.Prelude.{◌≡◌, [], ◌∷◌, codes, map};

use crate::vectors::OptionsVector;
use crate::vectors::config::ConfigAnswer;
use stream_options::StreamConfigOptions;

/// Accepted config calls, v20 to v24.
pub fn accepted_vectors() -> [OptionsVector<ConfigAnswer>; 5]
    ensures { map (λ v. v.0.now) result
        ≡ codes "v20" ∷ codes "v21" ∷ codes "v22" ∷ codes "v23" ∷ codes "v24" ∷ [] }
{
    let maxsize_first = StreamConfigOptions::with_idempotency_maxsize(1000).and_then(
        |options| options.idempotency_seconds(300),
    );
    [
        (
            "v20",
            StreamConfigOptions::with_idempotency_seconds(300),
            "IDMP-DURATION 300",
        ),
        (
            "v21",
            StreamConfigOptions::with_idempotency_maxsize(1000),
            "IDMP-MAXSIZE 1000",
        ),
        ("v22", maxsize_first, "IDMP-DURATION 300 IDMP-MAXSIZE 1000"),
        (
            "v23",
            both(86400, 10000),
            "IDMP-DURATION 86400 IDMP-MAXSIZE 10000",
        ),
        ("v24", both(1, 1), "IDMP-DURATION 1 IDMP-MAXSIZE 1"),
    ]
}

/// Refused config calls, v25 to v28.
pub fn refused_vectors() -> [OptionsVector<ConfigAnswer>; 4]
    ensures { map (λ v. v.0.now) result
        ≡ codes "v25" ∷ codes "v26" ∷ codes "v27" ∷ codes "v28" ∷ [] }
{
    [
        (
            "v25",
            StreamConfigOptions::with_idempotency_seconds(0),
            "IDMP-DURATION must be between 1 and 86400 seconds, got: 0",
        ),
        (
            "v26",
            StreamConfigOptions::with_idempotency_seconds(86401),
            "IDMP-DURATION must be between 1 and 86400 seconds, got: 86401",
        ),
        (
            "v27",
            StreamConfigOptions::with_idempotency_maxsize(0),
            "IDMP-MAXSIZE must be between 1 and 10000 entries, got: 0",
        ),
        (
            "v28",
            both(300, 10001),
            "IDMP-MAXSIZE must be between 1 and 10000 entries, got: 10001",
        ),
    ]
}

/// Both settings, the duration first.
fn both(seconds: u32, maxsize: u16) -> ConfigAnswer {
    StreamConfigOptions::with_idempotency_seconds(seconds)?.idempotency_maxsize(maxsize)
}
