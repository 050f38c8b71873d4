//! Vectors of replies to `XPENDING`.
ghost use Rattle.std.specs.Prelude.{◌≡◌, [], ◌∷◌, codes, map};

use test_notation::vectors::ReplyVector;

/// Summaries, v53 to v55.
pub fn summary_vectors() -> [ReplyVector<'static>; 3]
    ensures { map (λ v. v.0.now) result
        ≡ codes "v53" ∷ codes "v54" ∷ codes "v55" ∷ [] }
{
    [
        ("v53", "Array[Int 0, x, Nil, Nil]", "empty"),
        ("v54", "Array[Int 3, Nil, 2-0, Array[]]", "refused 10"),
        (
            "v55",
            "Array[+2, 1-0, 2-0, Array[Nil, Array[c, two]]]",
            "2 1-0 2-0 [c=0]",
        ),
    ]
}

/// Pending entries, v56 and v57.
pub fn entry_vectors() -> [ReplyVector<'static>; 2]
    ensures { map (λ v. v.0.now) result
        ≡ codes "v56" ∷ codes "v57" ∷ [] }
{
    [
        ("v56", "Array[Array[1-0, c, Int 5, Int 2]]", "1-0 c 5 2"),
        (
            "v57",
            "Array[Array[1-0, c, Int -1, Int 0]]",
            "1-0 c 18446744073709551615 0",
        ),
    ]
}

/// A pending entry with the smallest number, v84.
pub fn odd_entry_vectors() -> [ReplyVector<'static>; 1]
    ensures { map (λ v. v.0.now) result
        ≡ codes "v84" ∷ [] }
{
    [(
        "v84",
        "Array[Array[1-0, c, Int -9223372036854775808, Int 0]]",
        "1-0 c 9223372036854775808 0",
    )]
}
