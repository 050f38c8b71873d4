//! Vectors of replies to `XRANGE`, `XCLAIM`, `XREAD` and `XREADGROUP`.
ghost use Rattle.std.specs.Prelude.{◌≡◌, [], ◌∷◌, codes, map};

use test_notation::vectors::ReplyVector;

/// Ranges, v36 to v38.
pub fn range_vectors() -> [ReplyVector<'static>; 3]
    ensures { map (λ v. v.0.now) result
        ≡ codes "v36" ∷ codes "v37" ∷ codes "v38" ∷ [] }
{
    [
        ("v36", "Array[Array[1-0, Array[f, v]]]", "1-0(f=v)"),
        ("v37", "Map[1-0: Array[f, v]]", "1-0(f=v)"),
        (
            "v38",
            "Array[Array[1-0, Array[a, b], 2-0, Nil, 1-0, Array[]]]",
            "1-0() 2-0()",
        ),
    ]
}

/// Claims, v39.
pub fn claim_vectors() -> [ReplyVector<'static>; 1]
    ensures { map (λ v. v.0.now) result
        ≡ codes "v39" ∷ [] }
{
    [("v39", "Nil", "-")]
}

/// Reads, v40 to v43.
pub fn read_vectors() -> [ReplyVector<'static>; 4]
    ensures { map (λ v. v.0.now) result
        ≡ codes "v40" ∷ codes "v41" ∷ codes "v42" ∷ codes "v43" ∷ [] }
{
    [
        (
            "v40",
            "Map[s: Array[Array[1-0, Array[f, v], Int 5, Int 2]]]",
            "s[1-0(f=v)@5#2]",
        ),
        (
            "v41",
            "Array[Array[s, Array[Array[1-0, Array[f, v], Int 5, Nil]]]]",
            "s[1-0(f=v) 5()]",
        ),
        (
            "v42",
            "Array[Array[s, Array[Array[5, Array[f, v], Int 5, Nil]]]]",
            "s[5()]",
        ),
        (
            "v43",
            "Array[Array[s, Array[Array[1-0, Array[f, v]], Array[2-0, Array[f, v], Int 5, Int 2]]]]",
            "refused 9",
        ),
    ]
}

/// Ranges with attributes, bytes that are not text, and odd shapes, v70 to v76.
pub fn odd_range_vectors() -> [ReplyVector<'static>; 7]
    ensures { map (λ v. v.0.now) result
        ≡ codes "v70" ∷ codes "v71" ∷ codes "v72" ∷ codes "v73" ∷ codes "v74"
        ∷ codes "v75" ∷ codes "v76" ∷ [] }
{
    [
        (
            "v70",
            "Attr(Array[Attr(Array[Attr(1-0), Attr(Map[Attr(f): Attr(v)])])])",
            "1-0(f=v)",
        ),
        ("v71", "Array[Array[1-0, Array[f]]]", "refused 4"),
        ("v72", "Array[Array[Bytes(255), Nil]]", "refused 1"),
        ("v73", "Array[Array[1-0, Array[f, Bytes(255)]]]", "1-0(f=?)"),
        ("v74", "Array[Array[1-0, x, 1-0, Nil]]", "refused 4"),
        (
            "v75",
            "Set[Array[Int 7, Array[f, Boolean(true)]]]",
            "7(f=?)",
        ),
        ("v76", "Push(message)[Array[1-0, Nil]]", "refused 3"),
    ]
}

/// Reads with numbers at their bounds and missing ones, v77 to v80.
pub fn odd_read_vectors() -> [ReplyVector<'static>; 4]
    ensures { map (λ v. v.0.now) result
        ≡ codes "v77" ∷ codes "v78" ∷ codes "v79" ∷ codes "v80" ∷ [] }
{
    [
        (
            "v77",
            "Array[Array[s, Array[Array[1-0, Nil, 18446744073709551615, Int 0]]]]",
            "s[1-0()@18446744073709551615#0]",
        ),
        (
            "v78",
            "Array[Array[s, Array[Array[1-0, Nil, 18446744073709551616, Int 0]]]]",
            "refused 9",
        ),
        (
            "v79",
            "Array[Array[s, Array[Array[1-0, Nil, Nil, Int 2]]]]",
            "s[1-0()#2]",
        ),
        (
            "v80",
            "Array[Array[s, Array[Array[1-0, Nil, Nil, Nil]]]]",
            "s[1-0()]",
        ),
    ]
}
