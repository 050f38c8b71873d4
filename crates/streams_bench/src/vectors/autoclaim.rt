//! Vectors of replies to `XAUTOCLAIM`.
ghost use Rattle.std.specs.Prelude.{◌≡◌, [], ◌∷◌, codes, map};

use test_notation::vectors::ReplyVector;

/// Automatic claims, v44 to v52.
pub fn autoclaim_vectors() -> [ReplyVector<'static>; 9]
    ensures { map (λ v. v.0.now) result
        ≡ codes "v44" ∷ codes "v45" ∷ codes "v46" ∷ codes "v47" ∷ codes "v48"
        ∷ codes "v49" ∷ codes "v50" ∷ codes "v51" ∷ codes "v52" ∷ [] }
{
    [
        ("v44", "Array[1713465536578-0]", "refused 7"),
        (
            "v45",
            "Array[0-0, Array[], Array[]]",
            "next=0-0 claimed=[] deleted=[] invalid=false",
        ),
        (
            "v46",
            "Array[1713465536578-0, Array[Array[1713465533411-0, Array[name, test, other, whaterver]], Array[1713465536069-0, Array[name, \"another test\", other, something]]], Array[123456789-0]]",
            "next=1713465536578-0 claimed=[1713465533411-0(name=test,other=whaterver) 1713465536069-0(name=another test,other=something)] deleted=[123456789-0] invalid=false",
        ),
        (
            "v47",
            "Array[1713465536578-0, Array[Array[1713465533411-0, Array[name, test, other, whaterver]], Array[1713465536069-0, Array[name, \"another test\", other, something]]]]",
            "next=1713465536578-0 claimed=[1713465533411-0(name=test,other=whaterver) 1713465536069-0(name=another test,other=something)] deleted=[] invalid=false",
        ),
        (
            "v48",
            "Array[1713465536578-0, Array[1713465533411-0, 1713465536069-0], Array[123456789-0]]",
            "next=1713465536578-0 claimed=[1713465533411-0() 1713465536069-0()] deleted=[123456789-0] invalid=false",
        ),
        (
            "v49",
            "Array[1713465536578-0, Array[1713465533411-0, 1713465536069-0]]",
            "next=1713465536578-0 claimed=[1713465533411-0() 1713465536069-0()] deleted=[] invalid=false",
        ),
        (
            "v50",
            "Array[0-0, Array[Nil, Nil]]",
            "next=0-0 claimed=[] deleted=[] invalid=true",
        ),
        (
            "v51",
            "Array[0-0, Array[Nil, Array[1-0, Array[], 2-0, Array[]]]]",
            "next=0-0 claimed=[1-0() 2-0()] deleted=[] invalid=false",
        ),
        ("v52", "Array[0-0, Map[]]", "refused 8"),
    ]
}

/// Automatic claims with attributes around nil, and of mixed kinds, v81 to v83.
pub fn odd_autoclaim_vectors() -> [ReplyVector<'static>; 3]
    ensures { map (λ v. v.0.now) result
        ≡ codes "v81" ∷ codes "v82" ∷ codes "v83" ∷ [] }
{
    [
        ("v81", "Array[0-0, Array[Nil, Attr(Nil), 1-0]]", "refused 8"),
        (
            "v82",
            "Array[0-0, Array[1-0, Attr(Nil)]]",
            "next=0-0 claimed=[1-0()] deleted=[] invalid=true",
        ),
        (
            "v83",
            "Array[0-0, Array[Array[1-0, Nil], 2-0]]",
            "refused 4",
        ),
    ]
}
