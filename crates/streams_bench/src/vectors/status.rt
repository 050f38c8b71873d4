//! Vectors of replies to `XDELEX` and `XACKDEL`.
ghost use Rattle.std.specs.Prelude.{◌≡◌, [], ◌∷◌, codes, map};

use test_notation::vectors::ReplyVector;

/// Deletions, v63 and v64.
pub fn deletion_vectors() -> [ReplyVector<'static>; 2]
    ensures { map (λ v. v.0.now) result
        ≡ codes "v63" ∷ codes "v64" ∷ [] }
{
    [("v63", "Int 2", "2"), ("v64", "Int 0", "refused 13")]
}

/// Acknowledgements, v65.
pub fn acknowledgement_vectors() -> [ReplyVector<'static>; 1]
    ensures { map (λ v. v.0.now) result
        ≡ codes "v65" ∷ [] }
{
    [("v65", "Attr(Int 1)", "refused 16")]
}
