//! The law of `==` on the errors of this crate.
ghost use Rattle.std.specs.Prelude.{◌≡◌, ◌↔◌, IsTrue};

use crate::notation::NotationError;

/// Whether two `NotationError` are the same, by `==`. It takes no memory.
pub fn equal_notation_errors(a: &NotationError, b: &NotationError) -> bool
    ensures { IsTrue result ↔ (a.now ≡ b.now) }
{
    a == b
}
