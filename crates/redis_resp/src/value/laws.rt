//! Law: `==` of errors is exact.
ghost use Rattle.std.specs.Prelude.{◌≡◌, ◌↔◌, IsTrue};

use crate::value::error::ParsingError;

/// `==` holds of two `ParsingError` exactly if they are the same. It allocates no memory.
pub fn equal_parsing_errors(a: &ParsingError, b: &ParsingError) -> bool
    ensures { IsTrue result ↔ (a.now ≡ b.now) }
{
    a == b
}
