//! What `==` of the errors of this crate means.
ghost use Rattle.std.specs.Prelude.{◌≡◌, ◌↔◌, IsTrue};

use crate::error::SentenceError;
use crate::run_error::RunError;

/// Whether two `SentenceError` are equal: `==` is true exactly if they are the same. It allocates no memory.
pub fn equal_sentence_errors(a: SentenceError, b: SentenceError) -> bool
    ensures { IsTrue result ↔ (a ≡ b) }
{
    a == b
}

/// Whether two `RunError` are equal: `==` is true exactly if they are the same. It allocates no memory.
pub fn equal_run_errors(a: RunError, b: RunError) -> bool
    ensures { IsTrue result ↔ (a ≡ b) }
{
    a == b
}
