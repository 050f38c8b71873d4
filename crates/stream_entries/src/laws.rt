//! The laws of `==` and of copies of `ReadForms`.
ghost use Rattle.std.specs.Prelude.{◌≡◌, ◌↔◌, IsTrue, Ok};

use crate::read_forms::ReadForms;
use std::alloc::AllocError;

/// Two `ReadForms` are equal exactly if they are the same. It allocates nothing.
pub fn equal_read_forms(a: ReadForms, b: ReadForms) -> bool
    ensures { IsTrue result ↔ (a ≡ b) }
{
    a == b
}

/// A copy of a `ReadForms` is the same value. It allocates nothing and is always Ok.
pub fn copied_forms(forms: &ReadForms) -> Result<ReadForms, AllocError>
    ensures { result ≡ Ok forms.now }
{
    forms.clone()
}
