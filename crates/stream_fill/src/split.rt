//! Splitting bytes at a byte.
ghost use Rattle.std.specs.Prelude.{◌≡◌, ◌∷◌, ◌++◌, Contains, IfSome, IsNone};

use memchr::memchr;

/// Splits `bytes` at the first occurrence of `byte`, which is in neither part. Returns `None` if `byte` does
/// not occur.
pub fn split_at_byte(bytes: &[u8], byte: u8) -> Option<(&[u8], &[u8])>
    ensures some { IfSome result (λ s. bytes.now ≡ s.0.now ++ byte ∷ s.1.now) }
    ensures first { IfSome result (λ s. Contains s.0.now byte → ⊥) }
    ensures none { IsNone result → Contains bytes.now byte → ⊥ }
{
    let (front, rest) = bytes.split_at_checked(memchr(byte, bytes)?)?;
    let (_byte, rest) = rest.split_first()?;
    Some((front, rest))
}
