//! Numbers in bytes.
ghost use Rattle.std.specs.Prelude.{◌≡◌, ◌<◌, ◌≢◌, ◌^◌, ℕ, MatchOption, decimal};

use itoa::Buffer;
use std::str;

/// The number of the decimal digits, with no sign and no leading zero.
pub(crate) fn number_in(bytes: &[u8]) -> Option<u16>
    ensures { MatchOption result ((n : ℕ) → n < 2 ^ 16 → decimal n ≢ bytes.now) (λ n. decimal n ≡ bytes.now) }
{
    let Ok(text) = str::from_utf8(bytes) else {
        return None;
    };
    let Ok(number) = text.parse::<u16>() else {
        return None;
    };
    let mut buffer = Buffer::new();
    if buffer.format(number).as_bytes() == bytes {
        Some(number)
    } else {
        None
    }
}
