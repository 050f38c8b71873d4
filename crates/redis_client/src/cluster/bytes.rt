//! Splitting bytes at a byte, and parsing numbers.
ghost use Rattle.std.specs.Prelude.{◌≡◌, ◌++◌, ◌==◌, ◌^◌, ◌<◌, ◌≢◌, List, MatchOption, ℕ, decimal, option_map, position};
ghost use Rattle.redis_client.specs.Cluster.Split.{IsSplitAtLast, split_first};

use itoa::Buffer;
use std::str;

/// The bytes after this prefix.
pub(crate) fn bytes_behind<'a>(head: &[u8], bytes: &'a [u8]) -> Option<&'a [u8]>
    ensures { MatchOption result ((rest : List ℕ) → bytes.now ≢ head.now ++ rest) (λ rest. bytes.now ≡ head.now ++ rest.now) }
{
    bytes.strip_prefix(head)
}

/// The index of the first such byte.
fn find_byte(bytes: &[u8], byte: u8) -> Option<usize>
    ensures { result ≡ position (λ b. b == byte) bytes.now }
{
    bytes.iter().position(|b| *b == byte)
}

/// The part before the first such byte, and the part after it.
pub(crate) fn split_first(bytes: &[u8], byte: u8) -> Option<(&[u8], &[u8])>
    ensures { option_map (λ x. (x.0.now, x.1.now)) result ≡ split_first byte bytes.now }
{
    let place = find_byte(bytes, byte)?;
    Some((&bytes[..place], &bytes[place + 1..]))
}

/// The part before the last such byte, and the part after it.
pub(crate) fn split_last(bytes: &[u8], byte: u8) -> Option<(&[u8], &[u8])>
    ensures { IsSplitAtLast byte bytes.now (option_map (λ x. (x.0.now, x.1.now)) result) }
{
    let mut place = bytes.len();
    while place > 0 {
        place -= 1;
        if bytes[place] == byte {
            return Some((&bytes[..place], &bytes[place + 1..]));
        }
    }
    None
}

/// The number of the decimal digits, with no sign and no leading zero.
pub(crate) fn number_in(bytes: &[u8]) -> Option<u16>
    ensures { MatchOption result ((n : ℕ) → n < 2 ^ 16 → decimal n ≢ bytes.now) (λ n. decimal n ≡ bytes.now) }
{
    let Ok(text) = str::from_utf8(bytes) else {
        return None;
    };
    let Ok(number) = text.parse::<u16>() else {
        return None;
    };
    let mut buffer = Buffer::new();
    if buffer.format(number).as_bytes() == bytes {
        Some(number)
    } else {
        None
    }
}
