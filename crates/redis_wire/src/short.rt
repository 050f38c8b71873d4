//! Passes the most common items of a reply in few steps: short bulk strings, and headers of short arrays.
ghost use Rattle.std.specs.Prelude.{◌≡◌, ◌≤◌, ◌+◌, ◌*◌, IfSome, Ok, Some, drop, length};
ghost use Rattle.redis_wire.specs.Item.{item_at};
ghost use Rattle.redis_wire.specs.Place.{BeginsWithHead};
ghost use Rattle.redis_wire.specs.Scan.{ArePassed};

use crate::head::{is_crlf_at, read_one_digit, read_two_digits};
use crate::limits::Limits;

/// Passes the `len` bytes at `start` and the CR LF after them, and returns the rest. `None` if no CR LF is there.
#[inline(always)]
fn pass_short_body(limits: Limits, bytes: &[u8], start: usize, len: usize) -> Option<&[u8]>
    requires room { start + len + 2 ≤ length bytes.now }
    requires head { BeginsWithHead limits bytes.now 36 (Some len) (drop start bytes.now) }
    ensures { IfSome result (λ rest. item_at limits bytes.now ≡ Ok (0, rest.now)) }
{
    if !is_crlf_at(bytes, start + len) {
        return None;
    }
    let (_, rest) = bytes.split_at(start + len + 2);
    Some(rest)
}

/// Passes a bulk string whose length has one or two digits, and returns the rest. The longest has 106 bytes, so its end
/// is never missing.
#[inline(always)]
fn pass_short_bulk(limits: Limits, bytes: &[u8]) -> Option<&[u8]>
    requires length { 99 ≤ limits.length }
    requires line { 2 ≤ limits.line }
    requires room { 106 ≤ length bytes.now }
    ensures { IfSome result (λ rest. item_at limits bytes.now ≡ Ok (0, rest.now)) }
{
    if let Some(len) = read_one_digit(limits, bytes, b'$') {
        return pass_short_body(limits, bytes, 4, len as usize);
    }
    match read_two_digits(limits, bytes, b'$') {
        None => None,
        Some(len) => pass_short_body(limits, bytes, 5, len as usize),
    }
}

/// Passes at most `most` short bulk strings, one after another, and returns their number and the rest.
#[inline(always)]
pub fn pass_short_bulks(limits: Limits, most: u64, bytes: &[u8]) -> (u64, &[u8])
    ensures few { result.0 ≤ most }
    ensures pass { ArePassed limits bytes.now result.0 result.1.now }
    ensures shorter { length result.1.now + 3 * result.0 ≤ length bytes.now }
{
    if limits.length < 99 || limits.line < 2 {
        return (0, bytes);
    }
    let mut passed = 0;
    let mut rest = bytes;
    while passed < most && rest.len() >= 106 {
        let Some(behind) = pass_short_bulk(limits, rest) else {
            break;
        };
        rest = behind;
        passed += 1;
    }
    (passed, rest)
}

/// Passes the header of an array of at most nine members, and returns their number and the rest.
#[inline(always)]
pub fn pass_short_array(limits: Limits, bytes: &[u8]) -> Option<(u32, &[u8])>
    ensures { IfSome result (λ x. item_at limits bytes.now ≡ Ok (x.0, x.1.now)) }
{
    if limits.length < 99 || limits.line < 2 || bytes.len() < 4 {
        return None;
    }
    let count = read_one_digit(limits, bytes, b'*')?;
    let (_, rest) = bytes.split_at(4);
    Some((count, rest))
}
