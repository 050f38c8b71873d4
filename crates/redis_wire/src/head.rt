//! The first byte of a value and a length of one or two digits, as most are, in few steps.
ghost use Rattle.std.specs.Int.{IsInRange};
ghost use Rattle.std.specs.Prelude.{◌≡◌, ◌≤◌, ◌+◌, ◌-◌, ◌*◌, ◌∷◌, IfSome, Some, drop, length, slice_index, true};
ghost use Rattle.redis_wire.specs.Place.{BeginsWithHead};

use crate::limits::Limits;
use std::simd::prelude::*;

/// Whether the bytes are CR and LF, in one comparison.
#[inline(always)]
fn is_crlf(first: u8, second: u8) -> bool
    ensures { result ≡ true → (first ≡ 13) × (second ≡ 10) }
{
    first as u32 + 256 * second as u32 == 2573
}

/// Whether CR LF is at offset `at`.
#[inline(always)]
pub fn is_crlf_at(bytes: &[u8], at: usize) -> bool
    requires { at + 2 ≤ length bytes.now }
    ensures { result ≡ true → drop at bytes.now ≡ 13 ∷ 10 ∷ drop (at + 2) bytes.now }
{
    is_crlf(bytes[at], bytes[at + 1])
}

/// Returns the first four bytes as one number, as `u32::from_le_bytes`.
#[inline(always)]
fn read_word(bytes: &[u8]) -> u32
    requires { 4 ≤ length bytes.now }
    ensures { result ≡ slice_index bytes.now 0 + 256 * (slice_index bytes.now 1
        + 256 * (slice_index bytes.now 2 + 256 * slice_index bytes.now 3)) }
{
    let [word] = u32x1::from_le_bytes(u8x4::from_slice(bytes)).to_array();
    word
}

/// Returns the first four bytes as one number, the first of them as the highest byte.
#[inline(always)]
fn read_turned_word(bytes: &[u8]) -> u32
    requires { 4 ≤ length bytes.now }
    ensures { result ≡ slice_index bytes.now 1 + 256 * (slice_index bytes.now 2
        + 256 * (slice_index bytes.now 3 + 256 * slice_index bytes.now 0)) }
{
    let word = read_word(bytes);
    word / 0x100 + word % 0x100 * 0x100_0000
}

/// Returns the digit between the byte `first` and CR LF, if these four are at the start of the bytes. With `first`
/// last, `0` CR LF to `9` CR LF are ten numbers in a row, so one comparison looks at all four.
#[inline(always)]
fn find_digit(bytes: &[u8], first: u8) -> Option<u32>
    requires { 4 ≤ length bytes.now }
    ensures kind { IfSome result (λ _. slice_index bytes.now 0 ≡ first) }
    ensures digit { IfSome result (λ _. IsInRange 48 57 (slice_index bytes.now 1)) }
    ensures cr { IfSome result (λ _. slice_index bytes.now 2 ≡ 13) }
    ensures lf { IfSome result (λ _. slice_index bytes.now 3 ≡ 10) }
    ensures is { IfSome result (λ n. n ≡ slice_index bytes.now 1 - 48) }
{
    let turned = read_turned_word(bytes);
    let zero = u32::from_le_bytes([b'0', b'\r', b'\n', first]);
    if turned < zero || turned > zero + 9 {
        return None;
    }
    Some(turned - zero)
}

/// Returns the number of two digits between the byte `first` and CR LF, if these five are at the start of the bytes.
/// With `first` last, the difference to `00` CR has the two digits as its bytes.
#[inline(always)]
fn find_two_digits(bytes: &[u8], first: u8) -> Option<u32>
    requires { 5 ≤ length bytes.now }
    ensures kind { IfSome result (λ _. slice_index bytes.now 0 ≡ first) }
    ensures tens { IfSome result (λ _. IsInRange 48 57 (slice_index bytes.now 1)) }
    ensures ones { IfSome result (λ _. IsInRange 48 57 (slice_index bytes.now 2)) }
    ensures cr { IfSome result (λ _. slice_index bytes.now 3 ≡ 13) }
    ensures lf { IfSome result (λ _. slice_index bytes.now 4 ≡ 10) }
    ensures is { IfSome result (λ n. n ≡ 10 * (slice_index bytes.now 1 - 48) + (slice_index bytes.now 2 - 48)) }
{
    let turned = read_turned_word(bytes);
    let zeros = u32::from_le_bytes([b'0', b'0', b'\r', first]);
    if turned < zeros || turned > zeros + 0x909 {
        return None;
    }
    let (tens, ones) = ((turned - zeros) % 0x100, (turned - zeros) / 0x100);
    if tens > 9 || bytes[4] != b'\n' {
        return None;
    }
    Some(10 * tens + ones)
}

/// Reads the length after the byte `first`, if it is one digit.
#[inline(always)]
pub fn read_one_digit(limits: Limits, bytes: &[u8], first: u8) -> Option<u32>
    requires length { 99 ≤ limits.length }
    requires line { 2 ≤ limits.line }
    requires room { 4 ≤ length bytes.now }
    ensures head { IfSome result (λ n. BeginsWithHead limits bytes.now first (Some n) (drop 4 bytes.now)) }
    ensures small { IfSome result (λ n. n ≤ 99) }
{
    let digit = find_digit(bytes, first)?;
    Some(digit)
}

/// Reads the length after the byte `first`, if it is two digits.
#[inline(always)]
pub fn read_two_digits(limits: Limits, bytes: &[u8], first: u8) -> Option<u32>
    requires length { 99 ≤ limits.length }
    requires line { 2 ≤ limits.line }
    requires room { 5 ≤ length bytes.now }
    ensures head { IfSome result (λ n. BeginsWithHead limits bytes.now first (Some n) (drop 5 bytes.now)) }
    ensures small { IfSome result (λ n. n ≤ 99) }
{
    let number = find_two_digits(bytes, first)?;
    Some(number)
}
