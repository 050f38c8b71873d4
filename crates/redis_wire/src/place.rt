//! The positions of values in bytes, found without copying.
ghost use Rattle.std.specs.Prelude.{◌≡◌, ◌≤◌, ℕ, List, [], drop, pos, IfSome, IsSomeAnd, Option, Some, None, length};
ghost use Rattle.redis_wire.specs.Scalar.{number_of};
ghost use Rattle.redis_wire.specs.Place.{IsHeadAt, IsLineAt, IsTextAt, IsArrayAt, IsMapAt, IsNilAt, IsIntAt};
ghost use Rattle.redis_wire.specs.Place.{BeginsWithHead, BeginsWithLine, BeginsWithText, BeginsWithArray, BeginsWithMap};
ghost use Rattle.redis_wire.specs.Place.{BeginsWithNil, BeginsWithInt, EndsBefore, text_in};

use crate::limits::Limits;
use crate::line::{blob_at, line_at};
use crate::number::{length_at, number_of};

/// The position of a text in bytes.
#[repr(C)]
#[derive(Clone, Copy, Debug, PartialEq, Eq)]
pub struct Span {
    /// The number of bytes before it.
    pub start: usize,
    /// The number of its bytes.
    pub len: usize,
}

/// Reads the header of the value at offset `at`, if its first byte is `first`. Returns the length, or `None`
/// for -1, and the offset after the line.
#[inline(always)]
pub(crate) fn head_at(
    limits: Limits,
    bytes: &[u8],
    at: usize,
    first: u8,
) -> Option<(Option<u32>, usize)>
    requires { at ≤ length bytes.now }
    ensures is { IfSome result (λ x. IsHeadAt limits bytes.now at first x.0 x.1) }
    ensures found { (n : Option ℕ) (rest : List ℕ) → BeginsWithHead limits (drop at bytes.now) first n rest
        → IsSomeAnd result (λ x. (x.0 ≡ n) × EndsBefore bytes.now rest x.1) }
{
    let (_, rest) = bytes.split_at(at);
    let (byte, behind) = rest.split_first()?;
    if *byte != first {
        return None;
    }
    match length_at(limits, behind) {
        Ok((len, left)) => Some((len, bytes.len() - left.len())),
        Err(_) => None,
    }
}

/// Reads the line of the value at offset `at`, if its first byte is `first`. Returns the line without that
/// byte, and the offset after it.
pub(crate) fn line_behind(
    limits: Limits,
    bytes: &[u8],
    at: usize,
    first: u8,
) -> Option<(&[u8], usize)>
    requires { at ≤ length bytes.now }
    ensures is { IfSome result (λ x. IsLineAt limits bytes.now at first x.0.now x.1) }
    ensures found { (line rest : List ℕ) → BeginsWithLine limits (drop at bytes.now) first line rest
        → IsSomeAnd result (λ x. (x.0.now ≡ line) × EndsBefore bytes.now rest x.1) }
{
    let (_, rest) = bytes.split_at(at);
    let (byte, behind) = rest.split_first()?;
    if *byte != first {
        return None;
    }
    match line_at(limits.line, behind) {
        Ok((line, left)) => Some((line, bytes.len() - left.len())),
        Err(_) => None,
    }
}

/// Finds the text of the bulk string at offset `at`, if a whole one is there. Returns its position, and
/// the offset after the bulk string.
#[inline(always)]
pub fn text_at(limits: Limits, bytes: &[u8], at: usize) -> Option<(Span, usize)>
    requires { at ≤ length bytes.now }
    ensures is { IfSome result (λ x. IsTextAt limits bytes.now at x.0 x.1) }
    ensures found { (text rest : List ℕ) → BeginsWithText limits (drop at bytes.now) text rest
        → IsSomeAnd result (λ x. (text_in bytes.now x.0 ≡ text) × EndsBefore bytes.now rest x.1) }
{
    let (Some(len), start) = head_at(limits, bytes, at, b'$')? else {
        return None;
    };
    let (_, rest) = bytes.split_at(start);
    match blob_at(len as usize, rest) {
        Ok((_, left)) => Some((
            Span {
                start,
                len: len as usize,
            },
            bytes.len() - left.len(),
        )),
        Err(_) => None,
    }
}

/// Reads the header of the array at offset `at`. Returns the number of its members, and the offset after
/// the header.
pub fn array_at(limits: Limits, bytes: &[u8], at: usize) -> Option<(u32, usize)>
    requires { at ≤ length bytes.now }
    ensures is { IfSome result (λ x. IsArrayAt limits bytes.now at x.0 x.1) }
    ensures found { (count : ℕ) (rest : List ℕ) → BeginsWithArray limits (drop at bytes.now) count rest
        → IsSomeAnd result (λ x. (x.0 ≡ count) × EndsBefore bytes.now rest x.1) }
{
    match head_at(limits, bytes, at, b'*')? {
        (Some(count), after) => Some((count, after)),
        (None, _) => None,
    }
}

/// Reads the header of the map at offset `at`. Returns the number of its pairs, and the offset after the
/// header.
pub fn map_at(limits: Limits, bytes: &[u8], at: usize) -> Option<(u32, usize)>
    requires { at ≤ length bytes.now }
    ensures is { IfSome result (λ x. IsMapAt limits bytes.now at x.0 x.1) }
    ensures found { (count : ℕ) (rest : List ℕ) → BeginsWithMap limits (drop at bytes.now) count rest
        → IsSomeAnd result (λ x. (x.0 ≡ count) × EndsBefore bytes.now rest x.1) }
{
    match head_at(limits, bytes, at, b'%')? {
        (Some(count), after) => Some((count, after)),
        (None, _) => None,
    }
}

/// Returns the offset after the array of length -1 at offset `at`, if there is one.
fn read_null_array(limits: Limits, bytes: &[u8], at: usize) -> Option<usize>
    requires { at ≤ length bytes.now }
    ensures is { IfSome result (λ after. IsNilAt limits bytes.now at after) }
    ensures found { (rest : List ℕ) → BeginsWithHead limits (drop at bytes.now) 42 None rest
        → IsSomeAnd result (EndsBefore bytes.now rest) }
{
    match head_at(limits, bytes, at, b'*')? {
        (None, after) => Some(after),
        (Some(_), _) => None,
    }
}

/// Returns the offset after the bulk string of length -1 at offset `at`, if there is one.
fn read_null_bulk_string(limits: Limits, bytes: &[u8], at: usize) -> Option<usize>
    requires { at ≤ length bytes.now }
    ensures is { IfSome result (λ after. IsNilAt limits bytes.now at after) }
    ensures found { (rest : List ℕ) → BeginsWithHead limits (drop at bytes.now) 36 None rest
        → IsSomeAnd result (EndsBefore bytes.now rest) }
{
    match head_at(limits, bytes, at, b'$')? {
        (None, after) => Some(after),
        (Some(_), _) => None,
    }
}

/// Returns the offset after the null at offset `at`, if there is one.
fn read_null(limits: Limits, bytes: &[u8], at: usize) -> Option<usize>
    requires { at ≤ length bytes.now }
    ensures is { IfSome result (λ after. IsNilAt limits bytes.now at after) }
    ensures found { (rest : List ℕ) → BeginsWithLine limits (drop at bytes.now) 95 [] rest
        → IsSomeAnd result (EndsBefore bytes.now rest) }
{
    match line_behind(limits, bytes, at, b'_')? {
        ([], after) => Some(after),
        _ => None,
    }
}

/// Returns the offset after the nil at offset `at`: an array or a bulk string of length -1, or a null.
pub fn nil_at(limits: Limits, bytes: &[u8], at: usize) -> Option<usize>
    requires { at ≤ length bytes.now }
    ensures is { IfSome result (λ after. IsNilAt limits bytes.now at after) }
    ensures found { (rest : List ℕ) → BeginsWithNil limits (drop at bytes.now) rest
        → IsSomeAnd result (EndsBefore bytes.now rest) }
{
    if let Some(after) = read_null_array(limits, bytes, at) {
        return Some(after);
    }
    if let Some(after) = read_null_bulk_string(limits, bytes, at) {
        return Some(after);
    }
    read_null(limits, bytes, at)
}

/// Parses the number on a line, if it is not negative.
fn parse_unsigned(line: &[u8]) -> Option<u64>
    ensures is { IfSome result (λ n. number_of line.now ≡ Some (pos n)) }
    ensures found { (n : ℕ) → number_of line.now ≡ Some (pos n) → result ≡ Some n }
{
    u64::try_from(number_of(line)?).ok()
}

/// Parses the integer at offset `at`, if it is not negative, and returns it with the offset after it.
pub fn int_at(limits: Limits, bytes: &[u8], at: usize) -> Option<(u64, usize)>
    requires { at ≤ length bytes.now }
    ensures is { IfSome result (λ x. IsIntAt limits bytes.now at x.0 x.1) }
    ensures found { (number : ℕ) (rest : List ℕ) → BeginsWithInt limits (drop at bytes.now) number rest
        → IsSomeAnd result (λ x. (x.0 ≡ number) × EndsBefore bytes.now rest x.1) }
{
    let (line, after) = line_behind(limits, bytes, at, b':')?;
    Some((parse_unsigned(line)?, after))
}
