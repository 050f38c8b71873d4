//! Finds short bulk strings and short array headers, the usual case, in few steps.
ghost use Rattle.std.specs.Prelude.{◌≡◌, ◌≤◌, ◌+◌, ℕ, List, IfSome, IsSomeAnd, Some, drop, length, true};
ghost use Rattle.redis_wire.specs.Place.{text_in, IsHeadAt, IsTextAt, IsArrayAt, BeginsWithText};
ghost use Rattle.redis_wire.specs.Place.{BeginsWithArray, EndsBefore};
ghost use Rattle.stream_in_place.specs.Added.{IsFieldAt};

use crate::places::FieldPlace;
use redis_wire::Limits;
use redis_wire::head::{is_crlf_at, read_one_digit, read_two_digits};
use redis_wire::place::{Span, array_at, text_at};

/// Whether the limits allow every length of two digits, so that those need not be compared with the limits.
#[inline(always)]
fn may_be_short(limits: Limits) -> bool
    ensures length { result ≡ true → 99 ≤ limits.length }
    ensures line { result ≡ true → 2 ≤ limits.line }
{
    limits.length >= 99 && limits.line >= 2
}

/// Returns the text of `len` bytes at `start`, whose header is at offset `at`, and the offset after its
/// CR LF.
#[inline(always)]
fn read_body(
    limits: Limits,
    bytes: &[u8],
    at: usize,
    start: usize,
    len: usize,
) -> Option<(Span, usize)>
    requires room { start + len + 2 ≤ length bytes.now }
    requires head { IsHeadAt limits bytes.now at 36 (Some len) start }
    ensures is { IfSome result (λ x. IsTextAt limits bytes.now at x.0 x.1) }
    ensures found { (text rest : List ℕ) → BeginsWithText limits (drop at bytes.now) text rest
        → IfSome result (λ x. (text_in bytes.now x.0 ≡ text) × EndsBefore bytes.now rest x.1) }
    ensures end { IfSome result (λ x. x.1 ≡ start + len + 2) }
{
    if !is_crlf_at(bytes, start + len) {
        return None;
    }
    Some((Span { start, len }, start + len + 2))
}

/// Returns the text of the bulk string at offset `at`, and the offset of its end. `None` unless its length has
/// one or two digits. The longest such string has 106 bytes, so its end is never missing.
#[inline(always)]
fn read_short_text(limits: Limits, bytes: &[u8], at: usize) -> Option<(Span, usize)>
    requires length { 99 ≤ limits.length }
    requires line { 2 ≤ limits.line }
    requires room { at + 106 ≤ length bytes.now }
    ensures is { IfSome result (λ x. IsTextAt limits bytes.now at x.0 x.1) }
    ensures found { (text rest : List ℕ) → BeginsWithText limits (drop at bytes.now) text rest
        → IfSome result (λ x. (text_in bytes.now x.0 ≡ text) × EndsBefore bytes.now rest x.1) }
    ensures near { IfSome result (λ x. x.1 ≤ at + 106) }
{
    let (_, left) = bytes.split_at(at);
    if let Some(len) = read_one_digit(limits, left, b'$') {
        return read_body(limits, bytes, at, at + 4, len as usize);
    }
    match read_two_digits(limits, left, b'$') {
        None => None,
        Some(len) => read_body(limits, bytes, at, at + 5, len as usize),
    }
}

/// Returns the text of the bulk string at offset `at`, and the offset of its end, if `read_short_text` can read it.
/// `None` unless 106 bytes are left.
#[inline(always)]
fn find_short_text(limits: Limits, bytes: &[u8], at: usize) -> Option<(Span, usize)>
    requires { at ≤ length bytes.now }
    ensures is { IfSome result (λ x. IsTextAt limits bytes.now at x.0 x.1) }
    ensures found { (text rest : List ℕ) → BeginsWithText limits (drop at bytes.now) text rest
        → IfSome result (λ x. (text_in bytes.now x.0 ≡ text) × EndsBefore bytes.now rest x.1) }
{
    if !may_be_short(limits) || bytes.len() - at < 106 {
        return None;
    }
    read_short_text(limits, bytes, at)
}

/// Returns the text of the bulk string of any length at offset `at`, and the offset of its end.
#[inline(never)]
fn read_any_text(limits: Limits, bytes: &[u8], at: usize) -> Option<(Span, usize)>
    requires { at ≤ length bytes.now }
    ensures is { IfSome result (λ x. IsTextAt limits bytes.now at x.0 x.1) }
    ensures found { (text rest : List ℕ) → BeginsWithText limits (drop at bytes.now) text rest
        → IsSomeAnd result (λ x. (text_in bytes.now x.0 ≡ text) × EndsBefore bytes.now rest x.1) }
{
    text_at(limits, bytes, at)
}

/// Returns the text of the bulk string at offset `at`, and the offset of its end, as `text_at` does.
/// The parts of a span are named, so that they stay in registers.
#[inline(always)]
pub fn bulk_at(limits: Limits, bytes: &[u8], at: usize) -> Option<(Span, usize)>
    requires { at ≤ length bytes.now }
    ensures is { IfSome result (λ x. IsTextAt limits bytes.now at x.0 x.1) }
    ensures found { (text rest : List ℕ) → BeginsWithText limits (drop at bytes.now) text rest
        → IsSomeAnd result (λ x. (text_in bytes.now x.0 ≡ text) × EndsBefore bytes.now rest x.1) }
{
    if let Some((Span { start, len }, after)) = find_short_text(limits, bytes, at) {
        return Some((Span { start, len }, after));
    }
    let (Span { start, len }, after) = read_any_text(limits, bytes, at)?;
    Some((Span { start, len }, after))
}

/// Returns the field at offset `at`, a name and a value, and the offset of its end, if `read_short_text` can read both.
/// `None` unless 212 bytes are left, so that one look at what is left does for both.
#[inline(always)]
fn read_short_field(limits: Limits, bytes: &[u8], at: usize) -> Option<(FieldPlace, usize)>
    requires { at ≤ length bytes.now }
    ensures is { IfSome result (λ x. IsFieldAt limits bytes.now at x.0 x.1) }
    ensures found { (name value behind rest : List ℕ) → BeginsWithText limits (drop at bytes.now) name behind
        → BeginsWithText limits behind value rest → IfSome result (λ x. EndsBefore bytes.now rest x.1) }
{
    if !may_be_short(limits) || bytes.len() - at < 212 {
        return None;
    }
    let (name, middle) = read_short_text(limits, bytes, at)?;
    let (value, after) = read_short_text(limits, bytes, middle)?;
    Some((FieldPlace { name, value }, after))
}

/// Returns the field of any length at offset `at`, and the offset of its end.
#[inline(never)]
fn read_any_field(limits: Limits, bytes: &[u8], at: usize) -> Option<(FieldPlace, usize)>
    requires { at ≤ length bytes.now }
    ensures is { IfSome result (λ x. IsFieldAt limits bytes.now at x.0 x.1) }
    ensures found { (name value behind rest : List ℕ) → BeginsWithText limits (drop at bytes.now) name behind
        → BeginsWithText limits behind value rest → IsSomeAnd result (λ x. EndsBefore bytes.now rest x.1) }
{
    let (name, middle) = bulk_at(limits, bytes, at)?;
    let (value, after) = bulk_at(limits, bytes, middle)?;
    Some((FieldPlace { name, value }, after))
}

/// Returns the field at offset `at`, a name and a value in bulk strings, and the offset of its end.
/// The parts of a place are named, so that they stay in registers.
#[inline(always)]
pub fn field_at(limits: Limits, bytes: &[u8], at: usize) -> Option<(FieldPlace, usize)>
    requires { at ≤ length bytes.now }
    ensures is { IfSome result (λ x. IsFieldAt limits bytes.now at x.0 x.1) }
    ensures found { (name value behind rest : List ℕ) → BeginsWithText limits (drop at bytes.now) name behind
        → BeginsWithText limits behind value rest → IsSomeAnd result (λ x. EndsBefore bytes.now rest x.1) }
{
    if let Some((FieldPlace { name, value }, after)) = read_short_field(limits, bytes, at) {
        return Some((FieldPlace { name, value }, after));
    }
    let (FieldPlace { name, value }, after) = read_any_field(limits, bytes, at)?;
    Some((FieldPlace { name, value }, after))
}

/// Returns the number of elements of the array at offset `at`, and the offset of the end of its header.
/// `None` unless the count is one digit and 106 bytes are left.
#[inline(always)]
fn read_short_count(limits: Limits, bytes: &[u8], at: usize) -> Option<(u32, usize)>
    requires { at ≤ length bytes.now }
    ensures is { IfSome result (λ x. IsArrayAt limits bytes.now at x.0 x.1) }
    ensures found { (count : ℕ) (rest : List ℕ) → BeginsWithArray limits (drop at bytes.now) count rest
        → IfSome result (λ x. (x.0 ≡ count) × EndsBefore bytes.now rest x.1) }
{
    if !may_be_short(limits) || bytes.len() - at < 106 {
        return None;
    }
    let (_, left) = bytes.split_at(at);
    match read_one_digit(limits, left, b'*') {
        None => None,
        Some(count) => Some((count, at + 4)),
    }
}

/// Returns the number of elements of the array at offset `at`, and the offset of the end of its header,
/// as `array_at` does.
#[inline(always)]
pub fn count_at(limits: Limits, bytes: &[u8], at: usize) -> Option<(u32, usize)>
    requires { at ≤ length bytes.now }
    ensures is { IfSome result (λ x. IsArrayAt limits bytes.now at x.0 x.1) }
    ensures found { (count : ℕ) (rest : List ℕ) → BeginsWithArray limits (drop at bytes.now) count rest
        → IsSomeAnd result (λ x. (x.0 ≡ count) × EndsBefore bytes.now rest x.1) }
{
    if let Some((count, after)) = read_short_count(limits, bytes, at) {
        return Some((count, after));
    }
    let (count, after) = array_at(limits, bytes, at)?;
    Some((count, after))
}
