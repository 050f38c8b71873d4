//! Finds the places of rows: entries with their fields.
ghost use Rattle.std.specs.Prelude.{◌≡◌, ◌≤◌, ◌<◌, ◌+◌, ◌++◌, ℕ, Bool, List, Option, IfOk, IfSome, IsOk, IsSomeAnd, IsTrue};
ghost use Rattle.std.specs.Prelude.{drop, flat_map, length, slice_index, true};
ghost use Rattle.std.specs.List.{AllByRecursion};
ghost use Rattle.std.specs.Str.{is_utf8, IsAscii};
ghost use Rattle.redis_wire.specs.Place.{text_in, IsSpan, IsTextAt, BeginsWithText, EndsBefore};
ghost use Rattle.stream_in_place.specs.Added.{row_count, FieldsAdded, OwnAdded, IsDeliveryAt, EntryAdded, EntriesAdded};
ghost use Rattle.stream_in_place.specs.Forms.{is_claim};
ghost use Rattle.stream_in_place.specs.Lent.{EntriesFit, FieldsFit};
ghost use Rattle.stream_in_place.specs.Sent.{Pairs, SentEntry, fields_of, all_fields};
ghost use Rattle.stream_in_place.specs.Shapes.{NilForm, pair_bytes, fields_bytes, delivery_bytes, entry_bytes};
ghost use Rattle.stream_in_place.specs.Shapes.{AllowsRows, IsPair, ArePairs, IsOfForm, IsEntryOf};

use crate::form::Form;
use crate::places::{EntryPlace, Places};
use crate::short::{bulk_at, count_at, field_at};
use redis_wire::Limits;
use redis_wire::place::{Span, int_at, nil_at};
use std::simd::prelude::*;

/// The text at that place.
#[inline(always)]
pub fn text_in(bytes: &[u8], span: Span) -> &[u8]
    requires { IsSpan bytes.now span }
    ensures { result.now ≡ text_in bytes.now span }
{
    &bytes[span.start..span.start + span.len]
}

/// Whether the eight bytes at offset `at` are ASCII, in one comparison.
#[inline(always)]
fn are_eight_ascii(bytes: &[u8], at: usize) -> bool
    requires { at + 8 ≤ length bytes.now }
    ensures { result ≡ true → (i : ℕ) → at ≤ i → i < at + 8 → slice_index bytes.now i < 128 }
{
    u8x8::from_slice(&bytes[at..])
        .simd_ge(u8x8::splat(0x80))
        .to_bitmask()
        == 0
}

/// Whether the sixteen bytes at offset `at` are ASCII, in one comparison.
#[inline(always)]
fn are_sixteen_ascii(bytes: &[u8], at: usize) -> bool
    requires { at + 16 ≤ length bytes.now }
    ensures { result ≡ true → (i : ℕ) → at ≤ i → i < at + 16 → slice_index bytes.now i < 128 }
{
    u8x16::from_slice(&bytes[at..])
        .simd_ge(u8x16::splat(0x80))
        .to_bitmask()
        == 0
}

/// Whether the bytes are 8 to 32 of ASCII, as those of nearly every id are. The first and the last sixteen, or eight, are
/// all of them.
#[inline(always)]
fn is_short_ascii(bytes: &[u8]) -> bool
    ensures { result ≡ true → IsAscii bytes.now }
{
    let len = bytes.len();
    if len < 8 || len > 32 {
        return false;
    }
    if len < 16 {
        return are_eight_ascii(bytes, 0) && are_eight_ascii(bytes, len - 8);
    }
    are_sixteen_ascii(bytes, 0) && are_sixteen_ascii(bytes, len - 16)
}

/// Whether the bytes are UTF-8, whatever their number.
#[inline(never)]
fn is_any_text(bytes: &[u8]) -> bool
    ensures { result ≡ is_utf8 bytes.now }
{
    match str::from_utf8(bytes) {
        Ok(_) => true,
        Err(_) => false,
    }
}

/// Whether the bytes are UTF-8.
#[inline(always)]
pub fn is_text(bytes: &[u8]) -> bool
    ensures { result ≡ is_utf8 bytes.now }
{
    if is_short_ascii(bytes) {
        return true;
    }
    is_any_text(bytes)
}

/// Returns the UTF-8 text of the bulk string at offset `at`, and the offset of its end.
#[inline(always)]
pub fn name_at(limits: Limits, bytes: &[u8], at: usize) -> Option<(Span, usize)>
    requires { at ≤ length bytes.now }
    ensures is { IfSome result (λ x. IsTextAt limits bytes.now at x.0 x.1) }
    ensures text { IfSome result (λ x. is_utf8 (text_in bytes.now x.0) ≡ true) }
    ensures found { (text rest : List ℕ) → BeginsWithText limits (drop at bytes.now) text rest
        → is_utf8 text ≡ true
        → IsSomeAnd result (λ x. (text_in bytes.now x.0 ≡ text) × EndsBefore bytes.now rest x.1) }
{
    let (span, after) = bulk_at(limits, bytes, at)?;
    if is_text(text_in(bytes, span)) {
        Some((span, after))
    } else {
        None
    }
}

/// Adds the `count` fields at `at`, and returns the offset of their end. `None` unless they are names and
/// values in bulk strings.
fn add_fields<P: Places>(
    limits: Limits,
    bytes: &[u8],
    at: usize,
    count: u32,
    places: &mut P,
) -> Result<Option<usize>, P::Refusal>
    requires { at ≤ length bytes.now }
    ensures is { IfOk result (λ o. IfSome o (λ after.
        FieldsAdded limits bytes.now at count after (P.held places.old) (P.held places.new))) }
    ensures found { (ps : Pairs) (rest : List ℕ) → AllowsRows limits → AllByRecursion (IsPair limits) ps
        → drop at bytes.now ≡ flat_map pair_bytes ps ++ rest → count ≡ length ps
        → IfOk result (λ o. IsSomeAnd o (EndsBefore bytes.now rest)) }
    ensures counts { IfOk result (λ o. IfSome o (λ _.
        length (P.held places.new).fields ≡ length (P.held places.old).fields + count)) }
    ensures fits { FieldsFit (P.lent places.old) (length (P.held places.old).fields + count) → IsOk result }
    ensures kept { P.lent places.new ≡ P.lent places.old }
{
    let mut behind = at;
    for _ in 0..count {
        let Some((field, after)) = field_at(limits, bytes, behind) else {
            return Ok(None);
        };
        places.push_field(field)?;
        behind = after;
    }
    Ok(Some(behind))
}

/// Adds the fields of the entry at `at`. Returns whether nil is in their place, as it is if the entry
/// was deleted, and the offset of their end.
fn add_own_fields<P: Places>(
    limits: Limits,
    bytes: &[u8],
    at: usize,
    places: &mut P,
) -> Result<Option<(bool, usize)>, P::Refusal>
    requires { at ≤ length bytes.now }
    ensures is { IfOk result (λ o. IfSome o (λ x.
        OwnAdded limits bytes.now at x.0 x.1 (P.held places.old) (P.held places.new))) }
    ensures found { (nil : NilForm) (fs : Option Pairs) (rest : List ℕ) → AllowsRows limits → ArePairs limits fs
        → drop at bytes.now ≡ fields_bytes nil fs ++ rest
        → IfOk result (λ o. IsSomeAnd o (λ x. EndsBefore bytes.now rest x.1)) }
    ensures counts { (nil : NilForm) (fs : Option Pairs) (rest : List ℕ) → AllowsRows limits → ArePairs limits fs
        → drop at bytes.now ≡ fields_bytes nil fs ++ rest → IfOk result (λ o. IfSome o (λ _.
        length (P.held places.new).fields ≡ length (P.held places.old).fields + length (fields_of fs))) }
    ensures fits { (nil : NilForm) (fs : Option Pairs) (rest : List ℕ) → AllowsRows limits → ArePairs limits fs
        → drop at bytes.now ≡ fields_bytes nil fs ++ rest
        → FieldsFit (P.lent places.old) (length (P.held places.old).fields + length (fields_of fs)) → IsOk result }
    ensures kept { P.lent places.new ≡ P.lent places.old }
{
    let Some((members, behind)) = count_at(limits, bytes, at) else {
        return match nil_at(limits, bytes, at) {
            None => Ok(None),
            Some(after) => Ok(Some((true, after))),
        };
    };
    if members % 2 != 0 {
        return Ok(None);
    }
    match add_fields(limits, bytes, behind, members / 2, places)? {
        None => Ok(None),
        Some(after) => Ok(Some((false, after))),
    }
}

/// When the entry was last delivered, and how many times, if the form has it, and the offset of the end.
fn read_delivery(limits: Limits, bytes: &[u8], at: usize, form: Form) -> Option<(u64, u64, usize)>
    requires { at ≤ length bytes.now }
    ensures is { IfSome result (λ x. IsDeliveryAt limits bytes.now at (is_claim form) x.0 x.1 x.2) }
    ensures found { (delivery : Option (ℕ × ℕ)) (rest : List ℕ) → AllowsRows limits → IsOfForm (is_claim form) delivery
        → drop at bytes.now ≡ delivery_bytes delivery ++ rest
        → IsSomeAnd result (λ x. EndsBefore bytes.now rest x.2) }
{
    if !form.tells_delivery() {
        return Some((0, 0, at));
    }
    let (elapsed, behind) = int_at(limits, bytes, at)?;
    let (count, after) = int_at(limits, bytes, behind)?;
    Some((elapsed, count, after))
}

/// The number of values of a row: an id and fields, and in the claim form a time and a count.
fn count_values(form: Form) -> u32
    ensures { result ≡ row_count (is_claim form) }
{
    if form.tells_delivery() { 4 } else { 2 }
}

/// Adds the fields of the entry at `at`, and returns the entry and the offset of its end.
fn add_entry<P: Places>(
    limits: Limits,
    bytes: &[u8],
    at: usize,
    form: Form,
    places: &mut P,
) -> Result<Option<(EntryPlace, usize)>, P::Refusal>
    requires { at ≤ length bytes.now }
    ensures is { IfOk result (λ o. IfSome o (λ x.
        EntryAdded limits bytes.now at (is_claim form) x.1 x.0 (P.held places.old) (P.held places.new))) }
    ensures found { (nil : NilForm) (e : SentEntry) (rest : List ℕ) → AllowsRows limits → IsEntryOf limits (is_claim form) e
        → drop at bytes.now ≡ entry_bytes nil e ++ rest
        → IfOk result (λ o. IsSomeAnd o (λ x. EndsBefore bytes.now rest x.1)) }
    ensures counts { (nil : NilForm) (e : SentEntry) (rest : List ℕ) → AllowsRows limits → IsEntryOf limits (is_claim form) e
        → drop at bytes.now ≡ entry_bytes nil e ++ rest → IfOk result (λ o. IfSome o (λ _.
        length (P.held places.new).fields ≡ length (P.held places.old).fields + length (fields_of e.fields))) }
    ensures fits { (nil : NilForm) (e : SentEntry) (rest : List ℕ) → AllowsRows limits → IsEntryOf limits (is_claim form) e
        → drop at bytes.now ≡ entry_bytes nil e ++ rest
        → FieldsFit (P.lent places.old) (length (P.held places.old).fields + length (fields_of e.fields))
        → IsOk result }
    ensures kept { P.lent places.new ≡ P.lent places.old }
{
    let Some((members, behind)) = count_at(limits, bytes, at) else {
        return Ok(None);
    };
    if members != count_values(form) {
        return Ok(None);
    }
    let Some((id, behind)) = name_at(limits, bytes, behind) else {
        return Ok(None);
    };
    let from = places.count_fields();
    let Some((deleted, behind)) = add_own_fields(limits, bytes, behind, places)? else {
        return Ok(None);
    };
    let Some((elapsed, count, after)) = read_delivery(limits, bytes, behind, form) else {
        return Ok(None);
    };
    let entry = EntryPlace {
        id,
        from,
        to: places.count_fields(),
        deleted,
        delivered: form.tells_delivery(),
        elapsed,
        count,
    };
    Ok(Some((entry, after)))
}

/// Adds the `count` entries at `at`, with their fields, and returns the offset of their end.
pub fn add_entries<P: Places>(
    limits: Limits,
    bytes: &[u8],
    at: usize,
    form: Form,
    count: u32,
    places: &mut P,
) -> Result<Option<usize>, P::Refusal>
    requires { at ≤ length bytes.now }
    ensures is { IfOk result (λ o. IfSome o (λ after.
        EntriesAdded limits bytes.now at (is_claim form) count after (P.held places.old) (P.held places.new))) }
    ensures found { (nil : NilForm) (es : List SentEntry) (rest : List ℕ) → AllowsRows limits
        → AllByRecursion (IsEntryOf limits (is_claim form)) es
        → drop at bytes.now ≡ flat_map (entry_bytes nil) es ++ rest → count ≡ length es
        → IfOk result (λ o. IsSomeAnd o (EndsBefore bytes.now rest)) }
    ensures counts { IfOk result (λ o. IfSome o (λ _.
        length (P.held places.new).entries ≡ length (P.held places.old).entries + count)) }
    ensures counts_fields { (nil : NilForm) (es : List SentEntry) (rest : List ℕ) → AllowsRows limits
        → AllByRecursion (IsEntryOf limits (is_claim form)) es
        → drop at bytes.now ≡ flat_map (entry_bytes nil) es ++ rest → count ≡ length es
        → IfOk result (λ o. IfSome o (λ _.
        length (P.held places.new).fields ≡ length (P.held places.old).fields + length (all_fields es))) }
    ensures fits { (nil : NilForm) (es : List SentEntry) (rest : List ℕ) → AllowsRows limits
        → AllByRecursion (IsEntryOf limits (is_claim form)) es
        → drop at bytes.now ≡ flat_map (entry_bytes nil) es ++ rest → count ≡ length es
        → EntriesFit (P.lent places.old) (length (P.held places.old).entries + count)
        → FieldsFit (P.lent places.old) (length (P.held places.old).fields + length (all_fields es))
        → IsOk result }
    ensures kept { P.lent places.new ≡ P.lent places.old }
{
    let mut behind = at;
    for _ in 0..count {
        let Some((entry, after)) = add_entry(limits, bytes, behind, form, places)? else {
            return Ok(None);
        };
        places.push_entry(entry)?;
        behind = after;
    }
    Ok(Some(behind))
}
