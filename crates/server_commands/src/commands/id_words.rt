//! Ids parsed from words.
ghost use Rattle.std.specs.Prelude.{◌≡◌, ◌≤◌, ◌<◌, ◌^◌, ◌∷◌, [], ℕ, List, decimal, length, drop, take, slice_index_or, Some, Ok, IfOk, IfErr};
ghost use Rattle.std.specs.List.{prefix_len};
ghost use Rattle.server_commands.specs.IdWords.{AreRead, Fits, IsRefusedFor, is_of_part};
ghost use Rattle.server_commands.specs.declared.commands.id_words.Sequence.TheVariants.{Given, Missing};
ghost use Rattle.server_store.specs.EntryId.{id_text};
ghost use Rattle.server_store.specs.declared.entry_id.EntryId.{EntryId};

use super::words::before_nul;
use super::{INVALID_ID, parse_integer};
use crate::refusal::Refusal;
use server_store::EntryId;
use std::alloc::Global;
use std::str;

/// The sequence number in the text of an id.
#[derive(Clone, Copy)]
pub(super) enum Sequence {
    Missing,
    Automatic,
    Given(u64),
}

/// The number of a part of an id: spaces and a sign may be before it. After a minus it counts down from 2 to
/// the power of 64. None for what `parse_integer` parses as negative.
fn parse_number(text: &[u8]) -> Option<u64>
    ensures { (n : ℕ) → n < 2 ^ 64 → text.now ≡ decimal n → result ≡ Some n }
{
    match strip_blanks(text) {
        [b'-', digits @ ..] => {
            if matches!(parse_integer(text), Some(n) if n < 0) {
                return None;
            }
            Some(0u64.wrapping_sub(parse_digits(digits)?))
        }
        [b'+', digits @ ..] => parse_digits(digits),
        digits => parse_digits(digits),
    }
}

/// The text without its leading spaces.
fn strip_blanks(text: &[u8]) -> &[u8]
    ensures { 48 ≤ slice_index_or text.now 0 0 → result.now ≡ text.now }
{
    let mut rest = text;
    for _ in 0..text.len() {
        match rest {
            [b' ' | b'\t'..=b'\r', behind @ ..] => rest = behind,
            _ => break,
        }
    }
    rest
}

/// Parses decimal digits, without a sign, as a number of 64 bits.
fn parse_digits(text: &[u8]) -> Option<u64>
    ensures { (n : ℕ) → n < 2 ^ 64 → text.now ≡ decimal n → result ≡ Some n }
{
    if let [b'+', ..] = text {
        return None;
    }
    let Ok(text) = str::from_utf8(text) else {
        return None;
    };
    text.parse::<u64>().ok()
}

/// The parts of an id, which ends before its first NUL.
pub(super) fn parts_in(text: &[u8]) -> Option<(u64, Sequence)>
    ensures id { (id : EntryId) → Fits id → text.now ≡ id_text id
        → result ≡ Some (id.milliseconds, Given id.sequence) }
    ensures alone { (n : ℕ) → n < 2 ^ 64 → text.now ≡ decimal n → result ≡ Some (n, Missing) }
{
    if text.len() > 127 {
        return None;
    }
    let (front, behind) = split_at_dash(before_nul(text));
    let milliseconds = parse_number(front)?;
    Some((milliseconds, parse_sequence(behind)?))
}

/// The text before the first `-`, and the rest from there on.
fn split_at_dash(text: &[u8]) -> (&[u8], &[u8])
    ensures front { result.0.now ≡ take (prefix_len is_of_part text.now) text.now }
    ensures behind { result.1.now ≡ drop (prefix_len is_of_part text.now) text.now }
{
    text.split_at(find_front_len(text))
}

/// How many bytes are before the first `-`.
fn find_front_len(text: &[u8]) -> usize
    ensures len { result ≡ prefix_len is_of_part text.now }
    ensures within { result ≤ length text.now }
{
    text.iter().take_while(|byte| **byte != b'-').count()
}

/// The sequence number that is after the `-`, if there is one.
fn parse_sequence(text: &[u8]) -> Option<Sequence>
    ensures given { (n : ℕ) → n < 2 ^ 64 → text.now ≡ 45 ∷ decimal n → result ≡ Some (Given n) }
    ensures missing { text.now ≡ [] → result ≡ Some Missing }
{
    match text {
        [] => Some(Sequence::Missing),
        [_, b'*'] => Some(Sequence::Automatic),
        [_, digits @ ..] => Some(Sequence::Given(parse_number(digits)?)),
    }
}

/// `ms-seq`, or `ms` with this sequence number.
pub(super) fn strict_id(text: &[u8], missing: u64) -> Option<EntryId>
    ensures id { (id : EntryId) → Fits id → text.now ≡ id_text id → result ≡ Some id }
    ensures alone { (n : ℕ) → n < 2 ^ 64 → text.now ≡ decimal n
        → result ≡ Some (record { milliseconds = n; sequence = missing }) }
{
    let (milliseconds, sequence) = parts_in(text)?;
    let sequence = match sequence {
        Sequence::Missing => missing,
        Sequence::Automatic => return None,
        Sequence::Given(sequence) => sequence,
    };
    Some(EntryId {
        milliseconds,
        sequence,
    })
}

/// The id; an error if the text is not one.
pub(super) fn id(argument: &[u8]) -> Result<EntryId, Refusal>
    ensures id { (id : EntryId) → Fits id → argument.now ≡ id_text id → result ≡ Ok id }
    ensures alone { (n : ℕ) → n < 2 ^ 64 → argument.now ≡ decimal n
        → result ≡ Ok (record { milliseconds = n; sequence = 0 }) }
{
    match strict_id(argument, 0) {
        Some(id) => Ok(id),
        None => Err(INVALID_ID),
    }
}

/// The ids in the arguments.
pub(super) fn ids(alloc: Global, arguments: &[Vec<u8>]) -> Result<Vec<EntryId>, Refusal>
    ensures len { IfOk result (λ ids. length ids.items ≡ length arguments.now) }
    ensures read { IfOk result (λ ids. AreRead arguments.now ids.items) }
    ensures refused { IfErr result (λ e. IsRefusedFor arguments.now e) }
{
    let mut ids = Vec::new(alloc);
    for argument in arguments {
        ids.push(id(argument)?)?;
    }
    Ok(ids)
}
