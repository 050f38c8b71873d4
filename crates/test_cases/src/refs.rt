//! Replies that hold entries, read from bytes in place.
//!
//! | Kind | Input and outcome |
//! |---|---|
//! | `refs-range` | a reply of XRANGE, XREVRANGE, XCLAIM: what is read in place |
//! | `refs-read` | a reply of XREAD, XREADGROUP, in either form, and which form it has |
//! | `refs-claim` | a reply of XAUTOCLAIM |
//! | `refs-justid` | a reply of XAUTOCLAIM with JUSTID |
//! | `refs-fields` | a reply of XRANGE: the fields of each entry, as numbers and as text |
//! | `id` | an id: its parts, and the texts that they write |
//! | `ids` | ids with a space between each two: for each one, which of them it is before |
//!
//! What is read in place is printed as `Debug` prints it. A reply of another shape is `copied`, `refused`
//! or `error`, after its length; bytes that are no reply are `incomplete` or refused by a fault.
//!
//! The copying path is `decode` and then `from_reply`. The outcome reports if its record is not that of what is
//! read in place. It also reports if neither has a record, since a name of a field is not a text.
ghost use Rattle.test_cases.specs.Kinds.{is_refs};
ghost use Rattle.std.specs.Prelude.{◌≡◌, IfOk, IsSome, IsTrue};

use crate::{INCOMPLETE, decode_escapes, format_fault};
use bstr::BStr;
use redis_resp::{FromRedisValue, ParsingError};
use redis_wire::{Decoded, Limits, Reply, ReplyError, WireError, decode, from_reply};
use std::alloc::{AllocError, Global};
use std::fmt::Debug;
use stream_entries::{
    StreamAutoClaimJustIdReply, StreamAutoClaimReply, StreamKey, StreamRangeReply, StreamReadReply,
};
use stream_in_place::{
    AutoClaimOutcome, EntryRef, EntryTape, JustIdOutcome, RangeOutcome, ReadOutcome, StreamIdParts,
    read_any_autoclaim, read_any_justid, read_any_range, read_any_streams,
};

/// Runs a case of this module. Returns its outcome, or `None` if its kind is another.
pub fn run_case(alloc: Global, kind: &str, input: &str) -> Result<Option<String>, AllocError>
    ensures { IfOk result (λ o. IsSome o → IsTrue (is_refs kind.now)) }
{
    if !is_kind(kind) {
        return Ok(None);
    }
    match decode_escapes(alloc, input)? {
        Some(bytes) => Ok(Some(run_kind(alloc, kind, &bytes)?)),
        None => Ok(Some(String::from_str(alloc, "not the text of bytes")?)),
    }
}

/// Returns whether a kind is one of this module.
fn is_kind(kind: &str) -> bool
    ensures { result ≡ is_refs kind.now }
{
    matches!(
        kind,
        "refs-range" | "refs-read" | "refs-claim" | "refs-justid" | "refs-fields" | "id" | "ids"
    )
}

/// Returns the outcome of bytes, for a kind of this module.
fn run_kind(alloc: Global, kind: &str, bytes: &[u8]) -> Result<String, AllocError> {
    let mut tape = EntryTape::new(alloc);
    match kind {
        "refs-range" => format_range(alloc, &mut tape, bytes),
        "refs-read" => format_streams(alloc, &mut tape, bytes),
        "refs-claim" => format_claim(alloc, &mut tape, bytes),
        "refs-justid" => format_justid(alloc, &mut tape, bytes),
        "refs-fields" => format_fields(alloc, &mut tape, bytes),
        "id" => format_parts(alloc, bytes),
        _ => format_marks(alloc, bytes),
    }
}

// The results of reading a reply in place.

/// Returns the outcome of a reply of XRANGE, XREVRANGE or XCLAIM.
fn format_range(alloc: Global, tape: &mut EntryTape, bytes: &[u8]) -> Result<String, AllocError> {
    match read_any_range(alloc, tape, bytes, Limits::default()) {
        Ok(RangeOutcome::InPlace(found)) => {
            let record = to_record(found.to_owned(alloc))?;
            let beside = match (record, copy_record(alloc, bytes, found.len)?) {
                (Some(record), Copied::Record(copied)) => to_beside(is_same_range(
                    &record, &copied,
                )),
                (None, Copied::Refused) => Beside::BothRefused,
                _ => Beside::Differs,
            };
            format_in_place(alloc, &found, beside)
        }
        Ok(RangeOutcome::Copied { reply, len }) => format_copied(alloc, len, reply),
        Ok(RangeOutcome::Incomplete) => String::from_str(alloc, INCOMPLETE),
        Err(error) => format_fault(alloc, error),
    }
}

/// Returns the outcome of a reply of XREAD or XREADGROUP, and which form it has.
fn format_streams(alloc: Global, tape: &mut EntryTape, bytes: &[u8]) -> Result<String, AllocError> {
    let mut text = format_either_form(alloc, tape, bytes)?;
    if tape.read_streams(bytes, Limits::default())?.is_some() {
        text.push_str(", the standard form")?;
    }
    if tape
        .read_claimed_streams(bytes, Limits::default())?
        .is_some()
    {
        text.push_str(", the claim form")?;
    }
    Ok(text)
}

/// Returns the outcome of a reply of XREAD or XREADGROUP, in either form.
fn format_either_form(
    alloc: Global,
    tape: &mut EntryTape,
    bytes: &[u8],
) -> Result<String, AllocError> {
    match read_any_streams(alloc, tape, bytes, Limits::default()) {
        Ok(ReadOutcome::InPlace(found)) => {
            let record = to_record(found.to_owned(alloc))?;
            let beside = match (record, copy_record(alloc, bytes, found.len)?) {
                (Some(record), Copied::Record(copied)) => to_beside(is_same_read(&record, &copied)),
                (None, Copied::Refused) => Beside::BothRefused,
                _ => Beside::Differs,
            };
            format_in_place(alloc, &found, beside)
        }
        Ok(ReadOutcome::Copied { reply, len }) => format_copied(alloc, len, reply),
        Ok(ReadOutcome::Incomplete) => String::from_str(alloc, INCOMPLETE),
        Err(error) => format_fault(alloc, error),
    }
}

/// Returns the outcome of a reply of XAUTOCLAIM.
fn format_claim(alloc: Global, tape: &mut EntryTape, bytes: &[u8]) -> Result<String, AllocError> {
    match read_any_autoclaim(alloc, tape, bytes, Limits::default()) {
        Ok(AutoClaimOutcome::InPlace(found)) => {
            let record = to_record(found.to_owned(alloc))?;
            let beside = match (record, copy_record(alloc, bytes, found.len)?) {
                (Some(record), Copied::Record(copied)) => to_beside(is_same_claim(
                    &record, &copied,
                )),
                (None, Copied::Refused) => Beside::BothRefused,
                _ => Beside::Differs,
            };
            format_in_place(alloc, &found, beside)
        }
        Ok(AutoClaimOutcome::Copied { reply, len }) => format_copied(alloc, len, reply),
        Ok(AutoClaimOutcome::Incomplete) => String::from_str(alloc, INCOMPLETE),
        Err(error) => format_fault(alloc, error),
    }
}

/// Returns the outcome of a reply of XAUTOCLAIM with JUSTID.
fn format_justid(alloc: Global, tape: &mut EntryTape, bytes: &[u8]) -> Result<String, AllocError> {
    match read_any_justid(alloc, tape, bytes, Limits::default()) {
        Ok(JustIdOutcome::InPlace(found)) => {
            let record = found.to_owned(alloc)?;
            let beside = match copy_record(alloc, bytes, found.len)? {
                Copied::Record(copied) => to_beside(is_same_justid(&record, &copied)),
                Copied::Refused | Copied::Other => Beside::Differs,
            };
            format_in_place(alloc, &found, beside)
        }
        Ok(JustIdOutcome::Copied { reply, len }) => format_copied(alloc, len, reply),
        Ok(JustIdOutcome::Incomplete) => String::from_str(alloc, INCOMPLETE),
        Err(error) => format_fault(alloc, error),
    }
}

/// Returns what is read in place as text, with a remark if the copying path does not give the same record.
fn format_in_place<F: Debug>(
    alloc: Global,
    found: &F,
    beside: Beside,
) -> Result<String, AllocError> {
    let mut text = format!(in alloc; "in place {found:?}")?;
    text.push_str(match beside {
        Beside::Same => "",
        Beside::BothRefused => ", no record: a name is no text",
        Beside::Differs => ", differs from the copying path",
    })?;
    Ok(text)
}

/// Returns the outcome of a reply of another shape: its length, and whether it has a record, was refused, or has an
/// error in it. Passes on the error that memory ran out.
fn format_copied<T: Drop>(
    alloc: Global,
    len: usize,
    reply: Result<T, ReplyError>,
) -> Result<String, AllocError> {
    match reply {
        Ok(_) => format!(in alloc; "{len} copied"),
        Err(ReplyError::Parsing(ParsingError::Memory)) => Err(AllocError),
        Err(ReplyError::Parsing(error)) => format!(in alloc; "{len} refused {error:?}: {error}"),
        Err(error) => format!(in alloc; "{len} error {error}"),
    }
}

// Whether what is read in place has the record of the copying path.

/// How what is read in place compares with the copying path.
#[derive(Clone, Copy)]
enum Beside {
    /// Both have the same record.
    Same,
    /// Neither has a record, since a name of a field is not a text.
    BothRefused,
    /// They differ.
    Differs,
}

/// Returns how two records compare, by whether they are the same.
fn to_beside(same: bool) -> Beside {
    if same { Beside::Same } else { Beside::Differs }
}

/// Returns the record of what is read in place, or `None` if a name is not a text.
fn to_record<T: Drop>(record: Result<T, ParsingError>) -> Result<Option<T>, AllocError> {
    match record {
        Ok(record) => Ok(Some(record)),
        Err(ParsingError::Memory) => Err(AllocError),
        Err(_) => Ok(None),
    }
}

/// Returns whether two ranges are the same.
fn is_same_range(one: &StreamRangeReply, other: &StreamRangeReply) -> bool {
    one.ids == other.ids
}

/// Returns whether two reads are the same.
fn is_same_read(one: &StreamReadReply, other: &StreamReadReply) -> bool {
    one.keys.len() == other.keys.len() && are_same(&one.keys, &other.keys)
}

/// Returns whether two automatic claims are the same.
fn is_same_claim(one: &StreamAutoClaimReply, other: &StreamAutoClaimReply) -> bool {
    one.next_stream_id == other.next_stream_id
        && one.claimed == other.claimed
        && one.deleted_ids == other.deleted_ids
}

/// Returns whether two automatic claims of ids alone are the same.
fn is_same_justid(one: &StreamAutoClaimJustIdReply, other: &StreamAutoClaimJustIdReply) -> bool {
    one.next_stream_id == other.next_stream_id
        && one.claimed == other.claimed
        && one.deleted_ids == other.deleted_ids
}

/// Returns whether streams are the same, each as the one at its index.
fn are_same(some: &[StreamKey], others: &[StreamKey]) -> bool {
    for (one, other) in some.iter().zip(others) {
        if one.key != other.key || one.ids != other.ids {
            return false;
        }
    }
    true
}

/// The result of the copying path for a reply.
#[derive(Drop)]
enum Copied<T> {
    /// The record.
    Record(T),
    /// No record.
    Refused,
    /// The bytes are not a reply, or the reply has another length.
    Other,
}

/// Returns the result of the copying path for the reply at the start of bytes, if the reply has this length.
fn copy_record<T: FromRedisValue + Drop>(
    alloc: Global,
    bytes: &[u8],
    len: usize,
) -> Result<Copied<T>, AllocError> {
    match decode(alloc, bytes, Limits::default()) {
        Ok(Decoded::Complete { reply, len: other }) => {
            if len == other {
                to_copied(alloc, reply)
            } else {
                Ok(Copied::Other)
            }
        }
        Err(WireError::Memory) => Err(AllocError),
        Ok(Decoded::Incomplete) | Err(WireError::Fault(_)) => Ok(Copied::Other),
    }
}

/// Returns the result of the copying path for a decoded reply.
fn to_copied<T: FromRedisValue + Drop>(
    alloc: Global,
    reply: Reply,
) -> Result<Copied<T>, AllocError> {
    match from_reply::<T>(alloc, reply) {
        Ok(record) => Ok(Copied::Record(record)),
        Err(ReplyError::Parsing(ParsingError::Memory)) => Err(AllocError),
        Err(_) => Ok(Copied::Refused),
    }
}

// The fields of entries in place.

/// Returns the fields of each entry, or `none` if the reply does not have the shape that servers send.
fn format_fields(alloc: Global, tape: &mut EntryTape, bytes: &[u8]) -> Result<String, AllocError> {
    let mut text = String::new(alloc);
    match tape.read_range(bytes, Limits::default())? {
        Some(found) => {
            for entry in found.entries {
                add_entry(alloc, &mut text, &entry)?;
            }
        }
        None => text.push_str("none")?,
    }
    Ok(text)
}

/// Appends an entry: its count of fields, their copies in order, and the readings of each; last the readings
/// of a field that is missing.
fn add_entry(alloc: Global, text: &mut String, entry: &EntryRef<'_>) -> Result<(), AllocError> {
    let fields = entry.fields();
    let count = fields.len();
    match to_record(fields.to_pairs(alloc))? {
        Some(copies) => write!(text, "{count} fields {copies:?}")?,
        None => write!(text, "{count} fields, a name is no text")?,
    }
    for (name, _) in entry.fields() {
        add_field(text, entry, name)?;
    }
    add_field(text, entry, b"missing")?;
    text.push(';')
}

/// Appends the readings of the field of a name: as a `u64`, as an `i64` and as text.
fn add_field(text: &mut String, entry: &EntryRef<'_>, name: &[u8]) -> Result<(), AllocError> {
    let shown = BStr::new(name);
    let unsigned = entry.get_u64(name);
    let signed = entry.get_i64(name);
    let word = entry.get_str(name);
    write!(text, ", {shown} {unsigned:?} {signed:?} {word:?}")?;
    let fields = entry.fields();
    let same = fields.get_u64(name) == unsigned && fields.get_i64(name) == signed;
    if !same || fields.get_str(name) != word {
        text.push_str(" otherwise in the fields")?;
    }
    Ok(())
}

// Ids in their parts.

/// Returns the parts of an id, its text, and its text as an exclusive bound; `none` if the bytes are not an id.
fn format_parts(alloc: Global, bytes: &[u8]) -> Result<String, AllocError> {
    match StreamIdParts::parse(bytes) {
        Some(id) => format_id(alloc, id),
        None => String::from_str(alloc, "none"),
    }
}

/// Returns the parts of an id, and its texts.
fn format_id(alloc: Global, id: StreamIdParts) -> Result<String, AllocError> {
    let text = id.to_text(alloc)?;
    let exclusive = id.to_exclusive_text(alloc)?;
    let text = BStr::new(text.as_slice());
    let exclusive = BStr::new(exclusive.as_slice());
    format!(in alloc; "{id:?} {text} {exclusive}")
}

/// Returns, for each id, a mark for each of the ids: `<` if it is before that one, and `-` if it is not.
fn format_marks(alloc: Global, words: &[u8]) -> Result<String, AllocError> {
    let mut ids = Vec::new(alloc);
    for word in words.split(|byte| *byte == b' ') {
        if let Some(id) = StreamIdParts::parse(word) {
            ids.push(id)?;
        }
    }
    let mut text = String::new(alloc);
    for id in &ids {
        add_marks(&mut text, *id, &ids)?;
    }
    Ok(text)
}

/// Appends the marks of an id.
fn add_marks(
    text: &mut String,
    id: StreamIdParts,
    ids: &[StreamIdParts],
) -> Result<(), AllocError> {
    for other in ids {
        text.push(to_mark(id, *other))?;
    }
    text.push(' ')
}

/// Returns the mark of two ids, or `?` if `<` does not agree with `is_before`.
fn to_mark(id: StreamIdParts, other: StreamIdParts) -> char {
    match (id.is_before(other), id < other) {
        (true, true) => '<',
        (false, false) => '-',
        _ => '?',
    }
}
