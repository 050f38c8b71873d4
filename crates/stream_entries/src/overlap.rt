//! Entries that have both forms of a read reply.
ghost use Rattle.std.specs.Prelude.{◌≡◌, ◌≢◌, ◌++◌, ◌∷◌, [], Some, None, IfOk, IfErr, OnOk};
ghost use Rattle.std.specs.Prelude.{string_bytes, vec_capacity};
ghost use Rattle.redis_resp.specs.FieldsMeaning.{fields_of};
ghost use Rattle.stream_entries.specs.Entry.{entry_of};
ghost use Rattle.redis_resp.specs.Reading.{option_reading};
ghost use Rattle.redis_resp.specs.Number.{unsigned_reading};
ghost use Rattle.redis_resp.specs.Value.{tree};
ghost use Rattle.stream_entries.specs.EntryMeaning.{entries_of};
ghost use Rattle.stream_entries.specs.InForms.{item_in_forms, numbers_in};
ghost use Rattle.stream_entries.specs.InFormsMeaning.{given_in, overlap_of, settled_in};
ghost use Rattle.stream_entries.specs.Overlap.{in_standard, in_claim};

use crate::stream_id::StreamId;
use redis_resp::value::usize_of;
use redis_resp::{ParsingError, Source, Value, into_four, is_nil};
use std::alloc::{AllocError, Global};
use std::collections::HashMap;

/// A form of a read reply.
#[derive(Clone, Copy, Debug, PartialEq, Eq)]
pub(crate) enum Form {
    /// Each item of each list is a row of ids and fields.
    Standard,
    /// Each item is an id, fields and the two numbers of its delivery.
    Claim,
}

/// An array of a text, fields, a number and nil. It is a delivery, and also a row of two ids: the second
/// id is the text of the number, without fields.
#[derive(Debug, Drop)]
pub(crate) struct Overlap {
    id: String,
    map: HashMap<String, Value>,
    number: usize,
    text: String,
}

/// The two numbers of a delivery. `None` if the value is not an array of four or has no such
/// numbers. It allocates nothing.
#[tactic(auto, using(crate::proofs::NumbersLemmas::four_numbers, crate::proofs::NumbersLemmas::no_four))]
pub(crate) fn find_numbers(v: &Value) -> Option<(Option<usize>, Option<usize>)>
    ensures { result ≡ numbers_in (tree v.now) }
{
    let (_, _, elapsed, delivered) = into_four(v)?;
    let elapsed = read_number_or_nil(elapsed)?;
    let delivered = read_number_or_nil(delivered)?;
    Some((elapsed, delivered))
}

/// Returns the number of a value, or no number for nil. `None` if the value is neither.
fn read_number_or_nil(v: &Value) -> Option<Option<usize>>
    ensures { result ≡ option_reading (unsigned_reading 64) (tree v.now) }
{
    if is_nil(v) {
        return Some(None);
    }
    Some(Some(usize_of(v)?))
}

/// Reads an entry that has both forms, given the number that was found in it.
#[tactic(auto, using(crate::proofs::NumbersLemmas::overlap_parts))]
pub(crate) fn read_overlap<S: Source>(
    alloc: Global,
    v: S,
    number: usize,
) -> Result<Overlap, ParsingError>
    requires { numbers_in (S.seen v) ≡ Some (Some number, None) }
    ensures ok { IfOk result (λ o. item_in_forms (S.seen v)
        ≡ (Some (in_standard (overlap_of o)), Some (in_claim (overlap_of o)))) }
    ensures err { IfErr result (λ e. e ≢ ParsingError.Memory
        → item_in_forms (S.seen v) ≡ (None, None)) }
{
    let Some((id, fields, text, _)) = into_four(v) else {
        return Err(ParsingError::NotTuple(4));
    };
    let id: String = id.read(alloc)?;
    let map: HashMap<String, Value> = fields.read(alloc)?;
    let text: String = text.read(alloc)?;
    Ok(Overlap {
        id,
        map,
        number,
        text,
    })
}

/// Returns the entries in one form, in a list with capacity `room`.
pub(crate) fn settle(
    alloc: Global,
    overlaps: Vec<Overlap>,
    form: Form,
    room: usize,
) -> Result<Vec<StreamId>, AllocError>
    ensures { IfOk result (λ ids. entries_of ids ≡ settled_in form overlaps) }
{
    let mut ids = make_list(alloc, room)?;
    for overlap in overlaps {
        push_overlap(overlap, form, &mut ids)?;
    }
    Ok(ids)
}

/// Returns an empty list with exactly this capacity.
fn make_list(alloc: Global, room: usize) -> Result<Vec<StreamId>, AllocError>
    ensures entries { IfOk result (λ ids. ids.items ≡ []) }
    ensures room { IfOk result (λ ids. vec_capacity ids ≡ room) }
{
    Vec::with_capacity(alloc, room)
}

/// Appends the entries of an overlap in a form.
fn push_overlap(overlap: Overlap, form: Form, ids: &mut Vec<StreamId>) -> Result<(), AllocError>
    ensures { OnOk result (entries_of ids.new
        ≡ entries_of ids.old ++ given_in form (overlap_of overlap)) }
{
    match form {
        Form::Standard => push_standard(overlap, ids),
        Form::Claim => push_claim(overlap, ids),
    }
}

/// Appends the two entries of the standard form, or only the second if their ids are equal.
fn push_standard(overlap: Overlap, ids: &mut Vec<StreamId>) -> Result<(), AllocError>
    ensures { OnOk result (entries_of ids.new
        ≡ entries_of ids.old ++ in_standard (overlap_of overlap)) }
{
    let Overlap { id, map, text, .. } = overlap;
    let alloc = *ids.allocator();
    if id == text {
        return push_undelivered(text, HashMap::new(alloc), ids);
    }
    push_undelivered(id, map, ids)?;
    push_undelivered(text, HashMap::new(alloc), ids)
}

/// Appends an entry without a delivery.
fn push_undelivered(
    id: String,
    map: HashMap<String, Value>,
    ids: &mut Vec<StreamId>,
) -> Result<(), AllocError>
    ensures { OnOk result (entries_of ids.new
        ≡ entries_of ids.old ++ entry_of (string_bytes id, fields_of map) ∷ []) }
{
    ids.push(StreamId {
        id,
        map,
        milliseconds_elapsed_from_delivery: None,
        delivered_count: None,
    })?;
    Ok(())
}

/// Appends the one entry of the claim form.
fn push_claim(overlap: Overlap, ids: &mut Vec<StreamId>) -> Result<(), AllocError>
    ensures { OnOk result (entries_of ids.new
        ≡ entries_of ids.old ++ in_claim (overlap_of overlap)) }
{
    let Overlap {
        id,
        map,
        number,
        ..
    } = overlap;
    ids.push(StreamId {
        id,
        map,
        milliseconds_elapsed_from_delivery: Some(number),
        delivered_count: None,
    })?;
    Ok(())
}
