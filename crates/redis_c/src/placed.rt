//! Texts at places in bytes of the caller, as arguments.
ghost use Rattle.std.specs.Prelude.{◌≡◌, ◌∷◌, [], None, Some, IfOk, IfErr, map, option_map};
ghost use Rattle.redis_c.specs.Placed.{text_at, texts_at, ids_at, fields_at};

use crate::argument::Argument;
use redis_wire::place::Span;
use std::alloc::Global;
use stream_in_place::{EntryPlace, FieldPlace};

/// Why the arguments could not be read.
#[derive(Clone, Copy)]
pub enum Unplaced {
    /// Out of memory.
    Memory,
    /// A place is outside the bytes.
    Outside,
}

/// The text at a place, if it is within the bytes.
pub fn text_at<'a>(bytes: &'a [u8], place: Span) -> Option<Argument<'a>>
    ensures { option_map (λ text. text.0.now) result ≡ text_at bytes.now place }
{
    let end = place.start.checked_add(place.len)?;
    let text = bytes.get(place.start..end)?;
    Some(Argument(text))
}

/// The texts at places.
pub fn texts_at(alloc: Global, bytes: &[u8], places: &[Span]) -> Result<Vec<Vec<u8>>, Unplaced>
    ensures ok { IfOk result (λ texts. texts_at bytes.now places.now
        ≡ Some (map (λ text. text.items) texts.items)) }
    ensures err { IfErr result (λ e. e ≡ Unplaced.Outside → texts_at bytes.now places.now ≡ None) }
{
    let Ok(mut texts) = Vec::with_capacity(alloc, places.len()) else {
        return Err(Unplaced::Memory);
    };
    for place in places {
        let Some(text) = text_at(bytes, *place) else {
            return Err(Unplaced::Outside);
        };
        let Ok(text) = Vec::from_slice(alloc, text.0) else {
            return Err(Unplaced::Memory);
        };
        if texts.push(text).is_err() {
            return Err(Unplaced::Memory);
        }
    }
    Ok(texts)
}

/// The ids at the places of entries.
pub fn ids_at<'a>(
    alloc: Global,
    bytes: &'a [u8],
    entries: &[EntryPlace],
) -> Result<Vec<Argument<'a>>, Unplaced>
    ensures ok { IfOk result (λ ids. ids_at bytes.now entries.now ≡ Some (map (λ id. id.0.now) ids.items)) }
    ensures err { IfErr result (λ e. e ≡ Unplaced.Outside → ids_at bytes.now entries.now ≡ None) }
{
    let Ok(mut ids) = Vec::with_capacity(alloc, entries.len()) else {
        return Err(Unplaced::Memory);
    };
    for entry in entries {
        let Some(id) = text_at(bytes, entry.id) else {
            return Err(Unplaced::Outside);
        };
        if ids.push(id).is_err() {
            return Err(Unplaced::Memory);
        }
    }
    Ok(ids)
}

/// The names and values at the places of fields.
pub fn fields_at<'a>(
    alloc: Global,
    bytes: &'a [u8],
    places: &[FieldPlace],
) -> Result<Vec<(Argument<'a>, Argument<'a>)>, Unplaced>
    ensures ok { IfOk result (λ fields. fields_at bytes.now places.now
        ≡ Some (map (λ field. (field.0.0.now, field.1.0.now)) fields.items)) }
    ensures err { IfErr result (λ e. e ≡ Unplaced.Outside → fields_at bytes.now places.now ≡ None) }
{
    let Ok(mut fields) = Vec::with_capacity(alloc, places.len()) else {
        return Err(Unplaced::Memory);
    };
    for place in places {
        let (Some(name), Some(value)) = (text_at(bytes, place.name), text_at(bytes, place.value))
        else {
            return Err(Unplaced::Outside);
        };
        if fields.push((name, value)).is_err() {
            return Err(Unplaced::Memory);
        }
    }
    Ok(fields)
}
