//! An entry in the reply of XINFO STREAM.
ghost use Rattle.std.specs.Prelude.{◌≡◌, Some, IfOk, IfErr, string_bytes};
ghost use Rattle.redis_resp.specs.FieldsMeaning.{fields_of};
ghost use Rattle.redis_resp.specs.Refusal.{Refuses};
ghost use Rattle.redis_streams.specs.Info.{entry_of_items, info_entry_reading};
ghost use Rattle.redis_streams.specs.InfoRefusal.{RefusesInfoEntry, RefusesItems};
ghost use Rattle.stream_entries.specs.Entry.{Entry, entry_of, empty_entry};
ghost use Rattle.stream_entries.specs.EntryMeaning.{entry_meaning};

use redis_resp::{FromRedisValue, ParsingError, Source, Value};
use std::alloc::Global;
use std::collections::HashMap;
use stream_entries::StreamId;

/// An entry in the reply of XINFO STREAM: an `Array` with no attribute around it,
/// of the id and the fields. Any other
/// value, and an `Array` without items, is the empty entry. Missing fields are no fields, and later
/// items are ignored.
#[derive(Drop)]
pub(crate) struct InfoEntry(pub(crate) StreamId);

/// Returns an entry without delivery data.
fn make_entry(id: String, map: HashMap<String, Value>) -> InfoEntry
    ensures { entry_meaning result.0 ≡ entry_of (string_bytes id, fields_of map) }
{
    InfoEntry(StreamId {
        id,
        map,
        milliseconds_elapsed_from_delivery: None,
        delivered_count: None,
    })
}

impl InfoEntry {
    /// Returns the entry with no id and no fields. It allocates no memory.
    pub(crate) fn empty(alloc: Global) -> InfoEntry
        ensures { entry_meaning result.0 ≡ empty_entry }
    {
        make_entry(String::new(alloc), HashMap::new(alloc))
    }
}

/// Reads the entry of the items.
fn read_items<S: Source>(alloc: Global, mut items: S::Values) -> Result<InfoEntry, ParsingError>
    ensures ok { IfOk result (λ r. entry_of_items (S.values_left items)
        ≡ Some (entry_meaning r.0)) }
    ensures err { IfErr result (Refuses entry_of_items RefusesItems (S.values_left items)) }
{
    let Some(id) = S::next_value(&mut items) else {
        return Ok(InfoEntry::empty(alloc));
    };
    let id: String = id.read(alloc)?;
    let Some(fields) = S::next_value(&mut items) else {
        return Ok(make_entry(id, HashMap::new(alloc)));
    };
    let map: HashMap<String, Value> = fields.read(alloc)?;
    Ok(make_entry(id, map))
}

/// Reads the entry of a value.
fn read_entry<S: Source>(alloc: Global, v: S) -> Result<InfoEntry, ParsingError>
    ensures ok { IfOk result (λ r. info_entry_reading (S.seen v) ≡ Some (entry_meaning r.0)) }
    ensures err { IfErr result (Refuses info_entry_reading RefusesInfoEntry (S.seen v)) }
{
    match v.into_array() {
        Some(items) => read_items::<S>(alloc, items),
        None => Ok(InfoEntry::empty(alloc)),
    }
}

impl FromRedisValue for InfoEntry {
    ghost Meaning = { Entry };

    ghost meaning = { λ e. entry_meaning e.0 };

    ghost reading = { info_entry_reading };

    ghost may_refuse = { RefusesInfoEntry };

    fn from_redis_value(alloc: Global, v: Value) -> Result<InfoEntry, ParsingError> {
        read_entry(alloc, v)
    }

    fn from_redis_value_ref(alloc: Global, v: &Value) -> Result<InfoEntry, ParsingError> {
        read_entry(alloc, v)
    }
}
