//! An entry in the reply of XINFO STREAM FULL.
ghost use Rattle.std.specs.Prelude.{◌≡◌, Some, IsOk, IfOk, IfErr, map};
ghost use Rattle.redis_resp.specs.Refusal.{Refuses};
ghost use Rattle.redis_resp.specs.Table.{entries_meaning};
ghost use Rattle.redis_resp.specs.Value.{tree};
ghost use Rattle.redis_streams.specs.InfoFull.{FullEntry, empty_full_entry, full_entry_reading};
ghost use Rattle.redis_streams.specs.InfoFullMeaning.{full_entry_meaning};
ghost use Rattle.redis_streams.specs.InfoFullRefusal.{RefusesFullEntry};

use redis_resp::{FromRedisValue, PairList, ParsingError, Source, Value};
use std::alloc::{AllocError, Global};

/// An entry of a stream with its fields in the order in which they were added, repeated names
/// included.
#[derive(Debug, Drop)]
pub struct StreamInfoFullEntry {
    /// The id of the entry.
    pub id: String,
    /// The fields with their values, in order.
    pub fields: Vec<(String, Value)>,
}

impl StreamInfoFullEntry {
    /// Returns the entry with no id and no fields. It allocates no memory and is always Ok.
    pub fn empty(alloc: Global) -> Result<StreamInfoFullEntry, AllocError>
        ensures ok { IsOk result }
        ensures entry { IfOk result (λ e. full_entry_meaning e ≡ empty_full_entry) }
    {
        Ok(StreamInfoFullEntry {
            id: String::new(alloc),
            fields: Vec::new(alloc),
        })
    }

    /// Returns a copy of the entry. It fails only if it runs out of memory.
    pub fn try_clone(&self, alloc: Global) -> Result<StreamInfoFullEntry, AllocError>
        ensures { IfOk result (λ e. full_entry_meaning e ≡ full_entry_meaning self.now) }
    {
        Ok(StreamInfoFullEntry {
            id: String::from_str(alloc, &self.id)?,
            fields: copy_fields(alloc, &self.fields)?,
        })
    }
}

/// Returns copies of the fields, in order. It fails only if it runs out of memory.
fn copy_fields(
    alloc: Global,
    fields: &[(String, Value)],
) -> Result<Vec<(String, Value)>, AllocError>
    ensures { IfOk result (λ r. entries_meaning tree r.items ≡ entries_meaning tree fields.now) }
{
    let mut copies = Vec::with_capacity(alloc, fields.len())?;
    for (name, value) in fields {
        let name = String::from_str(alloc, name)?;
        copies.push((name, value.try_clone(alloc)?))?;
    }
    Ok(copies)
}

/// Returns copies of the entries, in order. It fails only if it runs out of memory.
pub(crate) fn copy_entries(
    alloc: Global,
    entries: &[StreamInfoFullEntry],
) -> Result<Vec<StreamInfoFullEntry>, AllocError>
    ensures { IfOk result (λ r. map full_entry_meaning r.items
        ≡ map full_entry_meaning entries.now) }
{
    let mut copies = Vec::with_capacity(alloc, entries.len())?;
    for entry in entries {
        copies.push(entry.try_clone(alloc)?)?;
    }
    Ok(copies)
}

/// Reads the entry of a value.
fn read_entry<S: Source>(alloc: Global, v: S) -> Result<StreamInfoFullEntry, ParsingError>
    ensures ok { IfOk result (λ e. full_entry_reading (S.seen v) ≡ Some (full_entry_meaning e)) }
    ensures err { IfErr result (Refuses full_entry_reading RefusesFullEntry (S.seen v)) }
{
    let (id, fields): (String, PairList<Value>) = v.read(alloc)?;
    Ok(StreamInfoFullEntry {
        id,
        fields: fields.0,
    })
}

/// Read from an array of exactly two, the id and the pairs of the fields. Returns `NotTuple(2)` for
/// any other value. Otherwise returns the error of the id, read as a text, or of the fields, read as
/// pairs of a text and any value.
impl FromRedisValue for StreamInfoFullEntry {
    ghost Meaning = { FullEntry };

    ghost meaning = { full_entry_meaning };

    ghost reading = { full_entry_reading };

    ghost may_refuse = { RefusesFullEntry };

    fn from_redis_value(alloc: Global, v: Value) -> Result<StreamInfoFullEntry, ParsingError> {
        read_entry(alloc, v)
    }

    fn from_redis_value_ref(alloc: Global, v: &Value) -> Result<StreamInfoFullEntry, ParsingError> {
        read_entry(alloc, v)
    }
}
