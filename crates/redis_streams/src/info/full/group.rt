//! A group in the reply of XINFO STREAM FULL.
ghost use Rattle.std.specs.Prelude.{◌≡◌, Some, IsOk, IfOk, IfErr, codes, map, option_map};
ghost use Rattle.redis_resp.specs.Refusal.{Refuses};
ghost use Rattle.redis_streams.specs.InfoFull.{FullGroup, empty_full_group};
ghost use Rattle.redis_streams.specs.InfoFull.{full_group_of, full_group_reading};
ghost use Rattle.redis_streams.specs.InfoFullMeaning.{full_group_meaning};
ghost use Rattle.redis_streams.specs.InfoFullRefusal.{RefusesFullGroup, RefusesFullGroupField};
ghost use Rattle.redis_streams.specs.InfoMeaning.{fields_by_name};

use crate::info::full::consumer::{StreamInfoFullConsumer, copy_full_consumers};
use crate::info::full::pending::{StreamInfoFullPending, copy_pending};
use crate::info::named_fields::{read_named_fields, read_or, take_field};
use crate::info::number_or_nil::NumberOrNil;
use redis_resp::{FromRedisValue, ParsingError, Source, Value};
use std::alloc::{AllocError, Global};
use std::collections::HashMap;

/// A consumer group of a stream with its pending entries and its consumers.
#[derive(Debug, Drop)]
pub struct StreamInfoFullGroup {
    /// The name of the group.
    pub name: String,
    /// The id of the last delivered entry.
    pub last_delivered_id: String,
    /// The number of entries that the group has read, if the server reports it.
    pub entries_read: Option<usize>,
    /// The number of entries that the group has still to read, if the server reports it.
    pub lag: Option<usize>,
    /// The number of entries that were delivered and not yet acknowledged (`pel-count`).
    pub pending_count: usize,
    /// The entries that were delivered and not yet acknowledged, at most the requested count.
    pub pending: Vec<StreamInfoFullPending>,
    /// The consumers of the group.
    pub consumers: Vec<StreamInfoFullConsumer>,
}

impl StreamInfoFullGroup {
    /// Returns the empty group. It allocates no memory and is always Ok.
    pub fn empty(alloc: Global) -> Result<StreamInfoFullGroup, AllocError>
        ensures ok { IsOk result }
        ensures group { IfOk result (λ g. full_group_meaning g ≡ empty_full_group) }
    {
        Ok(StreamInfoFullGroup {
            name: String::new(alloc),
            last_delivered_id: String::new(alloc),
            entries_read: None,
            lag: None,
            pending_count: 0,
            pending: Vec::new(alloc),
            consumers: Vec::new(alloc),
        })
    }

    /// Returns a copy of the group. It fails only if it runs out of memory.
    pub fn try_clone(&self, alloc: Global) -> Result<StreamInfoFullGroup, AllocError>
        ensures { IfOk result (λ g. full_group_meaning g ≡ full_group_meaning self.now) }
    {
        Ok(StreamInfoFullGroup {
            name: String::from_str(alloc, &self.name)?,
            last_delivered_id: String::from_str(alloc, &self.last_delivered_id)?,
            entries_read: self.entries_read,
            lag: self.lag,
            pending_count: self.pending_count,
            pending: copy_pending(alloc, &self.pending)?,
            consumers: copy_full_consumers(alloc, &self.consumers)?,
        })
    }
}

/// Returns copies of the groups, in order. It fails only if it runs out of memory.
pub(crate) fn copy_full_groups(
    alloc: Global,
    groups: &[StreamInfoFullGroup],
) -> Result<Vec<StreamInfoFullGroup>, AllocError>
    ensures { IfOk result (λ r. map full_group_meaning r.items
        ≡ map full_group_meaning groups.now) }
{
    let mut copies = Vec::with_capacity(alloc, groups.len())?;
    for group in groups {
        copies.push(group.try_clone(alloc)?)?;
    }
    Ok(copies)
}

/// The fields of a group, each if present.
#[derive(Drop)]
struct FullGroupFields<S> {
    name: Option<S>,
    last_delivered_id: Option<S>,
    entries_read: Option<S>,
    lag: Option<S>,
    pending_count: Option<S>,
    pending: Option<S>,
    consumers: Option<S>,
}

/// Removes the fields of a group from the fields.
fn take_full_group_fields<S: Source>(fields: &mut HashMap<String, S>) -> FullGroupFields<S>
    ensures name { option_map S.seen result.name
        ≡ fields_by_name S.seen fields.old (codes "name") }
    ensures last_delivered_id { option_map S.seen result.last_delivered_id
        ≡ fields_by_name S.seen fields.old (codes "last-delivered-id") }
    ensures entries_read { option_map S.seen result.entries_read
        ≡ fields_by_name S.seen fields.old (codes "entries-read") }
    ensures lag { option_map S.seen result.lag
        ≡ fields_by_name S.seen fields.old (codes "lag") }
    ensures pending_count { option_map S.seen result.pending_count
        ≡ fields_by_name S.seen fields.old (codes "pel-count") }
    ensures pending { option_map S.seen result.pending
        ≡ fields_by_name S.seen fields.old (codes "pending") }
    ensures consumers { option_map S.seen result.consumers
        ≡ fields_by_name S.seen fields.old (codes "consumers") }
{
    FullGroupFields {
        name: take_field(fields, "name"),
        last_delivered_id: take_field(fields, "last-delivered-id"),
        entries_read: take_field(fields, "entries-read"),
        lag: take_field(fields, "lag"),
        pending_count: take_field(fields, "pel-count"),
        pending: take_field(fields, "pending"),
        consumers: take_field(fields, "consumers"),
    }
}

/// Returns the group of the fields; other fields are ignored.
fn read_full_group<S: Source>(
    alloc: Global,
    mut fields: HashMap<String, S>,
) -> Result<StreamInfoFullGroup, ParsingError>
    ensures ok { IfOk result (λ r. full_group_of (fields_by_name S.seen fields)
        ≡ Some (full_group_meaning r)) }
    ensures err { IfErr result (Refuses full_group_of RefusesFullGroupField
        (fields_by_name S.seen fields)) }
{
    let fields = take_full_group_fields(&mut fields);
    let name = read_or(alloc, fields.name, String::new(alloc))?;
    let id = read_or(alloc, fields.last_delivered_id, String::new(alloc))?;
    let read = read_or(alloc, fields.entries_read, NumberOrNil(None))?;
    let lag = read_or(alloc, fields.lag, NumberOrNil(None))?;
    let pending_count = read_or(alloc, fields.pending_count, 0)?;
    let pending = read_or(alloc, fields.pending, Vec::new(alloc))?;
    let consumers = read_or(alloc, fields.consumers, Vec::new(alloc))?;
    Ok(StreamInfoFullGroup {
        name,
        last_delivered_id: id,
        entries_read: read.0,
        lag: lag.0,
        pending_count,
        pending,
        consumers,
    })
}

/// Reads the group of a value.
fn read_value<S: Source>(alloc: Global, v: S) -> Result<StreamInfoFullGroup, ParsingError>
    ensures ok { IfOk result (λ r. full_group_reading (S.seen v) ≡ Some (full_group_meaning r)) }
    ensures err { IfErr result (Refuses full_group_reading RefusesFullGroup (S.seen v)) }
{
    let fields = read_named_fields(alloc, v)?;
    read_full_group(alloc, fields)
}

/// Read from fields by name; the last of equal names counts. Returns `NotPairs` if the value has no
/// pairs. Otherwise returns the error of a key read as a text, or of one of the fields.
impl FromRedisValue for StreamInfoFullGroup {
    ghost Meaning = { FullGroup };

    ghost meaning = { full_group_meaning };

    ghost reading = { full_group_reading };

    ghost may_refuse = { RefusesFullGroup };

    fn from_redis_value(alloc: Global, v: Value) -> Result<StreamInfoFullGroup, ParsingError> {
        read_value(alloc, v)
    }

    fn from_redis_value_ref(alloc: Global, v: &Value) -> Result<StreamInfoFullGroup, ParsingError> {
        read_value(alloc, v)
    }
}
