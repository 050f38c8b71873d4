//! The reply of XINFO GROUPS.
ghost use Rattle.std.specs.Prelude.{◌≡◌, [], List, Some, IsOk, IfOk, IfErr, codes, map, option_map};
ghost use Rattle.redis_resp.specs.Refusal.{Refuses};
ghost use Rattle.redis_streams.specs.Info.{Group, empty_group, group_of, group_reading, groups_reading};
ghost use Rattle.redis_streams.specs.InfoMeaning.{fields_by_name, group_meaning, groups_meaning};
ghost use Rattle.redis_streams.specs.InfoRefusal.{RefusesGroupField, RefusesGroups, RefusesNamed};

use crate::info::named_fields::{read_named_fields, read_or, take_field};
use crate::info::number_or_nil::NumberOrNil;
use redis_resp::{FromRedisValue, ParsingError, Source, Value};
use std::alloc::{AllocError, Global};
use std::collections::HashMap;

/// The reply of XINFO GROUPS: the groups of a stream.
#[derive(Debug, Drop)]
pub struct StreamInfoGroupsReply {
    /// The groups, in order.
    pub groups: Vec<StreamInfoGroup>,
}

/// A consumer group of a stream.
#[derive(Debug, Drop)]
pub struct StreamInfoGroup {
    /// The name of the group.
    pub name: String,
    /// The number of consumers of the group.
    pub consumers: usize,
    /// The number of entries that were delivered and not yet acknowledged.
    pub pending: usize,
    /// The id of the last delivered entry.
    pub last_delivered_id: String,
    /// The number of entries that the group has read, if the server reports it.
    pub entries_read: Option<usize>,
    /// The number of entries that the group has still to read, if the server reports it.
    pub lag: Option<usize>,
}

impl StreamInfoGroupsReply {
    /// Returns the reply without groups. It allocates no memory and is always Ok.
    pub fn empty(alloc: Global) -> Result<StreamInfoGroupsReply, AllocError>
        ensures ok { IsOk result }
        ensures groups { IfOk result (λ r. groups_meaning r ≡ []) }
    {
        Ok(StreamInfoGroupsReply {
            groups: Vec::new(alloc),
        })
    }

    /// Returns a copy of the reply. It fails only if it runs out of memory.
    pub fn try_clone(&self, alloc: Global) -> Result<StreamInfoGroupsReply, AllocError>
        ensures { IfOk result (λ r. groups_meaning r ≡ groups_meaning self.now) }
    {
        let mut groups = Vec::with_capacity(alloc, self.groups.len())?;
        for group in &self.groups {
            groups.push(group.try_clone(alloc)?)?;
        }
        Ok(StreamInfoGroupsReply { groups })
    }
}

impl StreamInfoGroup {
    /// Returns the empty group. It allocates no memory and is always Ok.
    pub fn empty(alloc: Global) -> Result<StreamInfoGroup, AllocError>
        ensures ok { IsOk result }
        ensures group { IfOk result (λ g. group_meaning g ≡ empty_group) }
    {
        Ok(StreamInfoGroup {
            name: String::new(alloc),
            consumers: 0,
            pending: 0,
            last_delivered_id: String::new(alloc),
            entries_read: None,
            lag: None,
        })
    }

    /// Returns a copy of the group. It fails only if it runs out of memory.
    pub fn try_clone(&self, alloc: Global) -> Result<StreamInfoGroup, AllocError>
        ensures { IfOk result (λ g. group_meaning g ≡ group_meaning self.now) }
    {
        Ok(StreamInfoGroup {
            name: String::from_str(alloc, &self.name)?,
            consumers: self.consumers,
            pending: self.pending,
            last_delivered_id: String::from_str(alloc, &self.last_delivered_id)?,
            entries_read: self.entries_read,
            lag: self.lag,
        })
    }
}

/// The fields of a group, each if present.
#[derive(Drop)]
struct GroupFields<S> {
    name: Option<S>,
    consumers: Option<S>,
    pending: Option<S>,
    last_delivered_id: Option<S>,
    entries_read: Option<S>,
    lag: Option<S>,
}

/// Removes the fields of a group from the fields.
fn take_group_fields<S: Source>(fields: &mut HashMap<String, S>) -> GroupFields<S>
    ensures name { option_map S.seen result.name
        ≡ fields_by_name S.seen fields.old (codes "name") }
    ensures consumers { option_map S.seen result.consumers
        ≡ fields_by_name S.seen fields.old (codes "consumers") }
    ensures pending { option_map S.seen result.pending
        ≡ fields_by_name S.seen fields.old (codes "pending") }
    ensures last_delivered_id { option_map S.seen result.last_delivered_id
        ≡ fields_by_name S.seen fields.old (codes "last-delivered-id") }
    ensures entries_read { option_map S.seen result.entries_read
        ≡ fields_by_name S.seen fields.old (codes "entries-read") }
    ensures lag { option_map S.seen result.lag
        ≡ fields_by_name S.seen fields.old (codes "lag") }
{
    GroupFields {
        name: take_field(fields, "name"),
        consumers: take_field(fields, "consumers"),
        pending: take_field(fields, "pending"),
        last_delivered_id: take_field(fields, "last-delivered-id"),
        entries_read: take_field(fields, "entries-read"),
        lag: take_field(fields, "lag"),
    }
}

/// Returns the group of the fields of a row; other fields are ignored.
fn read_group<S: Source>(
    alloc: Global,
    mut fields: HashMap<String, S>,
) -> Result<StreamInfoGroup, ParsingError>
    ensures ok { IfOk result (λ r. group_of (fields_by_name S.seen fields)
        ≡ Some (group_meaning r)) }
    ensures err { IfErr result (Refuses group_of RefusesGroupField
        (fields_by_name S.seen fields)) }
{
    let fields = take_group_fields(&mut fields);
    let name = read_or(alloc, fields.name, String::new(alloc))?;
    let consumers = read_or(alloc, fields.consumers, 0)?;
    let pending = read_or(alloc, fields.pending, 0)?;
    let id = read_or(alloc, fields.last_delivered_id, String::new(alloc))?;
    let read = read_or(alloc, fields.entries_read, NumberOrNil(None))?;
    let lag = read_or(alloc, fields.lag, NumberOrNil(None))?;
    Ok(StreamInfoGroup {
        name,
        consumers,
        pending,
        last_delivered_id: id,
        entries_read: read.0,
        lag: lag.0,
    })
}

/// A row of the reply.
#[derive(Drop)]
struct Row(StreamInfoGroup);

/// Reads the row of a value.
fn read_row<S: Source>(alloc: Global, v: S) -> Result<Row, ParsingError>
    ensures ok { IfOk result (λ row. group_reading (S.seen v) ≡ Some (group_meaning row.0)) }
    ensures err { IfErr result (Refuses group_reading (RefusesNamed RefusesGroupField)
        (S.seen v)) }
{
    let fields = read_named_fields(alloc, v)?;
    Ok(Row(read_group(alloc, fields)?))
}

impl FromRedisValue for Row {
    ghost Meaning = { Group };

    ghost meaning = { λ row. group_meaning row.0 };

    ghost reading = { group_reading };

    ghost may_refuse = { RefusesNamed RefusesGroupField };

    fn from_redis_value(alloc: Global, v: Value) -> Result<Row, ParsingError> {
        read_row(alloc, v)
    }

    fn from_redis_value_ref(alloc: Global, v: &Value) -> Result<Row, ParsingError> {
        read_row(alloc, v)
    }
}

/// Returns the reply of these rows. It fails only if it runs out of memory.
fn make_reply(alloc: Global, rows: Vec<Row>) -> Result<StreamInfoGroupsReply, AllocError>
    ensures { IfOk result (λ r. groups_meaning r ≡ map (λ row. group_meaning row.0) rows.items) }
{
    let mut groups = Vec::with_capacity(alloc, rows.len())?;
    for row in rows {
        groups.push(row.0)?;
    }
    Ok(StreamInfoGroupsReply { groups })
}

/// Reads the groups of a value that is a list of rows.
#[tactic(auto, using(crate::proofs::InfoLemmas::list_wants_memory))]
fn read_reply<S: Source>(alloc: Global, v: S) -> Result<StreamInfoGroupsReply, ParsingError>
    ensures ok { IfOk result (λ r. groups_reading (S.seen v) ≡ Some (groups_meaning r)) }
    ensures err { IfErr result (Refuses groups_reading RefusesGroups (S.seen v)) }
{
    let rows: Vec<Row> = v.read(alloc)?;
    if rows.is_empty() {
        return Ok(StreamInfoGroupsReply {
            groups: Vec::new(alloc),
        });
    }
    Ok(make_reply(alloc, rows)?)
}

/// Read from a list of rows, each of fields by name. Returns `NotList` if the value is no list.
/// Otherwise returns the error of one of the rows.
impl FromRedisValue for StreamInfoGroupsReply {
    ghost Meaning = { List Group };

    ghost meaning = { groups_meaning };

    ghost reading = { groups_reading };

    ghost may_refuse = { RefusesGroups };

    fn from_redis_value(alloc: Global, v: Value) -> Result<StreamInfoGroupsReply, ParsingError> {
        read_reply(alloc, v)
    }

    fn from_redis_value_ref(
        alloc: Global,
        v: &Value,
    ) -> Result<StreamInfoGroupsReply, ParsingError> {
        read_reply(alloc, v)
    }
}
