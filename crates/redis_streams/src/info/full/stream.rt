//! The reply of XINFO STREAM FULL.
ghost use Rattle.std.specs.Prelude.{◌≡◌, Some, IsOk, IfOk, IfErr, codes, option_map};
ghost use Rattle.redis_resp.specs.Refusal.{Refuses};
ghost use Rattle.redis_streams.specs.InfoFull.{FullStream, empty_full_stream};
ghost use Rattle.redis_streams.specs.InfoFull.{full_reading, full_stream_of};
ghost use Rattle.redis_streams.specs.InfoFullMeaning.{full_meaning};
ghost use Rattle.redis_streams.specs.InfoFullRefusal.{RefusesFull, RefusesFullField};
ghost use Rattle.redis_streams.specs.InfoMeaning.{fields_by_name};

use crate::info::full::entry::{StreamInfoFullEntry, copy_entries};
use crate::info::full::group::{StreamInfoFullGroup, copy_full_groups};
use crate::info::named_fields::{read_named_fields, read_or, take_field};
use crate::info::number_or_nil::NumberOrNil;
use redis_resp::{FromRedisValue, ParsingError, Source, Value};
use std::alloc::{AllocError, Global};
use std::collections::HashMap;

/// The reply of `XINFO STREAM key FULL [COUNT count]`: that of XINFO STREAM with the entries of the
/// stream, and its groups with their consumers. A count bounds the entries and each list of
/// pending entries; the default is ten.
#[derive(Debug, Drop)]
pub struct StreamInfoFullReply {
    /// The number of entries that the stream has.
    pub length: usize,
    /// The number of keys that the radix tree of the stream has (`radix-tree-keys`).
    pub radix_tree_keys: usize,
    /// The number of nodes that the radix tree of the stream has (`radix-tree-nodes`).
    pub radix_tree_nodes: usize,
    /// The last generated id, which may be that of an entry since deleted.
    pub last_generated_id: String,
    /// The highest id of a deleted entry, or `0-0` if none was deleted; empty if the server does not
    /// report it, before version 7.0.
    pub max_deleted_entry_id: String,
    /// The number of entries that were added since the stream was made, if the server reports it.
    pub entries_added: Option<usize>,
    /// The id of the first entry as the server keeps it (`recorded-first-entry-id`), or `0-0` if there
    /// is none; empty if the server does not report it, before version 7.0.
    pub recorded_first_entry_id: String,
    /// The entries in order, at most the requested count.
    pub entries: Vec<StreamInfoFullEntry>,
    /// The groups of the stream.
    pub groups: Vec<StreamInfoFullGroup>,
}

impl StreamInfoFullReply {
    /// Returns the empty reply. It allocates no memory and is always Ok.
    pub fn empty(alloc: Global) -> Result<StreamInfoFullReply, AllocError>
        ensures ok { IsOk result }
        ensures reply { IfOk result (λ r. full_meaning r ≡ empty_full_stream) }
    {
        Ok(StreamInfoFullReply {
            length: 0,
            radix_tree_keys: 0,
            radix_tree_nodes: 0,
            last_generated_id: String::new(alloc),
            max_deleted_entry_id: String::new(alloc),
            entries_added: None,
            recorded_first_entry_id: String::new(alloc),
            entries: Vec::new(alloc),
            groups: Vec::new(alloc),
        })
    }

    /// Returns a copy of the reply. It fails only if it runs out of memory.
    pub fn try_clone(&self, alloc: Global) -> Result<StreamInfoFullReply, AllocError>
        ensures { IfOk result (λ r. full_meaning r ≡ full_meaning self.now) }
    {
        Ok(StreamInfoFullReply {
            length: self.length,
            radix_tree_keys: self.radix_tree_keys,
            radix_tree_nodes: self.radix_tree_nodes,
            last_generated_id: String::from_str(alloc, &self.last_generated_id)?,
            max_deleted_entry_id: String::from_str(alloc, &self.max_deleted_entry_id)?,
            entries_added: self.entries_added,
            recorded_first_entry_id: String::from_str(alloc, &self.recorded_first_entry_id)?,
            entries: copy_entries(alloc, &self.entries)?,
            groups: copy_full_groups(alloc, &self.groups)?,
        })
    }
}

/// The fields of a stream, each if present.
#[derive(Drop)]
struct FullFields<S> {
    length: Option<S>,
    radix_tree_keys: Option<S>,
    radix_tree_nodes: Option<S>,
    last_generated_id: Option<S>,
    max_deleted_entry_id: Option<S>,
    entries_added: Option<S>,
    recorded_first_entry_id: Option<S>,
    entries: Option<S>,
    groups: Option<S>,
}

/// Removes the fields of a stream from the fields.
fn take_full_fields<S: Source>(fields: &mut HashMap<String, S>) -> FullFields<S>
    ensures length { option_map S.seen result.length
        ≡ fields_by_name S.seen fields.old (codes "length") }
    ensures radix_tree_keys { option_map S.seen result.radix_tree_keys
        ≡ fields_by_name S.seen fields.old (codes "radix-tree-keys") }
    ensures radix_tree_nodes { option_map S.seen result.radix_tree_nodes
        ≡ fields_by_name S.seen fields.old (codes "radix-tree-nodes") }
    ensures last_generated_id { option_map S.seen result.last_generated_id
        ≡ fields_by_name S.seen fields.old (codes "last-generated-id") }
    ensures max_deleted_entry_id { option_map S.seen result.max_deleted_entry_id
        ≡ fields_by_name S.seen fields.old (codes "max-deleted-entry-id") }
    ensures entries_added { option_map S.seen result.entries_added
        ≡ fields_by_name S.seen fields.old (codes "entries-added") }
    ensures recorded_first_entry_id { option_map S.seen result.recorded_first_entry_id
        ≡ fields_by_name S.seen fields.old (codes "recorded-first-entry-id") }
    ensures entries { option_map S.seen result.entries
        ≡ fields_by_name S.seen fields.old (codes "entries") }
    ensures groups { option_map S.seen result.groups
        ≡ fields_by_name S.seen fields.old (codes "groups") }
{
    FullFields {
        length: take_field(fields, "length"),
        radix_tree_keys: take_field(fields, "radix-tree-keys"),
        radix_tree_nodes: take_field(fields, "radix-tree-nodes"),
        last_generated_id: take_field(fields, "last-generated-id"),
        max_deleted_entry_id: take_field(fields, "max-deleted-entry-id"),
        entries_added: take_field(fields, "entries-added"),
        recorded_first_entry_id: take_field(fields, "recorded-first-entry-id"),
        entries: take_field(fields, "entries"),
        groups: take_field(fields, "groups"),
    }
}

/// Returns the stream of the fields; other fields are ignored.
fn read_full<S: Source>(
    alloc: Global,
    mut fields: HashMap<String, S>,
) -> Result<StreamInfoFullReply, ParsingError>
    ensures ok { IfOk result (λ r. full_stream_of (fields_by_name S.seen fields)
        ≡ Some (full_meaning r)) }
    ensures err { IfErr result (Refuses full_stream_of RefusesFullField
        (fields_by_name S.seen fields)) }
{
    let fields = take_full_fields(&mut fields);
    let length = read_or(alloc, fields.length, 0)?;
    let radix_tree_keys = read_or(alloc, fields.radix_tree_keys, 0)?;
    let radix_tree_nodes = read_or(alloc, fields.radix_tree_nodes, 0)?;
    let last = read_or(alloc, fields.last_generated_id, String::new(alloc))?;
    let deleted = read_or(alloc, fields.max_deleted_entry_id, String::new(alloc))?;
    let added = read_or(alloc, fields.entries_added, NumberOrNil(None))?;
    let first = read_or(alloc, fields.recorded_first_entry_id, String::new(alloc))?;
    let entries = read_or(alloc, fields.entries, Vec::new(alloc))?;
    let groups = read_or(alloc, fields.groups, Vec::new(alloc))?;
    Ok(StreamInfoFullReply {
        length,
        radix_tree_keys,
        radix_tree_nodes,
        last_generated_id: last,
        max_deleted_entry_id: deleted,
        entries_added: added.0,
        recorded_first_entry_id: first,
        entries,
        groups,
    })
}

/// Reads the reply of a value.
fn read_reply<S: Source>(alloc: Global, v: S) -> Result<StreamInfoFullReply, ParsingError>
    ensures ok { IfOk result (λ r. full_reading (S.seen v) ≡ Some (full_meaning r)) }
    ensures err { IfErr result (Refuses full_reading RefusesFull (S.seen v)) }
{
    let fields = read_named_fields(alloc, v)?;
    read_full(alloc, fields)
}

/// Read from fields by name; the last of equal names counts. Returns `NotPairs` if the value has no
/// pairs. Otherwise returns the error of a key read as a text, or of one of the fields.
impl FromRedisValue for StreamInfoFullReply {
    ghost Meaning = { FullStream };

    ghost meaning = { full_meaning };

    ghost reading = { full_reading };

    ghost may_refuse = { RefusesFull };

    fn from_redis_value(alloc: Global, v: Value) -> Result<StreamInfoFullReply, ParsingError> {
        read_reply(alloc, v)
    }

    fn from_redis_value_ref(alloc: Global, v: &Value) -> Result<StreamInfoFullReply, ParsingError> {
        read_reply(alloc, v)
    }
}
