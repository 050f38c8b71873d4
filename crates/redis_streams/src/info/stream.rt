//! The reply of XINFO STREAM.
ghost use Rattle.std.specs.Prelude.{◌≡◌, Some, IsOk, IfOk, IfErr, codes, option_map};
ghost use Rattle.redis_resp.specs.Refusal.{Refuses};
ghost use Rattle.redis_streams.specs.Info.{StreamInfo, empty_stream, stream_of, stream_reading};
ghost use Rattle.redis_streams.specs.InfoMeaning.{fields_by_name, stream_info_meaning};
ghost use Rattle.redis_streams.specs.InfoRefusal.{RefusesStream, RefusesStreamField};

use crate::info::entry::InfoEntry;
use crate::info::named_fields::{read_named_fields, read_or, take_field};
use redis_resp::{FromRedisValue, ParsingError, Source, Value};
use std::alloc::{AllocError, Global};
use std::collections::HashMap;
use stream_entries::StreamId;

/// The reply of XINFO STREAM on a stream.
#[derive(Debug, Drop)]
pub struct StreamInfoStreamReply {
    /// The last generated id, which may be that of an entry since deleted.
    pub last_generated_id: String,
    /// The number of keys that the radix tree of the stream has (`radix-tree-keys`).
    pub radix_tree_keys: usize,
    /// The number of nodes that the radix tree of the stream has (`radix-tree-nodes`).
    pub radix_tree_nodes: usize,
    /// The number of consumer groups that the stream has.
    pub groups: usize,
    /// The number of entries that the stream has.
    pub length: usize,
    /// The first entry, or the empty entry if there is none.
    pub first_entry: StreamId,
    /// The last entry, or the empty entry if there is none.
    pub last_entry: StreamId,
}

impl StreamInfoStreamReply {
    /// Returns the empty reply: no id, no counts, empty entries. It allocates no memory
    /// and is always Ok.
    pub fn empty(alloc: Global) -> Result<StreamInfoStreamReply, AllocError>
        ensures ok { IsOk result }
        ensures reply { IfOk result (λ r. stream_info_meaning r ≡ empty_stream) }
    {
        Ok(StreamInfoStreamReply {
            last_generated_id: String::new(alloc),
            radix_tree_keys: 0,
            radix_tree_nodes: 0,
            groups: 0,
            length: 0,
            first_entry: StreamId::empty(alloc)?,
            last_entry: StreamId::empty(alloc)?,
        })
    }

    /// Returns a copy of the reply. It fails only if it runs out of memory.
    pub fn try_clone(&self, alloc: Global) -> Result<StreamInfoStreamReply, AllocError>
        ensures { IfOk result (λ r. stream_info_meaning r ≡ stream_info_meaning self.now) }
    {
        Ok(StreamInfoStreamReply {
            last_generated_id: String::from_str(alloc, &self.last_generated_id)?,
            radix_tree_keys: self.radix_tree_keys,
            radix_tree_nodes: self.radix_tree_nodes,
            groups: self.groups,
            length: self.length,
            first_entry: self.first_entry.try_clone(alloc)?,
            last_entry: self.last_entry.try_clone(alloc)?,
        })
    }
}

/// The fields of a stream, each if present.
#[derive(Drop)]
struct StreamFields<S> {
    last_generated_id: Option<S>,
    radix_tree_keys: Option<S>,
    radix_tree_nodes: Option<S>,
    groups: Option<S>,
    length: Option<S>,
    first_entry: Option<S>,
    last_entry: Option<S>,
}

/// Removes the fields of a stream from the fields.
fn take_stream_fields<S: Source>(fields: &mut HashMap<String, S>) -> StreamFields<S>
    ensures last_generated_id { option_map S.seen result.last_generated_id
        ≡ fields_by_name S.seen fields.old (codes "last-generated-id") }
    ensures radix_tree_keys { option_map S.seen result.radix_tree_keys
        ≡ fields_by_name S.seen fields.old (codes "radix-tree-keys") }
    ensures radix_tree_nodes { option_map S.seen result.radix_tree_nodes
        ≡ fields_by_name S.seen fields.old (codes "radix-tree-nodes") }
    ensures groups { option_map S.seen result.groups
        ≡ fields_by_name S.seen fields.old (codes "groups") }
    ensures length { option_map S.seen result.length
        ≡ fields_by_name S.seen fields.old (codes "length") }
    ensures first_entry { option_map S.seen result.first_entry
        ≡ fields_by_name S.seen fields.old (codes "first-entry") }
    ensures last_entry { option_map S.seen result.last_entry
        ≡ fields_by_name S.seen fields.old (codes "last-entry") }
{
    StreamFields {
        last_generated_id: take_field(fields, "last-generated-id"),
        radix_tree_keys: take_field(fields, "radix-tree-keys"),
        radix_tree_nodes: take_field(fields, "radix-tree-nodes"),
        groups: take_field(fields, "groups"),
        length: take_field(fields, "length"),
        first_entry: take_field(fields, "first-entry"),
        last_entry: take_field(fields, "last-entry"),
    }
}

/// Returns the stream of the fields; other fields than its own are ignored.
pub(crate) fn read_stream<S: Source>(
    alloc: Global,
    mut fields: HashMap<String, S>,
) -> Result<StreamInfoStreamReply, ParsingError>
    ensures ok { IfOk result (λ r. stream_of (fields_by_name S.seen fields)
        ≡ Some (stream_info_meaning r)) }
    ensures err { IfErr result (Refuses stream_of RefusesStreamField
        (fields_by_name S.seen fields)) }
{
    let fields = take_stream_fields(&mut fields);
    let id = read_or(alloc, fields.last_generated_id, String::new(alloc))?;
    let radix_tree_keys = read_or(alloc, fields.radix_tree_keys, 0)?;
    let radix_tree_nodes = read_or(alloc, fields.radix_tree_nodes, 0)?;
    let groups = read_or(alloc, fields.groups, 0)?;
    let length = read_or(alloc, fields.length, 0)?;
    let first = read_or(alloc, fields.first_entry, InfoEntry::empty(alloc))?;
    let last = read_or(alloc, fields.last_entry, InfoEntry::empty(alloc))?;
    Ok(StreamInfoStreamReply {
        last_generated_id: id,
        radix_tree_keys,
        radix_tree_nodes,
        groups,
        length,
        first_entry: first.0,
        last_entry: last.0,
    })
}

/// Reads the stream of a value.
fn read_reply<S: Source>(alloc: Global, v: S) -> Result<StreamInfoStreamReply, ParsingError>
    ensures ok { IfOk result (λ r. stream_reading (S.seen v) ≡ Some (stream_info_meaning r)) }
    ensures err { IfErr result (Refuses stream_reading RefusesStream (S.seen v)) }
{
    let fields = read_named_fields(alloc, v)?;
    read_stream(alloc, fields)
}

/// Read from fields by name; the last of equal names counts. Returns `NotPairs` if the value has no
/// pairs. Otherwise returns the error of a key read as a text, or of one of the fields.
impl FromRedisValue for StreamInfoStreamReply {
    ghost Meaning = { StreamInfo };

    ghost meaning = { stream_info_meaning };

    ghost reading = { stream_reading };

    ghost may_refuse = { RefusesStream };

    fn from_redis_value(alloc: Global, v: Value) -> Result<StreamInfoStreamReply, ParsingError> {
        read_reply(alloc, v)
    }

    fn from_redis_value_ref(
        alloc: Global,
        v: &Value,
    ) -> Result<StreamInfoStreamReply, ParsingError> {
        read_reply(alloc, v)
    }
}
