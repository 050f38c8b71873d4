//! The pure part of a consumer-group worker: the commands that it sends and the ids that it acknowledges, with
//! types of `redis`.
ghost use Rattle.std.specs.Prelude.{◌≡◌, ◌≢◌, ◌⊎◌, [], ◌∷◌, ◌++◌, Some, None, codes, decimal, map};
ghost use Rattle.std.specs.Prelude.{option_map, string_bytes, IfOk, IfErr, OnOk};
ghost use Rattle.redis.specs.Words.{entries_of, entry_meaning, read_reading, streams_of, tree};
ghost use Rattle.examples.specs.Worker.{ids_in, ids_of};

use redis::streams::{StreamId, StreamKey, StreamReadOptions, StreamReadReply};
use redis::{ParsingError, ToRedisArgs, Value, from_redis_value};
use std::alloc::{AllocError, Global};

/// Returns `XREADGROUP GROUP g c BLOCK ms COUNT n STREAMS key >`, which requests entries that no consumer has
/// received.
pub fn read_arguments(
    alloc: Global,
    group: &str,
    consumer: &str,
    milliseconds: usize,
    count: usize,
    key: &str,
) -> Result<Vec<Vec<u8>>, AllocError>
    ensures { IfOk result (λ list. map (λ arg. arg.items) list.items ≡
        codes "XREADGROUP" ∷ codes "GROUP" ∷ group.now ∷ consumer.now
        ∷ codes "BLOCK" ∷ decimal milliseconds ∷ codes "COUNT" ∷ decimal count
        ∷ codes "STREAMS" ∷ key.now ∷ codes ">" ∷ []) }
{
    let options = StreamReadOptions::default()
        .count(count)
        .block(milliseconds)
        .group(alloc, group, consumer)?;
    ("XREADGROUP", &options, "STREAMS", (key, ">")).to_redis_args(alloc)
}

/// Appends the ids of entries, in order.
fn push_ids(ids: &mut Vec<String>, entries: &[StreamId]) -> Result<(), AllocError>
    ensures { OnOk result (map string_bytes ids.new.items
        ≡ map string_bytes ids.old.items ++ ids_of (map entry_meaning entries.now)) }
{
    for entry in entries {
        ids.push(entry.id.clone()?)?;
    }
    Ok(())
}

/// Returns the ids of entries, in order.
pub fn ids_of_entries(alloc: Global, entries: &[StreamId]) -> Result<Vec<String>, AllocError>
    ensures { IfOk result (λ ids. map string_bytes ids.items
        ≡ ids_of (map entry_meaning entries.now)) }
{
    let mut ids = Vec::new(alloc);
    push_ids(&mut ids, entries)?;
    Ok(ids)
}

/// Returns the ids of all entries of a reply, in order.
pub fn ids_to_acknowledge(alloc: Global, reply: &StreamReadReply) -> Result<Vec<String>, AllocError>
    ensures { IfOk result (λ ids. map string_bytes ids.items ≡ ids_in (streams_of reply.now.keys)) }
{
    let mut ids = Vec::new(alloc);
    for stream in &reply.keys {
        push_ids(&mut ids, &stream.ids)?;
    }
    Ok(ids)
}

/// Returns the ids of all entries in a reply to XREADGROUP, in order, to acknowledge them. Returns
/// `UnknownReadFormat` if the value is not such a reply.
pub fn ids_answered(alloc: Global, answer: Value) -> Result<Vec<String>, ParsingError>
    ensures ok { IfOk result (λ ids. option_map ids_in (read_reading (tree answer))
        ≡ Some (map string_bytes ids.items)) }
    ensures err { IfErr result (λ e. e ≢ ParsingError.Memory
        → read_reading (tree answer) ≡ None) }
    ensures cause { IfErr result (λ e.
        (e ≡ ParsingError.UnknownReadFormat) ⊎ (e ≡ ParsingError.Memory)) }
{
    let reply: StreamReadReply = from_redis_value(alloc, answer)?;
    Ok(ids_to_acknowledge(alloc, &reply)?)
}

/// Returns `XACK key group id..` with the ids of the stream's entries, in order.
pub fn acknowledge_arguments(
    alloc: Global,
    group: &str,
    stream: &StreamKey,
) -> Result<Vec<Vec<u8>>, AllocError>
    ensures { IfOk result (λ list. map (λ arg. arg.items) list.items ≡ codes "XACK"
        ∷ string_bytes stream.now.key ∷ group.now ∷ ids_of (entries_of stream.now.ids)) }
{
    let ids = ids_of_entries(alloc, &stream.ids)?;
    ("XACK", &stream.key, group, &ids).to_redis_args(alloc)
}
