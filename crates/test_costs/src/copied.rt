//! The reply, read by the copying path.
ghost use Rattle.std.specs.Prelude.{◌≤◌, IfOk, length, take};
ghost use Rattle.redis_wire.specs.Limits.{default_limits};
ghost use Rattle.redis_wire.specs.Reply.{answer};
ghost use Rattle.redis_wire.specs.Grammar.{IsReply};
ghost use Rattle.test_costs.specs.Found.{IsHead, HasRecord};

use anyhow::anyhow;
use redis_resp::Value;
use redis_wire::{Decoded, Limits, Reply, decode, from_reply};
use std::alloc::Global;
use std::collections::HashMap;
use stream_entries::{StreamId, StreamKey, StreamReadReply};

/// Decodes the value and makes no record. Returns its length in bytes.
pub fn decoded(alloc: Global, bytes: &[u8]) -> Result<usize, anyhow::Error>
    ensures { IfOk result (λ len. IsHead bytes.now len) }
{
    let (reply, len) = head_of(alloc, bytes)?;
    drop(reply);
    Ok(len)
}

/// Makes the record. Returns the sum of the lengths of all ids, names and values.
pub fn read(alloc: Global, bytes: &[u8]) -> Result<usize, anyhow::Error>
    ensures { IfOk result (λ _. HasRecord bytes.now) }
{
    let (reply, _) = head_of(alloc, bytes)?;
    match from_reply::<StreamReadReply>(alloc, reply) {
        Ok(read) => Ok(sum_streams(&read.keys)),
        Err(_) => Err(anyhow!("no record")),
    }
}

fn head_of(alloc: Global, bytes: &[u8]) -> Result<(Reply, usize), anyhow::Error>
    ensures { IfOk result (λ x. (x.1 ≤ length bytes.now) × IsReply default_limits (take x.1 bytes.now) (answer x.0)) }
{
    match decode(alloc, bytes, Limits::default())? {
        Decoded::Complete { reply, len } => Ok((reply, len)),
        Decoded::Incomplete => Err(anyhow!("incomplete")),
    }
}

fn sum_streams(streams: &[StreamKey]) -> usize {
    let mut sum = 0usize;
    for stream in streams {
        sum = sum.wrapping_add(sum_entries(&stream.ids));
    }
    sum
}

fn sum_entries(entries: &[StreamId]) -> usize {
    let mut sum = 0usize;
    for entry in entries {
        sum = sum
            .wrapping_add(entry.id.len())
            .wrapping_add(sum_fields(&entry.map));
    }
    sum
}

fn sum_fields(fields: &HashMap<String, Value>) -> usize {
    let mut sum = 0usize;
    for (name, value) in fields {
        if let Value::BulkString(text) = value {
            sum = sum.wrapping_add(name.len()).wrapping_add(text.len());
        }
    }
    sum
}
