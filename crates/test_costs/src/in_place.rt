//! The reply, read in place.
ghost use Rattle.std.specs.Prelude.{◌++◌, IfOk};
ghost use Rattle.test_costs.specs.Found.{HasStreams, AreInPlace};

use anyhow::anyhow;
use redis_wire::{Limits, ReplyStream};
use std::alloc::Global;
use stream_in_place::{EntriesRef, EntryTape, FieldsRef, StreamsRef};

/// Two names that are fields of every entry.
const NAMES: [&[u8]; 2] = [b"customer", b"note"];

/// Finds the offsets of all parts. Returns the number of streams.
pub fn places(tape: &mut EntryTape, bytes: &[u8]) -> Result<usize, anyhow::Error>
    ensures { IfOk result (λ count. HasStreams bytes.now count) }
{
    match tape.read_streams(bytes, Limits::default())? {
        Some(found) => Ok(found.streams.len()),
        None => Err(anyhow!("not in place")),
    }
}

/// Feeds the reply in one piece, finds its length and the offsets of all parts, and consumes it, as a worker
/// does. Returns the number of streams.
pub fn receive(
    alloc: Global,
    stream: &mut ReplyStream,
    tape: &mut EntryTape,
    bytes: &[u8],
) -> Result<usize, anyhow::Error>
    ensures { IfOk result (λ count. HasStreams (stream.old.bytes ++ bytes.now) count) }
{
    stream.feed(bytes)?;
    let Some(len) = stream.next_in_place(alloc)? else {
        return Err(anyhow!("not whole"));
    };
    let count = places(tape, stream.bytes())?;
    stream.give_out(len);
    Ok(count)
}

/// Returns the sum of the lengths of all ids, names and values.
pub fn fields(tape: &mut EntryTape, bytes: &[u8]) -> Result<usize, anyhow::Error>
    ensures { IfOk result (λ _. AreInPlace bytes.now) }
{
    match tape.read_streams(bytes, Limits::default())? {
        Some(found) => Ok(sum_streams(found.streams)),
        None => Err(anyhow!("not in place")),
    }
}

/// Returns the sum of the lengths of two values of each entry, which are got by name.
pub fn gets(tape: &mut EntryTape, bytes: &[u8]) -> Result<usize, anyhow::Error>
    ensures { IfOk result (λ _. AreInPlace bytes.now) }
{
    match tape.read_streams(bytes, Limits::default())? {
        Some(found) => Ok(sum_gets(found.streams)),
        None => Err(anyhow!("not in place")),
    }
}

fn sum_streams(streams: StreamsRef<'_>) -> usize {
    let mut sum = 0usize;
    for stream in streams {
        sum = sum.wrapping_add(sum_entries(stream.entries()));
    }
    sum
}

fn sum_entries(entries: EntriesRef<'_>) -> usize {
    let mut sum = 0usize;
    for entry in entries {
        sum = sum
            .wrapping_add(entry.id().len())
            .wrapping_add(sum_fields(entry.fields()));
    }
    sum
}

fn sum_fields(fields: FieldsRef<'_>) -> usize {
    let mut sum = 0usize;
    for (name, value) in fields {
        sum = sum.wrapping_add(name.len()).wrapping_add(value.len());
    }
    sum
}

fn sum_gets(streams: StreamsRef<'_>) -> usize {
    let mut sum = 0usize;
    for stream in streams {
        sum = sum.wrapping_add(gets_of(stream.entries()));
    }
    sum
}

fn gets_of(entries: EntriesRef<'_>) -> usize {
    let mut sum = 0usize;
    for entry in entries {
        for name in NAMES {
            if let Some(value) = entry.get(name) {
                sum = sum.wrapping_add(value.len());
            }
        }
    }
    sum
}
