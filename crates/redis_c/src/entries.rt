//! Entries located in place, in tables of the caller.
ghost use Rattle.std.specs.Prelude.{◌≡◌, [], ℕ, List, false, length};
ghost use Rattle.redis_wire.specs.Limits.{default_limits};
ghost use Rattle.stream_in_place.specs.Sent.{SentEntry, SentStream, all_fields, all_entries, all_stream_fields};
ghost use Rattle.stream_in_place.specs.Shapes.{BeginsWithRange, BeginsWithStreams};
ghost use Rattle.redis_c.specs.Outcome.{code, found};
ghost use Rattle.redis_c.specs.Records.{TellsFinding};
ghost use Rattle.redis_c.specs.Told.{RangeIn, StreamsIn, RangeFits, ReadFits, HasCounts, IsRoom, IsOutcome, IsTold};
ghost use Rattle.redis_c.specs.Told.{room_of, AreHeld, TellsPlaces};

use crate::other::other;
use crate::outcome::{Counts, Found, Outcome, wanted};
use redis_wire::Limits;
use std::alloc::Global;
use stream_in_place::{
    EntryPlace, EntryTables, EntryTape, FieldPlace, Places, StreamPlace, find_range, find_streams,
};

/// The number of places in each table.
pub fn counts_of<P: Places>(places: &P) -> Counts
    ensures { HasCounts result (P.held places.now) }
{
    Counts {
        streams: places.count_streams(),
        entries: places.count_entries(),
        fields: places.count_fields(),
    }
}

/// The number of places that each table has room for.
pub fn room_of(streams: usize, entries: usize, fields: usize) -> Counts
    ensures { result ≡ room_of streams entries fields }
{
    Counts {
        streams,
        entries,
        fields,
    }
}

/// The room that the entries of a range need.
fn measure_range(alloc: Global, bytes: &[u8], room: Counts) -> Outcome
    ensures is { IsRoom RangeIn bytes.now room result }
    ensures rows { (most : ℕ) (es : List SentEntry) (len : ℕ) → BeginsWithRange default_limits bytes.now es len
        → TellsPlaces most (length es) len (code result) (found result).len (found result).entries }
    ensures fields { (most : ℕ) (es : List SentEntry) (len : ℕ) → BeginsWithRange default_limits bytes.now es len
        → TellsPlaces most (length (all_fields es)) len (code result) (found result).len (found result).fields }
{
    let mut tape = EntryTape::new(alloc);
    match find_range(Limits::default(), bytes, &mut tape) {
        Err(_) => Outcome::Memory,
        Ok(None) => other(alloc, bytes),
        Ok(Some(len)) => wanted(len, counts_of(&tape), room),
    }
}

/// The room that the streams of a read need.
fn measure_streams(alloc: Global, bytes: &[u8], room: Counts) -> Outcome
    ensures is { IsRoom StreamsIn bytes.now room result }
    ensures rows { (most : ℕ) (ss : List SentStream) (len : ℕ) → BeginsWithStreams default_limits false bytes.now ss len
        → TellsPlaces most (length ss) len (code result) (found result).len (found result).streams }
    ensures entries { (most : ℕ) (ss : List SentStream) (len : ℕ) → BeginsWithStreams default_limits false bytes.now ss len
        → TellsPlaces most (length (all_entries ss)) len (code result) (found result).len (found result).entries }
    ensures fields { (most : ℕ) (ss : List SentStream) (len : ℕ) → BeginsWithStreams default_limits false bytes.now ss len
        → TellsPlaces most (length (all_stream_fields ss)) len (code result) (found result).len
        (found result).fields }
{
    let mut tape = EntryTape::new(alloc);
    match find_streams(Limits::default(), bytes, &mut tape) {
        Err(_) => Outcome::Memory,
        Ok(None) => other(alloc, bytes),
        Ok(Some(len)) => wanted(len, counts_of(&tape), room),
    }
}

/// The places of the entries of a range, in tables that have this room.
fn locate_range(
    alloc: Global,
    bytes: &[u8],
    room: Counts,
    entries: &mut [EntryPlace],
    fields: &mut [FieldPlace],
) -> Outcome
    ensures is { IsOutcome RangeIn bytes.now room [] entries.new fields.new result }
    ensures held { AreHeld [] entries.new fields.new result }
    ensures in_place { RangeFits bytes.now (length entries.old) (length fields.old) → code result ≡ 0 }
    ensures rows { (es : List SentEntry) (len : ℕ) → BeginsWithRange default_limits bytes.now es len
        → TellsPlaces (length entries.old) (length es) len (code result) (found result).len (found result).entries }
    ensures fields { (es : List SentEntry) (len : ℕ) → BeginsWithRange default_limits bytes.now es len
        → TellsPlaces (length fields.old) (length (all_fields es)) len (code result) (found result).len
        (found result).fields }
{
    let mut tables = EntryTables::new(&mut [], entries, fields);
    match find_range(Limits::default(), bytes, &mut tables) {
        Err(_) => measure_range(alloc, bytes, room),
        Ok(None) => other(alloc, bytes),
        Ok(Some(len)) => Outcome::InPlace {
            len,
            counts: counts_of(&tables),
        },
    }
}

/// The places of the streams of a read, in tables that have this room.
fn locate_streams(
    alloc: Global,
    bytes: &[u8],
    stream_room: usize,
    entry_room: usize,
    field_room: usize,
    streams: &mut [StreamPlace],
    entries: &mut [EntryPlace],
    fields: &mut [FieldPlace],
) -> Outcome
    ensures is { IsOutcome StreamsIn bytes.now (room_of stream_room entry_room field_room)
        streams.new entries.new fields.new result }
    ensures held { AreHeld streams.new entries.new fields.new result }
    ensures in_place { ReadFits bytes.now (length streams.old) (length entries.old) (length fields.old)
        → code result ≡ 0 }
    ensures rows { (ss : List SentStream) (len : ℕ) → BeginsWithStreams default_limits false bytes.now ss len
        → TellsPlaces (length streams.old) (length ss) len (code result) (found result).len (found result).streams }
    ensures entries { (ss : List SentStream) (len : ℕ) → BeginsWithStreams default_limits false bytes.now ss len
        → TellsPlaces (length entries.old) (length (all_entries ss)) len (code result) (found result).len
        (found result).entries }
    ensures fields { (ss : List SentStream) (len : ℕ) → BeginsWithStreams default_limits false bytes.now ss len
        → TellsPlaces (length fields.old) (length (all_stream_fields ss)) len (code result) (found result).len
        (found result).fields }
{
    let mut tables = EntryTables::new(streams, entries, fields);
    match find_streams(Limits::default(), bytes, &mut tables) {
        Err(_) => measure_streams(alloc, bytes, room_of(stream_room, entry_room, field_room)),
        Ok(None) => other(alloc, bytes),
        Ok(Some(len)) => Outcome::InPlace {
            len,
            counts: counts_of(&tables),
        },
    }
}

/// Finds the places of the entries of the XRANGE, XREVRANGE or XCLAIM reply at the head of bytes.
#[unsafe(no_mangle)]
pub extern "C" fn redis_find_range(
    alloc: Global,
    bytes: &[u8],
    entries: &mut [EntryPlace],
    fields: &mut [FieldPlace],
    found: &mut Found,
) -> u32
    ensures told { IsTold RangeIn bytes.now (room_of 0 (length entries.old) (length fields.old))
        [] entries.new fields.new result found.new }
    ensures in_place { RangeFits bytes.now (length entries.old) (length fields.old) → result ≡ 0 }
    ensures rows { (es : List SentEntry) (len : ℕ) → BeginsWithRange default_limits bytes.now es len
        → TellsPlaces (length entries.old) (length es) len result found.new.len found.new.entries }
    ensures fields { (es : List SentEntry) (len : ℕ) → BeginsWithRange default_limits bytes.now es len
        → TellsPlaces (length fields.old) (length (all_fields es)) len result found.new.len found.new.fields }
    ensures tells { TellsFinding bytes.now result }
{
    let room = room_of(0, entries.len(), fields.len());
    locate_range(alloc, bytes, room, entries, fields).tell(found)
}

/// Finds the places of the streams and their entries of the XREAD or XREADGROUP reply at the head of bytes.
#[unsafe(no_mangle)]
pub extern "C" fn redis_find_streams(
    alloc: Global,
    bytes: &[u8],
    streams: &mut [StreamPlace],
    entries: &mut [EntryPlace],
    fields: &mut [FieldPlace],
    found: &mut Found,
) -> u32
    ensures told { IsTold StreamsIn bytes.now
        (room_of (length streams.old) (length entries.old) (length fields.old))
        streams.new entries.new fields.new result found.new }
    ensures in_place { ReadFits bytes.now (length streams.old) (length entries.old) (length fields.old)
        → result ≡ 0 }
    ensures rows { (ss : List SentStream) (len : ℕ) → BeginsWithStreams default_limits false bytes.now ss len
        → TellsPlaces (length streams.old) (length ss) len result found.new.len found.new.streams }
    ensures entries { (ss : List SentStream) (len : ℕ) → BeginsWithStreams default_limits false bytes.now ss len
        → TellsPlaces (length entries.old) (length (all_entries ss)) len result found.new.len found.new.entries }
    ensures fields { (ss : List SentStream) (len : ℕ) → BeginsWithStreams default_limits false bytes.now ss len
        → TellsPlaces (length fields.old) (length (all_stream_fields ss)) len result found.new.len
        found.new.fields }
    ensures tells { TellsFinding bytes.now result }
{
    let (stream_room, entry_room, field_room) = (streams.len(), entries.len(), fields.len());
    locate_streams(
        alloc,
        bytes,
        stream_room,
        entry_room,
        field_room,
        streams,
        entries,
        fields,
    )
    .tell(found)
}
