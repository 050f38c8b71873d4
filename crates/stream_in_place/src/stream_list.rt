//! Streams with their entries, read in place.
ghost use Rattle.std.specs.Prelude.{◌≡◌, ◌∷◌, [], length, map, nat_eq, IfErr, IfOk, MatchOption, OnOk};
ghost use Rattle.std.specs.List.{AllByRecursion};
ghost use Rattle.stream_entries.specs.ReadMeaning.{stream_key_meaning, streams_of};
ghost use Rattle.stream_in_place.specs.Copied.{NotOwned, copied_stream, copied_streams};
ghost use Rattle.stream_in_place.specs.Sent.{AreAllNamed, AreNamed};
ghost use Rattle.stream_in_place.specs.Placed.{stream_in, IsField, IsEntry, IsStream};

use crate::entry_list::{EntriesRef, entries_at};
use crate::places::{EntryPlace, FieldPlace, StreamPlace};
use crate::rows::text_in;
use redis_resp::ParsingError;
use std::alloc::Global;
use std::fmt;
use std::iter::ExactSizeIterator;
use std::marker::Model;
use stream_entries::{StreamKey, StreamReadReply};

/// A stream, read in place.
#[derive(Debug, Drop)]
pub struct StreamRef<'a> {
    name: &'a str,
    entries: EntriesRef<'a>,
}

impl<'a> Model for StreamRef<'a> {
    ghost use Rattle.stream_in_place.specs.Sent.{SentStream};

    ghost Value = { SentStream };

    ghost view = { λ s. record { name = s.name.now; entries = s.entries } };
}

impl<'a> StreamRef<'a> {
    /// Returns the name: the key under which the stream is stored.
    pub fn name(&self) -> &'a str
        ensures { result.now ≡ self.now.name }
    {
        self.name
    }

    /// Returns the entries, in order.
    pub fn entries(&self) -> EntriesRef<'a>
        ensures { result ≡ self.now.entries }
    {
        self.entries.again()
    }
}

impl<'a> StreamRef<'a> {
    /// Copies the stream into a record. `NotText` if the name of a field is not UTF-8.
    pub fn to_owned(&self, alloc: Global) -> Result<StreamKey, ParsingError>
        ensures ok { IfOk result (λ k. stream_key_meaning k ≡ copied_stream self.now) }
        ensures named { OnOk result (AreNamed self.now.entries) }
        ensures err { IfErr result (NotOwned (AreNamed self.now.entries)) }
    {
        Ok(StreamKey {
            key: String::from_str(alloc, self.name)?,
            ids: self.entries.to_owned(alloc)?,
        })
    }
}

/// Streams, in order. As an iterator it returns those that are left.
#[derive(Drop)]
pub struct StreamsRef<'a> {
    bytes: &'a [u8],
    places: &'a [StreamPlace],
    entries: &'a [EntryPlace],
    fields: &'a [FieldPlace],
}

impl<'a> Model for StreamsRef<'a> {
    ghost use Rattle.std.specs.Prelude.{List, map, length};
    ghost use Rattle.std.specs.List.{AllByRecursion};
    ghost use Rattle.stream_in_place.specs.Sent.{SentStream};
    ghost use Rattle.stream_in_place.specs.Placed.{stream_in, IsField, IsEntry, IsStream};

    ghost Value = { List SentStream };

    ghost view = { λ s. map (stream_in s.bytes.now s.entries.now s.fields.now) s.places.now };

    ghost invariant = { λ s. AllByRecursion (IsStream s.bytes.now (length s.entries.now)) s.places.now
        × AllByRecursion (IsEntry s.bytes.now (length s.fields.now)) s.entries.now
        × AllByRecursion (IsField s.bytes.now) s.fields.now };
}

impl<'a> StreamsRef<'a> {
    /// Returns the number of streams that are left.
    pub fn len(&self) -> usize
        ensures { result ≡ length self.now }
    {
        self.places.len()
    }

    /// Whether no stream is left.
    pub fn is_empty(&self) -> bool
        ensures { result ≡ nat_eq (length self.now) 0 }
    {
        self.places.is_empty()
    }

    /// Returns an iterator over the streams that are left, from the first of them.
    pub fn again(&self) -> StreamsRef<'a>
        ensures { result ≡ self.now }
    {
        StreamsRef {
            bytes: self.bytes,
            places: self.places,
            entries: self.entries,
            fields: self.fields,
        }
    }

    /// Copies the streams that are left into records. `NotText` if the name of a field is not UTF-8.
    pub fn to_owned(&self, alloc: Global) -> Result<Vec<StreamKey>, ParsingError>
        ensures ok { IfOk result (λ keys. streams_of keys ≡ copied_streams self.now) }
        ensures named { OnOk result (AreAllNamed self.now) }
        ensures err { IfErr result (NotOwned (AreAllNamed self.now)) }
    {
        let mut copies = Vec::with_capacity(alloc, self.places.len())?;
        for stream in self.again() {
            copies.push(stream.to_owned(alloc)?)?;
        }
        Ok(copies)
    }

    /// Takes the next stream.
    fn take_stream(&mut self) -> Option<StreamRef<'a>>
        ensures { MatchOption result ((self.old ≡ []) × (self.new ≡ []))
            (λ s. self.old ≡ s ∷ self.new) }
    {
        let (first, rest) = self.places.split_first()?;
        self.places = rest;
        Some(make_stream(self.bytes, *first, self.entries, self.fields))
    }
}

/// The stream at that place.
fn make_stream<'a>(
    bytes: &'a [u8],
    place: StreamPlace,
    entries: &'a [EntryPlace],
    fields: &'a [FieldPlace],
) -> StreamRef<'a>
    requires stream { IsStream bytes.now (length entries.now) place }
    requires entries { AllByRecursion (IsEntry bytes.now (length fields.now)) entries.now }
    requires fields { AllByRecursion (IsField bytes.now) fields.now }
    ensures { result ≡ stream_in bytes.now entries.now fields.now place }
{
    StreamRef {
        name: unsafe { str::from_utf8_unchecked(text_in(bytes, place.name)) },
        entries: entries_at(bytes, &entries[place.from..place.to], fields),
    }
}

impl<'a> Iterator for StreamsRef<'a> {
    type Item = StreamRef<'a>;

    ghost use Rattle.std.specs.Iterator.{YieldsFirst, item_count};

    ghost next_gives = { YieldsFirst (λ s. s) };

    ghost remaining = { item_count (λ s. s) };

    fn next(&mut self) -> Option<StreamRef<'a>> {
        self.take_stream()
    }
}

impl<'a> ExactSizeIterator for StreamsRef<'a> {
    fn len(&self) -> usize {
        self.places.len()
    }
}

impl<'a> fmt::Debug for StreamsRef<'a> {
    fn fmt<W: fmt::Write>(&self, f: &mut fmt::Formatter<W>) -> fmt::Result {
        f.debug_list().entries(self.again()).finish()
    }
}

/// The streams at those places.
pub fn streams_at<'a>(
    bytes: &'a [u8],
    places: &'a [StreamPlace],
    entries: &'a [EntryPlace],
    fields: &'a [FieldPlace],
) -> StreamsRef<'a>
    requires streams { AllByRecursion (IsStream bytes.now (length entries.now)) places.now }
    requires entries { AllByRecursion (IsEntry bytes.now (length fields.now)) entries.now }
    requires fields { AllByRecursion (IsField bytes.now) fields.now }
    ensures { result ≡ map (stream_in bytes.now entries.now fields.now) places.now }
{
    StreamsRef {
        bytes,
        places,
        entries,
        fields,
    }
}

/// The streams of a read, in place, and the length of the reply in bytes.
#[derive(Debug, Drop)]
pub struct ReadRef<'a> {
    /// The streams, in order.
    pub streams: StreamsRef<'a>,
    /// The length of the reply in bytes.
    pub len: usize,
}

impl<'a> ReadRef<'a> {
    /// Copies the streams that are left. While all are left, it is the record of the copying path. `NotText` if
    /// the name of a field is not UTF-8.
    pub fn to_owned(&self, alloc: Global) -> Result<StreamReadReply, ParsingError>
        ensures ok { IfOk result (λ r. streams_of r.keys ≡ copied_streams self.now.streams) }
        ensures named { OnOk result (AreAllNamed self.now.streams) }
        ensures err { IfErr result (NotOwned (AreAllNamed self.now.streams)) }
    {
        Ok(StreamReadReply {
            keys: self.streams.to_owned(alloc)?,
        })
    }
}
