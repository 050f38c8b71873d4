//! Entries, read in place.
ghost use Rattle.std.specs.Prelude.{◌≡◌, ◌∷◌, [], length, map, nat_eq, option_map, IfErr, IfOk, MatchOption, OnOk};
ghost use Rattle.std.specs.List.{AllByRecursion};
ghost use Rattle.stream_entries.specs.EntryMeaning.{entries_of};
ghost use Rattle.stream_in_place.specs.Copied.{NotOwned, copied};
ghost use Rattle.stream_in_place.specs.Sent.{AreNamed};
ghost use Rattle.stream_in_place.specs.Placed.{delivery_if, entry_in, IsField, IsEntry};

use crate::entry::{Delivery, EntryRef, entry_of};
use crate::fields::fields_at;
use crate::places::{EntryPlace, FieldPlace};
use crate::rows::text_in;
use redis_resp::ParsingError;
use std::alloc::Global;
use std::fmt;
use std::iter::ExactSizeIterator;
use std::marker::Model;
use stream_entries::{StreamId, StreamRangeReply};

/// Entries, in order. As an iterator it returns those that are left.
#[derive(Drop)]
pub struct EntriesRef<'a> {
    bytes: &'a [u8],
    places: &'a [EntryPlace],
    fields: &'a [FieldPlace],
}

impl<'a> Model for EntriesRef<'a> {
    ghost use Rattle.std.specs.Prelude.{List, map, length};
    ghost use Rattle.std.specs.List.{AllByRecursion};
    ghost use Rattle.stream_in_place.specs.Sent.{SentEntry};
    ghost use Rattle.stream_in_place.specs.Placed.{entry_in, IsField, IsEntry};

    ghost Value = { List SentEntry };

    ghost view = { λ s. map (entry_in s.bytes.now s.fields.now) s.places.now };

    ghost invariant = { λ s. AllByRecursion (IsEntry s.bytes.now (length s.fields.now)) s.places.now
        × AllByRecursion (IsField s.bytes.now) s.fields.now };
}

impl<'a> EntriesRef<'a> {
    /// Returns the number of entries that are left.
    pub fn len(&self) -> usize
        ensures { result ≡ length self.now }
    {
        self.places.len()
    }

    /// Whether no entry is left.
    pub fn is_empty(&self) -> bool
        ensures { result ≡ nat_eq (length self.now) 0 }
    {
        self.places.is_empty()
    }

    /// Returns an iterator over the entries that are left, from the first of them.
    pub fn again(&self) -> EntriesRef<'a>
        ensures { result ≡ self.now }
    {
        EntriesRef {
            bytes: self.bytes,
            places: self.places,
            fields: self.fields,
        }
    }

    /// Copies the entries that are left into records. `NotText` if a name is not UTF-8.
    pub fn to_owned(&self, alloc: Global) -> Result<Vec<StreamId>, ParsingError>
        ensures ok { IfOk result (λ ids. entries_of ids ≡ map copied self.now) }
        ensures named { OnOk result (AreNamed self.now) }
        ensures err { IfErr result (NotOwned (AreNamed self.now)) }
    {
        let mut copies = Vec::with_capacity(alloc, self.places.len())?;
        for entry in self.again() {
            copies.push(entry.to_owned(alloc)?)?;
        }
        Ok(copies)
    }

    /// Takes the next entry.
    fn take_entry(&mut self) -> Option<EntryRef<'a>>
        ensures { MatchOption result ((self.old ≡ []) × (self.new ≡ []))
            (λ e. self.old ≡ e ∷ self.new) }
    {
        let (first, rest) = self.places.split_first()?;
        self.places = rest;
        Some(make_entry(self.bytes, *first, self.fields))
    }
}

/// The entry at that place.
fn make_entry<'a>(bytes: &'a [u8], place: EntryPlace, fields: &'a [FieldPlace]) -> EntryRef<'a>
    requires entry { IsEntry bytes.now (length fields.now) place }
    requires fields { AllByRecursion (IsField bytes.now) fields.now }
    ensures { result ≡ entry_in bytes.now fields.now place }
{
    let id = unsafe { str::from_utf8_unchecked(text_in(bytes, place.id)) };
    let own = fields_at(bytes, &fields[place.from..place.to]);
    entry_of(id, own, place.deleted, find_delivery(place))
}

/// The delivery of an entry, if it has one.
fn find_delivery(place: EntryPlace) -> Option<Delivery>
    ensures { option_map (λ d. (d.elapsed, d.count)) result
        ≡ delivery_if place.delivered place.elapsed place.count }
{
    if place.delivered {
        Some(Delivery {
            elapsed: place.elapsed,
            count: place.count,
        })
    } else {
        None
    }
}

impl<'a> Iterator for EntriesRef<'a> {
    type Item = EntryRef<'a>;

    ghost use Rattle.std.specs.Iterator.{YieldsFirst, item_count};

    ghost next_gives = { YieldsFirst (λ s. s) };

    ghost remaining = { item_count (λ s. s) };

    fn next(&mut self) -> Option<EntryRef<'a>> {
        self.take_entry()
    }
}

impl<'a> ExactSizeIterator for EntriesRef<'a> {
    fn len(&self) -> usize {
        self.places.len()
    }
}

impl<'a> fmt::Debug for EntriesRef<'a> {
    fn fmt<W: fmt::Write>(&self, f: &mut fmt::Formatter<W>) -> fmt::Result {
        f.debug_list().entries(self.again()).finish()
    }
}

/// The entries at those places.
pub fn entries_at<'a>(
    bytes: &'a [u8],
    places: &'a [EntryPlace],
    fields: &'a [FieldPlace],
) -> EntriesRef<'a>
    requires entries { AllByRecursion (IsEntry bytes.now (length fields.now)) places.now }
    requires fields { AllByRecursion (IsField bytes.now) fields.now }
    ensures { result ≡ map (entry_in bytes.now fields.now) places.now }
{
    EntriesRef {
        bytes,
        places,
        fields,
    }
}

/// The entries of a range, read in place, and the length of the reply in bytes.
#[derive(Debug, Drop)]
pub struct RangeRef<'a> {
    /// The entries, in order.
    pub entries: EntriesRef<'a>,
    /// The length of the reply in bytes.
    pub len: usize,
}

impl<'a> RangeRef<'a> {
    /// Copies what is left; while all is left, as the copying path does. `NotText` if a name is not UTF-8.
    pub fn to_owned(&self, alloc: Global) -> Result<StreamRangeReply, ParsingError>
        ensures ok { IfOk result (λ r. entries_of r.ids ≡ map copied self.now.entries) }
        ensures named { OnOk result (AreNamed self.now.entries) }
        ensures err { IfErr result (NotOwned (AreNamed self.now.entries)) }
    {
        Ok(StreamRangeReply {
            ids: self.entries.to_owned(alloc)?,
        })
    }
}
