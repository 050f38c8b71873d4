//! Growing tables of the places in a reply.
ghost use Rattle.std.specs.Prelude.{◌≡◌, ℕ, Bool, true, false, List, IfOk, IfSome, IsSomeAnd};
ghost use Rattle.stream_in_place.specs.Held.{none_held};
ghost use Rattle.stream_in_place.specs.Range.{IsRange, IsRead};
ghost use Rattle.stream_in_place.specs.AutoClaim.{IsAutoClaim, IsJustId};
ghost use Rattle.stream_in_place.specs.Sent.{SentAutoClaim};
ghost use Rattle.stream_entries.specs.JustId.{JustId};
ghost use Rattle.stream_in_place.specs.Sent.{SentEntry, SentStream};
ghost use Rattle.stream_in_place.specs.Shapes.{BeginsWithRange, BeginsWithStreams, BeginsWithAutoClaim, BeginsWithJustId};

use crate::autoclaim::{
    AutoClaimJustIdRef, AutoClaimRef, autoclaim_at, find_autoclaim, find_justid, justid_at,
};
use crate::depth::{RANGE_DEPTH, STREAMS_DEPTH};
use crate::entry_list::{RangeRef, entries_at};
use crate::find::{find_either_form, find_form};
use crate::form::Form;
use crate::places::{EntryPlace, FieldPlace, Places, StreamPlace};
use crate::rows::add_entries;
use crate::stream_list::{ReadRef, streams_at};
use redis_wire::Limits;
use redis_wire::place::array_at;
use std::alloc::{AllocError, Global};

/// The places of the entries of a reply: three tables of plain numbers. They keep their memory for the next
/// reply, so replies no larger than earlier ones allocate nothing.
#[derive(Debug, Drop)]
pub struct EntryTape {
    streams: Vec<StreamPlace>,
    entries: Vec<EntryPlace>,
    fields: Vec<FieldPlace>,
}

impl EntryTape {
    /// Creates empty tables. They have no memory yet.
    pub fn new(alloc: Global) -> EntryTape
        ensures { ⟦<EntryTape as Places>⟧.held result ≡ none_held }
    {
        EntryTape {
            streams: Vec::new(alloc),
            entries: Vec::new(alloc),
            fields: Vec::new(alloc),
        }
    }

    /// Returns the places of the streams that were found last.
    pub fn stream_places(&self) -> &[StreamPlace]
        ensures { result.now ≡ (⟦<EntryTape as Places>⟧.held self.now).streams }
    {
        &self.streams
    }

    /// Returns the places of the entries of all streams.
    pub fn entry_places(&self) -> &[EntryPlace]
        ensures { result.now ≡ (⟦<EntryTape as Places>⟧.held self.now).entries }
    {
        &self.entries
    }

    /// Returns the places of the fields of all entries.
    pub fn field_places(&self) -> &[FieldPlace]
        ensures { result.now ≡ (⟦<EntryTape as Places>⟧.held self.now).fields }
    {
        &self.fields
    }

    /// Reads the entries of the reply at the start of the bytes in place. `None` unless it has the shape that
    /// servers send for XRANGE, XREVRANGE and XCLAIM: an array of rows, each of an id and an array of names
    /// and values. For an entry that was deleted nil is in place of that array. No value is made, so
    /// `Limits::values` bounds nothing here.
    pub fn read_range<'a>(
        &'a mut self,
        bytes: &'a [u8],
        limits: Limits,
    ) -> Result<Option<RangeRef<'a>>, AllocError>
        ensures is { IfOk result (λ o. IfSome o (λ r. IsRange limits bytes.now r.entries r.len)) }
        ensures found { (es : List SentEntry) (len : ℕ) → BeginsWithRange limits bytes.now es len
            → IfOk result (λ o. IsSomeAnd o (λ r. (r.entries ≡ es) × (r.len ≡ len))) }
    {
        self.clear();
        if limits.depth < RANGE_DEPTH {
            return Ok(None);
        }
        let Some((count, at)) = array_at(limits, bytes, 0) else {
            return Ok(None);
        };
        match add_entries(limits, bytes, at, Form::Standard, count, self)? {
            None => Ok(None),
            Some(len) => Ok(Some(RangeRef {
                entries: entries_at(bytes, &self.entries, &self.fields),
                len,
            })),
        }
    }

    /// Reads the streams of the reply at the start of the bytes in place. `None` unless it has the shape that
    /// servers send for XREAD and XREADGROUP. That is nil, an array of streams, each of its name and its rows,
    /// or in RESP3 a map of names to rows. No value is made, so `Limits::values` bounds nothing here.
    pub fn read_streams<'a>(
        &'a mut self,
        bytes: &'a [u8],
        limits: Limits,
    ) -> Result<Option<ReadRef<'a>>, AllocError>
        ensures is { IfOk result (λ o. IfSome o (λ r. IsRead limits bytes.now r.streams r.len)) }
        ensures found { (ss : List SentStream) (len : ℕ) → BeginsWithStreams limits false bytes.now ss len
            → IfOk result (λ o. IsSomeAnd o (λ r. (r.streams ≡ ss) × (r.len ≡ len))) }
    {
        if limits.depth < STREAMS_DEPTH {
            return Ok(None);
        }
        match find_form(limits, bytes, Form::Standard, self)? {
            None => Ok(None),
            Some(len) => Ok(Some(ReadRef {
                streams: streams_at(bytes, &self.streams, &self.entries, &self.fields),
                len,
            })),
        }
    }

    /// Reads the streams of the reply at the start of the bytes in place, as `read_streams` does, if each row
    /// has the claim form. After the fields such a row has the milliseconds since the last delivery, and the
    /// delivery count. Servers send this form for XREADGROUP with `CLAIM`.
    pub fn read_claimed_streams<'a>(
        &'a mut self,
        bytes: &'a [u8],
        limits: Limits,
    ) -> Result<Option<ReadRef<'a>>, AllocError>
        ensures is { IfOk result (λ o. IfSome o (λ r. IsRead limits bytes.now r.streams r.len)) }
        ensures found { (ss : List SentStream) (len : ℕ) → BeginsWithStreams limits true bytes.now ss len
            → IfOk result (λ o. IsSomeAnd o (λ r. (r.streams ≡ ss) × (r.len ≡ len))) }
    {
        if limits.depth < STREAMS_DEPTH {
            return Ok(None);
        }
        match find_form(limits, bytes, Form::Claim, self)? {
            None => Ok(None),
            Some(len) => Ok(Some(ReadRef {
                streams: streams_at(bytes, &self.streams, &self.entries, &self.fields),
                len,
            })),
        }
    }

    /// Reads the streams of the reply at the start of the bytes in place, in the standard form or else in
    /// the claim form.
    pub fn read_either_form<'a>(
        &'a mut self,
        bytes: &'a [u8],
        limits: Limits,
    ) -> Result<Option<ReadRef<'a>>, AllocError>
        ensures is { IfOk result (λ o. IfSome o (λ r. IsRead limits bytes.now r.streams r.len)) }
        ensures found { (claim : Bool) (ss : List SentStream) (len : ℕ)
            → BeginsWithStreams limits claim bytes.now ss len
            → IfOk result (λ o. IsSomeAnd o (λ r. (r.streams ≡ ss) × (r.len ≡ len))) }
    {
        if limits.depth < STREAMS_DEPTH {
            return Ok(None);
        }
        match find_either_form(limits, bytes, self)? {
            None => Ok(None),
            Some((_, len)) => Ok(Some(ReadRef {
                streams: streams_at(bytes, &self.streams, &self.entries, &self.fields),
                len,
            })),
        }
    }

    /// Reads the reply of XAUTOCLAIM at the start of the bytes in place. `None` unless it has the shape that
    /// servers send. That is an array of the next id, the rows of the entries that were claimed and, from 7.0
    /// on, the deleted ids.
    pub fn read_autoclaim<'a>(
        &'a mut self,
        bytes: &'a [u8],
        limits: Limits,
    ) -> Result<Option<AutoClaimRef<'a>>, AllocError>
        ensures is { IfOk result (λ o. IfSome o (λ r. IsAutoClaim limits bytes.now
            (record { next = r.next_stream_id.now; claimed = r.claimed; deleted = r.deleted_ids }) r.len)) }
        ensures found { (sent : SentAutoClaim) (len : ℕ) → BeginsWithAutoClaim limits bytes.now sent len
            → IfOk result (λ o. IsSomeAnd o (λ r. (record {
              next = r.next_stream_id.now;
              claimed = r.claimed;
              deleted = r.deleted_ids;
            } ≡ sent) × (r.len ≡ len))) }
    {
        match find_autoclaim(limits, bytes, self)? {
            None => Ok(None),
            Some(place) => Ok(Some(autoclaim_at(bytes, place, &self.entries, &self.fields))),
        }
    }

    /// Reads the reply of XAUTOCLAIM with `JUSTID`, as `read_autoclaim` does. Its shape is an array of the next
    /// id, the ids that were claimed and, from 7.0 on, the deleted ids.
    pub fn read_justid<'a>(
        &'a mut self,
        bytes: &'a [u8],
        limits: Limits,
    ) -> Result<Option<AutoClaimJustIdRef<'a>>, AllocError>
        ensures is { IfOk result (λ o. IfSome o (λ r. IsJustId limits bytes.now
            (record { next = r.next_stream_id.now; claimed = r.claimed; deleted = r.deleted_ids }) r.len)) }
        ensures found { (sent : JustId) (len : ℕ) → BeginsWithJustId limits bytes.now sent len
            → IfOk result (λ o. IsSomeAnd o (λ r. (record {
              next = r.next_stream_id.now;
              claimed = r.claimed;
              deleted = r.deleted_ids;
            } ≡ sent) × (r.len ≡ len))) }
    {
        match find_justid(limits, bytes, self)? {
            None => Ok(None),
            Some(place) => Ok(Some(justid_at(bytes, place, &self.entries))),
        }
    }
}

impl Places for EntryTape {
    type Refusal = AllocError;

    ghost use Rattle.std.specs.Prelude.{None};
    ghost use Rattle.stream_in_place.specs.Held.{Held};

    ghost held = { λ t. record {
      streams = t.streams.items;
      entries = t.entries.items;
      fields = t.fields.items;
    } };

    ghost lent = { λ t. None };

    fn clear(&mut self) {
        self.streams.clear();
        self.entries.clear();
        self.fields.clear();
    }

    fn count_streams(&self) -> usize {
        self.streams.len()
    }

    fn count_entries(&self) -> usize {
        self.entries.len()
    }

    fn count_fields(&self) -> usize {
        self.fields.len()
    }

    fn push_field(&mut self, place: FieldPlace) -> Result<(), AllocError> {
        Ok(self.fields.push(place)?)
    }

    fn push_entry(&mut self, place: EntryPlace) -> Result<(), AllocError> {
        Ok(self.entries.push(place)?)
    }

    fn push_stream(&mut self, place: StreamPlace) -> Result<(), AllocError> {
        Ok(self.streams.push(place)?)
    }
}
