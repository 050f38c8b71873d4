//! A buffer into which a decoded entry is written, so that it has the type of an entry read in place.
ghost use Rattle.std.specs.Prelude.{◌≡◌, [], IfOk, OnOk, flat_map, map, option_map};
ghost use Rattle.std.specs.List.{AllByRecursion};
ghost use Rattle.stream_in_place.specs.Copied.{pairs_or_none};
ghost use Rattle.stream_in_place.specs.Placed.{field_in, IsField};
ghost use Rattle.stream_in_place.specs.SentMeaning.{joined_pair, octet_pair, octet_pairs, sent_of};

use crate::entry::{EntryRef, entry_of};
use crate::fields::fields_at;
use crate::places::FieldPlace;
use crate::sent::{Octets, SentRow};
use redis_wire::place::Span;
use std::alloc::{AllocError, Global};

/// A buffer for the fields of one decoded entry. The next entry reuses it.
#[derive(Debug, Drop)]
pub struct EntryRoom {
    bytes: Vec<u8>,
    fields: Vec<FieldPlace>,
}

impl EntryRoom {
    /// Creates an empty buffer. It has no memory yet.
    pub fn new(alloc: Global) -> EntryRoom
        ensures bytes { result.bytes.items ≡ [] }
        ensures fields { result.fields.items ≡ [] }
    {
        EntryRoom {
            bytes: Vec::new(alloc),
            fields: Vec::new(alloc),
        }
    }

    /// Writes these names and values, and drops what was there before.
    fn lay(&mut self, pairs: &[(Octets, Octets)]) -> Result<(), AllocError>
        ensures fields { OnOk result (map (field_in self.new.bytes.items) self.new.fields.items
            ≡ map octet_pair pairs.now) }
        ensures within { OnOk result (AllByRecursion (IsField self.new.bytes.items) self.new.fields.items) }
    {
        self.copy(pairs)?;
        self.place(pairs)
    }

    /// Writes the bytes of these names and values.
    fn copy(&mut self, pairs: &[(Octets, Octets)]) -> Result<(), AllocError>
        ensures { OnOk result (self.new.bytes.items ≡ flat_map joined_pair (map octet_pair pairs.now)) }
    {
        self.bytes.clear();
        for (name, value) in pairs {
            self.bytes.extend_from_slice(&name.0)?;
            self.bytes.extend_from_slice(&value.0)?;
        }
        Ok(())
    }

    /// Writes the places of these names and values, whose bytes are written already.
    fn place(&mut self, pairs: &[(Octets, Octets)]) -> Result<(), AllocError>
        requires { self.old.bytes.items ≡ flat_map joined_pair (map octet_pair pairs.now) }
        ensures fields { OnOk result (map (field_in self.new.bytes.items) self.new.fields.items
            ≡ map octet_pair pairs.now) }
        ensures within { OnOk result (AllByRecursion (IsField self.new.bytes.items) self.new.fields.items) }
    {
        self.fields.clear();
        let mut at = 0;
        for (name, value) in pairs {
            let middle = at + name.0.len();
            let after = middle + value.0.len();
            self.fields.push(FieldPlace {
                name: Span {
                    start: at,
                    len: name.0.len(),
                },
                value: Span {
                    start: middle,
                    len: value.0.len(),
                },
            })?;
            at = after;
        }
        Ok(())
    }
}

impl SentRow {
    /// Returns the names and values. There are none if the reply had nil in their place.
    pub fn pairs(&self) -> &[(Octets, Octets)]
        ensures { map octet_pair result.now ≡ pairs_or_none (option_map octet_pairs self.now.fields) }
    {
        match &self.fields {
            None => &[],
            Some(pairs) => &pairs.0,
        }
    }

    /// Returns the entry as one that was read in place, out of this buffer.
    pub fn entry_in<'a>(&'a self, room: &'a mut EntryRoom) -> Result<EntryRef<'a>, AllocError>
        ensures { IfOk result (λ e. e ≡ sent_of self.now) }
    {
        room.lay(self.pairs())?;
        Ok(entry_of(
            &self.id,
            fields_at(&room.bytes, &room.fields),
            self.fields.is_none(),
            self.delivery,
        ))
    }
}
