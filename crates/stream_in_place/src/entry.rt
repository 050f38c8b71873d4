//! An entry, read in place.
ghost use Rattle.std.specs.Prelude.{◌≡◌, [], Ok, Err, IfErr, IfOk, MatchResult, OnOk, option_map};
ghost use Rattle.redis_resp.specs.Table.{last_with};
ghost use Rattle.stream_in_place.specs.Sent.{AreTextFields, is_none};
ghost use Rattle.stream_in_place.specs.Copied.{NotOwned, copied, pairs_or_none};
ghost use Rattle.stream_entries.specs.EntryMeaning.{entry_meaning};
ghost use Rattle.stream_in_place.specs.Placed.{fields_if};
ghost use Rattle.stream_in_place.specs.FieldValue.{text_value, unsigned_value, signed_value};

use crate::field_value::{FieldError, i64_of, str_of, u64_of};
use crate::fields::FieldsRef;
use redis_resp::ParsingError;
use std::alloc::Global;
use std::fmt;
use std::marker::Model;
use stream_entries::StreamId;

/// When an entry was last delivered, and how many times.
#[derive(Clone, Copy, Debug, PartialEq, Eq)]
pub struct Delivery {
    /// The milliseconds since it was last delivered.
    pub elapsed: u64,
    /// The number of times it was delivered.
    pub count: u64,
}

/// An entry of a stream, read in place.
#[derive(Drop)]
pub struct EntryRef<'a> {
    id: &'a str,
    fields: FieldsRef<'a>,
    deleted: bool,
    delivery: Option<Delivery>,
}

impl<'a> Model for EntryRef<'a> {
    ghost use Rattle.std.specs.Prelude.{option_map};
    ghost use Rattle.stream_in_place.specs.Sent.{SentEntry};
    ghost use Rattle.stream_in_place.specs.Placed.{fields_if};

    ghost Value = { SentEntry };

    ghost view = { λ s. record {
      id = s.id.now;
      fields = fields_if s.deleted s.fields;
      delivery = option_map (λ d. (d.elapsed, d.count)) s.delivery;
    } };
}

impl<'a> EntryRef<'a> {
    /// The id.
    pub fn id(&self) -> &'a str
        ensures { result.now ≡ self.now.id }
    {
        self.id
    }

    /// Whether the entry was deleted: the reply has nil in place of its fields. An entry with no fields was not.
    pub fn is_deleted(&self) -> bool
        ensures { result ≡ is_none self.now.fields }
    {
        self.deleted
    }

    /// Returns the fields, in order. There are none if the entry was deleted.
    pub fn fields(&self) -> FieldsRef<'a>
        ensures { result ≡ pairs_or_none self.now.fields }
    {
        if self.deleted {
            self.fields.none()
        } else {
            self.fields.again()
        }
    }

    /// Returns the value of the last field of that name. A record keeps the same one.
    pub fn get(&self, name: &[u8]) -> Option<&'a [u8]>
        ensures { option_map (λ v. v.now) result ≡ last_with name.now (pairs_or_none self.now.fields) }
    {
        if self.deleted {
            None
        } else {
            self.fields.get(name)
        }
    }

    /// Returns the value of the last field of that name as text.
    pub fn get_str(&self, name: &[u8]) -> Result<&'a str, FieldError>
        ensures { MatchResult result
            (λ t. text_value (last_with name.now (pairs_or_none self.now.fields)) ≡ Ok t.now)
            (λ e. text_value (last_with name.now (pairs_or_none self.now.fields)) ≡ Err e) }
    {
        str_of(self.get(name))
    }

    /// Returns the value of the last field of that name as a number within 64 bits: digits after an
    /// optional `+`.
    pub fn get_u64(&self, name: &[u8]) -> Result<u64, FieldError>
        ensures { result ≡ unsigned_value (last_with name.now (pairs_or_none self.now.fields)) }
    {
        u64_of(self.get(name))
    }

    /// Returns the value of the last field of that name as a number that fits an `i64`: digits after an
    /// optional sign.
    pub fn get_i64(&self, name: &[u8]) -> Result<i64, FieldError>
        ensures { result ≡ signed_value (last_with name.now (pairs_or_none self.now.fields)) }
    {
        i64_of(self.get(name))
    }

    /// Copies the entry into a record. It keeps the last of fields with one name, and no fields of a deleted entry.
    /// `NotText` if a name is not UTF-8.
    pub fn to_owned(&self, alloc: Global) -> Result<StreamId, ParsingError>
        ensures ok { IfOk result (λ s. entry_meaning s ≡ copied self.now) }
        ensures named { OnOk result (AreTextFields self.now.fields) }
        ensures err { IfErr result (NotOwned (AreTextFields self.now.fields)) }
    {
        Ok(StreamId {
            id: String::from_str(alloc, self.id)?,
            map: self.fields().to_owned(alloc)?,
            milliseconds_elapsed_from_delivery: self.compute_elapsed(),
            delivered_count: self.count(),
        })
    }

    /// Returns when the entry was last delivered, and how many times, if the reply has it.
    pub fn delivery(&self) -> Option<Delivery>
        ensures { option_map (λ d. (d.elapsed, d.count)) result ≡ self.now.delivery }
    {
        self.delivery
    }

    /// Returns the number of times the entry was delivered, if the reply has it.
    pub fn delivered_count(&self) -> Option<u64>
        ensures { result ≡ option_map (λ d. d.1) self.now.delivery }
    {
        match self.delivery {
            None => None,
            Some(delivery) => Some(delivery.count),
        }
    }

    /// The milliseconds since the entry was last delivered, as a record has them.
    fn compute_elapsed(&self) -> Option<usize>
        ensures { result ≡ option_map (λ d. d.0) self.now.delivery }
    {
        match self.delivery {
            None => None,
            Some(delivery) => Some(delivery.elapsed as usize),
        }
    }

    /// The number of times the entry was delivered, as a record has it.
    fn count(&self) -> Option<usize>
        ensures { result ≡ option_map (λ d. d.1) self.now.delivery }
    {
        match self.delivery {
            None => None,
            Some(delivery) => Some(delivery.count as usize),
        }
    }
}

impl<'a> fmt::Debug for EntryRef<'a> {
    fn fmt<W: fmt::Write>(&self, f: &mut fmt::Formatter<W>) -> fmt::Result {
        f.debug_struct("EntryRef")
            .field("id", &self.id)
            .field("fields", &self.fields())
            .field("is_deleted", &self.deleted)
            .field("delivery", &self.delivery)
            .finish()
    }
}

/// The entry of these parts.
pub fn entry_of<'a>(
    id: &'a str,
    fields: FieldsRef<'a>,
    deleted: bool,
    delivery: Option<Delivery>,
) -> EntryRef<'a>
    ensures { result ≡ record {
      id = id.now;
      fields = fields_if deleted fields.entry;
      delivery = option_map (λ d. (d.elapsed, d.count)) delivery;
    } }
{
    EntryRef {
        id,
        fields,
        deleted,
        delivery,
    }
}
