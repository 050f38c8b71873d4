//! Ids without fields, read in place.
ghost use Rattle.std.specs.Prelude.{◌≡◌, ◌≤◌, ◌+◌, ◌∷◌, ◌++◌, ℕ, List, [], IfOk, IfSome, IsOk, IsSomeAnd};
ghost use Rattle.std.specs.Prelude.{MatchOption, drop, flat_map, false, length, map, nat_eq};
ghost use Rattle.std.specs.List.{AllByRecursion};
ghost use Rattle.stream_entries.specs.AutoClaimMeaning.{text_bytes_of};
ghost use Rattle.stream_in_place.specs.ClaimPlaced.{id_at, IsId};
ghost use Rattle.stream_in_place.specs.AddedIds.{IdsAdded};
ghost use Rattle.stream_in_place.specs.Lent.{EntriesFit};
ghost use Rattle.redis_wire.specs.Packed.{bulk_bytes};
ghost use Rattle.redis_wire.specs.Place.{EndsBefore};
ghost use Rattle.stream_in_place.specs.Shapes.{AllowsRows, IsName};

use crate::places::{EntryPlace, Places};
use crate::rows::{name_at, text_in};
use redis_wire::Limits;
use redis_wire::place::Span;
use std::alloc::{AllocError, Global};
use std::fmt;
use std::iter::ExactSizeIterator;
use std::marker::Model;

/// Ids, in order. As an iterator it returns those that are left.
#[derive(Drop)]
pub struct IdsRef<'a> {
    bytes: &'a [u8],
    places: &'a [EntryPlace],
}

impl<'a> Model for IdsRef<'a> {
    ghost use Rattle.std.specs.Prelude.{ℕ, List, map};
    ghost use Rattle.std.specs.List.{AllByRecursion};
    ghost use Rattle.stream_in_place.specs.ClaimPlaced.{id_at, IsId};

    ghost Value = { List (List ℕ) };

    ghost view = { λ s. map (id_at s.bytes.now) s.places.now };

    ghost invariant = { λ s. AllByRecursion (IsId s.bytes.now) s.places.now };
}

impl<'a> IdsRef<'a> {
    /// Returns the number of ids that are left.
    pub fn len(&self) -> usize
        ensures { result ≡ length self.now }
    {
        self.places.len()
    }

    /// Whether no id is left.
    pub fn is_empty(&self) -> bool
        ensures { result ≡ nat_eq (length self.now) 0 }
    {
        self.places.is_empty()
    }

    /// Returns an iterator over the ids that are left, from the first of them.
    pub fn again(&self) -> IdsRef<'a>
        ensures { result ≡ self.now }
    {
        IdsRef {
            bytes: self.bytes,
            places: self.places,
        }
    }

    /// Copies the ids that are left, as records have them.
    pub fn to_owned(&self, alloc: Global) -> Result<Vec<String>, AllocError>
        ensures { IfOk result (λ ids. text_bytes_of ids ≡ self.now) }
    {
        let mut copies = Vec::with_capacity(alloc, self.places.len())?;
        for id in self.again() {
            copies.push(String::from_str(alloc, id)?)?;
        }
        Ok(copies)
    }

    /// Takes the next id.
    fn take_id(&mut self) -> Option<&'a str>
        ensures { MatchOption result ((self.old ≡ []) × (self.new ≡ []))
            (λ id. self.old ≡ id.now ∷ self.new) }
    {
        let (first, rest) = self.places.split_first()?;
        self.places = rest;
        Some(read_id(self.bytes, *first))
    }
}

/// The id at that place.
fn read_id(bytes: &[u8], place: EntryPlace) -> &str
    requires { IsId bytes.now place }
    ensures { result.now ≡ id_at bytes.now place }
{
    unsafe { str::from_utf8_unchecked(text_in(bytes, place.id)) }
}

impl<'a> Iterator for IdsRef<'a> {
    type Item = &'a str;

    ghost use Rattle.std.specs.Iterator.{YieldsFirstBy, item_count};

    ghost next_gives = { YieldsFirstBy (λ id. id.now) (λ s. s) };

    ghost remaining = { item_count (λ s. s) };

    fn next(&mut self) -> Option<&'a str> {
        self.take_id()
    }
}

impl<'a> ExactSizeIterator for IdsRef<'a> {
    fn len(&self) -> usize {
        self.places.len()
    }
}

impl<'a> fmt::Debug for IdsRef<'a> {
    fn fmt<W: fmt::Write>(&self, f: &mut fmt::Formatter<W>) -> fmt::Result {
        f.debug_list().entries(self.again()).finish()
    }
}

/// The ids at those places.
pub fn ids_at<'a>(bytes: &'a [u8], places: &'a [EntryPlace]) -> IdsRef<'a>
    requires { AllByRecursion (IsId bytes.now) places.now }
    ensures { result ≡ map (id_at bytes.now) places.now }
{
    IdsRef { bytes, places }
}

/// The place of an id, as the place of an entry without fields.
fn make_id_place(id: Span) -> EntryPlace
    ensures { result ≡ record {
      id = id;
      from = 0;
      to = 0;
      deleted = false;
      delivered = false;
      elapsed = 0;
      count = 0;
    } }
{
    EntryPlace {
        id,
        from: 0,
        to: 0,
        deleted: false,
        delivered: false,
        elapsed: 0,
        count: 0,
    }
}

/// Adds the `count` ids at `at`, as entries without fields, and returns the offset of their end.
pub fn add_ids<P: Places>(
    limits: Limits,
    bytes: &[u8],
    at: usize,
    count: u32,
    places: &mut P,
) -> Result<Option<usize>, P::Refusal>
    requires { at ≤ length bytes.now }
    ensures is { IfOk result (λ o. IfSome o (λ after.
        IdsAdded limits bytes.now at count after (P.held places.old) (P.held places.new))) }
    ensures found { (ids : List (List ℕ)) (rest : List ℕ) → AllowsRows limits → AllByRecursion (IsName limits) ids
        → drop at bytes.now ≡ flat_map bulk_bytes ids ++ rest → count ≡ length ids
        → IfOk result (λ o. IsSomeAnd o (EndsBefore bytes.now rest)) }
    ensures counts { IfOk result (λ o. IfSome o (λ _.
        length (P.held places.new).entries ≡ length (P.held places.old).entries + count)) }
    ensures fits { EntriesFit (P.lent places.old) (length (P.held places.old).entries + count) → IsOk result }
    ensures kept { P.lent places.new ≡ P.lent places.old }
{
    let mut behind = at;
    for _ in 0..count {
        let Some((id, after)) = name_at(limits, bytes, behind) else {
            return Ok(None);
        };
        places.push_entry(make_id_place(id))?;
        behind = after;
    }
    Ok(Some(behind))
}
