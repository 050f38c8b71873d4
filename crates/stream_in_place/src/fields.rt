//! The fields of an entry, read in place.
ghost use Rattle.std.specs.Prelude.{◌≡◌, ◌∷◌, [], length, map, nat_eq, true, MatchOption, MatchResult};
ghost use Rattle.std.specs.Prelude.{Ok, Err, Some, option_map, IfErr, IfOk, OnOk, false, string_bytes};
ghost use Rattle.std.specs.FinMap as fin;
ghost use Rattle.std.specs.FinMap.{from_entries};
ghost use Rattle.std.specs.Str.{is_utf8};
ghost use Rattle.redis_resp.specs.Tree.{bulk};
ghost use Rattle.redis_resp.specs.Value.{tree};
ghost use Rattle.redis_resp.specs.Table.{entries_meaning, last_with, on_values, table_of};
ghost use Rattle.redis_resp.specs.FieldsMeaning.{fields_of};
ghost use Rattle.std.specs.List.{AllByRecursion};
ghost use Rattle.stream_in_place.specs.Placed.{field_in, IsField};
ghost use Rattle.stream_in_place.specs.Copied.{NotOwned};
ghost use Rattle.stream_in_place.specs.Sent.{AreTextFields};
ghost use Rattle.stream_in_place.specs.FieldValue.{text_value, unsigned_value, signed_value};

use crate::field_value::{FieldError, i64_of, str_of, u64_of};
use crate::places::FieldPlace;
use crate::rows::text_in;
use bstr::BStr;
use redis_resp::{PairList, ParsingError, Value};
use std::alloc::{AllocError, Global};
use std::collections::HashMap;
use std::fmt;
use std::iter::ExactSizeIterator;
use std::marker::Model;

/// The fields of an entry, in order and with repeated ones. Names and values are any bytes. As an
/// iterator it returns those that are left.
#[derive(Drop)]
pub struct FieldsRef<'a> {
    bytes: &'a [u8],
    places: &'a [FieldPlace],
}

impl<'a> Model for FieldsRef<'a> {
    ghost use Rattle.std.specs.Prelude.{ℕ, List, map};
    ghost use Rattle.std.specs.List.{AllByRecursion};
    ghost use Rattle.stream_in_place.specs.Sent.{Pairs};
    ghost use Rattle.stream_in_place.specs.Placed.{field_in, IsField};

    ghost Value = { Pairs };

    ghost view = { λ s. map (field_in s.bytes.now) s.places.now };

    ghost invariant = { λ s. AllByRecursion (IsField s.bytes.now) s.places.now };
}

impl<'a> FieldsRef<'a> {
    /// Returns the number of fields that are left.
    pub fn len(&self) -> usize
        ensures { result ≡ length self.now }
    {
        self.places.len()
    }

    /// Whether no field is left.
    pub fn is_empty(&self) -> bool
        ensures { result ≡ nat_eq (length self.now) 0 }
    {
        self.places.is_empty()
    }

    /// Returns the value of the last field of that name. A record keeps the same one.
    pub fn get(&self, name: &[u8]) -> Option<&'a [u8]>
        ensures { option_map (λ v. v.now) result ≡ last_with name.now self.now }
    {
        let mut found = None;
        for place in self.places {
            if name == text_in(self.bytes, place.name) {
                found = Some(text_in(self.bytes, place.value));
            }
        }
        found
    }

    /// Returns the value of the last field of that name as text.
    pub fn get_str(&self, name: &[u8]) -> Result<&'a str, FieldError>
        ensures { MatchResult result (λ t. text_value (last_with name.now self.now) ≡ Ok t.now)
            (λ e. text_value (last_with name.now self.now) ≡ Err e) }
    {
        str_of(self.get(name))
    }

    /// Returns the value of the last field of that name as a number within 64 bits: digits after an
    /// optional `+`.
    pub fn get_u64(&self, name: &[u8]) -> Result<u64, FieldError>
        ensures { result ≡ unsigned_value (last_with name.now self.now) }
    {
        u64_of(self.get(name))
    }

    /// Returns the value of the last field of that name as a number that fits an `i64`: digits after an
    /// optional sign.
    pub fn get_i64(&self, name: &[u8]) -> Result<i64, FieldError>
        ensures { result ≡ signed_value (last_with name.now self.now) }
    {
        i64_of(self.get(name))
    }

    /// Copies the fields into a map by name, as a record does. It keeps the last of those with one name.
    /// `NotText` if a name is not UTF-8.
    pub fn to_owned(&self, alloc: Global) -> Result<HashMap<String, Value>, ParsingError>
        ensures ok { IfOk result (λ fields. fields_of fields
            ≡ from_entries (table_of (on_values bulk self.now))) }
        ensures named { OnOk result (AreTextFields (Some self.now)) }
        ensures err { IfErr result (NotOwned (AreTextFields (Some self.now))) }
    {
        let mut copies = HashMap::new(alloc);
        for place in self.places {
            let (name, value) = copy_pair(alloc, self.bytes, *place)?;
            put(&mut copies, name, value)?;
        }
        Ok(copies)
    }

    /// Copies the fields in order, with repeated ones. `NotText` if a name is not UTF-8.
    pub fn to_pairs(&self, alloc: Global) -> Result<PairList<Value>, ParsingError>
        ensures ok { IfOk result (λ list. entries_meaning tree list.0.items ≡ on_values bulk self.now) }
        ensures named { OnOk result (AreTextFields (Some self.now)) }
        ensures err { IfErr result (NotOwned (AreTextFields (Some self.now))) }
    {
        let mut pairs = Vec::with_capacity(alloc, self.places.len())?;
        for place in self.places {
            pairs.push(copy_pair(alloc, self.bytes, *place)?)?;
        }
        Ok(PairList(pairs))
    }

    /// Returns an iterator over the fields that are left, from the first of them.
    pub fn again(&self) -> FieldsRef<'a>
        ensures { result ≡ self.now }
    {
        FieldsRef {
            bytes: self.bytes,
            places: self.places,
        }
    }

    /// Returns an empty list of fields.
    pub fn none(&self) -> FieldsRef<'a>
        ensures { result ≡ [] }
    {
        FieldsRef {
            bytes: self.bytes,
            places: &[],
        }
    }

    /// Takes the next field.
    fn take_field(&mut self) -> Option<(&'a [u8], &'a [u8])>
        ensures { MatchOption result ((self.old ≡ []) × (self.new ≡ []))
            (λ p. self.old ≡ (p.0.now, p.1.now) ∷ self.new) }
    {
        let (first, rest) = self.places.split_first()?;
        self.places = rest;
        Some((
            text_in(self.bytes, first.name),
            text_in(self.bytes, first.value),
        ))
    }
}

impl<'a> Iterator for FieldsRef<'a> {
    type Item = (&'a [u8], &'a [u8]);

    ghost use Rattle.std.specs.Iterator.{YieldsFirstBy, item_count};

    ghost next_gives = { YieldsFirstBy (λ p. (p.0.now, p.1.now)) (λ s. s) };

    ghost remaining = { item_count (λ s. s) };

    fn next(&mut self) -> Option<(&'a [u8], &'a [u8])> {
        self.take_field()
    }
}

impl<'a> ExactSizeIterator for FieldsRef<'a> {
    fn len(&self) -> usize {
        self.places.len()
    }
}

/// Shows the fields that are left as text. Bytes that are not UTF-8 are escaped.
impl<'a> fmt::Debug for FieldsRef<'a> {
    fn fmt<W: fmt::Write>(&self, f: &mut fmt::Formatter<W>) -> fmt::Result {
        let mut shown = f.debug_map();
        for (name, value) in self.again() {
            shown.entry(&BStr::new(name), &BStr::new(value));
        }
        shown.finish()
    }
}

/// The bytes as text, as the name of a record must be.
fn read_text(bytes: &[u8]) -> Result<&str, ParsingError>
    ensures ok { IfOk result (λ t. (t.now ≡ bytes.now) × (is_utf8 bytes.now ≡ true)) }
    ensures err { IfErr result (λ e. (e ≡ ParsingError.NotText) × (is_utf8 bytes.now ≡ false)) }
{
    match str::from_utf8(bytes) {
        Ok(text) => Ok(text),
        Err(_) => Err(ParsingError::NotText),
    }
}

/// A copy of the field at that place.
fn copy_pair(
    alloc: Global,
    bytes: &[u8],
    place: FieldPlace,
) -> Result<(String, Value), ParsingError>
    requires { IsField bytes.now place }
    ensures name { IfOk result (λ p. string_bytes p.0 ≡ (field_in bytes.now place).0) }
    ensures value { IfOk result (λ p. tree p.1 ≡ bulk (field_in bytes.now place).1) }
    ensures named { OnOk result (is_utf8 (field_in bytes.now place).0 ≡ true) }
    ensures err { IfErr result (NotOwned (is_utf8 (field_in bytes.now place).0 ≡ true)) }
{
    let name = String::from_str(alloc, read_text(text_in(bytes, place.name))?)?;
    let value = Vec::from_slice(alloc, text_in(bytes, place.value))?;
    Ok((name, Value::BulkString(value)))
}

/// Inserts a field.
#[tactic(auto, using(stream_entries::proofs::FieldsLemmas::fields_put))]
fn put(copies: &mut HashMap<String, Value>, name: String, value: Value) -> Result<(), AllocError>
    ensures { OnOk result (fields_of copies.new
        ≡ fin.insert (fields_of copies.old) (string_bytes name) (tree value)) }
{
    copies.insert(name, value)?;
    Ok(())
}

/// The fields at those places.
pub fn fields_at<'a>(bytes: &'a [u8], places: &'a [FieldPlace]) -> FieldsRef<'a>
    requires { AllByRecursion (IsField bytes.now) places.now }
    ensures { result ≡ map (field_in bytes.now) places.now }
{
    FieldsRef { bytes, places }
}
