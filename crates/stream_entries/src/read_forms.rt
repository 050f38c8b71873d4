//! Finds the forms of a read reply that a value has, without allocating.
ghost use Rattle.std.specs.Prelude.{◌≡◌, ◌&&◌, Bool, map};
ghost use Rattle.std.specs.List.{list_all};
ghost use Rattle.std.specs.Option.{is_some};
ghost use Rattle.redis_resp.specs.Number.{unsigned_reading};
ghost use Rattle.redis_resp.specs.Reading.{option_reading};
ghost use Rattle.redis_resp.specs.Tree.{Tree, single};
ghost use Rattle.redis_resp.specs.Value.{tree, tree_of_pair};
ghost use Rattle.stream_entries.specs.Read.{claim_reading, delivery_reading, standard_reading};
ghost use Rattle.stream_entries.specs.Readable.{list_readable, table_readable};
ghost use Rattle.stream_entries.specs.Rows.{field_reading};

use crate::read::StreamReadReply;
use redis_resp::{
    Contents, Source, Value, into_four, into_pairs, is_fields, is_nil, is_text, is_usize, next_left,
};
use std::marker::PhantomData;

/// The forms of the reply of XREAD and XREADGROUP that a value has.
#[derive(Clone, Copy, Debug, PartialEq, Eq)]
pub struct ReadForms {
    /// Each item of each list is a row of ids and fields.
    pub standard: bool,
    /// Each item is an id, fields and the two numbers of its delivery.
    pub claim: bool,
}

impl StreamReadReply {
    /// Returns the forms that the whole value has. The reply is read in the standard form if it has both.
    /// It allocates nothing.
    #[tactic(auto, using(crate::proofs::ReadableLemmas::standard_there, crate::proofs::ReadableLemmas::claim_there))]
    pub fn forms(v: &Value) -> ReadForms
        ensures standard { result.standard ≡ is_some (standard_reading (tree v.now)) }
        ensures claim { result.claim ≡ is_some (claim_reading (tree v.now)) }
    {
        ReadForms {
            standard: ListOf::<TableOf<ListOf<TableOf<Fields>>>>::reads(v),
            claim: ListOf::<TableOf<ListOf<DeliveredEntry>>>::reads(v),
        }
    }
}

impl ReadForms {
    /// Returns the forms that are in both.
    pub(crate) fn and(self, other: ReadForms) -> ReadForms
        ensures standard { result.standard ≡ (self.standard && other.standard) }
        ensures claim { result.claim ≡ (self.claim && other.claim) }
    {
        ReadForms {
            standard: self.standard && other.standard,
            claim: self.claim && other.claim,
        }
    }
}

/// A shape of values that can be checked without reading the value.
pub(crate) trait Readable {
    /// Whether a tree has the shape.
    ghost readable: { Tree → Bool };

    /// Whether the value has the shape.
    fn reads(v: &Value) -> bool
        ensures { result ≡ readable (tree v.now) };

    /// Whether the map of this one pair has the shape.
    fn reads_single(key: &Value, value: &Value) -> bool
        ensures { result ≡ readable (single (tree key.now, tree value.now)) };
}

/// The fields of an entry.
pub(crate) struct Fields;

#[tactic(auto, using(crate::proofs::ReadableLemmas::single_fields))]
impl Readable for Fields {
    ghost readable = { λ t. is_some (field_reading t) };

    fn reads(v: &Value) -> bool {
        is_fields(v)
    }

    fn reads_single(key: &Value, _value: &Value) -> bool {
        is_text(key)
    }
}

/// An id, its fields and the two numbers of its delivery.
pub(crate) struct DeliveredEntry;

#[tactic(auto, using(crate::proofs::ReadableLemmas::delivery_there, crate::proofs::ReadableLemmas::no_delivery))]
impl Readable for DeliveredEntry {
    ghost readable = { λ t. is_some (delivery_reading t) };

    fn reads(v: &Value) -> bool {
        let Some((id, fields, elapsed, delivered)) = into_four(v) else {
            return false;
        };
        if !is_text(id) {
            return false;
        }
        if !is_fields(fields) {
            return false;
        }
        if !is_number_or_nil(elapsed) {
            return false;
        }
        is_number_or_nil(delivered)
    }

    fn reads_single(_key: &Value, _value: &Value) -> bool {
        false
    }
}

/// Whether the value is a number or nil.
#[tactic(auto, using(crate::proofs::ReadableLemmas::number_or_nil))]
fn is_number_or_nil(v: &Value) -> bool
    ensures { result ≡ is_some (option_reading (unsigned_reading 64) (tree v.now)) }
{
    is_nil(v) || is_usize(v)
}

/// A table whose values have one shape.
pub(crate) struct TableOf<T>(PhantomData<T>);

#[tactic(auto, using(crate::proofs::ReadableLemmas::table_told))]
impl<T: Readable> Readable for TableOf<T> {
    ghost readable = { table_readable T.readable };

    fn reads(v: &Value) -> bool {
        let Some(mut pairs) = into_pairs(v) else {
            return false;
        };
        while let Some((key, value)) = next_left::<&Value>(&mut pairs) {
            if !is_text(key) {
                return false;
            }
            if !T::reads(value) {
                return false;
            }
        }
        true
    }

    fn reads_single(key: &Value, value: &Value) -> bool {
        is_text(key) && T::reads(value)
    }
}

/// A list whose items have one shape.
pub(crate) struct ListOf<T>(PhantomData<T>);

/// Whether each value has the shape.
fn are_items_readable<T: Readable>(values: &[Value]) -> bool
    ensures { result ≡ list_all (λ v. T.readable (tree v)) values.now }
{
    values.iter().all(|value| T::reads(value))
}

/// Whether each pair, as a map of one pair, has the shape.
fn are_singles_readable<T: Readable>(entries: &[(Value, Value)]) -> bool
    ensures { result ≡ list_all (λ e. T.readable (single (tree_of_pair e))) entries.now }
{
    entries
        .iter()
        .all(|entry| T::reads_single(&entry.0, &entry.1))
}

#[tactic(auto, using(crate::proofs::ReadableLemmas::list_told))]
impl<T: Readable> Readable for ListOf<T> {
    ghost readable = { list_readable T.readable };

    fn reads(v: &Value) -> bool {
        match v.into_contents() {
            Contents::Nothing => true,
            Contents::Array(values) => are_items_readable::<T>(values),
            Contents::Set(values) => are_items_readable::<T>(values),
            Contents::Map(entries) => are_singles_readable::<T>(entries),
            Contents::Other => false,
        }
    }

    fn reads_single(key: &Value, value: &Value) -> bool {
        T::reads_single(key, value)
    }
}
