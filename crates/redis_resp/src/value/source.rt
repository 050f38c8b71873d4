//! Values to read from, owned or borrowed.
ghost use Rattle.std.specs.Prelude.{◌≡◌, ◌∷◌, [], IfOk, IfErr, Ok, Some, List, length, map};
ghost use Rattle.std.specs.Prelude.{option_map, MatchOption};
ghost use Rattle.redis_resp.specs.Tree.{Tree, plain, items, pairs_in, array_of_plain};
ghost use Rattle.redis_resp.specs.Refusal.{Refuses};
ghost use Rattle.redis_resp.specs.Source.{lent_tree, owned_left, both, all_four, items_held};
ghost use Rattle.redis_resp.specs.Source.{pairs_held};
ghost use Rattle.redis_resp.specs.Value.{tree, tree_of_pair};

use crate::value::Value;
use crate::value::contents::Contents;
use crate::value::error::ParsingError;
use crate::value::from_value::FromRedisValue;
use std::alloc::{AllocError, Global};
use std::vec::IntoIter;

/// A value to read from. The parts of an owned value are moved; of a borrowed value only what a
/// record keeps is copied.
pub trait Source: Drop {
    /// The values that are left, after any number of the first ones were taken.
    type Values: Drop;

    /// The pairs that are left, after any number of the first ones were taken.
    type Pairs: Drop;

    /// The tree of the value.
    ghost seen: { Self → Tree };

    /// The values that are left.
    ghost values_left: { Self.Values → List Tree };

    /// The pairs that are left.
    ghost pairs_left: { Self.Pairs → List (Tree × Tree) };

    /// Reads the record of the value.
    fn read<T: FromRedisValue>(self, alloc: Global) -> Result<T, ParsingError>
        ensures ok { IfOk result (λ r. T.reading (seen self) ≡ Some (T.meaning r)) }
        ensures err { IfErr result (Refuses T.reading T.may_refuse (seen self)) };

    /// Borrows the value.
    fn as_value(&self) -> &Value
        ensures { tree result.now ≡ seen self.now };

    /// Returns the value itself, or a copy of it if it is borrowed.
    fn into_owned(self, alloc: Global) -> Result<Value, AllocError>
        ensures { IfOk result (λ v. tree v ≡ seen self) };

    /// Returns the value inside all outer attributes.
    fn into_plain(self) -> Self
        ensures { seen result ≡ plain (seen self) };

    /// Returns the values of an `Array` with no attribute around it, or `None`.
    fn into_array(self) -> Option<Self::Values>
        ensures { option_map values_left result ≡ array_of_plain (seen self) };

    /// Returns the contents of the value inside all outer attributes.
    fn into_contents(self) -> Contents<Self::Values, Self::Pairs>
        ensures items { items_held values_left pairs_left result ≡ items (seen self) }
        ensures pairs { pairs_held values_left pairs_left result ≡ pairs_in (seen self) };

    /// Returns the number of values that are left.
    fn count_values(values: &Self::Values) -> usize
        ensures { result ≡ length (values_left values.now) };

    /// Returns the number of pairs that are left.
    fn count_pairs(pairs: &Self::Pairs) -> usize
        ensures { result ≡ length (pairs_left pairs.now) };

    /// Takes the next value, or returns `None` if none is left.
    fn next_value(values: &mut Self::Values) -> Option<Self>
        ensures { MatchOption result (values_left values.old ≡ [])
            (λ v. values_left values.old ≡ seen v ∷ values_left values.new) };

    /// Takes the next pair, or returns `None` if none is left.
    fn next_pair(pairs: &mut Self::Pairs) -> Option<(Self, Self)>
        ensures { MatchOption result (pairs_left pairs.old ≡ [])
            (λ p. pairs_left pairs.old ≡ both seen p ∷ pairs_left pairs.new) };
}

impl Source for Value {
    type Values = IntoIter<Value>;

    type Pairs = IntoIter<(Value, Value)>;

    ghost seen = { tree };

    ghost values_left = { owned_left tree };

    ghost pairs_left = { owned_left tree_of_pair };

    fn read<T: FromRedisValue>(self, alloc: Global) -> Result<T, ParsingError>
        ensures ok { IfOk result (λ r. T.reading (tree self) ≡ Some (T.meaning r)) }
        ensures err { IfErr result (Refuses T.reading T.may_refuse (tree self)) }
        ensures owned { IfErr result (T.may_refuse_owned (tree self)) }
    {
        T::from_redis_value(alloc, self)
    }

    fn as_value(&self) -> &Value {
        self
    }

    fn into_owned(self, _alloc: Global) -> Result<Value, AllocError>
        ensures moved { result ≡ Ok self }
    {
        Ok(self)
    }

    fn into_plain(self) -> Value {
        Value::into_plain(self)
    }

    #[tactic(auto, using(crate::proofs::TreeLemmas::owned_contents_read))]
    fn into_contents(self) -> Contents<IntoIter<Value>, IntoIter<(Value, Value)>> {
        match Value::into_plain(self) {
            Value::Nil => Contents::Nothing,
            Value::Array(values) => Contents::Array(values.into_iter()),
            Value::Set(values) => Contents::Set(values.into_iter()),
            Value::Map(entries) => Contents::Map(entries.into_iter()),
            _ => Contents::Other,
        }
    }

    #[tactic(auto, using(crate::proofs::TreeLemmas::owned_array_there))]
    fn into_array(self) -> Option<IntoIter<Value>> {
        match self {
            Value::Array(values) => Some(values.into_iter()),
            _ => None,
        }
    }

    fn count_values(values: &IntoIter<Value>) -> usize {
        values.len()
    }

    fn count_pairs(pairs: &IntoIter<(Value, Value)>) -> usize {
        pairs.len()
    }

    fn next_value(values: &mut IntoIter<Value>) -> Option<Value> {
        values.next()
    }

    fn next_pair(pairs: &mut IntoIter<(Value, Value)>) -> Option<(Value, Value)> {
        pairs.next()
    }
}

impl<'a> Source for &'a Value {
    type Values = &'a [Value];

    type Pairs = &'a [(Value, Value)];

    ghost seen = { lent_tree };

    ghost values_left = { λ vs. map tree vs.now };

    ghost pairs_left = { λ ps. map tree_of_pair ps.now };

    fn read<T: FromRedisValue>(self, alloc: Global) -> Result<T, ParsingError> {
        T::from_redis_value_ref(alloc, self)
    }

    fn as_value(&self) -> &Value {
        *self
    }

    fn into_owned(self, alloc: Global) -> Result<Value, AllocError> {
        self.try_clone(alloc)
    }

    fn into_plain(self) -> &'a Value {
        self.as_plain()
    }

    #[tactic(auto, using(crate::proofs::TreeLemmas::contents_read))]
    fn into_contents(self) -> Contents<&'a [Value], &'a [(Value, Value)]> {
        match self.as_plain() {
            Value::Nil => Contents::Nothing,
            Value::Array(values) => Contents::Array(values),
            Value::Set(values) => Contents::Set(values),
            Value::Map(entries) => Contents::Map(entries),
            _ => Contents::Other,
        }
    }

    #[tactic(auto, using(crate::proofs::TreeLemmas::array_there))]
    fn into_array(self) -> Option<&'a [Value]> {
        match self {
            Value::Array(values) => Some(values),
            _ => None,
        }
    }

    fn count_values(values: &&'a [Value]) -> usize {
        values.len()
    }

    fn count_pairs(pairs: &&'a [(Value, Value)]) -> usize {
        pairs.len()
    }

    fn next_value(values: &mut &'a [Value]) -> Option<&'a Value> {
        let all = *values;
        let (first, rest) = all.split_first()?;
        *values = rest;
        Some(first)
    }

    fn next_pair(pairs: &mut &'a [(Value, Value)]) -> Option<(&'a Value, &'a Value)> {
        let all = *pairs;
        let (first, rest) = all.split_first()?;
        *pairs = rest;
        Some((&first.0, &first.1))
    }
}
