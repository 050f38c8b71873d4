//! Pairs that are read from values, in the order in which they arrive.
ghost use Rattle.std.specs.Prelude.{◌≡◌, ◌∷◌, IfOk, IfErr, ℕ, List, Some, string_bytes};
ghost use Rattle.std.specs.List.{flat_map};
ghost use Rattle.redis_resp.specs.Reading.{traverse};
ghost use Rattle.redis_resp.specs.Refusal.{Refuses, OneRefused, RefusesEntry, RefusesPairs};
ghost use Rattle.redis_resp.specs.Source.{all_left};
ghost use Rattle.redis_resp.specs.Table.{entries_meaning, entry_reading, pairs_reading};

use crate::value::Value;
use crate::value::error::ParsingError;
use crate::value::from_value::FromRedisValue;
use crate::value::pairs_left::{PairsLeft, count_left, into_pairs, next_left};
use crate::value::source::Source;
use redis_args::{RedisWrite, ToRedisArgs, WriteError};
use std::alloc::Global;

/// The pairs of a value in order, each key as text and each value by its own reading. Unlike a table,
/// it keeps every pair of a key that comes again.
#[derive(Debug, Drop)]
pub struct PairList<V>(pub Vec<(String, V)>);

/// Reads a key as text and its value by its own reading.
#[inline(always)]
pub fn read_pair<S: Source, V: FromRedisValue>(
    alloc: Global,
    key: S,
    value: S,
) -> Result<(String, V), ParsingError>
    ensures ok { IfOk result (λ r. entry_reading V.reading (S.seen key, S.seen value)
        ≡ Some (string_bytes r.0, V.meaning r.1)) }
    ensures err { IfErr result (Refuses (entry_reading V.reading)
        (RefusesEntry (Refuses V.reading V.may_refuse)) (S.seen key, S.seen value)) }
{
    let key: String = key.read(alloc)?;
    let value: V = value.read(alloc)?;
    Ok((key, value))
}

/// Reads the pairs of a `Map`, of an `Array` of even length two by two, or of `Nil`, which has
/// none. Returns `NotPairs` for any other kind or an odd length. Of a borrowed value it copies only
/// the keys and what the values' readings keep.
pub fn read_pairs<S: Source, V: FromRedisValue>(
    alloc: Global,
    v: S,
) -> Result<Vec<(String, V)>, ParsingError>
    ensures ok { IfOk result (λ r. pairs_reading V.reading (S.seen v)
        ≡ Some (entries_meaning V.meaning r.items)) }
    ensures err { IfErr result (Refuses (pairs_reading V.reading)
        (RefusesPairs (Refuses V.reading V.may_refuse)) (S.seen v)) }
{
    match into_pairs(v) {
        Some(pairs) => read_entries::<S, V>(alloc, pairs),
        None => Err(ParsingError::NotPairs),
    }
}

/// Reads each pair, in order.
fn read_entries<S: Source, V: FromRedisValue>(
    alloc: Global,
    mut entries: PairsLeft<S::Values, S::Pairs>,
) -> Result<Vec<(String, V)>, ParsingError>
    ensures ok { IfOk result (λ r. traverse (entry_reading V.reading)
        (all_left S.values_left S.pairs_left entries) ≡ Some (entries_meaning V.meaning r.items)) }
    ensures err { IfErr result (Refuses (traverse (entry_reading V.reading))
        (OneRefused (RefusesEntry (Refuses V.reading V.may_refuse)))
        (all_left S.values_left S.pairs_left entries)) }
{
    let mut pairs = Vec::with_capacity(alloc, count_left::<S>(&entries))?;
    while let Some((key, value)) = next_left::<S>(&mut entries) {
        pairs.push(read_pair(alloc, key, value)?)?;
    }
    Ok(pairs)
}

impl<V: FromRedisValue> FromRedisValue for PairList<V> {
    ghost Meaning = { List (List ℕ × V.Meaning) };

    ghost meaning = { λ p. entries_meaning V.meaning p.0.items };

    ghost reading = { pairs_reading V.reading };

    ghost may_refuse = { RefusesPairs (Refuses V.reading V.may_refuse) };

    fn from_redis_value(alloc: Global, v: Value) -> Result<PairList<V>, ParsingError> {
        Ok(PairList(read_pairs(alloc, v)?))
    }

    fn from_redis_value_ref(alloc: Global, v: &Value) -> Result<PairList<V>, ParsingError> {
        Ok(PairList(read_pairs(alloc, v)?))
    }
}

/// The pairs as they were read, in order: each key, followed by the arguments of its value.
impl<V: ToRedisArgs> ToRedisArgs for PairList<V> {
    ghost args = { λ list. flat_map (λ pair. string_bytes pair.0 ∷ V.args pair.1) list.0.items };

    fn write_redis_args<W: RedisWrite>(&self, out: &mut W) -> Result<(), WriteError> {
        self.0.write_redis_args(out)
    }
}
