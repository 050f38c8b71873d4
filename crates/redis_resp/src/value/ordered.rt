//! Tables that are read from values and kept in the order of their keys.
ghost use Rattle.std.specs.Prelude.{◌≡◌, IfOk, IfErr, Some};
ghost use Rattle.std.specs.FinMap.{from_entries};
ghost use Rattle.redis_resp.specs.Reading.{traverse};
ghost use Rattle.redis_resp.specs.Refusal.{Refuses, OneRefused, RefusesEntry, RefusesPairs};
ghost use Rattle.redis_resp.specs.Source.{all_left};
ghost use Rattle.redis_resp.specs.Table.{entries_meaning, entry_reading, Fields};
ghost use Rattle.redis_resp.specs.Table.{fields_of_read, fields_reading};

use crate::value::Value;
use crate::value::error::ParsingError;
use crate::value::from_value::FromRedisValue;
use crate::value::pair::read_pair;
use crate::value::pairs_left::{PairsLeft, into_pairs, next_left};
use crate::value::source::Source;
use std::alloc::Global;
use std::collections::BTreeMap;

/// Reads each pair, in order, into a map that is kept in the order of its keys.
fn insert_sorted<S: Source, V: FromRedisValue>(
    alloc: Global,
    mut pairs: PairsLeft<S::Values, S::Pairs>,
) -> Result<BTreeMap<String, V>, ParsingError>
    ensures ok { IfOk result (λ m. fields_of_read (traverse (entry_reading V.reading)
        (all_left S.values_left S.pairs_left pairs))
        ≡ Some (from_entries (entries_meaning V.meaning m.entries))) }
    ensures err { IfErr result (Refuses (traverse (entry_reading V.reading))
        (OneRefused (RefusesEntry (Refuses V.reading V.may_refuse)))
        (all_left S.values_left S.pairs_left pairs)) }
{
    let mut fields = BTreeMap::new(alloc);
    while let Some((key, value)) = next_left::<S>(&mut pairs) {
        let entry: (String, V) = read_pair(alloc, key, value)?;
        fields.insert(entry.0, entry.1)?;
    }
    Ok(fields)
}

/// Reads pairs as a map in the order of its keys.
fn read_sorted<S: Source, V: FromRedisValue>(
    alloc: Global,
    v: S,
) -> Result<BTreeMap<String, V>, ParsingError>
    ensures ok { IfOk result (λ m. fields_reading V.reading (S.seen v)
        ≡ Some (from_entries (entries_meaning V.meaning m.entries))) }
    ensures err { IfErr result (Refuses (fields_reading V.reading)
        (RefusesPairs (Refuses V.reading V.may_refuse)) (S.seen v)) }
{
    match into_pairs(v) {
        Some(pairs) => insert_sorted::<S, V>(alloc, pairs),
        None => Err(ParsingError::NotPairs),
    }
}

/// The pairs of a `Map`, of an `Array` two by two, or of `Nil`, which has none: each key, as text,
/// with its last value, by the reading of `V`. Returns `NotPairs` for any other kind or an odd length.
impl<V: FromRedisValue> FromRedisValue for BTreeMap<String, V> {
    ghost Meaning = { Fields V.Meaning };

    ghost meaning = { λ m. from_entries (entries_meaning V.meaning m.entries) };

    ghost reading = { fields_reading V.reading };

    ghost may_refuse = { RefusesPairs (Refuses V.reading V.may_refuse) };

    fn from_redis_value(alloc: Global, v: Value) -> Result<BTreeMap<String, V>, ParsingError> {
        read_sorted(alloc, v)
    }

    fn from_redis_value_ref(alloc: Global, v: &Value) -> Result<BTreeMap<String, V>, ParsingError> {
        read_sorted(alloc, v)
    }
}
