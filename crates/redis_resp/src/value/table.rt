//! Tables that are read from values: a key keeps the position of its first pair and takes the value of
//! its last pair.
ghost use Rattle.std.specs.Prelude.{◌≡◌, IfOk, IfErr, List, ℕ, Some, option_map};
ghost use Rattle.std.specs.FinMap.{from_entries};
ghost use Rattle.std.specs.HashMap.{get_by_text};
ghost use Rattle.redis_resp.specs.Reading.{traverse};
ghost use Rattle.redis_resp.specs.Refusal.{Refuses, OneRefused, RefusesEntry, RefusesPairs};
ghost use Rattle.redis_resp.specs.Source.{all_left};
ghost use Rattle.redis_resp.specs.Table.{entries_meaning, entry_reading, table_of, table_reading};
ghost use Rattle.redis_resp.specs.Table.{last_with, Fields, fields_of_read, fields_reading};

use crate::value::Value;
use crate::value::error::ParsingError;
use crate::value::from_value::FromRedisValue;
use crate::value::pair::read_pair;
use crate::value::pairs_left::{PairsLeft, count_left, into_pairs, next_left};
use crate::value::source::Source;
use indexmap::IndexMap;
use std::alloc::{AllocError, Global};
use std::collections::HashMap;

/// Returns the table of pairs in order: a key that comes again keeps its position and takes the last
/// value. It fails only if it runs out of memory.
pub fn index_map_of<V: Drop>(
    alloc: Global,
    pairs: Vec<(String, V)>,
) -> Result<IndexMap<String, V>, AllocError>
    ensures entries { IfOk result (λ m. entries_meaning (λ x. x) m.entries
        ≡ table_of (entries_meaning (λ x. x) pairs.items)) }
    ensures last { IfOk result (λ m. (key : List ℕ)
        → get_by_text m key ≡ last_with key (entries_meaning (λ x. x) pairs.items)) }
{
    IndexMap::from_iter(alloc, pairs)
}

/// Returns the pairs as a map: each key with the last value that it has among them. It fails only if
/// it runs out of memory.
pub fn hash_map_of<V: Drop>(
    alloc: Global,
    pairs: Vec<(String, V)>,
) -> Result<HashMap<String, V>, AllocError>
    ensures { IfOk result (λ m. (key : List ℕ)
        → get_by_text m key ≡ last_with key (entries_meaning (λ x. x) pairs.items)) }
{
    HashMap::from_iter(alloc, pairs)
}

/// Reads each pair, in order, into an index map with capacity for all of them.
fn insert_in_order<S: Source, V: FromRedisValue>(
    alloc: Global,
    mut pairs: PairsLeft<S::Values, S::Pairs>,
) -> Result<IndexMap<String, V>, ParsingError>
    ensures ok { IfOk result (λ m. option_map table_of (traverse (entry_reading V.reading)
        (all_left S.values_left S.pairs_left pairs)) ≡ Some (entries_meaning V.meaning m.entries)) }
    ensures err { IfErr result (Refuses (traverse (entry_reading V.reading))
        (OneRefused (RefusesEntry (Refuses V.reading V.may_refuse)))
        (all_left S.values_left S.pairs_left pairs)) }
{
    let mut table = IndexMap::with_capacity(alloc, count_left::<S>(&pairs))?;
    while let Some((key, value)) = next_left::<S>(&mut pairs) {
        let entry: (String, V) = read_pair(alloc, key, value)?;
        table.insert(entry.0, entry.1)?;
    }
    Ok(table)
}

/// Reads each pair, in order, into a hash map with capacity for all of them.
fn insert_fields<S: Source, V: FromRedisValue>(
    alloc: Global,
    mut pairs: PairsLeft<S::Values, S::Pairs>,
) -> Result<HashMap<String, V>, ParsingError>
    ensures ok { IfOk result (λ m. fields_of_read (traverse (entry_reading V.reading)
        (all_left S.values_left S.pairs_left pairs))
        ≡ Some (from_entries (entries_meaning V.meaning m.entries))) }
    ensures err { IfErr result (Refuses (traverse (entry_reading V.reading))
        (OneRefused (RefusesEntry (Refuses V.reading V.may_refuse)))
        (all_left S.values_left S.pairs_left pairs)) }
{
    let count = count_left::<S>(&pairs);
    if count == 0 {
        return Ok(HashMap::new(alloc));
    }
    let mut fields = HashMap::with_capacity(alloc, count)?;
    while let Some((key, value)) = next_left::<S>(&mut pairs) {
        let entry: (String, V) = read_pair(alloc, key, value)?;
        fields.insert(entry.0, entry.1)?;
    }
    Ok(fields)
}

/// Reads pairs as an index map.
fn read_in_order<S: Source, V: FromRedisValue>(
    alloc: Global,
    v: S,
) -> Result<IndexMap<String, V>, ParsingError>
    ensures ok { IfOk result (λ m. table_reading V.reading (S.seen v)
        ≡ Some (entries_meaning V.meaning m.entries)) }
    ensures err { IfErr result (Refuses (table_reading V.reading)
        (RefusesPairs (Refuses V.reading V.may_refuse)) (S.seen v)) }
{
    match into_pairs(v) {
        Some(pairs) => insert_in_order::<S, V>(alloc, pairs),
        None => Err(ParsingError::NotPairs),
    }
}

/// Reads pairs as a hash map.
fn read_fields<S: Source, V: FromRedisValue>(
    alloc: Global,
    v: S,
) -> Result<HashMap<String, V>, ParsingError>
    ensures ok { IfOk result (λ m. fields_reading V.reading (S.seen v)
        ≡ Some (from_entries (entries_meaning V.meaning m.entries))) }
    ensures err { IfErr result (Refuses (fields_reading V.reading)
        (RefusesPairs (Refuses V.reading V.may_refuse)) (S.seen v)) }
{
    match into_pairs(v) {
        Some(pairs) => insert_fields::<S, V>(alloc, pairs),
        None => Err(ParsingError::NotPairs),
    }
}

/// The pairs of a `Map`, of an `Array` two by two, or of `Nil`, which has none. Keys are read as text
/// and values by the reading of `V`, also those whose key comes again. A key keeps its first position,
/// with its last value. Returns `NotPairs` for any other kind or an odd length.
impl<V: FromRedisValue> FromRedisValue for IndexMap<String, V> {
    ghost Meaning = { List (List ℕ × V.Meaning) };

    ghost meaning = { λ m. entries_meaning V.meaning m.entries };

    ghost reading = { table_reading V.reading };

    ghost may_refuse = { RefusesPairs (Refuses V.reading V.may_refuse) };

    fn from_redis_value(alloc: Global, v: Value) -> Result<IndexMap<String, V>, ParsingError> {
        read_in_order(alloc, v)
    }

    fn from_redis_value_ref(alloc: Global, v: &Value) -> Result<IndexMap<String, V>, ParsingError> {
        read_in_order(alloc, v)
    }
}

/// The pairs as a map without order: each key with its last value. Returns `NotPairs` for any other
/// kind or an odd length.
impl<V: FromRedisValue> FromRedisValue for HashMap<String, V> {
    ghost Meaning = { Fields V.Meaning };

    ghost meaning = { λ m. from_entries (entries_meaning V.meaning m.entries) };

    ghost reading = { fields_reading V.reading };

    ghost may_refuse = { RefusesPairs (Refuses V.reading V.may_refuse) };

    fn from_redis_value(alloc: Global, v: Value) -> Result<HashMap<String, V>, ParsingError> {
        read_fields(alloc, v)
    }

    fn from_redis_value_ref(alloc: Global, v: &Value) -> Result<HashMap<String, V>, ParsingError> {
        read_fields(alloc, v)
    }
}
