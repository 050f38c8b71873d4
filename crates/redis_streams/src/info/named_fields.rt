//! The fields of a value by name, and reading one of them with a default.
ghost use Rattle.std.specs.Prelude.{◌≡◌, Some, IfOk, IfErr, option_map};
ghost use Rattle.std.specs.Map.{update};
ghost use Rattle.std.specs.Str.{bytes_eq};
ghost use Rattle.redis_resp.specs.Reading.{traverse};
ghost use Rattle.redis_resp.specs.Refusal.{Refuses, OneRefused, RefusesEntry, RefusesPairs, RefusesValue, RefusesField};
ghost use Rattle.redis_resp.specs.Source.{all_left};
ghost use Rattle.redis_resp.specs.Table.{entries_meaning, entry_reading};
ghost use Rattle.redis_streams.specs.Info.{field_or, fields_in};
ghost use Rattle.redis_streams.specs.InfoMeaning.{fields_by_name};

use redis_resp::{
    FromRedisValue, PairsLeft, ParsingError, Source, count_left, hash_map_of, into_pairs, next_left,
};
use std::alloc::Global;
use std::collections::HashMap;

/// Returns the fields of a value by name, each value as it is. Of a borrowed value only the keys
/// are copied. Of equal names the last counts.
pub(crate) fn read_named_fields<S: Source>(
    alloc: Global,
    v: S,
) -> Result<HashMap<String, S>, ParsingError>
    ensures ok { IfOk result (λ m. fields_in (S.seen v) ≡ Some (fields_by_name S.seen m)) }
    ensures err { IfErr result (Refuses fields_in
        (RefusesPairs (Refuses (λ u. Some u) RefusesValue)) (S.seen v)) }
{
    match into_pairs(v) {
        Some(left) => {
            if count_left::<S>(&left) == 0 {
                return Ok(HashMap::new(alloc));
            }
            let pairs = keep_pairs::<S>(alloc, left)?;
            Ok(hash_map_of(alloc, pairs)?)
        }
        None => Err(ParsingError::NotPairs),
    }
}

/// Reads the key of each pair, in order, and keeps the value as it is.
fn keep_pairs<S: Source>(
    alloc: Global,
    mut left: PairsLeft<S::Values, S::Pairs>,
) -> Result<Vec<(String, S)>, ParsingError>
    ensures ok { IfOk result (λ r. traverse (entry_reading (λ u. Some u))
        (all_left S.values_left S.pairs_left left) ≡ Some (entries_meaning S.seen r.items)) }
    ensures err { IfErr result (Refuses (traverse (entry_reading (λ u. Some u)))
        (OneRefused (RefusesEntry (Refuses (λ u. Some u) RefusesValue)))
        (all_left S.values_left S.pairs_left left)) }
{
    let mut pairs = Vec::with_capacity(alloc, count_left::<S>(&left))?;
    while let Some((key, value)) = next_left::<S>(&mut left) {
        let key: String = key.read(alloc)?;
        pairs.push((key, value))?;
    }
    Ok(pairs)
}

/// Removes the field of this name from the fields and returns it, if it is there.
#[tactic(auto, unfolding(crate::specs::InfoMeaning::fields_by_name))]
pub(crate) fn take_field<S: Source>(fields: &mut HashMap<String, S>, name: &str) -> Option<S>
    ensures field { option_map S.seen result ≡ fields_by_name S.seen fields.old name.now }
    ensures rest { fields_by_name S.seen fields.new
        ≡ update bytes_eq (fields_by_name S.seen fields.old) name.now None }
{
    fields.remove(name)
}

/// Reads a field, or returns the empty value if the field is missing.
pub(crate) fn read_or<S: Source, T: FromRedisValue>(
    alloc: Global,
    field: Option<S>,
    empty: T,
) -> Result<T, ParsingError>
    ensures ok { IfOk result (λ r. field_or (T.meaning empty) T.reading (option_map S.seen field)
        ≡ Some (T.meaning r)) }
    ensures err { IfErr result (Refuses (field_or (T.meaning empty) T.reading)
        (RefusesField T.may_refuse) (option_map S.seen field)) }
{
    match field {
        Some(value) => value.read(alloc),
        None => Ok(empty),
    }
}
