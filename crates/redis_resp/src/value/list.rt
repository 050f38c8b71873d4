//! Lists that are read from values.
ghost use Rattle.std.specs.Prelude.{◌≡◌, IfOk, IfErr, map, List, Some};
ghost use Rattle.redis_resp.specs.Tree.{single};
ghost use Rattle.redis_resp.specs.Reading.{traverse, list_reading};
ghost use Rattle.redis_resp.specs.Refusal.{Refuses, MemoryOr, OneRefused, RefusesList};

use crate::value::Value;
use crate::value::contents::Contents;
use crate::value::error::ParsingError;
use crate::value::from_value::FromRedisValue;
use crate::value::source::Source;
use std::alloc::Global;

/// Reads each value, in order.
fn read_values<S: Source, T: FromRedisValue>(
    alloc: Global,
    mut values: S::Values,
) -> Result<Vec<T>, ParsingError>
    ensures ok { IfOk result (λ r. traverse T.reading (S.values_left values)
        ≡ Some (map T.meaning r.items)) }
    ensures err { IfErr result (Refuses (traverse T.reading)
        (OneRefused (Refuses T.reading T.may_refuse)) (S.values_left values)) }
{
    let mut records = Vec::with_capacity(alloc, S::count_values(&values))?;
    while let Some(value) = S::next_value(&mut values) {
        records.push(value.read(alloc)?)?;
    }
    Ok(records)
}

/// Reads the record of a pair as a map of its own. A borrowed pair is copied.
#[tactic(auto, using(crate::proofs::TreeLemmas::tree_of_map))]
fn read_single<S: Source, T: FromRedisValue>(
    alloc: Global,
    key: S,
    value: S,
) -> Result<T, ParsingError>
    ensures ok { IfOk result (λ r. T.reading (single (S.seen key, S.seen value))
        ≡ Some (T.meaning r)) }
    ensures err { IfErr result (Refuses T.reading (MemoryOr T.may_refuse)
        (single (S.seen key, S.seen value))) }
{
    let key = key.into_owned(alloc)?;
    let value = value.into_owned(alloc)?;
    let alone = Value::Map(vec![in alloc; (key, value)]?);
    T::from_redis_value(alloc, alone)
}

/// Reads each pair as a map of its own, in order. Borrowed pairs are copied one at a time.
fn read_singles<S: Source, T: FromRedisValue>(
    alloc: Global,
    mut pairs: S::Pairs,
) -> Result<Vec<T>, ParsingError>
    ensures ok { IfOk result (λ r. traverse T.reading (map single (S.pairs_left pairs))
        ≡ Some (map T.meaning r.items)) }
    ensures err { IfErr result (Refuses (traverse T.reading)
        (OneRefused (Refuses T.reading T.may_refuse)) (map single (S.pairs_left pairs))) }
{
    let mut records = Vec::with_capacity(alloc, S::count_pairs(&pairs))?;
    while let Some((key, value)) = S::next_pair(&mut pairs) {
        records.push(read_single(alloc, key, value)?)?;
    }
    Ok(records)
}

/// Reads the items of a list.
fn read_list<S: Source, T: FromRedisValue>(alloc: Global, v: S) -> Result<Vec<T>, ParsingError>
    ensures ok { IfOk result (λ r. list_reading T.reading (S.seen v)
        ≡ Some (map T.meaning r.items)) }
    ensures err { IfErr result (Refuses (list_reading T.reading)
        (RefusesList (Refuses T.reading T.may_refuse)) (S.seen v)) }
{
    match v.into_contents() {
        Contents::Nothing => Ok(Vec::new(alloc)),
        Contents::Array(values) => read_values::<S, T>(alloc, values),
        Contents::Set(values) => read_values::<S, T>(alloc, values),
        Contents::Map(pairs) => read_singles::<S, T>(alloc, pairs),
        Contents::Other => Err(ParsingError::NotList),
    }
}

/// Reads the items of an `Array` or a `Set` in order, the pairs of a `Map` as maps of their own, or
/// nothing for `Nil`. Each is read by `T`. Returns `NotList` for any other kind. Reading an
/// owned value moves its items. Reading a borrowed one copies only what the items' readings keep,
/// and one pair of a map at a time.
impl<T: FromRedisValue> FromRedisValue for Vec<T> {
    ghost Meaning = { List T.Meaning };

    ghost meaning = { λ v. map T.meaning v.items };

    ghost reading = { list_reading T.reading };

    ghost may_refuse = { RefusesList (Refuses T.reading T.may_refuse) };

    fn from_redis_value(alloc: Global, v: Value) -> Result<Vec<T>, ParsingError> {
        read_list(alloc, v)
    }

    fn from_redis_value_ref(alloc: Global, v: &Value) -> Result<Vec<T>, ParsingError> {
        read_list(alloc, v)
    }
}
