//! Tuples that are read from values.
ghost use Rattle.std.specs.Prelude.{◌≡◌, IfOk, IfErr, Some};
ghost use Rattle.redis_resp.specs.Reading.{two_reading, three_reading, four_reading};
ghost use Rattle.redis_resp.specs.Refusal.{Refuses, RefusesTwo, RefusesThree, RefusesFour};

use crate::value::Value;
use crate::value::error::ParsingError;
use crate::value::from_value::FromRedisValue;
use crate::value::members::{into_four, into_three, into_two};
use crate::value::source::Source;
use std::alloc::Global;

#[tactic(auto, using(crate::proofs::MembersLemmas::two_reading_is))]
fn read_two<S: Source, A: FromRedisValue, B: FromRedisValue>(
    alloc: Global,
    v: S,
) -> Result<(A, B), ParsingError>
    ensures ok { IfOk result (λ r. two_reading A.reading B.reading (S.seen v)
        ≡ Some (A.meaning r.0, B.meaning r.1)) }
    ensures err { IfErr result (Refuses (two_reading A.reading B.reading)
        (RefusesTwo (Refuses A.reading A.may_refuse) (Refuses B.reading B.may_refuse))
        (S.seen v)) }
{
    let Some((a, b)) = into_two(v) else {
        return Err(ParsingError::NotTuple(2));
    };
    let a: A = a.read(alloc)?;
    let b: B = b.read(alloc)?;
    Ok((a, b))
}

#[tactic(auto, using(crate::proofs::MembersLemmas::three_reading_is))]
fn read_three<S: Source, A: FromRedisValue, B: FromRedisValue, C: FromRedisValue>(
    alloc: Global,
    v: S,
) -> Result<(A, B, C), ParsingError>
    ensures ok { IfOk result (λ r. three_reading A.reading B.reading C.reading (S.seen v)
        ≡ Some (A.meaning r.0, B.meaning r.1, C.meaning r.2)) }
    ensures err { IfErr result (Refuses (three_reading A.reading B.reading C.reading)
        (RefusesThree (Refuses A.reading A.may_refuse) (Refuses B.reading B.may_refuse)
        (Refuses C.reading C.may_refuse)) (S.seen v)) }
{
    let Some((a, b, c)) = into_three(v) else {
        return Err(ParsingError::NotTuple(3));
    };
    let a: A = a.read(alloc)?;
    let b: B = b.read(alloc)?;
    let c: C = c.read(alloc)?;
    Ok((a, b, c))
}

#[tactic(auto, using(crate::proofs::MembersLemmas::four_reading_is))]
fn read_four<S: Source, A: FromRedisValue, B: FromRedisValue, C: FromRedisValue, D: FromRedisValue>(
    alloc: Global,
    v: S,
) -> Result<(A, B, C, D), ParsingError>
    ensures ok { IfOk result (λ r. four_reading A.reading B.reading C.reading D.reading (S.seen v)
        ≡ Some (A.meaning r.0, B.meaning r.1, C.meaning r.2, D.meaning r.3)) }
    ensures err { IfErr result (Refuses (four_reading A.reading B.reading C.reading D.reading)
        (RefusesFour (Refuses A.reading A.may_refuse) (Refuses B.reading B.may_refuse)
        (Refuses C.reading C.may_refuse) (Refuses D.reading D.may_refuse)) (S.seen v)) }
{
    let Some((a, b, c, d)) = into_four(v) else {
        return Err(ParsingError::NotTuple(4));
    };
    let a: A = a.read(alloc)?;
    let b: B = b.read(alloc)?;
    let c: C = c.read(alloc)?;
    let d: D = d.read(alloc)?;
    Ok((a, b, c, d))
}

/// An `Array` of exactly two, each member by its own reading. Returns `NotTuple(2)` for any other kind
/// or length. Reading an owned value moves its members. Reading a borrowed one copies only what
/// the members' readings keep.
impl<A: FromRedisValue, B: FromRedisValue> FromRedisValue for (A, B) {
    ghost Meaning = { A.Meaning × B.Meaning };

    ghost meaning = { λ r. (A.meaning r.0, B.meaning r.1) };

    ghost reading = { two_reading A.reading B.reading };

    ghost may_refuse = { RefusesTwo (Refuses A.reading A.may_refuse)
        (Refuses B.reading B.may_refuse) };

    fn from_redis_value(alloc: Global, v: Value) -> Result<(A, B), ParsingError> {
        read_two(alloc, v)
    }

    fn from_redis_value_ref(alloc: Global, v: &Value) -> Result<(A, B), ParsingError> {
        read_two(alloc, v)
    }
}

/// An `Array` of exactly three, each member by its own reading. Returns `NotTuple(3)` for any other
/// kind or length. Reading an owned value moves its members. Reading a borrowed one copies only
/// what the members' readings keep.
impl<A: FromRedisValue, B: FromRedisValue, C: FromRedisValue> FromRedisValue for (A, B, C) {
    ghost Meaning = { A.Meaning × B.Meaning × C.Meaning };

    ghost meaning = { λ r. (A.meaning r.0, B.meaning r.1, C.meaning r.2) };

    ghost reading = { three_reading A.reading B.reading C.reading };

    ghost may_refuse = { RefusesThree (Refuses A.reading A.may_refuse)
        (Refuses B.reading B.may_refuse) (Refuses C.reading C.may_refuse) };

    fn from_redis_value(alloc: Global, v: Value) -> Result<(A, B, C), ParsingError> {
        read_three(alloc, v)
    }

    fn from_redis_value_ref(alloc: Global, v: &Value) -> Result<(A, B, C), ParsingError> {
        read_three(alloc, v)
    }
}

/// An `Array` of exactly four, each member by its own reading. Returns `NotTuple(4)` for any other kind
/// or length. Reading an owned value moves its members. Reading a borrowed one copies only what
/// the members' readings keep.
impl<A: FromRedisValue, B: FromRedisValue, C: FromRedisValue, D: FromRedisValue> FromRedisValue
    for (A, B, C, D) {
    ghost Meaning = { A.Meaning × B.Meaning × C.Meaning × D.Meaning };

    ghost meaning = { λ r. (A.meaning r.0, B.meaning r.1, C.meaning r.2, D.meaning r.3) };

    ghost reading = { four_reading A.reading B.reading C.reading D.reading };

    ghost may_refuse = { RefusesFour (Refuses A.reading A.may_refuse)
        (Refuses B.reading B.may_refuse) (Refuses C.reading C.may_refuse)
        (Refuses D.reading D.may_refuse) };

    fn from_redis_value(alloc: Global, v: Value) -> Result<(A, B, C, D), ParsingError> {
        read_four(alloc, v)
    }

    fn from_redis_value_ref(alloc: Global, v: &Value) -> Result<(A, B, C, D), ParsingError> {
        read_four(alloc, v)
    }
}
