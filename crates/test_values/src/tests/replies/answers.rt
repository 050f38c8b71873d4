//! The results of both readings of a value in one line.
ghost use Rattle.std.specs.Prelude.{Bool, true, None, codes};

use redis_resp::{FromRedisValue, ParsingError, Value};
use std::alloc::{AllocError, Global};
use std::process::Abort;
use test_notation::{PrintedForm, both_answers};

/// A type with no record, whose two readings refuse a value with different errors.
#[derive(Drop)]
struct Refused;

impl FromRedisValue for Refused {
    ghost Meaning = { Bool };

    ghost meaning = { λ _. true };

    ghost reading = { λ _. None };

    fn from_redis_value(_alloc: Global, _v: Value) -> Result<Refused, ParsingError> {
        Err(ParsingError::NotText)
    }

    fn from_redis_value_ref(_alloc: Global, _v: &Value) -> Result<Refused, ParsingError> {
        Err(ParsingError::NotNumber)
    }
}

impl PrintedForm for Refused {
    ghost form = { λ _. codes "none" };

    fn print(&self, _alloc: Global, line: &mut String) -> Result<(), AllocError> {
        line.push_str("none")
    }
}

/// Checks the line that `both_answers` returns for the value.
fn check_told<T: FromRedisValue + PrintedForm>(
    rt: &(impl AllocGlobal + Abort),
    value: Value,
    told: &str,
) {
    let line = both_answers::<T>(rt.alloc(), value).expect(rt, "memory");
    assert!(rt; line.as_str() == told, "{line}, not {told}");
}

#[test]
fn both_readings_are_told(rt: HostRuntime) {
    check_told::<Refused>(&rt, Value::Nil, "refused 1 owned, refused 2 lent");
    check_told::<usize>(&rt, Value::Int(7), "7");
    check_told::<usize>(&rt, Value::Nil, "refused 2");
    check_told::<String>(&rt, Value::Nil, "refused 1");
}
