//! A number, or nil if the server does not know it.
ghost use Rattle.std.specs.Prelude.{ℕ, Option};
ghost use Rattle.redis_resp.specs.Refusal.{RefusesNumber};
ghost use Rattle.redis_streams.specs.Info.{number_or_nil_reading};

use redis_resp::{FromRedisValue, ParsingError, Value};
use std::alloc::Global;

/// A number that the server may not know. A `Nil` with no attribute around it is `None`; any other value
/// is read as a number. Unlike an option, it does not read a nil with attributes around it as `None`.
#[derive(Drop)]
pub(crate) struct NumberOrNil(pub(crate) Option<usize>);

impl FromRedisValue for NumberOrNil {
    ghost Meaning = { Option ℕ };

    ghost meaning = { λ n. n.0 };

    ghost reading = { number_or_nil_reading };

    ghost may_refuse = { RefusesNumber };

    fn from_redis_value(alloc: Global, v: Value) -> Result<NumberOrNil, ParsingError> {
        NumberOrNil::from_redis_value_ref(alloc, &v)
    }

    fn from_redis_value_ref(alloc: Global, v: &Value) -> Result<NumberOrNil, ParsingError> {
        match v {
            Value::Nil => Ok(NumberOrNil(None)),
            _ => Ok(NumberOrNil(Some(usize::from_redis_value_ref(alloc, v)?))),
        }
    }
}
