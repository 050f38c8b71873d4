//! A time, or nil if the server does not report it.
ghost use Rattle.std.specs.Prelude.{ℤ, Option};
ghost use Rattle.redis_resp.specs.Refusal.{RefusesNumber};
ghost use Rattle.redis_streams.specs.InfoFull.{time_or_nil_reading};

use redis_resp::{FromRedisValue, ParsingError, Value};
use std::alloc::Global;

/// A time that the server may not report. A `Nil` with no attribute around it is `None`, and any
/// other value is read as a number with its sign.
#[derive(Drop)]
pub(crate) struct TimeOrNil(pub(crate) Option<i64>);

impl FromRedisValue for TimeOrNil {
    ghost Meaning = { Option ℤ };

    ghost meaning = { λ time. time.0 };

    ghost reading = { time_or_nil_reading };

    ghost may_refuse = { RefusesNumber };

    fn from_redis_value(alloc: Global, v: Value) -> Result<TimeOrNil, ParsingError> {
        TimeOrNil::from_redis_value_ref(alloc, &v)
    }

    fn from_redis_value_ref(alloc: Global, v: &Value) -> Result<TimeOrNil, ParsingError> {
        match v {
            Value::Nil => Ok(TimeOrNil(None)),
            _ => Ok(TimeOrNil(Some(i64::from_redis_value_ref(alloc, v)?))),
        }
    }
}
