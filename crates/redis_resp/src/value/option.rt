//! Values that may be missing.
ghost use Rattle.std.specs.Prelude.{◌≡◌, IfOk, IfErr, Option, Some, option_map};
ghost use Rattle.redis_resp.specs.Reading.{option_reading};
ghost use Rattle.redis_resp.specs.Refusal.{Refuses, RefusesOption};

use crate::value::Value;
use crate::value::error::ParsingError;
use crate::value::from_value::FromRedisValue;
use crate::value::source::Source;
use std::alloc::Global;

/// Reads a value that may be nil.
fn read_option<S: Source, T: FromRedisValue>(alloc: Global, v: S) -> Result<Option<T>, ParsingError>
    ensures ok { IfOk result (λ r. option_reading T.reading (S.seen v)
        ≡ Some (option_map T.meaning r)) }
    ensures err { IfErr result (Refuses (option_reading T.reading)
        (RefusesOption (Refuses T.reading T.may_refuse)) (S.seen v)) }
{
    if let Value::Nil = v.as_value().as_plain() {
        return Ok(None);
    }
    let record: T = v.read(alloc)?;
    Ok(Some(record))
}

/// Returns `None` for `Nil`, whatever attributes are around it. Any other value is Some of what `T`
/// reads, or the error of `T`. A `Nil` allocates no memory.
impl<T: FromRedisValue> FromRedisValue for Option<T> {
    ghost Meaning = { Option T.Meaning };

    ghost meaning = { option_map T.meaning };

    ghost reading = { option_reading T.reading };

    ghost may_refuse = { RefusesOption (Refuses T.reading T.may_refuse) };

    fn from_redis_value(alloc: Global, v: Value) -> Result<Option<T>, ParsingError> {
        read_option(alloc, v)
    }

    fn from_redis_value_ref(alloc: Global, v: &Value) -> Result<Option<T>, ParsingError> {
        read_option(alloc, v)
    }
}
