//! A value that is read repeatedly.
ghost use Rattle.std.specs.Prelude.{◌≡◌, ◌≢◌, None, IfOk, IfErr};
ghost use Rattle.std.specs.Option.{is_some};
ghost use Rattle.redis_resp.specs.Value.{tree};
ghost use Rattle.test_costs.specs.Reading.{IsRead};

use crate::job::Way;
use redis_resp::{FromRedisValue, ParsingError, Value, from_redis_value, from_redis_value_ref};
use std::alloc::Global;

/// Reads the value `count` times, and drops each record. An `Err` means that the value has no record,
/// unless it is `Memory`.
pub fn read<T: FromRedisValue>(
    alloc: Global,
    value: &Value,
    way: Way,
    count: usize,
) -> Result<(), ParsingError>
    ensures ok { IfOk result (λ _. IsRead way count (is_some (T.reading (tree value.now)))) }
    ensures err { IfErr result (λ e. e ≢ ParsingError.Memory → T.reading (tree value.now) ≡ None) }
{
    for _ in 0..count {
        read_once::<T>(alloc, value, way)?;
    }
    Ok(())
}

fn read_once<T: FromRedisValue>(alloc: Global, value: &Value, way: Way) -> Result<(), ParsingError>
    ensures ok { IfOk result (λ _. IsRead way 1 (is_some (T.reading (tree value.now)))) }
    ensures err { IfErr result (λ e. e ≢ ParsingError.Memory → T.reading (tree value.now) ≡ None) }
{
    match way {
        Way::Copied => drop(value.try_clone(alloc)?),
        Way::Owned => drop(from_redis_value::<T>(alloc, value.try_clone(alloc)?)?),
        Way::Borrowed => drop(from_redis_value_ref::<T>(alloc, value)?),
    }
    Ok(())
}
