//! Values that are read as they are.
ghost use Rattle.std.specs.Prelude.{◌≡◌, Ok, Some};
ghost use Rattle.redis_resp.specs.Tree.{Tree};
ghost use Rattle.redis_resp.specs.Refusal.{RefusesNothing, RefusesValue};
ghost use Rattle.redis_resp.specs.Value.{tree};

use crate::value::Value;
use crate::value::error::ParsingError;
use crate::value::from_value::FromRedisValue;
use std::alloc::Global;

impl FromRedisValue for Value {
    ghost Meaning = { Tree };

    ghost meaning = { tree };

    ghost reading = { λ t. Some t };

    ghost may_refuse = { RefusesValue };

    ghost may_refuse_owned = { RefusesNothing };

    /// Returns the value itself, with its attributes. It copies nothing and never fails.
    fn from_redis_value(_alloc: Global, v: Value) -> Result<Value, ParsingError>
        ensures moved { result ≡ Ok v }
    {
        Ok(v)
    }

    fn from_redis_value_ref(alloc: Global, v: &Value) -> Result<Value, ParsingError> {
        Ok(v.try_clone(alloc)?)
    }
}
