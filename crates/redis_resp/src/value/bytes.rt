//! Bytes that are read from values.
ghost use Rattle.std.specs.Prelude.{ℕ, List};
ghost use Rattle.redis_resp.specs.Bytes.{bytes_reading};
ghost use Rattle.redis_resp.specs.Refusal.{RefusesBytes, RefusesOwnedBytes};

use crate::value::Value;
use crate::value::error::ParsingError;
use crate::value::from_value::FromRedisValue;
use redis_args::RawBytes;
use std::alloc::Global;

impl FromRedisValue for RawBytes {
    ghost Meaning = { List ℕ };

    ghost meaning = { λ bytes. bytes.0.items };

    ghost reading = { bytes_reading };

    ghost may_refuse = { RefusesBytes };

    ghost may_refuse_owned = { RefusesOwnedBytes };

    /// Returns the bytes of a bulk string. They are moved, so it allocates no memory.
    fn from_redis_value(_alloc: Global, v: Value) -> Result<RawBytes, ParsingError> {
        match v.into_plain() {
            Value::BulkString(bytes) => Ok(RawBytes(bytes)),
            _ => Err(ParsingError::NotBytes),
        }
    }

    /// Returns a copy of the bytes of a bulk string.
    fn from_redis_value_ref(alloc: Global, v: &Value) -> Result<RawBytes, ParsingError> {
        match v.as_plain() {
            Value::BulkString(bytes) => Ok(RawBytes(Vec::from_slice(alloc, bytes)?)),
            _ => Err(ParsingError::NotBytes),
        }
    }
}
