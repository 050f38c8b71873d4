//! Argument lists of commands, and the writers that receive them, re-exported from `redis_args`.
pub use redis_args::{
    FixedArgs, RawBytes, RedisWrite, ToRedisArgs, ToSingleRedisArg, WriteError, copied_write_error,
    equal_bytes, equal_write_errors, unique_decimal, write_with_room,
};
