//! Argument lists of Redis commands, and the writers that receive them.
//!
//! ```text
//! let args = ("MAXLEN", 10usize).to_redis_args(alloc)?;             // `MAXLEN`, `10`
//! ```
//!
//! To add a type of your own, implement `ToRedisArgs` with the list of arguments of its values. It
//! then works inside lists, options and tuples with no change here.
#![tactic(auto)]

mod containers;
mod fixed_args;
mod laws;
mod number;
mod raw_bytes;
mod text;
mod to_redis_args;
mod tuple;
mod writer;

pub use fixed_args::FixedArgs;
pub use laws::{
    copied_write_error, equal_bytes, equal_write_errors, unique_decimal, write_with_room,
};
pub use raw_bytes::RawBytes;
pub use to_redis_args::{ToRedisArgs, ToSingleRedisArg};
pub use writer::{RedisWrite, WriteError};
