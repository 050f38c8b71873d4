//! Writes the arguments of Redis commands and reads replies: argument lists and their writers (`args`),
//! the value tree of the RESP protocol, and readings of plain types (`value`).
//!
//! ```text
//! let args = ("MAXLEN", 10usize).to_redis_args(alloc)?;             // `MAXLEN`, `10`
//! let names: Vec<String> = from_redis_value(alloc, reply)?;        // or a `ParsingError`
//! ```
//!
//! To add a type of your own, implement `ToRedisArgs` with the arguments of its values. To read it,
//! implement `FromRedisValue` with the records of its values. It then works inside lists, options,
//! tuples and tables with no change here.
#![tactic(auto)]

pub mod args;
pub mod value;

pub use args::{
    FixedArgs, RawBytes, RedisWrite, ToRedisArgs, ToSingleRedisArg, WriteError, copied_write_error,
    equal_bytes, equal_write_errors, unique_decimal, write_with_room,
};
pub use value::{
    Contents, FromRedisValue, PairList, PairsLeft, ParsingError, Source, Value, count_left,
    equal_parsing_errors, field_of, from_redis_value, from_redis_value_ref, hash_map_of,
    index_map_of, into_four, into_pairs, into_three, into_two, is_fields, is_nil, is_text,
    is_usize, next_left, read_pairs, signed_in, unsigned_in,
};
