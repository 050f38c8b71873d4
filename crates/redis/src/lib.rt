//! The streams API under one name: values, arguments, options, replies, commands, the codec, the
//! parsers of option arguments, and the laws.
//!
//! This crate has only re-exports. The items of the Rust crate `redis` are under that crate's paths:
//! `redis::Value`, `redis::streams::StreamReadReply`. Its methods of a connection for streams are in
//! `commands`. The codec between a connection and these values is `wire`.
//! The words of contracts are re-exported by `Rattle.redis.specs.Words`.
#![tactic(auto)]

pub mod commands;
pub mod connection;
pub mod in_place;
pub mod laws;
pub mod sentences;
pub mod streams;
pub mod wire;

pub use redis_resp::{
    FixedArgs, FromRedisValue, PairList, ParsingError, RawBytes, RedisWrite, ToRedisArgs,
    ToSingleRedisArg, Value, WriteError, field_of, from_redis_value, from_redis_value_ref,
    hash_map_of, index_map_of, write_with_room,
};
pub use redis_wire::RedisError;
