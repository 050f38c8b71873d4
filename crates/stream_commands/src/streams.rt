//! The streams of a read.
ghost use Rattle.std.specs.Prelude.{◌≡◌, ◌++◌};
ghost use Rattle.std.specs.List.{flat_map};
ghost use Rattle.stream_commands.specs.NonEmpty.{NonEmpty, all};

use crate::at_least_one::AtLeastOne;
use redis_resp::{RedisWrite, ToRedisArgs, WriteError};

/// Streams, each a key and the id after which it is read: all keys, and then all ids,
/// as `STREAMS` of a read expects them. So there are as many ids as keys.
#[derive(Debug, Drop)]
pub struct Streams<'a, K, I>(pub AtLeastOne<'a, (K, I)>);

impl<'a, K: ToRedisArgs, I: ToRedisArgs> ToRedisArgs for Streams<'a, K, I> {
    ghost args = { λ streams. flat_map (λ s. K.args s.0) (all streams.0)
        ++ flat_map (λ s. I.args s.1) (all streams.0) };

    fn write_redis_args<W: RedisWrite>(&self, out: &mut W) -> Result<(), WriteError> {
        let (first, rest) = (self.0.first(), self.0.rest());
        ((&first.0, Keys(rest)), (&first.1, Ids(rest))).write_redis_args(out)
    }
}

/// The keys of streams.
#[derive(Drop)]
struct Keys<'a, K, I>(&'a [(K, I)]);

impl<'a, K: ToRedisArgs, I> ToRedisArgs for Keys<'a, K, I> {
    ghost args = { λ keys. flat_map (λ s. K.args s.0) keys.0.now };

    fn write_redis_args<W: RedisWrite>(&self, out: &mut W) -> Result<(), WriteError> {
        for stream in self.0 {
            stream.0.write_redis_args(out)?;
        }
        Ok(())
    }
}

/// The ids of streams.
#[derive(Drop)]
struct Ids<'a, K, I>(&'a [(K, I)]);

impl<'a, K, I: ToRedisArgs> ToRedisArgs for Ids<'a, K, I> {
    ghost args = { λ ids. flat_map (λ s. I.args s.1) ids.0.now };

    fn write_redis_args<W: RedisWrite>(&self, out: &mut W) -> Result<(), WriteError> {
        for stream in self.0 {
            stream.1.write_redis_args(out)?;
        }
        Ok(())
    }
}
