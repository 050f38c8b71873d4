//! Ids with their count.
ghost use Rattle.std.specs.Prelude.{◌∷◌, decimal, length};
ghost use Rattle.std.specs.List.{flat_map};
ghost use Rattle.stream_commands.specs.NonEmpty.{all};

use crate::at_least_one::AtLeastOne;
use redis_resp::{RedisWrite, ToRedisArgs, WriteError};

/// The number of ids, and the ids, as `IDS` expects them.
#[derive(Debug, Drop)]
pub struct CountedIds<'a, I>(pub AtLeastOne<'a, I>);

impl<'a, I: ToRedisArgs> ToRedisArgs for CountedIds<'a, I> {
    ghost args = { λ ids. decimal (length (all ids.0)) ∷ flat_map I.args (all ids.0) };

    fn write_redis_args<W: RedisWrite>(&self, out: &mut W) -> Result<(), WriteError> {
        (self.0.len(), &self.0).write_redis_args(out)
    }
}
