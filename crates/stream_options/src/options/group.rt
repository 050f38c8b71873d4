//! The names of a group and its consumer, whatever their type.
ghost use Rattle.std.specs.Prelude.{◌≡◌, map, IfOk};
ghost use Rattle.stream_options.specs.GroupMeaning.{group_of};
ghost use Rattle.stream_options.specs.Read.{group_with, group_sentence};

use redis_args::{RedisWrite, ToRedisArgs, WriteError};
use std::alloc::{AllocError, Global};

/// Arguments that were written once, and are kept to be written again.
#[derive(Debug, Drop)]
pub(crate) struct KeptArgs(Vec<Vec<u8>>);

impl ToRedisArgs for KeptArgs {
    ghost args = { λ kept. map (λ arg. arg.items) kept.0.items };

    fn write_redis_args<W: RedisWrite>(&self, out: &mut W) -> Result<(), WriteError> {
        for arg in &self.0 {
            out.write_arg(arg)?;
        }
        Ok(())
    }
}

/// The arguments of the name of a group and those of the name of a consumer: `GROUP g.. c..`.
#[derive(Debug, Drop)]
pub(crate) struct Group {
    group: KeptArgs,
    consumer: KeptArgs,
}

impl Group {
    /// Keeps all the arguments of both names. It fails only if it runs out of memory.
    pub(crate) fn new<GN: ToRedisArgs, CN: ToRedisArgs>(
        alloc: Global,
        group: &GN,
        consumer: &CN,
    ) -> Result<Group, AllocError>
        ensures { IfOk result (λ kept.
            group_of kept ≡ group_with (GN.args group.now) (CN.args consumer.now)) }
    {
        Ok(Group {
            group: KeptArgs(group.to_redis_args(alloc)?),
            consumer: KeptArgs(consumer.to_redis_args(alloc)?),
        })
    }
}

impl ToRedisArgs for Group {
    ghost args = { λ kept. group_sentence (group_of kept) };

    fn write_redis_args<W: RedisWrite>(&self, out: &mut W) -> Result<(), WriteError> {
        ("GROUP", &self.group, &self.consumer).write_redis_args(out)
    }
}
