//! Lists, arrays, options and references as arguments.
ghost use Rattle.std.specs.List.{flat_map};
ghost use Rattle.redis_args.specs.Clause.{clause};

use crate::to_redis_args::{ToRedisArgs, ToSingleRedisArg};
use crate::writer::{RedisWrite, WriteError};

impl<T: ToRedisArgs> ToRedisArgs for &[T] {
    ghost args = { λ items. flat_map T.args items.now };

    fn write_redis_args<W: RedisWrite>(&self, out: &mut W) -> Result<(), WriteError> {
        for item in *self {
            item.write_redis_args(out)?;
        }
        Ok(())
    }
}

impl<T: ToRedisArgs> ToRedisArgs for Vec<T> {
    ghost args = { λ list. flat_map T.args list.items };

    fn write_redis_args<W: RedisWrite>(&self, out: &mut W) -> Result<(), WriteError> {
        self.as_slice().write_redis_args(out)
    }
}

impl<T: ToRedisArgs, const N: usize> ToRedisArgs for [T; N] {
    ghost args = { λ items. flat_map T.args items };

    fn write_redis_args<W: RedisWrite>(&self, out: &mut W) -> Result<(), WriteError> {
        let items: &[T] = self;
        items.write_redis_args(out)
    }
}

impl<T: ToRedisArgs> ToRedisArgs for Option<T> {
    ghost args = { clause T.args };

    fn write_redis_args<W: RedisWrite>(&self, out: &mut W) -> Result<(), WriteError> {
        match self {
            Some(value) => value.write_redis_args(out),
            None => Ok(()),
        }
    }
}

impl<T: ToRedisArgs> ToRedisArgs for &T {
    ghost args = { λ value. T.args value.now };

    fn write_redis_args<W: RedisWrite>(&self, out: &mut W) -> Result<(), WriteError> {
        (**self).write_redis_args(out)
    }
}

impl<T: ToSingleRedisArg> ToSingleRedisArg for &T {
    ghost single = { λ value. T.single value.now };
}
