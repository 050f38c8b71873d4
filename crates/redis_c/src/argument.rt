//! Bytes of the caller as an argument.
ghost use Rattle.std.specs.Prelude.{[], ◌∷◌, refl};

use redis_resp::{RedisWrite, ToRedisArgs, ToSingleRedisArg, WriteError};

/// Bytes that are one argument, unchanged.
#[derive(Clone, Copy, Drop)]
pub struct Argument<'a>(pub &'a [u8]);

impl<'a> ToRedisArgs for Argument<'a> {
    ghost args = { λ argument. argument.0.now ∷ [] };

    fn write_redis_args<W: RedisWrite>(&self, out: &mut W) -> Result<(), WriteError> {
        out.write_arg(self.0)
    }
}

impl<'a> ToSingleRedisArg for Argument<'a> {
    ghost single = { λ _. refl };
}
