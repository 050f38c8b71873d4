//! Bytes as an argument.
ghost use Rattle.std.specs.Prelude.{[], ◌∷◌, refl};

use crate::to_redis_args::{ToRedisArgs, ToSingleRedisArg};
use crate::writer::{RedisWrite, WriteError};

/// Bytes that are one argument, unchanged, whether or not they are text.
#[derive(Debug, PartialEq, Eq, Drop)]
pub struct RawBytes(pub Vec<u8>);

impl ToRedisArgs for RawBytes {
    ghost args = { λ bytes. bytes.0.items ∷ [] };

    fn write_redis_args<W: RedisWrite>(&self, out: &mut W) -> Result<(), WriteError> {
        out.write_arg(self.0.as_slice())
    }
}

impl ToSingleRedisArg for RawBytes {
    ghost single = { λ _. refl };
}
