//! Strings and bytes as arguments.
ghost use Rattle.std.specs.Prelude.{[], ◌∷◌, string_bytes, refl};

use crate::to_redis_args::{ToRedisArgs, ToSingleRedisArg};
use crate::writer::{RedisWrite, WriteError};

impl ToRedisArgs for String {
    ghost args = { λ text. string_bytes text ∷ [] };

    fn write_redis_args<W: RedisWrite>(&self, out: &mut W) -> Result<(), WriteError> {
        out.write_arg(self.as_str().as_bytes())
    }
}

impl ToSingleRedisArg for String {
    ghost single = { λ _. refl };
}

impl ToRedisArgs for &str {
    ghost args = { λ text. text.now ∷ [] };

    fn write_redis_args<W: RedisWrite>(&self, out: &mut W) -> Result<(), WriteError> {
        out.write_arg(self.as_bytes())
    }
}

impl ToSingleRedisArg for &str {
    ghost single = { λ _. refl };
}

/// Borrowed bytes are one argument, unchanged. They are not copied.
impl ToRedisArgs for &[u8] {
    ghost args = { λ bytes. bytes.now ∷ [] };

    fn write_redis_args<W: RedisWrite>(&self, out: &mut W) -> Result<(), WriteError> {
        out.write_arg(self)
    }
}

impl ToSingleRedisArg for &[u8] {
    ghost single = { λ _. refl };
}

/// Owned bytes are one argument too.
impl ToRedisArgs for Vec<u8> {
    ghost args = { λ bytes. bytes.items ∷ [] };

    fn write_redis_args<W: RedisWrite>(&self, out: &mut W) -> Result<(), WriteError> {
        out.write_arg(self)
    }
}

impl ToSingleRedisArg for Vec<u8> {
    ghost single = { λ _. refl };
}
