//! Numbers as arguments: in decimal, with no leading zeros, and with `-` before a negative one. A
//! boolean is `1` for true and `0` for false.
ghost use Rattle.std.specs.Prelude.{[], ◌∷◌, codes, decimal, refl, if◌then◌else◌};
ghost use Rattle.std.specs.Fmt.{signed_decimal};

use crate::to_redis_args::{ToRedisArgs, ToSingleRedisArg};
use crate::writer::{RedisWrite, WriteError};
use itoa::Buffer;

impl ToRedisArgs for u16 {
    ghost args = { λ n. decimal n ∷ [] };

    fn write_redis_args<W: RedisWrite>(&self, out: &mut W) -> Result<(), WriteError> {
        out.write_arg(Buffer::new().format::<u16>(*self).as_bytes())
    }
}

impl ToSingleRedisArg for u16 {
    ghost single = { λ _. refl };
}

impl ToRedisArgs for u32 {
    ghost args = { λ n. decimal n ∷ [] };

    fn write_redis_args<W: RedisWrite>(&self, out: &mut W) -> Result<(), WriteError> {
        out.write_arg(Buffer::new().format::<u32>(*self).as_bytes())
    }
}

impl ToSingleRedisArg for u32 {
    ghost single = { λ _. refl };
}

impl ToRedisArgs for u64 {
    ghost args = { λ n. decimal n ∷ [] };

    fn write_redis_args<W: RedisWrite>(&self, out: &mut W) -> Result<(), WriteError> {
        out.write_arg(Buffer::new().format::<u64>(*self).as_bytes())
    }
}

impl ToSingleRedisArg for u64 {
    ghost single = { λ _. refl };
}

impl ToRedisArgs for usize {
    ghost args = { λ n. decimal n ∷ [] };

    fn write_redis_args<W: RedisWrite>(&self, out: &mut W) -> Result<(), WriteError> {
        out.write_arg(Buffer::new().format::<usize>(*self).as_bytes())
    }
}

impl ToSingleRedisArg for usize {
    ghost single = { λ _. refl };
}

impl ToRedisArgs for i64 {
    ghost args = { λ n. signed_decimal n ∷ [] };

    fn write_redis_args<W: RedisWrite>(&self, out: &mut W) -> Result<(), WriteError> {
        out.write_arg(Buffer::new().format::<i64>(*self).as_bytes())
    }
}

impl ToSingleRedisArg for i64 {
    ghost single = { λ _. refl };
}

impl ToRedisArgs for i32 {
    ghost args = { λ n. signed_decimal n ∷ [] };

    fn write_redis_args<W: RedisWrite>(&self, out: &mut W) -> Result<(), WriteError> {
        out.write_arg(Buffer::new().format::<i32>(*self).as_bytes())
    }
}

impl ToSingleRedisArg for i32 {
    ghost single = { λ _. refl };
}

impl ToRedisArgs for isize {
    ghost args = { λ n. signed_decimal n ∷ [] };

    fn write_redis_args<W: RedisWrite>(&self, out: &mut W) -> Result<(), WriteError> {
        out.write_arg(Buffer::new().format::<isize>(*self).as_bytes())
    }
}

impl ToSingleRedisArg for isize {
    ghost single = { λ _. refl };
}

impl ToRedisArgs for bool {
    ghost args = { λ flag. (if flag then codes "1" else codes "0") ∷ [] };

    fn write_redis_args<W: RedisWrite>(&self, out: &mut W) -> Result<(), WriteError> {
        if *self {
            out.write_arg(b"1")
        } else {
            out.write_arg(b"0")
        }
    }
}

impl ToSingleRedisArg for bool {
    ghost single = { λ _. refl };
}
