//! Tuples as arguments: the lists of their members, joined in order.
//!
//! The options of a command are written as one tuple, which reads like its syntax. A wider tuple is
//! written as a tuple of narrower ones, which has the same list of arguments.
ghost use Rattle.std.specs.Prelude.{◌++◌};

use crate::to_redis_args::ToRedisArgs;
use crate::writer::{RedisWrite, WriteError};

impl<A: ToRedisArgs, B: ToRedisArgs> ToRedisArgs for (A, B) {
    ghost args = { λ x. A.args x.0 ++ B.args x.1 };

    fn write_redis_args<W: RedisWrite>(&self, out: &mut W) -> Result<(), WriteError> {
        self.0.write_redis_args(out)?;
        self.1.write_redis_args(out)
    }
}

impl<A: ToRedisArgs, B: ToRedisArgs, C: ToRedisArgs> ToRedisArgs for (A, B, C) {
    ghost args = { λ x. A.args x.0 ++ (B.args x.1 ++ C.args x.2) };

    fn write_redis_args<W: RedisWrite>(&self, out: &mut W) -> Result<(), WriteError> {
        (&self.0, (&self.1, &self.2)).write_redis_args(out)
    }
}

impl<A: ToRedisArgs, B: ToRedisArgs, C: ToRedisArgs, D: ToRedisArgs> ToRedisArgs for (A, B, C, D) {
    ghost args = { λ x. A.args x.0 ++ (B.args x.1 ++ (C.args x.2 ++ D.args x.3)) };

    fn write_redis_args<W: RedisWrite>(&self, out: &mut W) -> Result<(), WriteError> {
        ((&self.0, &self.1), (&self.2, &self.3)).write_redis_args(out)
    }
}

impl<A: ToRedisArgs, B: ToRedisArgs, C: ToRedisArgs, D: ToRedisArgs, E: ToRedisArgs> ToRedisArgs
    for (A, B, C, D, E) {
    ghost args = { λ x. A.args x.0 ++ (B.args x.1 ++ (C.args x.2 ++ (D.args x.3 ++ E.args x.4))) };

    fn write_redis_args<W: RedisWrite>(&self, out: &mut W) -> Result<(), WriteError> {
        ((&self.0, &self.1), (&self.2, &self.3, &self.4)).write_redis_args(out)
    }
}

impl<
    A: ToRedisArgs,
    B: ToRedisArgs,
    C: ToRedisArgs,
    D: ToRedisArgs,
    E: ToRedisArgs,
    F: ToRedisArgs,
> ToRedisArgs for (A, B, C, D, E, F) {
    ghost args = { λ x. A.args x.0 ++ (B.args x.1 ++ (C.args x.2
        ++ (D.args x.3 ++ (E.args x.4 ++ F.args x.5)))) };

    fn write_redis_args<W: RedisWrite>(&self, out: &mut W) -> Result<(), WriteError> {
        ((&self.0, &self.1, &self.2), (&self.3, &self.4, &self.5)).write_redis_args(out)
    }
}

impl<
    A: ToRedisArgs,
    B: ToRedisArgs,
    C: ToRedisArgs,
    D: ToRedisArgs,
    E: ToRedisArgs,
    F: ToRedisArgs,
    G: ToRedisArgs,
> ToRedisArgs for (A, B, C, D, E, F, G) {
    ghost args = { λ x. A.args x.0 ++ (B.args x.1 ++ (C.args x.2
        ++ (D.args x.3 ++ (E.args x.4 ++ (F.args x.5 ++ G.args x.6))))) };

    fn write_redis_args<W: RedisWrite>(&self, out: &mut W) -> Result<(), WriteError> {
        (
            (&self.0, &self.1, &self.2),
            (&self.3, &self.4, &self.5, &self.6),
        )
            .write_redis_args(out)
    }
}

impl<
    A: ToRedisArgs,
    B: ToRedisArgs,
    C: ToRedisArgs,
    D: ToRedisArgs,
    E: ToRedisArgs,
    F: ToRedisArgs,
    G: ToRedisArgs,
    H: ToRedisArgs,
> ToRedisArgs for (A, B, C, D, E, F, G, H) {
    ghost args = { λ x. A.args x.0 ++ (B.args x.1 ++ (C.args x.2 ++ (D.args x.3
        ++ (E.args x.4 ++ (F.args x.5 ++ (G.args x.6 ++ H.args x.7)))))) };

    fn write_redis_args<W: RedisWrite>(&self, out: &mut W) -> Result<(), WriteError> {
        (
            (&self.0, &self.1, &self.2, &self.3),
            (&self.4, &self.5, &self.6, &self.7),
        )
            .write_redis_args(out)
    }
}
