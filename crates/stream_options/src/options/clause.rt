//! The clauses of options, as values that can be written.
ghost use Rattle.std.specs.Prelude.{◌∷◌};
ghost use Rattle.redis_args.specs.Clause.{clause, flag};

use redis_args::{RedisWrite, ToRedisArgs, WriteError};

/// `[word value]`: the word and the arguments of the value, or nothing if no value is set.
#[derive(Drop)]
pub(crate) struct ValueClause<'a, T>(pub &'a str, pub &'a Option<T>);

impl<'a, T: ToRedisArgs> ToRedisArgs for ValueClause<'a, T> {
    ghost args = { λ part. clause (λ value. part.0.now ∷ T.args value) part.1.now };

    fn write_redis_args<W: RedisWrite>(&self, out: &mut W) -> Result<(), WriteError> {
        match self.1 {
            Some(value) => (self.0, value).write_redis_args(out),
            None => Ok(()),
        }
    }
}

/// `[word]`: the word if it is set, or nothing.
#[derive(Drop)]
pub(crate) struct FlagClause<'a>(pub &'a str, pub bool);

impl<'a> ToRedisArgs for FlagClause<'a> {
    ghost args = { λ part. flag part.0.now part.1 };

    fn write_redis_args<W: RedisWrite>(&self, out: &mut W) -> Result<(), WriteError> {
        if self.1 {
            self.0.write_redis_args(out)
        } else {
            Ok(())
        }
    }
}
