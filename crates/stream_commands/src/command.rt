//! A whole command: its arguments, and the type of its reply.
ghost use Rattle.std.specs.Prelude.{◌≡◌, [], ◌∷◌, IfOk, IfErr, Some};
ghost use Rattle.redis_resp.specs.Refusal.{Refuses};
ghost use Rattle.redis_resp.specs.Value.{tree};
ghost use Rattle.redis_wire.specs.Record.{IsRecord};
ghost use Rattle.redis_wire.specs.Reply.{answer};

use redis_resp::{FromRedisValue, ParsingError, RedisWrite, ToRedisArgs, Value, WriteError};
use redis_wire::{Reply, ReplyError, from_reply};
use std::alloc::Global;
use std::marker::{Model, PhantomData};

/// A command whose arguments are those of an `A`, and whose reply is an `R`.
///
/// A contract sees it as its list of arguments, the name of the command first.
#[derive(Drop)]
pub struct Command<A: ToRedisArgs, R> {
    arguments: A,
    answer: PhantomData<R>,
}

impl<A: ToRedisArgs, R> Model for Command<A, R> {
    ghost use Rattle.std.specs.Prelude.{List, ℕ};

    ghost Value = { List (List ℕ) };

    ghost view = { λ command. A.args command.arguments };
}

impl<A: ToRedisArgs, R> ToRedisArgs for Command<A, R> {
    ghost args = { λ command. command };

    fn write_redis_args<W: RedisWrite>(&self, out: &mut W) -> Result<(), WriteError> {
        self.arguments.write_redis_args(out)
    }
}

impl<A: ToRedisArgs, R: FromRedisValue> Command<A, R> {
    /// The command of these arguments.
    pub fn new(arguments: A) -> Self
        ensures { result ≡ A.args arguments }
    {
        Command {
            arguments,
            answer: PhantomData,
        }
    }

    /// Parses the reply to this command as an `R`, and consumes it. The errors are those of `R`.
    pub fn read(&self, alloc: Global, v: Value) -> Result<R, ParsingError>
        ensures ok { IfOk result (λ r. R.reading (tree v) ≡ Some (R.meaning r)) }
        ensures err { IfErr result (Refuses R.reading R.may_refuse (tree v)) }
    {
        R::from_redis_value(alloc, v)
    }

    /// Parses the same from a borrowed value.
    pub fn read_ref(&self, alloc: Global, v: &Value) -> Result<R, ParsingError>
        ensures ok { IfOk result (λ r. R.reading (tree v.now) ≡ Some (R.meaning r)) }
        ensures err { IfErr result (Refuses R.reading R.may_refuse (tree v.now)) }
    {
        R::from_redis_value_ref(alloc, v)
    }

    /// Parses the reply to this command as an `R`, and consumes it. An error of the server is
    /// returned as such, whatever `R` is; so is the first error in an aggregate.
    pub fn read_reply(&self, alloc: Global, reply: Reply) -> Result<R, ReplyError>
        ensures { IsRecord R.reading R.may_refuse R.meaning (answer reply) result }
    {
        from_reply::<R>(alloc, reply)
    }
}

/// A fixed word of a command: its name, or a keyword.
#[derive(Debug, Drop)]
pub struct Word<'w>(pub &'w str);

impl<'w> ToRedisArgs for Word<'w> {
    ghost args = { λ word. word.0.now ∷ [] };

    fn write_redis_args<W: RedisWrite>(&self, out: &mut W) -> Result<(), WriteError> {
        self.0.write_redis_args(out)
    }
}
