//! Values that are written as a list of arguments.
ghost use Rattle.std.specs.Prelude.{◌≡◌, ℕ, List, map, length, IfOk};
ghost use Rattle.redis_args.specs.Writer.{Wrote};

use crate::writer::{RedisWrite, WriteError};
use std::alloc::{AllocError, Global};

/// A value that is written as a list of arguments of a command.
///
/// ```text
/// struct Flag(bool);
///
/// impl ToRedisArgs for Flag {
///     ghost args = { λ flag. (if flag.0 then codes "yes" else codes "no") ∷ [] };
///
///     fn write_redis_args<W: RedisWrite>(&self, out: &mut W) -> Result<(), WriteError> {
///         if self.0 { out.write_arg(b"yes") } else { out.write_arg(b"no") }
///     }
/// }
/// ```
pub trait ToRedisArgs {
    /// The list of arguments of a value.
    ghost args: { Self → List (List ℕ) };

    /// Appends the arguments of this value to the writer.
    ///
    /// If the writer refuses one of them, returns its error. The writer then holds the arguments
    /// before that one, each whole, and nothing of the rest.
    fn write_redis_args<W: RedisWrite>(&self, out: &mut W) -> Result<(), WriteError>
        ensures { Wrote result (W.written out.old) (args self.now) (W.written out.new)
            (W.may_refuse out.new) };

    /// Returns the arguments of this value as a list on the heap. It fails only if it runs out of
    /// memory.
    fn to_redis_args(&self, alloc: Global) -> Result<Vec<Vec<u8>>, AllocError>
        ensures { IfOk result (λ list. map (λ arg. arg.items) list.items ≡ args self.now) }
    {
        let mut out = Vec::new(alloc);
        match self.write_redis_args(&mut out) {
            Ok(()) => Ok(out),
            Err(WriteError::Memory) => Err(AllocError),
            Err(WriteError::Full) => unreachable!(),
        }
    }
}

/// A value that is written as exactly one argument.
pub trait ToSingleRedisArg: ToRedisArgs {
    /// The list of arguments of each value has one element.
    ghost single: { (x : Self) → length (Self.args x) ≡ 1 };
}
