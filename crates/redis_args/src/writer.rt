//! Writers, which receive arguments.
ghost use Rattle.std.specs.Prelude.{◌≡◌, ◌↔◌, ◌≤◌, ◌+◌, ℕ, List, [], ◌∷◌, map, max, OnErr, vec_capacity, vec_len};
ghost use Rattle.redis_args.specs.Writer.{Wrote};
ghost use Rattle.redis_args.specs.declared.writer.WriteError.{WriteError};
ghost use Rattle.redis_args.specs.declared.writer.WriteError.TheVariants.{Memory};

use std::alloc::{AllocError, AllocFailed};

/// Why a writer refused an argument.
#[derive(Clone, Copy, Debug, PartialEq, Eq)]
pub enum WriteError {
    /// The memory for the argument could not be allocated.
    Memory,
    /// A writer of a fixed size has no room for the argument.
    Full,
}

impl From<AllocError> for WriteError {
    ghost from_gives = { λ _ e. e ≡ Memory };

    fn from(_error: AllocError) -> WriteError {
        WriteError::Memory
    }
}

impl<T: Drop> From<AllocFailed<T>> for WriteError {
    ghost from_gives = { λ _ e. e ≡ Memory };

    fn from(_error: AllocFailed<T>) -> WriteError {
        WriteError::Memory
    }
}

/// A writer that receives the arguments of commands, one after the other.
///
/// A writer of your own specifies which arguments it holds and which it may refuse, with which
/// error. Every value of this crate then keeps its contract with it.
pub trait RedisWrite {
    /// The arguments written so far, in order.
    ghost written: { Self → List (List ℕ) };

    /// In its present state the writer may refuse this argument with this error.
    ghost may_refuse: { Self → List ℕ → WriteError → Type 0 };

    /// Appends one argument.
    ///
    /// Returns an Err only if the writer may refuse this argument with this error. An Err changes
    /// neither the arguments held nor those that the writer may refuse.
    fn write_arg(&mut self, arg: &[u8]) -> Result<(), WriteError>
        ensures wrote { Wrote result (written self.old) (arg.now ∷ []) (written self.new)
            (may_refuse self.new) }
        ensures same { OnErr result ((a : List ℕ) (e : WriteError)
            → may_refuse self.new a e ↔ may_refuse self.old a e) };
}

/// A list on the heap may refuse any argument, but only with `Memory`.
impl RedisWrite for Vec<Vec<u8>> {
    ghost written = { λ list. map (λ arg. arg.items) list.items };

    ghost may_refuse = { λ _ _ e. e ≡ Memory };

    fn write_arg(&mut self, arg: &[u8]) -> Result<(), WriteError> {
        let alloc = *self.allocator();
        make_room(self)?;
        let copy = Vec::from_slice(alloc, arg)?;
        self.push(copy)?;
        Ok(())
    }
}

// The capacity reserved by a list that has none: the usual number of arguments of a command.
const USUAL_COUNT: usize = 16;

/// Reserves a capacity of 16 for a list that has none.
fn make_room(list: &mut Vec<Vec<u8>>) -> Result<(), AllocError>
    ensures items { list.new.items ≡ list.old.items }
    ensures bound { vec_capacity list.new ≤ max (vec_capacity list.old) (vec_len list.old + 16) }
{
    if list.capacity() == 0 {
        list.reserve_exact(USUAL_COUNT)
    } else {
        Ok(())
    }
}
