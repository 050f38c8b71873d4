//! A writer of a fixed size, which allocates no memory.
ghost use Rattle.std.specs.Prelude.{◌≡◌, ◌<◌, ◌≤◌, ◌↔◌, ℕ, List, [], ◌∷◌, length};
ghost use Rattle.std.specs.Prelude.{OnErr, IsErr, MatchOption, slice_get, slice_index};
ghost use Rattle.redis_args.specs.declared.writer.WriteError.{WriteError};
ghost use Rattle.redis_args.specs.Writer.{Wrote};
ghost use Rattle.redis_args.specs.Room.{LacksRoom, MayRefuse};

use crate::writer::{RedisWrite, WriteError};
use arrayvec::ArrayVec;
use std::marker::Model;

/// A buffer of a fixed size for arguments: at most `N` of them, with at most `B` bytes in all.
///
/// It refuses an argument that it has no room for, with `Full`, and no other. A contract sees it as
/// the list of the arguments that it holds.
#[derive(Drop)]
pub struct FixedArgs<const N: usize, const B: usize> {
    bytes: ArrayVec<u8, B>,
    // the offset in `bytes` where each argument ends
    ends: ArrayVec<usize, N>,
}

impl<const N: usize, const B: usize> Model for FixedArgs<N, B> {
    ghost use Rattle.std.specs.Prelude.{List, ℕ, length};
    ghost use Rattle.redis_args.specs.FixedArgs.{pieces, AreEnds};

    ghost Value = { List (List ℕ) };

    ghost view = { λ fixed. pieces 0 fixed.bytes.items fixed.ends.items };

    ghost invariant = { λ fixed. AreEnds 0 fixed.ends.items (length fixed.bytes.items) };
}

#[tactic(auto, using(crate::proofs::FixedArgsLemmas::facts))]
impl<const N: usize, const B: usize> FixedArgs<N, B> {
    /// Returns a writer with no arguments.
    pub fn new() -> Self
        ensures { result ≡ [] }
    {
        FixedArgs {
            bytes: ArrayVec::new(),
            ends: ArrayVec::new(),
        }
    }

    /// Returns the number of arguments.
    pub fn len(&self) -> usize
        ensures { result ≡ length self.now }
    {
        self.ends.len()
    }

    /// Returns the argument at `index`, counted from 0, or `None` if `index` is past the last one.
    pub fn get(&self, index: usize) -> Option<&[u8]>
        ensures { MatchOption result (length self.now ≤ index)
            (λ arg. slice_get self.now index ≡ Some arg.now) }
    {
        if index >= self.ends.len() {
            return None;
        }
        let start = start_of(self.ends.as_slice(), index);
        let end = self.ends[index];
        Some(&self.bytes.as_slice()[start..end])
    }
}

#[tactic(auto, using(crate::proofs::FixedArgsLemmas::facts))]
impl<const N: usize, const B: usize> RedisWrite for FixedArgs<N, B> {
    ghost written = { λ fixed. fixed };

    ghost may_refuse = { MayRefuse N B };

    fn write_arg(&mut self, arg: &[u8]) -> Result<(), WriteError>
        ensures exact { IsErr result ↔ LacksRoom N B self.old arg.now }
        ensures wrote { Wrote result self.old (arg.now ∷ []) self.new (MayRefuse N B self.new) }
        ensures same { OnErr result ((a : List ℕ) (e : WriteError)
            → MayRefuse N B self.new a e ↔ MayRefuse N B self.old a e) }
    {
        if self.ends.is_full() || arg.len() > self.bytes.remaining_capacity() {
            return Err(WriteError::Full);
        }
        let _ = self.bytes.try_extend_from_slice(arg);
        self.ends.push(self.bytes.len());
        Ok(())
    }
}

/// Returns the offset where the argument at `index` starts: the end of the one before it.
#[tactic(auto, using(crate::proofs::FixedArgsLemmas::item_before))]
fn start_of(ends: &[usize], index: usize) -> usize
    requires { index < length ends.now }
    ensures { result ≡ slice_index (0 ∷ ends.now) index }
{
    if index == 0 { 0 } else { ends[index - 1] }
}
