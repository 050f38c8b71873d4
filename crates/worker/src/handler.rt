//! The handler of a worker's entries.
ghost use Rattle.std.specs.Prelude.{◌≡◌, ℕ, IsErr, List, OnErr, OnOk};
ghost use Rattle.model_server.specs.Group.Worker as machine;
ghost use Rattle.stream_in_place.specs.Sent.{Pairs};
ghost use Rattle.worker.specs.Handling.{pair_of, verdict_of};

use std::alloc::Global;
use stream_in_place::EntryRef;
use thiserror::Error;

/// What a handler returns for an entry.
#[derive(Clone, Copy, Debug, PartialEq, Eq)]
pub enum Verdict {
    /// The entry is done: it is acknowledged after the next commit.
    Done,
    /// The entry stays pending, and the worker goes on with the next one.
    LeavePending,
    /// The entry stays pending, and the worker passes no further entry of this reply to the handler.
    Stop,
}

/// A handler's commit failed. The handler keeps the cause.
#[derive(Clone, Copy, Debug, PartialEq, Eq, Error)]
#[error("what was done could not be committed")]
pub struct NotCommitted;

/// The handler of a worker's entries.
///
/// A `History` is a record of the handler's calls. If `History` is a list to which `with_verdict` and
/// `with_commit` append, it has every entry with its verdict and every commit, in order.
pub trait Handler {
    ghost History: { Type 0 };

    /// The history after one more verdict.
    ghost with_verdict: { History → List ℕ × Pairs → machine.Verdict → History };

    /// The history after one more commit.
    ghost with_commit: { History → History };

    /// The history so far.
    ghost history: { Self → History };

    /// The relation between the handler before a failed commit and the handler after it.
    ghost commit_failed: { Self → Self → Type 0 } = { λ _ _. Unit {0} };

    /// Handles an entry: its id and its fields in order, as the server sent them.
    fn handle(&mut self, alloc: Global, entry: &EntryRef<'_>) -> Verdict
        ensures { history self.new ≡ with_verdict (history self.old)
            (pair_of entry.now) (verdict_of result) };

    /// Makes all its work durable, including work of an earlier commit that failed. This is called before each
    /// acknowledgement, once for a batch of entries. An entry that is not committed is not acknowledged.
    fn commit(&mut self, alloc: Global) -> Result<(), NotCommitted>
        ensures ok { OnOk result (history self.new ≡ with_commit (history self.old)) }
        ensures err { OnErr result (history self.new ≡ history self.old) }
        ensures failed { IsErr result → commit_failed self.old self.new };
}
