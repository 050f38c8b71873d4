//! Work that adds the ids of the entries that were done to another stream.
ghost use Rattle.std.specs.Prelude.{◌≡◌, [], ◌∷◌, codes, false};
ghost use Rattle.redis_wire.specs.Packed.{command_bytes};
ghost use Rattle.worker.specs.Outbox.Posts.{if_done};

use std::alloc::Global;
use worker::outbox::{Outbox, Work};
use worker::{EntryRef, NotCommitted, Verdict};

/// Adds the id of each entry to the stream `out`. An entry with a field `leave` is left pending.
#[derive(Drop)]
pub struct IdPoster {
    /// How many times it committed.
    pub commits: u32,
    /// Whether memory ran out.
    pub ran_out: bool,
}

impl IdPoster {
    /// Returns work that was given no entry.
    pub fn new() -> IdPoster
        ensures commits { result.commits ≡ 0 }
        ensures ran_out { result.ran_out ≡ false }
    {
        IdPoster {
            commits: 0,
            ran_out: false,
        }
    }
}

impl Work for IdPoster {
    ghost History = { Unit {0} };

    ghost with_verdict = { λ history e verdict. history };

    ghost with_commit = { λ history. history };

    ghost history = { λ work. tt };

    ghost posts = { λ history e verdict. if_done verdict
        (command_bytes (codes "XADD" ∷ codes "out" ∷ codes "*" ∷ codes "of" ∷ e.0 ∷ []) ∷ []) };

    fn handle(&mut self, alloc: Global, entry: &EntryRef<'_>, outbox: &mut Outbox) -> Verdict {
        let before = outbox.len();
        if outbox
            .push(alloc, &("XADD", "out", "*", ("of", entry.id())))
            .is_err()
        {
            self.ran_out = true;
            return Verdict::Stop;
        }
        if entry.get(b"leave").is_some() {
            outbox.truncate(before);
            return Verdict::LeavePending;
        }
        Verdict::Done
    }

    fn commit(&mut self, _alloc: Global) -> Result<(), NotCommitted> {
        self.commits = self.commits.saturating_add(1);
        Ok(())
    }
}
