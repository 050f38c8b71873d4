//! A handler that keeps its entries.
ghost use Rattle.std.specs.Prelude.{◌≡◌, []};
ghost use Rattle.worker.specs.Gathered.{Doings, committed_too, done_too, pairs_of};

use crate::handler::{Handler, NotCommitted, Verdict};
use std::alloc::Global;
use stream_in_place::{EntryRef, SentRow};

/// Keeps a copy of each entry, and returns `Stop` if there is no memory for the copy.
#[derive(Debug, Drop)]
pub struct Gathered {
    /// The entries that are not committed yet.
    pub loose: Vec<SentRow>,
    /// The entries that were committed.
    pub committed: Vec<SentRow>,
}

impl Gathered {
    /// Nothing is known yet.
    pub fn new(alloc: Global) -> Gathered
        ensures loose { result.loose.items ≡ [] }
        ensures committed { result.committed.items ≡ [] }
    {
        Gathered {
            loose: Vec::new(alloc),
            committed: Vec::new(alloc),
        }
    }
}

impl Handler for Gathered {
    ghost History = { Doings };

    ghost with_verdict = { done_too };

    ghost with_commit = { committed_too };

    ghost history = { λ h. record { loose = pairs_of h.loose; committed = pairs_of h.committed } };

    fn handle(&mut self, alloc: Global, entry: &EntryRef<'_>) -> Verdict {
        let Ok(copy) = entry.to_row(alloc) else {
            return Verdict::Stop;
        };
        match self.loose.push(copy) {
            Ok(()) => Verdict::Done,
            Err(_) => Verdict::Stop,
        }
    }

    fn commit(&mut self, _alloc: Global) -> Result<(), NotCommitted> {
        match self.committed.append(&mut self.loose) {
            Ok(()) => Ok(()),
            Err(_) => Err(NotCommitted),
        }
    }
}
