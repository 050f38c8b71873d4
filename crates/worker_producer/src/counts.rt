//! What `fill` counts.
ghost use Rattle.std.specs.Prelude.{◌≡◌, ℕ};

use crate::stage::{Asked, Stage};
use std::fmt;

/// Counts of the records and batches of `fill`, as a line of text.
#[derive(Clone, Copy)]
pub struct Counts {
    /// How many records are in the stream.
    known: u64,
    /// How many of them were in it before.
    there: u64,
    batches: u64,
}

impl Counts {
    /// All counts at 0.
    pub fn new() -> Counts
        ensures { result ≡ record { known = 0; there = 0; batches = 0 } }
    {
        Counts {
            known: 0,
            there: 0,
            batches: 0,
        }
    }

    /// Counts after a round with this command, which ended in this stage.
    pub fn take(&mut self, asked: Asked, stage: Stage)
        ensures known { (n : ℕ) → stage ≡ Stage.Knows n → self.new.known ≡ n }
    {
        let Stage::Knows(known) = stage else {
            return;
        };
        self.known = known;
        match asked {
            Asked::LastId => self.there = known,
            Asked::Records => self.batches = self.batches.saturating_add(1),
            Asked::Nothing => {}
        }
    }
}

impl fmt::Display for Counts {
    fn fmt<W: fmt::Write>(&self, f: &mut fmt::Formatter<W>) -> fmt::Result {
        let (batches, there) = (self.batches, self.there);
        let added = self.known.saturating_sub(there);
        let records = if added == 1 { "record" } else { "records" };
        let batch = if batches == 1 { "batch" } else { "batches" };
        let were = if there == 1 { "was" } else { "were" };
        write!(
            f,
            "{added} {records} in {batches} {batch}, {there} {were} there"
        )
    }
}
