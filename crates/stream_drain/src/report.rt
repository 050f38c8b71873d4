//! The progress that the program prints on standard error.
ghost use Rattle.std.specs.Prelude.{◌≡◌, false, true, IsTrue, None, Ok, OnOk, Some};
ghost use Rattle.command_lines.specs.Counts.{counts_text};

use crate::backlog::Watched;
use anyhow::Result;
use command_lines::Counts;
use std::rt::Clock;
use std::time::{Duration, Instant};
use std::{fmt, mem};

/// The counts, which are shown at the end. Unless the program is quiet, they are also shown with the first
/// batch, and then once a second.
#[derive(Drop)]
pub struct Report {
    /// The time at which the counts were shown last.
    shown: Option<Instant>,
    /// The numbers of entries, batches and dead letters.
    pub counts: Counts,
    /// Whether the first acknowledgement is of entries that were in the file at the start. Such an
    /// acknowledgement does not count as a batch.
    pub resumes: bool,
    /// Whether nothing is shown before the end.
    quiet: bool,
    /// The group whose backlog is shown with the counts. `None` if the program is quiet, or if the server does
    /// not return the backlog.
    pub watched: Option<Watched>,
}

impl Report {
    /// Creates a report with all counts at 0.
    pub fn new(quiet: bool) -> Report
        ensures counts { (result.counts.entries ≡ 0) × (result.counts.batches ≡ 0)
            × (result.counts.letters ≡ None) × (result.resumes ≡ false) }
        ensures quiet { result.quiet ≡ quiet }
    {
        Report {
            shown: None,
            counts: Counts::new(),
            resumes: false,
            quiet,
            watched: None,
        }
    }

    /// Whether it is time to show the counts. Always false if the program is quiet.
    pub fn is_due<R: Clock>(&self, rt: &R) -> bool
        ensures quiet { IsTrue self.now.quiet → result ≡ false }
        ensures first { self.now.quiet ≡ false → self.now.shown ≡ None → result ≡ true }
    {
        if self.quiet {
            return false;
        }
        match &self.shown {
            Some(shown) => is_second_ago(rt, shown),
            None => true,
        }
    }

    /// Records the number of entries in the file after the reply to an acknowledgement. Returns whether it is
    /// time to show the counts, which is always false if the program is quiet.
    pub fn count<R: Clock>(&mut self, rt: &R, entries: u64) -> Result<bool>
        ensures counts { OnOk result (self.new.counts.entries ≡ entries) }
        ensures quiet { IsTrue self.old.quiet → result ≡ Ok false }
    {
        if mem::replace(&mut self.resumes, false) {
            self.counts.entries = entries;
            return Ok(false);
        }
        self.counts.count(entries);
        if !self.is_due(rt) {
            return Ok(false);
        }
        self.shown = Some(Instant::now(rt)?);
        Ok(true)
    }
}

/// Whether `moment` was at least a second ago. Returns false if the clock cannot be read.
fn is_second_ago<R: Clock>(rt: &R, moment: &Instant) -> bool {
    match moment.elapsed(rt) {
        Ok(elapsed) => Duration::from_secs(1) <= elapsed,
        Err(_) => false,
    }
}

impl fmt::Display for Report {
    ghost output = { λ r. Some (counts_text r.counts.entries r.counts.batches r.counts.letters) };

    fn fmt<W: fmt::Write>(&self, f: &mut fmt::Formatter<W>) -> fmt::Result {
        self.counts.fmt(f)
    }
}
