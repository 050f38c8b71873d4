//! The progress that the program prints.
ghost use Rattle.std.specs.Prelude.{◌≡◌, None, Some};
ghost use Rattle.stream_run.specs.Report.{report_text};

use std::fmt;

/// The counts, which are shown at the end.
#[derive(Clone, Copy)]
pub struct Report {
    /// The number of entries that were done and committed.
    pub entries: u64,
    /// The number of batches with these entries.
    pub batches: u64,
    /// The number of replies that left an entry pending.
    pub left: u64,
    /// The number of dead letters that were sent. `None` if entries are not given up.
    pub letters: Option<u64>,
}

impl Report {
    /// Creates a report with all counts at 0.
    pub fn new() -> Report
        ensures { (result.entries ≡ 0) × (result.batches ≡ 0) × (result.left ≡ 0) × (result.letters ≡ None) }
    {
        Report {
            entries: 0,
            batches: 0,
            left: 0,
            letters: None,
        }
    }

    /// Counts a batch, and stores the number of entries that are done.
    pub fn count(&mut self, entries: u64)
        ensures { self.new.entries ≡ entries }
    {
        self.entries = entries;
        self.batches = self.batches.saturating_add(1);
    }
}

impl fmt::Display for Report {
    ghost output = { λ r. Some (report_text r.entries r.batches r.left r.letters) };

    fn fmt<W: fmt::Write>(&self, f: &mut fmt::Formatter<W>) -> fmt::Result {
        let Report {
            entries,
            batches,
            left,
            letters,
        } = *self;
        match letters {
            Some(letters) => write!(
                f,
                "done {entries}, batches {batches}, left pending {left}, dead letters {letters}"
            ),
            None => write!(f, "done {entries}, batches {batches}, left pending {left}"),
        }
    }
}
