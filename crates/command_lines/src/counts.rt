//! What a drain counts and shows on standard error.
ghost use Rattle.std.specs.Prelude.{◌≡◌, ◌+◌, min, None, Some};
ghost use Rattle.command_lines.specs.Counts.{counted, counts_text};

use std::fmt;

/// The counts of a drain, shown at its end.
#[derive(Clone, Copy)]
pub struct Counts {
    /// The number of entries that were drained.
    pub entries: u64,
    pub batches: u64,
    /// The number of dead letters that were sent. `None` if entries are not given up.
    pub letters: Option<u64>,
}

impl Counts {
    /// Returns counts of 0, without dead letters.
    pub fn new() -> Counts
        ensures { (result.entries ≡ 0) × (result.batches ≡ 0) × (result.letters ≡ None) }
    {
        Counts {
            entries: 0,
            batches: 0,
            letters: None,
        }
    }

    /// Counts one more batch. `entries` is the total number of entries drained after that batch.
    pub fn count(&mut self, entries: u64)
        ensures { self.new ≡ record self.old { entries = entries; batches = min (self.old.batches + 1) 18446744073709551615 } }
    {
        self.entries = entries;
        self.batches = self.batches.saturating_add(1);
    }
}

impl fmt::Display for Counts {
    ghost output = { λ r. Some (counts_text r.entries r.batches r.letters) };

    fn fmt<W: fmt::Write>(&self, f: &mut fmt::Formatter<W>) -> fmt::Result {
        let entries = Counted {
            number: self.entries,
            one: " entry",
            many: " entries",
        };
        let batches = Counted {
            number: self.batches,
            one: " batch",
            many: " batches",
        };
        match self.letters {
            Some(letters) => {
                let letters = Counted {
                    number: letters,
                    one: " dead letter",
                    many: " dead letters",
                };
                write!(f, "{entries} in {batches}, {letters}")
            }
            None => write!(f, "{entries} in {batches}"),
        }
    }
}

/// A number and its noun, in the singular or the plural.
#[derive(Clone, Copy)]
struct Counted {
    number: u64,
    one: &'static str,
    many: &'static str,
}

impl fmt::Display for Counted {
    ghost output = { λ c. Some (counted c.number c.one.now c.many.now) };

    fn fmt<W: fmt::Write>(&self, f: &mut fmt::Formatter<W>) -> fmt::Result {
        let Counted { number, one, many } = *self;
        if number == 1 {
            write!(f, "{number}{one}")
        } else {
            write!(f, "{number}{many}")
        }
    }
}
