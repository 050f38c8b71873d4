//! The source of records.
ghost use Rattle.std.specs.Prelude.{◌≡◌, ◌≤◌, ℕ, List, Option, IfOk, IfSome, drop, length, map, take};
ghost use Rattle.worker_producer.specs.Records.{fields_of};

use std::alloc::Global;
use thiserror::Error;

/// A field of a record: its name and its value.
pub type Field = (Vec<u8>, Vec<u8>);

/// A record: its fields in order. A server refuses an entry without fields.
pub type Record = Vec<Field>;

/// A source could not read its records. The source keeps the cause.
#[derive(Clone, Copy, Debug, PartialEq, Eq, Error)]
#[error("the records could not be read")]
pub struct NotRead;

/// Records that can be read again from a number on, as lines of a file can.
pub trait Source {
    /// All records in order, each as its names and values, if they are known: no contract can give the content of a
    /// file.
    ghost records: { Self → Option (List (List (List ℕ × List ℕ))) };

    /// Returns the records after the first `behind` ones, in order, at most `most` of them; an empty list if there are
    /// none.
    fn read(&mut self, alloc: Global, behind: u64, most: usize) -> Result<Vec<Record>, NotRead>
        ensures ok { IfOk result (λ rs. IfSome (records self.old) (λ all. map fields_of rs.items
            ≡ take most (drop behind all))) }
        ensures most { IfOk result (λ rs. length rs.items ≤ most) }
        ensures same { records self.new ≡ records self.old };

    /// Announces the next `read`. `Producer::round` calls it while the records before these are on the way, so that a
    /// source can read ahead; it need not do anything. `fill` calls `read` itself at that time.
    fn read_ahead(&mut self, alloc: Global, behind: u64, most: usize)
        ensures { records self.new ≡ records self.old };
}
