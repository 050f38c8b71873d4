//! The jobs that the arguments select.
ghost use Rattle.std.specs.Prelude.{◌≡◌, Some, None, IfOk, IfErr};
ghost use Rattle.test_costs.specs.Job.{job_of, number_of, operation_named, way_named};

use thiserror::Error;

/// The operation that is measured.
#[derive(Clone, Copy, Debug, PartialEq)]
pub enum Operation {
    /// A range of entries of five fields is read.
    Range,
    /// A range of entries of one field is read.
    RangeOfOneField,
    /// A reply of XREAD with one stream is read, in the standard form, with entries of five fields.
    Read,
    /// A reply of XREAD with one stream is read, in the claim form, with entries of five fields.
    ReadWithClaim,
    /// A reply of XAUTOCLAIM with entries of five fields is read.
    Autoclaim,
    /// A reply of XAUTOCLAIM with JUSTID is read.
    AutoclaimOfIds,
    /// The pending entries of a range are read.
    Pending,
    /// A table of texts and numbers is read.
    Table,
    /// The arguments of XADD are written with all its options.
    Add,
}

impl Operation {
    /// Returns the operation of this name.
    pub fn named(name: &str) -> Option<Operation>
        ensures { result ≡ operation_named name.now }
    {
        match name {
            "range" => Some(Operation::Range),
            "range-of-one-field" => Some(Operation::RangeOfOneField),
            "read" => Some(Operation::Read),
            "read-with-claim" => Some(Operation::ReadWithClaim),
            "autoclaim" => Some(Operation::Autoclaim),
            "autoclaim-of-ids" => Some(Operation::AutoclaimOfIds),
            "pending" => Some(Operation::Pending),
            "table" => Some(Operation::Table),
            "add" => Some(Operation::Add),
            _ => None,
        }
    }
}

/// How the operation is done.
#[derive(Clone, Copy, Debug, PartialEq)]
pub enum Way {
    /// The value is copied, and the copy dropped: nothing is read. Of `Add`, the options are made.
    Copied,
    /// It is copied, the copy is read by value, and the record dropped. Of `Add`, a list is made.
    Owned,
    /// It is read by reference, and the record dropped. Of `Add`, a list with room is written.
    Borrowed,
}

impl Way {
    /// Returns the way of this name.
    pub fn named(name: &str) -> Option<Way>
        ensures { result ≡ way_named name.now }
    {
        match name {
            "copied" => Some(Way::Copied),
            "owned" => Some(Way::Owned),
            "borrowed" => Some(Way::Borrowed),
            _ => None,
        }
    }
}

/// An operation that is repeated.
#[derive(Clone, Copy, Debug, PartialEq)]
pub struct Job {
    pub operation: Operation,
    pub way: Way,
    /// The number of repetitions.
    pub count: usize,
    /// The rows of the reply that is read.
    pub rows: usize,
}

/// Why the words name no job.
#[derive(Debug, PartialEq, Drop, Error)]
pub enum JobError {
    #[error("wanted: OPERATION WAY COUNT ROWS, or READING COUNT ENTRIES array|map")]
    WrongArguments,
    #[error("no such operation")]
    UnknownOperation,
    #[error("no such way: copied, owned or borrowed")]
    UnknownWay,
    #[error("COUNT and ROWS are numbers")]
    NotNumber,
}

/// Parses a word as a decimal number. Returns `None` if it does not fit 64 bits.
fn number_in(word: &str) -> Option<usize>
    ensures { result ≡ number_of word.now }
{
    word.parse().ok()
}

impl Job {
    /// Returns the job that the four words name. The first of them that names nothing is the error.
    pub fn of_words(operation: &str, way: &str, count: &str, rows: &str) -> Result<Job, JobError>
        ensures ok { IfOk result (λ job.
            job_of operation.now way.now count.now rows.now ≡ Some job) }
        ensures err { IfErr result (λ _.
            job_of operation.now way.now count.now rows.now ≡ None) }
    {
        let Some(operation) = Operation::named(operation) else {
            return Err(JobError::UnknownOperation);
        };
        let Some(way) = Way::named(way) else {
            return Err(JobError::UnknownWay);
        };
        let (Some(count), Some(rows)) = (number_in(count), number_in(rows)) else {
            return Err(JobError::NotNumber);
        };
        Ok(Job {
            operation,
            way,
            count,
            rows,
        })
    }
}
