//! Why rows were not inserted.
ghost use Rattle.std.specs.Prelude.{◌≡◌};
ghost use Rattle.worker_table.specs.declared.row_table.error.TableError.TheVariants.{Memory};

use std::alloc::{AllocError, AllocFailed};
use thiserror::Error;

/// Why rows were not inserted.
#[derive(Clone, Copy, Debug, PartialEq, Eq, Drop, Error)]
pub enum TableError {
    /// Out of memory.
    #[error("out of memory")]
    Memory,
    /// A row with this key exists, with other values.
    #[error("a row of the key {first}-{second} is there with other fields")]
    OtherText { first: u64, second: u64 },
    /// A number of this key is at least 2^63.
    #[error("the key {first}-{second} is too large for the table")]
    KeyTooLarge { first: u64, second: u64 },
    /// The database refused the operation, for this reason.
    #[error("{0}")]
    Refused(&'static str),
}

impl From<AllocError> for TableError {
    ghost from_gives = { λ _ error. error ≡ Memory };

    fn from(_error: AllocError) -> TableError {
        TableError::Memory
    }
}

impl<T: Drop> From<AllocFailed<T>> for TableError {
    ghost from_gives = { λ _ error. error ≡ Memory };

    fn from(_error: AllocFailed<T>) -> TableError {
        TableError::Memory
    }
}
