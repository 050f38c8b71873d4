//! Why lines are not in a file.
ghost use Rattle.std.specs.Prelude.{◌≡◌};
ghost use Rattle.worker_journal.specs.declared.error.LogError.TheVariants.{Memory};

use std::alloc::{AllocError, AllocFailed};
use std::io;
use thiserror::Error;

/// Why lines are not in a file.
#[derive(Debug, Drop, Error)]
pub enum LogError {
    /// Out of memory. Nothing was written.
    #[error("out of memory")]
    Memory,
    /// The system returned an error.
    #[error("{0}")]
    File(io::Error),
    /// The system could not sync the file. Bytes that were written may be lost, though a read returns them. A
    /// later sync does not report this.
    #[error("it could not be synced: {0}")]
    NotSynced(io::Error),
}

impl From<AllocError> for LogError {
    ghost from_gives = { λ _ error. error ≡ Memory };

    fn from(_error: AllocError) -> LogError {
        LogError::Memory
    }
}

impl<T: Drop> From<AllocFailed<T>> for LogError {
    ghost from_gives = { λ _ error. error ≡ Memory };

    fn from(_error: AllocFailed<T>) -> LogError {
        LogError::Memory
    }
}

impl From<io::Error> for LogError {
    ghost use Rattle.worker_journal.specs.declared.error.LogError.TheVariants.{File};

    ghost from_gives = { λ reason error. error ≡ File reason };

    fn from(error: io::Error) -> LogError {
        LogError::File(error)
    }
}
