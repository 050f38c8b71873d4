//! Errors of a child process.
ghost use Rattle.std.specs.Prelude.{◌≡◌};
ghost use Rattle.worker_jobs.specs.declared.fault.Fault.TheVariants.{Memory};

use std::alloc::{AllocError, AllocFailed};
use std::io;
use thiserror::Error;

/// Why a child sent no valid reply.
#[derive(Debug, Drop, Error)]
pub enum Fault {
    /// The line could not be written to the child.
    #[error("it takes no line: {0}")]
    Write(io::Error),
    /// The child's reply could not be read.
    #[error("its reply cannot be read: {0}")]
    Read(io::Error),
    /// The child's output ended before the end of a reply.
    #[error("its output ended before a reply")]
    Ended,
    /// The child's reply is longer than `LONGEST`.
    #[error("its reply is longer than 65536 bytes")]
    TooLong,
    /// The child's line is not one of the known replies.
    #[error("its reply is not done, later, dead or stop")]
    Unknown,
    /// The child wrote a line before an entry was sent to it.
    #[error("it wrote more than one line for the entry before")]
    Unasked,
    /// Memory ran out.
    #[error("out of memory")]
    Memory,
}

impl From<AllocError> for Fault {
    ghost from_gives = { λ _ fault. fault ≡ Memory };

    fn from(_error: AllocError) -> Fault {
        Fault::Memory
    }
}

impl<T: Drop> From<AllocFailed<T>> for Fault {
    ghost from_gives = { λ _ fault. fault ≡ Memory };

    fn from(_error: AllocFailed<T>) -> Fault {
        Fault::Memory
    }
}
