//! Why the program failed.
ghost use Rattle.stream_run.specs.Failures.{IsOfChild};

use anyhow::Error;
use std::alloc::AllocError;
use std::io;
use thiserror::Error as AnError;
use worker::RunError;
use worker::dead_letters::SearchError;
use worker::outbox::OutboxError;

/// Why the program failed.
#[derive(Debug, Drop, AnError)]
pub enum Failure {
    /// The child sent no valid reply.
    #[error("{0}")]
    Child(Error),
    /// The pipes of the child could not be opened.
    #[error("cannot open the pipes of the other program: {0}")]
    Unopened(io::Error),
    /// A round failed.
    #[error("{0}")]
    Round(RunError),
    /// The search for dead letters failed.
    #[error("{0}")]
    Search(SearchError),
    /// An entry of a reply could not be added to its stream.
    #[error("cannot add an entry: {0}")]
    Outbox(OutboxError),
    /// Standard error failed, memory ran out, or the program could not start.
    #[error("{0}")]
    Other(Error),
}

impl From<Error> for Failure {
    ghost from_gives = { λ _ failure. IsOfChild failure → ⊥ };

    fn from(error: Error) -> Failure {
        Failure::Other(error)
    }
}

impl From<AllocError> for Failure {
    ghost from_gives = { λ _ failure. IsOfChild failure → ⊥ };

    fn from(error: AllocError) -> Failure {
        Failure::Other(Error::from(error))
    }
}
