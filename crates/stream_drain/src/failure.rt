//! Why the program failed.
use anyhow::Error;
use redis_connection::{AskError, ConfirmError};
use thiserror::Error as AnError;
use worker::RunError;
use worker::dead_letters::SearchError;

/// Why the program failed.
#[derive(Debug, Drop, AnError)]
pub enum Failure {
    /// A round failed.
    #[error("{0}")]
    Round(RunError),
    /// Fewer replicas than required confirmed a round.
    #[error("{0}")]
    Unconfirmed(ConfirmError),
    /// The search for dead letters failed.
    #[error("{0}")]
    Search(SearchError),
    /// The backlog of the group could not be read.
    #[error("{0}")]
    Ask(AskError),
    /// The file, the clock or standard error failed, or the program could not start.
    #[error("{0}")]
    Other(Error),
}

impl From<Error> for Failure {
    fn from(error: Error) -> Failure {
        Failure::Other(error)
    }
}
