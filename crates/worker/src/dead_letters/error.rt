//! Errors of a search for dead letters.
ghost use Rattle.std.specs.Prelude.{◌≡◌};
ghost use Rattle.worker.specs.declared.dead_letters.error.SearchError.TheVariants as causes;
ghost use Rattle.worker.specs.declared.dead_letters.error.SearchSettingsError.TheVariants as refusals;

use crate::LetterError;
use redis_connection::{AskError, ConnectionError};
use std::alloc::AllocError;
use thiserror::Error;

/// Why the settings of a search were refused.
#[derive(Clone, Copy, Debug, PartialEq, Eq, Drop, Error)]
pub enum SearchSettingsError {
    /// The number of deliveries is 0: every pending entry was delivered at least once, so all would be given up.
    #[error("entries that were delivered 0 times are all entries")]
    NoDeliveries,
    /// The name of the dead-letter stream is empty.
    #[error("no stream of dead letters")]
    NoStream,
    /// The dead-letter stream is the stream that is read.
    #[error("the stream of dead letters is the stream itself")]
    SameStream,
    /// Out of memory.
    #[error("out of memory")]
    Memory,
}

impl From<AllocError> for SearchSettingsError {
    ghost from_gives = { λ _ error. error ≡ refusals.Memory };

    fn from(_error: AllocError) -> SearchSettingsError {
        SearchSettingsError::Memory
    }
}

/// Why a search for dead letters broke off. The claimed entries are pending for the consumer of the search. An
/// entry without a letter is not acknowledged. After `Ask` and `Connection` a reply may still arrive: close the
/// connection.
#[derive(Debug, Drop, Error)]
pub enum SearchError {
    /// XPENDING or XCLAIM returned an error or a reply of another kind, or no reply was received.
    #[error("{0}")]
    Ask(AskError),
    /// A letter or its acknowledgement was not sent, or no reply was received.
    #[error("{0}")]
    Connection(ConnectionError),
    /// The reply to a letter or to its acknowledgement is an error, or of another kind.
    #[error("{0}")]
    Letter(LetterError),
    /// XCLAIM returned another entry.
    #[error("the reply has another entry than the one that was claimed")]
    OtherEntry,
    /// The fields of an entry have a name without a value.
    #[error("an entry has a name of a field, and no value")]
    NoValue,
    /// The number of letters is at its maximum.
    #[error("the last letter came")]
    LastLetter,
    /// Out of memory.
    #[error("out of memory")]
    Memory,
}

impl From<AskError> for SearchError {
    ghost from_gives = { λ e error. error ≡ causes.Ask e };

    fn from(error: AskError) -> SearchError {
        SearchError::Ask(error)
    }
}

impl From<ConnectionError> for SearchError {
    ghost from_gives = { λ e error. error ≡ causes.Connection e };

    fn from(error: ConnectionError) -> SearchError {
        SearchError::Connection(error)
    }
}

impl From<LetterError> for SearchError {
    ghost from_gives = { λ e error. error ≡ causes.Letter e };

    fn from(error: LetterError) -> SearchError {
        SearchError::Letter(error)
    }
}

impl From<AllocError> for SearchError {
    ghost from_gives = { λ _ error. error ≡ causes.Memory };

    fn from(_error: AllocError) -> SearchError {
        SearchError::Memory
    }
}
