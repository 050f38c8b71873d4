//! Errors of an outbox.
ghost use Rattle.std.specs.Prelude.{◌≡◌};
ghost use Rattle.worker.specs.declared.outbox.error.OutboxError.TheVariants as causes;
ghost use Rattle.worker.specs.declared.outbox.error.PostError.TheVariants as posts;

use crate::RunError;
use redis_connection::ConnectionError;
use redis_wire::ServerError;
use std::alloc::AllocError;
use thiserror::Error;

/// Why a command got no reply. Commands without a reply stay in the outbox. After any of these errors but `Memory`
/// replies may still arrive: close the connection, and send over a new one.
#[derive(Debug, Drop, Error)]
pub enum OutboxError {
    /// The commands were not sent, or no reply was received.
    #[error("{0}")]
    Connection(ConnectionError),
    /// The server returned an error to a command. That command and the later ones stay in the outbox, and are
    /// sent again.
    #[error("the server replied {0}")]
    Refused(ServerError),
    /// The reply is an aggregate with an error in it.
    #[error("the reply is not of this command")]
    NotAnAnswer,
    /// Out of memory, and nothing was sent.
    #[error("out of memory")]
    Memory,
}

impl From<ConnectionError> for OutboxError {
    ghost from_gives = { λ e error. error ≡ causes.Connection e };

    fn from(error: ConnectionError) -> OutboxError {
        OutboxError::Connection(error)
    }
}

impl From<AllocError> for OutboxError {
    ghost from_gives = { λ _ error. error ≡ causes.Memory };

    fn from(_error: AllocError) -> OutboxError {
        OutboxError::Memory
    }
}

/// Why a round with an outbox broke off.
#[derive(Debug, Drop, Error)]
pub enum PostError {
    /// The round failed, and nothing of the outbox was sent. The error is `NotCommitted` while a command has no
    /// reply.
    #[error("{0}")]
    Round(RunError),
    /// The round was made, and not every command of the outbox was sent and got its reply.
    #[error("{0}")]
    Outbox(OutboxError),
}
