//! Errors of a producer's commands and of their replies.
use crate::source::NotRead;
use redis_connection::ConnectionError;
use redis_resp::WriteError;
use redis_wire::ServerError;
use std::alloc::AllocError;
use thiserror::Error;

/// Why no command was written. No bytes were appended, and the producer is unchanged.
#[derive(Clone, Copy, Debug, PartialEq, Eq, Error)]
pub enum RequestError {
    /// The source did not read its records.
    #[error("the records could not be read")]
    NotRead,
    /// A record of the batch would have an id above 64 bits.
    #[error("no id is left")]
    NoIdLeft,
    /// A command is too long for the protocol.
    #[error("the command is too long")]
    TooLong,
    /// Out of memory.
    #[error("out of memory")]
    Memory,
}

impl From<NotRead> for RequestError {
    ghost use Rattle.std.specs.Prelude.{◌≡◌};
    ghost use Rattle.worker_producer.specs.declared.error.RequestError.TheVariants as causes;

    ghost from_gives = { λ _ e. e ≡ causes.NotRead };

    fn from(_error: NotRead) -> RequestError {
        RequestError::NotRead
    }
}

impl From<WriteError> for RequestError {
    ghost use Rattle.std.specs.Prelude.{◌≡◌};
    ghost use Rattle.worker_producer.specs.Errors.{request_error};

    ghost from_gives = { λ w e. e ≡ request_error w };

    fn from(error: WriteError) -> RequestError {
        match error {
            WriteError::Memory => RequestError::Memory,
            WriteError::Full => RequestError::TooLong,
        }
    }
}

/// Why a reply is an error to a producer. It reads the last id next, except after `NotAsked` and after an error in
/// reply to a command before the last.
#[derive(Debug, Drop, Error)]
pub enum FeedError {
    /// No command waits for a reply.
    #[error("a reply without a command")]
    NotAsked,
    /// The server returned an error, such as `EXECABORT`, `OOM` or `WRONGTYPE`.
    #[error("the server replied {0}")]
    Server(ServerError),
    /// The reply is not of the kind that the command returns.
    #[error("the reply is not of this command")]
    NotAnAnswer,
    /// The last id is above the base, and is not a record's: another client adds to the stream.
    #[error("another writer adds to the stream")]
    OtherWriter,
    /// Out of memory.
    #[error("out of memory")]
    Memory,
}

impl From<AllocError> for FeedError {
    ghost use Rattle.std.specs.Prelude.{◌≡◌};
    ghost use Rattle.worker_producer.specs.declared.error.FeedError.TheVariants as causes;

    ghost from_gives = { λ _ e. e ≡ causes.Memory };

    fn from(_error: AllocError) -> FeedError {
        FeedError::Memory
    }
}

/// Why a producer stopped using a connection. It is disconnected then.
#[derive(Debug, Drop, Error)]
pub enum RunError {
    /// No command was written, and nothing was sent.
    #[error("{0}")]
    Request(RequestError),
    /// Only a prefix of its commands was sent.
    #[error("{0}")]
    Send(ConnectionError),
    /// Its commands were sent, and a reply was not received.
    #[error("{0}")]
    Receive(ConnectionError),
    /// A reply was received, and is an error to the producer.
    #[error("{0}")]
    Answer(FeedError),
}

impl From<RequestError> for RunError {
    ghost use Rattle.std.specs.Prelude.{◌≡◌};
    ghost use Rattle.worker_producer.specs.declared.error.RunError.TheVariants as causes;

    ghost from_gives = { λ r e. e ≡ causes.Request r };

    fn from(error: RequestError) -> RunError {
        RunError::Request(error)
    }
}

impl From<FeedError> for RunError {
    ghost use Rattle.std.specs.Prelude.{◌≡◌};
    ghost use Rattle.worker_producer.specs.declared.error.RunError.TheVariants as causes;

    ghost from_gives = { λ f e. e ≡ causes.Answer f };

    fn from(error: FeedError) -> RunError {
        RunError::Answer(error)
    }
}
