//! Errors of a worker's commands and of their replies.
use crate::handler::NotCommitted;
use crate::state::Asked;
use redis_connection::ConnectionError;
use redis_resp::{ParsingError, WriteError};
use redis_wire::{ServerError, WireError};
use std::alloc::{AllocError, AllocFailed};
use thiserror::Error;

/// Why no command was written. No bytes were appended.
#[derive(Clone, Copy, Debug, PartialEq, Eq, Error)]
pub enum RequestError {
    /// The handler's commit failed. Nothing of that commit is acknowledged.
    #[error("what was done could not be committed")]
    NotCommitted,
    /// The command is too long for the protocol.
    #[error("the command is too long")]
    TooLong,
    /// Out of memory.
    #[error("out of memory")]
    Memory,
}

impl From<NotCommitted> for RequestError {
    ghost use Rattle.std.specs.Prelude.{◌≡◌};
    ghost use Rattle.worker.specs.declared.error.RequestError.TheVariants as causes;

    ghost from_gives = { λ _ e. e ≡ causes.NotCommitted };

    fn from(_error: NotCommitted) -> RequestError {
        RequestError::NotCommitted
    }
}

impl From<WriteError> for RequestError {
    ghost use Rattle.std.specs.Prelude.{◌≡◌};
    ghost use Rattle.worker.specs.Errors.{request_error};

    ghost from_gives = { λ w e. e ≡ request_error w };

    fn from(error: WriteError) -> RequestError {
        match error {
            WriteError::Memory => RequestError::Memory,
            WriteError::Full => RequestError::TooLong,
        }
    }
}

/// Which command was sent, and the error of its reply.
#[derive(Debug, Drop, Error)]
#[error("{asked}: {error}")]
pub struct AnswerError {
    /// The command that was sent.
    pub asked: Asked,
    /// Why the reply is an error to the worker.
    pub error: WorkerError,
}

/// Why a reply is an error to a worker. Entries that are done are still acknowledged later, and the others stay
/// pending.
#[derive(Debug, Drop, Error)]
pub enum WorkerError {
    /// No command waits for a reply.
    #[error("a reply without a command")]
    NotAsked,
    /// The server returned an error, such as `LOADING` or `READONLY`, or `NOGROUP` to the first command of a
    /// worker that creates no group. `answered` does not change the worker. After this error `round` and `run`
    /// begin again.
    #[error("the server replied {0}")]
    Server(ServerError),
    /// The group was destroyed: the server returned `NOGROUP` to a command after the first. The worker does not
    /// create the group again, since a new group would start at another id. `answered` does not change the
    /// worker. After this error `round` and `run` begin again.
    #[error("the group is gone: the server replied {0}")]
    GroupIsGone(ServerError),
    /// The reply belongs to no command: it is a push message, or an aggregate with an error in it. `answered`
    /// does not change the worker. After this error `round` and `run` begin again.
    #[error("the reply is not of this command")]
    NotAnAnswer,
    /// The reply is not of the kind that the command returns.
    #[error("{0}")]
    Parsing(ParsingError),
    /// The reply has entries of another stream.
    #[error("a reply about another stream")]
    OtherStream,
    /// The reply to a claim or to a read of new entries has nil in place of an entry's fields: the id of the first such
    /// entry. Servers return nil only for the consumer's own pending entries that were deleted.
    #[error("nil in place of the fields of the entry {0}")]
    NilFields(String),
    /// Out of memory.
    #[error("out of memory")]
    Memory,
}

impl From<AllocError> for WorkerError {
    ghost use Rattle.std.specs.Prelude.{◌≡◌};
    ghost use Rattle.worker.specs.declared.error.WorkerError.TheVariants as causes;

    ghost from_gives = { λ _ e. e ≡ causes.Memory };

    fn from(_error: AllocError) -> WorkerError {
        WorkerError::Memory
    }
}

impl From<ParsingError> for WorkerError {
    ghost use Rattle.std.specs.Prelude.{◌≡◌};
    ghost use Rattle.worker.specs.Errors.{read_error};

    ghost from_gives = { λ p e. e ≡ read_error p };

    fn from(error: ParsingError) -> WorkerError {
        match error {
            ParsingError::Memory => WorkerError::Memory,
            error => WorkerError::Parsing(error),
        }
    }
}

/// Why the reply at the start of the bytes was not taken.
#[derive(Debug, Drop, Error)]
pub enum InPlaceError {
    /// The bytes end before the reply does. Nothing changed: the worker still waits for the reply.
    #[error("no whole reply")]
    Incomplete,
    /// Memory ran out before the reply was read, or the bytes are not a reply. Nothing changed: the worker still waits
    /// for the reply.
    #[error("{0}")]
    Unread(WireError),
    /// The reply is an error to the worker.
    #[error("{0}")]
    Answer(AnswerError),
}

impl From<AllocError> for InPlaceError {
    ghost use Rattle.std.specs.Prelude.{◌≡◌};
    ghost use Rattle.redis_wire.specs.declared.fault.WireError.TheVariants as wire_errors;
    ghost use Rattle.worker.specs.declared.error.InPlaceError.TheVariants as causes;

    ghost from_gives = { λ _ e. e ≡ causes.Unread wire_errors.Memory };

    fn from(_error: AllocError) -> InPlaceError {
        InPlaceError::Unread(WireError::Memory)
    }
}

impl From<AnswerError> for InPlaceError {
    ghost use Rattle.std.specs.Prelude.{◌≡◌};
    ghost use Rattle.worker.specs.declared.error.InPlaceError.TheVariants as causes;

    ghost from_gives = { λ a e. e ≡ causes.Answer a };

    fn from(error: AnswerError) -> InPlaceError {
        InPlaceError::Answer(error)
    }
}

/// Why a worker stopped using a connection. Entries that are done are still acknowledged later, and the others stay
/// pending.
#[derive(Debug, Drop, Error)]
pub enum RunError {
    /// No command was written, and nothing was sent.
    #[error("{0}")]
    Request(RequestError),
    /// Only a prefix of the command was sent.
    #[error("{0}")]
    Send(ConnectionError),
    /// The command was sent, and no reply to it was taken. The received bytes stay in the buffer. If memory ran
    /// out, they may be a whole reply.
    #[error("{asked}: {error}")]
    Receive {
        /// The command that was sent.
        asked: Asked,
        /// Why no reply was taken.
        error: ConnectionError,
    },
    /// A reply was received, and is an error to the worker.
    #[error("{0}")]
    Answer(AnswerError),
}

impl From<RequestError> for RunError {
    ghost use Rattle.std.specs.Prelude.{◌≡◌};
    ghost use Rattle.worker.specs.declared.error.RunError.TheVariants as causes;

    ghost from_gives = { λ r e. e ≡ causes.Request r };

    fn from(error: RequestError) -> RunError {
        RunError::Request(error)
    }
}

impl From<AnswerError> for RunError {
    ghost use Rattle.std.specs.Prelude.{◌≡◌};
    ghost use Rattle.worker.specs.declared.error.RunError.TheVariants as causes;

    ghost from_gives = { λ a e. e ≡ causes.Answer a };

    fn from(error: AnswerError) -> RunError {
        RunError::Answer(error)
    }
}
