//! The errors of a connection and of a command.
ghost use Rattle.std.specs.Prelude.{◌≡◌};
ghost use Rattle.redis_connection.specs.Cause.{failure_of, pack_failure_of, write_failure_of};
ghost use Rattle.redis_connection.specs.declared.error.ConnectionError.TheVariants.{Memory};

use redis_resp::{ParsingError, WriteError};
use redis_wire::{Fault, PackError, ReplyError, ServerError, WireError};
use std::alloc::{AllocError, AllocFailed};
use std::io;
use thiserror::Error;

/// Why a command was not sent whole, or no reply was received.
#[derive(Debug, Drop, Error)]
pub enum ConnectionError {
    /// Out of memory. The call may be repeated.
    #[error("out of memory")]
    Memory,
    /// The command is too long for the protocol, and nothing of it was sent.
    #[error("the command is too long for the protocol")]
    TooLong,
    /// The command has no arguments, and nothing was sent: a server sends no reply to such a command.
    #[error("a command of no arguments")]
    NoArguments,
    /// The writer failed, and only a prefix of the bytes was written.
    #[error("cannot write to the server: {0}")]
    Write(io::Error),
    /// The reader failed. The bytes received before are held.
    #[error("cannot read from the server: {0}")]
    Read(io::Error),
    /// The server closed the connection, and no whole reply is held.
    #[error("the server closed the connection")]
    Closed,
    /// The bytes received break the protocol or its limits.
    #[error("the server does not speak the protocol: {0}")]
    Fault(Fault),
}

impl From<WireError> for ConnectionError {
    ghost from_gives = { λ error result. result ≡ failure_of error };

    fn from(error: WireError) -> ConnectionError {
        match error {
            WireError::Memory => ConnectionError::Memory,
            WireError::Fault(fault) => ConnectionError::Fault(fault),
        }
    }
}

impl From<WriteError> for ConnectionError {
    ghost from_gives = { λ error result. result ≡ write_failure_of error };

    fn from(error: WriteError) -> ConnectionError {
        match error {
            WriteError::Memory => ConnectionError::Memory,
            WriteError::Full => ConnectionError::TooLong,
        }
    }
}

impl From<PackError> for ConnectionError {
    ghost from_gives = { λ error result. result ≡ pack_failure_of error };

    fn from(error: PackError) -> ConnectionError {
        match error {
            PackError::Memory => ConnectionError::Memory,
            PackError::Full => ConnectionError::TooLong,
            PackError::NoArguments => ConnectionError::NoArguments,
        }
    }
}

impl From<AllocError> for ConnectionError {
    ghost from_gives = { λ _ result. result ≡ Memory };

    fn from(_error: AllocError) -> ConnectionError {
        ConnectionError::Memory
    }
}

impl<T: Drop> From<AllocFailed<T>> for ConnectionError {
    ghost from_gives = { λ _ result. result ≡ Memory };

    fn from(_error: AllocFailed<T>) -> ConnectionError {
        ConnectionError::Memory
    }
}

/// Why a command has no reply of the requested type.
#[derive(Debug, Drop, Error)]
pub enum AskError {
    /// The command was not sent, or no reply was received.
    #[error("{0}")]
    Connection(ConnectionError),
    /// The server returned this error.
    #[error("the server replied {0}")]
    Server(ServerError),
    /// The reply has no record of the requested type, or an allocation failed.
    #[error("{0}")]
    Parsing(ParsingError),
    /// The only errors of the reply are in attributes.
    #[error("the reply is not of this command")]
    NotAnAnswer,
}

impl From<ConnectionError> for AskError {
    ghost use Rattle.redis_connection.specs.declared.error.AskError.TheVariants.{Connection};

    ghost from_gives = { λ error result. result ≡ Connection error };

    fn from(error: ConnectionError) -> AskError {
        AskError::Connection(error)
    }
}

impl From<ReplyError> for AskError {
    ghost use Rattle.redis_connection.specs.Cause.{refusal_of};

    ghost from_gives = { λ error result. result ≡ refusal_of error };

    fn from(error: ReplyError) -> AskError {
        match error {
            ReplyError::Server(error) => AskError::Server(error),
            ReplyError::Parsing(error) => AskError::Parsing(error),
            ReplyError::NotAnAnswer => AskError::NotAnAnswer,
        }
    }
}
