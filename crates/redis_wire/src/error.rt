//! One error for all failures between a command and the record of its reply.
ghost use Rattle.std.specs.Prelude.{◌≡◌};
ghost use Rattle.redis_wire.specs.Failure.{wire_failure, write_failure, pack_failure, parsing_failure, reply_failure};
ghost use Rattle.redis_wire.specs.declared.error.RedisError.TheVariants.{Memory};

use crate::fault::{Fault, WireError};
use crate::pack_error::PackError;
use crate::reply::{ReplyError, ServerError};
use redis_resp::{ParsingError, WriteError};
use std::alloc::{AllocError, AllocFailed};
use thiserror::Error;

/// Why a command was not written, or its reply was not read as the requested type. It is one error
/// for a caller that uses `?` on every step.
#[derive(Debug, Drop, PartialEq, Eq, Error)]
pub enum RedisError {
    /// An allocation was refused. Nothing is known of the bytes.
    #[error("out of memory")]
    Memory,
    /// There is no room for an argument: the writer has a fixed size, or the protocol's count or
    /// length is too small for it.
    #[error("no room for an argument")]
    Full,
    /// The command has no arguments.
    #[error("a command of no arguments")]
    NoArguments,
    /// The bytes are not a reply, whatever bytes follow.
    #[error("{0}")]
    Fault(Fault),
    /// The server returned this error.
    #[error("{0}")]
    Server(ServerError),
    /// The value cannot be read as the requested type. The inner error is never `Memory`.
    #[error("{0}")]
    Parsing(ParsingError),
    /// The reply is a pushed message, or its only errors are inside attributes.
    #[error("the reply is not of this command")]
    NotAnAnswer,
}

impl From<WireError> for RedisError {
    ghost from_gives = { λ error result. result ≡ wire_failure error };

    fn from(error: WireError) -> RedisError {
        match error {
            WireError::Memory => RedisError::Memory,
            WireError::Fault(fault) => RedisError::Fault(fault),
        }
    }
}

impl From<WriteError> for RedisError {
    ghost from_gives = { λ error result. result ≡ write_failure error };

    fn from(error: WriteError) -> RedisError {
        match error {
            WriteError::Memory => RedisError::Memory,
            WriteError::Full => RedisError::Full,
        }
    }
}

impl From<PackError> for RedisError {
    ghost from_gives = { λ error result. result ≡ pack_failure error };

    fn from(error: PackError) -> RedisError {
        match error {
            PackError::Memory => RedisError::Memory,
            PackError::Full => RedisError::Full,
            PackError::NoArguments => RedisError::NoArguments,
        }
    }
}

impl From<ParsingError> for RedisError {
    ghost from_gives = { λ error result. result ≡ parsing_failure error };

    fn from(error: ParsingError) -> RedisError {
        match error {
            ParsingError::Memory => RedisError::Memory,
            other => RedisError::Parsing(other),
        }
    }
}

impl From<ReplyError> for RedisError {
    ghost from_gives = { λ error result. result ≡ reply_failure error };

    fn from(error: ReplyError) -> RedisError {
        match error {
            ReplyError::Server(error) => RedisError::Server(error),
            ReplyError::Parsing(error) => RedisError::from(error),
            ReplyError::NotAnAnswer => RedisError::NotAnAnswer,
        }
    }
}

impl From<AllocError> for RedisError {
    ghost from_gives = { λ _ result. result ≡ Memory };

    fn from(_error: AllocError) -> RedisError {
        RedisError::Memory
    }
}

impl<T: Drop> From<AllocFailed<T>> for RedisError {
    ghost from_gives = { λ _ result. result ≡ Memory };

    fn from(_error: AllocFailed<T>) -> RedisError {
        RedisError::Memory
    }
}
