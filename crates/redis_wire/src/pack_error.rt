//! Why a command was not packed.
ghost use Rattle.std.specs.Prelude.{◌≡◌};
ghost use Rattle.redis_wire.specs.Failure.{pack_error};
ghost use Rattle.redis_wire.specs.declared.pack_error.PackError.TheVariants.{Memory};

use redis_resp::WriteError;
use std::alloc::{AllocError, AllocFailed};
use thiserror::Error;

/// Why a command was not packed.
#[derive(Clone, Copy, Debug, PartialEq, Eq, Error)]
pub enum PackError {
    /// An allocation was refused. Nothing is known of the arguments.
    #[error("out of memory")]
    Memory,
    /// An argument has 2^32 bytes or more, or there are 2^32 arguments or more.
    #[error("no room for an argument")]
    Full,
    /// There is no argument. A server sends no reply to such a command, and each later reply would be
    /// taken for that of another command.
    #[error("a command of no arguments")]
    NoArguments,
}

impl From<WriteError> for PackError {
    ghost from_gives = { λ error result. result ≡ pack_error error };

    fn from(error: WriteError) -> PackError {
        match error {
            WriteError::Memory => PackError::Memory,
            WriteError::Full => PackError::Full,
        }
    }
}

impl From<AllocError> for PackError {
    ghost from_gives = { λ _ result. result ≡ Memory };

    fn from(_error: AllocError) -> PackError {
        PackError::Memory
    }
}

impl<T: Drop> From<AllocFailed<T>> for PackError {
    ghost from_gives = { λ _ result. result ≡ Memory };

    fn from(_error: AllocFailed<T>) -> PackError {
        PackError::Memory
    }
}
