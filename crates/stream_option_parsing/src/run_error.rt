//! Why `run` failed.
ghost use Rattle.std.specs.Prelude.{◌≡◌};
ghost use Rattle.stream_option_parsing.specs.declared.run_error.RunError.TheVariants.{Memory};

use std::alloc::{AllocError, AllocFailed};

/// Why `run` failed.
#[derive(Clone, Copy, Debug, PartialEq, Eq)]
pub enum RunError {
    /// The reader failed; nothing was written.
    Read,
    /// The writer failed, or wrote 0 bytes; a prefix of the output was written.
    Write,
    /// Memory could not be allocated; nothing was written.
    Memory,
}

impl From<AllocError> for RunError {
    ghost from_gives = { λ _ e. e ≡ Memory };

    fn from(_error: AllocError) -> RunError {
        RunError::Memory
    }
}

impl<T: Drop> From<AllocFailed<T>> for RunError {
    ghost from_gives = { λ _ e. e ≡ Memory };

    fn from(_error: AllocFailed<T>) -> RunError {
        RunError::Memory
    }
}
