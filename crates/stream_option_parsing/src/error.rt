//! Why arguments were not parsed.
ghost use Rattle.std.specs.Prelude.{◌≡◌};
ghost use Rattle.stream_option_parsing.specs.declared.error.SentenceError.TheVariants.{Memory};

use std::alloc::{AllocError, AllocFailed};

/// Why arguments were not parsed.
#[derive(Clone, Copy, Debug, PartialEq, Eq)]
pub enum SentenceError {
    /// No options of this type have a prefix of the arguments as their arguments, followed by a free rest.
    NotASentence,
    /// Memory could not be allocated for the options.
    Memory,
}

impl From<AllocError> for SentenceError {
    ghost from_gives = { λ _ e. e ≡ Memory };

    fn from(_error: AllocError) -> SentenceError {
        SentenceError::Memory
    }
}

impl<T: Drop> From<AllocFailed<T>> for SentenceError {
    ghost from_gives = { λ _ e. e ≡ Memory };

    fn from(_error: AllocFailed<T>) -> SentenceError {
        SentenceError::Memory
    }
}
