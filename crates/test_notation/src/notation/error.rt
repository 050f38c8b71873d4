//! Why a text is not a value.
use std::alloc::{AllocError, AllocFailed};
use thiserror::Error;

/// Why a text was not parsed as a value.
#[derive(Debug, Drop, PartialEq, Eq, Error)]
pub enum NotationError {
    /// This character was expected, and another one or the end of the text was found.
    #[error("no `{0}` where one has to stand")]
    NoMark(char),
    /// A bare or quoted word was expected, and neither was found.
    #[error("no word where one has to stand")]
    NoWord,
    /// The word after `Int`, or in `Bytes(..)`, is not a number of that range.
    #[error("not a number")]
    NotNumber,
    /// The word in `Boolean(..)` is neither `true` nor `false`.
    #[error("neither true nor false")]
    NotBoolean,
    /// The bytes of a text are not UTF-8.
    #[error("not UTF-8")]
    NotUtf8,
    /// A quote has no end.
    #[error("an unclosed quote")]
    Unclosed,
    /// A backslash in a quote is followed by none of `"`, `\`, `n`, `t` and `xNN`.
    #[error("an unknown escape")]
    UnknownEscape,
    /// The value is followed by more text.
    #[error("text behind the value")]
    TextBehindValue,
    /// Memory ran out.
    #[error("out of memory")]
    Memory,
}

impl From<AllocError> for NotationError {
    ghost use Rattle.std.specs.Prelude.{◌≡◌};
    ghost use Rattle.test_notation.specs.declared.notation.error.NotationError.TheVariants.{Memory};

    ghost from_gives = { λ _ e. e ≡ Memory };

    fn from(_error: AllocError) -> NotationError {
        NotationError::Memory
    }
}

impl<T: Drop> From<AllocFailed<T>> for NotationError {
    ghost use Rattle.std.specs.Prelude.{◌≡◌};
    ghost use Rattle.test_notation.specs.declared.notation.error.NotationError.TheVariants.{Memory};

    ghost from_gives = { λ _ e. e ≡ Memory };

    fn from(_error: AllocFailed<T>) -> NotationError {
        NotationError::Memory
    }
}
