//! Refusals, and results that may be a refusal.
ghost use Rattle.std.specs.Prelude.{◌≡◌, ◌++◌, codes, decimal};
ghost use Rattle.test_notation.specs.Refusal.{refusal_number, answer_form};

use crate::form::PrintedForm;
use redis_resp::ParsingError;
use std::alloc::{AllocError, Global};

/// `refused`, and the number of the cause.
impl PrintedForm for ParsingError {
    ghost form = { λ error. codes "refused " ++ decimal (refusal_number error) };

    fn print(&self, _alloc: Global, line: &mut String) -> Result<(), AllocError> {
        write!(line, "refused {}", number_of(self))
    }
}

/// The record, or its refusal.
impl<T: PrintedForm> PrintedForm for Result<T, ParsingError> {
    ghost form = { answer_form T.form };

    fn print(&self, alloc: Global, line: &mut String) -> Result<(), AllocError> {
        match self {
            Ok(record) => record.print(alloc, line),
            Err(error) => error.print(alloc, line),
        }
    }
}

/// Returns the position of the cause in the order in which `ParsingError` lists them, from 1.
fn number_of(error: &ParsingError) -> usize
    ensures { result ≡ refusal_number error.now }
{
    match error {
        ParsingError::NotText => 1,
        ParsingError::NotNumber => 2,
        ParsingError::NotList => 3,
        ParsingError::NotPairs => 4,
        ParsingError::NotTuple(_) => 5,
        ParsingError::NotArray => 6,
        ParsingError::WrongItemCount(_) => 7,
        ParsingError::WrongClaimedType => 8,
        ParsingError::UnknownReadFormat => 9,
        ParsingError::PendingWithoutStart => 10,
        ParsingError::PendingWithoutEnd => 11,
        ParsingError::NotPendingRow(_) => 12,
        ParsingError::UnknownXDelEx(_) => 13,
        ParsingError::UnknownXAckDel(_) => 14,
        ParsingError::NotXDelEx => 15,
        ParsingError::NotXAckDel => 16,
        ParsingError::NotBytes => 17,
        ParsingError::Memory => 18,
    }
}
