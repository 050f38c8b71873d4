//! Texts in the notation of values, and what they are read as.
//!
//! | Kind | Outcome |
//! |---|---|
//! | `notation` | the value as `Debug` prints it |
//! | `reads_as` | whether the value is read as a text, as a `usize` and as fields, and whether it is nil |
//!
//! The outcome of a text that is not a value is the cause, here and for each kind that reads a value.
ghost use Rattle.test_cases.specs.Kinds.{is_notation};
ghost use Rattle.std.specs.Prelude.{IfOk, IsSome, IsTrue};

use crate::parse_value;
use redis_resp::{is_fields, is_nil, is_text, is_usize};
use std::alloc::{AllocError, Global};

/// Runs a case of this module. Returns its outcome, or `None` if its kind is another.
pub fn run_case(alloc: Global, kind: &str, input: &str) -> Result<Option<String>, AllocError>
    ensures { IfOk result (λ o. IsSome o → IsTrue (is_notation kind.now)) }
{
    match kind {
        "notation" => format_value(alloc, input),
        "reads_as" => format_checks(alloc, input),
        _ => Ok(None),
    }
}

/// Returns the value as `Debug` prints it.
fn format_value(alloc: Global, input: &str) -> Result<Option<String>, AllocError> {
    match parse_value(alloc, input)? {
        Ok(value) => Ok(Some(format!(in alloc; "{value:?}")?)),
        Err(text) => Ok(Some(text)),
    }
}

/// Returns the results of `is_text`, `is_usize`, `is_fields` and `is_nil` for a value. They allocate nothing.
fn format_checks(alloc: Global, input: &str) -> Result<Option<String>, AllocError> {
    match parse_value(alloc, input)? {
        Ok(value) => Ok(Some(format!(in alloc;
            "{:?}",
            (
                is_text(&value),
                is_usize(&value),
                is_fields(&value),
                is_nil(&value)
            )
        )?)),
        Err(text) => Ok(Some(text)),
    }
}
