//! Values of fields that are read as text or as numbers.
ghost use Rattle.std.specs.Prelude.{◌≡◌, Ok, Err, option_map, MatchResult};
ghost use Rattle.stream_in_place.specs.FieldValue.{text_value, unsigned_value, signed_value};

use crate::rows::is_text;
use redis_resp::{signed_in, unsigned_in};
use thiserror::Error;

/// Why a field has no value of the requested type.
#[derive(Clone, Copy, Debug, PartialEq, Eq, Error)]
pub enum FieldError {
    /// There is no field of that name.
    #[error("no field has that name")]
    Missing,
    /// The value is not UTF-8.
    #[error("the value is not UTF-8")]
    NotText,
    /// The value is not a number, or does not fit the type.
    #[error("the value is no number of that type")]
    NotNumber,
}

/// The value as text.
pub fn str_of<'a>(value: Option<&'a [u8]>) -> Result<&'a str, FieldError>
    ensures { MatchResult result (λ t. text_value (option_map (λ v. v.now) value.entry) ≡ Ok t.now)
        (λ e. text_value (option_map (λ v. v.now) value.entry) ≡ Err e) }
{
    match value {
        None => Err(FieldError::Missing),
        Some(bytes) => {
            if is_text(bytes) {
                Ok(unsafe { str::from_utf8_unchecked(bytes) })
            } else {
                Err(FieldError::NotText)
            }
        }
    }
}

/// The value as a number that is not negative.
pub fn u64_of(value: Option<&[u8]>) -> Result<u64, FieldError>
    ensures { result ≡ unsigned_value (option_map (λ v. v.now) value.entry) }
{
    match value {
        None => Err(FieldError::Missing),
        Some(bytes) => unsigned_in(bytes).ok_or(FieldError::NotNumber),
    }
}

/// The value as a number with its sign.
pub fn i64_of(value: Option<&[u8]>) -> Result<i64, FieldError>
    ensures { result ≡ signed_value (option_map (λ v. v.now) value.entry) }
{
    match value {
        None => Err(FieldError::Missing),
        Some(bytes) => signed_in(bytes).ok_or(FieldError::NotNumber),
    }
}
