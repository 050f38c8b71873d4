//! Texts that are read from values.
ghost use Rattle.std.specs.Prelude.{◌≡◌, IfOk, IfErr, ℕ, List, None, Some, string_bytes};
ghost use Rattle.redis_resp.specs.Tree.{bulk};
ghost use Rattle.redis_resp.specs.declared.value.error.ParsingError.TheVariants.{NotText};
ghost use Rattle.redis_resp.specs.Refusal.{RefusesOwnedText, RefusesText};
ghost use Rattle.redis_resp.specs.Text.{text_of_plain, text_reading};

use crate::value::Value;
use crate::value::error::ParsingError;
use crate::value::from_value::FromRedisValue;
use std::alloc::Global;

/// Returns the text of the bytes, and consumes them.
fn into_text(bytes: Vec<u8>) -> Result<String, ParsingError>
    ensures ok { IfOk result (λ s. text_of_plain (bulk bytes.items) ≡ Some (string_bytes s)) }
    ensures err { IfErr result (λ e. text_of_plain (bulk bytes.items) ≡ None × e ≡ NotText) }
{
    match String::from_utf8(bytes) {
        Ok(text) => Ok(text),
        Err(_) => Err(ParsingError::NotText),
    }
}

impl FromRedisValue for String {
    ghost Meaning = { List ℕ };

    ghost meaning = { string_bytes };

    ghost reading = { text_reading };

    ghost may_refuse = { RefusesText };

    ghost may_refuse_owned = { RefusesOwnedText };

    /// Returns the text of a value. It moves the text that the value holds, and allocates memory only
    /// if the value holds none: for `OK` and for a number in decimal.
    fn from_redis_value(alloc: Global, v: Value) -> Result<String, ParsingError> {
        let v = match v {
            // most texts are bulk strings with nothing around them
            Value::BulkString(bytes) => return into_text(bytes),
            other => other.into_plain(),
        };
        match v {
            Value::BulkString(bytes) => into_text(bytes),
            Value::SimpleString(text) => Ok(text),
            Value::Okay => Ok(String::from_str(alloc, "OK")?),
            Value::VerbatimString { format, text } => {
                drop(format);
                Ok(text)
            }
            Value::Int(z) => Ok(format!(in alloc; "{z}")?),
            _ => Err(ParsingError::NotText),
        }
    }

    /// Returns a copy of the text of a borrowed value.
    fn from_redis_value_ref(alloc: Global, v: &Value) -> Result<String, ParsingError> {
        match v.as_plain() {
            Value::BulkString(bytes) => match std::str::from_utf8(bytes) {
                Ok(text) => Ok(String::from_str(alloc, text)?),
                Err(_) => Err(ParsingError::NotText),
            },
            Value::SimpleString(text) => Ok(text.clone()?),
            Value::Okay => Ok(String::from_str(alloc, "OK")?),
            Value::VerbatimString { text, .. } => Ok(text.clone()?),
            Value::Int(z) => Ok(format!(in alloc; "{z}")?),
            _ => Err(ParsingError::NotText),
        }
    }
}
