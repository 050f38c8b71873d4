//! Booleans that are read from values.
//!
//! No call here allocates memory, so the one error is `NotNumber`. RESP2 has no booleans: a server
//! sends the numbers 1 and 0 for them.
ghost use Rattle.std.specs.Prelude.{◌≡◌, Bool};
ghost use Rattle.redis_resp.specs.Boolean.{truth_of_text, truth_reading};
ghost use Rattle.redis_resp.specs.Refusal.{RefusesNumber};
ghost use Rattle.redis_resp.specs.Value.{tree};

use crate::value::Value;
use crate::value::error::ParsingError;
use crate::value::from_value::FromRedisValue;
use std::alloc::Global;

/// Returns true for the text `1`, false for `0`, and `None` for any other.
fn parse_truth(text: &[u8]) -> Option<bool>
    ensures { result ≡ truth_of_text text.now }
{
    if text == b"1".as_slice() {
        Some(true)
    } else if text == b"0".as_slice() {
        Some(false)
    } else {
        None
    }
}

/// Returns the boolean that a value reads as, or `None`.
fn read_truth(v: &Value) -> Option<bool>
    ensures { result ≡ truth_reading (tree v.now) }
{
    match v.as_plain() {
        Value::Nil => Some(false),
        Value::Int(z) => Some(*z != 0),
        Value::BulkString(bytes) => parse_truth(bytes),
        Value::SimpleString(text) => parse_truth(text.as_bytes()),
        Value::Okay => Some(true),
        Value::Boolean(b) => Some(*b),
        _ => None,
    }
}

impl FromRedisValue for bool {
    ghost Meaning = { Bool };

    ghost meaning = { λ b. b };

    ghost reading = { truth_reading };

    ghost may_refuse = { RefusesNumber };

    /// Reads a `Boolean`, a whole number (false if it is 0), the texts `1` and `0`, `OK` (true) or
    /// `Nil` (false). It allocates no memory, so its one error is `NotNumber`.
    fn from_redis_value(_alloc: Global, v: Value) -> Result<bool, ParsingError> {
        read_truth(&v).ok_or(ParsingError::NotNumber)
    }

    /// Returns the boolean of a borrowed value, which is kept.
    fn from_redis_value_ref(_alloc: Global, v: &Value) -> Result<bool, ParsingError> {
        read_truth(v).ok_or(ParsingError::NotNumber)
    }
}
