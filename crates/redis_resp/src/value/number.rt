//! Numbers that are read from values: whole numbers, and texts that Rust's `parse` accepts.
//!
//! No call here allocates memory, so the one error is `NotNumber`.
ghost use Rattle.std.specs.Prelude.{◌≡◌, ℕ, ℤ, option_and_then};
ghost use Rattle.redis_resp.specs.Number.{unsigned_of, signed_of, within, signed_within};
ghost use Rattle.redis_resp.specs.Number.{unsigned_reading, signed_reading};
ghost use Rattle.redis_resp.specs.Refusal.{RefusesNumber};
ghost use Rattle.redis_resp.specs.Value.{tree};

use crate::value::Value;
use crate::value::error::ParsingError;
use crate::value::from_value::FromRedisValue;
use std::alloc::Global;

/// Parses a text of digits with at most one `+` before them. Returns `None` if the text is no such
/// number, or if the number does not fit 64 bits. It allocates no memory.
pub fn unsigned_in(text: &[u8]) -> Option<u64>
    ensures { result ≡ option_and_then (within 64) (unsigned_of text.now) }
{
    let Ok(text) = std::str::from_utf8(text) else {
        return None;
    };
    text.parse().ok()
}

/// Parses a text of digits with at most one sign before them. Returns `None` if the text is no such
/// number, or if the number does not fit an `i64`. It allocates no memory.
pub fn signed_in(text: &[u8]) -> Option<i64>
    ensures { result ≡ option_and_then (signed_within 63) (signed_of text.now) }
{
    let Ok(text) = std::str::from_utf8(text) else {
        return None;
    };
    text.parse().ok()
}

/// Returns the number that a value reads as at 64 bits, or `None`.
#[tactic(auto, using(crate::proofs::NumberLemmas::unsigned_texts))]
fn read_u64(v: &Value) -> Option<u64>
    ensures { result ≡ unsigned_reading 64 (tree v.now) }
{
    match v.as_plain() {
        Value::Int(z) => u64::try_from(*z).ok(),
        Value::BulkString(bytes) => unsigned_in(bytes),
        Value::SimpleString(text) => unsigned_in(text.as_bytes()),
        _ => None,
    }
}

/// Returns the number that a value reads as at 63 bits and a sign, or `None`.
#[tactic(auto, using(crate::proofs::NumberLemmas::signed_texts))]
fn read_i64(v: &Value) -> Option<i64>
    ensures { result ≡ signed_reading 63 (tree v.now) }
{
    match v.as_plain() {
        Value::Int(z) => Some(*z),
        Value::BulkString(bytes) => signed_in(bytes),
        Value::SimpleString(text) => signed_in(text.as_bytes()),
        _ => None,
    }
}

/// Returns the number that a value reads as at `usize`, or `None`. It allocates no memory.
pub fn usize_of(v: &Value) -> Option<usize>
    ensures { result ≡ unsigned_reading 64 (tree v.now) }
{
    Some(read_u64(v)? as usize)
}

/// Returns the number that a value reads as at 32 bits, or `None`.
#[tactic(auto, using(crate::proofs::NumberLemmas::narrowing))]
fn read_u32(v: &Value) -> Option<u32>
    ensures { result ≡ unsigned_reading 32 (tree v.now) }
{
    u32::try_from(read_u64(v)?).ok()
}

/// Returns the number that a value reads as at 16 bits, or `None`.
#[tactic(auto, using(crate::proofs::NumberLemmas::narrowing))]
fn read_u16(v: &Value) -> Option<u16>
    ensures { result ≡ unsigned_reading 16 (tree v.now) }
{
    u16::try_from(read_u64(v)?).ok()
}

/// Returns the number that a value reads as at 8 bits, or `None`.
#[tactic(auto, using(crate::proofs::NumberLemmas::narrowing))]
fn read_u8(v: &Value) -> Option<u8>
    ensures { result ≡ unsigned_reading 8 (tree v.now) }
{
    u8::try_from(read_u64(v)?).ok()
}

/// Returns the number that a value reads as at 31 bits and a sign, or `None`.
#[tactic(auto, using(crate::proofs::NumberLemmas::signed_narrowing))]
fn read_i32(v: &Value) -> Option<i32>
    ensures { result ≡ signed_reading 31 (tree v.now) }
{
    i32::try_from(read_i64(v)?).ok()
}

impl FromRedisValue for u8 {
    ghost Meaning = { ℕ };

    ghost meaning = { λ n. n };

    ghost reading = { unsigned_reading 8 };

    ghost may_refuse = { RefusesNumber };

    /// A number below 2^8. It allocates no memory, so its one error is `NotNumber`.
    fn from_redis_value(_alloc: Global, v: Value) -> Result<u8, ParsingError> {
        read_u8(&v).ok_or(ParsingError::NotNumber)
    }

    /// Returns the number of a borrowed value, which is kept.
    fn from_redis_value_ref(_alloc: Global, v: &Value) -> Result<u8, ParsingError> {
        read_u8(v).ok_or(ParsingError::NotNumber)
    }
}

impl FromRedisValue for u16 {
    ghost Meaning = { ℕ };

    ghost meaning = { λ n. n };

    ghost reading = { unsigned_reading 16 };

    ghost may_refuse = { RefusesNumber };

    /// A number below 2^16. It allocates no memory, so its one error is `NotNumber`.
    fn from_redis_value(_alloc: Global, v: Value) -> Result<u16, ParsingError> {
        read_u16(&v).ok_or(ParsingError::NotNumber)
    }

    /// Returns the number of a borrowed value, which is kept.
    fn from_redis_value_ref(_alloc: Global, v: &Value) -> Result<u16, ParsingError> {
        read_u16(v).ok_or(ParsingError::NotNumber)
    }
}

impl FromRedisValue for u32 {
    ghost Meaning = { ℕ };

    ghost meaning = { λ n. n };

    ghost reading = { unsigned_reading 32 };

    ghost may_refuse = { RefusesNumber };

    /// A number below 2^32. It allocates no memory, so its one error is `NotNumber`.
    fn from_redis_value(_alloc: Global, v: Value) -> Result<u32, ParsingError> {
        read_u32(&v).ok_or(ParsingError::NotNumber)
    }

    /// Returns the number of a borrowed value, which is kept.
    fn from_redis_value_ref(_alloc: Global, v: &Value) -> Result<u32, ParsingError> {
        read_u32(v).ok_or(ParsingError::NotNumber)
    }
}

impl FromRedisValue for u64 {
    ghost Meaning = { ℕ };

    ghost meaning = { λ n. n };

    ghost reading = { unsigned_reading 64 };

    ghost may_refuse = { RefusesNumber };

    /// A number below 2^64. It allocates no memory, so its one error is `NotNumber`.
    fn from_redis_value(_alloc: Global, v: Value) -> Result<u64, ParsingError> {
        read_u64(&v).ok_or(ParsingError::NotNumber)
    }

    /// Returns the number of a borrowed value, which is kept.
    fn from_redis_value_ref(_alloc: Global, v: &Value) -> Result<u64, ParsingError> {
        read_u64(v).ok_or(ParsingError::NotNumber)
    }
}

impl FromRedisValue for usize {
    ghost Meaning = { ℕ };

    ghost meaning = { λ n. n };

    ghost reading = { unsigned_reading 64 };

    ghost may_refuse = { RefusesNumber };

    /// A number below 2^64. It allocates no memory, so its one error is `NotNumber`.
    fn from_redis_value(_alloc: Global, v: Value) -> Result<usize, ParsingError> {
        usize_of(&v).ok_or(ParsingError::NotNumber)
    }

    /// Returns the number of a borrowed value, which is kept.
    fn from_redis_value_ref(_alloc: Global, v: &Value) -> Result<usize, ParsingError> {
        usize_of(v).ok_or(ParsingError::NotNumber)
    }
}

impl FromRedisValue for i64 {
    ghost Meaning = { ℤ };

    ghost meaning = { λ z. z };

    ghost reading = { signed_reading 63 };

    ghost may_refuse = { RefusesNumber };

    /// A number from -2^63 to 2^63 - 1. It allocates no memory, so its one error is `NotNumber`.
    fn from_redis_value(_alloc: Global, v: Value) -> Result<i64, ParsingError> {
        read_i64(&v).ok_or(ParsingError::NotNumber)
    }

    /// Returns the number of a borrowed value, which is kept.
    fn from_redis_value_ref(_alloc: Global, v: &Value) -> Result<i64, ParsingError> {
        read_i64(v).ok_or(ParsingError::NotNumber)
    }
}

impl FromRedisValue for i32 {
    ghost Meaning = { ℤ };

    ghost meaning = { λ z. z };

    ghost reading = { signed_reading 31 };

    ghost may_refuse = { RefusesNumber };

    /// A number from -2^31 to 2^31 - 1. It allocates no memory, so its one error is `NotNumber`.
    fn from_redis_value(_alloc: Global, v: Value) -> Result<i32, ParsingError> {
        read_i32(&v).ok_or(ParsingError::NotNumber)
    }

    /// Returns the number of a borrowed value, which is kept.
    fn from_redis_value_ref(_alloc: Global, v: &Value) -> Result<i32, ParsingError> {
        read_i32(v).ok_or(ParsingError::NotNumber)
    }
}
