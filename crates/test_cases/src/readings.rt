//! Plain types, read from values in the notation by both calls: `from_redis_value` and `from_redis_value_ref`.
//!
//! A kind is the name of a Rust type, as `u8` or `Vec<String>`. The outcome is the record as `Debug`
//! prints it, or the refusal.
ghost use Rattle.test_cases.specs.Kinds.{
  is_collection,
  is_number,
  is_reading,
  is_single,
  is_table,
  is_tuple,
  is_tuple_of_four,
};
ghost use Rattle.std.specs.Prelude.{IfOk, IsSome, IsTrue};

use crate::{format_both, format_refusal, parse_value};
use indexmap::IndexMap;
use redis_resp::{
    FromRedisValue, PairList, ParsingError, RawBytes, Value, from_redis_value, from_redis_value_ref,
};
use std::alloc::{AllocError, Global};
use std::collections::{BTreeMap, HashMap};
use std::fmt::Debug;

/// Runs a case of this module. Returns its outcome, or `None` if its kind is another.
pub fn run_case(alloc: Global, kind: &str, input: &str) -> Result<Option<String>, AllocError>
    ensures { IfOk result (λ o. IsSome o → IsTrue (is_reading kind.now)) }
{
    match kind {
        "u8" | "u16" | "u32" | "u64" | "usize" | "i32" | "i64" => read_number(alloc, kind, input),
        "String" | "RawBytes" | "bool" | "Value" => read_single(alloc, kind, input),
        _ if kind.starts_with('(') => read_tuple(alloc, kind, input),
        _ => read_collection(alloc, kind, input),
    }
}

/// Reads a value as an integer, if the kind is such a type.
fn read_number(alloc: Global, kind: &str, input: &str) -> Result<Option<String>, AllocError>
    ensures { IfOk result (λ o. IsSome o → IsTrue (is_number kind.now)) }
{
    match kind {
        "u8" => read_both::<u8>(alloc, input),
        "u16" => read_both::<u16>(alloc, input),
        "u32" => read_both::<u32>(alloc, input),
        "u64" => read_both::<u64>(alloc, input),
        "usize" => read_both::<usize>(alloc, input),
        "i32" => read_both::<i32>(alloc, input),
        "i64" => read_both::<i64>(alloc, input),
        _ => Ok(None),
    }
}

/// Reads a value as a text, as bytes, as a boolean or as it is, if the kind is such a type.
fn read_single(alloc: Global, kind: &str, input: &str) -> Result<Option<String>, AllocError>
    ensures { IfOk result (λ o. IsSome o → IsTrue (is_single kind.now)) }
{
    match kind {
        "String" => read_both::<String>(alloc, input),
        "RawBytes" => read_both::<RawBytes>(alloc, input),
        "bool" => read_both::<bool>(alloc, input),
        "Value" => read_both::<Value>(alloc, input),
        _ => Ok(None),
    }
}

/// Reads a value as a tuple, if the kind is such a type.
fn read_tuple(alloc: Global, kind: &str, input: &str) -> Result<Option<String>, AllocError>
    ensures { IfOk result (λ o. IsSome o → IsTrue (is_tuple kind.now)) }
{
    match kind {
        "(String, u32)" => read_both::<(String, u32)>(alloc, input),
        "(String, String)" => read_both::<(String, String)>(alloc, input),
        "(u16, i64)" => read_both::<(u16, i64)>(alloc, input),
        "(u64, bool, u8)" => read_both::<(u64, bool, u8)>(alloc, input),
        "(u16, u16, u16)" => read_both::<(u16, u16, u16)>(alloc, input),
        "(i32, Option<u8>, i32)" => read_both::<(i32, Option<u8>, i32)>(alloc, input),
        _ => read_tuple_of_four(alloc, kind, input),
    }
}

/// Reads a value as a tuple of four members, if the kind is such a type.
fn read_tuple_of_four(alloc: Global, kind: &str, input: &str) -> Result<Option<String>, AllocError>
    ensures { IfOk result (λ o. IsSome o → IsTrue (is_tuple_of_four kind.now)) }
{
    match kind {
        "(u16, Option<u16>, i64, Option<usize>)" => {
            read_both::<(u16, Option<u16>, i64, Option<usize>)>(alloc, input)
        }
        "(String, String, String, u32)" => {
            read_both::<(String, String, String, u32)>(alloc, input)
        }
        _ => Ok(None),
    }
}

/// Reads a value as a list, an option, a list of pairs or a map, if the kind is such a type.
fn read_collection(alloc: Global, kind: &str, input: &str) -> Result<Option<String>, AllocError>
    ensures { IfOk result (λ o. IsSome o → IsTrue (is_collection kind.now)) }
{
    match kind {
        "Vec<String>" => read_both::<Vec<String>>(alloc, input),
        "Vec<Value>" => read_both::<Vec<Value>>(alloc, input),
        "Option<u32>" => read_both::<Option<u32>>(alloc, input),
        "Option<String>" => read_both::<Option<String>>(alloc, input),
        _ => read_table(alloc, kind, input),
    }
}

/// Reads a value as a list of pairs or a map, if the kind is such a type.
fn read_table(alloc: Global, kind: &str, input: &str) -> Result<Option<String>, AllocError>
    ensures { IfOk result (λ o. IsSome o → IsTrue (is_table kind.now)) }
{
    match kind {
        "PairList<u16>" => read_both::<PairList<u16>>(alloc, input),
        "IndexMap<String, u16>" => read_both::<IndexMap<String, u16>>(alloc, input),
        "HashMap<String, Value>" => read_both::<HashMap<String, Value>>(alloc, input),
        "BTreeMap<String, u16>" => read_both::<BTreeMap<String, u16>>(alloc, input),
        _ => Ok(None),
    }
}

/// Reads a value by both calls, and compares their outcomes.
fn read_both<T: FromRedisValue + Debug>(
    alloc: Global,
    input: &str,
) -> Result<Option<String>, AllocError> {
    let value = match parse_value(alloc, input)? {
        Ok(value) => value,
        Err(text) => return Ok(Some(text)),
    };
    let before = value.try_clone(alloc)?;
    let lent = format_result(alloc, from_redis_value_ref::<T>(alloc, &value))?;
    let changed = value != before;
    drop(before);
    let owned = format_result(alloc, from_redis_value::<T>(alloc, value))?;
    Ok(Some(format_both(alloc, owned, &lent, changed)?))
}

/// Returns the record as `Debug` prints it, or the refusal.
fn format_result<T: Debug + Drop>(
    alloc: Global,
    answer: Result<T, ParsingError>,
) -> Result<String, AllocError> {
    match answer {
        Ok(record) => format!(in alloc; "{record:?}"),
        Err(error) => format_refusal(alloc, &error),
    }
}
