//! Values at the start of a text.
ghost use Rattle.std.specs.Prelude.{◌<◌, ◌≤◌, IfOk, length};

use crate::notation::error::NotationError;
use crate::notation::quoted::{bulk_in, text_in};
use crate::notation::scan::{expect_mark, parse_number, strip_mark, take_word};
use redis_resp::Value;
use std::alloc::Global;

/// Parses the value at the start of a text, and returns it and the rest of the text.
#[cycle(value)]
pub fn value_in(alloc: Global, text: &[u8]) -> Result<(Value, &[u8]), NotationError>
    ensures { IfOk result (λ r. length r.1.now < length text.now) }
{
    match take_word(text) {
        Ok((b"Array", rest)) => array_in(alloc, rest),
        Ok((b"Set", rest)) => set_in(alloc, rest),
        Ok((b"Map", rest)) => map_in(alloc, rest),
        Ok((b"Push", rest)) => push_in(alloc, rest),
        Ok((b"Attr", rest)) => attribute_in(alloc, rest),
        _ => plain_in(alloc, text),
    }
}

/// `[value, ..]`
#[cycle(value)]
fn array_in(alloc: Global, text: &[u8]) -> Result<(Value, &[u8]), NotationError>
    ensures { IfOk result (λ r. length r.1.now < length text.now) }
{
    let (values, rest) = values_in(alloc, text)?;
    Ok((Value::Array(values), rest))
}

/// `[value, ..]`
#[cycle(value)]
fn set_in(alloc: Global, text: &[u8]) -> Result<(Value, &[u8]), NotationError>
    ensures { IfOk result (λ r. length r.1.now < length text.now) }
{
    let (values, rest) = values_in(alloc, text)?;
    Ok((Value::Set(values), rest))
}

/// `[value: value, ..]`
#[cycle(value)]
fn map_in(alloc: Global, text: &[u8]) -> Result<(Value, &[u8]), NotationError>
    ensures { IfOk result (λ r. length r.1.now < length text.now) }
{
    let (pairs, rest) = pairs_in(alloc, expect_mark(text, '[')?, ']')?;
    Ok((Value::Map(pairs), rest))
}

/// `[value, ..]`
#[cycle(value)]
fn values_in(alloc: Global, text: &[u8]) -> Result<(Vec<Value>, &[u8]), NotationError>
    ensures { IfOk result (λ r. length r.1.now < length text.now) }
{
    let mut values = Vec::new(alloc);
    let mut rest = expect_mark(text, '[')?;
    if let Some(behind) = strip_mark(rest, ']') {
        return Ok((values, behind));
    }
    loop {
        let (value, behind) = value_in(alloc, rest)?;
        values.push(value)?;
        if let Some(end) = strip_mark(behind, ']') {
            return Ok((values, end));
        }
        rest = expect_mark(behind, ',')?;
    }
}

/// `value: value, ..` and the mark that ends the list
#[cycle(value)]
fn pairs_in(
    alloc: Global,
    text: &[u8],
    close: char,
) -> Result<(Vec<(Value, Value)>, &[u8]), NotationError>
    ensures { IfOk result (λ r. length r.1.now < length text.now) }
{
    let mut pairs = Vec::new(alloc);
    if let Some(behind) = strip_mark(text, close) {
        return Ok((pairs, behind));
    }
    let mut rest = text;
    loop {
        let (key, behind) = value_in(alloc, rest)?;
        let (value, behind) = value_in(alloc, expect_mark(behind, ':')?)?;
        pairs.push((key, value))?;
        if let Some(end) = strip_mark(behind, close) {
            return Ok((pairs, end));
        }
        rest = expect_mark(behind, ',')?;
    }
}

/// `(text)[value, ..]`
#[cycle(value)]
fn push_in(alloc: Global, text: &[u8]) -> Result<(Value, &[u8]), NotationError>
    ensures { IfOk result (λ r. length r.1.now < length text.now) }
{
    let (kind, rest) = text_in(alloc, expect_mark(text, '(')?)?;
    let (payload, rest) = values_in(alloc, expect_mark(rest, ')')?)?;
    Ok((Value::Push { kind, payload }, rest))
}

/// `(value)` or `(value; value: value, ..)`
#[cycle(value)]
fn attribute_in(alloc: Global, text: &[u8]) -> Result<(Value, &[u8]), NotationError>
    ensures { IfOk result (λ r. length r.1.now < length text.now) }
{
    let (payload, rest) = value_in(alloc, expect_mark(text, '(')?)?;
    let payload = Box::new(alloc, payload)?;
    let (attributes, rest) = match strip_mark(rest, ';') {
        Some(rest) => pairs_in(alloc, rest, ')')?,
        None => (Vec::new(alloc), expect_mark(rest, ')')?),
    };
    Ok((
        Value::Attribute {
            payload,
            attributes,
        },
        rest,
    ))
}

/// Parses a value that holds no other values.
fn plain_in(alloc: Global, text: &[u8]) -> Result<(Value, &[u8]), NotationError>
    ensures { IfOk result (λ r. length r.1.now < length text.now) }
{
    match take_word(text) {
        Ok((b"Nil", rest)) => Ok((Value::Nil, rest)),
        Ok((b"Okay", rest)) => Ok((Value::Okay, rest)),
        Ok((b"Int", rest)) => int_in(rest),
        Ok((b"Boolean", rest)) => boolean_in(rest),
        Ok((b"Simple", rest)) => simple_in(alloc, rest),
        Ok((b"Verbatim", rest)) => verbatim_in(alloc, rest),
        Ok((b"Bytes", rest)) => bytes_in(alloc, rest),
        _ => {
            let (bytes, rest) = bulk_in(alloc, text)?;
            Ok((Value::BulkString(bytes), rest))
        }
    }
}

/// A number
fn int_in(text: &[u8]) -> Result<(Value, &[u8]), NotationError>
    ensures { IfOk result (λ r. length r.1.now < length text.now) }
{
    let (word, rest) = take_word(text)?;
    let number = parse_number(word).ok_or(NotationError::NotNumber)?;
    Ok((Value::Int(number), rest))
}

/// `(true)` or `(false)`
fn boolean_in(text: &[u8]) -> Result<(Value, &[u8]), NotationError>
    ensures { IfOk result (λ r. length r.1.now < length text.now) }
{
    let (word, rest) = take_word(expect_mark(text, '(')?)?;
    match truth_of(word) {
        Some(truth) => close_value(Value::Boolean(truth), rest),
        None => Err(NotationError::NotBoolean),
    }
}

/// Parses `true` or `false`.
fn truth_of(word: &[u8]) -> Option<bool> {
    match word {
        b"true" => Some(true),
        b"false" => Some(false),
        _ => None,
    }
}

/// `)` after a value
fn close_value(value: Value, text: &[u8]) -> Result<(Value, &[u8]), NotationError>
    ensures { IfOk result (λ r. length r.1.now < length text.now) }
{
    match strip_mark(text, ')') {
        Some(rest) => Ok((value, rest)),
        None => Err(NotationError::NoMark(')')),
    }
}

/// `(text)`
fn simple_in(alloc: Global, text: &[u8]) -> Result<(Value, &[u8]), NotationError>
    ensures { IfOk result (λ r. length r.1.now < length text.now) }
{
    let (text, rest) = text_in(alloc, expect_mark(text, '(')?)?;
    close_value(Value::SimpleString(text), rest)
}

/// `(text, text)`
fn verbatim_in(alloc: Global, text: &[u8]) -> Result<(Value, &[u8]), NotationError>
    ensures { IfOk result (λ r. length r.1.now < length text.now) }
{
    let (format, rest) = text_in(alloc, expect_mark(text, '(')?)?;
    let (text, rest) = text_in(alloc, expect_mark(rest, ',')?)?;
    close_value(Value::VerbatimString { format, text }, rest)
}

/// `(byte, ..)`
fn bytes_in(alloc: Global, text: &[u8]) -> Result<(Value, &[u8]), NotationError>
    ensures { IfOk result (λ r. length r.1.now < length text.now) }
{
    let mut bytes = Vec::new(alloc);
    let mut rest = expect_mark(text, '(')?;
    if let Some(behind) = strip_mark(rest, ')') {
        return Ok((Value::BulkString(bytes), behind));
    }
    loop {
        let (word, behind) = take_word(rest)?;
        bytes.push(byte_in(word).ok_or(NotationError::NotNumber)?)?;
        if let Some(end) = strip_mark(behind, ')') {
            return Ok((Value::BulkString(bytes), end));
        }
        rest = expect_mark(behind, ',')?;
    }
}

/// Parses a word as a decimal number that fits a byte.
fn byte_in(word: &[u8]) -> Option<u8> {
    u8::try_from(parse_number(word)?).ok()
}
