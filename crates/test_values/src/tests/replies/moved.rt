//! A read by value takes the values of fields out of the value that it consumes and copies none.
//!
//! Both tests build the same two values, a text and an array of a hundred texts. Each puts one of them
//! into the field of an entry, drops the other, and reads the entry by value. As
//! `tools/sweep-refused-memory` refuses each request for memory in turn, it reports the same number of
//! requests for both tests, so that each request is met in both or in neither. A copy of the text
//! would take one request more, and a copy of the array a hundred and one.
use redis_resp::{ParsingError, Value, from_redis_value};
use redis_streams::StreamReadReply;
use std::alloc::{AllocError, Global};

/// A bulk string.
fn bulk(alloc: Global, text: &str) -> Result<Value, AllocError> {
    Ok(Value::BulkString(Vec::from_slice(alloc, text.as_bytes())?))
}

/// An array of a hundred texts.
fn texts(alloc: Global) -> Result<Value, AllocError> {
    let mut texts = Vec::with_capacity(alloc, 100)?;
    for _ in 0..100 {
        texts.push(bulk(alloc, "v")?)?;
    }
    Ok(Value::Array(texts))
}

/// An array of this name and this value.
fn named(alloc: Global, name: &str, value: Value) -> Result<Value, AllocError> {
    let name = bulk(alloc, name)?;
    Ok(Value::Array(vec![in alloc; name, value]?))
}

/// An array that holds only this value.
fn alone(alloc: Global, value: Value) -> Result<Value, AllocError> {
    Ok(Value::Array(vec![in alloc; value]?))
}

/// A reply of XREAD on the stream `s`, with the entry `1-0` that has this value as its field `f`.
fn read_of(alloc: Global, field: Value) -> Result<StreamReadReply, ParsingError> {
    let fields = named(alloc, "f", field)?;
    let row = named(alloc, "1-0", fields)?;
    let rows = alone(alloc, row)?;
    let stream = named(alloc, "s", rows)?;
    from_redis_value(alloc, alone(alloc, stream)?)
}

/// Whether the entry is read with the text as its field.
fn text_is_read(alloc: Global) -> Result<bool, ParsingError> {
    texts(alloc)?;
    let reply = read_of(alloc, bulk(alloc, "v")?)?;
    Ok(matches!(field(&reply), Some(Value::BulkString(_))))
}

/// Whether the entry is read with the array as its field.
fn array_is_read(alloc: Global) -> Result<bool, ParsingError> {
    bulk(alloc, "v")?;
    let reply = read_of(alloc, texts(alloc)?)?;
    Ok(matches!(field(&reply), Some(Value::Array(_))))
}

/// The field of the first entry.
fn field(reply: &StreamReadReply) -> Option<&Value> {
    reply.keys.first()?.ids.first()?.map.get("f")
}

#[test]
fn a_text_is_moved_with_refused_memory(rt: HostRuntime) {
    let answer = text_is_read(rt.alloc());
    assert!(rt; answer == Ok(true) || answer == Err(ParsingError::Memory));
}

#[test]
fn an_array_is_moved_with_refused_memory(rt: HostRuntime) {
    let answer = array_is_read(rt.alloc());
    assert!(rt; answer == Ok(true) || answer == Err(ParsingError::Memory));
}
