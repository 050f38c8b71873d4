//! Values that are nested 20,000 levels deep: copies, equality, readings and drops.
use redis_resp::{ParsingError, Value, from_redis_value, from_redis_value_ref};
use redis_streams::StreamRangeReply;
use std::alloc::{AllocError, Global};
use std::process::Abort;

const DEPTH: usize = 20_000;

/// The number with 20,000 attributes around it.
fn attributes(rt: &(impl AllocGlobal + Abort), number: i64) -> Value {
    nest_attributes(rt.alloc(), number).expect(rt, "memory")
}

fn nest_attributes(alloc: Global, number: i64) -> Result<Value, AllocError> {
    let mut value = Value::Int(number);
    for _ in 0..DEPTH {
        value = Value::Attribute {
            payload: Box::new(alloc, value)?,
            attributes: Vec::new(alloc),
        };
    }
    Ok(value)
}

/// The number inside 20,000 arrays of one item.
fn arrays(rt: &(impl AllocGlobal + Abort), number: i64) -> Value {
    nest_arrays(rt.alloc(), number).expect(rt, "memory")
}

fn nest_arrays(alloc: Global, number: i64) -> Result<Value, AllocError> {
    let mut value = Value::Int(number);
    for _ in 0..DEPTH {
        value = Value::Array(vec![in alloc; value]?);
    }
    Ok(value)
}

/// Checks that a copy is equal to the value, and not to the other.
fn check_copy(rt: &(impl AllocGlobal + Abort), value: &Value, other: &Value) {
    let copy = value.try_clone(rt.alloc()).expect(rt, "memory");
    assert!(rt; copy == *value);
    assert!(rt; copy != *other);
}

#[test]
fn deep_values_are_copied(rt: HostRuntime) {
    check_copy(&rt, &attributes(&rt, 7), &attributes(&rt, 8));
    check_copy(&rt, &arrays(&rt, 7), &arrays(&rt, 8));
}

#[test]
fn deep_attributes_are_read(rt: HostRuntime) {
    let value = attributes(&rt, 7);
    let borrowed = from_redis_value_ref::<u16>(rt.alloc(), &value);
    assert!(rt; matches!(borrowed, Ok(7)));
    let owned = from_redis_value::<u16>(rt.alloc(), value);
    assert!(rt; matches!(owned, Ok(7)));
}

#[test]
fn deep_arrays_are_read(rt: HostRuntime) {
    let value = arrays(&rt, 7);
    let borrowed = from_redis_value_ref::<Vec<Value>>(rt.alloc(), &value);
    assert!(rt; matches!(&borrowed, Ok(items) if items.len() == 1));
}

#[test]
fn deep_values_are_refused(rt: HostRuntime) {
    let refused = from_redis_value::<StreamRangeReply>(rt.alloc(), attributes(&rt, 7));
    assert!(rt; matches!(&refused, Err(ParsingError::NotList)));
    let refused = from_redis_value::<StreamRangeReply>(rt.alloc(), arrays(&rt, 7));
    assert!(rt; matches!(&refused, Err(ParsingError::NotPairs)));
}
