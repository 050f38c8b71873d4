//! Tests of replies of many items, and of values that are large or deep. They go from the notation to
//! printed forms, by both calls, and as copies.
//!
//! With checks and without proofs each takes a minute or more, and deep ones need a larger stack. So
//! only the gate runs them, and they are no part of `tests`: `rt try --test -- tests::` leaves them out.

mod copies;
mod depth;
mod entry;
mod many;
mod values;

use redis_resp::{FromRedisValue, ParsingError, Value, from_redis_value, from_redis_value_ref};
use std::alloc::{AllocError, Global};
use std::process::Abort;
use test_notation::{PrintedForm, read_value};

/// A line of items: the text before them, one item, the text between each two, and the text after
/// them.
/// Each `$` in an item is its number, from 10,000 on, so that all numbers have five digits.
type Line<'a> = (&'a str, &'a str, &'a str, &'a str);

/// A line of `count` items.
fn line_of(rt: &(impl AllocGlobal + Abort), line: Line<'_>, count: usize) -> String {
    write_line(rt.alloc(), line, count).expect(rt, "memory")
}

/// The value of a line of `count` items in the notation.
fn value_of(rt: &(impl AllocGlobal + Abort), line: Line<'_>, count: usize) -> Value {
    read_value(rt.alloc(), &line_of(rt, line, count)).expect(rt, "a value")
}

fn write_line(alloc: Global, line: Line<'_>, count: usize) -> Result<String, AllocError> {
    let (before, item, between, behind) = line;
    let mut text = String::from_str(alloc, before)?;
    for number in 0..count {
        if number > 0 {
            text.push_str(between)?;
        }
        for letter in item.chars() {
            if letter == '$' {
                write!(text, "{}", number.saturating_add(10_000))?;
            } else {
                text.push(letter)?;
            }
        }
    }
    text.push_str(behind)?;
    Ok(text)
}

/// The counts of items that are tried: 0 to 64, 1,000 and 10,000, for the steps from 0 to 66.
fn count_of(step: usize) -> usize {
    match step {
        65 => 1_000,
        66 => 10_000,
        count => count,
    }
}

/// Checks that the results of both calls have this printed form, and that the borrowed value is unchanged.
fn check_printed<T: FromRedisValue + PrintedForm>(
    rt: &(impl AllocGlobal + Abort),
    value: Value,
    printed: &str,
) {
    let copy = value.try_clone(rt.alloc()).expect(rt, "memory");
    check_answer(rt, from_redis_value_ref::<T>(rt.alloc(), &value), printed);
    assert!(rt; value == copy, "{printed}: the value was changed");
    drop(copy);
    check_answer(rt, from_redis_value::<T>(rt.alloc(), value), printed);
}

/// Checks that the result has this printed form.
fn check_answer<T: PrintedForm + Drop>(
    rt: &(impl AllocGlobal + Abort),
    answer: Result<T, ParsingError>,
    printed: &str,
) {
    let told = match answer {
        Ok(record) => record.printed(rt.alloc()),
        Err(error) => error.printed(rt.alloc()),
    };
    let told = told.expect(rt, "memory");
    assert!(rt; told.as_str() == printed, "{told}, not {printed}");
}
