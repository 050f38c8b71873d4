//! Tests of options, commands and replies that lines of data cannot say. They are of refused memory,
//! values that are moved, types of a user's own, equality, and values that are large or deep. The
//! programs `test_cases` and `streams_bench` have the rest.
//!
//! A check of tests proves the functions of their crate a second time. So these tests are in a crate
//! of their own. A test ends its process if memory runs out, so its calls run one after the other.
//! Only those with `refused_memory` in their names go on when memory runs out.
#![tactic(auto)]

#[cfg(test)]
mod copied;
mod fixed_args;
#[cfg(test)]
mod sizes;
#[cfg(test)]
mod tests;

#[cfg(test)]
use redis_resp::{FromRedisValue, ParsingError, from_redis_value, from_redis_value_ref};
#[cfg(test)]
use std::fmt::Debug;
#[cfg(test)]
use std::process::Abort;
#[cfg(test)]
use test_notation::read_value;

/// Checks that both calls return this for the value, as `Debug` prints a record or a refusal, and that
/// the borrowed value is unchanged.
#[cfg(test)]
fn check_value<T: FromRedisValue + Debug>(
    rt: &(impl AllocGlobal + Abort),
    notation: &str,
    shown: &str,
) {
    let value = read_value(rt.alloc(), notation).expect(rt, "a value");
    let copy = value.try_clone(rt.alloc()).expect(rt, "memory");
    check_shown(rt, &from_redis_value_ref::<T>(rt.alloc(), &value), shown);
    assert!(rt; value == copy, "{notation} was changed");
    check_shown(rt, &from_redis_value::<T>(rt.alloc(), value), shown);
}

/// Checks that `Debug` prints the result like this.
#[cfg(test)]
fn check_shown<T: Debug>(
    rt: &(impl AllocGlobal + Abort),
    answer: &Result<T, ParsingError>,
    shown: &str,
) {
    let told = format!(in rt.alloc(); "{answer:?}").expect(rt, "memory");
    assert!(rt; told.as_str() == shown, "{told}, not {shown}");
}
