//! Values: which of them are equal, and the default value.
use redis_resp::Value;
use std::process::Abort;
use test_notation::read_value;

/// Values of each kind, no two of them equal.
const VALUES: [&str; 17] = [
    "Nil",
    "Boolean(true)",
    "Array[Int 1]",
    "Set[Int 1]",
    "Map[Int 1: Int 2]",
    "Push(message)[Int 1]",
    "Attr(Nil; Okay: Nil)",
    "Okay",
    "Int 1",
    "OK",
    "Simple(OK)",
    "Verbatim(txt, OK)",
    "Boolean(false)",
    "Array[]",
    "Set[]",
    "Map[]",
    "Attr(Okay; Okay: Nil)",
];

/// Checks that the two values are equal exactly if their notations are the same.
fn check_equality(rt: &(impl AllocGlobal + Abort), one: &str, other: &str) {
    let first = read_value(rt.alloc(), one).expect(rt, "a value");
    let second = read_value(rt.alloc(), other).expect(rt, "a value");
    assert!(rt; (first == second) == (one == other), "{one} and {other}");
}

#[test]
fn no_two_of_these_values_are_equal(rt: HostRuntime) {
    for one in &VALUES {
        for other in &VALUES {
            check_equality(&rt, one, other);
        }
    }
    assert!(rt; Value::default() == Value::Nil);
}
