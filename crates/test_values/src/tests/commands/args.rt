//! Plain arguments, and the writers that they are written to.
use crate::tests::{check, check_place, holds, is_listed, text};
use redis_args::{
    FixedArgs, RawBytes, RedisWrite, ToRedisArgs, WriteError, equal_bytes, equal_write_errors,
};
use std::process::Abort;

/// Checks that the value writes these arguments: as a list, and in a buffer of a fixed size.
fn check_args<T: ToRedisArgs>(rt: &(impl AllocGlobal + Abort), value: &T, wanted: &[&[u8]]) {
    let args = args_of(rt, wanted);
    assert!(rt; is_listed(rt, value, &args));
    let mut place: FixedArgs<8, 64> = FixedArgs::new();
    assert!(rt; value.write_redis_args(&mut place) == Ok(()));
    assert!(rt; holds(&place, &args));
}

/// These arguments on the heap.
fn args_of(rt: &(impl AllocGlobal + Abort), args: &[&[u8]]) -> Vec<Vec<u8>> {
    let mut copies = Vec::new(rt.alloc());
    for arg in args {
        copies.push(bytes(rt, arg)).expect(rt, "memory");
    }
    copies
}

/// These bytes on the heap.
fn bytes(rt: &(impl AllocGlobal + Abort), bytes: &[u8]) -> Vec<u8> {
    Vec::from_slice(rt.alloc(), bytes).expect(rt, "memory")
}

#[test]
fn texts_and_bytes_are_one_argument_each(rt: HostRuntime) {
    check(&rt, &text(&rt, "é"), "é");
    check_args(&rt, &RawBytes(bytes(&rt, &[255, 0])), &[&[255, 0]]);
    check_args(&rt, &bytes(&rt, &[255, 0]), &[&[255, 0]]);
}

#[test]
fn borrowed_texts_and_bytes_are_one_argument_each(rt: HostRuntime) {
    let plain = ("a b", &"b", "", b"c".as_slice());
    check_args(&rt, &plain, &[b"a b", b"b", b"", b"c"]);
}

#[test]
fn numbers_and_flags_are_one_argument_each(rt: HostRuntime) {
    let unsigned = (3u16, 0u32, u64::MAX, 10usize);
    check(&rt, &unsigned, "3 0 18446744073709551615 10");
    let signed = (i32::MIN, i64::MIN, isize::MAX);
    let line = "-2147483648 -9223372036854775808 9223372036854775807";
    check(&rt, &signed, line);
    check(&rt, &(true, false), "1 0");
}

#[test]
fn lists_and_options_are_joined(rt: HostRuntime) {
    let numbers = (vec![in rt.alloc(); 7u16, 65535]).expect(&rt, "memory");
    check(&rt, &Some(numbers), "7 65535");
    check(&rt, &None::<String>, "");
    check(&rt, &["a", "b"], "a b");
    check(&rt, &[("f", 1u64), ("g", 2)], "f 1 g 2");
}

/// (One tuple a test: several in one function cost many times as much to prove.)
#[test]
fn three_are_joined(rt: HostRuntime) {
    check(&rt, &("a", "b", "c"), "a b c");
}

#[test]
fn five_are_joined(rt: HostRuntime) {
    check(&rt, &("a", "b", "c", "d", "e"), "a b c d e");
}

#[test]
fn six_are_joined(rt: HostRuntime) {
    check(&rt, &("a", "b", "c", "d", "e", "f"), "a b c d e f");
}

#[test]
fn seven_are_joined(rt: HostRuntime) {
    check(&rt, &("a", "b", "c", "d", "e", "f", "g"), "a b c d e f g");
}

#[test]
fn eight_are_joined(rt: HostRuntime) {
    let eight = ("a", "b", "c", "d", "e", "f", "g", "h");
    check(&rt, &eight, "a b c d e f g h");
}

#[test]
fn places_without_room_are_full(rt: HostRuntime) {
    let full = Err(WriteError::Full);
    check_place(&rt, FixedArgs::<0, 0>::new(), &"", full, "");
    let mut one: FixedArgs<1, 0> = FixedArgs::new();
    assert!(rt; ["", ""].write_redis_args(&mut one) == full);
    assert!(rt; holds(&one, &args_of(&rt, &[b""])));
}

#[test]
fn a_little_place_is_full(rt: HostRuntime) {
    let mut two: FixedArgs<2, 3> = FixedArgs::new();
    assert!(rt; two.write_arg(b"abcd") == Err(WriteError::Full));
    assert!(rt; two.write_arg(b"abc") == Ok(()));
    assert!(rt; two.write_arg(b"") == Ok(()));
    assert!(rt; holds(&two, &args_of(&rt, &[b"abc", b""])));
}

/// The arguments before the one that was refused are in the buffer, each whole, and the error is the
/// writer's own.
#[test]
fn a_refusal_is_passed_on(rt: HostRuntime) {
    let list = ["ab", "abc", "c"];
    let full = Err(WriteError::Full);
    check_place(&rt, FixedArgs::<8, 4>::new(), &list, full, "ab");
}

#[test]
fn a_long_list_is_written(rt: HostRuntime) {
    let mut list = Vec::new(rt.alloc());
    for n in 0..10_000u32 {
        list.push(n).expect(&rt, "memory");
    }
    let listed = list.to_redis_args(rt.alloc()).expect(&rt, "memory");
    assert!(rt; ends_with_9999(&listed));
}

fn ends_with_9999(listed: &[Vec<u8>]) -> bool {
    match listed.last() {
        Some(arg) => listed.len() == 10_000 && arg.as_slice() == b"9999".as_slice(),
        None => false,
    }
}

#[test]
fn equal_write_errors_are_told(rt: HostRuntime) {
    assert!(rt; equal_write_errors(WriteError::Full, WriteError::Full));
    assert!(rt; !equal_write_errors(WriteError::Full, WriteError::Memory));
}

fn equals_bytes(rt: &(impl AllocGlobal + Abort), one: &RawBytes, other: &[u8]) -> bool {
    equal_bytes(one, &RawBytes(bytes(rt, other)))
}

#[test]
fn equal_bytes_are_told(rt: HostRuntime) {
    let mut roomy = Vec::with_capacity(rt.alloc(), 64).expect(&rt, "memory");
    roomy.push(255).expect(&rt, "memory");
    let roomy = RawBytes(roomy);
    assert!(rt; equals_bytes(&rt, &roomy, &[255]));
    assert!(rt; !equals_bytes(&rt, &roomy, &[254]));
    assert!(rt; !equals_bytes(&rt, &roomy, &[]));
}
