//! The tests, by subject, and what they share.

mod commands;
mod replies;

use redis_args::{FixedArgs, ToRedisArgs, WriteError};
use std::alloc::{AllocError, Global};
use std::fmt::Debug;
use std::process::Abort;

/// A text on the heap.
fn text(rt: &(impl AllocGlobal + Abort), text: &str) -> String {
    String::from_str(rt.alloc(), text).expect(rt, "memory")
}

/// The words of a line as arguments; no arguments for the empty line.
fn words_of(rt: &(impl AllocGlobal + Abort), line: &str) -> Vec<Vec<u8>> {
    if line == "" {
        return Vec::new(rt.alloc());
    }
    words_in(rt.alloc(), line).expect(rt, "memory")
}

fn words_in(alloc: Global, line: &str) -> Result<Vec<Vec<u8>>, AllocError> {
    let mut words = Vec::new(alloc);
    for word in line.split(' ') {
        words.push(Vec::from_slice(alloc, word.as_bytes())?)?;
    }
    Ok(words)
}

/// Checks that the two values are equal. (`assert_eq!` at each place costs many times as much to prove.)
fn check_same<T: PartialEq + Debug + Drop>(rt: &impl Abort, found: T, wanted: T) {
    assert_eq!(rt; found, wanted);
}

/// Checks that the value writes the words of this line, each one argument: as a list, after the
/// elements of a list, and into a buffer of a fixed size with room.
fn check<T: ToRedisArgs>(rt: &(impl AllocGlobal + Abort), value: &T, line: &str) {
    let words = words_of(rt, line);
    assert!(rt; is_listed(rt, value, &words), "of {line}");
    assert!(rt; is_added(rt, value, &words), "of {line}");
    check_place(rt, FixedArgs::<16, 128>::new(), value, Ok(()), line);
}

fn is_listed<T: ToRedisArgs>(
    rt: &(impl AllocGlobal + Abort),
    value: &T,
    words: &[Vec<u8>],
) -> bool {
    let listed = value.to_redis_args(rt.alloc()).expect(rt, "memory");
    listed.as_slice() == words
}

fn is_added<T: ToRedisArgs>(rt: &(impl AllocGlobal + Abort), value: &T, words: &[Vec<u8>]) -> bool {
    let mut held = words_of(rt, "held");
    let answer = value.write_redis_args(&mut held);
    answer == Ok(()) && held.get(1..) == Some(words)
}

/// Checks what writing the value into this empty buffer returns, and that the buffer then holds these words.
fn check_place<T: ToRedisArgs, const N: usize, const B: usize>(
    rt: &(impl AllocGlobal + Abort),
    mut place: FixedArgs<N, B>,
    value: &T,
    answer: Result<(), WriteError>,
    line: &str,
) {
    assert!(rt; value.write_redis_args(&mut place) == answer, "of {line}");
    assert!(rt; holds(&place, &words_of(rt, line)), "of {line}");
}

/// Whether the buffer holds these arguments and nothing else.
fn holds<const N: usize, const B: usize>(place: &FixedArgs<N, B>, args: &[Vec<u8>]) -> bool {
    for (index, arg) in args.iter().enumerate() {
        if place.get(index) != Some(arg.as_slice()) {
            return false;
        }
    }
    place.len() == args.len() && place.get(args.len()) == None
}
