//! Calls that write arguments and take memory, each request for which may be refused. Each call
//! returns its right result or the error that memory ran out, and nothing else. A list that was written
//! to then holds a proper prefix of the arguments after its own elements.
//!
//! `tools/sweep-refused-memory` runs the test with `refused_memory` in its name with each request
//! refused in turn.
use redis_args::{RawBytes, ToRedisArgs, WriteError};
use std::alloc::AllocError;
use std::process::Abort;
use stream_options::{StreamIdempotencyMode, StreamReadOptions};

/// Whether the arguments are a prefix of these words.
fn are_begun(args: &[Vec<u8>], words: &[&str]) -> bool {
    for (index, arg) in args.iter().enumerate() {
        let is_begun = match words.get(index) {
            Some(word) => arg.as_slice() == word.as_bytes(),
            None => false,
        };
        if !is_begun {
            return false;
        }
    }
    true
}

/// Checks that the value writes these words as a list.
fn check_listed<T: ToRedisArgs>(
    rt: &(impl AllocGlobal + Abort),
    value: &T,
    words: &[&str],
) -> Result<(), AllocError> {
    let args = value.to_redis_args(rt.alloc())?;
    assert!(rt; args.len() == words.len() && are_begun(&args, words));
    Ok(())
}

/// Checks that the value writes the words after the first one as a list, and after a list of the first one.
fn check_written<T: ToRedisArgs>(
    rt: &(impl AllocGlobal + Abort),
    value: &T,
    words: &[&str],
) -> Result<(), AllocError> {
    assert!(rt; words.len() > 1);
    check_listed(rt, value, &words[1..])?;
    let mut behind = vec![in rt.alloc(); Vec::from_slice(rt.alloc(), words[0].as_bytes())?]?;
    let answer = value.write_redis_args(&mut behind);
    assert!(rt; are_begun(&behind, words));
    match answer {
        Ok(()) => {
            assert!(rt; behind.len() == words.len());
            Ok(())
        }
        Err(error) => {
            assert!(rt; error == WriteError::Memory);
            assert!(rt; !behind.is_empty() && behind.len() < words.len());
            Err(AllocError)
        }
    }
}

fn check_group(rt: &(impl AllocGlobal + Abort)) -> Result<(), AllocError> {
    let first = StreamReadOptions::default()
        .noack()
        .group(rt.alloc(), "g", 7u64)?;
    let again = first.claim(1).group(rt.alloc(), "h", None::<u16>)?;
    let words = ["held", "GROUP", "h", "COUNT", "2", "NOACK", "CLAIM", "1"];
    check_written(rt, &again.count(2), &words)
}

fn check_parts_of_names(rt: &(impl AllocGlobal + Abort)) -> Result<(), AllocError> {
    let alloc = rt.alloc();
    let nothing: Vec<RawBytes> = Vec::new(alloc);
    let parts = vec![in alloc; RawBytes(Vec::from_slice(alloc, b"c")?)]?;
    let options = StreamReadOptions::default()
        .count(2)
        .group(alloc, nothing, parts)?;
    check_written(rt, &options, &["held", "GROUP", "c", "COUNT", "2"])
}

fn check_copied_mode(rt: &(impl AllocGlobal + Abort)) -> Result<(), AllocError> {
    let mode = StreamIdempotencyMode::Manual {
        producer_id: String::from_str(rt.alloc(), "p")?,
        idempotent_id: String::from_str(rt.alloc(), "i")?,
    };
    let copy = mode.try_clone(rt.alloc())?;
    check_written(rt, &copy, &["held", "IDMP", "p", "i"])
}

fn check_all(rt: &(impl AllocGlobal + Abort)) -> Result<(), AllocError> {
    check_group(rt)?;
    check_parts_of_names(rt)?;
    check_copied_mode(rt)
}

#[test]
fn ample_memory_gives_right_arguments(rt: HostRuntime) {
    assert!(rt; check_all(&rt) == Ok(()));
}

/// A wrong result ends the test in `check_written`; the error that memory ran out is a right result.
#[test]
fn refused_memory_changes_no_argument(rt: HostRuntime) {
    match check_all(&rt) {
        Ok(()) | Err(AllocError) => {}
    }
}
