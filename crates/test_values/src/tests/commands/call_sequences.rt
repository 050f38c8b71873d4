use crate::fixed_args::fixed_args_of;
use crate::tests::{holds, is_listed, words_of};
use redis_resp::{RawBytes, ToRedisArgs};
use std::alloc::{AllocError, Global};
use std::process::Abort;
use stream_options::{StreamReadOptions, StreamTrimStrategy, StreamTrimmingMode};
use test_notation::call_sequences::{AddCall, ReadCall, play_add, play_read};

/// A name of one argument, or of none if the text is empty.
fn name(alloc: Global, text: &str) -> Result<Vec<RawBytes>, AllocError> {
    let mut parts = Vec::new(alloc);
    if text != "" {
        parts.push(RawBytes(Vec::from_slice(alloc, text.as_bytes())?))?;
    }
    Ok(parts)
}

fn group(alloc: Global, group: &str, consumer: &str) -> Result<ReadCall, AllocError> {
    let group = name(alloc, group)?;
    let consumer = name(alloc, consumer)?;
    Ok(ReadCall::Group(group, consumer))
}

fn trim_from(alloc: Global, id: &str) -> Result<AddCall, AllocError> {
    let id = String::from_str(alloc, id)?;
    let strategy = StreamTrimStrategy::minid(StreamTrimmingMode::Approx, id);
    Ok(AddCall::Trim(strategy))
}

fn idmp(alloc: Global, producer_id: &str, idempotent_id: &str) -> Result<AddCall, AllocError> {
    let producer_id = String::from_str(alloc, producer_id)?;
    let idempotent_id = String::from_str(alloc, idempotent_id)?;
    Ok(AddCall::Idmp(producer_id, idempotent_id))
}

fn idmpauto(alloc: Global, producer_id: &str) -> Result<AddCall, AllocError> {
    Ok(AddCall::Idmpauto(String::from_str(alloc, producer_id)?))
}

/// Checks that the options write the words of this line, in memory and in place.
fn check<T: ToRedisArgs>(rt: &(impl Abort + AllocGlobal), options: &T, line: &str) {
    let words = words_of(rt, line);
    assert!(rt; is_listed(rt, options, &words), "of {line}");
    assert!(rt; is_fixed(options, &words), "of {line}");
}

fn is_fixed<T: ToRedisArgs>(options: &T, words: &[Vec<u8>]) -> bool {
    match fixed_args_of::<T, 16, 128>(options) {
        Ok(fixed) => holds(&fixed, words),
        Err(_full) => false,
    }
}

fn three_of_add(rt: &(impl Abort + AllocGlobal)) -> Result<Vec<AddCall>, AllocError> {
    let first = idmp(rt.alloc(), "a", "b")?;
    let last = idmpauto(rt.alloc(), "NOMKSTREAM")?;
    Ok(vec![in rt.alloc(); first, AddCall::Nomkstream, last]?)
}

#[test]
fn the_last_trim_wins(rt: HostRuntime) {
    let limited = StreamTrimStrategy::maxlen(StreamTrimmingMode::Exact, 5).limit(2);
    let last = trim_from(rt.alloc(), "x").expect(&rt, "memory");
    let calls = vec![in rt.alloc(); AddCall::Trim(limited), last];
    check(&rt, &play_add(calls.expect(&rt, "memory")), "MINID ~ x");
}

#[test]
fn no_calls_make_the_default(rt: HostRuntime) {
    check(&rt, &play_add(Vec::new(rt.alloc())), "");
}

#[test]
fn the_last_idempotency_wins(rt: HostRuntime) {
    let calls = three_of_add(&rt).expect(&rt, "memory");
    let line = "NOMKSTREAM IDMPAUTO NOMKSTREAM";
    check(&rt, &play_add(calls), line);
}

/// Checks that the calls make options that write the words of this line, and whether they are for XREAD only.
fn check_read(rt: &(impl Abort + AllocGlobal), calls: Vec<ReadCall>, read_only: bool, line: &str) {
    let options = play_read(rt.alloc(), calls).expect(rt, "memory");
    assert!(rt; options.read_only() == read_only);
    check(rt, &options, line);
}

#[test]
fn a_group_without_names_is_a_group(rt: HostRuntime) {
    let none = group(rt.alloc(), "", "").expect(&rt, "memory");
    let calls = (vec![in rt.alloc(); none, ReadCall::Noack]).expect(&rt, "memory");
    check_read(&rt, calls, false, "GROUP NOACK");
}

#[test]
fn the_last_group_wins(rt: HostRuntime) {
    let first = group(rt.alloc(), "g", "c").expect(&rt, "memory");
    let last = group(rt.alloc(), "h", "d").expect(&rt, "memory");
    let calls = vec![in rt.alloc(); first, ReadCall::Claim(1), last];
    let calls = calls.expect(&rt, "memory");
    check_read(&rt, calls, false, "GROUP h d CLAIM 1");
}

#[test]
fn the_last_number_wins(rt: HostRuntime) {
    let [first, count] = [ReadCall::Block(5), ReadCall::Count(2)];
    let calls = vec![in rt.alloc(); first, count, ReadCall::Block(6)];
    let calls = calls.expect(&rt, "memory");
    check_read(&rt, calls, true, "BLOCK 6 COUNT 2");
}

/// Six calls, two of which name a group.
fn six_of_read(alloc: Global) -> Result<Vec<ReadCall>, AllocError> {
    let first = group(alloc, "g", "c")?;
    let last = group(alloc, "h", "")?;
    let [noack, count] = [ReadCall::Noack, ReadCall::Count(2)];
    let [block, claim] = [ReadCall::Block(5), ReadCall::Claim(1)];
    Ok(vec![in alloc; noack, first, block, claim, last, count]?)
}

/// Makes the calls of a sequence and applies them, and checks what the options write. Only making the
/// calls and applying them allocate.
fn check_played(rt: &(impl AllocGlobal + Abort)) -> Result<(), AllocError> {
    let options = play_read(rt.alloc(), six_of_read(rt.alloc())?)?;
    assert!(rt; writes_played(&options));
    Ok(())
}

fn writes_played(options: &StreamReadOptions) -> bool {
    let Ok(fixed) = fixed_args_of::<_, 16, 128>(options) else {
        return false;
    };
    let mut count = 0usize;
    for (index, word) in "GROUP h BLOCK 5 COUNT 2 NOACK CLAIM 1"
        .split(' ')
        .enumerate()
    {
        if fixed.get(index) != Some(word.as_bytes()) {
            return false;
        }
        count = index;
    }
    fixed.len() == 9 && count == 8
}

#[test]
fn ample_memory_makes_a_play(rt: HostRuntime) {
    assert!(rt; check_played(&rt) == Ok(()));
}

/// `tools/sweep-refused-memory` runs it with each request for memory refused in turn. A wrong result
/// ends it in `check_played`; the error that memory ran out is a right result.
#[test]
fn refused_memory_makes_no_other_play(rt: HostRuntime) {
    match check_played(&rt) {
        Ok(()) | Err(AllocError) => {}
    }
}

#[test]
fn too_small_a_place_is_full(rt: HostRuntime) {
    let strategy = StreamTrimStrategy::maxlen(StreamTrimmingMode::Approx, 10);
    assert!(rt; fixed_args_of::<_, 3, 9>(&strategy).is_ok());
    assert!(rt; fixed_args_of::<_, 3, 8>(&strategy).is_err());
    assert!(rt; fixed_args_of::<_, 2, 9>(&strategy).is_err());
}
