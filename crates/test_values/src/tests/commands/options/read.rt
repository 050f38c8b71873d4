//! Read options, with names of several types.
use crate::tests::{check, check_place};
use redis_args::{FixedArgs, RawBytes, ToRedisArgs, WriteError};
use std::process::Abort;
use stream_options::StreamReadOptions;

/// Checks that with these names the options are not for XREAD only, and write these words.
fn check_grouped<G: ToRedisArgs + Drop, C: ToRedisArgs + Drop>(
    rt: &(impl AllocGlobal + Abort),
    options: StreamReadOptions,
    group: G,
    consumer: C,
    line: &str,
) {
    let grouped = options.group(rt.alloc(), group, consumer);
    let grouped = grouped.expect(rt, "memory");
    assert!(rt; !grouped.read_only(), "of {line}");
    check(rt, &grouped, line);
}

#[test]
fn plain_reads(rt: HostRuntime) {
    let ungrouped = StreamReadOptions::default().noack().claim(100);
    assert!(rt; ungrouped.read_only());
    check(&rt, &ungrouped, "");
    let again = ungrouped.block(5).count(2).block(6);
    assert!(rt; again.read_only());
    check(&rt, &again, "BLOCK 6 COUNT 2");
}

#[test]
fn names(rt: HostRuntime) {
    let options = StreamReadOptions::default().count(2);
    check_grouped(&rt, options, "c", "BLOCK", "GROUP c BLOCK COUNT 2");
    let options = StreamReadOptions::default();
    check_grouped(&rt, options, 7u64, true, "GROUP 7 1");
}

#[test]
fn the_last_group_counts(rt: HostRuntime) {
    let first = StreamReadOptions::default()
        .noack()
        .group(rt.alloc(), "g", "c");
    let first = first.expect(&rt, "memory").block(5).claim(1).count(2);
    let line = "GROUP h BLOCK 5 COUNT 2 NOACK CLAIM 1";
    check_grouped(&rt, first, "h", None::<u16>, line);
}

#[test]
fn names_that_are_not_single(rt: HostRuntime) {
    let none: [RawBytes; 0] = [];
    let options = StreamReadOptions::default().noack();
    check_grouped(&rt, options, none, None::<u16>, "GROUP NOACK");
    let options = StreamReadOptions::default().count(2);
    let several = ["c", "BLOCK"];
    check_grouped(&rt, options, None::<u16>, several, "GROUP c BLOCK COUNT 2");
}

/// Names that are not one argument each can write the same list.
#[test]
fn names_that_run_into_one_another(rt: HostRuntime) {
    let options = StreamReadOptions::default();
    check_grouped(&rt, options, ["g", "c"], None::<u16>, "GROUP g c");
    let options = StreamReadOptions::default();
    check_grouped(&rt, options, ["g"], ["c"], "GROUP g c");
}

#[test]
fn places_for_a_read(rt: HostRuntime) {
    let options = StreamReadOptions::default()
        .claim(100)
        .noack()
        .count(2)
        .block(5);
    let options = options.group(rt.alloc(), "g", "c").expect(&rt, "memory");
    check(&rt, &options, "GROUP g c BLOCK 5 COUNT 2 NOACK CLAIM 100");
    let line = "GROUP g c BLOCK 5 COUNT 2 NOACK CLAIM 100";
    check_place(&rt, FixedArgs::<10, 32>::new(), &options, Ok(()), line);
    let full = Err(WriteError::Full);
    let line = "GROUP g c BLOCK 5 COUNT 2 NOACK CLAIM";
    check_place(&rt, FixedArgs::<9, 64>::new(), &options, full, line);
}
