//! Argument lists, and the options that are parsed from them.
use crate::tests::commands::sentences::rows::ROWS;
use crate::tests::{check_same, words_of};
use redis_args::ToRedisArgs;
use std::process::Abort;
use stream_option_parsing::{
    SentenceError, read_add, read_autoclaim, read_claim, read_config, read_nack, read_read,
    read_trim,
};

mod laws;
mod lines;
mod rows;

/// Checks that the parser returned this count, and options that write the first `count` arguments again.
fn check_read<T: ToRedisArgs + Drop>(
    rt: &(impl AllocGlobal + Abort),
    args: &[Vec<u8>],
    answer: Result<(T, usize), SentenceError>,
    wanted: usize,
) {
    let (options, count) = answer.expect(rt, "a sentence");
    check_same(rt, count, wanted);
    let written = options.to_redis_args(rt.alloc()).expect(rt, "memory");
    assert!(rt;
        args.get(..count) == Some(written.as_slice()),
        "of {args:?}"
    );
}

/// If the outcome of the line is `ok k`, checks that the options parsed from it write its first k words
/// again.
fn check_row(rt: &(impl AllocGlobal + Abort), line: &str, outcome: &str) {
    let Some(count) = outcome.strip_prefix("ok ") else {
        return;
    };
    let count = count.parse::<usize>().expect(rt, "a number");
    let (kind, rest) = line.split_once(' ').unwrap_or((line, ""));
    let args = words_of(rt, rest);
    match kind {
        "trim" => check_read(rt, &args, read_trim(rt.alloc(), &args), count),
        "add" => check_read(rt, &args, read_add(rt.alloc(), &args), count),
        "config" => check_read(rt, &args, read_config(&args), count),
        "autoclaim" => check_read(rt, &args, read_autoclaim(&args), count),
        "claim" => check_read(rt, &args, read_claim(rt.alloc(), &args), count),
        "read" => check_read(rt, &args, read_read(rt.alloc(), &args), count),
        "nack" => check_read(rt, &args, read_nack(&args), count),
        _ => assert!(rt; false, "{line}"),
    }
}

#[test]
fn each_sentence_is_written_again(rt: HostRuntime) {
    for (line, outcome) in &ROWS {
        check_row(&rt, line, outcome);
    }
}
