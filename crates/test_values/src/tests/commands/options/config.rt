//! Config options in and outside their ranges.
use crate::tests::{check, check_same};
use std::process::Abort;
use stream_options::{
    ConfigError, IDMP_DURATION_MAX, IDMP_DURATION_MIN, IDMP_MAXSIZE_MAX, IDMP_MAXSIZE_MIN,
    StreamConfigOptions,
};

type ConfigAnswer = Result<StreamConfigOptions, ConfigError>;

/// Checks that the call was accepted and its options write these words, or that it was refused with this text.
fn check_answer(rt: &(impl AllocGlobal + Abort), answer: ConfigAnswer, wanted: &str) {
    match answer {
        Ok(options) => check(rt, &options, wanted),
        Err(error) => {
            let text = error.to_string(rt.alloc()).expect(rt, "memory");
            check_same(rt, text.as_str(), wanted);
        }
    }
}

fn seconds_then_maxsize(seconds: u32, maxsize: u16) -> ConfigAnswer {
    StreamConfigOptions::with_idempotency_seconds(seconds)?.idempotency_maxsize(maxsize)
}

fn maxsize_then_seconds(maxsize: u16, seconds: u32) -> ConfigAnswer {
    StreamConfigOptions::with_idempotency_maxsize(maxsize)?.idempotency_seconds(seconds)
}

fn seconds_twice(first: u32, second: u32) -> ConfigAnswer {
    StreamConfigOptions::with_idempotency_seconds(first)?.idempotency_seconds(second)
}

#[test]
fn numbers_in_range(rt: HostRuntime) {
    let both = "IDMP-DURATION 300 IDMP-MAXSIZE 1000";
    check_answer(&rt, seconds_then_maxsize(300, 1000), both);
    let most = "IDMP-DURATION 86400 IDMP-MAXSIZE 10000";
    check_answer(&rt, maxsize_then_seconds(10000, 86400), most);
    check_answer(&rt, seconds_twice(300, 1), "IDMP-DURATION 1");
}

#[test]
fn numbers_out_of_range(rt: HostRuntime) {
    let few = "IDMP-DURATION must be between 1 and 86400 seconds, got: 0";
    check_answer(&rt, seconds_twice(300, 0), few);
    let many = "IDMP-DURATION must be between 1 and 86400 seconds, got: 86401";
    check_answer(&rt, seconds_twice(300, 86401), many);
    let much = "IDMP-MAXSIZE must be between 1 and 10000 entries, got: 10001";
    let maxsize = StreamConfigOptions::with_idempotency_maxsize(10001);
    check_answer(&rt, maxsize, much);
    check_same(&rt, (IDMP_DURATION_MIN, IDMP_DURATION_MAX), (1, 86400));
    check_same(&rt, (IDMP_MAXSIZE_MIN, IDMP_MAXSIZE_MAX), (1, 10000));
}
