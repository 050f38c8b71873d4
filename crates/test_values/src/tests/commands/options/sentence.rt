//! Options and the words that they write.
use crate::tests::{check, check_place, text};
use redis_args::{FixedArgs, WriteError};
use std::process::Abort;
use stream_options::{
    StreamAddOptions, StreamAutoClaimOptions, StreamClaimOptions, StreamDeletionPolicy,
    StreamIdempotencyMode, StreamNackMode, StreamTrimStrategy, StreamTrimmingMode,
};

#[test]
fn words_alone(rt: HostRuntime) {
    check(&rt, &StreamTrimmingMode::Exact, "=");
    check(&rt, &StreamNackMode::Silent, "SILENT");
    check(&rt, &StreamNackMode::Fatal, "FATAL");
    check(&rt, &StreamDeletionPolicy::default(), "KEEPREF");
    let copy = StreamDeletionPolicy::DelRef.clone().expect(&rt, "memory");
    check(&rt, &copy, "DELREF");
    check(&rt, &StreamDeletionPolicy::Acked, "ACKED");
}

#[test]
fn strategies_alone(rt: HostRuntime) {
    let strategy = StreamTrimStrategy::maxlen(StreamTrimmingMode::Approx, 10).limit(5);
    check(&rt, &strategy, "MAXLEN ~ 10 LIMIT 5");
}

/// `NOMKSTREAM KEEPREF IDMP producer-1 iid-1 MAXLEN ~ 100`: 8 words, of 46 bytes.
fn all_of_add(rt: &(impl AllocGlobal + Abort)) -> StreamAddOptions {
    let about = StreamTrimStrategy::maxlen(StreamTrimmingMode::Approx, 100);
    let options = StreamAddOptions::default().trim(about).nomkstream();
    let options = options.idmp(text(rt, "producer-1"), text(rt, "iid-1"));
    options.set_deletion_policy(StreamDeletionPolicy::KeepRef)
}

#[test]
fn places_for_all_of_add(rt: HostRuntime) {
    let all = all_of_add(&rt);
    let line = "NOMKSTREAM KEEPREF IDMP producer-1 iid-1 MAXLEN ~ 100";
    check(&rt, &all, line);
    check_place(&rt, FixedArgs::<8, 46>::new(), &all, Ok(()), line);
    let full = Err(WriteError::Full);
    let seven = "NOMKSTREAM KEEPREF IDMP producer-1 iid-1 MAXLEN ~";
    check_place(&rt, FixedArgs::<8, 45>::new(), &all, full, seven);
    let three = "NOMKSTREAM KEEPREF IDMP";
    check_place(&rt, FixedArgs::<8, 21>::new(), &all, full, three);
}

#[test]
fn the_last_call_of_add_counts(rt: HostRuntime) {
    let exact = StreamTrimStrategy::maxlen(StreamTrimmingMode::Exact, 5).limit(2);
    let from = StreamTrimStrategy::minid(StreamTrimmingMode::Approx, text(&rt, "x"));
    let trimmed = StreamAddOptions::default().trim(exact).trim(from);
    check(&rt, &trimmed, "MINID ~ x");
    let automatic = all_of_add(&rt).idmpauto(text(&rt, "NOMKSTREAM"));
    let line = "NOMKSTREAM KEEPREF IDMPAUTO NOMKSTREAM MAXLEN ~ 100";
    check(&rt, &automatic, line);
}

/// Checks that the mode and a copy of it write these words.
fn check_mode(rt: &(impl AllocGlobal + Abort), mode: &StreamIdempotencyMode, line: &str) {
    check(rt, mode, line);
    let copy = mode.try_clone(rt.alloc()).expect(rt, "memory");
    check(rt, &copy, line);
}

#[test]
fn modes_of_idempotency(rt: HostRuntime) {
    let mode = StreamIdempotencyMode::Manual {
        producer_id: text(&rt, "producer-1"),
        idempotent_id: text(&rt, "iid-1"),
    };
    check_mode(&rt, &mode, "IDMP producer-1 iid-1");
    let mode = StreamIdempotencyMode::Automatic {
        producer_id: text(&rt, "producer-2"),
    };
    check_mode(&rt, &mode, "IDMPAUTO producer-2");
}

#[test]
fn claims(rt: HostRuntime) {
    let none = StreamClaimOptions::default();
    assert!(rt; !none.has_justid());
    check(&rt, &none, "");
    let all = none.retry(4).time(9).with_justid().idle(0);
    assert!(rt; all.has_justid());
    check(&rt, &all, "IDLE 0 TIME 9 RETRYCOUNT 4 JUSTID");
    // two arguments, the second of which is empty
    let last = StreamClaimOptions::default().with_lastid(text(&rt, ""));
    check(&rt, &last, "LASTID ");
}

#[test]
fn automatic_claims(rt: HostRuntime) {
    let options = StreamAutoClaimOptions::default();
    check(&rt, &options, "");
    let counted = options.count(3);
    assert!(rt; !counted.has_justid());
    check(&rt, &counted, "COUNT 3");
    let bare = counted.with_justid();
    assert!(rt; bare.has_justid());
    check(&rt, &bare, "COUNT 3 JUSTID");
}
