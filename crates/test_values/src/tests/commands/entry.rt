//! Commands on the entries of a stream.
use crate::tests::{check, text};
use redis_resp::PairList;
use std::process::Abort;
use stream_commands::{
    AtLeastOne, FieldsThen, pair_fields, xadd, xadd_maxlen, xadd_options, xcfgset, xdel, xdel_ex,
    xlen, xrange, xrange_all, xrange_count, xread, xread_options, xrevrange, xrevrange_all,
    xrevrange_count, xtrim, xtrim_options,
};
use stream_options::{
    StreamAddOptions, StreamConfigOptions, StreamDeletionPolicy, StreamMaxlen, StreamReadOptions,
    StreamTrimOptions, StreamTrimStrategy, StreamTrimmingMode,
};

#[test]
fn entries_are_added(rt: HostRuntime) {
    let add = xadd("orders", "1-0", ("item", "tea"));
    check(&rt, &add, "XADD orders 1-0 item tea");
    let fields = [("item", "cup"), ("size", "2")];
    let two = AtLeastOne::new(&fields).expect(&rt, "fields");
    let add = xadd("orders", "2-0", two);
    check(&rt, &add, "XADD orders 2-0 item cup size 2");
    let kept = StreamMaxlen::Approx(1000);
    let add = xadd_maxlen("orders", kept, "3-0", ("item", "tea"));
    check(&rt, &add, "XADD orders MAXLEN ~ 1000 3-0 item tea");
}

#[test]
fn an_entry_is_added_with_options(rt: HostRuntime) {
    let strategy = StreamTrimStrategy::maxlen(StreamTrimmingMode::Exact, 10);
    let options = StreamAddOptions::default().nomkstream().trim(strategy);
    let add = xadd_options("none", "*", ("item", "tea"), &options);
    check(&rt, &add, "XADD none NOMKSTREAM MAXLEN = 10 * item tea");
}

/// Fields of this name, as they were read from an entry.
fn fields_of(rt: &(impl AllocGlobal + Abort), name: &str, values: &[u64]) -> PairList<u64> {
    let mut read = Vec::new(rt.alloc());
    for value in values {
        read.push((text(rt, name), *value)).expect(rt, "memory");
    }
    PairList(read)
}

#[test]
fn fields_of_an_entry_are_added_again(rt: HostRuntime) {
    let fields = fields_of(&rt, "item", &[7, 8]);
    let own = pair_fields(&fields).expect(&rt, "fields");
    check(&rt, &xadd("dead", "*", own), "XADD dead * item 7 item 8");
    let add = xadd("dead", "*", FieldsThen(&fields, ("times", 3u64)));
    check(&rt, &add, "XADD dead * item 7 item 8 times 3");
    let none = fields_of(&rt, "item", &[]);
    assert!(rt; pair_fields(&none).is_none());
    let add = xadd("dead", "*", FieldsThen(&none, ("times", 3u64)));
    check(&rt, &add, "XADD dead * times 3");
}

#[test]
fn entries_are_listed(rt: HostRuntime) {
    check(&rt, &xlen("orders"), "XLEN orders");
    check(&rt, &xrange_all("orders"), "XRANGE orders - +");
    let range = xrange("orders", "1-0", "2-0");
    check(&rt, &range, "XRANGE orders 1-0 2-0");
    let range = xrange_count("orders", "2", "+", 1);
    check(&rt, &range, "XRANGE orders 2 + COUNT 1");
}

#[test]
fn entries_are_listed_backwards(rt: HostRuntime) {
    check(&rt, &xrevrange_all("orders"), "XREVRANGE orders + -");
    let range = xrevrange("orders", "+", "3-0");
    check(&rt, &range, "XREVRANGE orders + 3-0");
    let range = xrevrange_count("orders", "+", "-", 1);
    check(&rt, &range, "XREVRANGE orders + - COUNT 1");
}

#[test]
fn streams_are_read(rt: HostRuntime) {
    let streams = [("orders", "3-0"), ("none", "0-0")];
    let both = AtLeastOne::new(&streams).expect(&rt, "streams");
    check(&rt, &xread(both), "XREAD STREAMS orders none 3-0 0-0");
    let count = StreamReadOptions::default().noack().count(1);
    let read = xread_options(AtLeastOne::one(&streams[0]), &count);
    check(&rt, &read, "XREAD COUNT 1 STREAMS orders 3-0");
}

#[test]
fn entries_are_deleted(rt: HostRuntime) {
    let ids = ["1-0", "9-9"];
    let both = AtLeastOne::new(&ids).expect(&rt, "ids");
    check(&rt, &xdel("orders", both), "XDEL orders 1-0 9-9");
    let policy = StreamDeletionPolicy::KeepRef;
    let delete = xdel_ex("orders", AtLeastOne::one(&"1-0"), policy);
    check(&rt, &delete, "XDELEX orders KEEPREF IDS 1 1-0");
}

#[test]
fn streams_are_cut(rt: HostRuntime) {
    let cut = xtrim("orders", StreamMaxlen::Equals(2));
    check(&rt, &cut, "XTRIM orders MAXLEN = 2");
    let options = StreamTrimOptions::maxlen(StreamTrimmingMode::Approx, 1).limit(50);
    let options = options.set_deletion_policy(StreamDeletionPolicy::Acked);
    let cut = xtrim_options("orders", &options);
    check(&rt, &cut, "XTRIM orders MAXLEN ~ 1 LIMIT 50 ACKED");
}

#[test]
fn streams_are_configured(rt: HostRuntime) {
    let options = StreamConfigOptions::with_idempotency_maxsize(1000);
    let options = options.expect(&rt, "in range").idempotency_seconds(300);
    let options = options.expect(&rt, "in range");
    let line = "XCFGSET orders IDMP-DURATION 300 IDMP-MAXSIZE 1000";
    check(&rt, &xcfgset("orders", &options), line);
}
