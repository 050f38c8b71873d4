//! Copies of replies of up to 64 items, of 1,000 and of 10,000, with ample memory.
use crate::copied::Copied;
use crate::sizes::{Line, count_of, value_of};
use redis_resp::{FromRedisValue, from_redis_value};
use redis_streams::{
    StreamAutoClaimReply, StreamClaimReply, StreamInfoConsumersReply, StreamInfoGroupsReply,
    StreamPendingCountReply, StreamPendingReply, StreamRangeReply, StreamReadReply,
};
use std::process::Abort;
use test_notation::PrintedForm;

#[test]
fn entries_are_copied(rt: HostRuntime) {
    let items = ("Array[", "Array[$-0, Array[f, Int $]]", ", ", "]");
    check_copies::<StreamRangeReply>(&rt, items);
    check_copies::<StreamClaimReply>(&rt, items);
}

#[test]
fn reads_are_copied(rt: HostRuntime) {
    let items = ("Map[s: Array[", "Array[$-0, Array[f, Int $]]", ", ", "]]");
    check_copies::<StreamReadReply>(&rt, items);
    let entry = "Array[$-0, Array[f, Int $], Int $, Int 2]";
    let items = ("Map[s: Array[", entry, ", ", "]]");
    check_copies::<StreamReadReply>(&rt, items);
    let stream = "s$: Array[Array[$-0, Array[f, v]]]";
    check_copies::<StreamReadReply>(&rt, ("Map[", stream, ", ", "]"));
}

#[test]
fn automatic_claims_are_copied(rt: HostRuntime) {
    let items = ("Array[0-0, Array[], Array[", "$-0", ", ", "]]");
    check_copies::<StreamAutoClaimReply>(&rt, items);
    let entry = "Array[$-0, Array[f, Int $]]";
    let items = ("Array[0-0, Array[", entry, ", ", "]]");
    check_copies::<StreamAutoClaimReply>(&rt, items);
}

#[test]
fn pending_entries_are_copied(rt: HostRuntime) {
    let items = ("Array[Int 5, 1-0, 2-0, Array[", "Array[c$, $]", ", ", "]]");
    check_copies::<StreamPendingReply>(&rt, items);
    let items = ("Array[", "Array[$-0, c, Int $, Int 2]", ", ", "]");
    check_copies::<StreamPendingCountReply>(&rt, items);
}

#[test]
fn consumers_and_groups_are_copied(rt: HostRuntime) {
    let items = ("Array[", "Map[name: c$, idle: $]", ", ", "]");
    check_copies::<StreamInfoConsumersReply>(&rt, items);
    let items = ("Array[", "Map[name: g$, pending: Int $]", ", ", "]");
    check_copies::<StreamInfoGroupsReply>(&rt, items);
}

/// Checks that both records have the same printed form.
fn check_same_form<T: PrintedForm>(rt: &(impl AllocGlobal + Abort), record: &T, copy: &T) {
    let printed = record.printed(rt.alloc()).expect(rt, "memory");
    let copied = copy.printed(rt.alloc()).expect(rt, "memory");
    assert!(rt; copied == printed, "{copied}, not {printed}");
}

/// Checks that a copy of the record of `count` items has the printed form of the record.
fn check_copy<T: FromRedisValue + PrintedForm + Copied>(
    rt: &(impl AllocGlobal + Abort),
    items: Line<'_>,
    count: usize,
) {
    let value = value_of(rt, items, count);
    let record = from_redis_value::<T>(rt.alloc(), value).expect(rt, "a record");
    let copied = record.copied(rt.alloc()).expect(rt, "memory");
    check_same_form(rt, &record, &copied);
}

/// Checks a copy of the record of each count of items.
fn check_copies<T: FromRedisValue + PrintedForm + Copied>(
    rt: &(impl AllocGlobal + Abort),
    items: Line<'_>,
) {
    for step in 0..67 {
        check_copy::<T>(rt, items, count_of(step));
    }
}
