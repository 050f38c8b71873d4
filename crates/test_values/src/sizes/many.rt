//! Replies of up to 10,000 items, with ample memory.
use crate::sizes::{Line, check_printed, count_of, line_of, value_of};
use redis_resp::FromRedisValue;
use redis_streams::{
    StreamAutoClaimReply, StreamClaimReply, StreamInfoConsumersReply, StreamInfoGroupsReply,
    StreamPendingCountReply, StreamPendingReply, StreamRangeReply, StreamReadReply,
};
use std::alloc::{AllocError, Global};
use std::process::Abort;
use test_notation::PrintedForm;

/// Checks that a number of items in the notation is printed as the same number of items: up to 64,
/// 1,000 and 10,000. `empty` is the printed form of no items.
fn check_many<T: FromRedisValue + PrintedForm>(
    rt: &(impl AllocGlobal + Abort),
    notation: Line<'_>,
    printed: Line<'_>,
    empty: &str,
) {
    check_printed::<T>(rt, value_of(rt, notation, 0), empty);
    for step in 1..67 {
        let count = count_of(step);
        let printed = line_of(rt, printed, count);
        check_printed::<T>(rt, value_of(rt, notation, count), &printed);
    }
}

#[test]
fn many_rows(rt: HostRuntime) {
    let rows = ("Array[", "Array[$-0, Array[f, Int $]]", ", ", "]");
    let printed = ("", "$-0(f=$)", " ", "");
    check_many::<StreamRangeReply>(&rt, rows, printed, "-");
    check_many::<StreamClaimReply>(&rt, rows, printed, "-");
    let fields = ("Array[Array[1-0, Array[", "f$, Int $", ", ", "]]]");
    check_many::<StreamRangeReply>(&rt, fields, ("1-0(", "f$=$", ",", ")"), "1-0()");
    let id = ("Array[Array[\"", "x", "", "\", Nil]]");
    check_many::<StreamRangeReply>(&rt, id, ("", "x", "", "()"), "()");
}

#[test]
fn many_read_rows(rt: HostRuntime) {
    let rows = (
        "Array[Array[s, Array[",
        "Array[$-0, Array[f, Int $]]",
        ", ",
        "]]]",
    );
    check_many::<StreamReadReply>(&rt, rows, ("s[", "$-0(f=$)", " ", "]"), "s[]");
    let rows = (
        "Array[Array[s, Array[",
        "Array[$-0, Array[f, Int $], Int $, Int 2]",
        ", ",
        "]]]",
    );
    check_many::<StreamReadReply>(&rt, rows, ("s[", "$-0(f=$)@$#2", " ", "]"), "s[]");
}

#[test]
fn many_claimed_rows(rt: HostRuntime) {
    check_many::<StreamAutoClaimReply>(
        &rt,
        (
            "Array[0-0, Array[",
            "Array[$-0, Array[f, Int $]]",
            ", ",
            "]]",
        ),
        (
            "next=0-0 claimed=[",
            "$-0(f=$)",
            " ",
            "] deleted=[] invalid=false",
        ),
        "next=0-0 claimed=[] deleted=[] invalid=false",
    );
}

#[test]
fn many_pending_entries(rt: HostRuntime) {
    check_many::<StreamPendingReply>(
        &rt,
        ("Array[Int 5, 1-0, 2-0, Array[", "Array[c$, $]", ", ", "]]"),
        ("5 1-0 2-0 [", "c$=$", " ", "]"),
        "5 1-0 2-0 []",
    );
    check_many::<StreamPendingCountReply>(
        &rt,
        ("Array[", "Array[$-0, c, Int $, Int 2]", ", ", "]"),
        ("", "$-0 c $ 2", "; ", ""),
        "-",
    )
}

#[test]
fn many_consumers_and_groups(rt: HostRuntime) {
    check_many::<StreamInfoConsumersReply>(
        &rt,
        ("Array[", "Map[name: c$, idle: $]", ", ", "]"),
        ("", "c$ pending=0 idle=$", "; ", ""),
        "-",
    );
    check_many::<StreamInfoGroupsReply>(
        &rt,
        ("Array[", "Map[name: g$, pending: Int $]", ", ", "]"),
        (
            "",
            "g$ consumers=0 pending=$ last= read=none lag=none",
            "; ",
            "",
        ),
        "-",
    )
}

/// The item with 100 attributes around it.
fn wrapped(rt: &(impl AllocGlobal + Abort), item: &str) -> String {
    wrap(rt.alloc(), item).expect(rt, "memory")
}

fn wrap(alloc: Global, item: &str) -> Result<String, AllocError> {
    let mut text = String::new(alloc);
    for _ in 0..100 {
        text.push_str("Attr(")?;
    }
    text.push_str(item)?;
    for _ in 0..100 {
        text.push_str(")")?;
    }
    Ok(text)
}

#[test]
fn many_rows_with_attributes(rt: HostRuntime) {
    let row = wrapped(&rt, "Array[$-0, Array[f, Int $]]");
    let printed = ("", "$-0(f=$)", " ", "");
    check_many::<StreamRangeReply>(&rt, ("Array[", &row, ", ", "]"), printed, "-");
    check_many::<StreamClaimReply>(&rt, ("Array[", &row, ", ", "]"), printed, "-");
    let rows = ("Array[Array[s, Array[", row.as_str(), ", ", "]]]");
    check_many::<StreamReadReply>(&rt, rows, ("s[", "$-0(f=$)", " ", "]"), "s[]");
    let row = wrapped(&rt, "Array[$-0, Array[f, Int $], Int $, Int 2]");
    let rows = ("Array[Array[s, Array[", row.as_str(), ", ", "]]]");
    check_many::<StreamReadReply>(&rt, rows, ("s[", "$-0(f=$)@$#2", " ", "]"), "s[]");
}

#[test]
fn many_items_with_attributes(rt: HostRuntime) {
    let item = wrapped(&rt, "Array[c$, $]");
    let items = ("Array[Int 5, 1-0, 2-0, Array[", item.as_str(), ", ", "]]");
    let printed = ("5 1-0 2-0 [", "c$=$", " ", "]");
    check_many::<StreamPendingReply>(&rt, items, printed, "5 1-0 2-0 []");
    let item = wrapped(&rt, "Map[name: c$, idle: $]");
    let items = ("Array[", item.as_str(), ", ", "]");
    let printed = ("", "c$ pending=0 idle=$", "; ", "");
    check_many::<StreamInfoConsumersReply>(&rt, items, printed, "-");
    let item = wrapped(&rt, "Map[name: g$, pending: Int $]");
    let printed = "g$ consumers=0 pending=$ last= read=none lag=none";
    let items = ("Array[", item.as_str(), ", ", "]");
    check_many::<StreamInfoGroupsReply>(&rt, items, ("", printed, "; ", ""), "-")
}
