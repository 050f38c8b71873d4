//! Commands on groups and their pending entries.
use crate::tests::check;
use stream_commands::{
    AtLeastOne, JustIdIsSet, xack, xack_del, xautoclaim, xautoclaim_count, xautoclaim_justid,
    xautoclaim_options, xclaim, xclaim_justid, xclaim_options, xgroup_create,
    xgroup_create_entries_read, xgroup_create_mkstream, xgroup_createconsumer, xgroup_delconsumer,
    xgroup_destroy, xgroup_setid, xgroup_setid_entries_read, xinfo_consumers, xinfo_groups,
    xinfo_stream, xinfo_stream_full, xinfo_stream_full_count, xinfo_stream_with_idempotency,
    xpending, xpending_consumer_count, xpending_count, xpending_idle_consumer_count,
    xpending_idle_count, xsetid, xsetid_entries_added,
};
use stream_options::{StreamAutoClaimOptions, StreamClaimOptions, StreamDeletionPolicy};

#[test]
fn groups_are_created(rt: HostRuntime) {
    let create = xgroup_create("orders", "g", "0");
    check(&rt, &create, "XGROUP CREATE orders g 0");
    let create = xgroup_create_mkstream("made", "g", "$");
    check(&rt, &create, "XGROUP CREATE made g $ MKSTREAM");
    let create = xgroup_create_entries_read("orders", "h", "2-0", 2);
    check(&rt, &create, "XGROUP CREATE orders h 2-0 ENTRIESREAD 2");
    let create = xgroup_createconsumer("orders", "g", "c");
    check(&rt, &create, "XGROUP CREATECONSUMER orders g c");
}

#[test]
fn groups_are_set_and_removed(rt: HostRuntime) {
    let set = xgroup_setid("orders", "g", "0-0");
    check(&rt, &set, "XGROUP SETID orders g 0-0");
    let set = xgroup_setid_entries_read("orders", "h", "3-0", 3);
    check(&rt, &set, "XGROUP SETID orders h 3-0 ENTRIESREAD 3");
    let delete = xgroup_delconsumer("orders", "g", "c");
    check(&rt, &delete, "XGROUP DELCONSUMER orders g c");
    let destroy = xgroup_destroy("orders", "g");
    check(&rt, &destroy, "XGROUP DESTROY orders g");
}

#[test]
fn pending_entries_are_listed(rt: HostRuntime) {
    check(&rt, &xpending("orders", "g"), "XPENDING orders g");
    let listed = xpending_count("orders", "g", "-", "+", 10);
    check(&rt, &listed, "XPENDING orders g - + 10");
    let listed = xpending_consumer_count("orders", "g", "-", "+", 10, "c");
    check(&rt, &listed, "XPENDING orders g - + 10 c");
}

#[test]
fn idle_entries_are_listed(rt: HostRuntime) {
    let listed = xpending_idle_count("orders", "g", 60_000, "-", "+", 10);
    check(&rt, &listed, "XPENDING orders g IDLE 60000 - + 10");
    let listed = xpending_idle_consumer_count("orders", "g", 60_000, "-", "+", 10, "d");
    check(&rt, &listed, "XPENDING orders g IDLE 60000 - + 10 d");
    let listed = xpending_idle_consumer_count("orders", "g", 0, "-", "+", 1, "d");
    check(&rt, &listed, "XPENDING orders g IDLE 0 - + 1 d");
}

#[test]
fn pending_entries_are_acknowledged(rt: HostRuntime) {
    let ids = ["3-0", "4-0"];
    let both = AtLeastOne::new(&ids).expect(&rt, "ids");
    check(&rt, &xack("orders", "g", both), "XACK orders g 3-0 4-0");
    let both = AtLeastOne::new(&ids).expect(&rt, "ids");
    let delete = xack_del("orders", "g", both, StreamDeletionPolicy::DelRef);
    check(&rt, &delete, "XACKDEL orders g DELREF IDS 2 3-0 4-0");
}

#[test]
fn pending_entries_are_claimed(rt: HostRuntime) {
    let claim = xclaim("orders", "g", "d", 0, AtLeastOne::one(&"3-0"));
    check(&rt, &claim, "XCLAIM orders g d 0 3-0");
    let options = StreamClaimOptions::default().retry(3).with_force();
    let claim = xclaim_justid("orders", "g", "c", 0, AtLeastOne::one(&"3-0"), options);
    let line = "XCLAIM orders g c 0 3-0 RETRYCOUNT 3 FORCE JUSTID";
    check(&rt, &claim, line);
}

#[test]
fn idle_entries_are_claimed(rt: HostRuntime) {
    let claim = xautoclaim("orders", "g", "d", 0, "4-0");
    check(&rt, &claim, "XAUTOCLAIM orders g d 0 4-0");
    let claim = xautoclaim_count("orders", "g", "d", 0, "0-0", 1);
    check(&rt, &claim, "XAUTOCLAIM orders g d 0 0-0 COUNT 1");
}

#[test]
fn idle_entries_are_claimed_by_ids_alone(rt: HostRuntime) {
    let options = StreamAutoClaimOptions::default().count(10);
    let claim = xautoclaim_justid("orders", "g", "d", 0, "3", options);
    check(&rt, &claim, "XAUTOCLAIM orders g d 0 3 COUNT 10 JUSTID");
    let options = StreamAutoClaimOptions::default().count(10).with_justid();
    let claim = xautoclaim_justid("orders", "g", "d", 0, "0-0", options);
    check(&rt, &claim, "XAUTOCLAIM orders g d 0 0-0 COUNT 10 JUSTID");
}

#[test]
fn entries_are_not_claimed_by_ids_alone(rt: HostRuntime) {
    let options = StreamClaimOptions::default().idle(5).with_justid();
    let claim = xclaim_options("orders", "g", "d", 0, AtLeastOne::one(&"3-0"), &options);
    assert!(rt; claim.err() == Some(JustIdIsSet));
    let options = StreamAutoClaimOptions::default().with_justid().count(1);
    let claim = xautoclaim_options("orders", "g", "d", 0, "0-0", &options);
    assert!(rt; claim.err() == Some(JustIdIsSet));
}

#[test]
fn streams_and_groups_are_described(rt: HostRuntime) {
    check(&rt, &xinfo_stream("orders"), "XINFO STREAM orders");
    let described = xinfo_stream_with_idempotency("orders");
    check(&rt, &described, "XINFO STREAM orders");
    let described = xinfo_stream_full("orders");
    check(&rt, &described, "XINFO STREAM orders FULL");
    let described = xinfo_stream_full_count("orders", 1);
    check(&rt, &described, "XINFO STREAM orders FULL COUNT 1");
    check(&rt, &xinfo_groups("orders"), "XINFO GROUPS orders");
    let described = xinfo_consumers("orders", "g");
    check(&rt, &described, "XINFO CONSUMERS orders g");
}

#[test]
fn counts_of_streams_are_set(rt: HostRuntime) {
    check(&rt, &xsetid("orders", "9-0"), "XSETID orders 9-0");
    let set = xsetid_entries_added("orders", "9-0", 9, "1-0");
    let line = "XSETID orders 9-0 ENTRIESADDED 9 MAXDELETEDID 1-0";
    check(&rt, &set, line);
}
