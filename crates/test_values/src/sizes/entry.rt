//! Copies of one entry with up to 64, 1,000 and 10,000 fields, and with an id, a name and a value
//! of these lengths in bytes, with ample memory.
use crate::sizes::{Line, count_of, value_of};
use redis_resp::from_redis_value;
use redis_streams::{StreamId, StreamRangeReply};
use std::process::Abort;

/// Lines of one entry: with this number of fields, and with an id, a name and a value of this length.
const ENTRIES: [Line<'static>; 4] = [
    ("Array[Array[1-0, Array[", "f$, Int $", ", ", "]]]"),
    ("Array[Array[\"", "x", "", "\", Array[f, v]]]"),
    ("Array[Array[1-0, Array[\"", "x", "", "\", v]]]"),
    ("Array[Array[1-0, Array[f, \"", "x", "", "\"]]]"),
];

/// Checks that the copy of the entry is equal to it, and has the same number of fields.
fn check_copy(rt: &(impl AllocGlobal + Abort), entry: &StreamId, count: usize) {
    let copy = entry.try_clone(rt.alloc()).expect(rt, "memory");
    assert!(rt;
        copy == *entry,
        "the copy of an entry of {count} is another"
    );
    assert!(rt; copy.len() == entry.len());
}

/// Checks that the range of `count` items in the notation is one entry, and that a copy of it is equal to it.
fn check_entry(rt: &(impl AllocGlobal + Abort), items: Line<'_>, count: usize) {
    let value = value_of(rt, items, count);
    let range = from_redis_value::<StreamRangeReply>(rt.alloc(), value).expect(rt, "a range");
    assert!(rt; range.ids.len() == 1);
    for entry in &range.ids {
        check_copy(rt, entry, count);
    }
}

#[test]
fn entries_of_each_size_are_copied(rt: HostRuntime) {
    for items in &ENTRIES {
        for step in 0..67 {
            check_entry(&rt, *items, count_of(step));
        }
    }
}
