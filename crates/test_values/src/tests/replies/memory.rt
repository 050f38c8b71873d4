//! Calls that take memory, each request for which may be refused. Each call returns its right result
//! or the error that memory ran out, and nothing else. A borrowed value is unchanged after the call.
//!
//! `tools/sweep-refused-memory` runs the test with `refused_memory` in its name with each request
//! refused in turn.
use crate::copied::Copied;
use crate::tests::check_same;
use indexmap::IndexMap;
use redis_resp::{FromRedisValue, ParsingError, RawBytes, Value};
use redis_streams::{
    StreamAutoClaimReply, StreamClaimReply, StreamId, StreamInfoConsumer,
    StreamInfoConsumerPending, StreamInfoConsumersReply, StreamInfoFullConsumer,
    StreamInfoFullEntry, StreamInfoFullGroup, StreamInfoFullPending, StreamInfoFullReply,
    StreamInfoGroup, StreamInfoGroupsReply, StreamInfoStreamReply,
    StreamInfoStreamReplyWithIdempotency, StreamKey, StreamPendingCountReply, StreamPendingData,
    StreamPendingId, StreamPendingReply, StreamRangeReply, StreamReadReply, XAckDelStatusCode,
    XDelExStatusCode,
};
use std::alloc::{AllocError, Global};
use std::collections::{BTreeMap, HashMap};
use std::process::Abort;
use test_notation::{NotationError, PrintedForm, read_value};

/// Parses the notation as a value.
fn value_of(rt: &(impl AllocGlobal + Abort), notation: &str) -> Result<Value, ParsingError> {
    match read_value(rt.alloc(), notation) {
        Ok(value) => Ok(value),
        Err(error) => {
            assert!(rt; error == NotationError::Memory, "{notation}");
            Err(ParsingError::Memory)
        }
    }
}

/// Decodes the value of the notation as a record.
fn record_of<T: FromRedisValue>(
    rt: &(impl AllocGlobal + Abort),
    notation: &str,
) -> Result<T, ParsingError> {
    T::from_redis_value(rt.alloc(), value_of(rt, notation)?)
}

/// Checks that both calls read the value of the notation, and that the borrowed call leaves it unchanged,
/// even if memory runs out.
fn check_read<T: FromRedisValue>(
    rt: &(impl AllocGlobal + Abort),
    notation: &str,
) -> Result<(), ParsingError> {
    let value = value_of(rt, notation)?;
    let copy = value.try_clone(rt.alloc())?;
    let borrowed = T::from_redis_value_ref(rt.alloc(), &value);
    assert!(rt; value == copy, "{notation} was changed");
    drop(copy);
    drop(borrowed?);
    drop(T::from_redis_value(rt.alloc(), value)?);
    Ok(())
}

/// Checks that the record has this printed form.
fn check_printed<T: PrintedForm + Drop>(
    rt: &(impl AllocGlobal + Abort),
    record: Result<T, AllocError>,
    text: &str,
) -> Result<(), ParsingError> {
    let printed = record?.printed(rt.alloc())?;
    check_same(rt, printed.as_str(), text);
    Ok(())
}

fn check_plain_values(rt: &(impl AllocGlobal + Abort)) -> Result<(), ParsingError> {
    check_read::<String>(rt, "Attr(Int 7)")?;
    check_read::<RawBytes>(rt, "Bytes(255)")?;
    check_read::<Value>(rt, "Map[k: Array[x]]")?;
    check_read::<Option<String>>(rt, "x")?;
    check_read::<Vec<Value>>(rt, "Map[k: v]")?;
    check_read::<(String, u16)>(rt, "Array[x, 7]")?;
    check_read::<(String, Option<u16>, String)>(rt, "Array[a, 7, c]")?;
    check_read::<(String, String, String, String)>(rt, "Array[a, b, c, d]")?;
    check_read::<BTreeMap<String, String>>(rt, "Map[f: v, a: w, f: x]")?;
    check_read::<IndexMap<String, String>>(rt, "Map[f: v, a: w, f: x]")?;
    check_read::<HashMap<String, Value>>(rt, "Map[f: v, g: w]")
}

fn check_replies(rt: &(impl AllocGlobal + Abort)) -> Result<(), ParsingError> {
    let rows = "Array[Array[1-0, Array[f, v]], Map[2-0: Nil], Array[4-0, Nil, 3-0, Array[f, v]]]";
    let delivered = "Array[Array[s, Array[Array[1-0, Array[f, v], Int 5, Int 2]]]]";
    check_read::<StreamRangeReply>(rt, rows)?;
    check_read::<StreamClaimReply>(rt, rows)?;
    check_read::<StreamReadReply>(rt, "Map[s: Map[1-0: Array[f, v]]]")?;
    check_read::<StreamReadReply>(rt, delivered)?;
    check_read::<StreamAutoClaimReply>(rt, "Array[0-0, Array[Nil, 1-0], Array[2-0]]")?;
    check_read::<StreamPendingReply>(rt, "Array[1, 1-0, 2-0, Array[Array[c, 1]]]")?;
    check_read::<StreamPendingCountReply>(rt, "Array[Array[1-0, c, Int 5, Int 2]]")?;
    check_read::<StreamInfoStreamReply>(rt, "Map[first-entry: Array[1-0]]")?;
    check_read::<StreamInfoStreamReplyWithIdempotency>(rt, "Map[idmp-duration: 7]")?;
    check_read::<StreamInfoConsumersReply>(rt, "Array[Map[name: c]]")?;
    check_read::<StreamInfoGroupsReply>(rt, "Array[Map[name: g]]")?;
    check_read::<XDelExStatusCode>(rt, "Int 1")?;
    check_read::<XAckDelStatusCode>(rt, "Int 1")
}

/// Checks the fields `f`, 7, `names`, of two texts, and `none`, nil, of an entry.
fn check_fields(rt: &(impl AllocGlobal + Abort), entry: &StreamId) -> Result<(), ParsingError> {
    let text = entry.get::<String>(rt.alloc(), "f")?;
    assert!(rt; text.is_some_and(|text| text.as_str() == "7"));
    let names = entry.get::<Vec<String>>(rt.alloc(), "names")?;
    assert!(rt; names.is_some_and(|names| names.len() == 2));
    check_same(rt, entry.get::<u16>(rt.alloc(), "f")?, Some(7));
    check_same(rt, entry.get::<u16>(rt.alloc(), "names")?, None);
    let missing = entry.get::<String>(rt.alloc(), "missing")?;
    assert!(rt; missing.is_none());
    let none = entry.get::<Option<String>>(rt.alloc(), "none")?;
    assert!(rt; none.is_some_and(|text| text.is_none()));
    Ok(())
}

fn check_an_entry(rt: &(impl AllocGlobal + Abort)) -> Result<(), ParsingError> {
    let notation = "Array[Array[1-0, Array[f, 7, names, Array[a, b], none, Nil]]]";
    let reply = record_of::<StreamRangeReply>(rt, notation)?;
    check_same(rt, reply.ids.len(), 1);
    match reply.ids.first() {
        Some(entry) => check_fields(rt, entry),
        None => Ok(()),
    }
}

/// Checks that a copy of the record of this notation has this printed form.
fn check_copy<T: FromRedisValue + PrintedForm + Copied>(
    rt: &(impl AllocGlobal + Abort),
    notation: &str,
    text: &str,
) -> Result<(), ParsingError> {
    let record = record_of::<T>(rt, notation)?;
    let copied = record.copied(rt.alloc());
    drop(record);
    check_printed(rt, copied, text)
}

fn check_copied_entries(rt: &(impl AllocGlobal + Abort)) -> Result<(), ParsingError> {
    let notation = "Map[1-0: Array[f, v]]";
    check_copy::<StreamRangeReply>(rt, notation, "1-0(f=v)")?;
    let notation = "Map[1-0: Map[f: v, g: Int 2]]";
    check_copy::<StreamClaimReply>(rt, notation, "1-0(f=v,g=2)")?;
    let notation = "Map[s: Array[Array[1-0, Map[f: v], Int 5, Int 2]]]";
    check_copy::<StreamReadReply>(rt, notation, "s[1-0(f=v)@5#2]")?;
    let notation = "Array[0-0, Array[Nil, 1-0], Array[2-0]]";
    let text = "next=0-0 claimed=[1-0()] deleted=[2-0] invalid=true";
    check_copy::<StreamAutoClaimReply>(rt, notation, text)
}

fn check_empty_entries(rt: &(impl AllocGlobal + Abort)) -> Result<(), ParsingError> {
    check_printed(rt, StreamRangeReply::empty(rt.alloc()), "-")?;
    check_printed(rt, StreamClaimReply::empty(rt.alloc()), "-")?;
    check_printed(rt, StreamReadReply::empty(rt.alloc()), "-")?;
    let text = "next= claimed=[] deleted=[] invalid=false";
    check_printed(rt, StreamAutoClaimReply::empty(rt.alloc()), text)
}

fn check_copied_pending(rt: &(impl AllocGlobal + Abort)) -> Result<(), ParsingError> {
    check_printed(rt, Ok(StreamPendingReply::default()), "empty")?;
    let notation = "Array[Int 1, 1-0, 2-0, Array[Array[c, 1]]]";
    check_copy::<StreamPendingReply>(rt, notation, "1 1-0 2-0 [c=1]")?;
    check_printed(rt, StreamPendingCountReply::empty(rt.alloc()), "-")?;
    let notation = "Array[Array[1-0, c, Int 5, Int 2]]";
    check_copy::<StreamPendingCountReply>(rt, notation, "1-0 c 5 2")
}

fn check_copied_information(rt: &(impl AllocGlobal + Abort)) -> Result<(), ParsingError> {
    let notation = "Map[length: Int 1, first-entry: Array[1-0, Map[f: v]]]";
    let text = "last= keys=0 nodes=0 groups=0 length=1 first=1-0(f=v) final=()";
    check_copy::<StreamInfoStreamReply>(rt, notation, text)?;
    let text = "last= keys=0 nodes=0 groups=0 length=0 first=() final=() duration=0 maxsize=0 \
                pids=3 tracked=0 added=0 duplicates=0";
    check_copy::<StreamInfoStreamReplyWithIdempotency>(rt, "Map[pids-tracked: +3]", text)?;
    let notation = "Array[Map[name: c, pending: 4]]";
    let text = "c pending=4 idle=0";
    check_copy::<StreamInfoConsumersReply>(rt, notation, text)?;
    let text = "g consumers=0 pending=0 last= read=none lag=9";
    check_copy::<StreamInfoGroupsReply>(rt, "Array[Map[name: g, lag: 9]]", text)
}

fn check_empty_information(rt: &(impl AllocGlobal + Abort)) -> Result<(), ParsingError> {
    let text = "last= keys=0 nodes=0 groups=0 length=0 first=() final=()";
    check_printed(rt, StreamInfoStreamReply::empty(rt.alloc()), text)?;
    let text = "last= keys=0 nodes=0 groups=0 length=0 first=() final=() duration=0 maxsize=0 \
                pids=0 tracked=0 added=0 duplicates=0";
    let empty = StreamInfoStreamReplyWithIdempotency::empty(rt.alloc());
    check_printed(rt, empty, text)?;
    check_printed(rt, StreamInfoConsumersReply::empty(rt.alloc()), "-")?;
    check_printed(rt, StreamInfoGroupsReply::empty(rt.alloc()), "-")
}

// Whether a copy of the empty part of a reply is empty.

fn is_entry_copied(alloc: Global) -> Result<bool, AllocError> {
    Ok(StreamId::empty(alloc)?.try_clone(alloc)?.is_empty())
}

fn is_stream_copied(alloc: Global) -> Result<bool, AllocError> {
    Ok(StreamKey::empty(alloc)?.try_clone(alloc)?.ids.is_empty())
}

fn is_summary_copied(alloc: Global) -> Result<bool, AllocError> {
    Ok(StreamPendingData::empty(alloc)?.try_clone(alloc)?.count == 0)
}

fn is_pending_copied(alloc: Global) -> Result<bool, AllocError> {
    Ok(
        StreamPendingId::empty(alloc)?
            .try_clone(alloc)?
            .times_delivered
            == 0,
    )
}

fn is_consumer_copied(alloc: Global) -> Result<bool, AllocError> {
    Ok(StreamInfoConsumer::empty(alloc)?.try_clone(alloc)?.pending == 0)
}

fn is_group_copied(alloc: Global) -> Result<bool, AllocError> {
    Ok(StreamInfoGroup::empty(alloc)?.try_clone(alloc)?.lag == None)
}

fn check_copied_parts(rt: &(impl AllocGlobal + Abort)) -> Result<(), ParsingError> {
    let alloc = rt.alloc();
    assert!(rt; is_entry_copied(alloc)?);
    assert!(rt; is_stream_copied(alloc)?);
    assert!(rt; is_summary_copied(alloc)?);
    assert!(rt; is_pending_copied(alloc)?);
    assert!(rt; is_consumer_copied(alloc)?);
    assert!(rt; is_group_copied(alloc)?);
    Ok(())
}

/// A stream with one entry, and one group with one consumer.
const FULL: &str = "Map[length: 1, entries: Array[Array[1-0, Array[f, v, f, Int 2]]], \
                    groups: Array[Map[name: g, pending: Array[Array[1-0, c, 5, 2]], \
                    consumers: Array[Map[name: c, pending: Array[Array[1-0, 5, 2]]]]]]]";

fn check_full_information(rt: &(impl AllocGlobal + Abort)) -> Result<(), ParsingError> {
    check_read::<StreamInfoFullReply>(rt, FULL)?;
    let text = "length=1 keys=0 nodes=0 last= deleted= added=none recorded= entries=[1-0(f=v,f=2)] \
                groups=[g last= read=none lag=none count=0 pending=[1-0 c 5 2] \
                consumers=[c seen=0 active=none count=0 pending=[1-0 5 2]]]";
    check_copy::<StreamInfoFullReply>(rt, FULL, text)?;
    let text = "length=0 keys=0 nodes=0 last= deleted= added=none recorded= entries=[] groups=[]";
    check_printed(rt, StreamInfoFullReply::empty(rt.alloc()), text)
}

/// Checks the printed form of a copy of the empty part of a reply.
fn check_part<T: PrintedForm + Copied>(
    rt: &(impl AllocGlobal + Abort),
    empty: Result<T, AllocError>,
    text: &str,
) -> Result<(), ParsingError> {
    check_printed(rt, empty?.copied(rt.alloc()), text)
}

fn check_full_parts(rt: &(impl AllocGlobal + Abort)) -> Result<(), ParsingError> {
    let empty = StreamInfoFullEntry::empty(rt.alloc());
    check_part(rt, empty, "()")?;
    let empty = StreamInfoFullPending::empty(rt.alloc());
    check_part(rt, empty, "  0 0")?;
    let empty = StreamInfoConsumerPending::empty(rt.alloc());
    check_part(rt, empty, " 0 0")?;
    let empty = StreamInfoFullConsumer::empty(rt.alloc());
    let text = " seen=0 active=none count=0 pending=[]";
    check_part(rt, empty, text)?;
    let empty = StreamInfoFullGroup::empty(rt.alloc());
    let text = " last= read=none lag=none count=0 pending=[] consumers=[]";
    check_part(rt, empty, text)
}

fn check_all(rt: &(impl AllocGlobal + Abort)) -> Result<(), ParsingError> {
    check_plain_values(rt)?;
    check_replies(rt)?;
    check_an_entry(rt)?;
    check_copied_entries(rt)?;
    check_empty_entries(rt)?;
    check_copied_pending(rt)?;
    check_copied_information(rt)?;
    check_empty_information(rt)?;
    check_copied_parts(rt)?;
    check_full_information(rt)?;
    check_full_parts(rt)
}

#[test]
fn ample_memory_gives_right_answers(rt: HostRuntime) {
    check_same(&rt, check_all(&rt), Ok(()));
}

#[test]
fn refused_memory_changes_no_answer(rt: HostRuntime) {
    let answer = check_all(&rt);
    assert!(rt; answer == Ok(()) || answer == Err(ParsingError::Memory));
}
