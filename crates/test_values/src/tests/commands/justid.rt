//! The reply of XAUTOCLAIM with JUSTID, by both calls. A reply is written as its bytes,
//! with a blank in place of each line end.
use crate::check_shown;
use redis_resp::{ParsingError, Value};
use redis_streams::StreamAutoClaimJustIdReply;
use redis_wire::{Decoded, Limits, Reply, decode};
use std::alloc::Global;
use std::process::Abort;
use stream_commands::xautoclaim_justid;
use stream_options::StreamAutoClaimOptions;

/// Decodes these bytes as a value.
fn value_of(rt: &(impl Abort + AllocGlobal), reply: &str) -> Option<Value> {
    let mut bytes = Vec::new(rt.alloc());
    for line in reply.split(' ') {
        bytes
            .extend_from_slice(line.as_bytes())
            .expect(rt, "memory");
        bytes.extend_from_slice(b"\r\n").expect(rt, "memory");
    }
    match decode(rt.alloc(), &bytes, Limits::default()) {
        Ok(
            Decoded::Complete {
                reply: Reply::Value(value),
                ..
            },
        ) => Some(value),
        _other => None,
    }
}

type Answer = Result<StreamAutoClaimJustIdReply, ParsingError>;

fn read_borrowed(alloc: Global, value: &Value) -> Answer {
    let options = StreamAutoClaimOptions::default();
    xautoclaim_justid("orders", "g", "c", 0, "0-0", options).read_ref(alloc, value)
}

fn read_owned(alloc: Global, value: Value) -> Answer {
    let options = StreamAutoClaimOptions::default();
    xautoclaim_justid("orders", "g", "c", 0, "0-0", options).read(alloc, value)
}

/// Checks that both calls return this for the value, as `Debug` prints a record or a refusal. A copy of
/// a record prints the same.
fn check_answer(rt: &(impl Abort + AllocGlobal), reply: &str, shown: &str) {
    let value = value_of(rt, reply).expect(rt, "a value");
    check_shown(rt, &read_borrowed(rt.alloc(), &value), shown);
    let owned = read_owned(rt.alloc(), value);
    check_shown(rt, &owned, shown);
    if let Ok(reply) = owned {
        let copy = reply.try_clone(rt.alloc()).expect(rt, "memory");
        check_shown(rt, &Ok(copy), shown);
    }
}

/// Replies of redis-server 7.0, and of 6.2, which lists no deleted ids, and replies that are refused.
/// Each line has a reply before the mark, and what is printed of it after the mark.
const ANSWERS: &str = "\
*3 $3 5-0 *2 $3 3-0 $3 4-0 *1 $3 1-0 = Ok(StreamAutoClaimJustIdReply { next_stream_id: \"5-0\", claimed: [\"3-0\", \"4-0\"], deleted_ids: [\"1-0\"] })\n\
*3 $3 0-0 *0 *0 = Ok(StreamAutoClaimJustIdReply { next_stream_id: \"0-0\", claimed: [], deleted_ids: [] })\n\
*2 $3 0-0 *2 $3 3-0 $3 4-0 = Ok(StreamAutoClaimJustIdReply { next_stream_id: \"0-0\", claimed: [\"3-0\", \"4-0\"], deleted_ids: [] })\n\
*1 $3 0-0 = Err(WrongItemCount(1))\n\
*4 $3 0-0 *1 $3 1-0 *1 $3 1-0 *1 $3 1-0 = Err(WrongItemCount(4))\n\
*3 $3 0-0 *1 *2 $3 1-0 *2 $4 item $3 tea *1 $3 1-0 = Err(NotText)\n\
*2 $3 0-0 *2 $3 1-0 $-1 = Err(NotText)\n\
*2 $3 0-0 $3 0-0 = Err(NotList)\n\
*3 $3 0-0 *1 $3 1-0 :1 = Err(NotList)\n\
*3 $-1 *1 $3 1-0 *1 $3 1-0 = Err(NotText)\n\
$-1 = Err(NotArray)";

#[test]
fn answers_of_ids_are_read(rt: HostRuntime) {
    for line in ANSWERS.lines() {
        let (reply, shown) = line.split_once(" = ").expect(&rt, "a mark");
        check_answer(&rt, reply, shown);
    }
}

#[test]
fn an_answer_of_no_ids_is_made(rt: HostRuntime) {
    let empty = StreamAutoClaimJustIdReply::empty(rt.alloc()).expect(&rt, "memory");
    let shown = "StreamAutoClaimJustIdReply { next_stream_id: \"\", claimed: [], deleted_ids: [] }";
    let empty = (format!(in rt.alloc(); "{empty:?}")).expect(&rt, "memory");
    assert!(rt; empty.as_str() == shown);
}
