//! The codec's guarantees on memory and on time.
use crate::tests::check_same;
use redis_wire::{Fault, Limits, Reply, ReplyStream, WireError, append_command};
use std::alloc::{AllocError, Global};
use std::process::Abort;

const LIMITS: Limits = Limits {
    depth: 4,
    length: 1000,
    line: 30,
    values: 6,
    bytes: 64,
};

/// Whether these bytes, fed in two pieces, are the reply with this text, unless memory is refused.
fn agrees(alloc: Global, bytes: &[u8], text: &str) -> Result<bool, WireError> {
    let (front, back) = bytes.split_at(bytes.len() / 2);
    let mut stream = ReplyStream::new(alloc, LIMITS);
    stream.feed(front)?;
    if stream.next(alloc)?.is_some() {
        return Ok(false);
    }
    stream.feed(back)?;
    match stream.next(alloc)? {
        Some(reply) => match format_reply(alloc, &reply) {
            Ok(other) => Ok(other.as_str() == text),
            Err(AllocError) => Err(WireError::Memory),
        },
        None => Ok(false),
    }
}

fn format_reply(alloc: Global, reply: &Reply) -> Result<String, AllocError> {
    format!(in alloc; "{reply:?}")
}

const PING: &[u8] = b"*2\r\n$4\r\nPING\r\n$1\r\n5\r\n";

/// Replies, and how `Debug` prints each.
const REPLIES: [(&[u8], &str); 5] = [
    (
        b"*2\r\n:1\r\n$1\r\na\r\n",
        "Value(Array([Int(1), BulkString([97])]))",
    ),
    (
        b"%1\r\n+a\r\n=5\r\ntxt:b\r\n",
        "Value(Map([(SimpleString(\"a\"), VerbatimString { format: \"txt\", text: \"b\" })]))",
    ),
    (
        b"|1\r\n+a\r\n_\r\n#t\r\n",
        "Value(Attribute { payload: Boolean(true), attributes: [(SimpleString(\"a\"), Nil)] })",
    ),
    (
        b"*2\r\n-A b\r\n-C\r\n",
        "Group { kind: Array, members: [\
Error(ServerError { text: [65, 32, 98] }), Error(ServerError { text: [67] })] }",
    ),
    (
        b">3\r\n+a\r\n*1\r\n-A\r\n:1\r\n",
        "Push { kind: \"a\", payload: [\
Group { kind: Array, members: [Error(ServerError { text: [65] })] }, Value(Int(1))] }",
    ),
];

#[test]
fn replies_with_refused_memory(rt: HostRuntime) {
    for (bytes, text) in &REPLIES {
        match agrees(rt.alloc(), bytes, text) {
            Ok(right) => assert!(rt; right, "{text}"),
            Err(error) => assert!(rt; error == WireError::Memory, "{text}"),
        }
    }
}

/// Feeds these bytes to the stream.
fn feed(rt: &impl Abort, stream: &mut ReplyStream, bytes: &[u8]) {
    stream.feed(bytes).expect(rt, "memory");
}

/// Whether the stream has a whole reply, which is taken then.
fn takes_reply(rt: &(impl AllocGlobal + Abort), stream: &mut ReplyStream) -> bool {
    stream.next(rt.alloc()).expect(rt, "a reply").is_some()
}

#[test]
fn a_stream_holds_no_more_than_its_limit(rt: HostRuntime) {
    let mut stream = ReplyStream::new(rt.alloc(), LIMITS);
    for _ in 0..40u8 {
        feed(&rt, &mut stream, b"+OK\r\n");
        assert!(rt; takes_reply(&rt, &mut stream));
    }
    assert!(rt; stream.is_empty());
    feed(&rt, &mut stream, b"$60\r\n0123456789");
    assert!(rt; !takes_reply(&rt, &mut stream));
    check_same(&rt, stream.held(), 15);
    let overfull = stream.feed(&[b'0'; 60]);
    assert!(rt; overfull == Err(WireError::Fault(Fault::Overfull)));
}

#[test]
fn commands_with_refused_memory(rt: HostRuntime) {
    let mut pipeline = Vec::new(rt.alloc());
    match append_command(rt.alloc(), &mut pipeline, &("PING", 5u64)) {
        Ok(()) => check_same(&rt, pipeline.as_slice(), PING),
        Err(_) => assert!(rt; pipeline.is_empty()),
    }
}

#[test]
fn a_reply_is_found_again_until_it_is_consumed(rt: HostRuntime) {
    let mut stream = ReplyStream::new(rt.alloc(), LIMITS);
    feed(&rt, &mut stream, b"+OK\r\n:12\r\n+");
    for _ in 0..3u8 {
        assert!(rt; stream.next_in_place(rt.alloc()) == Ok(Some(5)));
    }
    stream.give_out(5);
    assert!(rt; stream.next_in_place(rt.alloc()) == Ok(Some(5)));
    assert!(rt; stream.bytes() == b":12\r\n+".as_slice());
    stream.give_out(5);
    assert!(rt; stream.next_in_place(rt.alloc()) == Ok(None));
    stream.give_out(100);
    assert!(rt; stream.is_empty());
    feed(&rt, &mut stream, b"_\r\n");
    assert!(rt; stream.next_in_place(rt.alloc()) == Ok(Some(3)));
}
