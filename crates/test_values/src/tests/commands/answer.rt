//! Replies, each read as the type of its command.
use redis_resp::{ParsingError, Value};
use redis_wire::{Reply, ReplyError, ServerError};
use std::process::Abort;
use stream_commands::{AtLeastOne, xack, xadd_options, xlen, xread};
use stream_options::StreamAddOptions;

#[test]
fn a_length_is_read(rt: HostRuntime) {
    let length = xlen("orders");
    let owned = length.read(rt.alloc(), Value::Int(3));
    assert!(rt; matches!(&owned, Ok(3)), "{owned:?}");
    let borrowed = length.read_ref(rt.alloc(), &Value::Okay);
    assert!(rt;
        matches!(&borrowed, Err(ParsingError::NotNumber)),
        "{borrowed:?}"
    );
}

#[test]
fn many_acknowledged_entries_are_counted(rt: HostRuntime) {
    let acknowledged = xack("orders", "g", AtLeastOne::one(&"1-0"));
    for count in [0i64, 1, 255, 256, 65_536, 4_294_967_296] {
        let read = acknowledged.read(rt.alloc(), Value::Int(count));
        let as_text = match &read {
            Ok(read) => format!(in rt.alloc(); "{read}").expect(&rt, "memory"),
            Err(error) => format!(in rt.alloc(); "{error:?}").expect(&rt, "memory"),
        };
        let wanted = format!(in rt.alloc(); "{count}").expect(&rt, "memory");
        assert!(rt; as_text.as_str() == wanted.as_str(), "{count}: {as_text}");
    }
}

#[test]
fn a_reply_is_read(rt: HostRuntime) {
    let length = xlen("orders");
    let read = length.read_reply(rt.alloc(), Reply::Value(Value::Int(3)));
    assert!(rt; matches!(&read, Ok(3)), "{read:?}");
}

#[test]
fn an_error_of_the_server_is_read(rt: HostRuntime) {
    let length = xlen("orders");
    let text = Vec::from_slice(rt.alloc(), b"WRONGTYPE no stream").expect(&rt, "memory");
    match length.read_reply(rt.alloc(), Reply::Error(ServerError { text })) {
        Err(ReplyError::Server(error)) => assert!(rt; error.code() == b"WRONGTYPE".as_slice()),
        other => assert!(rt; false, "{other:?}"),
    }
}

#[test]
fn no_id_is_read(rt: HostRuntime) {
    let options = StreamAddOptions::default();
    let add = xadd_options("orders", "*", ("item", "tea"), &options);
    let read = add.read(rt.alloc(), Value::Nil);
    assert!(rt; matches!(&read, Ok(None)), "{read:?}");
}

#[test]
fn no_streams_are_read(rt: HostRuntime) {
    let command = xread(AtLeastOne::one(&("orders", "0")));
    let read = command.read(rt.alloc(), Value::Nil);
    assert!(rt; matches!(&read, Ok(None)), "{read:?}");
}

#[test]
fn an_empty_list_is_none(rt: HostRuntime) {
    let none: [&str; 0] = [];
    assert!(rt; AtLeastOne::new(&none).is_none());
    let some = ["a", "b"];
    let list = AtLeastOne::new(&some).expect(&rt, "a list");
    assert!(rt; list.len() == 2);
}
