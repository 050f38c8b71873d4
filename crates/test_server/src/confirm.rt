//! The words of the commands WAIT and WAITAOF, and the readings of their replies.
use crate::check_same;
use redis_resp::{ParsingError, ToRedisArgs, Value};
use std::alloc::{AllocError, Global};
use std::process::Abort;
use stream_commands::{wait, wait_aof};

/// Checks that the command is written as the words of this line.
fn check<T: ToRedisArgs>(rt: &(impl AllocGlobal + Abort), command: &T, line: &str) {
    let listed = command.to_redis_args(rt.alloc()).expect(rt, "memory");
    let mut words = line.split(' ');
    for word in &listed {
        assert_eq!(rt;
            words.next().map(|it| it.as_bytes()),
            Some(word.as_slice()),
            "of {line}"
        );
    }
    assert!(rt; words.next().is_none(), "of {line}");
}

#[test]
fn replicas_are_asked(rt: HostRuntime) {
    check(&rt, &wait(1, 1000), "WAIT 1 1000");
    check(&rt, &wait(0, 0), "WAIT 0 0");
}

#[test]
fn files_are_asked(rt: HostRuntime) {
    check(&rt, &wait_aof(1, 2, 500), "WAITAOF 1 2 500");
}

#[test]
fn replicas_are_counted(rt: HostRuntime) {
    check_same(&rt, wait(2, 1).read(rt.alloc(), Value::Int(3)), Ok(3));
    assert!(rt; wait(2, 1).read(rt.alloc(), Value::Nil).is_err());
}

/// Returns the reply to WAITAOF if the writes are in the append only files of the server and of one replica.
fn make_reply(alloc: Global) -> Result<Value, AllocError> {
    Ok(Value::Array(vec![in alloc; Value::Int(1), Value::Int(1)]?))
}

#[test]
fn files_are_counted(rt: HostRuntime) {
    let reply = make_reply(rt.alloc()).expect(&rt, "memory");
    check_same(&rt, wait_aof(1, 1, 1).read(rt.alloc(), reply), Ok((1, 1)));
    check_same(
        &rt,
        wait_aof(1, 1, 1).read(rt.alloc(), Value::Int(1)),
        Err(ParsingError::NotTuple(2)),
    );
}
