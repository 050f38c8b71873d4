//! A worker over a connection to a server in memory: to copy from.
use crate::check_same;
use crate::example::{Count, worker_of};
use redis_connection::Connection;
use redis_resp::Value;
use redis_wire::Limits;
use server_commands::{Loopback, LoopbackReader, LoopbackWriter, Server};
use std::alloc::Global;
use std::io;
use std::io::{ErrorKind, Read, Write};
use std::test::Fail;

/// Returns a connection to the server.
fn connected(
    alloc: Global,
    loopback: &Loopback,
) -> Result<Connection<LoopbackReader, LoopbackWriter>, Fail> {
    let (reader, writer) = loopback.connect()?;
    Ok(Connection::new(alloc, reader, writer, Limits::default())?)
}

/// Adds three entries.
fn add_three<R: Read + Drop, W: Write + Drop>(
    alloc: Global,
    connection: &mut Connection<R, W>,
) -> Result<(), Fail> {
    for id in ["1-1", "2-1", "3-1"] {
        let entry = ("XADD", "k", id, ("item", "tea"));
        let _id = connection.ask_as::<String, _>(alloc, &entry)?;
    }
    Ok(())
}

/// Returns how many entries a worker handles in eight rounds.
fn drained<R: Read + Drop, W: Write + Drop>(
    alloc: Global,
    connection: &mut Connection<R, W>,
) -> Result<usize, Fail> {
    let mut worker = worker_of(alloc, "ann")?;
    let mut handler = Count { done: 0 };
    let _progress = worker.run(alloc, connection, &mut handler, 8)?;
    Ok(handler.done)
}

/// Returns how many entries are pending, of ten at most.
fn pending<R: Read + Drop, W: Write + Drop>(
    alloc: Global,
    connection: &mut Connection<R, W>,
) -> Result<usize, Fail> {
    let question = ("XPENDING", "k", "g", ("-", "+", "10"));
    Ok(connection.ask_as::<Vec<Value>, _>(alloc, &question)?.len())
}

#[test]
fn my_worker_drains_what_another_connection_adds(rt: HostRuntime) -> Result<(), Fail> {
    let alloc = rt.alloc();
    let loopback = Loopback::new(alloc, Server::new(alloc))?;
    let mut producer = connected(alloc, &loopback)?;
    add_three(alloc, &mut producer)?;
    drop(producer);
    let mut connection = connected(alloc, &loopback)?;
    assert_eq!(rt; drained(alloc, &mut connection)?, 3);
    assert_eq!(rt; pending(alloc, &mut connection)?, 0);
    Ok(())
}

/// Returns how many of eight round trips carried an acknowledgement together with the next command.
fn count_pipelined<R: Read + Drop, W: Write + Drop>(
    alloc: Global,
    connection: &mut Connection<R, W>,
    handler: &mut Count,
) -> Result<usize, Fail> {
    let mut worker = worker_of(alloc, "ann")?;
    let mut both = 0usize;
    for _way in 0..8u64 {
        let made = worker.round_pipelined(alloc, connection, handler)?;
        if made.acknowledged {
            both = both.saturating_add(1);
        }
    }
    Ok(both)
}

#[test]
fn an_acknowledgement_goes_out_with_the_next_question(rt: HostRuntime) -> Result<(), Fail> {
    let alloc = rt.alloc();
    let loopback = Loopback::new(alloc, Server::new(alloc))?;
    let mut connection = connected(alloc, &loopback)?;
    add_three(alloc, &mut connection)?;
    let mut handler = Count { done: 0 };
    check_same(
        &rt,
        count_pipelined(alloc, &mut connection, &mut handler)?,
        1,
    );
    check_same(&rt, handler.done, 3);
    check_same(&rt, pending(alloc, &mut connection)?, 0);
    Ok(())
}

/// Returns how many entries are pending before and after the end of a worker that handled three.
fn count_pending_around_end<R: Read + Drop, W: Write + Drop>(
    alloc: Global,
    connection: &mut Connection<R, W>,
    handler: &mut Count,
) -> Result<(usize, usize), Fail> {
    let mut worker = worker_of(alloc, "ann")?;
    let _progress = worker.run(alloc, connection, handler, 5)?;
    let before = pending(alloc, connection)?;
    worker.finish(alloc, connection, handler)?;
    Ok((before, pending(alloc, connection)?))
}

#[test]
fn a_worker_that_ends_acknowledges_what_is_done(rt: HostRuntime) -> Result<(), Fail> {
    let alloc = rt.alloc();
    let loopback = Loopback::new(alloc, Server::new(alloc))?;
    let mut connection = connected(alloc, &loopback)?;
    add_three(alloc, &mut connection)?;
    let mut handler = Count { done: 0 };
    let (before, after) = count_pending_around_end(alloc, &mut connection, &mut handler)?;
    check_same(&rt, handler.done, 3);
    check_same(&rt, before, 3);
    check_same(&rt, after, 0);
    Ok(())
}

#[test]
fn an_end_that_breaks_says_so(rt: HostRuntime) -> Result<(), Fail> {
    let alloc = rt.alloc();
    let loopback = Loopback::new(alloc, Server::new(alloc))?;
    let (mut reader, mut writer) = loopback.connect()?;
    let mut room = [0u8; 64];
    check_same(
        &rt,
        to_error_kind(reader.read(&mut room)),
        Some(ErrorKind::WouldBlock),
    );
    writer.break_after(8);
    check_same(&rt, writer.write(b"PING\r\nPING\r\n")?, 8);
    check_same(
        &rt,
        to_error_kind(writer.write(b"NG\r\n")),
        Some(ErrorKind::BrokenPipe),
    );
    reader.break_after(3);
    check_same(&rt, reader.read(&mut room)?, 3);
    check_same(&rt, &room[..3], b"+PO".as_slice());
    check_same(
        &rt,
        to_error_kind(reader.read(&mut room)),
        Some(ErrorKind::ConnectionReset),
    );
    Ok(())
}

#[test]
fn bytes_that_are_no_command_end_a_connection(rt: HostRuntime) -> Result<(), Fail> {
    let alloc = rt.alloc();
    let loopback = Loopback::new(alloc, Server::new(alloc))?;
    let (mut reader, mut writer) = loopback.connect()?;
    writer.write_all(b"*x\r\n")?;
    let mut answers = String::new(alloc);
    let _len = reader.read_to_string(&mut answers)?;
    check_same(
        &rt,
        answers.as_str(),
        "-ERR Protocol error: invalid multibulk length\r\n",
    );
    check_same(
        &rt,
        to_error_kind(writer.write(b"PING\r\n")),
        Some(ErrorKind::BrokenPipe),
    );
    Ok(())
}

/// Returns the kind of the error, if there is one.
fn to_error_kind(outcome: io::Result<usize>) -> Option<ErrorKind> {
    match outcome {
        Ok(_len) => None,
        Err(error) => Some(error.kind()),
    }
}

/// A writer that buffers what is written until it is flushed.
#[derive(Drop)]
struct Holding {
    held: Vec<u8>,
    writer: LoopbackWriter,
}

impl Write for Holding {
    fn write(&mut self, buf: &[u8]) -> io::Result<usize> {
        self.held.extend_from_slice(buf)?;
        Ok(buf.len())
    }

    fn flush(&mut self) -> io::Result<()> {
        self.writer.write_all(self.held.as_slice())?;
        self.held.clear();
        Ok(())
    }
}

#[test]
fn a_command_is_flushed_before_its_reply_is_awaited(rt: HostRuntime) -> Result<(), Fail> {
    let alloc = rt.alloc();
    let loopback = Loopback::new(alloc, Server::new(alloc))?;
    let (reader, writer) = loopback.connect()?;
    let holding = Holding {
        held: Vec::new(alloc),
        writer,
    };
    let mut connection = Connection::new(alloc, reader, holding, Limits::default())?;
    add_three(alloc, &mut connection)?;
    let length = connection.ask_as::<usize, _>(alloc, &("XLEN", "k"))?;
    check_same(&rt, length, 3);
    Ok(())
}
