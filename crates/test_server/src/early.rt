//! Bytes that are sent early, over a connection to a server in memory.
use crate::check_same;
use redis_connection::{EarlyWriter, WriteEarly};
use server_commands::{Loopback, LoopbackReader, LoopbackWriter, Server};
use std::alloc::Global;
use std::io;
use std::io::{ErrorKind, Read, Write};
use std::test::Fail;

/// A transaction of one command.
const TRANSACTION: &[u8] = b"*1\r\n$5\r\nMULTI\r\n*1\r\n$4\r\nPING\r\n*1\r\n$4\r\nEXEC\r\n";

/// A writer that takes three bytes at most at each write, and sends what it took when it is flushed.
#[derive(Drop)]
struct Slow {
    held: Vec<u8>,
    writer: LoopbackWriter,
}

impl Write for Slow {
    fn write(&mut self, bytes: &[u8]) -> io::Result<usize> {
        let taken = bytes.len().min(3);
        self.held.extend_from_slice(&bytes[..taken])?;
        Ok(taken)
    }

    fn flush(&mut self) -> io::Result<()> {
        self.writer.write_all(self.held.as_slice())?;
        self.held.clear();
        Ok(())
    }
}

/// Returns both ends of a connection to a server of its own.
fn connect(alloc: Global) -> Result<(LoopbackReader, EarlyWriter<Slow>), Fail> {
    let (reader, writer) = Loopback::new(alloc, Server::new(alloc))?.connect()?;
    let held = Vec::new(alloc);
    Ok((reader, EarlyWriter::new(alloc, Slow { held, writer })))
}

#[test]
fn bytes_sent_early_are_not_sent_again(rt: HostRuntime) -> Result<(), Fail> {
    let (mut reader, mut writer) = connect(rt.alloc())?;
    writer.write_early(TRANSACTION);
    writer.write_early(TRANSACTION);
    writer.write_all(TRANSACTION)?;
    writer.flush()?;
    let mut room = [0u8; 25];
    check_same(&rt, reader.read(&mut room)?, 25);
    check_same(
        &rt,
        room.as_slice(),
        b"+OK\r\n+QUEUED\r\n*1\r\n+PONG\r\n".as_slice(),
    );
    Ok(())
}

#[test]
fn nothing_is_executed_before_it_is_written(rt: HostRuntime) -> Result<(), Fail> {
    let alloc = rt.alloc();
    let (mut reader, writer) = Loopback::new(alloc, Server::new(alloc))?.connect()?;
    let mut writer = EarlyWriter::new(alloc, writer);
    let mut room = [0u8; 64];
    writer.write_early(TRANSACTION);
    writer.flush()?;
    check_same(&rt, reader.read(&mut room)?, 14);
    check_same(&rt, &room[..14], b"+OK\r\n+QUEUED\r\n".as_slice());
    writer.write_all(TRANSACTION)?;
    writer.flush()?;
    check_same(&rt, reader.read(&mut room)?, 11);
    check_same(&rt, &room[..11], b"*1\r\n+PONG\r\n".as_slice());
    Ok(())
}

#[test]
fn other_bytes_than_those_sent_early_are_refused(rt: HostRuntime) -> Result<(), Fail> {
    let (_reader, mut writer) = connect(rt.alloc())?;
    writer.write_early(TRANSACTION);
    let Err(error) = writer.write(b"PONG\r\n") else {
        return Err(Fail::new("other bytes were written"));
    };
    check_same(&rt, error.kind(), ErrorKind::InvalidInput);
    check_same(&rt, writer.write(TRANSACTION)?, 3);
    Ok(())
}
