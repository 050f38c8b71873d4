//! Connections to a server in memory: a reader and a writer whose other end is the server.
ghost use Rattle.std.specs.Prelude.{◌≡◌, ◌++◌, ◌≤◌, Some, None, IfOk, IfErr, OnErr, take, drop, length};
ghost use Rattle.std.specs.Io.{ReadsAtMost, WritesAtMost};
ghost use Rattle.std.specs.IoError.{error_kind};
ghost use Rattle.std.specs.Io.KnownBytes.{ReadConsumes, WriteAppends};
ghost use Rattle.server_commands.specs.Loopback.{MayPass, Passes};

use crate::Server;
use crate::client::Client;
use std::alloc::Global;
use std::cell::{Cell, RefCell};
use std::io;
use std::io::{ErrorKind, Read, Write};
use std::marker::Model;
use std::rc::Rc;

/// A server in memory, and connections to it: to test a client without a process or a socket. Each command that
/// is written to a connection gets its reply at once.
///
/// A contract sees the time of its clock.
#[derive(Drop)]
pub struct Loopback {
    alloc: Global,
    shared: Rc<Shared>,
    now: u64,
}

impl Model for Loopback {
    ghost use Rattle.std.specs.Prelude.{ℕ};

    ghost Value = { ℕ };

    ghost view = { λ loopback. loopback.now };
}

/// The state that all connections share.
#[derive(Drop)]
struct Shared {
    server: RefCell<Server>,
    now: Cell<u64>,
}

/// One connection, as the server sees it.
#[derive(Drop)]
struct Line {
    client: Client,
    /// The replies that are not yet read.
    answers: Vec<u8>,
}

/// The end of a connection at which replies are read.
///
/// A contract sees how many bytes may still be read before the connection breaks, if it is to break.
#[derive(Drop)]
pub struct LoopbackReader {
    line: Rc<RefCell<Line>>,
    left: Option<usize>,
}

impl Model for LoopbackReader {
    ghost use Rattle.std.specs.Prelude.{ℕ, Option};

    ghost Value = { Option ℕ };

    ghost view = { λ end. end.left };
}

/// The end of a connection at which commands are written.
///
/// A contract sees how many bytes may still be written before the connection breaks, if it is to
/// break.
#[derive(Drop)]
pub struct LoopbackWriter {
    alloc: Global,
    shared: Rc<Shared>,
    line: Rc<RefCell<Line>>,
    left: Option<usize>,
}

impl Model for LoopbackWriter {
    ghost use Rattle.std.specs.Prelude.{ℕ, Option};

    ghost Value = { Option ℕ };

    ghost view = { λ end. end.left };
}

impl Loopback {
    /// Connections to this server, whose clock is at 0. It is an `Err` if an allocation failed.
    pub fn new(alloc: Global, server: Server) -> io::Result<Loopback>
        ensures ok { IfOk result (λ loopback. loopback ≡ 0) }
        ensures err { IfErr result (λ e. error_kind e ≡ ErrorKind.OutOfMemory) }
    {
        let shared = Shared {
            server: RefCell::new(server),
            now: Cell::new(0),
        };
        Ok(Loopback {
            alloc,
            shared: Rc::new(alloc, shared)?,
            now: 0,
        })
    }

    /// A new connection that does not break. It is an `Err` if an allocation failed.
    pub fn connect(&self) -> io::Result<(LoopbackReader, LoopbackWriter)>
        ensures ok { IfOk result (λ ends. (ends.0 ≡ None) × (ends.1 ≡ None)) }
        ensures err { IfErr result (λ e. error_kind e ≡ ErrorKind.OutOfMemory) }
    {
        let line = Line {
            client: Client::new(self.alloc),
            answers: Vec::new(self.alloc),
        };
        let line = Rc::new(self.alloc, RefCell::new(line))?;
        let reader = LoopbackReader {
            line: line.clone()?,
            left: None,
        };
        let writer = LoopbackWriter {
            alloc: self.alloc,
            shared: self.shared.clone()?,
            line,
            left: None,
        };
        Ok((reader, writer))
    }

    /// Sets the clock of the server, in milliseconds: commands that are written from now on are executed at
    /// this time.
    pub fn set_now(&mut self, now: u64)
        ensures { self.new ≡ now }
    {
        self.now = now;
        self.shared.now.set(now);
    }
}

impl LoopbackReader {
    /// Breaks the connection after `bytes` more bytes were read: the next read is the error `ConnectionReset`.
    pub fn break_after(&mut self, bytes: usize)
        ensures { self.new ≡ Some bytes }
    {
        self.left = Some(bytes);
    }
}

impl LoopbackWriter {
    /// Breaks the connection after `bytes` more bytes were written: the server has those, and the next write is
    /// the error `BrokenPipe`.
    pub fn break_after(&mut self, bytes: usize)
        ensures { self.new ≡ Some bytes }
    {
        self.left = Some(bytes);
    }
}

/// How many of `len` bytes may pass, or this error if none may.
fn count_passing(left: Option<usize>, len: usize, kind: ErrorKind) -> io::Result<usize>
    ensures within { IfOk result (λ n. n ≤ len) }
    ensures passes { IfOk result (λ n. MayPass left n) }
    ensures broken { IfErr result (λ e. (left ≡ Some 0) × (error_kind e ≡ kind)) }
{
    match left {
        None => Ok(len),
        Some(left) => {
            if left == 0 && len > 0 {
                return Err(io::Error::from(kind));
            }
            Ok(len.min(left))
        }
    }
}

/// How many bytes may still pass after `len` more.
fn subtract_len(left: Option<usize>, len: usize) -> Option<usize>
    ensures { MayPass left len → Passes left result len }
{
    match left {
        None => None,
        Some(left) => Some(left.saturating_sub(len)),
    }
}

/// Moves bytes of the first replies into a buffer, as many as fit. If there are none, it returns 0 after the
/// end of the connection, and otherwise the error `WouldBlock`.
fn give(answers: &mut Vec<u8>, has_ended: bool, buf: &mut [u8]) -> io::Result<usize>
    ensures bound { ReadsAtMost result buf.new }
    ensures bytes { IfOk result (λ n. answers.old.items ≡ take n buf.new ++ answers.new.items) }
    ensures err { OnErr result (answers.new.items ≡ answers.old.items) }
{
    let len = buf.len().min(answers.len());
    if len == 0 && !buf.is_empty() && !has_ended {
        return Err(io::Error::from(ErrorKind::WouldBlock));
    }
    let (front, _) = buf.split_at_mut(len);
    let (first, _) = answers.split_at(len);
    front.copy_from_slice(first);
    drop_front(answers, len);
    Ok(len)
}

/// Removes the first bytes.
fn drop_front(bytes: &mut Vec<u8>, len: usize)
    requires { len ≤ length bytes.old.items }
    ensures { bytes.new.items ≡ drop len bytes.old.items }
{
    let all = bytes.len();
    bytes.copy_within(len..all, 0);
    bytes.truncate(all - len);
}

impl Read for LoopbackReader {
    /// Reads replies that are not yet read. It never waits: if there are none, it is the error `WouldBlock`, or
    /// the end of the input after the server has ended the connection.
    fn read(&mut self, buf: &mut [u8]) -> io::Result<usize>
        ensures bound { ReadsAtMost result buf.new }
        ensures bytes { ReadConsumes None None result buf.new }
        ensures passes { IfOk result (λ n. Passes self.old self.new n) }
        ensures err { OnErr result (self.new ≡ self.old) }
    {
        let len = count_passing(self.left, buf.len(), ErrorKind::ConnectionReset)?;
        let Ok(mut line) = self.line.try_borrow_mut() else {
            return Err(io::Error::from(ErrorKind::ResourceBusy));
        };
        let line = &mut *line;
        let (front, _) = buf.split_at_mut(len);
        let given = give(&mut line.answers, line.client.has_ended(), front)?;
        self.left = subtract_len(self.left, given);
        Ok(given)
    }
}

impl Write for LoopbackWriter {
    /// Writes bytes of commands; each complete command is executed and gets its reply. It is the error
    /// `BrokenPipe` after the server has ended the connection, and `OutOfMemory` ends it.
    fn write(&mut self, buf: &[u8]) -> io::Result<usize>
        ensures bound { WritesAtMost result buf.now }
        ensures bytes { WriteAppends None None result buf.now }
        ensures passes { IfOk result (λ n. Passes self.old self.new n) }
        ensures err { OnErr result (self.new ≡ self.old) }
    {
        let len = count_passing(self.left, buf.len(), ErrorKind::BrokenPipe)?;
        let Ok(mut line) = self.line.try_borrow_mut() else {
            return Err(io::Error::from(ErrorKind::ResourceBusy));
        };
        let Ok(mut server) = self.shared.server.try_borrow_mut() else {
            return Err(io::Error::from(ErrorKind::ResourceBusy));
        };
        let line = &mut *line;
        if line.client.has_ended() {
            return Err(io::Error::from(ErrorKind::BrokenPipe));
        }
        let (front, _) = buf.split_at(len);
        let now = self.shared.now.get();
        let answers = &mut line.answers;
        line.client
            .answer(self.alloc, &mut *server, now, front, answers)?;
        self.left = subtract_len(self.left, len);
        Ok(len)
    }

    fn flush(&mut self) -> io::Result<()> {
        Ok(())
    }
}
