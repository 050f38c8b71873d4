//! A client of a server: it sends bytes of commands, and receives bytes of replies.
ghost use Rattle.std.specs.Prelude.{◌≡◌, ◌++◌, ◌+◌, ◌*◌, ◌<◌, ◌≤◌, [], true, false, IsTrue, IfOk, OnOk, OnErr, map, max, option_map, vec_capacity, vec_len};
ghost use Rattle.redis_wire.specs.declared.written.Protocol.TheVariants.{Resp2};
ghost use Rattle.server_commands.specs.Incoming.{Gives, command_at, protocol_error_bytes};
ghost use Rattle.server_commands.specs.Serving.{Turn, IsAnswered, turn_bytes, MayStep, Serves, GivesUp, Leaves, Answers, state_of};
ghost use Rattle.server_commands.specs.Session.{new_session};

use crate::incoming::{Scan, Stop, command_at, is_short, push_protocol_error};
use crate::writing::append_reply;
use crate::{Server, Session};
use redis_wire::Protocol;
use std::alloc::{AllocError, Global};
use std::marker::Model;

/// What a server knows of a client and its connection.
///
/// A contract sees the bytes of an incomplete command, whether the connection has ended, and its session. What was
/// parsed is not parsed again, so small pieces cost no more than large ones.
#[derive(Drop)]
pub struct Client {
    session: Session,
    unread: Vec<u8>,
    // how far the command in `unread` was parsed
    scan: Scan,
    has_ended: bool,
}

impl Model for Client {
    ghost use Rattle.server_commands.specs.Incoming.{IsScan};
    ghost use Rattle.server_commands.specs.Serving.{Standing};

    ghost Value = { Standing };

    ghost view = { λ c. record { unread = c.unread.items; has_ended = c.has_ended; session = c.session } };

    ghost invariant = { λ c. IsScan c.scan c.unread.items };
}

impl Client {
    /// A client that has sent nothing yet, and speaks RESP2.
    pub fn new(alloc: Global) -> Client
        ensures { result ≡ record { unread = []; has_ended = false; session = new_session Resp2 } }
    {
        Client {
            session: Session::new(alloc, Protocol::Resp2),
            unread: Vec::new(alloc),
            scan: Scan::NEW,
            has_ended: false,
        }
    }

    /// Takes bytes that the client sent, in whatever pieces they come, and executes each command that is
    /// complete, in order. The replies are appended to `answers`, one for each command that is not empty.
    ///
    /// Bytes that no further bytes could make a command get the reply `-ERR Protocol error: ..`, and end the
    /// connection. So does an `Err`: an allocation failed, and the last command that was executed may have no
    /// reply. Bytes after the end are ignored.
    pub fn answer(
        &mut self,
        alloc: Global,
        server: &mut Server,
        now: u64,
        bytes: &[u8],
        answers: &mut Vec<u8>,
    ) -> Result<(), AllocError>
        ensures ok { OnOk result
            (Answers self.old self.new server.old server.new bytes.now answers.old.items answers.new.items) }
        ensures err { OnErr result
            (GivesUp (self.old.unread ++ bytes.now) answers.old.items answers.new.items
            (state_of server.old self.old) (state_of server.new self.new)) }
        ensures ended { OnErr result (self.new.has_ended ≡ true) }
    {
        if self.has_ended {
            return Ok(());
        }
        self.has_ended = true;
        if self.unread.is_empty() {
            return self.answer_new(alloc, server, now, bytes, answers);
        }
        hold(&mut self.unread, bytes, self.scan.wanted)?;
        if is_short(&mut self.scan, &self.unread) {
            self.has_ended = false;
            return Ok(());
        }
        self.answer_held(alloc, server, now, answers)
    }

    /// Executes each complete command of what is unread. The memory of these bytes is freed before the first
    /// one is executed.
    fn answer_held(
        &mut self,
        alloc: Global,
        server: &mut Server,
        now: u64,
        answers: &mut Vec<u8>,
    ) -> Result<(), AllocError>
        requires { self.old.has_ended ≡ true }
        ensures ok { OnOk result
            (Leaves self.new self.old.unread answers.old.items answers.new.items
            (state_of server.old self.old) (state_of server.new self.new)) }
        ensures err { OnErr result (GivesUp self.old.unread answers.old.items answers.new.items
            (state_of server.old self.old) (state_of server.new self.new)) }
        ensures ended { OnErr result (self.new.has_ended ≡ true) }
    {
        match parse_first(alloc, &self.unread) {
            Ok((words, behind)) => {
                self.scan = Scan::NEW;
                self.unread = Vec::new(alloc);
                answer_one(alloc, server, &mut self.session, now, words, answers)?;
                self.answer_new(alloc, server, now, &behind, answers)
            }
            Err(Stop::Short) => {
                self.has_ended = false;
                Ok(())
            }
            Err(Stop::Memory) => Err(AllocError),
            Err(Stop::Fault(error)) => push_protocol_error(alloc, answers, error),
        }
    }

    /// Executes each complete command of bytes, if nothing is unread, and keeps the rest.
    fn answer_new(
        &mut self,
        alloc: Global,
        server: &mut Server,
        now: u64,
        bytes: &[u8],
        answers: &mut Vec<u8>,
    ) -> Result<(), AllocError>
        requires ended { self.old.has_ended ≡ true }
        requires none { self.old.unread ≡ [] }
        ensures ok { OnOk result (Leaves self.new bytes.now answers.old.items answers.new.items
            (state_of server.old self.old) (state_of server.new self.new)) }
        ensures err { OnErr result (GivesUp bytes.now answers.old.items answers.new.items
            (state_of server.old self.old) (state_of server.new self.new)) }
        ensures ended { OnErr result (self.new.has_ended ≡ true) }
    {
        let rest = answer_all(alloc, server, &mut self.session, now, bytes, answers)?;
        if let Some(rest) = rest {
            self.scan = Scan::NEW;
            hold(&mut self.unread, rest, 0)?;
            self.has_ended = false;
        }
        Ok(())
    }

    /// Whether the connection has ended: the server sends no more, and ignores further bytes.
    pub fn has_ended(&self) -> bool
        ensures { result ≡ self.now.has_ended }
    {
        self.has_ended
    }
}

/// Executes each complete command at the head of bytes, and appends the replies. Returns the rest, which is no
/// complete command; None after a protocol error.
fn answer_all<'a>(
    alloc: Global,
    server: &mut Server,
    session: &mut Session,
    now: u64,
    bytes: &'a [u8],
    answers: &mut Vec<u8>,
) -> Result<Option<&'a [u8]>, AllocError>
    ensures ok { IfOk result (λ rest. Serves bytes.now answers.old.items answers.new.items
        (option_map (λ r. r.now) rest) (record { streams = server.old; session = session.old })
        (record { streams = server.new; session = session.new })) }
    ensures err { OnErr result (GivesUp bytes.now answers.old.items answers.new.items
        (record { streams = server.old; session = session.old })
        (record { streams = server.new; session = session.new })) }
{
    let mut rest = bytes;
    'commands: loop {
        match command_at(alloc, rest) {
            Ok((words, behind)) => {
                answer_one(alloc, server, session, now, words, answers)?;
                rest = behind;
            }
            Err(Stop::Short) => return Ok(Some(rest)),
            Err(Stop::Memory) => return Err(AllocError),
            Err(Stop::Fault(error)) => {
                push_protocol_error(alloc, answers, error)?;
                return Ok(None);
            }
        }
    }
}

/// The command at the head of bytes, and a copy of the bytes after it.
fn parse_first(alloc: Global, bytes: &[u8]) -> Result<(Vec<Vec<u8>>, Vec<u8>), Stop>
    ensures { Gives (λ x. (map (λ w. w.items) x.0.items, x.1.items)) result (command_at bytes.now) }
{
    let (words, behind) = command_at(alloc, bytes)?;
    Ok((words, Vec::from_slice(alloc, behind)?))
}

/// Appends bytes.
fn hold(held: &mut Vec<u8>, bytes: &[u8], wanted: usize) -> Result<(), AllocError>
    ensures ok { OnOk result (held.new.items ≡ held.old.items ++ bytes.now) }
    ensures err { OnErr result (held.new.items ≡ held.old.items) }
{
    make_room(held, bytes.len(), wanted)?;
    held.extend_from_slice(bytes)?;
    Ok(())
}

/// Reserves memory for `more` bytes more, and at most for twice the bytes that are then held. It grows by an
/// eighth, and up to `wanted` bytes it doubles.
fn make_room(held: &mut Vec<u8>, more: usize, wanted: usize) -> Result<(), AllocError>
    ensures same { held.new.items ≡ held.old.items }
    ensures enough { OnOk result (vec_len held.old + more ≤ vec_capacity held.new) }
    ensures bound { vec_capacity held.new ≤ max (vec_capacity held.old) (2 * (vec_len held.old + more)) }
{
    let room = held.capacity();
    if more <= room - held.len() {
        return Ok(());
    }
    let Some(needed) = held.len().checked_add(more) else {
        return Err(AllocError);
    };
    held.reserve_exact(compute_room(room, needed, wanted) - held.len())
}

/// The new capacity in place of one that is too small.
fn compute_room(room: usize, needed: usize, wanted: usize) -> usize
    requires { room < needed }
    ensures enough { needed ≤ result }
    ensures bound { result ≤ 2 * needed }
{
    let least = needed.max(room.saturating_add(room / 8));
    least.max(wanted.min(room.saturating_mul(2)))
}

/// Executes a command, and appends its reply; an empty command has none.
fn answer_one(
    alloc: Global,
    server: &mut Server,
    session: &mut Session,
    now: u64,
    words: Vec<Vec<u8>>,
    answers: &mut Vec<u8>,
) -> Result<(), AllocError>
    ensures ok { OnOk result ((turn : Turn) × IsAnswered (map (λ w. w.items) words.items) turn
        (record { streams = server.old; session = session.old })
        (record { streams = server.new; session = session.new })
        × (answers.new.items ≡ answers.old.items ++ turn_bytes turn)) }
    ensures err { OnErr result (answers.new.items ≡ answers.old.items) }
    ensures stepped { OnErr result (MayStep (map (λ w. w.items) words.items)
        (record { streams = server.old; session = session.old })
        (record { streams = server.new; session = session.new })) }
{
    if words.is_empty() {
        return Ok(());
    }
    let reply = server.step(alloc, now, session, words)?;
    append_reply(alloc, answers, session.protocol, &reply)?;
    Ok(())
}
