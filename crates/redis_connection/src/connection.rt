//! A connection over a reader and a writer.
ghost use Rattle.std.specs.Prelude.{◌≡◌, ◌≢◌, ◌↔◌, ◌≤◌, Err, [], ℕ, take, IfOk, OnOk, OnErr, IfErr};
ghost use Rattle.redis_wire.specs.Packed.{command_bytes};
ghost use Rattle.redis_wire.specs.PackedArgs.{IsTooLarge};
ghost use Rattle.redis_wire.specs.Reply.{Answer, answer};
ghost use Rattle.redis_connection.specs.Ask.{Asks, HasNoAnswer};
ghost use Rattle.redis_connection.specs.Link.{Link, IsEnded, IsFaulty, IsInPlace, IsRetried, GivesOut, Receives, Sends, SendsFront, Stands, Waits};
ghost use Rattle.redis_connection.specs.Passing.{AwaitsAnswer, IsAnswerInPlace, ReceivesAnswer, one_more};

use crate::early::WriteEarly;
use crate::error::{AskError, ConnectionError};
use crate::incoming::{receive_from, receive_in_place_from};
use crate::outgoing::write_out;
use crate::passing::{begins_as_message, is_message};
use redis_resp::{FromRedisValue, ToRedisArgs};
use redis_wire::{Limits, Reply, ReplyStream, from_reply, pack_command};
use std::alloc::{AllocError, Global};
use std::io;
use std::io::{ErrorKind, Read, Write};
use std::marker::Model;

/// The number of bytes that are read at once.
const PIECE: usize = 65_536;

/// A connection to a server over a reader and a writer.
///
/// With RESP3 a server may send push messages, which are no reply to a command: of changed keys, or of
/// channels. They are skipped before a reply and counted. `receive_any` returns them.
///
/// A contract sees what its writer holds and what its reader has left, if these are known. It also sees
/// the bytes received and not consumed, and the number of push messages skipped.
#[derive(Drop)]
pub struct Connection<R: Read + Drop, W: Write + Drop> {
    reader: R,
    writer: W,
    replies: ReplyStream,
    piece: Vec<u8>,
    unfed: usize,
    passed: u64,
}

impl<R: Read + Drop, W: Write + Drop> Model for Connection<R, W> {
    ghost use Rattle.std.specs.Prelude.{◌≤◌, ◌<◌, length};
    ghost use Rattle.redis_connection.specs.Link.{Link};
    ghost use Rattle.redis_connection.specs.Seen.{seen};

    ghost Value = { Link };

    ghost view = { λ c. seen c.passed (W.contents c.writer) (R.remaining c.reader) c.replies
        c.piece.items c.unfed };

    ghost invariant = { λ c. (c.unfed ≤ length c.piece.items) × (0 < length c.piece.items) };
}

impl<R: Read + Drop, W: Write + Drop> Connection<R, W> {
    /// Returns a connection on which nothing was sent or received yet.
    pub fn new(
        alloc: Global,
        reader: R,
        writer: W,
        limits: Limits,
    ) -> Result<Connection<R, W>, AllocError>
        ensures { IfOk result (λ c. c ≡ record {
          written = W.contents writer;
          coming = R.remaining reader;
          held = record { limits = limits; bytes = [] };
          in_place = 0;
          passed = 0;
        }) }
    {
        Ok(Connection {
            reader,
            writer,
            replies: ReplyStream::new(alloc, limits),
            piece: vec![in alloc; 0; PIECE]?,
            unfed: 0,
            passed: 0,
        })
    }

    /// Sends these bytes.
    pub fn send_bytes(&mut self, bytes: &[u8]) -> Result<(), ConnectionError>
        ensures ok { OnOk result (Sends self.old self.new bytes.now) }
        ensures err { OnErr result (SendsFront self.old self.new bytes.now) }
        ensures cause { result ≢ Err ConnectionError.TooLong }
        ensures whole { result ≢ Err ConnectionError.NoArguments }
    {
        if let Err(error) = write_out(&mut self.writer, bytes) {
            return Err(ConnectionError::Write(error));
        }
        Ok(())
    }

    /// Sends a command. The error is `NoArguments` if the command has none, and then nothing was
    /// sent. It is `TooLong` only if an argument has 2^32 bytes or more, or there are 2^32 arguments or more.
    pub fn send<T: ToRedisArgs>(
        &mut self,
        alloc: Global,
        command: &T,
    ) -> Result<(), ConnectionError>
        ensures ok { OnOk result (Sends self.old self.new (command_bytes (T.args command.now))) }
        ensures err { OnErr result
            (SendsFront self.old self.new (command_bytes (T.args command.now))) }
        ensures too_long { result ≡ Err ConnectionError.TooLong → IsTooLarge (T.args command.now) }
        ensures none { (result ≡ Err ConnectionError.NoArguments) ↔ (T.args command.now ≡ []) }
        ensures unsent { result ≡ Err ConnectionError.NoArguments → self.new ≡ self.old }
    {
        let bytes = pack_command(alloc, command)?;
        self.send_bytes(&bytes)
    }

    /// Receives the next reply or push message. An `Err` consumes nothing, and the bytes received are held.
    /// After `Memory`, `Read` and `Closed` the call may be repeated.
    pub fn receive_any(&mut self, alloc: Global) -> Result<Reply, ConnectionError>
        ensures ok { IfOk result (λ reply. Receives self.old self.new (answer reply)) }
        ensures err { OnErr result (Waits self.old self.new) }
        ensures ended { IfErr result (IsEnded self.new) }
        ensures faulty { IfErr result (IsFaulty self.new.held) }
        ensures retried { IfErr result IsRetried }
    {
        receive_from(
            alloc,
            &mut self.reader,
            &mut self.replies,
            self.piece.as_mut_slice(),
            &mut self.unfed,
        )
    }

    /// Receives the next reply. Push messages of the server before it are skipped and counted.
    /// Its errors are those of `receive_any`.
    pub fn receive(&mut self, alloc: Global) -> Result<Reply, ConnectionError>
        ensures ok { IfOk result (λ reply. ReceivesAnswer self.old self.new (answer reply)) }
        ensures err { OnErr result (AwaitsAnswer self.old self.new) }
        ensures ended { IfErr result (IsEnded self.new) }
        ensures faulty { IfErr result (IsFaulty self.new.held) }
        ensures retried { IfErr result IsRetried }
    {
        for _turn in 0..u64::MAX {
            let reply = self.receive_any(alloc)?;
            if !is_message(&reply) {
                return Ok(reply);
            }
            self.count_message();
        }
        Err(ConnectionError::Read(io::Error::from(ErrorKind::TimedOut)))
    }

    /// Returns the length of the next reply or push message, at the start of the bytes received.
    fn find_reply(&mut self, alloc: Global) -> Result<usize, ConnectionError>
        ensures ok { IfOk result (IsInPlace self.old self.new) }
        ensures err { OnErr result (Waits self.old self.new) }
        ensures ended { IfErr result (IsEnded self.new) }
        ensures faulty { IfErr result (IsFaulty self.new.held) }
        ensures retried { IfErr result IsRetried }
    {
        receive_in_place_from(
            alloc,
            &mut self.reader,
            &mut self.replies,
            self.piece.as_mut_slice(),
            &mut self.unfed,
        )
    }

    /// Receives the next reply in place, without building it, and returns its length at the start of the
    /// bytes received. `received` returns them, and `give_out` consumes them; before that the same reply is
    /// received again. Push messages of the server before it are skipped and counted. Its errors are those
    /// of `receive_any`.
    pub fn receive_in_place(&mut self, alloc: Global) -> Result<usize, ConnectionError>
        ensures ok { IfOk result (IsAnswerInPlace self.old self.new) }
        ensures err { OnErr result (AwaitsAnswer self.old self.new) }
        ensures ended { IfErr result (IsEnded self.new) }
        ensures faulty { IfErr result (IsFaulty self.new.held) }
        ensures retried { IfErr result IsRetried }
    {
        for _turn in 0..u64::MAX {
            let len = self.find_reply(alloc)?;
            if !begins_as_message(self.received(len)) {
                return Ok(len);
            }
            self.give_out(len);
            self.count_message();
        }
        Err(ConnectionError::Read(io::Error::from(ErrorKind::TimedOut)))
    }

    /// Counts a push message that was skipped.
    fn count_message(&mut self)
        ensures { self.new ≡ record self.old { passed = one_more self.old.passed } }
    {
        self.passed = self.passed.saturating_add(1);
    }

    /// Returns the number of push messages that were skipped so far. It stays at 2^64 - 1 once it is there.
    pub fn passed(&self) -> u64
        ensures { result ≡ self.now.passed }
    {
        self.passed
    }

    /// Returns the limits of received replies.
    pub fn limits(&self) -> Limits
        ensures { result ≡ self.now.held.limits }
    {
        self.replies.limits()
    }

    /// Returns the first `len` bytes received, or as many of them as may be read in place. A reply that was
    /// received in place may be read so.
    pub fn received(&self, len: usize) -> &[u8]
        ensures within { len ≤ self.now.in_place → result.now ≡ take len self.now.held.bytes }
        ensures all { self.now.in_place ≤ len
            → result.now ≡ take self.now.in_place self.now.held.bytes }
    {
        take_front(self.replies.bytes(), len)
    }

    /// Consumes the first `len` bytes received, or as many of them as may be read in place. If they are the
    /// reply that `receive_in_place` found, that reply was received.
    pub fn give_out(&mut self, len: usize)
        ensures gives { GivesOut self.old self.new len }
        ensures receives { (before : Link) (a : Answer) → Stands before self.old len a
            → Receives before self.new a }
    {
        self.replies.give_out(len);
    }

    /// Sends a command, and reads its reply as an `M`. If the command has no arguments, nothing is sent
    /// or received, and the error is `ConnectionError::NoArguments`.
    pub fn ask_as<M: FromRedisValue, T: ToRedisArgs>(
        &mut self,
        alloc: Global,
        command: &T,
    ) -> Result<M, AskError>
        ensures ok { IfOk result (λ m. Asks self.old self.new (T.args command.now)
            M.reading (M.meaning m)) }
        ensures err { IfErr result (HasNoAnswer self.old self.new (T.args command.now)
            M.reading M.may_refuse) }
        ensures none { T.args command.now ≡ []
            → (result ≡ Err (AskError.Connection ConnectionError.NoArguments)) × (self.new ≡ self.old) }
    {
        self.send(alloc, command)?;
        let reply = self.receive(alloc)?;
        Ok(from_reply::<M>(alloc, reply)?)
    }
}

impl<R: Read + Drop, W: WriteEarly + Drop> Connection<R, W> {
    /// Sends some of these bytes before they are written, as `WriteEarly` says. The next `send_bytes` has to begin with
    /// them.
    #[tactic(auto, using(crate::proofs::EarlyLemmas::nothing_more))]
    pub fn send_early(&mut self, bytes: &[u8])
        ensures { Sends self.old self.new [] }
    {
        self.writer.write_early(bytes);
    }
}

/// Returns the first `len` bytes, or all of them if there are fewer.
pub(crate) fn take_front(bytes: &[u8], len: usize) -> &[u8]
    ensures { result.now ≡ take len bytes.now }
{
    match bytes.split_at_checked(len) {
        Some((front, _)) => front,
        None => bytes,
    }
}
