//! A producer over a connection.
ghost use Rattle.std.specs.Prelude.{◌≡◌, ◌<◌, ◌↔◌, [], ℕ, Ok, IfErr, IfOk, IsTrue, OnOk, OnErr, false, true};
ghost use Rattle.std.specs.Option.{ForSome};
ghost use Rattle.redis_connection.specs.Link.{Sends, SendsFront};
ghost use Rattle.redis_connection.specs.Passing.{AwaitsAnswer};
ghost use Rattle.worker_producer.specs.Ahead.{IsPrepared};
ghost use Rattle.worker_producer.specs.Machine.{Asks, AsksNone, idle, standing_of};
ghost use Rattle.worker_producer.specs.Session.{BeginsAsLine, Breaks, Broke, FailsToHear, HearsAll, HearsOne, IsRound, Ran, Unheard};

use crate::ahead::{Prepared, choose_early};
use crate::error::{RequestError, RunError};
use crate::executed_reply::ExecutedReply;
use crate::producer::Producer;
use crate::queued::receive_in_place;
use crate::source::Source;
use crate::stage::Asked;
use redis_connection::{Connection, ConnectionError, WriteEarly};
use std::alloc::Global;
use std::io::{Read, Write};

impl Producer {
    /// Takes the replies that are still expected. The last one is not decoded if it has the ids of the whole batch.
    fn take_all<R: Read + Drop, W: Write + Drop>(
        &mut self,
        alloc: Global,
        connection: &mut Connection<R, W>,
        count: u64,
    ) -> Result<(), RunError>
        ensures ok { OnOk result (HearsAll self.old.settings.base count connection.old
            connection.new (standing_of self.old) (standing_of self.new)) }
        ensures err { IfErr result (FailsToHear self.old.settings.base count connection.old
            connection.new (standing_of self.old)) }
        ensures settings { self.new.settings ≡ self.old.settings }
    {
        let expected = self.expect_executed(alloc);
        self.take_replies(alloc, connection, count, &expected)
    }

    /// Takes the replies that are still expected. `expected` is the last one if each record of a batch is added.
    fn take_replies<R: Read + Drop, W: Write + Drop>(
        &mut self,
        alloc: Global,
        connection: &mut Connection<R, W>,
        count: u64,
        expected: &Option<ExecutedReply>,
    ) -> Result<(), RunError>
        ensures ok { OnOk result (HearsAll self.old.settings.base count connection.old
            connection.new (standing_of self.old) (standing_of self.new)) }
        ensures err { IfErr result (FailsToHear self.old.settings.base count connection.old
            connection.new (standing_of self.old)) }
        ensures settings { self.new.settings ≡ self.old.settings }
    {
        for _reply in 0..self.coming() {
            self.take_next(alloc, connection, count, expected)?;
        }
        Ok(())
    }

    /// Takes the next reply. It does not decode a simple string that is not the last reply, nor the reply that is
    /// expected.
    fn take_next<R: Read + Drop, W: Write + Drop>(
        &mut self,
        alloc: Global,
        connection: &mut Connection<R, W>,
        count: u64,
        expected: &Option<ExecutedReply>,
    ) -> Result<(), RunError>
        ensures ok { OnOk result (HearsOne self.old.settings.base count connection.old
            connection.new (standing_of self.old) (standing_of self.new)) }
        ensures err { IfErr result (Unheard self.old.settings.base count connection.old
            connection.new (standing_of self.old)) }
        ensures settings { self.new.settings ≡ self.old.settings }
    {
        if self.coming() > 1 {
            return self.take_queued_reply(alloc, connection, count);
        }
        match expected {
            Some(expected) => self.take_executed(alloc, connection, count, expected),
            None => self.receive_reply(alloc, connection, count),
        }
    }

    /// Takes the next reply. At least one more is expected after it.
    fn take_queued_reply<R: Read + Drop, W: Write + Drop>(
        &mut self,
        alloc: Global,
        connection: &mut Connection<R, W>,
        count: u64,
    ) -> Result<(), RunError>
        requires { 1 < self.old.coming }
        ensures ok { OnOk result (HearsOne self.old.settings.base count connection.old
            connection.new (standing_of self.old) (standing_of self.new)) }
        ensures err { IfErr result (Unheard self.old.settings.base count connection.old
            connection.new (standing_of self.old)) }
        ensures settings { self.new.settings ≡ self.old.settings }
    {
        match self.take_if_line(alloc, connection) {
            Ok(true) => Ok(()),
            Ok(false) => self.receive_reply(alloc, connection, count),
            Err(error) => Err(error),
        }
    }

    /// Takes the next reply. It is the expected one if each record of a batch was added.
    fn take_executed<R: Read + Drop, W: Write + Drop>(
        &mut self,
        alloc: Global,
        connection: &mut Connection<R, W>,
        count: u64,
        expected: &ExecutedReply,
    ) -> Result<(), RunError>
        ensures ok { OnOk result (HearsOne self.old.settings.base count connection.old
            connection.new (standing_of self.old) (standing_of self.new)) }
        ensures err { IfErr result (Unheard self.old.settings.base count connection.old
            connection.new (standing_of self.old)) }
        ensures settings { self.new.settings ≡ self.old.settings }
    {
        match self.take_if_executed(alloc, connection, expected) {
            Ok(true) => Ok(()),
            Ok(false) => self.receive_reply(alloc, connection, count),
            Err(error) => Err(error),
        }
    }

    /// Takes the next reply if it is the expected one. Returns whether it is; if not, the reply is not taken.
    fn take_if_executed<R: Read + Drop, W: Write + Drop>(
        &mut self,
        alloc: Global,
        connection: &mut Connection<R, W>,
        expected: &ExecutedReply,
    ) -> Result<bool, RunError>
        ensures taken { result ≡ Ok true → (base : ℕ) (count : ℕ) → HearsOne base count
            connection.old connection.new (standing_of self.old) (standing_of self.new) }
        ensures held { result ≡ Ok false → AwaitsAnswer connection.old connection.new }
        ensures same { result ≡ Ok false → self.new ≡ self.old }
        ensures err { IfErr result (λ e. (base : ℕ) (count : ℕ) → Unheard base count
            connection.old connection.new (standing_of self.old) e) }
        ensures settings { self.new.settings ≡ self.old.settings }
    {
        match expected.receive(alloc, connection) {
            Ok(true) => {
                let Some(batch) = self.last_reply_of(expected.sent()) else {
                    return Ok(false);
                };
                connection.give_out(expected.len());
                self.count_executed(batch);
                Ok(true)
            }
            Ok(false) => Ok(false),
            Err(error) => Err(RunError::Receive(error)),
        }
    }

    /// Takes the next reply if it is a simple string such as `+QUEUED`. Returns whether it is; if not, the reply is not
    /// taken.
    fn take_if_line<R: Read + Drop, W: Write + Drop>(
        &mut self,
        alloc: Global,
        connection: &mut Connection<R, W>,
    ) -> Result<bool, RunError>
        requires { 1 < self.old.coming }
        ensures taken { result ≡ Ok true → (base : ℕ) (count : ℕ) → HearsOne base count
            connection.old connection.new (standing_of self.old) (standing_of self.new) }
        ensures held { result ≡ Ok false → AwaitsAnswer connection.old connection.new }
        ensures same { result ≡ Ok false → self.new ≡ self.old }
        ensures err { IfErr result (λ e. (base : ℕ) (count : ℕ) → Unheard base count
            connection.old connection.new (standing_of self.old) e) }
        ensures settings { self.new.settings ≡ self.old.settings }
    {
        match receive_in_place(alloc, connection) {
            Ok(len) => {
                if !is_line(connection.received(len)) {
                    return Ok(false);
                }
                connection.give_out(len);
                self.count_reply();
                Ok(true)
            }
            Err(error) => Err(RunError::Receive(error)),
        }
    }

    /// Takes the next reply, whatever it is.
    fn receive_reply<R: Read + Drop, W: Write + Drop>(
        &mut self,
        alloc: Global,
        connection: &mut Connection<R, W>,
        count: u64,
    ) -> Result<(), RunError>
        ensures ok { OnOk result (HearsOne self.old.settings.base count connection.old
            connection.new (standing_of self.old) (standing_of self.new)) }
        ensures err { IfErr result (Unheard self.old.settings.base count connection.old
            connection.new (standing_of self.old)) }
        ensures settings { self.new.settings ≡ self.old.settings }
    {
        match connection.receive(alloc) {
            Ok(reply) => {
                self.answered(alloc, reply, count)?;
                Ok(())
            }
            Err(error) => Err(RunError::Receive(error)),
        }
    }

    /// Makes one round. After an error the producer may be in the middle of it: the caller disconnects it.
    fn try_round<S: Source, R: Read + Drop, W: Write + Drop>(
        &mut self,
        alloc: Global,
        connection: &mut Connection<R, W>,
        source: &mut S,
        count: u64,
    ) -> Result<Asked, RunError>
        ensures ok { IfOk result (IsRound self.old.settings (S.records source.old) count
            connection.old connection.new (standing_of self.old) (standing_of self.new)) }
        ensures err { IfErr result (Breaks self.old.settings (S.records source.old) count
            connection.old connection.new (standing_of self.old)) }
        ensures settings { self.new.settings ≡ self.old.settings }
        ensures records { S.records source.new ≡ S.records source.old }
    {
        let mut bytes = Vec::new(alloc);
        let asked = self.request(alloc, &mut bytes, source)?;
        if let Err(error) = connection.send_bytes(&bytes) {
            return Err(RunError::Send(error));
        }
        self.announce_next(alloc, source);
        self.take_all(alloc, connection, count)?;
        Ok(asked)
    }

    /// Makes one round of `round_ahead`. After an error the producer may be in the middle of it: the caller disconnects
    /// it.
    fn try_round_ahead<S: Source, R: Read + Drop, W: WriteEarly + Drop>(
        &mut self,
        alloc: Global,
        connection: &mut Connection<R, W>,
        source: &mut S,
        count: u64,
        ahead: &mut Option<Prepared>,
        is_early: bool,
    ) -> Result<Asked, RunError>
        requires { ForSome ahead.old (IsPrepared self.old.settings (S.records source.old)) }
        ensures ok { IfOk result (IsRound self.old.settings (S.records source.old) count
            connection.old connection.new (standing_of self.old) (standing_of self.new)) }
        ensures err { IfErr result (Breaks self.old.settings (S.records source.old) count
            connection.old connection.new (standing_of self.old)) }
        ensures settings { self.new.settings ≡ self.old.settings }
        ensures records { S.records source.new ≡ S.records source.old }
        ensures ahead { ForSome ahead.new (IsPrepared self.old.settings (S.records source.old)) }
    {
        let (bytes, asked) = self.request_ahead(alloc, source, ahead.take())?;
        match self.send_ahead(alloc, connection, source, &bytes, is_early) {
            Ok(prepared) => *ahead = prepared,
            Err(error) => return Err(RunError::Send(error)),
        }
        self.take_all(alloc, connection, count)?;
        Ok(asked)
    }

    /// Sends these commands, and prepares the next batch while they are on their way. If `is_early`, that batch is sent
    /// too, but for EXEC.
    #[tactic(auto, using(crate::proofs::SessionLemmas::sends_and_none))]
    fn send_ahead<S: Source, R: Read + Drop, W: WriteEarly + Drop>(
        &mut self,
        alloc: Global,
        connection: &mut Connection<R, W>,
        source: &mut S,
        bytes: &[u8],
        is_early: bool,
    ) -> Result<Option<Prepared>, ConnectionError>
        ensures ok { OnOk result (Sends connection.old connection.new bytes.now) }
        ensures err { OnErr result (SendsFront connection.old connection.new bytes.now) }
        ensures prepared { IfOk result (λ prepared. ForSome prepared
            (IsPrepared self.old.settings (S.records source.old))) }
        ensures standing { standing_of self.new ≡ standing_of self.old }
        ensures settings { self.new.settings ≡ self.old.settings }
        ensures records { S.records source.new ≡ S.records source.old }
    {
        connection.send_bytes(bytes)?;
        let prepared = self.prepare_next(alloc, source);
        connection.send_early(choose_early(&prepared, is_early));
        Ok(prepared)
    }

    /// The bytes to send next: those that were prepared, if they are the next ones.
    fn request_ahead<S: Source>(
        &mut self,
        alloc: Global,
        source: &mut S,
        ahead: Option<Prepared>,
    ) -> Result<(Vec<u8>, Asked), RequestError>
        requires { ForSome ahead (IsPrepared self.old.settings (S.records source.old)) }
        ensures ok { IfOk result (λ r. Asks self.old.settings (S.records source.old) [] r.0.items
            (standing_of self.old) (standing_of self.new) r.1) }
        ensures err { IfErr result (AsksNone self.old.settings (S.records source.old)
            (standing_of self.old)) }
        ensures settings { self.new.settings ≡ self.old.settings }
        ensures records { S.records source.new ≡ S.records source.old }
    {
        if let Some(prepared) = ahead {
            if let Some(request) = self.take_prepared(prepared) {
                return Ok(request);
            }
        }
        let mut bytes = Vec::new(alloc);
        let asked = self.request(alloc, &mut bytes, source)?;
        Ok((bytes, asked))
    }

    /// Makes one round, as `round` does, and prepares the next batch while this one is on its way. `ahead` has what
    /// was prepared for these settings and this source, and is `None` at first. If `is_early`, the commands of that
    /// batch are sent, but for EXEC.
    pub(crate) fn round_ahead<S: Source, R: Read + Drop, W: WriteEarly + Drop>(
        &mut self,
        alloc: Global,
        connection: &mut Connection<R, W>,
        source: &mut S,
        count: u64,
        ahead: &mut Option<Prepared>,
        is_early: bool,
    ) -> Result<Asked, RunError>
        requires { ForSome ahead.old (IsPrepared self.old.settings (S.records source.old)) }
        ensures ok { IfOk result (IsRound self.old.settings (S.records source.old) count
            connection.old connection.new (standing_of self.old) (standing_of self.new)) }
        ensures err { IfErr result (Breaks self.old.settings (S.records source.old) count
            connection.old connection.new (standing_of self.old)) }
        ensures err_standing { OnErr result (standing_of self.new ≡ idle) }
        ensures settings { self.new.settings ≡ self.old.settings }
        ensures records { S.records source.new ≡ S.records source.old }
        ensures ahead { ForSome ahead.new (IsPrepared self.old.settings (S.records source.old)) }
    {
        match self.try_round_ahead(alloc, connection, source, count, ahead, is_early) {
            Ok(asked) => Ok(asked),
            Err(error) => {
                self.disconnected();
                Err(error)
            }
        }
    }

    /// Makes one round of `run`: it sends commands, and takes all replies. It sends `Nothing` if all records are added.
    /// `count` is how many records there are. After an `Err` it is disconnected, and replies may still arrive: close
    /// the connection.
    pub fn round<S: Source, R: Read + Drop, W: Write + Drop>(
        &mut self,
        alloc: Global,
        connection: &mut Connection<R, W>,
        source: &mut S,
        count: u64,
    ) -> Result<Asked, RunError>
        ensures ok { IfOk result (IsRound self.old.settings (S.records source.old) count
            connection.old connection.new (standing_of self.old) (standing_of self.new)) }
        ensures err { IfErr result (Breaks self.old.settings (S.records source.old) count
            connection.old connection.new (standing_of self.old)) }
        ensures err_standing { OnErr result (standing_of self.new ≡ idle) }
        ensures settings { self.new.settings ≡ self.old.settings }
        ensures records { S.records source.new ≡ S.records source.old }
    {
        match self.try_round(alloc, connection, source, count) {
            Ok(asked) => Ok(asked),
            Err(error) => {
                self.disconnected();
                Err(error)
            }
        }
    }

    /// Runs for `rounds` rounds, or until all records are added. Returns whether they are. It always begins by reading
    /// the last id. `count` is how many records there are.
    ///
    /// After an `Err` it is disconnected, and replies may still arrive: close the connection, and run it again over a
    /// new one.
    pub fn run<S: Source, R: Read + Drop, W: Write + Drop>(
        &mut self,
        alloc: Global,
        connection: &mut Connection<R, W>,
        source: &mut S,
        count: u64,
        rounds: u64,
    ) -> Result<bool, RunError>
        ensures ok { IfOk result (Ran self.old.settings (S.records source.old) count rounds
            connection.old connection.new (standing_of self.new)) }
        ensures err { IfErr result (Broke self.old.settings (S.records source.old) count
            connection.old connection.new) }
        ensures err_standing { OnErr result (standing_of self.new ≡ idle) }
        ensures settings { self.new.settings ≡ self.old.settings }
        ensures records { S.records source.new ≡ S.records source.old }
    {
        self.disconnected();
        for _round in 0..rounds {
            let asked = self.round(alloc, connection, source, count)?;
            match asked {
                Asked::Nothing => return Ok(true),
                Asked::LastId | Asked::Records => {}
            }
        }
        Ok(false)
    }
}

/// Whether bytes begin with `+`, as a simple string does.
fn is_line(bytes: &[u8]) -> bool
    ensures { IsTrue result ↔ BeginsAsLine bytes.now }
{
    matches!(bytes, [b'+', ..])
}
