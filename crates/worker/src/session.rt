//! A worker over a connection.
ghost use Rattle.std.specs.Prelude.{◌≡◌, IfErr, IfOk, OnOk};
ghost use Rattle.redis_wire.specs.Reply.{answer};
ghost use Rattle.worker.specs.Errors.{received_for};
ghost use Rattle.worker.specs.Machine.{machine_of};
ghost use Rattle.redis_connection.specs.Passing.{IsAnswerInPlace};
ghost use Rattle.worker.specs.Session.{Breaks, Broke, Fails, FailsUnanswered, HasAsked, IsAsked, IsUnanswered};
ghost use Rattle.worker.specs.Session.{OnCommitFailed, Ran, Turned, machine_after, standing_of};
ghost use Rattle.worker.specs.Finish.{FinishBroke, Finished, Settles, SettlesNot};
ghost use Rattle.worker.specs.Taken.{Awaited, Takes, TakesNot};

use crate::error::{InPlaceError, RunError};
use crate::handler::Handler;
use crate::state::Asked;
use crate::worker::{Progress, Worker};
use redis_connection::{Connection, ConnectionError};
use redis_wire::{Reply, WireError};
use std::alloc::Global;
use std::io::{Read, Write};

/// The result of a round.
#[derive(Clone, Copy, Debug, PartialEq, Eq)]
pub struct Round {
    /// The command that was sent.
    pub asked: Asked,
    /// Whether the worker goes on.
    pub progress: Progress,
}

impl Worker {
    /// Requests the next command, and sends it.
    pub(crate) fn send_next<H: Handler, R: Read + Drop, W: Write + Drop>(
        &mut self,
        alloc: Global,
        connection: &mut Connection<R, W>,
        handler: &mut H,
    ) -> Result<(), RunError>
        ensures ok { OnOk result (HasAsked H.with_commit self.old.settings connection.old
            connection.new (standing_of self.old (H.history handler.old))
            (standing_of self.new (H.history handler.new))) }
        ensures err { IfErr result (IsUnanswered H.with_commit self.old.settings connection.old
            connection.new (standing_of self.old (H.history handler.old))
            (standing_of self.new (H.history handler.new))) }
        ensures failed { IfErr result (λ e. OnCommitFailed e (H.commit_failed handler.old handler.new)) }
        ensures settings { self.new.settings ≡ self.old.settings }
    {
        let mut question = Vec::new(alloc);
        self.request(alloc, &mut question, handler)?;
        if let Err(error) = connection.send_bytes(&question) {
            return Err(RunError::Send(error));
        }
        Ok(())
    }

    /// Requests the next command, sends it, and receives its reply.
    fn try_ask<H: Handler, R: Read + Drop, W: Write + Drop>(
        &mut self,
        alloc: Global,
        connection: &mut Connection<R, W>,
        handler: &mut H,
    ) -> Result<Reply, RunError>
        ensures ok { IfOk result (λ reply. IsAsked H.with_commit self.old.settings connection.old
            connection.new (standing_of self.old (H.history handler.old))
            (standing_of self.new (H.history handler.new)) (answer reply)) }
        ensures err { IfErr result (IsUnanswered H.with_commit self.old.settings connection.old
            connection.new (standing_of self.old (H.history handler.old))
            (standing_of self.new (H.history handler.new))) }
        ensures failed { IfErr result (λ e. OnCommitFailed e (H.commit_failed handler.old handler.new)) }
        ensures settings { self.new.settings ≡ self.old.settings }
    {
        self.send_next(alloc, connection, handler)?;
        name_command(self.asked(), connection.receive(alloc))
    }

    /// Requests the next command, sends it, and receives its reply, which `answered` takes. An `Err` is never
    /// `Answer`, and does not lead to the acknowledgement of an entry that was not committed. If the command
    /// may have been sent, the worker begins again.
    pub fn ask<H: Handler, R: Read + Drop, W: Write + Drop>(
        &mut self,
        alloc: Global,
        connection: &mut Connection<R, W>,
        handler: &mut H,
    ) -> Result<Reply, RunError>
        ensures ok { IfOk result (λ reply. IsAsked H.with_commit self.old.settings connection.old
            connection.new (standing_of self.old (H.history handler.old))
            (standing_of self.new (H.history handler.new)) (answer reply)) }
        ensures err { IfErr result (FailsUnanswered H.with_commit self.old.settings connection.old
            connection.new (standing_of self.old (H.history handler.old))
            (standing_of self.new (H.history handler.new))) }
        ensures failed { IfErr result (λ e. OnCommitFailed e (H.commit_failed handler.old handler.new)) }
        ensures settings { self.new.settings ≡ self.old.settings }
    {
        match self.try_ask(alloc, connection, handler) {
            Ok(reply) => Ok(reply),
            Err(error) => Err(self.begin_again_after(error)),
        }
    }

    /// Begins again with the worker's own pending entries, if a command may have been sent. Returns the error.
    pub(crate) fn begin_again_after(&mut self, error: RunError) -> RunError
        ensures same { result ≡ error }
        ensures machine { machine_of self.new ≡ machine_after error (machine_of self.old) }
        ensures group { self.new.group ≡ self.old.group }
        ensures asked { self.new.asked ≡ self.old.asked }
        ensures settings { self.new.settings ≡ self.old.settings }
    {
        match error {
            RunError::Request(_) => {}
            _ => self.begin_again(),
        }
        error
    }

    /// Receives the next reply, takes it without a copy, and drops its bytes from the buffer. If memory runs out before
    /// the reply is read, the error is `Receive`, and the reply stays in the buffer.
    pub(crate) fn take_next<H: Handler, R: Read + Drop, W: Write + Drop>(
        &mut self,
        alloc: Global,
        connection: &mut Connection<R, W>,
        handler: &mut H,
    ) -> Result<Progress, RunError>
        ensures ok { IfOk result (Takes H.with_verdict self.old.settings connection.old
            connection.new (standing_of self.old (H.history handler.old))
            (standing_of self.new (H.history handler.new))) }
        ensures err { IfErr result (TakesNot H.with_verdict self.old.settings connection.old
            connection.new (standing_of self.old (H.history handler.old))
            (standing_of self.new (H.history handler.new))) }
        ensures settings { self.new.settings ≡ self.old.settings }
    {
        let asked = self.asked();
        let len = wait_for_reply(alloc, connection, asked)?;
        let limits = connection.limits();
        match self.answered_in_place(alloc, connection.received(len), limits, handler) {
            Ok(progress) => {
                connection.give_out(len);
                Ok(progress)
            }
            Err(InPlaceError::Answer(error)) => {
                connection.give_out(len);
                Err(RunError::Answer(error))
            }
            Err(InPlaceError::Unread(WireError::Memory)) => Err(RunError::Receive {
                asked,
                error: ConnectionError::Memory,
            }),
            Err(InPlaceError::Unread(WireError::Fault(_))) => unreachable!(),
            Err(InPlaceError::Incomplete) => unreachable!(),
        }
    }

    /// Makes one round. An error leaves the worker as it is.
    fn try_round<H: Handler, R: Read + Drop, W: Write + Drop>(
        &mut self,
        alloc: Global,
        connection: &mut Connection<R, W>,
        handler: &mut H,
    ) -> Result<Round, RunError>
        ensures ok { IfOk result (λ round. Turned H.with_verdict H.with_commit self.old.settings
            connection.old connection.new (standing_of self.old (H.history handler.old))
            (standing_of self.new (H.history handler.new)) round.asked round.progress) }
        ensures err { IfErr result (Breaks H.with_verdict H.with_commit self.old.settings
            connection.old connection.new (standing_of self.old (H.history handler.old))
            (standing_of self.new (H.history handler.new))) }
        ensures settings { self.new.settings ≡ self.old.settings }
    {
        self.send_next(alloc, connection, handler)?;
        let asked = self.asked();
        let progress = self.take_next(alloc, connection, handler)?;
        Ok(Round { asked, progress })
    }

    /// Makes one round of `run`: sends a command, takes the reply without a copy, and drops the bytes of the
    /// reply from the buffer. If memory runs out before the reply is read, the error is `Receive`, and the
    /// reply stays in the buffer. After an `Err` the worker reads its own pending entries again. It does not
    /// after `Request`, since nothing was sent.
    pub fn round<H: Handler, R: Read + Drop, W: Write + Drop>(
        &mut self,
        alloc: Global,
        connection: &mut Connection<R, W>,
        handler: &mut H,
    ) -> Result<Round, RunError>
        ensures ok { IfOk result (λ round. Turned H.with_verdict H.with_commit self.old.settings
            connection.old connection.new (standing_of self.old (H.history handler.old))
            (standing_of self.new (H.history handler.new)) round.asked round.progress) }
        ensures err { IfErr result (Fails H.with_verdict H.with_commit self.old.settings
            connection.old connection.new (standing_of self.old (H.history handler.old))
            (standing_of self.new (H.history handler.new))) }
        ensures settings { self.new.settings ≡ self.old.settings }
    {
        match self.try_round(alloc, connection, handler) {
            Ok(round) => Ok(round),
            Err(error) => Err(self.begin_again_after(error)),
        }
    }

    /// Runs for `rounds` rounds. Each sends a command and takes its reply without a copy. Returns `Stopped` if the
    /// handler returned `Stop`.
    ///
    /// After an `Err` a reply may still arrive, so close the connection. Over a new one the worker reads its own
    /// pending entries again, and no entry is lost.
    pub fn run<H: Handler, R: Read + Drop, W: Write + Drop>(
        &mut self,
        alloc: Global,
        connection: &mut Connection<R, W>,
        handler: &mut H,
        rounds: u64,
    ) -> Result<Progress, RunError>
        ensures ok { IfOk result (Ran H.with_verdict H.with_commit self.old.settings connection.old
            connection.new (standing_of self.old (H.history handler.old))
            (standing_of self.new (H.history handler.new)) rounds) }
        ensures err { IfErr result (Broke H.with_verdict H.with_commit self.old.settings
            connection.old connection.new (standing_of self.old (H.history handler.old))
            (standing_of self.new (H.history handler.new)) rounds) }
        ensures settings { self.new.settings ≡ self.old.settings }
    {
        for _round in 0..rounds {
            let round = self.round(alloc, connection, handler)?;
            match round.progress {
                Progress::GoesOn => {}
                Progress::Stopped => return Ok(Progress::Stopped),
            }
        }
        Ok(Progress::GoesOn)
    }

    /// Acknowledges what is done, and reads nothing. Makes at most two rounds, until everything done is
    /// committed and acknowledged. The handler commits before the second round. It commits before the first
    /// round if there is nothing else to acknowledge.
    ///
    /// Call this before a worker ends, for example after its handler returned `Stop`. Errors are as for `run`.
    pub fn finish<H: Handler, R: Read + Drop, W: Write + Drop>(
        &mut self,
        alloc: Global,
        connection: &mut Connection<R, W>,
        handler: &mut H,
    ) -> Result<(), RunError>
        ensures ok { OnOk result (Finished H.with_verdict H.with_commit self.old.settings
            connection.old connection.new (standing_of self.old (H.history handler.old))
            (standing_of self.new (H.history handler.new))) }
        ensures err { IfErr result (FinishBroke H.with_verdict H.with_commit self.old.settings
            connection.old connection.new (standing_of self.old (H.history handler.old))
            (standing_of self.new (H.history handler.new))) }
        ensures settings { self.new.settings ≡ self.old.settings }
    {
        self.settle(alloc, connection, handler)?;
        self.settle(alloc, connection, handler)
    }

    /// Makes one round, if something must be committed or acknowledged.
    fn settle<H: Handler, R: Read + Drop, W: Write + Drop>(
        &mut self,
        alloc: Global,
        connection: &mut Connection<R, W>,
        handler: &mut H,
    ) -> Result<(), RunError>
        ensures ok { OnOk result (Settles H.with_verdict H.with_commit self.old.settings
            connection.old connection.new (standing_of self.old (H.history handler.old))
            (standing_of self.new (H.history handler.new))) }
        ensures err { IfErr result (SettlesNot H.with_verdict H.with_commit self.old.settings
            connection.old connection.new (standing_of self.old (H.history handler.old))
            (standing_of self.new (H.history handler.new))) }
        ensures settings { self.new.settings ≡ self.old.settings }
    {
        if self.is_settled() {
            return Ok(());
        }
        let _round = self.round(alloc, connection, handler)?;
        Ok(())
    }
}

/// Waits until the next reply is complete in the buffer. Returns its length in bytes.
fn wait_for_reply<R: Read + Drop, W: Write + Drop>(
    alloc: Global,
    connection: &mut Connection<R, W>,
    asked: Asked,
) -> Result<usize, RunError>
    ensures ok { IfOk result (IsAnswerInPlace connection.old connection.new) }
    ensures err { IfErr result (Awaited asked connection.old connection.new) }
{
    name_command(asked, connection.receive_in_place(alloc))
}

/// Returns what was received. An error of the connection stays the same, and names the command.
pub(crate) fn name_command<T: Drop>(
    asked: Asked,
    received: Result<T, ConnectionError>,
) -> Result<T, RunError>
    ensures { result ≡ received_for asked received }
{
    match received {
        Ok(taken) => Ok(taken),
        Err(error) => Err(RunError::Receive { asked, error }),
    }
}
