//! An acknowledgement and the next command in one write.
ghost use Rattle.std.specs.Prelude.{◌≡◌, IfErr, IfOk};
ghost use Rattle.worker.specs.Pipelined.{BreaksBoth, BreaksPipelined, FailsPipelined, NamesNext, PassesNext};
ghost use Rattle.worker.specs.Pipelined.{SentBoth, SentNeither, TakesBoth, WentPipelined};
ghost use Rattle.worker.specs.Session.{standing_of};

use crate::error::RunError;
use crate::handler::Handler;
use crate::session::{Round, name_command};
use crate::state::Asked;
use crate::worker::Worker;
use redis_connection::Connection;
use std::alloc::Global;
use std::io::{Read, Write};

/// The result of one round trip.
#[derive(Clone, Copy, Debug, PartialEq, Eq)]
pub struct Pipelined {
    /// Whether an acknowledgement was sent in the same write before the round, and its reply was taken.
    pub acknowledged: bool,
    /// The round.
    pub round: Round,
}

impl Worker {
    /// Makes one round, or two in one round trip: if everything done is acknowledged, the next command is sent in the
    /// same write as `XACK`, and both replies are taken.
    ///
    /// The effect is that of two calls of `round`. If the first reply is an error, the second is discarded, and
    /// its entries stay pending. If the second reply is not received, the error is `Receive`. After an `Err`
    /// the worker reads its own pending entries again. It does not after `Request`, since nothing was sent.
    pub fn round_pipelined<H: Handler, R: Read + Drop, W: Write + Drop>(
        &mut self,
        alloc: Global,
        connection: &mut Connection<R, W>,
        handler: &mut H,
    ) -> Result<Pipelined, RunError>
        ensures ok { IfOk result (λ made. WentPipelined H.with_verdict H.with_commit self.old.settings
            connection.old connection.new (standing_of self.old (H.history handler.old))
            (standing_of self.new (H.history handler.new)) made.acknowledged made.round.asked
            made.round.progress) }
        ensures err { IfErr result (FailsPipelined H.with_verdict H.with_commit self.old.settings
            connection.old connection.new (standing_of self.old (H.history handler.old))
            (standing_of self.new (H.history handler.new))) }
        ensures settings { self.new.settings ≡ self.old.settings }
    {
        match self.try_pipelined(alloc, connection, handler) {
            Ok(made) => Ok(made),
            Err(error) => Err(self.begin_again_after(error)),
        }
    }

    /// Makes one round, or two in one write. An error leaves the worker where it is.
    fn try_pipelined<H: Handler, R: Read + Drop, W: Write + Drop>(
        &mut self,
        alloc: Global,
        connection: &mut Connection<R, W>,
        handler: &mut H,
    ) -> Result<Pipelined, RunError>
        ensures ok { IfOk result (λ made. WentPipelined H.with_verdict H.with_commit self.old.settings
            connection.old connection.new (standing_of self.old (H.history handler.old))
            (standing_of self.new (H.history handler.new)) made.acknowledged made.round.asked
            made.round.progress) }
        ensures err { IfErr result (BreaksPipelined H.with_verdict H.with_commit self.old.settings
            connection.old connection.new (standing_of self.old (H.history handler.old))
            (standing_of self.new (H.history handler.new))) }
        ensures settings { self.new.settings ≡ self.old.settings }
    {
        match self.send_both(alloc, connection, handler)? {
            None => {
                let asked = self.asked();
                let progress = self.take_next(alloc, connection, handler)?;
                Ok(Pipelined {
                    acknowledged: false,
                    round: Round { asked, progress },
                })
            }
            Some(next) => {
                let round = self.take_both(alloc, connection, handler, next)?;
                Ok(Pipelined {
                    acknowledged: true,
                    round,
                })
            }
        }
    }

    /// Requests the next command, and also the one after it if the first acknowledges everything done. Sends
    /// them in one write. Returns which the second command is.
    fn send_both<H: Handler, R: Read + Drop, W: Write + Drop>(
        &mut self,
        alloc: Global,
        connection: &mut Connection<R, W>,
        handler: &mut H,
    ) -> Result<Option<Asked>, RunError>
        ensures ok { IfOk result (SentBoth H.with_commit self.old.settings connection.old
            connection.new (standing_of self.old (H.history handler.old))
            (standing_of self.new (H.history handler.new))) }
        ensures err { IfErr result (SentNeither H.with_commit self.old.settings connection.old
            connection.new (standing_of self.old (H.history handler.old))
            (standing_of self.new (H.history handler.new))) }
        ensures settings { self.new.settings ≡ self.old.settings }
    {
        let mut questions = Vec::new(alloc);
        self.request(alloc, &mut questions, handler)?;
        let next = self.append_following(alloc, &mut questions);
        if let Err(error) = connection.send_bytes(&questions) {
            return Err(RunError::Send(error));
        }
        Ok(next)
    }

    /// Takes the reply to the acknowledgement, and then the reply to the next command.
    fn take_both<H: Handler, R: Read + Drop, W: Write + Drop>(
        &mut self,
        alloc: Global,
        connection: &mut Connection<R, W>,
        handler: &mut H,
        next: Asked,
    ) -> Result<Round, RunError>
        ensures ok { IfOk result (λ round. TakesBoth H.with_verdict self.old.settings
            connection.old connection.new (standing_of self.old (H.history handler.old))
            (standing_of self.new (H.history handler.new)) next round.asked round.progress) }
        ensures err { IfErr result (BreaksBoth H.with_verdict self.old.settings
            connection.old connection.new (standing_of self.old (H.history handler.old))
            (standing_of self.new (H.history handler.new)) next) }
        ensures settings { self.new.settings ≡ self.old.settings }
    {
        match self.take_next(alloc, connection, handler) {
            Ok(_progress) => {
                self.wait_for(next);
                let progress = self.take_next(alloc, connection, handler)?;
                Ok(Round {
                    asked: next,
                    progress,
                })
            }
            Err(error) => Err(discard_next(alloc, connection, error, next)),
        }
    }
}

/// Discards the reply to the second command if the first reply was an error. Returns the error.
fn discard_next<R: Read + Drop, W: Write + Drop>(
    alloc: Global,
    connection: &mut Connection<R, W>,
    error: RunError,
    next: Asked,
) -> RunError
    ensures passes { PassesNext connection.old connection.new error result }
    ensures names { NamesNext next error result }
{
    match error {
        RunError::Answer(error) => match name_command(next, connection.receive(alloc)) {
            Ok(_) => RunError::Answer(error),
            Err(error) => error,
        },
        error => error,
    }
}
