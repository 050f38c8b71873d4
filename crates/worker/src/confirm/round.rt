//! A round that replicas confirm.
ghost use Rattle.std.specs.Prelude.{◌≡◌, IfErr, IfOk};
ghost use Rattle.redis_wire.specs.Reply.{answer};
ghost use Rattle.worker.specs.Confirm.Confirmed.{FailsConfirmed, IsConfirmedRound, TakesConfirmed, TakesNot};
ghost use Rattle.worker.specs.Session.{standing_of};

use crate::confirm::error::RoundError;
use crate::{Handler, Round, RunError, Worker};
use redis_connection::{Connection, Wait, confirm};
use redis_wire::Reply;
use std::alloc::Global;
use std::io::{Read, Write};

/// Makes one round, as `Worker::round` does, and sends WAIT before the reply is taken. So the handler receives
/// entries only after the required number of replicas have their delivery. Acknowledgements are confirmed too.
///
/// If fewer replicas have the command, or WAIT fails, the error is `Unconfirmed`. The reply is discarded, and
/// its entries stay pending. After an `Err` the worker reads its own pending entries again. It does not after
/// `Run` of `Request`, since nothing was sent.
pub fn round_confirmed<H: Handler, R: Read + Drop, W: Write + Drop>(
    alloc: Global,
    connection: &mut Connection<R, W>,
    worker: &mut Worker,
    handler: &mut H,
    wait: &Wait,
) -> Result<Round, RoundError>
    ensures ok { IfOk result (λ round. IsConfirmedRound H.with_verdict H.with_commit worker.old.settings
        wait.now connection.old connection.new (standing_of worker.old (H.history handler.old))
        (standing_of worker.new (H.history handler.new)) round.asked round.progress) }
    ensures err { IfErr result (FailsConfirmed H.with_verdict H.with_commit worker.old.settings wait.now
        connection.old connection.new (standing_of worker.old (H.history handler.old))
        (standing_of worker.new (H.history handler.new))) }
    ensures settings { worker.new.settings ≡ worker.old.settings }
{
    let reply = worker.ask(alloc, connection, handler)?;
    match confirm(alloc, connection, wait) {
        Ok(()) => match take_confirmed(alloc, worker, handler, reply) {
            Ok(round) => Ok(round),
            Err(error) => Err(RoundError::Run(error)),
        },
        Err(error) => {
            worker.begin_again();
            Err(RoundError::Unconfirmed(error))
        }
    }
}

/// Takes a reply that is confirmed. After an `Err` the worker begins again.
fn take_confirmed<H: Handler>(
    alloc: Global,
    worker: &mut Worker,
    handler: &mut H,
    reply: Reply,
) -> Result<Round, RunError>
    ensures ok { IfOk result (λ round. TakesConfirmed H.with_verdict worker.old.settings (answer reply)
        (standing_of worker.old (H.history handler.old)) (standing_of worker.new (H.history handler.new))
        round.asked round.progress) }
    ensures err { IfErr result (TakesNot H.with_verdict worker.old.settings (answer reply)
        (standing_of worker.old (H.history handler.old))
        (standing_of worker.new (H.history handler.new))) }
    ensures settings { worker.new.settings ≡ worker.old.settings }
{
    let asked = worker.asked();
    match worker.answered(alloc, reply, handler) {
        Ok(progress) => Ok(Round { asked, progress }),
        Err(error) => {
            worker.begin_again();
            Err(RunError::Answer(error))
        }
    }
}
