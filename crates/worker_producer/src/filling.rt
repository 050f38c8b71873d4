//! Rounds until all records are added.
ghost use Rattle.std.specs.Prelude.{◌≡◌, IfErr, OnOk};
ghost use Rattle.worker_producer.specs.Confirmed.{FinishedConfirmed};
ghost use Rattle.worker_producer.specs.Filled.{Fails};

use crate::confirmed::ConfirmedError;
use crate::counts::Counts;
use crate::producer::Producer;
use crate::settings::Settings;
use crate::source::Source;
use crate::stage::Asked;
use redis_connection::{Connection, EarlyWriter, Wait};
use std::alloc::Global;
use std::io::{Read, Write};
use thiserror::Error;

/// Why not all records were added.
#[derive(Debug, Drop, Error)]
pub enum FillError {
    /// A round broke off, or was not confirmed.
    #[error("{0}")]
    Round(ConfirmedError),
    /// The number of rounds is at its maximum.
    #[error("the last turn came")]
    NoTurnLeft,
}

impl From<ConfirmedError> for FillError {
    ghost use Rattle.std.specs.Prelude.{◌≡◌};
    ghost use Rattle.worker_producer.specs.declared.filling.FillError.TheVariants as causes;

    ghost from_gives = { λ r e. e ≡ causes.Round r };

    fn from(error: ConfirmedError) -> FillError {
        FillError::Round(error)
    }
}

/// Makes rounds until one sends nothing, since all records are added, or until one breaks off. It begins by reading the
/// last id. `count` is how many records there are. With `wait` each round is confirmed by replicas. While a batch is on
/// its way, the next one is prepared. Without `wait` its commands are also sent then, but for EXEC: so the server queues
/// them, and executes none of them before the batch on its way is known to be added.
pub fn fill<S: Source, R: Read + Drop, W: Write + Drop>(
    alloc: Global,
    connection: &mut Connection<R, EarlyWriter<W>>,
    settings: Settings,
    source: &mut S,
    count: u64,
    wait: Option<Wait>,
    counts: &mut Counts,
) -> Result<(), FillError>
    ensures ok { OnOk result (FinishedConfirmed wait settings (S.records source.old) count connection.old
        connection.new) }
    ensures err { IfErr result (Fails wait settings (S.records source.old) count connection.old
        connection.new) }
    ensures records { S.records source.new ≡ S.records source.old }
{
    let mut producer = Producer::new(settings);
    let mut ahead = None;
    for _round in 0..u64::MAX {
        match producer.round_confirmed_ahead(alloc, connection, source, count, wait, &mut ahead)? {
            Asked::Nothing => return Ok(()),
            asked => counts.take(asked, producer.stage()),
        }
    }
    Err(FillError::NoTurnLeft)
}
