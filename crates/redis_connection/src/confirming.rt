//! WAIT: whether replicas acknowledged the writes.
ghost use Rattle.std.specs.Prelude.{IfErr, OnOk};
ghost use Rattle.redis_connection.specs.Wait.{IsConfirmed, IsMade, IsUnconfirmed, wait_sentence};

use crate::connection::Connection;
use crate::error::AskError;
use crate::wait::{Wait, WaitError};
use redis_resp::{RedisWrite, ToRedisArgs, WriteError};
use std::alloc::Global;
use std::io::{Read, Write};
use thiserror::Error;

impl Wait {
    /// Returns a WAIT for these replicas and at most these milliseconds, or the first error that applies.
    pub fn new(replicas: u64, milliseconds: u64) -> Result<Wait, WaitError>
        ensures { IsMade replicas milliseconds result }
    {
        if replicas == 0 {
            return Err(WaitError::NoReplicas);
        }
        if milliseconds == 0 {
            return Err(WaitError::NoTime);
        }
        Ok(Wait {
            replicas,
            milliseconds,
        })
    }
}

impl ToRedisArgs for Wait {
    ghost args = { λ wait. wait_sentence wait };

    fn write_redis_args<W: RedisWrite>(&self, out: &mut W) -> Result<(), WriteError> {
        ("WAIT", self.replicas, self.milliseconds).write_redis_args(out)
    }
}

/// Why the writes are not confirmed.
#[derive(Debug, Drop, Error)]
pub enum ConfirmError {
    /// The reply to WAIT is an error or of another kind, or none was received.
    #[error("WAIT: {0}")]
    Ask(AskError),
    /// Only this number of replicas acknowledged the writes.
    #[error("{0} replicas confirmed, and more are wanted")]
    TooFew(u64),
}

impl From<AskError> for ConfirmError {
    ghost use Rattle.std.specs.Prelude.{◌≡◌};
    ghost use Rattle.redis_connection.specs.declared.confirming.ConfirmError.TheVariants as causes;

    ghost from_gives = { λ a e. e ≡ causes.Ask a };

    fn from(error: AskError) -> ConfirmError {
        ConfirmError::Ask(error)
    }
}

/// Sends WAIT and receives its reply: Ok if the required number of replicas acknowledged all earlier writes of the
/// connection.
pub fn confirm<R: Read + Drop, W: Write + Drop>(
    alloc: Global,
    connection: &mut Connection<R, W>,
    wait: &Wait,
) -> Result<(), ConfirmError>
    ensures ok { OnOk result (IsConfirmed wait.now connection.old connection.new) }
    ensures err { IfErr result (IsUnconfirmed wait.now connection.old connection.new) }
{
    let confirmed: u64 = connection.ask_as(alloc, wait)?;
    if confirmed < wait.replicas {
        return Err(ConfirmError::TooFew(confirmed));
    }
    Ok(())
}
