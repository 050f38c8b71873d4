//! Rounds that replicas confirm.
ghost use Rattle.std.specs.Prelude.{◌≡◌, IfErr, IfOk, OnErr};
ghost use Rattle.std.specs.Option.{ForSome};
ghost use Rattle.worker_producer.specs.Ahead.{IsPrepared};
ghost use Rattle.worker_producer.specs.Confirmed.{BreaksConfirmed, Confirms, ConfirmsNot, IsConfirmedRound};
ghost use Rattle.worker_producer.specs.Machine.{idle, standing_of};

use crate::ahead::Prepared;
use crate::error::RunError;
use crate::producer::Producer;
use crate::source::Source;
use crate::stage::Asked;
use redis_connection::{ConfirmError, Connection, Wait, WriteEarly};
use std::alloc::Global;
use std::io::{Read, Write};
use thiserror::Error;

/// Why a producer with confirmed rounds stopped using a connection. It is disconnected then.
#[derive(Debug, Drop, Error)]
pub enum ConfirmedError {
    /// A round broke off.
    #[error("{0}")]
    Round(RunError),
    /// Fewer replicas than required acknowledged the writes, as far as is known.
    #[error("{0}")]
    Unconfirmed(ConfirmError),
}

impl From<RunError> for ConfirmedError {
    ghost use Rattle.std.specs.Prelude.{◌≡◌};
    ghost use Rattle.worker_producer.specs.declared.confirmed.ConfirmedError.TheVariants as ends;

    ghost from_gives = { λ r e. e ≡ ends.Round r };

    fn from(error: RunError) -> ConfirmedError {
        ConfirmedError::Round(error)
    }
}

impl From<ConfirmError> for ConfirmedError {
    ghost use Rattle.std.specs.Prelude.{◌≡◌};
    ghost use Rattle.worker_producer.specs.declared.confirmed.ConfirmedError.TheVariants as ends;

    ghost from_gives = { λ c e. e ≡ ends.Unconfirmed c };

    fn from(error: ConfirmError) -> ConfirmedError {
        ConfirmedError::Unconfirmed(error)
    }
}

impl Producer {
    /// Makes one round, as `round` does, and then sends WAIT, if `wait` is given and the round sent a command. So the
    /// records that it counts as added are on the required number of replicas, and so is the last id that it goes on
    /// from. Otherwise it is disconnected, and reads the last id next.
    pub fn round_confirmed<S: Source, R: Read + Drop, W: Write + Drop>(
        &mut self,
        alloc: Global,
        connection: &mut Connection<R, W>,
        source: &mut S,
        count: u64,
        wait: Option<Wait>,
    ) -> Result<Asked, ConfirmedError>
        ensures ok { IfOk result (IsConfirmedRound wait self.old.settings (S.records source.old) count
            connection.old connection.new (standing_of self.old) (standing_of self.new)) }
        ensures err { IfErr result (BreaksConfirmed wait self.old.settings (S.records source.old) count
            connection.old connection.new (standing_of self.old)) }
        ensures err_standing { OnErr result (standing_of self.new ≡ idle) }
        ensures settings { self.new.settings ≡ self.old.settings }
        ensures records { S.records source.new ≡ S.records source.old }
    {
        let asked = self.round(alloc, connection, source, count)?;
        self.confirm_round(alloc, connection, asked, wait)?;
        Ok(asked)
    }

    /// Makes one round, as `round_ahead` does, and then sends WAIT, as `round_confirmed` does.
    pub(crate) fn round_confirmed_ahead<S: Source, R: Read + Drop, W: WriteEarly + Drop>(
        &mut self,
        alloc: Global,
        connection: &mut Connection<R, W>,
        source: &mut S,
        count: u64,
        wait: Option<Wait>,
        ahead: &mut Option<Prepared>,
    ) -> Result<Asked, ConfirmedError>
        requires { ForSome ahead.old (IsPrepared self.old.settings (S.records source.old)) }
        ensures ok { IfOk result (IsConfirmedRound wait self.old.settings (S.records source.old) count
            connection.old connection.new (standing_of self.old) (standing_of self.new)) }
        ensures err { IfErr result (BreaksConfirmed wait self.old.settings (S.records source.old) count
            connection.old connection.new (standing_of self.old)) }
        ensures err_standing { OnErr result (standing_of self.new ≡ idle) }
        ensures settings { self.new.settings ≡ self.old.settings }
        ensures records { S.records source.new ≡ S.records source.old }
        ensures ahead { ForSome ahead.new (IsPrepared self.old.settings (S.records source.old)) }
    {
        let asked = self.round_ahead(alloc, connection, source, count, ahead, wait.is_none())?;
        self.confirm_round(alloc, connection, asked, wait)?;
        Ok(asked)
    }

    /// Sends WAIT after a round with this command, if `wait` is given.
    fn confirm_round<R: Read + Drop, W: Write + Drop>(
        &mut self,
        alloc: Global,
        connection: &mut Connection<R, W>,
        asked: Asked,
        wait: Option<Wait>,
    ) -> Result<(), ConfirmError>
        ensures ok { IfOk result (λ _. Confirms wait asked connection.old connection.new) }
        ensures err { IfErr result (ConfirmsNot wait asked connection.old connection.new) }
        ensures kept { IfOk result (λ _. self.new ≡ self.old) }
        ensures err_standing { OnErr result (standing_of self.new ≡ idle) }
        ensures settings { self.new.settings ≡ self.old.settings }
    {
        match (wait, asked) {
            (None, _) => Ok(()),
            (Some(_), Asked::Nothing) => Ok(()),
            (Some(wait), Asked::LastId) => self.confirm(alloc, connection, &wait),
            (Some(wait), Asked::Records) => self.confirm(alloc, connection, &wait),
        }
    }
}
