//! Errors of a confirmed round.
use crate::RunError;
use redis_connection::ConfirmError;
use thiserror::Error;

/// Why a worker with confirmed rounds stopped using a connection.
#[derive(Debug, Drop, Error)]
pub enum RoundError {
    /// The round broke off.
    #[error("{0}")]
    Run(RunError),
    /// Fewer replicas than required acknowledged the command, as far as is known. The handler received nothing in this
    /// round.
    #[error("{0}")]
    Unconfirmed(ConfirmError),
}

impl From<RunError> for RoundError {
    ghost use Rattle.std.specs.Prelude.{◌≡◌};
    ghost use Rattle.worker.specs.declared.confirm.error.RoundError.TheVariants as ends;

    ghost from_gives = { λ r e. e ≡ ends.Run r };

    fn from(error: RunError) -> RoundError {
        RoundError::Run(error)
    }
}
