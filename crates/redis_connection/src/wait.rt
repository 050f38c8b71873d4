//! The settings of a WAIT.
ghost use Rattle.std.specs.Prelude.{◌<◌};

use thiserror::Error;

/// Why the settings of a WAIT were refused.
#[derive(Clone, Copy, Debug, PartialEq, Eq, Error)]
pub enum WaitError {
    /// The number of replicas is 0, so nothing would be confirmed.
    #[error("WAIT is for one replica at least")]
    NoReplicas,
    /// The milliseconds are 0: the server would wait forever.
    #[error("WAIT has one millisecond at least")]
    NoTime,
}

/// The command `WAIT replicas milliseconds`. The server returns the number of replicas that acknowledged all earlier
/// writes of the connection, after at most this number of milliseconds. If fewer did, that is no error reply.
#[derive(Clone, Copy, Debug, PartialEq, Eq)]
pub struct Wait {
    /// The number of replicas.
    pub(crate) replicas: u64,
    /// The maximum number of milliseconds to wait.
    pub(crate) milliseconds: u64,
    ghost some: { 0 < replicas },
}
