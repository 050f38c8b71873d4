//! What a client does after an error of a node.
ghost use Rattle.std.specs.Prelude.{◌≡◌};
ghost use Rattle.redis_client.specs.Cluster.Step.{next_step};
ghost use Rattle.redis_client.specs.Cluster.ErrorMeaning.{meaning_of};

use crate::cluster::error::ClusterError;

/// What a client does after an error of a node.
#[derive(Clone, Copy, Debug, PartialEq, Eq)]
pub enum NextStep {
    /// Connect to the node that the error names, send the command there, and send later commands for this
    /// slot there as well.
    Connect,
    /// Send `ASKING` and the command to the node that the error names, only this time.
    AskOnce,
    /// Wait, and send the command again.
    Wait,
    /// Give up on this node: it accepts no writes, and a retry does not help.
    GiveUp,
}

impl<'a> ClusterError<'a> {
    /// What a client does after this error.
    pub fn next_step(&self) -> NextStep
        ensures { result ≡ next_step (meaning_of self.now) }
    {
        match self {
            ClusterError::Moved { .. } => NextStep::Connect,
            ClusterError::Ask { .. } => NextStep::AskOnce,
            ClusterError::ReadOnly => NextStep::GiveUp,
            ClusterError::TryAgain
            | ClusterError::ClusterDown
            | ClusterError::Loading
            | ClusterError::MasterDown
            | ClusterError::NoReplicas => NextStep::Wait,
        }
    }
}
