//! Options that cannot be used with a command.
use thiserror::Error;

/// The options of a claim have `JUSTID`, so its reply would have only ids and no entries.
#[derive(Clone, Copy, Debug, PartialEq, Eq, Error)]
#[error("JUSTID is set: the reply would have only ids")]
pub struct JustIdIsSet;
