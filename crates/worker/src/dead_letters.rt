//! Dead letters over a connection. The search finds pending entries that were delivered too often, claims them
//! and copies each to a stream of dead letters. Each entry is acknowledged after its letter was added.
//!
//! `DeadLetterSearch::turn` is called before each command of a worker. It sends XPENDING before the first
//! command and before each claim. It claims entries that were delivered too often with XCLAIM, and moves them
//! with `DeadLetters` of `worker` over the same connection.

mod error;
mod search;

pub use error::{SearchError, SearchSettingsError};
pub use search::{DeadLetterSearch, GiveUp};
