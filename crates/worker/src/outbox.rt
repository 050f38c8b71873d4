//! An outbox: the commands that a handler sends to other streams get their replies before its entry is acknowledged.
//!
//! A user's `Work` puts whole commands into an `Outbox`, as an XADD to another stream. `Posting` is the worker's
//! handler over it. `Posting::round` makes a round, and then sends what is in the outbox in one write and takes a reply
//! to each command. While one command has no reply, nothing is committed, so the worker acknowledges nothing of it.
//!
//! A command is sent at least once: after an error all without a reply stay, and are sent again.

mod error;
pub mod laws;
mod outbox;
mod posting;

pub use error::{OutboxError, PostError};
pub use outbox::Outbox;
pub use posting::{Posting, Work};
