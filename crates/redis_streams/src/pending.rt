//! Replies on pending entries: those that were delivered to a consumer and not yet acknowledged.
mod extended;
mod summary;

pub use extended::{StreamPendingCountReply, StreamPendingId};
pub use summary::{StreamPendingData, StreamPendingReply};
