//! The reply of XINFO STREAM FULL: a stream with its entries, its groups and their pending entries.
mod consumer;
mod entry;
mod group;
mod pending;
mod stream;
mod time_or_nil;

pub use consumer::StreamInfoFullConsumer;
pub use entry::StreamInfoFullEntry;
pub use group::StreamInfoFullGroup;
pub use pending::{StreamInfoConsumerPending, StreamInfoFullPending};
pub use stream::StreamInfoFullReply;
