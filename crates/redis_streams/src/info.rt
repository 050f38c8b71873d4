//! The replies of XINFO on a stream, its groups and their consumers.
mod consumer;
mod consumers;
mod entry;
mod full;
mod groups;
mod idempotency;
mod named_fields;
mod number_or_nil;
mod stream;

pub use consumer::StreamInfoConsumer;
pub(crate) use consumer::copy_consumers;
pub use consumers::StreamInfoConsumersReply;
pub use full::{
    StreamInfoConsumerPending, StreamInfoFullConsumer, StreamInfoFullEntry, StreamInfoFullGroup,
    StreamInfoFullPending, StreamInfoFullReply,
};
pub use groups::{StreamInfoGroup, StreamInfoGroupsReply};
pub use idempotency::StreamInfoStreamReplyWithIdempotency;
pub use stream::StreamInfoStreamReply;
