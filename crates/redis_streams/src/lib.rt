//! The replies of the stream commands of Redis, read from the value tree of the RESP protocol.
//!
//! ```text
//! let reply: StreamReadReply = from_redis_value(alloc, value)?;    // the reply of XREAD
//! for stream in &reply.keys {
//!     for entry in &stream.ids {
//!         let name: Option<String> = entry.get(alloc, "name")?;    // a field, as a text
//!     }
//! }
//! ```
//!
//! Each reply is read as one record, and a value has at most one record of a reply. The definitions
//! are in `specs/`, those of `rows` in `specs/` of `stream_entries`. An error other than
//! `ParsingError::Memory` means that the value has no record.
#![tactic(auto)]

pub mod info;
pub mod laws;
pub mod pending;
pub mod rows;
pub mod status;

pub use info::{
    StreamInfoConsumer, StreamInfoConsumerPending, StreamInfoConsumersReply,
    StreamInfoFullConsumer, StreamInfoFullEntry, StreamInfoFullGroup, StreamInfoFullPending,
    StreamInfoFullReply, StreamInfoGroup, StreamInfoGroupsReply, StreamInfoStreamReply,
    StreamInfoStreamReplyWithIdempotency,
};
pub use pending::{
    StreamPendingCountReply, StreamPendingData, StreamPendingId, StreamPendingReply,
};
pub use rows::{
    ReadForms, StreamAutoClaimJustIdReply, StreamAutoClaimReply, StreamClaimReply, StreamId,
    StreamKey, StreamRangeReply, StreamReadReply,
};
pub use status::{XAckDelStatusCode, XDelExStatusCode};
