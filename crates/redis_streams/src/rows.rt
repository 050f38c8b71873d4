//! Replies that hold entries of streams: ranges, claims, reads and automatic claims.
pub use stream_entries::{
    ReadForms, StreamAutoClaimJustIdReply, StreamAutoClaimReply, StreamClaimReply, StreamId,
    StreamKey, StreamRangeReply, StreamReadReply,
};
