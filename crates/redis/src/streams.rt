//! The options and replies of the stream commands.
pub use redis_streams::{
    ReadForms, StreamAutoClaimJustIdReply, StreamAutoClaimReply, StreamClaimReply, StreamId,
    StreamInfoConsumer, StreamInfoConsumerPending, StreamInfoConsumersReply,
    StreamInfoFullConsumer, StreamInfoFullEntry, StreamInfoFullGroup, StreamInfoFullPending,
    StreamInfoFullReply, StreamInfoGroup, StreamInfoGroupsReply, StreamInfoStreamReply,
    StreamInfoStreamReplyWithIdempotency, StreamKey, StreamPendingCountReply, StreamPendingData,
    StreamPendingId, StreamPendingReply, StreamRangeReply, StreamReadReply, XAckDelStatusCode,
    XDelExStatusCode,
};
pub use stream_options::{
    ConfigError, IDMP_DURATION_MAX, IDMP_DURATION_MIN, IDMP_MAXSIZE_MAX, IDMP_MAXSIZE_MIN,
    StreamAddOptions, StreamAutoClaimOptions, StreamClaimOptions, StreamConfigOptions,
    StreamDeletionPolicy, StreamIdempotencyMode, StreamMaxlen, StreamNackMode, StreamNackOptions,
    StreamReadOptions, StreamTrimOptions, StreamTrimStrategy, StreamTrimmingMode,
};
