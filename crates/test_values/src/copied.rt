//! Records that are copied.
use redis_streams::{
    StreamAutoClaimReply, StreamClaimReply, StreamInfoConsumerPending, StreamInfoConsumersReply,
    StreamInfoFullConsumer, StreamInfoFullEntry, StreamInfoFullGroup, StreamInfoFullPending,
    StreamInfoFullReply, StreamInfoGroupsReply, StreamInfoStreamReply,
    StreamInfoStreamReplyWithIdempotency, StreamPendingCountReply, StreamPendingReply,
    StreamRangeReply, StreamReadReply,
};
use std::alloc::{AllocError, Global};

/// A record that is copied.
pub(crate) trait Copied: Drop {
    /// Returns a copy of the record.
    fn copied(&self, alloc: Global) -> Result<Self, AllocError>;
}

impl Copied for StreamRangeReply {
    fn copied(&self, alloc: Global) -> Result<StreamRangeReply, AllocError> {
        self.try_clone(alloc)
    }
}

impl Copied for StreamClaimReply {
    fn copied(&self, alloc: Global) -> Result<StreamClaimReply, AllocError> {
        self.try_clone(alloc)
    }
}

impl Copied for StreamReadReply {
    fn copied(&self, alloc: Global) -> Result<StreamReadReply, AllocError> {
        self.try_clone(alloc)
    }
}

impl Copied for StreamAutoClaimReply {
    fn copied(&self, alloc: Global) -> Result<StreamAutoClaimReply, AllocError> {
        self.try_clone(alloc)
    }
}

impl Copied for StreamPendingReply {
    fn copied(&self, alloc: Global) -> Result<StreamPendingReply, AllocError> {
        self.try_clone(alloc)
    }
}

impl Copied for StreamPendingCountReply {
    fn copied(&self, alloc: Global) -> Result<StreamPendingCountReply, AllocError> {
        self.try_clone(alloc)
    }
}

impl Copied for StreamInfoStreamReply {
    fn copied(&self, alloc: Global) -> Result<StreamInfoStreamReply, AllocError> {
        self.try_clone(alloc)
    }
}

impl Copied for StreamInfoStreamReplyWithIdempotency {
    fn copied(&self, alloc: Global) -> Result<StreamInfoStreamReplyWithIdempotency, AllocError> {
        self.try_clone(alloc)
    }
}

impl Copied for StreamInfoConsumersReply {
    fn copied(&self, alloc: Global) -> Result<StreamInfoConsumersReply, AllocError> {
        self.try_clone(alloc)
    }
}

impl Copied for StreamInfoGroupsReply {
    fn copied(&self, alloc: Global) -> Result<StreamInfoGroupsReply, AllocError> {
        self.try_clone(alloc)
    }
}

impl Copied for StreamInfoFullReply {
    fn copied(&self, alloc: Global) -> Result<StreamInfoFullReply, AllocError> {
        self.try_clone(alloc)
    }
}

impl Copied for StreamInfoFullEntry {
    fn copied(&self, alloc: Global) -> Result<StreamInfoFullEntry, AllocError> {
        self.try_clone(alloc)
    }
}

impl Copied for StreamInfoFullPending {
    fn copied(&self, alloc: Global) -> Result<StreamInfoFullPending, AllocError> {
        self.try_clone(alloc)
    }
}

impl Copied for StreamInfoConsumerPending {
    fn copied(&self, alloc: Global) -> Result<StreamInfoConsumerPending, AllocError> {
        self.try_clone(alloc)
    }
}

impl Copied for StreamInfoFullConsumer {
    fn copied(&self, alloc: Global) -> Result<StreamInfoFullConsumer, AllocError> {
        self.try_clone(alloc)
    }
}

impl Copied for StreamInfoFullGroup {
    fn copied(&self, alloc: Global) -> Result<StreamInfoFullGroup, AllocError> {
        self.try_clone(alloc)
    }
}
