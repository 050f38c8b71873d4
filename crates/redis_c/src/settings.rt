//! The settings that C passes for a command, as plain numbers, flags and places of texts.
use redis_wire::place::Span;

/// How a stream is trimmed. Texts are in the bytes that are passed with the settings.
#[repr(C)]
#[derive(Clone, Copy, Debug, PartialEq, Eq)]
pub struct TrimSettings {
    /// 0 for no trimming, 1 for `MAXLEN` and 2 for `MINID`.
    pub bound: u32,
    /// What happens to deleted entries in the pending lists of groups: 0 for no policy, 1 for `KEEPREF`, 2 for
    /// `DELREF` and 3 for `ACKED`.
    pub policy: u32,
    /// Whether more entries may remain: `~` instead of `=`.
    pub approximate: bool,
    /// Whether one call removes at most `limit` entries.
    pub has_limit: bool,
    /// With `MAXLEN`, the number of entries that remain.
    pub maxlen: usize,
    /// With `MINID`, the place of the smallest id that remains.
    pub minid: Span,
    /// The limit on entries.
    pub limit: usize,
}

/// How an entry is added. Texts are in the bytes that are passed with the settings.
#[repr(C)]
#[derive(Clone, Copy, Debug, PartialEq, Eq)]
pub struct AddSettings {
    /// Whether a stream that does not exist is not created.
    pub nomkstream: bool,
    /// How the server detects duplicates: 0 for not at all, 1 for `IDMP` and 2 for `IDMPAUTO`.
    pub idempotency: u32,
    /// The place of the name of the producer.
    pub producer: Span,
    /// With `IDMP`, the place of the idempotent id.
    pub idempotent_id: Span,
    /// How the stream is trimmed.
    pub trim: TrimSettings,
}

/// How entries are claimed by their ids. Texts are in the bytes that are passed with the settings.
#[repr(C)]
#[derive(Clone, Copy, Debug, PartialEq, Eq)]
pub struct ClaimSettings {
    /// Whether the idle time of the entries is set to `idle` milliseconds.
    pub has_idle: bool,
    /// Whether their last delivery time is set to `time`, a Unix time in milliseconds.
    pub has_time: bool,
    /// Whether their delivery count is set to `retry`.
    pub has_retry: bool,
    /// Whether an entry that is pending for no consumer is claimed too.
    pub force: bool,
    /// Whether the reply has only the ids.
    pub justid: bool,
    /// Whether `lastid` is set as the last delivered id of the group.
    pub has_lastid: bool,
    /// In milliseconds.
    pub idle: usize,
    /// In milliseconds.
    pub time: usize,
    /// The delivery count.
    pub retry: usize,
    /// The place of the id.
    pub lastid: Span,
}

/// How idle entries are claimed, whatever their ids.
#[repr(C)]
#[derive(Clone, Copy, Debug, PartialEq, Eq)]
pub struct AutoClaimSettings {
    /// Whether at most `count` entries are claimed.
    pub has_count: bool,
    /// Whether the reply has only the ids.
    pub justid: bool,
    /// The limit on entries.
    pub count: usize,
}

/// Which pending entries are requested.
#[repr(C)]
#[derive(Clone, Copy, Debug, PartialEq, Eq)]
pub struct PendingSettings {
    /// Whether only entries that have been idle for `idle` milliseconds are requested.
    pub has_idle: bool,
    /// Whether only entries that are pending for the consumer are requested.
    pub has_consumer: bool,
    /// In milliseconds.
    pub idle: usize,
}

/// Why the settings were refused.
#[derive(Clone, Copy)]
pub enum Unset {
    /// Out of memory.
    Memory,
    /// A number is not one of its choices, or a text is not within the bytes or is not UTF-8.
    Refused,
}
