//! How a stream is trimmed.
use crate::entry_id::EntryId;

/// Which entries are trimmed.
#[derive(Clone, Copy, Debug, PartialEq, Eq)]
pub enum Bound {
    /// `MAXLEN`: the oldest, until no more than this many are left.
    Length(u64),
    /// `MINID`: those whose ids are smaller.
    Below(EntryId),
}

/// How a stream is trimmed.
#[derive(Clone, Copy, Debug, PartialEq, Eq)]
pub struct Trim {
    pub bound: Bound,
    /// `~`: only whole nodes.
    pub is_approximate: bool,
    /// `LIMIT`: at most this many entries; 0 for no limit.
    pub limit: u64,
}
