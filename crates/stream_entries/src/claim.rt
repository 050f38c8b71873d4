//! The reply of XCLAIM.
ghost use Rattle.std.specs.Prelude.{◌≡◌, [], List, IsOk, IfOk};
ghost use Rattle.stream_entries.specs.Entry.{Entry};
ghost use Rattle.stream_entries.specs.EntryMeaning.{entries_of};
ghost use Rattle.stream_entries.specs.Refusal.{RefusesRows};
ghost use Rattle.stream_entries.specs.Rows.{rows_reading};

use crate::items::read_rows;
use crate::stream_id::{StreamId, copy_entries};
use redis_resp::{FromRedisValue, ParsingError, Value};
use std::alloc::{AllocError, Global};

/// The entries of a reply of XCLAIM, in order. With `JUSTID` the reply has ids without fields, which
/// are read as a list of strings.
#[derive(Debug, Drop)]
pub struct StreamClaimReply {
    /// The entries that the consumer now owns, in order.
    pub ids: Vec<StreamId>,
}

impl StreamClaimReply {
    /// Creates an empty reply. It allocates nothing and is always Ok.
    pub fn empty(alloc: Global) -> Result<StreamClaimReply, AllocError>
        ensures ok { IsOk result }
        ensures entries { IfOk result (λ r. entries_of r.ids ≡ []) }
    {
        Ok(StreamClaimReply {
            ids: Vec::new(alloc),
        })
    }

    /// Copies the reply. It fails only if it is out of memory.
    pub fn try_clone(&self, alloc: Global) -> Result<StreamClaimReply, AllocError>
        ensures { IfOk result (λ r. entries_of r.ids ≡ entries_of self.now.ids) }
    {
        let ids = copy_entries(alloc, &self.ids)?;
        Ok(StreamClaimReply { ids })
    }
}

/// Parses a list of rows. Each pair of a row's table is an entry. The errors are those of a list, of pairs
/// of texts, and out of memory.
impl FromRedisValue for StreamClaimReply {
    ghost Meaning = { List Entry };

    ghost meaning = { λ r. entries_of r.ids };

    ghost reading = { rows_reading };

    ghost may_refuse = { RefusesRows };

    fn from_redis_value(alloc: Global, v: Value) -> Result<StreamClaimReply, ParsingError> {
        Ok(StreamClaimReply {
            ids: read_rows(alloc, v)?,
        })
    }

    fn from_redis_value_ref(alloc: Global, v: &Value) -> Result<StreamClaimReply, ParsingError> {
        Ok(StreamClaimReply {
            ids: read_rows(alloc, v)?,
        })
    }
}
