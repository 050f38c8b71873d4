//! The reply of XRANGE and XREVRANGE.
ghost use Rattle.std.specs.Prelude.{◌≡◌, [], List, IsOk, IfOk};
ghost use Rattle.stream_entries.specs.Entry.{Entry};
ghost use Rattle.stream_entries.specs.EntryMeaning.{entries_of};
ghost use Rattle.stream_entries.specs.Refusal.{RefusesRows};
ghost use Rattle.stream_entries.specs.Rows.{rows_reading};

use crate::items::read_rows;
use crate::stream_id::{StreamId, copy_entries};
use redis_resp::{FromRedisValue, ParsingError, Value};
use std::alloc::{AllocError, Global};

/// The entries of a reply of XRANGE or XREVRANGE, in order.
#[derive(Debug, Drop)]
pub struct StreamRangeReply {
    /// The entries, in order: for XREVRANGE from the last to the first.
    pub ids: Vec<StreamId>,
}

impl StreamRangeReply {
    /// Creates an empty reply. It allocates nothing and is always Ok.
    pub fn empty(alloc: Global) -> Result<StreamRangeReply, AllocError>
        ensures ok { IsOk result }
        ensures entries { IfOk result (λ r. entries_of r.ids ≡ []) }
    {
        Ok(StreamRangeReply {
            ids: Vec::new(alloc),
        })
    }

    /// Copies the reply. It fails only if it is out of memory.
    pub fn try_clone(&self, alloc: Global) -> Result<StreamRangeReply, AllocError>
        ensures { IfOk result (λ r. entries_of r.ids ≡ entries_of self.now.ids) }
    {
        let ids = copy_entries(alloc, &self.ids)?;
        Ok(StreamRangeReply { ids })
    }
}

/// Parses a list of rows. Each pair of a row's table is an entry. The errors are those of a list, of pairs
/// of texts, and out of memory.
impl FromRedisValue for StreamRangeReply {
    ghost Meaning = { List Entry };

    ghost meaning = { λ r. entries_of r.ids };

    ghost reading = { rows_reading };

    ghost may_refuse = { RefusesRows };

    fn from_redis_value(alloc: Global, v: Value) -> Result<StreamRangeReply, ParsingError> {
        Ok(StreamRangeReply {
            ids: read_rows(alloc, v)?,
        })
    }

    fn from_redis_value_ref(alloc: Global, v: &Value) -> Result<StreamRangeReply, ParsingError> {
        Ok(StreamRangeReply {
            ids: read_rows(alloc, v)?,
        })
    }
}
