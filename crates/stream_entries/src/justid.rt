//! The reply of XAUTOCLAIM with `JUSTID`.
ghost use Rattle.std.specs.Prelude.{◌≡◌, Some, IsOk, IfOk, IfErr};
ghost use Rattle.redis_resp.specs.Refusal.{Refuses};
ghost use Rattle.stream_entries.specs.JustId.{JustId, RefusesJustId, empty_justid, justid_reading};
ghost use Rattle.stream_entries.specs.JustIdMeaning.{justid_meaning};

use crate::autoclaim::{copy_texts, into_parts, read_deleted};
use redis_resp::{FromRedisValue, ParsingError, Source, Value};
use std::alloc::{AllocError, Global};

/// The reply of XAUTOCLAIM with `JUSTID`.
#[derive(Debug, Drop)]
pub struct StreamAutoClaimJustIdReply {
    /// The id from which the next XAUTOCLAIM continues.
    pub next_stream_id: String,
    /// The ids of the entries that were claimed, in order.
    pub claimed: Vec<String>,
    /// The ids of entries that were pending and are no longer in the stream.
    pub deleted_ids: Vec<String>,
}

impl StreamAutoClaimJustIdReply {
    /// Creates an empty reply. It allocates nothing and is always Ok.
    pub fn empty(alloc: Global) -> Result<StreamAutoClaimJustIdReply, AllocError>
        ensures ok { IsOk result }
        ensures reply { IfOk result (λ r. justid_meaning r ≡ empty_justid) }
    {
        Ok(StreamAutoClaimJustIdReply {
            next_stream_id: String::new(alloc),
            claimed: Vec::new(alloc),
            deleted_ids: Vec::new(alloc),
        })
    }

    /// Copies the reply. It fails only if it is out of memory.
    pub fn try_clone(&self, alloc: Global) -> Result<StreamAutoClaimJustIdReply, AllocError>
        ensures { IfOk result (λ r. justid_meaning r ≡ justid_meaning self.now) }
    {
        Ok(StreamAutoClaimJustIdReply {
            next_stream_id: String::from_str(alloc, &self.next_stream_id)?,
            claimed: copy_texts(alloc, &self.claimed)?,
            deleted_ids: copy_texts(alloc, &self.deleted_ids)?,
        })
    }
}

/// Parses an array of two or three: the next id, the claimed ids and, in an array of three, the deleted
/// ids. `NotArray` for any other kind, attributes included; `WrongItemCount` for another length. An
/// unreadable part is refused with its own error. That is `NotText` for a value that is not an id, such as nil
/// or an entry with fields, and `NotList` for one that is not a list of ids.
impl FromRedisValue for StreamAutoClaimJustIdReply {
    ghost Meaning = { JustId };

    ghost meaning = { justid_meaning };

    ghost reading = { justid_reading };

    ghost may_refuse = { RefusesJustId };

    fn from_redis_value(
        alloc: Global,
        v: Value,
    ) -> Result<StreamAutoClaimJustIdReply, ParsingError> {
        read_justid(alloc, v)
    }

    fn from_redis_value_ref(
        alloc: Global,
        v: &Value,
    ) -> Result<StreamAutoClaimJustIdReply, ParsingError> {
        read_justid(alloc, v)
    }
}

/// Reads the parts of a value as a reply.
#[tactic(auto, using(crate::proofs::JustIdLemmas::justid_read))]
fn read_justid<S: Source>(alloc: Global, v: S) -> Result<StreamAutoClaimJustIdReply, ParsingError>
    ensures ok { IfOk result (λ r. justid_reading (S.seen v) ≡ Some (justid_meaning r)) }
    ensures err { IfErr result (Refuses justid_reading RefusesJustId (S.seen v)) }
{
    let (next, claimed, deleted) = into_parts(v)?;
    let claimed: Vec<String> = claimed.read(alloc)?;
    let deleted_ids = read_deleted(alloc, deleted)?;
    let next_stream_id: String = next.read(alloc)?;
    Ok(StreamAutoClaimJustIdReply {
        next_stream_id,
        claimed,
        deleted_ids,
    })
}
