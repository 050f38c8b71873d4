//! The reply of XAUTOCLAIM.
ghost use Rattle.std.specs.Prelude.{◌≡◌, [], false, Some, None, IsOk, IfOk, IfErr, length, map, option_map, string_bytes};
ghost use Rattle.redis_resp.specs.Refusal.{Refuses};
ghost use Rattle.stream_entries.specs.AutoClaim.{AutoClaim, autoclaim_reading, deleted_reading, empty_autoclaim, parts_in, two_or_three};
ghost use Rattle.stream_entries.specs.AutoClaimMeaning.{autoclaim_meaning, text_bytes_of, trees_of_parts};
ghost use Rattle.stream_entries.specs.Refusal.{RefusesAutoClaim, RefusesDeleted, RefusesParts};

use crate::claimed::read_claimed;
use crate::stream_id::{StreamId, copy_entries};
use redis_resp::{FromRedisValue, ParsingError, Source, Value};
use std::alloc::{AllocError, Global};

/// The reply of XAUTOCLAIM.
#[derive(Debug, Drop)]
pub struct StreamAutoClaimReply {
    /// The id from which the next XAUTOCLAIM continues; `0-0` once all pending entries were scanned.
    pub next_stream_id: String,
    /// The entries that were claimed, in order. With `JUSTID` they have no fields.
    pub claimed: Vec<StreamId>,
    /// The ids of entries that were pending and are no longer in the stream. Servers send them
    /// from 7.0 on.
    pub deleted_ids: Vec<String>,
    /// Whether the list of claimed entries had more items than entries. A server up to 6.2 sends
    /// nil in place of an entry that was deleted meanwhile.
    pub invalid_entries: bool,
}

impl StreamAutoClaimReply {
    /// Creates an empty reply. It allocates nothing and is always Ok.
    pub fn empty(alloc: Global) -> Result<StreamAutoClaimReply, AllocError>
        ensures ok { IsOk result }
        ensures reply { IfOk result (λ r. autoclaim_meaning r ≡ empty_autoclaim) }
    {
        Ok(StreamAutoClaimReply {
            next_stream_id: String::new(alloc),
            claimed: Vec::new(alloc),
            deleted_ids: Vec::new(alloc),
            invalid_entries: false,
        })
    }

    /// Copies the reply. It fails only if it is out of memory.
    pub fn try_clone(&self, alloc: Global) -> Result<StreamAutoClaimReply, AllocError>
        ensures { IfOk result (λ r. autoclaim_meaning r ≡ autoclaim_meaning self.now) }
    {
        Ok(StreamAutoClaimReply {
            next_stream_id: String::from_str(alloc, &self.next_stream_id)?,
            claimed: copy_entries(alloc, &self.claimed)?,
            deleted_ids: copy_texts(alloc, &self.deleted_ids)?,
            invalid_entries: self.invalid_entries,
        })
    }
}

/// Parses an array of two or three: the next id, the claimed list and, in an array of three, the deleted
/// ids. `NotArray` for any other kind, attributes included; `WrongItemCount` for another length.
/// `WrongClaimedType` if the claimed list is not an array, or its first item that is not nil is neither
/// a bulk string nor an array. An unreadable part is refused with its own error.
impl FromRedisValue for StreamAutoClaimReply {
    ghost Meaning = { AutoClaim };

    ghost meaning = { autoclaim_meaning };

    ghost reading = { autoclaim_reading };

    ghost may_refuse = { RefusesAutoClaim };

    fn from_redis_value(alloc: Global, v: Value) -> Result<StreamAutoClaimReply, ParsingError> {
        read_autoclaim(alloc, v)
    }

    fn from_redis_value_ref(
        alloc: Global,
        v: &Value,
    ) -> Result<StreamAutoClaimReply, ParsingError> {
        read_autoclaim(alloc, v)
    }
}

/// Reads the parts of a value as a reply.
#[tactic(auto, using(crate::proofs::AutoClaimLemmas::autoclaim_read))]
fn read_autoclaim<S: Source>(alloc: Global, v: S) -> Result<StreamAutoClaimReply, ParsingError>
    ensures ok { IfOk result (λ r. autoclaim_reading (S.seen v) ≡ Some (autoclaim_meaning r)) }
    ensures err { IfErr result (Refuses autoclaim_reading RefusesAutoClaim (S.seen v)) }
{
    let (next, claimed, deleted) = into_parts(v)?;
    let (claimed, invalid_entries) = read_claimed(alloc, claimed)?;
    let deleted_ids = read_deleted(alloc, deleted)?;
    let next_stream_id: String = next.read(alloc)?;
    Ok(StreamAutoClaimReply {
        next_stream_id,
        claimed,
        deleted_ids,
        invalid_entries,
    })
}

/// Returns the next id, the claimed list and, if there is a third item, the deleted ids. It allocates
/// nothing.
pub(crate) fn into_parts<S: Source>(v: S) -> Result<(S, S, Option<S>), ParsingError>
    ensures ok { IfOk result (λ parts. parts_in (S.seen v) ≡ Some (trees_of_parts S.seen parts)) }
    ensures err { IfErr result (Refuses parts_in (RefusesParts (λ _ _. ⊥)) (S.seen v)) }
{
    match v.into_array() {
        Some(items) => take_parts::<S>(items),
        None => Err(ParsingError::NotArray),
    }
}

/// Returns the parts of a list of two or three items.
fn take_parts<S: Source>(mut items: S::Values) -> Result<(S, S, Option<S>), ParsingError>
    ensures ok { IfOk result (λ parts. two_or_three (S.values_left items)
        ≡ Some (trees_of_parts S.seen parts)) }
    ensures err { IfErr result (λ e. (two_or_three (S.values_left items) ≡ None)
        × (e ≡ ParsingError.WrongItemCount (length (S.values_left items)))) }
{
    let count = S::count_values(&items);
    if count > 3 {
        return Err(ParsingError::WrongItemCount(count));
    }
    let Some(next) = S::next_value(&mut items) else {
        return Err(ParsingError::WrongItemCount(count));
    };
    let Some(claimed) = S::next_value(&mut items) else {
        return Err(ParsingError::WrongItemCount(count));
    };
    let deleted = S::next_value(&mut items);
    Ok((next, claimed, deleted))
}

/// Reads the deleted ids. There are none if the reply has no such item.
pub(crate) fn read_deleted<S: Source>(
    alloc: Global,
    deleted: Option<S>,
) -> Result<Vec<String>, ParsingError>
    ensures ok { IfOk result (λ ids. deleted_reading (option_map S.seen deleted)
        ≡ Some (text_bytes_of ids)) }
    ensures err { IfErr result (Refuses deleted_reading RefusesDeleted
        (option_map S.seen deleted)) }
{
    match deleted {
        Some(ids) => ids.read(alloc),
        None => Ok(Vec::new(alloc)),
    }
}

/// Copies the texts, in order. It fails only if it is out of memory.
pub(crate) fn copy_texts(alloc: Global, texts: &[String]) -> Result<Vec<String>, AllocError>
    ensures { IfOk result (λ v. text_bytes_of v ≡ map string_bytes texts.now) }
{
    let mut copies = Vec::with_capacity(alloc, texts.len())?;
    for text in texts {
        copies.push(String::from_str(alloc, text)?)?;
    }
    Ok(copies)
}
