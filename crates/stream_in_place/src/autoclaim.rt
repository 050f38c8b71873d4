//! The reply of XAUTOCLAIM, read in place.
ghost use Rattle.std.specs.Prelude.{◌≡◌, ◌≤◌, ◌+◌, ◌++◌, ℕ, suc, Bool, List, Some, IfErr, IfOk, IfSome, IsOk, IsSomeAnd, OnOk};
ghost use Rattle.std.specs.Prelude.{drop, length};
ghost use Rattle.redis_wire.specs.Written.{count_bytes};
ghost use Rattle.redis_wire.specs.Place.{EndsBefore};
ghost use Rattle.stream_entries.specs.JustId.{JustId};
ghost use Rattle.stream_in_place.specs.AutoClaim.{copied_autoclaim, IsAutoClaim, IsJustId};
ghost use Rattle.stream_in_place.specs.Sent.{SentAutoClaim};
ghost use Rattle.stream_in_place.specs.Shapes.{deleted_bytes, claim_start, AllowsRows, IsName, AreDeleted};
ghost use Rattle.stream_in_place.specs.Shapes.{BeginsWithAutoClaim, BeginsWithJustId};
ghost use Rattle.stream_entries.specs.AutoClaimMeaning.{autoclaim_meaning};
ghost use Rattle.stream_entries.specs.JustIdMeaning.{justid_meaning};
ghost use Rattle.stream_in_place.specs.ClaimPlaced.{autoclaim_in, justid_in, AreClaimPlaces, AreJustIdPlaces};
ghost use Rattle.stream_in_place.specs.Lent.{EntriesFit, FieldsFit};
ghost use Rattle.stream_in_place.specs.Sent.{AreNamed, all_fields};
ghost use Rattle.stream_in_place.specs.Copied.{NotOwned};
ghost use Rattle.stream_in_place.specs.AddedIds.{deleted_count, IsClaimHead, DeletedAdded};

use crate::depth::{CLAIM_DEPTH, IDS_DEPTH};
use crate::entry_list::{EntriesRef, entries_at};
use crate::form::Form;
use crate::ids::{IdsRef, add_ids, ids_at};
use crate::places::{AutoClaimPlace, EntryPlace, FieldPlace, Places};
use crate::rows::{add_entries, name_at, text_in};
use redis_resp::ParsingError;
use redis_wire::Limits;
use redis_wire::place::{Span, array_at};
use std::alloc::{AllocError, Global};
use stream_entries::{StreamAutoClaimJustIdReply, StreamAutoClaimReply};

/// The reply of XAUTOCLAIM, read in place, and its length in bytes.
#[derive(Debug, Drop)]
pub struct AutoClaimRef<'a> {
    /// The id from which the next XAUTOCLAIM continues; `0-0` once all pending entries were scanned.
    pub next_stream_id: &'a str,
    /// The entries that were claimed, in order.
    pub claimed: EntriesRef<'a>,
    /// The ids of entries that were pending and are no longer in the stream. Servers send them
    /// from 7.0 on.
    pub deleted_ids: IdsRef<'a>,
    /// The length of the reply in bytes.
    pub len: usize,
}

/// The reply of XAUTOCLAIM with `JUSTID`, and its length in bytes.
#[derive(Debug, Drop)]
pub struct AutoClaimJustIdRef<'a> {
    /// The id from which the next XAUTOCLAIM continues; `0-0` once all pending entries were scanned.
    pub next_stream_id: &'a str,
    /// The ids of the entries that were claimed, in order.
    pub claimed: IdsRef<'a>,
    /// The ids of entries that were pending and are no longer in the stream. Servers send them
    /// from 7.0 on.
    pub deleted_ids: IdsRef<'a>,
    /// The length of the reply in bytes.
    pub len: usize,
}

impl<'a> AutoClaimRef<'a> {
    /// Copies the reply, with the entries and ids that are left. While all are left, it is the record of the
    /// copying path. `NotText` if a field name is not UTF-8.
    pub fn to_owned(&self, alloc: Global) -> Result<StreamAutoClaimReply, ParsingError>
        ensures ok { IfOk result (λ r. autoclaim_meaning r ≡ copied_autoclaim (record {
          next = self.now.next_stream_id.now;
          claimed = self.now.claimed;
          deleted = self.now.deleted_ids;
        })) }
        ensures named { OnOk result (AreNamed self.now.claimed) }
        ensures err { IfErr result (NotOwned (AreNamed self.now.claimed)) }
    {
        Ok(StreamAutoClaimReply {
            next_stream_id: String::from_str(alloc, self.next_stream_id)?,
            claimed: self.claimed.to_owned(alloc)?,
            deleted_ids: self.deleted_ids.to_owned(alloc)?,
            invalid_entries: false,
        })
    }
}

impl<'a> AutoClaimJustIdRef<'a> {
    /// Copies the reply, with the ids that are left. While all are left, it is the record of the copying path.
    pub fn to_owned(&self, alloc: Global) -> Result<StreamAutoClaimJustIdReply, AllocError>
        ensures { IfOk result (λ r. justid_meaning r ≡ record {
          next = self.now.next_stream_id.now;
          claimed = self.now.claimed;
          deleted = self.now.deleted_ids;
        }) }
    {
        Ok(StreamAutoClaimJustIdReply {
            next_stream_id: String::from_str(alloc, self.next_stream_id)?,
            claimed: self.claimed.to_owned(alloc)?,
            deleted_ids: self.deleted_ids.to_owned(alloc)?,
        })
    }
}

/// The first part of a reply of XAUTOCLAIM.
#[derive(Drop)]
struct ClaimHead {
    /// Whether the reply has the deleted ids.
    told: bool,
    /// The next id.
    next: Span,
    /// The number of entries or ids that were claimed.
    count: u32,
    /// The offset of the end of the header.
    at: usize,
}

/// Whether an array of `members` elements has the deleted ids. `None` if a reply has no such length.
fn tells_deleted(members: u32) -> Option<bool>
    ensures is { IfSome result (λ told. members ≡ suc (suc (deleted_count told))) }
    ensures found { (told : Bool) → members ≡ suc (suc (deleted_count told)) → result ≡ Some told }
{
    match members {
        2 => Some(false),
        3 => Some(true),
        _ => None,
    }
}

/// Parses the first part of the reply of XAUTOCLAIM at the start of the bytes.
fn claim_head(limits: Limits, bytes: &[u8]) -> Option<ClaimHead>
    ensures is { IfSome result (λ head. IsClaimHead limits bytes.now head.told head.next head.count head.at) }
    ensures found { (told : Bool) (next : List ℕ) (count : ℕ) (rest : List ℕ) → AllowsRows limits
        → IsName limits next → count ≤ limits.length
        → bytes.now ≡ claim_start told next ++ (count_bytes 42 count ++ rest)
        → IsSomeAnd result (λ head. (head.told ≡ told) × (head.count ≡ count) × EndsBefore bytes.now rest head.at) }
{
    let (members, behind) = array_at(limits, bytes, 0)?;
    let told = tells_deleted(members)?;
    let (next, middle) = name_at(limits, bytes, behind)?;
    let (count, at) = array_at(limits, bytes, middle)?;
    Some(ClaimHead {
        told,
        next,
        count,
        at,
    })
}

/// Adds the places of the deleted ids at `at`, if the reply has them. Returns the offset of their
/// end.
fn add_deleted<P: Places>(
    limits: Limits,
    bytes: &[u8],
    at: usize,
    told: bool,
    places: &mut P,
) -> Result<Option<usize>, P::Refusal>
    requires { at ≤ length bytes.now }
    ensures is { IfOk result (λ o. IfSome o (λ after.
        DeletedAdded limits bytes.now at told after (P.held places.old) (P.held places.new))) }
    ensures found { (ids : List (List ℕ)) (rest : List ℕ) → AllowsRows limits → AreDeleted limits told ids
        → drop at bytes.now ≡ deleted_bytes told ids ++ rest
        → IfOk result (λ o. IsSomeAnd o (EndsBefore bytes.now rest)) }
    ensures fits { (ids : List (List ℕ)) (rest : List ℕ) → AllowsRows limits → AreDeleted limits told ids
        → drop at bytes.now ≡ deleted_bytes told ids ++ rest
        → EntriesFit (P.lent places.old) (length (P.held places.old).entries + length ids) → IsOk result }
    ensures kept { P.lent places.new ≡ P.lent places.old }
{
    if !told {
        return Ok(Some(at));
    }
    let Some((count, behind)) = array_at(limits, bytes, at) else {
        return Ok(None);
    };
    add_ids(limits, bytes, behind, count, places)
}

/// Finds the entries that XAUTOCLAIM claimed and, after them, the deleted ids. The reply at the start
/// of the bytes must have the shape that servers send, else the result is `None`. That shape is an array of
/// the next id, the rows of the entries and, from 7.0 on, the deleted ids. With tables of the caller no
/// memory is allocated.
pub fn find_autoclaim<P: Places>(
    limits: Limits,
    bytes: &[u8],
    places: &mut P,
) -> Result<Option<AutoClaimPlace>, P::Refusal>
    ensures is { IfOk result (λ o. IfSome o (λ p. IsAutoClaim limits bytes.now
        (autoclaim_in bytes.now (P.held places.new).entries (P.held places.new).fields p) p.len)) }
    ensures within { IfOk result (λ o. IfSome o (λ p. AreClaimPlaces bytes.now
        (P.held places.new).entries (P.held places.new).fields p)) }
    ensures found { (r : SentAutoClaim) (len : ℕ) → BeginsWithAutoClaim limits bytes.now r len
        → IfOk result (λ o. IsSomeAnd o (λ p. (autoclaim_in bytes.now (P.held places.new).entries
        (P.held places.new).fields p ≡ r) × (p.len ≡ len))) }
    ensures counts { (r : SentAutoClaim) (len : ℕ) → BeginsWithAutoClaim limits bytes.now r len
        → IfOk result (λ o. IfSome o (λ _. length (P.held places.new).fields ≡ length (all_fields r.claimed))) }
    ensures fits { (r : SentAutoClaim) (len : ℕ) → BeginsWithAutoClaim limits bytes.now r len
        → EntriesFit (P.lent places.old) (length r.claimed + length r.deleted)
        → FieldsFit (P.lent places.old) (length (all_fields r.claimed)) → IsOk result }
    ensures kept { P.lent places.new ≡ P.lent places.old }
{
    places.clear();
    if limits.depth < CLAIM_DEPTH {
        return Ok(None);
    }
    let Some(head) = claim_head(limits, bytes) else {
        return Ok(None);
    };
    let Some(at) = add_entries(limits, bytes, head.at, Form::Standard, head.count, places)? else {
        return Ok(None);
    };
    let claimed = places.count_entries();
    let Some(len) = add_deleted(limits, bytes, at, head.told, places)? else {
        return Ok(None);
    };
    let next = head.next;
    Ok(Some(AutoClaimPlace { next, claimed, len }))
}

/// Finds the ids that XAUTOCLAIM with `JUSTID` claimed and, after them, the deleted ids, as
/// `find_autoclaim` does.
pub fn find_justid<P: Places>(
    limits: Limits,
    bytes: &[u8],
    places: &mut P,
) -> Result<Option<AutoClaimPlace>, P::Refusal>
    ensures is { IfOk result (λ o. IfSome o (λ p. IsJustId limits bytes.now
        (justid_in bytes.now (P.held places.new).entries p) p.len)) }
    ensures within { IfOk result (λ o. IfSome o (λ p. AreJustIdPlaces bytes.now
        (P.held places.new).entries p)) }
    ensures found { (r : JustId) (len : ℕ) → BeginsWithJustId limits bytes.now r len
        → IfOk result (λ o. IsSomeAnd o (λ p. (justid_in bytes.now (P.held places.new).entries p ≡ r)
        × (p.len ≡ len))) }
    ensures counts { IfOk result (λ o. IfSome o (λ _. length (P.held places.new).fields ≡ 0)) }
    ensures fits { (r : JustId) (len : ℕ) → BeginsWithJustId limits bytes.now r len
        → EntriesFit (P.lent places.old) (length r.claimed + length r.deleted) → IsOk result }
    ensures kept { P.lent places.new ≡ P.lent places.old }
{
    places.clear();
    if limits.depth < IDS_DEPTH {
        return Ok(None);
    }
    let Some(head) = claim_head(limits, bytes) else {
        return Ok(None);
    };
    let Some(at) = add_ids(limits, bytes, head.at, head.count, places)? else {
        return Ok(None);
    };
    let claimed = places.count_entries();
    let Some(len) = add_deleted(limits, bytes, at, head.told, places)? else {
        return Ok(None);
    };
    let next = head.next;
    Ok(Some(AutoClaimPlace { next, claimed, len }))
}

/// The reply at that place.
pub fn autoclaim_at<'a>(
    bytes: &'a [u8],
    place: AutoClaimPlace,
    entries: &'a [EntryPlace],
    fields: &'a [FieldPlace],
) -> AutoClaimRef<'a>
    requires { AreClaimPlaces bytes.now entries.now fields.now place }
    ensures is { record {
      next = result.next_stream_id.now;
      claimed = result.claimed;
      deleted = result.deleted_ids;
    } ≡ autoclaim_in bytes.now entries.now fields.now place }
    ensures len { result.len ≡ place.len }
{
    let (claimed, deleted) = entries.split_at(place.claimed);
    AutoClaimRef {
        next_stream_id: unsafe { str::from_utf8_unchecked(text_in(bytes, place.next)) },
        claimed: entries_at(bytes, claimed, fields),
        deleted_ids: ids_at(bytes, deleted),
        len: place.len,
    }
}

/// The reply of ids at that place.
pub fn justid_at<'a>(
    bytes: &'a [u8],
    place: AutoClaimPlace,
    entries: &'a [EntryPlace],
) -> AutoClaimJustIdRef<'a>
    requires { AreJustIdPlaces bytes.now entries.now place }
    ensures is { record {
      next = result.next_stream_id.now;
      claimed = result.claimed;
      deleted = result.deleted_ids;
    } ≡ justid_in bytes.now entries.now place }
    ensures len { result.len ≡ place.len }
{
    let (claimed, deleted) = entries.split_at(place.claimed);
    AutoClaimJustIdRef {
        next_stream_id: unsafe { str::from_utf8_unchecked(text_in(bytes, place.next)) },
        claimed: ids_at(bytes, claimed),
        deleted_ids: ids_at(bytes, deleted),
        len: place.len,
    }
}
