//! The list of claimed entries in the reply of XAUTOCLAIM.
ghost use Rattle.std.specs.Prelude.{◌≡◌, Some, IfOk, IfErr, map, option_map};
ghost use Rattle.redis_resp.specs.Refusal.{Refuses};
ghost use Rattle.redis_resp.specs.Value.{tree};
ghost use Rattle.stream_entries.specs.AutoClaim.{claimed_reading, claimed_shape, entries_by_kind, kind_of_items};
ghost use Rattle.stream_entries.specs.AutoClaimMeaning.{kind_meaning, shape_meaning};
ghost use Rattle.stream_entries.specs.EntryMeaning.{entries_of};
ghost use Rattle.stream_entries.specs.Refusal.{RefusesByKind, RefusesClaimed};

use crate::items::{read_ids, read_rows};
use crate::stream_id::StreamId;
use redis_resp::{ParsingError, Source, Value};
use std::alloc::Global;

/// The kind of the items in a list of claimed entries.
#[derive(Clone, Copy, Debug, PartialEq, Eq)]
pub(crate) enum ClaimedKind {
    /// All items are nil.
    Nils,
    /// Ids, as with `JUSTID`.
    Ids,
    /// Rows of ids and fields.
    Rows,
}

/// Reads the entries of a list of claimed entries. Also returns whether they are fewer than its items.
/// `WrongClaimedType` if the value is not an array, or the first item that is not nil is neither a
/// bulk string nor an array.
#[tactic(auto, using(crate::proofs::AutoClaimLemmas::claimed_read, crate::proofs::AutoClaimLemmas::claimed_refused))]
pub(crate) fn read_claimed<S: Source>(
    alloc: Global,
    v: S,
) -> Result<(Vec<StreamId>, bool), ParsingError>
    ensures ok { IfOk result (λ r. claimed_reading (S.seen v) ≡ Some (entries_of r.0, r.1)) }
    ensures err { IfErr result (Refuses claimed_reading RefusesClaimed (S.seen v)) }
{
    let Some((kind, count)) = find_shape(v.as_value()) else {
        return Err(ParsingError::WrongClaimedType);
    };
    let ids = read_list_of_kind(alloc, v, kind)?;
    let invalid = ids.len() < count;
    Ok((ids, invalid))
}

/// The kind of a list of claimed entries and the number of its items. `None` if it is of no kind.
#[tactic(auto, using(crate::proofs::AutoClaimLemmas::shape_there, crate::proofs::AutoClaimLemmas::shape_missing))]
fn find_shape(v: &Value) -> Option<(ClaimedKind, usize)>
    ensures { option_map shape_meaning result ≡ claimed_shape (tree v.now) }
{
    let Value::Array(items) = v else {
        return None;
    };
    match find_kind(items) {
        Some(kind) => Some((kind, items.len())),
        None => None,
    }
}

/// The kind of the first item that is not nil. `None` if that item is neither a bulk string nor
/// an array.
#[tactic(auto, using(crate::proofs::AutoClaimLemmas::kind_of_array, crate::proofs::AutoClaimLemmas::kind_of_bulk))]
fn find_kind(items: &[Value]) -> Option<ClaimedKind>
    ensures { option_map kind_meaning result ≡ kind_of_items (map tree items.now) }
{
    for item in items {
        match item {
            Value::Nil => {}
            Value::BulkString(_) => return Some(ClaimedKind::Ids),
            Value::Array(_) => return Some(ClaimedKind::Rows),
            _ => return None,
        }
    }
    Some(ClaimedKind::Nils)
}

/// Reads the entries of a list of that kind.
#[tactic(auto, using(crate::proofs::AutoClaimLemmas::ids_read, crate::proofs::AutoClaimLemmas::ids_refused))]
fn read_list_of_kind<S: Source>(
    alloc: Global,
    v: S,
    kind: ClaimedKind,
) -> Result<Vec<StreamId>, ParsingError>
    ensures ok { IfOk result (λ ids. entries_by_kind (kind_meaning kind) (S.seen v)
        ≡ Some (entries_of ids)) }
    ensures err { IfErr result (Refuses (entries_by_kind (kind_meaning kind))
        (RefusesByKind (kind_meaning kind)) (S.seen v)) }
{
    match kind {
        ClaimedKind::Nils => Ok(Vec::new(alloc)),
        ClaimedKind::Ids => read_ids(alloc, v),
        ClaimedKind::Rows => read_rows(alloc, v),
    }
}
