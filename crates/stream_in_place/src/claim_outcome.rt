//! Replies of XAUTOCLAIM of any shape: read in place, or by the copying path.
ghost use Rattle.std.specs.Prelude.{ℕ};
ghost use Rattle.stream_entries.specs.JustId.{JustId};
ghost use Rattle.stream_in_place.specs.Sent.{SentAutoClaim};
ghost use Rattle.stream_in_place.specs.ClaimOutcome.{IsAutoClaimOutcome, IsJustIdOutcome, IsAutoClaimInPlace};
ghost use Rattle.stream_in_place.specs.ClaimOutcome.{IsJustIdInPlace};
ghost use Rattle.stream_in_place.specs.Shapes.{BeginsWithAutoClaim, BeginsWithJustId};

use crate::autoclaim::{AutoClaimJustIdRef, AutoClaimRef};
use crate::tape::EntryTape;
use redis_wire::{Decoded, Limits, ReplyError, WireError, decode, from_reply};
use std::alloc::Global;
use stream_entries::{StreamAutoClaimJustIdReply, StreamAutoClaimReply};

/// The result of reading the reply of XAUTOCLAIM.
#[derive(Debug, Drop)]
pub enum AutoClaimOutcome<'a> {
    /// The reply has the shape that servers send: its entries and ids, in place.
    InPlace(AutoClaimRef<'a>),
    /// The reply has another shape: its record, why it was refused, or the server's error.
    Copied {
        reply: Result<StreamAutoClaimReply, ReplyError>,
        /// The length of the reply in bytes.
        len: usize,
    },
    /// The bytes end before the reply does.
    Incomplete,
}

/// The result of reading the reply of XAUTOCLAIM with `JUSTID`.
#[derive(Debug, Drop)]
pub enum JustIdOutcome<'a> {
    /// The reply has the shape that servers send: its ids, in place.
    InPlace(AutoClaimJustIdRef<'a>),
    /// The reply has another shape: its record, why it was refused, or the server's error.
    Copied {
        reply: Result<StreamAutoClaimJustIdReply, ReplyError>,
        /// The length of the reply in bytes.
        len: usize,
    },
    /// The bytes end before the reply does.
    Incomplete,
}

/// Reads the reply of XAUTOCLAIM of any shape at the start of the bytes, as `read_any_range` does. A server
/// up to 6.2 sends nil in place of an entry that was deleted meanwhile. Such a reply is copied.
pub fn read_any_autoclaim<'a>(
    alloc: Global,
    tape: &'a mut EntryTape,
    bytes: &'a [u8],
    limits: Limits,
) -> Result<AutoClaimOutcome<'a>, WireError>
    ensures is { IsAutoClaimOutcome limits bytes.now result }
    ensures found { (sent : SentAutoClaim) (len : ℕ) → BeginsWithAutoClaim limits bytes.now sent len
        → IsAutoClaimInPlace sent len result }
{
    match tape.read_autoclaim(bytes, limits) {
        Err(_) => Err(WireError::Memory),
        Ok(Some(found)) => Ok(AutoClaimOutcome::InPlace(found)),
        Ok(None) => copy_autoclaim(alloc, bytes, limits),
    }
}

/// Reads a reply of XAUTOCLAIM by way of a decoded value.
fn copy_autoclaim<'a>(
    alloc: Global,
    bytes: &[u8],
    limits: Limits,
) -> Result<AutoClaimOutcome<'a>, WireError>
    ensures { IsAutoClaimOutcome limits bytes.now result }
{
    match decode(alloc, bytes, limits) {
        Ok(Decoded::Complete { reply, len }) => Ok(AutoClaimOutcome::Copied {
            reply: from_reply::<StreamAutoClaimReply>(alloc, reply),
            len,
        }),
        Ok(Decoded::Incomplete) => Ok(AutoClaimOutcome::Incomplete),
        Err(error) => Err(error),
    }
}

/// Reads the reply of XAUTOCLAIM with `JUSTID` of any shape at the start of the bytes, as
/// `read_any_range` does.
pub fn read_any_justid<'a>(
    alloc: Global,
    tape: &'a mut EntryTape,
    bytes: &'a [u8],
    limits: Limits,
) -> Result<JustIdOutcome<'a>, WireError>
    ensures is { IsJustIdOutcome limits bytes.now result }
    ensures found { (sent : JustId) (len : ℕ) → BeginsWithJustId limits bytes.now sent len
        → IsJustIdInPlace sent len result }
{
    match tape.read_justid(bytes, limits) {
        Err(_) => Err(WireError::Memory),
        Ok(Some(found)) => Ok(JustIdOutcome::InPlace(found)),
        Ok(None) => copy_justid(alloc, bytes, limits),
    }
}

/// Reads a reply of XAUTOCLAIM with `JUSTID` by way of a decoded value.
fn copy_justid<'a>(
    alloc: Global,
    bytes: &[u8],
    limits: Limits,
) -> Result<JustIdOutcome<'a>, WireError>
    ensures { IsJustIdOutcome limits bytes.now result }
{
    match decode(alloc, bytes, limits) {
        Ok(Decoded::Complete { reply, len }) => Ok(JustIdOutcome::Copied {
            reply: from_reply::<StreamAutoClaimJustIdReply>(alloc, reply),
            len,
        }),
        Ok(Decoded::Incomplete) => Ok(JustIdOutcome::Incomplete),
        Err(error) => Err(error),
    }
}
