//! Replies of any shape: read in place, or by the copying path.
ghost use Rattle.std.specs.Prelude.{◌≡◌, ℕ, Bool, List, IfOk, IfSome};
ghost use Rattle.stream_in_place.specs.Outcome.{IsRangeOutcome, IsReadOutcome, IsRangeInPlace, IsReadInPlace};
ghost use Rattle.stream_in_place.specs.Sent.{SentEntry, SentStream};
ghost use Rattle.stream_in_place.specs.Shapes.{BeginsWithRange, BeginsWithStreams};

use crate::entry_list::RangeRef;
use crate::stream_list::ReadRef;
use crate::tape::EntryTape;
use redis_wire::{Decoded, Limits, ReplyError, WireError, decode, from_reply};
use std::alloc::Global;
use stream_entries::{StreamRangeReply, StreamReadReply};

/// The result of reading the entries of a reply.
#[derive(Debug, Drop)]
pub enum RangeOutcome<'a> {
    /// The reply has the shape that servers send: its entries, in place.
    InPlace(RangeRef<'a>),
    /// The reply has another shape: its record, why it was refused, or the server's error.
    Copied {
        reply: Result<StreamRangeReply, ReplyError>,
        /// The length of the reply in bytes.
        len: usize,
    },
    /// The bytes end before the reply does.
    Incomplete,
}

/// The result of reading the streams of a reply.
#[derive(Debug, Drop)]
pub enum ReadOutcome<'a> {
    /// The reply has the shape that servers send: its streams, in place.
    InPlace(ReadRef<'a>),
    /// The reply has another shape: its record, why it was refused, or the server's error.
    Copied {
        reply: Result<StreamReadReply, ReplyError>,
        /// The length of the reply in bytes.
        len: usize,
    },
    /// The bytes end before the reply does.
    Incomplete,
}

/// Reads the reply of XRANGE, XREVRANGE or XCLAIM of any shape at the start of the bytes. It is read in
/// place if it has the shape that servers send, and else by the copying path. The errors are those of
/// `decode`: out of memory, or the first fault of bytes that are not a reply.
pub fn read_any_range<'a>(
    alloc: Global,
    tape: &'a mut EntryTape,
    bytes: &'a [u8],
    limits: Limits,
) -> Result<RangeOutcome<'a>, WireError>
    ensures is { IsRangeOutcome limits bytes.now result }
    ensures found { (es : List SentEntry) (len : ℕ) → BeginsWithRange limits bytes.now es len
        → IsRangeInPlace es len result }
{
    match tape.read_range(bytes, limits) {
        Err(_) => Err(WireError::Memory),
        Ok(Some(found)) => Ok(RangeOutcome::InPlace(found)),
        Ok(None) => copy_range(alloc, bytes, limits),
    }
}

/// Reads entries by way of a decoded value.
fn copy_range<'a>(
    alloc: Global,
    bytes: &[u8],
    limits: Limits,
) -> Result<RangeOutcome<'a>, WireError>
    ensures { IsRangeOutcome limits bytes.now result }
{
    match decode(alloc, bytes, limits) {
        Ok(Decoded::Complete { reply, len }) => Ok(RangeOutcome::Copied {
            reply: from_reply::<StreamRangeReply>(alloc, reply),
            len,
        }),
        Ok(Decoded::Incomplete) => Ok(RangeOutcome::Incomplete),
        Err(error) => Err(error),
    }
}

/// Reads the reply of XREAD or XREADGROUP of any shape at the start of the bytes, as
/// `read_any_range` does. Its rows have the standard form or the claim form.
pub fn read_any_streams<'a>(
    alloc: Global,
    tape: &'a mut EntryTape,
    bytes: &'a [u8],
    limits: Limits,
) -> Result<ReadOutcome<'a>, WireError>
    ensures is { IsReadOutcome limits bytes.now result }
    ensures found { (claim : Bool) (ss : List SentStream) (len : ℕ)
        → BeginsWithStreams limits claim bytes.now ss len → IsReadInPlace ss len result }
{
    match tape.read_either_form(bytes, limits) {
        Err(_) => Err(WireError::Memory),
        Ok(Some(found)) => Ok(ReadOutcome::InPlace(found)),
        Ok(None) => copy_streams(alloc, bytes, limits),
    }
}

/// Reads streams by way of a decoded value.
fn copy_streams<'a>(
    alloc: Global,
    bytes: &[u8],
    limits: Limits,
) -> Result<ReadOutcome<'a>, WireError>
    ensures { IsReadOutcome limits bytes.now result }
{
    match decode(alloc, bytes, limits) {
        Ok(Decoded::Complete { reply, len }) => Ok(ReadOutcome::Copied {
            reply: from_reply::<StreamReadReply>(alloc, reply),
            len,
        }),
        Ok(Decoded::Incomplete) => Ok(ReadOutcome::Incomplete),
        Err(error) => Err(error),
    }
}
