//! Replies of XINFO GROUPS and XPENDING as plain records, in tables of the caller.
ghost use Rattle.std.specs.Prelude.{◌≡◌, ◌≤◌, IfOk, IfErr, flat_map, length, take, true};
ghost use Rattle.redis_resp.specs.Value.{tree};
ghost use Rattle.redis_wire.specs.Reply.{answer, value};
ghost use Rattle.redis_streams.specs.Info.{groups_reading};
ghost use Rattle.redis_streams.specs.InfoMeaning.{groups_meaning};
ghost use Rattle.redis_streams.specs.Pending.{pending_reading, pending_count_reading};
ghost use Rattle.redis_streams.specs.PendingMeaning.{pending_meaning, pending_ids_meaning};
ghost use Rattle.redis_c.specs.Records.{IsRecordAt, IsUnread, AreRecords, AreRecordsTold, TellsRecords};
ghost use Rattle.redis_c.specs.Records.{HoldGroups, HoldEntries, HoldSummary, group_text, pending_text};
ghost use Rattle.redis_c.specs.Records.{summary_text, summary_consumers, IsCopying};
ghost use Rattle.redis_c.specs.Told.{IsAnswered};

use crate::copying::{put_entries, put_groups, put_summary};
use crate::other::error_at;
use crate::outcome::Outcome;
use crate::records::{
    ConsumerRecord, GroupRecord, PendingRecord, Records, RecordsFound, SummaryRecord,
};
use redis_resp::{FromRedisValue, ParsingError, Value, from_redis_value};
use redis_streams::{StreamInfoGroupsReply, StreamPendingCountReply, StreamPendingReply};
use redis_wire::{Decoded, Limits, Reply, WireError, decode};
use std::alloc::Global;

/// The record of a value, for a reply of `len` bytes.
fn convert_value<T: FromRedisValue>(
    alloc: Global,
    bytes: &[u8],
    len: usize,
    v: Value,
) -> Result<T, Outcome>
    requires { IsAnswered bytes.now len (value (tree v)) }
    ensures ok { IfOk result (λ x. IsRecordAt T.reading bytes.now len (T.meaning x)) }
    ensures err { IfErr result (IsUnread T.reading bytes.now) }
{
    match from_redis_value::<T>(alloc, v) {
        Ok(found) => Ok(found),
        Err(ParsingError::Memory) => Err(Outcome::Memory),
        Err(_) => Err(Outcome::OtherShape { len }),
    }
}

/// The record of the reply at the head of bytes, and the number of bytes of the reply.
fn read_record<T: FromRedisValue>(alloc: Global, bytes: &[u8]) -> Result<(T, usize), Outcome>
    ensures ok { IfOk result (λ x. IsRecordAt T.reading bytes.now x.1 (T.meaning x.0)) }
    ensures err { IfErr result (IsUnread T.reading bytes.now) }
{
    match decode(alloc, bytes, Limits::default()) {
        Ok(Decoded::Complete { reply, len }) => match reply {
            Reply::Value(v) => match convert_value::<T>(alloc, bytes, len, v) {
                Ok(found) => Ok((found, len)),
                Err(outcome) => Err(outcome),
            },
            Reply::Error(error) => Err(error_at(bytes, len, &error.text)),
            Reply::Group { .. } | Reply::Push { .. } => Err(Outcome::OtherShape { len }),
        },
        Ok(Decoded::Incomplete) => Err(Outcome::Incomplete),
        Err(WireError::Memory) => Err(Outcome::Memory),
        Err(WireError::Fault(fault)) => Err(Outcome::Fault(fault)),
    }
}

/// Copies items to the start of a table that has room for them.
fn copy_front<T: Copy>(items: &[T], table: &mut [T])
    requires { length items.now ≤ length table.old }
    ensures { take (length items.now) table.new ≡ items.now }
{
    let (front, _) = table.split_at_mut(items.len());
    front.copy_from_slice(items);
}

/// Copies rows and their texts to the start of tables, if both have room.
fn copy_rows<T: Copy>(
    len: usize,
    rows: &[T],
    copies: &[u8],
    table: &mut [T],
    texts: &mut [u8],
) -> Records
    ensures { IsCopying rows.now copies.now (length table.old) (length texts.old) table.new texts.new len result }
{
    let (records, text) = (rows.len(), copies.len());
    if records > table.len() {
        return Records::Room { len, records, text };
    }
    if text > texts.len() {
        return Records::Room { len, records, text };
    }
    copy_front(rows, table);
    copy_front(copies, texts);
    Records::Copied { len, records, text }
}

/// The groups of a reply, in tables of the caller.
fn copy_groups(alloc: Global, bytes: &[u8], groups: &mut [GroupRecord], texts: &mut [u8]) -> Records
    ensures { AreRecords groups_reading bytes.now (HoldGroups groups.new texts.new) length (flat_map group_text)
        (length groups.old) (length texts.old) result }
{
    let (reply, len) = match read_record::<StreamInfoGroupsReply>(alloc, bytes) {
        Ok(found) => found,
        Err(outcome) => return Records::Unread(outcome),
    };
    let mut copies = Vec::new(alloc);
    let Ok(records) = put_groups(alloc, &mut copies, &reply.groups) else {
        return Records::Unread(Outcome::Memory);
    };
    copy_rows(len, &records, &copies, groups, texts)
}

/// Parses the reply of XINFO GROUPS at the head of bytes: a record for each group, and their texts one after
/// the other.
#[unsafe(no_mangle)]
pub extern "C" fn redis_xinfo_groups_reply(
    alloc: Global,
    bytes: &[u8],
    groups: &mut [GroupRecord],
    texts: &mut [u8],
    found: &mut RecordsFound,
) -> u32
    ensures are { AreRecordsTold groups_reading bytes.now (HoldGroups groups.new texts.new) length
        (flat_map group_text) (length groups.old) (length texts.old) result found.new }
    ensures tells { TellsRecords groups_reading length (flat_map group_text) (length groups.old) (length texts.old)
        bytes.now result }
{
    copy_groups(alloc, bytes, groups, texts).tell(found)
}

/// The pending entries of a reply, in tables of the caller.
fn copy_entries(
    alloc: Global,
    bytes: &[u8],
    entries: &mut [PendingRecord],
    texts: &mut [u8],
) -> Records
    ensures { AreRecords pending_count_reading bytes.now (HoldEntries entries.new texts.new) length
        (flat_map pending_text) (length entries.old) (length texts.old) result }
{
    let (reply, len) = match read_record::<StreamPendingCountReply>(alloc, bytes) {
        Ok(found) => found,
        Err(outcome) => return Records::Unread(outcome),
    };
    let mut copies = Vec::new(alloc);
    let Ok(records) = put_entries(alloc, &mut copies, &reply.ids) else {
        return Records::Unread(Outcome::Memory);
    };
    copy_rows(len, &records, &copies, entries, texts)
}

/// Parses the reply of XPENDING with a range at the head of bytes: a record for each pending entry, and their
/// texts one after the other.
#[unsafe(no_mangle)]
pub extern "C" fn redis_xpending_reply(
    alloc: Global,
    bytes: &[u8],
    entries: &mut [PendingRecord],
    texts: &mut [u8],
    found: &mut RecordsFound,
) -> u32
    ensures are { AreRecordsTold pending_count_reading bytes.now (HoldEntries entries.new texts.new) length
        (flat_map pending_text) (length entries.old) (length texts.old) result found.new }
    ensures tells { TellsRecords pending_count_reading length (flat_map pending_text) (length entries.old)
        (length texts.old) bytes.now result }
{
    copy_entries(alloc, bytes, entries, texts).tell(found)
}

/// The summary of a reply, in tables of the caller.
fn copy_summary(
    alloc: Global,
    bytes: &[u8],
    summary: &mut SummaryRecord,
    consumers: &mut [ConsumerRecord],
    texts: &mut [u8],
) -> Records
    ensures { AreRecords pending_reading bytes.now (HoldSummary summary.new consumers.new texts.new)
        (λ s. length (summary_consumers s)) summary_text (length consumers.old) (length texts.old) result }
{
    let (reply, len) = match read_record::<StreamPendingReply>(alloc, bytes) {
        Ok(found) => found,
        Err(outcome) => return Records::Unread(outcome),
    };
    let mut copies = Vec::new(alloc);
    let Ok((pending, records)) = put_summary(alloc, &mut copies, &reply) else {
        return Records::Unread(Outcome::Memory);
    };
    *summary = pending;
    copy_rows(len, &records, &copies, consumers, texts)
}

/// Parses the reply of XPENDING without a range at the head of bytes: the number of pending entries, a record
/// for each consumer, and the texts of both one after the other.
#[unsafe(no_mangle)]
pub extern "C" fn redis_xpending_summary_reply(
    alloc: Global,
    bytes: &[u8],
    summary: &mut SummaryRecord,
    consumers: &mut [ConsumerRecord],
    texts: &mut [u8],
    found: &mut RecordsFound,
) -> u32
    ensures are { AreRecordsTold pending_reading bytes.now (HoldSummary summary.new consumers.new texts.new)
        (λ s. length (summary_consumers s)) summary_text (length consumers.old) (length texts.old) result found.new }
    ensures tells { TellsRecords pending_reading (λ s. length (summary_consumers s)) summary_text
        (length consumers.old) (length texts.old) bytes.now result }
{
    copy_summary(alloc, bytes, summary, consumers, texts).tell(found)
}
