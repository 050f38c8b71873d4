//! Replies of the stream commands, read from values in the notation by both calls: `from_redis_value` and
//! `from_redis_value_ref`.
//!
//! | Kind | Reply |
//! |---|---|
//! | `range` | XRANGE, XREVRANGE |
//! | `claim` | XCLAIM |
//! | `read` | XREAD, XREADGROUP |
//! | `forms` | the forms that such a reply has, as `Debug` prints them |
//! | `autoclaim`, `justid` | XAUTOCLAIM, without and with JUSTID |
//! | `pending`, `pendingcount` | XPENDING, as a summary and of single entries |
//! | `stream`, `streamidmp` | XINFO STREAM, without and with the fields of idempotent producers |
//! | `full` | XINFO STREAM with FULL |
//! | `consumers`, `groups` | XINFO CONSUMERS, XINFO GROUPS |
//! | `xdelex`, `xackdel` | a status code of XDELEX, of XACKDEL |
//!
//! The outcome is the text of the record, or the refusal. The text is the printed form of `test_notation`.
//! `pending` is the printed form and `Debug`, as the printed form leaves out for how long a consumer has
//! been idle. `justid` is `Debug` alone, as the record has no printed form.
ghost use Rattle.test_cases.specs.Kinds.{is_info, is_other, is_reply, is_row};
ghost use Rattle.std.specs.Prelude.{◌≡◌, IfOk, IfSome, IsSome, IsTrue};

use crate::{format_both, format_refusal, parse_value};
use redis_resp::{FromRedisValue, ParsingError, from_redis_value, from_redis_value_ref};
use redis_streams::{
    StreamAutoClaimReply, StreamClaimReply, StreamInfoConsumersReply, StreamInfoFullReply,
    StreamInfoGroupsReply, StreamInfoStreamReply, StreamInfoStreamReplyWithIdempotency,
    StreamPendingCountReply, StreamPendingReply, StreamRangeReply, StreamReadReply,
    XAckDelStatusCode, XDelExStatusCode,
};
use std::alloc::{AllocError, Global};
use std::fmt::Debug;
use stream_entries::StreamAutoClaimJustIdReply;
use test_notation::PrintedForm;

/// Runs a case of this module. Returns its outcome, or `None` if its kind is another.
pub fn run_case(alloc: Global, kind: &str, input: &str) -> Result<Option<String>, AllocError>
    ensures { IfOk result (λ o. IsSome o → IsTrue (is_reply kind.now)) }
{
    match kind {
        "range" | "claim" | "read" | "forms" | "autoclaim" | "justid" => read_rows(
            alloc, kind, input,
        ),
        "stream" | "streamidmp" | "full" | "consumers" | "groups" => read_info(alloc, kind, input),
        _ => read_other(alloc, kind, input),
    }
}

/// Reads a value as a reply that holds entries, if the kind is such a reply.
fn read_rows(alloc: Global, kind: &str, input: &str) -> Result<Option<String>, AllocError>
    ensures { IfOk result (λ o. IsSome o → IsTrue (is_row kind.now)) }
{
    match kind {
        "range" => read_printed::<StreamRangeReply>(alloc, input),
        "claim" => read_printed::<StreamClaimReply>(alloc, input),
        "read" => read_printed::<StreamReadReply>(alloc, input),
        "forms" => format_forms(alloc, input),
        "autoclaim" => read_printed::<StreamAutoClaimReply>(alloc, input),
        "justid" => read_debug::<StreamAutoClaimJustIdReply>(alloc, input),
        _ => Ok(None),
    }
}

/// Reads a value as a reply of XINFO, if the kind is such a reply.
fn read_info(alloc: Global, kind: &str, input: &str) -> Result<Option<String>, AllocError>
    ensures { IfOk result (λ o. IsSome o → IsTrue (is_info kind.now)) }
{
    match kind {
        "stream" => read_printed::<StreamInfoStreamReply>(alloc, input),
        "streamidmp" => read_printed::<StreamInfoStreamReplyWithIdempotency>(alloc, input),
        "full" => read_printed::<StreamInfoFullReply>(alloc, input),
        "consumers" => read_printed::<StreamInfoConsumersReply>(alloc, input),
        "groups" => read_printed::<StreamInfoGroupsReply>(alloc, input),
        _ => Ok(None),
    }
}

/// Reads a value as a reply on pending entries or as a status code, if the kind is one of these.
fn read_other(alloc: Global, kind: &str, input: &str) -> Result<Option<String>, AllocError>
    ensures { IfOk result (λ o. IsSome o → IsTrue (is_other kind.now)) }
{
    match kind {
        "pending" => read_pending(alloc, input),
        "pendingcount" => read_printed::<StreamPendingCountReply>(alloc, input),
        "xdelex" => read_printed::<XDelExStatusCode>(alloc, input),
        "xackdel" => read_printed::<XAckDelStatusCode>(alloc, input),
        _ => Ok(None),
    }
}

/// Returns the forms of a read reply that the value has.
fn format_forms(alloc: Global, input: &str) -> Result<Option<String>, AllocError> {
    match parse_value(alloc, input)? {
        Ok(value) => {
            let forms = StreamReadReply::forms(&value);
            Ok(Some(format!(in alloc; "{forms:?}")?))
        }
        Err(text) => Ok(Some(text)),
    }
}

/// Reads a value as a summary of pending entries. Returns the printed form and the `Debug` text, or a refusal once.
fn read_pending(alloc: Global, input: &str) -> Result<Option<String>, AllocError> {
    let Some(printed) = read_printed::<StreamPendingReply>(alloc, input)? else {
        return Ok(None);
    };
    let Some(shown) = read_debug::<StreamPendingReply>(alloc, input)? else {
        return Ok(None);
    };
    if printed.as_str() == shown.as_str() {
        Ok(Some(printed))
    } else {
        Ok(Some(format!(in alloc; "{printed} {shown}")?))
    }
}

/// Returns the results of both calls on the value, by value and borrowed, in their printed form.
fn read_printed<T: Record + PrintedForm>(
    alloc: Global,
    input: &str,
) -> Result<Option<String>, AllocError> {
    let value = match parse_value(alloc, input)? {
        Ok(value) => value,
        Err(text) => return Ok(Some(text)),
    };
    let before = value.try_clone(alloc)?;
    let lent = format_printed_result(alloc, from_redis_value_ref::<T>(alloc, &value))?;
    let changed = value != before;
    drop(before);
    let owned = format_printed_result(alloc, from_redis_value::<T>(alloc, value))?;
    Ok(Some(format_both(alloc, owned, &lent, changed)?))
}

/// Returns the printed form of the record, or the refusal.
fn format_printed_result<T: Record + PrintedForm>(
    alloc: Global,
    answer: Result<T, ParsingError>,
) -> Result<String, AllocError> {
    match answer {
        Ok(record) => format_printed_record(alloc, &record),
        Err(error) => format_refusal(alloc, &error),
    }
}

/// Returns the printed form of the record, and that of a copy too if it differs.
fn format_printed_record<T: Record + PrintedForm>(
    alloc: Global,
    record: &T,
) -> Result<String, AllocError> {
    let text = record.printed(alloc)?;
    let Some(copy) = record.copy(alloc)? else {
        return Ok(text);
    };
    let copied = copy.printed(alloc)?;
    add_copy(alloc, text, &copied)
}

/// Returns the results of both calls on the value, by value and borrowed, as `Debug` prints them.
fn read_debug<T: Record + Debug>(alloc: Global, input: &str) -> Result<Option<String>, AllocError> {
    let value = match parse_value(alloc, input)? {
        Ok(value) => value,
        Err(text) => return Ok(Some(text)),
    };
    let before = value.try_clone(alloc)?;
    let lent = format_debug_result(alloc, from_redis_value_ref::<T>(alloc, &value))?;
    let changed = value != before;
    drop(before);
    let owned = format_debug_result(alloc, from_redis_value::<T>(alloc, value))?;
    Ok(Some(format_both(alloc, owned, &lent, changed)?))
}

/// Returns the record as `Debug` prints it, or the refusal.
fn format_debug_result<T: Record + Debug>(
    alloc: Global,
    answer: Result<T, ParsingError>,
) -> Result<String, AllocError> {
    match answer {
        Ok(record) => format_debug_record(alloc, &record),
        Err(error) => format_refusal(alloc, &error),
    }
}

/// Returns the record as `Debug` prints it, and a copy of it too if that has another text.
fn format_debug_record<T: Record + Debug>(alloc: Global, record: &T) -> Result<String, AllocError> {
    let text = format!(in alloc; "{record:?}")?;
    let Some(copy) = record.copy(alloc)? else {
        return Ok(text);
    };
    let copied = format!(in alloc; "{copy:?}")?;
    add_copy(alloc, text, &copied)
}

/// Returns the text of a record, and that of its copy too if it differs.
fn add_copy(alloc: Global, text: String, copied: &str) -> Result<String, AllocError> {
    if copied == text.as_str() {
        Ok(text)
    } else {
        format!(in alloc; "{text}, copied {copied}")
    }
}

// Records and their copies.

/// A record that cases print.
trait Record: FromRedisValue {
    /// Returns a copy of the record, which means the same, or `None` if the type has no copy.
    fn copy(&self, alloc: Global) -> Result<Option<Self>, AllocError>
        ensures { IfOk result (λ copy. IfSome copy (λ c. Self.meaning c ≡ Self.meaning self.now)) };
}

impl Record for StreamRangeReply {
    fn copy(&self, alloc: Global) -> Result<Option<StreamRangeReply>, AllocError> {
        Ok(Some(self.try_clone(alloc)?))
    }
}

impl Record for StreamClaimReply {
    fn copy(&self, alloc: Global) -> Result<Option<StreamClaimReply>, AllocError> {
        Ok(Some(self.try_clone(alloc)?))
    }
}

impl Record for StreamReadReply {
    fn copy(&self, alloc: Global) -> Result<Option<StreamReadReply>, AllocError> {
        Ok(Some(self.try_clone(alloc)?))
    }
}

impl Record for StreamAutoClaimReply {
    fn copy(&self, alloc: Global) -> Result<Option<StreamAutoClaimReply>, AllocError> {
        Ok(Some(self.try_clone(alloc)?))
    }
}

impl Record for StreamPendingCountReply {
    fn copy(&self, alloc: Global) -> Result<Option<StreamPendingCountReply>, AllocError> {
        Ok(Some(self.try_clone(alloc)?))
    }
}

impl Record for StreamInfoStreamReply {
    fn copy(&self, alloc: Global) -> Result<Option<StreamInfoStreamReply>, AllocError> {
        Ok(Some(self.try_clone(alloc)?))
    }
}

impl Record for StreamInfoStreamReplyWithIdempotency {
    fn copy(
        &self,
        alloc: Global,
    ) -> Result<Option<StreamInfoStreamReplyWithIdempotency>, AllocError> {
        Ok(Some(self.try_clone(alloc)?))
    }
}

impl Record for StreamInfoConsumersReply {
    fn copy(&self, alloc: Global) -> Result<Option<StreamInfoConsumersReply>, AllocError> {
        Ok(Some(self.try_clone(alloc)?))
    }
}

impl Record for StreamInfoGroupsReply {
    fn copy(&self, alloc: Global) -> Result<Option<StreamInfoGroupsReply>, AllocError> {
        Ok(Some(self.try_clone(alloc)?))
    }
}

impl Record for StreamInfoFullReply {
    fn copy(&self, alloc: Global) -> Result<Option<StreamInfoFullReply>, AllocError> {
        Ok(Some(self.try_clone(alloc)?))
    }
}

impl Record for XDelExStatusCode {
    fn copy(&self, _alloc: Global) -> Result<Option<XDelExStatusCode>, AllocError> {
        Ok(None)
    }
}

impl Record for XAckDelStatusCode {
    fn copy(&self, _alloc: Global) -> Result<Option<XAckDelStatusCode>, AllocError> {
        Ok(None)
    }
}

impl Record for StreamPendingReply {
    fn copy(&self, alloc: Global) -> Result<Option<StreamPendingReply>, AllocError> {
        Ok(Some(self.try_clone(alloc)?))
    }
}

impl Record for StreamAutoClaimJustIdReply {
    fn copy(&self, alloc: Global) -> Result<Option<StreamAutoClaimJustIdReply>, AllocError> {
        Ok(Some(self.try_clone(alloc)?))
    }
}
