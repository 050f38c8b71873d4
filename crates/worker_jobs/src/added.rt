//! Entries that a reply of JSON adds to other streams.
ghost use Rattle.std.specs.Prelude.{◌≡◌, ◌++◌, ◌∷◌, [], IfOk, List, MatchOption, None, OnErr, ℕ, flat_map, option_and_then};
ghost use Rattle.json.specs.Value.{items_view, members_view, value_view};
ghost use Rattle.worker.specs.Outbox.Sent.{unsent_of};
ghost use Rattle.worker_jobs.specs.Added.{AreWords, Queues, QueuesOne, QueuesSome, added_by, array_of, entries_in};
ghost use Rattle.worker_jobs.specs.Added.{entries_of_line, entry_in, entry_of, entry_of_pair, entry_with, fields_in, is_done};

use crate::fault::Fault;
use json::{Error, Scratch, Value};
use redis_wire::PackError;
use std::alloc::{AllocError, Global};
use worker::outbox::Outbox;

/// Queues an XADD for each entry that a reply of JSON adds. Returns false, and queues nothing, if the line is
/// not a reply of JSON. An `Err` queues nothing.
pub fn queue_added(alloc: Global, line: &[u8], outbox: &mut Outbox) -> Result<bool, Fault>
    ensures ok { IfOk result (λ is. Queues (entries_of_line line.now) is
        (unsent_of outbox.old) (unsent_of outbox.new)) }
    ensures err { OnErr result (unsent_of outbox.new ≡ unsent_of outbox.old) }
{
    let before = outbox.len();
    let queued = queue_line(alloc, line, outbox);
    match queued {
        Ok(true) => Ok(true),
        Ok(false) => {
            outbox.truncate(before);
            Ok(false)
        }
        Err(fault) => {
            outbox.truncate(before);
            Err(fault)
        }
    }
}

/// Queues an XADD for each entry that a reply of JSON adds. Returns false if the line is not a reply of JSON.
/// After false or an `Err`, some commands may remain queued.
fn queue_line(alloc: Global, line: &[u8], outbox: &mut Outbox) -> Result<bool, Fault>
    ensures ok { IfOk result (λ is. QueuesSome (entries_of_line line.now) is
        (unsent_of outbox.old) (unsent_of outbox.new)) }
    ensures err { OnErr result ((more : List (List ℕ)) × (unsent_of outbox.new ≡ unsent_of outbox.old ++ more)) }
{
    let Ok(text) = str::from_utf8(line) else {
        return Ok(false);
    };
    let mut scratch = Scratch::new(alloc);
    let value = match Value::parse(alloc, text, &mut scratch) {
        Ok(value) => value,
        Err(Error::Invalid) => return Ok(false),
        Err(_) => return Err(Fault::Memory),
    };
    match value {
        Value::Object(members) => queue_members(alloc, &members, outbox),
        _ => Ok(false),
    }
}

/// Queues an XADD for each entry that the members of a JSON object add. Returns false if the object is not a
/// reply.
fn queue_members(
    alloc: Global,
    members: &[(&str, Value<'_>)],
    outbox: &mut Outbox,
) -> Result<bool, Fault>
    ensures ok { IfOk result (λ is. QueuesSome (option_and_then entries_in (added_by (members_view members.now))) is
        (unsent_of outbox.old) (unsent_of outbox.new)) }
    ensures err { OnErr result ((more : List (List ℕ)) × (unsent_of outbox.new ≡ unsent_of outbox.old ++ more)) }
{
    match members {
        [one] => Ok(is_done_member(one)),
        [one, other] if is_done_member(one) => queue_array(alloc, other, outbox),
        [one, other] if is_done_member(other) => queue_array(alloc, one, outbox),
        _ => Ok(false),
    }
}

/// Whether the member is `"done":true`.
fn is_done_member(member: &(&str, Value<'_>)) -> bool
    ensures { result ≡ is_done member.now.0.now (value_view member.now.1) }
{
    match &member.1 {
        Value::Bool(true) => member.0 == "done",
        _ => false,
    }
}

/// Queues an XADD for each entry of the member `add`. Returns false if the member has another name, or is not
/// an array of entries.
fn queue_array(
    alloc: Global,
    member: &(&str, Value<'_>),
    outbox: &mut Outbox,
) -> Result<bool, Fault>
    ensures ok { IfOk result (λ is. QueuesSome
        (option_and_then entries_in (array_of member.now.0.now (value_view member.now.1))) is
        (unsent_of outbox.old) (unsent_of outbox.new)) }
    ensures err { OnErr result ((more : List (List ℕ)) × (unsent_of outbox.new ≡ unsent_of outbox.old ++ more)) }
{
    match &member.1 {
        Value::Array(items) if member.0 == "add" => queue_items(alloc, items, outbox),
        _ => Ok(false),
    }
}

/// Queues an XADD for each item. An item is a pair of a stream and its fields. Returns false at the first item
/// that is not such a pair.
fn queue_items(alloc: Global, items: &[Value<'_>], outbox: &mut Outbox) -> Result<bool, Fault>
    ensures ok { IfOk result (λ is. QueuesSome (entries_in (items_view items.now)) is
        (unsent_of outbox.old) (unsent_of outbox.new)) }
    ensures err { OnErr result ((more : List (List ℕ)) × (unsent_of outbox.new ≡ unsent_of outbox.old ++ more)) }
{
    let mut rest = items;
    while let [item, more @ ..] = rest {
        if !queue_item(alloc, item, outbox)? {
            return Ok(false);
        }
        rest = more;
    }
    Ok(true)
}

/// Queues the XADD of a pair of a stream and its fields. Returns false if the value is not such a pair.
fn queue_item(alloc: Global, item: &Value<'_>, outbox: &mut Outbox) -> Result<bool, Fault>
    ensures ok { IfOk result (λ is. QueuesOne (entry_in (value_view item.now)) is
        (unsent_of outbox.old) (unsent_of outbox.new)) }
    ensures err { OnErr result (unsent_of outbox.new ≡ unsent_of outbox.old) }
{
    match item {
        Value::Array(pair) => queue_pair(alloc, pair, outbox),
        _ => Ok(false),
    }
}

/// Queues the XADD of a pair, given the items of its array. Returns false if they are not a stream and its
/// fields.
fn queue_pair(alloc: Global, pair: &[Value<'_>], outbox: &mut Outbox) -> Result<bool, Fault>
    ensures ok { IfOk result (λ is. QueuesOne (entry_of_pair (items_view pair.now)) is
        (unsent_of outbox.old) (unsent_of outbox.new)) }
    ensures err { OnErr result (unsent_of outbox.new ≡ unsent_of outbox.old) }
{
    match pair {
        [stream, fields] => match stream.as_str() {
            Some(stream) => queue_fields(alloc, stream, fields, outbox),
            None => Ok(false),
        },
        _ => Ok(false),
    }
}

/// Queues the XADD of an entry of `stream`. Returns false if `fields` is not an object of fields.
fn queue_fields<'a>(
    alloc: Global,
    stream: &'a str,
    fields: &Value<'a>,
    outbox: &mut Outbox,
) -> Result<bool, Fault>
    ensures ok { IfOk result (λ is. QueuesOne (entry_of stream.now (value_view fields.now)) is
        (unsent_of outbox.old) (unsent_of outbox.new)) }
    ensures err { OnErr result (unsent_of outbox.new ≡ unsent_of outbox.old) }
{
    match fields {
        Value::Object(members) => queue_entry(alloc, stream, members, outbox),
        _ => Ok(false),
    }
}

/// Queues the XADD of an entry of `stream`. Returns false if `stream` is empty, if there are no fields, or if a
/// value is not a string.
fn queue_entry<'a>(
    alloc: Global,
    stream: &'a str,
    members: &[(&'a str, Value<'a>)],
    outbox: &mut Outbox,
) -> Result<bool, Fault>
    ensures ok { IfOk result (λ is. QueuesOne (entry_with stream.now (fields_in (members_view members.now))) is
        (unsent_of outbox.old) (unsent_of outbox.new)) }
    ensures err { OnErr result (unsent_of outbox.new ≡ unsent_of outbox.old) }
{
    let Some(words) = collect_fields(alloc, members)? else {
        return Ok(false);
    };
    if stream.is_empty() || words.as_slice().is_empty() {
        return Ok(false);
    }
    let command = ("XADD", stream, "*", words);
    match outbox.push(alloc, &command) {
        Ok(()) => Ok(true),
        Err(_) => Err(Fault::Memory),
    }
}

/// Returns each name of an object followed by its value, in order. Returns `None` if a value is not a string.
fn collect_fields<'a>(
    alloc: Global,
    members: &[(&'a str, Value<'a>)],
) -> Result<Option<Vec<&'a str>>, AllocError>
    ensures { IfOk result (λ words. MatchOption words (fields_in (members_view members.now) ≡ None)
        (λ words. AreWords (fields_in (members_view members.now)) (flat_map (λ word. word.now ∷ []) words.items))) }
{
    let mut words = Vec::new(alloc);
    let mut rest = members;
    while let [member, more @ ..] = rest {
        let Some(text) = member.1.as_str() else {
            return Ok(None);
        };
        words.push(member.0)?;
        words.push(text)?;
        rest = more;
    }
    Ok(Some(words))
}
