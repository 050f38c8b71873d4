//! `XINFO STREAM key FULL`.
ghost use Rattle.std.specs.Prelude.{IfOk};
ghost use Rattle.server_commands.specs.Kinds.{IsInfo};

use super::{compute_lag, make_head_rows, make_number_or_nil, put_rows};
use crate::answer::Answer;
use crate::commands::answers::{array, bytes_answer, length, number, put};
use crate::commands::{find_consumer_name, list_entries_up};
use server_store::{Consumer, EntryId, Group, Pending, Stream};
use std::alloc::{AllocError, Global};

/// The stream with its entries and groups, `most` of each kind at most.
pub(super) fn stream_in_full(
    alloc: Global,
    stream: &Stream,
    most: u64,
) -> Result<Answer, AllocError>
    ensures { IfOk result IsInfo }
{
    let most = if most == 0 { u64::MAX } else { most };
    let mut rows = make_head_rows(alloc, stream)?;
    let entries = list_entries_up(alloc, stream, EntryId::ZERO, EntryId::LAST, most)?;
    let groups = list_groups_in_full(alloc, stream, most)?;
    let rest = vec![in alloc;
        ("entries", Answer::Array(entries)),
        ("groups", Answer::Array(groups)),
    ]?;
    put_rows(alloc, &mut rows, rest)?;
    Ok(Answer::Map(rows))
}

/// The groups of the stream.
fn list_groups_in_full(
    alloc: Global,
    stream: &Stream,
    most: u64,
) -> Result<Vec<Answer>, AllocError> {
    let mut groups = Vec::new(alloc);
    for group in &stream.groups {
        put(
            &mut groups,
            describe_group_in_full(alloc, stream, group, most)?,
        )?;
    }
    Ok(groups)
}

/// A group with what is pending, for all and for each of its consumers.
fn describe_group_in_full(
    alloc: Global,
    stream: &Stream,
    group: &Group,
    most: u64,
) -> Result<Answer, AllocError> {
    let name = bytes_answer(alloc, &group.name)?;
    let pending = list_pending_rows(alloc, group, None, most)?;
    let consumers = list_consumers_in_full(alloc, group, most)?;
    let told = vec![in alloc;
        ("name", name),
        ("last-delivered-id", Answer::Id(group.last_id)),
        ("entries-read", make_number_or_nil(group.entries_read)),
        ("lag", make_number_or_nil(compute_lag(stream, group))),
        ("pel-count", length(group.pending.len())),
        ("pending", Answer::Array(pending)),
        ("consumers", Answer::Array(consumers)),
    ]?;
    let mut rows = Vec::new(alloc);
    put_rows(alloc, &mut rows, told)?;
    Ok(Answer::Map(rows))
}

/// The consumers of the group.
fn list_consumers_in_full(
    alloc: Global,
    group: &Group,
    most: u64,
) -> Result<Vec<Answer>, AllocError> {
    let mut consumers = Vec::new(alloc);
    for consumer in &group.consumers {
        put(
            &mut consumers,
            describe_consumer_in_full(alloc, group, consumer, most)?,
        )?;
    }
    Ok(consumers)
}

/// A consumer with what is pending for it.
fn describe_consumer_in_full(
    alloc: Global,
    group: &Group,
    consumer: &Consumer,
    most: u64,
) -> Result<Answer, AllocError> {
    let name = bytes_answer(alloc, &consumer.name)?;
    let pending = list_pending_rows(alloc, group, Some(consumer.number), most)?;
    let told = vec![in alloc;
        ("name", name),
        ("seen-time", number(consumer.seen_at)),
        ("pel-count", number(consumer.pending)),
        ("pending", Answer::Array(pending)),
    ]?;
    let mut rows = Vec::new(alloc);
    put_rows(alloc, &mut rows, told)?;
    Ok(Answer::Map(rows))
}

/// The pending entries of all consumers, or of the one with this number.
fn list_pending_rows(
    alloc: Global,
    group: &Group,
    only: Option<u64>,
    most: u64,
) -> Result<Vec<Answer>, AllocError> {
    let mut rows = Vec::new(alloc);
    let mut left = most;
    let mut at = group.pending.start(EntryId::ZERO);
    while let Some((after, pending)) = group.pending.next_at(at) {
        at = after;
        if left == 0 {
            break;
        }
        let is_wanted = match only {
            Some(number) => pending.consumer == number,
            None => true,
        };
        if is_wanted {
            left -= 1;
            put(
                &mut rows,
                make_pending_row(alloc, group, pending, only.is_some())?,
            )?;
        }
    }
    Ok(rows)
}

/// The id, the consumer's name unless one consumer is requested, the delivery time, and the delivery count.
fn make_pending_row(
    alloc: Global,
    group: &Group,
    pending: Pending,
    is_asked_for: bool,
) -> Result<Answer, AllocError> {
    let id = Answer::Id(pending.id);
    let given_at = number(pending.given_at);
    let deliveries = number(pending.deliveries);
    if is_asked_for {
        return array(alloc, [id, given_at, deliveries]);
    }
    let name = bytes_answer(alloc, find_consumer_name(group, pending.consumer))?;
    array(alloc, [id, name, given_at, deliveries])
}
