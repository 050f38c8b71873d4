//! `XPENDING`.
ghost use Rattle.std.specs.Prelude.{IfOk};
ghost use Rattle.server_commands.specs.Kinds.{IsArray};

use super::answers::{array, bytes_answer, length, number, put};
use super::words::is_word;
use super::{
    SYNTAX, find_consumer_name, parse_interval_end, parse_interval_start, require_count,
    require_group, require_stream,
};
use crate::answer::Answer;
use crate::refusal::Refusal;
use itoa::Buffer;
use server_store::{Consumer, EntryId, Group, Pending, Stream};
use std::alloc::{AllocError, Global};

/// Which pending entries are requested.
#[derive(Clone, Copy)]
struct Wanted<'a> {
    start: EntryId,
    end: EntryId,
    most: u64,
    least_idle: u64,
    consumer: Option<&'a [u8]>,
}

/// `XPENDING key group [[IDLE ms] start end count [consumer]]`
pub(super) fn pending(
    alloc: Global,
    streams: &[Stream],
    now: u64,
    arguments: &[Vec<u8>],
) -> Result<Answer, Refusal>
    ensures { IfOk result IsArray }
{
    let [key, name, words @ ..] = arguments else {
        return Err(SYNTAX);
    };
    let wanted = parse_wanted(words)?;
    let stream = require_stream(alloc, streams, key, name)?;
    let group = require_group(alloc, stream, key, name)?;
    match wanted {
        Some(wanted) => Ok(Answer::Array(list_pending_rows(alloc, group, now, wanted)?)),
        None => Ok(Answer::Array(make_summary(alloc, group)?)),
    }
}

/// `[[IDLE ms] start end count [consumer]]`
fn parse_wanted(words: &[Vec<u8>]) -> Result<Option<Wanted<'_>>, Refusal> {
    if words.is_empty() {
        return Ok(None);
    }
    if words.len() < 3 || words.len() > 6 {
        return Err(SYNTAX);
    }
    let (least_idle, rest) = parse_least_idle(words)?;
    let [start, end, most, consumer @ ..] = rest else {
        return Err(SYNTAX);
    };
    let consumer = match consumer {
        [name, ..] => Some(name.as_slice()),
        [] => None,
    };
    let most = require_count(most)?;
    let start = parse_interval_start(start)?;
    let end = parse_interval_end(end)?;
    Ok(Some(Wanted {
        start,
        end,
        most,
        least_idle,
        consumer,
    }))
}

/// `[IDLE ms]`, 0 if it is missing, and the words after it.
fn parse_least_idle(words: &[Vec<u8>]) -> Result<(u64, &[Vec<u8>]), Refusal> {
    match words {
        [word, text, behind @ ..] if is_word(word, "IDLE") => Ok((require_count(text)?, behind)),
        _ => Ok((0, words)),
    }
}

/// A row for each of them.
fn list_pending_rows(
    alloc: Global,
    group: &Group,
    now: u64,
    wanted: Wanted<'_>,
) -> Result<Vec<Answer>, AllocError> {
    let mut rows = Vec::new(alloc);
    let number_wanted = match wanted.consumer {
        Some(name) => match group.consumer(name) {
            Some(consumer) => Some(consumer.number),
            None => return Ok(rows),
        },
        None => None,
    };
    let mut left = wanted.most;
    let mut at = group.pending.start(wanted.start);
    while let Some((after, pending)) = group.pending.next_at(at) {
        at = after;
        if pending.id > wanted.end || left == 0 {
            break;
        }
        let idle = now.saturating_sub(pending.given_at);
        let is_wanted = match number_wanted {
            Some(number) => pending.consumer == number,
            None => true,
        };
        if is_wanted && idle >= wanted.least_idle {
            left -= 1;
            put(&mut rows, make_pending_row(alloc, group, pending, idle)?)?;
        }
    }
    Ok(rows)
}

/// The row of a pending entry that has been idle for this long.
fn make_pending_row(
    alloc: Global,
    group: &Group,
    pending: Pending,
    idle: u64,
) -> Result<Answer, AllocError> {
    let id = Answer::Id(pending.id);
    let name = bytes_answer(alloc, find_consumer_name(group, pending.consumer))?;
    array(alloc, [id, name, number(idle), number(pending.deliveries)])
}

/// The number of pending entries, the first and the last one, and how many each consumer has.
fn make_summary(alloc: Global, group: &Group) -> Result<Vec<Answer>, AllocError> {
    let pending = length(group.pending.len());
    let row = match (group.pending.first(), group.pending.last()) {
        (Some(first), Some(last)) => {
            let counts = Answer::Array(list_counts(alloc, group)?);
            [pending, Answer::Id(first.id), Answer::Id(last.id), counts]
        }
        _ => [pending, Answer::Nil, Answer::Nil, Answer::NilArray],
    };
    match Vec::from_array(alloc, row) {
        Ok(row) => Ok(row),
        Err(_) => Err(AllocError),
    }
}

/// How many pending entries each consumer has, if there are any.
fn list_counts(alloc: Global, group: &Group) -> Result<Vec<Answer>, AllocError> {
    let mut counts = Vec::new(alloc);
    for consumer in &group.consumers {
        if consumer.pending != 0 {
            put(&mut counts, make_count_row(alloc, consumer)?)?;
        }
    }
    Ok(counts)
}

/// A consumer's name, and how many entries are pending for it.
fn make_count_row(alloc: Global, consumer: &Consumer) -> Result<Answer, AllocError> {
    let mut buffer = Buffer::new();
    let digits = buffer.format::<u64>(consumer.pending).as_bytes();
    let name = bytes_answer(alloc, &consumer.name)?;
    let count = bytes_answer(alloc, digits)?;
    array(alloc, [name, count])
}
