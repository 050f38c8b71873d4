//! `XINFO`.
mod full;

ghost use Rattle.std.specs.Prelude.{◌<◌, length as length_of, IfOk};
ghost use Rattle.server_commands.specs.Kinds.{IsInfo};

use super::answers::{bytes_answer, entry_answer, length, number, put};
use super::places::{group_of, stream_of};
use super::words::is_word;
use super::{
    SYNTAX, help, make_group_error, make_options_error, make_subcommand_error, make_subcount_error,
    put_row, require_integer,
};
use crate::answer::Answer;
use crate::refusal::Refusal;
use server_store::{Consumer, Entry, Group, Stream};
use std::alloc::{AllocError, Global};

const NO_KEY: Refusal = Refusal::Fixed("ERR no such key");

/// The subcommands of XINFO.
#[derive(Clone, Copy)]
enum Topic {
    Stream,
    Groups,
    Consumers,
    Help,
}

/// `XINFO STREAM key [FULL [COUNT count]]`, `XINFO GROUPS key`, `XINFO CONSUMERS key group`
pub(super) fn info(
    alloc: Global,
    streams: &[Stream],
    now: u64,
    word: &[u8],
    arguments: &[Vec<u8>],
) -> Result<Answer, Refusal>
    ensures { IfOk result IsInfo }
{
    match parse_topic(alloc, word, arguments)? {
        Topic::Help => Ok(help::of_info(alloc)?),
        topic => reply_about(alloc, streams, now, topic, word, arguments),
    }
}

/// The reply of XINFO about a stream.
fn reply_about(
    alloc: Global,
    streams: &[Stream],
    now: u64,
    topic: Topic,
    word: &[u8],
    arguments: &[Vec<u8>],
) -> Result<Answer, Refusal>
    ensures { IfOk result IsInfo }
{
    let [subcommand, key, rest @ ..] = arguments else {
        return Err(SYNTAX);
    };
    let stream = stream_of(streams, key).ok_or(NO_KEY)?;
    match topic {
        Topic::Groups => Ok(describe_groups(alloc, stream)?),
        Topic::Consumers => reply_about_consumers(alloc, stream, now, key, rest),
        _ => reply_about_stream(alloc, stream, word, subcommand, rest),
    }
}

/// `XINFO STREAM`, in one of its two forms.
fn reply_about_stream(
    alloc: Global,
    stream: &Stream,
    word: &[u8],
    subcommand: &[u8],
    options: &[Vec<u8>],
) -> Result<Answer, Refusal>
    ensures { IfOk result IsInfo }
{
    match parse_full(alloc, word, subcommand, options)? {
        Some(most) => Ok(full::stream_in_full(alloc, stream, most)?),
        None => Ok(describe_stream(alloc, stream)?),
    }
}

/// `XINFO CONSUMERS` of the stream of this key; the group is named after it.
fn reply_about_consumers(
    alloc: Global,
    stream: &Stream,
    now: u64,
    key: &[u8],
    words: &[Vec<u8>],
) -> Result<Answer, Refusal>
    ensures { IfOk result IsInfo }
{
    let [name, ..] = words else {
        return Err(SYNTAX);
    };
    match group_of(stream, name) {
        Some(group) => Ok(describe_consumers(alloc, group, now)?),
        None => Err(make_group_error(alloc, key, name)),
    }
}

/// Whether there is such a topic, and it may have this many arguments.
pub(super) fn check(alloc: Global, word: &[u8], arguments: &[Vec<u8>]) -> Result<(), Refusal>
    ensures { IfOk result (λ _. 0 < length_of arguments.now) }
{
    let _topic = parse_topic(alloc, word, arguments)?;
    Ok(())
}

/// The topic of this name, if it may have this many arguments.
fn parse_topic(alloc: Global, word: &[u8], arguments: &[Vec<u8>]) -> Result<Topic, Refusal>
    ensures { IfOk result (λ _. 0 < length_of arguments.now) }
{
    let [subcommand, behind @ ..] = arguments else {
        return Err(SYNTAX);
    };
    match find_topic(subcommand) {
        Some(topic) if has_right_count(topic, behind.len()) => Ok(topic),
        Some(_) => Err(make_subcount_error(alloc, word, subcommand)),
        None => Err(make_subcommand_error(alloc, word, subcommand)),
    }
}

/// The topic of this name.
fn find_topic(subcommand: &[u8]) -> Option<Topic> {
    if is_word(subcommand, "STREAM") {
        Some(Topic::Stream)
    } else if is_word(subcommand, "GROUPS") {
        Some(Topic::Groups)
    } else if is_word(subcommand, "CONSUMERS") {
        Some(Topic::Consumers)
    } else if is_word(subcommand, "HELP") {
        Some(Topic::Help)
    } else {
        None
    }
}

/// Whether this many arguments may follow the topic.
fn has_right_count(topic: Topic, count: usize) -> bool {
    match topic {
        Topic::Stream => count >= 1,
        Topic::Groups => count == 1,
        Topic::Consumers => count == 2,
        Topic::Help => count == 0,
    }
}

/// `[FULL [COUNT count]]`: at most how many entries are returned with FULL; 0 for no limit.
fn parse_full(
    alloc: Global,
    word: &[u8],
    subcommand: &[u8],
    options: &[Vec<u8>],
) -> Result<Option<u64>, Refusal> {
    match options {
        [] => Ok(None),
        [full] if is_word(full, "FULL") => Ok(Some(10)),
        [full, count, text] if is_word(full, "FULL") && is_word(count, "COUNT") => {
            Ok(Some(u64::try_from(require_integer(text)?).unwrap_or(10)))
        }
        _ => Err(make_options_error(alloc, word, subcommand)),
    }
}

/// Appends names with their replies.
fn put_rows(
    alloc: Global,
    rows: &mut Vec<(Vec<u8>, Answer)>,
    more: Vec<(&str, Answer)>,
) -> Result<(), AllocError> {
    for (name, answer) in more {
        put_row(alloc, rows, name, answer)?;
    }
    Ok(())
}

/// The first fields of both forms of XINFO STREAM.
fn make_head_rows(alloc: Global, stream: &Stream) -> Result<Vec<(Vec<u8>, Answer)>, AllocError> {
    let mut rows = Vec::new(alloc);
    let nodes = stream.nodes.len();
    let head = vec![in alloc;
        ("length", length(stream.entries.len())),
        ("radix-tree-keys", length(nodes)),
        ("radix-tree-nodes", length(nodes.saturating_add(1))),
        ("last-generated-id", Answer::Id(stream.last_id)),
        ("max-deleted-entry-id", Answer::Id(stream.max_deleted_id)),
        ("entries-added", Answer::Int(stream.entries_added)),
        ("recorded-first-entry-id", Answer::Id(stream.first_id())),
    ]?;
    put_rows(alloc, &mut rows, head)?;
    Ok(rows)
}

/// `XINFO STREAM key`
fn describe_stream(alloc: Global, stream: &Stream) -> Result<Answer, AllocError>
    ensures { IfOk result IsInfo }
{
    let mut rows = make_head_rows(alloc, stream)?;
    let first = make_entry_or_nil(alloc, stream.entries.front())?;
    let last = make_entry_or_nil(alloc, stream.entries.back())?;
    let rest = vec![in alloc;
        ("groups", length(stream.groups.len())),
        ("first-entry", first),
        ("last-entry", last),
    ]?;
    put_rows(alloc, &mut rows, rest)?;
    Ok(Answer::Map(rows))
}

/// The entry, or nil if there is none.
fn make_entry_or_nil(alloc: Global, entry: Option<&Entry>) -> Result<Answer, AllocError> {
    match entry {
        Some(entry) => entry_answer(alloc, entry),
        None => Ok(Answer::Nil),
    }
}

/// `XINFO GROUPS key`
fn describe_groups(alloc: Global, stream: &Stream) -> Result<Answer, AllocError>
    ensures { IfOk result IsInfo }
{
    let mut all = Vec::new(alloc);
    for group in &stream.groups {
        put(&mut all, describe_group(alloc, stream, group)?)?;
    }
    Ok(Answer::Array(all))
}

/// The reply of XINFO GROUPS about one group.
fn describe_group(alloc: Global, stream: &Stream, group: &Group) -> Result<Answer, AllocError> {
    let name = bytes_answer(alloc, &group.name)?;
    let told = vec![in alloc;
        ("name", name),
        ("consumers", length(group.consumers.len())),
        ("pending", length(group.pending.len())),
        ("last-delivered-id", Answer::Id(group.last_id)),
        ("entries-read", make_number_or_nil(group.entries_read)),
        ("lag", make_number_or_nil(compute_lag(stream, group))),
    ]?;
    let mut rows = Vec::new(alloc);
    put_rows(alloc, &mut rows, told)?;
    Ok(Answer::Map(rows))
}

/// A number, or nil if it is not known.
fn make_number_or_nil(n: Option<i64>) -> Answer {
    match n {
        Some(n) => Answer::Int(n),
        None => Answer::Nil,
    }
}

/// How many entries the group has still to read, if that is known.
fn compute_lag(stream: &Stream, group: &Group) -> Option<i64> {
    if stream.entries_added == 0 {
        return Some(0);
    }
    if !stream.has_tombstone_from(group.last_id) {
        if let Some(n) = group.entries_read {
            return Some(stream.entries_added.wrapping_sub(n));
        }
    }
    let n = stream.distance(group.last_id)?;
    Some(stream.entries_added.wrapping_sub(n))
}

/// `XINFO CONSUMERS key group`
fn describe_consumers(alloc: Global, group: &Group, now: u64) -> Result<Answer, AllocError>
    ensures { IfOk result IsInfo }
{
    let mut all = Vec::new(alloc);
    for consumer in &group.consumers {
        put(&mut all, describe_consumer(alloc, consumer, now)?)?;
    }
    Ok(Answer::Array(all))
}

/// The reply of XINFO CONSUMERS about one consumer.
fn describe_consumer(alloc: Global, consumer: &Consumer, now: u64) -> Result<Answer, AllocError> {
    let name = bytes_answer(alloc, &consumer.name)?;
    let told = vec![in alloc;
        ("name", name),
        ("pending", number(consumer.pending)),
        ("idle", number(now.saturating_sub(consumer.seen_at))),
    ]?;
    let mut rows = Vec::new(alloc);
    put_rows(alloc, &mut rows, told)?;
    Ok(Answer::Map(rows))
}
