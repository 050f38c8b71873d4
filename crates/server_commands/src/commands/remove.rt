//! `XDEL`, `XTRIM`, `XACK`, `XSETID`, `DEL`.
ghost use Rattle.std.specs.Prelude.{◌≡◌, ◌≤◌, ◌-◌, drop, length, vec_len, IfErr, IfOk, OnErr};
ghost use Rattle.server_commands.specs.Acknowledging.{AcknowledgesIn, AreAcknowledged};
ghost use Rattle.server_commands.specs.Deleting.{AreDeleted, DeletesIn};
ghost use Rattle.server_commands.specs.IdWords.{IsRefusedFor};
ghost use Rattle.server_commands.specs.Removing.{AreRemoved, IsWithout};

use super::id_words::{id, ids};
use super::places::{place_of, place_of_group};
use super::retention::retention_in;
use super::words::is_word;
use super::{SYNTAX, require_integer};
use crate::answer::Answer;
use crate::refusal::Refusal;
use server_store::{EntryId, Group, Stream};
use std::alloc::Global;

/// `DEL key ..`: how many of the streams were there.
pub(super) fn remove_keys(streams: &mut Vec<Stream>, keys: &[Vec<u8>]) -> usize
    ensures count { result ≡ vec_len streams.old - vec_len streams.new }
    ensures removed { AreRemoved keys.now result streams.old.items streams.new.items }
{
    let before = streams.len();
    for key in keys {
        remove_key(streams, key);
    }
    before.saturating_sub(streams.len())
}

/// Removes the stream of this key, if there is one.
fn remove_key(streams: &mut Vec<Stream>, key: &[u8])
    ensures { IsWithout key.now streams.old.items streams.new.items }
{
    if let Ok(index) = place_of(streams, key) {
        let _stream = streams.remove(index);
    }
}

/// `XDEL key id ..`
pub(super) fn delete(
    alloc: Global,
    streams: &mut [Stream],
    arguments: &[Vec<u8>],
) -> Result<Answer, Refusal>
    ensures ok { IfOk result (λ answer. DeletesIn arguments.now answer streams.old streams.new) }
    ensures err { OnErr result (streams.new ≡ streams.old) }
    ensures refused { IfErr result (λ e. 1 ≤ length arguments.now
        → IsRefusedFor (drop 1 arguments.now) e) }
{
    let [key, words @ ..] = arguments else {
        return Err(SYNTAX);
    };
    let Ok(index) = place_of(streams, key) else {
        return Ok(Answer::Int(0));
    };
    let ids = ids(alloc, words)?;
    Ok(super::length(remove_all(&mut streams[index], &ids)))
}

/// Removes the entries, and counts those that were there.
fn remove_all(stream: &mut Stream, ids: &[EntryId]) -> usize
    ensures { AreDeleted ids.now result stream.old stream.new }
{
    let before = stream.entries.len();
    for id in ids {
        let _was_there = stream.remove(*id);
    }
    before.saturating_sub(stream.entries.len())
}

/// `XTRIM key MAXLEN | MINID [= | ~] threshold [LIMIT count]`
pub(super) fn trim(
    streams: &mut [Stream],
    node_entries: u64,
    arguments: &[Vec<u8>],
) -> Result<Answer, Refusal>
    ensures { OnErr result (streams.new ≡ streams.old) }
{
    let [key, words @ ..] = arguments else {
        return Err(SYNTAX);
    };
    let Some(trim) = retention_in(words, false, node_entries)?.trim else {
        return Err(Refusal::Fixed(
            "ERR syntax error, XTRIM must be called with a trimming strategy",
        ));
    };
    match place_of(streams, key) {
        Ok(index) => Ok(super::length(streams[index].trim(trim))),
        Err(_) => Ok(Answer::Int(0)),
    }
}

/// `XACK key group id ..`
pub(super) fn acknowledge(
    alloc: Global,
    streams: &mut [Stream],
    arguments: &[Vec<u8>],
) -> Result<Answer, Refusal>
    ensures ok { IfOk result (λ answer. AcknowledgesIn arguments.now answer streams.old streams.new) }
    ensures err { OnErr result (streams.new ≡ streams.old) }
    ensures refused { IfErr result (λ e. 2 ≤ length arguments.now
        → IsRefusedFor (drop 2 arguments.now) e) }
{
    let [key, name, words @ ..] = arguments else {
        return Err(SYNTAX);
    };
    let Ok(index) = place_of(streams, key) else {
        return Ok(Answer::Int(0));
    };
    let Ok(place) = place_of_group(&streams[index], name) else {
        return Ok(Answer::Int(0));
    };
    let ids = ids(alloc, words)?;
    Ok(super::length(acknowledge_all(&mut streams[index].groups[place], &ids)))
}

/// Acknowledges the entries, and counts those that were pending.
pub(super) fn acknowledge_all(group: &mut Group, ids: &[EntryId]) -> usize
    ensures { AreAcknowledged ids.now result group.old group.new }
{
    let before = group.pending.len();
    for id in ids {
        let _was_pending = group.acknowledge(*id);
    }
    before.saturating_sub(group.pending.len())
}

/// What XSETID sets.
#[derive(Clone, Copy)]
struct NewState {
    last_id: EntryId,
    entries_added: Option<i64>,
    max_deleted_id: Option<EntryId>,
}

/// `XSETID key last-id [ENTRIESADDED n MAXDELETEDID id]`
pub(super) fn set_id(streams: &mut [Stream], arguments: &[Vec<u8>]) -> Result<Answer, Refusal>
    ensures { OnErr result (streams.new ≡ streams.old) }
{
    let [key, last, options @ ..] = arguments else {
        return Err(SYNTAX);
    };
    let state = parse_state(last, options)?;
    let Ok(index) = place_of(streams, key) else {
        return Err(Refusal::Fixed("ERR no such key"));
    };
    let stream = &streams[index];
    if let Some(entry) = stream.entries.back() {
        if state.last_id < entry.id {
            return Err(Refusal::Fixed(
                "ERR The ID specified in XSETID is smaller than the target stream top item",
            ));
        }
        let len = i64::try_from(stream.entries.len()).unwrap_or(i64::MAX);
        if matches!(state.entries_added, Some(added) if added < len) {
            return Err(Refusal::Fixed(
                "ERR The entries_added specified in XSETID is smaller than the \
                        target stream length",
            ));
        }
    }
    let stream = &mut streams[index];
    stream.last_id = state.last_id;
    if let Some(added) = state.entries_added {
        stream.entries_added = added;
    }
    if let Some(id) = state.max_deleted_id {
        stream.max_deleted_id = id;
    }
    Ok(Answer::Okay)
}

/// The id and the options of XSETID.
fn parse_state(last: &[u8], options: &[Vec<u8>]) -> Result<NewState, Refusal> {
    let last_id = id(last)?;
    let mut state = NewState {
        last_id,
        entries_added: None,
        max_deleted_id: None,
    };
    let mut rest = options;
    for _ in 0..options.len() {
        if rest.is_empty() {
            break;
        }
        rest = parse_option(&mut state, rest)?;
    }
    Ok(state)
}

/// Parses one option, and returns the words after it.
fn parse_option<'w>(state: &mut NewState, words: &'w [Vec<u8>]) -> Result<&'w [Vec<u8>], Refusal> {
    let [word, text, behind @ ..] = words else {
        return Err(SYNTAX);
    };
    if is_word(word, "ENTRIESADDED") {
        state.entries_added = Some(parse_added(text)?);
    } else if is_word(word, "MAXDELETEDID") {
        state.max_deleted_id = parse_deleted(state.last_id, text)?;
    } else {
        return Err(SYNTAX);
    }
    Ok(behind)
}

/// How many entries were added.
fn parse_added(text: &[u8]) -> Result<i64, Refusal> {
    let added = require_integer(text)?;
    if added < 0 {
        return Err(Refusal::Fixed("ERR entries_added must be positive"));
    }
    Ok(added)
}

/// The largest deleted id, which is not above the last one; 0-0 for none.
fn parse_deleted(last_id: EntryId, text: &[u8]) -> Result<Option<EntryId>, Refusal> {
    let deleted = id(text)?;
    if last_id < deleted {
        return Err(Refusal::Fixed(
            "ERR The ID specified in XSETID is smaller than the \
                    provided max_deleted_entry_id",
        ));
    }
    if deleted == EntryId::ZERO {
        Ok(None)
    } else {
        Ok(Some(deleted))
    }
}
