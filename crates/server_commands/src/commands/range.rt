//! `XRANGE`, `XREVRANGE`.
ghost use Rattle.std.specs.Prelude.{IfOk};
ghost use Rattle.server_commands.specs.Kinds.{IsArray};

use super::answers::{entry_answer, put};
use super::places::stream_of;
use super::words::is_word;
use super::{SYNTAX, list_entries_up, parse_interval_end, parse_interval_start, require_count};
use crate::answer::Answer;
use crate::refusal::Refusal;
use server_store::{EntryId, Stream};
use std::alloc::{AllocError, Global};

/// `XRANGE key start end [COUNT count]`, and `XREVRANGE key end start [COUNT count]`
pub(super) fn range(
    alloc: Global,
    streams: &[Stream],
    is_reverse: bool,
    arguments: &[Vec<u8>],
) -> Result<Answer, Refusal>
    ensures { IfOk result IsArray }
{
    let [key, left, right, options @ ..] = arguments else {
        return Err(SYNTAX);
    };
    let (low, high) = if is_reverse {
        (right, left)
    } else {
        (left, right)
    };
    let start = parse_interval_start(low)?;
    let end = parse_interval_end(high)?;
    let most = parse_most(options)?;
    let Some(stream) = stream_of(streams, key) else {
        return Ok(Answer::Array(Vec::new(alloc)));
    };
    if most == 0 {
        return Ok(Answer::NilArray);
    }
    if is_reverse {
        Ok(Answer::Array(list_entries_down(alloc, stream, start, end, most)?))
    } else {
        Ok(Answer::Array(list_entries_up(alloc, stream, start, end, most)?))
    }
}

/// `[COUNT count]`, no limit if it is missing; the last one counts.
fn parse_most(options: &[Vec<u8>]) -> Result<u64, Refusal> {
    let mut most = u64::MAX;
    let mut rest = options;
    for _ in 0..options.len() {
        match rest {
            [] => break,
            [word, text, behind @ ..] if is_word(word, "COUNT") => {
                most = require_count(text)?;
                rest = behind;
            }
            _ => return Err(SYNTAX),
        }
    }
    Ok(most)
}

/// The last entries up to this id and from that one on, `most` at most, the last one first.
fn list_entries_down(
    alloc: Global,
    stream: &Stream,
    start: EntryId,
    end: EntryId,
    most: u64,
) -> Result<Vec<Answer>, AllocError> {
    let mut answers = Vec::new(alloc);
    let mut left = most;
    let behind = match stream.find_index(end) {
        Ok(index) => index + 1,
        Err(index) => index,
    };
    for entry in stream.entries.range(..behind).rev() {
        if entry.id < start || left == 0 {
            break;
        }
        left -= 1;
        put(&mut answers, entry_answer(alloc, entry)?)?;
    }
    Ok(answers)
}
