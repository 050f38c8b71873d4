//! `XCLAIM`.
ghost use Rattle.std.specs.Prelude.{◌≡◌, ◌≤◌, length, OnErr};

use super::answers::{claimed_answer, put};
use super::draft::Draft;
use super::id_words::{id, ids, strict_id};
use super::places::{place_of, place_of_group};
use super::words::{is_word, shown};
use super::{
    SYNTAX, make_refusal, parse_integer, require_group, require_stream, reserve_room, settle,
};
use crate::answer::Answer;
use crate::refusal::Refusal;
use server_store::{EntryId, Group, Pending, Stream};
use std::alloc::{AllocError, Global};

/// The options of XCLAIM.
#[derive(Clone, Copy)]
struct ClaimOptions<'a> {
    consumer: &'a [u8],
    now: u64,
    least_idle: u64,
    given_at: u64,
    deliveries: Option<u64>,
    forces: bool,
    only_ids: bool,
    last_id: EntryId,
}

/// `XCLAIM key group consumer min-idle id .. [IDLE ms] [TIME ms] [RETRYCOUNT n] [FORCE] [JUSTID] [LASTID id]`.
/// All memory is allocated before the group is changed.
pub(super) fn claim(
    alloc: Global,
    streams: &mut [Stream],
    now: u64,
    arguments: &[Vec<u8>],
) -> Result<Answer, Refusal>
    ensures { OnErr result (streams.new ≡ streams.old) }
{
    let Outcome {
        draft,
        wanted,
        answers,
    } = prepare_claim(alloc, streams, now, arguments)?;
    let room = reserve_room(alloc, streams, &draft)?;
    drop_missing(streams, &draft, &wanted);
    settle(streams, draft, room);
    Ok(Answer::Array(answers))
}

/// The changes and the reply of XCLAIM.
#[derive(Drop)]
struct Outcome<'a> {
    draft: Draft<'a>,
    wanted: Vec<EntryId>,
    answers: Vec<Answer>,
}

/// The changes and the reply.
fn prepare_claim<'a>(
    alloc: Global,
    streams: &[Stream],
    now: u64,
    arguments: &'a [Vec<u8>],
) -> Result<Outcome<'a>, Refusal> {
    let [key, name, consumer, least_idle, words @ ..] = arguments else {
        return Err(SYNTAX);
    };
    let stream = require_stream(alloc, streams, key, name)?;
    let group = require_group(alloc, stream, key, name)?;
    let usual = make_usual_options(consumer, now, least_idle)?;
    let (wanted, rest) = words.split_at(count_ids(words));
    let wanted = ids(alloc, wanted)?;
    let options = parse_options(alloc, usual, rest)?;
    let mut part = group.part(alloc, consumer)?;
    if options.last_id > part.last_id {
        part.last_id = options.last_id;
    }
    take_up(group, &mut part, &wanted)?;
    let answers = claim_all(alloc, stream, &mut part, &wanted, &options)?;
    Ok(Outcome {
        draft: Draft { key, name, part },
        wanted,
        answers,
    })
}

/// Copies the pending ones of these entries into the part.
fn take_up(group: &Group, part: &mut Group, ids: &[EntryId]) -> Result<(), AllocError> {
    for id in ids {
        if let Some(pending) = group.get(*id) {
            part.give(pending)?;
        }
    }
    Ok(())
}

/// Removes those of these entries from the group that are no longer pending in the part.
fn drop_missing(streams: &mut [Stream], draft: &Draft<'_>, ids: &[EntryId]) {
    let Ok(index) = place_of(streams, draft.key) else {
        return;
    };
    let Ok(place) = place_of_group(&streams[index], draft.name) else {
        return;
    };
    let group = &mut streams[index].groups[place];
    for id in ids {
        if draft.part.get(*id).is_none() {
            let _was_pending = group.acknowledge(*id);
        }
    }
}

/// The options of a claim without any.
fn make_usual_options<'a>(
    consumer: &'a [u8],
    now: u64,
    least_idle: &[u8],
) -> Result<ClaimOptions<'a>, Refusal> {
    let Some(least_idle) = parse_integer(least_idle) else {
        return Err(Refusal::Fixed("ERR Invalid min-idle-time argument for XCLAIM"));
    };
    Ok(ClaimOptions {
        consumer,
        now,
        least_idle: u64::try_from(least_idle).unwrap_or(0),
        given_at: now,
        deliveries: None,
        forces: false,
        only_ids: false,
        last_id: EntryId::ZERO,
    })
}

/// How many of the first words are ids.
fn count_ids(words: &[Vec<u8>]) -> usize
    ensures { result ≤ length words.now }
{
    words
        .iter()
        .take_while(|word| strict_id(word, 0).is_some())
        .count()
}

/// Claims the entries one by one; those that were deleted from the stream are removed from the pending entries.
fn claim_all(
    alloc: Global,
    stream: &Stream,
    group: &mut Group,
    wanted: &[EntryId],
    options: &ClaimOptions<'_>,
) -> Result<Vec<Answer>, AllocError> {
    let mut answers = Vec::new(alloc);
    for id in wanted {
        let Some(entry) = stream.get(*id) else {
            let _was_pending = group.acknowledge(*id);
            continue;
        };
        let Some(deliveries) = compute_deliveries(group, *id, options) else {
            continue;
        };
        // A consumer that claims nothing is not created.
        let number = group.see(alloc, options.consumer, options.now)?;
        group.give(Pending {
            id: *id,
            consumer: number,
            given_at: options.given_at,
            deliveries,
        })?;
        put(
            &mut answers,
            claimed_answer(alloc, entry, options.only_ids)?,
        )?;
    }
    Ok(answers)
}

/// The new delivery count of the entry, if it may be claimed.
fn compute_deliveries(group: &Group, id: EntryId, options: &ClaimOptions<'_>) -> Option<u64> {
    let more = if options.only_ids { 0 } else { 1 };
    let usual = match group.get(id) {
        Some(pending) => {
            if options.now.saturating_sub(pending.given_at) < options.least_idle {
                return None;
            }
            pending.deliveries.saturating_add(more)
        }
        None => {
            if !options.forces {
                return None;
            }
            1 + more
        }
    };
    Some(options.deliveries.unwrap_or(usual))
}

/// The options after the ids, in any order; the last of a kind counts.
fn parse_options<'a>(
    alloc: Global,
    usual: ClaimOptions<'a>,
    words: &[Vec<u8>],
) -> Result<ClaimOptions<'a>, Refusal> {
    let mut options = usual;
    let mut rest = words;
    for _ in 0..words.len() {
        if rest.is_empty() {
            break;
        }
        rest = parse_option(alloc, &mut options, rest)?;
    }
    Ok(options)
}

/// Parses one option, and returns the words after it.
fn parse_option<'w>(
    alloc: Global,
    options: &mut ClaimOptions<'_>,
    words: &'w [Vec<u8>],
) -> Result<&'w [Vec<u8>], Refusal> {
    let [word, behind @ ..] = words else {
        return Ok(words);
    };
    if is_word(word, "FORCE") {
        options.forces = true;
        return Ok(behind);
    }
    if is_word(word, "JUSTID") {
        options.only_ids = true;
        return Ok(behind);
    }
    let [text, behind @ ..] = behind else {
        return Err(make_option_error(alloc, word));
    };
    put_option(alloc, options, word, text)?;
    Ok(behind)
}

/// Parses the option of this name.
fn put_option(
    alloc: Global,
    options: &mut ClaimOptions<'_>,
    word: &[u8],
    text: &[u8],
) -> Result<(), Refusal> {
    if is_word(word, "IDLE") {
        options.given_at = parse_idle(options.now, text)?;
    } else if is_word(word, "TIME") {
        options.given_at = parse_time(options.now, text)?;
    } else if is_word(word, "RETRYCOUNT") {
        options.deliveries = parse_deliveries(text)?;
    } else if is_word(word, "LASTID") {
        options.last_id = id(text)?;
    } else {
        return Err(make_option_error(alloc, word));
    }
    Ok(())
}

/// The time this many milliseconds ago; `now` for a negative number or one above `now`.
fn parse_idle(now: u64, text: &[u8]) -> Result<u64, Refusal> {
    match parse_integer(text) {
        Some(idle) => match u64::try_from(idle) {
            Ok(idle) => Ok(now.checked_sub(idle).unwrap_or(now)),
            Err(_) => Ok(now),
        },
        None => Err(Refusal::Fixed("ERR Invalid IDLE option argument for XCLAIM")),
    }
}

/// The time; `now` if it is in the future or negative.
fn parse_time(now: u64, text: &[u8]) -> Result<u64, Refusal> {
    match parse_integer(text) {
        Some(time) => match u64::try_from(time) {
            Ok(time) => Ok(time.min(now)),
            Err(_) => Ok(now),
        },
        None => Err(Refusal::Fixed("ERR Invalid TIME option argument for XCLAIM")),
    }
}

/// The delivery count of RETRYCOUNT.
fn parse_deliveries(text: &[u8]) -> Result<Option<u64>, Refusal> {
    match parse_integer(text) {
        Some(n) => Ok(u64::try_from(n).ok()),
        None => Err(Refusal::Fixed("ERR Invalid RETRYCOUNT option argument for XCLAIM")),
    }
}

/// The error for an option that XCLAIM does not have.
fn make_option_error(alloc: Global, word: &[u8]) -> Refusal {
    let word = shown(word, usize::MAX);
    make_refusal(alloc, &[b"ERR Unrecognized XCLAIM option '", word, b"'"])
}
