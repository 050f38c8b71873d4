//! `XAUTOCLAIM`.
ghost use Rattle.std.specs.Prelude.{◌≡◌, ◌*◌, ◌-◌, ◌^◌, false, length, map, min, IfOk, OnErr};
ghost use Rattle.std.specs.List.{AllByRecursion, Contains};
ghost use Rattle.server_store.specs.Consumers.{HasRoom};
ghost use Rattle.server_store.specs.Laws.{AreInOrder, IsInOrder};
ghost use Rattle.server_commands.specs.Acknowledging.{names_of};
ghost use Rattle.server_commands.specs.Claiming.{IsXautoclaim, Settles, TakesOver, after_claim, entries_with};
ghost use Rattle.server_commands.specs.Claiming.{ids_of, sent_claim, sent_claimed, sent_id, taken_over};
ghost use Rattle.server_commands.specs.Sent.{sent};
ghost use Rattle.server_commands.specs.Stalled.{IsFound};

use super::answers::{array, claimed_answer, put};
use super::places::{place_of, place_of_group};
use super::remove::acknowledge_all;
use super::words::is_word;
use super::{SYNTAX, make_key_or_group_error, parse_integer, parse_interval_start};
use crate::answer::Answer;
use crate::refusal::Refusal;
use server_store::{EntryId, Group, Pending, Room, Stream};
use std::alloc::{AllocError, Global};

/// Which entries are claimed, and by whom.
#[derive(Clone, Copy)]
struct Claim<'a> {
    consumer: &'a [u8],
    now: u64,
    least_idle: u64,
    start: EntryId,
    most: u64,
    only_ids: bool,
}

/// What a claim of stalled entries finds.
#[derive(Drop)]
struct Stalled {
    claimed: Vec<Pending>,
    /// Those that were deleted from the stream.
    gone: Vec<EntryId>,
    /// The start of the next claim; 0-0 at the end.
    next: EntryId,
}

/// `XAUTOCLAIM key group consumer min-idle start [COUNT count] [JUSTID]`. All memory is allocated before the
/// group is changed.
pub(super) fn claim_stalled(
    alloc: Global,
    streams: &mut [Stream],
    now: u64,
    arguments: &[Vec<u8>],
) -> Result<Answer, Refusal>
    ensures ok { IfOk result (λ answer. IsXautoclaim arguments.now now answer streams.old streams.new) }
    ensures err { OnErr result (streams.new ≡ streams.old) }
{
    let [key, name, consumer, least_idle, start, words @ ..] = arguments else {
        return Err(SYNTAX);
    };
    let claim = parse_claim(consumer, now, least_idle, start, words)?;
    let Ok(index) = place_of(streams, key) else {
        return Err(make_key_or_group_error(alloc, key, name));
    };
    let Ok(place) = place_of_group(&streams[index], name) else {
        return Err(make_key_or_group_error(alloc, key, name));
    };
    let stream = &streams[index];
    let group = &stream.groups[place];
    let stalled = find_stalled(alloc, stream, group, &claim)?;
    let room = group.room_for(alloc, consumer, 0)?;
    let answer = make_answer(alloc, stream, &stalled, claim.only_ids)?;
    settle(&mut streams[index].groups[place], &claim, &stalled, room);
    Ok(answer)
}

/// The start of the next claim, the entries that the consumer takes over, and the deleted ids.
fn make_answer(
    alloc: Global,
    stream: &Stream,
    stalled: &Stalled,
    only_ids: bool,
) -> Result<Answer, AllocError>
    ensures { IfOk result (λ answer. AreInOrder stream.now.entries.items → sent answer
        ≡ sent_claim stalled.now.next (map (sent_claimed only_ids)
        (entries_with (ids_of stalled.now.claimed.items) stream.now.entries.items)) stalled.now.gone.items) }
{
    let claimed = make_claimed_answers(alloc, stream, &stalled.claimed, only_ids)?;
    let gone = make_id_answers(alloc, &stalled.gone)?;
    let next = Answer::Id(stalled.next);
    array(alloc, [next, Answer::Array(claimed), Answer::Array(gone)])
}

/// The entries of what is claimed, or their ids.
fn make_claimed_answers(
    alloc: Global,
    stream: &Stream,
    claimed: &[Pending],
    only_ids: bool,
) -> Result<Vec<Answer>, AllocError>
    ensures { IfOk result (λ answers. AreInOrder stream.now.entries.items → map sent answers.items
        ≡ map (sent_claimed only_ids) (entries_with (ids_of claimed.now) stream.now.entries.items)) }
{
    let mut answers = Vec::new(alloc);
    for pending in claimed {
        if let Some(entry) = stream.get(pending.id) {
            put(&mut answers, claimed_answer(alloc, entry, only_ids)?)?;
        }
    }
    Ok(answers)
}

/// Ids as replies.
fn make_id_answers(alloc: Global, ids: &[EntryId]) -> Result<Vec<Answer>, AllocError>
    ensures { IfOk result (λ answers. map sent answers.items ≡ map sent_id ids.now) }
{
    let mut answers = Vec::new(alloc);
    for id in ids {
        put(&mut answers, Answer::Id(*id))?;
    }
    Ok(answers)
}

/// Gives the claimed entries to the consumer, which is seen if there is one. Deleted entries are removed from
/// the pending ones. With the room, it allocates nothing.
fn settle(group: &mut Group, claim: &Claim<'_>, stalled: &Stalled, room: Room)
    ensures { HasRoom room group.old → IsInOrder group.old
        → AllByRecursion (Contains group.old.pending.items) stalled.now.claimed.items
        → Settles room.name.items claim.entry.now stalled.now group.old group.new }
{
    if !stalled.claimed.is_empty() {
        take_over(group, claim, &stalled.claimed, room);
    }
    let _count = acknowledge_all(group, &stalled.gone);
}

/// Marks the consumer as seen, and gives it what it claims.
fn take_over(group: &mut Group, claim: &Claim<'_>, claimed: &[Pending], room: Room)
    ensures { HasRoom room group.old → IsInOrder group.old
        → AllByRecursion (Contains group.old.pending.items) claimed.now
        → TakesOver room.name.items claim.entry.now.now claim.entry.now.only_ids (ids_of claimed.now)
        group.old group.new }
{
    let Ok(number) = group.see_in(room, claim.now) else {
        return;
    };
    give_all(group, claim, number, claimed);
}

/// Gives each of the pending entries to the consumer of this number.
fn give_all(group: &mut Group, claim: &Claim<'_>, number: u64, claimed: &[Pending])
    ensures pending { IsInOrder group.old → AllByRecursion (Contains group.old.pending.items) claimed.now
        → group.new.pending.items ≡ map (after_claim number claim.entry.now.now claim.entry.now.only_ids
        (ids_of claimed.now)) group.old.pending.items }
    ensures names { names_of group.new.consumers.items ≡ names_of group.old.consumers.items }
    ensures others { group.new ≡ record group.old {
      pending = group.new.pending;
      consumers = group.new.consumers;
    } }
{
    for pending in claimed {
        let _given = group.give(take_over_one(*pending, number, claim));
    }
}

/// What is pending, given to the consumer of this number.
fn take_over_one(pending: Pending, number: u64, claim: &Claim<'_>) -> Pending
    ensures { result ≡ taken_over number claim.entry.now.now claim.entry.now.only_ids pending }
{
    let more = if claim.only_ids { 0 } else { 1 };
    Pending {
        id: pending.id,
        consumer: number,
        given_at: claim.now,
        deliveries: pending.deliveries.saturating_add(more),
    }
}

/// The arguments after the names of the key and the group.
fn parse_claim<'a>(
    consumer: &'a [u8],
    now: u64,
    least_idle: &[u8],
    start: &[u8],
    words: &[Vec<u8>],
) -> Result<Claim<'a>, Refusal>
    ensures now { IfOk result (λ claim. claim.now ≡ now) }
    ensures plain { IfOk result (λ claim. length words.now ≡ 0 → claim.only_ids ≡ false) }
{
    let Some(least_idle) = parse_integer(least_idle) else {
        return Err(Refusal::Fixed("ERR Invalid min-idle-time argument for XAUTOCLAIM"));
    };
    let mut claim = Claim {
        consumer,
        now,
        least_idle: u64::try_from(least_idle).unwrap_or(0),
        start: parse_interval_start(start)?,
        most: 100,
        only_ids: false,
    };
    let mut rest = words;
    for _ in 0..words.len() {
        if rest.is_empty() {
            break;
        }
        rest = parse_option(&mut claim, rest)?;
    }
    Ok(claim)
}

/// Parses one option, and returns the words after it.
fn parse_option<'w>(claim: &mut Claim<'_>, words: &'w [Vec<u8>]) -> Result<&'w [Vec<u8>], Refusal>
    ensures { claim.new.now ≡ claim.old.now }
{
    match words {
        [word, text, behind @ ..] if is_word(word, "COUNT") => {
            claim.most = parse_most(text)?;
            Ok(behind)
        }
        [word, behind @ ..] if is_word(word, "JUSTID") => {
            claim.only_ids = true;
            Ok(behind)
        }
        _ => Err(SYNTAX),
    }
}

/// How many entries are claimed at most.
fn parse_most(text: &[u8]) -> Result<u64, Refusal> {
    match u64::try_from(parse_integer(text).unwrap_or(0)) {
        Ok(n) if n > 0 && n <= 576_460_752_303_423_487 => Ok(n),
        _ => Err(Refusal::Fixed("ERR COUNT must be > 0")),
    }
}

/// What the claim finds; it scans ten times as many entries as it may take.
fn find_stalled(
    alloc: Global,
    stream: &Stream,
    group: &Group,
    claim: &Claim<'_>,
) -> Result<Stalled, AllocError>
    ensures { IfOk result (IsFound stream.now group.now claim.entry.now
        (min (claim.entry.now.most * 10) (2 ^ 64 - 1))) }
{
    let mut claimed = Vec::new(alloc);
    let mut gone = Vec::new(alloc);
    let mut next = EntryId::ZERO;
    let mut left = claim.most;
    let mut attempts = claim.most.saturating_mul(10);
    let mut at = group.pending.start(claim.start);
    while let Some((after, pending)) = group.pending.next_at(at) {
        at = after;
        if attempts == 0 || left == 0 {
            next = pending.id;
            break;
        }
        attempts -= 1;
        if stream.get(pending.id).is_none() {
            gone.push(pending.id)?;
            left -= 1;
        } else if claim.now.saturating_sub(pending.given_at) >= claim.least_idle {
            claimed.push(pending)?;
            left -= 1;
        }
    }
    Ok(Stalled {
        claimed,
        gone,
        next,
    })
}
