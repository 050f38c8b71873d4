//! A consumer reads again the entries that are pending for it.
ghost use Rattle.std.specs.Prelude.{◌≡◌, ◌++◌, ◌∷◌, [], false, map, IfOk, OnErr, OnOk};
ghost use Rattle.std.specs.List.{AllByRecursion, Contains};
ghost use Rattle.server_store.specs.Consumers.{HasRoom};
ghost use Rattle.server_store.specs.Laws.{AreInOrder, IsInOrder};
ghost use Rattle.server_commands.specs.Acknowledging.{names_of};
ghost use Rattle.server_commands.specs.Claiming.{after_claim, entry_with, ids_of, taken_over};
ghost use Rattle.server_commands.specs.Kinds.{IsRows};
ghost use Rattle.server_commands.specs.Rereading.{AreOwn, DeliversAgain, IsReadyAgain, IsSeenAlone, own_behind};
ghost use Rattle.server_commands.specs.Rereading.{sent_first, sent_own, with_entries};
ghost use Rattle.server_commands.specs.Sent.{sent};

use super::{Reader, reply_with_row};
use crate::answer::Answer;
use crate::commands::answers::{array, entry_answer, put};
use crate::commands::places::place_of_consumer;
use server_store::{EntryId, Group, Pending, Room, Stream};
use std::alloc::{AllocError, Global};

/// The pending entries that a consumer reads again, before the group is changed.
#[derive(Drop)]
pub(super) struct Rereading {
    pub(super) answer: Answer,
    /// Those that are still in the stream.
    delivered: Vec<Pending>,
    /// Memory for the consumer.
    room: Room,
}

/// Reads the entries after the id that are pending for the consumer.
pub(super) fn read_own(
    alloc: Global,
    stream: &Stream,
    group: &Group,
    key: &[u8],
    reader: Reader<'_>,
    behind: EntryId,
) -> Result<Rereading, AllocError>
    ensures rows { IfOk result (λ read. IsRows read.answer) }
    ensures ready { IfOk result (IsReadyAgain key.now reader.entry.consumer.now reader.entry.most behind
        stream.now.entries.items group.now) }
{
    let own = find_own(alloc, group, reader.consumer, behind, reader.most)?;
    let answers = make_own_answers(alloc, stream, &own)?;
    let delivered = filter_existing(alloc, stream, &own)?;
    let room = group.room_for(alloc, reader.consumer, 0)?;
    let answer = reply_with_row(alloc, key, answers)?;
    Ok(Rereading {
        answer,
        delivered,
        room,
    })
}

/// Finds the entries after the id that are pending for the consumer of this name, `most` at most.
fn find_own(
    alloc: Global,
    group: &Group,
    consumer: &[u8],
    behind: EntryId,
    most: u64,
) -> Result<Vec<Pending>, AllocError>
    ensures own { IfOk result (λ own. AreOwn consumer.now behind most group.now own.items) }
    ensures contained { IfOk result (λ own. IsInOrder group.now
        → AllByRecursion (Contains group.now.pending.items) own.items) }
{
    match place_of_consumer(group, consumer) {
        Ok(index) => find_pending(alloc, group, group.consumers[index].number, behind, most),
        Err(_) => Ok(Vec::new(alloc)),
    }
}

/// Finds the entries after the id that are pending for the consumer of this number, `most` at most.
fn find_pending(
    alloc: Global,
    group: &Group,
    number: u64,
    behind: EntryId,
    most: u64,
) -> Result<Vec<Pending>, AllocError>
    ensures { IfOk result (λ own. IsInOrder group.now
        → own.items ≡ own_behind number behind most group.now.pending.items) }
{
    let mut own = Vec::new(alloc);
    let mut left = most;
    let mut at = group.pending.start_behind(behind);
    while let Some((after, pending)) = group.pending.next_at(at) {
        at = after;
        if left == 0 {
            break;
        }
        if pending.consumer == number {
            left -= 1;
            own.push(pending)?;
        }
    }
    Ok(own)
}

/// The reply for each of them: with the fields of its entry, or nil if that was deleted.
fn make_own_answers(
    alloc: Global,
    stream: &Stream,
    own: &[Pending],
) -> Result<Vec<Answer>, AllocError>
    ensures { IfOk result (λ answers. AreInOrder stream.now.entries.items → map sent answers.items
        ≡ map (sent_own stream.now.entries.items) own.now) }
{
    let mut answers = Vec::new(alloc);
    for pending in own {
        put(&mut answers, make_own_answer(alloc, stream, pending.id)?)?;
    }
    Ok(answers)
}

/// The reply for the entry with this id, or the id and nil if the entry was deleted.
fn make_own_answer(alloc: Global, stream: &Stream, id: EntryId) -> Result<Answer, AllocError>
    ensures { IfOk result (λ answer. AreInOrder stream.now.entries.items
        → sent answer ≡ sent_first id (entry_with id stream.now.entries.items)) }
{
    match stream.get(id) {
        Some(entry) => entry_answer(alloc, entry),
        None => array(alloc, [Answer::Id(id), Answer::NilArray]),
    }
}

/// Returns those whose entry is still in the stream.
fn filter_existing(
    alloc: Global,
    stream: &Stream,
    own: &[Pending],
) -> Result<Vec<Pending>, AllocError>
    ensures { IfOk result (λ there. AreInOrder stream.now.entries.items
        → there.items ≡ with_entries stream.now.entries.items own.now) }
{
    let mut there = Vec::new(alloc);
    for pending in own {
        put_there(stream, &mut there, *pending)?;
    }
    Ok(there)
}

/// Appends it if its entry is still in the stream.
fn put_there(stream: &Stream, there: &mut Vec<Pending>, pending: Pending) -> Result<(), AllocError>
    ensures { OnOk result (AreInOrder stream.now.entries.items
        → there.new.items ≡ there.old.items ++ with_entries stream.now.entries.items (pending ∷ [])) }
{
    if stream.get(pending.id).is_none() {
        return Ok(());
    }
    there.push(pending)?;
    Ok(())
}

/// Marks the consumer of the room as seen, and redelivers these to it. With the room, it allocates nothing.
pub(super) fn deliver_again(group: &mut Group, read: Rereading, now: u64) -> Answer
    ensures answer { result ≡ read.answer }
    ensures delivered { HasRoom read.room group.old → IsInOrder group.old
        → AllByRecursion (Contains group.old.pending.items) read.delivered.items
        → DeliversAgain read.room.name.items now (ids_of read.delivered.items) group.old group.new }
{
    let Rereading {
        answer,
        delivered,
        room,
    } = read;
    let Ok(number) = see_alone(group, room, now) else {
        return answer;
    };
    give_again(group, number, now, &delivered);
    answer
}

/// Marks the consumer of the room as seen, and returns its number. With the room, it allocates nothing.
fn see_alone(group: &mut Group, room: Room, now: u64) -> Result<u64, AllocError>
    ensures ok { IfOk result (λ number. IsSeenAlone room.name.items now number group.old group.new) }
    ensures full { OnErr result (HasRoom room group.old → ⊥) }
    ensures pending { group.new.pending.items ≡ group.old.pending.items }
    ensures others { group.new ≡ record group.old {
      pending = group.new.pending;
      consumers = group.new.consumers;
      next_number = group.new.next_number;
    } }
{
    match place_of_consumer(group, &room.name) {
        Ok(index) => {
            let consumer = &mut group.consumers[index];
            consumer.seen_at = now;
            Ok(consumer.number)
        }
        Err(_) => group.see_in(room, now),
    }
}

/// Redelivers each of these pending entries to the consumer of this number.
fn give_again(group: &mut Group, number: u64, now: u64, delivered: &[Pending])
    ensures pending { IsInOrder group.old → AllByRecursion (Contains group.old.pending.items) delivered.now
        → group.new.pending.items ≡ map (after_claim number now false (ids_of delivered.now)) group.old.pending.items }
    ensures names { names_of group.new.consumers.items ≡ names_of group.old.consumers.items }
    ensures others { group.new ≡ record group.old {
      pending = group.new.pending;
      consumers = group.new.consumers;
    } }
{
    for pending in delivered {
        let _given = group.give(deliver_once_more(*pending, number, now));
    }
}

/// The pending entry, redelivered to the consumer of this number.
fn deliver_once_more(pending: Pending, number: u64, now: u64) -> Pending
    ensures { result ≡ taken_over number now false pending }
{
    Pending {
        id: pending.id,
        consumer: number,
        given_at: now,
        deliveries: pending.deliveries.saturating_add(1),
    }
}
