//! `XADD`.
ghost use Rattle.std.specs.Prelude.{◌≡◌, IfOk, IfSome, None, OnErr};
ghost use Rattle.std.specs.declared.cmp.Ordering.TheVariants.{Less};
ghost use Rattle.server_commands.specs.Adding.{IsAdded, IsIdFor, IsXadd};
ghost use Rattle.server_commands.specs.IdWords.{Fits};
ghost use Rattle.server_commands.specs.Nodes.{IsInNode};
ghost use Rattle.server_commands.specs.Streams.{seen_streams};
ghost use Rattle.server_store.specs.Order.{id_order};
ghost use Rattle.server_store.specs.Stream.{seen_stream};

use super::SYNTAX;
use super::new_ids::NewId;
use super::places::place_of;
use super::retention::{Retention, retention_in};
use crate::answer::Answer;
use crate::refusal::Refusal;
use server_store::{EntryId, Stream};
use std::alloc::Global;

const NOT_ABOVE: Refusal = Refusal::Fixed(
    "ERR The ID specified in XADD is equal or smaller than the target stream top item",
);

/// `XADD key [NOMKSTREAM] [MAXLEN | MINID [= | ~] threshold [LIMIT count]] id field value ..`
pub(super) fn add(
    alloc: Global,
    streams: &mut Vec<Stream>,
    node_entries: u64,
    now: u64,
    mut command: Vec<Vec<u8>>,
) -> Result<Answer, Refusal>
    ensures ok { IfOk result (λ answer. IsXadd command.items now answer streams.old.items
        streams.new.items) }
    ensures err { OnErr result (seen_streams streams.new ≡ seen_streams streams.old) }
{
    let [_, key, words @ ..] = command.as_slice() else {
        return Err(SYNTAX);
    };
    let options = retention_in(words, true, node_entries)?;
    let first = 2usize.saturating_add(options.len);
    check(&options, command.len().saturating_sub(first))?;
    let key = Vec::from_slice(alloc, key)?;
    if first > command.len() {
        return Err(SYNTAX);
    }
    let fields = command.split_off(first)?;
    match place_of(streams, &key) {
        Ok(index) => append(&mut streams[index], node_entries, &options, now, fields),
        Err(index) => {
            if !options.makes_stream {
                return Ok(Answer::Nil);
            }
            let mut stream = Stream::new(alloc, key);
            let answer = append(&mut stream, node_entries, &options, now, fields)?;
            streams.insert(index, stream)?;
            Ok(answer)
        }
    }
}

/// Whether there are fields in pairs, and an id that an entry may have.
fn check(options: &Retention, fields: usize) -> Result<(), Refusal> {
    if fields < 2 || fields % 2 == 1 {
        return Err(Refusal::Fixed("ERR wrong number of arguments for 'xadd' command"));
    }
    if matches!(options.id, NewId::Given(id) if id == EntryId::ZERO) {
        return Err(Refusal::Fixed("ERR The ID specified in XADD must be greater than 0-0"));
    }
    Ok(())
}

/// Appends an entry and trims the stream, whose nodes have at most `node_entries` entries.
fn append(
    stream: &mut Stream,
    node_entries: u64,
    options: &Retention,
    now: u64,
    fields: Vec<Vec<u8>>,
) -> Result<Answer, Refusal>
    ensures ok { IfOk result (λ answer. IsAdded fields options.now now answer stream.old stream.new) }
    ensures nodes { options.now.trim ≡ None → IfOk result (λ answer. IsInNode node_entries answer
        stream.old.nodes.items stream.new.nodes.items) }
    ensures err { OnErr result (seen_stream stream.new ≡ seen_stream stream.old) }
{
    if stream.last_id == EntryId::LAST {
        return Err(Refusal::Fixed(
            "ERR The stream has exhausted the last possible ID, unable to add more items",
        ));
    }
    let Some(id) = choose_id(stream.last_id, options.id, now) else {
        return Err(NOT_ABOVE);
    };
    stream.append(id, fields, node_entries)?;
    if let Some(trim) = options.trim {
        let _count = stream.trim(trim);
    }
    Ok(Answer::Id(id))
}

/// The id of a new entry, if there is one after the last one.
fn choose_id(last: EntryId, wanted: NewId, now: u64) -> Option<EntryId>
    ensures above { IfSome result (λ id. id_order last id ≡ Less) }
    ensures wanted { IfSome result (IsIdFor last wanted now) }
    ensures fit { IfSome result Fits }
{
    let id = match wanted {
        NewId::Automatic if now > last.milliseconds => EntryId {
            milliseconds: now,
            sequence: 0,
        },
        NewId::Automatic => last.next()?,
        NewId::Within(milliseconds) if milliseconds == last.milliseconds => EntryId {
            milliseconds,
            sequence: last.sequence.checked_add(1)?,
        },
        NewId::Within(milliseconds) => EntryId {
            milliseconds,
            sequence: 0,
        },
        NewId::Given(id) => id,
    };
    if id > last { Some(id) } else { None }
}
