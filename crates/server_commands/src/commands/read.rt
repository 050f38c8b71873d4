//! `XREAD`, `XREADGROUP`.
ghost use Rattle.std.specs.Prelude.{◌≡◌, ◌≢◌, ◌≤◌, ◌<◌, codes, drop, false, length, map, IfOk, OnErr, OnOk};
ghost use Rattle.server_commands.specs.Delivering.{HandsOut, IsDelivered, entries_behind};
ghost use Rattle.server_commands.specs.Giving.{IsPut};
ghost use Rattle.server_commands.specs.Kinds.{IsRows};
ghost use Rattle.server_commands.specs.ReadGroup.{ReadsGroup};
ghost use Rattle.server_commands.specs.ReadingOne.{IsFound, IsInRows, IsReadIn};
ghost use Rattle.server_commands.specs.Sent.{array_of, item_list, more_rows, no_rows, rows_of, sent};
ghost use Rattle.server_store.specs.Consumers.{HasRoom};
ghost use Rattle.server_store.specs.Room.{HasPlaces};
ghost use Rattle.server_commands.specs.Reading.{AreFound, AreNews};
ghost use Rattle.server_commands.specs.declared.commands.read.Start.TheVariants.{Behind, News};
ghost use Rattle.server_commands.specs.IdWords.{Fits};
ghost use Rattle.server_commands.specs.Rereading.{IsRereadIn, IsWordOf, largest};
ghost use Rattle.server_store.specs.declared.entry_id.EntryId.{EntryId};
ghost use Rattle.server_store.specs.Laws.{AreInOrder};

mod own;

use super::answers::{array, entry_answer, put};
use super::draft::Draft;
use super::id_words::id;
use super::places::{group_of, place_of, place_of_group, stream_of};
use super::words::{is_word, shown};
use super::{SYNTAX, make_refusal, parse_integer, require_count, reserve_room, settle};
use crate::answer::Answer;
use crate::refusal::Refusal;
use own::{deliver_again, read_own};
use server_store::{EntryId, Group, Pending, Room, Stream};
use std::alloc::{AllocError, Global};

/// Where the reading of a stream begins.
#[derive(Clone, Copy)]
enum Start {
    /// After this id.
    Behind(EntryId),
    /// After the last entry that the group delivered.
    News,
}

/// A consumer of a group.
#[derive(Clone, Copy)]
struct Reader<'a> {
    group: &'a [u8],
    consumer: &'a [u8],
    /// `NOACK`
    noack: bool,
    now: u64,
    most: u64,
}

/// The options of XREAD and XREADGROUP, and what is after `STREAMS`.
#[derive(Clone, Copy)]
struct ReadOptions<'a> {
    /// No limit if there is no COUNT or it is 0.
    most: u64,
    /// The group and the consumer.
    names: Option<(&'a [u8], &'a [u8])>,
    noack: bool,
    keys: &'a [Vec<u8>],
    ids: &'a [Vec<u8>],
}

/// `XREAD [COUNT n] [BLOCK ms] STREAMS key .. id ..`. It does not wait.
pub(super) fn read(
    alloc: Global,
    streams: &[Stream],
    arguments: &[Vec<u8>],
) -> Result<Answer, Refusal>
    ensures { IfOk result IsRows }
{
    let options = parse_options(arguments, false)?;
    let starts = parse_starts(alloc, streams, &options)?;
    let mut rows = Vec::new(alloc);
    for (key, start) in options.keys.iter().zip(starts) {
        let entries = list_entries_behind(alloc, streams, key, start, options.most)?;
        put_stream(alloc, &mut rows, key, entries)?;
    }
    Ok(reply_with_rows(rows))
}

/// The ids after which XREAD begins.
fn parse_starts(
    alloc: Global,
    streams: &[Stream],
    options: &ReadOptions<'_>,
) -> Result<Vec<EntryId>, Refusal> {
    let mut starts = Vec::new(alloc);
    for (key, text) in options.keys.iter().zip(options.ids) {
        starts.push(parse_start(stream_of(streams, key), text)?)?;
    }
    Ok(starts)
}

/// The entries of the stream of this key after the id, and `None` if there is none.
fn list_entries_behind(
    alloc: Global,
    streams: &[Stream],
    key: &[u8],
    start: EntryId,
    most: u64,
) -> Result<Option<Vec<Answer>>, AllocError> {
    match stream_of(streams, key) {
        Some(stream) => read_behind(alloc, stream, start, most),
        None => Ok(None),
    }
}

/// Appends a row, if there are entries.
fn put_stream(
    alloc: Global,
    rows: &mut Vec<(Vec<u8>, Answer)>,
    key: &[u8],
    entries: Option<Vec<Answer>>,
) -> Result<(), AllocError> {
    let Some(entries) = entries else {
        return Ok(());
    };
    let key = Vec::from_slice(alloc, key)?;
    match rows.push((key, Answer::Array(entries))) {
        Ok(()) => Ok(()),
        Err(_) => Err(AllocError),
    }
}

/// `XREADGROUP GROUP group consumer [COUNT n] [BLOCK ms] [NOACK] STREAMS key .. id ..`. It does not
/// wait. All memory is taken before the first group is changed.
pub(super) fn read_group(
    alloc: Global,
    streams: &mut [Stream],
    now: u64,
    arguments: &[Vec<u8>],
) -> Result<Answer, Refusal>
    ensures rows { IfOk result IsRows }
    ensures one { IfOk result (λ answer. ReadsGroup arguments.now now answer streams.old streams.new) }
    ensures err { OnErr result (streams.new ≡ streams.old) }
{
    match arguments {
        [first, group, consumer, second, key, text]
            if is_word(first, "GROUP") && is_word(second, "STREAMS") => {
            let reader = make_usual_reader(group, consumer, now, u64::MAX);
            read_one(alloc, streams, key, text, reader)
        }
        [first, group, consumer, second, number, third, key, text]
            if is_word(first, "GROUP") && is_word(second, "COUNT") && is_word(third, "STREAMS") => {
            let most = parse_most(u64::MAX, second, number)?;
            let reader = make_usual_reader(group, consumer, now, most);
            read_one(alloc, streams, key, text, reader)
        }
        _ => read_by_options(alloc, streams, now, arguments),
    }
}

/// The consumer of these names, which reads `most` entries, pending for it from then on.
fn make_usual_reader<'a>(group: &'a [u8], consumer: &'a [u8], now: u64, most: u64) -> Reader<'a>
    ensures group { result.group.now ≡ group.now }
    ensures consumer { result.consumer.now ≡ consumer.now }
    ensures others { (result.now ≡ now) × (result.most ≡ most) × (result.noack ≡ false) }
{
    Reader {
        group,
        consumer,
        noack: false,
        now,
        most,
    }
}

/// Reads as the options say.
fn read_by_options(
    alloc: Global,
    streams: &mut [Stream],
    now: u64,
    arguments: &[Vec<u8>],
) -> Result<Answer, Refusal>
    ensures rows { IfOk result IsRows }
    ensures err { OnErr result (streams.new ≡ streams.old) }
{
    let options = parse_options(arguments, true)?;
    let reader = make_reader(&options, now)?;
    if let ([key], [text]) = (options.keys, options.ids) {
        return read_one(alloc, streams, key, text, reader);
    }
    read_all(alloc, streams, &options, reader)
}

/// Reads several streams.
fn read_all<'a>(
    alloc: Global,
    streams: &mut [Stream],
    options: &ReadOptions<'a>,
    reader: Reader<'a>,
) -> Result<Answer, Refusal>
    ensures rows { IfOk result IsRows }
    ensures err { OnErr result (streams.new ≡ streams.old) }
{
    let mut drafts = Vec::new(alloc);
    let rows = read_for_group(alloc, streams, options, reader, &mut drafts)?;
    let rooms = reserve_rooms(alloc, streams, &drafts)?;
    for (draft, room) in drafts.into_iter().zip(rooms) {
        settle(streams, draft, room);
    }
    Ok(reply_with_rows(rows))
}

/// Reserves memory in each of the groups.
fn reserve_rooms(
    alloc: Global,
    streams: &[Stream],
    drafts: &[Draft<'_>],
) -> Result<Vec<Option<Room>>, AllocError> {
    let mut rooms = Vec::with_capacity(alloc, drafts.len())?;
    for draft in drafts {
        rooms.push(reserve_room(alloc, streams, draft)?)?;
    }
    Ok(rooms)
}

/// The reply of XREADGROUP, and its changes of the groups.
fn read_for_group<'a>(
    alloc: Global,
    streams: &[Stream],
    options: &ReadOptions<'a>,
    reader: Reader<'a>,
    drafts: &mut Vec<Draft<'a>>,
) -> Result<Vec<(Vec<u8>, Answer)>, Refusal> {
    let starts = parse_group_starts(alloc, streams, options, reader.group)?;
    let mut rows = Vec::new(alloc);
    for (key, start) in options.keys.iter().zip(starts) {
        let entries = read_stream(alloc, streams, key, reader, start, drafts)?;
        put_stream(alloc, &mut rows, key, entries)?;
    }
    Ok(rows)
}

/// The consumer that reads.
fn make_reader<'a>(options: &ReadOptions<'a>, now: u64) -> Result<Reader<'a>, Refusal> {
    match options.names {
        Some((group, consumer)) => Ok(Reader {
            group,
            consumer,
            noack: options.noack,
            now,
            most: options.most,
        }),
        None => Err(Refusal::Fixed("ERR Missing GROUP option for XREADGROUP")),
    }
}

/// Where XREADGROUP begins in each stream.
fn parse_group_starts(
    alloc: Global,
    streams: &[Stream],
    options: &ReadOptions<'_>,
    group: &[u8],
) -> Result<Vec<Start>, Refusal> {
    let mut starts = Vec::new(alloc);
    for (key, text) in options.keys.iter().zip(options.ids) {
        starts.push(parse_group_start(alloc, streams, key, text, group)?)?;
    }
    Ok(starts)
}

/// Reads the stream of this key for the consumer.
fn read_stream<'a>(
    alloc: Global,
    streams: &[Stream],
    key: &'a [u8],
    reader: Reader<'a>,
    start: Start,
    drafts: &mut Vec<Draft<'a>>,
) -> Result<Option<Vec<Answer>>, Refusal> {
    let Some(stream) = stream_of(streams, key) else {
        return Ok(None);
    };
    let Some(group) = group_of(stream, reader.group) else {
        return Err(SYNTAX);
    };
    let place = find_draft(alloc, group, key, reader, drafts)?;
    match drafts.get_mut(place) {
        Some(draft) => Ok(read_as(alloc, stream, group, &mut draft.part, reader, start)?),
        None => Ok(None),
    }
}

/// The index of the draft of the group; a key may come more than once.
fn find_draft<'a>(
    alloc: Global,
    group: &Group,
    key: &'a [u8],
    reader: Reader<'a>,
    drafts: &mut Vec<Draft<'a>>,
) -> Result<usize, Refusal> {
    if let Some(place) = drafts.iter().position(|draft| draft.key == key) {
        return Ok(place);
    }
    let place = drafts.len();
    drafts.push(Draft {
        key,
        name: reader.group,
        part: group.part(alloc, reader.consumer)?,
    })?;
    Ok(place)
}

/// The rows, or nil if there is none.
fn reply_with_rows(rows: Vec<(Vec<u8>, Answer)>) -> Answer
    ensures { IsRows result }
{
    if rows.is_empty() {
        Answer::NilArray
    } else {
        Answer::Rows(rows)
    }
}

const UNBALANCED: &str = "ERR Unbalanced XREAD list of streams: for each stream key \
    an ID or '$' must be specified.";

const GROUP_ALONE: &str = "ERR The GROUP option is only supported by XREADGROUP. You \
    called XREAD instead.";

const NOACK_ALONE: &str = "ERR The NOACK option is only supported by XREADGROUP. You \
    called XREAD instead.";

/// The options, and the words after `STREAMS`.
fn parse_options(arguments: &[Vec<u8>], is_group: bool) -> Result<ReadOptions<'_>, Refusal> {
    let mut options = ReadOptions {
        most: u64::MAX,
        names: None,
        noack: false,
        keys: &[],
        ids: &[],
    };
    let mut rest = arguments;
    for _ in 0..arguments.len() {
        match rest {
            [word, streams @ ..] if is_word(word, "STREAMS") && !streams.is_empty() => {
                if streams.len() % 2 != 0 {
                    return Err(Refusal::Fixed(UNBALANCED));
                }
                (options.keys, options.ids) = streams.split_at(streams.len() / 2);
                return Ok(options);
            }
            _ => rest = parse_option(&mut options, rest, is_group)?,
        }
    }
    Err(SYNTAX)
}

/// Parses one option, and returns the words after it.
fn parse_option<'a>(
    options: &mut ReadOptions<'a>,
    words: &'a [Vec<u8>],
    is_group: bool,
) -> Result<&'a [Vec<u8>], Refusal> {
    match words {
        [word, behind @ ..] if is_word(word, "NOACK") => {
            if !is_group {
                return Err(Refusal::Fixed(NOACK_ALONE));
            }
            options.noack = true;
            Ok(behind)
        }
        [word, group, consumer, behind @ ..] if is_word(word, "GROUP") => {
            if !is_group {
                return Err(Refusal::Fixed(GROUP_ALONE));
            }
            options.names = Some((group.as_slice(), consumer.as_slice()));
            Ok(behind)
        }
        [word, text, behind @ ..] => {
            options.most = parse_most(options.most, word, text)?;
            Ok(behind)
        }
        _ => Err(SYNTAX),
    }
}

/// Parses `BLOCK ms` or `COUNT n`, and returns how many entries are read at most.
fn parse_most(most: u64, word: &[u8], text: &[u8]) -> Result<u64, Refusal>
    ensures { IfOk result (λ n. 0 < most → 0 < n) }
{
    if is_word(word, "BLOCK") {
        check_timeout(text)?;
        return Ok(most);
    }
    if !is_word(word, "COUNT") {
        return Err(SYNTAX);
    }
    let most = require_count(text)?;
    Ok(if most == 0 { u64::MAX } else { most })
}

/// Whether the text is a timeout.
fn check_timeout(text: &[u8]) -> Result<(), Refusal> {
    match parse_integer(text) {
        Some(n) if n < 0 => Err(Refusal::Fixed("ERR timeout is negative")),
        Some(_) => Ok(()),
        None => Err(Refusal::Fixed("ERR timeout is not an integer or out of range")),
    }
}

const NEWS_ALONE: &str = "ERR The > ID can be specified only when calling XREADGROUP \
    using the GROUP <group> <consumer> option.";

const NO_DOLLAR: &str = "ERR The $ ID is meaningless in the context of XREADGROUP: \
    you want to read the history of this consumer by specifying a proper ID, or use the > \
    ID to get new messages. The $ ID would just return an empty result set.";

/// The id after which XREAD begins; `$` is the last one.
fn parse_start(stream: Option<&Stream>, text: &[u8]) -> Result<EntryId, Refusal> {
    if text == b"$".as_slice() {
        return match stream {
            Some(stream) => Ok(stream.last_id),
            None => Ok(EntryId::ZERO),
        };
    }
    if text == b">".as_slice() {
        return Err(Refusal::Fixed(NEWS_ALONE));
    }
    id(text)
}

/// Where XREADGROUP begins; the largest id means `>` too.
fn parse_group_start(
    alloc: Global,
    streams: &[Stream],
    key: &[u8],
    text: &[u8],
    group: &[u8],
) -> Result<Start, Refusal>
    ensures news { IfOk result (λ start. text.now ≡ codes ">" → start ≡ News) }
    ensures behind { IfOk result (λ start. (id : EntryId) → Fits id → id ≢ largest → IsWordOf id text.now
        → start ≡ Behind id) }
{
    let has_group = match stream_of(streams, key) {
        Some(stream) => group_of(stream, group).is_some(),
        None => false,
    };
    if !has_group {
        return Err(make_refusal(
            alloc,
            &[
                b"NOGROUP No such key '",
                shown(key, usize::MAX),
                b"' or consumer group '",
                shown(group, usize::MAX),
                b"' in XREADGROUP with GROUP option",
            ],
        ));
    }
    if text == b"$".as_slice() {
        return Err(Refusal::Fixed(NO_DOLLAR));
    }
    if text == b">".as_slice() {
        return Ok(Start::News);
    }
    let behind = id(text)?;
    if behind == EntryId::LAST {
        Ok(Start::News)
    } else {
        Ok(Start::Behind(behind))
    }
}

/// The first entries after the id, and `None` if there is none.
fn read_behind(
    alloc: Global,
    stream: &Stream,
    behind: EntryId,
    most: u64,
) -> Result<Option<Vec<Answer>>, AllocError>
    ensures { IfOk result (λ found. AreInOrder stream.now.entries.items
        → AreFound most (entries_behind behind stream.now.entries.items) found) }
{
    let start = find_start_behind(stream, behind);
    if start == stream.entries.len() {
        return Ok(None);
    }
    let mut answers = Vec::new(alloc);
    let mut left = most;
    for entry in stream.entries.range(start..) {
        if left == 0 {
            break;
        }
        left -= 1;
        put(&mut answers, entry_answer(alloc, entry)?)?;
    }
    Ok(Some(answers))
}

/// The entries that are delivered to the consumer, and `None` if there are none; such a consumer is not
/// created.
fn read_as(
    alloc: Global,
    stream: &Stream,
    group: &Group,
    part: &mut Group,
    reader: Reader<'_>,
    start: Start,
) -> Result<Option<Vec<Answer>>, AllocError>
    ensures { IfOk result (λ found. start ≡ News → AreNews reader.entry.consumer.now reader.entry.now
        reader.entry.most reader.entry.noack stream.now.entries.items part.old part.new found) }
{
    match start {
        Start::Behind(behind) => {
            let number = part.see(alloc, reader.consumer, reader.now)?;
            let Some(first) = behind.next() else {
                return Ok(Some(Vec::new(alloc)));
            };
            take_up(group, part, number, first, reader.most)?;
            Ok(Some(reread(alloc, stream, part, reader, first)?))
        }
        Start::News => {
            let Some(answers) = read_behind(alloc, stream, part.last_id, reader.most)? else {
                return Ok(None);
            };
            deliver_new(alloc, stream, part, reader)?;
            Ok(Some(answers))
        }
    }
}

/// Copies what is pending in the group for the consumer of this number from the id on, as much as is read, into
/// the part.
fn take_up(
    group: &Group,
    part: &mut Group,
    number: u64,
    first: EntryId,
    most: u64,
) -> Result<(), AllocError> {
    let mut left = most;
    let mut at = group.pending.start(first);
    while let Some((after, pending)) = group.pending.next_at(at) {
        at = after;
        if left == 0 {
            break;
        }
        if pending.consumer == number {
            left -= 1;
            if part.get(pending.id).is_none() {
                part.give(pending)?;
            }
        }
    }
    Ok(())
}

/// What is pending in the part from the id on, each entry with its fields, or nil if it was deleted.
fn reread(
    alloc: Global,
    stream: &Stream,
    part: &mut Group,
    reader: Reader<'_>,
    first: EntryId,
) -> Result<Vec<Answer>, AllocError> {
    let mut answers = Vec::new(alloc);
    let mut left = reader.most;
    let mut at = part.pending.start(first);
    for _ in 0..part.pending.len() {
        let Some((after, pending)) = part.pending.next_at(at) else {
            break;
        };
        at = after;
        if left == 0 {
            break;
        }
        left -= 1;
        put(
            &mut answers,
            reread_entry(alloc, stream, part, pending, reader.now)?,
        )?;
    }
    Ok(answers)
}

/// The entry, redelivered, or its id and nil if it was deleted.
fn reread_entry(
    alloc: Global,
    stream: &Stream,
    part: &mut Group,
    pending: Pending,
    now: u64,
) -> Result<Answer, AllocError> {
    let Some(entry) = stream.get(pending.id) else {
        return array(alloc, [Answer::Id(pending.id), Answer::NilArray]);
    };
    let answer = entry_answer(alloc, entry)?;
    part.give(Pending {
        given_at: now,
        deliveries: pending.deliveries.saturating_add(1),
        ..pending
    })?;
    Ok(answer)
}

/// Delivers new entries to the consumer: the first ones after the last one that the group delivered.
fn deliver_new(
    alloc: Global,
    stream: &Stream,
    group: &mut Group,
    reader: Reader<'_>,
) -> Result<(), AllocError>
    ensures { OnOk result (HandsOut reader.entry.consumer.now reader.entry.now reader.entry.most
        reader.entry.noack stream.now.entries.items group.old group.new) }
{
    let start = find_start_behind(stream, group.last_id);
    let number = group.see(alloc, reader.consumer, reader.now)?;
    let mut left = reader.most;
    for entry in stream.entries.range(start..) {
        if left == 0 {
            break;
        }
        left -= 1;
        deliver(stream, group, entry.id, number, reader)?;
    }
    Ok(())
}

/// The index of the first entry after this id.
fn find_start_behind(stream: &Stream, id: EntryId) -> usize
    ensures bound { result ≤ length stream.now.entries.items }
    ensures behind { AreInOrder stream.now.entries.items
        → drop result stream.now.entries.items ≡ entries_behind id stream.now.entries.items }
{
    match stream.find_index(id) {
        Ok(index) => index + 1,
        Err(index) => index,
    }
}

/// Records that the entry with this id is the last one that the group delivered. It is pending for the consumer
/// of this number unless it is acknowledged at once.
fn deliver(
    stream: &Stream,
    group: &mut Group,
    id: EntryId,
    number: u64,
    reader: Reader<'_>,
) -> Result<(), AllocError>
    ensures { OnOk result (IsDelivered number reader.entry.now reader.entry.noack id
        group.old group.new) }
{
    group.entries_read = read_up_to(stream, group.entries_read, id);
    group.last_id = id;
    if reader.noack {
        return Ok(());
    }
    group.give(Pending {
        id,
        consumer: number,
        given_at: reader.now,
        deliveries: 1,
    })
}

/// The number of entries read up to this id, if it is known, by the number before it.
fn read_up_to(stream: &Stream, before: Option<i64>, id: EntryId) -> Option<i64> {
    match before {
        Some(n) if !stream.has_tombstone_from(id) => Some(n.wrapping_add(1)),
        _ if stream.entries_added != 0 => stream.distance(id),
        _ => before,
    }
}

/// Copies what is pending in the part into the group, for the consumer of the room, with the last delivered id.
/// With the room, it allocates nothing.
fn put_read(group: &mut Group, part: Group, room: Room, now: u64)
    ensures { HasRoom room group.old → HasPlaces (length part.pending.items) room group.old
        → IsPut room.name.items now part group.old group.new }
{
    group.last_id = part.last_id;
    group.entries_read = part.entries_read;
    let Ok(number) = group.see_in(room, now) else {
        return;
    };
    let mut left = part.pending;
    while let Some(pending) = left.pop_first() {
        let _given = group.put(pending.for_consumer(number));
    }
}

/// What is read for one group, before the group is changed.
#[derive(Drop)]
struct Outcome {
    answer: Answer,
    /// The entries that are delivered to the consumer.
    part: Group,
    /// Memory for the consumer and its entries.
    room: Room,
}

/// Reads one stream for the consumer of a group, from the id in this word, or new entries for `>`.
fn read_one(
    alloc: Global,
    streams: &mut [Stream],
    key: &[u8],
    text: &[u8],
    reader: Reader<'_>,
) -> Result<Answer, Refusal>
    ensures rows { IfOk result IsRows }
    ensures news { IfOk result (λ answer. text.now ≡ codes ">" → reader.entry.noack ≡ false
        → IsReadIn key.now reader.entry.consumer.now reader.entry.now reader.entry.most reader.entry.group.now
        answer streams.old streams.new) }
    ensures own { IfOk result (λ answer. (id : EntryId) → Fits id → id ≢ largest → IsWordOf id text.now
        → IsRereadIn key.now reader.entry.consumer.now reader.entry.now reader.entry.most id reader.entry.group.now
        answer streams.old streams.new) }
    ensures err { OnErr result (streams.new ≡ streams.old) }
{
    let start = parse_group_start(alloc, streams, key, text, reader.group)?;
    let Ok(index) = place_of(streams, key) else {
        return Err(SYNTAX);
    };
    let Ok(place) = place_of_group(&streams[index], reader.group) else {
        return Err(SYNTAX);
    };
    let stream = &streams[index];
    if let Start::Behind(behind) = start {
        let read = read_own(alloc, stream, &stream.groups[place], key, reader, behind)?;
        return Ok(deliver_again(&mut streams[index].groups[place], read, reader.now));
    }
    let Some(read) = read_of(alloc, stream, &stream.groups[place], key, reader, start)? else {
        return Ok(Answer::NilArray);
    };
    let Outcome { answer, part, room } = read;
    put_read(&mut streams[index].groups[place], part, room, reader.now);
    Ok(answer)
}

/// What the consumer reads of one stream, and `None` if nothing is new.
fn read_of(
    alloc: Global,
    stream: &Stream,
    group: &Group,
    key: &[u8],
    reader: Reader<'_>,
    start: Start,
) -> Result<Option<Outcome>, AllocError>
    ensures rows { IfOk result IsInRows }
    ensures news { IfOk result (λ read. start ≡ News → reader.entry.noack ≡ false
        → AreInOrder stream.now.entries.items → IsFound key.now reader.entry.consumer.now reader.entry.now
        reader.entry.most stream.now.entries.items group.now
        (entries_behind group.now.last_id stream.now.entries.items) read) }
{
    let mut part = group.part(alloc, reader.consumer)?;
    let Some(entries) = read_as(alloc, stream, group, &mut part, reader, start)? else {
        return Ok(None);
    };
    let room = group.room_for(alloc, reader.consumer, part.pending.len())?;
    let answer = reply_with_row(alloc, key, entries)?;
    Ok(Some(Outcome { answer, part, room }))
}

/// The entries of the stream of this key as a reply.
fn reply_with_row(alloc: Global, key: &[u8], entries: Vec<Answer>) -> Result<Answer, AllocError>
    ensures rows { IfOk result IsRows }
    ensures sent { IfOk result (λ answer. sent answer
        ≡ rows_of (more_rows key.now (array_of (item_list (map sent entries.items))) no_rows)) }
{
    let key = Vec::from_slice(alloc, key)?;
    match Vec::from_array(alloc, [(key, Answer::Array(entries))]) {
        Ok(rows) => Ok(Answer::Rows(rows)),
        Err(_) => Err(AllocError),
    }
}
