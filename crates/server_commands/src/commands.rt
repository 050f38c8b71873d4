//! The commands by their names, and functions that several use.
ghost use Rattle.std.specs.Prelude.{◌≡◌, ◌≢◌, IfErr, IfOk, OnOk, OnErr};
ghost use Rattle.server_commands.specs.Commands.{IsDone, MayRefuse, PlainIsDone, PlainMayRefuse};
ghost use Rattle.server_commands.specs.Nodes.{IsConfigured};
ghost use Rattle.server_commands.specs.Streams.{seen_streams};
ghost use Rattle.server_commands.specs.declared.commands.Plain.TheVariants as plain;

mod add;
mod answers;
mod claim;
mod config;
mod connection;
mod draft;
mod group;
mod hello;
mod help;
mod id_words;
mod info;
mod keys;
mod names;
mod new_ids;
mod pending;
mod places;
mod range;
mod read;
mod remove;
mod report;
mod retention;
mod stalled;
mod words;

use crate::answer::{Answer, Status};
use crate::refusal::Refusal;
use crate::session::Session;
use answers::{entry_answer, length, number, put};
use connection::Connection;
use draft::Draft;
use id_words::strict_id;
pub(crate) use names::command_in;
use places::{group_of, place_of, place_of_group, stream_of};
use report::Report;
use server_store::{EntryId, Group, Room, Stream};
use std::alloc::{AllocError, Global};
use words::{before_nul, lower, shown};

const SYNTAX: Refusal = Refusal::Fixed("ERR syntax error");

const NOT_AN_INTEGER: Refusal = Refusal::Fixed("ERR value is not an integer or out of range");

const WRONG_NAME: Refusal = Refusal::Fixed(
    "ERR Client names cannot contain spaces, newlines or special characters.",
);

/// How many bytes of an unknown word an error shows.
const MOST_SHOWN: usize = 128;

const INVALID_ID: Refusal = Refusal::Fixed(
    "ERR Invalid stream ID specified as stream command argument",
);

/// A command.
#[derive(Clone, Copy)]
pub(crate) enum Command {
    /// MULTI, EXEC, DISCARD or WATCH.
    Transaction(Step),
    /// Executed at once, or queued.
    Plain(Plain),
}

/// The commands of a transaction.
#[derive(Clone, Copy)]
pub(crate) enum Step {
    Begin,
    Execute,
    Discard,
    Watch,
}

/// A command that may be queued.
#[derive(Clone, Copy, Debug)]
pub(crate) enum Plain {
    Change(Change),
    LookUp(LookUp),
    Report(Report),
    Connection(Connection),
    /// CONFIG.
    Configure,
}

/// The commands that change streams.
#[derive(Clone, Copy, Debug)]
pub(crate) enum Change {
    Delete,
    DeleteAll,
    Add,
    ReadGroup,
    Group,
    Acknowledge,
    Claim,
    AutoClaim,
    DeleteEntries,
    Trim,
    SetId,
}

/// The commands that read streams.
#[derive(Clone, Copy, Debug)]
pub(crate) enum LookUp {
    Exists,
    Type,
    Len,
    Range,
    ReverseRange,
    Read,
    Pending,
    Info,
}

/// Executes a command with these arguments, on streams whose nodes have at most `node_entries` entries. If it is
/// refused, nothing is changed.
pub(crate) fn run(
    alloc: Global,
    streams: &mut Vec<Stream>,
    node_entries: &mut u64,
    now: u64,
    session: &mut Session,
    command: Plain,
    words: Vec<Vec<u8>>,
) -> Result<Answer, Refusal>
    ensures done { IfOk result (λ answer. PlainIsDone command words.items now answer streams.old.items streams.new.items) }
    ensures refused { IfErr result (PlainMayRefuse command words.items) }
    ensures streams { OnErr result (seen_streams streams.new ≡ seen_streams streams.old) }
    ensures nodes { OnErr result (node_entries.new ≡ node_entries.old) }
    ensures size { command ≢ plain.Configure → node_entries.new ≡ node_entries.old }
    ensures configured { OnOk result (command ≡ plain.Configure
        → IsConfigured words.items node_entries.new) }
    ensures session { OnErr result (session.new ≡ session.old) }
{
    match command {
        Plain::Change(change) => run_change(alloc, streams, *node_entries, now, change, words),
        Plain::LookUp(look_up) => run_reading(alloc, streams, now, look_up, &words),
        Plain::Report(report) => run_report(alloc, streams.len(), now, report, &words),
        Plain::Connection(asked) => connection::answered(alloc, session, asked, &words),
        Plain::Configure => config::set(alloc, node_entries, &words),
    }
}

/// Executes a command that changes streams.
fn run_change(
    alloc: Global,
    streams: &mut Vec<Stream>,
    node_entries: u64,
    now: u64,
    change: Change,
    words: Vec<Vec<u8>>,
) -> Result<Answer, Refusal>
    ensures done { IfOk result (λ answer. IsDone change words.items now answer streams.old.items streams.new.items) }
    ensures refused { IfErr result (MayRefuse change words.items) }
    ensures err { OnErr result (seen_streams streams.new ≡ seen_streams streams.old) }
{
    let [word, arguments @ ..] = words.as_slice() else {
        return Err(SYNTAX);
    };
    match change {
        Change::Delete => Ok(length(remove::remove_keys(streams, arguments))),
        Change::DeleteAll => keys::remove_all(streams, arguments),
        Change::Add => add::add(alloc, streams, node_entries, now, words),
        Change::ReadGroup => read::read_group(alloc, streams, now, arguments),
        Change::Group => group::group(alloc, streams, now, word, arguments),
        Change::Acknowledge => remove::acknowledge(alloc, streams, arguments),
        Change::Claim => claim::claim(alloc, streams, now, arguments),
        Change::AutoClaim => stalled::claim_stalled(alloc, streams, now, arguments),
        Change::DeleteEntries => remove::delete(alloc, streams, arguments),
        Change::Trim => remove::trim(streams, node_entries, arguments),
        Change::SetId => remove::set_id(streams, arguments),
    }
}

/// Executes a command that reads streams.
fn run_reading(
    alloc: Global,
    streams: &[Stream],
    now: u64,
    look_up: LookUp,
    words: &[Vec<u8>],
) -> Result<Answer, Refusal> {
    let [word, arguments @ ..] = words else {
        return Err(SYNTAX);
    };
    match look_up {
        LookUp::Exists => Ok(exists(streams, arguments)),
        LookUp::Type => reply_with_type(streams, arguments),
        LookUp::Len => reply_with_len(streams, arguments),
        LookUp::Range => range::range(alloc, streams, false, arguments),
        LookUp::ReverseRange => range::range(alloc, streams, true, arguments),
        LookUp::Read => read::read(alloc, streams, arguments),
        LookUp::Pending => pending::pending(alloc, streams, now, arguments),
        LookUp::Info => info::info(alloc, streams, now, word, arguments),
    }
}

/// Executes a command that reports on a server with `keys` keys.
fn run_report(
    alloc: Global,
    keys: usize,
    now: u64,
    report: Report,
    words: &[Vec<u8>],
) -> Result<Answer, Refusal> {
    match report {
        Report::KeyCount => Ok(length(keys)),
        Report::Time => Ok(report::time(alloc, now)?),
        Report::Info => Ok(report::info(alloc, keys, words)?),
        Report::Commands => Ok(Answer::Map(Vec::new(alloc))),
    }
}

/// `EXISTS key ..`: how many of the keys are there, each as often as it is named.
fn exists(streams: &[Stream], keys: &[Vec<u8>]) -> Answer {
    let mut count = 0u64;
    for key in keys {
        if stream_of(streams, key).is_some() {
            count = count.saturating_add(1);
        }
    }
    number(count)
}

/// `TYPE key`
fn reply_with_type(streams: &[Stream], arguments: &[Vec<u8>]) -> Result<Answer, Refusal> {
    let [key, ..] = arguments else {
        return Err(SYNTAX);
    };
    match stream_of(streams, key) {
        Some(_) => Ok(Answer::Status(Status::Stream)),
        None => Ok(Answer::Status(Status::Missing)),
    }
}

/// `XLEN key`
fn reply_with_len(streams: &[Stream], arguments: &[Vec<u8>]) -> Result<Answer, Refusal> {
    let [key, ..] = arguments else {
        return Err(SYNTAX);
    };
    match stream_of(streams, key) {
        Some(stream) => Ok(length(stream.entries.len())),
        None => Ok(Answer::Int(0)),
    }
}

/// The stream of this key, for a command that names this group.
fn require_stream<'a>(
    alloc: Global,
    streams: &'a [Stream],
    key: &[u8],
    name: &[u8],
) -> Result<&'a Stream, Refusal> {
    match stream_of(streams, key) {
        Some(stream) => Ok(stream),
        None => Err(make_key_or_group_error(alloc, key, name)),
    }
}

/// The group of this name.
fn require_group<'a>(
    alloc: Global,
    stream: &'a Stream,
    key: &[u8],
    name: &[u8],
) -> Result<&'a Group, Refusal> {
    match group_of(stream, name) {
        Some(group) => Ok(group),
        None => Err(make_key_or_group_error(alloc, key, name)),
    }
}

/// The name of the group's consumer with this number.
fn find_consumer_name(group: &Group, number: u64) -> &[u8] {
    for consumer in &group.consumers {
        if consumer.number == number {
            return &consumer.name;
        }
    }
    &[]
}

/// The first entries from this id up to that one, `most` at most.
fn list_entries_up(
    alloc: Global,
    stream: &Stream,
    start: EntryId,
    end: EntryId,
    most: u64,
) -> Result<Vec<Answer>, AllocError> {
    let mut answers = Vec::new(alloc);
    let mut left = most;
    for entry in stream.entries.range(stream.find_start(start)..) {
        if entry.id > end || left == 0 {
            break;
        }
        left -= 1;
        put(&mut answers, entry_answer(alloc, entry)?)?;
    }
    Ok(answers)
}

/// Appends a name with its reply.
fn put_row(
    alloc: Global,
    rows: &mut Vec<(Vec<u8>, Answer)>,
    name: &str,
    answer: Answer,
) -> Result<(), AllocError> {
    let name = Vec::from_slice(alloc, name.as_bytes())?;
    match rows.push((name, answer)) {
        Ok(()) => Ok(()),
        Err(_) => Err(AllocError),
    }
}

/// Whether a connection may have this name.
fn check_name(name: &[u8]) -> Result<(), Refusal> {
    for byte in name {
        if !byte.is_ascii_graphic() {
            return Err(WRONG_NAME);
        }
    }
    Ok(())
}

/// The error for an unknown command: its name, and its arguments in quotes.
fn make_unknown_error(alloc: Global, word: &[u8], arguments: &[Vec<u8>]) -> Refusal {
    match quote_arguments(alloc, arguments) {
        Ok(text) => make_refusal(
            alloc,
            &[
                b"ERR unknown command '",
                shown(word, MOST_SHOWN),
                b"', with args beginning with: ",
                &text,
            ],
        ),
        Err(_) => Refusal::Memory,
    }
}

/// The first arguments in quotes, each with a space after it, as long as they are short.
fn quote_arguments(alloc: Global, arguments: &[Vec<u8>]) -> Result<Vec<u8>, AllocError> {
    let mut text = Vec::new(alloc);
    for argument in arguments {
        let most = MOST_SHOWN.saturating_sub(text.len());
        if most > 0 {
            text.push(b'\'')?;
            text.extend_from_slice(shown(argument, most))?;
            text.extend_from_slice(b"' ")?;
        }
    }
    Ok(text)
}

/// The error for a wrong number of arguments of a command.
fn make_count_error(alloc: Global, word: &[u8]) -> Refusal {
    match lower(alloc, word) {
        Ok(word) => make_refusal(
            alloc,
            &[b"ERR wrong number of arguments for '", &word, b"' command"],
        ),
        Err(_) => Refusal::Memory,
    }
}

/// The error for a wrong number of arguments of a subcommand.
fn make_subcount_error(alloc: Global, word: &[u8], subcommand: &[u8]) -> Refusal {
    match (lower(alloc, word), lower(alloc, subcommand)) {
        (Ok(word), Ok(subcommand)) => make_refusal(
            alloc,
            &[
                b"ERR wrong number of arguments for '",
                &word,
                b"|",
                &subcommand,
                b"' command",
            ],
        ),
        _ => Refusal::Memory,
    }
}

/// The error for an unknown subcommand.
fn make_subcommand_error(alloc: Global, word: &[u8], subcommand: &[u8]) -> Refusal {
    let subcommand = shown(subcommand, MOST_SHOWN);
    make_help_error(alloc, b"ERR unknown subcommand '", subcommand, word)
}

/// The error for options that the subcommand does not have.
fn make_options_error(alloc: Global, word: &[u8], subcommand: &[u8]) -> Refusal {
    let fault = b"ERR unknown subcommand or wrong number of arguments for '";
    make_help_error(alloc, fault, subcommand, word)
}

/// The error with the subcommand and the HELP that lists the right ones.
fn make_help_error(alloc: Global, fault: &[u8], subcommand: &[u8], word: &[u8]) -> Refusal {
    let Ok(mut upper) = Vec::from_slice(alloc, word) else {
        return Refusal::Memory;
    };
    upper.make_ascii_uppercase();
    make_refusal(alloc, &[fault, subcommand, b"'. Try ", &upper, b" HELP."])
}

/// The concatenation of the texts as an error.
fn make_refusal(alloc: Global, parts: &[&[u8]]) -> Refusal {
    let mut text = Vec::new(alloc);
    for part in parts {
        if text.extend_from_slice(part).is_err() {
            return Refusal::Memory;
        }
    }
    Refusal::Text(text)
}

/// The NOGROUP error, in the words of XGROUP and XINFO.
fn make_group_error(alloc: Global, key: &[u8], group: &[u8]) -> Refusal {
    make_refusal(
        alloc,
        &[
            b"NOGROUP No such consumer group '",
            shown(group, usize::MAX),
            b"' for key name '",
            shown(key, usize::MAX),
            b"'",
        ],
    )
}

/// The NOGROUP error for a missing key or group, in the words of XPENDING, XCLAIM and XAUTOCLAIM.
fn make_key_or_group_error(alloc: Global, key: &[u8], group: &[u8]) -> Refusal {
    make_refusal(
        alloc,
        &[
            b"NOGROUP No such key '",
            shown(key, usize::MAX),
            b"' or consumer group '",
            shown(group, usize::MAX),
            b"'",
        ],
    )
}

/// A number as Redis takes it: with no plus sign and no leading zero.
fn parse_integer(argument: &[u8]) -> Option<i64> {
    match argument {
        [b'0'] => return Some(0),
        [b'-', b'1'..=b'9', ..] | [b'1'..=b'9', ..] => {}
        _ => return None,
    }
    match std::str::from_utf8(argument) {
        Ok(text) => text.parse::<i64>().ok(),
        Err(_) => None,
    }
}

/// A number of 64 bits with a sign. Any other text is an error: not an integer.
fn require_integer(argument: &[u8]) -> Result<i64, Refusal> {
    parse_integer(argument).ok_or(NOT_AN_INTEGER)
}

/// A number of 64 bits with a sign, and 0 for a negative one. Any other text is an error: not an integer.
fn require_count(argument: &[u8]) -> Result<u64, Refusal> {
    Ok(u64::try_from(require_integer(argument)?).unwrap_or(0))
}

/// An id, or `-` for the smallest one and `+` for the largest one.
fn parse_loose_id(text: &[u8], missing: u64) -> Option<EntryId> {
    match before_nul(text) {
        [b'-'] => Some(EntryId::ZERO),
        [b'+'] => Some(EntryId::LAST),
        _ => strict_id(text, missing),
    }
}

/// The first id of an interval with this start.
fn parse_interval_start(argument: &[u8]) -> Result<EntryId, Refusal> {
    let (id, is_exclusive) = parse_interval_id(argument, 0)?;
    if !is_exclusive {
        return Ok(id);
    }
    id.next()
        .ok_or(Refusal::Fixed("ERR invalid start ID for the interval"))
}

/// The last id of an interval with this end.
fn parse_interval_end(argument: &[u8]) -> Result<EntryId, Refusal> {
    let (id, is_exclusive) = parse_interval_id(argument, u64::MAX)?;
    if !is_exclusive {
        return Ok(id);
    }
    id.previous()
        .ok_or(Refusal::Fixed("ERR invalid end ID for the interval"))
}

/// One end of an interval, and whether it is exclusive.
fn parse_interval_id(argument: &[u8], missing: u64) -> Result<(EntryId, bool), Refusal> {
    let (found, is_exclusive) = match argument {
        [b'(', text @ ..] if !text.is_empty() => (strict_id(text, missing), true),
        _ => (parse_loose_id(argument, missing), false),
    };
    match found {
        Some(id) => Ok((id, is_exclusive)),
        None => Err(INVALID_ID),
    }
}

/// Reserves memory in the group for the changes, if a consumer was seen.
fn reserve_room(
    alloc: Global,
    streams: &[Stream],
    draft: &Draft<'_>,
) -> Result<Option<Room>, AllocError> {
    let Some(stream) = stream_of(streams, draft.key) else {
        return Ok(None);
    };
    match (group_of(stream, draft.name), draft.part.consumers.first()) {
        (Some(group), Some(consumer)) => {
            let more = draft.part.pending.len();
            Ok(Some(group.room_for(alloc, &consumer.name, more)?))
        }
        _ => Ok(None),
    }
}

/// Applies the changes of the draft to the group. With the room, it allocates nothing.
fn settle(streams: &mut [Stream], draft: Draft<'_>, room: Option<Room>) {
    let Ok(index) = place_of(streams, draft.key) else {
        return;
    };
    let Ok(place) = place_of_group(&streams[index], draft.name) else {
        return;
    };
    put_part(&mut streams[index].groups[place], draft.part, room);
}

/// Copies the last delivered id and the pending entries of the part into the group.
fn put_part(group: &mut Group, part: Group, room: Option<Room>) {
    group.last_id = part.last_id;
    group.entries_read = part.entries_read;
    if let (Some(room), Some(consumer)) = (room, part.consumers.first()) {
        let _number = group.see_in(room, consumer.seen_at);
    }
    let mut left = part.pending;
    while let Some(pending) = left.pop_first() {
        let _given = group.put(pending);
    }
}
