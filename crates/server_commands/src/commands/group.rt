//! `XGROUP`.
ghost use Rattle.std.specs.Prelude.{◌≡◌, ◌<◌, length, IfOk, OnErr, OnOk};
ghost use Rattle.std.specs.List.{HoldsAt};
ghost use Rattle.server_commands.specs.Creating.{IsStartIn, IsXgroupCreate, start_id};
ghost use Rattle.server_commands.specs.Streams.{seen_streams};
ghost use Rattle.server_store.specs.Stream.{seen_stream};

use super::id_words::strict_id;
use super::places::{place_of, place_of_group};
use super::words::is_word;
use super::{
    INVALID_ID, SYNTAX, help, make_group_error, make_options_error, make_subcommand_error,
    make_subcount_error, parse_loose_id, require_integer,
};
use crate::answer::Answer;
use crate::refusal::Refusal;
use server_store::{EntryId, Group, Stream};
use std::alloc::Global;

/// The subcommands of XGROUP.
#[derive(Clone, Copy, PartialEq, Eq)]
enum Action {
    Create,
    SetId,
    Destroy,
    CreateConsumer,
    DeleteConsumer,
    Help,
}

const NO_KEY: Refusal = Refusal::Fixed(
    "ERR The XGROUP subcommand requires the key to exist. Note that for CREATE you \
        may want to use the MKSTREAM option to create an empty stream automatically.",
);

/// `XGROUP subcommand key group ..`
pub(super) fn group(
    alloc: Global,
    streams: &mut Vec<Stream>,
    now: u64,
    word: &[u8],
    arguments: &[Vec<u8>],
) -> Result<Answer, Refusal>
    ensures { OnErr result (seen_streams streams.new ≡ seen_streams streams.old) }
{
    let action = parse_action(alloc, word, arguments)?;
    if action == Action::Help {
        return Ok(help::of_groups(alloc)?);
    }
    let [subcommand, key, name, rest @ ..] = arguments else {
        return Err(SYNTAX);
    };
    let options = parse_options(alloc, action, word, subcommand, rest)?;
    match place_of(streams, key) {
        Ok(index) => execute_on(alloc, &mut streams[index], now, action, arguments, options),
        Err(_) if options.makes_stream => create_stream(alloc, streams, key, name, rest, options),
        Err(_) => Err(NO_KEY),
    }
}

/// Executes the action on an existing stream.
fn execute_on(
    alloc: Global,
    stream: &mut Stream,
    now: u64,
    action: Action,
    arguments: &[Vec<u8>],
    options: GroupOptions,
) -> Result<Answer, Refusal>
    ensures { OnErr result (seen_stream stream.new ≡ seen_stream stream.old) }
{
    let [_, key, name, rest @ ..] = arguments else {
        return Err(SYNTAX);
    };
    if action == Action::Create {
        return create(alloc, stream, name, rest, options);
    }
    match place_of_group(stream, name) {
        Ok(place) if action == Action::Destroy => {
            let _group = stream.groups.remove(place);
            Ok(Answer::Int(1))
        }
        Ok(place) => change_group(alloc, stream, place, now, action, rest, options),
        Err(_) if action == Action::Destroy => Ok(Answer::Int(0)),
        Err(_) => Err(make_group_error(alloc, key, name)),
    }
}

/// Whether there is such an action, and it may have this many arguments.
pub(super) fn check(alloc: Global, word: &[u8], arguments: &[Vec<u8>]) -> Result<(), Refusal>
    ensures { IfOk result (λ _. 0 < length arguments.now) }
{
    let _action = parse_action(alloc, word, arguments)?;
    Ok(())
}

/// The action of this name, if it may have this many arguments.
fn parse_action(alloc: Global, word: &[u8], arguments: &[Vec<u8>]) -> Result<Action, Refusal>
    ensures { IfOk result (λ _. 0 < length arguments.now) }
{
    let [subcommand, behind @ ..] = arguments else {
        return Err(SYNTAX);
    };
    match find_action(subcommand) {
        Some(action) if has_right_count(action, behind.len()) => Ok(action),
        Some(_) => Err(make_subcount_error(alloc, word, subcommand)),
        None => Err(make_subcommand_error(alloc, word, subcommand)),
    }
}

/// The action of this name.
fn find_action(subcommand: &[u8]) -> Option<Action> {
    if is_word(subcommand, "CREATE") {
        Some(Action::Create)
    } else if is_word(subcommand, "SETID") {
        Some(Action::SetId)
    } else if is_word(subcommand, "DESTROY") {
        Some(Action::Destroy)
    } else if is_word(subcommand, "CREATECONSUMER") {
        Some(Action::CreateConsumer)
    } else if is_word(subcommand, "DELCONSUMER") {
        Some(Action::DeleteConsumer)
    } else if is_word(subcommand, "HELP") {
        Some(Action::Help)
    } else {
        None
    }
}

/// Whether the action may have this many arguments.
fn has_right_count(action: Action, count: usize) -> bool {
    match action {
        Action::Create | Action::SetId => count >= 3,
        Action::Destroy => count == 2,
        Action::CreateConsumer | Action::DeleteConsumer => count == 3,
        Action::Help => count == 0,
    }
}

/// The options of CREATE and SETID.
#[derive(Clone, Copy)]
struct GroupOptions {
    makes_stream: bool,
    entries_read: Option<i64>,
}

/// The options after the id, or after the name of a consumer.
fn parse_options(
    alloc: Global,
    action: Action,
    word: &[u8],
    subcommand: &[u8],
    words: &[Vec<u8>],
) -> Result<GroupOptions, Refusal> {
    let mut options = GroupOptions {
        makes_stream: false,
        entries_read: None,
    };
    let [_, behind @ ..] = words else {
        return Ok(options);
    };
    let takes_count = action == Action::Create || action == Action::SetId;
    let mut rest = behind;
    for _ in 0..behind.len() {
        match rest {
            [] => break,
            [option, after @ ..] if action == Action::Create && is_word(option, "MKSTREAM") => {
                options.makes_stream = true;
                rest = after;
            }
            [option, text, after @ ..] if takes_count && is_word(option, "ENTRIESREAD") => {
                options.entries_read = parse_entries_read(text)?;
                rest = after;
            }
            _ => return Err(make_options_error(alloc, word, subcommand)),
        }
    }
    Ok(options)
}

/// The number of ENTRIESREAD; -1 means that it is not known.
fn parse_entries_read(text: &[u8]) -> Result<Option<i64>, Refusal> {
    let n = require_integer(text)?;
    if n < -1 {
        return Err(Refusal::Fixed("ERR value for ENTRIESREAD must be positive or -1"));
    }
    if n == -1 { Ok(None) } else { Ok(Some(n)) }
}

/// Where a group begins.
#[derive(Clone, Copy)]
enum Start {
    /// `$`: at the last id of the stream.
    Last,
    /// At this id.
    At(EntryId),
}

impl Start {
    /// The id at which it begins, in a stream with this last id.
    fn find_id(self, last_id: EntryId) -> EntryId
        ensures { result ≡ start_id self last_id }
    {
        match self {
            Start::Last => last_id,
            Start::At(id) => id,
        }
    }
}

/// The start of a group by the first of the words.
fn parse_start(words: &[Vec<u8>]) -> Result<Start, Refusal>
    ensures { IfOk result (λ start. HoldsAt (IsStartIn start) words.now 0) }
{
    let [text, ..] = words else {
        return Err(SYNTAX);
    };
    if text.as_slice() == b"$".as_slice() {
        return Ok(Start::Last);
    }
    let id = strict_id(text, 0).ok_or(INVALID_ID)?;
    Ok(Start::At(id))
}

/// `CREATE` with MKSTREAM, if the stream does not exist.
fn create_stream(
    alloc: Global,
    streams: &mut Vec<Stream>,
    key: &[u8],
    name: &[u8],
    words: &[Vec<u8>],
    options: GroupOptions,
) -> Result<Answer, Refusal>
    ensures { OnErr result (seen_streams streams.new ≡ seen_streams streams.old) }
{
    let mut stream = Stream::new(alloc, Vec::from_slice(alloc, key)?);
    let answer = create(alloc, &mut stream, name, words, options)?;
    match place_of(streams, key) {
        Ok(_) => Err(SYNTAX),
        Err(index) => {
            streams.insert(index, stream)?;
            Ok(answer)
        }
    }
}

/// `CREATE`
fn create(
    alloc: Global,
    stream: &mut Stream,
    name: &[u8],
    words: &[Vec<u8>],
    options: GroupOptions,
) -> Result<Answer, Refusal>
    ensures ok { OnOk result (IsXgroupCreate words.now name.now options.entries_read
        stream.old stream.new) }
    ensures err { OnErr result (seen_stream stream.new ≡ seen_stream stream.old) }
{
    let start = parse_start(words)?;
    let Err(place) = place_of_group(stream, name) else {
        return Err(Refusal::Fixed("BUSYGROUP Consumer Group name already exists"));
    };
    let name = Vec::from_slice(alloc, name)?;
    let last_id = start.find_id(stream.last_id);
    let group = Group::new(alloc, name, last_id, options.entries_read);
    stream.groups.insert(place, group)?;
    Ok(Answer::Okay)
}

/// `SETID`, `CREATECONSUMER`, `DELCONSUMER`
fn change_group(
    alloc: Global,
    stream: &mut Stream,
    place: usize,
    now: u64,
    action: Action,
    words: &[Vec<u8>],
    options: GroupOptions,
) -> Result<Answer, Refusal>
    ensures { OnErr result (stream.new ≡ stream.old) }
{
    let [word, ..] = words else {
        return Err(SYNTAX);
    };
    if place >= stream.groups.len() {
        return Err(SYNTAX);
    }
    match action {
        Action::SetId => {
            let last_id = parse_last_id(stream.last_id, word)?;
            move_group(&mut stream.groups[place], last_id, options);
            Ok(Answer::Okay)
        }
        Action::CreateConsumer => {
            if stream.groups[place].consumer(word).is_some() {
                return Ok(Answer::Int(0));
            }
            let room = stream.groups[place].room_for(alloc, word, 0)?;
            let _number = stream.groups[place].see_in(room, now);
            Ok(Answer::Int(1))
        }
        _ => Ok(super::number(stream.groups[place].remove_consumer(word))),
    }
}

/// The id of `SETID`, in a stream with this last id.
fn parse_last_id(last_id: EntryId, word: &[u8]) -> Result<EntryId, Refusal> {
    if word == b"$".as_slice() {
        Ok(last_id)
    } else {
        parse_loose_id(word, 0).ok_or(INVALID_ID)
    }
}

/// Sets the last delivered id of the group, and the number of entries read.
fn move_group(group: &mut Group, last_id: EntryId, options: GroupOptions) {
    group.last_id = last_id;
    group.entries_read = options.entries_read;
}
