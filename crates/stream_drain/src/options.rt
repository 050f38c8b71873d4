//! The arguments of the program.
ghost use Rattle.std.specs.Prelude.{◌≡◌, ◌≤◌, ◌⊎◌, length, map, string_bytes, IfErr, IfOk, IsTrue, None};
ghost use Rattle.clap.specs.Words.{found_of, kind_of};
ghost use Rattle.command_lines.specs.WorkerSettings.{Waits};
ghost use Rattle.stream_drain.specs.Options.{AreOptions, AreOptionsOf};

use crate::resume::LARGEST_COUNT;
use crate::said::{OptionArity, says};
use clap::error::ErrorKind;
use clap::{ArgMatches, Command, Error};
use command_lines::{
    BLOCK, EVERY, IDLE, Line, Number, command, confirmation_of, dead, flag, from, give_up_of,
    matches_of, name, refused, settings_of, wait, word_of,
};
use redis_connection::Wait;
use std::alloc::{AllocError, Global};
use worker::Settings;
use worker::dead_letters::GiveUp;

/// The options of the program.
#[derive(Drop)]
pub struct Options {
    pub settings: Settings,
    pub path: String,
    /// Whether the program ends when a read returns no new entries.
    pub until_empty: bool,
    /// Whether each line is JSON.
    pub json: bool,
    /// Whether each entry is looked up in the file, so that none gets a second line.
    pub look_up: bool,
    /// Whether only the counts at the end are shown.
    pub quiet: bool,
    /// The stream of dead letters, and the number of deliveries after which an entry is moved there.
    pub dead: Option<GiveUp>,
    /// The number of replicas that must confirm each command before its entries are handled.
    pub wait: Option<Wait>,
}

// The largest count is at most the number of entries that are acknowledged at the start.
pub const COUNT: Number = Number {
    name: "count",
    value: "ENTRIES",
    help: "Maximum number of entries at once, from 1 to 10000; a batch is one write and one sync",
    least: 1,
    most: LARGEST_COUNT as u64,
    usual: "1000",
};

const LOOK_UP: &str =
    "Reads the whole file first, and writes no entry of it again, whatever the server hands out";

const WAIT: &str =
    "Each read must be confirmed by REPLICAS replicas within MS milliseconds, each number 1 at least";

/// Parses the arguments with clap. Returns an error if the arguments do not specify the parsed options.
pub fn options_of(alloc: Global, words: &[String]) -> Result<Options, Error>
    ensures least { IfOk result (λ _. 4 ≤ length words.now) }
    ensures said { IfOk result (λ options. AreOptionsOf (map string_bytes words.now) options) }
{
    let mut command = make_command(alloc)?;
    let matches = matches_of(alloc, &mut command, words, 4)?;
    let options = parse_options(alloc, &mut command, &matches)?;
    let line = Line::read::<OptionArity>(alloc, words)?;
    if !says(alloc, &line, &matches, &options)? {
        return Err(refused(
            alloc,
            &mut command,
            &"internal error: the parsed options do not match the arguments",
        ));
    }
    Ok(options)
}

/// Returns the options that clap found in the arguments.
fn parse_options(
    alloc: Global,
    command: &mut Command<'_>,
    matches: &ArgMatches<'_>,
) -> Result<Options, Error>
    ensures ok { IfOk result (λ options. AreOptions (found_of matches.now) options) }
    ensures err { IfErr result (λ e. (kind_of e ≡ ErrorKind.ValueValidation) ⊎ (kind_of e ≡ ErrorKind.OutOfMemory)) }
{
    let settings = settings_of(alloc, command, matches, &COUNT)?;
    let dead = give_up_of(alloc, command, matches)?;
    let wait = parse_wait(alloc, command, matches, dead.is_some())?;
    Ok(Options {
        settings,
        path: String::from_str(alloc, word_of(matches, "FILE"))?,
        until_empty: matches.get_flag("until-empty"),
        json: matches.get_flag("json"),
        look_up: matches.get_flag("look-up"),
        quiet: matches.get_flag("quiet"),
        dead,
        wait,
    })
}

fn make_command<'a>(alloc: Global) -> Result<Command<'a>, AllocError> {
    let about = "Drains a stream for one consumer of a group into a file.";
    let command = command(alloc, "stream_drain", about)
        .arg(name(alloc, "KEY", "The stream"))?
        .arg(name(alloc, "GROUP", "The group of consumers"))?
        .arg(name(alloc, "CONSUMER", "The name of the consumer"))?
        .arg(name(
            alloc,
            "FILE",
            "The file, to which a line for each entry is added",
        ))?
        .arg(from(alloc))?;
    add_flags(alloc, add_numbers(alloc, command)?)
}

fn add_numbers<'a>(alloc: Global, command: Command<'a>) -> Result<Command<'a>, AllocError> {
    command
        .arg(COUNT.arg(alloc))?
        .arg(BLOCK.arg(alloc))?
        .arg(IDLE.arg(alloc))?
        .arg(EVERY.arg(alloc))
}

fn add_flags<'a>(alloc: Global, command: Command<'a>) -> Result<Command<'a>, AllocError> {
    let help = "Entries go to this stream of dead letters after TIMES deliveries, 1 at least";
    command
        .arg(dead(alloc, help))?
        .arg(flag(alloc, "json", "Each line is an object of JSON"))?
        .arg(flag(alloc, "look-up", LOOK_UP))?
        .arg(flag(alloc, "quiet", "Nothing is shown but the counts at the end"))?
        .arg(flag(
            alloc,
            "until-empty",
            "It ends with status 0 once a read finds nothing new",
        ))?
        .arg(wait(alloc, WAIT))
}

/// Returns the value of `--wait`: the number of replicas that must confirm each command, and how long the
/// program waits for them. Dead letters are not confirmed, so `--wait` together with `--dead` is an error.
fn parse_wait(
    alloc: Global,
    command: &mut Command<'_>,
    matches: &ArgMatches<'_>,
    gives_up: bool,
) -> Result<Option<Wait>, Error>
    ensures ok { IfOk result (λ wait. Waits (found_of matches.now) wait) }
    ensures alone { IsTrue gives_up → IfOk result (λ wait. wait ≡ None) }
    ensures err { IfErr result (λ e. (kind_of e ≡ ErrorKind.ValueValidation) ⊎ (kind_of e ≡ ErrorKind.OutOfMemory)) }
{
    let wait = confirmation_of(alloc, command, matches)?;
    if gives_up && wait.is_some() {
        return Err(refused(alloc, command, &"--wait does not go with --dead"));
    }
    Ok(wait)
}
