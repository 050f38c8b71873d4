//! The arguments of the program.
ghost use Rattle.std.specs.Prelude.{◌≡◌, ◌≤◌, ◌⊎◌, length, map, string_bytes, IfErr, IfOk};
ghost use Rattle.clap.specs.Words.{found_of, kind_of};
ghost use Rattle.stream_run.specs.Options.{AreOptions, AreOptionsOf};

use crate::said::{OptionArity, says};
use clap::error::ErrorKind;
use clap::{ArgMatches, Command, Error};
use command_lines::{
    BLOCK, EVERY, IDLE, Line, Number, command, dead, flag, from, give_up_of, matches_of, name,
    refused, settings_of, text, word_of,
};
use std::alloc::{AllocError, Global};
use worker::Settings;
use worker::dead_letters::GiveUp;

/// The options of the program.
#[derive(Drop)]
pub struct Options {
    pub settings: Settings,
    /// Whether the program ends when a read returns no new entries.
    pub until_empty: bool,
    /// The stream of dead letters, and the number of deliveries after which an entry is moved there.
    pub dead: Option<GiveUp>,
    /// The path of the pipe that the child reads from, and the path of the pipe that it writes to.
    pub lines: String,
    pub replies: String,
}

/// The default path of the pipe that the child reads from.
pub const LINES: &str = "/dev/fd/4";

/// The default path of the pipe that the child writes to.
pub const REPLIES: &str = "/dev/fd/3";

/// The largest number of entries that one command requests.
pub const COUNT: Number = Number {
    name: "count",
    value: "ENTRIES",
    help: "Maximum number of entries at once, from 1 to 10000; they are acknowledged together",
    least: 1,
    most: 10_000,
    usual: "10",
};

/// Parses the arguments with clap. Returns an error if the arguments do not specify the parsed options.
pub fn options_of(alloc: Global, words: &[String]) -> Result<Options, Error>
    ensures least { IfOk result (λ _. 3 ≤ length words.now) }
    ensures said { IfOk result (λ options. AreOptionsOf (map string_bytes words.now) options) }
{
    let mut command = make_command(alloc)?;
    let matches = matches_of(alloc, &mut command, words, 3)?;
    let options = parse_options(alloc, &mut command, &matches)?;
    let line = Line::read::<OptionArity>(alloc, words)?;
    if !says(alloc, &line, &matches, &options)? {
        return Err(refused(
            alloc,
            &mut command,
            &"internal error: the parsed options do not match the arguments",
        ));
    }
    Ok(options)
}

/// Returns the options that clap found in the arguments.
fn parse_options(
    alloc: Global,
    command: &mut Command<'_>,
    matches: &ArgMatches<'_>,
) -> Result<Options, Error>
    ensures ok { IfOk result (λ options. AreOptions (found_of matches.now) options) }
    ensures err { IfErr result (λ e. (kind_of e ≡ ErrorKind.ValueValidation) ⊎ (kind_of e ≡ ErrorKind.OutOfMemory)) }
{
    Ok(Options {
        settings: settings_of(alloc, command, matches, &COUNT)?,
        until_empty: matches.get_flag("until-empty"),
        dead: give_up_of(alloc, command, matches)?,
        lines: String::from_str(alloc, word_of(matches, "lines"))?,
        replies: String::from_str(alloc, word_of(matches, "replies"))?,
    })
}

fn make_command<'a>(alloc: Global) -> Result<Command<'a>, AllocError> {
    let about = "Hands each entry of a stream to another program, for one consumer of a group.";
    let command = command(alloc, "stream_run", about)
        .arg(name(alloc, "KEY", "The stream"))?
        .arg(name(alloc, "GROUP", "The group of consumers"))?
        .arg(name(alloc, "CONSUMER", "The name of the consumer"))?
        .arg(from(alloc))?;
    add_flags(alloc, add_pipes(alloc, add_numbers(alloc, command)?)?)
}

fn add_pipes<'a>(alloc: Global, command: Command<'a>) -> Result<Command<'a>, AllocError> {
    let lines = "The pipe that the other program reads: a line for each entry";
    let replies = "The pipe that the other program writes: a line for each of those";
    command
        .arg(text(alloc, "lines", "PATH", lines).default_value(LINES))?
        .arg(text(alloc, "replies", "PATH", replies).default_value(REPLIES))
}

fn add_numbers<'a>(alloc: Global, command: Command<'a>) -> Result<Command<'a>, AllocError> {
    command
        .arg(COUNT.arg(alloc))?
        .arg(BLOCK.arg(alloc))?
        .arg(IDLE.arg(alloc))?
        .arg(EVERY.arg(alloc))
}

fn add_flags<'a>(alloc: Global, command: Command<'a>) -> Result<Command<'a>, AllocError> {
    let help = "Entries go to this stream of dead letters after TIMES deliveries, 1 at least";
    command.arg(dead(alloc, help))?.arg(flag(
        alloc,
        "until-empty",
        "It ends with status 0 once a read finds nothing new",
    ))
}
