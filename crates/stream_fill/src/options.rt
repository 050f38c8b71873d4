//! The arguments of the program.
ghost use Rattle.std.specs.Prelude.{◌≡◌, ◌≤◌, IfOk, IfSome, length, map, string_bytes};
ghost use Rattle.clap.specs.Words.{found_of};
ghost use Rattle.command_lines.specs.Numbers.{number_of};
ghost use Rattle.stream_fill.specs.Options.{AreOptions, AreOptionsOf, AreSettings, HasForm, HasMode, Trims, TrimsBy};
ghost use Rattle.stream_fill.specs.Program.{trimmed};

use crate::lines::Form;
use crate::said::{OptionArity, says};
use clap::{ArgMatches, Command, Error};
use command_lines::{
    Line, Number, command, confirmation_of, flag, matches_of, name, refused, refused_value, text,
    wait, word_of,
};
use redis_connection::Wait;
use std::alloc::{AllocError, Global};
use stream_options::{StreamTrimStrategy, StreamTrimmingMode};
use worker_producer::Settings;

/// The options of the program.
#[derive(Drop)]
pub struct Options {
    /// The stream, the base and the largest number of records in a batch. These settings do not trim the
    /// stream.
    pub settings: Settings,
    /// How each XADD trims the stream, or `None` if it does not.
    pub trim: Option<StreamTrimStrategy>,
    pub path: String,
    pub form: Form,
    /// Whether the lines are added after the stream's entries.
    pub is_onto: bool,
    /// The number of replicas that must confirm each batch, and how long to wait for them.
    pub wait: Option<Wait>,
}

pub const BATCH: Number = Number {
    name: "batch",
    value: "RECORDS",
    help: "Maximum number of records at once, from 1 to 10000",
    least: 1,
    most: 10_000,
    usual: "1000",
};

pub const BASE: Number = Number {
    name: "base",
    value: "N",
    help: "The record of the line k has the id (N + k)-0",
    least: 0,
    most: u64::MAX - 1,
    usual: "0",
};

const MAXLEN: &str = "Each XADD keeps the newest N entries of the stream, as its MAXLEN";

const MINID: &str = "Each XADD keeps the entries from this id on, as its MINID";

const APPROXIMATE: &str =
    "With --maxlen or --minid: as XADD's ~, it may keep somewhat more, which is faster";

/// Parses the arguments with clap. Returns an error if the arguments do not specify the parsed options.
pub fn options_of(alloc: Global, words: &[String]) -> Result<Options, Error>
    ensures least { IfOk result (λ _. 2 ≤ length words.now) }
    ensures said { IfOk result (λ options. AreOptionsOf (map string_bytes words.now) options) }
{
    let mut command = make_command(alloc)?;
    let matches = matches_of(alloc, &mut command, words, 2)?;
    let options = parse_options(alloc, &mut command, &matches)?;
    let line = Line::read::<OptionArity>(alloc, words)?;
    if !says(alloc, &line, &matches, &options)? {
        return Err(refused(
            alloc,
            &mut command,
            &"internal error: the parsed options do not match the arguments",
        ));
    }
    Ok(options)
}

/// Returns the options that clap found in the arguments.
fn parse_options(
    alloc: Global,
    command: &mut Command<'_>,
    matches: &ArgMatches<'_>,
) -> Result<Options, Error>
    ensures { IfOk result (λ options. AreOptions (found_of matches.now) options) }
{
    let settings = parse_settings(alloc, command, matches)?;
    let trim = parse_strategy(alloc, command, matches)?;
    let wait = confirmation_of(alloc, command, matches)?;
    Ok(Options {
        settings,
        trim,
        path: String::from_str(alloc, word_of(matches, "FILE"))?,
        form: parse_form(alloc, matches)?,
        is_onto: matches.get_flag("onto"),
        wait,
    })
}

fn make_command<'a>(alloc: Global) -> Result<Command<'a>, AllocError> {
    let about = "Fills a stream with the lines of a file, each once and in order.";
    let field = "The name of the one field of each record, whose value is the line";
    let json = "Each line is an object of texts, or a line of stream_drain --json";
    let onto =
        "The lines are added after what the stream has, and FILE.onto keeps from which id on";
    let help =
        "Each batch must be confirmed by REPLICAS replicas within MS milliseconds, each number 1 at least";
    command(alloc, "stream_fill", about)
        .arg(name(alloc, "KEY", "The stream"))?
        .arg(name(alloc, "FILE", "The file"))?
        .arg(text(alloc, "field", "NAME", field).default_value("line"))?
        .arg(flag(alloc, "json", json))?
        .arg(BATCH.arg(alloc))?
        .arg(BASE.arg(alloc))?
        .arg(flag(alloc, "onto", onto).conflicts_with("base")?)?
        .arg(text(alloc, "maxlen", "N", MAXLEN))?
        .arg(text(alloc, "minid", "ID", MINID).conflicts_with("maxlen")?)?
        .arg(flag(alloc, "approximate", APPROXIMATE))?
        .arg(wait(alloc, help))
}

/// Returns the form of the lines.
fn parse_form(alloc: Global, matches: &ArgMatches<'_>) -> Result<Form, AllocError>
    ensures { IfOk result (λ form. HasForm (found_of matches.now) form) }
{
    if matches.get_flag("json") {
        return Ok(Form::Json);
    }
    let field = String::from_str(alloc, word_of(matches, "field"))?;
    Ok(Form::Text(field.into_bytes()))
}

/// Returns the settings: the values of KEY, `--base` and `--batch`.
fn parse_settings(
    alloc: Global,
    command: &mut Command<'_>,
    matches: &ArgMatches<'_>,
) -> Result<Settings, Error>
    ensures { IfOk result (λ settings. AreSettings (found_of matches.now) settings) }
{
    let key = String::from_str(alloc, word_of(matches, "KEY"))?;
    let base = BASE.of(matches).unwrap_or(0);
    let batch = BATCH.of(matches).unwrap_or(0) as usize;
    match Settings::new(key, base, batch) {
        Ok(settings) => Ok(settings),
        Err(error) => Err(refused(alloc, command, &error)),
    }
}

/// Returns the settings with the trimming of each XADD, if any.
pub fn apply_trim(settings: Settings, trim: Option<StreamTrimStrategy>) -> Settings
    ensures { result ≡ trimmed trim settings }
{
    match trim {
        Some(strategy) => settings.trim(strategy),
        None => settings,
    }
}

/// Returns the trimming of each XADD, if the arguments specify any.
fn parse_strategy(
    alloc: Global,
    command: &mut Command<'_>,
    matches: &ArgMatches<'_>,
) -> Result<Option<StreamTrimStrategy>, Error>
    ensures { IfOk result (λ trim. Trims (found_of matches.now) trim) }
{
    let mode = parse_mode(matches);
    parse_trim(alloc, command, matches, mode)
}

/// Returns the trimming mode, exact or approximate.
fn parse_mode(matches: &ArgMatches<'_>) -> StreamTrimmingMode
    ensures { HasMode (found_of matches.now) result }
{
    if matches.get_flag("approximate") {
        StreamTrimmingMode::Approx
    } else {
        StreamTrimmingMode::Exact
    }
}

/// Returns the trimming of each XADD in this mode, by `--maxlen` or `--minid`, if one of them is given.
fn parse_trim(
    alloc: Global,
    command: &mut Command<'_>,
    matches: &ArgMatches<'_>,
    mode: StreamTrimmingMode,
) -> Result<Option<StreamTrimStrategy>, Error>
    ensures { IfOk result (λ trim. TrimsBy (found_of matches.now) mode trim) }
{
    if let Some(word) = matches.get_str("maxlen") {
        let Some(len) = parse_length(word) else {
            let reason = "wanted is a number of entries";
            return Err(refused_value(alloc, command, word, "--maxlen <N>", reason));
        };
        return Ok(Some(StreamTrimStrategy::maxlen(mode, len)));
    }
    if let Some(word) = matches.get_str("minid") {
        if !is_id(word) {
            let reason = "wanted is an id, as 1526919030474-0";
            return Err(refused_value(alloc, command, word, "--minid <ID>", reason));
        }
        let id = String::from_str(alloc, word)?;
        return Ok(Some(StreamTrimStrategy::minid(mode, id)));
    }
    if matches.get_flag("approximate") {
        let reason = "--approximate goes with --maxlen or --minid";
        return Err(refused(alloc, command, &reason));
    }
    Ok(None)
}

/// Parses a length that MAXLEN accepts: a number below 2^63.
fn parse_length(word: &str) -> Option<usize>
    ensures { IfSome result (λ len. len ≡ number_of word.now) }
{
    let len = word.parse::<usize>().ok()?;
    if len > i64::MAX as usize {
        return None;
    }
    Some(len)
}

/// Whether an argument is an id: a number, or two numbers with a hyphen between them.
fn is_id(word: &str) -> bool {
    match word.split_once('-') {
        Some((first, second)) => is_number(first) && is_number(second),
        None => is_number(word),
    }
}

/// Whether an argument is a number of 64 bits, with digits only.
fn is_number(word: &str) -> bool {
    word.parse::<u64>().is_ok() && !word.starts_with('+')
}
