//! The arguments of the program.
ghost use Rattle.std.specs.Prelude.{◌≡◌, ◌≤◌, length, map, string_bytes, IfOk};
ghost use Rattle.stream_top.specs.Options.{IsTaskOf, text_of};

use crate::said::{OptionArity, says};
use clap::builder::ValueParser;
use clap::{Arg, ArgAction, ArgGroup, ArgMatches, Command, Error};
use command_lines::{Line, command, flag, matches_of, refused, word_of};
use redis_resp::RawBytes;
use std::alloc::{AllocError, Global};

/// An argument of the command line.
#[derive(Drop)]
pub struct Word {
    pub bytes: RawBytes,
    /// The text that the argument is shown as. Different arguments never have the same text.
    pub text: String,
}

/// The task of the program.
#[derive(Drop)]
pub enum Task {
    /// Prints tables of a stream, `rounds` times.
    Tables { key: Key, rounds: u32 },
    /// Prints the figures of streams once.
    Text { keys: Vec<Key>, form: Form },
}

/// A key of a stream.
#[derive(Drop)]
pub struct Key {
    pub bytes: RawBytes,
    /// The text that the key is shown as.
    pub name: String,
}

/// The format of the figures.
#[derive(Clone, Copy)]
pub enum Form {
    Json,
    OpenMetrics,
}

const PROGRAM: &str = "stream_top";

const USAGE: &str =
    "stream_top <KEY> <ROUNDS>\n       stream_top <--json|--openmetrics> [--once] <KEY>...";

const KEY: &str = "KEY";

const ROUNDS: &str = "ROUNDS";

/// The id of the group of `--json` and `--openmetrics`.
const FORM: &str = "form";

const JSON: &str = "json";

const OPEN_METRICS: &str = "openmetrics";

/// Parses the arguments with clap. `texts` are their texts. Returns an error if the texts do not specify the
/// parsed task.
pub fn task_of(alloc: Global, words: &[Word], texts: &[String]) -> Result<Task, Error>
    ensures least { IfOk result (λ _. 1 ≤ length texts.now) }
    ensures said { IfOk result (λ task. IsTaskOf words.now (map string_bytes texts.now) task) }
{
    let mut command = make_command(alloc)?;
    let task = parse_task(alloc, &mut command, words, texts)?;
    let line = Line::read::<OptionArity>(alloc, texts)?;
    if !says(alloc, &line, words, &task)? {
        return Err(refused(
            alloc,
            &mut command,
            &"internal error: the parsed options do not match the arguments",
        ));
    }
    Ok(task)
}

/// Returns the task that clap finds in the texts of the arguments.
fn parse_task<'a>(
    alloc: Global,
    command: &mut Command<'a>,
    words: &[Word],
    texts: &'a [String],
) -> Result<Task, Error>
    ensures { IfOk result (λ _. 1 ≤ length texts.now) }
{
    let matches = matches_of(alloc, command, texts, 1)?;
    let Some(form) = parse_form(&matches) else {
        return parse_tables(alloc, words, texts);
    };
    let keys = parse_keys(alloc, words, &matches)?;
    Ok(Task::Text { keys, form })
}

/// Returns the texts of the arguments.
pub fn texts_of(alloc: Global, words: &[Word]) -> Result<Vec<String>, AllocError>
    ensures { IfOk result (λ texts. map string_bytes texts.items ≡ map text_of words.now) }
{
    let mut texts = Vec::new(alloc);
    for word in words {
        texts.push(word.text.clone()?)?;
    }
    Ok(texts)
}

fn make_command<'a>(alloc: Global) -> Result<Command<'a>, AllocError> {
    let about =
        "Shows the groups of a stream in a table, ROUNDS times, or prints the figures of streams for monitors.";
    let json = "Prints the figures of all KEYs once, as a document of JSON";
    let open_metrics = "Prints the figures of all KEYs once, as a text of OpenMetrics";
    let once = "Only with one of these, which print once without it too";
    command(alloc, PROGRAM, about)
        .override_usage(USAGE)
        .arg(make_keys_arg(alloc))?
        .arg(flag(alloc, JSON, json))?
        .arg(flag(alloc, OPEN_METRICS, open_metrics))?
        .arg(flag(alloc, "once", once).requires_arg(FORM)?)?
        .group(ArgGroup::new(alloc, FORM).arg(JSON)?.arg(OPEN_METRICS)?)
}

fn make_keys_arg<'a>(alloc: Global) -> Arg<'a> {
    Arg::new(alloc, KEY)
        .required(true)
        .action(ArgAction::Append)
        .num_args(1..)
        .help("The stream; with --json or --openmetrics one stream or more")
}

fn parse_form(matches: &ArgMatches<'_>) -> Option<Form> {
    if matches.get_flag(JSON) {
        Some(Form::Json)
    } else if matches.get_flag(OPEN_METRICS) {
        Some(Form::OpenMetrics)
    } else {
        None
    }
}

/// Returns the keys in the arguments, in order.
fn parse_keys(
    alloc: Global,
    words: &[Word],
    matches: &ArgMatches<'_>,
) -> Result<Vec<Key>, AllocError> {
    let mut keys = Vec::new(alloc);
    if let Some(names) = matches.get_strs(KEY) {
        for name in names {
            keys.push(parse_key(alloc, words, name)?)?;
        }
    }
    Ok(keys)
}

/// Returns the key with the text `name`.
fn parse_key(alloc: Global, words: &[Word], name: &str) -> Result<Key, AllocError> {
    let mut bytes = Vec::new(alloc);
    for word in words {
        if word.text.as_str() == name {
            bytes = word.bytes.0.clone()?;
        }
    }
    Ok(Key {
        bytes: RawBytes(bytes),
        name: String::from_str(alloc, name)?,
    })
}

/// Returns the task without a format: a key, and the number of tables to print.
fn parse_tables(alloc: Global, words: &[Word], texts: &[String]) -> Result<Task, Error>
    ensures { IfOk result (λ _. 1 ≤ length texts.now) }
{
    let mut command = command(alloc, PROGRAM, "")
        .override_usage(USAGE)
        .arg(Arg::new(alloc, KEY).required(true).action(ArgAction::Set))?
        .arg(make_rounds_arg(alloc))?;
    let matches = matches_of(alloc, &mut command, texts, 2)?;
    let key = parse_key(alloc, words, word_of(&matches, KEY))?;
    let rounds = matches.get_one::<u32>(ROUNDS).unwrap_or(0);
    Ok(Task::Tables { key, rounds })
}

fn make_rounds_arg<'a>(alloc: Global) -> Arg<'a> {
    Arg::new(alloc, ROUNDS)
        .required(true)
        .action(ArgAction::Set)
        .value_parser(ValueParser::unsigned(0, u64::from(u32::MAX)))
}
