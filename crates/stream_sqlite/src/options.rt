//! The arguments of the program.
ghost use Rattle.std.specs.Prelude.{◌≡◌, ◌≤◌, [], length, map, string_bytes, IfOk, None, codes};
ghost use Rattle.clap.specs.Words.{first_value, found_of};
ghost use Rattle.command_lines.specs.WorkerSettings.{GivesUp, IsWord};
ghost use Rattle.stream_sqlite.specs.Options.{AreOptions, AreOptionsOf, ForwardsTo, IsOtherThan};

use crate::said::{OptionArity, says};
use clap::builder::ValueParser;
use clap::{Arg, ArgMatches, Command, Error};
use command_lines::{
    BLOCK, EVERY, IDLE, Line, Number, command, dead, flag, from, give_up_of, matches_of, name,
    refused, refused_value, settings_of, text, word_of,
};
use std::alloc::{AllocError, Global};
use worker::Settings;
use worker::dead_letters::GiveUp;
use worker_sqlite::OUTBOX;
use worker_table::row_table::{Column, Kind};

/// The default name of the table.
pub const TABLE: &str = "entries";

/// The options of the program.
#[derive(Drop)]
pub struct Options {
    pub settings: Settings,
    pub path: String,
    /// The name of the table.
    pub table: String,
    /// The columns of the table. If there are none, all fields are one text.
    pub columns: Vec<Column>,
    /// Whether the program ends when a read returns no new entries.
    pub until_empty: bool,
    /// The stream that entries are forwarded to.
    pub forward: Option<String>,
    /// The stream of dead letters, and the number of deliveries after which an entry is moved there. If set,
    /// entries that cannot be rows are left pending.
    pub dead: Option<GiveUp>,
}

pub const COUNT: Number = Number {
    name: "count",
    value: "ENTRIES",
    help: "Maximum number of entries at once, from 1 to 10000; a batch is one transaction",
    least: 1,
    most: 10_000,
    usual: "1000",
};

/// Parses the arguments with clap. Returns an error if the arguments do not specify the parsed options.
pub fn options_of(alloc: Global, words: &[String]) -> Result<Options, Error>
    ensures least { IfOk result (λ _. 4 ≤ length words.now) }
    ensures said { IfOk result (λ options. AreOptionsOf (map string_bytes words.now) options) }
{
    let mut command = make_command(alloc)?;
    let matches = matches_of(alloc, &mut command, words, 4)?;
    let options = parse_options(alloc, &mut command, &matches)?;
    let line = Line::read::<OptionArity>(alloc, words)?;
    if !says(alloc, &line, &matches, &options)? {
        return Err(refused(
            alloc,
            &mut command,
            &"internal error: the parsed options do not match the arguments",
        ));
    }
    Ok(options)
}

/// Returns the options that clap found in the arguments.
fn parse_options(
    alloc: Global,
    command: &mut Command<'_>,
    matches: &ArgMatches<'_>,
) -> Result<Options, Error>
    ensures ok { IfOk result (λ options. AreOptions (found_of matches.now) options) }
{
    let settings = settings_of(alloc, command, matches, &COUNT)?;
    let table = parse_table(alloc, command, matches)?;
    let columns = parse_columns(alloc, command, matches)?;
    let forward = parse_forward(alloc, command, matches)?;
    let dead = parse_dead(alloc, command, matches)?;
    Ok(Options {
        settings,
        path: String::from_str(alloc, word_of(matches, "FILE"))?,
        table,
        columns,
        until_empty: matches.get_flag("until-empty"),
        forward,
        dead,
    })
}

fn make_command<'a>(alloc: Global) -> Result<Command<'a>, AllocError> {
    let about = "Drains a stream for one consumer of a group into a table of a SQLite file.";
    let command = command(alloc, "stream_sqlite", about)
        .arg(name(alloc, "KEY", "The stream"))?
        .arg(name(alloc, "GROUP", "The group of consumers"))?
        .arg(name(alloc, "CONSUMER", "The name of the consumer"))?
        .arg(name(
            alloc,
            "FILE",
            "The file of SQLite, which is made if it is missing",
        ))?
        .arg(from(alloc))?;
    add_rest(alloc, command)
}

fn add_rest<'a>(alloc: Global, command: Command<'a>) -> Result<Command<'a>, AllocError> {
    let columns =
        "Its columns, as item:text,pieces:integer,photo:blob?; without them the fields are one text";
    command
        .arg(COUNT.arg(alloc))?
        .arg(BLOCK.arg(alloc))?
        .arg(IDLE.arg(alloc))?
        .arg(EVERY.arg(alloc))?
        .arg(dead(alloc, DEAD_HELP))?
        .arg(text(alloc, "table", "NAME", "The name of the table").default_value(TABLE))?
        .arg(text(alloc, "columns", "LIST", columns))?
        .arg(make_forward_arg(alloc))?
        .arg(flag(
            alloc,
            "until-empty",
            "It ends with status 0 once a read finds nothing new",
        ))
}

/// The option `--forward`.
fn make_forward_arg<'a>(alloc: Global) -> Arg<'a> {
    let help =
        "Sends the entries on to this stream, each under its own id, after they are committed";
    text(alloc, "forward", "TARGET", help).value_parser(ValueParser::NonEmptyString)
}

/// Returns the columns of a list such as `item:text,pieces:integer,photo:blob?`, or no columns if there is no
/// list.
fn parse_columns(
    alloc: Global,
    command: &mut Command<'_>,
    matches: &ArgMatches<'_>,
) -> Result<Vec<Column>, Error>
    ensures left_out { IfOk result (λ columns. first_value (found_of matches.now) (codes "columns") ≡ None → columns.items ≡ []) }
{
    let mut columns = Vec::new(alloc);
    let Some(list) = matches.get_str("columns") else {
        return Ok(columns);
    };
    for part in list.split(',') {
        let column = parse_column(alloc, command, part)?;
        if is_taken(&columns, &column.name) {
            let reason = "another column has this name";
            return Err(refused_value(alloc, command, &column.name, COLUMNS, reason));
        }
        columns.push(column)?;
    }
    Ok(columns)
}

// The names of the options in errors.
const COLUMNS: &str = "--columns <LIST>";

const FORWARD: &str = "--forward <TARGET>";

const NAME: &str = "--table <NAME>";

const DEAD: &str = "--dead <TIMES> <STREAM>";

const DEAD_HELP: &str =
    "Entries that are no row are left pending, and go to this stream after TIMES deliveries, 1 at least";

/// Returns the name of the table. A name that begins with `sqlite_` is an error, since the database reserves
/// such names.
fn parse_table(
    alloc: Global,
    command: &mut Command<'_>,
    matches: &ArgMatches<'_>,
) -> Result<String, Error>
    ensures { IfOk result (λ table. IsWord (found_of matches.now) (codes "table") table) }
{
    let table = word_of(matches, "table");
    if let Some(front) = table.get(..OWN.len())
        && front.eq_ignore_ascii_case(OWN)
    {
        let reason = "names that begin with 'sqlite_' are the database's own";
        return Err(refused_value(alloc, command, table, NAME, reason));
    }
    Ok(String::from_str(alloc, table)?)
}

/// The prefix of names that the database reserves.
const OWN: &str = "sqlite_";

/// Parses a column: the name, and the kind of the values. With a question mark a row may have no value.
fn parse_column(alloc: Global, command: &mut Command<'_>, part: &str) -> Result<Column, Error> {
    let Some((name, kind)) = part.rsplit_once(':') else {
        let reason = "a column is NAME:text, NAME:integer or NAME:blob";
        return Err(refused_value(alloc, command, part, COLUMNS, reason));
    };
    let (kind, optional) = match kind.strip_suffix('?') {
        Some(kind) => (kind, true),
        None => (kind, false),
    };
    Ok(Column {
        name: String::from_str(alloc, name)?,
        kind: parse_kind(alloc, command, kind)?,
        optional,
    })
}

fn parse_kind(alloc: Global, command: &mut Command<'_>, kind: &str) -> Result<Kind, Error> {
    match kind {
        "text" => Ok(Kind::Text),
        "integer" => Ok(Kind::Integer),
        "blob" => Ok(Kind::Blob),
        _ => {
            let reason = "a column is of text, integer or blob";
            Err(refused_value(alloc, command, kind, COLUMNS, reason))
        }
    }
}

/// Returns the stream that entries are forwarded to, if one is given. KEY is an error. With `--forward` the
/// table `outbox` is an error too.
fn parse_forward(
    alloc: Global,
    command: &mut Command<'_>,
    matches: &ArgMatches<'_>,
) -> Result<Option<String>, Error>
    ensures { IfOk result (λ target. ForwardsTo (found_of matches.now) target) }
{
    let Some(target) = matches.get_str("forward") else {
        return Ok(None);
    };
    if target == word_of(matches, "KEY") {
        let reason = "the entries come from this stream";
        return Err(refused_value(alloc, command, target, FORWARD, reason));
    }
    let table = word_of(matches, "table");
    if table.eq_ignore_ascii_case(OUTBOX) {
        let reason = "with --forward this is the outbox";
        return Err(refused_value(alloc, command, table, NAME, reason));
    }
    Ok(Some(String::from_str(alloc, target)?))
}

/// Returns the value of `--dead`, if it is given: the number of deliveries after which entries are given up,
/// and the stream for them. The stream must be neither KEY nor TARGET.
fn parse_dead(
    alloc: Global,
    command: &mut Command<'_>,
    matches: &ArgMatches<'_>,
) -> Result<Option<GiveUp>, Error>
    ensures ok { IfOk result (λ to. GivesUp (found_of matches.now) to) }
    ensures other { IfOk result (λ to. IsOtherThan (found_of matches.now) to) }
{
    let to = give_up_of(alloc, command, matches)?;
    if let Some(some) = &to
        && some.stream.as_str() == word_of(matches, "forward")
    {
        let reason = "STREAM must not be TARGET";
        return Err(refused_value(alloc, command, &some.stream, DEAD, reason));
    }
    Ok(to)
}

/// Whether a column has this name. The case of ASCII letters is ignored.
fn is_taken(columns: &[Column], name: &str) -> bool {
    for column in columns {
        if column.name.eq_ignore_ascii_case(name) {
            return true;
        }
    }
    name.eq_ignore_ascii_case("milliseconds") || name.eq_ignore_ascii_case("sequence")
}
