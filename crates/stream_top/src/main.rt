//! Shows the groups of a stream and their consumers as a table on standard error. The connection to the server
//! is the standard input and output:
//!
//! ```text
//! bash -c 'exec 3<>/dev/tcp/127.0.0.1/6379; stream_top orders 60 <&3 >&3'
//! ```
//!
//! The second argument is the number of tables. The program prints one table a second, and one as soon as an
//! entry is added. Between two tables it waits in `XREAD BLOCK 1000`. Times are those of the server's clock. In
//! a name a control character is shown as `?`, a byte that is not UTF-8 as `\xff`, and a backslash as `\\`. The
//! exit status is 0, or 1 if the connection ends, the server returns an error or memory runs out.
//!
//! With `--json` and at least one key the program prints one JSON document, also on standard error. With
//! `--openmetrics` it prints an OpenMetrics text. A key that does not exist is shown as a stream without
//! entries. If the status is 1, the program prints only the reason. The exit status for an invalid argument is
//! 2. `--help` lists the arguments.
#![tactic(auto)]

ghost use Rattle.std.specs.Prelude.{◌≡◌, ◌<◌, ◌≤◌, ◌⊎◌, map, option_map, string_bytes, IfOk, IsErr, IsTrue, OnErr, OnOk, Some};
ghost use Rattle.std.specs.List.{list_any};
ghost use Rattle.std.specs.Process.{exit_status};
ghost use Rattle.command_lines.specs.Words.{asks_help};
ghost use Rattle.redis_connection.specs.Passing.{ReceivesAnswer};
ghost use Rattle.redis_resp.specs.Tree.{Tree};
ghost use Rattle.redis_streams.specs.InfoFullMeaning.{full_meaning};
ghost use Rattle.redis_wire.specs.Reply.{answer, value};
ghost use Rattle.stream_top.specs.Asked.{AreFigures, Ends, EndsAsSaid, Hears, HearsOfKey, Measures, MeasuresAt, MeasuresEach};
ghost use Rattle.stream_top.specs.Asked.{MeasuresOften, SaysSome, WaitsFor, first_keys, found_or_empty};
ghost use Rattle.stream_top.specs.Measured.{each_once, is_no_such_key, is_of, key_of, milliseconds, name_of};
ghost use Rattle.stream_top.specs.Options.{key_bytes, text_of};
ghost use Rattle.stream_top.specs.Shape.{shape_of, shape_of_pair};
ghost use Rattle.stream_top.specs.Text.{json_line, text_in};

mod figures;
mod json_text;
mod open_metrics;
mod options;
mod said;

use crate::figures::{StreamFigures, figures_of};
use crate::json_text::json_text;
use crate::open_metrics::metrics_text;
use crate::options::{Form, Key, Task, Word, task_of, texts_of};
use anyhow::{Result, anyhow};
use command_lines::tell_line;
use redis_connection::{AskError, Connection};
use redis_resp::{FromRedisValue, RawBytes, Value, from_redis_value};
use redis_streams::{StreamInfoFullConsumer, StreamInfoFullGroup, StreamInfoFullReply};
use redis_wire::{Limits, Reply, from_reply};
use std::alloc::{AllocError, Global};
use std::env::{Env, FillError};
use std::io;
use std::io::{Read, Write};
use std::process::ExitCode;
use stream_commands::monitor::group_state::{GroupState, group_state};
use stream_commands::{AtLeastOne, xinfo_stream_full_count, xread_options};
use stream_options::StreamReadOptions;
use unicode_width::UnicodeWidthStr;

/// The largest number of pending entries of a group that are read.
const COUNT: usize = 100;

/// The milliseconds between two tables.
const WAIT: usize = 1000;

/// Reads the stream, if it exists, and the server's time in milliseconds.
fn ask<R: Read + Drop, W: Write + Drop>(
    alloc: Global,
    connection: &mut Connection<R, W>,
    key: &RawBytes,
) -> Result<(Option<StreamInfoFullReply>, usize)>
    ensures asked { OnOk result (Measures key.now.0.items connection.old connection.new) }
    ensures heard { IfOk result (λ asked. MeasuresAt key.now.0.items asked.1 (option_map full_meaning asked.0)
        connection.old connection.new) }
{
    connection.send(alloc, &"TIME")?;
    connection.send(alloc, &xinfo_stream_full_count(key, COUNT))?;
    let (seconds, micros): (usize, usize) = receive_as(alloc, connection)?;
    let now = compute_milliseconds(seconds, micros);
    let Some(reply) = receive_of_key(alloc, connection)? else {
        return Ok((None, now));
    };
    let stream: StreamInfoFullReply = from_redis_value(alloc, copy_value(alloc, &reply)?)?;
    Ok((Some(stream), now))
}

/// Waits until an entry is added after `last_id`, for at most a second.
fn wait<R: Read + Drop, W: Write + Drop>(
    alloc: Global,
    connection: &mut Connection<R, W>,
    key: &RawBytes,
    last_id: &str,
) -> Result<()>
    ensures { OnOk result (WaitsFor key.now.0.items connection.old connection.new) }
{
    let options = StreamReadOptions::default().block(WAIT).count(1);
    let stream = (key, last_id);
    let command = xread_options(AtLeastOne::one(&stream), &options);
    connection.send(alloc, &command)?;
    let reply: Value = receive_as(alloc, connection)?;
    drop(reply);
    Ok(())
}

fn main(rt: HostRuntime) -> Result<ExitCode> {
    let alloc = rt.alloc();
    let words = read_arguments(alloc, &rt)?;
    let mut connection = Connection::new(alloc, rt.reader(), io::writer(&rt), Limits::default())?;
    run_by_words(&rt, &words, &mut connection)
}

/// Performs the task that the arguments specify. Returns the exit status 0 if the task ended, or if the
/// arguments ask for the help. The status is 2 if the arguments are invalid, and 1 if memory ran out while they
/// were parsed.
fn run_by_words<R: Read + Drop, W: Write + Drop, P: Eprint + AllocGlobal>(
    rt: &P,
    words: &[Word],
    connection: &mut Connection<R, W>,
) -> Result<ExitCode>
    ensures status { IfOk result (λ code. exit_status code ≤ 2) }
    ensures ended { IfOk result (λ code. exit_status code ≡ 0 → IsTrue (asks_help (map text_of words.now))
        ⊎ EndsAsSaid words.now connection.old connection.new) }
    ensures wrong { IfOk result (λ code. 0 < exit_status code → connection.new ≡ connection.old) }
    ensures err { OnErr result ((connection.new ≡ connection.old) ⊎ SaysSome words.now) }
{
    let texts = texts_of(rt.alloc(), words)?;
    match task_of(rt.alloc(), words, &texts) {
        Ok(task) => run(rt, connection, &task),
        Err(error) => Ok(tell_line(rt.alloc(), rt, &texts, &error)?),
    }
}

/// Performs a task over the connection.
fn run<R: Read + Drop, W: Write + Drop, P: Eprint + AllocGlobal>(
    rt: &P,
    connection: &mut Connection<R, W>,
    task: &Task,
) -> Result<ExitCode>
    ensures status { IfOk result (λ code. exit_status code ≡ 0) }
    ensures ended { OnOk result (Ends task.now connection.old connection.new) }
{
    do_task(rt, connection, task)?;
    Ok(ExitCode::SUCCESS)
}

/// Prints the tables of a stream, or the figures of streams.
fn do_task<R: Read + Drop, W: Write + Drop, P: Eprint + AllocGlobal>(
    rt: &P,
    connection: &mut Connection<R, W>,
    task: &Task,
) -> Result<()>
    ensures { OnOk result (Ends task.now connection.old connection.new) }
{
    match task {
        Task::Tables { key, rounds } => show_rounds(rt, connection, key, *rounds),
        Task::Text { keys, form } => show_text(rt, connection, keys, *form),
    }
}

/// Prints the table of a stream `rounds` times, and waits for an entry between two tables.
fn show_rounds<R: Read + Drop, W: Write + Drop, P: Eprint + AllocGlobal>(
    rt: &P,
    connection: &mut Connection<R, W>,
    key: &Key,
    rounds: u32,
) -> Result<()>
    ensures { OnOk result (MeasuresOften (key_bytes key.now) rounds connection.old connection.new) }
{
    let Some(before) = rounds.checked_sub(1) else {
        return Ok(());
    };
    for _round in 0..before {
        let last_id = show_table(rt, connection, key)?;
        wait(rt.alloc(), connection, &key.bytes, &last_id)?;
    }
    show_table(rt, connection, key)?;
    Ok(())
}

/// Prints the table of a stream, and returns the stream's last id.
fn show_table<R: Read + Drop, W: Write + Drop, P: Eprint + AllocGlobal>(
    rt: &P,
    connection: &mut Connection<R, W>,
    key: &Key,
) -> Result<String>
    ensures { OnOk result (Measures (key_bytes key.now) connection.old connection.new) }
{
    let alloc = rt.alloc();
    let (found, now) = ask(alloc, connection, &key.bytes)?;
    let Some(stream) = found else {
        return Err(anyhow!("the server replied {NO_SUCH_KEY}"));
    };
    let text = format_page(alloc, &key.name, &stream, now)?;
    eprint!(rt; "{text}")?;
    Ok(stream.last_generated_id)
}

/// Prints the figures of all keys in the form `form`.
fn show_text<R: Read + Drop, W: Write + Drop, P: Eprint + AllocGlobal>(
    rt: &P,
    connection: &mut Connection<R, W>,
    keys: &[Key],
    form: Form,
) -> Result<()>
    ensures { OnOk result (MeasuresEach (map key_bytes (first_keys keys.now)) connection.old connection.new) }
{
    let streams = measure(rt.alloc(), connection, keys)?;
    let text = format_text(rt.alloc(), &streams, form)?;
    eprint!(rt; "{text}")?;
    Ok(())
}

/// Returns the text with the figures in the form `form`.
fn format_text(alloc: Global, streams: &[StreamFigures], form: Form) -> Result<String>
    ensures { IfOk result (λ text. string_bytes text ≡ text_in form streams.now) }
{
    let text = match form {
        Form::Json => make_json_line(alloc, streams)?,
        Form::OpenMetrics => metrics_text(alloc, streams)?,
    };
    match String::from_utf8(text) {
        Ok(text) => Ok(text),
        Err(_) => Err(anyhow!("a text is no UTF-8")),
    }
}

/// Returns the JSON document as a line.
fn make_json_line(alloc: Global, streams: &[StreamFigures]) -> Result<Vec<u8>, AllocError>
    ensures { IfOk result (λ line. line.items ≡ json_line streams.now) }
{
    let mut line = json_text(alloc, streams)?;
    line.push(b'\n')?;
    Ok(line)
}

/// Reads the figures of the streams, for each key once, in order.
fn measure<R: Read + Drop, W: Write + Drop>(
    alloc: Global,
    connection: &mut Connection<R, W>,
    keys: &[Key],
) -> Result<Vec<StreamFigures>>
    ensures once { IfOk result (λ streams. map key_of streams.items ≡ each_once (map name_of keys.now)) }
    ensures asked { OnOk result (MeasuresEach (map key_bytes (first_keys keys.now)) connection.old connection.new) }
{
    let mut streams = Vec::new(alloc);
    for key in keys {
        if !is_measured(&streams, &key.name) {
            streams.push(measure_one(alloc, connection, key)?)?;
        }
    }
    Ok(streams)
}

/// Whether `streams` contains the figures for `key`.
fn is_measured(streams: &[StreamFigures], key: &str) -> bool
    ensures { result ≡ list_any (is_of key.now) streams.now }
{
    streams.iter().any(|stream| key == stream.key.as_str())
}

/// Reads the figures of a stream. A stream that does not exist has no entries and no groups.
fn measure_one<R: Read + Drop, W: Write + Drop>(
    alloc: Global,
    connection: &mut Connection<R, W>,
    key: &Key,
) -> Result<StreamFigures>
    ensures key { IfOk result (λ figures. string_bytes figures.key ≡ string_bytes key.now.name) }
    ensures asked { OnOk result (Measures (key_bytes key.now) connection.old connection.new) }
    ensures figures { IfOk result (λ figures. AreFigures key.now figures connection.old connection.new) }
{
    let (found, now) = ask(alloc, connection, &key.bytes)?;
    let stream = find_or_empty(alloc, found)?;
    Ok(figures_of(alloc, &key.name, &stream, now)?)
}

/// Returns the stream that was found, or an empty stream.
fn find_or_empty(
    alloc: Global,
    found: Option<StreamInfoFullReply>,
) -> Result<StreamInfoFullReply, AllocError>
    ensures { IfOk result (λ stream. full_meaning stream ≡ found_or_empty (option_map full_meaning found)) }
{
    match found {
        Some(stream) => Ok(stream),
        None => StreamInfoFullReply::empty(alloc),
    }
}

/// Returns the arguments of the program.
fn read_arguments<E: Env>(alloc: Global, rt: &E) -> Result<Vec<Word>> {
    let mut words = Vec::new(alloc);
    for number in 1..usize::MAX {
        let Some(bytes) = read_argument(alloc, rt, number)? else {
            break;
        };
        let text = escape_bytes(alloc, &bytes)?;
        words.push(Word {
            bytes: RawBytes(bytes),
            text,
        })?;
    }
    Ok(words)
}

/// The largest length of an argument in bytes.
const LONGEST: usize = 131_072;

/// Returns the argument with this number, as bytes.
fn read_argument<E: Env>(alloc: Global, rt: &E, number: usize) -> Result<Option<Vec<u8>>> {
    let mut word = vec![in alloc; 0u8; LONGEST]?;
    match rt.arg(number, &mut word) {
        Ok(len) => {
            word.truncate(len);
            Ok(Some(word))
        }
        Err(FillError::NotPresent) => Ok(None),
        Err(FillError::TooLong) => Err(anyhow!("a word is too long")),
    }
}

/// Receives the next reply as a record.
fn receive_as<M: FromRedisValue, R: Read + Drop, W: Write + Drop>(
    alloc: Global,
    connection: &mut Connection<R, W>,
) -> Result<M, AskError>
    ensures hears { OnOk result (Hears connection.old connection.new) }
    ensures reads { IfOk result (λ m. (t : Tree) × ReceivesAnswer connection.old connection.new (value t)
        × (M.reading t ≡ Some (M.meaning m))) }
{
    let reply = connection.receive(alloc)?;
    Ok(from_reply::<M>(alloc, reply)?)
}

/// Returns the milliseconds of a reply to `TIME`, or the largest number if there are more.
fn compute_milliseconds(seconds: usize, micros: usize) -> usize
    ensures { result ≡ milliseconds seconds micros }
{
    seconds.saturating_mul(1000).saturating_add(micros / 1000)
}

/// Receives the reply to a command on a key. Returns `None` if the key does not exist.
fn receive_of_key<R: Read + Drop, W: Write + Drop>(
    alloc: Global,
    connection: &mut Connection<R, W>,
) -> Result<Option<Value>, AskError>
    ensures hears { OnOk result (Hears connection.old connection.new) }
    ensures of_key { IfOk result (λ found. HearsOfKey found connection.old connection.new) }
{
    let reply = connection.receive(alloc)?;
    if is_no_such_key(&reply) {
        return Ok(None);
    }
    Ok(Some(from_reply::<Value>(alloc, reply)?))
}

/// The server's error for a key that does not exist.
const NO_SUCH_KEY: &str = "ERR no such key";

/// Whether the reply is the error `NO_SUCH_KEY`.
fn is_no_such_key(reply: &Reply) -> bool
    ensures { result ≡ is_no_such_key (answer reply.now) }
{
    match reply {
        Reply::Error(error) => error.text.as_slice() == NO_SUCH_KEY.as_bytes(),
        _ => false,
    }
}

/// An entry with more deliveries than this number was delivered too often.
const TIMES: usize = 3;

/// A consumer with pending entries counts as dead if it was not seen for this number of milliseconds.
const SILENT: usize = 60_000;

/// The columns, and the side on which the texts of each column are aligned.
const COLUMNS: [(&str, Side); 8] = [
    ("GROUP", Side::Left),
    ("LAG", Side::Right),
    ("PENDING", Side::Right),
    ("OLDEST", Side::Right),
    ("TOO OFTEN", Side::Right),
    ("CONSUMER", Side::Left),
    ("PENDING", Side::Right),
    ("SEEN", Side::Left),
];

/// The number of columns for a group, and for one of its consumers.
const OF_GROUP: usize = 5;

const OF_CONSUMER: usize = 3;

/// Returns the page of a stream. `now` is the time of the server's clock in milliseconds.
fn format_page(
    alloc: Global,
    key: &str,
    stream: &StreamInfoFullReply,
    now: usize,
) -> Result<String, AllocError> {
    let mut cells = Vec::new(alloc);
    for (title, _side) in &COLUMNS {
        cells.push(String::from_str(alloc, title)?)?;
    }
    for group in &stream.groups {
        push_group(alloc, &mut cells, group, now)?;
    }
    let mut text = format_heading(alloc, key, stream)?;
    push_table(&mut text, &cells)?;
    Ok(text)
}

/// Returns the heading of a page, about the whole stream.
fn format_heading(
    alloc: Global,
    key: &str,
    stream: &StreamInfoFullReply,
) -> Result<String, AllocError> {
    let mut text = mask_name(alloc, key)?;
    write!(
        text,
        ": {} entries, {} groups, last id {}\n",
        stream.length,
        stream.groups.len(),
        stream.last_generated_id
    )?;
    Ok(text)
}

/// Appends the rows of a group: one row for each consumer, or one row if there are no consumers.
fn push_group(
    alloc: Global,
    cells: &mut Vec<String>,
    group: &StreamInfoFullGroup,
    now: usize,
) -> Result<(), AllocError> {
    let state = group_state(alloc, group, now, TIMES, SILENT)?;
    push_state(alloc, cells, &group.name, &state)?;
    if group.consumers.is_empty() {
        return push_empty(alloc, cells, OF_CONSUMER);
    }
    for (index, consumer) in group.consumers.iter().enumerate() {
        if index > 0 {
            push_empty(alloc, cells, OF_GROUP)?;
        }
        push_consumer(alloc, cells, consumer, &state, now)?;
    }
    Ok(())
}

/// Appends `count` empty cells.
fn push_empty(alloc: Global, cells: &mut Vec<String>, count: usize) -> Result<(), AllocError> {
    for _ in 0..count {
        cells.push(String::new(alloc))?;
    }
    Ok(())
}

/// Appends the cells of a group: the name, the lag, the pending entries, their age, and the number delivered
/// too often.
fn push_state(
    alloc: Global,
    cells: &mut Vec<String>,
    name: &str,
    state: &GroupState,
) -> Result<(), AllocError> {
    cells.push(mask_name(alloc, name)?)?;
    cells.push(match state.lag {
        Some(lag) => format_number(alloc, lag)?,
        None => String::from_str(alloc, "?")?,
    })?;
    cells.push(format_number(alloc, state.pending)?)?;
    cells.push(match state.oldest_idle {
        Some(idle) => format_age(alloc, idle)?,
        None => String::from_str(alloc, "-")?,
    })?;
    cells.push(format_number(alloc, state.too_often.len())?)?;
    Ok(())
}

/// Appends the cells of a consumer: the name, the number of its pending entries, and the time since it was
/// seen.
fn push_consumer(
    alloc: Global,
    cells: &mut Vec<String>,
    consumer: &StreamInfoFullConsumer,
    state: &GroupState,
    now: usize,
) -> Result<(), AllocError> {
    cells.push(mask_name(alloc, &consumer.name)?)?;
    cells.push(format_number(alloc, consumer.pending_count)?)?;
    let mut seen = format_age(alloc, now.saturating_sub(consumer.seen_time))?;
    seen.push_str(" ago")?;
    if is_among(&consumer.name, &state.dead) {
        seen.push_str(", dead")?;
    }
    cells.push(seen)?;
    Ok(())
}

fn is_among(name: &str, names: &[String]) -> bool {
    for other in names {
        if other.as_str() == name {
            return true;
        }
    }
    false
}

fn format_number(alloc: Global, number: usize) -> Result<String, AllocError> {
    format!(in alloc; "{number}")
}

/// Formats milliseconds as a short text for people.
fn format_age(alloc: Global, milliseconds: usize) -> Result<String, AllocError> {
    let seconds = milliseconds / 1000;
    if seconds < 60 {
        format!(in alloc; "{}.{}s", seconds, milliseconds % 1000 / 100)
    } else if seconds < 3600 {
        format!(in alloc; "{}m", seconds / 60)
    } else if seconds < 86_400 {
        format!(in alloc; "{}h", seconds / 3600)
    } else {
        format!(in alloc; "{}d", seconds / 86_400)
    }
}

/// Returns a name for display. Each control character becomes `?`, since it could control a terminal.
fn mask_name(alloc: Global, name: &str) -> Result<String, AllocError> {
    let mut text = String::new(alloc);
    for letter in name.chars() {
        if letter.is_control() {
            text.push('?')?;
        } else {
            text.push(letter)?;
        }
    }
    Ok(text)
}

/// The side of its column on which the text of a cell is aligned.
#[derive(Clone, Copy, PartialEq, Eq)]
enum Side {
    /// For names.
    Left,
    /// For numbers.
    Right,
}

/// Appends `count` spaces.
fn push_blanks(line: &mut String, count: usize) -> Result<(), AllocError> {
    for _ in 0..count {
        line.push(' ')?;
    }
    Ok(())
}

/// Appends a row, with two spaces between columns and no spaces at the end.
fn push_row(line: &mut String, row: &[String], widths: &[usize]) -> Result<(), AllocError> {
    let mut blanks = 0usize;
    for ((cell, width), (_title, side)) in row.iter().zip(widths).zip(&COLUMNS) {
        let left = width.saturating_sub(cell.as_str().width());
        if *side == Side::Right {
            blanks = blanks.saturating_add(left);
        }
        if !cell.is_empty() {
            push_blanks(line, blanks)?;
            line.push_str(cell)?;
            blanks = 0;
        }
        if *side == Side::Left {
            blanks = blanks.saturating_add(left);
        }
        blanks = blanks.saturating_add(2);
    }
    line.push('\n')
}

/// Appends the cells as a table, row by row.
fn push_table(text: &mut String, cells: &[String]) -> Result<(), AllocError> {
    let mut widths = [0usize; 8];
    for (index, cell) in cells.iter().enumerate() {
        let column = index % 8;
        widths[column] = widths[column].max(cell.as_str().width());
    }
    for row in cells.chunks(8) {
        push_row(text, row, &widths)?;
    }
    Ok(())
}

// Texts for display: a byte that is not UTF-8 is shown as `\xff`, and a backslash as `\\`. Therefore two
// different names never have the same text.

/// Copies a value so that each text in the copy is UTF-8.
#[cycle(legible)]
fn copy_value(alloc: Global, value: &Value) -> Result<Value, AllocError>
    ensures { IfOk result (λ copy. shape_of copy ≡ shape_of value.now) }
{
    match value {
        Value::BulkString(bytes) => Ok(Value::BulkString(escape_bytes(alloc, bytes)?.into_bytes())),
        Value::Array(values) => Ok(Value::Array(copy_values(alloc, values)?)),
        Value::Set(values) => Ok(Value::Set(copy_values(alloc, values)?)),
        Value::Map(pairs) => Ok(Value::Map(copy_pairs(alloc, pairs)?)),
        Value::Attribute { payload, .. } => copy_value(alloc, payload),
        other => other.try_clone(alloc),
    }
}

#[cycle(legible)]
fn copy_values(alloc: Global, values: &Vec<Value>) -> Result<Vec<Value>, AllocError>
    ensures { IfOk result (λ copies. map shape_of copies.items ≡ map shape_of values.now.items) }
{
    let mut copies = Vec::with_capacity(alloc, values.len())?;
    for value in values {
        copies.push(copy_value(alloc, value)?)?;
    }
    Ok(copies)
}

#[cycle(legible)]
fn copy_pairs(alloc: Global, pairs: &Vec<(Value, Value)>) -> Result<Vec<(Value, Value)>, AllocError>
    ensures { IfOk result (λ copies. map shape_of_pair copies.items ≡ map shape_of_pair pairs.now.items) }
{
    let mut copies = Vec::with_capacity(alloc, pairs.len())?;
    for pair in pairs {
        let name = copy_value(alloc, &pair.0)?;
        copies.push((name, copy_value(alloc, &pair.1)?))?;
    }
    Ok(copies)
}

/// Converts bytes to a text.
fn escape_bytes(alloc: Global, bytes: &[u8]) -> Result<String, AllocError> {
    let mut text = String::new(alloc);
    for chunk in bytes.utf8_chunks() {
        for letter in chunk.valid().chars() {
            if letter == '\\' {
                text.push('\\')?;
            }
            text.push(letter)?;
        }
        for byte in chunk.invalid() {
            write!(text, "\\x{byte:02x}")?;
        }
    }
    Ok(text)
}
