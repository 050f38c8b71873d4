//! Fills a stream with the lines of a file, each once and in order, over a connection at its standard input and output:
//!
//! ```text
//! bash -c 'exec 3<>/dev/tcp/127.0.0.1/6379; stream_fill orders orders.txt <&3 >&3'
//! ```
//!
//! The line k is a record with the id `(base + k)-0` and one field. The field's name is `line`, or the name
//! that `--field` gives. With `--json` each line is an object of texts, `{"name":"value",..}`, or a line that
//! `stream_drain --json` wrote, with the same fields. There a text that is not UTF-8 is written as
//! `{"base64":".."}`.
//!
//! A batch has `--batch` records, 1,000 by default. With `--wait REPLICAS MS` each batch waits for REPLICAS
//! replicas, at most MS milliseconds.
//!
//! The program stores nothing on disk, but with `--onto` the base in FILE.onto. It reads from the server how many
//! of the lines are added, and continues after them. Therefore after any failure call the program again with the
//! same arguments.
//!
//! At the end the program prints its counts on standard error. The exit status is 0 if all lines are added, and
//! 2 if an argument is invalid. Otherwise it is 1, and the reason is printed. A last line without a line end is
//! not added, and is such a reason. `--help` prints the arguments.
#![tactic(auto)]

ghost use Rattle.std.specs.Prelude.{◌≡◌, ◌≢◌, ◌≤◌, ◌⊎◌, IfOk, IfSome, IsErr, IsOk, IsTrue, OnErr, OnOk, false, map, string_bytes};
ghost use Rattle.std.specs.Process.{exit_status};
ghost use Rattle.command_lines.specs.Words.{asks_help};
ghost use Rattle.stream_fill.specs.Filled.{FillsNot};
ghost use Rattle.stream_fill.specs.Program.{FillsAsSaid, FillsBy, StopsAsSaid, StopsBy};
ghost use Rattle.worker_producer.specs.Confirmed.{FinishedConfirmed};

mod byte_file;
mod json_records;
mod kept_base;
mod laws;
mod line_reader;
mod lines;
mod onto;
mod open;
mod options;
mod said;
mod split;

use crate::byte_file::ByteFile;
use crate::lines::Lines;
use crate::onto::find_settings;
use crate::open::Open;
use crate::options::{Options, apply_trim, options_of};
use anyhow::{Error, Result, anyhow, bail};
use command_lines::tell_line;
use redis_connection::{Connection, EarlyWriter, Wait};
use redis_wire::Limits;
use std::alloc::{AllocError, Global};
use std::io::{Read, Write};
use std::process::ExitCode;
use std::{env, io};
use worker_journal::LogFile;
use worker_producer::{
    ConfirmedError, Counts, FeedError, FillError, RequestError, RunError, Settings, Source, fill,
};

fn main(rt: HostRuntime) -> Result<ExitCode> {
    let (alloc, words) = (rt.alloc(), read_arguments(&rt)?);
    let writer = EarlyWriter::new(alloc, io::writer(&rt));
    let mut connection = Connection::new(alloc, rt.reader(), writer, Limits::default())?;
    run_by_words(&rt, &rt, &words, &mut connection)
}

/// Parses `words` as the command line, and fills the stream from the file that they name. Returns the exit
/// status 0 if all lines are added, or if the arguments ask for the help. The status is 2 if the arguments are
/// invalid. Any other failure is returned as an error.
fn run_by_words<
    R: Read + Drop,
    W: Write + Drop,
    F: ByteFile + Drop,
    D: LogFile + Drop,
    O: Open<F, D>,
    T: Eprint + AllocGlobal,
>(
    rt: &T,
    files: &O,
    words: &[String],
    connection: &mut Connection<R, EarlyWriter<W>>,
) -> Result<ExitCode>
    ensures status { IfOk result (λ code. exit_status code ≤ 2) }
    ensures filled { IfOk result (λ code. exit_status code ≡ 0 → IsTrue (asks_help (map string_bytes words.now))
        ⊎ FillsAsSaid (O.content files.now) (map string_bytes words.now) connection.old connection.new) }
    ensures unsent { IfOk result (λ code. exit_status code ≢ 0 → connection.new ≡ connection.old) }
    ensures err { OnErr result ((connection.new ≡ connection.old)
        ⊎ StopsAsSaid (O.content files.now) (map string_bytes words.now) connection.old connection.new) }
{
    match options_of(rt.alloc(), words) {
        Ok(options) => choose_exit(rt.alloc(), fill_by(rt, files, connection, options)),
        Err(error) => Ok(tell_line(rt.alloc(), rt, words, &error)?),
    }
}

/// Returns the exit status 0 if all lines are added, and else the error.
fn choose_exit(alloc: Global, outcome: Result<()>) -> Result<ExitCode>
    ensures all { OnOk outcome (IfOk result (λ code. exit_status code ≡ 0)) }
    ensures given { OnOk outcome (IsOk result) }
    ensures failed { OnErr outcome (IsErr result) }
{
    match outcome {
        Ok(()) => Ok(ExitCode::SUCCESS),
        Err(error) => Err(mask_error(alloc, error)),
    }
}

/// Returns the error for display. Each control character in its text becomes `?`, since it could control a
/// terminal.
fn mask_error(alloc: Global, error: Error) -> Error {
    match mask_text(alloc, &error) {
        Ok(Some(text)) => Error::msg(text),
        Ok(None) | Err(_) => error,
    }
}

/// Returns the text of an error with `?` for each control character. Returns `None` if the text has no control
/// character.
fn mask_text(alloc: Global, error: &Error) -> Result<Option<String>, AllocError> {
    let text = format!(in alloc; "{error}")?;
    if !text.chars().any(char::is_control) {
        return Ok(None);
    }
    let mut shown = String::new(alloc);
    for letter in text.chars() {
        shown.push(if letter.is_control() { '?' } else { letter })?;
    }
    Ok(Some(shown))
}

/// Returns the arguments of the program.
fn read_arguments(rt: &HostRuntime) -> Result<Vec<String>> {
    let mut words = Vec::new(rt.alloc());
    for word in env::args(rt)?.skip(1) {
        words.push(word)?;
    }
    Ok(words)
}

/// Fills the stream with these options from the file at their path.
fn fill_by<
    R: Read + Drop,
    W: Write + Drop,
    F: ByteFile + Drop,
    D: LogFile + Drop,
    O: Open<F, D>,
    T: Eprint + AllocGlobal,
>(rt: &T, files: &O, connection: &mut Connection<R, EarlyWriter<W>>, options: Options) -> Result<()>
    ensures ok { OnOk result (FillsBy (O.content files.now) options connection.old connection.new) }
    ensures err { OnErr result ((connection.new ≡ connection.old)
        ⊎ StopsBy (O.content files.now) options connection.old connection.new) }
{
    let Options {
        settings,
        trim,
        path,
        form,
        is_onto,
        wait,
    } = options;
    let (alloc, path) = (rt.alloc(), path.as_str());
    let file = open_lines(files, path)?;
    let mut lines = Lines::new(alloc, file, form)?;
    let settings = apply_trim(settings, trim);
    let based = find_settings(alloc, files, connection, settings, path, is_onto)?;
    let ended = fill_with(rt, connection, based.settings, &mut lines, wait, is_onto);
    // No other run can open the file of the base before this point.
    drop(based.kept);
    ended
}

/// Opens the file with the lines.
fn open_lines<F: ByteFile, D: LogFile, O: Open<F, D>>(files: &O, path: &str) -> Result<F>
    ensures { IfOk result (λ file. F.bytes file ≡ O.content files.now path.now) }
{
    match files.open_lines(path) {
        Ok(file) => Ok(file),
        Err(error) => Err(Error::from(error).context(format_args!("cannot open {path}"))),
    }
}

/// Adds the lines, and shows the counts. A last line without a line end is an error.
fn fill_with<R: Read + Drop, W: Write + Drop, F: ByteFile + Drop, T: Eprint + AllocGlobal>(
    rt: &T,
    connection: &mut Connection<R, EarlyWriter<W>>,
    settings: Settings,
    lines: &mut Lines<F>,
    wait: Option<Wait>,
    is_onto: bool,
) -> Result<()>
    ensures all { OnOk result (FinishedConfirmed wait settings (⟦<Lines<F> as Source>⟧.records lines.old)
        lines.old.count connection.old connection.new) }
    ensures whole { OnOk result (lines.old.is_torn ≡ false) }
    ensures failed { OnErr result (FillsNot wait settings (⟦<Lines<F> as Source>⟧.records lines.old)
        lines.old.count connection.old connection.new) }
{
    let mut counts = Counts::new();
    let (count, is_torn) = (lines.count, lines.is_torn);
    let ended = fill(
        rt.alloc(),
        connection,
        settings,
        lines,
        count,
        wait,
        &mut counts,
    );
    eprintln!(rt; "{counts}")?;
    if let Err(error) = ended {
        return Err(explain_error(error, lines.fault.take(), is_onto));
    }
    if is_torn {
        bail!("the last line has no end, and is not added");
    }
    Ok(())
}

/// Returns the error for lines that were not added. If records could not be read, it is the error of the file.
/// If the stream has entries of another writer, the error suggests `--onto`, unless the option was given.
fn explain_error(error: FillError, fault: Option<Error>, is_onto: bool) -> Error
    ensures { error ≡ FillError.Round (ConfirmedError.Round (RunError.Request RequestError.NotRead))
        → IfSome fault (λ f. result ≡ f) }
{
    match (error, fault) {
        (
            FillError::Round(ConfirmedError::Round(RunError::Request(RequestError::NotRead))),
            Some(fault),
        ) => fault,
        (FillError::Round(ConfirmedError::Round(RunError::Answer(FeedError::OtherWriter))), _) => {
            if is_onto {
                anyhow!("another writer adds to the stream")
            } else {
                anyhow!(
                    "the stream has entries of another writer: --onto adds all lines after them"
                )
            }
        }
        (error, _) => error.into(),
    }
}
