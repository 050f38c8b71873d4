//! Drains a stream for one consumer of a group into a file, over a connection at its standard input and output:
//!
//! ```text
//! bash -c 'exec 3<>/dev/tcp/127.0.0.1/6379; stream_drain orders packers ann orders.txt <&3 >&3'
//! ```
//!
//! Each entry is one line of the file: the id and the fields, in order and including repeated names, separated
//! by tabs. A backslash, a tab, a line feed and a carriage return are written as `\\`, `\t`, `\n` and `\r`.
//! With `--json` each line is `{"id":"1-0","fields":[["name","value"],..]}`. There a text that is not UTF-8 is
//! written as `{"base64":".."}`.
//!
//! The lines of a batch are on the disk before its entries are acknowledged. Therefore after any crash each
//! added entry is not yet delivered, is pending, is in the file, or was deleted. With `--dead` an entry may
//! have a dead letter instead of a line.
//!
//! If the program is started again, it first acknowledges the entries of the last lines of its file. Therefore
//! no entry has two lines, if no other consumer writes to the file.
//!
//! With the first batch, and then once a second, the program prints its counts and the group's backlog on
//! standard error. At the end it prints its counts. With `--quiet` it prints only the counts at the end.
//!
//! The exit status is 0 if `--until-empty` is given and a read returned nothing new, and 2 if an argument is
//! invalid. Otherwise it is 1, and the reason is printed. `--help` prints the arguments.
#![tactic(auto)]

ghost use Rattle.std.specs.Prelude.{◌≡◌, ◌≤◌, ◌⊎◌, [], IfOk, IfSome, IsOk, IsTrue, OnErr, OnOk, is_some, map, option_map, string_bytes, true};
ghost use Rattle.std.specs.Process.{exit_status};
ghost use Rattle.model_workers.specs.Loops.Loop.{Drains};
ghost use Rattle.worker_journal.specs.Holds.{committed_in};
ghost use Rattle.stream_drain.specs.Program.{BeginsFile, EndsAsSaid, EndsBy, EndsSo, Goes, GoesToTheEnd, IsRun};
ghost use Rattle.stream_drain.specs.Program.{KnowsWhatItHas, RunsAsSaid, RunsBy, Starts, searcher_by, settings_with};
ghost use Rattle.worker.specs.Session.{standing_of};
ghost use Rattle.worker.specs.DeadLetters.Dead.{searcher_of};
ghost use Rattle.command_lines.specs.Words.{asks_help};

mod backlog;
mod drain;
mod failure;
mod json_lines;
mod laws;
mod lines;
mod open;
mod options;
mod report;
mod resume;
mod said;
mod there;

use crate::backlog::Watched;
use crate::drain::{Drained, drain};
use crate::failure::Failure;
use crate::lines::Lines;
use crate::open::Open;
use crate::options::{Options, options_of};
use crate::report::Report;
use crate::resume::{Start, begun};
use anyhow::{Context, Error, Result, anyhow};
use command_lines::{remedy_of, tell_line};
use redis_connection::{Connection, Wait};
use redis_wire::Limits;
use std::alloc::{AllocError, Global};
use std::io::{ErrorKind, Read, Write};
use std::process::ExitCode;
use std::rt::Clock;
use std::{env, io};
use worker::dead_letters::{DeadLetterSearch, GiveUp};
use worker::{Handler, Settings, Worker};
use worker_journal::{LogError, LogFile};

fn main(rt: HostRuntime) -> Result<ExitCode> {
    let (alloc, words) = (rt.alloc(), read_arguments(&rt)?);
    let mut connection = Connection::new(alloc, rt.reader(), io::writer(&rt), Limits::default())?;
    run_by_words(&rt, &rt, &words, &mut connection)
}

/// Parses `words` as the command line, and drains the stream into the file that they name. Returns the exit
/// status 0 if the loop ended because of `--until-empty`, or if the arguments ask for the help. The status is 2
/// if the arguments are invalid, and else 1.
fn run_by_words<
    R: Read + Drop,
    W: Write + Drop,
    D: LogFile + Drop,
    F: Open<D>,
    T: Clock + Eprint + AllocGlobal,
>(rt: &T, files: &F, words: &[String], connection: &mut Connection<R, W>) -> Result<ExitCode>
    ensures status { IfOk result (λ code. exit_status code ≤ 2) }
    ensures ended { IfOk result (λ code. exit_status code ≡ 0 → IsTrue (asks_help (map string_bytes words.now))
        ⊎ EndsAsSaid (F.content files.now) (map string_bytes words.now) connection.old connection.new) }
    ensures failed { IfOk result (λ code. exit_status code ≡ 1 → (connection.new ≡ connection.old)
        ⊎ RunsAsSaid (F.content files.now) (map string_bytes words.now) connection.old connection.new) }
    ensures wrong { IfOk result (λ code. exit_status code ≡ 2 → connection.new ≡ connection.old) }
    ensures err { OnErr result ((connection.new ≡ connection.old)
        ⊎ RunsAsSaid (F.content files.now) (map string_bytes words.now) connection.old connection.new) }
{
    match options_of(rt.alloc(), words) {
        Ok(options) => end_with(rt, drain_by(rt, files, connection, options)),
        Err(error) => Ok(tell_line(rt.alloc(), rt, words, &error)?),
    }
}

/// Returns the exit status: 0, or 1 after a failure. Shows the failure on standard error.
fn end_with<T: Eprint + AllocGlobal>(rt: &T, ended: Result<Drained, Failure>) -> Result<ExitCode>
    ensures ok { OnOk ended (IfOk result (λ code. exit_status code ≡ 0)) }
    ensures err { OnErr ended (IfOk result (λ code. exit_status code ≡ 1)) }
    ensures given { OnOk ended (IsOk result) }
{
    let Err(failure) = ended else {
        return Ok(ExitCode::SUCCESS);
    };
    let text = format_failure(rt.alloc(), &failure)?;
    eprintln!(rt; "Error: {text}")?;
    Ok(ExitCode::FAILURE)
}

/// Returns the text of a failure: the full error of the server, and advice about it. Each control character
/// becomes `?`, since it could control a terminal.
fn format_failure(alloc: Global, failure: &Failure) -> Result<String, AllocError> {
    if let Failure::Other(error) = failure {
        let text = format!(in alloc; "{error:?}")?;
        return mask_controls(alloc, &text, true);
    }
    let text = format!(in alloc; "{failure}")?;
    let mut text = mask_controls(alloc, &text, false)?;
    let remedy = match find_code(&text) {
        Some(code) => remedy_of(code),
        None => None,
    };
    if let Some(remedy) = remedy {
        text.push_str("\n")?;
        text.push_str(remedy)?;
    }
    Ok(text)
}

/// Returns the code of the server's error in the text.
fn find_code(text: &str) -> Option<&str> {
    let (_, error) = text.split_once("the server replied ")?;
    error.split(' ').next()
}

/// Replaces each control character by `?`. Line feeds are kept if `keeps_lines` is true.
fn mask_controls(alloc: Global, text: &str, keeps_lines: bool) -> Result<String, AllocError> {
    let mut shown = String::new(alloc);
    for letter in text.chars() {
        let is_shown = !letter.is_control() || keeps_lines && letter == '\n';
        shown.push(if is_shown { letter } else { '?' })?;
    }
    Ok(shown)
}

/// Returns the arguments of the program.
fn read_arguments(rt: &HostRuntime) -> Result<Vec<String>> {
    let mut words = Vec::new(rt.alloc());
    for word in env::args(rt)?.skip(1) {
        words.push(word)?;
    }
    Ok(words)
}

/// Drains with these options into the file at their path.
fn drain_by<
    R: Read + Drop,
    W: Write + Drop,
    D: LogFile + Drop,
    F: Open<D>,
    T: Clock + Eprint + AllocGlobal,
>(
    rt: &T,
    files: &F,
    connection: &mut Connection<R, W>,
    options: Options,
) -> Result<Drained, Failure>
    ensures ok { OnOk result (EndsBy (F.content files.now) options connection.old connection.new) }
    ensures err { OnErr result ((connection.new ≡ connection.old)
        ⊎ RunsBy (F.content files.now) options connection.old connection.new) }
{
    let alloc = rt.alloc();
    let mut lines = open_lines(alloc, files, &options.path, options.json, options.look_up)?;
    drain_into(rt, connection, &mut lines, options)
}

/// Drains with these options into the file of `lines`.
fn drain_into<R: Read + Drop, W: Write + Drop, D: LogFile + Drop, T: Clock + Eprint + AllocGlobal>(
    rt: &T,
    connection: &mut Connection<R, W>,
    lines: &mut Lines<D>,
    options: Options,
) -> Result<Drained, Failure>
    ensures ended { IfOk result (λ _. IsTrue options.until_empty) }
    ensures ok { OnOk result (EndsSo (settings_with options.dead options.settings) options.wait
        (⟦<Lines<D> as Handler>⟧.history lines.old) connection.old connection.new) }
    ensures err { OnErr result ((connection.new ≡ connection.old)
        ⊎ IsRun (settings_with options.dead options.settings) Drains
        (⟦<Lines<D> as Handler>⟧.history lines.old) connection.old connection.new) }
{
    let mut run = begin_run(rt.alloc(), options, lines)?;
    make_run(rt, connection, lines, &mut run)
}

/// A run of the program before its first command.
#[derive(Drop)]
struct Run {
    worker: Worker,
    report: Report,
    dead: Option<DeadLetterSearch>,
    wait: Option<Wait>,
    until_empty: bool,
}

/// Creates a run with these options over the file of `lines`.
fn begin_run<D: LogFile + Drop>(alloc: Global, options: Options, lines: &Lines<D>) -> Result<Run>
    ensures settings { IfOk result (λ run. run.worker.settings ≡ settings_with options.dead options.settings) }
    ensures starts { IfOk result (λ run. Starts (settings_with options.dead options.settings)
        (⟦<Lines<D> as Handler>⟧.history lines.now)
        (standing_of run.worker (⟦<Lines<D> as Handler>⟧.history lines.now))) }
    ensures wait { IfOk result (λ run. run.wait ≡ options.wait) }
    ensures until_empty { IfOk result (λ run. run.until_empty ≡ options.until_empty) }
    ensures dead { IfOk result (λ run. option_map searcher_of run.dead
        ≡ option_map (searcher_by options.settings) options.dead) }
{
    let mut settings = options.settings;
    let mut report = make_report(alloc, &settings, options.quiet)?;
    let mut dead = make_search(alloc, &mut settings, options.dead)?;
    let start = begin_worker(alloc, settings, lines, &options.path)?;
    report.resumes = start.acknowledges;
    wait_at_start(&mut dead, start.acknowledges);
    Ok(Run {
        worker: start.worker,
        report,
        dead,
        wait: options.wait,
        until_empty: options.until_empty,
    })
}

/// Drains, and shows the counts at the end.
fn make_run<R: Read + Drop, W: Write + Drop, D: LogFile + Drop, T: Clock + Eprint + AllocGlobal>(
    rt: &T,
    connection: &mut Connection<R, W>,
    lines: &mut Lines<D>,
    run: &mut Run,
) -> Result<Drained, Failure>
    ensures ended { IfOk result (λ _. IsTrue run.old.until_empty) }
    ensures ok { OnOk result (GoesToTheEnd run.old.worker.settings run.old.wait
        (standing_of run.old.worker (⟦<Lines<D> as Handler>⟧.history lines.old)) connection.old connection.new) }
    ensures err { OnErr result (Goes run.old.worker.settings Drains
        (standing_of run.old.worker (⟦<Lines<D> as Handler>⟧.history lines.old)) connection.old connection.new) }
{
    let ended = drain(
        rt,
        connection,
        &mut run.worker,
        lines,
        &mut run.report,
        &mut run.dead,
        run.wait,
        run.until_empty,
    );
    run.report.counts.letters = count_letters(&run.dead);
    show_report(rt, &run.report)?;
    ended
}

/// Returns the number of entries that were given up, or `None` if entries are not given up.
fn count_letters(dead: &Option<DeadLetterSearch>) -> Option<u64> {
    match dead {
        Some(dead) => Some(dead.letters()),
        None => None,
    }
}

/// Creates the worker. It first acknowledges the ids of the last lines of its file.
fn begin_worker<D: LogFile + Drop>(
    alloc: Global,
    settings: Settings,
    lines: &Lines<D>,
    path: &str,
) -> Result<Start>
    ensures settings { IfOk result (λ start. start.worker.settings ≡ settings) }
    ensures starts { IfOk result (λ start. Starts settings (⟦<Lines<D> as Handler>⟧.history lines.now)
        (standing_of start.worker (⟦<Lines<D> as Handler>⟧.history lines.now))) }
{
    begun(alloc, settings, lines).context(format_args!("cannot go on with {path}"))
}

/// Makes the search for dead letters skip its first turn, if the worker first acknowledges ids of its file.
fn wait_at_start(dead: &mut Option<DeadLetterSearch>, acknowledges: bool)
    ensures same { option_map searcher_of dead.new ≡ option_map searcher_of dead.old }
    ensures waits { IsTrue acknowledges → IfSome dead.new (λ search. search.waits ≡ true) }
{
    if acknowledges && let Some(dead) = dead {
        dead.wait_once();
    }
}

/// Shows the counts at the end.
fn show_report<T: Eprint>(rt: &T, report: &Report) -> Result<()> {
    eprintln!(rt; "{report}")?;
    Ok(())
}

/// Opens the file at `path` for lines.
fn open_lines<D: LogFile + Drop, F: Open<D>>(
    alloc: Global,
    files: &F,
    path: &str,
    json: bool,
    look_up: bool,
) -> Result<Lines<D>>
    ensures begins { IfOk result (λ lines. BeginsFile (F.content files.now path.now)
        (committed_in (D.seen lines.log.file) lines.log.len)) }
    ensures json { IfOk result (λ lines. lines.json ≡ json) }
    ensures looks { IfOk result (λ lines. is_some lines.known ≡ look_up) }
    ensures knows { IfOk result (λ lines. KnowsWhatItHas (F.content files.now path.now)
        (⟦<Lines<D> as Handler>⟧.history lines)) }
    ensures none { IfOk result (λ lines. lines.log.batch.items ≡ []) }
{
    let file = match files.open(path) {
        Ok(file) => file,
        Err(error) => return Err(describe_open_error(path, error)),
    };
    Lines::open(alloc, file, json, look_up).context(format_args!("cannot open {path}"))
}

/// Returns the error of a file that could not be opened.
fn describe_open_error(path: &str, error: LogError) -> Error {
    match error {
        LogError::File(reason) => {
            if reason.kind() == ErrorKind::WouldBlock {
                anyhow!("another process has the file {path}")
            } else {
                Error::from(LogError::File(reason)).context(format_args!("cannot open {path}"))
            }
        }
        error => Error::from(error).context(format_args!("cannot open {path}")),
    }
}

/// Creates the search for entries that were delivered too often, if `to` is given. Then redelivered entries are
/// requested one at a time.
fn make_search(
    alloc: Global,
    settings: &mut Settings,
    to: Option<GiveUp>,
) -> Result<Option<DeadLetterSearch>>
    ensures settings { OnOk result (settings.new ≡ settings_with to settings.old) }
    ensures search { IfOk result (λ search. option_map searcher_of search
        ≡ option_map (searcher_by settings.old) to) }
{
    match to {
        Some(to) => Ok(Some(DeadLetterSearch::new(alloc, settings, to)?)),
        None => Ok(None),
    }
}

/// Creates the report. It shows the backlog of the group unless the program is quiet.
fn make_report(alloc: Global, settings: &Settings, quiet: bool) -> Result<Report> {
    let mut report = Report::new(quiet);
    if !quiet {
        report.watched = Some(make_watched(alloc, settings)?);
    }
    Ok(report)
}

/// Returns the group whose backlog is shown.
fn make_watched(alloc: Global, settings: &Settings) -> Result<Watched, AllocError> {
    let key = String::from_str(alloc, settings.key())?;
    let group = String::from_str(alloc, settings.group())?;
    Ok(Watched { key, group })
}
