//! Drains a stream for one consumer of a group into a table of a SQLite file. The connection to the server is
//! the standard input and output:
//!
//! ```text
//! bash -c 'exec 3<>/dev/tcp/127.0.0.1/6379; stream_sqlite orders packers ann orders.db <&3 >&3'
//! ```
//!
//! Each entry is a row of the table `entries`. The columns `milliseconds` and `sequence` are the id, and
//! `fields` is a JSON text, `[["name","value"],..]`. With `--table NAME` the table has another name. With
//! `--columns item:text,pieces:integer,photo:blob?` a row has the fields with these names instead of the text.
//!
//! A batch is one transaction. Its entries are acknowledged after the commit. An entry whose id is in the table
//! is skipped if its fields are equal. Otherwise the program ends with an error.
//!
//! With `--forward TARGET` each new row is added to the stream TARGET of the same server, under its own id. The
//! commands for that are in the table `outbox` of the same file. Each is inserted in the transaction of its
//! row, and removed after the server's reply.
//!
//! With `--dead N STREAM` an entry that cannot be a row is left pending. After N deliveries it is moved to the
//! stream of dead letters STREAM.
//!
//! At the end the program prints its counts on standard error. The exit status is 0 if `--until-empty` is given
//! and a read returned nothing new, and 2 if an argument is invalid. Otherwise it is 1, and the reason is
//! printed. `--help` lists the arguments.
#![tactic(auto)]

ghost use Rattle.std.specs.Prelude.{◌≡◌, ◌<◌, ◌≤◌, ◌⊎◌, IfOk, IsErr, IsOk, IsTrue, Ok, OnErr, OnOk, map, option_map, string_bytes};
ghost use Rattle.std.specs.Process.{exit_status};
ghost use Rattle.command_lines.specs.Words.{asks_help};
ghost use Rattle.model_workers.specs.Loops.Loop.{Drains, Loops};
ghost use Rattle.stream_sqlite.specs.Program.{EndsAsSaid, EndsBy, IsRun, RunsAsSaid, RunsBy, SendsAll, SendsSome, searcher_by, settings_with};
ghost use Rattle.worker.specs.DeadLetters.Dead.{searcher_of};

mod drain;
mod masked;
mod open;
mod options;
mod said;

use crate::drain::forward::forward;
use crate::drain::{Drained, drain};
use crate::masked::Masked;
use crate::open::Open;
use crate::options::{Options, options_of};
use anyhow::{Error, Result};
use command_lines::{Counts, tell_line};
use redis_connection::Connection;
use redis_wire::Limits;
use sqlite::Alter;
use std::alloc::{AllocError, Global};
use std::io::{Read, Write};
use std::process::ExitCode;
use std::{env, io};
use worker::dead_letters::{DeadLetterSearch, GiveUp};
use worker::{Handler, Settings, Worker};
use worker_sqlite::{SqliteOutbox, SqliteTable};
use worker_table::row_table::{Table, WithOutbox};
use worker_table::{Forwarding, Rows};

fn main(rt: HostRuntime) -> Result<ExitCode> {
    let (alloc, words) = (rt.alloc(), read_arguments(&rt)?);
    let mut connection = Connection::new(alloc, rt.reader(), io::writer(&rt), Limits::default())?;
    run_over_sqlite(&rt, &rt, &words, &mut connection)
}

/// Calls `run_by_words` with the types of a SQLite table.
fn run_over_sqlite<
    R: Read + Drop,
    W: Write + Drop,
    S: Alter + Drop,
    F: Open<SqliteTable<S>, SqliteOutbox<S>>,
    P: Eprint + AllocGlobal,
>(rt: &P, files: &F, words: &[String], connection: &mut Connection<R, W>) -> Result<ExitCode> {
    run_by_words(rt, files, words, connection)
}

/// Parses `words` as the command line, and drains the stream into the table that they name. Returns the exit
/// status 0 if the loop ended because of `--until-empty`, or if the arguments ask for the help. The status is 2
/// if the arguments are invalid, and 1 if memory ran out while they were parsed.
fn run_by_words<
    R: Read + Drop,
    W: Write + Drop,
    T: Table + Drop,
    O: WithOutbox + Drop,
    F: Open<T, O>,
    P: Eprint + AllocGlobal,
>(rt: &P, files: &F, words: &[String], connection: &mut Connection<R, W>) -> Result<ExitCode>
    ensures status { IfOk result (λ code. exit_status code ≤ 2) }
    ensures ended { IfOk result (λ code. exit_status code ≡ 0 → IsTrue (asks_help (map string_bytes words.now))
        ⊎ EndsAsSaid (F.rows files.now) (map string_bytes words.now) connection.old connection.new) }
    ensures wrong { IfOk result (λ code. 0 < exit_status code → connection.new ≡ connection.old) }
    ensures err { OnErr result ((connection.new ≡ connection.old)
        ⊎ RunsAsSaid (F.rows files.now) (map string_bytes words.now) connection.old connection.new) }
{
    match options_of(rt.alloc(), words) {
        Ok(options) => end_with(rt.alloc(), drain_by(rt, files, connection, options)),
        Err(error) => Ok(tell_line(rt.alloc(), rt, words, &error)?),
    }
}

/// Returns the exit status 0, or the failure. The exit status of a failure is 1.
fn end_with(alloc: Global, ended: Result<Drained>) -> Result<ExitCode>
    ensures ok { OnOk ended (IfOk result (λ code. exit_status code ≡ 0)) }
    ensures given { OnOk ended (IsOk result) }
    ensures failed { OnErr ended (IsErr result) }
{
    match ended {
        Ok(_drained) => Ok(ExitCode::SUCCESS),
        Err(error) => Err(mask_error(alloc, error)),
    }
}

/// Returns the error for display. Each control character in its text becomes `?`.
fn mask_error(alloc: Global, error: Error) -> Error {
    match mask_text(alloc, &error) {
        Ok(Some(text)) => Error::msg(text),
        Ok(None) | Err(_) => error,
    }
}

/// Returns the text of an error with `?` for each control character. Returns `None` if the text has no control
/// character.
fn mask_text(alloc: Global, error: &Error) -> Result<Option<String>, AllocError> {
    let text = format!(in alloc; "{error}")?;
    if !text.chars().any(char::is_control) {
        return Ok(None);
    }
    Ok(Some(format!(in alloc; "{}", Masked(&text))?))
}

/// Returns the arguments of the program.
fn read_arguments(rt: &HostRuntime) -> Result<Vec<String>> {
    let mut words = Vec::new(rt.alloc());
    for word in env::args(rt)?.skip(1) {
        words.push(word)?;
    }
    Ok(words)
}

/// The part of the options that does not depend on the table.
#[derive(Drop)]
struct Work {
    settings: Settings,
    dead: Option<GiveUp>,
    until_empty: bool,
}

/// Drains with these options into the table that they name.
fn drain_by<
    R: Read + Drop,
    W: Write + Drop,
    T: Table + Drop,
    O: WithOutbox + Drop,
    F: Open<T, O>,
    P: Eprint + AllocGlobal,
>(rt: &P, files: &F, connection: &mut Connection<R, W>, options: Options) -> Result<Drained>
    ensures ok { OnOk result (EndsBy (F.rows files.now) options connection.old connection.new) }
    ensures err { OnErr result ((connection.new ≡ connection.old)
        ⊎ RunsBy (F.rows files.now) options connection.old connection.new) }
{
    let Options {
        settings,
        path,
        table,
        columns,
        until_empty,
        forward,
        dead,
    } = options;
    let opened = files.open(&path, &table, &columns)?;
    let work = Work {
        settings,
        dead,
        until_empty,
    };
    match forward {
        Some(target) => {
            let outbox = files.with_outbox(&path, opened)?;
            let rows = Forwarding::new(rt.alloc(), outbox, columns, target);
            forward_into(rt, files, connection, &path, rows, work)
        }
        None => {
            let rows = Rows::with_columns(rt.alloc(), opened, columns);
            drain_into(rt, files, connection, &path, rows, work)
        }
    }
}

/// Drains into the table of `rows`, and closes the table. The table is in the file at `path`.
fn drain_into<
    R: Read + Drop,
    W: Write + Drop,
    T: Table + Drop,
    O: WithOutbox + Drop,
    F: Open<T, O>,
    P: Eprint + AllocGlobal,
>(
    rt: &P,
    files: &F,
    connection: &mut Connection<R, W>,
    path: &str,
    rows: Rows<T>,
    work: Work,
) -> Result<Drained>
    ensures ended { IfOk result (λ _. IsTrue work.until_empty) }
    ensures ok { OnOk result (IsRun (settings_with work.dead work.settings) Loops
        (⟦<Rows<T> as Handler>⟧.history rows) connection.old connection.new) }
    ensures err { OnErr result ((connection.new ≡ connection.old)
        ⊎ IsRun (settings_with work.dead work.settings) Drains
        (⟦<Rows<T> as Handler>⟧.history rows) connection.old connection.new) }
{
    let mut rows = rows;
    let ended = drain_over(rt, connection, &mut rows, work);
    let mut table = rows.into_table();
    let shown = files.show_waiting(&mut table);
    let closed = files.close(path, table);
    end_after(ended, shown, closed)
}

/// Drains into the table of `rows`, forwards the entries, and closes the table. The table is in the file at
/// `path`.
fn forward_into<
    R: Read + Drop,
    W: Write + Drop,
    T: Table + Drop,
    O: WithOutbox + Drop,
    F: Open<T, O>,
    P: Eprint + AllocGlobal,
>(
    rt: &P,
    files: &F,
    connection: &mut Connection<R, W>,
    path: &str,
    rows: Forwarding<O>,
    work: Work,
) -> Result<Drained>
    ensures ended { IfOk result (λ _. IsTrue work.until_empty) }
    ensures ok { OnOk result (SendsAll (settings_with work.dead work.settings)
        (⟦<Forwarding<O> as Handler>⟧.history rows) connection.old connection.new) }
    ensures err { OnErr result ((connection.new ≡ connection.old)
        ⊎ SendsSome (settings_with work.dead work.settings)
        (⟦<Forwarding<O> as Handler>⟧.history rows) connection.old connection.new) }
{
    let mut rows = rows;
    let ended = forward_over(rt, connection, &mut rows, work);
    let table = files.without_outbox(rows.into_table());
    let closed = files.close(path, table);
    end_after(ended, Ok(()), closed)
}

/// Returns the outcome of a run. The error of the run comes first, then that of showing the outbox, and then
/// that of closing the table.
fn end_after(ended: Result<Drained>, shown: Result<()>, closed: Result<()>) -> Result<Drained>
    ensures { IfOk result (λ drained. ended ≡ Ok drained) }
{
    let drained = ended?;
    shown?;
    closed?;
    Ok(drained)
}

/// Drains over the connection, and prints the counts.
fn drain_over<R: Read + Drop, W: Write + Drop, T: Table + Drop, P: Eprint + AllocGlobal>(
    rt: &P,
    connection: &mut Connection<R, W>,
    rows: &mut Rows<T>,
    work: Work,
) -> Result<Drained>
    ensures ended { IfOk result (λ _. IsTrue work.until_empty) }
    ensures ok { OnOk result (IsRun (settings_with work.dead work.settings) Loops
        (⟦<Rows<T> as Handler>⟧.history rows.old) connection.old connection.new) }
    ensures err { OnErr result ((connection.new ≡ connection.old)
        ⊎ IsRun (settings_with work.dead work.settings) Drains
        (⟦<Rows<T> as Handler>⟧.history rows.old) connection.old connection.new) }
{
    let run = begin_run(rt.alloc(), work)?;
    rows.leave_unfit(run.dead.is_some());
    make_run(rt, connection, rows, run)
}

/// Drains over the connection, forwards the entries, and prints the counts.
fn forward_over<R: Read + Drop, W: Write + Drop, T: WithOutbox + Drop, P: Eprint + AllocGlobal>(
    rt: &P,
    connection: &mut Connection<R, W>,
    rows: &mut Forwarding<T>,
    work: Work,
) -> Result<Drained>
    ensures ended { IfOk result (λ _. IsTrue work.until_empty) }
    ensures ok { OnOk result (SendsAll (settings_with work.dead work.settings)
        (⟦<Forwarding<T> as Handler>⟧.history rows.old) connection.old connection.new) }
    ensures err { OnErr result ((connection.new ≡ connection.old)
        ⊎ SendsSome (settings_with work.dead work.settings)
        (⟦<Forwarding<T> as Handler>⟧.history rows.old) connection.old connection.new) }
{
    let run = begin_run(rt.alloc(), work)?;
    rows.leave_unfit(run.dead.is_some());
    make_run_forwarding(rt, connection, rows, run)
}

/// A run of the program before its first command.
#[derive(Drop)]
struct Run {
    /// The settings of its worker.
    settings: Settings,
    counts: Counts,
    dead: Option<DeadLetterSearch>,
    until_empty: bool,
}

/// Creates a run for this work.
fn begin_run(alloc: Global, work: Work) -> Result<Run>
    ensures settings { IfOk result (λ run. run.settings ≡ settings_with work.dead work.settings) }
    ensures until_empty { IfOk result (λ run. run.until_empty ≡ work.until_empty) }
    ensures dead { IfOk result (λ run. option_map searcher_of run.dead
        ≡ option_map (searcher_by work.settings) work.dead) }
{
    let mut settings = work.settings;
    let dead = make_search(alloc, &mut settings, work.dead)?;
    Ok(Run {
        settings,
        counts: Counts::new(),
        dead,
        until_empty: work.until_empty,
    })
}

/// Creates the search for entries that were delivered too often, if `to` is given. Then redelivered entries are
/// requested one at a time.
fn make_search(
    alloc: Global,
    settings: &mut Settings,
    to: Option<GiveUp>,
) -> Result<Option<DeadLetterSearch>>
    ensures settings { OnOk result (settings.new ≡ settings_with to settings.old) }
    ensures search { IfOk result (λ search. option_map searcher_of search
        ≡ option_map (searcher_by settings.old) to) }
{
    match to {
        Some(to) => Ok(Some(DeadLetterSearch::new(alloc, settings, to)?)),
        None => Ok(None),
    }
}

/// Drains, and prints the counts at the end.
fn make_run<R: Read + Drop, W: Write + Drop, T: Table + Drop, P: Eprint + AllocGlobal>(
    rt: &P,
    connection: &mut Connection<R, W>,
    rows: &mut Rows<T>,
    run: Run,
) -> Result<Drained>
    ensures ended { IfOk result (λ _. IsTrue run.until_empty) }
    ensures ok { OnOk result (IsRun run.settings Loops
        (⟦<Rows<T> as Handler>⟧.history rows.old) connection.old connection.new) }
    ensures err { OnErr result (IsRun run.settings Drains
        (⟦<Rows<T> as Handler>⟧.history rows.old) connection.old connection.new) }
{
    let Run {
        settings,
        mut counts,
        mut dead,
        until_empty,
    } = run;
    let mut worker = Worker::new(rt.alloc(), settings);
    let ended = drain(
        rt,
        connection,
        &mut worker,
        rows,
        &mut counts,
        &mut dead,
        until_empty,
    );
    counts.letters = count_letters(&dead);
    show_counts(rt, &counts)?;
    ended
}

/// Drains and forwards the entries, and prints the counts at the end.
fn make_run_forwarding<
    R: Read + Drop,
    W: Write + Drop,
    T: WithOutbox + Drop,
    P: Eprint + AllocGlobal,
>(rt: &P, connection: &mut Connection<R, W>, rows: &mut Forwarding<T>, run: Run) -> Result<Drained>
    ensures ended { IfOk result (λ _. IsTrue run.until_empty) }
    ensures ok { OnOk result (SendsAll run.settings
        (⟦<Forwarding<T> as Handler>⟧.history rows.old) connection.old connection.new) }
    ensures err { OnErr result (SendsSome run.settings
        (⟦<Forwarding<T> as Handler>⟧.history rows.old) connection.old connection.new) }
{
    let Run {
        settings,
        mut counts,
        mut dead,
        until_empty,
    } = run;
    let mut forwarder = Worker::new(rt.alloc(), settings);
    let ended = forward(
        rt,
        connection,
        &mut forwarder,
        rows,
        &mut counts,
        &mut dead,
        until_empty,
    );
    counts.letters = count_letters(&dead);
    show_sent(rt, &counts, rows.sent)?;
    ended
}

/// Returns the number of entries that were given up, or `None` if entries are not given up.
fn count_letters(dead: &Option<DeadLetterSearch>) -> Option<u64> {
    match dead {
        Some(dead) => Some(dead.letters()),
        None => None,
    }
}

/// Prints the counts.
fn show_counts<P: Eprint>(rt: &P, counts: &Counts) -> Result<()> {
    eprintln!(rt; "{counts}")?;
    Ok(())
}

/// Prints the counts, and the number of forwarded entries.
fn show_sent<P: Eprint>(rt: &P, counts: &Counts, sent: u64) -> Result<()> {
    eprintln!(rt; "{counts}, {sent} sent on")?;
    Ok(())
}
