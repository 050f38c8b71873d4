//! Passes each entry of a stream to another program, the child, for one consumer of a group. The connection to
//! the server is the standard input and output. The child may be in any language. It reads lines from the pipe
//! that is `/dev/fd/4` here, and writes lines to the pipe that is `/dev/fd/3`. `--lines` and `--replies` give
//! other paths.
//!
//! For each entry the child reads one line, `{"id":"1-0","fields":[["name","value"],..],"stream":"orders"}`.
//! Then it writes one line:
//!
//! - `done`: the entry is acknowledged together with the other entries of its batch.
//! - `later` or `later TEXT`: the entry stays pending, and is claimed again after the idle time.
//! - `dead TEXT`: with `--dead` the entry is given up at once, and its dead letter contains the text. Without
//!   `--dead` the reply means `later TEXT`.
//! - `stop`: the entry stays pending, and the program ends with status 0.
//! - `{"done":true,"add":[["results",{"id":"7"}]]}`: the entry is done. Before it is acknowledged, entries are
//!   added to other streams.
//!
//! An entry that is not done is acknowledged only if it is given up. At the end the program prints its counts
//! on standard error.
//!
//! The exit status is 0 if the child replied `stop`, or if `--until-empty` is given and a read returned nothing
//! new. It is 2 if an argument is invalid, and 4 if the child sends no valid reply. Otherwise it is 1, and the
//! reason is printed. `--help` prints the arguments.
#![tactic(auto)]

ghost use Rattle.std.specs.Prelude.{◌≡◌, ◌≤◌, ◌⊎◌, IfErr, IfOk, IsOk, IsTrue, OnErr, OnOk, map, option_map, string_bytes};
ghost use Rattle.std.specs.Process.{exit_status};
ghost use Rattle.command_lines.specs.Words.{asks_help};
ghost use Rattle.worker.specs.Session.{standing_of};
ghost use Rattle.stream_run.specs.Failures.{IsOfChild};
ghost use Rattle.stream_run.specs.Program.{ChildFailsAsSaid, ChildFailsBy, EndsAsSaid, EndsBy, EndsSo, IsNew, OverSo, StopsAsSaid, StopsBy, StopsSo, first_talk, newborn, searcher_by, settings_with};
ghost use Rattle.worker.specs.DeadLetters.Dead.{searcher_of};

mod drain;
mod failure;
mod laws;
mod open;
mod options;
mod report;
mod said;

use crate::drain::{Drained, drain};
use crate::failure::Failure;
use crate::open::OpenPipes;
use crate::options::{Options, options_of};
use crate::report::Report;
use anyhow::Result;
use command_lines::tell_line;
use redis_connection::Connection;
use redis_wire::Limits;
use std::alloc::{AllocError, Global};
use std::io::{Read, Write};
use std::process::ExitCode;
use std::{env, io};
use worker::dead_letters::{DeadLetterSearch, GiveUp};
use worker::{Handler, Settings, Worker};
use worker_jobs::{Jobs, SteadyRead, SteadyWrite};

/// The exit status if the child sends no valid reply.
const CHILD_FAILED: u8 = 4;

fn main(rt: HostRuntime) -> Result<ExitCode> {
    let (alloc, words) = (rt.alloc(), read_arguments(&rt)?);
    let mut connection = Connection::new(alloc, rt.reader(), io::writer(&rt), Limits::default())?;
    run_by_words(&rt, &rt, &words, &mut connection)
}

/// Parses `words` as the command line, and passes the entries to the child at the pipes that they name. Returns
/// the exit status 0 if the loop ended because of `stop` or `--until-empty`, or if the arguments ask for the
/// help. The status is 2 if the arguments are invalid, 4 if the child failed, and else 1.
fn run_by_words<
    R: Read + Drop,
    W: Write + Drop,
    C: SteadyRead + Drop,
    D: SteadyWrite + Drop,
    P: OpenPipes<C, D>,
    T: Eprint + AllocGlobal,
>(rt: &T, pipes: &P, words: &[String], connection: &mut Connection<R, W>) -> Result<ExitCode>
    ensures status { IfOk result (λ code. (exit_status code ≤ 2) ⊎ (exit_status code ≡ 4)) }
    ensures ended { IfOk result (λ code. exit_status code ≡ 0 → IsTrue (asks_help (map string_bytes words.now))
        ⊎ EndsAsSaid (P.held pipes.now) (P.coming pipes.now) (map string_bytes words.now)
        connection.old connection.new) }
    ensures failed { IfOk result (λ code. exit_status code ≡ 1 → (connection.new ≡ connection.old)
        ⊎ StopsAsSaid (P.held pipes.now) (P.coming pipes.now) (map string_bytes words.now)
        connection.old connection.new) }
    ensures wrong { IfOk result (λ code. exit_status code ≡ 2 → connection.new ≡ connection.old) }
    ensures child { IfOk result (λ code. exit_status code ≡ 4
        → ChildFailsAsSaid (P.held pipes.now) (P.coming pipes.now) (map string_bytes words.now)
        connection.old connection.new) }
    ensures err { OnErr result ((connection.new ≡ connection.old)
        ⊎ StopsAsSaid (P.held pipes.now) (P.coming pipes.now) (map string_bytes words.now)
        connection.old connection.new) }
{
    match options_of(rt.alloc(), words) {
        Ok(options) => end_with(rt, drain_by(rt, pipes, connection, options)),
        Err(error) => Ok(tell_line(rt.alloc(), rt, words, &error)?),
    }
}

/// Returns the exit status: 0, or the status of the failure. Shows the failure on standard error, with `?` for
/// each control character.
fn end_with<T: Eprint + AllocGlobal>(rt: &T, ended: Result<Drained, Failure>) -> Result<ExitCode>
    ensures ok { OnOk ended (IfOk result (λ code. exit_status code ≡ 0)) }
    ensures child { IfErr ended (λ failure. IsOfChild failure → IfOk result (λ code. exit_status code ≡ 4)) }
    ensures other { IfErr ended (λ failure. (IsOfChild failure → ⊥) → IfOk result (λ code. exit_status code ≡ 1)) }
    ensures given { OnOk ended (IsOk result) }
{
    let Err(failure) = ended else {
        return Ok(ExitCode::SUCCESS);
    };
    let status = choose_status(&failure);
    let text = format!(in rt.alloc(); "{failure}")?;
    let text = mask_controls(rt.alloc(), &text)?;
    eprintln!(rt; "Error: {text}")?;
    Ok(ExitCode::from(status))
}

/// Returns the exit status of a failure: 4 if the child failed, and else 1.
fn choose_status(failure: &Failure) -> u8
    ensures child { IsOfChild failure.now → result ≡ 4 }
    ensures other { (IsOfChild failure.now → ⊥) → result ≡ 1 }
{
    match failure {
        Failure::Child(_) | Failure::Unopened(_) => CHILD_FAILED,
        _ => 1,
    }
}

/// Replaces each control character by `?`.
fn mask_controls(alloc: Global, text: &str) -> Result<String, AllocError> {
    let mut shown = String::new(alloc);
    for letter in text.chars() {
        shown.push(if letter.is_control() { '?' } else { letter })?;
    }
    Ok(shown)
}

/// Returns the arguments of the program.
fn read_arguments(rt: &HostRuntime) -> Result<Vec<String>> {
    let mut words = Vec::new(rt.alloc());
    for word in env::args(rt)?.skip(1) {
        words.push(word)?;
    }
    Ok(words)
}

/// Drains with these options and the child at the pipes of their paths.
fn drain_by<
    R: Read + Drop,
    W: Write + Drop,
    C: SteadyRead + Drop,
    D: SteadyWrite + Drop,
    P: OpenPipes<C, D>,
    T: Eprint + AllocGlobal,
>(
    rt: &T,
    pipes: &P,
    connection: &mut Connection<R, W>,
    options: Options,
) -> Result<Drained, Failure>
    ensures ok { OnOk result (EndsBy (P.held pipes.now) (P.coming pipes.now) options connection.old connection.new) }
    ensures err { OnErr result ((connection.new ≡ connection.old)
        ⊎ StopsBy (P.held pipes.now) (P.coming pipes.now) options connection.old connection.new) }
    ensures child { IfErr result (λ failure. IsOfChild failure
        → ChildFailsBy (P.held pipes.now) (P.coming pipes.now) options connection.old connection.new) }
{
    let replies = pipes.open_replies(&options.replies)?;
    let lines = pipes.open_lines(&options.lines)?;
    drain_with(rt, connection, replies, lines, options)
}

/// Drains with these options and the child that writes `replies` and reads `lines`.
fn drain_with<
    R: Read + Drop,
    W: Write + Drop,
    C: SteadyRead + Drop,
    D: SteadyWrite + Drop,
    T: Eprint + AllocGlobal,
>(
    rt: &T,
    connection: &mut Connection<R, W>,
    replies: C,
    lines: D,
    options: Options,
) -> Result<Drained, Failure>
    ensures ok { OnOk result (EndsSo (settings_with options.dead options.settings) options.until_empty
        connection.old connection.new (newborn (settings_with options.dead options.settings)
        (first_talk options.settings (D.contents lines) (C.remaining replies)))) }
    ensures err { OnErr result ((connection.new ≡ connection.old)
        ⊎ StopsSo (settings_with options.dead options.settings)
        connection.old connection.new (newborn (settings_with options.dead options.settings)
        (first_talk options.settings (D.contents lines) (C.remaining replies)))) }
    ensures child { IfErr result (λ failure. IsOfChild failure → OverSo (settings_with options.dead options.settings)
        connection.old connection.new (newborn (settings_with options.dead options.settings)
        (first_talk options.settings (D.contents lines) (C.remaining replies)))) }
{
    let mut jobs = begin_jobs(rt.alloc(), &options.settings, replies, lines)?;
    let mut run = begin_run(rt.alloc(), options)?;
    make_run(rt, connection, &mut jobs, &mut run)
}

/// Creates the handler of the entries.
fn begin_jobs<C: SteadyRead + Drop, D: SteadyWrite + Drop>(
    alloc: Global,
    settings: &Settings,
    replies: C,
    lines: D,
) -> Result<Jobs<C, D>>
    ensures begins { IfOk result (λ jobs. ⟦<Jobs<C, D> as Handler>⟧.history jobs
        ≡ first_talk settings.now (D.contents lines) (C.remaining replies)) }
{
    let stream = String::from_str(alloc, settings.key())?;
    Ok(Jobs::new(alloc, stream, replies, lines))
}

/// A run of the program before its first command.
#[derive(Drop)]
struct Run {
    worker: Worker,
    dead: Option<DeadLetterSearch>,
    until_empty: bool,
}

/// Creates a run with these options.
fn begin_run(alloc: Global, options: Options) -> Result<Run>
    ensures worker { IfOk result (λ run. IsNew (settings_with options.dead options.settings) run.worker) }
    ensures dead { IfOk result (λ run. option_map searcher_of run.dead
        ≡ option_map (searcher_by options.settings) options.dead) }
    ensures until_empty { IfOk result (λ run. run.until_empty ≡ options.until_empty) }
{
    let mut settings = options.settings;
    let dead = make_search(alloc, &mut settings, options.dead)?;
    Ok(Run {
        worker: Worker::new(alloc, settings),
        dead,
        until_empty: options.until_empty,
    })
}

/// Drains, and shows the counts at the end.
fn make_run<
    R: Read + Drop,
    W: Write + Drop,
    C: SteadyRead + Drop,
    D: SteadyWrite + Drop,
    T: Eprint + AllocGlobal,
>(
    rt: &T,
    connection: &mut Connection<R, W>,
    jobs: &mut Jobs<C, D>,
    run: &mut Run,
) -> Result<Drained, Failure>
    ensures ok { OnOk result (EndsSo run.old.worker.settings run.old.until_empty connection.old connection.new
        (standing_of run.old.worker (⟦<Jobs<C, D> as Handler>⟧.history jobs.old))) }
    ensures err { OnErr result (StopsSo run.old.worker.settings connection.old connection.new
        (standing_of run.old.worker (⟦<Jobs<C, D> as Handler>⟧.history jobs.old))) }
    ensures child { IfErr result (λ failure. IsOfChild failure
        → OverSo run.old.worker.settings connection.old connection.new
        (standing_of run.old.worker (⟦<Jobs<C, D> as Handler>⟧.history jobs.old))) }
{
    let mut report = Report::new();
    let ended = drain(
        rt,
        connection,
        &mut run.worker,
        jobs,
        &mut report,
        &mut run.dead,
        run.until_empty,
    );
    report.left = jobs.left;
    report.letters = count_letters(&run.dead);
    show_report(rt, &report)?;
    ended
}

/// Returns the number of entries that were given up, or `None` if entries are not given up.
fn count_letters(dead: &Option<DeadLetterSearch>) -> Option<u64> {
    match dead {
        Some(dead) => Some(dead.letters()),
        None => None,
    }
}

/// Shows the counts at the end.
fn show_report<T: Eprint>(rt: &T, report: &Report) -> Result<()> {
    eprintln!(rt; "{report}")?;
    Ok(())
}

/// Creates the search for entries that were delivered too often, if `to` is given. Then redelivered entries are
/// requested one at a time.
fn make_search(
    alloc: Global,
    settings: &mut Settings,
    to: Option<GiveUp>,
) -> Result<Option<DeadLetterSearch>>
    ensures settings { OnOk result (settings.new ≡ settings_with to settings.old) }
    ensures search { IfOk result (λ search. option_map searcher_of search
        ≡ option_map (searcher_by settings.old) to) }
{
    match to {
        Some(to) => Ok(Some(DeadLetterSearch::new(alloc, settings, to)?)),
        None => Ok(None),
    }
}
