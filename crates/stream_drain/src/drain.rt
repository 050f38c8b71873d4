//! The loop of the program: it sends commands and receives the replies.
ghost use Rattle.std.specs.Prelude.{◌≡◌, ◌≤◌, IfErr, IfOk, IfSome, IsTrue, OnErr, OnOk, false, option_map};
ghost use Rattle.redis_connection.specs.Link.{Link};
ghost use Rattle.worker.specs.Confirm.Confirmed.{IsConfirmedRound};
ghost use Rattle.worker.specs.DeadLetters.Besides.{Besides, BreaksBesides, LooksNot};
ghost use Rattle.worker.specs.DeadLetters.Dead.{searcher_of};
ghost use Rattle.stream_drain.specs.Backlog.{Hears};
ghost use Rattle.stream_drain.specs.Filed.{FiledFrom};
ghost use Rattle.stream_drain.specs.Lived.{Leads};
ghost use Rattle.stream_drain.specs.Program.{SearchesAfter};
ghost use Rattle.stream_drain.specs.Turn.{EachIsConfirmed, IsConfirmedTurn};
ghost use Rattle.model_workers.specs.Loops.Loop.{Loops, Stops};
ghost use Rattle.worker.specs.Session.{standing_of};

use crate::backlog::{Backlog, Watched, backlog_in};
use crate::failure::Failure;
use crate::lines::{Fault, Lines};
use crate::report::Report;
use anyhow::{Error, Result as AnyResult, anyhow};
use redis_connection::{AskError, Connection, ConnectionError, Wait};
use redis_streams::StreamInfoGroupsReply;
use redis_wire::Fault as WireFault;
use std::alloc::Global;
use std::fmt;
use std::io::{Read, Write};
use std::rt::Clock;
use stream_commands::xinfo_groups;
use worker::confirm::{RoundError, round_confirmed};
use worker::dead_letters::DeadLetterSearch;
use worker::{Asked, Handler, Pipelined, Progress, RequestError, Round, RunError, Worker};
use worker_journal::LogFile;

/// The limit on the buffer of a connection, as in `Limits::default`.
const LARGEST: &str = "1 GiB";

/// The limit on the values of a reply, as in `Limits::default`.
const MOST: &str = "16,777,216";

/// Proof that a drain ended with a read that returned no new entries. Only `drain` creates one.
#[derive(Clone, Copy)]
pub struct Drained {
    /// The last turn.
    last: TurnMade,
}

/// A turn of the loop.
#[derive(Clone, Copy)]
struct TurnMade {
    /// The last command that was sent in the turn.
    asked: Asked,
    /// The number of entries that the handler had received before the turn.
    before: u64,
}

/// Drains until an error occurs. With `until_empty`, also ends when a read returns no new entries.
pub fn drain<R: Read + Drop, W: Write + Drop, D: LogFile + Drop, T: Clock + Eprint + AllocGlobal>(
    rt: &T,
    connection: &mut Connection<R, W>,
    worker: &mut Worker,
    lines: &mut Lines<D>,
    report: &mut Report,
    dead: &mut Option<DeadLetterSearch>,
    wait: Option<Wait>,
    until_empty: bool,
) -> Result<Drained, Failure>
    ensures ended { IfOk result (λ _. IsTrue until_empty) }
    ensures read { IfOk result (λ drained. drained.last.asked ≡ Asked.New) }
    ensures empty { IfOk result (λ drained. drained.last.before ≡ lines.new.seen) }
    ensures confirmed { OnOk result (IfSome wait (λ w. EachIsConfirmed worker.old.settings w
        connection.old connection.new
        (standing_of worker.old (⟦<Lines<D> as Handler>⟧.history lines.old))
        (standing_of worker.new (⟦<Lines<D> as Handler>⟧.history lines.new)))) }
    ensures ok { OnOk result (Leads (Loops worker.old.settings) connection.old connection.new
        (standing_of worker.old (⟦<Lines<D> as Handler>⟧.history lines.old))
        (standing_of worker.new (⟦<Lines<D> as Handler>⟧.history lines.new))) }
    ensures err { OnErr result (Leads (Stops worker.old.settings) connection.old connection.new
        (standing_of worker.old (⟦<Lines<D> as Handler>⟧.history lines.old))
        (standing_of worker.new (⟦<Lines<D> as Handler>⟧.history lines.new))) }
    ensures filed { FiledFrom worker.old.settings connection.old connection.new
        (standing_of worker.old (⟦<Lines<D> as Handler>⟧.history lines.old))
        (standing_of worker.new (⟦<Lines<D> as Handler>⟧.history lines.new))
        (D.may_leave lines.new.log.file) }
    ensures same_search { option_map searcher_of dead.new ≡ option_map searcher_of dead.old }
{
    let mut asked = Asked::Nothing;
    for _turn in 0..u64::MAX {
        let last = make_turn(rt, connection, worker, lines, report, dead, wait, asked)?;
        asked = last.asked;
        if until_empty && asked == Asked::New && lines.seen == last.before {
            return Ok(Drained { last });
        }
    }
    Err(anyhow!("the last turn came").into())
}

/// Makes one turn: searches for entries to give up, makes one round or two rounds in one write, and counts.
fn make_turn<R: Read + Drop, W: Write + Drop, D: LogFile + Drop, T: Clock + Eprint + AllocGlobal>(
    rt: &T,
    connection: &mut Connection<R, W>,
    worker: &mut Worker,
    lines: &mut Lines<D>,
    report: &mut Report,
    dead: &mut Option<DeadLetterSearch>,
    wait: Option<Wait>,
    asked: Asked,
) -> Result<TurnMade, Failure>
    ensures before { IfOk result (λ turn. turn.before ≡ lines.old.seen) }
    ensures settings { worker.new.settings ≡ worker.old.settings }
    ensures ok { OnOk result (Leads (Loops worker.old.settings) connection.old connection.new
        (standing_of worker.old (⟦<Lines<D> as Handler>⟧.history lines.old))
        (standing_of worker.new (⟦<Lines<D> as Handler>⟧.history lines.new))) }
    ensures err { OnErr result (Leads (Stops worker.old.settings) connection.old connection.new
        (standing_of worker.old (⟦<Lines<D> as Handler>⟧.history lines.old))
        (standing_of worker.new (⟦<Lines<D> as Handler>⟧.history lines.new))) }
    ensures confirmed { IfOk result (λ turn. IfSome wait (λ w. IsConfirmedTurn
        ⟦<Lines<D> as Handler>⟧.with_verdict ⟦<Lines<D> as Handler>⟧.with_commit worker.old.settings w
        connection.old connection.new
        (standing_of worker.old (⟦<Lines<D> as Handler>⟧.history lines.old))
        (standing_of worker.new (⟦<Lines<D> as Handler>⟧.history lines.new)) turn.asked)) }
    ensures same_search { option_map searcher_of dead.new ≡ option_map searcher_of dead.old }
    ensures searches { OnOk result (lines.old.done ≤ lines.old.committed → IfSome dead.old (λ d. d.waits ≡ false
        → (m : Link) × SearchesAfter d asked connection.old m
        × Leads (Loops worker.old.settings) m connection.new
        (standing_of worker.old (⟦<Lines<D> as Handler>⟧.history lines.old))
        (standing_of worker.new (⟦<Lines<D> as Handler>⟧.history lines.new)))) }
{
    let before = lines.seen;
    look(rt.alloc(), connection, lines, dead, asked)?;
    let alone = dead.is_some() || report.is_due(rt);
    let made = make_any_round(rt.alloc(), connection, worker, lines, wait, alone)?;
    let due = made.acknowledged || made.round.asked == Asked::Acknowledgement;
    count(rt, connection, report, lines.committed, due)?;
    Ok(TurnMade {
        asked: made.round.asked,
        before,
    })
}

/// Searches for entries that were delivered too often, if a search is given.
fn look<R: Read + Drop, W: Write + Drop, D: LogFile + Drop>(
    alloc: Global,
    connection: &mut Connection<R, W>,
    lines: &Lines<D>,
    dead: &mut Option<DeadLetterSearch>,
    asked: Asked,
) -> Result<(), Failure>
    ensures searches { lines.now.done ≤ lines.now.committed → IfSome dead.old (λ d. d.waits ≡ false
        → OnOk result (SearchesAfter d asked connection.old connection.new)) }
    ensures same { option_map searcher_of dead.new ≡ option_map searcher_of dead.old }
    ensures ok { OnOk result (Besides connection.old connection.new) }
    ensures err { OnErr result (BreaksBesides connection.old connection.new) }
{
    let Some(dead) = dead else {
        return Ok(());
    };
    match dead.turn(alloc, connection, asked, lines.done > lines.committed) {
        Ok(()) => Ok(()),
        Err(error) => Err(Failure::Search(error)),
    }
}

/// Makes a round after which the worker goes on. With `--wait`, replicas confirm the round.
fn make_any_round<R: Read + Drop, W: Write + Drop, D: LogFile + Drop>(
    alloc: Global,
    connection: &mut Connection<R, W>,
    worker: &mut Worker,
    lines: &mut Lines<D>,
    wait: Option<Wait>,
    alone: bool,
) -> Result<Pipelined, Failure>
    ensures settings { worker.new.settings ≡ worker.old.settings }
    ensures ok { OnOk result (Leads (Loops worker.old.settings) connection.old connection.new
        (standing_of worker.old (⟦<Lines<D> as Handler>⟧.history lines.old))
        (standing_of worker.new (⟦<Lines<D> as Handler>⟧.history lines.new))) }
    ensures err { OnErr result (Leads (Stops worker.old.settings) connection.old connection.new
        (standing_of worker.old (⟦<Lines<D> as Handler>⟧.history lines.old))
        (standing_of worker.new (⟦<Lines<D> as Handler>⟧.history lines.new))) }
    ensures confirmed { IfSome wait (λ w. IfOk result (λ made. IsConfirmedRound
        ⟦<Lines<D> as Handler>⟧.with_verdict ⟦<Lines<D> as Handler>⟧.with_commit worker.old.settings w
        connection.old connection.new
        (standing_of worker.old (⟦<Lines<D> as Handler>⟧.history lines.old))
        (standing_of worker.new (⟦<Lines<D> as Handler>⟧.history lines.new))
        made.round.asked made.round.progress)) }
    ensures alone { IsTrue alone → IfOk result (λ made. made.acknowledged ≡ false) }
{
    match wait {
        Some(wait) => make_confirmed_round(alloc, connection, worker, lines, &wait),
        None => make_round(alloc, connection, worker, lines, !alone),
    }
}

/// Makes a round after which the worker goes on. Replicas confirm the round before its entries are handled.
fn make_confirmed_round<R: Read + Drop, W: Write + Drop, D: LogFile + Drop>(
    alloc: Global,
    connection: &mut Connection<R, W>,
    worker: &mut Worker,
    lines: &mut Lines<D>,
    wait: &Wait,
) -> Result<Pipelined, Failure>
    ensures settings { worker.new.settings ≡ worker.old.settings }
    ensures ok { OnOk result (Leads (Loops worker.old.settings) connection.old connection.new
        (standing_of worker.old (⟦<Lines<D> as Handler>⟧.history lines.old))
        (standing_of worker.new (⟦<Lines<D> as Handler>⟧.history lines.new))) }
    ensures err { OnErr result (Leads (Stops worker.old.settings) connection.old connection.new
        (standing_of worker.old (⟦<Lines<D> as Handler>⟧.history lines.old))
        (standing_of worker.new (⟦<Lines<D> as Handler>⟧.history lines.new))) }
    ensures confirmed { IfOk result (λ made. IsConfirmedRound ⟦<Lines<D> as Handler>⟧.with_verdict
        ⟦<Lines<D> as Handler>⟧.with_commit worker.old.settings wait.now connection.old connection.new
        (standing_of worker.old (⟦<Lines<D> as Handler>⟧.history lines.old))
        (standing_of worker.new (⟦<Lines<D> as Handler>⟧.history lines.new))
        made.round.asked made.round.progress) }
    ensures alone { IfOk result (λ made. made.acknowledged ≡ false) }
{
    match round_confirmed(alloc, connection, worker, lines, wait) {
        Ok(round) => {
            goes_on(round.progress, &lines.fault, &lines.undone)?;
            Ok(make_single(round))
        }
        Err(error) => Err(explain_unconfirmed(error, &lines.fault)),
    }
}

/// Returns the failure of a confirmed round.
fn explain_unconfirmed(error: RoundError, fault: &Option<Fault>) -> Failure {
    match error {
        RoundError::Run(error) => convert_run_error(error, fault),
        RoundError::Unconfirmed(error) => Failure::Unconfirmed(error),
    }
}

/// Makes a round after which the worker goes on. If `together` is true, makes two rounds in one write where
/// possible.
///
/// If entries are given up, `together` must be false, since the search for them is between an acknowledgement
/// and a claim.
fn make_round<R: Read + Drop, W: Write + Drop, D: LogFile + Drop>(
    alloc: Global,
    connection: &mut Connection<R, W>,
    worker: &mut Worker,
    lines: &mut Lines<D>,
    together: bool,
) -> Result<Pipelined, Failure>
    ensures settings { worker.new.settings ≡ worker.old.settings }
    ensures ok { OnOk result (Leads (Loops worker.old.settings) connection.old connection.new
        (standing_of worker.old (⟦<Lines<D> as Handler>⟧.history lines.old))
        (standing_of worker.new (⟦<Lines<D> as Handler>⟧.history lines.new))) }
    ensures err { OnErr result (Leads (Stops worker.old.settings) connection.old connection.new
        (standing_of worker.old (⟦<Lines<D> as Handler>⟧.history lines.old))
        (standing_of worker.new (⟦<Lines<D> as Handler>⟧.history lines.new))) }
    ensures alone { together ≡ false → IfOk result (λ made. made.acknowledged ≡ false) }
{
    if together {
        match worker.round_pipelined(alloc, connection, lines) {
            Ok(made) => {
                goes_on(made.round.progress, &lines.fault, &lines.undone)?;
                Ok(made)
            }
            Err(error) => Err(convert_run_error(error, &lines.fault)),
        }
    } else {
        match worker.round(alloc, connection, lines) {
            Ok(round) => {
                goes_on(round.progress, &lines.fault, &lines.undone)?;
                Ok(make_single(round))
            }
            Err(error) => Err(convert_run_error(error, &lines.fault)),
        }
    }
}

/// Converts a round with a write of its own to a `Pipelined`.
fn make_single(round: Round) -> Pipelined
    ensures { result ≡ record { acknowledged = false; round = round } }
{
    Pipelined {
        acknowledged: false,
        round,
    }
}

/// Returns an error if the handler returned `Stop`.
fn goes_on(
    progress: Progress,
    fault: &Option<Fault>,
    undone: &Option<String>,
) -> Result<(), Failure>
    ensures ok { OnOk result (progress ≡ Progress.GoesOn) }
    ensures err { OnErr result (progress ≡ Progress.Stopped) }
{
    match progress {
        Progress::GoesOn => Ok(()),
        Progress::Stopped => Err(describe_stop(fault, undone).into()),
    }
}

/// Counts the entries in the file if a count is due, and shows the counts at most once a second.
fn count<R: Read + Drop, W: Write + Drop, T: Clock + Eprint + AllocGlobal>(
    rt: &T,
    connection: &mut Connection<R, W>,
    report: &mut Report,
    entries: u64,
    due: bool,
) -> Result<(), Failure>
    ensures ok { OnOk result (Besides connection.old connection.new) }
    ensures err { OnErr result (BreaksBesides connection.old connection.new) }
{
    if !due {
        return Ok(());
    }
    if report.count(rt, entries)? {
        show(rt, connection, report)
    } else {
        Ok(())
    }
}

/// Shows the counts, and the backlog of the watched group. If the server does not return the backlog, shows the
/// error and stops watching the group.
fn show<R: Read + Drop, W: Write + Drop, T: Eprint + AllocGlobal>(
    rt: &T,
    connection: &mut Connection<R, W>,
    report: &mut Report,
) -> Result<(), Failure>
    ensures ok { OnOk result (Besides connection.old connection.new) }
    ensures err { OnErr result (BreaksBesides connection.old connection.new) }
{
    match find_backlog(rt.alloc(), connection, &report.watched) {
        Ok(Some(backlog)) => say(rt, report, &backlog),
        Ok(None) => say(rt, report, &""),
        Err(AskError::Server(error)) => {
            report.watched = None;
            say(
                rt,
                report,
                &format_args!(", XINFO GROUPS: the server replied {error}"),
            )
        }
        Err(AskError::Parsing(error)) => {
            report.watched = None;
            say(rt, report, &format_args!(", XINFO GROUPS: {error}"))
        }
        Err(error) => Err(Failure::Ask(error)),
    }
}

/// Shows the counts, followed by `more`.
fn say<T: Eprint, M: fmt::Display>(rt: &T, report: &Report, more: &M) -> Result<(), Failure> {
    Ok(print_report(rt, report, more)?)
}

fn print_report<T: Eprint, M: fmt::Display>(rt: &T, report: &Report, more: &M) -> AnyResult<()> {
    eprintln!(rt; "{report}{more}")?;
    Ok(())
}

/// Reads the backlog of the watched group from the server. Returns `None` if no group is watched, or if the
/// server has no such group.
fn find_backlog<R: Read + Drop, W: Write + Drop>(
    alloc: Global,
    connection: &mut Connection<R, W>,
    watched: &Option<Watched>,
) -> Result<Option<Backlog>, AskError>
    ensures ok { OnOk result (Besides connection.old connection.new) }
    ensures err { IfErr result (LooksNot connection.old connection.new) }
    ensures heard { Hears watched.now connection.old connection.new result }
{
    let Some(watched) = watched else {
        return Ok(None);
    };
    let asked = xinfo_groups(watched.key.as_str());
    match connection.ask_as::<StreamInfoGroupsReply, _>(alloc, &asked) {
        Ok(reply) => Ok(backlog_in(&reply, &watched.group)),
        Err(error) => Err(error),
    }
}

/// Returns the failure of a round.
fn convert_run_error(error: RunError, fault: &Option<Fault>) -> Failure {
    match error {
        RunError::Request(RequestError::NotCommitted) => describe_commit_error(fault).into(),
        RunError::Receive {
            error: ConnectionError::Fault(WireFault::Overfull),
            ..
        } => { anyhow!("a reply is larger than {LARGEST}: take a smaller --count").into() }
        RunError::Receive {
            error: ConnectionError::Fault(WireFault::TooMany),
            ..
        } => { anyhow!("a reply has more than {MOST} values: take a smaller --count").into() }
        RunError::Receive {
            error: ConnectionError::Memory,
            ..
        } => { anyhow!("out of memory for a reply: take a smaller --count").into() }
        error => Failure::Round(error),
    }
}

/// Returns the error of a commit.
fn describe_commit_error(fault: &Option<Fault>) -> Error {
    match fault {
        Some(reason) => anyhow!("cannot write the file: {reason}"),
        _ => RunError::Request(RequestError::NotCommitted).into(),
    }
}

/// Returns the error of an entry that was not done, with the entry's id if it is known.
fn describe_stop(fault: &Option<Fault>, undone: &Option<String>) -> Error {
    match (fault, undone) {
        (Some(reason), Some(id)) => anyhow!("cannot write the line of the entry {id}: {reason}"),
        (Some(reason), None) => anyhow!("cannot write a line: {reason}"),
        (None, Some(id)) => anyhow!("the entry {id} was not written"),
        (None, None) => anyhow!("an entry was not written"),
    }
}
