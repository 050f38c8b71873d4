//! The loop of the program that forwards entries to another stream.
ghost use Rattle.std.specs.Prelude.{◌≡◌, ◌≤◌, IfOk, IfSome, IsTrue, OnErr, OnOk, false, option_map};
ghost use Rattle.redis_connection.specs.Link.{Link};
ghost use Rattle.model_workers.specs.Loops.Loop.{Loops, Stops};
ghost use Rattle.stream_sqlite.specs.Forwards.{AllWent, Ends, Forwards};
ghost use Rattle.stream_sqlite.specs.Program.{SearchesAfter};
ghost use Rattle.worker.specs.DeadLetters.Dead.{searcher_of};
ghost use Rattle.worker_table.specs.Lived.{Leads};
ghost use Rattle.worker.specs.Session.{standing_of};

use super::{Drained, TurnMade, explain_round_error, goes_on, look, say_left};
use anyhow::{Error, Result, anyhow, bail};
use command_lines::Counts;
use redis_connection::Connection;
use std::alloc::Global;
use std::io::{Read, Write};
use worker::dead_letters::DeadLetterSearch;
use worker::{Asked, Handler, Worker};
use worker_table::row_table::WithOutbox;
use worker_table::{Forwarding, SendError};

/// Drains until an error occurs. With `until_empty`, also ends when a read returns no new entries. Forwards the
/// committed entries before each round. Therefore no entry is left to forward if the loop ends without an
/// error.
pub fn forward<R: Read + Drop, W: Write + Drop, T: WithOutbox + Drop, P: Eprint + AllocGlobal>(
    rt: &P,
    connection: &mut Connection<R, W>,
    worker: &mut Worker,
    rows: &mut Forwarding<T>,
    counts: &mut Counts,
    dead: &mut Option<DeadLetterSearch>,
    until_empty: bool,
) -> Result<Drained>
    ensures ended { IfOk result (λ _. IsTrue until_empty) }
    ensures read { IfOk result (λ drained. drained.last.asked ≡ Asked.New) }
    ensures empty { IfOk result (λ drained. drained.last.before ≡ rows.new.seen) }
    ensures ok { OnOk result (Forwards worker.old.settings connection.old (T.committed rows.old.table)
        (standing_of worker.old (⟦<Forwarding<T> as Handler>⟧.history rows.old)) connection.new
        (T.committed rows.new.table)
        (standing_of worker.new (⟦<Forwarding<T> as Handler>⟧.history rows.new))) }
    ensures err { OnErr result (Ends worker.old.settings connection.old connection.new
        (T.committed rows.old.table)
        (standing_of worker.old (⟦<Forwarding<T> as Handler>⟧.history rows.old))
        (standing_of worker.new (⟦<Forwarding<T> as Handler>⟧.history rows.new))) }
    ensures same_search { option_map searcher_of dead.new ≡ option_map searcher_of dead.old }
{
    let mut asked = Asked::Nothing;
    for _ in 0..u64::MAX {
        let seen = rows.seen;
        asked = make_pass(rt, connection, worker, rows, counts, dead, asked)?;
        if until_empty && asked == Asked::New && rows.seen == seen {
            let before = seen;
            return Ok(Drained {
                last: TurnMade { asked, before },
            });
        }
    }
    bail!("the last turn came")
}

/// Forwards the committed entries, and makes a round. Returns the command of the round.
fn make_pass<R: Read + Drop, W: Write + Drop, T: WithOutbox + Drop, P: Eprint + AllocGlobal>(
    rt: &P,
    connection: &mut Connection<R, W>,
    worker: &mut Worker,
    rows: &mut Forwarding<T>,
    counts: &mut Counts,
    dead: &mut Option<DeadLetterSearch>,
    asked: Asked,
) -> Result<Asked>
    ensures settings { worker.new.settings ≡ worker.old.settings }
    ensures ok { OnOk result (Forwards worker.old.settings connection.old (T.committed rows.old.table)
        (standing_of worker.old (⟦<Forwarding<T> as Handler>⟧.history rows.old)) connection.new
        (T.committed rows.new.table)
        (standing_of worker.new (⟦<Forwarding<T> as Handler>⟧.history rows.new))) }
    ensures err { OnErr result (Ends worker.old.settings connection.old connection.new
        (T.committed rows.old.table)
        (standing_of worker.old (⟦<Forwarding<T> as Handler>⟧.history rows.old))
        (standing_of worker.new (⟦<Forwarding<T> as Handler>⟧.history rows.new))) }
    ensures same_search { option_map searcher_of dead.new ≡ option_map searcher_of dead.old }
{
    send(rt.alloc(), connection, rows)?;
    make_turn(rt, connection, worker, rows, counts, dead, asked)
}

/// Forwards the committed entries.
fn send<R: Read + Drop, W: Write + Drop, T: WithOutbox + Drop>(
    alloc: Global,
    connection: &mut Connection<R, W>,
    rows: &mut Forwarding<T>,
) -> Result<()>
    ensures ok { OnOk result (AllWent connection.old (T.committed rows.old.table) connection.new
        (T.committed rows.new.table)) }
    ensures history { ⟦<Forwarding<T> as Handler>⟧.history rows.new
        ≡ ⟦<Forwarding<T> as Handler>⟧.history rows.old }
{
    match rows.send(alloc, connection) {
        Ok(()) => Ok(()),
        Err(error) => Err(explain_send_error(error, rows.target())),
    }
}

/// Returns the error of an entry that was not forwarded. The error names `target` if the stream of the command
/// is not known.
fn explain_send_error(error: SendError, target: &str) -> Error {
    match error {
        SendError::Table(reason) => anyhow!("cannot send on to {target}: {reason}"),
        SendError::Post {
            first,
            second,
            target: to,
            error: reason,
        } => {
            let target = to.as_ref().map_or(target, String::as_str);
            anyhow!("cannot send {first}-{second} on to {target}: {reason}")
        }
    }
}

/// Searches for entries to give up, makes a round, and counts. Returns the command of the round.
fn make_turn<R: Read + Drop, W: Write + Drop, T: WithOutbox + Drop, P: Eprint + AllocGlobal>(
    rt: &P,
    connection: &mut Connection<R, W>,
    worker: &mut Worker,
    rows: &mut Forwarding<T>,
    counts: &mut Counts,
    dead: &mut Option<DeadLetterSearch>,
    asked: Asked,
) -> Result<Asked>
    ensures settings { worker.new.settings ≡ worker.old.settings }
    ensures ok { OnOk result (Leads (Loops worker.old.settings) connection.old connection.new
        (standing_of worker.old (⟦<Forwarding<T> as Handler>⟧.history rows.old))
        (standing_of worker.new (⟦<Forwarding<T> as Handler>⟧.history rows.new))) }
    ensures err { OnErr result (Leads (Stops worker.old.settings) connection.old connection.new
        (standing_of worker.old (⟦<Forwarding<T> as Handler>⟧.history rows.old))
        (standing_of worker.new (⟦<Forwarding<T> as Handler>⟧.history rows.new))) }
    ensures same_search { option_map searcher_of dead.new ≡ option_map searcher_of dead.old }
    ensures searches { OnOk result (rows.old.done ≤ rows.old.committed → IfSome dead.old (λ d. d.waits ≡ false
        → (m : Link) × SearchesAfter d asked connection.old m
        × Leads (Loops worker.old.settings) m connection.new
        (standing_of worker.old (⟦<Forwarding<T> as Handler>⟧.history rows.old))
        (standing_of worker.new (⟦<Forwarding<T> as Handler>⟧.history rows.new)))) }
{
    let left = rows.left;
    look(
        rt.alloc(),
        connection,
        dead,
        asked,
        rows.done > rows.committed,
    )?;
    let asked = make_round(rt.alloc(), connection, worker, rows)?;
    if asked == Asked::Acknowledgement {
        counts.count(rows.committed);
    }
    say_left(rt, left, rows.left, &rows.fault, &rows.undone)?;
    Ok(asked)
}

/// Makes a round after which the worker goes on. Returns the command of the round.
fn make_round<R: Read + Drop, W: Write + Drop, T: WithOutbox + Drop>(
    alloc: Global,
    connection: &mut Connection<R, W>,
    worker: &mut Worker,
    rows: &mut Forwarding<T>,
) -> Result<Asked>
    ensures settings { worker.new.settings ≡ worker.old.settings }
    ensures ok { OnOk result (Leads (Loops worker.old.settings) connection.old connection.new
        (standing_of worker.old (⟦<Forwarding<T> as Handler>⟧.history rows.old))
        (standing_of worker.new (⟦<Forwarding<T> as Handler>⟧.history rows.new))) }
    ensures err { OnErr result (Leads (Stops worker.old.settings) connection.old connection.new
        (standing_of worker.old (⟦<Forwarding<T> as Handler>⟧.history rows.old))
        (standing_of worker.new (⟦<Forwarding<T> as Handler>⟧.history rows.new))) }
{
    match worker.round(alloc, connection, rows) {
        Ok(made) => {
            goes_on(made.progress, &rows.fault, &rows.undone)?;
            Ok(made.asked)
        }
        Err(error) => Err(explain_round_error(error, &rows.fault)),
    }
}
