//! The loop of the program: it sends commands and receives the replies.
ghost use Rattle.std.specs.Prelude.{◌≡◌, ◌≤◌, IfOk, IfSome, IsTrue, OnErr, OnOk, false, option_map};
ghost use Rattle.redis_connection.specs.Link.{Link};
ghost use Rattle.worker.specs.DeadLetters.Besides.{Besides, BreaksBesides};
ghost use Rattle.worker.specs.DeadLetters.Dead.{searcher_of};
ghost use Rattle.model_workers.specs.Loops.Loop.{Loops, Stops};
ghost use Rattle.stream_sqlite.specs.Program.{SearchesAfter};
ghost use Rattle.worker_table.specs.Lived.{Leads};
ghost use Rattle.worker.specs.Session.{standing_of};

pub mod forward;

use crate::masked::Masked;
use anyhow::{Error, Result, anyhow, bail};
use command_lines::Counts;
use redis_connection::{Connection, ConnectionError};
use redis_wire::Fault as WireFault;
use std::alloc::Global;
use std::io::{Read, Write};
use stream_in_place::FieldError;
use worker::dead_letters::DeadLetterSearch;
use worker::{Asked, Handler, Pipelined, Progress, RequestError, Round, RunError, Worker};
use worker_table::row_table::{Table, TableError};
use worker_table::{Fault, Rows};

/// The limit on the buffer of a connection, as in `Limits::default`.
const LARGEST: &str = "1 GiB";

/// The limit on the values of a reply, as in `Limits::default`.
const MOST: &str = "16,777,216";

/// Proof that a drain ended with a read that returned no new entries. Only `drain` and `forward` create one.
#[derive(Clone, Copy)]
pub struct Drained {
    /// The last turn.
    last: TurnMade,
}

/// A turn of the loop.
#[derive(Clone, Copy)]
struct TurnMade {
    /// The last command that was sent in the turn.
    asked: Asked,
    /// The number of entries that the handler had received before the turn.
    before: u64,
}

/// Drains until an error occurs. With `until_empty`, also ends when a read returns no new entries.
pub fn drain<R: Read + Drop, W: Write + Drop, T: Table + Drop, P: Eprint + AllocGlobal>(
    rt: &P,
    connection: &mut Connection<R, W>,
    worker: &mut Worker,
    rows: &mut Rows<T>,
    counts: &mut Counts,
    dead: &mut Option<DeadLetterSearch>,
    until_empty: bool,
) -> Result<Drained>
    ensures ended { IfOk result (λ _. IsTrue until_empty) }
    ensures read { IfOk result (λ drained. drained.last.asked ≡ Asked.New) }
    ensures empty { IfOk result (λ drained. drained.last.before ≡ rows.new.seen) }
    ensures ok { OnOk result (Leads (Loops worker.old.settings) connection.old connection.new
        (standing_of worker.old (⟦<Rows<T> as Handler>⟧.history rows.old))
        (standing_of worker.new (⟦<Rows<T> as Handler>⟧.history rows.new))) }
    ensures err { OnErr result (Leads (Stops worker.old.settings) connection.old connection.new
        (standing_of worker.old (⟦<Rows<T> as Handler>⟧.history rows.old))
        (standing_of worker.new (⟦<Rows<T> as Handler>⟧.history rows.new))) }
    ensures same_search { option_map searcher_of dead.new ≡ option_map searcher_of dead.old }
{
    let mut asked = Asked::Nothing;
    for _ in 0..u64::MAX {
        let last = make_turn(rt, connection, worker, rows, counts, dead, asked)?;
        asked = last.asked;
        if until_empty && asked == Asked::New && rows.seen == last.before {
            return Ok(Drained { last });
        }
    }
    bail!("the last turn came")
}

/// Makes one turn: searches for entries to give up, makes one round or two rounds in one write, and counts.
fn make_turn<R: Read + Drop, W: Write + Drop, T: Table + Drop, P: Eprint + AllocGlobal>(
    rt: &P,
    connection: &mut Connection<R, W>,
    worker: &mut Worker,
    rows: &mut Rows<T>,
    counts: &mut Counts,
    dead: &mut Option<DeadLetterSearch>,
    asked: Asked,
) -> Result<TurnMade>
    ensures before { IfOk result (λ turn. turn.before ≡ rows.old.seen) }
    ensures settings { worker.new.settings ≡ worker.old.settings }
    ensures ok { OnOk result (Leads (Loops worker.old.settings) connection.old connection.new
        (standing_of worker.old (⟦<Rows<T> as Handler>⟧.history rows.old))
        (standing_of worker.new (⟦<Rows<T> as Handler>⟧.history rows.new))) }
    ensures err { OnErr result (Leads (Stops worker.old.settings) connection.old connection.new
        (standing_of worker.old (⟦<Rows<T> as Handler>⟧.history rows.old))
        (standing_of worker.new (⟦<Rows<T> as Handler>⟧.history rows.new))) }
    ensures same_search { option_map searcher_of dead.new ≡ option_map searcher_of dead.old }
    ensures searches { OnOk result (rows.old.done ≤ rows.old.committed → IfSome dead.old (λ d. d.waits ≡ false
        → (m : Link) × SearchesAfter d asked connection.old m
        × Leads (Loops worker.old.settings) m connection.new
        (standing_of worker.old (⟦<Rows<T> as Handler>⟧.history rows.old))
        (standing_of worker.new (⟦<Rows<T> as Handler>⟧.history rows.new)))) }
{
    let left = rows.left;
    let before = rows.seen;
    look(
        rt.alloc(),
        connection,
        dead,
        asked,
        rows.done > rows.committed,
    )?;
    let made = make_round(rt.alloc(), connection, worker, rows, dead.is_none())?;
    if made.acknowledged || made.round.asked == Asked::Acknowledgement {
        counts.count(rows.committed);
    }
    say_left(rt, left, rows.left, &rows.fault, &rows.undone)?;
    Ok(TurnMade {
        asked: made.round.asked,
        before,
    })
}

/// Searches for entries that were delivered too often, if a search is given.
fn look<R: Read + Drop, W: Write + Drop>(
    alloc: Global,
    connection: &mut Connection<R, W>,
    dead: &mut Option<DeadLetterSearch>,
    asked: Asked,
    in_hand: bool,
) -> Result<()>
    ensures searches { in_hand ≡ false → IfSome dead.old (λ d. d.waits ≡ false
        → OnOk result (SearchesAfter d asked connection.old connection.new)) }
    ensures same { option_map searcher_of dead.new ≡ option_map searcher_of dead.old }
    ensures ok { OnOk result (Besides connection.old connection.new) }
    ensures err { OnErr result (BreaksBesides connection.old connection.new) }
{
    let Some(dead) = dead else {
        return Ok(());
    };
    match dead.turn(alloc, connection, asked, in_hand) {
        Ok(()) => Ok(()),
        Err(error) => Err(error.into()),
    }
}

/// Prints the number of entries that were left pending in this turn, if there are any. The printed reason is
/// that of the last such entry.
fn say_left<P: Eprint + AllocGlobal>(
    rt: &P,
    before: u64,
    left: u64,
    fault: &Option<Fault>,
    undone: &Option<String>,
) -> Result<()> {
    let more = left.saturating_sub(before);
    if 0 < more {
        let reason = format!(in rt.alloc(); "{}", explain_stop(fault, undone))?;
        eprintln!(rt; "{more} left pending, the last one: {}", Masked(&reason))?;
    }
    Ok(())
}

/// Makes a round after which the worker goes on. If `together` is true, makes two rounds in one write where
/// possible.
///
/// If entries are given up, `together` must be false, since the search for them is between an acknowledgement
/// and a claim.
fn make_round<R: Read + Drop, W: Write + Drop, T: Table + Drop>(
    alloc: Global,
    connection: &mut Connection<R, W>,
    worker: &mut Worker,
    rows: &mut Rows<T>,
    together: bool,
) -> Result<Pipelined>
    ensures settings { worker.new.settings ≡ worker.old.settings }
    ensures ok { OnOk result (Leads (Loops worker.old.settings) connection.old connection.new
        (standing_of worker.old (⟦<Rows<T> as Handler>⟧.history rows.old))
        (standing_of worker.new (⟦<Rows<T> as Handler>⟧.history rows.new))) }
    ensures err { OnErr result (Leads (Stops worker.old.settings) connection.old connection.new
        (standing_of worker.old (⟦<Rows<T> as Handler>⟧.history rows.old))
        (standing_of worker.new (⟦<Rows<T> as Handler>⟧.history rows.new))) }
{
    if together {
        match worker.round_pipelined(alloc, connection, rows) {
            Ok(made) => {
                goes_on(made.round.progress, &rows.fault, &rows.undone)?;
                Ok(made)
            }
            Err(error) => Err(explain_round_error(error, &rows.fault)),
        }
    } else {
        match worker.round(alloc, connection, rows) {
            Ok(round) => {
                goes_on(round.progress, &rows.fault, &rows.undone)?;
                Ok(wrap_round(round))
            }
            Err(error) => Err(explain_round_error(error, &rows.fault)),
        }
    }
}

/// Converts a round with a write of its own to a `Pipelined`.
fn wrap_round(round: Round) -> Pipelined
    ensures { result ≡ record { acknowledged = false; round = round } }
{
    Pipelined {
        acknowledged: false,
        round,
    }
}

/// Returns an error if the handler returned `Stop`.
fn goes_on(progress: Progress, fault: &Option<Fault>, undone: &Option<String>) -> Result<()>
    ensures ok { OnOk result (progress ≡ Progress.GoesOn) }
    ensures err { OnErr result (progress ≡ Progress.Stopped) }
{
    match progress {
        Progress::GoesOn => Ok(()),
        Progress::Stopped => Err(explain_stop(fault, undone)),
    }
}

/// Returns the error of a failed round.
fn explain_round_error(error: RunError, fault: &Option<Fault>) -> Error {
    match error {
        RunError::Request(RequestError::NotCommitted) => explain_commit_error(fault),
        RunError::Receive {
            error: ConnectionError::Fault(WireFault::Overfull),
            ..
        } => { anyhow!("a reply is larger than {LARGEST}: take a smaller --count") }
        RunError::Receive {
            error: ConnectionError::Fault(WireFault::TooMany),
            ..
        } => { anyhow!("a reply has more than {MOST} values: take a smaller --count") }
        RunError::Receive {
            error: ConnectionError::Memory,
            ..
        } => { anyhow!("out of memory for a reply: take a smaller --count") }
        error => error.into(),
    }
}

/// Returns the error of a failed commit.
fn explain_commit_error(fault: &Option<Fault>) -> Error {
    match fault {
        Some(reason) => anyhow!("cannot commit: {reason}"),
        None => RunError::Request(RequestError::NotCommitted).into(),
    }
}

/// Returns the error of an entry that was not done, with the entry's id if it is known.
fn explain_stop(fault: &Option<Fault>, undone: &Option<String>) -> Error {
    match (fault, undone) {
        (
            Some(
                Fault::Field {
                    first,
                    second,
                    name,
                    why,
                },
            ),
            _,
        ) => anyhow!(
            "cannot make a row: the field {name} of {first}-{second} {}",
            explain_field_error(*why)
        ),
        (Some(Fault::NotAnId), Some(id)) => {
            anyhow!("cannot make a row of the entry {id}: its id is not two numbers")
        }
        (Some(Fault::Table(TableError::Memory)), Some(id)) => {
            anyhow!("cannot make a row of the entry {id}: out of memory")
        }
        (Some(reason), _) => anyhow!("cannot make a row: {reason}"),
        (None, _) => anyhow!("an entry was not written"),
    }
}

/// Returns the text of a field's error.
fn explain_field_error(why: FieldError) -> &'static str {
    match why {
        FieldError::Missing => "is missing",
        FieldError::NotText => "is not a text in UTF-8",
        FieldError::NotNumber => "is not an integer of 64 bits",
    }
}
