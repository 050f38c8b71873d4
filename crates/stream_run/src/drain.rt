//! The loop of the program: it sends commands and receives the replies.
ghost use Rattle.std.specs.Prelude.{◌≡◌, ◌≤◌, ◌⊎◌, IfErr, IfOk, IfSome, IsTrue, None, OnErr, OnOk, false, option_map, string_bytes};
ghost use Rattle.worker.specs.DeadLetters.Besides.{Besides, BreaksBesides, GivesUpNow};
ghost use Rattle.worker.specs.DeadLetters.Dead.{searcher_of};
ghost use Rattle.redis_connection.specs.Link.{Link};
ghost use Rattle.stream_run.specs.Failures.{IsOfChild};
ghost use Rattle.stream_run.specs.GivenUp.{GivesUpDead, GivesUpEach, dead_of, names_of_search};
ghost use Rattle.stream_run.specs.Program.{SearchesAfter};
ghost use Rattle.stream_run.specs.Rounds.{Adds, BreaksAdding, Rounds, Stops};
ghost use Rattle.worker.specs.Session.{standing_of};

use crate::failure::Failure;
use crate::report::Report;
use anyhow::{Error, anyhow};
use redis_connection::{Connection, ConnectionError};
use redis_wire::Fault as WireFault;
use std::alloc::{AllocError, Global};
use std::io::{Read, Write};
use worker::dead_letters::DeadLetterSearch;
use worker::{Asked, Handler, Pipelined, Round, RunError, Worker};
use worker_jobs::{Fault, Jobs, Note, SteadyRead, SteadyWrite};

/// The limit on the buffer of a connection, as in `Limits::default`.
const LARGEST: &str = "1 GiB";

/// The limit on the values of a reply, as in `Limits::default`.
const MOST: &str = "16,777,216";

/// Proof that a drain ended with a reply `stop`, or with a read that returned no new entries. Only `drain`
/// creates one.
#[derive(Clone, Copy)]
pub struct Drained {
    /// The last turn.
    last: TurnMade,
}

/// A turn of the loop.
#[derive(Clone, Copy)]
struct TurnMade {
    /// The last command that was sent in the turn.
    asked: Asked,
    /// The number of entries that the handler had received before the turn.
    before: u64,
}

/// Drains until an error occurs or the child replies `stop`. With `until_empty`, also ends when a read returns
/// no new entries.
pub fn drain<
    R: Read + Drop,
    W: Write + Drop,
    C: SteadyRead + Drop,
    D: SteadyWrite + Drop,
    T: Eprint + AllocGlobal,
>(
    rt: &T,
    connection: &mut Connection<R, W>,
    worker: &mut Worker,
    jobs: &mut Jobs<C, D>,
    report: &mut Report,
    dead: &mut Option<DeadLetterSearch>,
    until_empty: bool,
) -> Result<Drained, Failure>
    ensures ended { IfOk result (λ _. IsTrue until_empty ⊎ IsTrue jobs.new.over) }
    ensures read { IfOk result (λ drained. IsTrue jobs.new.over ⊎ (drained.last.asked ≡ Asked.New)) }
    ensures empty { IfOk result (λ drained. IsTrue jobs.new.over ⊎ (drained.last.before ≡ jobs.new.seen)) }
    ensures ok { OnOk result (Rounds worker.old.settings connection.old
        (standing_of worker.old (⟦<Jobs<C, D> as Handler>⟧.history jobs.old)) connection.new
        (standing_of worker.new (⟦<Jobs<C, D> as Handler>⟧.history jobs.new))) }
    ensures err { OnErr result (Stops worker.old.settings connection.old connection.new
        (standing_of worker.old (⟦<Jobs<C, D> as Handler>⟧.history jobs.old))
        (standing_of worker.new (⟦<Jobs<C, D> as Handler>⟧.history jobs.new))) }
    ensures child { IfErr result (λ failure. IsOfChild failure → IsTrue jobs.new.over) }
    ensures same_search { option_map searcher_of dead.new ≡ option_map searcher_of dead.old }
{
    let mut asked = Asked::Nothing;
    for _ in 0..u64::MAX {
        let last = make_turn(rt, connection, worker, jobs, report, dead, asked)?;
        asked = last.asked;
        if jobs.is_over() {
            settle(rt.alloc(), connection, worker, jobs, report)?;
            check_stop(rt.alloc(), jobs)?;
            return Ok(Drained { last });
        }
        if until_empty && asked == Asked::New && jobs.seen == last.before {
            return Ok(Drained { last });
        }
    }
    Err(anyhow!("the last turn came").into())
}

/// Makes one turn. Searches for entries to give up, makes one round or two rounds in one write, and sends the
/// entries that the replies add. Then shows the child's texts, gives up the entries with the reply `dead`, and
/// counts.
fn make_turn<
    R: Read + Drop,
    W: Write + Drop,
    C: SteadyRead + Drop,
    D: SteadyWrite + Drop,
    T: Eprint + AllocGlobal,
>(
    rt: &T,
    connection: &mut Connection<R, W>,
    worker: &mut Worker,
    jobs: &mut Jobs<C, D>,
    report: &mut Report,
    dead: &mut Option<DeadLetterSearch>,
    asked: Asked,
) -> Result<TurnMade, Failure>
    ensures before { IfOk result (λ turn. turn.before ≡ jobs.old.seen) }
    ensures settings { worker.new.settings ≡ worker.old.settings }
    ensures ok { OnOk result (Rounds worker.old.settings connection.old
        (standing_of worker.old (⟦<Jobs<C, D> as Handler>⟧.history jobs.old)) connection.new
        (standing_of worker.new (⟦<Jobs<C, D> as Handler>⟧.history jobs.new))) }
    ensures err { OnErr result (Stops worker.old.settings connection.old connection.new
        (standing_of worker.old (⟦<Jobs<C, D> as Handler>⟧.history jobs.old))
        (standing_of worker.new (⟦<Jobs<C, D> as Handler>⟧.history jobs.new))) }
    ensures not_child { IfErr result (λ failure. IsOfChild failure → ⊥) }
    ensures same_search { option_map searcher_of dead.new ≡ option_map searcher_of dead.old }
    ensures searches { OnOk result (jobs.old.done ≤ jobs.old.committed → IfSome dead.old (λ d. d.waits ≡ false
        → (m : Link) × SearchesAfter d asked connection.old m × Rounds worker.old.settings m
        (standing_of worker.old (⟦<Jobs<C, D> as Handler>⟧.history jobs.old)) connection.new
        (standing_of worker.new (⟦<Jobs<C, D> as Handler>⟧.history jobs.new)))) }
{
    let before = jobs.seen;
    look(
        rt.alloc(),
        connection,
        jobs.done > jobs.committed,
        dead,
        asked,
    )?;
    let made = make_round(rt.alloc(), connection, worker, jobs, dead.is_none())?;
    send_added(rt.alloc(), connection, jobs)?;
    let notes = jobs.take_notes(rt.alloc());
    show_notes(rt, &notes)?;
    give_up_dead(rt.alloc(), connection, dead, &notes)?;
    if made.acknowledged || made.round.asked == Asked::Acknowledgement {
        report.count(jobs.committed);
    }
    Ok(TurnMade {
        asked: made.round.asked,
        before,
    })
}

/// Searches for entries that were delivered too often, if a search is given.
fn look<R: Read + Drop, W: Write + Drop>(
    alloc: Global,
    connection: &mut Connection<R, W>,
    in_hand: bool,
    dead: &mut Option<DeadLetterSearch>,
    asked: Asked,
) -> Result<(), Failure>
    ensures searches { in_hand ≡ false → IfSome dead.old (λ d. d.waits ≡ false
        → OnOk result (SearchesAfter d asked connection.old connection.new)) }
    ensures same { option_map searcher_of dead.new ≡ option_map searcher_of dead.old }
    ensures ok { OnOk result (Besides connection.old connection.new) }
    ensures err { OnErr result (BreaksBesides connection.old connection.new) }
    ensures not_child { IfErr result (λ failure. IsOfChild failure → ⊥) }
{
    let Some(dead) = dead else {
        return Ok(());
    };
    match dead.turn(alloc, connection, asked, in_hand) {
        Ok(()) => Ok(()),
        Err(error) => Err(Failure::Search(error)),
    }
}

/// Sends the entries that the replies add. No entry of the batch is acknowledged before the server has replied
/// to each command.
fn send_added<R: Read + Drop, W: Write + Drop, C: SteadyRead + Drop, D: SteadyWrite + Drop>(
    alloc: Global,
    connection: &mut Connection<R, W>,
    jobs: &mut Jobs<C, D>,
) -> Result<(), Failure>
    ensures ok { OnOk result (Adds connection.old connection.new) }
    ensures err { OnErr result (BreaksAdding connection.old connection.new) }
    ensures kept { jobs.new ≡ record jobs.old { outbox = jobs.new.outbox } }
    ensures not_child { IfErr result (λ failure. IsOfChild failure → ⊥) }
{
    match jobs.send_added(alloc, connection) {
        Ok(()) => Ok(()),
        Err(error) => Err(Failure::Outbox(error)),
    }
}

/// Gives up each entry with the reply `dead`, if there is a stream of dead letters. The dead letter contains
/// the text of the reply.
fn give_up_dead<R: Read + Drop, W: Write + Drop>(
    alloc: Global,
    connection: &mut Connection<R, W>,
    dead: &mut Option<DeadLetterSearch>,
    notes: &[Note],
) -> Result<(), Failure>
    ensures ok { OnOk result (GivesUpDead (dead_of dead.old) notes.now connection.old connection.new) }
    ensures err { OnErr result (BreaksBesides connection.old connection.new) }
    ensures not_child { IfErr result (λ failure. IsOfChild failure → ⊥) }
    ensures same_search { option_map searcher_of dead.new ≡ option_map searcher_of dead.old }
{
    match dead {
        Some(search) => give_up_each(alloc, connection, search, notes),
        None => Ok(()),
    }
}

/// Gives up each entry with the reply `dead`, in order.
fn give_up_each<R: Read + Drop, W: Write + Drop>(
    alloc: Global,
    connection: &mut Connection<R, W>,
    search: &mut DeadLetterSearch,
    notes: &[Note],
) -> Result<(), Failure>
    ensures ok { OnOk result (GivesUpEach (names_of_search search.old) notes.now connection.old connection.new) }
    ensures err { OnErr result (BreaksBesides connection.old connection.new) }
    ensures not_child { IfErr result (λ failure. IsOfChild failure → ⊥) }
    ensures same_search { searcher_of search.new ≡ searcher_of search.old }
{
    for note in notes {
        if note.dead {
            give_up(alloc, connection, search, note)?;
        }
    }
    Ok(())
}

/// Gives up the entry of a note. The dead letter contains the text of the note.
fn give_up<R: Read + Drop, W: Write + Drop>(
    alloc: Global,
    connection: &mut Connection<R, W>,
    search: &mut DeadLetterSearch,
    note: &Note,
) -> Result<(), Failure>
    ensures ok { OnOk result (GivesUpNow (names_of_search search.old).0 (names_of_search search.old).1
        (string_bytes note.now.id) note.now.text.items connection.old connection.new) }
    ensures err { OnErr result (BreaksBesides connection.old connection.new) }
    ensures names { names_of_search search.new ≡ names_of_search search.old }
    ensures not_child { IfErr result (λ failure. IsOfChild failure → ⊥) }
    ensures same_search { searcher_of search.new ≡ searcher_of search.old }
{
    match search.give_up_now(alloc, connection, note.id.as_str(), &note.text) {
        Ok(()) => Ok(()),
        Err(error) => Err(Failure::Search(error)),
    }
}

/// Makes a round. If `together` is true, makes two rounds in one write where possible.
///
/// If entries are given up, `together` must be false, since the search for them is between an acknowledgement
/// and a claim.
fn make_round<R: Read + Drop, W: Write + Drop, C: SteadyRead + Drop, D: SteadyWrite + Drop>(
    alloc: Global,
    connection: &mut Connection<R, W>,
    worker: &mut Worker,
    jobs: &mut Jobs<C, D>,
    together: bool,
) -> Result<Pipelined, Failure>
    ensures settings { worker.new.settings ≡ worker.old.settings }
    ensures ok { OnOk result (Rounds worker.old.settings connection.old
        (standing_of worker.old (⟦<Jobs<C, D> as Handler>⟧.history jobs.old)) connection.new
        (standing_of worker.new (⟦<Jobs<C, D> as Handler>⟧.history jobs.new))) }
    ensures err { OnErr result (Stops worker.old.settings connection.old connection.new
        (standing_of worker.old (⟦<Jobs<C, D> as Handler>⟧.history jobs.old))
        (standing_of worker.new (⟦<Jobs<C, D> as Handler>⟧.history jobs.new))) }
    ensures not_child { IfErr result (λ failure. IsOfChild failure → ⊥) }
{
    if together {
        match worker.round_pipelined(alloc, connection, jobs) {
            Ok(made) => Ok(made),
            Err(error) => Err(convert_run_error(error)),
        }
    } else {
        match worker.round(alloc, connection, jobs) {
            Ok(round) => Ok(wrap_round(round)),
            Err(error) => Err(convert_run_error(error)),
        }
    }
}

/// Converts a round with a write of its own to a `Pipelined`.
fn wrap_round(round: Round) -> Pipelined
    ensures { result ≡ record { acknowledged = false; round = round } }
{
    Pipelined {
        acknowledged: false,
        round,
    }
}

/// Makes one more round after the last entry, if some entries are done and not acknowledged.
fn settle<R: Read + Drop, W: Write + Drop, C: SteadyRead + Drop, D: SteadyWrite + Drop>(
    alloc: Global,
    connection: &mut Connection<R, W>,
    worker: &mut Worker,
    jobs: &mut Jobs<C, D>,
    report: &mut Report,
) -> Result<(), Failure>
    ensures settings { worker.new.settings ≡ worker.old.settings }
    ensures ok { OnOk result (Rounds worker.old.settings connection.old
        (standing_of worker.old (⟦<Jobs<C, D> as Handler>⟧.history jobs.old)) connection.new
        (standing_of worker.new (⟦<Jobs<C, D> as Handler>⟧.history jobs.new))) }
    ensures err { OnErr result (Stops worker.old.settings connection.old connection.new
        (standing_of worker.old (⟦<Jobs<C, D> as Handler>⟧.history jobs.old))
        (standing_of worker.new (⟦<Jobs<C, D> as Handler>⟧.history jobs.new))) }
    ensures not_child { IfErr result (λ failure. IsOfChild failure → ⊥) }
{
    if jobs.done <= jobs.committed {
        return Ok(());
    }
    match worker.round(alloc, connection, jobs) {
        Ok(_) => {
            report.count(jobs.committed);
            Ok(())
        }
        Err(error) => Err(convert_run_error(error)),
    }
}

/// Returns the error with which the handler stopped. Returns `Ok` if the child replied `stop`.
fn check_stop<C: SteadyRead + Drop, D: SteadyWrite + Drop>(
    alloc: Global,
    jobs: &Jobs<C, D>,
) -> Result<(), Failure>
    ensures replied { OnOk result ((jobs.now.fault ≡ None) × IsTrue jobs.now.over) }
    ensures child { IfErr result (λ failure. IsOfChild failure → IsTrue jobs.now.over) }
{
    let id = match &jobs.undone {
        Some(id) => id.as_str(),
        None => "",
    };
    if !jobs.is_over() {
        return Err(anyhow!("the entry {id} was asked of after a stop").into());
    }
    match &jobs.fault {
        None => Ok(()),
        Some(Fault::Memory) => Err(anyhow!("out of memory for the entry {id}").into()),
        Some(Fault::Unknown) => {
            let line = mask_bytes(alloc, jobs.reply())?;
            Err(Failure::Child(anyhow!(
                "the child's reply to the entry {id} is not done, later, dead or stop: {line}"
            )))
        }
        Some(fault) => Err(Failure::Child(anyhow!(
            "the child has no reply to the entry {id}: {fault}"
        ))),
    }
}

/// Returns the failure of a round.
fn convert_run_error(error: RunError) -> Failure
    ensures { IsOfChild result → ⊥ }
{
    match error {
        RunError::Receive {
            error: ConnectionError::Fault(WireFault::Overfull),
            ..
        } => { anyhow!("a reply is larger than {LARGEST}: take a smaller --count").into() }
        RunError::Receive {
            error: ConnectionError::Fault(WireFault::TooMany),
            ..
        } => { anyhow!("a reply has more than {MOST} values: take a smaller --count").into() }
        RunError::Receive {
            error: ConnectionError::Memory,
            ..
        } => { anyhow!("out of memory for a reply: take a smaller --count").into() }
        error => Failure::Round(error),
    }
}

/// Shows each text that is not empty, with the id of its entry.
fn show_notes<T: Eprint + AllocGlobal>(rt: &T, notes: &[Note]) -> Result<(), Error> {
    for note in notes {
        if note.text.is_empty() {
            continue;
        }
        let text = mask_bytes(rt.alloc(), &note.text)?;
        let id = mask_bytes(rt.alloc(), note.id.as_bytes())?;
        let word = if note.dead { "dead" } else { "later" };
        eprintln!(rt; "{id} {word}: {text}")?;
    }
    Ok(())
}

/// Returns the bytes as text, with `?` for each control character. If they are not UTF-8, `?` replaces each
/// byte that is not printable ASCII.
fn mask_bytes(alloc: Global, bytes: &[u8]) -> Result<String, AllocError> {
    let Ok(text) = str::from_utf8(bytes) else {
        return mask_ascii(alloc, bytes);
    };
    let mut shown = String::new(alloc);
    for letter in text.chars() {
        shown.push(if letter.is_control() { '?' } else { letter })?;
    }
    Ok(shown)
}

/// Returns the bytes as text, with `?` for each byte that is not printable ASCII.
fn mask_ascii(alloc: Global, bytes: &[u8]) -> Result<String, AllocError> {
    let mut shown = String::new(alloc);
    for byte in bytes {
        let is_shown = (b' '..=b'~').contains(byte);
        shown.push(if is_shown { char::from(*byte) } else { '?' })?;
    }
    Ok(shown)
}
