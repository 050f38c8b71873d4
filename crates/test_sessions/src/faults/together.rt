//! Workers over a server in memory. Each byte goes through the codec on both sides: commands are
//! written by the worker and read by the server. Replies are written by the server, read and written
//! again as by a proxy, and read by the worker, alternately by value and in place.
//!
//! A first line selects many runs, and each has a fault at another point. At the end of a run all entries have
//! to be handled, and nothing may be pending:
//!
//! | First line | The runs |
//! |---|---|
//! | `cuts 2` | the connection breaks after each byte of a run, in either direction |
//! | `crashes 2 60` | the worker crashes after 0, 1, 2 .. steps |
//! | `gone 2 30` | one of two workers is gone for good after 0, 1, 2 .. steps |
//! | `schedules 1000` | two workers, 16 moves at random, faults among them, for each seed |
//! | `settles 2 3` | one run, with no fault but refused memory; two workers, 3 entries |
ghost use Rattle.std.specs.Prelude.{◌≡◌, IfOk};
ghost use Rattle.test_sessions.specs.Scripts.{is_together_script};

use crate::faults::{
    CALM, Faults, Link, NEVER, Tally, Turn, World, draw_next, draw_number, make_claim_settings,
    make_faults,
};
use crate::{parse_number, push_line, split_at_mark};
use redis_wire::{Decoded, Limits, Protocol, WireError, append_answer, decode};
use std::alloc::{AllocError, Global};
use std::mem;
use worker::{
    AnswerError, EntryRef, Handler, InPlaceError, NotCommitted, RequestError, Verdict, Worker,
    WorkerError,
};

/// Plays the script if this module has one of this name. Returns whether it has.
pub fn play(alloc: Global, name: &str, words: &str, out: &mut String) -> Result<bool, AllocError>
    ensures { IfOk result (λ played. played ≡ is_together_script name.now) }
{
    match name {
        "cuts" | "crashes" | "gone" | "schedules" | "settles" => played!(play_named(
            alloc, name, words, out
        )),
        _ => Ok(false),
    }
}

/// Plays the runs of a script, and prints their outcome.
fn play_named(alloc: Global, name: &str, words: &str, out: &mut String) -> Result<(), AllocError> {
    let (number, word) = split_at_mark(words, ' ');
    let is_resp3 = number == "3";
    if name == "settles" {
        let run = play_session(alloc, name, is_resp3, parse_number(word))?;
        let end = if run.settled == 1 {
            "all is handled, and nothing is pending"
        } else {
            "not all is handled, or something is pending"
        };
        return push_line(out, end);
    }
    match name {
        "cuts" => {
            let count = count_bytes(alloc, is_resp3)?;
            push_sessions(alloc, name, is_resp3, count, out)
        }
        "schedules" => push_sessions(alloc, name, is_resp3, parse_number(number), out),
        _ => push_sessions(alloc, name, is_resp3, parse_number(word), out),
    }
}

/// Plays the runs of this name with the numbers below `count`, and prints their outcome on one line.
fn push_sessions(
    alloc: Global,
    name: &str,
    is_resp3: bool,
    count: usize,
    out: &mut String,
) -> Result<(), AllocError> {
    let mut tally = Tally::default();
    let mut unsettled = String::new(alloc);
    add_sessions(alloc, name, is_resp3, count, &mut tally, &mut unsettled)?;
    write!(
        out,
        "{} sessions, {} settled; {} breaks, {} sessions with one; {} left something{}\n",
        tally.runs,
        tally.settled,
        tally.count_breaks(),
        tally.broken_once,
        tally.left,
        unsettled.as_str()
    )
}

/// Adds the runs of this name with the numbers below `count`. Appends the numbers of those that did not settle.
fn add_sessions(
    alloc: Global,
    name: &str,
    is_resp3: bool,
    count: usize,
    tally: &mut Tally,
    unsettled: &mut String,
) -> Result<(), AllocError> {
    for number in 0..count {
        let run = play_session(alloc, name, is_resp3, number)?;
        tally.add(run);
        if run.settled == 0 {
            write!(unsettled, "; {number} did not settle")?;
        }
    }
    Ok(())
}

/// Plays the run of this name and number over a new server.
fn play_session(
    alloc: Global,
    name: &str,
    is_resp3: bool,
    number: usize,
) -> Result<Tally, AllocError> {
    let mut session = make_session(alloc, is_resp3);
    match name {
        "cuts" => play_faulty(&mut session, &["ann"], 2, make_faults(number, NEVER)),
        "crashes" => play_faulty(&mut session, &["ann"], 5, make_faults(NEVER, number)),
        "gone" => play_lost_worker(&mut session, number),
        "settles" => play_faulty(&mut session, &["ann", "bob"], number, CALM),
        _ => play_moves(&mut session, number),
    }
}

/// Counts the bytes of a run of `cuts` without a fault; 0 if it did not settle.
fn count_bytes(alloc: Global, is_resp3: bool) -> Result<usize, AllocError> {
    let mut session = make_session(alloc, is_resp3);
    let run = play_faulty(&mut session, &["ann"], 2, CALM)?;
    if run.settled == 0 || run.count_breaks() > 0 {
        return Ok(0);
    }
    match session.lines.get(0) {
        Some(line) => Ok(NEVER.saturating_sub(line.link.faults.bytes)),
        None => Ok(0),
    }
}

/// Plays a run with workers of these names, which have these faults, and this number of entries.
fn play_faulty(
    session: &mut Session,
    consumers: &[&'static str],
    entries: usize,
    faults: Faults,
) -> Result<Tally, AllocError> {
    fill_session(session, consumers, entries)?;
    for line in session.lines.iter_mut() {
        line.link.faults = faults;
    }
    settle_session(session)
}

/// Plays a run whose first worker is gone for good after `steps` steps. The other one claims its pending entries.
fn play_lost_worker(session: &mut Session, steps: usize) -> Result<Tally, AllocError> {
    fill_session(session, &["ann", "bob"], 6)?;
    lose_first_worker(session, steps);
    for _ in 0..10u8 {
        if session.world.tally.count_breaks() == 0 {
            play_round(session);
        }
    }
    let pending = session.world.ask_server("XPENDING k g - + 10 ann\r\n")?;
    session.world.tally.left = usize::from(!pending.starts_with(b"*0"));
    settle_session(session)
}

// A server with some entries, and workers.

/// The most entries of a run.
const ENTRIES: usize = 6;

/// This number of turns after the last fault is enough for every entry.
const TURNS: usize = 60;

/// A server with some entries, and workers.
#[derive(Drop)]
struct Session {
    world: World,
    is_resp3: bool,
    added: usize,
    deleted: [bool; ENTRIES],
    lines: Vec<Line>,
}

/// Returns a new server with no entry and no worker.
fn make_session(alloc: Global, is_resp3: bool) -> Session {
    Session {
        world: World::new(alloc),
        is_resp3,
        added: 0,
        deleted: [false; ENTRIES],
        lines: Vec::new(alloc),
    }
}

/// Adds workers of these names, and this number of entries.
fn fill_session(
    session: &mut Session,
    consumers: &[&'static str],
    entries: usize,
) -> Result<(), AllocError> {
    for consumer in consumers {
        let line = make_line(&mut session.world, consumer, session.is_resp3)?;
        session.lines.push(line)?;
    }
    for _ in 0..entries {
        add_entry(session)?;
    }
    Ok(())
}

/// Adds one entry.
fn add_entry(session: &mut Session) -> Result<(), AllocError> {
    let number = session.added;
    let command = format!(in session.world.alloc; "XADD k {number}-1 n {number}\r\n")?;
    let _id = session.world.ask_server(command.as_str())?;
    session.added = number.saturating_add(1);
    Ok(())
}

/// Deletes an entry, if it was added.
fn delete_entry(session: &mut Session, number: usize) -> Result<(), AllocError> {
    if number < session.added {
        let command = format!(in session.world.alloc; "XDEL k {number}-1\r\n")?;
        let _count = session.world.ask_server(command.as_str())?;
        if let Some(place) = session.deleted.get_mut(number) {
            *place = true;
        }
    }
    Ok(())
}

/// Gives every worker a turn.
fn play_round(session: &mut Session) {
    for line in session.lines.iter_mut() {
        session.world.now = session.world.now.saturating_add(1);
        play_turn(&mut session.world, line);
    }
}

/// Returns whether each entry was committed by a worker or deleted, and nothing is pending.
fn is_done(session: &mut Session) -> Result<bool, AllocError> {
    for number in 0..session.added {
        let is_deleted = session.deleted.get(number) == Some(&true);
        if !is_deleted && !is_committed(&session.lines, number) {
            return Ok(false);
        }
    }
    session.world.is_nothing_pending()
}

/// Gives turns without a new fault until all is done, or `TURNS` times. Returns the tally of the run. It settled if all
/// is done, and no worker is wrong.
fn settle_session(session: &mut Session) -> Result<Tally, AllocError> {
    for _ in 0..TURNS {
        if is_done(session)? {
            session.world.tally.settled = usize::from(!session.world.is_refused);
            break;
        }
        play_round(session);
    }
    let mut tally = session.world.tally;
    tally.runs = 1;
    tally.broken_once = usize::from(tally.count_breaks() == 1);
    Ok(tally)
}

// A worker and its connection to the server.

/// An entry that is pending for this number of milliseconds is claimed; a turn takes one.
const IDLE: usize = 4;

/// A handler that records the entries that it was given. The entry with the number 3 has the id `3-1`, and the
/// field `n` of the value 3.
#[derive(Drop)]
struct Book {
    /// Which entries were done and not committed; a crash undoes them.
    uncommitted: [bool; ENTRIES],
    /// Which entries were done and committed.
    committed: [bool; ENTRIES],
    /// Whether it was given an entry that was not added.
    is_foreign: bool,
    /// The verdict on the next entry; those after it are done.
    verdict: Verdict,
    /// Whether the next commit fails.
    fails_commit: bool,
}

impl Handler for Book {
    ghost History = { Unit {0} };

    ghost with_verdict = { λ history e verdict. history };

    ghost with_commit = { λ history. history };

    ghost history = { λ handler. tt };

    fn handle(&mut self, _alloc: Global, entry: &EntryRef<'_>) -> Verdict {
        let field = entry.get_u64(b"n");
        let verdict = mem::replace(&mut self.verdict, Verdict::Done);
        let number = parse_id(entry.id());
        match self.uncommitted.get_mut(number) {
            Some(place) if field == Ok(number as u64) => {
                if verdict == Verdict::Done {
                    *place = true;
                }
            }
            _ => self.is_foreign = true,
        }
        verdict
    }

    fn commit(&mut self, _alloc: Global) -> Result<(), NotCommitted> {
        if mem::replace(&mut self.fails_commit, false) {
            return Err(NotCommitted);
        }
        for (committed, uncommitted) in self.committed.iter_mut().zip(self.uncommitted.iter_mut()) {
            *committed = *committed || *uncommitted;
            *uncommitted = false;
        }
        Ok(())
    }
}

/// Returns the number of the entry with this id; `usize::MAX` for an id of no entry.
fn parse_id(id: &str) -> usize {
    match id.split_once('-') {
        Some((number, "1")) => number.parse::<usize>().unwrap_or(usize::MAX),
        _ => usize::MAX,
    }
}

/// A worker and its connection to the server.
#[derive(Drop)]
struct Line {
    consumer: &'static str,
    book: Book,
    worker: Worker,
    link: Link,
    /// Whether the connection broke or the worker crashed, and it did not restart yet.
    is_down: bool,
    /// Whether the worker never comes back.
    is_gone: bool,
}

/// Returns whether any worker committed the entry with this number.
fn is_committed(lines: &[Line], number: usize) -> bool {
    for line in lines {
        if line.book.committed.get(number) == Some(&true) {
            return true;
        }
    }
    false
}

/// Returns a new worker.
fn make_worker(alloc: Global, consumer: &str) -> Result<Worker, AllocError> {
    Ok(Worker::new(alloc, make_claim_settings(alloc, consumer, 2, IDLE)?))
}

/// Returns a worker of this name, and its connection.
fn make_line(
    world: &mut World,
    consumer: &'static str,
    is_resp3: bool,
) -> Result<Line, AllocError> {
    let worker = make_worker(world.alloc, consumer)?;
    let link = Link::new(world, is_resp3)?;
    Ok(Line {
        consumer,
        book: Book {
            uncommitted: [false; ENTRIES],
            committed: [false; ENTRIES],
            is_foreign: false,
            verdict: Verdict::Done,
            fails_commit: false,
        },
        worker,
        link,
        is_down: false,
        is_gone: false,
    })
}

/// The worker restarts over a new connection: its uncommitted work is undone, and bytes in transit
/// are lost.
fn start_again(world: &mut World, line: &mut Line) -> Result<(), AllocError> {
    line.worker = make_worker(world.alloc, line.consumer)?;
    line.link.connect_again(world)?;
    line.book.uncommitted = [false; ENTRIES];
    line.is_down = false;
    Ok(())
}

/// Has the worker send a command and take the reply. If it is down it restarts first, unless it is gone. Refused
/// memory counts as a crash.
fn play_turn(world: &mut World, line: &mut Line) {
    if line.is_down && (line.is_gone || start_again(world, line).is_err()) {
        return;
    }
    let turn = exchange_command(world, line).unwrap_or(Turn::Killed);
    line.is_down = !matches!(turn, Turn::Done);
    world.is_refused = world.is_refused || line.book.is_foreign;
    world.count_fault(turn);
}

/// Exchanges one command and its reply.
fn exchange_command(world: &mut World, line: &mut Line) -> Result<Turn, AllocError> {
    let mut request = Vec::new(world.alloc);
    if let Err(error) = line
        .worker
        .request(world.alloc, &mut request, &mut line.book)
    {
        // (it makes the same request again at its next turn)
        world.is_refused = world.is_refused || error == RequestError::TooLong;
        return Ok(Turn::Done);
    }
    if !line.link.take_step() {
        return Ok(Turn::Killed);
    }
    let Some(replies) = line.link.send_bytes(world, &request)? else {
        return Ok(Turn::Cut);
    };
    let replies = forward_reply(world.alloc, line.link.is_resp3, &replies)?;
    match line.link.deliver_replies(&replies)? {
        Turn::Killed => Ok(Turn::Killed),
        _ => take_reply(world, line),
    }
}

/// Reads a reply and writes it again, as a proxy does. Returns the bytes; none if it is not one whole reply.
fn forward_reply(alloc: Global, is_resp3: bool, bytes: &[u8]) -> Result<Vec<u8>, AllocError> {
    let protocol = if is_resp3 {
        Protocol::Resp3
    } else {
        Protocol::Resp2
    };
    let mut forwarded = Vec::new(alloc);
    match decode(alloc, bytes, Limits::default()) {
        Ok(Decoded::Complete { reply, len }) if len == bytes.len() => {
            append_answer(alloc, &mut forwarded, protocol, &reply)?;
        }
        _ => {}
    }
    Ok(forwarded)
}

/// Passes the next reply to the worker, by value or in place, roughly in alternation.
fn take_reply(world: &mut World, line: &mut Line) -> Result<Turn, AllocError> {
    let is_taken = if line.link.faults.steps % 2 == 0 {
        take_in_place(world, line)
    } else {
        take_by_value(world, line)
    };
    if !is_taken {
        return Ok(Turn::Cut);
    }
    Ok(if line.link.take_step() {
        Turn::Done
    } else {
        Turn::Killed
    })
}

/// Passes the next reply to the worker by value. Returns `false` if none is complete, or it is refused.
fn take_by_value(world: &mut World, line: &mut Line) -> bool {
    let Ok(Some(reply)) = line.link.replies.next(world.alloc) else {
        return false;
    };
    match line.worker.answered(world.alloc, reply, &mut line.book) {
        Ok(_) => true,
        Err(
            AnswerError {
                error: WorkerError::Memory,
                ..
            },
        ) => true,
        Err(_) => {
            world.is_refused = true;
            false
        }
    }
}

/// Passes the next reply to the worker in place. Returns `false` if none is complete, or it is refused.
fn take_in_place(world: &mut World, line: &mut Line) -> bool {
    let Ok(Some(len)) = line.link.replies.next_in_place(world.alloc) else {
        return false;
    };
    let bytes = line.link.replies.bytes();
    let result = line
        .worker
        .answered_in_place(world.alloc, bytes, Limits::default(), &mut line.book);
    match result {
        Ok(_)
        | Err(
            InPlaceError::Answer(
                AnswerError {
                    error: WorkerError::Memory,
                    ..
                },
            ),
        ) => {
            line.link.replies.give_out(len);
            true
        }
        Err(InPlaceError::Unread(WireError::Memory)) => false,
        Err(_) => {
            world.is_refused = true;
            false
        }
    }
}

// Two workers of a group over random schedules: they crash, connections break, commits fail,
// entries are left, deleted and claimed.

/// The number of moves of a run.
const MOVES: usize = 16;

/// Sets a fault that the worker meets in its next turns; none for a kind above 6.
fn set_fault(line: &mut Line, kind: u64, size: usize) {
    match kind {
        0 | 1 => line.link.faults.bytes = size % 300,
        2 | 3 => line.link.faults.steps = size % 8,
        4 => line.book.fails_commit = true,
        5 => line.book.verdict = Verdict::LeavePending,
        6 => line.book.verdict = Verdict::Stop,
        _ => {}
    }
}

/// Makes the first worker go for good after this number of steps.
fn lose_first_worker(session: &mut Session, steps: usize) {
    for line in session.lines.iter_mut().take(1) {
        line.is_gone = true;
        line.link.faults.steps = steps;
    }
}

/// Makes the move that a number selects.
fn make_move(session: &mut Session, state: u64) -> Result<(), AllocError> {
    let choice = (state >> 33) % 16;
    let size = draw_number(state, 45, 1_024);
    session.world.now = session.world.now.saturating_add(size as u64 % 3);
    match choice {
        0..4 if session.added < ENTRIES => add_entry(session),
        4 => delete_entry(session, size % ENTRIES),
        5 => {
            lose_first_worker(session, 3);
            Ok(())
        }
        _ => {
            let index = usize::from(choice % 2 == 0);
            if let Some(line) = session.lines.get_mut(index) {
                set_fault(line, (state >> 40) % 12, size);
                play_turn(&mut session.world, line);
            }
            Ok(())
        }
    }
}

/// Plays a run with moves in an order that the seed selects: over RESP2 for an even seed, over RESP3 for an odd one.
fn play_moves(session: &mut Session, seed: usize) -> Result<Tally, AllocError> {
    session.is_resp3 = seed % 2 == 1;
    fill_session(session, &["ann", "bob"], 0)?;
    let mut state = draw_next(seed as u64);
    for _ in 0..MOVES {
        state = draw_next(state);
        make_move(session, state)?;
    }
    play_round(session);
    settle_session(session)
}
