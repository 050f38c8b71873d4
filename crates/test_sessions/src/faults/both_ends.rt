//! Plays both ends of a stream over a server in memory: a producer adds records, and a worker writes them into
//! a file of lines. At the end of a run the lines are compared with the records.
//!
//! Each line is played as a number of runs, and is printed with their outcome after a tab:
//!
//! | Line | The runs |
//! |---|---|
//! | `calm 7 3 2` | one run with no fault; its result is the same if memory is refused |
//! | `cut producer 7 3 2` | the connection of this end breaks after each byte, in either direction |
//! | `crash producer 7 3 2` | this end is killed at each step |
//! | `crash file 7 3 2` | the worker is killed within each commit, and its file is left with each length |
//! | `late producer 7 3 2` | as `cut`; the unsent bytes arrive later, at each of six delays |
//! | `random 1 1000` | 1,000 random schedules of all of these faults, from the seed 1 on |
//!
//! The end is `producer` or `worker`. The numbers are the count of records, of records in a batch of the
//! producer, and of entries in one read of the worker. Then words may follow:
//!
//! | Word | Its effect |
//! |---|---|
//! | `resp3` | both ends speak RESP3 |
//! | `restarts` | after its connection broke, an end is restarted, as after a kill |
//! | `forgets` | wrong: a new worker ignores the last lines of its file |
//! | `guesses` | wrong: after its connection broke, the producer does not read the last id of the stream |
//!
//! A worker that is restarted first acknowledges the entries of the last lines of its file, as many as one
//! read returns.
//!
//! For each line the numbers of runs and of their faults are printed. Then comes the number of files that
//! differ from the records. Of these, the numbers of files are printed that have a line twice, lack one, or
//! have one of no record. If a file differs in none of these ways, its lines are in another order.
ghost use Rattle.std.specs.Prelude.{◌≡◌, IfOk};
ghost use Rattle.test_sessions.specs.Scripts.{is_both_ends_script};

use crate::faults::{
    CALM, Faults, Link, NEVER, Tally, Turn, World, add_to, draw_next, draw_number,
    make_claim_settings, make_faults,
};
use crate::producer::make_records;
use crate::{parse_number, push_line, split_at_mark};
use redis_wire::{Decoded, Limits, Reply, WireError, decode};
use std::alloc::{AllocError, Global};
use std::mem;
use worker::{
    AnswerError, EntryRef, Handler, InPlaceError, NotCommitted, Progress, RequestError, Verdict,
    Worker, WorkerError,
};
use worker_journal::{LineLog, LogFile, TornFile, entry_in, push_escaped, push_field};
use worker_producer::{FeedError, Producer, Record, Settings as FeedSettings, Stage};

/// The parameters of the runs of a line, as the tables above say.
#[derive(Clone, Copy)]
struct Plan {
    records: usize,
    /// The most records that are added at once.
    batch: usize,
    /// The most entries that are read at once.
    page: usize,
    is_resp3: bool,
    restarts: bool,
    forgets: bool,
    guesses: bool,
}

/// Plays the script if this module has one of this name. Returns whether it has.
pub fn play(alloc: Global, name: &str, lines: &str, out: &mut String) -> Result<bool, AllocError>
    ensures { IfOk result (λ played. played ≡ is_both_ends_script name.now) }
{
    match name {
        "both-ends" => played!(play_lines(alloc, lines, out)),
        _ => Ok(false),
    }
}

/// Plays each line, and prints it with its outcome.
fn play_lines(alloc: Global, lines: &str, out: &mut String) -> Result<(), AllocError> {
    for line in lines.lines() {
        out.push_str(line)?;
        out.push('\t')?;
        push_line(out, play_line(alloc, line)?.as_str())?;
    }
    Ok(())
}

/// Plays the runs of a line, and returns their outcome.
fn play_line(alloc: Global, line: &str) -> Result<String, AllocError> {
    let (name, words) = split_at_mark(line, ' ');
    if name == "calm" {
        let run = make_run(alloc, parse_plan(words), End::Producer, CALM)?;
        let outcome = if run.differ == 0 {
            "the same records, in order, each once"
        } else {
            "other records"
        };
        return String::from_str(alloc, outcome);
    }
    let mut tally = Tally::default();
    add_runs(alloc, name, words, &mut tally)?;
    format_tally(alloc, tally)
}

/// Adds the runs of a line that has faults.
fn add_runs(alloc: Global, name: &str, words: &str, tally: &mut Tally) -> Result<(), AllocError> {
    let (word, rest) = split_at_mark(words, ' ');
    let plan = parse_plan(rest);
    let end = if word == "producer" {
        End::Producer
    } else {
        End::Worker
    };
    match name {
        "cut" => add_cuts(alloc, plan, end, NEVER, tally),
        "crash" if word == "file" => add_torn_files(alloc, plan, tally),
        "crash" => add_crashes(alloc, plan, end, tally),
        "late" => add_late(alloc, plan, end, tally),
        "random" => add_schedules(alloc, plan, parse_number(word), tally),
        _ => Ok(()),
    }
}

/// Returns whether `word` is one of these words.
fn has_word(words: &str, word: &str) -> bool {
    for other in words.split(' ') {
        if other == word {
            return true;
        }
    }
    false
}

/// Returns the plan in three numbers and the words after them.
fn parse_plan(words: &str) -> Plan {
    let (records, rest) = split_at_mark(words, ' ');
    let (batch, rest) = split_at_mark(rest, ' ');
    let (page, _) = split_at_mark(rest, ' ');
    Plan {
        records: parse_number(records),
        batch: parse_number(batch),
        page: parse_number(page),
        is_resp3: has_word(words, "resp3"),
        restarts: has_word(words, "restarts"),
        forgets: has_word(words, "forgets"),
        guesses: has_word(words, "guesses"),
    }
}

/// Returns the counts of runs and faults, and of the runs whose file differs from the records, as text.
fn format_tally(alloc: Global, tally: Tally) -> Result<String, AllocError> {
    let mut text = format!(in alloc;
        "{} runs: {} cuts, {} kills, {} failed commits; {} times bytes came late, and {} times they added records",
        tally.runs, tally.cuts, tally.kills, tally.failed, tally.late_arrivals, tally.late_records
    )?;
    write!(
        text,
        "; {} differ: {} have a line twice, {} lack one, {} have a foreign one",
        tally.differ, tally.twice, tally.missing, tally.foreign
    )?;
    Ok(text)
}

/// An end of the stream.
#[derive(Clone, Copy)]
enum End {
    Producer,
    Worker,
}

// The producer's end of the stream.

/// The record k has the id `(BASE + k)-0`.
const BASE: u64 = 100;

/// A producer, its records and its connection.
#[derive(Drop)]
struct Feed {
    plan: Plan,
    producer: Producer,
    records: Vec<Record>,
    link: Link,
}

/// Returns a producer that adds at most `batch` records at once. Scripts use only sizes from 1 to 10,000.
fn make_producer(alloc: Global, batch: usize) -> Result<Producer, AllocError> {
    match FeedSettings::new(String::from_str(alloc, "k")?, BASE, batch) {
        Ok(settings) => Ok(Producer::new(settings)),
        Err(_error) => Err(AllocError),
    }
}

/// Returns a new producer, its records and its connection.
fn make_feed(world: &mut World, plan: Plan) -> Result<Feed, AllocError> {
    let records = make_records(world.alloc, 1, plan.records)?;
    let producer = make_producer(world.alloc, plan.batch)?;
    let link = Link::new(world, plan.is_resp3)?;
    Ok(Feed {
        plan,
        producer,
        records,
        link,
    })
}

impl Feed {
    /// Has the producer send its next commands and take the replies.
    fn take_turn(&mut self, world: &mut World) -> Result<Turn, AllocError> {
        self.link.pass_moment(world)?;
        if !self.link.take_step() {
            return Ok(Turn::Killed);
        }
        let request = self.make_request(world.alloc)?;
        if request.is_empty() {
            return Ok(Turn::Done);
        }
        match self.link.exchange(world, &request)? {
            Turn::Killed => Ok(Turn::Killed),
            turn => self.take_replies(world, turn),
        }
    }

    /// Gives the producer a new connection. If it restarts, another one starts over it.
    fn connect_again(&mut self, world: &mut World) -> Result<(), AllocError> {
        if self.plan.restarts {
            return self.start_again(world);
        }
        let stage = self.producer.stage();
        self.producer.disconnected();
        if self.plan.guesses {
            self.guess_reply(world, stage)?;
        }
        self.link.connect_again(world)
    }

    /// Starts another producer over a new connection.
    fn start_again(&mut self, world: &mut World) -> Result<(), AllocError> {
        self.producer = make_producer(world.alloc, self.plan.batch)?;
        self.link.connect_again(world)
    }

    /// Makes the next commands of the producer.
    fn make_request(&mut self, alloc: Global) -> Result<Vec<u8>, AllocError> {
        let mut request = Vec::new(alloc);
        match self
            .producer
            .request(alloc, &mut request, &mut self.records)
        {
            Ok(_) => Ok(request),
            Err(_) => Err(AllocError),
        }
    }

    /// Passes the replies that arrived to the producer.
    fn take_replies(&mut self, world: &mut World, turn: Turn) -> Result<Turn, AllocError> {
        for _ in 0..self.producer.coming() {
            let Ok(Some(reply)) = self.link.replies.next(world.alloc) else {
                return Ok(Turn::Cut);
            };
            self.take_reply(world, reply)?;
            if !self.link.take_step() {
                return Ok(Turn::Killed);
            }
        }
        Ok(turn)
    }

    /// Passes a reply to the producer.
    fn take_reply(&mut self, world: &mut World, reply: Reply) -> Result<(), AllocError> {
        let count = self.records.len() as u64;
        match self.producer.answered(world.alloc, reply, count) {
            Ok(()) => Ok(()),
            Err(FeedError::Memory) => Err(AllocError),
            Err(_) => {
                world.is_refused = true;
                Ok(())
            }
        }
    }

    /// Passes a made-up reply to the producer, by which its last batch was added. Its request for the last id is not
    /// sent.
    fn guess_reply(&mut self, world: &mut World, stage: Stage) -> Result<(), AllocError> {
        let known = match stage {
            Stage::Asking => return Ok(()),
            Stage::Knows(known) => known,
            Stage::Waits(batch) => batch.known.saturating_add(batch.sent),
        };
        let mut request = Vec::new(world.alloc);
        let _result = self
            .producer
            .request(world.alloc, &mut request, &mut self.records);
        let reply = make_last_id_reply(world.alloc, BASE.saturating_add(known))?;
        self.take_reply(world, reply)
    }
}

/// Returns a reply to `XINFO STREAM` with this last id.
fn make_last_id_reply(alloc: Global, last: u64) -> Result<Reply, AllocError> {
    let text = format!(in alloc; "*2\r\n+last-generated-id\r\n+{last}-0\r\n")?;
    match decode(alloc, text.as_str().as_bytes(), Limits::default()) {
        Ok(Decoded::Complete { reply, len: _ }) => Ok(reply),
        _ => Err(AllocError),
    }
}

// The worker's end of the stream: it writes each entry as a line of a file.

/// An entry that is pending for this number of milliseconds is claimed; a turn takes one.
const IDLE: usize = 6;

/// A handler that writes each entry as a line.
#[derive(Drop)]
struct Lines {
    log: LineLog<TornFile>,
    /// The line of the current entry.
    text: Vec<u8>,
}

impl Lines {
    /// Appends the line of an entry to the log.
    fn add(&mut self, entry: &EntryRef<'_>) -> Result<(), AllocError> {
        self.text.clear();
        push_escaped(&mut self.text, entry.id().as_bytes())?;
        for (name, value) in entry.fields() {
            push_field(&mut self.text, name, value)?;
        }
        if self.log.add_line(&self.text).is_err() {
            return Err(AllocError);
        }
        Ok(())
    }
}

impl Handler for Lines {
    ghost History = { Unit {0} };

    ghost with_verdict = { λ history e verdict. history };

    ghost with_commit = { λ history. history };

    ghost history = { λ handler. tt };

    fn handle(&mut self, _alloc: Global, entry: &EntryRef<'_>) -> Verdict {
        match self.add(entry) {
            Ok(()) => Verdict::Done,
            Err(_) => Verdict::Stop,
        }
    }

    fn commit(&mut self, _alloc: Global) -> Result<(), NotCommitted> {
        match self.log.commit() {
            Ok(()) => Ok(()),
            Err(_) => Err(NotCommitted),
        }
    }
}

/// A worker, its file and its connection.
#[derive(Drop)]
struct Drain {
    plan: Plan,
    worker: Worker,
    lines: Lines,
    link: Link,
    /// After the next start the commit with this number fails; 0 for none.
    failing_commit: usize,
    /// Whether a commit that fails kills the worker.
    is_killed: bool,
    /// The number of unsynced bytes that are left in its file at the next start.
    torn: usize,
    /// The most bytes that were not synced when the worker was killed.
    max_unsynced: usize,
}

/// Opens a log over a file. A file in memory fails only if memory is refused.
fn open_log(alloc: Global, file: TornFile) -> Result<LineLog<TornFile>, AllocError> {
    match LineLog::open(alloc, file) {
        Ok(log) => Ok(log),
        Err(_) => Err(AllocError),
    }
}

/// Opens a log over an empty file.
fn open_empty_log(alloc: Global) -> Result<LineLog<TornFile>, AllocError> {
    open_log(alloc, TornFile::new(alloc, Vec::new(alloc)))
}

/// Returns a new worker, its empty file and its connection.
fn make_drain(world: &mut World, plan: Plan) -> Result<Drain, AllocError> {
    let log = open_empty_log(world.alloc)?;
    let link = Link::new(world, plan.is_resp3)?;
    let settings = make_claim_settings(world.alloc, "c", plan.page, IDLE)?;
    Ok(Drain {
        plan,
        worker: Worker::new(world.alloc, settings),
        lines: Lines {
            log,
            text: Vec::new(world.alloc),
        },
        link,
        failing_commit: 0,
        is_killed: true,
        torn: 0,
        max_unsynced: 0,
    })
}

/// Returns the last `number` lines of the file.
fn read_last_lines(
    alloc: Global,
    log: &LineLog<TornFile>,
    number: usize,
) -> Result<Vec<Vec<u8>>, AllocError> {
    match log.last_lines(alloc, number) {
        Ok(lines) => Ok(lines),
        Err(_) => Err(AllocError),
    }
}

/// Returns the lines that were committed.
fn read_committed(alloc: Global, log: &LineLog<TornFile>) -> Result<Vec<u8>, AllocError> {
    let mut bytes = Vec::new(alloc);
    for line in &read_last_lines(alloc, log, usize::MAX)? {
        bytes.extend_from_slice(line)?;
        bytes.push(b'\n')?;
    }
    Ok(bytes)
}

/// Returns the id of the entry of a line.
fn read_id(alloc: Global, line: &[u8]) -> Result<String, AllocError> {
    match entry_in(alloc, line)? {
        Some(entry) => String::from_str(alloc, str::from_utf8(&entry.id).unwrap_or("")),
        None => Err(AllocError),
    }
}

/// Returns a worker that first acknowledges the last lines of its file, or none if it `forgets`. A page of lines is
/// enough, since no commit has more.
fn make_worker(alloc: Global, plan: Plan, log: &LineLog<TornFile>) -> Result<Worker, AllocError> {
    let settings = make_claim_settings(alloc, "c", plan.page, IDLE)?;
    if plan.forgets {
        return Ok(Worker::new(alloc, settings));
    }
    let mut ids = Vec::new(alloc);
    for line in &read_last_lines(alloc, log, plan.page)? {
        ids.push(read_id(alloc, line)?)?;
    }
    Ok(Worker::resumed(alloc, settings, ids))
}

/// Returns the number of bytes of a file that are not synced.
fn count_unsynced(file: &TornFile) -> Result<usize, AllocError> {
    match file.len() {
        Ok(len) => Ok(len.saturating_sub(file.on_disk().len())),
        Err(_) => Err(AllocError),
    }
}

impl Drain {
    /// Takes the file out of the log, as a crash leaves it. Of the bytes that were not synced, the first `torn` are
    /// kept.
    fn take_file(&mut self, alloc: Global, torn: usize) -> Result<TornFile, AllocError> {
        let next = open_empty_log(alloc)?;
        let mut file = mem::replace(&mut self.lines.log, next).into_file();
        self.max_unsynced = self.max_unsynced.max(count_unsynced(&file)?);
        let Ok(tail) = file.read_at(alloc, file.on_disk().len(), torn) else {
            return Err(AllocError);
        };
        if file.crash(0, &tail).is_err() {
            return Err(AllocError);
        }
        Ok(file)
    }

    /// Counts a commit that failed. The worker is killed or goes on, as `is_killed` says.
    fn count_failed_commit(&self, world: &mut World) -> Turn {
        add_to(&mut world.tally.failed, 1);
        if self.is_killed {
            Turn::Killed
        } else {
            Turn::Done
        }
    }

    /// Passes the reply to the worker, if it is complete.
    fn take_reply(&mut self, world: &mut World) -> Result<Turn, AllocError> {
        let Ok(Some(len)) = self.link.replies.next_in_place(world.alloc) else {
            return Ok(Turn::Cut);
        };
        let result = self.worker.answered_in_place(
            world.alloc,
            self.link.replies.bytes(),
            Limits::default(),
            &mut self.lines,
        );
        self.link.replies.give_out(len);
        match result {
            Ok(Progress::GoesOn) => {}
            Ok(Progress::Stopped)
            | Err(
                InPlaceError::Answer(
                    AnswerError {
                        error: WorkerError::Memory,
                        ..
                    },
                ),
            )
            | Err(InPlaceError::Unread(WireError::Memory)) => return Err(AllocError),
            Err(_) => world.is_refused = true,
        }
        if self.link.take_step() {
            Ok(Turn::Done)
        } else {
            Ok(Turn::Killed)
        }
    }

    /// Has the worker send its next command and take the replies.
    fn take_turn(&mut self, world: &mut World) -> Result<Turn, AllocError> {
        self.link.pass_moment(world)?;
        if !self.link.take_step() {
            return Ok(Turn::Killed);
        }
        let mut request = Vec::new(world.alloc);
        match self
            .worker
            .request(world.alloc, &mut request, &mut self.lines)
        {
            Ok(()) => {}
            Err(RequestError::NotCommitted) => return Ok(self.count_failed_commit(world)),
            Err(_) => return Err(AllocError),
        }
        if !self.link.take_step() {
            return Ok(Turn::Killed);
        }
        match self.link.exchange(world, &request)? {
            Turn::Killed => Ok(Turn::Killed),
            _ => self.take_reply(world),
        }
    }

    /// Gives the worker a new connection. If it restarts, another one starts over it.
    fn connect_again(&mut self, world: &mut World) -> Result<(), AllocError> {
        if self.plan.restarts {
            return self.start_again(world);
        }
        self.worker.begin_again();
        self.link.connect_again(world)
    }

    /// Starts another worker over a new connection.
    fn start_again(&mut self, world: &mut World) -> Result<(), AllocError> {
        let torn = mem::replace(&mut self.torn, 0);
        let failing = mem::replace(&mut self.failing_commit, 0);
        let mut file = self.take_file(world.alloc, torn)?;
        // (the first sync is that of opening the log)
        file.fail_sync(if failing > 0 {
            failing.saturating_add(1)
        } else {
            0
        });
        self.lines.log = open_log(world.alloc, file)?;
        self.worker = make_worker(world.alloc, self.plan, &self.lines.log)?;
        self.link.connect_again(world)
    }
}

// A run of both ends.

/// This number of rounds after the last fault is enough for every record.
const ROUNDS: usize = 60;

/// A server in memory and both ends.
#[derive(Drop)]
struct Session {
    world: World,
    feed: Feed,
    drain: Drain,
}

/// Returns a new server and both ends.
fn make_session(alloc: Global, plan: Plan) -> Result<Session, AllocError> {
    let mut world = World::new(alloc);
    let feed = make_feed(&mut world, plan)?;
    let drain = make_drain(&mut world, plan)?;
    Ok(Session { world, feed, drain })
}

/// Gives an end a turn. It restarts or reconnects after a fault; refused memory counts as a kill.
fn play_turn(session: &mut Session, end: End) -> Result<(), AllocError> {
    let world = &mut session.world;
    world.now = world.now.saturating_add(1);
    let turn = match end {
        End::Producer => session.feed.take_turn(world),
        End::Worker => session.drain.take_turn(world),
    };
    let turn = turn.unwrap_or(Turn::Killed);
    world.count_fault(turn);
    match (turn, end) {
        (Turn::Done, _) => Ok(()),
        (Turn::Cut, End::Producer) => session.feed.connect_again(world),
        (Turn::Cut, End::Worker) => session.drain.connect_again(world),
        (Turn::Killed, End::Producer) => session.feed.start_again(world),
        (Turn::Killed, End::Worker) => session.drain.start_again(world),
    }
}

/// Returns whether all records are in the stream and in the file, and nothing is pending or late.
fn is_done(session: &mut Session) -> Result<bool, AllocError> {
    let is_late = session.feed.link.late.is_some() || session.drain.link.late.is_some();
    let count = session.feed.records.len();
    if is_late || session.feed.producer.stage() != Stage::Knows(count as u64) {
        return Ok(false);
    }
    let bytes = read_committed(session.world.alloc, &session.drain.lines.log)?;
    if compare_file(session.world.alloc, &bytes, count)?.missing > 0 {
        return Ok(false);
    }
    session.world.is_nothing_pending()
}

/// Gives both ends turns until all is done, or `ROUNDS` times. Returns the tally of the run. It is an error if an
/// end refused a reply, which only refused memory causes.
fn settle_session(session: &mut Session) -> Result<Tally, AllocError> {
    for _ in 0..ROUNDS {
        if is_done(session)? {
            break;
        }
        play_turn(session, End::Producer)?;
        play_turn(session, End::Worker)?;
    }
    if session.world.is_refused {
        return Err(AllocError);
    }
    let file = session.drain.take_file(session.world.alloc, 0)?;
    let mut tally = compare_file(
        session.world.alloc,
        file.on_disk(),
        session.feed.records.len(),
    )?;
    tally.add(session.world.tally);
    Ok(tally)
}

/// Returns how often a text has a line.
fn count_line(text: &str, line: &str) -> usize {
    let mut times = 0usize;
    for other in text.lines() {
        if other == line {
            times = times.saturating_add(1);
        }
    }
    times
}

/// Compares the lines of a file with those of the first `records` records. Returns the tally of a run with this file.
fn compare_file(alloc: Global, bytes: &[u8], records: usize) -> Result<Tally, AllocError> {
    let text = str::from_utf8(bytes).unwrap_or("");
    let mut wanted = String::new(alloc);
    let mut known = 0usize;
    let mut is_twice = false;
    let mut is_missing = false;
    for index in 0..records {
        let number = index.saturating_add(1);
        let id = BASE.saturating_add(number as u64);
        let line = format!(in alloc; "{id}-0\tn\t{number}")?;
        let times = count_line(text, line.as_str());
        known = known.saturating_add(times);
        is_twice = is_twice || times > 1;
        is_missing = is_missing || times == 0;
        push_line(&mut wanted, line.as_str())?;
    }
    let mut tally = Tally::default();
    tally.runs = 1;
    tally.differ = usize::from(text != wanted.as_str());
    tally.twice = usize::from(is_twice);
    tally.missing = usize::from(is_missing);
    tally.foreign = usize::from(known < text.lines().count());
    Ok(tally)
}

// The runs of a line: each has its fault at another point.

/// No end has this number of steps, commits or bytes.
const LARGEST: usize = 10_000;

/// Returns the tally of the run in which an end has these faults.
fn make_run(alloc: Global, plan: Plan, end: End, faults: Faults) -> Result<Tally, AllocError> {
    let mut session = make_session(alloc, plan)?;
    match end {
        End::Producer => session.feed.link.faults = faults,
        End::Worker => session.drain.link.faults = faults,
    }
    settle_session(&mut session)
}

/// Counts the bytes that an end sends and receives in a run with no fault.
fn count_bytes(alloc: Global, plan: Plan, end: End) -> Result<usize, AllocError> {
    let mut session = make_session(alloc, plan)?;
    count_settled_bytes(&mut session, end)
}

/// Settles a session with no fault, and counts the bytes that an end sends and receives.
fn count_settled_bytes(session: &mut Session, end: End) -> Result<usize, AllocError> {
    let _tally = settle_session(session)?;
    let remaining = match end {
        End::Producer => session.feed.link.faults.bytes,
        End::Worker => session.drain.link.faults.bytes,
    };
    Ok(NEVER - remaining)
}

/// Adds a run for each byte: the connection of the end breaks after it, and the unsent bytes arrive
/// after this delay.
fn add_cuts(
    alloc: Global,
    plan: Plan,
    end: End,
    delay: usize,
    tally: &mut Tally,
) -> Result<(), AllocError> {
    for bytes in 0..count_bytes(alloc, plan, end)? {
        let faults = Faults {
            bytes,
            steps: NEVER,
            delay,
        };
        tally.add(make_run(alloc, plan, end, faults)?);
    }
    Ok(())
}

/// Adds the runs of `cut` for each delay from 0 to 5 moments after the next connection starts.
fn add_late(alloc: Global, plan: Plan, end: End, tally: &mut Tally) -> Result<(), AllocError> {
    for delay in 0..6usize {
        add_cuts(alloc, plan, end, delay, tally)?;
    }
    Ok(())
}

/// Adds the runs in which the end is killed at each of its steps in turn.
fn add_crashes(alloc: Global, plan: Plan, end: End, tally: &mut Tally) -> Result<(), AllocError> {
    for steps in 0..LARGEST {
        let run = make_run(alloc, plan, end, make_faults(NEVER, steps))?;
        if run.kills == 0 {
            break;
        }
        tally.add(run);
    }
    Ok(())
}

/// Restarts the worker. Its commit with this number will fail, and leave the first `torn` bytes that were not
/// synced.
fn set_torn_commit(session: &mut Session, commit: usize, torn: usize) -> Result<(), AllocError> {
    session.drain.failing_commit = commit;
    session.drain.start_again(&mut session.world)?;
    session.drain.torn = torn;
    Ok(())
}

/// Returns the tally of the run in which a crash within this commit leaves the first `torn` bytes that were not synced.
/// Returns also whether no crash leaves more.
fn make_torn_run(
    alloc: Global,
    plan: Plan,
    commit: usize,
    torn: usize,
) -> Result<(Tally, bool), AllocError> {
    let mut session = make_session(alloc, plan)?;
    play_torn(&mut session, commit, torn)
}

/// Plays the run of `make_torn_run`.
fn play_torn(
    session: &mut Session,
    commit: usize,
    torn: usize,
) -> Result<(Tally, bool), AllocError> {
    set_torn_commit(session, commit, torn)?;
    let run = settle_session(session)?;
    Ok((run, torn >= session.drain.max_unsynced))
}

/// Adds a run for each number of bytes that a crash within this commit may leave. Returns `false` if there
/// is no such commit.
fn add_torn(
    alloc: Global,
    plan: Plan,
    commit: usize,
    tally: &mut Tally,
) -> Result<bool, AllocError> {
    for torn in 0..LARGEST {
        let (run, is_most) = make_torn_run(alloc, plan, commit, torn)?;
        if run.failed == 0 {
            return Ok(false);
        }
        tally.add(run);
        if is_most {
            break;
        }
    }
    Ok(true)
}

/// Adds the runs in which the worker is killed within each commit, and its file is left with each length.
fn add_torn_files(alloc: Global, plan: Plan, tally: &mut Tally) -> Result<(), AllocError> {
    for commit in 1..LARGEST {
        if !add_torn(alloc, plan, commit, tally)? {
            break;
        }
    }
    Ok(())
}

// Random schedules.

/// The number of moves of a schedule. After them no new fault is set.
const MOVES: usize = 24;

/// Returns the plan of the schedule with this seed.
fn draw_plan(plan: Plan, seed: u64) -> Plan {
    let state = draw_next(draw_next(seed));
    Plan {
        records: draw_number(state, 33, 9).saturating_add(1),
        batch: draw_number(state, 40, 4).saturating_add(1),
        page: draw_number(state, 50, 4).saturating_add(1),
        is_resp3: seed % 2 == 1,
        ..plan
    }
}

/// Returns the faults that a state selects; half of all states select none.
fn draw_faults(state: u64) -> Faults {
    let delay = draw_number(state, 20, 9);
    let mut faults = CALM;
    if delay < 6 {
        faults.delay = delay;
    }
    match draw_number(state, 33, 8) {
        0 | 1 | 2 => faults.bytes = draw_number(state, 45, 400),
        3 => faults.steps = draw_number(state, 45, 8),
        _ => {}
    }
    faults
}

/// For half of all states, makes a commit of the worker fail after its next start.
fn set_failing_commit(drain: &mut Drain, state: u64) {
    if draw_number(state, 36, 2) == 0 {
        drain.failing_commit = draw_number(state, 40, 3).saturating_add(1);
        drain.is_killed = draw_number(state, 44, 4) > 0;
        drain.torn = draw_number(state, 50, 60);
    }
}

/// Makes the move that a state selects: an end that has no faults gets some, and has a turn.
fn make_move(session: &mut Session, state: u64) -> Result<(), AllocError> {
    let restarts = draw_number(state, 38, 2) == 0;
    if draw_number(state, 60, 2) == 0 {
        session.feed.plan.restarts = restarts;
        if session.feed.link.is_calm() {
            session.feed.link.faults = draw_faults(state);
        }
        return play_turn(session, End::Producer);
    }
    session.drain.plan.restarts = restarts;
    if session.drain.link.is_calm() {
        session.drain.link.faults = draw_faults(state);
        session.drain.link.faults.delay = NEVER;
        set_failing_commit(&mut session.drain, state);
    }
    play_turn(session, End::Worker)
}

/// Makes the moves of the schedule with this seed, and returns the tally of the run.
fn play_schedule(session: &mut Session, seed: u64) -> Result<Tally, AllocError> {
    let mut state = draw_next(seed);
    for _ in 0..MOVES {
        state = draw_next(state);
        make_move(session, state)?;
    }
    settle_session(session)
}

/// Returns the tally of the run of the schedule with this seed.
fn make_scheduled_run(alloc: Global, plan: Plan, seed: u64) -> Result<Tally, AllocError> {
    let mut session = make_session(alloc, draw_plan(plan, seed))?;
    play_schedule(&mut session, seed)
}

/// Adds the runs of as many schedules as the plan has records, from this seed on.
fn add_schedules(
    alloc: Global,
    plan: Plan,
    seed: usize,
    tally: &mut Tally,
) -> Result<(), AllocError> {
    for number in 0..plan.records {
        let seed = seed.saturating_add(number) as u64;
        tally.add(make_scheduled_run(alloc, plan, seed)?);
    }
    Ok(())
}
