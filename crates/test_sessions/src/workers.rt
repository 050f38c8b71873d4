//! Scripts of a worker: the commands that it sends, and the entries that its handler gets.
//!
//! The words of the first line are settings: `count 2`, `block 0`, `idle 4`, `every 2`, and `group first` or
//! `group now`. With `again one` entries are read again one at a time. A line is one of these:
//!
//! | Line | Its effect |
//! |---|---|
//! | bytes of a reply | the worker makes its next request, and reads these bytes |
//! | `ask` | it makes its next request |
//! | `tell` and bytes | it reads these bytes |
//! | `fronts` and bytes | it reads each proper prefix of them |
//! | `says done leave stop` | the verdicts of the handler on the next entries; `done` after these |
//! | `refuses yes` | commits fail, until `refuses no` |
//! | `resumes 1-1 2-1` | another worker replaces it, which first acknowledges these, with no settings |
//!
//! All is done twice: by a worker that reads replies by value, and by one that reads them in
//! place. If the results differ, both are printed.

ghost use Rattle.std.specs.Prelude.{◌≡◌, [], IfErr, IfOk, false, string_bytes};
ghost use Rattle.test_sessions.specs.Scripts.{is_worker_script};

pub mod connection;
pub mod letters;
pub mod streams;

use crate::{
    format_commands, make_settings, parse_bytes, parse_number, push_bytes, push_exchange,
    push_line, split_at_mark,
};
use redis_wire::{Decoded, Limits, WireError, decode};
use std::alloc::{AllocError, Global};
use worker::{
    AnswerError, EntryRef, Gathered, Handler, InPlaceError, MakeGroup, NotCommitted, Progress,
    RequestError, Settings, Verdict, Worker, WorkerError,
};

/// The limits of the replies.
const LIMITS: Limits = Limits {
    depth: 8,
    length: 1000,
    line: 100,
    values: 1000,
    bytes: 1000,
};

/// A worker, its handler, and whether it takes replies in place.
#[derive(Drop)]
struct Side {
    worker: Worker,
    handler: ScriptHandler,
    in_place: bool,
}

impl Side {
    /// Returns a new worker with the settings in these words.
    fn new(alloc: Global, words: &str, in_place: bool) -> Result<Side, AllocError> {
        let settings = parse_settings(alloc, words)?;
        Ok(Side {
            worker: Worker::new(alloc, settings),
            handler: ScriptHandler::new(alloc),
            in_place,
        })
    }
}

/// Returns the settings in these words, each a name and its value.
fn parse_settings(alloc: Global, words: &str) -> Result<Settings, AllocError> {
    let mut settings = make_settings(alloc, "k", "c")?;
    let mut rest = words;
    for _ in 0..words.len() {
        let (name, after) = split_at_mark(rest, ' ');
        let (word, after) = split_at_mark(after, ' ');
        apply_setting(&mut settings, name, word);
        rest = after;
    }
    Ok(settings)
}

/// Sets the setting of this name. Another name is ignored.
fn apply_setting(settings: &mut Settings, name: &str, word: &str) {
    match name {
        "count" => settings.set_count(parse_number(word)).unwrap_or(()),
        "block" => settings.set_block(parse_number(word)),
        "idle" => settings.set_min_idle(parse_number(word)),
        "every" => settings.set_every(parse_number(word)),
        "again" => settings.set_one_at_a_time(word == "one"),
        "group" if word == "first" => settings.set_make_group(MakeGroup::FromTheFirst),
        "group" => settings.set_make_group(MakeGroup::FromNow),
        _ => {}
    }
}

/// Makes the next request of a worker, and returns its commands as text.
fn make_request(
    alloc: Global,
    worker: &mut Worker,
    handler: &mut ScriptHandler,
) -> Result<String, AllocError> {
    let mut bytes = Vec::new(alloc);
    let outcome = worker.request(alloc, &mut bytes, handler);
    handler.check_memory()?;
    match outcome {
        Ok(()) => format_commands(alloc, &bytes),
        Err(RequestError::Memory) => Err(AllocError),
        Err(error) => {
            let len = bytes.len();
            format!(in alloc; "{error:?}: {error}; {len} bytes")
        }
    }
}

/// Passes the reply at the start of these bytes to a worker, and returns the result.
fn take_reply(
    alloc: Global,
    worker: &mut Worker,
    handler: &mut ScriptHandler,
    in_place: bool,
    bytes: &[u8],
) -> Result<Progress, InPlaceError> {
    if in_place {
        return worker.answered_in_place(alloc, bytes, LIMITS, handler);
    }
    match decode(alloc, bytes, LIMITS) {
        Ok(Decoded::Complete { reply, len: _ }) => Ok(worker.answered(alloc, reply, handler)?),
        Ok(Decoded::Incomplete) => Err(InPlaceError::Incomplete),
        Err(error) => Err(InPlaceError::Unread(error)),
    }
}

/// Returns the name and the text of an error of a worker.
fn format_error(alloc: Global, answer: &AnswerError) -> Result<String, AllocError> {
    match &answer.error {
        WorkerError::Memory => Err(AllocError),
        WorkerError::Server(_) => format!(in alloc; "Server: {answer}"),
        WorkerError::GroupIsGone(_) => format!(in alloc; "GroupIsGone: {answer}"),
        WorkerError::NilFields(_) => format!(in alloc; "NilFields: {answer}"),
        error => format!(in alloc; "{error:?}: {answer}"),
    }
}

/// Returns the result of a reply as text.
fn format_progress(
    alloc: Global,
    outcome: &Result<Progress, InPlaceError>,
) -> Result<String, AllocError> {
    match outcome {
        Ok(progress) => format!(in alloc; "{progress:?}"),
        Err(InPlaceError::Unread(WireError::Memory)) => Err(AllocError),
        Err(InPlaceError::Answer(error)) => format_error(alloc, error),
        Err(error) => format!(in alloc; "{error:?}: {error}"),
    }
}

/// Passes the reply in these bytes to a worker. Returns the result, the entries that the handler was given, and the
/// last request of the worker.
fn read_reply(
    alloc: Global,
    worker: &mut Worker,
    handler: &mut ScriptHandler,
    in_place: bool,
    bytes: &[u8],
) -> Result<String, AllocError> {
    let result = take_reply(alloc, worker, handler, in_place, bytes);
    let mut text = format_progress(alloc, &result)?;
    text.push_str(handler.take_report(alloc)?.as_str())?;
    write!(text, "; asked {:?}", worker.asked())?;
    Ok(text)
}

/// Passes the reply in these bytes to the worker of a side.
fn read_side_reply(alloc: Global, side: &mut Side, bytes: &[u8]) -> Result<String, AllocError> {
    read_reply(
        alloc,
        &mut side.worker,
        &mut side.handler,
        side.in_place,
        bytes,
    )
}

/// Passes each proper prefix of a reply to the worker of a side. Returns the results, and the count of prefixes.
fn read_prefixes(alloc: Global, side: &mut Side, text: &str) -> Result<String, AllocError> {
    let bytes = parse_bytes(alloc, text)?;
    let mut spans = Spans::new(alloc);
    add_prefixes(alloc, side, &bytes, &mut spans)?;
    spans.finish()
}

/// Passes each proper prefix of these bytes to the worker of a side, and adds the results.
fn add_prefixes(
    alloc: Global,
    side: &mut Side,
    bytes: &[u8],
    spans: &mut Spans,
) -> Result<(), AllocError> {
    for end in 0..bytes.len() {
        let text = read_side_reply(alloc, side, &bytes[..end])?;
        spans.add(text)?;
    }
    Ok(())
}

/// The texts of the numbers from 0 on; equal texts in a row are printed once, with their first number.
#[derive(Drop)]
struct Spans {
    text: String,
    last: String,
    count: usize,
}

impl Spans {
    /// Returns the texts of no numbers.
    fn new(alloc: Global) -> Spans {
        Spans {
            text: String::new(alloc),
            last: String::new(alloc),
            count: 0,
        }
    }

    /// Adds the next number, and its text.
    fn add(&mut self, text: String) -> Result<(), AllocError> {
        if self.last.as_str() != text.as_str() {
            write!(self.text, "{}: {}\n", self.count, text.as_str())?;
            self.last = text;
        }
        self.count = self.count.saturating_add(1);
        Ok(())
    }

    /// Returns the texts, and the count of numbers.
    fn finish(self) -> Result<String, AllocError> {
        let mut text = self.text;
        write!(text, "{} in all", self.count)?;
        Ok(text)
    }
}

/// Replaces the worker of a side with one that acknowledges these entries first.
fn resume_worker(alloc: Global, side: &mut Side, ids: &str) -> Result<String, AllocError> {
    let mut committed = Vec::new(alloc);
    for id in ids.split(' ') {
        committed.push(String::from_str(alloc, id)?)?;
    }
    side.worker = Worker::resumed(alloc, parse_settings(alloc, "")?, committed);
    Ok(String::new(alloc))
}

/// Executes a step, and returns its result.
fn do_step(alloc: Global, side: &mut Side, verb: &str, rest: &str) -> Result<String, AllocError> {
    match verb {
        "ask" => make_request(alloc, &mut side.worker, &mut side.handler),
        "tell" => read_side_reply(alloc, side, parse_bytes(alloc, rest)?.as_slice()),
        "fronts" => read_prefixes(alloc, side, rest),
        "resumes" => resume_worker(alloc, side, rest),
        "says" => side.handler.set_verdicts(alloc, rest),
        "refuses" => {
            side.handler.fails_commits = rest == "yes";
            Ok(String::new(alloc))
        }
        _ => String::from_str(alloc, "no line of a worker"),
    }
}

/// The worker that takes replies by value, and the one that takes them in place.
#[derive(Drop)]
struct Both {
    by_value: Side,
    in_place: Side,
}

/// Has both workers execute a step, and prints the result; both results if they differ.
fn do_both(alloc: Global, both: &mut Both, line: &str, out: &mut String) -> Result<(), AllocError> {
    let (verb, rest) = split_at_mark(line, ' ');
    let one = do_step(alloc, &mut both.by_value, verb, rest)?;
    let other = do_step(alloc, &mut both.in_place, verb, rest)?;
    if one.as_str() == other.as_str() {
        return push_exchange(out, line, one.as_str());
    }
    push_exchange(out, line, "by value:")?;
    push_line(out, one.as_str())?;
    push_line(out, "in place:")?;
    push_line(out, other.as_str())
}

/// Returns whether a line is the bytes of a reply, which never begin with a lowercase letter.
fn is_reply(line: &str) -> bool {
    match line.as_bytes() {
        [first, ..] => !first.is_ascii_lowercase(),
        [] => false,
    }
}

/// Plays the script if this module has one of this name. Returns whether it has.
pub fn play(
    alloc: Global,
    name: &str,
    words: &str,
    lines: &str,
    out: &mut String,
) -> Result<bool, AllocError>
    ensures { IfOk result (λ played. played ≡ is_worker_script name.now) }
{
    match name {
        "worker" => played!(play_both(alloc, words, lines, out)),
        _ => Ok(false),
    }
}

/// Plays the lines of a script by value and in place.
fn play_both(alloc: Global, words: &str, lines: &str, out: &mut String) -> Result<(), AllocError> {
    let by_value = Side::new(alloc, words, false)?;
    let in_place = Side::new(alloc, words, true)?;
    let mut both = Both { by_value, in_place };
    play_lines(alloc, &mut both, lines, out)
}

/// Has both workers play the lines.
fn play_lines(
    alloc: Global,
    both: &mut Both,
    lines: &str,
    out: &mut String,
) -> Result<(), AllocError> {
    for line in lines.lines() {
        play_line(alloc, both, line, out)?;
    }
    Ok(())
}

/// Has both workers play a line. Before the bytes of a reply they make their next request.
fn play_line(
    alloc: Global,
    both: &mut Both,
    line: &str,
    out: &mut String,
) -> Result<(), AllocError> {
    if !is_reply(line) {
        return do_both(alloc, both, line, out);
    }
    do_both(alloc, both, "ask", out)?;
    let step = format!(in alloc; "tell {line}")?;
    do_both(alloc, both, step.as_str(), out)
}

// A handler whose verdicts are those of the script.

/// Keeps each entry that is done as `Gathered` does, and records the entries that it was given.
#[derive(Drop)]
pub struct ScriptHandler {
    /// The entries that are done, and those of them that are committed.
    pub kept: Gathered,
    /// The verdicts on the next entries, the last one first. After these it is `Stop` on an entry with a field
    /// `poison`, and `Done` on another.
    verdicts: Vec<Verdict>,
    /// Whether commits fail.
    fails_commits: bool,
    /// How many times it committed.
    commits: usize,
    /// The entries that it was given since the last report, and its verdicts.
    seen: String,
    /// Whether memory was refused to it.
    ran_out: bool,
}

impl ScriptHandler {
    /// Returns a handler that was given no verdicts and no entries.
    pub fn new(alloc: Global) -> ScriptHandler
        ensures verdicts { result.verdicts.items ≡ [] }
        ensures refuses { result.fails_commits ≡ false }
        ensures commits { result.commits ≡ 0 }
        ensures seen { string_bytes result.seen ≡ [] }
        ensures room { result.ran_out ≡ false }
    {
        ScriptHandler {
            kept: Gathered::new(alloc),
            verdicts: Vec::new(alloc),
            fails_commits: false,
            commits: 0,
            seen: String::new(alloc),
            ran_out: false,
        }
    }

    /// Sets the verdicts on the next entries. Returns no text, as the result of the step.
    fn set_verdicts(&mut self, alloc: Global, words: &str) -> Result<String, AllocError> {
        for word in words.split(' ') {
            self.verdicts.insert(0, parse_verdict(word))?;
        }
        Ok(String::new(alloc))
    }

    /// Returns an error if memory was refused to the handler.
    fn check_memory(&self) -> Result<(), AllocError> {
        if self.ran_out {
            Err(AllocError)
        } else {
            Ok(())
        }
    }

    /// Returns the entries that it was given since the last call, and the counts of those that it kept.
    pub fn take_report(&mut self, alloc: Global) -> Result<String, AllocError>
        ensures ok { IfOk result (λ _. string_bytes self.new.seen ≡ []) }
        ensures err { IfErr result (λ _. string_bytes self.new.seen ≡ string_bytes self.old.seen) }
        ensures commits { self.new.commits ≡ self.old.commits }
    {
        self.check_memory()?;
        let text = format!(in alloc;
            "{}; loose {}, committed {} in {}",
            self.seen.as_str(),
            self.kept.loose.len(),
            self.kept.committed.len(),
            self.commits
        )?;
        self.seen.clear();
        Ok(text)
    }

    /// Records an entry, and keeps it if it is done.
    fn record_entry(&mut self, alloc: Global, entry: &EntryRef<'_>) -> Result<Verdict, AllocError> {
        push_entry(&mut self.seen, entry)?;
        let verdict = match self.verdicts.pop() {
            Some(verdict) => verdict,
            None if entry.get(b"poison").is_some() => Verdict::Stop,
            None => Verdict::Done,
        };
        self.seen.push_str(name_verdict(verdict))?;
        if verdict == Verdict::Done && self.kept.handle(alloc, entry) != Verdict::Done {
            return Err(AllocError);
        }
        Ok(verdict)
    }
}

/// Returns the verdict of this name; `Done` for another name.
fn parse_verdict(word: &str) -> Verdict {
    match word {
        "leave" => Verdict::LeavePending,
        "stop" => Verdict::Stop,
        _ => Verdict::Done,
    }
}

/// Returns the name of a verdict, after a blank.
fn name_verdict(verdict: Verdict) -> &'static str {
    match verdict {
        Verdict::Done => " done",
        Verdict::LeavePending => " leave",
        Verdict::Stop => " stop",
    }
}

/// Appends a blank, and a field as `name=value`.
fn push_field(out: &mut String, name: &[u8], value: &[u8]) -> Result<(), AllocError> {
    out.push(' ')?;
    push_bytes(out, name)?;
    out.push('=')?;
    push_bytes(out, value)
}

/// Appends the id and the fields of an entry, in order and with repeated ones.
fn push_entry(out: &mut String, entry: &EntryRef<'_>) -> Result<(), AllocError> {
    out.push_str("; ")?;
    out.push_str(entry.id())?;
    for (name, value) in entry.fields() {
        push_field(out, name, value)?;
    }
    Ok(())
}

impl Handler for ScriptHandler {
    ghost History = { Unit {0} };

    ghost with_verdict = { λ history e verdict. history };

    ghost with_commit = { λ history. history };

    ghost history = { λ handler. tt };

    fn handle(&mut self, alloc: Global, entry: &EntryRef<'_>) -> Verdict {
        match self.record_entry(alloc, entry) {
            Ok(verdict) => verdict,
            Err(AllocError) => {
                self.ran_out = true;
                Verdict::Stop
            }
        }
    }

    fn commit(&mut self, alloc: Global) -> Result<(), NotCommitted> {
        if self.fails_commits {
            return Err(NotCommitted);
        }
        if self.kept.commit(alloc).is_err() {
            self.ran_out = true;
            return Err(NotCommitted);
        }
        self.commits = self.commits.saturating_add(1);
        Ok(())
    }
}
