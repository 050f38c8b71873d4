//! Connections over readers and writers in memory, and a worker over one.
//!
//! The words of the first line are sizes. All lines are played once for each size, with reads of at most that
//! number of bytes. A line is one of these, or a step of a worker:
//!
//! | Line | Its meaning |
//! |---|---|
//! | `comes` and bytes | the bytes that arrive |
//! | `reads 3 interrupted 0` | the result of each read: at most 3 bytes, or an error; then no byte arrives |
//! | `writes 5 broken` | the result of each write |
//! | `send GET k` | a command is sent |
//! | `text GET k`, `number GET k` | a command is sent, and its reply is read as a text, or as a number |
//! | `receive`, `place` | a reply is received by value, or in place |
//! | `any`, `passed` | a reply of any kind is received; the count of messages that were skipped |
//! | `show 5`, `give 5` | the first 5 received bytes are printed, or removed |
//! | `run 7` | the worker makes 7 rounds |
//! | `pipeline` | it makes a round, or two with one write |
ghost use Rattle.std.specs.Prelude.{◌≡◌, IfOk};
ghost use Rattle.test_sessions.specs.Scripts.{is_connection_script};

use crate::workers::{LIMITS, Side, Spans, do_step, format_error, make_request};
use crate::{
    escape_bytes, format_commands, parse_bytes, parse_number, push_exchange, push_line,
    split_at_mark,
};
use redis_connection::{AskError, Connection, ConnectionError};
use redis_resp::FromRedisValue;
use redis_wire::{Protocol, Reply, append_answer};
use std::alloc::{AllocError, Global};
use std::fmt::Display;
use std::io;
use std::io::{ErrorKind, Read, Write};
use worker::{Asked, Pipelined, Progress, RequestError, RunError};

/// The effect of a call of a reader or writer.
#[derive(Clone, Copy)]
enum Turn {
    /// It reads or writes at most this number of bytes.
    Moves(usize),
    Fails(ErrorKind),
}

/// A reader or a writer in memory. Each call takes the next of its turns.
#[derive(Drop)]
struct End {
    /// The bytes that arrive, or those that were written.
    bytes: Vec<u8>,
    /// How many of them were read.
    position: usize,
    /// The turns of the next calls, the last one first.
    turns: Vec<Turn>,
    /// The most bytes that a call without a turn moves.
    most: usize,
}

impl End {
    /// Returns an end without bytes, whose calls move at most `most` bytes.
    fn new(alloc: Global, most: usize) -> End {
        End {
            bytes: Vec::new(alloc),
            position: 0,
            turns: Vec::new(alloc),
            most,
        }
    }

    /// Takes the turn of the next call. Returns the most bytes that it moves, or its error.
    fn take_turn(&mut self) -> io::Result<usize> {
        match self.turns.pop() {
            Some(Turn::Moves(most)) => Ok(most),
            Some(Turn::Fails(kind)) => Err(io::Error::from(kind)),
            None => Ok(self.most),
        }
    }

    /// Sets the turns of the next calls. Calls after them move nothing.
    fn set_turns(&mut self, words: &str) -> Result<(), AllocError> {
        self.most = 0;
        for word in words.split(' ') {
            self.turns.insert(0, parse_turn(word))?;
        }
        Ok(())
    }

    /// Adds these bytes to those that arrive.
    fn add_bytes(&mut self, alloc: Global, text: &str) -> Result<(), AllocError> {
        let mut bytes = parse_bytes(alloc, text)?;
        self.bytes.append(&mut bytes)
    }
}

/// Returns the turn of this name, or of this number of bytes.
fn parse_turn(word: &str) -> Turn {
    match word {
        "interrupted" => Turn::Fails(ErrorKind::Interrupted),
        "reset" => Turn::Fails(ErrorKind::ConnectionReset),
        "broken" => Turn::Fails(ErrorKind::BrokenPipe),
        _ => Turn::Moves(parse_number(word)),
    }
}

impl Read for End {
    fn read(&mut self, buf: &mut [u8]) -> io::Result<usize> {
        let most = self.take_turn()?;
        let mut len = 0usize;
        let from = self.position.min(self.bytes.len());
        for (place, byte) in buf.iter_mut().take(most).zip(self.bytes[from..].iter()) {
            *place = *byte;
            len = len.saturating_add(1);
        }
        self.position = self.position.saturating_add(len);
        Ok(len.min(buf.len()))
    }
}

impl Write for End {
    fn write(&mut self, buf: &[u8]) -> io::Result<usize> {
        let len = self.take_turn()?.min(buf.len());
        self.bytes.extend_from_slice(&buf[..len])?;
        Ok(len)
    }

    fn flush(&mut self) -> io::Result<()> {
        Ok(())
    }
}

/// Applies a line to the reader or the writer. A line about neither is skipped.
fn set_up_end(
    alloc: Global,
    line: &str,
    reader: &mut End,
    writer: &mut End,
) -> Result<(), AllocError> {
    match split_at_mark(line, ' ') {
        ("comes", rest) => reader.add_bytes(alloc, rest),
        ("reads", rest) => reader.set_turns(rest),
        ("writes", rest) => writer.set_turns(rest),
        _ => Ok(()),
    }
}

/// Applies the lines about the reader and the writer to them.
fn set_up_ends(
    alloc: Global,
    lines: &str,
    reader: &mut End,
    writer: &mut End,
) -> Result<(), AllocError> {
    for line in lines.lines() {
        set_up_end(alloc, line, reader, writer)?;
    }
    Ok(())
}

/// Returns the name and the text of an error of a connection.
fn format_connection_error(alloc: Global, error: &ConnectionError) -> Result<String, AllocError> {
    match error {
        ConnectionError::Memory => Err(AllocError),
        error => format!(in alloc; "{error:?}: {error}"),
    }
}

/// Returns the name and the text of the error of a command.
fn format_ask_error(alloc: Global, error: &AskError) -> Result<String, AllocError> {
    match error {
        AskError::Connection(error) => format_connection_error(alloc, error),
        AskError::Server(_) => format!(in alloc; "Server: {error}"),
        error => format!(in alloc; "{error:?}: {error}"),
    }
}

/// Sends a command.
fn send_command<R: Read + Drop, W: Write + Drop>(
    alloc: Global,
    link: &mut Connection<R, W>,
    rest: &str,
) -> Result<String, AllocError> {
    match link.send(alloc, &split_at_mark(rest, ' ')) {
        Ok(()) => String::from_str(alloc, "Ok"),
        Err(error) => format_connection_error(alloc, &error),
    }
}

/// Sends a command, and reads its reply as a `T`.
fn ask_value<T: FromRedisValue + Display, R: Read + Drop, W: Write + Drop>(
    alloc: Global,
    link: &mut Connection<R, W>,
    rest: &str,
) -> Result<String, AllocError> {
    match link.ask_as::<T, (&str, &str)>(alloc, &split_at_mark(rest, ' ')) {
        Ok(value) => format!(in alloc; "{value}"),
        Err(error) => format_ask_error(alloc, &error),
    }
}

/// Returns a reply as the bytes of RESP3, in the notation of scripts.
fn format_reply(alloc: Global, reply: &Reply) -> Result<String, AllocError> {
    let mut bytes = Vec::new(alloc);
    match append_answer(alloc, &mut bytes, Protocol::Resp3, reply) {
        Ok(()) => escape_bytes(alloc, &bytes),
        Err(_error) => Err(AllocError),
    }
}

/// Returns the received reply, or the error, as text.
fn format_received(
    alloc: Global,
    received: &Result<Reply, ConnectionError>,
) -> Result<String, AllocError> {
    match received {
        Ok(reply) => format_reply(alloc, reply),
        Err(error) => format_connection_error(alloc, error),
    }
}

/// Receives a reply in place.
fn receive_in_place<R: Read + Drop, W: Write + Drop>(
    alloc: Global,
    link: &mut Connection<R, W>,
) -> Result<String, AllocError> {
    match link.receive_in_place(alloc) {
        Ok(len) => {
            let reply = escape_bytes(alloc, link.received(len))?;
            format!(in alloc; "{len} bytes: {}", reply.as_str())
        }
        Err(error) => format_connection_error(alloc, &error),
    }
}

/// Returns the result of rounds as text.
fn format_run(alloc: Global, outcome: &Result<Progress, RunError>) -> Result<String, AllocError> {
    match outcome {
        Ok(progress) => format!(in alloc; "{progress:?}"),
        Err(RunError::Request(RequestError::Memory)) => Err(AllocError),
        Err(RunError::Request(error)) => format!(in alloc; "Request: {error:?}: {error}"),
        Err(RunError::Send(error)) => format_step_error(alloc, "Send: ", error),
        Err(RunError::Receive { asked, error }) => format_receive_error(alloc, *asked, error),
        Err(RunError::Answer(error)) => format_error(alloc, error),
    }
}

/// Returns an error of a connection as text, after the step that failed.
fn format_step_error(
    alloc: Global,
    step: &str,
    error: &ConnectionError,
) -> Result<String, AllocError> {
    let text = format_connection_error(alloc, error)?;
    format!(in alloc; "{step}{}", text.as_str())
}

/// Returns an error of a connection as text, after the request whose reply did not arrive.
fn format_receive_error(
    alloc: Global,
    asked: Asked,
    error: &ConnectionError,
) -> Result<String, AllocError> {
    let text = format_connection_error(alloc, error)?;
    format!(in alloc; "Receive: {asked}: {}", text.as_str())
}

/// Has the worker make this number of rounds, and returns their result.
fn run_rounds<R: Read + Drop, W: Write + Drop>(
    alloc: Global,
    link: &mut Connection<R, W>,
    side: &mut Side,
    rounds: u64,
) -> Result<String, AllocError> {
    let result = side.worker.run(alloc, link, &mut side.handler, rounds);
    let mut text = format_run(alloc, &result)?;
    text.push_str(side.handler.take_report(alloc)?.as_str())?;
    Ok(text)
}

/// Has the worker make a round, or two with one write, and returns their result.
fn run_pipelined<R: Read + Drop, W: Write + Drop>(
    alloc: Global,
    link: &mut Connection<R, W>,
    side: &mut Side,
) -> Result<String, AllocError> {
    let mut text = match side.worker.round_pipelined(alloc, link, &mut side.handler) {
        Ok(pipelined) => format_pipelined(alloc, pipelined)?,
        Err(error) => format_run(alloc, &Err(error))?,
    };
    text.push_str(side.handler.take_report(alloc)?.as_str())?;
    Ok(text)
}

/// Returns the request of the round, whether an acknowledgement preceded it, and whether the handler goes on.
fn format_pipelined(alloc: Global, pipelined: Pipelined) -> Result<String, AllocError> {
    let round = pipelined.round;
    if pipelined.acknowledged {
        format!(in alloc;
            "Acknowledgement and {:?}, {:?}",
            round.asked, round.progress
        )
    } else {
        format!(in alloc; "{:?}, {:?}", round.asked, round.progress)
    }
}

/// Executes a line, and returns its result. The reader and the writer were set up before the first line.
fn do_line<R: Read + Drop, W: Write + Drop>(
    alloc: Global,
    link: &mut Connection<R, W>,
    side: &mut Side,
    line: &str,
) -> Result<String, AllocError> {
    let (verb, rest) = split_at_mark(line, ' ');
    match verb {
        "comes" | "reads" | "writes" => Ok(String::new(alloc)),
        "send" => send_command(alloc, link, rest),
        "text" => ask_value::<String, R, W>(alloc, link, rest),
        "number" => ask_value::<usize, R, W>(alloc, link, rest),
        "receive" => format_received(alloc, &link.receive(alloc)),
        "any" => format_received(alloc, &link.receive_any(alloc)),
        "passed" => format!(in alloc; "{}", link.passed()),
        "place" => receive_in_place(alloc, link),
        "show" => escape_bytes(alloc, link.received(parse_number(rest))),
        "give" => {
            link.give_out(parse_number(rest));
            Ok(String::new(alloc))
        }
        "run" => run_rounds(alloc, link, side, parse_number(rest) as u64),
        "pipeline" => run_pipelined(alloc, link, side),
        _ => do_step(alloc, side, verb, rest),
    }
}

/// Executes the lines with reads of at most `most` bytes. Appends the results, and the commands that were sent.
fn play_over(alloc: Global, lines: &str, most: usize, out: &mut String) -> Result<(), AllocError> {
    let mut reader = End::new(alloc, most);
    let mut writer = End::new(alloc, usize::MAX);
    set_up_ends(alloc, lines, &mut reader, &mut writer)?;
    play_between(alloc, reader, &mut writer, lines, out)?;
    out.push_str("sent: ")?;
    push_line(out, format_commands(alloc, &writer.bytes)?.as_str())
}

/// Executes the lines over a connection of this reader and writer.
fn play_between<R: Read + Drop, W: Write + Drop>(
    alloc: Global,
    reader: R,
    writer: W,
    lines: &str,
    out: &mut String,
) -> Result<(), AllocError> {
    let mut side = Side::new(alloc, "", true)?;
    let mut link = Connection::new(alloc, reader, writer, LIMITS)?;
    do_lines(alloc, &mut link, &mut side, lines, out)
}

/// Executes each line, and appends its result.
fn do_lines<R: Read + Drop, W: Write + Drop>(
    alloc: Global,
    link: &mut Connection<R, W>,
    side: &mut Side,
    lines: &str,
    out: &mut String,
) -> Result<(), AllocError> {
    for line in lines.lines() {
        let text = do_line(alloc, link, side, line)?;
        push_exchange(out, line, text.as_str())?;
    }
    Ok(())
}

/// Plays the script if this module has one of this name. Returns whether it has.
pub fn play(
    alloc: Global,
    name: &str,
    words: &str,
    lines: &str,
    out: &mut String,
) -> Result<bool, AllocError>
    ensures { IfOk result (λ played. played ≡ is_connection_script name.now) }
{
    match name {
        "connection" => played!(play_sizes(alloc, words, lines, out)),
        "ends" => played!(play_ends(alloc, words, lines, out)),
        _ => Ok(false),
    }
}

/// Plays a connection once for each size. A transcript that equals the last one is not printed again.
fn play_sizes(alloc: Global, words: &str, lines: &str, out: &mut String) -> Result<(), AllocError> {
    let mut last = String::new(alloc);
    for word in words.split(' ') {
        let most = word.parse::<usize>().unwrap_or(usize::MAX);
        let mut text = String::new(alloc);
        play_over(alloc, lines, most, &mut text)?;
        if text.as_str() == last.as_str() {
            out.push_str("the same with reads of ")?;
            push_line(out, word)?;
        } else {
            out.push_str(text.as_str())?;
            last = text;
        }
    }
    Ok(())
}

/// Makes `rounds` rounds over these bytes, and returns their outcome. Appends the commands that were sent to `sent`.
fn run_over(
    alloc: Global,
    bytes: &[u8],
    rounds: u64,
    sent: &mut Vec<u8>,
) -> Result<String, AllocError> {
    let mut side = Side::new(alloc, "", true)?;
    let mut text = run_between(alloc, bytes, sent, &mut side, rounds)?;
    push_next_request(alloc, &mut side, &mut text)?;
    Ok(text)
}

/// Has the worker make this number of rounds over a connection of this reader and writer.
fn run_between<R: Read + Drop, W: Write + Drop>(
    alloc: Global,
    reader: R,
    writer: W,
    side: &mut Side,
    rounds: u64,
) -> Result<String, AllocError> {
    let mut link = Connection::new(alloc, reader, writer, LIMITS)?;
    run_rounds(alloc, &mut link, side, rounds)
}

/// Appends the next request of a worker.
fn push_next_request(alloc: Global, side: &mut Side, text: &mut String) -> Result<(), AllocError> {
    text.push_str("; next: ")?;
    text.push_str(make_request(alloc, &mut side.worker, &mut side.handler)?.as_str())
}

/// Makes a run whose bytes end too early. Compares what it sent with the commands of the whole run.
fn run_prefix(
    alloc: Global,
    bytes: &[u8],
    rounds: u64,
    whole: &[u8],
) -> Result<String, AllocError> {
    let mut sent = Vec::new(alloc);
    let mut text = run_over(alloc, bytes, rounds, &mut sent)?;
    text.push_str(if whole.starts_with(&sent) {
        "; sent a front: "
    } else {
        "; sent otherwise: "
    })?;
    text.push_str(format_commands(alloc, &sent)?.as_str())?;
    Ok(text)
}

/// Returns the bytes of all lines.
fn parse_input(alloc: Global, lines: &str) -> Result<Vec<u8>, AllocError> {
    let mut input = Vec::new(alloc);
    for line in lines.lines() {
        input.append(&mut parse_bytes(alloc, line)?)?;
    }
    Ok(input)
}

/// Plays a run over all bytes of the input, and one over each proper prefix of them.
fn play_ends(alloc: Global, words: &str, lines: &str, out: &mut String) -> Result<(), AllocError> {
    let input = parse_input(alloc, lines)?;
    let rounds = parse_number(words) as u64;
    let mut sent = Vec::new(alloc);
    let text = run_over(alloc, &input, rounds, &mut sent)?;
    push_exchange(out, format_commands(alloc, &sent)?.as_str(), text.as_str())?;
    push_line(out, run_prefixes(alloc, &input, rounds, &sent)?.as_str())
}

/// Returns the outcomes of the runs over each proper prefix of the input.
fn run_prefixes(
    alloc: Global,
    input: &[u8],
    rounds: u64,
    whole: &[u8],
) -> Result<String, AllocError> {
    let mut spans = Spans::new(alloc);
    add_prefixes(alloc, input, rounds, whole, &mut spans)?;
    spans.finish()
}

/// Adds the outcome of the run over each proper prefix of the input.
fn add_prefixes(
    alloc: Global,
    input: &[u8],
    rounds: u64,
    whole: &[u8],
    spans: &mut Spans,
) -> Result<(), AllocError> {
    for end in 0..input.len() {
        let text = run_prefix(alloc, &input[..end], rounds, whole)?;
        spans.add(text)?;
    }
    Ok(())
}
