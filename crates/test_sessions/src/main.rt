//! Plays the scripts on standard input, and prints a transcript of each. Some have commands to a server in memory,
//! or steps of a worker or of a producer. In others the reader or the writer of a connection fails, or the
//! connections of workers to a server break.
//!
//! An empty line ends a script. The first line selects what is played; a line before it that begins with `#`
//! is the title. Bytes are written as text, with `\r` and `\n` for the ends of lines, and `\xff` for any byte:
//!
//! | First line | Each other line |
//! |---|---|
//! | `server 2` | a command; `server 3` is over RESP3 |
//! | `bytes` | all bytes that a client sends to a server of its own |
//! | `worker` and settings | a step of a worker, see `workers` |
//! | `letters` | `give` and an entry, or the bytes of the reply to the next command |
//! | `connection` and sizes | a step of a connection, see `workers::connection`; once for reads of each size |
//! | `ends 7` | bytes that arrive; a worker makes 7 rounds over all of them, and over each proper prefix |
//! | `streams 3 8 a b` | a command; then a worker for each stream, 8 turns each |
//! | `cuts 2`, `crashes 2 60`, `gone 2 30`, `schedules 1000` | none, see `faults::together` |
//! | `settles 2 3` | none; two workers handle 3 entries |
//! | `outbox`, `poison` | a step of a worker, or a command to its server, see `outbox` |
//! | `producer 100 2 3` | a step of a producer, see `producer` |
//! | `both-ends` | runs of a producer and a worker over one server, see `faults::both_ends` |
//!
//! The exit status is 0, or 2 if memory runs out, or if standard input or output fails.
#![tactic(auto)]

/// Plays a script, and returns that there is one of this name.
macro_rules! played {
    ($play:expr) => {{
        $play?;
        Ok(true)
    }};
}

mod faults;
mod outbox;
mod producer;
mod workers;

use crate::faults::{both_ends, together};
use crate::workers::{connection, letters, streams};
use redis_wire::{Decoded, Limits, Reply, WireError, command_words, decode};
use server_commands::{Client, Protocol, Server, Session, append_reply};
use std::alloc::{AllocError, Global};
use std::io;
use std::io::{Read, Write};
use std::process::ExitCode;
use worker::{MakeGroup, Settings};

/// The exit status if memory runs out, or if standard input or output fails.
const FAILED: u8 = 2;

fn main(rt: HostRuntime) -> ExitCode {
    match play_all(&rt) {
        Ok(()) => ExitCode::SUCCESS,
        Err(_error) => ExitCode::from(FAILED),
    }
}

/// Plays each script, and prints its transcript.
fn play_all(rt: &HostRuntime) -> io::Result<()> {
    let alloc = rt.alloc();
    let mut input = String::new(alloc);
    let _len = rt.reader().read_to_string(&mut input)?;
    let mut output = io::writer(rt);
    for script in input.as_str().split("\n\n") {
        let mut transcript = String::new(alloc);
        play_titled(alloc, script, &mut transcript)?;
        transcript.push('\n')?;
        output.write_all(transcript.as_str().as_bytes())?;
    }
    output.flush()
}

/// Prints the title of a script, if it has one, and plays the rest.
fn play_titled(alloc: Global, script: &str, out: &mut String) -> Result<(), AllocError> {
    if let Some((title, rest)) = script.split_once('\n') {
        if title.starts_with('#') {
            push_line(out, title)?;
            return play(alloc, rest, out);
        }
    }
    play(alloc, script, out)
}

/// Plays a script that has no title, with the module that knows its name.
fn play(alloc: Global, script: &str, out: &mut String) -> Result<(), AllocError> {
    let (head, lines) = split_at_mark(script, '\n');
    let (name, words) = split_at_mark(head, ' ');
    let is_played = play_server(alloc, name, words, lines, out)?
        || workers::play(alloc, name, words, lines, out)?
        || letters::play(alloc, name, lines, out)?
        || connection::play(alloc, name, words, lines, out)?
        || streams::play(alloc, name, words, lines, out)?
        || together::play(alloc, name, words, out)?
        || outbox::play(alloc, name, lines, out)?
        || producer::play(alloc, name, words, lines, out)?
        || both_ends::play(alloc, name, lines, out)?;
    if is_played {
        return Ok(());
    }
    push_line(out, "no script has this name")
}

// The texts of scripts and of transcripts.

/// Splits a text at the first `mark`. Returns the whole text and an empty one if there is none.
fn split_at_mark(text: &str, mark: char) -> (&str, &str) {
    match text.split_once(mark) {
        Some(parts) => parts,
        None => (text, ""),
    }
}

/// Returns the settings of a worker of the group `g`. An empty name is an error, and no script has one.
fn make_settings(alloc: Global, key: &str, consumer: &str) -> Result<Settings, AllocError> {
    let settings = Settings::new(
        String::from_str(alloc, key)?,
        String::from_str(alloc, "g")?,
        String::from_str(alloc, consumer)?,
    );
    match settings {
        Ok(settings) => Ok(settings),
        Err(_error) => Err(AllocError),
    }
}

/// Returns the settings of a worker that creates the group `g` and reads from the first entry on.
fn make_group_settings(alloc: Global, key: &str, consumer: &str) -> Result<Settings, AllocError> {
    let mut settings = make_settings(alloc, key, consumer)?;
    settings.set_make_group(MakeGroup::FromTheFirst);
    Ok(settings)
}

/// Parses a word as a number; 0 if it is not one.
fn parse_number(word: &str) -> usize {
    word.parse::<usize>().unwrap_or(0)
}

/// Appends a line.
fn push_line(out: &mut String, line: &str) -> Result<(), AllocError> {
    out.push_str(line)?;
    out.push('\n')
}

/// Appends a command or a step after `> `, and its result on the next line if that is not empty.
fn push_exchange(out: &mut String, step: &str, outcome: &str) -> Result<(), AllocError> {
    out.push_str("> ")?;
    push_line(out, step)?;
    if outcome.is_empty() {
        return Ok(());
    }
    push_line(out, outcome)
}

/// Returns the bytes of a text in the notation of scripts: `\r` and `\n` are ends of lines, and `\xff` is any byte.
fn parse_bytes(alloc: Global, text: &str) -> Result<Vec<u8>, AllocError> {
    let mut bytes = Vec::new(alloc);
    let mut rest = text.as_bytes();
    for _ in 0..text.len() {
        let Some((byte, after)) = split_first_byte(rest) else {
            return Ok(bytes);
        };
        bytes.push(byte)?;
        rest = after;
    }
    Ok(bytes)
}

/// Returns the first byte of a text in the notation of scripts, and the rest. `None` if the text is empty.
fn split_first_byte(text: &[u8]) -> Option<(u8, &[u8])> {
    match text {
        [b'\\', b'x', high, low, rest @ ..] => Some((
            parse_hex_digit(*high) << 4 | parse_hex_digit(*low),
            rest,
        )),
        [b'\\', b'r', rest @ ..] => Some((b'\r', rest)),
        [b'\\', b'n', rest @ ..] => Some((b'\n', rest)),
        [b'\\', byte, rest @ ..] => Some((*byte, rest)),
        [byte, rest @ ..] => Some((*byte, rest)),
        [] => None,
    }
}

/// Returns the value of a lowercase hexadecimal digit; 0 for any other byte.
fn parse_hex_digit(byte: u8) -> u8 {
    match byte {
        b'0'..=b'9' => byte - b'0',
        b'a'..=b'f' => byte - b'a' + 10,
        _ => 0,
    }
}

/// Appends bytes in the notation of scripts.
fn push_bytes(out: &mut String, bytes: &[u8]) -> Result<(), AllocError> {
    for byte in bytes {
        match *byte {
            b'\r' => out.push_str("\\r")?,
            b'\n' => out.push_str("\\n")?,
            128..=255 => write!(out, "\\x{byte:02x}")?,
            byte => out.push(char::from(byte))?,
        }
    }
    Ok(())
}

/// Returns bytes in the notation of scripts.
fn escape_bytes(alloc: Global, bytes: &[u8]) -> Result<String, AllocError> {
    let mut text = String::new(alloc);
    push_bytes(&mut text, bytes)?;
    Ok(text)
}

/// Appends the words of a command, with a blank between them; nothing if the reply is no command.
fn push_command(alloc: Global, out: &mut String, command: Reply) -> Result<(), AllocError> {
    let Some(words) = command_words(alloc, command)? else {
        return Ok(());
    };
    for (index, word) in words.iter().enumerate() {
        if index > 0 {
            out.push(' ')?;
        }
        push_bytes(out, word)?;
    }
    Ok(())
}

/// Returns the commands in these bytes as text, with ` | ` between them. Bytes that are no complete command come
/// last.
fn format_commands(alloc: Global, bytes: &[u8]) -> Result<String, AllocError> {
    let mut text = String::new(alloc);
    let mut rest = bytes;
    for _ in 0..bytes.len() {
        match decode(alloc, rest, Limits::default()) {
            Ok(Decoded::Complete { reply, len }) => {
                push_command(alloc, &mut text, reply)?;
                rest = rest.get(len..).unwrap_or(&[]);
            }
            Ok(Decoded::Incomplete) | Err(WireError::Fault(_)) => break,
            Err(WireError::Memory) => return Err(AllocError),
        }
        if rest.is_empty() {
            break;
        }
        text.push_str(" | ")?;
    }
    push_bytes(&mut text, rest)?;
    Ok(text)
}

// A server in memory.

/// A server and one connection to it.
#[derive(Drop)]
struct Peer {
    server: Server,
    session: Session,
}

impl Peer {
    /// Returns a new server, and a connection over RESP3 if the word is `3`, or over RESP2.
    fn new(alloc: Global, word: &str) -> Peer {
        let protocol = if word == "3" {
            Protocol::Resp3
        } else {
            Protocol::Resp2
        };
        Peer {
            server: Server::new(alloc),
            session: Session::new(alloc, protocol),
        }
    }
}

/// Executes a command, and returns the bytes of the reply.
fn run_command(alloc: Global, peer: &mut Peer, words: Vec<Vec<u8>>) -> Result<Vec<u8>, AllocError> {
    let reply = peer.server.step(alloc, 0, &mut peer.session, words)?;
    let mut bytes = Vec::new(alloc);
    append_reply(alloc, &mut bytes, peer.session.protocol, &reply)?;
    Ok(bytes)
}

/// Executes the command of a line, and returns the bytes of the reply.
fn run_line(alloc: Global, peer: &mut Peer, line: &str) -> Result<Vec<u8>, AllocError> {
    let mut words = Vec::new(alloc);
    for word in line.split(' ') {
        words.push(parse_bytes(alloc, word)?)?;
    }
    run_command(alloc, peer, words)
}

/// Executes the command of each line, and prints the replies.
fn run_lines(
    alloc: Global,
    peer: &mut Peer,
    lines: &str,
    out: &mut String,
) -> Result<(), AllocError> {
    for line in lines.lines() {
        let reply = run_line(alloc, peer, line)?;
        push_exchange(out, line, escape_bytes(alloc, &reply)?.as_str())?;
    }
    Ok(())
}

/// Plays a script of commands or of bytes, if it has one of these names. Returns whether it has.
fn play_server(
    alloc: Global,
    name: &str,
    words: &str,
    lines: &str,
    out: &mut String,
) -> Result<bool, AllocError> {
    match name {
        "server" => played!(run_lines(alloc, &mut Peer::new(alloc, words), lines, out)),
        "bytes" => played!(play_bytes(alloc, lines, out)),
        _ => Ok(false),
    }
}

/// Returns the replies to a client that sends these bytes to a new server.
fn serve_client(alloc: Global, bytes: &[u8]) -> Result<String, AllocError> {
    let mut server = Server::new(alloc);
    let mut client = Client::new(alloc);
    let mut replies = Vec::new(alloc);
    client.answer(alloc, &mut server, 0, bytes, &mut replies)?;
    let mut text = escape_bytes(alloc, &replies)?;
    if client.has_ended() {
        text.push_str(" and the connection ends")?;
    }
    Ok(text)
}

/// Plays a client for each line, each with a new server.
fn play_bytes(alloc: Global, lines: &str, out: &mut String) -> Result<(), AllocError> {
    for line in lines.lines() {
        let replies = serve_client(alloc, &parse_bytes(alloc, line)?)?;
        push_exchange(out, line, replies.as_str())?;
    }
    Ok(())
}
