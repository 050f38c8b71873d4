//! Scripts of dead letters. A line `give` has an id, a number of deliveries and a field, and gives that entry up.
//! Another line is the bytes of the reply to the next command of the letters.
ghost use Rattle.std.specs.Prelude.{◌≡◌, IfOk};
ghost use Rattle.test_sessions.specs.Scripts.{is_letters_script};

use crate::workers::LIMITS;
use crate::{format_commands, parse_bytes, parse_number, push_exchange, split_at_mark};
use redis_wire::{Decoded, WireError, decode};
use std::alloc::{AllocError, Global};
use worker::{DeadLetters, LetterError};

/// Gives up the entry of a line `give`.
fn give_up_entry(
    alloc: Global,
    letters: &mut DeadLetters,
    rest: &str,
) -> Result<String, AllocError> {
    let (id, rest) = split_at_mark(rest, ' ');
    let (deliveries, rest) = split_at_mark(rest, ' ');
    let field = split_at_mark(rest, ' ');
    match letters.give_up(alloc, id, parse_number(deliveries), &field) {
        Ok(()) => String::from_str(alloc, "Ok"),
        Err(_error) => Err(AllocError),
    }
}

/// Makes the next request of the letters, and returns it as text.
fn make_request(alloc: Global, letters: &mut DeadLetters) -> Result<String, AllocError> {
    let mut bytes = Vec::new(alloc);
    match letters.request(alloc, &mut bytes) {
        Ok(request) => {
            let command = format_commands(alloc, &bytes)?;
            format!(in alloc; "{request:?}: {}", command.as_str())
        }
        Err(_error) => Err(AllocError),
    }
}

/// Returns the name and the text of the result of a reply.
fn format_result(alloc: Global, outcome: &Result<(), LetterError>) -> Result<String, AllocError> {
    match outcome {
        Ok(()) => String::from_str(alloc, "Ok"),
        Err(LetterError::Server(server)) => format!(in alloc; "Server: {server}"),
        Err(error) => format!(in alloc; "{error:?}: {error}"),
    }
}

/// Passes the reply in a line to the letters, and returns the result.
fn read_reply(alloc: Global, letters: &mut DeadLetters, line: &str) -> Result<String, AllocError> {
    match decode(alloc, &parse_bytes(alloc, line)?, LIMITS) {
        Ok(Decoded::Complete { reply, len: _ }) => format_result(alloc, &letters.answered(reply)),
        Err(WireError::Memory) => Err(AllocError),
        _ => String::from_str(alloc, "no reply"),
    }
}

/// Plays the script if this module has one of this name. Returns whether it has.
pub fn play(alloc: Global, name: &str, lines: &str, out: &mut String) -> Result<bool, AllocError>
    ensures { IfOk result (λ played. played ≡ is_letters_script name.now) }
{
    match name {
        "letters" => played!(play_letters(alloc, lines, out)),
        _ => Ok(false),
    }
}

/// Plays entries that are given up, and replies.
fn play_letters(alloc: Global, lines: &str, out: &mut String) -> Result<(), AllocError> {
    let key = String::from_str(alloc, "k")?;
    let group = String::from_str(alloc, "g")?;
    let stream = String::from_str(alloc, "dead")?;
    let mut letters = DeadLetters::new(alloc, key, group, stream);
    play_lines(alloc, &mut letters, lines, out)
}

/// Plays the lines.
fn play_lines(
    alloc: Global,
    letters: &mut DeadLetters,
    lines: &str,
    out: &mut String,
) -> Result<(), AllocError> {
    for line in lines.lines() {
        play_line(alloc, letters, line, out)?;
    }
    Ok(())
}

/// Gives an entry up, or makes the next request and passes its reply to the letters.
fn play_line(
    alloc: Global,
    letters: &mut DeadLetters,
    line: &str,
    out: &mut String,
) -> Result<(), AllocError> {
    if let ("give", rest) = split_at_mark(line, ' ') {
        return push_exchange(out, line, give_up_entry(alloc, letters, rest)?.as_str());
    }
    let command = make_request(alloc, letters)?;
    let result = read_reply(alloc, letters, line)?;
    push_exchange(out, command.as_str(), result.as_str())
}
