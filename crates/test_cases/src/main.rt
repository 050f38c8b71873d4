//! Reads cases from standard input, one a line, and prints each with its outcome.
//!
//! A line is `KIND<tab>INPUT<tab>OUTCOME`. What follows the second tab of an input line is ignored,
//! so that printed lines can be read again. Control characters of an outcome are printed as `\n`,
//! `\t` or `\xNN`.
//!
//! ```text
//! range    Array[Array[1-0, Array[f, v]]]      1-0(f=v)
//! u8       256                                 refused 2 NotNumber: not a number of this type
//! ```
//!
//! The kinds are those of the modules `replies`, `readings`, `notation`, `wire`, `refs`, `cluster`, `sockets` and
//! `callers`. Another implementation can be compared line by line.
//!
//! It exits with 0, or with 2 if memory ran out, a line of `callers` is not a case, or standard input or output failed.
#![tactic(auto)]

ghost use Rattle.std.specs.Prelude.{◌≡◌, ◌==◌, ◌<◌, IfSome};
ghost use Rattle.std.specs.List.{after_first, before_first};

mod callers;
mod cluster;
mod notation;
mod plain_line;
mod readings;
mod refs;
mod replies;
mod sockets;
mod wire;

use anyhow::Result;
use redis_resp::{ParsingError, Value};
use redis_wire::WireError;
use std::alloc::{AllocError, Global};
use std::io;
use std::io::{BufRead, BufReader, BufWriter, Write};
use std::process::ExitCode;
use test_notation::{NotationError, PrintedForm, read_value};

/// The exit status if memory ran out, a line of `callers` is not a case, or standard input or output failed.
const FAILED: u8 = 2;

/// The outcome of bytes that end before their reply does.
const INCOMPLETE: &str = "incomplete";

fn main(rt: HostRuntime) -> ExitCode {
    match print_outcomes(&rt) {
        Ok(()) => ExitCode::SUCCESS,
        Err(_error) => ExitCode::from(FAILED),
    }
}

/// Prints each line of standard input with its outcome.
fn print_outcomes<R: Input + Print + AllocGlobal>(rt: &R) -> Result<()> {
    let alloc = rt.alloc();
    let mut output = BufWriter::new(alloc, io::writer(rt))?;
    for line in BufReader::new(alloc, rt.reader())?.lines(alloc) {
        let line = line?;
        let (kind, rest) = split_at_tab(&line);
        let (input, _) = split_at_tab(rest);
        let text = run_case(alloc, kind, input)?;
        write!(output, "{kind}\t{input}\t")?;
        output.write_all(&plain_line::escape_text(alloc, text.as_bytes())?)?;
        output.write_all(b"\n")?;
    }
    output.flush()?;
    Ok(())
}

/// Returns the text before the first tab, and the text after it.
fn split_at_tab(line: &str) -> (&str, &str)
    ensures before { result.0.now ≡ before_first (λ b. b == 9) line.now }
    ensures after { result.1.now ≡ after_first (λ b. b == 9) line.now }
{
    match line.split_once('\t') {
        Some(parts) => parts,
        None => (line, ""),
    }
}

/// Runs a case in the first module that has its kind. Returns its outcome.
fn run_case(alloc: Global, kind: &str, input: &str) -> Result<String> {
    if let Some(text) = run_case_of_bytes(alloc, kind, input)? {
        return Ok(text);
    }
    if let Some(text) = replies::run_case(alloc, kind, input)? {
        return Ok(text);
    }
    if let Some(text) = readings::run_case(alloc, kind, input)? {
        return Ok(text);
    }
    if let Some(text) = notation::run_case(alloc, kind, input)? {
        return Ok(text);
    }
    if let Some(text) = cluster::run_case(alloc, kind, input)? {
        return Ok(text);
    }
    if let Some(text) = sockets::run_case(alloc, kind, input)? {
        return Ok(text);
    }
    match callers::run_case(alloc, kind, input)? {
        Some(text) => Ok(text),
        None => Ok(String::from_str(alloc, "no such kind")?),
    }
}

/// Runs a case whose input is escaped bytes. Returns its outcome, or `None` if its kind has another input.
fn run_case_of_bytes(alloc: Global, kind: &str, input: &str) -> Result<Option<String>, AllocError> {
    match wire::run_case(alloc, kind, input)? {
        Some(text) => Ok(Some(text)),
        None => refs::run_case(alloc, kind, input),
    }
}

// Shared by several modules: outcomes of values, of refusals, and of two calls on one value.

/// Parses a text as a value. The inner `Err` is the outcome of a text that is not a value.
fn parse_value(alloc: Global, input: &str) -> Result<Result<Value, String>, AllocError> {
    match read_value(alloc, input) {
        Ok(value) => Ok(Ok(value)),
        Err(NotationError::Memory) => Err(AllocError),
        Err(error) => Ok(Err(format!(in alloc; "no value: {error}")?)),
    }
}

/// Returns the number of a refusal, and its `Debug` and `Display` texts. The error that memory ran out is no
/// outcome, and is passed on.
fn format_refusal(alloc: Global, error: &ParsingError) -> Result<String, AllocError> {
    match error {
        ParsingError::Memory => Err(AllocError),
        _ => {
            let mut text = error.printed(alloc)?;
            write!(text, " {error:?}: {error}")?;
            Ok(text)
        }
    }
}

/// Returns the text that both calls gave, or both texts if they differ. Adds a remark if the borrowed value was
/// changed.
fn format_both(
    alloc: Global,
    owned: String,
    lent: &str,
    changed: bool,
) -> Result<String, AllocError> {
    let mut text = owned;
    if text.as_str() != lent {
        text = format!(in alloc; "{text} owned, {lent} lent")?;
    }
    if changed {
        text.push_str(", and the borrowed value was changed")?;
    }
    Ok(text)
}

/// Returns the fault that refuses bytes, as `Debug` and as `Display` prints it. Passes on the error that memory ran
/// out.
fn format_fault(alloc: Global, error: WireError) -> Result<String, AllocError> {
    match error {
        WireError::Memory => Err(AllocError),
        WireError::Fault(fault) => format!(in alloc; "refused {fault:?}: {fault}"),
    }
}

// Bytes as readable text.

/// Decodes the escapes of a text: `\r`, `\n`, `\t`, `\\` and `\xNN` are one byte each, and every other byte is
/// itself. Returns `None` if a backslash begins none of these.
fn decode_escapes(alloc: Global, text: &str) -> Result<Option<Vec<u8>>, AllocError> {
    let mut bytes = Vec::with_capacity(alloc, text.len())?;
    let mut rest = text.as_bytes();
    for _ in 0..text.len() {
        let Some((byte, after)) = decode_first_byte(rest) else {
            break;
        };
        bytes.push(byte)?;
        rest = after;
    }
    Ok(if rest.is_empty() { Some(bytes) } else { None })
}

/// Returns the first byte of a text, with its escape decoded, and the rest.
fn decode_first_byte(text: &[u8]) -> Option<(u8, &[u8])> {
    match text {
        [b'\\', rest @ ..] => decode_escape(rest),
        [byte, rest @ ..] => Some((*byte, rest)),
        [] => None,
    }
}

/// Returns the byte of the escape after a backslash, and the rest.
fn decode_escape(text: &[u8]) -> Option<(u8, &[u8])> {
    match text {
        [b'r', rest @ ..] => Some((b'\r', rest)),
        [b'n', rest @ ..] => Some((b'\n', rest)),
        [b't', rest @ ..] => Some((b'\t', rest)),
        [b'\\', rest @ ..] => Some((b'\\', rest)),
        [b'x', high, low, rest @ ..] => Some((to_byte(*high, *low)?, rest)),
        _ => None,
    }
}

/// Returns the byte of two hexadecimal digits.
fn to_byte(high: u8, low: u8) -> Option<u8> {
    Some(to_digit(high)? * 16 + to_digit(low)?)
}

/// Returns the value of a hexadecimal digit. A letter is in lower case.
fn to_digit(digit: u8) -> Option<u8>
    ensures { IfSome result (λ value. value < 16) }
{
    match digit {
        b'0'..=b'9' => Some(digit - b'0'),
        b'a'..=b'f' => Some(digit - b'a' + 10),
        _ => None,
    }
}
