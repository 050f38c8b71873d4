//! Scripts of a producer of records in memory.
//!
//! The words of the first line are the base, the batch, and the count of records. A line is one of these:
//!
//! | Line | What is done |
//! |---|---|
//! | `ask` | it makes its next request, and the bytes are printed |
//! | `cut` | its connection is closed |
//! | any other | bytes of replies, which it reads |
//!
//! The result of a line is followed by the stage of the producer, and the count of replies that it expects.

ghost use Rattle.std.specs.Prelude.{◌≡◌, IfOk, length};
ghost use Rattle.test_sessions.specs.Scripts.{is_producer_script};

use crate::{escape_bytes, parse_bytes, parse_number, push_exchange, split_at_mark};
use redis_wire::{Decoded, Limits, Reply, WireError, decode};
use std::alloc::{AllocError, Global};
use worker_producer::{FeedError, Producer, Record, RequestError, Settings};

/// A producer and its records.
#[derive(Drop)]
struct Feed {
    producer: Producer,
    records: Vec<Record>,
}

/// Plays the script if this module has one of this name. Returns whether it has.
pub fn play(
    alloc: Global,
    name: &str,
    words: &str,
    lines: &str,
    out: &mut String,
) -> Result<bool, AllocError>
    ensures { IfOk result (λ played. played ≡ is_producer_script name.now) }
{
    match name {
        "producer" => played!(play_lines(alloc, words, lines, out)),
        _ => Ok(false),
    }
}

/// Plays the lines of a script. If its settings are refused it plays none, and prints the error.
fn play_lines(alloc: Global, words: &str, lines: &str, out: &mut String) -> Result<(), AllocError> {
    let head = format!(in alloc; "producer {words}")?;
    let (base, rest) = split_at_mark(words, ' ');
    let (batch, count) = split_at_mark(rest, ' ');
    let key = String::from_str(alloc, "k")?;
    match Settings::new(key, base.parse::<u64>().unwrap_or(0), parse_number(batch)) {
        Ok(settings) => {
            push_exchange(out, head.as_str(), "")?;
            let producer = Producer::new(settings);
            play_producer(alloc, producer, parse_number(count), lines, out)
        }
        Err(error) => {
            let text = format!(in alloc; "{error}")?;
            push_exchange(out, head.as_str(), text.as_str())
        }
    }
}

/// Plays the steps of this producer of `count` records.
fn play_producer(
    alloc: Global,
    producer: Producer,
    count: usize,
    lines: &str,
    out: &mut String,
) -> Result<(), AllocError> {
    let records = make_records(alloc, 0, count)?;
    let mut feed = Feed { producer, records };
    play_steps(alloc, lines, &mut feed, out)
}

/// Returns `count` records, each with its number, from `first` on.
pub fn make_records(alloc: Global, first: usize, count: usize) -> Result<Vec<Record>, AllocError>
    ensures { IfOk result (λ records. length records.items ≡ count) }
{
    let mut records = Vec::new(alloc);
    for index in 0..count {
        records.push(make_record(alloc, first.wrapping_add(index))?)?;
    }
    Ok(records)
}

/// Returns a record with one field `n`, whose value is this number.
fn make_record(alloc: Global, number: usize) -> Result<Record, AllocError> {
    let mut record = Vec::new(alloc);
    let name = String::from_str(alloc, "n")?.into_bytes();
    let value = format!(in alloc; "{number}")?.into_bytes();
    record.push((name, value))?;
    Ok(record)
}

/// Plays the steps of a producer.
fn play_steps(
    alloc: Global,
    lines: &str,
    feed: &mut Feed,
    out: &mut String,
) -> Result<(), AllocError> {
    for line in lines.lines() {
        play_step(alloc, line, feed, out)?;
    }
    Ok(())
}

/// Plays a step of a producer.
fn play_step(
    alloc: Global,
    line: &str,
    feed: &mut Feed,
    out: &mut String,
) -> Result<(), AllocError> {
    let text = do_step(alloc, line, feed)?;
    let stage = feed.producer.stage();
    let coming = feed.producer.coming();
    let text = format!(in alloc; "{} {stage:?} {coming}", text.as_str())?;
    push_exchange(out, line, text.as_str())
}

/// Executes a step, and returns its result.
fn do_step(alloc: Global, line: &str, feed: &mut Feed) -> Result<String, AllocError> {
    match line {
        "ask" => make_request(alloc, feed),
        "cut" => {
            feed.producer.disconnected();
            String::from_str(alloc, "Ok")
        }
        _ => read_replies(alloc, line, feed),
    }
}

/// Makes the next request of the producer, and returns it as text.
fn make_request(alloc: Global, feed: &mut Feed) -> Result<String, AllocError> {
    let mut bytes = Vec::new(alloc);
    match feed.producer.request(alloc, &mut bytes, &mut feed.records) {
        Ok(request) => {
            let text = escape_bytes(alloc, &bytes)?;
            format!(in alloc; "{request:?}: {}", text.as_str())
        }
        // (a record in memory can be read unless memory is refused)
        Err(RequestError::Memory | RequestError::NotRead) => Err(AllocError),
        Err(error) => format!(in alloc; "{error}"),
    }
}

/// Passes the replies in a line to the producer, and returns the results.
fn read_replies(alloc: Global, line: &str, feed: &mut Feed) -> Result<String, AllocError> {
    let bytes = parse_bytes(alloc, line)?;
    let mut rest = bytes.as_slice();
    let mut text = String::new(alloc);
    for _ in 0..bytes.len() {
        match decode(alloc, rest, Limits::default()) {
            Ok(Decoded::Complete { reply, len }) => {
                push_result(alloc, reply, feed, &mut text)?;
                rest = rest.get(len..).unwrap_or(&[]);
            }
            Err(WireError::Memory) => return Err(AllocError),
            _ => return Ok(text),
        }
    }
    Ok(text)
}

/// Passes a reply to the producer, and appends the result.
fn push_result(
    alloc: Global,
    reply: Reply,
    feed: &mut Feed,
    text: &mut String,
) -> Result<(), AllocError> {
    let count = feed.records.len() as u64;
    match feed.producer.answered(alloc, reply, count) {
        Ok(()) => text.push_str("Ok "),
        Err(FeedError::Memory) => Err(AllocError),
        Err(error) => write!(text, "[{error}] "),
    }
}
