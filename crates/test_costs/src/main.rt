//! Repeats a job, so that its costs can be counted: an operation of the stream layer
//! on a value, or a reading of the bytes of a reply of XREADGROUP.
//!
//! ```text
//! test_costs range owned 100 1000      # reads a range of 1000 entries, a hundred times, by value
//! test_costs fields 100 1000 array     # all ids and fields of 1000 entries in place, a hundred times
//! test_costs print 1 1000 map          # writes the reply itself to standard output
//! ```
//!
//! Each four words are a job, and there may be several jobs. The words of an operation are its name, the
//! way in which it is done, the number of repetitions, and the rows of the reply; `job` lists them.
//! The words of a reading are its name, the number of repetitions, the number of entries of the reply,
//! each of four fields, and whether it is RESP2's array of streams or RESP3's map of them.
//!
//! The readings: `places` finds the offsets of all parts; `fields` also reads each id, name and value, in
//! place; `gets` gets two fields of each entry by name; `received` is `places` of a reply that a stream of
//! replies was fed, as a worker reads it; `decoded` decodes the value and makes no record;
//! `copied` makes the record, and reads what `fields` does; `fed` feeds ten replies to a stream of
//! replies, each in one piece, and then takes them out; `fed-bytes` feeds ten replies byte by byte
//! and asks for a reply after each byte; `fed-one` and `fed-one-bytes` do so with one.
//!
//! The reply is made once, before the first repetition: `tools/count-work` counts the work of a call as
//! the difference of two runs. A line is printed for each job: its words, and for a reading the length
//! of the reply in bytes and the sum of the lengths of what was read or taken out.
//!
//! It exits with 0, or with 1 if the arguments name no job and standard error has the reason, or with 2 if
//! memory ran out, standard output failed, or the reply was not read.
#![tactic(auto)]

mod answer;
mod bytes;
mod copied;
mod in_place;
mod job;
mod operations;
mod reading;
mod replies;
mod streamed;

use answer::made;
use bytes::{BytesJob, Reading, form_of};
use job::{Job, JobError};
use operations::perform;
use redis_wire::{Limits, ReplyStream};
use std::alloc::Global;
use std::io::Write;
use std::process::ExitCode;
use std::{env, io};
use stream_in_place::EntryTape;

/// The arguments name no job.
const NO_WORK: u8 = 1;

/// Memory ran out, standard output failed, or the reply was not read.
const FAILED: u8 = 2;

fn main(rt: HostRuntime) -> ExitCode {
    match work_of_arguments(&rt) {
        Ok(true) => ExitCode::SUCCESS,
        Ok(false) => ExitCode::from(NO_WORK),
        Err(_error) => ExitCode::from(FAILED),
    }
}

/// Does the jobs that the arguments name. Returns `false` if they name none.
fn work_of_arguments(rt: &HostRuntime) -> Result<bool, anyhow::Error> {
    let mut words = Vec::new(rt.alloc());
    for word in env::args(rt)?.skip(1) {
        words.push(word)?;
    }
    if words.is_empty() {
        return refuse(rt, JobError::WrongArguments);
    }
    for four in words.chunks(4) {
        if !work_of_words(rt, four)? {
            return Ok(false);
        }
    }
    Ok(true)
}

/// Prints on standard error why the words name no job.
fn refuse(rt: &HostRuntime, error: JobError) -> Result<bool, anyhow::Error> {
    eprintln!(rt; "reply_bench: {error}")?;
    Ok(false)
}

/// Does the job that the words name; there have to be four.
fn work_of_words(rt: &HostRuntime, words: &[String]) -> Result<bool, anyhow::Error> {
    let [name, second, third, fourth] = words else {
        return refuse(rt, JobError::WrongArguments);
    };
    if let Some(reading) = Reading::named(name) {
        return match bytes_job(reading, second, third, fourth) {
            Some(job) => read_bytes(rt, words, job),
            None => refuse(rt, JobError::WrongArguments),
        };
    }
    match Job::of_words(name, second, third, fourth) {
        Ok(job) => perform(rt.alloc(), job)?,
        Err(error) => return refuse(rt, error),
    }
    print_words(rt, words)?;
    println!(rt; "done")?;
    Ok(true)
}

/// Parses the three words after the name of a reading as its job.
fn bytes_job(reading: Reading, calls: &str, entries: &str, form: &str) -> Option<BytesJob> {
    Some(BytesJob {
        reading,
        calls: calls.parse().ok()?,
        entries: entries.parse().ok()?,
        form: form_of(form)?,
    })
}

/// Reads the bytes of a reply, or prints them.
fn read_bytes(rt: &HostRuntime, words: &[String], job: BytesJob) -> Result<bool, anyhow::Error> {
    let bytes = made(rt.alloc(), job.entries, job.form)?;
    if matches!(job.reading, Reading::Print) {
        io::writer(rt).write_all(&bytes)?;
        return Ok(true);
    }
    let sum = read(rt.alloc(), &bytes, job)?;
    print_words(rt, words)?;
    println!(rt; "{} bytes, {sum}", bytes.len())?;
    Ok(true)
}

/// Prints the words of a job, with a space after each.
fn print_words(rt: &HostRuntime, words: &[String]) -> Result<(), anyhow::Error> {
    for word in words {
        print!(rt; "{word} ")?;
    }
    Ok(())
}

/// Reads the reply as often as the job says, and sums up the lengths of what was read.
fn read(alloc: Global, bytes: &[u8], job: BytesJob) -> Result<usize, anyhow::Error> {
    let mut tape = EntryTape::new(alloc);
    let mut stream = ReplyStream::new(alloc, Limits::default());
    let mut sum = 0usize;
    for _ in 0..job.calls {
        let read = match job.reading {
            Reading::Fed(answers) => fed(alloc, &mut stream, bytes, answers)?,
            Reading::FedBytes(answers) => fed_bytes(alloc, &mut stream, bytes, answers)?,
            Reading::Received => in_place::receive(alloc, &mut stream, &mut tape, bytes)?,
            _ => once(alloc, &mut tape, bytes, job.reading)?,
        };
        sum = sum.wrapping_add(read);
    }
    Ok(sum)
}

/// Feeds this number of replies, each in one piece, and then takes them out. Returns the length of all.
fn fed(
    alloc: Global,
    stream: &mut ReplyStream,
    bytes: &[u8],
    answers: u32,
) -> Result<usize, anyhow::Error> {
    for _ in 0..answers {
        stream.feed(bytes)?;
    }
    let mut sum = 0usize;
    for _ in 0..answers {
        let len = streamed::next_len(alloc, stream)?;
        sum = sum.wrapping_add(len.unwrap_or(0));
    }
    Ok(sum)
}

/// Feeds this number of replies byte by byte, and asks for a reply after each byte. Returns the length of all.
fn fed_bytes(
    alloc: Global,
    stream: &mut ReplyStream,
    bytes: &[u8],
    answers: u32,
) -> Result<usize, anyhow::Error> {
    let mut sum = 0usize;
    for _ in 0..answers {
        for byte in bytes {
            stream.feed(&[*byte])?;
            let len = streamed::next_len(alloc, stream)?;
            sum = sum.wrapping_add(len.unwrap_or(0));
        }
    }
    Ok(sum)
}

fn once(
    alloc: Global,
    tape: &mut EntryTape,
    bytes: &[u8],
    reading: Reading,
) -> Result<usize, anyhow::Error> {
    match reading {
        Reading::Print | Reading::Received | Reading::Fed(_) | Reading::FedBytes(_) => Ok(0),
        Reading::Places => in_place::places(tape, bytes),
        Reading::Fields => in_place::fields(tape, bytes),
        Reading::Gets => in_place::gets(tape, bytes),
        Reading::Decoded => copied::decoded(alloc, bytes),
        Reading::Copied => copied::read(alloc, bytes),
    }
}
