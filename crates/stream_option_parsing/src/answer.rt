//! The output for an input.
ghost use Rattle.std.specs.Prelude.{◌≡◌, ◌≢◌, ◌<◌, ◌≤◌, ◌+◌, ◌++◌, None, IfOk, IsOk, OnOk, IfErr, OnErr, length};
ghost use Rattle.std.specs.Prelude.{vec_len, vec_capacity};
ghost use Rattle.stream_option_parsing.specs.Answer.{AppendsAnswer, IsReply, IsReplyOf, type_of, reply_line};
ghost use Rattle.stream_option_parsing.specs.Answer.{IsUnknownWord, NeedsNoMemory};
ghost use Rattle.stream_option_parsing.specs.AnswerMeaning.{reply_of, verdict_of};
ghost use Rattle.stream_option_parsing.specs.Lines.{parts_of};
ghost use Rattle.stream_option_parsing.specs.Split.{arguments};

use crate::add::read_add;
use crate::autoclaim::read_autoclaim;
use crate::claim::read_claim;
use crate::config::read_config;
use crate::error::SentenceError;
use crate::nack::read_nack;
use crate::pieces::{cut_line, cut_parts};
use crate::read::read_read;
use crate::run_error::RunError;
use crate::trim::read_trim;
use itoa::Buffer;
use std::alloc::Global;

/// The reply to one line.
#[derive(Clone, Copy)]
pub(crate) enum Reply {
    Unknown,
    No,
    Count(usize),
}

/// Appends the output for the whole input. Memory is allocated for an argument or a known type, and
/// where the capacity of the output is too small.
pub(crate) fn append_replies(
    alloc: Global,
    input: &[u8],
    output: &mut Vec<u8>,
) -> Result<(), RunError>
    ensures ok { OnOk result (AppendsAnswer input.now output.old.items output.new.items) }
    ensures err { IfErr result (λ e. e ≡ RunError.Memory) }
    ensures some { OnErr result (0 < length input.now) }
    ensures succeeds { NeedsNoMemory input.now output.old → IsOk result }
{
    let mut rest = input;
    'lines: while !rest.is_empty() {
        let (line, after) = cut_line(rest);
        let reply = reply_to_line(alloc, line)?;
        push_reply(output, reply)?;
        rest = after;
    }
    Ok(())
}

/// Returns the reply to a line. Memory is allocated only for an argument or a known type.
fn reply_to_line(alloc: Global, line: &[u8]) -> Result<Reply, RunError>
    ensures ok { IfOk result (λ reply. IsReply (parts_of line.now) (reply_of reply)) }
    ensures err { IfErr result (λ e. e ≡ RunError.Memory) }
    ensures succeeds { IsUnknownWord line.now → IsOk result }
{
    let (word, args) = cut_parts(alloc, line)?;
    reply_to(alloc, word, &args)
}

/// Returns the reply to the arguments after a type word. Memory is allocated only for a known type.
fn reply_to(alloc: Global, word: &[u8], args: &[Vec<u8>]) -> Result<Reply, RunError>
    ensures ok { IfOk result (λ reply.
        IsReplyOf (type_of word.now) (arguments args.now) (reply_of reply)) }
    ensures err { IfErr result (λ e. e ≡ RunError.Memory) }
    ensures known { OnErr result (type_of word.now ≢ None) }
{
    if word == b"trim".as_slice() {
        reply_to_reading(read_trim(alloc, args))
    } else if word == b"add".as_slice() {
        reply_to_reading(read_add(alloc, args))
    } else if word == b"config".as_slice() {
        reply_to_reading(read_config(args))
    } else if word == b"autoclaim".as_slice() {
        reply_to_reading(read_autoclaim(args))
    } else if word == b"claim".as_slice() {
        reply_to_reading(read_claim(alloc, args))
    } else if word == b"read".as_slice() {
        reply_to_reading(read_read(alloc, args))
    } else if word == b"nack".as_slice() {
        reply_to_reading(read_nack(args))
    } else {
        Ok(Reply::Unknown)
    }
}

/// Returns the reply for the result of a reader.
fn reply_to_reading<T: Drop>(reading: Result<(T, usize), SentenceError>) -> Result<Reply, RunError>
    ensures { result ≡ verdict_of reading }
{
    match reading {
        Ok((_options, k)) => Ok(Reply::Count(k)),
        Err(SentenceError::NotASentence) => Ok(Reply::No),
        Err(SentenceError::Memory) => Err(RunError::Memory),
    }
}

/// Appends the line of a reply to the output. It fails only if the capacity is too small for the line.
fn push_reply(output: &mut Vec<u8>, reply: Reply) -> Result<(), RunError>
    ensures ok { OnOk result (output.new.items ≡ output.old.items ++ reply_line (reply_of reply)) }
    ensures len { OnOk result
        (vec_len output.new ≡ vec_len output.old + length (reply_line (reply_of reply))) }
    ensures capacity { vec_capacity output.old ≤ vec_capacity output.new }
    ensures err { IfErr result (λ e. e ≡ RunError.Memory) }
    ensures full { OnErr result (vec_capacity output.old
        < vec_len output.old + length (reply_line (reply_of reply))) }
{
    match reply {
        Reply::Unknown => output.extend_from_slice(b"unknown")?,
        Reply::No => output.extend_from_slice(b"no")?,
        Reply::Count(k) => {
            let mut buffer = Buffer::new();
            output.extend_from_slice(b"ok ")?;
            output.extend_from_slice(buffer.format(k).as_bytes())?;
        }
    }
    output.push(b'\n')?;
    Ok(())
}
