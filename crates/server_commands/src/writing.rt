//! Replies as bytes.
ghost use Rattle.std.specs.Prelude.{◌≡◌, ◌≤◌, ◌++◌, ◌*◌, OnOk, OnErr, map};
ghost use Rattle.std.specs.List.{flat_map};
ghost use Rattle.redis_wire.specs.Packed.{bulk_bytes};
ghost use Rattle.redis_wire.specs.Written.{nil_bytes, map_head};
ghost use Rattle.server_store.specs.EntryId.{id_text};
ghost use Rattle.server_commands.specs.Sent.{item_list, row_list, sent, sent_row, no_array_bytes};
ghost use Rattle.server_commands.specs.Sent.{rows_head, row_head, sent_bytes, items_bytes, rows_bytes};
ghost use Rattle.server_commands.specs.Sent.{turns_bytes, refused_bytes, outcome_bytes, reply_bytes};

use crate::answer::{Answer, Reply};
use itoa::Buffer;
use redis_wire::{Protocol, push_bulk, push_count, push_error, push_line, push_text};
use server_store::EntryId;
use std::alloc::{AllocError, Global};

/// Appends the bytes of a reply: one RESP reply, whatever is in it. An `Err` changes nothing.
///
/// An error is one line, with a space in place of each CR and LF.
pub fn append_reply(
    alloc: Global,
    out: &mut Vec<u8>,
    protocol: Protocol,
    reply: &Reply,
) -> Result<(), AllocError>
    ensures ok { OnOk result (out.new.items ≡ out.old.items ++ reply_bytes protocol reply.now) }
    ensures err { OnErr result (out.new.items ≡ out.old.items) }
{
    let mut bytes = Vec::new(alloc);
    push_reply(alloc, &mut bytes, protocol, reply)?;
    if out.is_empty() {
        *out = bytes;
        return Ok(());
    }
    out.extend_from_slice(&bytes)?;
    Ok(())
}

/// Appends a reply.
fn push_reply(
    alloc: Global,
    out: &mut Vec<u8>,
    protocol: Protocol,
    reply: &Reply,
) -> Result<(), AllocError>
    ensures { OnOk result (out.new.items ≡ out.old.items ++ reply_bytes protocol reply.now) }
{
    match reply {
        Reply::Done(answer) => push_answer(out, protocol, answer),
        Reply::Refused(text) => push_refusal(alloc, out, text),
        Reply::Executed(outcomes) => {
            push_count(out, b'*', outcomes.len())?;
            push_outcomes(alloc, out, protocol, outcomes)
        }
    }
}

/// Appends the outcomes of commands, one after the other.
fn push_outcomes(
    alloc: Global,
    out: &mut Vec<u8>,
    protocol: Protocol,
    outcomes: &Vec<Result<Answer, Vec<u8>>>,
) -> Result<(), AllocError>
    ensures { OnOk result (out.new.items
        ≡ out.old.items ++ flat_map (outcome_bytes protocol) outcomes.now.items) }
{
    for outcome in outcomes {
        push_outcome(alloc, out, protocol, outcome)?;
    }
    Ok(())
}

/// Appends the outcome of a command.
fn push_outcome(
    alloc: Global,
    out: &mut Vec<u8>,
    protocol: Protocol,
    outcome: &Result<Answer, Vec<u8>>,
) -> Result<(), AllocError>
    ensures { OnOk result (out.new.items ≡ out.old.items ++ outcome_bytes protocol outcome.now) }
{
    match outcome {
        Ok(answer) => push_answer(out, protocol, answer),
        Err(text) => push_refusal(alloc, out, text),
    }
}

/// Appends an error as one line.
#[tactic(auto, using(crate::proofs::SentLemmas::error_is_one_line))]
fn push_refusal(alloc: Global, out: &mut Vec<u8>, text: &[u8]) -> Result<(), AllocError>
    ensures { OnOk result (out.new.items ≡ out.old.items ++ refused_bytes text.now) }
{
    push_error(alloc, out, Protocol::Resp2, text)
}

/// Appends a reply.
#[cycle(answers)]
fn push_answer(out: &mut Vec<u8>, protocol: Protocol, answer: &Answer) -> Result<(), AllocError>
    ensures { OnOk result (out.new.items ≡ out.old.items ++ sent_bytes protocol (sent answer.now)) }
{
    match answer {
        Answer::Okay => push_line(out, b'+', b"OK"),
        Answer::Status(status) => push_text(out, status.text()),
        Answer::Line(text) => push_text(out, text),
        Answer::Int(n) => push_line(out, b':', Buffer::new().format::<i64>(*n).as_bytes()),
        Answer::Bytes(bytes) => push_bulk(out, bytes),
        Answer::Id(id) => push_id(out, *id),
        Answer::Nil => push_nil(out, protocol),
        Answer::NilArray => push_no_array(out, protocol),
        Answer::Array(answers) => {
            push_count(out, b'*', answers.len())?;
            push_answers(out, protocol, answers)
        }
        Answer::Rows(rows) => {
            push_rows_head(out, protocol, rows.len())?;
            push_rows(out, protocol, rows)
        }
        Answer::Map(rows) => {
            push_map_head(out, protocol, rows.len())?;
            push_in_turn(out, protocol, rows)
        }
    }
}

/// Appends replies one after the other.
#[cycle(answers)]
fn push_answers(
    out: &mut Vec<u8>,
    protocol: Protocol,
    answers: &Vec<Answer>,
) -> Result<(), AllocError>
    ensures { OnOk result (out.new.items
        ≡ out.old.items ++ items_bytes protocol (item_list (map sent answers.now.items))) }
{
    for answer in answers {
        push_answer(out, protocol, answer)?;
    }
    Ok(())
}

/// Appends rows, each a name and its reply.
#[cycle(answers)]
fn push_rows(
    out: &mut Vec<u8>,
    protocol: Protocol,
    rows: &Vec<(Vec<u8>, Answer)>,
) -> Result<(), AllocError>
    ensures { OnOk result (out.new.items
        ≡ out.old.items ++ rows_bytes protocol (row_list (map sent_row rows.now.items))) }
{
    for (name, answer) in rows {
        push_row_head(out, protocol)?;
        push_bulk(out, name)?;
        push_answer(out, protocol, answer)?;
    }
    Ok(())
}

/// Appends names and replies in turn.
#[cycle(answers)]
fn push_in_turn(
    out: &mut Vec<u8>,
    protocol: Protocol,
    rows: &Vec<(Vec<u8>, Answer)>,
) -> Result<(), AllocError>
    ensures { OnOk result (out.new.items
        ≡ out.old.items ++ turns_bytes protocol (row_list (map sent_row rows.now.items))) }
{
    for (name, answer) in rows {
        push_bulk(out, name)?;
        push_answer(out, protocol, answer)?;
    }
    Ok(())
}

/// Appends a null.
fn push_nil(out: &mut Vec<u8>, protocol: Protocol) -> Result<(), AllocError>
    ensures { OnOk result (out.new.items ≡ out.old.items ++ nil_bytes protocol) }
{
    match protocol {
        Protocol::Resp2 => push_line(out, b'$', b"-1"),
        Protocol::Resp3 => push_line(out, b'_', b""),
    }
}

/// Appends a null array.
fn push_no_array(out: &mut Vec<u8>, protocol: Protocol) -> Result<(), AllocError>
    ensures { OnOk result (out.new.items ≡ out.old.items ++ no_array_bytes protocol) }
{
    match protocol {
        Protocol::Resp2 => push_line(out, b'*', b"-1"),
        Protocol::Resp3 => push_line(out, b'_', b""),
    }
}

/// Appends the head of `count` rows.
fn push_rows_head(out: &mut Vec<u8>, protocol: Protocol, count: usize) -> Result<(), AllocError>
    ensures { OnOk result (out.new.items ≡ out.old.items ++ rows_head protocol count) }
{
    match protocol {
        Protocol::Resp2 => push_count(out, b'*', count),
        Protocol::Resp3 => push_count(out, b'%', count),
    }
}

/// Appends the head of one row.
fn push_row_head(out: &mut Vec<u8>, protocol: Protocol) -> Result<(), AllocError>
    ensures { OnOk result (out.new.items ≡ out.old.items ++ row_head protocol) }
{
    match protocol {
        Protocol::Resp2 => push_count(out, b'*', 2),
        Protocol::Resp3 => Ok(()),
    }
}

/// Appends the head of a map.
fn push_map_head(out: &mut Vec<u8>, protocol: Protocol, count: usize) -> Result<(), AllocError>
    requires { 2 * count ≤ usize.MAX }
    ensures { OnOk result (out.new.items ≡ out.old.items ++ map_head protocol count) }
{
    match protocol {
        Protocol::Resp2 => push_count(out, b'*', 2 * count),
        Protocol::Resp3 => push_count(out, b'%', count),
    }
}

/// Appends an id as bulk bytes.
#[tactic(auto, unfolding(redis_wire::specs::Packed::bulk_bytes))]
fn push_id(out: &mut Vec<u8>, id: EntryId) -> Result<(), AllocError>
    ensures { OnOk result (out.new.items ≡ out.old.items ++ bulk_bytes (id_text id)) }
{
    let mut first = Buffer::new();
    let mut second = Buffer::new();
    let milliseconds = first.format::<u64>(id.milliseconds).as_bytes();
    let sequence = second.format::<u64>(id.sequence).as_bytes();
    push_count(out, b'$', milliseconds.len() + 1 + sequence.len())?;
    out.extend_from_slice(milliseconds)?;
    push_line(out, b'-', sequence)
}
