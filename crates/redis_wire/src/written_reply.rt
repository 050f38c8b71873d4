//! Replies as bytes.
ghost use Rattle.std.specs.Prelude.{◌≡◌, ◌++◌, OnOk, OnErr, IfOk, map, string_bytes};
ghost use Rattle.redis_wire.specs.Reply.{answer, answer_list};
ghost use Rattle.redis_wire.specs.Written.{line_bytes};
ghost use Rattle.redis_wire.specs.WrittenReply.{blank_end, error_bytes, group_head, push_head};
ghost use Rattle.redis_wire.specs.WrittenReply.{answer_bytes, answers_bytes};

use crate::command::push_bulk;
use crate::kind::GroupKind;
use crate::reply::Reply;
use crate::written::{Protocol, is_one_line, push_count, push_line, push_value};
use std::alloc::{AllocError, Global};

/// Appends the bytes of a reply, as a server sends it. An `Err` changes nothing.
///
/// RESP2 has no maps, sets, booleans, verbatim strings, attributes and messages. A map becomes the
/// array of its keys and values in turn; a set and a message become arrays; a boolean becomes 1 or 0.
/// A verbatim string becomes its text, and attributes are left out. A null is `$-1` in RESP2 and `_` in
/// RESP3.
///
/// A text with CR or LF becomes a bulk string, since a line cannot hold it. Such an error becomes a bulk
/// error in RESP3; in RESP2 each CR and LF becomes a space, as in a server.
pub fn append_answer(
    alloc: Global,
    out: &mut Vec<u8>,
    protocol: Protocol,
    reply: &Reply,
) -> Result<(), AllocError>
    ensures ok { OnOk result (out.new.items
        ≡ out.old.items ++ answer_bytes protocol (answer reply.now)) }
    ensures err { OnErr result (out.new.items ≡ out.old.items) }
{
    let mut bytes = Vec::new(alloc);
    push_reply(alloc, &mut bytes, protocol, reply)?;
    out.extend_from_slice(&bytes)?;
    Ok(())
}

/// Appends a reply.
#[cycle(replies)]
fn push_reply(
    alloc: Global,
    out: &mut Vec<u8>,
    protocol: Protocol,
    reply: &Reply,
) -> Result<(), AllocError>
    ensures { OnOk result (out.new.items
        ≡ out.old.items ++ answer_bytes protocol (answer reply.now)) }
{
    match reply {
        Reply::Value(value) => push_value(out, protocol, value),
        Reply::Error(error) => push_error(alloc, out, protocol, &error.text),
        Reply::Group { kind, members } => {
            push_group_head(out, protocol, *kind, members.len())?;
            push_replies(alloc, out, protocol, members)
        }
        Reply::Push { kind, payload } => {
            push_push_head(out, protocol, payload.len() + 1)?;
            push_bulk(out, kind.as_bytes())?;
            push_replies(alloc, out, protocol, payload)
        }
    }
}

/// Appends replies one after the other.
#[cycle(replies)]
fn push_replies(
    alloc: Global,
    out: &mut Vec<u8>,
    protocol: Protocol,
    replies: &Vec<Reply>,
) -> Result<(), AllocError>
    ensures { OnOk result (out.new.items
        ≡ out.old.items ++ answers_bytes protocol (answer_list (map answer replies.now.items))) }
{
    for reply in replies {
        push_reply(alloc, out, protocol, reply)?;
    }
    Ok(())
}

/// Appends an error.
#[tactic(auto, unfolding(crate::specs::WrittenReply::error_bytes))]
pub fn push_error(
    alloc: Global,
    out: &mut Vec<u8>,
    protocol: Protocol,
    text: &[u8],
) -> Result<(), AllocError>
    ensures { OnOk result (out.new.items ≡ out.old.items ++ error_bytes protocol text.now) }
{
    if is_one_line(text) {
        return push_line(out, b'-', text);
    }
    match protocol {
        Protocol::Resp2 => {
            let line = replace_line_ends(alloc, text)?;
            push_line(out, b'-', &line)
        }
        Protocol::Resp3 => {
            push_count(out, b'!', text.len())?;
            out.extend_from_slice(text)?;
            out.extend_from_slice(b"\r\n")?;
            Ok(())
        }
    }
}

/// Returns the text with a space instead of each CR and LF.
fn replace_line_ends(alloc: Global, text: &[u8]) -> Result<Vec<u8>, AllocError>
    ensures { IfOk result (λ line. line.items ≡ map blank_end text.now) }
{
    text.iter()
        .map(|byte| {
            if !(*byte == b'\r' || *byte == b'\n') {
                *byte
            } else {
                b' '
            }
        })
        .collect(alloc)
}

/// Appends the header of a group of `count` members.
fn push_group_head(
    out: &mut Vec<u8>,
    protocol: Protocol,
    kind: GroupKind,
    count: usize,
) -> Result<(), AllocError>
    ensures { OnOk result (out.new.items ≡ out.old.items ++ group_head protocol kind count) }
{
    match (protocol, kind) {
        (Protocol::Resp3, GroupKind::Set) => push_count(out, b'~', count),
        (Protocol::Resp3, GroupKind::Map) => {
            if count % 2 == 0 {
                push_count(out, b'%', count / 2)
            } else {
                push_count(out, b'*', count)
            }
        }
        (Protocol::Resp3, GroupKind::Attribute) => {
            if count % 2 == 1 {
                push_count(out, b'|', count / 2)
            } else {
                push_count(out, b'*', count)
            }
        }
        _ => push_count(out, b'*', count),
    }
}

/// Appends the header of a message of `count` members.
fn push_push_head(out: &mut Vec<u8>, protocol: Protocol, count: usize) -> Result<(), AllocError>
    ensures { OnOk result (out.new.items ≡ out.old.items ++ push_head protocol count) }
{
    match protocol {
        Protocol::Resp2 => push_count(out, b'*', count),
        Protocol::Resp3 => push_count(out, b'>', count),
    }
}
