//! Pushed messages, and whole replies.
ghost use Rattle.std.specs.Prelude.{◌≡◌, ◌<◌, ◌-◌, IfOk, IfErr, map};
ghost use Rattle.redis_wire.specs.declared.fault.Stop.TheVariants.{Memory};
ghost use Rattle.redis_wire.specs.Reading.{Gives};
ghost use Rattle.redis_wire.specs.Reply.{answer, answers, answer_list, one_by_one, pushed};
ghost use Rattle.redis_wire.specs.Push.{kind_text, kind_body_at, kind_by, kind_at, push_body_at, push_at, reply_at};

use crate::fault::{Fault, Stop};
use crate::kind::{BlobKind, Kind, LineKind, kind_of};
use crate::limits::Limits;
use crate::line::{blob_at, line_at};
use crate::number::length_at;
use crate::reply::{Members, Reply};
use crate::value::{members_at, replies_in, value_at};
use std::alloc::Global;

/// Returns the kind of a message, which is UTF-8 text.
fn parse_kind(text: &[u8]) -> Result<&str, Stop>
    ensures { Gives (λ kind. kind.now) result (kind_text text.now) }
{
    match std::str::from_utf8(text) {
        Ok(kind) => Ok(kind),
        Err(_) => Err(Stop::Fault(Fault::NotUtf8)),
    }
}

/// Reads the kind of a message as a bulk string of this length.
#[tactic(auto, unfolding(crate::specs::Push::kind_body_at))]
fn read_kind_body(len: Option<u32>, bytes: &[u8]) -> Result<(&str, &[u8]), Stop>
    ensures { Gives (λ x. (x.0.now, x.1.now)) result (kind_body_at len bytes.now) }
{
    match len {
        None => Err(Stop::Fault(Fault::BadPush)),
        Some(len) => {
            let (text, rest) = blob_at(len as usize, bytes)?;
            Ok((parse_kind(text)?, rest))
        }
    }
}

/// Reads the kind of a message after its first byte.
#[tactic(auto, unfolding(crate::specs::Push::kind_by))]
fn read_kind(limits: Limits, kind: Option<Kind>, bytes: &[u8]) -> Result<(&str, &[u8]), Stop>
    ensures { Gives (λ x. (x.0.now, x.1.now)) result (kind_by limits kind bytes.now) }
{
    match kind {
        Some(Kind::Line(LineKind::Status)) => {
            let (text, rest) = line_at(limits.line, bytes)?;
            Ok((parse_kind(text)?, rest))
        }
        Some(Kind::Blob(BlobKind::Bulk)) => {
            let (len, rest) = length_at(limits, bytes)?;
            read_kind_body(len, rest)
        }
        _ => Err(Stop::Fault(Fault::BadPush)),
    }
}

/// Reads the kind of a message, a simple string or a bulk string, and returns it with the rest.
#[tactic(auto, unfolding(crate::specs::Push::kind_at))]
pub fn kind_at(limits: Limits, bytes: &[u8]) -> Result<(&str, &[u8]), Stop>
    ensures { Gives (λ x. (x.0.now, x.1.now)) result (kind_at limits bytes.now) }
{
    match bytes {
        [] => Err(Stop::Short),
        [first, rest @ ..] => read_kind(limits, kind_of(*first), rest),
    }
}

/// Reads the message whose count was read, and returns it with the rest.
#[tactic(auto, unfolding(crate::specs::Push::push_body_at))]
fn read_push_body(
    alloc: Global,
    limits: Limits,
    count: Option<u32>,
    bytes: &[u8],
) -> Result<(Reply, &[u8]), Stop>
    requires { 0 < limits.depth }
    ensures { Gives (λ x. (answer x.0, x.1.now)) result (push_body_at limits count bytes.now) }
{
    match count {
        None => Err(Stop::Fault(Fault::BadLength)),
        Some(0) => Err(Stop::Fault(Fault::BadPush)),
        Some(count) => {
            let (kind, rest) = kind_at(limits, bytes)?;
            let left = (count - 1) as u64;
            let (members, after) = members_at(alloc, limits, limits.depth - 1, 0, left, rest)?;
            Ok((make_push(alloc, kind, members)?, after))
        }
    }
}

/// Builds a message of this kind with these members.
fn make_push(alloc: Global, kind: &str, members: Members) -> Result<Reply, Stop>
    ensures is { IfOk result (λ reply.
        answer reply ≡ pushed kind.now (answer_list (one_by_one (answers members)))) }
    ensures memory { IfErr result (λ e. e ≡ Memory) }
{
    Ok(Reply::Push {
        kind: String::from_str(alloc, kind)?,
        payload: replies_in(alloc, members)?,
    })
}

/// Reads the message after its first byte, and returns it with the rest.
#[tactic(auto, unfolding(crate::specs::Push::push_at))]
fn read_push(alloc: Global, limits: Limits, bytes: &[u8]) -> Result<(Reply, &[u8]), Stop>
    ensures { Gives (λ x. (answer x.0, x.1.now)) result (push_at limits bytes.now) }
{
    if limits.depth == 0 {
        return Err(Stop::Fault(Fault::TooDeep));
    }
    let (count, rest) = length_at(limits, bytes)?;
    read_push_body(alloc, limits, count, rest)
}

/// Reads the reply at the start of `bytes`, a message or a value, and returns it with the rest.
#[tactic(auto, unfolding(crate::specs::Push::reply_at))]
pub fn reply_at(alloc: Global, limits: Limits, bytes: &[u8]) -> Result<(Reply, &[u8]), Stop>
    ensures { Gives (λ x. (answer x.0, x.1.now)) result (reply_at limits bytes.now) }
{
    match bytes {
        [] => Err(Stop::Short),
        [first, rest @ ..] => {
            if *first == b'>' {
                read_push(alloc, limits, rest)
            } else {
                value_at(alloc, limits, limits.depth, 0, bytes)
            }
        }
    }
}
