//! Replies that have no entries.
ghost use Rattle.std.specs.Prelude.{◌≡◌, ◌≤◌, ◌++◌, ℕ, List, None, IfSome, length, take};
ghost use Rattle.redis_wire.specs.Packed.{crlf};
ghost use Rattle.redis_wire.specs.Place.{text_in, IsSpan};
ghost use Rattle.redis_wire.specs.Reply.{answer, refused};
ghost use Rattle.redis_c.specs.Told.{IsAnswered, IsError, IsOther};

use crate::outcome::Outcome;
use redis_wire::place::Span;
use redis_wire::{Decoded, Limits, Reply, WireError, decode};
use std::alloc::Global;

/// The place of the text of an error in the bytes of a reply of this length: two bytes, CR and LF, follow it.
fn find_error_text(bytes: &[u8], len: usize, text: &[u8]) -> Option<Span>
    ensures is { IfSome result (λ span. text_in bytes.now span ≡ text.now) }
    ensures within { IfSome result (λ span. IsSpan bytes.now span) }
    ensures found { result ≡ None → len ≤ length bytes.now → (front : List ℕ)
        → take len bytes.now ≡ front ++ (text.now ++ crlf) → ⊥ }
{
    let start = len.checked_sub(2)?.checked_sub(text.len())?;
    let there = bytes.get(start..start + text.len())?;
    if there != text {
        return None;
    }
    Some(Span {
        start,
        len: text.len(),
    })
}

/// The outcome for an error of the server with this text.
pub fn error_at(bytes: &[u8], len: usize, text: &[u8]) -> Outcome
    requires { IsAnswered bytes.now len (refused text.now) }
    ensures { IsError bytes.now result }
{
    match find_error_text(bytes, len, text) {
        Some(text) => Outcome::ServerError { len, text },
        None => Outcome::OtherShape { len },
    }
}

/// The outcome for a decoded reply.
fn classify_reply(bytes: &[u8], len: usize, reply: Reply) -> Outcome
    requires { IsAnswered bytes.now len (answer reply) }
    ensures { IsOther bytes.now result }
{
    match reply {
        Reply::Error(error) => error_at(bytes, len, &error.text),
        _ => Outcome::OtherShape { len },
    }
}

/// The outcome for bytes in which no entries were located.
pub fn other(alloc: Global, bytes: &[u8]) -> Outcome
    ensures { IsOther bytes.now result }
{
    match decode(alloc, bytes, Limits::default()) {
        Ok(Decoded::Complete { reply, len }) => classify_reply(bytes, len, reply),
        Ok(Decoded::Incomplete) => Outcome::Incomplete,
        Err(WireError::Memory) => Outcome::Memory,
        Err(WireError::Fault(fault)) => Outcome::Fault(fault),
    }
}
