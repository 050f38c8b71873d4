//! Decodes the bytes that a server sends to a record, in RESP2 and in RESP3.
ghost use Rattle.std.specs.Prelude.{◌≡◌, ◌≢◌, List, Some, None, IfOk, IfErr};
ghost use Rattle.redis.specs.Words.{Answer, ReadAlike, Tree, map_of_pairs, pairs, read_reading};
ghost use Rattle.redis.specs.Words.{rows_of_two, streams_of, value};
ghost use Rattle.examples.specs.Wire.{BeginsWith, Answers, Tells, NamesCause};

use redis::streams::StreamReadReply;
use redis::wire::{Decoded, Fault, Limits, ReplyError, ServerError, WireError, decode, from_reply};
use redis::{ParsingError, laws};
use std::alloc::Global;
use thiserror::Error;

/// Why the bytes are not decoded to streams.
#[derive(Debug, Drop, Error)]
pub enum AnswerError {
    /// The bytes end before the reply does.
    #[error("the reply has not come whole")]
    Incomplete,
    /// The bytes are not a reply.
    #[error("{0}")]
    Fault(Fault),
    /// The server returned an error.
    #[error("an error of the server")]
    Server(ServerError),
    /// The reply is a push message, or its only errors are inside attributes.
    #[error("the reply is not of this command")]
    NotAnAnswer,
    /// The reply is not a reply to XREADGROUP.
    #[error("{0}")]
    Parsing(ParsingError),
    /// Out of memory. This says nothing about the bytes.
    #[error("out of memory")]
    Memory,
}

/// Returns the streams of the reply at the start of these bytes, in RESP2 or in RESP3.
pub fn streams_answered(alloc: Global, bytes: &[u8]) -> Result<StreamReadReply, AnswerError>
    ensures answer { (a : Answer) → BeginsWith bytes.now a → Answers a result }
    ensures head { Tells bytes.now result }
    ensures cause { IfErr result (NamesCause bytes.now) }
{
    match decode(alloc, bytes, Limits::default()) {
        Ok(Decoded::Complete { reply, .. }) => match from_reply(alloc, reply) {
            Ok(streams) => Ok(streams),
            Err(ReplyError::Server(error)) => Err(AnswerError::Server(error)),
            Err(ReplyError::NotAnAnswer) => Err(AnswerError::NotAnAnswer),
            Err(ReplyError::Parsing(ParsingError::Memory)) => Err(AnswerError::Memory),
            Err(ReplyError::Parsing(error)) => Err(AnswerError::Parsing(error)),
        },
        Ok(Decoded::Incomplete) => Err(AnswerError::Incomplete),
        Err(WireError::Memory) => Err(AnswerError::Memory),
        Err(WireError::Fault(fault)) => Err(AnswerError::Fault(fault)),
    }
}

/// Returns the streams of two replies. If the replies have the same meaning, one in RESP2 and one in RESP3,
/// their streams are equal. If one of them is not a reply to XREADGROUP, neither is the other.
pub fn streams_of_both(
    alloc: Global,
    resp2: &[u8],
    resp3: &[u8],
) -> Result<(StreamReadReply, StreamReadReply), AnswerError>
    ensures first { (v : Tree) → BeginsWith resp2.now (value v) → IfOk result (λ r.
        read_reading v ≡ Some (streams_of r.0.keys)) }
    ensures second { (w : Tree) → BeginsWith resp3.now (value w) → IfOk result (λ r.
        read_reading w ≡ Some (streams_of r.1.keys)) }
    ensures same { (v w : Tree) → BeginsWith resp2.now (value v) → BeginsWith resp3.now (value w)
        → ReadAlike v w → IfOk result (λ r. streams_of r.0.keys ≡ streams_of r.1.keys) }
    // RESP2 has an array of a name and its entries for each stream. RESP3 has a map from the names to the
    // entries.
    ensures protocols { (streams : List (Tree × Tree))
        → BeginsWith resp2.now (value (rows_of_two streams))
        → BeginsWith resp3.now (value (map_of_pairs (pairs streams)))
        → IfOk result (λ r. streams_of r.0.keys ≡ streams_of r.1.keys) }
    ensures refused { (v w : Tree) → BeginsWith resp2.now (value v)
        → BeginsWith resp3.now (value w) → ReadAlike v w → IfErr result (λ e.
        e ≢ AnswerError.Memory → (read_reading v ≡ None) × (read_reading w ≡ None)) }
{
    laws::respell_read();
    let first = streams_answered(alloc, resp2)?;
    let second = streams_answered(alloc, resp3)?;
    Ok((first, second))
}
