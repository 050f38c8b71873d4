//! The reply to XINFO STREAM.
ghost use Rattle.std.specs.Prelude.{◌≡◌, IfErr, IfOk, None, Some, codes, map, option_and_then, option_map, string_bytes};
ghost use Rattle.redis_resp.specs.Number.{unsigned_of, within};
ghost use Rattle.redis_resp.specs.Value.{tree};
ghost use Rattle.redis_wire.specs.Reply.{answer, value};
ghost use Rattle.worker_producer.specs.Last.{IsUntold, LastIs};
ghost use Rattle.worker_producer.specs.Replies.{last_in, last_of, last_text, no_stream, numbers_in};
ghost use Rattle.worker_producer.specs.Unheard.{IsUnasked};
ghost use Rattle.worker_producer.specs.declared.error.FeedError.TheVariants as causes;

use crate::batch::append_question;
use crate::error::{FeedError, RunError};
use redis_connection::Connection;
use redis_resp::{ParsingError, Value, field_of, from_redis_value};
use redis_wire::{Reply, ServerError};
use std::alloc::{AllocError, Global};
use std::collections::HashMap;
use std::io::{Read, Write};

/// The error of XINFO STREAM if there is no stream.
const NO_STREAM: &[u8] = b"ERR no such key";

/// Reads the last id of the stream `key`, as its two numbers. They are 0 and 0 if there is no stream. So a first run
/// finds the base for records that are added after the stream's entries.
pub fn ask_last_id<R: Read + Drop, W: Write + Drop>(
    alloc: Global,
    connection: &mut Connection<R, W>,
    key: &str,
) -> Result<(u64, u64), RunError>
    ensures ok { IfOk result (LastIs key.now connection.old connection.new) }
    ensures err { IfErr result (IsUntold key.now connection.old connection.new) }
{
    let mut bytes = Vec::new(alloc);
    if let Err(error) = append_question(alloc, &mut bytes, key) {
        return Err(RunError::Request(error.into()));
    }
    if let Err(error) = connection.send_bytes(&bytes) {
        return Err(RunError::Send(error));
    }
    match connection.receive(alloc) {
        Ok(reply) => Ok(read_last_id(alloc, reply)?),
        Err(error) => Err(RunError::Receive(error)),
    }
}

/// The two numbers of the stream's `last-generated-id`; 0 and 0 if there is no stream.
pub fn read_last_id(alloc: Global, reply: Reply) -> Result<(u64, u64), FeedError>
    ensures ok { IfOk result (λ last. last_of (answer reply) ≡ Some last) }
    ensures err { IfErr result (IsUnasked (answer reply)) }
{
    match reply {
        Reply::Value(value) => parse_value(alloc, value),
        Reply::Error(error) => parse_error(error),
        Reply::Group { .. } | Reply::Push { .. } => Err(FeedError::NotAnAnswer),
    }
}

/// Reads the last id out of a value.
fn parse_value(alloc: Global, told: Value) -> Result<(u64, u64), FeedError>
    ensures ok { IfOk result (λ last. last_in (tree told) ≡ Some last) }
    ensures err { IfErr result (IsUnasked (value (tree told))) }
{
    match find_last_id_text(alloc, told)? {
        Some(text) => match parse_id(text.as_str()) {
            Some(last) => Ok(last),
            None => Err(FeedError::NotAnAnswer),
        },
        None => Err(FeedError::NotAnAnswer),
    }
}

/// Reads an error: without the stream the last id is 0-0.
fn parse_error(error: ServerError) -> Result<(u64, u64), FeedError>
    ensures ok { IfOk result (λ last. no_stream error.text.items ≡ Some last) }
    ensures err { IfErr result (λ e. (no_stream error.text.items ≡ None)
        × (e ≡ causes.Server error)) }
{
    if error.text.as_slice() == NO_STREAM {
        Ok((0, 0))
    } else {
        Err(FeedError::Server(error))
    }
}

/// The `last-generated-id` of XINFO STREAM, as text; `None` if the reply has none.
fn find_last_id_text(alloc: Global, told: Value) -> Result<Option<String>, AllocError>
    ensures { IfOk result (λ text. option_map string_bytes text ≡ last_text (tree told)) }
{
    let fields: HashMap<String, Value> = match from_redis_value(alloc, told) {
        Ok(fields) => fields,
        Err(ParsingError::Memory) => return Err(AllocError),
        Err(_) => return Ok(None),
    };
    field_of::<String>(alloc, &fields, "last-generated-id")
}

/// The two numbers of an id; `None` if the text is not two numbers of 64 bits.
fn parse_id(text: &str) -> Option<(u64, u64)>
    ensures { result ≡ numbers_in text.now }
{
    let (first, second) = text.split_once('-')?;
    let first = parse_number(first)?;
    let second = parse_number(second)?;
    Some((first, second))
}

/// Parses a number; `None` if it does not fit 64 bits.
fn parse_number(text: &str) -> Option<u64>
    ensures { result ≡ option_and_then (within 64) (unsigned_of text.now) }
{
    text.parse().ok()
}
