//! The reply of XREAD and XREADGROUP.
ghost use Rattle.std.specs.Prelude.{◌≡◌, ◌≢◌, ◌⊎◌, [], Some, None, IsOk, IfOk, IfErr};
ghost use Rattle.std.specs.Option.{option_or};
ghost use Rattle.redis_resp.specs.Refusal.{Refuses};
ghost use Rattle.stream_entries.specs.InFormsMeaning.{streams_held};
ghost use Rattle.stream_entries.specs.Read.{Streams, read_reading};
ghost use Rattle.stream_entries.specs.ReadMeaning.{streams_of};
ghost use Rattle.stream_entries.specs.Refusal.{RefusesRead};

use crate::items_left::{count_items, into_items};
use crate::overlap::Form;
use crate::stream_key::StreamKey;
use crate::streams::{OpenStreams, read_streams};
use redis_resp::{FromRedisValue, ParsingError, Source, Value};
use std::alloc::{AllocError, Global};

/// The streams of a reply of XREAD or XREADGROUP, in order.
#[derive(Debug, Drop)]
pub struct StreamReadReply {
    /// The streams that have entries, in order. There are none if the reply is nil.
    pub keys: Vec<StreamKey>,
}

impl StreamReadReply {
    /// Creates an empty reply. It allocates nothing and is always Ok.
    pub fn empty(alloc: Global) -> Result<StreamReadReply, AllocError>
        ensures ok { IsOk result }
        ensures streams { IfOk result (λ r. streams_of r.keys ≡ []) }
    {
        Ok(StreamReadReply {
            keys: Vec::new(alloc),
        })
    }

    /// Copies the reply. It fails only if it is out of memory.
    pub fn try_clone(&self, alloc: Global) -> Result<StreamReadReply, AllocError>
        ensures { IfOk result (λ r. streams_of r.keys ≡ streams_of self.now.keys) }
    {
        let mut keys = Vec::with_capacity(alloc, self.keys.len())?;
        for key in &self.keys {
            keys.push(key.try_clone(alloc)?)?;
        }
        Ok(StreamReadReply { keys })
    }
}

/// Parses a list of rows, in the standard form or else in the claim form. Each item of its lists is a row of ids
/// and fields, or in the claim form an id, fields and the two numbers of its delivery. One form holds for the whole
/// value, and the error is `UnknownReadFormat` if it has neither. A value that is not a list is refused without
/// allocating, and a list of no rows allocates nothing.
impl FromRedisValue for StreamReadReply {
    ghost Meaning = { Streams };

    ghost meaning = { λ r. streams_of r.keys };

    ghost reading = { read_reading };

    ghost may_refuse = { RefusesRead };

    fn from_redis_value(alloc: Global, v: Value) -> Result<StreamReadReply, ParsingError> {
        read_reply(alloc, v)
    }

    fn from_redis_value_ref(alloc: Global, v: &Value) -> Result<StreamReadReply, ParsingError> {
        read_reply(alloc, v)
    }
}

/// Reads the streams of a value in the standard form, else in the claim form. Each list is read in both
/// forms, until one of its items has ruled a form out.
#[tactic(auto, using(crate::proofs::StreamsLemmas::reply_read, crate::proofs::StreamsLemmas::no_reply, crate::proofs::StreamsLemmas::no_rows))]
fn read_reply<S: Source>(alloc: Global, v: S) -> Result<StreamReadReply, ParsingError>
    ensures ok { IfOk result (λ r. read_reading (S.seen v) ≡ Some (streams_of r.keys)) }
    ensures err { IfErr result (Refuses read_reading RefusesRead (S.seen v)) }
{
    let Some(rows) = into_items(v) else {
        return Err(ParsingError::UnknownReadFormat);
    };
    if count_items::<S>(&rows) == 0 {
        return Ok(StreamReadReply {
            keys: Vec::new(alloc),
        });
    }
    match read_streams::<S>(alloc, rows) {
        Ok(streams) => make_reply(alloc, streams),
        Err(error) => Err(convert_error(error)),
    }
}

/// The error of a read reply, from the error of a part. Out of memory stays as it is. Any other
/// error means that the value has neither form.
fn convert_error(error: ParsingError) -> ParsingError
    ensures { ((error ≡ ParsingError.Memory) × (result ≡ ParsingError.Memory))
        ⊎ ((error ≢ ParsingError.Memory) × (result ≡ ParsingError.UnknownReadFormat)) }
{
    match error {
        ParsingError::Memory => ParsingError::Memory,
        _ => ParsingError::UnknownReadFormat,
    }
}

/// Returns the reply in the standard form if all lists have it, else in the claim
/// form.
fn make_reply(alloc: Global, streams: OpenStreams) -> Result<StreamReadReply, ParsingError>
    ensures ok { IfOk result (λ r. option_or (streams_held streams).0 (streams_held streams).1
        ≡ Some (streams_of r.keys)) }
    ensures err { IfErr result (λ e. (e ≡ ParsingError.Memory)
        ⊎ ((e ≡ ParsingError.UnknownReadFormat)
        × (option_or (streams_held streams).0 (streams_held streams).1 ≡ None))) }
{
    if streams.forms.standard {
        let keys = streams.into_form(alloc, Form::Standard)?;
        return Ok(StreamReadReply { keys });
    }
    if streams.forms.claim {
        let keys = streams.into_form(alloc, Form::Claim)?;
        return Ok(StreamReadReply { keys });
    }
    Err(ParsingError::UnknownReadFormat)
}
