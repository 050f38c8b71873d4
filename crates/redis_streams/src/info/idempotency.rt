//! The reply of XINFO STREAM on a server that tracks idempotent producers.
ghost use Rattle.std.specs.Prelude.{◌≡◌, Some, IsOk, IfOk, IfErr, codes, option_map};
ghost use Rattle.redis_resp.specs.Refusal.{Refuses};
ghost use Rattle.redis_resp.specs.declared.value.error.ParsingError.{ParsingError};
ghost use Rattle.redis_streams.specs.Info.{TrackedStream, empty_tracked, stream_of, tracked_of, tracked_reading};
ghost use Rattle.redis_streams.specs.InfoMeaning.{fields_by_name, tracked_meaning};
ghost use Rattle.redis_streams.specs.InfoRefusal.{RefusesStreamField, RefusesTracked, RefusesTrackedField};

use crate::info::named_fields::{read_named_fields, read_or, take_field};
use crate::info::stream::{StreamInfoStreamReply, read_stream};
use redis_resp::{FromRedisValue, ParsingError, Source, Value};
use std::alloc::{AllocError, Global};
use std::collections::HashMap;

/// The reply of XINFO STREAM with the fields on idempotent producers.
#[derive(Debug, Drop)]
pub struct StreamInfoStreamReplyWithIdempotency {
    /// The fields that every server reports.
    pub base: StreamInfoStreamReply,
    /// The number of seconds that an idempotent id is kept.
    pub idmp_duration: u32,
    /// The maximum number of idempotent ids that are kept for each producer.
    pub idmp_maxsize: u16,
    /// The number of producers that are tracked.
    pub pids_tracked: usize,
    /// The number of idempotent ids that are kept, over all producers.
    pub iids_tracked: usize,
    /// The number of idempotent ids that were added since the stream was created.
    pub iids_added: usize,
    /// The number of entries that were refused as duplicates since the stream was created.
    pub iids_duplicates: usize,
}

impl StreamInfoStreamReplyWithIdempotency {
    /// Returns the empty reply: no id, no counts, empty entries. It allocates no memory
    /// and is always Ok.
    pub fn empty(alloc: Global) -> Result<StreamInfoStreamReplyWithIdempotency, AllocError>
        ensures ok { IsOk result }
        ensures reply { IfOk result (λ r. tracked_meaning r ≡ empty_tracked) }
    {
        Ok(StreamInfoStreamReplyWithIdempotency {
            base: StreamInfoStreamReply::empty(alloc)?,
            idmp_duration: 0,
            idmp_maxsize: 0,
            pids_tracked: 0,
            iids_tracked: 0,
            iids_added: 0,
            iids_duplicates: 0,
        })
    }

    /// Returns a copy of the reply. It fails only if it runs out of memory.
    pub fn try_clone(
        &self,
        alloc: Global,
    ) -> Result<StreamInfoStreamReplyWithIdempotency, AllocError>
        ensures { IfOk result (λ r. tracked_meaning r ≡ tracked_meaning self.now) }
    {
        Ok(StreamInfoStreamReplyWithIdempotency {
            base: self.base.try_clone(alloc)?,
            idmp_duration: self.idmp_duration,
            idmp_maxsize: self.idmp_maxsize,
            pids_tracked: self.pids_tracked,
            iids_tracked: self.iids_tracked,
            iids_added: self.iids_added,
            iids_duplicates: self.iids_duplicates,
        })
    }
}

/// The fields of idempotent producers, each if present.
#[derive(Drop)]
struct ProducerFields<S> {
    idmp_duration: Option<S>,
    idmp_maxsize: Option<S>,
    pids_tracked: Option<S>,
    iids_tracked: Option<S>,
    iids_added: Option<S>,
    iids_duplicates: Option<S>,
}

/// Removes the fields of the producers from the fields.
fn take_producer_fields<S: Source>(fields: &mut HashMap<String, S>) -> ProducerFields<S>
    ensures idmp_duration { option_map S.seen result.idmp_duration
        ≡ fields_by_name S.seen fields.old (codes "idmp-duration") }
    ensures idmp_maxsize { option_map S.seen result.idmp_maxsize
        ≡ fields_by_name S.seen fields.old (codes "idmp-maxsize") }
    ensures pids_tracked { option_map S.seen result.pids_tracked
        ≡ fields_by_name S.seen fields.old (codes "pids-tracked") }
    ensures iids_tracked { option_map S.seen result.iids_tracked
        ≡ fields_by_name S.seen fields.old (codes "iids-tracked") }
    ensures iids_added { option_map S.seen result.iids_added
        ≡ fields_by_name S.seen fields.old (codes "iids-added") }
    ensures iids_duplicates { option_map S.seen result.iids_duplicates
        ≡ fields_by_name S.seen fields.old (codes "iids-duplicates") }
    ensures stream { stream_of (fields_by_name S.seen fields.new)
        ≡ stream_of (fields_by_name S.seen fields.old) }
    ensures refused { (error : ParsingError)
        → RefusesStreamField (fields_by_name S.seen fields.new) error
        → RefusesStreamField (fields_by_name S.seen fields.old) error }
{
    ProducerFields {
        idmp_duration: take_field(fields, "idmp-duration"),
        idmp_maxsize: take_field(fields, "idmp-maxsize"),
        pids_tracked: take_field(fields, "pids-tracked"),
        iids_tracked: take_field(fields, "iids-tracked"),
        iids_added: take_field(fields, "iids-added"),
        iids_duplicates: take_field(fields, "iids-duplicates"),
    }
}

/// Returns the stream and the producers of the fields; other fields are ignored.
fn read_tracked<S: Source>(
    alloc: Global,
    mut fields: HashMap<String, S>,
) -> Result<StreamInfoStreamReplyWithIdempotency, ParsingError>
    ensures ok { IfOk result (λ r. tracked_of (fields_by_name S.seen fields)
        ≡ Some (tracked_meaning r)) }
    ensures err { IfErr result (Refuses tracked_of RefusesTrackedField
        (fields_by_name S.seen fields)) }
{
    let producers = take_producer_fields(&mut fields);
    let idmp_duration = read_or(alloc, producers.idmp_duration, 0)?;
    let idmp_maxsize = read_or(alloc, producers.idmp_maxsize, 0)?;
    let pids_tracked = read_or(alloc, producers.pids_tracked, 0)?;
    let iids_tracked = read_or(alloc, producers.iids_tracked, 0)?;
    let iids_added = read_or(alloc, producers.iids_added, 0)?;
    let iids_duplicates = read_or(alloc, producers.iids_duplicates, 0)?;
    let base = read_stream(alloc, fields)?;
    Ok(StreamInfoStreamReplyWithIdempotency {
        base,
        idmp_duration,
        idmp_maxsize,
        pids_tracked,
        iids_tracked,
        iids_added,
        iids_duplicates,
    })
}

/// Reads the stream and the producers of a value.
fn read_reply<S: Source>(
    alloc: Global,
    v: S,
) -> Result<StreamInfoStreamReplyWithIdempotency, ParsingError>
    ensures ok { IfOk result (λ r. tracked_reading (S.seen v) ≡ Some (tracked_meaning r)) }
    ensures err { IfErr result (Refuses tracked_reading RefusesTracked (S.seen v)) }
{
    let fields = read_named_fields(alloc, v)?;
    read_tracked(alloc, fields)
}

/// Read from fields by name; the last of equal names counts. Returns `NotPairs` if the value has no
/// pairs. Otherwise returns the error of a key read as a text, or of one of the fields.
impl FromRedisValue for StreamInfoStreamReplyWithIdempotency {
    ghost Meaning = { TrackedStream };

    ghost meaning = { tracked_meaning };

    ghost reading = { tracked_reading };

    ghost may_refuse = { RefusesTracked };

    fn from_redis_value(
        alloc: Global,
        v: Value,
    ) -> Result<StreamInfoStreamReplyWithIdempotency, ParsingError> {
        read_reply(alloc, v)
    }

    fn from_redis_value_ref(
        alloc: Global,
        v: &Value,
    ) -> Result<StreamInfoStreamReplyWithIdempotency, ParsingError> {
        read_reply(alloc, v)
    }
}
