//! A consumer in the reply of XINFO STREAM FULL.
ghost use Rattle.std.specs.Prelude.{◌≡◌, Some, IsOk, IfOk, IfErr, codes, map, option_map};
ghost use Rattle.redis_resp.specs.Refusal.{Refuses};
ghost use Rattle.redis_streams.specs.InfoFull.{FullConsumer, empty_full_consumer};
ghost use Rattle.redis_streams.specs.InfoFull.{full_consumer_of, full_consumer_reading};
ghost use Rattle.redis_streams.specs.InfoFullMeaning.{full_consumer_meaning};
ghost use Rattle.redis_streams.specs.InfoFullRefusal.{RefusesFullConsumer};
ghost use Rattle.redis_streams.specs.InfoFullRefusal.{RefusesFullConsumerField};
ghost use Rattle.redis_streams.specs.InfoMeaning.{fields_by_name};

use crate::info::full::pending::{StreamInfoConsumerPending, copy_own_pending};
use crate::info::full::time_or_nil::TimeOrNil;
use crate::info::named_fields::{read_named_fields, read_or, take_field};
use redis_resp::{FromRedisValue, ParsingError, Source, Value};
use std::alloc::{AllocError, Global};
use std::collections::HashMap;

/// A consumer of a group with the entries that are pending for it.
#[derive(Debug, Drop)]
pub struct StreamInfoFullConsumer {
    /// The name of the consumer.
    pub name: String,
    /// When it was seen last (`seen-time`), in milliseconds of Unix time.
    pub seen_time: usize,
    /// When an entry was last delivered to it or acknowledged by it (`active-time`), in milliseconds of
    /// Unix time, or -1 if never; `None` if the server does not report it, before version 7.2.
    pub active_time: Option<i64>,
    /// The number of entries that are pending for it (`pel-count`).
    pub pending_count: usize,
    /// The entries that are pending for it, at most the requested count.
    pub pending: Vec<StreamInfoConsumerPending>,
}

impl StreamInfoFullConsumer {
    /// Returns the empty consumer. It allocates no memory and is always Ok.
    pub fn empty(alloc: Global) -> Result<StreamInfoFullConsumer, AllocError>
        ensures ok { IsOk result }
        ensures consumer { IfOk result (λ c. full_consumer_meaning c ≡ empty_full_consumer) }
    {
        Ok(StreamInfoFullConsumer {
            name: String::new(alloc),
            seen_time: 0,
            active_time: None,
            pending_count: 0,
            pending: Vec::new(alloc),
        })
    }

    /// Returns a copy of the consumer. It fails only if it runs out of memory.
    pub fn try_clone(&self, alloc: Global) -> Result<StreamInfoFullConsumer, AllocError>
        ensures { IfOk result (λ c. full_consumer_meaning c ≡ full_consumer_meaning self.now) }
    {
        Ok(StreamInfoFullConsumer {
            name: String::from_str(alloc, &self.name)?,
            seen_time: self.seen_time,
            active_time: self.active_time,
            pending_count: self.pending_count,
            pending: copy_own_pending(alloc, &self.pending)?,
        })
    }
}

/// Returns copies of the consumers, in order. It fails only if it runs out of memory.
pub(crate) fn copy_full_consumers(
    alloc: Global,
    consumers: &[StreamInfoFullConsumer],
) -> Result<Vec<StreamInfoFullConsumer>, AllocError>
    ensures { IfOk result (λ r. map full_consumer_meaning r.items
        ≡ map full_consumer_meaning consumers.now) }
{
    let mut copies = Vec::with_capacity(alloc, consumers.len())?;
    for consumer in consumers {
        copies.push(consumer.try_clone(alloc)?)?;
    }
    Ok(copies)
}

/// The fields of a consumer, each if present.
#[derive(Drop)]
struct FullConsumerFields<S> {
    name: Option<S>,
    seen_time: Option<S>,
    active_time: Option<S>,
    pending_count: Option<S>,
    pending: Option<S>,
}

/// Removes the fields of a consumer from the fields.
fn take_full_consumer_fields<S: Source>(fields: &mut HashMap<String, S>) -> FullConsumerFields<S>
    ensures name { option_map S.seen result.name
        ≡ fields_by_name S.seen fields.old (codes "name") }
    ensures seen_time { option_map S.seen result.seen_time
        ≡ fields_by_name S.seen fields.old (codes "seen-time") }
    ensures active_time { option_map S.seen result.active_time
        ≡ fields_by_name S.seen fields.old (codes "active-time") }
    ensures pending_count { option_map S.seen result.pending_count
        ≡ fields_by_name S.seen fields.old (codes "pel-count") }
    ensures pending { option_map S.seen result.pending
        ≡ fields_by_name S.seen fields.old (codes "pending") }
{
    FullConsumerFields {
        name: take_field(fields, "name"),
        seen_time: take_field(fields, "seen-time"),
        active_time: take_field(fields, "active-time"),
        pending_count: take_field(fields, "pel-count"),
        pending: take_field(fields, "pending"),
    }
}

/// Returns the consumer of the fields; other fields are ignored.
fn read_full_consumer<S: Source>(
    alloc: Global,
    mut fields: HashMap<String, S>,
) -> Result<StreamInfoFullConsumer, ParsingError>
    ensures ok { IfOk result (λ r. full_consumer_of (fields_by_name S.seen fields)
        ≡ Some (full_consumer_meaning r)) }
    ensures err { IfErr result (Refuses full_consumer_of RefusesFullConsumerField
        (fields_by_name S.seen fields)) }
{
    let fields = take_full_consumer_fields(&mut fields);
    let name = read_or(alloc, fields.name, String::new(alloc))?;
    let seen_time = read_or(alloc, fields.seen_time, 0)?;
    let active_time = read_or(alloc, fields.active_time, TimeOrNil(None))?;
    let pending_count = read_or(alloc, fields.pending_count, 0)?;
    let pending = read_or(alloc, fields.pending, Vec::new(alloc))?;
    Ok(StreamInfoFullConsumer {
        name,
        seen_time,
        active_time: active_time.0,
        pending_count,
        pending,
    })
}

/// Reads the consumer of a value.
fn read_value<S: Source>(alloc: Global, v: S) -> Result<StreamInfoFullConsumer, ParsingError>
    ensures ok { IfOk result (λ r. full_consumer_reading (S.seen v)
        ≡ Some (full_consumer_meaning r)) }
    ensures err { IfErr result (Refuses full_consumer_reading RefusesFullConsumer (S.seen v)) }
{
    let fields = read_named_fields(alloc, v)?;
    read_full_consumer(alloc, fields)
}

/// Read from fields by name; the last of equal names counts. Returns `NotPairs` if the value has no
/// pairs. Otherwise returns the error of a key read as a text, or of one of the fields.
impl FromRedisValue for StreamInfoFullConsumer {
    ghost Meaning = { FullConsumer };

    ghost meaning = { full_consumer_meaning };

    ghost reading = { full_consumer_reading };

    ghost may_refuse = { RefusesFullConsumer };

    fn from_redis_value(alloc: Global, v: Value) -> Result<StreamInfoFullConsumer, ParsingError> {
        read_value(alloc, v)
    }

    fn from_redis_value_ref(
        alloc: Global,
        v: &Value,
    ) -> Result<StreamInfoFullConsumer, ParsingError> {
        read_value(alloc, v)
    }
}
