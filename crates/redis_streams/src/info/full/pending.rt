//! Pending entries in the reply of XINFO STREAM FULL.
ghost use Rattle.std.specs.Prelude.{◌≡◌, Some, IsOk, IfOk, IfErr, map};
ghost use Rattle.redis_resp.specs.Refusal.{Refuses};
ghost use Rattle.redis_streams.specs.InfoFull.{FullPending, OwnPending};
ghost use Rattle.redis_streams.specs.InfoFull.{empty_full_pending, empty_own_pending};
ghost use Rattle.redis_streams.specs.InfoFull.{full_pending_reading, own_pending_reading};
ghost use Rattle.redis_streams.specs.InfoFullMeaning.{full_pending_meaning, own_pending_meaning};
ghost use Rattle.redis_streams.specs.InfoFullRefusal.{RefusesFullPending, RefusesOwnPending};

use redis_resp::{FromRedisValue, ParsingError, Source, Value};
use std::alloc::{AllocError, Global};

/// A pending entry of a group: delivered to a consumer and not yet acknowledged.
#[derive(Debug, Drop)]
pub struct StreamInfoFullPending {
    /// The id of the entry.
    pub id: String,
    /// The name of the consumer that it was delivered to.
    pub consumer: String,
    /// The time of its last delivery, in milliseconds of Unix time.
    pub delivery_time: usize,
    /// The number of times it was delivered.
    pub times_delivered: usize,
}

/// A pending entry of a consumer, in whose list it is.
#[derive(Debug, Drop)]
pub struct StreamInfoConsumerPending {
    /// The id of the entry.
    pub id: String,
    /// The time of its last delivery, in milliseconds of Unix time.
    pub delivery_time: usize,
    /// The number of times it was delivered.
    pub times_delivered: usize,
}

impl StreamInfoFullPending {
    /// Returns the empty pending entry. It allocates no memory and is always Ok.
    pub fn empty(alloc: Global) -> Result<StreamInfoFullPending, AllocError>
        ensures ok { IsOk result }
        ensures entry { IfOk result (λ p. full_pending_meaning p ≡ empty_full_pending) }
    {
        Ok(StreamInfoFullPending {
            id: String::new(alloc),
            consumer: String::new(alloc),
            delivery_time: 0,
            times_delivered: 0,
        })
    }

    /// Returns a copy of the pending entry. It fails only if it runs out of memory.
    pub fn try_clone(&self, alloc: Global) -> Result<StreamInfoFullPending, AllocError>
        ensures { IfOk result (λ p. full_pending_meaning p ≡ full_pending_meaning self.now) }
    {
        Ok(StreamInfoFullPending {
            id: String::from_str(alloc, &self.id)?,
            consumer: String::from_str(alloc, &self.consumer)?,
            delivery_time: self.delivery_time,
            times_delivered: self.times_delivered,
        })
    }
}

impl StreamInfoConsumerPending {
    /// Returns the empty pending entry. It allocates no memory and is always Ok.
    pub fn empty(alloc: Global) -> Result<StreamInfoConsumerPending, AllocError>
        ensures ok { IsOk result }
        ensures entry { IfOk result (λ p. own_pending_meaning p ≡ empty_own_pending) }
    {
        Ok(StreamInfoConsumerPending {
            id: String::new(alloc),
            delivery_time: 0,
            times_delivered: 0,
        })
    }

    /// Returns a copy of the pending entry. It fails only if it runs out of memory.
    pub fn try_clone(&self, alloc: Global) -> Result<StreamInfoConsumerPending, AllocError>
        ensures { IfOk result (λ p. own_pending_meaning p ≡ own_pending_meaning self.now) }
    {
        Ok(StreamInfoConsumerPending {
            id: String::from_str(alloc, &self.id)?,
            delivery_time: self.delivery_time,
            times_delivered: self.times_delivered,
        })
    }
}

/// Returns copies of a group's pending entries, in order. It fails only if it runs out of memory.
pub(crate) fn copy_pending(
    alloc: Global,
    entries: &[StreamInfoFullPending],
) -> Result<Vec<StreamInfoFullPending>, AllocError>
    ensures { IfOk result (λ r. map full_pending_meaning r.items
        ≡ map full_pending_meaning entries.now) }
{
    let mut copies = Vec::with_capacity(alloc, entries.len())?;
    for entry in entries {
        copies.push(entry.try_clone(alloc)?)?;
    }
    Ok(copies)
}

/// Returns copies of a consumer's pending entries, in order. It fails only if it runs out of memory.
pub(crate) fn copy_own_pending(
    alloc: Global,
    entries: &[StreamInfoConsumerPending],
) -> Result<Vec<StreamInfoConsumerPending>, AllocError>
    ensures { IfOk result (λ r. map own_pending_meaning r.items
        ≡ map own_pending_meaning entries.now) }
{
    let mut copies = Vec::with_capacity(alloc, entries.len())?;
    for entry in entries {
        copies.push(entry.try_clone(alloc)?)?;
    }
    Ok(copies)
}

/// Reads the pending entry of a group.
fn read_pending<S: Source>(alloc: Global, v: S) -> Result<StreamInfoFullPending, ParsingError>
    ensures ok { IfOk result (λ p. full_pending_reading (S.seen v)
        ≡ Some (full_pending_meaning p)) }
    ensures err { IfErr result (Refuses full_pending_reading RefusesFullPending (S.seen v)) }
{
    let (id, consumer, delivery_time, times_delivered) = v.read(alloc)?;
    Ok(StreamInfoFullPending {
        id,
        consumer,
        delivery_time,
        times_delivered,
    })
}

/// Reads the pending entry of a consumer.
fn read_own_pending<S: Source>(
    alloc: Global,
    v: S,
) -> Result<StreamInfoConsumerPending, ParsingError>
    ensures ok { IfOk result (λ p. own_pending_reading (S.seen v)
        ≡ Some (own_pending_meaning p)) }
    ensures err { IfErr result (Refuses own_pending_reading RefusesOwnPending (S.seen v)) }
{
    let (id, delivery_time, times_delivered) = v.read(alloc)?;
    Ok(StreamInfoConsumerPending {
        id,
        delivery_time,
        times_delivered,
    })
}

/// Read from an array of exactly four, two texts and two numbers. Returns `NotTuple(4)` for any
/// other value. Otherwise returns the error of one of the four.
impl FromRedisValue for StreamInfoFullPending {
    ghost Meaning = { FullPending };

    ghost meaning = { full_pending_meaning };

    ghost reading = { full_pending_reading };

    ghost may_refuse = { RefusesFullPending };

    fn from_redis_value(alloc: Global, v: Value) -> Result<StreamInfoFullPending, ParsingError> {
        read_pending(alloc, v)
    }

    fn from_redis_value_ref(
        alloc: Global,
        v: &Value,
    ) -> Result<StreamInfoFullPending, ParsingError> {
        read_pending(alloc, v)
    }
}

/// Read from an array of exactly three, a text and two numbers. Returns `NotTuple(3)` for any other
/// value. Otherwise returns the error of one of the three.
impl FromRedisValue for StreamInfoConsumerPending {
    ghost Meaning = { OwnPending };

    ghost meaning = { own_pending_meaning };

    ghost reading = { own_pending_reading };

    ghost may_refuse = { RefusesOwnPending };

    fn from_redis_value(
        alloc: Global,
        v: Value,
    ) -> Result<StreamInfoConsumerPending, ParsingError> {
        read_own_pending(alloc, v)
    }

    fn from_redis_value_ref(
        alloc: Global,
        v: &Value,
    ) -> Result<StreamInfoConsumerPending, ParsingError> {
        read_own_pending(alloc, v)
    }
}
