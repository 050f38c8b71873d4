//! The figures of a stream, its groups and their consumers, computed from a reply to `XINFO STREAM FULL`.
ghost use Rattle.std.specs.Prelude.{◌≡◌, map, option_and_then, IfOk};
ghost use Rattle.redis_resp.specs.Number.{unsigned_of, within};
ghost use Rattle.redis_streams.specs.InfoFullMeaning.{full_consumer_meaning, full_group_meaning};
ghost use Rattle.redis_streams.specs.InfoFullMeaning.{full_meaning, full_pending_meaning};
ghost use Rattle.stream_top.specs.Figures.{age_in, consumer_figures, consumer_meaning, group_figures};
ghost use Rattle.stream_top.specs.Figures.{group_meaning, most_in, stream_figures, stream_meaning, time_in};

use redis_streams::{
    StreamInfoFullConsumer, StreamInfoFullGroup, StreamInfoFullPending, StreamInfoFullReply,
};
use std::alloc::{AllocError, Global};

/// The figures of a stream.
#[derive(Drop)]
pub struct StreamFigures {
    /// The key of the stream.
    pub key: String,
    /// The number of entries.
    pub length: usize,
    /// The last generated id. Empty if the stream does not exist.
    pub last_id: String,
    /// The milliseconds of the last generated id.
    pub last_time: Option<usize>,
    /// The figures of the groups.
    pub groups: Vec<GroupFigures>,
}

/// The figures of a group.
#[derive(Drop)]
pub struct GroupFigures {
    /// The name of the group.
    pub name: String,
    /// The number of entries that the group has not read yet, if the server knows it.
    pub lag: Option<usize>,
    /// The number of pending entries.
    pub pending: usize,
    /// The id of the last delivered entry.
    pub last_id: String,
    /// The milliseconds of the last delivered id.
    pub last_time: Option<usize>,
    /// The milliseconds since the time in the first pending entry's id. `None` if no entry is pending.
    pub oldest_pending: Option<usize>,
    /// The largest delivery count of the pending entries, or 0 if no entry is pending.
    pub deliveries: usize,
    /// The figures of the consumers.
    pub consumers: Vec<ConsumerFigures>,
}

/// The figures of a consumer.
#[derive(Drop)]
pub struct ConsumerFigures {
    /// The name of the consumer.
    pub name: String,
    /// The number of entries that are pending for the consumer.
    pub pending: usize,
    /// The milliseconds since the consumer was last seen.
    pub idle: usize,
}

/// Returns the figures of a stream. `now` is the time of the server's clock in milliseconds.
pub fn figures_of(
    alloc: Global,
    key: &str,
    stream: &StreamInfoFullReply,
    now: usize,
) -> Result<StreamFigures, AllocError>
    ensures { IfOk result (λ f. stream_meaning f ≡ stream_figures key.now now (full_meaning stream.now)) }
{
    Ok(StreamFigures {
        key: String::from_str(alloc, key)?,
        length: stream.length,
        last_id: stream.last_generated_id.clone()?,
        last_time: parse_time(&stream.last_generated_id),
        groups: compute_groups(alloc, &stream.groups, now)?,
    })
}

/// Returns the figures of the groups, in order.
fn compute_groups(
    alloc: Global,
    groups: &[StreamInfoFullGroup],
    now: usize,
) -> Result<Vec<GroupFigures>, AllocError>
    ensures { IfOk result (λ list. map group_meaning list.items
        ≡ map (group_figures now) (map full_group_meaning groups.now)) }
{
    let mut list = Vec::new(alloc);
    for group in groups {
        list.push(compute_group(alloc, group, now)?)?;
    }
    Ok(list)
}

/// Returns the figures of a group.
fn compute_group(
    alloc: Global,
    group: &StreamInfoFullGroup,
    now: usize,
) -> Result<GroupFigures, AllocError>
    ensures { IfOk result (λ f. group_meaning f ≡ group_figures now (full_group_meaning group.now)) }
{
    Ok(GroupFigures {
        name: group.name.clone()?,
        lag: group.lag,
        pending: group.pending_count,
        last_id: group.last_delivered_id.clone()?,
        last_time: parse_time(&group.last_delivered_id),
        oldest_pending: compute_first_age(&group.pending, now),
        deliveries: find_most_deliveries(&group.pending),
        consumers: compute_consumers(alloc, &group.consumers, now)?,
    })
}

/// Returns the figures of the consumers, in order.
fn compute_consumers(
    alloc: Global,
    consumers: &[StreamInfoFullConsumer],
    now: usize,
) -> Result<Vec<ConsumerFigures>, AllocError>
    ensures { IfOk result (λ list. map consumer_meaning list.items
        ≡ map (consumer_figures now) (map full_consumer_meaning consumers.now)) }
{
    let mut list = Vec::new(alloc);
    for consumer in consumers {
        list.push(ConsumerFigures {
            name: consumer.name.clone()?,
            pending: consumer.pending_count,
            idle: now.saturating_sub(consumer.seen_time),
        })?;
    }
    Ok(list)
}

/// Returns the largest delivery count of the entries, or 0 if there are none.
fn find_most_deliveries(pending: &[StreamInfoFullPending]) -> usize
    ensures { result ≡ most_in (map full_pending_meaning pending.now) }
{
    let mut most = 0usize;
    for entry in pending {
        most = most.max(entry.times_delivered);
    }
    most
}

/// Returns the milliseconds since the time in the id of the first entry, or `None` if there is no entry.
fn compute_first_age(pending: &[StreamInfoFullPending], now: usize) -> Option<usize>
    ensures { result ≡ age_in now (map full_pending_meaning pending.now) }
{
    match pending {
        [] => None,
        [entry, ..] => Some(now.saturating_sub(parse_time(&entry.id)?)),
    }
}

/// Returns the milliseconds of an id, or `None` if the text does not begin with milliseconds and a hyphen.
fn parse_time(id: &str) -> Option<usize>
    ensures { result ≡ time_in id.now }
{
    let (time, _) = id.split_once('-')?;
    parse_number(time)
}

/// Parses a number of 64 bits.
fn parse_number(text: &str) -> Option<usize>
    ensures { result ≡ option_and_then (within 64) (unsigned_of text.now) }
{
    text.parse().ok()
}
