//! The state of a group as a tool shows it, from one reply to XINFO STREAM FULL.
ghost use Rattle.std.specs.Prelude.{◌≡◌, map, string_bytes, IfOk};
ghost use Rattle.redis_streams.specs.InfoFullMeaning.{full_consumer_meaning, full_group_meaning};
ghost use Rattle.redis_streams.specs.InfoFullMeaning.{full_pending_meaning};
ghost use Rattle.stream_commands.specs.Monitor.GroupState.{dead_in, longest_in, oldest_in, state_meaning, state_of, too_often_in};

use redis_streams::{StreamInfoFullConsumer, StreamInfoFullGroup, StreamInfoFullPending};
use std::alloc::{AllocError, Global};

/// The state of a group for display. Its pending entries are those of the reply: send XINFO with a `COUNT` of 0 for
/// all.
#[derive(Debug, Drop)]
pub struct GroupState {
    /// The number of entries that the group has not read yet, if the server knows it.
    pub lag: Option<usize>,
    /// The number of pending entries.
    pub pending: usize,
    /// The longest time in milliseconds that a pending entry has been idle; `None` if none is
    /// pending.
    pub oldest_idle: Option<usize>,
    /// The ids of the pending entries that were delivered too often, in order.
    pub too_often: Vec<String>,
    /// The names of the dead consumers that have pending entries, in order.
    pub dead: Vec<String>,
}

/// The state of a group at `now`, in milliseconds of the server's clock (TIME). Too often means more
/// than `times` deliveries. A consumer with pending entries is dead once it has not been seen
/// for `silent` milliseconds.
pub fn group_state(
    alloc: Global,
    group: &StreamInfoFullGroup,
    now: usize,
    times: usize,
    silent: usize,
) -> Result<GroupState, AllocError>
    ensures { IfOk result (λ s. state_meaning s
        ≡ state_of now times silent (full_group_meaning group.now)) }
{
    Ok(GroupState {
        lag: group.lag,
        pending: group.pending_count,
        oldest_idle: oldest_idle(&group.pending, now),
        too_often: too_often(alloc, &group.pending, times)?,
        dead: dead_consumers(alloc, &group.consumers, now, silent)?,
    })
}

/// The longest time that a pending entry has been idle. It allocates no memory.
#[tactic(auto, using(crate::proofs::MonitorLemmas::GroupStateLemmas::oldest_none, crate::proofs::MonitorLemmas::GroupStateLemmas::oldest_some))]
fn oldest_idle(pending: &[StreamInfoFullPending], now: usize) -> Option<usize>
    ensures { result ≡ oldest_in now (map full_pending_meaning pending.now) }
{
    if pending.is_empty() {
        return None;
    }
    Some(longest_idle(pending, now))
}

/// The longest time that one of the entries has been idle; 0 if there is none.
fn longest_idle(pending: &[StreamInfoFullPending], now: usize) -> usize
    ensures { result ≡ longest_in now (map full_pending_meaning pending.now) }
{
    let mut longest = 0usize;
    for entry in pending {
        longest = longest.max(now.saturating_sub(entry.delivery_time));
    }
    longest
}

/// The ids of the pending entries that were delivered more than `times` times, in order.
fn too_often(
    alloc: Global,
    pending: &[StreamInfoFullPending],
    times: usize,
) -> Result<Vec<String>, AllocError>
    ensures { IfOk result (λ ids. map string_bytes ids.items
        ≡ too_often_in times (map full_pending_meaning pending.now)) }
{
    let mut ids = Vec::new(alloc);
    for entry in pending {
        if entry.times_delivered > times {
            ids.push(entry.id.clone()?)?;
        }
    }
    Ok(ids)
}

/// The names of the consumers that have pending entries and were not seen for `silent`
/// milliseconds, in order.
fn dead_consumers(
    alloc: Global,
    consumers: &[StreamInfoFullConsumer],
    now: usize,
    silent: usize,
) -> Result<Vec<String>, AllocError>
    ensures { IfOk result (λ names. map string_bytes names.items
        ≡ dead_in now silent (map full_consumer_meaning consumers.now)) }
{
    let mut names = Vec::new(alloc);
    for consumer in consumers {
        let unseen = now.saturating_sub(consumer.seen_time);
        if consumer.pending_count > 0 && unseen >= silent {
            names.push(consumer.name.clone()?)?;
        }
    }
    Ok(names)
}
