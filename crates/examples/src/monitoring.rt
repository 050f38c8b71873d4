//! Reads the replies to XPENDING and XINFO GROUPS.
ghost use Rattle.std.specs.Prelude.{◌≡◌, map, filter, nat_le, string_bytes, IfOk};
ghost use Rattle.redis.specs.Words.{groups_meaning, pending_ids_meaning};
ghost use Rattle.examples.specs.Monitoring.{lag_in};

use redis::streams::{StreamInfoGroupsReply, StreamPendingCountReply};
use std::alloc::{AllocError, Global};

/// Returns the ids of the pending entries that were delivered `limit` times or more, in order.
pub fn delivered_too_often(
    alloc: Global,
    reply: &StreamPendingCountReply,
    limit: usize,
) -> Result<Vec<String>, AllocError>
    ensures { IfOk result (λ ids. map string_bytes ids.items ≡ map (λ p. p.id)
        (filter (λ p. nat_le limit p.times_delivered) (pending_ids_meaning reply.now))) }
{
    let mut ids = Vec::new(alloc);
    for pending in &reply.ids {
        if pending.times_delivered >= limit {
            ids.push(pending.id.clone()?)?;
        }
    }
    Ok(ids)
}

/// Returns how many entries the first group with this name has not read yet, by the reply to XINFO GROUPS.
/// Returns `None` if there is no such group, or if the server does not know the number. Allocates nothing.
pub fn lag_of(reply: &StreamInfoGroupsReply, name: &str) -> Option<usize>
    ensures { result ≡ lag_in name.now (groups_meaning reply.now) }
{
    for group in &reply.groups {
        if group.name.as_str() == name {
            return group.lag;
        }
    }
    None
}
