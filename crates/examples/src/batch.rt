//! The orders of a batch of entries, and the entries that are not orders.
ghost use Rattle.std.specs.Prelude.{◌≡◌, ◌<◌, map, flat_map, length, IfOk, OnErr, string_bytes};
ghost use Rattle.redis.specs.Words.{entry_meaning};
ghost use Rattle.examples.specs.Order.{order_meaning, order_in, strange_in};

use crate::order::Order;
use redis::streams::StreamId;
use std::alloc::{AllocError, Global};

/// The orders of a batch, and the ids of its other entries.
#[derive(Debug, Drop)]
pub struct Batch {
    /// The orders, in the order of their entries.
    pub orders: Vec<Order>,
    /// The ids of the entries that are not orders, in order.
    pub strange: Vec<String>,
}

/// Splits the entries into orders and the ids of the other entries, both in order. Fails only if memory runs
/// out. Allocates nothing if there are no entries.
pub fn sort_out(alloc: Global, entries: &[StreamId]) -> Result<Batch, AllocError>
    ensures orders { IfOk result (λ b. map order_meaning b.orders.items
        ≡ flat_map order_in (map entry_meaning entries.now)) }
    ensures strange { IfOk result (λ b. map string_bytes b.strange.items
        ≡ flat_map strange_in (map entry_meaning entries.now)) }
    ensures memory { OnErr result (0 < length entries.now) }
{
    let mut orders = Vec::new(alloc);
    let mut strange = Vec::new(alloc);
    for entry in entries {
        match Order::of_fields(alloc, &entry.map)? {
            Some(order) => orders.push(order)?,
            None => strange.push(entry.id.clone()?)?,
        }
    }
    Ok(Batch { orders, strange })
}
