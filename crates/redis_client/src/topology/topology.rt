//! The master of each slot.
ghost use Rattle.std.specs.Prelude.{◌≡◌, IfOk, IfErr, Some, map, option_map};
ghost use Rattle.std.specs.List.{find};
ghost use Rattle.redis_resp.specs.Value.{tree};
ghost use Rattle.redis_client.specs.Topology.Cause.{IsRefused};
ghost use Rattle.redis_client.specs.Topology.Topology.{Fits, ranges_in, slots_reading, shards_reading};
ghost use Rattle.redis_client.specs.Topology.Topology.{contains, has_slot, is_known_master, master_of};
ghost use Rattle.redis_client.specs.Topology.TopologyMeaning.{node_meaning, shard_meaning, shards_of};

use crate::topology::check::check_shards;
use crate::topology::error::TopologyError;
use crate::topology::node::{Node, Role};
use crate::topology::range::SlotRange;
use crate::topology::row::read_slots;
use crate::topology::shard::Shard;
use redis_resp::{Value, from_redis_value};
use std::alloc::Global;

/// The nodes that serve each slot, by a reply of a node.
#[derive(Debug, Drop)]
pub struct Topology {
    /// The shards, in the order of the reply.
    pub shards: Vec<Shard>,
}

impl Topology {
    /// Parses a reply to CLUSTER SLOTS: a shard for each row.
    pub fn from_slots(alloc: Global, value: Value) -> Result<Topology, TopologyError>
        ensures ok { IfOk result (λ t. slots_reading (tree value) ≡ Some (shards_of t)) }
        ensures fits { IfOk result (λ t. Fits (ranges_in (shards_of t))) }
        ensures err { IfErr result (IsRefused (slots_reading (tree value))) }
    {
        let shards = read_slots(alloc, value)?;
        check_shards(alloc, &shards)?;
        Ok(Topology { shards })
    }

    /// Parses a reply to CLUSTER SHARDS.
    pub fn from_shards(alloc: Global, value: Value) -> Result<Topology, TopologyError>
        ensures ok { IfOk result (λ t. shards_reading (tree value) ≡ Some (shards_of t)) }
        ensures fits { IfOk result (λ t. Fits (ranges_in (shards_of t))) }
        ensures err { IfErr result (IsRefused (shards_reading (tree value))) }
    {
        let shards: Vec<Shard> = from_redis_value(alloc, value)?;
        check_shards(alloc, &shards)?;
        Ok(Topology { shards })
    }

    /// The master of the slot. `None` if no shard has the slot, or if its master has no known host or
    /// port.
    pub fn master_of(&self, slot: u16) -> Option<&Node>
        ensures { option_map (λ n. node_meaning n.now) result ≡ master_of (shards_of self.now) slot }
    {
        let shard = find_shard(&self.shards, slot)?;
        find_known_master(&shard.nodes)
    }
}

/// The first of the shards that has the slot.
fn find_shard(shards: &[Shard], slot: u16) -> Option<&Shard>
    ensures { option_map (λ s. shard_meaning s.now) result
        ≡ find (λ s. has_slot s slot) (map shard_meaning shards.now) }
{
    let mut left = shards;
    while let Some((shard, others)) = left.split_first() {
        if shard.has_slot(slot) {
            return Some(shard);
        }
        left = others;
    }
    None
}

/// The first of the nodes that is a master whose host and port are known.
fn find_known_master(nodes: &[Node]) -> Option<&Node>
    ensures { option_map (λ n. node_meaning n.now) result
        ≡ find is_known_master (map node_meaning nodes.now) }
{
    let mut left = nodes;
    while let Some((node, others)) = left.split_first() {
        if node.is_known_master() {
            return Some(node);
        }
        left = others;
    }
    None
}

impl SlotRange {
    /// Whether the slot is in the range.
    pub fn contains(&self, slot: u16) -> bool
        ensures { result ≡ contains self.now slot }
    {
        self.first <= slot && slot <= self.last
    }
}

impl Shard {
    /// Whether the slot is in one of the ranges.
    pub fn has_slot(&self, slot: u16) -> bool
        ensures { result ≡ has_slot (shard_meaning self.now) slot }
    {
        self.ranges.iter().any(|range| range.contains(slot))
    }
}

impl Node {
    /// Whether it is a master whose host and port are known.
    pub fn is_known_master(&self) -> bool
        ensures { result ≡ is_known_master (node_meaning self.now) }
    {
        self.role == Role::Master && self.port > 0 && self.host.as_str() != "?"
    }
}
