//! Shards: nodes with the same slots.
ghost use Rattle.std.specs.Prelude.{◌≡◌, IfOk, IfErr, Some, ⊤};
ghost use Rattle.redis_resp.specs.Refusal.{Refuses};
ghost use Rattle.redis_client.specs.Topology.Topology as maths;
ghost use Rattle.redis_client.specs.Topology.Topology.{shard_reading};
ghost use Rattle.redis_client.specs.Topology.TopologyMeaning.{shard_meaning};

use crate::topology::node::Node;
use crate::topology::range::{Ranges, SlotRange};
use redis_resp::{FromRedisValue, ParsingError, Source, Value, field_of};
use std::alloc::Global;
use std::collections::HashMap;

/// Slots, and the nodes that serve them.
#[derive(Debug, Drop)]
pub struct Shard {
    /// The slots.
    pub ranges: Vec<SlotRange>,
    /// The nodes, in the order of the reply.
    pub nodes: Vec<Node>,
}

/// The shard of a map of CLUSTER SHARDS.
fn read_shard<S: Source>(alloc: Global, v: S) -> Result<Shard, ParsingError>
    ensures ok { IfOk result (λ r. shard_reading (S.seen v) ≡ Some (shard_meaning r)) }
    ensures err { IfErr result (Refuses shard_reading (λ _ _. ⊤) (S.seen v)) }
{
    let fields: HashMap<String, Value> = v.read(alloc)?;
    let Some(ranges) = field_of::<Ranges>(alloc, &fields, "slots")? else {
        return Err(ParsingError::NotPairs);
    };
    let Some(nodes) = field_of::<Vec<Node>>(alloc, &fields, "nodes")? else {
        return Err(ParsingError::NotList);
    };
    Ok(Shard {
        ranges: ranges.0,
        nodes,
    })
}

/// Parsed from a shard of CLUSTER SHARDS, by the names of its fields.
impl FromRedisValue for Shard {
    ghost Meaning = { maths.Shard };

    ghost meaning = { shard_meaning };

    ghost reading = { shard_reading };

    fn from_redis_value(alloc: Global, v: Value) -> Result<Shard, ParsingError> {
        read_shard(alloc, v)
    }

    fn from_redis_value_ref(alloc: Global, v: &Value) -> Result<Shard, ParsingError> {
        read_shard(alloc, v)
    }
}
