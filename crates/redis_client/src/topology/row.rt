//! Rows of CLUSTER SLOTS.
ghost use Rattle.std.specs.Prelude.{◌≡◌, IfOk, IfErr, Some, ⊤, map};
ghost use Rattle.redis_resp.specs.Reading.{traverse};
ghost use Rattle.redis_resp.specs.Refusal.{Refuses};
ghost use Rattle.redis_client.specs.Topology.Topology.{slots_node, nodes_of_members, row_of_members};
ghost use Rattle.redis_client.specs.Topology.Topology.{row_reading, slots_reading};
ghost use Rattle.redis_client.specs.Topology.TopologyMeaning.{node_meaning, shard_meaning};

use crate::topology::node::{Node, Role, read_replica};
use crate::topology::range::read_range;
use crate::topology::shard::Shard;
use redis_resp::{ParsingError, Source};
use std::alloc::Global;

/// The replicas of these members, in order.
#[tactic(auto, using(crate::proofs::TopologyLemmas::ReplyLemmas::stopped))]
fn read_replicas<S: Source>(
    alloc: Global,
    mut members: S::Values,
) -> Result<Vec<Node>, ParsingError>
    ensures ok { IfOk result (λ r. traverse slots_node (S.values_left members)
        ≡ Some (map node_meaning r.items)) }
    ensures err { IfErr result (Refuses (traverse slots_node) (λ _ _. ⊤)
        (S.values_left members)) }
{
    let mut nodes = Vec::with_capacity(alloc, S::count_values(&members))?;
    while let Some(member) = S::next_value(&mut members) {
        nodes.push(read_replica(alloc, member)?)?;
    }
    Ok(nodes)
}

/// The nodes of these members: the first is the master.
fn read_nodes<S: Source>(alloc: Global, mut members: S::Values) -> Result<Vec<Node>, ParsingError>
    ensures ok { IfOk result (λ r. nodes_of_members (S.values_left members)
        ≡ Some (map node_meaning r.items)) }
    ensures err { IfErr result (Refuses nodes_of_members (λ _ _. ⊤) (S.values_left members)) }
{
    let Some(first) = S::next_value(&mut members) else {
        return Ok(Vec::new(alloc));
    };
    let Node { host, port, .. } = read_replica(alloc, first)?;
    let mut nodes = read_replicas::<S>(alloc, members)?;
    let role = Role::Master;
    nodes.insert(0, Node { host, port, role })?;
    Ok(nodes)
}

/// The shard of the members of a row: the first slot, the last, and the nodes.
fn read_members<S: Source>(alloc: Global, mut members: S::Values) -> Result<Shard, ParsingError>
    ensures ok { IfOk result (λ r. row_of_members (S.values_left members)
        ≡ Some (shard_meaning r)) }
    ensures err { IfErr result (Refuses row_of_members (λ _ _. ⊤) (S.values_left members)) }
{
    let first = S::next_value(&mut members).ok_or(ParsingError::NotArray)?;
    let last = S::next_value(&mut members).ok_or(ParsingError::NotArray)?;
    let range = read_range(alloc, first, last)?;
    let nodes = read_nodes::<S>(alloc, members)?;
    Ok(Shard {
        ranges: vec![in alloc; range]?,
        nodes,
    })
}

/// The shard of a row.
fn read_row<S: Source>(alloc: Global, row: S) -> Result<Shard, ParsingError>
    ensures ok { IfOk result (λ r. row_reading (S.seen row) ≡ Some (shard_meaning r)) }
    ensures err { IfErr result (Refuses row_reading (λ _ _. ⊤) (S.seen row)) }
{
    match row.into_plain().into_array() {
        Some(members) => read_members::<S>(alloc, members),
        None => Err(ParsingError::NotArray),
    }
}

/// The shards of rows, in order.
#[tactic(auto, using(crate::proofs::TopologyLemmas::ReplyLemmas::stopped))]
fn read_rows<S: Source>(alloc: Global, mut rows: S::Values) -> Result<Vec<Shard>, ParsingError>
    ensures ok { IfOk result (λ r. traverse row_reading (S.values_left rows)
        ≡ Some (map shard_meaning r.items)) }
    ensures err { IfErr result (Refuses (traverse row_reading) (λ _ _. ⊤)
        (S.values_left rows)) }
{
    let mut shards = Vec::with_capacity(alloc, S::count_values(&rows))?;
    while let Some(row) = S::next_value(&mut rows) {
        shards.push(read_row(alloc, row)?)?;
    }
    Ok(shards)
}

/// The shards of a reply to CLUSTER SLOTS, one for each row.
pub(crate) fn read_slots<S: Source>(alloc: Global, v: S) -> Result<Vec<Shard>, ParsingError>
    ensures ok { IfOk result (λ r. slots_reading (S.seen v) ≡ Some (map shard_meaning r.items)) }
    ensures err { IfErr result (Refuses slots_reading (λ _ _. ⊤) (S.seen v)) }
{
    match v.into_plain().into_array() {
        Some(rows) => read_rows::<S>(alloc, rows),
        None => Err(ParsingError::NotArray),
    }
}
