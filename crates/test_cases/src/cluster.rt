//! Cases of Redis Cluster: slots, errors, partitions, and replies with slots.
//!
//! ```text
//! slot             {user1000}.following           3443
//! slot-of-hex      ff00                           1023
//! error            MOVED 3999 127.0.0.1:6381      moved slot 3999 host 127.0.0.1 port 6381: connect
//! partition        12 user1000                    3
//! partition-name   3 orders                       orders:{3} slot 1584
//! slots            42 2a310d0a2a330d0a..          10.0.0.1:6379 | 0-99 master 10.0.0.1:6379
//! shards           42 2a310d0a25320d0a..          none | 0-9 50-99 master 10.0.0.1:6379
//! ```
//!
//! The stored slots of the first two kinds are those that redis-server returned; partitions are those of
//! another implementation of the checksum. The last two kinds have a slot and a reply in hex digits: the
//! outcome is the master of the slot, and each shard. Most of their replies came from redis-server.

ghost use Rattle.std.specs.Prelude.{IfOk, IsSome, IsTrue};
ghost use Rattle.test_cases.specs.Kinds.{is_cluster};

use anyhow::Result;
use hex::FromHexError;
use redis_client::cluster::{
    ClusterError, NextStep, cluster_error, key_slot, partition_of, push_partition_name,
};
use redis_client::topology::{Node, Role, Shard, Topology, TopologyError};
use redis_resp::Value;
use redis_wire::{Decoded, Limits, Reply, decode};
use std::alloc::{AllocError, Global};
use std::num::NonZeroU16;
use std::str;

/// Runs a case of this module. Returns its outcome, or `None` if its kind is another.
pub fn run_case(alloc: Global, kind: &str, input: &str) -> Result<Option<String>>
    ensures { IfOk result (λ o. IsSome o → IsTrue (is_cluster kind.now)) }
{
    match kind {
        "slot" | "slot-of-hex" | "error" | "partition" | "partition-name" | "slots" | "shards" => {
            Ok(Some(run_kind(alloc, kind, input)?))
        }
        _ => Ok(None),
    }
}

/// Returns the outcome of a case of one of these kinds.
fn run_kind(alloc: Global, kind: &str, input: &str) -> Result<String> {
    match kind {
        "slot" => format_slot(alloc, input.as_bytes()),
        "slot-of-hex" => format_slot_of_hex(alloc, input),
        "error" => format_error(alloc, input),
        "partition" => format_partition(alloc, input),
        "partition-name" => format_partition_name(alloc, input),
        "slots" => read_topology(alloc, Asked::Slots, input),
        _ => read_topology(alloc, Asked::Shards, input),
    }
}

/// Returns the slot of a key.
fn format_slot(alloc: Global, key: &[u8]) -> Result<String> {
    let slot = key_slot(key);
    Ok(format!(in alloc; "{slot}")?)
}

/// Returns the slot of a key in hex digits.
fn format_slot_of_hex(alloc: Global, input: &str) -> Result<String> {
    match hex::decode(alloc, input) {
        Ok(key) => format_slot(alloc, &key),
        Err(FromHexError::OutOfMemory) => Err(AllocError.into()),
        Err(_error) => Ok(String::from_str(alloc, "no hex digits")?),
    }
}

/// Returns the fields of an error, and the next step after it.
fn format_error(alloc: Global, text: &str) -> Result<String> {
    let Some(error) = cluster_error(text.as_bytes()) else {
        return Ok(String::from_str(alloc, "none of these")?);
    };
    let step = to_word(error.next_step());
    match error {
        ClusterError::Moved { slot, host, port } => {
            format_redirection(alloc, "moved", slot, host, port, step)
        }
        ClusterError::Ask { slot, host, port } => format_redirection(
            alloc, "ask", slot, host, port, step,
        ),
        ClusterError::TryAgain => Ok(format!(in alloc; "try again: {step}")?),
        ClusterError::ClusterDown => Ok(format!(in alloc; "cluster down: {step}")?),
        ClusterError::Loading => Ok(format!(in alloc; "loading: {step}")?),
        ClusterError::MasterDown => Ok(format!(in alloc; "master down: {step}")?),
        ClusterError::ReadOnly => Ok(format!(in alloc; "read only: {step}")?),
        ClusterError::NoReplicas => Ok(format!(in alloc; "no replicas: {step}")?),
    }
}

/// Returns the fields of a redirection, MOVED or ASK, and the next step after it.
fn format_redirection(
    alloc: Global,
    word: &str,
    slot: u16,
    host: &[u8],
    port: u16,
    step: &str,
) -> Result<String> {
    let host = str::from_utf8(host).unwrap_or("of other bytes");
    Ok(format!(in alloc; "{word} slot {slot} host {host} port {port}: {step}")?)
}

/// Returns a step in words.
fn to_word(step: NextStep) -> &'static str {
    match step {
        NextStep::Connect => "connect",
        NextStep::AskOnce => "ask once",
        NextStep::Wait => "wait",
        NextStep::GiveUp => "give up",
    }
}

/// Parses the number before the first space of a text. Returns it and the rest.
fn split_number(input: &str) -> Option<(u16, &str)> {
    let (number, rest) = input.split_once(' ')?;
    let number = number.parse::<u16>().ok()?;
    Some((number, rest))
}

/// Returns the partition of a key. The input is the number of partitions, a space and the key.
fn format_partition(alloc: Global, input: &str) -> Result<String> {
    match split_number(input) {
        Some((number, key)) => match NonZeroU16::new(number) {
            Some(number) => {
                let partition = partition_of(key.as_bytes(), number);
                Ok(format!(in alloc; "{partition}")?)
            }
            None => Ok(String::from_str(alloc, "no partitions")?),
        },
        None => Ok(String::from_str(alloc, "no number")?),
    }
}

/// Returns the key of a partition of a stream, and its slot. The input is the partition, a space and the key of the
/// stream.
fn format_partition_name(alloc: Global, input: &str) -> Result<String> {
    match split_number(input) {
        Some((partition, name)) => {
            let mut key = Vec::new(alloc);
            push_partition_name(&mut key, name.as_bytes(), partition)?;
            let slot = key_slot(&key);
            let key = str::from_utf8(&key).unwrap_or("other bytes");
            Ok(format!(in alloc; "{key} slot {slot}")?)
        }
        None => Ok(String::from_str(alloc, "no number")?),
    }
}

/// The command that the reply belongs to.
#[derive(Clone, Copy)]
enum Asked {
    Slots,
    Shards,
}

/// Returns the master of a slot, and the shards, from a reply in hex digits. The input is the slot, a space and the
/// digits.
fn read_topology(alloc: Global, asked: Asked, input: &str) -> Result<String> {
    let Some((slot, digits)) = input.split_once(' ') else {
        return Ok(String::from_str(alloc, "no slot")?);
    };
    let Ok(slot) = slot.parse::<u16>() else {
        return Ok(String::from_str(alloc, "no slot")?);
    };
    let Some(value) = decode_hex(alloc, digits)? else {
        return Ok(String::from_str(alloc, "no value")?);
    };
    let topology = match asked {
        Asked::Slots => Topology::from_slots(alloc, value),
        Asked::Shards => Topology::from_shards(alloc, value),
    };
    match topology {
        Ok(topology) => format_topology(alloc, &topology, slot),
        Err(TopologyError::Memory) => Err(AllocError.into()),
        Err(error) => Ok(format!(in alloc; "{error}")?),
    }
}

/// Decodes a reply in hex digits as a value. Returns `None` for other digits, for a reply that ends early, and for
/// one that is not a `Reply::Value`.
fn decode_hex(alloc: Global, digits: &str) -> Result<Option<Value>> {
    let bytes = match hex::decode(alloc, digits) {
        Ok(bytes) => bytes,
        Err(FromHexError::OutOfMemory) => return Err(AllocError.into()),
        Err(_error) => return Ok(None),
    };
    match decode(alloc, &bytes, Limits::default())? {
        Decoded::Complete {
            reply: Reply::Value(value),
            ..
        } => Ok(Some(value)),
        _ => Ok(None),
    }
}

/// Returns the master of the slot, and the shards, as text.
fn format_topology(alloc: Global, topology: &Topology, slot: u16) -> Result<String> {
    let mut text = match topology.master_of(slot) {
        Some(node) => format_node(alloc, node)?,
        None => String::from_str(alloc, "none")?,
    };
    for shard in &topology.shards {
        text.push_str(" |")?;
        push_shard(alloc, &mut text, shard)?;
    }
    Ok(text)
}

/// Appends the ranges and the nodes of a shard.
fn push_shard(alloc: Global, text: &mut String, shard: &Shard) -> Result<()> {
    for range in &shard.ranges {
        let (first, last) = (range.first, range.last);
        text.push_str(format!(in alloc; " {first}-{last}")?.as_str())?;
    }
    for node in &shard.nodes {
        text.push_str(match node.role {
            Role::Master => " master ",
            Role::Replica => " replica ",
        })?;
        text.push_str(format_node(alloc, node)?.as_str())?;
    }
    Ok(())
}

/// Returns the host and the port of a node.
fn format_node(alloc: Global, node: &Node) -> Result<String> {
    let host = node.host.as_str();
    let port = node.port;
    Ok(format!(in alloc; "{host}:{port}")?)
}
