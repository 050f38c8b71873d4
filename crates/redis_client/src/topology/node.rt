//! Nodes of a cluster.
ghost use Rattle.std.specs.Prelude.{◌≡◌, IfOk, IfErr, Some, ⊤, option_map, string_bytes};
ghost use Rattle.redis_resp.specs.FieldsMeaning.{fields_of};
ghost use Rattle.redis_resp.specs.Refusal.{Refuses};
ghost use Rattle.redis_client.specs.Topology.Refusal.{RefusesReplica};
ghost use Rattle.redis_client.specs.Topology.Topology as maths;
ghost use Rattle.redis_client.specs.Topology.Topology.{role_of, slots_node, shards_node, port_in};
ghost use Rattle.redis_client.specs.Topology.TopologyMeaning.{node_meaning};

use redis_resp::{FromRedisValue, ParsingError, Source, Value, field_of};
use std::alloc::{AllocError, Global};
use std::collections::HashMap;

/// The role of a node for the slots of its shard.
#[derive(Clone, Copy, Debug, PartialEq, Eq)]
pub enum Role {
    /// It accepts writes.
    Master,
    /// It replicates the master.
    Replica,
}

/// A node of a cluster.
#[derive(Debug, Drop)]
pub struct Node {
    /// A name or an address. Empty if it is the host of the connection; `?` if the server knows none.
    pub host: String,
    /// The port; 0 if the server knows none.
    pub port: u16,
    /// Its role for the slots.
    pub role: Role,
}

/// Parses a replica in a row of CLUSTER SLOTS: an array of a host, a port, and more.
pub(crate) fn read_replica<S: Source>(alloc: Global, v: S) -> Result<Node, ParsingError>
    ensures ok { IfOk result (λ r. slots_node (S.seen v) ≡ Some (node_meaning r)) }
    ensures err { IfErr result (Refuses slots_node RefusesReplica (S.seen v)) }
{
    let mut parts = v.into_plain().into_array().ok_or(ParsingError::NotArray)?;
    let host = S::next_value(&mut parts).ok_or(ParsingError::NotArray)?;
    let port = S::next_value(&mut parts).ok_or(ParsingError::NotArray)?;
    let host: Option<String> = host.read(alloc)?;
    let port: u16 = port.read(alloc)?;
    Ok(Node {
        host: host.unwrap_or(String::new(alloc)),
        port,
        role: Role::Replica,
    })
}

/// The role of this name.
fn parse_role(name: &str) -> Option<Role>
    ensures { result ≡ role_of name.now }
{
    match name {
        "master" => Some(Role::Master),
        "replica" => Some(Role::Replica),
        _ => None,
    }
}

/// The port of these fields: the one without TLS, if it is present.
fn read_port(alloc: Global, fields: &HashMap<String, Value>) -> Result<Option<u16>, AllocError>
    ensures { IfOk result (λ port. port ≡ port_in (fields_of fields.now)) }
{
    if let Some(port) = field_of::<u16>(alloc, fields, "port")? {
        return Ok(Some(port));
    }
    field_of::<u16>(alloc, fields, "tls-port")
}

/// Parses a node of CLUSTER SHARDS, which is a map.
fn read_node<S: Source>(alloc: Global, v: S) -> Result<Node, ParsingError>
    ensures ok { IfOk result (λ r. shards_node (S.seen v) ≡ Some (node_meaning r)) }
    ensures err { IfErr result (Refuses shards_node (λ _ _. ⊤) (S.seen v)) }
{
    let fields: HashMap<String, Value> = v.read(alloc)?;
    let host: Option<Option<String>> = field_of(alloc, &fields, "endpoint")?;
    let Some(host) = host else {
        return Err(ParsingError::NotText);
    };
    let Some(port) = read_port(alloc, &fields)? else {
        return Err(ParsingError::NotNumber);
    };
    let Some(name) = field_of::<String>(alloc, &fields, "role")? else {
        return Err(ParsingError::NotText);
    };
    let Some(role) = parse_role(&name) else {
        return Err(ParsingError::NotText);
    };
    Ok(Node {
        host: host.unwrap_or(String::new(alloc)),
        port,
        role,
    })
}

/// Parsed from a node of CLUSTER SHARDS, by the names of its fields.
impl FromRedisValue for Node {
    ghost Meaning = { maths.Node };

    ghost meaning = { node_meaning };

    ghost reading = { shards_node };

    fn from_redis_value(alloc: Global, v: Value) -> Result<Node, ParsingError> {
        read_node(alloc, v)
    }

    fn from_redis_value_ref(alloc: Global, v: &Value) -> Result<Node, ParsingError> {
        read_node(alloc, v)
    }
}
