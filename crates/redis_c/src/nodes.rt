//! Any reply, located in place, as a flat list of its values, in a table of the caller.
ghost use Rattle.std.specs.Prelude.{◌≡◌, length};
ghost use Rattle.redis_wire.specs.Limits.{default_limits};
ghost use Rattle.redis_wire.specs.Nodes.{Finds};
ghost use Rattle.redis_c.specs.Nodes.{AreNodesTold, HasTooFew, TellsNodes, nodes_code, nodes_count, nodes_len};

use crate::code;
use crate::outcome::code_of_fault;
use redis_wire::{Found, Limits, Node, WireError, find_nodes};
use std::alloc::Global;

/// The status code of the outcome.
fn get_code(found: &Result<Found, WireError>) -> u32
    ensures { result ≡ nodes_code found.now }
{
    match found {
        Ok(Found::Whole { .. }) => code::OK,
        Ok(Found::NoRoom { .. }) => code::ROOM,
        Ok(Found::Incomplete) => code::INCOMPLETE,
        Err(WireError::Memory) => code::MEMORY,
        Err(WireError::Fault(fault)) => code_of_fault(*fault),
    }
}

/// The number of bytes of the reply, and 0 if there is none.
fn count_bytes(found: &Result<Found, WireError>) -> usize
    ensures { result ≡ nodes_len found.now }
{
    match found {
        Ok(Found::Whole { len, .. }) | Ok(Found::NoRoom { len }) => *len,
        Ok(Found::Incomplete) | Err(_) => 0,
    }
}

/// The number of nodes; or an upper bound, if the table has no room for them.
fn count_nodes(found: &Result<Found, WireError>) -> usize
    ensures { result ≡ nodes_count found.now }
{
    match found {
        Ok(Found::Whole { count, .. }) => *count,
        Ok(Found::NoRoom { len }) => *len / 3,
        Ok(Found::Incomplete) | Err(_) => 0,
    }
}

/// Parses the values at the head of bytes into this table.
fn parse_nodes(alloc: Global, bytes: &[u8], nodes: &mut [Node]) -> Result<Found, WireError>
    ensures is { Finds default_limits bytes.now nodes.new result }
    ensures few { HasTooFew (length nodes.new) result }
{
    match find_nodes(alloc, Limits::default(), bytes, nodes) {
        Ok(Found::Whole { len, count }) => Ok(Found::Whole { len, count }),
        Ok(Found::NoRoom { len }) => {
            if nodes.len() < len / 3 {
                Ok(Found::NoRoom { len })
            } else {
                // No value has fewer than three bytes, so such a table is large enough.
                Err(WireError::Memory)
            }
        }
        Ok(Found::Incomplete) => Ok(Found::Incomplete),
        Err(e) => Err(e),
    }
}

/// Finds the places of the values of the reply at the head of bytes, each before its members.
#[unsafe(no_mangle)]
pub extern "C" fn redis_find_nodes(
    alloc: Global,
    bytes: &[u8],
    nodes: &mut [Node],
    len: &mut usize,
    count: &mut usize,
) -> u32
    ensures are { AreNodesTold bytes.now nodes.new result len.new count.new }
    ensures tells { TellsNodes bytes.now result len.new }
{
    let found = parse_nodes(alloc, bytes, nodes);
    *len = count_bytes(&found);
    *count = count_nodes(&found);
    get_code(&found)
}
