//! Claims pending entries of other consumers with XAUTOCLAIM, from `0-0` on until the reply has `0-0`.
ghost use Rattle.std.specs.Prelude.{◌≡◌, ◌≢◌, [], ◌∷◌, Option, Some, None, codes, decimal, map};
ghost use Rattle.std.specs.Prelude.{option_map, string_bytes, IfOk, IfErr};
ghost use Rattle.redis.specs.Words.{autoclaim_reading, tree};
ghost use Rattle.examples.specs.Stalled.{Claimed, claimed_of};

use crate::worker::ids_of_entries;
use redis::streams::{StreamAutoClaimOptions, StreamAutoClaimReply};
use redis::{ParsingError, ToRedisArgs, Value, from_redis_value};
use std::alloc::{AllocError, Global};

/// Returns `XAUTOCLAIM key group consumer idle start COUNT n`. `idle` is in milliseconds.
pub fn claim_arguments(
    alloc: Global,
    key: &str,
    group: &str,
    consumer: &str,
    idle: usize,
    start: &str,
    count: usize,
) -> Result<Vec<Vec<u8>>, AllocError>
    ensures { IfOk result (λ list. map (λ arg. arg.items) list.items ≡
        codes "XAUTOCLAIM" ∷ key.now ∷ group.now ∷ consumer.now ∷ decimal idle ∷ start.now
        ∷ codes "COUNT" ∷ decimal count ∷ []) }
{
    let options = StreamAutoClaimOptions::default().count(count);
    ("XAUTOCLAIM", key, group, consumer, idle, (start, &options)).to_redis_args(alloc)
}

/// The entries that one claim returned.
#[derive(Debug, Drop)]
pub struct Stalled {
    /// The ids of the claimed entries, in order.
    pub ids: Vec<String>,
    /// The `start` of the next claim. `None` if all pending entries were scanned.
    pub next: Option<String>,
}

/// Decodes the reply to XAUTOCLAIM. Returns an error if the value is not such a reply.
pub fn stalled_in(alloc: Global, answer: Value) -> Result<Stalled, ParsingError>
    ensures ok { IfOk result (λ s. option_map claimed_of (autoclaim_reading (tree answer))
        ≡ Some (map string_bytes s.ids.items, option_map string_bytes s.next)) }
    ensures err { IfErr result (λ e. e ≢ ParsingError.Memory
        → autoclaim_reading (tree answer) ≡ None) }
{
    let reply: StreamAutoClaimReply = from_redis_value(alloc, answer)?;
    let ids = ids_of_entries(alloc, &reply.claimed)?;
    let next = if reply.next_stream_id.as_str() == "0-0" {
        None
    } else {
        Some(reply.next_stream_id)
    };
    Ok(Stalled { ids, next })
}
