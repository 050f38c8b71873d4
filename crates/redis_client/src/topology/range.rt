//! Ranges of slots.
ghost use Rattle.std.specs.Prelude.{◌≡◌, IfOk, IfErr, List, Some, ⊤};
ghost use Rattle.redis_resp.specs.Reading.{traverse};
ghost use Rattle.redis_resp.specs.Refusal.{Refuses};
ghost use Rattle.redis_resp.specs.Source.{all_left};
ghost use Rattle.redis_client.specs.declared.topology.range.SlotRange as declared;
ghost use Rattle.redis_client.specs.Topology.Topology.{range_reading, ranges_reading};

use redis_resp::{
    FromRedisValue, PairsLeft, ParsingError, Source, Value, count_left, into_pairs, next_left,
};
use std::alloc::Global;

/// Slots from the first to the last.
#[derive(Clone, Copy, Debug, PartialEq, Eq)]
pub struct SlotRange {
    /// The first slot.
    pub first: u16,
    /// The last slot, which is part of the range.
    pub last: u16,
}

/// The range of two numbers.
pub(crate) fn read_range<S: Source>(
    alloc: Global,
    first: S,
    last: S,
) -> Result<SlotRange, ParsingError>
    ensures ok { IfOk result (λ r. range_reading (S.seen first, S.seen last) ≡ Some r) }
    ensures err { IfErr result (Refuses range_reading (λ _ _. ⊤) (S.seen first, S.seen last)) }
{
    let first: u16 = first.read(alloc)?;
    let last: u16 = last.read(alloc)?;
    Ok(SlotRange { first, last })
}

/// The ranges of pairs, in order.
#[tactic(auto, using(crate::proofs::TopologyLemmas::ReplyLemmas::stopped))]
fn read_pairs<S: Source>(
    alloc: Global,
    mut left: PairsLeft<S::Values, S::Pairs>,
) -> Result<Vec<SlotRange>, ParsingError>
    ensures ok { IfOk result (λ r. traverse range_reading
        (all_left S.values_left S.pairs_left left) ≡ Some r.items) }
    ensures err { IfErr result (Refuses (traverse range_reading) (λ _ _. ⊤)
        (all_left S.values_left S.pairs_left left)) }
{
    let mut ranges = Vec::with_capacity(alloc, count_left::<S>(&left))?;
    while let Some((first, last)) = next_left::<S>(&mut left) {
        ranges.push(read_range(alloc, first, last)?)?;
    }
    Ok(ranges)
}

/// The ranges of a shard.
#[derive(Drop)]
pub(crate) struct Ranges(pub(crate) Vec<SlotRange>);

/// The ranges of a flat list of first and last slots.
fn read_ranges<S: Source>(alloc: Global, v: S) -> Result<Ranges, ParsingError>
    ensures ok { IfOk result (λ r. ranges_reading (S.seen v) ≡ Some r.0.items) }
    ensures err { IfErr result (Refuses ranges_reading (λ _ _. ⊤) (S.seen v)) }
{
    match into_pairs(v) {
        Some(left) => Ok(Ranges(read_pairs::<S>(alloc, left)?)),
        None => Err(ParsingError::NotPairs),
    }
}

impl FromRedisValue for Ranges {
    ghost Meaning = { List declared.SlotRange };

    ghost meaning = { λ r. r.0.items };

    ghost reading = { ranges_reading };

    fn from_redis_value(alloc: Global, v: Value) -> Result<Ranges, ParsingError> {
        read_ranges(alloc, v)
    }

    fn from_redis_value_ref(alloc: Global, v: &Value) -> Result<Ranges, ParsingError> {
        read_ranges(alloc, v)
    }
}
