//! Checks whether ranges can be those of one cluster.
ghost use Rattle.std.specs.Prelude.{◌≡◌, IfOk, IfErr, map, true, false};
ghost use Rattle.std.specs.List.{list_any};
ghost use Rattle.redis_client.specs.Topology.Topology.{ranges_in, is_past, is_reversed, overlap};
ghost use Rattle.redis_client.specs.Topology.Topology.{all_apart, Fits};
ghost use Rattle.redis_client.specs.Topology.Cause.{FitsNot};
ghost use Rattle.redis_client.specs.Topology.TopologyMeaning.{shard_meaning};

use crate::topology::error::TopologyError;
use crate::topology::range::SlotRange;
use crate::topology::shard::Shard;
use std::alloc::{AllocError, Global};

/// Whether a slot of the range is above 16,383.
fn is_past(range: &SlotRange) -> bool
    ensures { result ≡ is_past range.now }
{
    range.first > 16_383 || range.last > 16_383
}

/// Whether the first slot is above the last.
fn is_reversed(range: &SlotRange) -> bool
    ensures { result ≡ is_reversed range.now }
{
    range.first > range.last
}

/// Whether a slot of one of the ranges is above 16,383.
fn has_past(ranges: &[SlotRange]) -> bool
    ensures { result ≡ list_any is_past ranges.now }
{
    ranges.iter().any(|range| is_past(range))
}

/// Whether one of the ranges has its first slot above its last.
fn has_reversed(ranges: &[SlotRange]) -> bool
    ensures { result ≡ list_any is_reversed ranges.now }
{
    ranges.iter().any(|range| is_reversed(range))
}

/// Whether a slot is in both.
fn are_overlapping(one: &SlotRange, other: &SlotRange) -> bool
    ensures { result ≡ overlap one.now other.now }
{
    one.first <= other.last && other.first <= one.last
}

/// Whether the range overlaps one of the others.
fn has_overlap(range: &SlotRange, others: &[SlotRange]) -> bool
    ensures { result ≡ list_any (overlap range.now) others.now }
{
    others.iter().any(|other| are_overlapping(range, other))
}

/// Whether no two of the ranges overlap.
fn are_apart(ranges: &[SlotRange]) -> bool
    ensures { result ≡ all_apart ranges.now }
{
    let mut left = ranges;
    while let Some((range, others)) = left.split_first() {
        if has_overlap(range, others) {
            return false;
        }
        left = others;
    }
    true
}

/// All ranges of the shards, in order.
fn collect_ranges(alloc: Global, shards: &[Shard]) -> Result<Vec<SlotRange>, AllocError>
    ensures { IfOk result (λ r. r.items ≡ ranges_in (map shard_meaning shards.now)) }
{
    let mut ranges = Vec::new(alloc);
    for shard in shards {
        ranges.extend_from_slice(&shard.ranges)?;
    }
    Ok(ranges)
}

/// Refuses ranges that cannot be those of one cluster.
fn check_ranges(ranges: &[SlotRange]) -> Result<(), TopologyError>
    ensures ok { IfOk result (λ _. Fits ranges.now) }
    ensures err { IfErr result (FitsNot ranges.now) }
{
    if has_past(ranges) {
        return Err(TopologyError::SlotPastLast);
    }
    if has_reversed(ranges) {
        return Err(TopologyError::Reversed);
    }
    if are_apart(ranges) {
        Ok(())
    } else {
        Err(TopologyError::Overlap)
    }
}

/// Refuses shards whose ranges cannot be those of one cluster.
pub(crate) fn check_shards(alloc: Global, shards: &[Shard]) -> Result<(), TopologyError>
    ensures ok { IfOk result (λ _. Fits (ranges_in (map shard_meaning shards.now))) }
    ensures err { IfErr result (FitsNot (ranges_in (map shard_meaning shards.now))) }
{
    let ranges = collect_ranges(alloc, shards)?;
    check_ranges(&ranges)
}
