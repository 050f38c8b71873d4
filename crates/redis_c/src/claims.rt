//! Entries and ids that XAUTOCLAIM claimed, located in place, in tables of the caller.
ghost use Rattle.std.specs.Prelude.{◌≡◌, ◌+◌, [], ℕ, length};
ghost use Rattle.redis_wire.specs.Limits.{default_limits};
ghost use Rattle.stream_entries.specs.JustId.{JustId};
ghost use Rattle.stream_in_place.specs.Sent.{SentAutoClaim, all_fields};
ghost use Rattle.stream_in_place.specs.Shapes.{BeginsWithAutoClaim, BeginsWithJustId};
ghost use Rattle.redis_c.specs.Outcome.{code, found};
ghost use Rattle.redis_c.specs.Records.{TellsFinding};
ghost use Rattle.redis_c.specs.Told.{IsRoom, IsOutcome, IsTold, room_of, AreHeld, TellsPlaces};
ghost use Rattle.redis_c.specs.Claimed.{AutoClaimIn, JustIdIn, AutoClaimFits, JustIdFits};

use crate::entries::{counts_of, room_of};
use crate::other::other;
use crate::outcome::{Counts, Found, Outcome, wanted};
use redis_wire::Limits;
use std::alloc::Global;
use stream_in_place::{
    AutoClaimPlace, EntryPlace, EntryTables, EntryTape, FieldPlace, find_autoclaim, find_justid,
};

/// The room that the reply of XAUTOCLAIM needs.
fn measure_autoclaim(
    alloc: Global,
    bytes: &[u8],
    room: Counts,
    claim: &mut AutoClaimPlace,
) -> Outcome
    ensures is { IsRoom (AutoClaimIn claim.new) bytes.now room result }
    ensures rows { (most : ℕ) (r : SentAutoClaim) (len : ℕ) → BeginsWithAutoClaim default_limits bytes.now r len
        → TellsPlaces most (length r.claimed + length r.deleted) len (code result) (found result).len
        (found result).entries }
    ensures fields { (most : ℕ) (r : SentAutoClaim) (len : ℕ) → BeginsWithAutoClaim default_limits bytes.now r len
        → TellsPlaces most (length (all_fields r.claimed)) len (code result) (found result).len
        (found result).fields }
{
    let mut tape = EntryTape::new(alloc);
    match find_autoclaim(Limits::default(), bytes, &mut tape) {
        Err(_) => Outcome::Memory,
        Ok(None) => other(alloc, bytes),
        Ok(Some(place)) => {
            *claim = place;
            wanted(place.len, counts_of(&tape), room)
        }
    }
}

/// The room that the reply of XAUTOCLAIM with JUSTID needs.
fn measure_justid(alloc: Global, bytes: &[u8], room: Counts, claim: &mut AutoClaimPlace) -> Outcome
    ensures is { IsRoom (JustIdIn claim.new) bytes.now room result }
    ensures rows { (most : ℕ) (r : JustId) (len : ℕ) → BeginsWithJustId default_limits bytes.now r len
        → TellsPlaces most (length r.claimed + length r.deleted) len (code result) (found result).len
        (found result).entries }
    ensures fields { (most : ℕ) (r : JustId) (len : ℕ) → BeginsWithJustId default_limits bytes.now r len
        → TellsPlaces most 0 len (code result) (found result).len (found result).fields }
{
    let mut tape = EntryTape::new(alloc);
    match find_justid(Limits::default(), bytes, &mut tape) {
        Err(_) => Outcome::Memory,
        Ok(None) => other(alloc, bytes),
        Ok(Some(place)) => {
            *claim = place;
            wanted(place.len, counts_of(&tape), room)
        }
    }
}

/// The places of the entries of an XAUTOCLAIM reply, in tables that have this room.
fn locate_autoclaim(
    alloc: Global,
    bytes: &[u8],
    room: Counts,
    entries: &mut [EntryPlace],
    fields: &mut [FieldPlace],
    claim: &mut AutoClaimPlace,
) -> Outcome
    ensures is { IsOutcome (AutoClaimIn claim.new) bytes.now room [] entries.new fields.new result }
    ensures held { AreHeld [] entries.new fields.new result }
    ensures in_place { AutoClaimFits bytes.now (length entries.old) (length fields.old) → code result ≡ 0 }
    ensures rows { (r : SentAutoClaim) (len : ℕ) → BeginsWithAutoClaim default_limits bytes.now r len
        → TellsPlaces (length entries.old) (length r.claimed + length r.deleted) len (code result) (found result).len
        (found result).entries }
    ensures fields { (r : SentAutoClaim) (len : ℕ) → BeginsWithAutoClaim default_limits bytes.now r len
        → TellsPlaces (length fields.old) (length (all_fields r.claimed)) len (code result) (found result).len
        (found result).fields }
{
    let mut tables = EntryTables::new(&mut [], entries, fields);
    match find_autoclaim(Limits::default(), bytes, &mut tables) {
        Err(_) => measure_autoclaim(alloc, bytes, room, claim),
        Ok(None) => other(alloc, bytes),
        Ok(Some(place)) => {
            *claim = place;
            Outcome::InPlace {
                len: place.len,
                counts: counts_of(&tables),
            }
        }
    }
}

/// The places of the ids of an XAUTOCLAIM reply with JUSTID.
fn locate_justid(
    alloc: Global,
    bytes: &[u8],
    room: Counts,
    entries: &mut [EntryPlace],
    claim: &mut AutoClaimPlace,
) -> Outcome
    ensures is { IsOutcome (JustIdIn claim.new) bytes.now room [] entries.new [] result }
    ensures held { AreHeld [] entries.new [] result }
    ensures in_place { JustIdFits bytes.now (length entries.old) → code result ≡ 0 }
    ensures rows { (r : JustId) (len : ℕ) → BeginsWithJustId default_limits bytes.now r len
        → TellsPlaces (length entries.old) (length r.claimed + length r.deleted) len (code result) (found result).len
        (found result).entries }
    ensures fields { (r : JustId) (len : ℕ) → BeginsWithJustId default_limits bytes.now r len
        → TellsPlaces 0 0 len (code result) (found result).len (found result).fields }
{
    let mut tables = EntryTables::new(&mut [], entries, &mut []);
    match find_justid(Limits::default(), bytes, &mut tables) {
        Err(_) => measure_justid(alloc, bytes, room, claim),
        Ok(None) => other(alloc, bytes),
        Ok(Some(place)) => {
            *claim = place;
            Outcome::InPlace {
                len: place.len,
                counts: counts_of(&tables),
            }
        }
    }
}

/// Finds the places of the entries of the XAUTOCLAIM reply at the head of bytes, and after them the deleted
/// ids.
#[unsafe(no_mangle)]
pub extern "C" fn redis_find_autoclaim(
    alloc: Global,
    bytes: &[u8],
    entries: &mut [EntryPlace],
    fields: &mut [FieldPlace],
    claim: &mut AutoClaimPlace,
    found: &mut Found,
) -> u32
    ensures told { IsTold (AutoClaimIn claim.new) bytes.now (room_of 0 (length entries.old) (length fields.old))
        [] entries.new fields.new result found.new }
    ensures in_place { AutoClaimFits bytes.now (length entries.old) (length fields.old) → result ≡ 0 }
    ensures rows { (r : SentAutoClaim) (len : ℕ) → BeginsWithAutoClaim default_limits bytes.now r len
        → TellsPlaces (length entries.old) (length r.claimed + length r.deleted) len result found.new.len
        found.new.entries }
    ensures fields { (r : SentAutoClaim) (len : ℕ) → BeginsWithAutoClaim default_limits bytes.now r len
        → TellsPlaces (length fields.old) (length (all_fields r.claimed)) len result found.new.len
        found.new.fields }
    ensures tells { TellsFinding bytes.now result }
{
    let room = room_of(0, entries.len(), fields.len());
    locate_autoclaim(alloc, bytes, room, entries, fields, claim).tell(found)
}

/// Finds the places of the ids of the XAUTOCLAIM reply with JUSTID at the head of bytes, and after them the
/// deleted ids.
#[unsafe(no_mangle)]
pub extern "C" fn redis_find_justid(
    alloc: Global,
    bytes: &[u8],
    entries: &mut [EntryPlace],
    claim: &mut AutoClaimPlace,
    found: &mut Found,
) -> u32
    ensures told { IsTold (JustIdIn claim.new) bytes.now (room_of 0 (length entries.old) 0)
        [] entries.new [] result found.new }
    ensures in_place { JustIdFits bytes.now (length entries.old) → result ≡ 0 }
    ensures rows { (r : JustId) (len : ℕ) → BeginsWithJustId default_limits bytes.now r len
        → TellsPlaces (length entries.old) (length r.claimed + length r.deleted) len result found.new.len
        found.new.entries }
    ensures fields { (r : JustId) (len : ℕ) → BeginsWithJustId default_limits bytes.now r len
        → TellsPlaces 0 0 len result found.new.len found.new.fields }
    ensures tells { TellsFinding bytes.now result }
{
    let room = room_of(0, entries.len(), 0);
    locate_justid(alloc, bytes, room, entries, claim).tell(found)
}
