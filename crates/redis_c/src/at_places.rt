//! Commands over entries and fields at places in bytes of the caller, packed into a buffer of the caller.
ghost use Rattle.std.specs.Prelude.{◌≡◌, Some, map};
ghost use Rattle.redis_c.specs.Packing.{IsPacking, IsPackingOf, IsPackedAs};
ghost use Rattle.redis_c.specs.Placed.{ids_at, fields_at};
ghost use Rattle.redis_c.specs.Commands.{ack_args, add_args, claim_args};

use crate::argument::Argument;
use crate::packing::{Packing, write_command};
use crate::placed::{Unplaced, fields_at, ids_at};
use std::alloc::Global;
use stream_commands::{AtLeastOne, xack, xadd, xclaim};
use stream_in_place::{EntryPlace, FieldPlace};

/// The outcome if the arguments could not be read.
pub fn of_unplaced(unplaced: Unplaced) -> Packing
    ensures memory { unplaced ≡ Unplaced.Memory → result ≡ Packing.Memory }
    ensures outside { unplaced ≡ Unplaced.Outside → result ≡ Packing.Outside }
{
    match unplaced {
        Unplaced::Memory => Packing::Memory,
        Unplaced::Outside => Packing::Outside,
    }
}

/// Packs XACK of the entries at these places.
fn write_ack(
    alloc: Global,
    key: &[u8],
    group: &[u8],
    bytes: &[u8],
    entries: &[EntryPlace],
    out: &mut [u8],
) -> Packing
    ensures { IsPackingOf (ack_args key.now group.now) (ids_at bytes.now entries.now) out.new result }
{
    let ids = match ids_at(alloc, bytes, entries) {
        Ok(ids) => ids,
        Err(unplaced) => return of_unplaced(unplaced),
    };
    match AtLeastOne::new(&ids) {
        Some(ids) => write_command(alloc, &xack(Argument(key), Argument(group), ids), out),
        None => Packing::Nothing,
    }
}

/// Packs `XACK key group id ..` of the entries at these places of the bytes of a reply.
#[unsafe(no_mangle)]
pub extern "C" fn redis_xack_entries(
    alloc: Global,
    key: &[u8],
    group: &[u8],
    bytes: &[u8],
    entries: &[EntryPlace],
    out: &mut [u8],
    len: &mut usize,
) -> u32
    ensures { IsPackedAs (IsPackingOf (ack_args key.now group.now) (ids_at bytes.now entries.now) out.new)
        result len.new }
{
    write_ack(alloc, key, group, bytes, entries, out).tell(len)
}

/// Packs XCLAIM of the entries at these places.
fn write_claim(
    alloc: Global,
    key: &[u8],
    group: &[u8],
    consumer: &[u8],
    min_idle: usize,
    bytes: &[u8],
    entries: &[EntryPlace],
    out: &mut [u8],
) -> Packing
    ensures { IsPackingOf (claim_args key.now group.now consumer.now min_idle)
        (ids_at bytes.now entries.now) out.new result }
{
    let ids = match ids_at(alloc, bytes, entries) {
        Ok(ids) => ids,
        Err(unplaced) => return of_unplaced(unplaced),
    };
    let Some(ids) = AtLeastOne::new(&ids) else {
        return Packing::Nothing;
    };
    let command = xclaim(
        Argument(key),
        Argument(group),
        Argument(consumer),
        min_idle,
        ids,
    );
    write_command(alloc, &command, out)
}

/// Packs `XCLAIM key group consumer min-idle id ..` of the entries at these places of the bytes of a
/// reply.
#[unsafe(no_mangle)]
pub extern "C" fn redis_xclaim_entries(
    alloc: Global,
    key: &[u8],
    group: &[u8],
    consumer: &[u8],
    min_idle: usize,
    bytes: &[u8],
    entries: &[EntryPlace],
    out: &mut [u8],
    len: &mut usize,
) -> u32
    ensures { IsPackedAs (IsPackingOf (claim_args key.now group.now consumer.now min_idle)
        (ids_at bytes.now entries.now) out.new) result len.new }
{
    write_claim(alloc, key, group, consumer, min_idle, bytes, entries, out).tell(len)
}

/// Packs XADD of the fields at these places.
fn write_add(
    alloc: Global,
    key: &[u8],
    id: &[u8],
    bytes: &[u8],
    fields: &[FieldPlace],
    out: &mut [u8],
) -> Packing
    ensures { IsPackingOf (add_args key.now id.now) (fields_at bytes.now fields.now) out.new result }
{
    let fields = match fields_at(alloc, bytes, fields) {
        Ok(fields) => fields,
        Err(unplaced) => return of_unplaced(unplaced),
    };
    match AtLeastOne::new(&fields) {
        Some(fields) => write_command(alloc, &xadd(Argument(key), Argument(id), fields), out),
        None => Packing::Nothing,
    }
}

/// Packs `XADD key id name value ..` of the fields at these places of bytes, such as those of an entry that was
/// read. With `*` as id the server generates one.
#[unsafe(no_mangle)]
pub extern "C" fn redis_xadd_fields(
    alloc: Global,
    key: &[u8],
    id: &[u8],
    bytes: &[u8],
    fields: &[FieldPlace],
    out: &mut [u8],
    len: &mut usize,
) -> u32
    ensures { IsPackedAs (IsPackingOf (add_args key.now id.now) (fields_at bytes.now fields.now) out.new)
        result len.new }
{
    write_add(alloc, key, id, bytes, fields, out).tell(len)
}
