//! XRANGE, XREVRANGE, XLEN and XDEL, packed into a buffer of the caller.
ghost use Rattle.std.specs.Prelude.{◌≡◌, ◌∷◌, [], map};
ghost use Rattle.redis_c.specs.Packing.{IsPacking, IsPackingOf, IsPackedAs};
ghost use Rattle.redis_c.specs.Placed.{ids_at};
ghost use Rattle.redis_c.specs.Commands.{len_args, range_args, range_count_args, revrange_args};
ghost use Rattle.redis_c.specs.Commands.{revrange_count_args, del_args};

use crate::argument::Argument;
use crate::at_places::of_unplaced;
use crate::packing::{Packing, write_command};
use crate::placed::ids_at;
use std::alloc::Global;
use stream_commands::{AtLeastOne, xdel, xlen, xrange, xrange_count, xrevrange, xrevrange_count};
use stream_in_place::EntryPlace;

/// Packs `XLEN key`.
#[unsafe(no_mangle)]
pub extern "C" fn redis_xlen(alloc: Global, key: &[u8], out: &mut [u8], len: &mut usize) -> u32
    ensures { IsPackedAs (IsPacking (len_args key.now) out.new) result len.new }
{
    write_command(alloc, &xlen(Argument(key)), out).tell(len)
}

/// Packs `XRANGE key start end`: all entries from `start` to `end`, both included, in ascending order.
#[unsafe(no_mangle)]
pub extern "C" fn redis_xrange(
    alloc: Global,
    key: &[u8],
    start: &[u8],
    end: &[u8],
    out: &mut [u8],
    len: &mut usize,
) -> u32
    ensures { IsPackedAs (IsPacking (range_args key.now start.now end.now) out.new) result len.new }
{
    write_command(
        alloc,
        &xrange(Argument(key), Argument(start), Argument(end)),
        out,
    )
    .tell(len)
}

/// Packs `XRANGE key start end COUNT count`: at most `count` of these entries.
#[unsafe(no_mangle)]
pub extern "C" fn redis_xrange_count(
    alloc: Global,
    key: &[u8],
    start: &[u8],
    end: &[u8],
    count: usize,
    out: &mut [u8],
    len: &mut usize,
) -> u32
    ensures { IsPackedAs (IsPacking (range_count_args key.now start.now end.now count) out.new) result len.new }
{
    let command = xrange_count(Argument(key), Argument(start), Argument(end), count);
    write_command(alloc, &command, out).tell(len)
}

/// Packs `XREVRANGE key end start`: all entries from `end` back to `start`, both included, in descending
/// order.
#[unsafe(no_mangle)]
pub extern "C" fn redis_xrevrange(
    alloc: Global,
    key: &[u8],
    end: &[u8],
    start: &[u8],
    out: &mut [u8],
    len: &mut usize,
) -> u32
    ensures { IsPackedAs (IsPacking (revrange_args key.now end.now start.now) out.new) result len.new }
{
    write_command(
        alloc,
        &xrevrange(Argument(key), Argument(end), Argument(start)),
        out,
    )
    .tell(len)
}

/// Packs `XREVRANGE key end start COUNT count`: at most `count` of these entries.
#[unsafe(no_mangle)]
pub extern "C" fn redis_xrevrange_count(
    alloc: Global,
    key: &[u8],
    end: &[u8],
    start: &[u8],
    count: usize,
    out: &mut [u8],
    len: &mut usize,
) -> u32
    ensures { IsPackedAs (IsPacking (revrange_count_args key.now end.now start.now count) out.new) result len.new }
{
    let command = xrevrange_count(Argument(key), Argument(end), Argument(start), count);
    write_command(alloc, &command, out).tell(len)
}

/// Packs `XDEL key id`.
#[unsafe(no_mangle)]
pub extern "C" fn redis_xdel(
    alloc: Global,
    key: &[u8],
    id: &[u8],
    out: &mut [u8],
    len: &mut usize,
) -> u32
    ensures { IsPackedAs (IsPacking (del_args key.now (id.now ∷ [])) out.new) result len.new }
{
    let id = Argument(id);
    write_command(alloc, &xdel(Argument(key), AtLeastOne::one(&id)), out).tell(len)
}

/// Packs XDEL of the entries at these places.
fn write_del(
    alloc: Global,
    key: &[u8],
    bytes: &[u8],
    entries: &[EntryPlace],
    out: &mut [u8],
) -> Packing
    ensures { IsPackingOf (del_args key.now) (ids_at bytes.now entries.now) out.new result }
{
    let ids = match ids_at(alloc, bytes, entries) {
        Ok(ids) => ids,
        Err(unplaced) => return of_unplaced(unplaced),
    };
    match AtLeastOne::new(&ids) {
        Some(ids) => write_command(alloc, &xdel(Argument(key), ids), out),
        None => Packing::Nothing,
    }
}

/// Packs `XDEL key id ..` of the entries at these places of the bytes of a reply.
#[unsafe(no_mangle)]
pub extern "C" fn redis_xdel_entries(
    alloc: Global,
    key: &[u8],
    bytes: &[u8],
    entries: &[EntryPlace],
    out: &mut [u8],
    len: &mut usize,
) -> u32
    ensures { IsPackedAs (IsPackingOf (del_args key.now) (ids_at bytes.now entries.now) out.new)
        result len.new }
{
    write_del(alloc, key, bytes, entries, out).tell(len)
}
