//! Commands that create, move and destroy groups, packed into a buffer of the caller.
ghost use Rattle.std.specs.Prelude.{◌≡◌};
ghost use Rattle.redis_c.specs.Packing.{IsPacking, IsPackedAs};
ghost use Rattle.redis_c.specs.Commands.{create_args, setid_args, destroy_args};

use crate::argument::Argument;
use crate::packing::{Packing, write_command};
use std::alloc::Global;
use stream_commands::{xgroup_create, xgroup_create_mkstream, xgroup_destroy, xgroup_setid};

/// Packs XGROUP CREATE.
fn write_create(
    alloc: Global,
    key: &[u8],
    group: &[u8],
    id: &[u8],
    mkstream: bool,
    out: &mut [u8],
) -> Packing
    ensures { IsPacking (create_args key.now group.now id.now mkstream) out.new result }
{
    let (key, group, id) = (Argument(key), Argument(group), Argument(id));
    if mkstream {
        write_command(alloc, &xgroup_create_mkstream(key, group, id), out)
    } else {
        write_command(alloc, &xgroup_create(key, group, id), out)
    }
}

/// Packs `XGROUP CREATE key group id`, with `MKSTREAM` if a missing stream is created.
#[unsafe(no_mangle)]
pub extern "C" fn redis_xgroup_create(
    alloc: Global,
    key: &[u8],
    group: &[u8],
    id: &[u8],
    mkstream: bool,
    out: &mut [u8],
    len: &mut usize,
) -> u32
    ensures { IsPackedAs (IsPacking (create_args key.now group.now id.now mkstream) out.new)
        result len.new }
{
    write_create(alloc, key, group, id, mkstream, out).tell(len)
}

/// Packs `XGROUP SETID key group id`.
#[unsafe(no_mangle)]
pub extern "C" fn redis_xgroup_setid(
    alloc: Global,
    key: &[u8],
    group: &[u8],
    id: &[u8],
    out: &mut [u8],
    len: &mut usize,
) -> u32
    ensures { IsPackedAs (IsPacking (setid_args key.now group.now id.now) out.new) result len.new }
{
    let command = xgroup_setid(Argument(key), Argument(group), Argument(id));
    write_command(alloc, &command, out).tell(len)
}

/// Packs `XGROUP DESTROY key group`.
#[unsafe(no_mangle)]
pub extern "C" fn redis_xgroup_destroy(
    alloc: Global,
    key: &[u8],
    group: &[u8],
    out: &mut [u8],
    len: &mut usize,
) -> u32
    ensures { IsPackedAs (IsPacking (destroy_args key.now group.now) out.new) result len.new }
{
    let command = xgroup_destroy(Argument(key), Argument(group));
    write_command(alloc, &command, out).tell(len)
}
