//! Commands that inspect a stream, its groups and pending entries, packed into a buffer of the caller.
ghost use Rattle.std.specs.Prelude.{◌≡◌};
ghost use Rattle.redis_c.specs.Packing.{IsPacking, IsPackedAs};
ghost use Rattle.redis_c.specs.Commands.{info_stream_args, info_groups_args, info_consumers_args};
ghost use Rattle.redis_c.specs.Commands.{pending_summary_args};

use crate::argument::Argument;
use crate::packing::write_command;
use std::alloc::Global;
use stream_commands::{xinfo_consumers, xinfo_groups, xinfo_stream, xpending};

/// Packs `XINFO STREAM key`.
#[unsafe(no_mangle)]
pub extern "C" fn redis_xinfo_stream(
    alloc: Global,
    key: &[u8],
    out: &mut [u8],
    len: &mut usize,
) -> u32
    ensures { IsPackedAs (IsPacking (info_stream_args key.now) out.new) result len.new }
{
    write_command(alloc, &xinfo_stream(Argument(key)), out).tell(len)
}

/// Packs `XINFO GROUPS key`.
#[unsafe(no_mangle)]
pub extern "C" fn redis_xinfo_groups(
    alloc: Global,
    key: &[u8],
    out: &mut [u8],
    len: &mut usize,
) -> u32
    ensures { IsPackedAs (IsPacking (info_groups_args key.now) out.new) result len.new }
{
    write_command(alloc, &xinfo_groups(Argument(key)), out).tell(len)
}

/// Packs `XINFO CONSUMERS key group`.
#[unsafe(no_mangle)]
pub extern "C" fn redis_xinfo_consumers(
    alloc: Global,
    key: &[u8],
    group: &[u8],
    out: &mut [u8],
    len: &mut usize,
) -> u32
    ensures { IsPackedAs (IsPacking (info_consumers_args key.now group.now) out.new) result len.new }
{
    let command = xinfo_consumers(Argument(key), Argument(group));
    write_command(alloc, &command, out).tell(len)
}

/// Packs `XPENDING key group`: the number of entries pending for the group, and their consumers.
#[unsafe(no_mangle)]
pub extern "C" fn redis_xpending_summary(
    alloc: Global,
    key: &[u8],
    group: &[u8],
    out: &mut [u8],
    len: &mut usize,
) -> u32
    ensures { IsPackedAs (IsPacking (pending_summary_args key.now group.now) out.new) result len.new }
{
    let command = xpending(Argument(key), Argument(group));
    write_command(alloc, &command, out).tell(len)
}
