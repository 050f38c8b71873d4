//! Commands of a worker, packed into a buffer of the caller.
ghost use Rattle.std.specs.Prelude.{◌≡◌, ◌∷◌, [], IfOk};
ghost use Rattle.stream_commands.specs.WholeCommands.{read_list};
ghost use Rattle.redis_c.specs.Packing.{IsPacking, IsPackedAs};
ghost use Rattle.redis_c.specs.Commands.{reading_of, read_of, read_parts, ack_args, autoclaim_args};
ghost use Rattle.redis_c.specs.Commands.{pending_args, trim_args};

use crate::argument::Argument;
use crate::packing::{Packing, write_command};
use std::alloc::{AllocError, Global};
use stream_commands::{AtLeastOne, xack, xautoclaim_count, xpending_count, xread_options, xtrim};
use stream_options::{StreamMaxlen, StreamReadOptions};

/// The settings of a read of a group.
#[repr(C)]
#[derive(Clone, Copy, Debug, PartialEq, Eq)]
pub struct ReadSettings {
    /// Whether at most `count` entries are read.
    pub has_count: bool,
    /// Whether the read blocks until there are entries.
    pub has_block: bool,
    /// Whether the entries that are read need no acknowledgement.
    pub noack: bool,
    /// Whether entries that are idle for `claim` milliseconds are claimed and read first.
    pub has_claim: bool,
    /// The limit on entries.
    pub count: usize,
    /// The number of milliseconds that it blocks; 0 is no limit.
    pub block: usize,
    /// In milliseconds.
    pub claim: usize,
}

/// The settings of BLOCK, COUNT, NOACK and CLAIM.
pub fn build_read_options(settings: &ReadSettings) -> StreamReadOptions
    ensures { result ≡ reading_of settings.now }
{
    let mut options = StreamReadOptions::default();
    if settings.has_count {
        options = options.count(settings.count);
    }
    if settings.has_block {
        options = options.block(settings.block);
    }
    options
}

/// The settings of a read for this consumer of this group.
pub fn build_group_options(
    alloc: Global,
    settings: &ReadSettings,
    group: &[u8],
    consumer: &[u8],
) -> Result<StreamReadOptions, AllocError>
    ensures { IfOk result (λ options. options ≡ read_of settings.now group.now consumer.now) }
{
    let mut options = build_read_options(settings);
    if settings.noack {
        options = options.noack();
    }
    if settings.has_claim {
        options = options.claim(settings.claim);
    }
    options.group(alloc, Argument(group), Argument(consumer))
}

/// Packs XREADGROUP of one stream.
fn write_group_read(
    alloc: Global,
    settings: &ReadSettings,
    group: &[u8],
    consumer: &[u8],
    key: &[u8],
    id: &[u8],
    out: &mut [u8],
) -> Packing
    ensures { IsPacking (read_list (read_parts settings.now group.now consumer.now key.now id.now))
        out.new result }
{
    match build_group_options(alloc, settings, group, consumer) {
        Ok(options) => write_command(
            alloc,
            &xread_options(AtLeastOne::one(&(Argument(key), Argument(id))), &options),
            out,
        ),
        Err(_) => Packing::Memory,
    }
}

/// Packs `XREADGROUP GROUP group consumer [BLOCK n] [COUNT n] [NOACK] [CLAIM n] STREAMS key id`.
#[unsafe(no_mangle)]
pub extern "C" fn redis_xreadgroup(
    alloc: Global,
    settings: &ReadSettings,
    group: &[u8],
    consumer: &[u8],
    key: &[u8],
    id: &[u8],
    out: &mut [u8],
    len: &mut usize,
) -> u32
    ensures { IsPackedAs (IsPacking (read_list
        (read_parts settings.now group.now consumer.now key.now id.now)) out.new) result len.new }
{
    write_group_read(alloc, settings, group, consumer, key, id, out).tell(len)
}

/// Packs `XACK key group id`.
#[unsafe(no_mangle)]
pub extern "C" fn redis_xack(
    alloc: Global,
    key: &[u8],
    group: &[u8],
    id: &[u8],
    out: &mut [u8],
    len: &mut usize,
) -> u32
    ensures { IsPackedAs (IsPacking (ack_args key.now group.now (id.now ∷ [])) out.new) result len.new }
{
    let id = Argument(id);
    let command = xack(Argument(key), Argument(group), AtLeastOne::one(&id));
    write_command(alloc, &command, out).tell(len)
}

/// Packs `XAUTOCLAIM key group consumer min-idle start COUNT count`.
#[unsafe(no_mangle)]
pub extern "C" fn redis_xautoclaim(
    alloc: Global,
    key: &[u8],
    group: &[u8],
    consumer: &[u8],
    min_idle: usize,
    start: &[u8],
    count: usize,
    out: &mut [u8],
    len: &mut usize,
) -> u32
    ensures { IsPackedAs (IsPacking
        (autoclaim_args key.now group.now consumer.now min_idle start.now count) out.new) result len.new }
{
    let command = xautoclaim_count(
        Argument(key),
        Argument(group),
        Argument(consumer),
        min_idle,
        Argument(start),
        count,
    );
    write_command(alloc, &command, out).tell(len)
}

/// Packs `XPENDING key group start end count`.
#[unsafe(no_mangle)]
pub extern "C" fn redis_xpending(
    alloc: Global,
    key: &[u8],
    group: &[u8],
    start: &[u8],
    end: &[u8],
    count: usize,
    out: &mut [u8],
    len: &mut usize,
) -> u32
    ensures { IsPackedAs (IsPacking (pending_args key.now group.now start.now end.now count) out.new)
        result len.new }
{
    let command = xpending_count(
        Argument(key),
        Argument(group),
        Argument(start),
        Argument(end),
        count,
    );
    write_command(alloc, &command, out).tell(len)
}

/// Packs `XTRIM key MAXLEN = n`, or with `~` instead of `=`, if more entries may remain.
#[unsafe(no_mangle)]
pub extern "C" fn redis_xtrim(
    alloc: Global,
    key: &[u8],
    approximate: bool,
    maxlen: usize,
    out: &mut [u8],
    len: &mut usize,
) -> u32
    ensures { IsPackedAs (IsPacking (trim_args key.now approximate maxlen) out.new) result len.new }
{
    let most = if approximate {
        StreamMaxlen::Approx(maxlen)
    } else {
        StreamMaxlen::Equals(maxlen)
    };
    write_command(alloc, &xtrim(Argument(key), most), out).tell(len)
}
