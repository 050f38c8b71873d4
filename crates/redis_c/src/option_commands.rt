//! Commands with their options, packed into a buffer of the caller.
ghost use Rattle.std.specs.Prelude.{◌≡◌, map};
ghost use Rattle.stream_commands.specs.NonEmpty.{all};
ghost use Rattle.stream_commands.specs.WholeCommands.{read_list};
ghost use Rattle.redis_c.specs.Packing.{IsPacking, IsPackingOf, IsPackingWith, IsPackingBy, IsPackedAs};
ghost use Rattle.redis_c.specs.Placed.{ids_at, fields_at};
ghost use Rattle.redis_c.specs.Settings.{add_in, trim_in, claim_in};
ghost use Rattle.redis_c.specs.Commands.{add_options_args, trim_options_args, claim_options_args};
ghost use Rattle.redis_c.specs.Commands.{autoclaim_options_args, read_streams_args, read_group_args};
ghost use Rattle.redis_c.specs.Commands.{pending_options_args};

use crate::adding::build_add_options;
use crate::argument::Argument;
use crate::at_places::of_unplaced;
use crate::claiming::{build_autoclaim_options, build_claim_options};
use crate::commands::{ReadSettings, build_group_options, build_read_options};
use crate::packing::{Packing, write_command};
use crate::placed::{fields_at, ids_at};
use crate::settings::{
    AddSettings, AutoClaimSettings, ClaimSettings, PendingSettings, TrimSettings, Unset,
};
use crate::trimming::build_trim_options;
use std::alloc::Global;
use stream_commands::{
    AtLeastOne, xadd_options, xautoclaim_justid, xautoclaim_options, xclaim_justid, xclaim_options,
    xpending_consumer_count, xpending_count, xpending_idle_consumer_count, xpending_idle_count,
    xread_options, xtrim_options,
};
use stream_in_place::{EntryPlace, FieldPlace};
use stream_options::{StreamAddOptions, StreamClaimOptions, StreamReadOptions};

/// The outcome if the options could not be read.
fn convert_unset(unset: Unset) -> Packing
    ensures memory { unset ≡ Unset.Memory → result ≡ Packing.Memory }
    ensures refused { unset ≡ Unset.Refused → result ≡ Packing.Refused }
{
    match unset {
        Unset::Memory => Packing::Memory,
        Unset::Refused => Packing::Refused,
    }
}

/// Packs XADD of the fields at these places with these options.
fn write_fields(
    alloc: Global,
    key: &[u8],
    id: &[u8],
    options: &StreamAddOptions,
    bytes: &[u8],
    fields: &[FieldPlace],
    out: &mut [u8],
) -> Packing
    ensures { IsPackingOf (add_options_args key.now id.now options.now) (fields_at bytes.now fields.now)
        out.new result }
{
    let fields = match fields_at(alloc, bytes, fields) {
        Ok(fields) => fields,
        Err(unplaced) => return of_unplaced(unplaced),
    };
    match AtLeastOne::new(&fields) {
        Some(fields) => write_command(
            alloc,
            &xadd_options(Argument(key), Argument(id), fields, options),
            out,
        ),
        None => Packing::Nothing,
    }
}

/// Packs XADD with options.
fn write_add(
    alloc: Global,
    key: &[u8],
    id: &[u8],
    settings: &AddSettings,
    bytes: &[u8],
    fields: &[FieldPlace],
    out: &mut [u8],
) -> Packing
    ensures { IsPackingBy (add_options_args key.now id.now) (add_in bytes.now settings.now)
        (fields_at bytes.now fields.now) out.new result }
{
    match build_add_options(alloc, bytes, settings) {
        Ok(options) => write_fields(alloc, key, id, &options, bytes, fields, out),
        Err(unset) => convert_unset(unset),
    }
}

/// Packs `XADD key [NOMKSTREAM] [KEEPREF|DELREF|ACKED] [IDMP p i|IDMPAUTO p] [MAXLEN|MINID ..] id name value
/// ..` of the fields at these places of bytes, where the texts of the settings are too.
#[unsafe(no_mangle)]
pub extern "C" fn redis_xadd_options(
    alloc: Global,
    key: &[u8],
    id: &[u8],
    settings: &AddSettings,
    bytes: &[u8],
    fields: &[FieldPlace],
    out: &mut [u8],
    len: &mut usize,
) -> u32
    ensures { IsPackedAs (IsPackingBy (add_options_args key.now id.now) (add_in bytes.now settings.now)
        (fields_at bytes.now fields.now) out.new) result len.new }
{
    write_add(alloc, key, id, settings, bytes, fields, out).tell(len)
}

/// Packs XTRIM with options.
fn write_trim(
    alloc: Global,
    key: &[u8],
    settings: &TrimSettings,
    bytes: &[u8],
    out: &mut [u8],
) -> Packing
    ensures { IsPackingWith (trim_options_args key.now) (trim_in bytes.now settings.now) out.new result }
{
    match build_trim_options(alloc, bytes, settings) {
        Ok(options) => write_command(alloc, &xtrim_options(Argument(key), &options), out),
        Err(unset) => convert_unset(unset),
    }
}

/// Packs `XTRIM key MAXLEN|MINID =|~ bound [LIMIT n] [KEEPREF|DELREF|ACKED]`; the id of `MINID` is in these
/// bytes.
#[unsafe(no_mangle)]
pub extern "C" fn redis_xtrim_options(
    alloc: Global,
    key: &[u8],
    settings: &TrimSettings,
    bytes: &[u8],
    out: &mut [u8],
    len: &mut usize,
) -> u32
    ensures { IsPackedAs (IsPackingWith (trim_options_args key.now) (trim_in bytes.now settings.now) out.new)
        result len.new }
{
    write_trim(alloc, key, settings, bytes, out).tell(len)
}

/// Packs XCLAIM of these ids with these options.
fn write_claim_of_ids<'a>(
    alloc: Global,
    key: &[u8],
    group: &[u8],
    consumer: &[u8],
    min_idle: usize,
    options: StreamClaimOptions,
    ids: AtLeastOne<'a, Argument<'a>>,
    out: &mut [u8],
) -> Packing
    ensures { IsPacking (claim_options_args key.now group.now consumer.now min_idle options
        (map (λ id. id.0.now) (all ids.entry))) out.new result }
{
    let (key, group, consumer) = (Argument(key), Argument(group), Argument(consumer));
    if options.has_justid() {
        let command = xclaim_justid(key, group, consumer, min_idle, ids, options);
        return write_command(alloc, &command, out);
    }
    match xclaim_options(key, group, consumer, min_idle, ids, &options) {
        Ok(command) => write_command(alloc, &command, out),
        Err(_) => Packing::Memory,
    }
}

/// Packs XCLAIM of the entries at these places with options.
fn write_claim(
    alloc: Global,
    key: &[u8],
    group: &[u8],
    consumer: &[u8],
    min_idle: usize,
    settings: &ClaimSettings,
    bytes: &[u8],
    entries: &[EntryPlace],
    out: &mut [u8],
) -> Packing
    ensures { IsPackingBy (claim_options_args key.now group.now consumer.now min_idle)
        (claim_in bytes.now settings.now) (ids_at bytes.now entries.now) out.new result }
{
    let options = match build_claim_options(alloc, bytes, settings) {
        Ok(options) => options,
        Err(unset) => return convert_unset(unset),
    };
    let ids = match ids_at(alloc, bytes, entries) {
        Ok(ids) => ids,
        Err(unplaced) => return of_unplaced(unplaced),
    };
    match AtLeastOne::new(&ids) {
        Some(ids) => write_claim_of_ids(alloc, key, group, consumer, min_idle, options, ids, out),
        None => Packing::Nothing,
    }
}

/// Packs `XCLAIM key group consumer min-idle id .. [IDLE n] [TIME n] [RETRYCOUNT n] [FORCE] [JUSTID] [LASTID
/// id]` of the entries at these places of bytes, where the text of the settings is too.
#[unsafe(no_mangle)]
pub extern "C" fn redis_xclaim_options(
    alloc: Global,
    key: &[u8],
    group: &[u8],
    consumer: &[u8],
    min_idle: usize,
    settings: &ClaimSettings,
    bytes: &[u8],
    entries: &[EntryPlace],
    out: &mut [u8],
    len: &mut usize,
) -> u32
    ensures { IsPackedAs (IsPackingBy (claim_options_args key.now group.now consumer.now min_idle)
        (claim_in bytes.now settings.now) (ids_at bytes.now entries.now) out.new) result len.new }
{
    write_claim(
        alloc, key, group, consumer, min_idle, settings, bytes, entries, out,
    )
    .tell(len)
}

/// Packs XAUTOCLAIM with options.
fn write_autoclaim(
    alloc: Global,
    key: &[u8],
    group: &[u8],
    consumer: &[u8],
    min_idle: usize,
    start: &[u8],
    settings: &AutoClaimSettings,
    out: &mut [u8],
) -> Packing
    ensures { IsPacking (autoclaim_options_args key.now group.now consumer.now min_idle start.now settings.now)
        out.new result }
{
    let options = build_autoclaim_options(settings);
    let (key, group, consumer) = (Argument(key), Argument(group), Argument(consumer));
    if options.has_justid() {
        let command = xautoclaim_justid(key, group, consumer, min_idle, Argument(start), options);
        return write_command(alloc, &command, out);
    }
    match xautoclaim_options(key, group, consumer, min_idle, Argument(start), &options) {
        Ok(command) => write_command(alloc, &command, out),
        Err(_) => Packing::Memory,
    }
}

/// Packs `XAUTOCLAIM key group consumer min-idle start [COUNT n] [JUSTID]`.
#[unsafe(no_mangle)]
pub extern "C" fn redis_xautoclaim_options(
    alloc: Global,
    key: &[u8],
    group: &[u8],
    consumer: &[u8],
    min_idle: usize,
    start: &[u8],
    settings: &AutoClaimSettings,
    out: &mut [u8],
    len: &mut usize,
) -> u32
    ensures { IsPackedAs (IsPacking
        (autoclaim_options_args key.now group.now consumer.now min_idle start.now settings.now) out.new)
        result len.new }
{
    write_autoclaim(alloc, key, group, consumer, min_idle, start, settings, out).tell(len)
}

/// Packs a read of the streams at these places with these options.
fn write_streams_read(
    alloc: Global,
    options: &StreamReadOptions,
    bytes: &[u8],
    streams: &[FieldPlace],
    out: &mut [u8],
) -> Packing
    ensures { IsPackingOf (λ streams. read_list (record { options = options.now; streams = streams }))
        (fields_at bytes.now streams.now) out.new result }
{
    let streams = match fields_at(alloc, bytes, streams) {
        Ok(streams) => streams,
        Err(unplaced) => return of_unplaced(unplaced),
    };
    match AtLeastOne::new(&streams) {
        Some(streams) => write_command(alloc, &xread_options(streams, options), out),
        None => Packing::Nothing,
    }
}

/// Packs `XREAD [BLOCK n] [COUNT n] STREAMS key .. id ..` of the keys and ids at these places of bytes: each key as
/// a name, and its id as a value. `NOACK` and `CLAIM` are for a group only.
#[unsafe(no_mangle)]
pub extern "C" fn redis_xread_streams(
    alloc: Global,
    settings: &ReadSettings,
    bytes: &[u8],
    streams: &[FieldPlace],
    out: &mut [u8],
    len: &mut usize,
) -> u32
    ensures { IsPackedAs (IsPackingOf (read_streams_args settings.now) (fields_at bytes.now streams.now)
        out.new) result len.new }
{
    write_streams_read(alloc, &build_read_options(settings), bytes, streams, out).tell(len)
}

/// Packs XREADGROUP of the streams at these places.
fn write_group_streams_read(
    alloc: Global,
    settings: &ReadSettings,
    group: &[u8],
    consumer: &[u8],
    bytes: &[u8],
    streams: &[FieldPlace],
    out: &mut [u8],
) -> Packing
    ensures { IsPackingOf (read_group_args settings.now group.now consumer.now)
        (fields_at bytes.now streams.now) out.new result }
{
    match build_group_options(alloc, settings, group, consumer) {
        Ok(options) => write_streams_read(alloc, &options, bytes, streams, out),
        Err(_) => Packing::Memory,
    }
}

/// Packs `XREADGROUP GROUP group consumer [BLOCK n] [COUNT n] [NOACK] [CLAIM n] STREAMS key .. id ..` of the keys
/// and ids at these places of bytes: each key as a name, and its id as a value.
#[unsafe(no_mangle)]
pub extern "C" fn redis_xreadgroup_streams(
    alloc: Global,
    settings: &ReadSettings,
    group: &[u8],
    consumer: &[u8],
    bytes: &[u8],
    streams: &[FieldPlace],
    out: &mut [u8],
    len: &mut usize,
) -> u32
    ensures { IsPackedAs (IsPackingOf (read_group_args settings.now group.now consumer.now)
        (fields_at bytes.now streams.now) out.new) result len.new }
{
    write_group_streams_read(alloc, settings, group, consumer, bytes, streams, out).tell(len)
}

/// Packs XPENDING of one consumer or of all.
fn write_pending(
    alloc: Global,
    key: &[u8],
    group: &[u8],
    settings: &PendingSettings,
    start: &[u8],
    end: &[u8],
    count: usize,
    consumer: &[u8],
    out: &mut [u8],
) -> Packing
    ensures { IsPacking (pending_options_args key.now group.now settings.now start.now end.now count consumer.now)
        out.new result }
{
    let (key, group, consumer) = (Argument(key), Argument(group), Argument(consumer));
    let (start, end, idle) = (Argument(start), Argument(end), settings.idle);
    if settings.has_idle && settings.has_consumer {
        let command = xpending_idle_consumer_count(key, group, idle, start, end, count, consumer);
        write_command(alloc, &command, out)
    } else if settings.has_idle {
        let command = xpending_idle_count(key, group, idle, start, end, count);
        write_command(alloc, &command, out)
    } else if settings.has_consumer {
        let command = xpending_consumer_count(key, group, start, end, count, consumer);
        write_command(alloc, &command, out)
    } else {
        write_command(alloc, &xpending_count(key, group, start, end, count), out)
    }
}

/// Packs `XPENDING key group [IDLE n] start end count [consumer]`.
#[unsafe(no_mangle)]
pub extern "C" fn redis_xpending_options(
    alloc: Global,
    key: &[u8],
    group: &[u8],
    settings: &PendingSettings,
    start: &[u8],
    end: &[u8],
    count: usize,
    consumer: &[u8],
    out: &mut [u8],
    len: &mut usize,
) -> u32
    ensures { IsPackedAs (IsPacking
        (pending_options_args key.now group.now settings.now start.now end.now count consumer.now) out.new)
        result len.new }
{
    write_pending(
        alloc, key, group, settings, start, end, count, consumer, out,
    )
    .tell(len)
}
