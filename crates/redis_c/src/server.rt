//! The options of commands, parsed from arguments at places in bytes of the caller: for a server.
//!
//! The settings are those that `stream_option_parsing` parses, with the places of their texts.
ghost use Rattle.std.specs.Prelude.{◌≡◌, Some};
ghost use Rattle.stream_options.specs.Add.{AddFits, add_sentence, add_words};
ghost use Rattle.stream_options.specs.AutoClaim.{AutoClaimFits, autoclaim_sentence, autoclaim_words};
ghost use Rattle.stream_options.specs.Claim.{ClaimFits, claim_sentence, claim_words};
ghost use Rattle.stream_options.specs.Laws.{Equal};
ghost use Rattle.stream_options.specs.Read.{ReadFits, CountAlike, read_sentence, read_words};
ghost use Rattle.stream_options.specs.Trim.{TrimFits, trim_sentence, trim_words};
ghost use Rattle.redis_c.specs.Placed.{texts_at};
ghost use Rattle.redis_c.specs.Plain.{IsPlainAdd, IsPlainTrim, IsPlainClaim, IsPlainAutoClaim, IsPlainRead, IsPlainGroup};
ghost use Rattle.redis_c.specs.Settings.{add_in, trim_in, claim_in, autoclaim_of};
ghost use Rattle.redis_c.specs.Server.{reading_number, reading_count, read_in, IsReading, IsReadAs};

use crate::code;
use crate::commands::ReadSettings;
use crate::parts::{
    build_add_settings, build_autoclaim_settings, build_claim_settings, build_group_place,
    build_read_settings, build_trim_settings,
};
use crate::placed::{Unplaced, texts_at};
use crate::settings::{AddSettings, AutoClaimSettings, ClaimSettings, TrimSettings};
use redis_wire::place::Span;
use std::alloc::Global;
use stream_option_parsing::{
    SentenceError, read_add_parts, read_autoclaim_parts, read_claim_parts, read_read_parts,
    read_trim_parts,
};

/// The places of the names of a group and its consumer.
#[repr(C)]
#[derive(Clone, Copy, Debug, PartialEq, Eq)]
pub struct GroupPlace {
    /// Whether they are given.
    pub has_group: bool,
    /// The place of the name of the group.
    pub group: Span,
    /// The place of the name of the consumer.
    pub consumer: Span,
}

/// The outcome of parsing options.
#[derive(Clone, Copy)]
pub enum Reading {
    /// The arguments begin with the options.
    Options {
        /// The number of their arguments.
        count: usize,
    },
    /// Out of memory.
    Memory,
    /// A place is outside the bytes.
    Outside,
    /// The arguments do not begin with options.
    NoOptions,
}

impl Reading {
    /// The status code.
    fn get_code(self) -> u32
        ensures { result ≡ reading_number self }
    {
        match self {
            Reading::Options { .. } => code::OK,
            Reading::Memory => code::MEMORY,
            Reading::Outside => code::OUTSIDE,
            Reading::NoOptions => code::NO_OPTIONS,
        }
    }

    /// The number of arguments of the options.
    fn get_count(self) -> usize
        ensures { result ≡ reading_count self }
    {
        match self {
            Reading::Options { count } => count,
            Reading::Memory | Reading::Outside | Reading::NoOptions => 0,
        }
    }

    /// Writes the number of arguments of the options to `count`, and returns the status code.
    fn tell(self, count: &mut usize) -> u32
        ensures told { result ≡ reading_number self }
        ensures counted { count.new ≡ reading_count self }
    {
        *count = self.get_count();
        self.get_code()
    }
}

/// The outcome if the texts could not be read.
fn convert_unplaced(unplaced: Unplaced) -> Reading
    ensures memory { unplaced ≡ Unplaced.Memory → result ≡ Reading.Memory }
    ensures outside { unplaced ≡ Unplaced.Outside → result ≡ Reading.Outside }
    ensures unread { reading_number result ≡ 0 → ⊥ }
{
    match unplaced {
        Unplaced::Memory => Reading::Memory,
        Unplaced::Outside => Reading::Outside,
    }
}

/// The outcome if nothing was parsed.
fn convert_error(error: SentenceError) -> Reading
    ensures memory { error ≡ SentenceError.Memory → result ≡ Reading.Memory }
    ensures none { error ≡ SentenceError.NotASentence → result ≡ Reading.NoOptions }
    ensures unread { reading_number result ≡ 0 → ⊥ }
{
    match error {
        SentenceError::Memory => Reading::Memory,
        SentenceError::NotASentence => Reading::NoOptions,
    }
}

/// Parses the options of XADD at the start of the arguments at these places.
fn parse_add(alloc: Global, bytes: &[u8], places: &[Span], settings: &mut AddSettings) -> Reading
    ensures is { IsReading AddFits add_sentence add_words Equal (texts_at bytes.now places.now)
        (add_in bytes.now settings.new) result }
    ensures plain { reading_number result ≡ 0 → IsPlainAdd settings.new }
{
    let args = match texts_at(alloc, bytes, places) {
        Ok(args) => args,
        Err(unplaced) => return convert_unplaced(unplaced),
    };
    let (parts, count) = match read_add_parts(alloc, &args) {
        Ok(found) => found,
        Err(error) => return convert_error(error),
    };
    *settings = build_add_settings(&parts, places);
    Reading::Options { count }
}

/// Parses the options of XADD at the start of the arguments at these places of bytes, those after the key:
/// they are `count` arguments, and the id follows.
#[unsafe(no_mangle)]
pub extern "C" fn redis_read_add(
    alloc: Global,
    bytes: &[u8],
    places: &[Span],
    settings: &mut AddSettings,
    count: &mut usize,
) -> u32
    ensures is { IsReadAs (IsReading AddFits add_sentence add_words Equal (texts_at bytes.now places.now)
        (add_in bytes.now settings.new)) result count.new }
    ensures plain { result ≡ 0 → IsPlainAdd settings.new }
{
    parse_add(alloc, bytes, places, settings).tell(count)
}

/// Parses the options of XTRIM at the start of the arguments at these places.
fn parse_trim(alloc: Global, bytes: &[u8], places: &[Span], settings: &mut TrimSettings) -> Reading
    ensures is { IsReading TrimFits trim_sentence trim_words Equal (texts_at bytes.now places.now)
        (trim_in bytes.now settings.new) result }
    ensures plain { reading_number result ≡ 0 → IsPlainTrim settings.new }
{
    let args = match texts_at(alloc, bytes, places) {
        Ok(args) => args,
        Err(unplaced) => return convert_unplaced(unplaced),
    };
    let (parts, count) = match read_trim_parts(alloc, &args) {
        Ok(found) => found,
        Err(error) => return convert_error(error),
    };
    *settings = build_trim_settings(&parts, places);
    Reading::Options { count }
}

/// Parses the options of XTRIM at the start of the arguments at these places of bytes, those after the key:
/// they are `count` arguments.
#[unsafe(no_mangle)]
pub extern "C" fn redis_read_trim(
    alloc: Global,
    bytes: &[u8],
    places: &[Span],
    settings: &mut TrimSettings,
    count: &mut usize,
) -> u32
    ensures is { IsReadAs (IsReading TrimFits trim_sentence trim_words Equal (texts_at bytes.now places.now)
        (trim_in bytes.now settings.new)) result count.new }
    ensures plain { result ≡ 0 → IsPlainTrim settings.new }
{
    parse_trim(alloc, bytes, places, settings).tell(count)
}

/// Parses the options of XCLAIM at the start of the arguments at these places.
fn parse_claim(
    alloc: Global,
    bytes: &[u8],
    places: &[Span],
    settings: &mut ClaimSettings,
) -> Reading
    ensures is { IsReading ClaimFits claim_sentence claim_words Equal (texts_at bytes.now places.now)
        (claim_in bytes.now settings.new) result }
    ensures plain { reading_number result ≡ 0 → IsPlainClaim settings.new }
{
    let args = match texts_at(alloc, bytes, places) {
        Ok(args) => args,
        Err(unplaced) => return convert_unplaced(unplaced),
    };
    let (parts, count) = match read_claim_parts(alloc, &args) {
        Ok(found) => found,
        Err(error) => return convert_error(error),
    };
    *settings = build_claim_settings(&parts, places);
    Reading::Options { count }
}

/// Parses the options of XCLAIM at the start of the arguments at these places of bytes, those after the ids:
/// they are `count` arguments.
#[unsafe(no_mangle)]
pub extern "C" fn redis_read_claim(
    alloc: Global,
    bytes: &[u8],
    places: &[Span],
    settings: &mut ClaimSettings,
    count: &mut usize,
) -> u32
    ensures is { IsReadAs (IsReading ClaimFits claim_sentence claim_words Equal (texts_at bytes.now places.now)
        (claim_in bytes.now settings.new)) result count.new }
    ensures plain { result ≡ 0 → IsPlainClaim settings.new }
{
    parse_claim(alloc, bytes, places, settings).tell(count)
}

/// Parses the options of XAUTOCLAIM at the start of the arguments at these places.
fn parse_autoclaim(
    alloc: Global,
    bytes: &[u8],
    places: &[Span],
    settings: &mut AutoClaimSettings,
) -> Reading
    ensures is { IsReading AutoClaimFits autoclaim_sentence autoclaim_words Equal
        (texts_at bytes.now places.now) (Some (autoclaim_of settings.new)) result }
    ensures plain { reading_number result ≡ 0 → IsPlainAutoClaim settings.new }
{
    let args = match texts_at(alloc, bytes, places) {
        Ok(args) => args,
        Err(unplaced) => return convert_unplaced(unplaced),
    };
    let (parts, count) = match read_autoclaim_parts(&args) {
        Ok(found) => found,
        Err(error) => return convert_error(error),
    };
    *settings = build_autoclaim_settings(parts);
    Reading::Options { count }
}

/// Parses the options of XAUTOCLAIM at the start of the arguments at these places of bytes, those after the
/// start: they are `count` arguments.
#[unsafe(no_mangle)]
pub extern "C" fn redis_read_autoclaim(
    alloc: Global,
    bytes: &[u8],
    places: &[Span],
    settings: &mut AutoClaimSettings,
    count: &mut usize,
) -> u32
    ensures is { IsReadAs (IsReading AutoClaimFits autoclaim_sentence autoclaim_words Equal
        (texts_at bytes.now places.now) (Some (autoclaim_of settings.new))) result count.new }
    ensures plain { result ≡ 0 → IsPlainAutoClaim settings.new }
{
    parse_autoclaim(alloc, bytes, places, settings).tell(count)
}

/// Parses the options of XREAD or XREADGROUP at the start of the arguments at these places.
fn parse_read(
    alloc: Global,
    bytes: &[u8],
    places: &[Span],
    settings: &mut ReadSettings,
    group: &mut GroupPlace,
) -> Reading
    ensures is { IsReading ReadFits read_sentence read_words CountAlike (texts_at bytes.now places.now)
        (read_in bytes.now settings.new group.new) result }
    ensures plain { reading_number result ≡ 0 → IsPlainRead settings.new }
    ensures named { reading_number result ≡ 0 → IsPlainGroup group.new }
{
    let args = match texts_at(alloc, bytes, places) {
        Ok(args) => args,
        Err(unplaced) => return convert_unplaced(unplaced),
    };
    let (parts, count) = match read_read_parts(&args) {
        Ok(found) => found,
        Err(error) => return convert_error(error),
    };
    *group = build_group_place(parts.group, places);
    *settings = build_read_settings(parts);
    Reading::Options { count }
}

/// Parses the options of XREAD or XREADGROUP at the start of the arguments at these places of bytes: they are
/// `count` arguments, and `STREAMS` follows.
#[unsafe(no_mangle)]
pub extern "C" fn redis_read_read(
    alloc: Global,
    bytes: &[u8],
    places: &[Span],
    settings: &mut ReadSettings,
    group: &mut GroupPlace,
    count: &mut usize,
) -> u32
    ensures is { IsReadAs (IsReading ReadFits read_sentence read_words CountAlike (texts_at bytes.now places.now)
        (read_in bytes.now settings.new group.new)) result count.new }
    ensures plain { result ≡ 0 → IsPlainRead settings.new }
    ensures named { result ≡ 0 → IsPlainGroup group.new }
{
    parse_read(alloc, bytes, places, settings, group).tell(count)
}
