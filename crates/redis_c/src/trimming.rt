//! The settings of trimming, from the values that C passes.
ghost use Rattle.std.specs.Prelude.{◌≡◌, string_bytes, option_map};
ghost use Rattle.stream_options.specs.Trim.{unlimited};
ghost use Rattle.stream_options.specs.View.{mode_of, policy_of, strategy_of};
ghost use Rattle.redis_c.specs.Settings.{mode_by, policy_by, utf8_at, bound_in, strategy_in, any_strategy_in};
ghost use Rattle.redis_c.specs.Settings.{trim_in, Makes};

use crate::placed::text_at;
use crate::settings::{TrimSettings, Unset};
use redis_wire::place::Span;
use std::alloc::Global;
use stream_option_parsing::{TrimParts, trim_with};
use stream_options::{
    StreamDeletionPolicy, StreamTrimOptions, StreamTrimStrategy, StreamTrimmingMode,
};

/// The text at a place, if it is within the bytes and UTF-8.
pub fn utf8_at(alloc: Global, bytes: &[u8], place: Span) -> Result<String, Unset>
    ensures { Makes string_bytes result (utf8_at bytes.now place) }
{
    let Some(text) = text_at(bytes, place) else {
        return Err(Unset::Refused);
    };
    let Ok(text) = std::str::from_utf8(text.0) else {
        return Err(Unset::Refused);
    };
    match String::from_str(alloc, text) {
        Ok(text) => Ok(text),
        Err(_) => Err(Unset::Memory),
    }
}

/// The policy of the number for deleted entries in the pending lists of groups, if it has one.
pub fn find_policy(number: u32) -> Result<Option<StreamDeletionPolicy>, Unset>
    ensures { Makes (option_map policy_of) result (policy_by number) }
{
    if number == 0 {
        Ok(None)
    } else if number == 1 {
        Ok(Some(StreamDeletionPolicy::KeepRef))
    } else if number == 2 {
        Ok(Some(StreamDeletionPolicy::DelRef))
    } else if number == 3 {
        Ok(Some(StreamDeletionPolicy::Acked))
    } else {
        Err(Unset::Refused)
    }
}

/// `~` if the trimming may keep more entries, and otherwise `=`.
fn choose_mode(approximate: bool) -> StreamTrimmingMode
    ensures { mode_of result ≡ mode_by approximate }
{
    if approximate {
        StreamTrimmingMode::Approx
    } else {
        StreamTrimmingMode::Exact
    }
}

/// The bound, as a strategy without a limit.
fn build_bound(
    alloc: Global,
    bytes: &[u8],
    settings: &TrimSettings,
) -> Result<StreamTrimStrategy, Unset>
    ensures { Makes strategy_of result (option_map unlimited (bound_in bytes.now settings.now)) }
{
    let mode = choose_mode(settings.approximate);
    if settings.bound == 1 {
        Ok(StreamTrimStrategy::maxlen(mode, settings.maxlen))
    } else if settings.bound == 2 {
        let id = utf8_at(alloc, bytes, settings.minid)?;
        Ok(StreamTrimStrategy::minid(mode, id))
    } else {
        Err(Unset::Refused)
    }
}

/// The bound and the limit.
fn build_strategy(
    alloc: Global,
    bytes: &[u8],
    settings: &TrimSettings,
) -> Result<StreamTrimStrategy, Unset>
    ensures { Makes strategy_of result (strategy_in bytes.now settings.now) }
{
    let strategy = build_bound(alloc, bytes, settings)?;
    if settings.has_limit {
        Ok(strategy.limit(settings.limit))
    } else {
        Ok(strategy)
    }
}

/// The strategy, if anything is trimmed.
pub fn build_any_strategy(
    alloc: Global,
    bytes: &[u8],
    settings: &TrimSettings,
) -> Result<Option<StreamTrimStrategy>, Unset>
    ensures { Makes (option_map strategy_of) result (any_strategy_in bytes.now settings.now) }
{
    if settings.bound == 0 {
        Ok(None)
    } else {
        let strategy = build_strategy(alloc, bytes, settings)?;
        Ok(Some(strategy))
    }
}

/// The settings of XTRIM.
pub fn build_trim_options(
    alloc: Global,
    bytes: &[u8],
    settings: &TrimSettings,
) -> Result<StreamTrimOptions, Unset>
    ensures { Makes (λ options. options) result (trim_in bytes.now settings.now) }
{
    let strategy = build_strategy(alloc, bytes, settings)?;
    let policy = find_policy(settings.policy)?;
    Ok(trim_with(TrimParts { strategy, policy }))
}
