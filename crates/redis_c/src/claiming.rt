//! The settings of claims, from the values that C passes.
ghost use Rattle.std.specs.Prelude.{◌≡◌, string_bytes, option_map};
ghost use Rattle.redis_c.specs.Settings.{if_set, lastid_in, claim_in, autoclaim_of, Makes};

use crate::settings::{AutoClaimSettings, ClaimSettings, Unset};
use crate::trimming::utf8_at;
use std::alloc::Global;
use stream_option_parsing::{AutoClaimParts, ClaimParts, autoclaim_with, claim_with};
use stream_options::{StreamAutoClaimOptions, StreamClaimOptions};

/// The number, if it is set.
fn keep_if_set(is_set: bool, n: usize) -> Option<usize>
    ensures { result ≡ if_set is_set n }
{
    if is_set { Some(n) } else { None }
}

/// The settings of XAUTOCLAIM.
pub fn build_autoclaim_options(settings: &AutoClaimSettings) -> StreamAutoClaimOptions
    ensures { result ≡ autoclaim_of settings.now }
{
    autoclaim_with(AutoClaimParts {
        count: keep_if_set(settings.has_count, settings.count),
        justid: settings.justid,
    })
}

/// The id of LASTID, if it is set.
fn copy_lastid(
    alloc: Global,
    bytes: &[u8],
    settings: &ClaimSettings,
) -> Result<Option<String>, Unset>
    ensures { Makes (option_map string_bytes) result (lastid_in bytes.now settings.now) }
{
    if settings.has_lastid {
        let lastid = utf8_at(alloc, bytes, settings.lastid)?;
        Ok(Some(lastid))
    } else {
        Ok(None)
    }
}

/// The settings of XCLAIM.
pub fn build_claim_options(
    alloc: Global,
    bytes: &[u8],
    settings: &ClaimSettings,
) -> Result<StreamClaimOptions, Unset>
    ensures { Makes (λ options. options) result (claim_in bytes.now settings.now) }
{
    let lastid = copy_lastid(alloc, bytes, settings)?;
    Ok(claim_with(ClaimParts {
        idle: keep_if_set(settings.has_idle, settings.idle),
        time: keep_if_set(settings.has_time, settings.time),
        retry: keep_if_set(settings.has_retry, settings.retry),
        force: settings.force,
        justid: settings.justid,
        lastid,
    }))
}
