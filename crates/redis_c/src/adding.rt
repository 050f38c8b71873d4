//! The settings of XADD, from the values that C passes.
ghost use Rattle.std.specs.Prelude.{option_map};
ghost use Rattle.stream_options.specs.View.{idempotency_of};
ghost use Rattle.redis_c.specs.Settings.{idempotency_in, add_in, Makes};

use crate::settings::{AddSettings, Unset};
use crate::trimming::{build_any_strategy, find_policy, utf8_at};
use std::alloc::Global;
use stream_option_parsing::{AddParts, add_with};
use stream_options::{StreamAddOptions, StreamIdempotencyMode};

/// How the server detects duplicates, if it does.
fn build_idempotency(
    alloc: Global,
    bytes: &[u8],
    settings: &AddSettings,
) -> Result<Option<StreamIdempotencyMode>, Unset>
    ensures { Makes (option_map idempotency_of) result (idempotency_in bytes.now settings.now) }
{
    if settings.idempotency == 0 {
        Ok(None)
    } else if settings.idempotency == 1 {
        let producer_id = utf8_at(alloc, bytes, settings.producer)?;
        let idempotent_id = utf8_at(alloc, bytes, settings.idempotent_id)?;
        Ok(Some(StreamIdempotencyMode::Manual {
            producer_id,
            idempotent_id,
        }))
    } else if settings.idempotency == 2 {
        let producer_id = utf8_at(alloc, bytes, settings.producer)?;
        Ok(Some(StreamIdempotencyMode::Automatic { producer_id }))
    } else {
        Err(Unset::Refused)
    }
}

/// The settings of XADD.
pub fn build_add_options(
    alloc: Global,
    bytes: &[u8],
    settings: &AddSettings,
) -> Result<StreamAddOptions, Unset>
    ensures { Makes (λ options. options) result (add_in bytes.now settings.now) }
{
    let policy = find_policy(settings.trim.policy)?;
    let idempotency = build_idempotency(alloc, bytes, settings)?;
    let strategy = build_any_strategy(alloc, bytes, &settings.trim)?;
    Ok(add_with(AddParts {
        nomkstream: settings.nomkstream,
        policy,
        idempotency,
        strategy,
    }))
}
