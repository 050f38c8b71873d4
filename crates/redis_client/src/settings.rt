//! The settings of an address.
ghost use Rattle.std.specs.Prelude.{◌≡◌, ◌⊎◌, None, Some, IfErr, IfOk, MatchResult, option_map};
ghost use Rattle.redis_client.specs.Said.{chosen, name_of, protocol_of, settings_of, with_setting};
ghost use Rattle.redis_client.specs.Cut.{behind, front};

use crate::address::{AddressError, Protocol, decode_text};
use crate::cut::cut;
use std::alloc::Global;

/// The settings after the question mark.
#[derive(Drop)]
pub(crate) struct Settings {
    pub protocol: Protocol,
    pub name: Option<Vec<u8>>,
}

/// The settings of a text: `protocol` and `name`, in either order.
pub(crate) fn settings_of(alloc: Global, text: Option<&[u8]>) -> Result<Settings, AddressError>
    ensures ok { IfOk result (λ s. settings_of (option_map (λ t. t.now) text.entry) ≡ Some (chosen s)) }
    ensures err { IfErr result (λ e. (e ≡ AddressError.Memory)
        ⊎ ((e ≡ AddressError.Setting) × (settings_of (option_map (λ t. t.now) text.entry) ≡ None))) }
{
    let none = Settings {
        protocol: Protocol::Resp2,
        name: None,
    };
    let Some(text) = text else {
        return Ok(none);
    };
    match cut(text, b'&') {
        (first, None) => apply_setting(alloc, none, first),
        (first, Some(second)) => {
            let one = apply_setting(alloc, none, first)?;
            apply_setting(alloc, one, second)
        }
    }
}

/// The settings with this one replaced.
fn apply_setting(
    alloc: Global,
    mut settings: Settings,
    text: &[u8],
) -> Result<Settings, AddressError>
    ensures ok { IfOk result (λ s. with_setting (chosen settings) (front 61 text.now) (behind 61 text.now) ≡ Some (chosen s)) }
    ensures err { IfErr result (λ e. (e ≡ AddressError.Memory)
        ⊎ ((e ≡ AddressError.Setting) × (with_setting (chosen settings) (front 61 text.now) (behind 61 text.now) ≡ None))) }
{
    let (key, Some(value)) = cut(text, b'=') else {
        return Err(AddressError::Setting);
    };
    if key == b"protocol".as_slice() {
        settings.protocol = parse_protocol(value)?;
    } else if key == b"name".as_slice() {
        settings.name = Some(parse_name(alloc, value)?);
    } else {
        return Err(AddressError::Setting);
    }
    Ok(settings)
}

/// The protocol of this version.
fn parse_protocol(value: &[u8]) -> Result<Protocol, AddressError>
    ensures { MatchResult result (λ p. protocol_of value.now ≡ Some p)
        (λ e. (e ≡ AddressError.Setting) × (protocol_of value.now ≡ None)) }
{
    match value {
        [b'2'] => Ok(Protocol::Resp2),
        [b'3'] => Ok(Protocol::Resp3),
        _ => Err(AddressError::Setting),
    }
}

/// The name of the connection, percent-decoded. A `&` in it is refused.
fn parse_name(alloc: Global, value: &[u8]) -> Result<Vec<u8>, AddressError>
    ensures ok { IfOk result (λ name. name_of value.now (behind 38 value.now) ≡ Some name.items) }
    ensures err { IfErr result (λ e. (e ≡ AddressError.Memory)
        ⊎ ((e ≡ AddressError.Setting) × (name_of value.now (behind 38 value.now) ≡ None))) }
{
    if let (_, Some(_)) = cut(value, b'&') {
        return Err(AddressError::Setting);
    }
    Ok(decode_text(alloc, value)?)
}
