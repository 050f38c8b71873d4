//! The parts of an address, still encoded.
ghost use Rattle.std.specs.Prelude.{◌≡◌, option_map};
ghost use Rattle.redis_client.specs.Parts.{database_in, host_and_port, login_in, place_in, settings_in};

use crate::cut::cut;

/// The parts of the text after `redis://`.
#[derive(Clone, Copy)]
pub(crate) struct Parts<'a> {
    pub login: Option<&'a [u8]>,
    pub place: &'a [u8],
    pub database: Option<&'a [u8]>,
    pub settings: Option<&'a [u8]>,
}

/// Splits the text after `redis://` into its parts.
pub(crate) fn parts_of(rest: &[u8]) -> Parts<'_>
    ensures login { option_map (λ text. text.now) result.login ≡ login_in rest.now }
    ensures place { result.place.now ≡ place_in rest.now }
    ensures database { option_map (λ text. text.now) result.database ≡ database_in rest.now }
    ensures settings { option_map (λ text. text.now) result.settings ≡ settings_in rest.now }
{
    let (path, settings) = cut(rest, b'?');
    let (authority, database) = cut(path, b'/');
    match cut(authority, b'@') {
        (login, Some(place)) => Parts {
            login: Some(login),
            place,
            database,
            settings,
        },
        (place, None) => Parts {
            login: None,
            place,
            database,
            settings,
        },
    }
}

/// The host, and the port if one is given. An IPv6 address is in brackets.
pub(crate) fn host_and_port(place: &[u8]) -> Option<(&[u8], Option<&[u8]>)>
    ensures { option_map (λ x. (x.0.now, option_map (λ text. text.now) x.1)) result
        ≡ host_and_port place.now }
{
    match place {
        [b'[', rest @ ..] => match cut(rest, b']') {
            (host, Some([])) => Some((host, None)),
            (host, Some([b':', port @ ..])) => Some((host, Some(port))),
            _ => None,
        },
        _ => Some(cut(place, b':')),
    }
}
