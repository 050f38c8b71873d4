//! Parses the text of a node's error.
ghost use Rattle.std.specs.Prelude.{◌≡◌, option_map};
ghost use Rattle.std.specs.Bool.{Decides};
ghost use Rattle.redis_client.specs.Cluster.Sentence.{IsPlace, IsPlaceIn, IsReadFrom, code_of, other_of};
ghost use Rattle.redis_client.specs.Cluster.ErrorMeaning.{meaning_of, place_of, other_meaning};

use crate::cluster::bytes::{bytes_behind, number_in, split_first, split_last};
use crate::cluster::error::ClusterError;

/// The node that serves a slot.
#[derive(Clone, Copy)]
struct Place<'a> {
    slot: u16,
    host: &'a [u8],
    port: u16,
}

/// Parses the error of a node; `None` if it does not concern the cluster. The text is the part
/// after `-` in the reply, such as `MOVED 3999 127.0.0.1:6381`. The port is after the last
/// colon, so the host may be an IPv6 address.
pub fn cluster_error(text: &[u8]) -> Option<ClusterError<'_>>
    ensures { IsReadFrom text.now (option_map meaning_of result) }
{
    if let Some(rest) = bytes_behind(b"MOVED ", text) {
        let Place { slot, host, port } = parse_place(rest)?;
        return Some(ClusterError::Moved { slot, host, port });
    }
    if let Some(rest) = bytes_behind(b"ASK ", text) {
        let Place { slot, host, port } = parse_place(rest)?;
        return Some(ClusterError::Ask { slot, host, port });
    }
    find_error(find_code(text))
}

/// The part before the first space, or the whole text if there is none.
fn find_code(text: &[u8]) -> &[u8]
    ensures { result.now ≡ code_of text.now }
{
    match split_first(text, b' ') {
        Some((code, _)) => code,
        None => text,
    }
}

/// The error of a code without an address.
fn find_error(code: &[u8]) -> Option<ClusterError<'_>>
    ensures { option_map meaning_of result ≡ option_map other_meaning (other_of code.now) }
{
    if code == b"TRYAGAIN".as_slice() {
        Some(ClusterError::TryAgain)
    } else if code == b"CLUSTERDOWN".as_slice() {
        Some(ClusterError::ClusterDown)
    } else if code == b"LOADING".as_slice() {
        Some(ClusterError::Loading)
    } else if code == b"MASTERDOWN".as_slice() {
        Some(ClusterError::MasterDown)
    } else if code == b"READONLY".as_slice() {
        Some(ClusterError::ReadOnly)
    } else if code == b"NOREPLICAS".as_slice() {
        Some(ClusterError::NoReplicas)
    } else {
        None
    }
}

/// The slot and the address in the bytes: the slot, a space, the host, a colon and the port.
fn parse_place(bytes: &[u8]) -> Option<Place<'_>>
    ensures { IsPlaceIn bytes.now (option_map place_of result) }
{
    let (slot, behind) = split_first(bytes, b' ')?;
    let (host, port) = split_last(behind, b':')?;
    let slot = number_in(slot)?;
    let port = number_in(port)?;
    let place = Place { slot, host, port };
    if is_place(&place) { Some(place) } else { None }
}

/// Whether it has a slot of a cluster, a port, and a host with no space in it.
fn is_place(place: &Place<'_>) -> bool
    ensures { Decides result (IsPlace (place_of place.now)) }
{
    place.slot < 16_384 && place.port > 0 && split_first(place.host, b' ').is_none()
}
