//! The slot of a key.
ghost use Rattle.std.specs.Prelude.{◌≡◌, option_map};
ghost use Rattle.redis_client.specs.Cluster.Slot.{hash_tag, key_slot};

use crate::cluster::bytes::split_first;
use crate::cluster::crc::crc16;

/// The hash tag of a key: the part between its first `{` and the first `}` after that. `None` if a
/// brace is missing, or if nothing is between them.
pub fn hash_tag(key: &[u8]) -> Option<&[u8]>
    ensures { option_map (λ tag. tag.now) result ≡ hash_tag key.now }
{
    let (_, behind) = split_first(key, b'{')?;
    let (tag, _) = split_first(behind, b'}')?;
    match tag {
        [] => None,
        _ => Some(tag),
    }
}

/// The slot of a key, from 0 to 16,383: CRC-16/XMODEM of its hash tag, or of the whole key if it has
/// none, modulo 16,384.
pub fn key_slot(key: &[u8]) -> u16
    ensures { result ≡ key_slot key.now }
{
    match hash_tag(key) {
        Some(tag) => crc16(tag) % 16_384,
        None => crc16(key) % 16_384,
    }
}
