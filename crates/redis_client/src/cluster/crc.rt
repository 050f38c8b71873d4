//! The checksum that determines the slot.
ghost use Rattle.std.specs.Prelude.{◌≡◌};
ghost use Rattle.redis_client.specs.Cluster.Crc.{crc16, with_bit, with_byte};

/// CRC-16/XMODEM of the bytes: the polynomial 0x1021, initial value 0, the highest bit of each byte first.
pub fn crc16(bytes: &[u8]) -> u16
    ensures { result ≡ crc16 bytes.now }
{
    bytes.iter().fold(0, |crc, byte| add_byte(crc, *byte))
}

/// The checksum extended by one byte.
#[tactic(auto, unfolding(crate::specs::Cluster::Crc::with_bits))]
fn add_byte(crc: u16, byte: u8) -> u16
    ensures { result ≡ with_byte crc byte }
{
    let mut crc = crc;
    for place in 0..8u8 {
        crc = add_bit(crc, (byte >> (7 - place)) % 2);
    }
    crc
}

/// The checksum extended by one bit.
#[tactic(auto, unfolding(crate::specs::Cluster::Crc::with_bit))]
fn add_bit(crc: u16, bit: u8) -> u16
    ensures { result ≡ with_bit crc bit }
{
    let shifted = 2 * (crc % 0x8000);
    if crc / 0x8000 == bit as u16 {
        shifted
    } else {
        shifted ^ 0x1021
    }
}
