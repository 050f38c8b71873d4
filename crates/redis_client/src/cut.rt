//! Splitting bytes at a byte.
ghost use Rattle.std.specs.Prelude.{◌≡◌, ◌==◌, option_map, position};
ghost use Rattle.redis_client.specs.Cut.{behind, front};

/// The index of the first such byte.
fn find_byte(bytes: &[u8], byte: u8) -> Option<usize>
    ensures { result ≡ position (λ b. b == byte) bytes.now }
{
    bytes.iter().position(|b| *b == byte)
}

/// The part before the first such byte, or all if there is none, and the part after it.
pub(crate) fn cut(bytes: &[u8], byte: u8) -> (&[u8], Option<&[u8]>)
    ensures front { result.0.now ≡ front byte bytes.now }
    ensures behind { option_map (λ rest. rest.now) result.1 ≡ behind byte bytes.now }
{
    match find_byte(bytes, byte) {
        Some(place) => (&bytes[..place], Some(&bytes[place + 1..])),
        None => (bytes, None),
    }
}
