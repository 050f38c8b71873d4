//! Texts on one line.
ghost use Rattle.std.specs.Prelude.{◌≡◌, ◌<◌, ◌++◌, IfOk, OnOk, flat_map};
ghost use Rattle.test_cases.specs.Line.{digit_code, escape};

use std::alloc::{AllocError, Global};

/// Returns the bytes with each control character written as `\n`, `\t` or `\xNN`.
pub fn escape_text(alloc: Global, text: &[u8]) -> Result<Vec<u8>, AllocError>
    ensures { IfOk result (λ line. line.items ≡ flat_map escape text.now) }
{
    let mut line = Vec::with_capacity(alloc, text.len())?;
    for byte in text {
        push_escaped(*byte, &mut line)?;
    }
    Ok(line)
}

/// Appends a byte as `escape_text` writes it.
fn push_escaped(byte: u8, line: &mut Vec<u8>) -> Result<(), AllocError>
    ensures { OnOk result (line.new.items ≡ line.old.items ++ escape byte) }
{
    match byte {
        b'\n' => line.extend_from_slice(b"\\n"),
        b'\t' => line.extend_from_slice(b"\\t"),
        0..32 => line.extend_from_slice(&[
            b'\\',
            b'x',
            to_hex_digit(byte / 16),
            to_hex_digit(byte % 16),
        ]),
        _ => line.extend_from_slice(&[byte]),
    }
}

/// Returns the ASCII code of a hexadecimal digit. A letter is in lower case.
fn to_hex_digit(digit: u8) -> u8
    requires { digit < 16 }
    ensures { result ≡ digit_code digit }
{
    if digit < 10 {
        digit + b'0'
    } else {
        digit - 10 + b'a'
    }
}
