//! Bulk strings and texts at the start of the input.
ghost use Rattle.std.specs.Prelude.{◌<◌, ◌≤◌, IfOk, length};

use crate::notation::error::NotationError;
use crate::notation::scan::{expect_mark, skip_blanks, take_word};
use std::alloc::Global;

/// Parses a bare or quoted word, and returns its bytes and the rest of the text.
pub fn bulk_in(alloc: Global, text: &[u8]) -> Result<(Vec<u8>, &[u8]), NotationError>
    ensures { IfOk result (λ r. length r.1.now < length text.now) }
{
    let text = skip_blanks(text);
    if text.first() == Some(&b'"') {
        quoted_in(alloc, text)
    } else {
        let (word, rest) = take_word(text)?;
        Ok((Vec::from_slice(alloc, word)?, rest))
    }
}

/// Parses a text, and returns it and the rest. Nothing before a `)`, `,` or `;` is the empty text.
pub fn text_in(alloc: Global, text: &[u8]) -> Result<(String, &[u8]), NotationError>
    ensures { IfOk result (λ r. length r.1.now ≤ length text.now) }
{
    let text = skip_blanks(text);
    match text.first() {
        Some(b')' | b',' | b';') => Ok((String::new(alloc), text)),
        _ => {
            let (bytes, rest) = bulk_in(alloc, text)?;
            match String::from_utf8(bytes) {
                Ok(text) => Ok((text, rest)),
                Err(_) => Err(NotationError::NotUtf8),
            }
        }
    }
}

fn quoted_in(alloc: Global, text: &[u8]) -> Result<(Vec<u8>, &[u8]), NotationError>
    ensures { IfOk result (λ r. length r.1.now < length text.now) }
{
    let mut bytes = Vec::new(alloc);
    let mut rest = expect_mark(text, '"')?;
    while let Some((first, behind)) = rest.split_first() {
        match *first {
            b'"' => return Ok((bytes, behind)),
            b'\\' => {
                let (byte, behind) = escaped_in(behind)?;
                bytes.push(byte)?;
                rest = behind;
            }
            byte => {
                bytes.push(byte)?;
                rest = behind;
            }
        }
    }
    Err(NotationError::Unclosed)
}

/// Returns the byte that an escape denotes, and the text after the escape.
fn escaped_in(text: &[u8]) -> Result<(u8, &[u8]), NotationError>
    ensures { IfOk result (λ r. length r.1.now < length text.now) }
{
    match text {
        [b'"', rest @ ..] => Ok((b'"', rest)),
        [b'\\', rest @ ..] => Ok((b'\\', rest)),
        [b'n', rest @ ..] => Ok((b'\n', rest)),
        [b't', rest @ ..] => Ok((b'\t', rest)),
        [b'x', high, low, rest @ ..] => Ok((16 * digit_of(*high)? + digit_of(*low)?, rest)),
        _ => Err(NotationError::UnknownEscape),
    }
}

fn digit_of(byte: u8) -> Result<u8, NotationError>
    ensures { IfOk result (λ digit. digit < 16) }
{
    match byte {
        b'0'..=b'9' => Ok(byte - b'0'),
        b'a'..=b'f' => Ok(byte - b'a' + 10),
        b'A'..=b'F' => Ok(byte - b'A' + 10),
        _ => Err(NotationError::UnknownEscape),
    }
}
