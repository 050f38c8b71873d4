//! Blanks, marks, words and numbers at the start of a text.
ghost use Rattle.std.specs.Prelude.{◌≡◌, ◌<◌, ◌≤◌, IfOk, IfSome, length, option_and_then};
ghost use Rattle.redis_resp.specs.Number.{signed_of, signed_within};

use crate::notation::error::NotationError;

fn is_blank(byte: u8) -> bool {
    byte == b' ' || byte == b'\t'
}

fn is_bare(byte: u8) -> bool {
    byte > 32 && byte != 127 && !b"[](),:;\"\\".contains(&byte)
}

/// Returns the text after its leading blanks.
pub fn skip_blanks(text: &[u8]) -> &[u8]
    ensures { length result.now ≤ length text.now }
{
    let blanks = text.iter().take_while(|byte| is_blank(**byte)).count();
    &text[blanks..]
}

/// Skips blanks, then returns the text after the mark, or `None`.
pub fn strip_mark(text: &[u8], mark: char) -> Option<&[u8]>
    ensures { IfSome result (λ rest. length rest.now < length text.now) }
{
    match skip_blanks(text).split_first() {
        Some((first, rest)) if char::from(*first) == mark => Some(rest),
        _ => None,
    }
}

/// Skips blanks, then returns the text after the mark, or `NoMark`.
pub fn expect_mark(text: &[u8], mark: char) -> Result<&[u8], NotationError>
    ensures { IfOk result (λ rest. length rest.now < length text.now) }
{
    strip_mark(text, mark).ok_or(NotationError::NoMark(mark))
}

/// Returns the bare word at the start of a text, and the rest of the text.
pub fn take_word(text: &[u8]) -> Result<(&[u8], &[u8]), NotationError>
    ensures { IfOk result (λ r. length r.1.now < length text.now) }
{
    let text = skip_blanks(text);
    match text
        .iter()
        .position(|byte| !is_bare(*byte))
        .unwrap_or(text.len())
    {
        0 => Err(NotationError::NoWord),
        end => Ok(text.split_at(end)),
    }
}

/// Parses a word as a decimal number. Returns `None` if it does not fit an `i64`.
pub fn parse_number(word: &[u8]) -> Option<i64>
    ensures { result ≡ option_and_then (signed_within 63) (signed_of word.now) }
{
    let Ok(text) = str::from_utf8(word) else {
        return None;
    };
    text.parse().ok()
}
