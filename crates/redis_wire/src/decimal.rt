//! The text form of doubles and big numbers.
ghost use Rattle.std.specs.Prelude.{◌≡◌, option_map};
ghost use Rattle.std.specs.List.{prefix_len};
ghost use Rattle.std.specs.Char.{is_ascii_digit};
ghost use Rattle.redis_wire.specs.Decimal.{is_sign, is_signed, without_sign, behind_digits, is_integer, is_exponent, is_fraction, fraction_behind, is_named, is_double};

use crate::scanning::bytes_behind;

/// Whether a byte is `+` or `-`.
fn is_sign(byte: u8) -> bool
    ensures { result ≡ is_sign byte }
{
    byte == b'+' || byte == b'-'
}

/// Whether the text begins with a sign.
#[tactic(auto, unfolding(crate::specs::Decimal::is_signed))]
pub fn is_signed(text: &[u8]) -> bool
    ensures { result ≡ is_signed text.now }
{
    match text {
        [] => false,
        [first, ..] => is_sign(*first),
    }
}

/// Returns the text without its leading sign, if there is one.
#[tactic(auto, unfolding(crate::specs::Decimal::without_sign))]
fn strip_sign(text: &[u8]) -> &[u8]
    ensures { result.now ≡ without_sign text.now }
{
    match text {
        [] => text,
        [first, rest @ ..] => { if is_sign(*first) { rest } else { text } }
    }
}

/// Returns the number of digits at the start of the text.
fn count_digits(text: &[u8]) -> usize
    ensures { result ≡ prefix_len is_ascii_digit text.now }
{
    text.iter().take_while(|byte| byte.is_ascii_digit()).count()
}

/// Returns the rest after the leading digits, or `None` if there is no leading digit.
#[tactic(auto, unfolding(crate::specs::Decimal::behind_digits))]
fn strip_digits(text: &[u8]) -> Option<&[u8]>
    ensures { option_map (λ rest. rest.now) result ≡ behind_digits text.now }
{
    let len = count_digits(text);
    if len == 0 {
        return None;
    }
    Some(bytes_behind(text, len))
}

/// Whether the text is a big number: an optional sign, then one digit or more.
#[tactic(auto, unfolding(crate::specs::Decimal::is_integer, crate::specs::Decimal::are_all))]
pub fn is_integer(text: &[u8]) -> bool
    ensures { result ≡ is_integer text.now }
{
    match strip_digits(strip_sign(text)) {
        Some([]) => true,
        _ => false,
    }
}

/// Whether the text is empty, or is `e` or `E` and then an integer.
#[tactic(auto, unfolding(crate::specs::Decimal::is_exponent))]
fn is_exponent(text: &[u8]) -> bool
    ensures { result ≡ is_exponent text.now }
{
    match text {
        [] => true,
        [first, rest @ ..] => {
            if *first == b'E' || *first == b'e' {
                is_integer(rest)
            } else {
                false
            }
        }
    }
}

/// Whether the text is an optional `.` with one digit or more, and then an optional exponent.
#[tactic(auto, unfolding(crate::specs::Decimal::is_fraction, crate::specs::Decimal::exponent_behind))]
fn is_fraction(text: &[u8]) -> bool
    ensures { result ≡ is_fraction text.now }
{
    match text {
        [] => true,
        [first, rest @ ..] => {
            if *first == b'.' {
                match strip_digits(rest) {
                    Some(behind) => is_exponent(behind),
                    None => false,
                }
            } else {
                is_exponent(text)
            }
        }
    }
}

/// Whether the text is `inf`, `-inf`, `nan` or `-nan`.
#[tactic(auto, unfolding(crate::specs::Decimal::is_named))]
fn is_named(text: &[u8]) -> bool
    ensures { result ≡ is_named text.now }
{
    text == b"inf".as_slice()
        || text == b"-inf".as_slice()
        || text == b"nan".as_slice()
        || text == b"-nan".as_slice()
}

/// Whether the text is digits, then an optional fraction and an optional exponent.
#[tactic(auto, unfolding(crate::specs::Decimal::fraction_behind))]
fn is_decimal(text: &[u8]) -> bool
    ensures { result ≡ fraction_behind (behind_digits text.now) }
{
    match strip_digits(text) {
        Some(behind) => is_fraction(behind),
        None => false,
    }
}

/// Whether the text is a double.
#[tactic(auto, unfolding(crate::specs::Decimal::is_double))]
pub fn is_double(text: &[u8]) -> bool
    ensures { result ≡ is_double text.now }
{
    is_named(text) || is_decimal(strip_sign(text))
}
