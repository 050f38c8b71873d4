//! The words of a line, with quotes as redis-server reads them.
ghost use Rattle.std.specs.Prelude.{◌≡◌, ◌≢◌, ◌++◌, ◌<◌, [], ◌∷◌, IfOk, IfErr, OnOk, map};
ghost use Rattle.server_commands.specs.Incoming.{Gives, balanced, FailsAt};
ghost use Rattle.server_commands.specs.Quoted.{is_blank, is_end, is_hex, is_from, digit_value, escaped, instead, last_byte};
ghost use Rattle.server_commands.specs.Quoted.{goes, in_word, in_double, in_single, turn, at_end, prefixed, split_words, GoesOn};

use crate::incoming::{ProtocolError, Stop};
use std::alloc::{AllocError, Global};
use std::mem;

/// The state of the parser of a line of words.
#[derive(Clone, Copy)]
pub(crate) enum Place {
    /// Between words.
    Between,
    /// In a word, and in no quotes.
    Inside,
    /// In double quotes.
    Double,
    /// After a backslash in double quotes.
    Escape,
    /// After `\x` in double quotes.
    Hex,
    /// After `\x` and one hexadecimal digit.
    HexDigit,
    /// In single quotes.
    Single,
    /// After a backslash in single quotes.
    SingleEscape,
    /// After a closing quote.
    Closed,
}

/// The words of a line: spaces separate them, and a word with spaces is in quotes. Quotes may follow other
/// bytes of a word, and end it.
///
/// In double quotes `\n`, `\r`, `\t`, `\b`, `\a` and `\x41` mean one byte, and a backslash before another byte
/// means that byte; in single quotes `\'` means the quote.
pub(crate) fn split_words(alloc: Global, line: &[u8]) -> Result<Vec<Vec<u8>>, Stop>
    ensures { Gives (λ v. map (λ w. w.items) v.items) result (balanced (split_words line.now)) }
{
    let mut words = Vec::new(alloc);
    let mut word = Vec::new(alloc);
    let mut place = Place::Between;
    let mut rest = line;
    while let [byte, behind @ ..] = rest {
        place = take_byte(alloc, &mut words, &mut word, place, *byte)?;
        rest = behind;
    }
    end_line(&mut words, word, place)?;
    Ok(words)
}

/// Takes the end of a line.
#[tactic(auto, unfolding(crate::specs::Quoted::at_end))]
fn end_line(words: &mut Vec<Vec<u8>>, word: Vec<u8>, place: Place) -> Result<(), Stop>
    ensures { Gives (λ _. map (λ w. w.items) words.new.items) result
        (balanced (prefixed (map (λ w. w.items) words.old.items) (at_end place word.items))) }
{
    match place {
        Place::Between => Ok(()),
        Place::Inside | Place::Closed => {
            words.push(word)?;
            Ok(())
        }
        _ => Err(Stop::Fault(ProtocolError::UnbalancedQuotes)),
    }
}

/// Takes the next byte of a line, and returns the new state.
#[tactic(auto, unfolding(crate::specs::Quoted::turn))]
fn take_byte(
    alloc: Global,
    words: &mut Vec<Vec<u8>>,
    word: &mut Vec<u8>,
    place: Place,
    byte: u8,
) -> Result<Place, Stop>
    ensures ok { IfOk result (λ p. GoesOn (turn place word.old.items byte)
        (map (λ w. w.items) words.old.items) (map (λ w. w.items) words.new.items) p word.new.items) }
    ensures err { IfErr result (FailsAt (turn place word.old.items byte)) }
{
    match place {
        Place::Between => {
            if is_blank(byte) {
                return Ok(place);
            }
            Ok(take_in_word(word, byte)?)
        }
        Place::Inside => {
            if is_end(byte) {
                return end_word(alloc, words, word);
            }
            Ok(take_in_word(word, byte)?)
        }
        Place::Closed => {
            if is_blank(byte) {
                return end_word(alloc, words, word);
            }
            Err(Stop::Fault(ProtocolError::UnbalancedQuotes))
        }
        _ => Ok(take_in_quotes(word, place, byte)?),
    }
}

/// Takes the end of a word.
fn end_word(alloc: Global, words: &mut Vec<Vec<u8>>, word: &mut Vec<u8>) -> Result<Place, Stop>
    ensures place { IfOk result (λ p. p ≡ Place.Between) }
    ensures word { OnOk result (word.new.items ≡ []) }
    ensures words { OnOk result (map (λ w. w.items) words.new.items
        ≡ map (λ w. w.items) words.old.items ++ word.old.items ∷ []) }
    ensures err { IfErr result (λ e. e ≡ Stop.Memory) }
{
    words.push(mem::replace(word, Vec::new(alloc)))?;
    Ok(Place::Between)
}

/// Takes a byte of a word outside quotes.
#[tactic(auto, unfolding(crate::specs::Quoted::in_word))]
fn take_in_word(word: &mut Vec<u8>, byte: u8) -> Result<Place, AllocError>
    ensures { IfOk result (λ p. in_word word.old.items byte ≡ goes p word.new.items) }
{
    if byte == b'"' {
        return Ok(Place::Double);
    }
    if byte == b'\'' {
        return Ok(Place::Single);
    }
    put(word, byte, Place::Inside)
}

/// Takes a byte in quotes.
#[tactic(auto, unfolding(crate::specs::Quoted::turn))]
fn take_in_quotes(word: &mut Vec<u8>, place: Place, byte: u8) -> Result<Place, AllocError>
    requires inside { place ≢ Place.Between }
    requires quoted { place ≢ Place.Inside }
    requires open { place ≢ Place.Closed }
    ensures { IfOk result (λ p. turn place word.old.items byte ≡ goes p word.new.items) }
{
    match place {
        Place::Single => take_in_single(word, byte),
        Place::SingleEscape => {
            if byte == b'\'' {
                return replace_last(word, 1, byte, Place::Single);
            }
            take_in_single(word, byte)
        }
        Place::Escape => {
            if byte == b'x' {
                return put(word, byte, Place::Hex);
            }
            put(word, decode_escape(byte), Place::Double)
        }
        Place::Hex => {
            if is_hex(byte) {
                return put(word, byte, Place::HexDigit);
            }
            take_in_double(word, byte)
        }
        Place::HexDigit => {
            if is_hex(byte) {
                let value = 16 * decode_digit(find_last_byte(word)) + decode_digit(byte);
                return replace_last(word, 2, value, Place::Double);
            }
            take_in_double(word, byte)
        }
        _ => take_in_double(word, byte),
    }
}

/// Takes a byte in double quotes.
#[tactic(auto, unfolding(crate::specs::Quoted::in_double))]
fn take_in_double(word: &mut Vec<u8>, byte: u8) -> Result<Place, AllocError>
    ensures { IfOk result (λ p. in_double word.old.items byte ≡ goes p word.new.items) }
{
    if byte == b'"' {
        return Ok(Place::Closed);
    }
    if byte == b'\\' {
        return Ok(Place::Escape);
    }
    put(word, byte, Place::Double)
}

/// Takes a byte in single quotes.
#[tactic(auto, unfolding(crate::specs::Quoted::in_single))]
fn take_in_single(word: &mut Vec<u8>, byte: u8) -> Result<Place, AllocError>
    ensures { IfOk result (λ p. in_single word.old.items byte ≡ goes p word.new.items) }
{
    if byte == b'\'' {
        return Ok(Place::Closed);
    }
    if byte == b'\\' {
        return put(word, byte, Place::SingleEscape);
    }
    put(word, byte, Place::Single)
}

/// Appends a byte to a word.
fn put(word: &mut Vec<u8>, byte: u8, place: Place) -> Result<Place, AllocError>
    ensures place { IfOk result (λ p. p ≡ place) }
    ensures word { OnOk result (word.new.items ≡ word.old.items ++ byte ∷ []) }
{
    word.push(byte)?;
    Ok(place)
}

/// Replaces the last bytes of a word by this one.
fn replace_last(
    word: &mut Vec<u8>,
    count: usize,
    byte: u8,
    place: Place,
) -> Result<Place, AllocError>
    ensures place { IfOk result (λ p. p ≡ place) }
    ensures word { OnOk result (word.new.items ≡ instead count word.old.items byte) }
{
    let len = word.len().saturating_sub(count);
    word.truncate(len);
    put(word, byte, place)
}

/// The last byte of a word, or 0.
fn find_last_byte(word: &[u8]) -> u8
    ensures { result ≡ last_byte word.now }
{
    if word.is_empty() {
        return 0;
    }
    word[word.len() - 1]
}

/// Whether a byte is a hexadecimal digit.
fn is_hex(byte: u8) -> bool
    ensures { result ≡ is_hex byte }
{
    is_from(b'0', b'9', byte) || is_from(b'a', b'f', byte) || is_from(b'A', b'F', byte)
}

/// The value of a hexadecimal digit, or 0.
fn decode_digit(digit: u8) -> u8
    ensures value { result ≡ digit_value digit }
    ensures small { result < 16 }
{
    if is_from(b'0', b'9', digit) {
        digit - b'0'
    } else if is_from(b'a', b'f', digit) {
        digit - 87
    } else if is_from(b'A', b'F', digit) {
        digit - 55
    } else {
        0
    }
}

/// The byte of an escape, by the byte after its backslash.
fn decode_escape(byte: u8) -> u8
    ensures { result ≡ escaped byte }
{
    if byte == b'n' {
        b'\n'
    } else if byte == b'r' {
        b'\r'
    } else if byte == b't' {
        b'\t'
    } else if byte == b'b' {
        8
    } else if byte == b'a' {
        7
    } else {
        byte
    }
}

/// Whether a byte separates words.
fn is_blank(byte: u8) -> bool
    ensures { result ≡ is_blank byte }
{
    byte == b' ' || is_from(9, 13, byte)
}

/// Whether a byte ends a word outside quotes.
fn is_end(byte: u8) -> bool
    ensures { result ≡ is_end byte }
{
    byte == b' ' || byte == b'\t' || byte == b'\n' || byte == b'\r'
}

/// Whether a byte is from one to another.
fn is_from(low: u8, high: u8, byte: u8) -> bool
    ensures { result ≡ is_from low high byte }
{
    low <= byte && byte <= high
}
