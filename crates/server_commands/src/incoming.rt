//! Commands parsed from bytes as redis-server does: arrays of bulk strings, and inline commands.
ghost use Rattle.std.specs.Prelude.{◌≡◌, ◌++◌, ◌<◌, ◌≤◌, Err, IfOk, OnOk, OnErr, map, length};
ghost use Rattle.std.specs.Bool.{OnTrue};
ghost use Rattle.std.specs.List.{prefix_len};
ghost use Rattle.std.specs.Str.{bytes_eq};
ghost use Rattle.std.specs.Fmt.{signed_decimal};
ghost use Rattle.redis_wire.specs.Scalar.{number_of};
ghost use Rattle.redis_wire.specs.WrittenReply.{blank_end};
ghost use Rattle.server_commands.specs.Incoming.{Gives, is_before, ended, before, head_at, strict_number};
ghost use Rattle.server_commands.specs.Incoming.{word_count, count_of, word_len, length_of, body_at, word_at, words_at};
ghost use Rattle.server_commands.specs.Incoming.{IsScan, array_at, count_at, line_at, command_at, short};
ghost use Rattle.server_commands.specs.Incoming.{fault_text, error_text, protocol_error_bytes};
ghost use Rattle.server_commands.specs.declared.incoming.Stop.TheVariants.{Memory};

use crate::quoted::split_words;
use itoa::Buffer;
use redis_wire::push_line;
use std::alloc::{AllocError, AllocFailed, Global};

/// How many bytes may be before the end of a line.
const LONGEST_LINE: usize = 65_536;

/// How many words a command may have.
const MOST_WORDS: u64 = 2_147_483_647;

/// How many bytes a word may have.
const LONGEST_WORD: u64 = 536_870_912;

/// A protocol error: no further bytes could make these a command.
#[derive(Clone, Copy, Debug, PartialEq, Eq)]
pub enum ProtocolError {
    /// The line of a count is too long.
    LongCount,
    /// The line of a length is too long.
    LongLength,
    /// An inline command is too long.
    LongLine,
    /// A count is not a number, or is over the limit.
    BadCount,
    /// A length is not a number, is negative, or is over the limit.
    BadLength,
    /// This byte is in place of the `$` of a length.
    NoLength(u8),
    /// A quote is not closed, or something follows the closing quote at once.
    UnbalancedQuotes,
}

/// Why no command was read.
#[derive(Debug, Drop)]
pub(crate) enum Stop {
    /// An allocation failed.
    Memory,
    /// The command is not complete.
    Short,
    /// No further bytes could make these a command.
    Fault(ProtocolError),
}

impl From<AllocError> for Stop {
    ghost from_gives = { λ _ stop. stop ≡ Memory };

    fn from(_error: AllocError) -> Stop {
        Stop::Memory
    }
}

impl<T: Drop> From<AllocFailed<T>> for Stop {
    ghost from_gives = { λ _ stop. stop ≡ Memory };

    fn from(_error: AllocFailed<T>) -> Stop {
        Stop::Memory
    }
}

/// The command at the head of bytes, its name first, and the bytes after it. An empty command is skipped.
#[tactic(auto, unfolding(crate::specs::Incoming::command_at))]
pub(crate) fn command_at(alloc: Global, bytes: &[u8]) -> Result<(Vec<Vec<u8>>, &[u8]), Stop>
    ensures gives { Gives (λ x. (map (λ w. w.items) x.0.items, x.1.now)) result (command_at bytes.now) }
    ensures less { IfOk result (λ x. length x.1.now < length bytes.now) }
{
    match bytes {
        [] => Err(Stop::Short),
        [first, ..] => {
            if *first == b'*' {
                parse_array(alloc, bytes)
            } else {
                parse_line(alloc, bytes)
            }
        }
    }
}

/// How far an incomplete command was parsed.
#[derive(Clone, Copy, Debug, PartialEq, Eq)]
pub(crate) struct Scan {
    /// The bytes before this index are the count of its words, and complete words.
    at: usize,
    /// How many words are to come after them; 0 if the count is not known.
    left: u32,
    /// How many bytes are needed for the next word to be complete; 0 if its length is not known.
    pub(crate) wanted: usize,
}

impl Scan {
    /// Nothing was parsed.
    pub(crate) const NEW: Scan = Scan {
        at: 0,
        left: 0,
        wanted: 0,
    };
}

/// Parses more of a command, and returns whether it is an incomplete array. No byte of a word is read, and no
/// word is parsed again.
pub(crate) fn is_short(scan: &mut Scan, bytes: &[u8]) -> bool
    requires { IsScan scan.old bytes.now }
    ensures scan { IsScan scan.new bytes.now }
    ensures short { OnTrue result (command_at bytes.now ≡ Err short) }
{
    if scan.left == 0 {
        *scan = begin_scan(bytes);
    }
    'words: while scan.left > 0 {
        let (_, rest) = bytes.split_at(scan.at);
        match parse_word(rest) {
            Ok((_, behind)) => {
                *scan = Scan {
                    at: bytes.len() - behind.len(),
                    left: scan.left - 1,
                    wanted: 0,
                };
            }
            Err(Stop::Short) => {
                scan.wanted = scan.at.saturating_add(compute_word_room(rest));
                return true;
            }
            Err(_) => return false,
        }
    }
    false
}

/// The scan after the count of an array.
fn begin_scan(bytes: &[u8]) -> Scan
    ensures { IsScan result bytes.now }
{
    match bytes {
        [first, ..] if *first == b'*' => match parse_count(bytes) {
            Ok((count, rest)) => Scan {
                at: bytes.len() - rest.len(),
                left: count,
                wanted: 0,
            },
            Err(_) => Scan::NEW,
        },
        _ => Scan::NEW,
    }
}

/// How many bytes an incomplete word will have, with its length; 0 if that is not known.
fn compute_word_room(bytes: &[u8]) -> usize {
    let Ok((line, rest)) = parse_head(ProtocolError::LongLength, bytes) else {
        return 0;
    };
    match parse_word_len(line) {
        Ok(len) => (bytes.len() - rest.len()).saturating_add(len as usize + 2),
        Err(_) => 0,
    }
}

/// A command as an array of bulk strings.
#[tactic(auto, unfolding(crate::specs::Incoming::array_at))]
fn parse_array(alloc: Global, bytes: &[u8]) -> Result<(Vec<Vec<u8>>, &[u8]), Stop>
    ensures gives { Gives (λ x. (map (λ w. w.items) x.0.items, x.1.now)) result (array_at bytes.now) }
    ensures less { IfOk result (λ x. length x.1.now < length bytes.now) }
{
    let (count, rest) = parse_count(bytes)?;
    parse_words(alloc, count, rest)
}

/// How many words an array has, and the bytes after that.
#[tactic(auto, unfolding(crate::specs::Incoming::count_at))]
fn parse_count(bytes: &[u8]) -> Result<(u32, &[u8]), Stop>
    ensures gives { Gives (λ x. (x.0, x.1.now)) result (count_at bytes.now) }
    ensures less { IfOk result (λ x. length x.1.now < length bytes.now) }
{
    let (line, rest) = parse_head(ProtocolError::LongCount, bytes)?;
    Ok((parse_word_count(line)?, rest))
}

/// An inline command: a line of words.
#[tactic(auto, unfolding(crate::specs::Incoming::line_at))]
fn parse_line(alloc: Global, bytes: &[u8]) -> Result<(Vec<Vec<u8>>, &[u8]), Stop>
    ensures gives { Gives (λ x. (map (λ w. w.items) x.0.items, x.1.now)) result (line_at bytes.now) }
    ensures less { IfOk result (λ x. length x.1.now < length bytes.now) }
{
    let (line, rest) = split_before(b'\n', ProtocolError::LongLine, bytes)?;
    Ok((split_words(alloc, line)?, rest))
}

/// The next `count` bulk strings.
fn parse_words(alloc: Global, count: u32, bytes: &[u8]) -> Result<(Vec<Vec<u8>>, &[u8]), Stop>
    ensures gives { Gives (λ x. (map (λ w. w.items) x.0.items, x.1.now)) result (words_at count bytes.now) }
    ensures within { IfOk result (λ x. length x.1.now ≤ length bytes.now) }
{
    let mut words = Vec::new(alloc);
    let mut rest = bytes;
    let mut left = count;
    while left > 0 {
        let (word, behind) = parse_word(rest)?;
        words.push(Vec::from_slice(alloc, word)?)?;
        rest = behind;
        left -= 1;
    }
    Ok((words, rest))
}

/// A bulk string: its length, its bytes, and any two bytes after them.
#[tactic(auto, unfolding(crate::specs::Incoming::word_at))]
fn parse_word(bytes: &[u8]) -> Result<(&[u8], &[u8]), Stop>
    ensures gives { Gives (λ x. (x.0.now, x.1.now)) result (word_at bytes.now) }
    ensures within { IfOk result (λ x. length x.1.now ≤ length bytes.now) }
{
    let (line, rest) = parse_head(ProtocolError::LongLength, bytes)?;
    let len = parse_word_len(line)?;
    parse_body(rest, len as usize)
}

/// The next `len` bytes, with any two bytes after them.
#[tactic(auto, unfolding(crate::specs::Incoming::body_at, crate::specs::Incoming::behind_two))]
fn parse_body(bytes: &[u8], len: usize) -> Result<(&[u8], &[u8]), Stop>
    ensures gives { Gives (λ x. (x.0.now, x.1.now)) result (body_at bytes.now len) }
    ensures within { IfOk result (λ x. length x.1.now ≤ length bytes.now) }
{
    if bytes.len() < len {
        return Err(Stop::Short);
    }
    let (word, behind) = bytes.split_at(len);
    match behind {
        [_, _, rest @ ..] => Ok((word, rest)),
        _ => Err(Stop::Short),
    }
}

/// The number of words in the head of an array.
#[tactic(auto, unfolding(crate::specs::Incoming::word_count))]
fn parse_word_count(line: &[u8]) -> Result<u32, Stop>
    ensures { Gives (λ n. n) result (word_count line.now) }
{
    match line {
        [] => Err(Stop::Fault(ProtocolError::BadCount)),
        [_, digits @ ..] => check_count(number_of(digits)),
    }
}

/// The number of words of an array; 0 for a negative number.
fn check_count(number: Option<i64>) -> Result<u32, Stop>
    ensures { Gives (λ n. n) result (count_of number) }
{
    match number {
        None => Err(Stop::Fault(ProtocolError::BadCount)),
        Some(n) => {
            if n < 0 {
                return Ok(0);
            }
            let count = n as u64;
            if MOST_WORDS < count {
                Err(Stop::Fault(ProtocolError::BadCount))
            } else {
                Ok(count as u32)
            }
        }
    }
}

/// The length in the head of a bulk string.
#[tactic(auto, unfolding(crate::specs::Incoming::word_len))]
fn parse_word_len(line: &[u8]) -> Result<u32, Stop>
    ensures { Gives (λ n. n) result (word_len line.now) }
{
    match line {
        [] => Err(Stop::Fault(ProtocolError::NoLength(b'\r'))),
        [first, digits @ ..] => {
            if *first == b'$' {
                check_length(number_of(digits))
            } else {
                Err(Stop::Fault(ProtocolError::NoLength(*first)))
            }
        }
    }
}

/// The length of a bulk string.
fn check_length(number: Option<i64>) -> Result<u32, Stop>
    ensures { Gives (λ n. n) result (length_of number) }
{
    match number {
        None => Err(Stop::Fault(ProtocolError::BadLength)),
        Some(n) => {
            if n < 0 {
                return Err(Stop::Fault(ProtocolError::BadLength));
            }
            let len = n as u64;
            if LONGEST_WORD < len {
                Err(Stop::Fault(ProtocolError::BadLength))
            } else {
                Ok(len as u32)
            }
        }
    }
}

/// The number of a text, with no plus sign and no leading zero.
#[tactic(auto, unfolding(crate::specs::Incoming::strict_number))]
pub(crate) fn number_of(text: &[u8]) -> Option<i64>
    ensures { result ≡ strict_number text.now }
{
    match parse_number(text) {
        None => None,
        Some(n) => {
            if is_written_so(n, text) {
                Some(n)
            } else {
                None
            }
        }
    }
}

/// The number of a text, with any sign and leading zeros.
fn parse_number(text: &[u8]) -> Option<i64>
    ensures { result ≡ number_of text.now }
{
    let Ok(text) = str::from_utf8(text) else {
        return None;
    };
    text.parse().ok()
}

/// Whether this is the text of the number.
fn is_written_so(number: i64, text: &[u8]) -> bool
    ensures { result ≡ bytes_eq (signed_decimal number) text.now }
{
    Buffer::new().format::<i64>(number).as_bytes() == text
}

/// The line at the head of bytes, ended by CR and one more byte, and the bytes after those.
#[tactic(auto, unfolding(crate::specs::Incoming::head_at, crate::specs::Incoming::behind_one))]
fn parse_head(fault: ProtocolError, bytes: &[u8]) -> Result<(&[u8], &[u8]), Stop>
    ensures gives { Gives (λ x. (x.0.now, x.1.now)) result (head_at fault bytes.now) }
    ensures less { IfOk result (λ x. length x.1.now < length bytes.now) }
{
    let (line, behind) = split_before(b'\r', fault, bytes)?;
    match behind {
        [] => Err(Stop::Short),
        [_, rest @ ..] => Ok((line, rest)),
    }
}

/// The bytes before the first `end`, and those after it. A NUL before it means that there is no end.
#[tactic(auto, unfolding(crate::specs::Incoming::before))]
fn split_before(end: u8, fault: ProtocolError, bytes: &[u8]) -> Result<(&[u8], &[u8]), Stop>
    ensures gives { Gives (λ x. (x.0.now, x.1.now)) result (before end fault bytes.now) }
    ensures less { IfOk result (λ x. length x.1.now < length bytes.now) }
{
    let len = find_front_len(end, bytes);
    if len > LONGEST_LINE {
        return Err(Stop::Fault(fault));
    }
    let (front, rest) = bytes.split_at(len);
    require_end(end, fault, bytes.len(), front, rest)
}

/// The first bytes, and what is after the byte that has to end them.
#[tactic(auto, unfolding(crate::specs::Incoming::ended))]
fn require_end<'a>(
    end: u8,
    fault: ProtocolError,
    len: usize,
    front: &'a [u8],
    rest: &'a [u8],
) -> Result<(&'a [u8], &'a [u8]), Stop>
    ensures gives { Gives (λ x. (x.0.now, x.1.now)) result (ended end fault len front.now rest.now) }
    ensures less { IfOk result (λ x. length x.1.now < length rest.now) }
{
    match rest {
        [] => {
            if len > LONGEST_LINE {
                Err(Stop::Fault(fault))
            } else {
                Err(Stop::Short)
            }
        }
        [first, behind @ ..] => {
            if *first == end {
                Ok((front, behind))
            } else if len > LONGEST_LINE {
                Err(Stop::Fault(fault))
            } else {
                Err(Stop::Short)
            }
        }
    }
}

/// How many bytes are before the first `end` or NUL.
fn find_front_len(end: u8, bytes: &[u8]) -> usize
    ensures len { result ≡ prefix_len (is_before end) bytes.now }
    ensures within { result ≤ length bytes.now }
{
    bytes
        .iter()
        .take_while(|byte| **byte != end && **byte != 0)
        .count()
}

/// Appends the reply to a protocol error.
pub(crate) fn push_protocol_error(
    alloc: Global,
    out: &mut Vec<u8>,
    error: ProtocolError,
) -> Result<(), AllocError>
    ensures ok { OnOk result (out.new.items ≡ out.old.items ++ protocol_error_bytes error) }
    ensures err { OnErr result (out.new.items ≡ out.old.items) }
{
    let mut line = Vec::new(alloc);
    push_line(&mut line, b'-', &make_error_text(alloc, error)?)?;
    out.extend_from_slice(&line)?;
    Ok(())
}

/// The text of a protocol error.
fn make_error_text(alloc: Global, error: ProtocolError) -> Result<Vec<u8>, AllocError>
    ensures { IfOk result (λ v. v.items ≡ error_text error) }
{
    let mut text = Vec::from_slice(alloc, b"ERR Protocol error: ")?;
    text.extend_from_slice(error.text())?;
    if let ProtocolError::NoLength(byte) = error {
        text.push(show_byte(byte))?;
        text.push(b'\'')?;
    }
    Ok(text)
}

/// A byte as an error shows it: a space in place of CR and LF.
fn show_byte(byte: u8) -> u8
    ensures { result ≡ blank_end byte }
{
    if byte == b'\r' || byte == b'\n' {
        b' '
    } else {
        byte
    }
}

impl ProtocolError {
    /// The text of redis-server; for `NoLength` the byte and a quote follow.
    pub fn text(self) -> &'static [u8]
        ensures { result.now ≡ fault_text self }
    {
        match self {
            ProtocolError::LongCount => b"too big mbulk count string",
            ProtocolError::LongLength => b"too big bulk count string",
            ProtocolError::LongLine => b"too big inline request",
            ProtocolError::BadCount => b"invalid multibulk length",
            ProtocolError::BadLength => b"invalid bulk length",
            ProtocolError::NoLength(_) => b"expected '$', got '",
            ProtocolError::UnbalancedQuotes => b"unbalanced quotes in request",
        }
    }
}
