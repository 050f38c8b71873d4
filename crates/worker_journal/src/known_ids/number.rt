//! An id as one number.
ghost use Rattle.std.specs.Prelude.{◌≡◌, ◌≤◌, length};
ghost use Rattle.std.specs.List.{prefix_len};
ghost use Rattle.worker_journal.specs.KnownIds.Cut.{is_other};
ghost use Rattle.worker_journal.specs.KnownIds.Number.{number_of, part_of, seq_of};

use itoa::Buffer;
use redis_resp::unsigned_in;

/// Returns the number of an id: its milliseconds times 2^64, plus its sequence number. Returns `None` unless
/// the text is an id as servers write it. That is two numbers of 64 bits with a hyphen between them, without a
/// sign and without leading zeros.
pub fn number_of(text: &[u8]) -> Option<u128>
    ensures { result ≡ number_of text.now }
{
    let (ms, behind) = text.split_at(count_before(text, b'-'));
    let ms = parse_part(ms)?;
    let seq = parse_seq(behind)?;
    Some(ms as u128 * 18_446_744_073_709_551_616 + seq as u128)
}

/// Returns the sequence number. The text is what follows the milliseconds: a hyphen and the number.
fn parse_seq(behind: &[u8]) -> Option<u64>
    ensures { result ≡ seq_of behind.now }
{
    match behind {
        [] => None,
        [_, seq @ ..] => parse_part(seq),
    }
}

/// Returns the number of one part of an id.
fn parse_part(text: &[u8]) -> Option<u64>
    ensures { result ≡ part_of text.now }
{
    let number = unsigned_in(text)?;
    if Buffer::new().format::<u64>(number).as_bytes() == text {
        Some(number)
    } else {
        None
    }
}

/// Returns how many bytes are before the first byte `end`.
pub(crate) fn count_before(text: &[u8], end: u8) -> usize
    ensures count { result ≡ prefix_len (is_other end) text.now }
    ensures within { result ≤ length text.now }
{
    text.iter().take_while(|byte| **byte != end).count()
}
