//! Ids in their two parts.
ghost use Rattle.std.specs.Prelude.{◌≡◌, IfOk, nat_lt, option_and_then};
ghost use Rattle.std.specs.List.{prefix_len};
ghost use Rattle.redis_resp.specs.Number.{unsigned_of, within};
ghost use Rattle.stream_in_place.specs.IdParts.{id_number, id_text, behind_text, is_of_part, id_in};

use itoa::Buffer;
use redis_resp::unsigned_in;
use std::alloc::{AllocError, Global};

/// The id of an entry in its two parts, such as `1526919030474-55`. Ids have the order in which a
/// stream holds its entries: by the milliseconds, then by the sequence number.
#[derive(Clone, Copy, Debug, PartialEq, Eq, PartialOrd, Ord)]
pub struct StreamIdParts {
    /// The milliseconds, usually since 1970.
    pub ms: u64,
    /// The sequence number among the entries of that millisecond.
    pub seq: u64,
}

impl StreamIdParts {
    /// Parses an id: the milliseconds, `-` and the sequence number. Each part is digits after an
    /// optional `+`, within 64 bits.
    pub fn parse(text: &[u8]) -> Option<StreamIdParts>
        ensures { result ≡ id_in text.now }
    {
        let (ms, behind) = text.split_at(part_len(text));
        match behind {
            [] => None,
            [_, seq @ ..] => Some(StreamIdParts {
                ms: unsigned_in(ms)?,
                seq: unsigned_in(seq)?,
            }),
        }
    }

    /// Whether an entry with this id comes before one with the other id in a stream.
    pub fn is_before(self, other: StreamIdParts) -> bool
        ensures { result ≡ nat_lt (id_number self) (id_number other) }
    {
        self.ms < other.ms || (self.ms == other.ms && self.seq < other.seq)
    }

    /// Returns the id as replies and commands write it: the milliseconds, `-` and the sequence number.
    pub fn to_text(self, alloc: Global) -> Result<Vec<u8>, AllocError>
        ensures { IfOk result (λ text. text.items ≡ id_text self) }
    {
        let mut text = Vec::with_capacity(alloc, 41)?;
        text.extend_from_slice(Buffer::new().format::<u64>(self.ms).as_bytes())?;
        text.push(b'-')?;
        text.extend_from_slice(Buffer::new().format::<u64>(self.seq).as_bytes())?;
        Ok(text)
    }

    /// Returns the id as an exclusive bound of XRANGE: `(` and the id. As a start it selects
    /// the entries after this id.
    pub fn to_exclusive_text(self, alloc: Global) -> Result<Vec<u8>, AllocError>
        ensures { IfOk result (λ text. text.items ≡ behind_text self) }
    {
        let mut text = Vec::with_capacity(alloc, 42)?;
        text.push(b'(')?;
        text.extend_from_slice(Buffer::new().format::<u64>(self.ms).as_bytes())?;
        text.push(b'-')?;
        text.extend_from_slice(Buffer::new().format::<u64>(self.seq).as_bytes())?;
        Ok(text)
    }
}

/// The number of bytes before the first `-`.
fn part_len(text: &[u8]) -> usize
    ensures { result ≡ prefix_len is_of_part text.now }
{
    text.iter().take_while(|byte| **byte != b'-').count()
}
