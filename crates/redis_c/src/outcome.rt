//! The outcomes of parsing a reply, and their status codes.
ghost use Rattle.std.specs.Prelude.{◌≡◌};
ghost use Rattle.redis_c.specs.Outcome.{code_of_fault, code, found};
ghost use Rattle.redis_c.specs.Told.{IsWanting};

use crate::code;
use redis_wire::Fault;
use redis_wire::place::Span;

/// The number of places in each table.
#[derive(Clone, Copy)]
pub struct Counts {
    /// The number of streams.
    pub streams: usize,
    /// The number of entries.
    pub entries: usize,
    /// The number of fields.
    pub fields: usize,
}

/// The outcome of parsing a reply.
#[derive(Clone, Copy)]
pub enum Outcome {
    /// The tables hold the places.
    InPlace {
        /// The number of bytes of the reply.
        len: usize,
        counts: Counts,
    },
    /// The tables have too little room; the needed sizes follow.
    Room {
        /// The number of bytes of the reply.
        len: usize,
        counts: Counts,
    },
    /// The reply is not complete.
    Incomplete,
    /// The server returned an error.
    ServerError {
        /// The number of bytes of the reply.
        len: usize,
        /// The place of the text of the error.
        text: Span,
    },
    /// A reply of another shape.
    OtherShape {
        /// The number of bytes of the reply.
        len: usize,
    },
    /// Out of memory.
    Memory,
    /// The bytes are not a prefix of any reply.
    Fault(Fault),
}

/// The values that C receives beside the status code.
#[repr(C)]
#[derive(Clone, Copy, Debug, PartialEq, Eq)]
pub struct Found {
    /// The number of bytes of the reply, and 0 if there is none.
    pub len: usize,
    /// The number of streams.
    pub streams: usize,
    /// The number of entries in all of them.
    pub entries: usize,
    /// The number of fields in all of these.
    pub fields: usize,
    /// The place of the text of the server's error.
    pub error: Span,
}

impl Outcome {
    /// The status code of the outcome.
    pub fn code(self) -> u32
        ensures { result ≡ code self }
    {
        match self {
            Outcome::InPlace { .. } => code::OK,
            Outcome::Room { .. } => code::ROOM,
            Outcome::Incomplete => code::INCOMPLETE,
            Outcome::ServerError { .. } => code::SERVER_ERROR,
            Outcome::OtherShape { .. } => code::OTHER,
            Outcome::Memory => code::MEMORY,
            Outcome::Fault(fault) => code_of_fault(fault),
        }
    }

    /// The values that C receives beside the code.
    pub fn found(self) -> Found
        ensures { result ≡ found self }
    {
        let none = Counts {
            streams: 0,
            entries: 0,
            fields: 0,
        };
        let nowhere = Span { start: 0, len: 0 };
        match self {
            Outcome::InPlace { len, counts } => build_found(len, counts, nowhere),
            Outcome::Room { len, counts } => build_found(len, counts, nowhere),
            Outcome::ServerError { len, text } => build_found(len, none, text),
            Outcome::OtherShape { len } => build_found(len, none, nowhere),
            Outcome::Incomplete | Outcome::Memory | Outcome::Fault(_) => build_found(
                0, none, nowhere,
            ),
        }
    }

    /// Writes the values to `beside`, and returns the status code.
    pub fn tell(self, beside: &mut Found) -> u32
        ensures number { result ≡ code self }
        ensures beside { beside.new ≡ found self }
    {
        *beside = self.found();
        self.code()
    }
}

/// The outcome for a reply of `len` bytes with these counts of places, if tables with this room were not filled.
pub fn wanted(len: usize, counts: Counts, room: Counts) -> Outcome
    ensures { IsWanting len counts room result }
{
    if counts.streams > room.streams {
        return Outcome::Room { len, counts };
    }
    if counts.entries > room.entries {
        return Outcome::Room { len, counts };
    }
    if counts.fields > room.fields {
        return Outcome::Room { len, counts };
    }
    // Tables with enough room were not filled, so an allocation failed.
    Outcome::Memory
}

/// A length, counts and a place, for C.
fn build_found(len: usize, counts: Counts, error: Span) -> Found
    ensures { result ≡ record {
      len = len;
      streams = counts.streams;
      entries = counts.entries;
      fields = counts.fields;
      error = error;
    } }
{
    Found {
        len,
        streams: counts.streams,
        entries: counts.entries,
        fields: counts.fields,
        error,
    }
}

/// The status code of a fault.
pub fn code_of_fault(fault: Fault) -> u32
    ensures { result ≡ code_of_fault fault }
{
    match fault {
        Fault::UnknownType => code::FAULT_UNKNOWN_TYPE,
        Fault::Streamed => code::FAULT_STREAMED,
        Fault::BadEnd => code::FAULT_BAD_END,
        Fault::BadLength => code::FAULT_BAD_LENGTH,
        Fault::TooLong => code::FAULT_TOO_LONG,
        Fault::LongLine => code::FAULT_LONG_LINE,
        Fault::TooDeep => code::FAULT_TOO_DEEP,
        Fault::BadNumber => code::FAULT_BAD_NUMBER,
        Fault::BadNull => code::FAULT_BAD_NULL,
        Fault::BadBoolean => code::FAULT_BAD_BOOLEAN,
        Fault::NotUtf8 => code::FAULT_NOT_UTF8,
        Fault::BadVerbatim => code::FAULT_BAD_VERBATIM,
        Fault::BadPush => code::FAULT_BAD_PUSH,
        Fault::Overfull => code::FAULT_OVERFULL,
        Fault::TooMany => code::FAULT_TOO_MANY,
    }
}
