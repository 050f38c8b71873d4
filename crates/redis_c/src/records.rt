//! Records of replies as plain numbers, flags and places of texts, and the outcomes of parsing them.
ghost use Rattle.std.specs.Prelude.{◌≡◌};
ghost use Rattle.redis_c.specs.Records.{records_code, records_found};

use crate::code;
use crate::outcome::Outcome;
use redis_wire::place::Span;

/// A group of a stream. Its texts are in the bytes that the call writes beside it.
#[repr(C)]
#[derive(Clone, Copy, Debug, PartialEq, Eq)]
pub struct GroupRecord {
    /// The place of its name.
    pub name: Span,
    /// The place of the id of the last delivered entry.
    pub last_delivered_id: Span,
    /// The number of its consumers.
    pub consumers: usize,
    /// The number of entries that were delivered and are not yet acknowledged.
    pub pending: usize,
    /// Whether the reply has `entries_read`.
    pub has_entries_read: bool,
    /// Whether the reply has `lag`.
    pub has_lag: bool,
    /// The number of entries that the group has read.
    pub entries_read: usize,
    /// The number of entries that the group has not read yet.
    pub lag: usize,
}

/// A pending entry. Its texts are in the bytes that the call writes beside it.
#[repr(C)]
#[derive(Clone, Copy, Debug, PartialEq, Eq)]
pub struct PendingRecord {
    /// The place of its id.
    pub id: Span,
    /// The place of the name of its consumer.
    pub consumer: Span,
    /// The number of milliseconds since its last delivery.
    pub last_delivered_ms: usize,
    /// The number of deliveries.
    pub times_delivered: usize,
}

/// A consumer that has pending entries. Its name is in the bytes that the call writes beside it.
#[repr(C)]
#[derive(Clone, Copy, Debug, PartialEq, Eq)]
pub struct ConsumerRecord {
    /// The place of its name.
    pub name: Span,
    /// The number of entries pending for it.
    pub pending: usize,
}

/// The pending entries of a group: none if `count` is 0. Its texts are in the bytes that the call writes beside
/// it.
#[repr(C)]
#[derive(Clone, Copy, Debug, PartialEq, Eq)]
pub struct SummaryRecord {
    /// The number of pending entries.
    pub count: usize,
    /// The place of the smallest id among them.
    pub start_id: Span,
    /// The place of the largest id among them.
    pub end_id: Span,
}

/// The values that C receives beside the status code.
#[repr(C)]
#[derive(Clone, Copy, Debug, PartialEq, Eq)]
pub struct RecordsFound {
    /// The number of bytes of the reply, and 0 if there is none.
    pub len: usize,
    /// The number of records.
    pub records: usize,
    /// The number of bytes of their texts.
    pub text: usize,
    /// The place of the text of the server's error.
    pub error: Span,
}

/// The outcome of parsing records.
#[derive(Clone, Copy)]
pub enum Records {
    /// The tables hold the records.
    Copied {
        /// The number of bytes of the reply.
        len: usize,
        /// The number of records.
        records: usize,
        /// The number of bytes of their texts.
        text: usize,
    },
    /// The tables have too little room; the needed sizes follow.
    Room {
        /// The number of bytes of the reply.
        len: usize,
        /// The number of records.
        records: usize,
        /// The number of bytes of their texts.
        text: usize,
    },
    /// There are no records.
    Unread(Outcome),
}

impl Records {
    /// The status code of the outcome.
    fn get_code(self) -> u32
        ensures { result ≡ records_code self }
    {
        match self {
            Records::Copied { .. } => code::OK,
            Records::Room { .. } => code::ROOM,
            Records::Unread(outcome) => outcome.code(),
        }
    }

    /// The values that C receives beside the code.
    fn get_found(self) -> RecordsFound
        ensures { result ≡ records_found self }
    {
        match self {
            Records::Copied { len, records, text } | Records::Room { len, records, text } => {
                RecordsFound {
                    len,
                    records,
                    text,
                    error: Span { start: 0, len: 0 },
                }
            }
            Records::Unread(outcome) => {
                let found = outcome.found();
                RecordsFound {
                    len: found.len,
                    records: 0,
                    text: 0,
                    error: found.error,
                }
            }
        }
    }

    /// Writes the values to `found`, and returns the status code.
    pub fn tell(self, found: &mut RecordsFound) -> u32
        ensures number { result ≡ records_code self }
        ensures beside { found.new ≡ records_found self }
    {
        *found = self.get_found();
        self.get_code()
    }
}
