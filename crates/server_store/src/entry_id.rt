//! Ids of entries.
ghost use Rattle.std.specs.Prelude.{◌≡◌, ◌+◌, ◌<◌, ◌++◌, IfOk, IfSome, IfNone};
ghost use Rattle.server_store.specs.EntryId.{id_number, id_count, id_text};

use itoa::Buffer;
use std::alloc::{AllocError, Global};

/// The id of an entry, such as `1526919030474-55`.
#[derive(Clone, Copy, Debug, PartialEq, Eq, PartialOrd, Ord)]
pub struct EntryId {
    /// Milliseconds, usually of Unix time.
    pub milliseconds: u64,
    /// The sequence number within that millisecond.
    pub sequence: u64,
}

impl EntryId {
    /// Below every entry.
    pub const ZERO: EntryId = EntryId {
        milliseconds: 0,
        sequence: 0,
    };

    /// The largest one.
    pub const LAST: EntryId = EntryId {
        milliseconds: u64::MAX,
        sequence: u64::MAX,
    };

    /// The next larger one; `None` after the largest one.
    pub fn next(self) -> Option<EntryId>
        ensures some { IfSome result (λ id. id_number id ≡ id_number self + 1) }
        ensures none { IfNone result (id_number self + 1 ≡ id_count) }
    {
        if self.sequence < u64::MAX {
            return Some(EntryId {
                milliseconds: self.milliseconds,
                sequence: self.sequence + 1,
            });
        }
        if self.milliseconds < u64::MAX {
            return Some(EntryId {
                milliseconds: self.milliseconds + 1,
                sequence: 0,
            });
        }
        None
    }

    /// The next smaller one; `None` before the smallest one.
    pub fn previous(self) -> Option<EntryId>
        ensures some { IfSome result (λ id. id_number id + 1 ≡ id_number self) }
        ensures none { IfNone result (id_number self ≡ 0) }
    {
        if self.sequence > 0 {
            return Some(EntryId {
                milliseconds: self.milliseconds,
                sequence: self.sequence - 1,
            });
        }
        if self.milliseconds > 0 {
            return Some(EntryId {
                milliseconds: self.milliseconds - 1,
                sequence: u64::MAX,
            });
        }
        None
    }

    /// The id as text: `milliseconds-sequence`.
    pub fn to_text(self, alloc: Global) -> Result<Vec<u8>, AllocError>
        ensures { IfOk result (λ text. text.items ≡ id_text self) }
    {
        let mut text = Vec::with_capacity(alloc, 41)?;
        text.extend_from_slice(Buffer::new().format::<u64>(self.milliseconds).as_bytes())?;
        text.push(b'-')?;
        text.extend_from_slice(Buffer::new().format::<u64>(self.sequence).as_bytes())?;
        Ok(text)
    }
}
