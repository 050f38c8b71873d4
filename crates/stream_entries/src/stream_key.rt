//! A stream with its entries.
ghost use Rattle.std.specs.Prelude.{◌≡◌, [], IsOk, IfOk};
ghost use Rattle.stream_entries.specs.ReadMeaning.{stream_key_meaning};

use crate::stream_id::{StreamId, copy_entries};
use std::alloc::{AllocError, Global};

/// A stream with the entries that XREAD or XREADGROUP read from it.
#[derive(Debug, Drop)]
pub struct StreamKey {
    /// The name of the stream.
    pub key: String,
    /// Its entries, in order.
    pub ids: Vec<StreamId>,
}

impl StreamKey {
    /// Creates a stream with an empty name and no entries. It allocates nothing and is always Ok.
    pub fn empty(alloc: Global) -> Result<StreamKey, AllocError>
        ensures ok { IsOk result }
        ensures stream { IfOk result (λ k. stream_key_meaning k ≡ ([], [])) }
    {
        Ok(StreamKey {
            key: String::new(alloc),
            ids: Vec::new(alloc),
        })
    }

    /// Copies the stream. It fails only if it is out of memory.
    pub fn try_clone(&self, alloc: Global) -> Result<StreamKey, AllocError>
        ensures { IfOk result (λ k. stream_key_meaning k ≡ stream_key_meaning self.now) }
    {
        let key = String::from_str(alloc, &self.key)?;
        let ids = copy_entries(alloc, &self.ids)?;
        Ok(StreamKey { key, ids })
    }
}
