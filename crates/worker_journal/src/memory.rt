//! A file in memory.
ghost use Rattle.std.specs.Prelude.{◌≡◌, ◌⊎◌, [], ◌∷◌, ◌++◌, Some, length, drop, OnOk, OnErr};
ghost use Rattle.std.proofs.Common.{inl, refl};
ghost use Rattle.worker_journal.specs.Past.{HadBeen, only_bytes};

use crate::device::LogFile;
use crate::error::LogError;
use std::alloc::{AllocError, Global};

/// A file in memory. Each call takes effect at once, so a crash leaves the current bytes. The file keeps each
/// earlier content.
#[derive(Drop)]
pub struct MemoryFile {
    alloc: Global,
    bytes: Vec<u8>,
    past: Vec<Vec<u8>>,
}

impl MemoryFile {
    /// Returns a file with these bytes.
    pub fn new(alloc: Global, bytes: Vec<u8>) -> MemoryFile
        ensures { result.bytes.items ≡ bytes.items }
    {
        MemoryFile {
            alloc,
            bytes,
            past: Vec::new(alloc),
        }
    }

    /// Returns the bytes of the file.
    pub fn bytes(&self) -> &[u8]
        ensures { result.now ≡ self.now.bytes.items }
    {
        &self.bytes
    }
}

/// Replaces the bytes, and keeps the old ones in `past`.
fn replace(
    alloc: Global,
    bytes: &mut Vec<u8>,
    past: &mut Vec<Vec<u8>>,
    next: Vec<u8>,
) -> Result<(), AllocError>
    ensures ok { OnOk result (bytes.new.items ≡ next.items) }
    ensures err { OnErr result (bytes.new.items ≡ bytes.old.items) }
    ensures past { OnOk result ((v : _) × (v.items ≡ bytes.old.items)
        × (past.new.items ≡ past.old.items ++ v ∷ [])) }
    ensures past_err { OnErr result (past.new.items ≡ past.old.items) }
{
    past.push(bytes.to_vec(alloc)?)?;
    *bytes = next;
    Ok(())
}

impl LogFile for MemoryFile {
    ghost seen = { λ m. Some m.bytes.items };

    ghost may_leave = { λ m c. c ≡ m.bytes.items };

    ghost is_sound = { λ m. Unit {0} };

    ghost seen_is_left = { λ m. refl };

    ghost moment = { λ m. length m.past.items };

    ghost left_since = { λ m t c. (c ≡ m.bytes.items) ⊎ HadBeen (drop t m.past.items) c };

    ghost counts_now = { λ m t c le now. inl now };

    ghost only_now = { λ m c left. only_bytes m.past.items m.bytes.items c left };

    fn len(&self) -> Result<usize, LogError> {
        Ok(self.bytes.len())
    }

    fn read_at(&self, alloc: Global, at: usize, len: usize) -> Result<Vec<u8>, LogError> {
        Ok(
            self.bytes
                .iter()
                .skip(at)
                .take(len)
                .copied()
                .collect(alloc)?,
        )
    }

    fn append(&mut self, bytes: &[u8]) -> Result<(), LogError> {
        let mut next = self.bytes.to_vec(self.alloc)?;
        next.extend_from_slice(bytes)?;
        Ok(replace(self.alloc, &mut self.bytes, &mut self.past, next)?)
    }

    fn cut(&mut self, len: usize) -> Result<(), LogError> {
        let mut next = self.bytes.to_vec(self.alloc)?;
        next.truncate(len);
        Ok(replace(self.alloc, &mut self.bytes, &mut self.past, next)?)
    }

    fn sync(&mut self) -> Result<(), LogError> {
        Ok(())
    }
}
