//! Bytes that are sent before they are written.
ghost use Rattle.std.specs.Prelude.{◌≡◌, ◌⊎◌, ◌↔◌, [], ℕ, List, IsTrue, take};
ghost use Rattle.std.specs.Io.KnownBytes.{Keeps};
ghost use Rattle.redis_connection.specs.Early.{IsQueued, written};

use crate::connection::take_front;
use memchr::memmem;
use std::alloc::Global;
use std::io;
use std::io::{ErrorKind, Write};

/// `MULTI` as bytes.
const MULTI: &[u8] = b"*1\r\n$5\r\nMULTI\r\n";
/// `EXEC` as bytes.
const EXEC: &[u8] = b"*1\r\n$4\r\nEXEC\r\n";

/// A writer that may send bytes before they are written.
pub trait WriteEarly: Write {
    /// Sends some of the first of these bytes, or none. They are written only by the next write, which has to begin with
    /// them.
    fn write_early(&mut self, bytes: &[u8])
        ensures { Keeps (Self.contents self.old) (Self.contents self.new) };
}

/// A writer over another one. It sends a transaction early, but for its `EXEC`, and does not send it again when it is
/// written. So the server executes nothing that was not written. The write of other bytes after that is the error
/// `InvalidInput`.
#[derive(Drop)]
pub struct EarlyWriter<W: Write + Drop> {
    inner: W,
    /// The bytes that were sent, and are not written yet.
    early: Vec<u8>,
}

impl<W: Write + Drop> EarlyWriter<W> {
    /// Makes a writer that has sent nothing early.
    pub fn new(alloc: Global, inner: W) -> EarlyWriter<W>
        ensures inner { result.inner ≡ inner }
        ensures early { result.early.items ≡ [] }
    {
        EarlyWriter {
            inner,
            early: Vec::new(alloc),
        }
    }
}

impl<W: Write + Drop> Write for EarlyWriter<W> {
    ghost contents = { λ w. written w.early.items (W.contents w.inner) };

    fn write(&mut self, bytes: &[u8]) -> io::Result<usize> {
        if self.early.is_empty() {
            return self.inner.write(bytes);
        }
        let count = self.early.len().min(bytes.len());
        if !are_same(&self.early[..count], &bytes[..count]) {
            return Err(io::Error::from(ErrorKind::InvalidInput));
        }
        if count == self.early.len() {
            self.early.clear();
        } else {
            drop(self.early.drain(..count));
        }
        Ok(count)
    }

    fn flush(&mut self) -> io::Result<()> {
        self.inner.flush()
    }
}

impl<W: Write + Drop> WriteEarly for EarlyWriter<W> {
    /// Sends the commands of a transaction before its `EXEC`, as many bytes as one write takes. Nothing is sent of other
    /// bytes, or if bytes that were sent early are not written yet, or if the write fails. That error is not returned, and
    /// the next write sends these bytes.
    fn write_early(&mut self, bytes: &[u8])
        ensures written { Keeps (written self.old.early.items (W.contents self.old.inner))
            (written self.new.early.items (W.contents self.new.inner)) }
        ensures queued { (self.new.early.items ≡ self.old.early.items) ⊎ ((queued : List ℕ) × (n : ℕ)
            × IsQueued bytes.now queued × (self.new.early.items ≡ take n queued)) }
    {
        let queued = find_queued(bytes);
        if queued.is_empty() || !self.early.is_empty() {
            return;
        }
        let Ok(()) = self.early.extend_from_slice(queued) else {
            return;
        };
        let sent = self.inner.write(queued).unwrap_or(0);
        self.early.truncate(sent);
    }
}

/// Returns the commands of a transaction before its `EXEC`, or none if these bytes are no transaction.
fn find_queued(bytes: &[u8]) -> &[u8]
    ensures only { (result.now ≡ []) ⊎ IsQueued bytes.now result.now }
    ensures all { (queued : List ℕ) → IsQueued bytes.now queued → result.now ≡ queued }
{
    if !bytes.starts_with(MULTI) {
        return &[];
    }
    match memmem::find(bytes, EXEC) {
        Some(len) => take_front(bytes, len),
        None => &[],
    }
}

/// Whether these bytes are the same.
fn are_same(a: &[u8], b: &[u8]) -> bool
    ensures { IsTrue result ↔ (a.now ≡ b.now) }
{
    a == b
}
