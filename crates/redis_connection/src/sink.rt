//! A writer, as the contracts of `outgoing` see it.
ghost use Rattle.std.specs.Prelude.{ℕ, List, Option, OnOk, IfErr};
ghost use Rattle.std.specs.declared.io.Error.{Error};
ghost use Rattle.std.specs.Io.{WritesAtMost};
ghost use Rattle.std.specs.Io.KnownBytes.{Keeps, WriteAppends};
ghost use Rattle.redis_connection.specs.Usable.{MayWriteAfter};

use std::io;
use std::io::Write;

/// A writer that is not used again once a call has failed. A write that a signal interrupted is no
/// failure.
pub trait Sink {
    // the bytes that the writer holds, if they are known
    ghost contents: { Self → Option (List ℕ) };

    // whether it may be used: no call has failed
    ghost may_write: { Self → Type 0 };

    // whether the last call failed with this error
    ghost failed_with: { Self → Error → Type 0 };

    // whether the last call was a flush that succeeded
    ghost is_flushed: { Self → Type 0 };

    /// Writes once.
    fn write_some(&mut self, bytes: &[u8]) -> io::Result<usize>
        requires { may_write self.old }
        ensures bound { WritesAtMost result bytes.now }
        ensures bytes { WriteAppends (contents self.old) (contents self.new) result bytes.now }
        ensures again { MayWriteAfter result (may_write self.new) }
        ensures failed { IfErr result (failed_with self.new) };

    /// Flushes the writer.
    fn flush_all(&mut self) -> io::Result<()>
        requires { may_write self.old }
        ensures bytes { Keeps (contents self.old) (contents self.new) }
        ensures flushed { OnOk result (is_flushed self.new) }
        ensures failed { IfErr result (failed_with self.new) };
}

/// A call of this crate may begin with any writer.
impl<W: Write> Sink for W {
    ghost contents = { W.contents };

    ghost may_write = { λ _. Unit {0} };

    ghost failed_with = { λ _ _. Unit {0} };

    ghost is_flushed = { λ _. Unit {0} };

    fn write_some(&mut self, bytes: &[u8]) -> io::Result<usize> {
        self.write(bytes)
    }

    fn flush_all(&mut self) -> io::Result<()> {
        self.flush()
    }
}
