//! A reader, as the contracts of `incoming` see it.
ghost use Rattle.std.specs.Prelude.{ℕ, List, Option, IfErr};
ghost use Rattle.std.specs.declared.io.Error.{Error};
ghost use Rattle.std.specs.Io.{ReadsAtMost};
ghost use Rattle.std.specs.Io.KnownBytes.{ReadConsumes};
ghost use Rattle.redis_connection.specs.Usable.{MayReadAfter};

use std::io;
use std::io::Read;

/// A reader that is not read again once a read has failed or found the end. A read that a signal
/// interrupted is no failure.
pub trait Source {
    // the bytes that reads will return, if they are known
    ghost remaining: { Self → Option (List ℕ) };

    // whether it may be read: no read has failed, and none found the end
    ghost may_read: { Self → Type 0 };

    // whether its last read failed with this error
    ghost failed_with: { Self → Error → Type 0 };

    /// Reads once.
    fn read_some(&mut self, piece: &mut [u8]) -> io::Result<usize>
        requires { may_read self.old }
        ensures bound { ReadsAtMost result piece.new }
        ensures bytes { ReadConsumes (remaining self.old) (remaining self.new) result piece.new }
        ensures again { MayReadAfter result (may_read self.new) }
        ensures failed { IfErr result (failed_with self.new) };
}

/// A call of this crate may begin with any reader.
impl<R: Read> Source for R {
    ghost remaining = { R.remaining };

    ghost may_read = { λ _. Unit {0} };

    ghost failed_with = { λ _ _. Unit {0} };

    fn read_some(&mut self, piece: &mut [u8]) -> io::Result<usize> {
        self.read(piece)
    }
}
