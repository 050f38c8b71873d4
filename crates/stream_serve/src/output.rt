//! Where replies go.
ghost use Rattle.std.specs.Prelude.{◌≡◌, ℕ, [], take, OnErr, OnOk};
ghost use Rattle.std.specs.Io.KnownBytes.{Appends, Keeps};

use std::io;
use std::io::{ErrorKind, Write};

/// A writer of which it is known whether it was flushed.
pub trait Output: Write {
    // whether the last call was a flush that succeeded
    ghost is_flushed: { Self → Type 0 };

    /// Flushes the writer.
    fn flush_all(&mut self) -> io::Result<()>
        ensures bytes { Keeps (Self.contents self.old) (Self.contents self.new) }
        ensures flushed { OnOk result (is_flushed self.new) };
}

impl<W: Write> Output for W {
    ghost is_flushed = { λ _. Unit {0} };

    fn flush_all(&mut self) -> io::Result<()> {
        self.flush()
    }
}

/// Writes all of the bytes, or after an error a front of them.
fn write_whole<W: Write>(output: &mut W, bytes: &[u8]) -> io::Result<()>
    ensures ok { OnOk result (Appends (W.contents output.old) (W.contents output.new) bytes.now) }
    ensures err { OnErr result ((n : ℕ) ×
        Appends (W.contents output.old) (W.contents output.new) (take n bytes.now)) }
{
    let mut at = 0usize;
    for _ in 0..u64::MAX {
        if at >= bytes.len() {
            return Ok(());
        }
        match output.write(&bytes[at..]) {
            Ok(0) => return Err(io::Error::from(ErrorKind::WriteZero)),
            Ok(len) => at += len,
            Err(error) => {
                if error.kind() != ErrorKind::Interrupted {
                    return Err(error);
                }
            }
        }
    }
    Err(io::Error::from(ErrorKind::TimedOut))
}

/// Sends the replies to what came in one piece, in one piece. None of them is left, so none is sent twice.
pub fn send<W: Output>(replies: &mut Vec<u8>, output: &mut W) -> io::Result<()>
    ensures ok { OnOk result (Appends (W.contents output.old) (W.contents output.new) replies.old.items) }
    ensures flushed { OnOk result (W.is_flushed output.new) }
    ensures none_left { OnOk result (replies.new.items ≡ []) }
    ensures err { OnErr result ((n : ℕ) ×
        Appends (W.contents output.old) (W.contents output.new) (take n replies.old.items)) }
{
    write_whole(output, replies)?;
    output.flush_all()?;
    replies.clear();
    Ok(())
}
