//! Writes all of the bytes, or after an error only a prefix of them.
ghost use Rattle.std.specs.Prelude.{◌≢◌, ℕ, IfErr, OnOk, OnErr, take};
ghost use Rattle.std.specs.IoError.{error_kind};
ghost use Rattle.std.specs.Io.KnownBytes.{Appends};
ghost use Rattle.redis_connection.specs.Usable.{IsWriteError};

use crate::sink::Sink;
use std::io;
use std::io::ErrorKind;

/// Writes all of the bytes, however few the writer accepts at once. After an `Err` it has only a
/// prefix of them.
fn write_whole<S: Sink>(writer: &mut S, bytes: &[u8]) -> io::Result<()>
    requires { S.may_write writer.old }
    ensures ok { OnOk result (Appends (S.contents writer.old) (S.contents writer.new) bytes.now) }
    ensures err { OnErr result ((n : ℕ) ×
        Appends (S.contents writer.old) (S.contents writer.new) (take n bytes.now)) }
    ensures again { OnOk result (S.may_write writer.new) }
    ensures failed { IfErr result (IsWriteError (S.failed_with writer.new)) }
    ensures retried { IfErr result (λ e. error_kind e ≢ ErrorKind.Interrupted) }
{
    let mut at = 0usize;
    for _turn in 0..u64::MAX {
        if at >= bytes.len() {
            return Ok(());
        }
        match writer.write_some(&bytes[at..]) {
            Ok(0) => return Err(io::Error::from(ErrorKind::WriteZero)),
            Ok(len) => at += len,
            Err(error) => {
                if error.kind() != ErrorKind::Interrupted {
                    return Err(error);
                }
            }
        }
    }
    Err(io::Error::from(ErrorKind::TimedOut))
}

/// Writes all of the bytes, and flushes the writer.
pub fn write_out<S: Sink>(writer: &mut S, bytes: &[u8]) -> io::Result<()>
    requires { S.may_write writer.old }
    ensures ok { OnOk result (Appends (S.contents writer.old) (S.contents writer.new) bytes.now) }
    ensures err { OnErr result ((n : ℕ) ×
        Appends (S.contents writer.old) (S.contents writer.new) (take n bytes.now)) }
    ensures failed { IfErr result (IsWriteError (S.failed_with writer.new)) }
    ensures flushed { OnOk result (S.is_flushed writer.new) }
{
    write_whole(writer, bytes)?;
    writer.flush_all()
}
