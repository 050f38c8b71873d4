//! Lines over two pipes.
ghost use Rattle.std.specs.Prelude.{◌≡◌, ◌≢◌, ◌≤◌, ◌++◌, ◌∷◌, [], ℕ, List, None, OnOk, OnErr, IfErr, IfOk, length, nat_lt};
ghost use Rattle.std.specs.Io.Buffered.{reader_buffer};
ghost use Rattle.std.specs.Io.KnownBytes.{Appends, Consumes};
ghost use Rattle.worker_jobs.specs.Lines.{BreaksOff, HasNoEnd, NoByte};
ghost use Rattle.worker_jobs.specs.Steady.{is_known, never_known};

use crate::fault::Fault;
use std::alloc::Global;
use std::fs::File;
use std::io::{self, BufReader, ErrorKind, Read, Write};

/// The largest number of bytes in a reply, without its line end.
pub const LONGEST: usize = 65_536;

/// A writer whose content is always known, or never known.
pub trait SteadyWrite: Write {
    /// If the content of one writer of this type is unknown, the content of every writer of this type is
    /// unknown.
    ghost stays_unknown: { (a b : Self) → Self.contents a ≡ None → Self.contents b ≡ None };
}

/// A reader whose remaining bytes are always known, or never known.
pub trait SteadyRead: Read {
    /// The bytes in the reader's buffer: they were read before a line was requested. A reader in memory has
    /// none.
    ghost ahead: { Self → List ℕ };

    /// Whether the reader's buffer has bytes.
    fn holds_more(&self) -> bool
        ensures { result ≡ nat_lt 0 (length (Self.ahead self.now)) };

    /// If the remaining bytes of one reader of this type are unknown, those of every reader of this type are
    /// unknown.
    ghost stays_unknown: { (a b : Self) → Self.remaining a ≡ None → Self.remaining b ≡ None };
}

impl SteadyWrite for Vec<u8> {
    ghost stays_unknown = { λ a b is. absurd (is_known a.items is) };
}

impl SteadyWrite for File {
    ghost stays_unknown = { λ _ _ is. is };
}

impl SteadyRead for &[u8] {
    ghost ahead = { λ _. [] };

    ghost stays_unknown = { λ a b is. absurd (is_known a.now is) };

    fn holds_more(&self) -> bool {
        false
    }
}

impl SteadyRead for BufReader<File> {
    ghost ahead = { reader_buffer };

    ghost stays_unknown = { λ _ b _. never_known b };

    fn holds_more(&self) -> bool {
        !self.buffer().is_empty()
    }
}

/// Writes a line with its line end, and flushes the writer.
pub fn write_line<W: Write>(writer: &mut W, line: &mut Vec<u8>) -> Result<(), Fault>
    ensures sent { OnOk result (Appends (W.contents writer.old) (W.contents writer.new) (line.old.items ++ 10 ∷ [])) }
{
    line.push(b'\n')?;
    if let Err(error) = writer.write_all(line) {
        return Err(Fault::Write(error));
    }
    match writer.flush() {
        Ok(()) => Ok(()),
        Err(error) => Err(Fault::Write(error)),
    }
}

/// Reads a line, and stores it in `line` without its line end. Reads no byte after the line end.
///
/// Returns `TooLong` if the first `LONGEST` + 1 bytes have no line end. Returns `Ended` if the reader ends
/// before a line end.
pub fn read_line<R: Read>(reader: &mut R, line: &mut Vec<u8>) -> Result<(), Fault>
    ensures read { OnOk result (Consumes (R.remaining reader.old) (R.remaining reader.new) (line.new.items ++ 10 ∷ [])) }
    ensures one_line { OnOk result (HasNoEnd line.new.items) }
    ensures short { OnOk result (length line.new.items ≤ LONGEST) }
    ensures broken { IfErr result (BreaksOff LONGEST (R.remaining reader.old) (R.remaining reader.new)) }
{
    line.clear();
    for _len in 0..LONGEST + 1 {
        let byte = read_byte(reader)?;
        if byte == b'\n' {
            return Ok(());
        }
        line.push(byte)?;
    }
    Err(Fault::TooLong)
}

/// Reads the next byte. Retries if a signal interrupted the read.
fn read_byte<R: Read>(reader: &mut R) -> Result<u8, Fault>
    ensures ok { IfOk result (λ byte. Consumes (R.remaining reader.old) (R.remaining reader.new) (byte ∷ [])) }
    ensures err { IfErr result (NoByte (R.remaining reader.old) (R.remaining reader.new)) }
{
    let mut piece = [0u8; 1];
    for _turn in 0..u64::MAX {
        match reader.read(&mut piece) {
            Ok(0) => return Err(Fault::Ended),
            Ok(_) => return Ok(piece[0]),
            Err(error) => {
                if error.kind() != ErrorKind::Interrupted {
                    return Err(Fault::Read(error));
                }
            }
        }
    }
    Err(Fault::Read(io::Error::from(ErrorKind::TimedOut)))
}
