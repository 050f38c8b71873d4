//! Reading to the end and writing all bytes, with no retries.
ghost use Rattle.std.specs.Prelude.{◌≡◌, ◌≢◌, ◌<◌, [], IfErr, IfSome, OnOk, length, vec_capacity};
ghost use Rattle.std.specs.Io.KnownBytes.{Appends, Consumes, IsAtEnd};
ghost use Rattle.stream_option_parsing.specs.Told.{WroteBeginning};

use crate::run_error::RunError;
use std::io::{Read, Write};

/// Reads all bytes until the end into an empty list. Memory is allocated only if there are any, and if
/// the capacity of the list is too small for them.
pub(crate) fn read_all<R: Read>(input: &mut R, bytes: &mut Vec<u8>) -> Result<(), RunError>
    requires { bytes.old.items ≡ [] }
    ensures bytes { OnOk result
        (Consumes (R.remaining input.old) (R.remaining input.new) bytes.new.items) }
    ensures end { OnOk result (IsAtEnd (R.remaining input.new)) }
    ensures err { IfErr result (λ e. e ≢ RunError.Write) }
    ensures memory { IfErr result (λ e. e ≡ RunError.Memory
        → IfSome (R.remaining input.old) (λ all. 0 < length all)) }
    ensures full { IfErr result (λ e. e ≡ RunError.Memory
        → IfSome (R.remaining input.old) (λ all. vec_capacity bytes.old < length all)) }
{
    let mut buffer = [0u8; 4096];
    'chunks: loop {
        match input.read(&mut buffer) {
            Ok(0) => return Ok(()),
            Ok(n) => bytes.extend_from_slice(&buffer[..n])?,
            Err(_error) => return Err(RunError::Read),
        }
    }
}

/// Writes all the bytes.
pub(crate) fn write_whole<W: Write>(output: &mut W, bytes: &[u8]) -> Result<(), RunError>
    ensures ok { OnOk result
        (Appends (W.contents output.old) (W.contents output.new) bytes.now) }
    ensures err { IfErr result (λ e. e ≡ RunError.Write) }
    ensures begun { IfErr result (λ e.
        WroteBeginning bytes.now (W.contents output.old) (W.contents output.new)) }
{
    let mut rest = bytes;
    'pieces: while !rest.is_empty() {
        match output.write(rest) {
            Ok(0) => return Err(RunError::Write),
            Ok(n) => rest = &rest[n..],
            Err(_error) => return Err(RunError::Write),
        }
    }
    Ok(())
}
