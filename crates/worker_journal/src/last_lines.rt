//! The last lines of a file.
ghost use Rattle.std.specs.Prelude.{◌≡◌, ◌≤◌, ◌<◌, ◌+◌, IfOk, IfSome, IsNone, OnOk, length, take, drop};
ghost use Rattle.worker_journal.specs.Holds.{committed_in};
ghost use Rattle.worker_journal.specs.LastLines.{begun_now, byte_more, bytes_more, last_of, lines_of};
ghost use Rattle.worker_journal.specs.LineTexts.{bytes_of};
ghost use Rattle.worker_journal.specs.Lines.{AreLines};

use crate::device::LogFile;
use crate::error::LogError;
use std::alloc::{AllocError, Global};
use std::mem;

/// How many bytes are read at once.
const PIECE: usize = 65_536;

/// Returns the last `number` lines of the first `len` bytes of a file, in order and without line feeds. Returns
/// all lines if there are fewer. Bytes after the last line feed are not a line.
pub fn last_lines_in<D: LogFile>(
    alloc: Global,
    file: &D,
    len: usize,
    number: usize,
) -> Result<Vec<Vec<u8>>, LogError>
    ensures { IfOk result (λ lines. IfSome (committed_in (D.seen file.now) len)
        (λ bytes. bytes_of lines.items ≡ last_of number (lines_of bytes))) }
{
    let from = find_last_start(alloc, file, len, number)?;
    read_lines(alloc, file, from, len)
}

/// Returns the offset of the last `number` lines of the first `len` bytes of a file. Reads the file from its
/// end, and no further than the end of the line before these lines.
fn find_last_start<D: LogFile>(
    alloc: Global,
    file: &D,
    len: usize,
    number: usize,
) -> Result<usize, LogError>
    ensures { IfOk result (λ at. IfSome (committed_in (D.seen file.now) len)
        (λ bytes. lines_of (drop at bytes) ≡ last_of number (lines_of bytes))) }
{
    let mut left = number;
    let mut at = len;
    while at > 0 {
        let from = at.saturating_sub(PIECE);
        let piece = file.read_at(alloc, from, at - from)?;
        if let Some(start) = find_start(&piece, &mut left) {
            return Ok(from + start);
        }
        at = from;
    }
    Ok(0)
}

/// Returns the offset of the last `left` lines of these bytes, if the end of a line is before them. Otherwise
/// subtracts the number of lines that end in these bytes from `left`.
fn find_start(bytes: &[u8], left: &mut usize) -> Option<usize>
    ensures within { IfSome result (λ at. (0 < at) × (at ≤ length bytes.now)) }
    ensures start { IfSome result (λ at. AreLines (take at bytes.now)
        × (length (lines_of (drop at bytes.now)) ≡ left.old)) }
    ensures none { IsNone result → length (lines_of bytes.now) + left.new ≡ left.old }
{
    let mut at = bytes.len();
    while at > 0 {
        if bytes[at - 1] == b'\n' {
            if *left == 0 {
                return Some(at);
            }
            *left -= 1;
        }
        at -= 1;
    }
    None
}

/// Returns the lines from this offset on, among the first `len` bytes of a file, without line feeds.
fn read_lines<D: LogFile>(
    alloc: Global,
    file: &D,
    from: usize,
    len: usize,
) -> Result<Vec<Vec<u8>>, LogError>
    ensures { IfOk result (λ lines. IfSome (committed_in (D.seen file.now) len)
        (λ bytes. bytes_of lines.items ≡ lines_of (drop from bytes))) }
{
    let mut lines = Vec::new(alloc);
    let mut line = Vec::new(alloc);
    let mut at = from;
    while at < len {
        let more = PIECE.min(len - at);
        let piece = file.read_at(alloc, at, more)?;
        take_bytes(alloc, &mut lines, &mut line, &piece)?;
        at += more;
    }
    Ok(lines)
}

/// Takes more bytes of a file. Appends the lines that end in them, and keeps the start of the next line.
fn take_bytes(
    alloc: Global,
    lines: &mut Vec<Vec<u8>>,
    line: &mut Vec<u8>,
    bytes: &[u8],
) -> Result<(), AllocError>
    ensures { OnOk result (begun_now lines.new line.new ≡ bytes_more (begun_now lines.old line.old) bytes.now) }
{
    for byte in bytes {
        take_byte(alloc, lines, line, *byte)?;
    }
    Ok(())
}

/// Takes one more byte of a file.
fn take_byte(
    alloc: Global,
    lines: &mut Vec<Vec<u8>>,
    line: &mut Vec<u8>,
    byte: u8,
) -> Result<(), AllocError>
    ensures { OnOk result (begun_now lines.new line.new ≡ byte_more (begun_now lines.old line.old) byte) }
{
    if byte == b'\n' {
        lines.push(mem::replace(line, Vec::new(alloc)))?;
    } else {
        line.push(byte)?;
    }
    Ok(())
}
