//! The ids of the lines of a file.
ghost use Rattle.std.specs.Prelude.{◌≡◌, ◌≤◌, ◌+◌, ◌∷◌, ◌++◌, [], Contains, IfOk, IfSome, IsNone, OnOk, Some, drop};
ghost use Rattle.std.specs.Prelude.{length, min, option_map, suc, take};
ghost use Rattle.worker_journal.specs.LastLines.{lines_of};
ghost use Rattle.worker_journal.specs.Lines.{HasNoEnd};
ghost use Rattle.worker_journal.specs.KnownIds.Known.{places_in};
ghost use Rattle.worker_journal.specs.KnownIds.Told.{Took, line_number, told};

use crate::known_ids::head::line_number;
use crate::known_ids::known::KnownId;
use crate::{LogError, LogFile};
use memchr::memchr;
use std::alloc::{AllocError, AllocFailed, Global};
use std::io::{self, ErrorKind};
use thiserror::Error;

/// How many bytes are read at once.
const PIECE: usize = 262_144;

/// Why the ids of a file were not read.
#[derive(Debug, Drop, Error)]
pub enum FileError {
    /// The file was not read, or memory ran out.
    #[error("{0}")]
    Log(LogError),
    /// The line of this number has no id.
    #[error("line {0} is of no entry: correct the file, or take another one")]
    NoEntry(u64),
}

/// Returns the numbers of the ids of a file's lines, in order, and the offset of each line. Bytes after the
/// last line feed are not a line. Reads the file from its start, in pieces.
pub fn numbers_of_file<D: LogFile>(
    alloc: Global,
    file: &D,
    json: bool,
) -> Result<Vec<KnownId>, FileError>
    ensures { IfOk result (λ ids. IfSome (D.seen file.now)
        (λ bytes. told json 0 (lines_of bytes) ≡ Some (places_in ids.items))) }
{
    let len = file.len()?;
    let mut ids = Vec::new(alloc);
    let mut line = Vec::new(alloc);
    let mut start = 0;
    let mut at = 0;
    while at < len {
        let left = len - at;
        let piece = read_piece(alloc, file, at, left)?;
        take_piece(&mut ids, &mut start, &mut line, &piece, json)?;
        at += PIECE.min(left);
    }
    Ok(ids)
}

/// Reads a piece at `at`, or the `left` remaining bytes if they are fewer than a piece.
fn read_piece<D: LogFile>(
    alloc: Global,
    file: &D,
    at: usize,
    left: usize,
) -> Result<Vec<u8>, LogError>
    ensures few { IfOk result (λ piece. length piece.items ≤ PIECE) }
    ensures bytes { IfOk result (λ piece. IfSome (D.seen file.now)
        (λ bytes. piece.items ≡ take (min PIECE left) (drop at bytes))) }
{
    file.read_at(alloc, at, PIECE.min(left))
}

/// Takes more bytes of a file. Appends the ids of the lines that end in them, and keeps the start of the next
/// line.
fn take_piece(
    ids: &mut Vec<KnownId>,
    start: &mut usize,
    line: &mut Vec<u8>,
    piece: &[u8],
    json: bool,
) -> Result<(), FileError>
    ensures { HasNoEnd line.old.items → OnOk result (Took json (places_in ids.old.items) start.old line.old.items piece.now
        (places_in ids.new.items) start.new line.new.items []) }
{
    let mut rest = piece;
    while let Some((end, after)) = split_line(rest) {
        take_line(ids, start, line, end, json)?;
        rest = after;
    }
    line.extend_from_slice(rest)?;
    Ok(())
}

/// Takes the id of a line that has ended. The next line begins after this line, and has no bytes yet.
fn take_line(
    ids: &mut Vec<KnownId>,
    start: &mut usize,
    line: &mut Vec<u8>,
    end: &[u8],
    json: bool,
) -> Result<(), FileError>
    ensures told { OnOk result (option_map (λ n. places_in ids.old.items ++ (n, start.old) ∷ [])
        (line_number json (line.old.items ++ end.now)) ≡ Some (places_in ids.new.items)) }
    ensures next { OnOk result (line.new.items ≡ []) }
    ensures start { OnOk result (start.new ≡ start.old + suc (length (line.old.items ++ end.now))) }
{
    if line.is_empty() {
        return take_id(ids, start, end, json);
    }
    line.extend_from_slice(end)?;
    take_id(ids, start, line, json)?;
    line.clear();
    Ok(())
}

/// Takes the id of a line that begins at this offset.
fn take_id(
    ids: &mut Vec<KnownId>,
    start: &mut usize,
    line: &[u8],
    json: bool,
) -> Result<(), FileError>
    ensures told { OnOk result (option_map (λ n. places_in ids.old.items ++ (n, start.old) ∷ [])
        (line_number json line.now) ≡ Some (places_in ids.new.items)) }
    ensures start { OnOk result (start.new ≡ start.old + suc (length line.now)) }
{
    let Some(number) = line_number(line, json) else {
        return Err(FileError::NoEntry((ids.len() as u64).saturating_add(1)));
    };
    let next = find_next_start(*start, line.len())?;
    ids.push(KnownId::new(number, *start))?;
    *start = next;
    Ok(())
}

/// Returns the offset after a line of this length and its line feed.
fn find_next_start(start: usize, len: usize) -> Result<usize, FileError>
    ensures { IfOk result (λ next. next ≡ start + suc len) }
{
    match start.saturating_add(len).checked_add(1) {
        Some(next) => Ok(next),
        None => Err(FileError::Log(LogError::File(io::Error::from(ErrorKind::FileTooLarge)))),
    }
}

/// Returns the first line without its line feed, and the bytes after it. Returns `None` if there is no line
/// feed.
fn split_line(bytes: &[u8]) -> Option<(&[u8], &[u8])>
    ensures some { IfSome result (λ s. bytes.now ≡ s.0.now ++ 10 ∷ s.1.now) }
    ensures first { IfSome result (λ s. Contains s.0.now 10 → ⊥) }
    ensures none { IsNone result → Contains bytes.now 10 → ⊥ }
{
    let (line, rest) = bytes.split_at_checked(memchr(b'\n', bytes)?)?;
    let (_end, rest) = rest.split_first()?;
    Some((line, rest))
}

impl From<LogError> for FileError {
    fn from(error: LogError) -> FileError {
        FileError::Log(error)
    }
}

impl From<AllocError> for FileError {
    fn from(_error: AllocError) -> FileError {
        FileError::Log(LogError::Memory)
    }
}

impl<T: Drop> From<AllocFailed<T>> for FileError {
    fn from(_error: AllocFailed<T>) -> FileError {
        FileError::Log(LogError::Memory)
    }
}
