//! A file that is read line by line.
ghost use Rattle.std.specs.Prelude.{◌≡◌, ◌≤◌, ◌<◌, ◌+◌, ◌++◌, ℕ, List, Some, None, true, false, IfOk, IfSome, IsNone, OnErr, OnOk, Contains, length, take, drop, slice_get};
ghost use Rattle.std.specs.Option.{ForSome};
ghost use Rattle.worker_journal.specs.LastLines.{lines_of};
ghost use Rattle.stream_fill.specs.Placed.{HasLines, IsFront, IsPlace, StartsWithLine, torn_of};

use crate::byte_file::ByteFile;
use crate::split::split_at_byte;
use anyhow::{Context, Error, Result, bail};
use std::alloc::Global;
use std::io::{self, ErrorKind};

/// The number of bytes that one read of the file requests.
const PIECE: usize = 65_536;

/// A position between two lines.
#[derive(Clone, Copy)]
pub struct Place {
    /// The number of lines before the position.
    pub number: u64,
    /// The number of bytes before the position.
    pub offset: u64,
}

/// A file that is read line by line, through a buffer.
#[derive(Drop)]
pub struct LineReader<F: ByteFile + Drop> {
    alloc: Global,
    file: F,
    /// Bytes of the file. The first `begin` bytes were passed over.
    buffer: Vec<u8>,
    begin: usize,
    /// The position after the bytes that were passed over.
    place: Place,
    /// The buffer for the bytes of the next read.
    piece: Vec<u8>,
    ghost within: { begin ≤ length buffer.items },
    ghost front: { ForSome (F.bytes file) (λ all. IsFront (drop begin buffer.items) (drop place.offset all)) },
    ghost is_place: { ForSome (F.bytes file) (λ all. IsPlace all place) },
}

impl<F: ByteFile + Drop> LineReader<F> {
    /// Creates a reader at the start of `file`.
    pub fn new(alloc: Global, file: F) -> LineReader<F>
        ensures { F.bytes result.file ≡ F.bytes file }
    {
        LineReader {
            alloc,
            file,
            buffer: Vec::new(alloc),
            begin: 0,
            place: Place {
                number: 0,
                offset: 0,
            },
            piece: Vec::new(alloc),
        }
    }

    /// Returns the position of the next line.
    pub fn place(&self) -> Place
        ensures { result ≡ self.now.place }
    {
        self.place
    }

    /// Returns the bytes that were read and not passed over yet.
    pub fn waiting(&self) -> &[u8]
        ensures { result.now ≡ drop self.now.begin self.now.buffer.items }
    {
        &self.buffer[self.begin..]
    }

    /// Moves to `place`.
    pub fn seek(&mut self, place: Place)
        requires { ForSome (F.bytes self.old.file) (λ all. IsPlace all place) }
        ensures file { self.new.file ≡ self.old.file }
        ensures place { self.new.place ≡ place }
    {
        self.buffer.clear();
        self.begin = 0;
        self.place = place;
    }

    /// Passes over some of the next lines, at most `most`. Returns false, and passes over nothing, if no line
    /// feed follows.
    pub fn pass_lines(&mut self, most: u64) -> Result<bool>
        ensures file { F.bytes self.new.file ≡ F.bytes self.old.file }
        ensures most { self.new.place.number ≤ self.old.place.number + most }
        ensures end { IfOk result (λ is_line. is_line ≡ false → ForSome (F.bytes self.new.file) (λ all.
            (self.new.place.number ≡ length (lines_of all))
            × (drop self.new.begin self.new.buffer.items ≡ torn_of all))) }
    {
        match self.find_line()? {
            Some(_len) => {
                let (lines, len) = count_lines(self.waiting(), most);
                self.pass_bytes(lines, len)?;
                Ok(true)
            }
            None => Ok(false),
        }
    }

    /// Reads the next line without its line feed. Returns false if no line feed follows.
    pub fn read_line(&mut self, line: &mut Vec<u8>) -> Result<bool>
        ensures file { F.bytes self.new.file ≡ F.bytes self.old.file }
        ensures next { IfOk result (λ is_line. is_line ≡ true
            → self.new.place.number ≡ self.old.place.number + 1) }
        ensures line { IfOk result (λ is_line. is_line ≡ true → ForSome (F.bytes self.new.file) (λ all.
            slice_get (lines_of all) self.old.place.number ≡ Some line.new.items)) }
    {
        match self.find_line()? {
            Some(len) => {
                line.clear();
                line.extend_from_slice(&self.waiting()[..len])?;
                self.pass_bytes(1, len + 1)?;
                Ok(true)
            }
            None => Ok(false),
        }
    }

    /// Reads until the next line is in the buffer, and returns the line's length. Returns `None` if no line
    /// feed follows. Then the buffer contains the rest of the file.
    fn find_line(&mut self) -> Result<Option<usize>>
        ensures file { F.bytes self.new.file ≡ F.bytes self.old.file }
        ensures place { self.new.place ≡ self.old.place }
        ensures line { IfOk result (λ found. IfSome found
            (StartsWithLine (drop self.new.begin self.new.buffer.items))) }
        ensures none { IfOk result (λ found. IsNone found
            → Contains (drop self.new.begin self.new.buffer.items) 10 → ⊥) }
        ensures rest { IfOk result (λ found. IsNone found → ForSome (F.bytes self.new.file) (λ all.
            drop self.new.begin self.new.buffer.items ≡ drop self.new.place.offset all)) }
    {
        for _ in 0..u64::MAX {
            if let Some((line, _rest)) = split_at_byte(self.waiting(), b'\n') {
                return Ok(Some(line.len()));
            }
            if !self.read_more()? {
                return Ok(None);
            }
        }
        bail!("the file has no end")
    }

    /// Appends a piece of the file to the buffer. Returns false, and keeps the buffer's bytes, at the end of
    /// the file.
    fn read_more(&mut self) -> Result<bool>
        ensures file { F.bytes self.new.file ≡ F.bytes self.old.file }
        ensures place { self.new.place ≡ self.old.place }
        ensures same { IfOk result (λ is_more. is_more ≡ false
            → drop self.new.begin self.new.buffer.items ≡ drop self.old.begin self.old.buffer.items) }
        ensures end { IfOk result (λ is_more. is_more ≡ false → ForSome (F.bytes self.new.file) (λ all.
            drop self.new.begin self.new.buffer.items ≡ drop self.new.place.offset all)) }
    {
        let waiting = self.waiting();
        let Some(offset) = self.place.offset.checked_add(waiting.len() as u64) else {
            bail!("the file has no end");
        };
        let room = PIECE.max(waiting.len());
        let mut buffer = Vec::with_capacity(self.alloc, waiting.len().saturating_add(room))?;
        buffer.extend_from_slice(waiting)?;
        match read_after(&self.file, &mut self.piece, &mut buffer, offset, room) {
            Ok(count) => {
                self.buffer = buffer;
                self.begin = 0;
                Ok(count > 0)
            }
            Err(error) if error.kind() == ErrorKind::Interrupted => Ok(true),
            Err(error) => Err(Error::from(error).context("cannot read the file")),
        }
    }

    /// Passes over `lines` lines. `len` is their length, including the line feeds.
    fn pass_bytes(&mut self, lines: u64, len: usize) -> Result<()>
        requires within { len ≤ length (drop self.old.begin self.old.buffer.items) }
        requires lines { HasLines (drop self.old.begin self.old.buffer.items) lines
            (drop len (drop self.old.begin self.old.buffer.items)) }
        ensures file { self.new.file ≡ self.old.file }
        ensures number { OnOk result (self.new.place.number ≡ self.old.place.number + lines) }
        ensures err { OnErr result (self.new.place ≡ self.old.place) }
    {
        let begin = self.begin + len;
        let number = self.place.number.checked_add(lines);
        let offset = self.place.offset.checked_add(len as u64);
        let (Some(number), Some(offset)) = (number, offset) else {
            bail!("the file has no end");
        };
        self.begin = begin;
        self.place = Place { number, offset };
        Ok(())
    }
}

/// Appends the bytes of the file at `offset`, and returns their number. The bytes are read into `piece`, which
/// grows to `room` bytes.
fn read_after<F: ByteFile>(
    file: &F,
    piece: &mut Vec<u8>,
    buffer: &mut Vec<u8>,
    offset: u64,
    room: usize,
) -> io::Result<usize>
    requires { 0 < room }
    ensures read { IfOk result (λ count. ForSome (F.bytes file.now) (λ all.
        buffer.new.items ≡ buffer.old.items ++ take count (drop offset all))) }
    ensures end { IfOk result (λ count. count ≡ 0 → ForSome (F.bytes file.now) (λ all.
        length all ≤ offset)) }
    ensures none { IfOk result (λ count. count ≡ 0 → buffer.new.items ≡ buffer.old.items) }
{
    if piece.len() < room {
        piece.resize(room, 0)?;
    }
    let count = file.read_at(piece, offset)?;
    buffer.extend_from_slice(&piece[..count])?;
    Ok(count)
}

/// Counts complete lines at the start of `bytes`, at most `most`. Returns their number, and their length
/// including the line feeds.
#[tactic(auto, using(crate::proofs::ReaderLemmas::none_counted, crate::proofs::ReaderLemmas::one_more_counted))]
fn count_lines(bytes: &[u8], most: u64) -> (u64, usize)
    ensures most { result.0 ≤ most }
    ensures within { result.1 ≤ length bytes.now }
    ensures lines { HasLines bytes.now result.0 (drop result.1 bytes.now) }
{
    let mut rest = bytes;
    let mut count = 0u64;
    while count < most {
        let Some((_line, after)) = split_at_byte(rest, b'\n') else {
            break;
        };
        rest = after;
        count += 1;
    }
    (count, bytes.len() - rest.len())
}
