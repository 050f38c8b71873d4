//! Lines that are gathered, and committed at once.
ghost use Rattle.std.specs.Prelude.{◌≡◌, ◌≤◌, ◌+◌, ◌++◌, [], ◌∷◌, ℕ, List, Some, length, take, drop, true, false, IfOk, IfSome, IsSome, IsNone, OnOk, OnErr};
ghost use Rattle.std.specs.Io.KnownBytes.{Appends};
ghost use Rattle.worker_journal.specs.Device.{IsOnDisk, LeavesOnly};
ghost use Rattle.worker_journal.specs.Holds.{Holds, IsHeld, committed_in, cut_back, with_more};
ghost use Rattle.worker_journal.specs.LastLines.{last_of, lines_of};
ghost use Rattle.worker_journal.specs.LineTexts.{bytes_of};
ghost use Rattle.worker_journal.specs.Lines.{AreLines, EachStartsWith, HasTheLines, IsRepaired, StartsWith};
ghost use Rattle.worker_journal.specs.Log.{BeginsWith};

use crate::device::LogFile;
use crate::error::LogError;
use crate::last_lines::last_lines_in;
use crate::opening::repaired_len;
use std::alloc::Global;
use std::io::{self, ErrorKind};

/// A file of lines, and the lines that are not committed yet.
///
/// After a failed commit the next one first cuts the file back to the committed bytes. A system drops what it
/// could not write, and a later sync does not report this.
#[derive(Drop)]
pub struct LineLog<D: LogFile + Drop> {
    file: D,
    batch: Vec<u8>,
    /// The number of committed bytes of the file.
    len: usize,
    /// Whether bytes of a failed commit may be after the committed bytes.
    is_broken: bool,
}

impl<D: LogFile + Drop> LineLog<D> {
    /// Opens a log over this file, and first repairs its last line.
    ///
    /// A crash at any moment of the call leaves each complete line that is on the disk. So committed lines
    /// stay, even if a process was killed before the end of its last batch was on the disk.
    pub fn open(alloc: Global, file: D) -> Result<LineLog<D>, LogError>
        ensures file { IfOk result (λ log. IsRepaired (D.seen file) (D.seen log.file)) }
        ensures on_disk { IfOk result (λ log. D.is_sound file → IsOnDisk D.seen D.may_leave log.file) }
        ensures holds { IfOk result (λ log. D.is_sound file → IfSome (D.seen file)
            (λ bytes. Holds D.seen D.may_leave D.is_sound (take log.len bytes)
            log.file log.len log.is_broken)) }
        ensures held { IfOk result (λ log. D.is_sound file
            → IsHeld D.seen D.may_leave D.is_sound log.file log.len log.is_broken) }
        ensures whole { IfOk result (λ log. IfSome (committed_in (D.seen log.file) log.len) AreLines) }
        ensures batch { IfOk result (λ log. log.batch.items ≡ []) }
        ensures works { IfOk result (λ log. log.is_broken ≡ false) }
        ensures any_moment { IfOk result (λ log. IsOnDisk D.seen D.may_leave file
            → LeavesOnly D.moment D.left_since file log.file (HasTheLines (D.seen file))) }
        ensures keeps { IfOk result (λ log. (front behind : List ℕ) → AreLines front
            → D.seen file ≡ Some (front ++ behind) → EachStartsWith front (D.may_leave file)
            → LeavesOnly D.moment D.left_since file log.file (StartsWith front)) }
    {
        let mut file = file;
        let len = repaired_len(alloc, &mut file)?;
        Ok(LineLog {
            file,
            batch: Vec::new(alloc),
            len,
            is_broken: false,
        })
    }

    /// Adds a line, without its line feed, to the next commit. The line is in the file after the commit. An
    /// `Err` changes nothing.
    pub fn add_line(&mut self, line: &[u8]) -> Result<(), LogError>
        ensures ok { OnOk result
            (self.new.batch.items ≡ self.old.batch.items ++ (line.now ++ 10 ∷ [])) }
        ensures err { OnErr result (self.new.batch.items ≡ self.old.batch.items) }
        ensures file { (self.new.file ≡ self.old.file) × (self.new.len ≡ self.old.len) }
        ensures works { self.new.is_broken ≡ self.old.is_broken }
    {
        push_line(&mut self.batch, line)
    }

    /// Writes the lines that were added, and syncs them to the disk: one write and one sync.
    ///
    /// After an `Ok` every crash leaves a file that starts with its earlier content and these lines. A crash at
    /// any moment of the call leaves the earlier content, followed by at most as many bytes as these lines
    /// have. After an `Err` what was committed before stays, and the next commit writes these lines too.
    pub fn commit(&mut self) -> Result<(), LogError>
        ensures holds { OnOk result ((lines : List ℕ)
            → Holds D.seen D.may_leave D.is_sound lines self.old.file self.old.len self.old.is_broken
            → Holds D.seen D.may_leave D.is_sound (lines ++ self.old.batch.items)
            self.new.file self.new.len self.new.is_broken) }
        ensures held { OnErr result ((lines : List ℕ)
            → Holds D.seen D.may_leave D.is_sound lines self.old.file self.old.len self.old.is_broken
            → Holds D.seen D.may_leave D.is_sound lines
            self.new.file self.new.len self.new.is_broken) }
        ensures still_held { IsHeld D.seen D.may_leave D.is_sound self.old.file self.old.len self.old.is_broken
            → IsHeld D.seen D.may_leave D.is_sound self.new.file self.new.len self.new.is_broken }
        ensures more { OnOk result (
            IsHeld D.seen D.may_leave D.is_sound self.old.file self.old.len self.old.is_broken
            → committed_in (D.seen self.new.file) self.new.len
            ≡ with_more self.old.batch.items (committed_in (D.seen self.old.file) self.old.len)) }
        ensures no_more { OnErr result (
            IsHeld D.seen D.may_leave D.is_sound self.old.file self.old.len self.old.is_broken
            → committed_in (D.seen self.new.file) self.new.len
            ≡ committed_in (D.seen self.old.file) self.old.len) }
        ensures appended { OnOk result
            (Appends (cut_back self.old.is_broken self.old.len (D.seen self.old.file))
            (D.seen self.new.file) self.old.batch.items) }
        ensures on_disk { OnOk result (self.old.is_broken ≡ false → D.is_sound self.old.file
            → IsOnDisk D.seen D.may_leave self.new.file) }
        ensures batch { OnOk result (self.new.batch.items ≡ []) }
        ensures any_moment { self.old.is_broken ≡ false → IsOnDisk D.seen D.may_leave self.old.file
            → LeavesOnly D.moment D.left_since self.old.file self.new.file
            (BeginsWith (D.seen self.old.file) self.old.batch.items) }
        ensures keeps { (front : List ℕ) → EachStartsWith front (D.may_leave self.old.file)
            → (self.old.is_broken ≡ true → length front ≤ self.old.len)
            → LeavesOnly D.moment D.left_since self.old.file self.new.file (StartsWith front) }
        ensures kept { OnErr result (self.new.batch.items ≡ self.old.batch.items) }
        ensures works { OnOk result (self.new.is_broken ≡ false) }
        ensures broken { OnErr result (self.new.is_broken ≡ true) }
    {
        self.cut_back()?;
        self.is_broken = true;
        let Some(len) = self.len.checked_add(self.batch.len()) else {
            return Err(LogError::File(io::Error::from(ErrorKind::FileTooLarge)));
        };
        write_through(&mut self.file, &self.batch)?;
        self.len = len;
        self.batch.clear();
        self.is_broken = false;
        Ok(())
    }

    /// Cuts off the rest of a failed commit. A crash at any moment of the call leaves the committed bytes.
    fn cut_back(&mut self) -> Result<(), LogError>
        ensures rest { (self.new.batch ≡ self.old.batch) × (self.new.len ≡ self.old.len)
            × (self.new.is_broken ≡ self.old.is_broken) }
        ensures intact { self.old.is_broken ≡ false → self.new.file ≡ self.old.file }
        ensures cut { OnOk result (IfSome (D.seen self.old.file) (λ bytes. D.seen self.new.file
            ≡ cut_back self.old.is_broken self.old.len (Some bytes))) }
        ensures held { (lines : List ℕ)
            → Holds D.seen D.may_leave D.is_sound lines self.old.file self.old.len self.old.is_broken
            → Holds D.seen D.may_leave D.is_sound lines self.new.file self.new.len self.new.is_broken }
        ensures unknown { IsNone (D.seen self.old.file) → IsNone (D.seen self.new.file) }
        ensures fails { OnErr result (self.old.is_broken ≡ true) }
        ensures ready { OnOk result ((lines : List ℕ)
            → Holds D.seen D.may_leave D.is_sound lines self.old.file self.old.len self.old.is_broken
            → (D.seen self.new.file ≡ Some lines) × D.is_sound self.new.file) }
        ensures left { (front : List ℕ) → EachStartsWith front (D.may_leave self.old.file)
            → (self.old.is_broken ≡ true → length front ≤ self.old.len)
            → EachStartsWith front (D.may_leave self.new.file) }
        ensures keeps { (front : List ℕ) → EachStartsWith front (D.may_leave self.old.file)
            → (self.old.is_broken ≡ true → length front ≤ self.old.len)
            → LeavesOnly D.moment D.left_since self.old.file self.new.file (StartsWith front) }
    {
        if self.is_broken {
            self.file.cut(self.len)?;
        }
        Ok(())
    }

    /// Returns the last `number` committed lines, in order and without line feeds, or all lines if there are
    /// fewer. Besides these lines the call allocates only one piece of the file.
    pub fn last_lines(&self, alloc: Global, number: usize) -> Result<Vec<Vec<u8>>, LogError>
        ensures { IfOk result (λ lines. IfSome (committed_in (D.seen self.now.file) self.now.len)
            (λ bytes. bytes_of lines.items ≡ last_of number (lines_of bytes))) }
    {
        last_lines_in(alloc, &self.file, self.len, number)
    }

    /// Returns the offset at which the next line begins. This is the number of bytes that are committed or
    /// added.
    pub fn end(&self) -> Result<usize, LogError>
        ensures { IfOk result (λ at. at ≡ self.now.len + length self.now.batch.items) }
    {
        match self.len.checked_add(self.batch.len()) {
            Some(end) => Ok(end),
            None => Err(LogError::File(io::Error::from(ErrorKind::FileTooLarge))),
        }
    }

    /// Reads `len` bytes from this offset on, or fewer at the end. The bytes are those of the committed lines
    /// and of the lines added after them.
    pub fn bytes_at(&self, alloc: Global, at: usize, len: usize) -> Result<Vec<u8>, LogError>
        ensures { IfOk result (λ read. IfSome (committed_in (D.seen self.now.file) self.now.len)
            (λ bytes. self.now.len ≡ length bytes
            → read.items ≡ take len (drop at (bytes ++ self.now.batch.items)))) }
    {
        let committed = len.min(self.len.saturating_sub(at));
        let mut read = self.file.read_at(alloc, at, committed)?;
        let gathered = take_part(&self.batch, at.saturating_sub(self.len), len - committed);
        read.extend_from_slice(gathered)?;
        Ok(read)
    }

    /// Returns the file. Lines that were not committed are not in it.
    pub fn into_file(self) -> D
        ensures { result ≡ self.file }
    {
        self.file
    }
}

/// Returns `len` of these bytes from an offset on, or fewer at the end.
fn take_part(bytes: &[u8], at: usize, len: usize) -> &[u8]
    ensures { result.now ≡ take len (drop at bytes.now) }
{
    let (_front, rest) = bytes.split_at(at.min(bytes.len()));
    let (part, _behind) = rest.split_at(len.min(rest.len()));
    part
}

/// Appends a line and a line feed. An `Err` changes nothing.
fn push_line(batch: &mut Vec<u8>, line: &[u8]) -> Result<(), LogError>
    ensures ok { OnOk result (batch.new.items ≡ batch.old.items ++ (line.now ++ 10 ∷ [])) }
    ensures err { OnErr result (batch.new.items ≡ batch.old.items) }
{
    let len = batch.len();
    batch.extend_from_slice(line)?;
    if batch.push(b'\n').is_err() {
        batch.truncate(len);
        return Err(LogError::Memory);
    }
    Ok(())
}

/// Appends bytes to a file, and syncs them to the disk: one write and one sync.
fn write_through<D: LogFile>(file: &mut D, bytes: &[u8]) -> Result<(), LogError>
    ensures appended { OnOk result (Appends (D.seen file.old) (D.seen file.new) bytes.now) }
    ensures on_disk { OnOk result (D.is_sound file.old → IsOnDisk D.seen D.may_leave file.new) }
    ensures sound { OnOk result (D.is_sound file.old → D.is_sound file.new) }
    ensures known { IsSome (D.seen file.old) → IsSome (D.seen file.new) }
    ensures unknown { IsNone (D.seen file.old) → IsNone (D.seen file.new) }
    ensures any_moment { IsOnDisk D.seen D.may_leave file.old
        → LeavesOnly D.moment D.left_since file.old file.new (BeginsWith (D.seen file.old) bytes.now) }
    ensures left { (front : List ℕ) → EachStartsWith front (D.may_leave file.old)
        → EachStartsWith front (D.may_leave file.new) }
    ensures keeps { (front : List ℕ) → EachStartsWith front (D.may_leave file.old)
        → LeavesOnly D.moment D.left_since file.old file.new (StartsWith front) }
{
    file.append(bytes)?;
    file.sync()
}
