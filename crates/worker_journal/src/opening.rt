//! Repairs the end of a file after a crash.
ghost use Rattle.std.specs.Prelude.{◌≡◌, ◌≤◌, ◌++◌, ℕ, List, Some, IfOk, IfSome, IsNone, OnOk, length, take, drop};
ghost use Rattle.worker_journal.specs.Device.{IsOnDisk, LeavesOnly};
ghost use Rattle.worker_journal.specs.Lines.{AreLines, EachStartsWith, EndsAt, HasNoEnd, HasTheLines, IsRepaired, StartsWith};

use crate::device::LogFile;
use crate::error::LogError;
use std::alloc::Global;

/// How many bytes are searched at once.
const PIECE: usize = 65_536;

/// Returns the index after the last line feed of these bytes, or 0 if there is none.
fn find_last_end(bytes: &[u8]) -> usize
    ensures within { result ≤ length bytes.now }
    ensures lines { AreLines (take result bytes.now) }
    ensures torn { HasNoEnd (drop result bytes.now) }
{
    let mut end = bytes.len();
    while end > 0 && bytes[end - 1] != b'\n' {
        end -= 1;
    }
    end
}

/// Returns how many bytes of a file are complete lines. Reads the file from its end, and no further than the
/// last line feed.
fn measure_lines<D: LogFile>(alloc: Global, file: &D) -> Result<usize, LogError>
    ensures { IfOk result (EndsAt (D.seen file.now)) }
{
    let mut at = file.len()?;
    while at > 0 {
        let from = at.saturating_sub(PIECE);
        let piece = file.read_at(alloc, from, at - from)?;
        let end = find_last_end(&piece);
        if end > 0 {
            return Ok(from + end);
        }
        at = from;
    }
    Ok(0)
}

/// Cuts off a last line without a line feed, and syncs the rest. Returns the length of the file.
pub fn repaired_len<D: LogFile>(alloc: Global, file: &mut D) -> Result<usize, LogError>
    ensures end { IfOk result (EndsAt (D.seen file.old)) }
    ensures cut { IfOk result (λ end. IfSome (D.seen file.old)
        (λ bytes. D.seen file.new ≡ Some (take end bytes))) }
    ensures unknown { IsNone (D.seen file.old) → IsNone (D.seen file.new) }
    ensures on_disk { OnOk result (D.is_sound file.old → IsOnDisk D.seen D.may_leave file.new) }
    ensures sound { OnOk result (D.is_sound file.old → D.is_sound file.new) }
    ensures any_moment { IsOnDisk D.seen D.may_leave file.old
        → LeavesOnly D.moment D.left_since file.old file.new (HasTheLines (D.seen file.old)) }
    ensures keeps { (front behind : List ℕ) → AreLines front → D.seen file.old ≡ Some (front ++ behind)
        → EachStartsWith front (D.may_leave file.old)
        → LeavesOnly D.moment D.left_since file.old file.new (StartsWith front) }
{
    let end = measure_lines(alloc, &*file)?;
    file.cut(end)?;
    file.sync()?;
    Ok(end)
}

/// Cuts off a last line without a line feed, and syncs the rest to the disk.
///
/// A crash at any moment of the call leaves the complete lines, if all of the file is on the disk. After a
/// process was killed, only a prefix of the file may be on the disk. Then every crash leaves that prefix, if it
/// consists of complete lines.
pub fn repair<D: LogFile>(alloc: Global, file: &mut D) -> Result<(), LogError>
    ensures repaired { OnOk result (IsRepaired (D.seen file.old) (D.seen file.new)) }
    ensures on_disk { OnOk result (D.is_sound file.old → IsOnDisk D.seen D.may_leave file.new) }
    ensures any_moment { IsOnDisk D.seen D.may_leave file.old
        → LeavesOnly D.moment D.left_since file.old file.new (HasTheLines (D.seen file.old)) }
    ensures keeps { (front behind : List ℕ) → AreLines front → D.seen file.old ≡ Some (front ++ behind)
        → EachStartsWith front (D.may_leave file.old)
        → LeavesOnly D.moment D.left_since file.old file.new (StartsWith front) }
{
    repaired_len(alloc, file)?;
    Ok(())
}
