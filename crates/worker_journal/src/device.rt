//! A file for a log: the bytes that a read returns, and the bytes that a crash may leave.
ghost use Rattle.std.specs.Prelude.{◌≡◌, ◌≤◌, List, ℕ, Option, Some, length, take, drop, IfErr, IfOk, OnOk, IfSome, IsSome, IsNone};
ghost use Rattle.std.specs.Io.KnownBytes.{Appends};
ghost use Rattle.worker_journal.specs.Device.{Only, Follows, IsTorn, IsCut, Elapses};
ghost use Rattle.worker_journal.specs.Log.{IsOfSync};
ghost use Rattle.worker_journal.specs.Lines.{EachStartsWith};

use crate::error::LogError;
use std::alloc::Global;

/// A file that lines are appended to.
///
/// The contracts are those of a disk. Bytes that were written before a sync stay after any crash. In place of
/// bytes that were appended later, a crash may leave any bytes, at most as many as were written.
pub trait LogFile {
    /// The bytes that a read returns, if they are known.
    ghost seen: { Self → Option (List ℕ) };

    /// The bytes that a crash at this moment may leave.
    ghost may_leave: { Self → List ℕ → Type 0 };

    /// The current moment, as a number that never decreases.
    ghost moment: { Self → ℕ };

    /// The bytes that a crash at this moment or later may have left, during a call or between two calls.
    ghost left_since: { Self → ℕ → List ℕ → Type 0 };

    /// Whether bytes that are written from now on can be synced to the disk. No sync has failed since the file
    /// was opened, or since it was cut back to the bytes on the disk. A system drops what it could not write,
    /// and the next sync does not report this.
    ghost is_sound: { Self → Type 0 };

    /// Returns the length of the file in bytes.
    fn len(&self) -> Result<usize, LogError>
        ensures { IfOk result (λ n. IfSome (seen self.now) (λ bytes. n ≡ length bytes)) };

    /// Reads `len` bytes from `at`, or fewer at the end of the file.
    fn read_at(&self, alloc: Global, at: usize, len: usize) -> Result<Vec<u8>, LogError>
        ensures within { IfOk result (λ read. length read.items ≤ len) }
        ensures bytes { IfOk result (λ read. IfSome (seen self.now)
            (λ bytes. read.items ≡ take len (drop at bytes))) };

    /// Appends bytes to the file. Until a sync, a crash may leave any bytes in their place.
    fn append(&mut self, bytes: &[u8]) -> Result<(), LogError>
        ensures appended { OnOk result (Appends (seen self.old) (seen self.new) bytes.now) }
        ensures crash { Follows (IsTorn (length bytes.now)) (may_leave self.old) (may_leave self.new) }
        ensures sound { is_sound self.old → is_sound self.new }
        ensures known { IsSome (seen self.old) → IsSome (seen self.new) }
        ensures unknown { IsNone (seen self.old) → IsNone (seen self.new) }
        ensures time { Elapses (moment self.old) (moment self.new)
            (left_since self.old) (left_since self.new) (may_leave self.new) };

    /// Cuts the file to a length. The remaining file is sound if all of it is on the disk.
    fn cut(&mut self, len: usize) -> Result<(), LogError>
        ensures cut { OnOk result (IfSome (seen self.old)
            (λ bytes. seen self.new ≡ Some (take len bytes))) }
        ensures crash { Follows (IsCut len) (may_leave self.old) (may_leave self.new) }
        ensures sound { is_sound self.old → is_sound self.new }
        ensures known { IsSome (seen self.old) → IsSome (seen self.new) }
        ensures unknown { IsNone (seen self.old) → IsNone (seen self.new) }
        ensures mended { OnOk result ((front : List ℕ) → length front ≡ len
            → EachStartsWith front (may_leave self.old) → is_sound self.new) }
        ensures time { Elapses (moment self.old) (moment self.new)
            (left_since self.old) (left_since self.new) (may_leave self.new) };

    /// Syncs the file. After that a crash leaves the bytes that a read returns, if the file is sound. If the
    /// system returns an error, the error is `NotSynced`.
    fn sync(&mut self) -> Result<(), LogError>
        ensures durable { OnOk result (is_sound self.old → IfSome (seen self.old)
            (λ bytes. Only bytes (may_leave self.new))) }
        ensures sound { OnOk result (is_sound self.old → is_sound self.new) }
        ensures cause { IfErr result IsOfSync }
        ensures seen { seen self.new ≡ seen self.old }
        ensures crash { (c : List ℕ) → may_leave self.new c → may_leave self.old c }
        ensures time { Elapses (moment self.old) (moment self.new)
            (left_since self.old) (left_since self.new) (may_leave self.new) };

    /// A crash may leave the bytes that a read returns.
    ghost seen_is_left: { (file : Self) → IfSome (seen file) (may_leave file) };

    /// What a crash may leave now is included in what a crash since an earlier moment may have left.
    ghost counts_now: { (file : Self) (t : ℕ) (c : List ℕ) → t ≤ moment file
        → may_leave file c → left_since file t c };

    /// A crash since the current moment may have left only what a crash may leave now.
    ghost only_now: { (file : Self) (c : List ℕ) → left_since file (moment file) c
        → may_leave file c };
}
