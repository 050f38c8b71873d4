//! A file in memory that tears.
ghost use Rattle.std.specs.Prelude.{◌≡◌, ◌≤◌, ◌+◌, ◌⊎◌, ◌++◌, ◌∷◌, [], ℕ, List, Some, drop, length, take, true, IfOk, OnOk, OnErr};
ghost use Rattle.std.proofs.Common.{inl};
ghost use Rattle.worker_journal.specs.Device.{Follows, IsCut, IsTorn};
ghost use Rattle.worker_journal.specs.Torn.{IsCopy, IsSynced, LeftSince, Leaves, all_of, room_of};
ghost use Rattle.worker_journal.specs.Torn.{all_is_left, only_now};

use crate::device::LogFile;
use crate::error::LogError;
use std::alloc::{AllocError, Global};
use std::io::{self, ErrorKind};

/// A file in memory that buffers what is appended until a sync, and tears in a crash.
///
/// The caller chooses what a crash leaves of the unsynced bytes: any bytes, at most as many as were written. A
/// sync can be made to fail. Then the unsynced bytes are never written to the disk, though each later sync
/// returns `Ok`, as on some systems. This ends when the file is cut back to the bytes on the disk.
#[derive(Drop)]
pub struct TornFile {
    alloc: Global,
    content: Content,
    is_sound: bool,
    /// Which of the next syncs fails, counted from 1. If it is 0, none fails.
    failing: usize,
    past: Vec<Content>,
}

/// The bytes that each crash leaves, and the bytes that a crash may leave.
#[derive(Drop)]
struct Content {
    /// The bytes that each crash leaves.
    front: Vec<u8>,
    /// The bytes that were cut off after `front` since the last sync.
    cut_off: Vec<u8>,
    /// The bytes that were appended since the last sync.
    waits: Vec<u8>,
    /// How many bytes were appended and cut off again since the last sync.
    extra: usize,
}

/// Returns a copy of the first `len` of these bytes.
fn copy_first(alloc: Global, bytes: &[u8], len: usize) -> Result<Vec<u8>, AllocError>
    ensures { IfOk result (λ first. first.items ≡ take len bytes.now) }
{
    bytes.iter().take(len).copied().collect(alloc)
}

/// Returns a copy of the bytes after the first `len`.
fn copy_rest(alloc: Global, bytes: &[u8], len: usize) -> Result<Vec<u8>, AllocError>
    ensures { IfOk result (λ rest. rest.items ≡ drop len bytes.now) }
{
    bytes.iter().skip(len).copied().collect(alloc)
}

impl Content {
    /// Returns a content whose bytes are all on the disk.
    fn make_synced(alloc: Global, front: Vec<u8>) -> Content
        ensures { IsSynced result front.items }
    {
        Content {
            front,
            cut_off: Vec::new(alloc),
            waits: Vec::new(alloc),
            extra: 0,
        }
    }

    /// Copies the content.
    fn copy(&self, alloc: Global) -> Result<Content, AllocError>
        ensures { IfOk result (IsCopy self.now) }
    {
        Ok(Content {
            front: self.front.to_vec(alloc)?,
            cut_off: self.cut_off.to_vec(alloc)?,
            waits: self.waits.to_vec(alloc)?,
            extra: self.extra,
        })
    }

    /// Returns the bytes that a read returns.
    fn copy_all(&self, alloc: Global) -> Result<Vec<u8>, AllocError>
        ensures { IfOk result (λ all. all.items ≡ all_of self.now) }
    {
        let mut all = self.front.to_vec(alloc)?;
        all.extend_from_slice(&self.waits)?;
        Ok(all)
    }

    /// Returns a copy with these bytes appended and not synced.
    fn append_bytes(&self, alloc: Global, bytes: &[u8]) -> Result<Content, AllocError>
        ensures seen { IfOk result (λ next. all_of next ≡ all_of self.now ++ bytes.now) }
        ensures crash { IfOk result (λ next.
            Follows (IsTorn (length bytes.now)) (Leaves self.now) (Leaves next)) }
    {
        let mut next = self.copy(alloc)?;
        next.waits.extend_from_slice(bytes)?;
        Ok(next)
    }

    /// Returns a copy that is cut to a length. A cut into the bytes on the disk drops all unsynced bytes.
    fn cut(&self, alloc: Global, len: usize) -> Result<Content, AllocError>
        ensures seen { IfOk result (λ next. all_of next ≡ take len (all_of self.now)) }
        ensures crash { IfOk result (λ next. Follows (IsCut len) (Leaves self.now) (Leaves next)) }
    {
        if len < self.front.len() {
            self.cut_front(alloc, len)
        } else {
            self.cut_waits(alloc, len - self.front.len())
        }
    }

    /// Returns a copy whose bytes on the disk are cut to this length. The bytes after that may still be on the
    /// disk.
    fn cut_front(&self, alloc: Global, len: usize) -> Result<Content, AllocError>
        requires { len ≤ length self.now.front.items }
        ensures seen { IfOk result (λ next. all_of next ≡ take len (all_of self.now)) }
        ensures crash { IfOk result (λ next. Follows (IsCut len) (Leaves self.now) (Leaves next)) }
    {
        let front = copy_first(alloc, &self.front, len)?;
        let mut cut_off = copy_rest(alloc, &self.front, len)?;
        cut_off.extend_from_slice(&self.cut_off)?;
        Ok(Content {
            front,
            cut_off,
            waits: Vec::new(alloc),
            extra: 0,
        })
    }

    /// Returns a copy with the first `len` of the unsynced bytes. The bytes after them may still be written to
    /// the disk.
    fn cut_waits(&self, alloc: Global, len: usize) -> Result<Content, AllocError>
        ensures seen { IfOk result (λ next. all_of next
            ≡ take (length self.now.front.items + len) (all_of self.now)) }
        ensures crash { IfOk result (λ next.
            Follows (IsCut (length self.now.front.items + len)) (Leaves self.now) (Leaves next)) }
    {
        let mut next = self.copy(alloc)?;
        next.waits.truncate(len);
        let gone = self.waits.len().saturating_sub(next.waits.len());
        next.extra = self.extra.saturating_add(gone);
        Ok(next)
    }
}

/// Replaces the content, and keeps the old one in `past`.
fn replace(
    alloc: Global,
    now: &mut Content,
    past: &mut Vec<Content>,
    next: Content,
) -> Result<(), AllocError>
    ensures ok { OnOk result (now.new ≡ next) }
    ensures err { OnErr result (now.new ≡ now.old) }
    ensures past { OnOk result ((v : _) × IsCopy now.old v
        × (past.new.items ≡ past.old.items ++ v ∷ [])) }
    ensures past_err { OnErr result (past.new.items ≡ past.old.items) }
{
    past.push(now.copy(alloc)?)?;
    *now = next;
    Ok(())
}

impl TornFile {
    /// Returns a file with these bytes, all of them on the disk.
    pub fn new(alloc: Global, bytes: Vec<u8>) -> TornFile
        ensures now { IsSynced result.content bytes.items }
        ensures sound { result.is_sound ≡ true }
        ensures failing { result.failing ≡ 0 }
    {
        TornFile {
            alloc,
            content: Content::make_synced(alloc, bytes),
            is_sound: true,
            failing: 0,
            past: Vec::new(alloc),
        }
    }

    /// Makes one of the next syncs fail, counted from 1. If the number is 0, none fails.
    pub fn fail_sync(&mut self, number: usize)
        ensures { self.new ≡ record self.old { failing = number } }
    {
        self.failing = number;
    }

    /// Returns the bytes that each crash leaves: those that were synced and not cut off.
    pub fn on_disk(&self) -> &[u8]
        ensures { result.now ≡ self.now.content.front.items }
    {
        &self.content.front
    }

    /// Whether the file is sound after it is cut to this length.
    fn is_sound_at(&self, len: usize) -> bool
        ensures stays { self.now.is_sound ≡ true → result ≡ true }
        ensures mended { len ≤ length self.now.content.front.items → result ≡ true }
        ensures only { result ≡ true → (self.now.is_sound ≡ true) ⊎ (len ≤ length self.now.content.front.items) }
    {
        self.is_sound || len <= self.content.front.len()
    }

    /// Crashes, and opens the file again. The crash leaves `uncut` of the bytes that were cut off since the
    /// last sync. In place of the appended bytes it leaves the given ones, at most as many.
    pub fn crash(&mut self, uncut: usize, behind: &[u8]) -> Result<(), LogError>
        ensures left { OnOk result (Leaves self.old.content (all_of self.new.content)) }
        ensures synced { OnOk result (IsSynced self.new.content (self.old.content.front.items
            ++ (take uncut self.old.content.cut_off.items ++ take (room_of self.old.content) behind.now))) }
        ensures sound { OnOk result (self.new.is_sound ≡ true) }
        ensures err { OnErr result (self.new ≡ self.old) }
    {
        let room = self.content.waits.len().saturating_add(self.content.extra);
        let mut left = self.content.front.to_vec(self.alloc)?;
        left.extend_from_slice(&copy_first(self.alloc, &self.content.cut_off, uncut)?)?;
        left.extend_from_slice(&copy_first(self.alloc, behind, room)?)?;
        self.content = Content::make_synced(self.alloc, left);
        self.past = Vec::new(self.alloc);
        self.is_sound = true;
        Ok(())
    }
}

impl LogFile for TornFile {
    ghost seen = { λ f. Some (all_of f.content) };

    ghost may_leave = { λ f c. Leaves f.content c };

    ghost is_sound = { λ f. f.is_sound ≡ true };

    ghost seen_is_left = { λ f. all_is_left f.content };

    ghost moment = { λ f. length f.past.items };

    ghost left_since = { λ f t c. LeftSince f.past.items f.content t c };

    ghost counts_now = { λ f t c le now. inl now };

    ghost only_now = { λ f c left. only_now f.past.items f.content c left };

    fn len(&self) -> Result<usize, LogError> {
        Ok(self.content.copy_all(self.alloc)?.len())
    }

    fn read_at(&self, alloc: Global, at: usize, len: usize) -> Result<Vec<u8>, LogError> {
        let all = self.content.copy_all(alloc)?;
        Ok(all.iter().skip(at).take(len).copied().collect(alloc)?)
    }

    fn append(&mut self, bytes: &[u8]) -> Result<(), LogError> {
        let next = self.content.append_bytes(self.alloc, bytes)?;
        Ok(replace(self.alloc, &mut self.content, &mut self.past, next)?)
    }

    fn cut(&mut self, len: usize) -> Result<(), LogError> {
        let next = self.content.cut(self.alloc, len)?;
        let is_sound = self.is_sound_at(len);
        replace(self.alloc, &mut self.content, &mut self.past, next)?;
        self.is_sound = is_sound;
        Ok(())
    }

    fn sync(&mut self) -> Result<(), LogError> {
        let fails = self.failing == 1;
        self.failing = self.failing.saturating_sub(1);
        if fails {
            self.is_sound = false;
            return Err(LogError::NotSynced(io::Error::from(ErrorKind::Other)));
        }
        if !self.is_sound {
            return Ok(());
        }
        let next = Content::make_synced(self.alloc, self.content.copy_all(self.alloc)?);
        Ok(replace(self.alloc, &mut self.content, &mut self.past, next)?)
    }
}
