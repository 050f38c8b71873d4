//! A file of the system.
ghost use Rattle.std.specs.Prelude.{◌≡◌, ℕ, List, None, Err, IfErr, IsOk, MatchResult};
ghost use Rattle.worker_journal.specs.Log.{IsOfTheSystem};
ghost use Rattle.worker_journal.specs.declared.error.LogError.TheVariants.{NotSynced};

use crate::device::LogFile;
use crate::error::LogError;
use std::alloc::Global;
use std::fs::{File, OpenOptions, TryLockError};
use std::io;
use std::io::{ErrorKind, Write};
use std::os::unix::fs::FileExt;
use std::path::Path;
use std::rt::Files;

/// A file of the system, which no other log has open.
///
/// No contract can state what the system writes or keeps, so the contracts here claim nothing. It is trusted
/// that the file behaves as `LogFile` requires. Each method makes one system call, except that short reads and
/// writes are continued.
#[derive(Drop)]
pub struct SystemFile {
    file: File,
}

impl SystemFile {
    /// Opens the file with this path, and creates it if it does not exist. Returns an error of the kind
    /// `WouldBlock` if another process has the file open as a log.
    pub fn open<R: Files<File = File>>(rt: &R, path: &str) -> Result<SystemFile, LogError>
        ensures { IfErr result IsOfTheSystem }
    {
        let mut options = OpenOptions::new();
        options.read(true);
        options.append(true);
        options.create(true);
        let file = options.open(rt, path)?;
        match file.try_lock() {
            Ok(()) => {}
            Err(TryLockError::WouldBlock) => {
                return Err(LogError::File(io::Error::new(
                    ErrorKind::WouldBlock,
                    "another process has this file open as a log",
                )));
            }
            Err(TryLockError::Error(error)) => return Err(LogError::File(error)),
        }
        sync_folder(rt, path)?;
        Ok(SystemFile { file })
    }
}

/// Syncs the folder of a new file, so that its name is on the disk. If that fails, the file itself may be lost.
/// A later sync does not report this, so the error is `NotSynced`.
fn sync_folder<R: Files<File = File>>(rt: &R, path: &str) -> Result<(), LogError>
    ensures { IfErr result IsOfTheSystem }
{
    let folder = match Path::new(path).parent() {
        Some(folder) if !folder.as_str().is_empty() => folder,
        _ => Path::new("."),
    };
    let folder = File::open(rt, folder)?;
    end_sync(folder.sync_all())
}

/// Returns the result of a sync of the system. Its error is `NotSynced`.
fn end_sync(synced: io::Result<()>) -> Result<(), LogError>
    ensures { MatchResult synced (λ _. IsOk result) (λ reason. result ≡ Err (NotSynced reason)) }
{
    match synced {
        Ok(()) => Ok(()),
        Err(error) => Err(LogError::NotSynced(error)),
    }
}

impl LogFile for SystemFile {
    ghost seen = { λ _. None };

    ghost may_leave = { λ _ _. ⊥ };

    ghost is_sound = { λ _. Unit {0} };

    ghost seen_is_left = { λ _. tt };

    ghost moment = { λ _. 0 };

    ghost left_since = { λ _ _ _. ⊥ };

    ghost counts_now = { λ _ _ _ _ none. none };

    ghost only_now = { λ _ _ none. none };

    fn len(&self) -> Result<usize, LogError> {
        let len = self.file.metadata()?.len();
        match usize::try_from(len) {
            Ok(len) => Ok(len),
            Err(_) => Err(LogError::File(io::Error::from(ErrorKind::InvalidData))),
        }
    }

    fn read_at(&self, alloc: Global, at: usize, len: usize) -> Result<Vec<u8>, LogError> {
        let mut piece = vec![in alloc; 0u8; len]?;
        self.file.read_exact_at(piece.as_mut_slice(), at as u64)?;
        Ok(piece)
    }

    fn append(&mut self, bytes: &[u8]) -> Result<(), LogError> {
        Ok(self.file.write_all(bytes)?)
    }

    fn cut(&mut self, len: usize) -> Result<(), LogError> {
        Ok(self.file.set_len(len as u64)?)
    }

    fn sync(&mut self) -> Result<(), LogError> {
        end_sync(self.file.sync_data())
    }
}
