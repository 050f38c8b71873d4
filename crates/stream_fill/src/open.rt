//! Opening the files of a run.
ghost use Rattle.std.specs.Prelude.{◌≡◌, List, None, Option, ℕ, IfOk};

use crate::byte_file::ByteFile;
use std::fs::File;
use std::io;
use worker_journal::{LogError, LogFile, SystemFile};

/// Opens files by their paths: files with lines, and files with a base.
pub trait Open<F: ByteFile, D: LogFile> {
    /// The bytes of the file at this path, if they are known.
    ghost content: { Self → List ℕ → Option (List ℕ) };

    /// Opens the file with lines at `path`.
    fn open_lines(&self, path: &str) -> io::Result<F>
        ensures { IfOk result (λ file. F.bytes file ≡ content self.now path.now) };

    /// Opens the file with a base at `path`, and creates it if it does not exist.
    fn open_kept(&self, path: &str) -> Result<D, LogError>
        ensures { IfOk result (λ file. D.seen file ≡ content self.now path.now) };
}

impl Open<File, SystemFile> for HostRuntime {
    ghost content = { λ _ _. None };

    fn open_lines(&self, path: &str) -> io::Result<File> {
        File::open(self, path)
    }

    fn open_kept(&self, path: &str) -> Result<SystemFile, LogError> {
        SystemFile::open(self, path)
    }
}
