//! Opening files for lines.
ghost use Rattle.std.specs.Prelude.{◌≡◌, List, None, Option, ℕ, IfOk};

use worker_journal::{LogError, LogFile, SystemFile};

/// Opens files by their paths.
pub trait Open<D: LogFile> {
    /// The bytes of the file at this path, if they are known.
    ghost content: { Self → List ℕ → Option (List ℕ) };

    /// Opens the file at `path`, and creates it if it does not exist.
    fn open(&self, path: &str) -> Result<D, LogError>
        ensures sound { IfOk result D.is_sound }
        ensures bytes { IfOk result (λ file. D.seen file ≡ content self.now path.now) };
}

impl Open<SystemFile> for HostRuntime {
    ghost content = { λ _ _. None };

    fn open(&self, path: &str) -> Result<SystemFile, LogError> {
        SystemFile::open(self, path)
    }
}
