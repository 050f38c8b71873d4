//! Opening the pipes of a child by their paths.
ghost use Rattle.std.specs.Prelude.{◌≡◌, List, None, Option, ℕ, IfOk};

use crate::failure::Failure;
use anyhow::Error;
use std::fs::{File, OpenOptions};
use std::io::BufReader;
use worker_jobs::{SteadyRead, SteadyWrite};

/// Opens the two pipes of a child.
pub trait OpenPipes<C: SteadyRead, D: SteadyWrite> {
    /// The bytes that come from the child through the pipe at this path, if they are known.
    ghost coming: { Self → List ℕ → Option (List ℕ) };

    /// The bytes in the pipe to the child at this path, if they are known.
    ghost held: { Self → List ℕ → Option (List ℕ) };

    /// Opens the pipe at `path` that the child writes to.
    fn open_replies(&self, path: &str) -> Result<C, Failure>
        ensures { IfOk result (λ replies. C.remaining replies ≡ coming self.now path.now) };

    /// Opens the pipe at `path` that the child reads from.
    fn open_lines(&self, path: &str) -> Result<D, Failure>
        ensures { IfOk result (λ lines. D.contents lines ≡ held self.now path.now) };
}

impl OpenPipes<BufReader<File>, File> for HostRuntime {
    ghost coming = { λ _ _. None };

    ghost held = { λ _ _. None };

    fn open_replies(&self, path: &str) -> Result<BufReader<File>, Failure> {
        match File::open(self, path) {
            Ok(file) => match BufReader::new(self.alloc(), file) {
                Ok(replies) => Ok(replies),
                Err(error) => Err(Error::from(error).into()),
            },
            Err(error) => Err(Failure::Unopened(error)),
        }
    }

    fn open_lines(&self, path: &str) -> Result<File, Failure> {
        let mut options = OpenOptions::new();
        options.write(true);
        match options.open(self, path) {
            Ok(file) => Ok(file),
            Err(error) => Err(Failure::Unopened(error)),
        }
    }
}
