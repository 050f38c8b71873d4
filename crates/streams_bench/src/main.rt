//! Prints one line for each vector of the stream layer: its name and the text that the layer
//! computes, followed by the stored text if the two differ.
//!
//! ```text
//! v01 MAXLEN ~ 10 LIMIT 5
//! ```
//!
//! If no text differs, it then writes one line for each line of standard input: `ok k`,
//! `no` or `unknown`.
//!
//! Exits with 0 if no text differs, with 1 if one does, and with 2 if memory ran out,
//! or standard input or output failed.
#![tactic(auto)]

ghost use Rattle.std.specs.Prelude.{◌≡◌, Ok, OnErr, false, true};
ghost use Rattle.std.specs.Process.{exit_status};

mod sentences;
mod vectors;

use sentences::{RunError, run};
use std::alloc::AllocError;
use std::io;
use std::process::ExitCode;
use test_notation::row_lines::{PrintError, print_rows};
use vectors::vector_rows;

/// A text differed.
const DIFFERENT: u8 = 1;

/// Memory ran out, or standard input or output failed.
const FAILED: u8 = 2;

/// Why the program failed.
#[derive(Debug, Drop)]
enum Failure {
    Memory,
    Print,
    Lines,
}

impl From<AllocError> for Failure {
    fn from(_error: AllocError) -> Failure {
        Failure::Memory
    }
}

impl From<PrintError> for Failure {
    fn from(_error: PrintError) -> Failure {
        Failure::Print
    }
}

impl From<RunError> for Failure {
    fn from(_error: RunError) -> Failure {
        Failure::Lines
    }
}

fn main(rt: HostRuntime) -> ExitCode {
    exit_code(print_and_answer(&rt))
}

/// The status of a run: 0 if all texts equal the stored ones, 1 if one differs, and 2 after a failure.
fn exit_code(outcome: Result<bool, Failure>) -> ExitCode
    ensures same { outcome ≡ Ok true → exit_status result ≡ 0 }
    ensures differs { outcome ≡ Ok false → exit_status result ≡ 1 }
    ensures failed { OnErr outcome (exit_status result ≡ 2) }
{
    match outcome {
        Ok(true) => ExitCode::SUCCESS,
        Ok(false) => ExitCode::from(DIFFERENT),
        Err(_failure) => ExitCode::from(FAILED),
    }
}

/// Prints the vectors. If no text differs, it then writes a line for each line of standard input.
fn print_and_answer<R: Print + Input + AllocGlobal>(rt: &R) -> Result<bool, Failure> {
    if !print_vectors(rt)? {
        return Ok(false);
    }
    run(rt.alloc(), &mut rt.reader(), &mut io::writer(rt))?;
    Ok(true)
}

/// Prints the line of each vector. Returns whether all texts equal the stored ones.
fn print_vectors<R: Print + AllocGlobal>(rt: &R) -> Result<bool, Failure> {
    let rows = vector_rows(rt.alloc())?;
    Ok(print_rows(&rows, &mut io::writer(rt))?)
}
