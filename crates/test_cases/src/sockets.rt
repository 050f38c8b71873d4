//! Cases of sockets: what `connection_over` sets at a stream.
//!
//! ```text
//! socket    15000           open: nodelay Some(true), read Some(15s), write Some(15s)
//! socket    15000 write     cannot read from the server: invalid input parameter: nodelay Some(true), ..
//! ```
//!
//! The input is the patience in milliseconds, and a word for the call that the stream refuses, if any. The patience
//! is the timeout of a read and of a write. No contract refuses a body of `TimedStream` that sets something else at
//! a stream of std. So these lines try it.
ghost use Rattle.std.specs.Prelude.{IfOk, IsSome, IsTrue};
ghost use Rattle.test_cases.specs.Kinds.{is_socket};

use redis::connection::ConnectionError;
use redis_client::connection_over;
use std::alloc::{AllocError, Global};
use std::cell::Cell;
use std::io;
use std::io::{ErrorKind, Read, Write};
use std::net::OpenStream;
use std::time::Duration;

/// What was set last at a stream, and the word for the call that it refuses.
#[derive(Drop)]
struct Noted<'a> {
    refused: &'a str,
    nodelay: Cell<Option<bool>>,
    read: Cell<Option<Duration>>,
    write: Cell<Option<Duration>>,
}

/// A handle of a stream that notes what is set.
#[derive(Drop)]
struct Noting<'a> {
    noted: &'a Noted<'a>,
}

impl Noting<'_> {
    /// Returns an error if the call of this word is refused.
    fn check_call(&self, word: &str) -> io::Result<()> {
        if self.noted.refused == word {
            return Err(io::Error::from(ErrorKind::InvalidInput));
        }
        Ok(())
    }
}

impl Read for Noting<'_> {
    fn read(&mut self, _buf: &mut [u8]) -> io::Result<usize> {
        Ok(0)
    }
}

impl Write for Noting<'_> {
    fn write(&mut self, _buf: &[u8]) -> io::Result<usize> {
        Ok(0)
    }

    fn flush(&mut self) -> io::Result<()> {
        Ok(())
    }
}

impl<'a> OpenStream for Noting<'a> {
    fn set_nodelay(&self, nodelay: bool) -> io::Result<()> {
        self.check_call("nodelay")?;
        self.noted.nodelay.set(Some(nodelay));
        Ok(())
    }

    fn set_read_timeout(&self, limit: Option<Duration>) -> io::Result<()> {
        self.check_call("read")?;
        self.noted.read.set(limit);
        Ok(())
    }

    fn set_write_timeout(&self, limit: Option<Duration>) -> io::Result<()> {
        self.check_call("write")?;
        self.noted.write.set(limit);
        Ok(())
    }

    fn try_clone(&self) -> io::Result<Noting<'a>> {
        self.check_call("clone")?;
        Ok(Noting { noted: self.noted })
    }
}

/// Runs a case of this module. Returns its outcome, or `None` if its kind is another.
pub fn run_case(alloc: Global, kind: &str, input: &str) -> Result<Option<String>, AllocError>
    ensures { IfOk result (λ o. IsSome o → IsTrue (is_socket kind.now)) }
{
    match kind {
        "socket" => Ok(Some(try_socket(alloc, input)?)),
        _ => Ok(None),
    }
}

/// Parses an input, and makes a connection over a stream by it. Returns the outcome.
fn try_socket(alloc: Global, input: &str) -> Result<String, AllocError> {
    let (number, refused) = match input.split_once(' ') {
        Some(parts) => parts,
        None => (input, ""),
    };
    match number.parse() {
        Ok(milliseconds) => try_stream(alloc, Duration::from_millis(milliseconds), refused),
        Err(_error) => String::from_str(alloc, "no number"),
    }
}

/// Makes a connection over a stream. Returns whether it was made, and what was set at the stream.
fn try_stream(alloc: Global, patience: Duration, refused: &str) -> Result<String, AllocError> {
    let noted = Noted {
        refused,
        nodelay: Cell::new(None),
        read: Cell::new(None),
        write: Cell::new(None),
    };
    let outcome = match connection_over(alloc, Noting { noted: &noted }, patience) {
        Ok(_connection) => String::from_str(alloc, "open")?,
        Err(ConnectionError::Memory) => return Err(AllocError),
        Err(error) => format!(in alloc; "{error}")?,
    };
    let (nodelay, read, write) = (noted.nodelay.get(), noted.read.get(), noted.write.get());
    format!(in alloc; "{outcome}: nodelay {nodelay:?}, read {read:?}, write {write:?}")
}
