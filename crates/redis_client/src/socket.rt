//! A connection over an open socket.
ghost use Rattle.std.specs.Prelude.{◌≢◌, Bool, Option, IfErr, IfOk, OnOk};
ghost use Rattle.std.specs.declared.time.Duration.{Duration};
ghost use Rattle.redis_client.specs.Timed.{IsOver, IsTimed, Stays};

use redis_connection::{Connection, ConnectionError};
use redis_wire::Limits;
use std::alloc::Global;
use std::io;
use std::io::{Read, Write};
use std::net::OpenStream;
use std::time::Duration;

/// A handle of an open stream, as the contract of `connection_over` sees it: what was set last through it.
///
/// A call takes `&mut self`, since a limit that is lifted again is no longer set. What a limit means is
/// trusted of the system. A read or a write that takes longer fails; with `None` it may wait without end.
/// All handles of a stream share what is set.
pub trait TimedStream: Sized {
    /// TCP_NODELAY was set so, and the call returned Ok.
    ghost has_nodelay: { Self → Bool → Type 0 };

    /// This limit was set for each read, and the call returned Ok.
    ghost reads_within: { Self → Option Duration → Type 0 };

    /// This limit was set for each write, and the call returned Ok.
    ghost writes_within: { Self → Option Duration → Type 0 };

    /// Sets TCP_NODELAY.
    fn set_nodelay(&mut self, nodelay: bool) -> io::Result<()>
        ensures set { OnOk result (has_nodelay self.new nodelay) }
        ensures reads { Stays reads_within self.old self.new }
        ensures writes { Stays writes_within self.old self.new };

    /// Sets how long a read may take.
    fn set_read_timeout(&mut self, limit: Option<Duration>) -> io::Result<()>
        ensures set { OnOk result (reads_within self.new limit) }
        ensures nodelay { Stays has_nodelay self.old self.new }
        ensures writes { Stays writes_within self.old self.new };

    /// Sets how long a write may take.
    fn set_write_timeout(&mut self, limit: Option<Duration>) -> io::Result<()>
        ensures set { OnOk result (writes_within self.new limit) }
        ensures nodelay { Stays has_nodelay self.old self.new }
        ensures reads { Stays reads_within self.old self.new };

    /// Returns another handle of the stream, with what was set through this one.
    fn try_clone(&self) -> io::Result<Self>
        ensures nodelay { IfOk result (Stays has_nodelay self.now) }
        ensures reads { IfOk result (Stays reads_within self.now) }
        ensures writes { IfOk result (Stays writes_within self.now) };
}

/// Each open stream of std is one. The calls of std have no clauses, so none refuses a body here that hands on
/// something else. The lines `socket` of `test_cases` try these bodies.
impl<S: OpenStream> TimedStream for S {
    ghost has_nodelay = { λ _ _. Unit {0} };

    ghost reads_within = { λ _ _. Unit {0} };

    ghost writes_within = { λ _ _. Unit {0} };

    fn set_nodelay(&mut self, nodelay: bool) -> io::Result<()> {
        OpenStream::set_nodelay(self, nodelay)
    }

    fn set_read_timeout(&mut self, limit: Option<Duration>) -> io::Result<()> {
        OpenStream::set_read_timeout(self, limit)
    }

    fn set_write_timeout(&mut self, limit: Option<Duration>) -> io::Result<()> {
        OpenStream::set_write_timeout(self, limit)
    }

    fn try_clone(&self) -> io::Result<S> {
        OpenStream::try_clone(self)
    }
}

/// A connection over an open stream, such as a `TcpStream`. A read or a write that takes longer than
/// `patience` fails, and TCP_NODELAY is set. `patience` has to be longer than `block` of a worker's settings, by
/// the time that a busy server may need.
///
/// Proved is what was set last at both ends of the connection. Trusted is that the system keeps to it, and
/// that `TimedStream` sets at a stream of std what its calls were given.
pub fn connection_over<S: Read + Write + TimedStream + Drop>(
    alloc: Global,
    mut stream: S,
    patience: Duration,
) -> Result<Connection<S, S>, ConnectionError>
    ensures timed { IfOk result (IsOver S.remaining S.contents
        (IsTimed S.has_nodelay S.reads_within S.writes_within patience)) }
    ensures cause { IfErr result (λ e. e ≢ ConnectionError.Closed) }
{
    match prepare_reader(&mut stream, patience) {
        Ok(reader) => Ok(Connection::new(alloc, reader, stream, Limits::default())?),
        Err(error) => Err(ConnectionError::Read(error)),
    }
}

/// The reading end of a stream, after both ends are set.
fn prepare_reader<S: Read + Write + TimedStream + Drop>(
    stream: &mut S,
    patience: Duration,
) -> io::Result<S>
    ensures reader { IfOk result (IsTimed S.has_nodelay S.reads_within S.writes_within patience) }
    ensures writer { OnOk result (IsTimed S.has_nodelay S.reads_within S.writes_within patience stream.new) }
{
    stream.set_nodelay(true)?;
    stream.set_read_timeout(Some(patience))?;
    stream.set_write_timeout(Some(patience))?;
    stream.try_clone()
}
