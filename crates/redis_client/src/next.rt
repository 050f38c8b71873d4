//! What to do after an error.
ghost use Rattle.std.specs.Prelude.{◌≡◌};
ghost use Rattle.std.specs.Str.{bytes_eq};
ghost use Rattle.redis_client.specs.Next.{after_answer, after_connection, after_code, after_server, is_full, is_moving, is_passing};

use redis_connection::{AskError, ConnectionError};
use redis_wire::ServerError;

/// What a program does after an error.
#[derive(Clone, Copy, Debug, PartialEq, Eq)]
pub enum Next {
    /// Close the connection, pause, and connect again.
    Reconnect,
    /// Pause, and send the same again: the error is temporary.
    Later,
    /// Exit, and report the error: a retry does not help.
    GiveUp,
}

/// Whether both are the same bytes.
fn is(code: &[u8], other: &[u8]) -> bool
    ensures { result ≡ bytes_eq code.now other.now }
{
    code == other
}

/// Whether the server has become a replica.
fn is_moving(code: &[u8]) -> bool
    ensures { result ≡ is_moving code.now }
{
    is(code, b"READONLY") | is(code, b"UNBLOCKED")
}

/// Whether the error is temporary.
fn is_passing(code: &[u8]) -> bool
    ensures { result ≡ is_passing code.now }
{
    let starts = is(code, b"LOADING") | is(code, b"MASTERDOWN") | is(code, b"CLUSTERDOWN");
    let works = is(code, b"TRYAGAIN") | is(code, b"BUSY");
    let lacks = is(code, b"OOM") | is(code, b"MISCONF") | is(code, b"NOREPLICAS");
    starts | works | lacks
}

/// What to do after a server's error with this code, such as `LOADING`.
pub fn next_after_code(code: &[u8]) -> Next
    ensures { result ≡ after_code code.now }
{
    if is_moving(code) {
        Next::Reconnect
    } else if is_passing(code) {
        Next::Later
    } else {
        Next::GiveUp
    }
}

/// Whether the server has reached its limit of connections. Redis replies so, and then closes the connection.
fn is_full(text: &[u8]) -> bool
    ensures { result ≡ is_full text.now }
{
    text.starts_with(b"ERR max number of clients")
}

/// What to do after the error of a server: its code decides, except for `ERR max number of clients reached`.
pub fn next_after_server(error: &ServerError) -> Next
    ensures { result ≡ after_server error.now.text.items }
{
    if is_full(&error.text) {
        return Next::Reconnect;
    }
    next_after_code(error.code())
}

/// What to do after the error of a connection.
pub fn next_after_connection(error: &ConnectionError) -> Next
    ensures { result ≡ after_connection error.now }
{
    match error {
        ConnectionError::Write(_) | ConnectionError::Read(_) => Next::Reconnect,
        ConnectionError::Closed | ConnectionError::Memory => Next::Reconnect,
        ConnectionError::TooLong | ConnectionError::NoArguments => Next::GiveUp,
        ConnectionError::Fault(_) => Next::GiveUp,
    }
}

/// What to do after a command without a reply.
pub fn next_after_answer(error: &AskError) -> Next
    ensures { result ≡ after_answer error.now }
{
    match error {
        AskError::Connection(error) => next_after_connection(error),
        AskError::Server(error) => next_after_server(error),
        AskError::Parsing(_) | AskError::NotAnAnswer => Next::GiveUp,
    }
}
