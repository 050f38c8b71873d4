//! The reply `+QUEUED`, which each command of a batch has.
ghost use Rattle.std.specs.Prelude.{◌≡◌, ◌≤◌, ◌<◌, ◌++◌, ◌∷◌, IfOk, IfErr, OnErr, IsTrue, codes};
ghost use Rattle.redis_connection.specs.Link.{IsEnded, IsFaulty};
ghost use Rattle.redis_connection.specs.Passing.{AwaitsAnswer, IsAnswerInPlace};
ghost use Rattle.redis_wire.specs.Packed.{crlf};

use redis_connection::{Connection, ConnectionError};
use redis_wire::Limits;
use std::alloc::Global;
use std::io::{Read, Write};

/// The length of `+QUEUED` and its line end.
const LEN: usize = 9;

/// Receives the next reply in place, as `Connection::receive_in_place` does. If it is `+QUEUED`, and was read already,
/// it is not scanned.
pub fn receive_in_place<R: Read + Drop, W: Write + Drop>(
    alloc: Global,
    connection: &mut Connection<R, W>,
) -> Result<usize, ConnectionError>
    ensures ok { IfOk result (IsAnswerInPlace connection.old connection.new) }
    ensures err { OnErr result (AwaitsAnswer connection.old connection.new) }
    ensures ended { IfErr result (IsEnded connection.new) }
    ensures faulty { IfErr result (IsFaulty connection.new.held) }
{
    if holds_queued(connection) {
        return Ok(LEN);
    }
    connection.receive_in_place(alloc)
}

/// Whether the bytes received begin with `+QUEUED`, and the limits allow that.
fn holds_queued<R: Read + Drop, W: Write + Drop>(connection: &Connection<R, W>) -> bool
    ensures { IsTrue result → IsAnswerInPlace connection.now connection.now 9 }
{
    if !allows_line(connection.limits()) {
        return false;
    }
    is_queued(connection.received(LEN))
}

/// Whether these bytes are `+QUEUED` and a line end.
fn is_queued(bytes: &[u8]) -> bool
    ensures { IsTrue result → bytes.now ≡ 43 ∷ (codes "QUEUED" ++ crlf) }
{
    matches!(
        bytes,
        [b'+', b'Q', b'U', b'E', b'U', b'E', b'D', b'\r', b'\n']
    )
}

/// Whether these limits allow a line of six bytes.
fn allows_line(limits: Limits) -> bool
    ensures depth { IsTrue result → 0 < limits.depth }
    ensures line { IsTrue result → 6 ≤ limits.line }
    ensures values { IsTrue result → 1 ≤ limits.values }
{
    limits.depth > 0 && limits.line >= 6 && limits.values > 0
}
