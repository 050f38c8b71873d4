//! The reply to EXEC if the server adds each record of a batch.
ghost use Rattle.std.specs.Prelude.{◌≡◌, ◌≤◌, ◌<◌, ◌+◌, ◌^◌, ◌++◌, IfErr, IfOk, IsTrue, Ok, OnErr, OnOk, length, true};
ghost use Rattle.redis_connection.specs.Link.{IsEnded, IsFaulty};
ghost use Rattle.redis_connection.specs.Passing.{AwaitsAnswer};
ghost use Rattle.worker_producer.specs.Executed.{HoldsExecuted, executed_bytes, ids_bytes};

use crate::batch::write_id;
use redis_connection::{Connection, ConnectionError};
use redis_wire::{Limits, push_bulk, push_count};
use std::alloc::{AllocError, Global};
use std::io::{Read, Write};

/// The bytes of that reply: an array of the records' ids.
#[derive(Drop)]
pub(crate) struct ExecutedReply {
    /// The number before that of the first record.
    before: u64,
    /// The number of records.
    sent: u64,
    bytes: Vec<u8>,
    ghost fits: { before + sent < 2 ^ 64 },
    ghost is: { bytes.items ≡ executed_bytes before sent },
}

impl ExecutedReply {
    /// The reply for `sent` records, of which the first has the id `(before + 1)-0`.
    pub fn new(alloc: Global, before: u64, sent: u64) -> Result<ExecutedReply, AllocError>
        requires { before + sent < 2 ^ 64 }
        ensures before { IfOk result (λ reply. reply.before ≡ before) }
        ensures sent { IfOk result (λ reply. reply.sent ≡ sent) }
    {
        let mut bytes = Vec::new(alloc);
        push_count(&mut bytes, b'*', sent as usize)?;
        append_ids(alloc, &mut bytes, before, sent)?;
        Ok(ExecutedReply {
            before,
            sent,
            bytes,
        })
    }

    /// The number of records.
    pub fn sent(&self) -> u64
        ensures { result ≡ self.now.sent }
    {
        self.sent
    }

    /// The number of its bytes.
    pub fn len(&self) -> usize
        ensures { result ≡ length self.now.bytes.items }
    {
        self.bytes.len()
    }

    /// Receives the next reply in place, and returns whether it is this one. A reply that was read already is not
    /// scanned.
    pub fn receive<R: Read + Drop, W: Write + Drop>(
        &self,
        alloc: Global,
        connection: &mut Connection<R, W>,
    ) -> Result<bool, ConnectionError>
        ensures ok { result ≡ Ok true → HoldsExecuted self.now.sent connection.new (length self.now.bytes.items) }
        ensures held { AwaitsAnswer connection.old connection.new }
        ensures ended { IfErr result (IsEnded connection.new) }
        ensures faulty { IfErr result (IsFaulty connection.new.held) }
    {
        if self.is_held(connection) {
            return Ok(true);
        }
        match connection.receive_in_place(alloc) {
            Ok(_len) => Ok(self.is_held(connection)),
            Err(error) => Err(error),
        }
    }

    /// Whether the bytes received begin with this reply, and the limits allow that.
    fn is_held<R: Read + Drop, W: Write + Drop>(&self, connection: &Connection<R, W>) -> bool
        ensures { IsTrue result → HoldsExecuted self.now.sent connection.now (length self.now.bytes.items) }
    {
        if !allows_ids(connection.limits(), self.sent) {
            return false;
        }
        are_same(connection.received(self.len()), &self.bytes)
    }
}

/// Appends the ids of `sent` records after the number `before`.
fn append_ids(alloc: Global, out: &mut Vec<u8>, before: u64, sent: u64) -> Result<(), AllocError>
    requires { before + sent < 2 ^ 64 }
    ensures { OnOk result (out.new.items ≡ out.old.items ++ ids_bytes before sent) }
{
    let mut id = Vec::new(alloc);
    for index in 0..sent {
        write_id(&mut id, before + index + 1)?;
        push_bulk(out, &id)?;
    }
    Ok(())
}

/// Whether these bytes are the same.
fn are_same(a: &[u8], b: &[u8]) -> bool
    ensures { IsTrue result → a.now ≡ b.now }
{
    a == b
}

/// Whether these limits allow a list of `sent` ids.
fn allows_ids(limits: Limits, sent: u64) -> bool
    ensures bound { IsTrue result → limits.length < 2 ^ 32 }
    ensures depth { IsTrue result → 2 ≤ limits.depth }
    ensures line { IsTrue result → 20 ≤ limits.line }
    ensures id { IsTrue result → 22 ≤ limits.length }
    ensures count { IsTrue result → sent ≤ limits.length }
    ensures values { IsTrue result → sent < limits.values }
{
    limits.depth >= 2
        && limits.line >= 20
        && limits.length >= 22
        && sent <= limits.length as u64
        && sent < limits.values as u64
}
