//! The commands to other streams that have no reply yet.
ghost use Rattle.std.specs.Prelude.{◌≡◌, ◌↔◌, ◌<◌, ◌≤◌, ◌++◌, ◌∷◌, [], IfErr, IfOk, IsTrue, OnErr, OnOk};
ghost use Rattle.std.specs.Prelude.{drop, false, length, map, take, true};
ghost use Rattle.redis_connection.specs.Link.{Link};
ghost use Rattle.redis_connection.specs.Passing.{ReceivesAnswer};
ghost use Rattle.redis_wire.specs.Packed.{command_bytes};
ghost use Rattle.redis_wire.specs.Reply.{Answer};
ghost use Rattle.worker.specs.Outbox.Sent.{IsNotTaken, IsNotTakenBy, Replied, SendsAll, SendsSome, SendsSomeBy};
ghost use Rattle.worker.specs.Outbox.Sent.{all_bytes, takes, unsent_of};

use crate::outbox::error::OutboxError;
use redis_connection::Connection;
use redis_resp::ToRedisArgs;
use redis_wire::{PackError, Reply, pack_command};
use std::alloc::{AllocError, Global};
use std::io::{Read, Write};

/// Commands without a reply, in order, each as its bytes.
#[derive(Debug, Drop)]
pub struct Outbox {
    commands: Vec<Vec<u8>>,
}

/// How many replies were received, and the error that ended them.
#[derive(Drop)]
struct Replies {
    count: usize,
    ended: Result<(), OutboxError>,
}

impl Outbox {
    /// Returns an empty outbox. Allocates nothing.
    pub fn new(alloc: Global) -> Outbox
        ensures { unsent_of result ≡ [] }
    {
        Outbox {
            commands: Vec::new(alloc),
        }
    }

    /// Whether every command got its reply.
    pub fn is_empty(&self) -> bool
        ensures empty { IsTrue result ↔ (unsent_of self.now ≡ []) }
    {
        self.commands.is_empty()
    }

    /// Returns the number of commands without a reply.
    pub fn len(&self) -> usize
        ensures { result ≡ length (unsent_of self.now) }
    {
        self.commands.len()
    }

    /// Appends a whole command, as an XADD. An `Err` changes nothing.
    pub fn push<T: ToRedisArgs>(&mut self, alloc: Global, command: &T) -> Result<(), PackError>
        ensures ok { OnOk result (unsent_of self.new
            ≡ unsent_of self.old ++ command_bytes (T.args command.now) ∷ []) }
        ensures err { OnErr result (unsent_of self.new ≡ unsent_of self.old) }
    {
        let bytes = pack_command(alloc, command)?;
        match self.commands.push(bytes) {
            Ok(()) => Ok(()),
            Err(_) => Err(PackError::Memory),
        }
    }

    /// Removes the commands after the first `len`, if an entry's work cannot be completed.
    pub fn truncate(&mut self, len: usize)
        ensures { unsent_of self.new ≡ take len (unsent_of self.old) }
    {
        self.commands.truncate(len);
    }

    /// Sends all commands in one write, and takes one reply to each. After `Ok` the outbox is empty. After an
    /// `Err` the commands without a reply stay, and the next call sends them again. So each command is sent at
    /// least once, and may be sent twice.
    ///
    /// The call ends at an error reply. The command of that reply and those after it stay. The server may have
    /// executed the later ones.
    pub fn send<R: Read + Drop, W: Write + Drop>(
        &mut self,
        alloc: Global,
        connection: &mut Connection<R, W>,
    ) -> Result<(), OutboxError>
        ensures ok { OnOk result ((unsent_of self.new ≡ [])
            × SendsAll (unsent_of self.old) connection.old connection.new) }
        ensures err { OnErr result (SendsSome (unsent_of self.old) (unsent_of self.new)
            connection.old connection.new) }
        ensures cause { IfErr result (λ e. SendsSomeBy e (unsent_of self.old) (unsent_of self.new)
            connection.old connection.new) }
    {
        let bytes = join_commands(alloc, &self.commands)?;
        connection.send_bytes(&bytes)?;
        let replies = take_replies(alloc, connection, self.len());
        self.drop_first(replies.count);
        replies.ended
    }

    /// Removes the first commands.
    fn drop_first(&mut self, count: usize)
        requires { count ≤ length (unsent_of self.old) }
        ensures { unsent_of self.new ≡ drop count (unsent_of self.old) }
    {
        drop(self.commands.drain(..count));
    }
}

/// Returns the bytes of these commands in order.
fn join_commands(alloc: Global, commands: &[Vec<u8>]) -> Result<Vec<u8>, AllocError>
    ensures { IfOk result (λ bytes. bytes.items ≡ all_bytes (map (λ c. c.items) commands.now)) }
{
    let mut bytes = Vec::new(alloc);
    for command in commands {
        bytes.extend_from_slice(command)?;
    }
    Ok(bytes)
}

/// Takes this number of replies, up to the first that is an error.
fn take_replies<R: Read + Drop, W: Write + Drop>(
    alloc: Global,
    connection: &mut Connection<R, W>,
    wanted: usize,
) -> Replies
    ensures within { result.count ≤ wanted }
    ensures all { OnOk result.ended ((result.count ≡ wanted) × Replied wanted connection.old connection.new) }
    ensures some { OnErr result.ended ((result.count < wanted)
        × ((m : Link) × Replied result.count connection.old m × IsNotTaken m connection.new)) }
    ensures cause { IfErr result.ended (λ e. (m : Link) × Replied result.count connection.old m
        × IsNotTaken m connection.new × IsNotTakenBy e m connection.new) }
{
    for count in 0..wanted {
        match take_reply(alloc, connection) {
            Ok(()) => {}
            Err(error) => {
                return Replies {
                    count,
                    ended: Err(error),
                };
            }
        }
    }
    Replies {
        count: wanted,
        ended: Ok(()),
    }
}

/// Takes a reply.
fn take_reply<R: Read + Drop, W: Write + Drop>(
    alloc: Global,
    connection: &mut Connection<R, W>,
) -> Result<(), OutboxError>
    ensures ok { OnOk result ((a : Answer) × ReceivesAnswer connection.old connection.new a × (takes a ≡ true)) }
    ensures err { OnErr result (IsNotTaken connection.old connection.new) }
    ensures cause { IfErr result (λ e. IsNotTakenBy e connection.old connection.new) }
{
    match connection.receive(alloc) {
        Ok(Reply::Value(_)) => Ok(()),
        Ok(Reply::Error(error)) => Err(OutboxError::Refused(error)),
        Ok(_) => Err(OutboxError::NotAnAnswer),
        Err(error) => Err(OutboxError::Connection(error)),
    }
}
