//! The server: its streams, and one command at a time.
ghost use Rattle.std.specs.Prelude.{◌≡◌, [], IfOk, OnErr};
ghost use Rattle.server_commands.specs.Server.{IsRefused};
ghost use Rattle.server_commands.specs.Stepping.{XackSteps, XaddSteps, XautoclaimSteps, XdelSteps, XreadgroupSteps};
ghost use Rattle.server_commands.specs.Steps.{WaitsForExec};
ghost use Rattle.server_commands.specs.declared.session.Mode.TheVariants.{AtOnce};

use crate::answer::Reply;
use crate::session::Session;
use crate::transaction;
use server_store::{NODE_ENTRIES, Stream};
use std::alloc::{AllocError, Global};
use std::marker::Model;

/// The streams of a server, by their keys.
///
/// A contract sees each stream without the capacity of its lists.
#[derive(Debug, Drop)]
pub struct Server {
    streams: Vec<Stream>,
    /// How many entries a node has at most; 0 for any number.
    node_entries: u64,
}

impl Model for Server {
    ghost use Rattle.std.specs.Prelude.{List};
    ghost use Rattle.server_store.specs.Stream.{Seen};

    ghost Value = { List Seen };

    ghost use Rattle.server_commands.specs.Streams.{seen_streams};

    ghost view = { λ s. seen_streams s.streams };
}

impl Server {
    /// A server without streams.
    pub fn new(alloc: Global) -> Server
        ensures { result ≡ [] }
    {
        Server {
            streams: Vec::new(alloc),
            node_entries: NODE_ENTRIES,
        }
    }

    /// Executes a command, its name and its arguments, at the time `now`, in milliseconds, and replies as
    /// redis-server does, without ever blocking. After MULTI it is queued, and EXEC executes what is queued.
    ///
    /// A command that is refused changes no stream. An `Err` means that an allocation failed: it changes no
    /// stream either, nor the session.
    pub fn step(
        &mut self,
        alloc: Global,
        now: u64,
        session: &mut Session,
        command: Vec<Vec<u8>>,
    ) -> Result<Reply, AllocError>
        ensures err { OnErr result (self.new ≡ self.old) }
        ensures session { OnErr result (session.new ≡ session.old) }
        ensures refused { IfOk result (λ r. IsRefused r → self.new ≡ self.old) }
        ensures xack { IfOk result (λ r. session.old.mode ≡ AtOnce → XackSteps command.items r self.old self.new) }
        ensures xdel { IfOk result (λ r. session.old.mode ≡ AtOnce → XdelSteps command.items r self.old self.new) }
        ensures xadd { IfOk result (λ r. session.old.mode ≡ AtOnce → XaddSteps command.items r self.old self.new) }
        ensures xautoclaim { IfOk result (λ r. session.old.mode ≡ AtOnce
            → XautoclaimSteps command.items r self.old self.new) }
        ensures xreadgroup { IfOk result (λ r. session.old.mode ≡ AtOnce
            → XreadgroupSteps command.items r self.old self.new) }
        ensures queued { IfOk result (λ r. WaitsForExec command r (record { streams = self.old; session = session.old })
            (record { streams = self.new; session = session.new })) }
    {
        transaction::answered(
            alloc,
            &mut self.streams,
            &mut self.node_entries,
            now,
            session,
            command,
        )
    }
}
