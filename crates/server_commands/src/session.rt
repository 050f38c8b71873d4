//! What a server knows of one connection.
ghost use Rattle.std.specs.Prelude.{◌≡◌, [], false};
ghost use Rattle.server_commands.specs.Session.{new_session};

use crate::commands::Plain;
use crate::watching::Watched;
use redis_wire::Protocol;
use std::alloc::Global;
use std::marker::Model;

/// What a server knows of one connection.
///
/// A contract sees it without the capacity of its lists.
#[derive(Debug, Drop)]
pub struct Session {
    /// HELLO changes it.
    pub protocol: Protocol,
    /// What CLIENT SETNAME or HELLO sets; nothing at the beginning.
    pub(crate) name: Vec<u8>,
    pub(crate) mode: Mode,
    /// The commands that EXEC is to execute.
    pub(crate) queue: Vec<Queued>,
    /// The keys that WATCH named.
    pub(crate) watched: Vec<Watched>,
    /// Whether one of them was changed since.
    pub(crate) is_touched: bool,
}

impl Model for Session {
    ghost use Rattle.server_commands.specs.Session.{SeenSession, seen_session};

    ghost Value = { SeenSession };

    ghost view = { λ s. seen_session s.protocol s.name s.mode s.queue s.watched s.is_touched };
}

/// When commands are executed.
#[derive(Clone, Copy, Debug, PartialEq, Eq)]
pub(crate) enum Mode {
    /// As they come.
    AtOnce,
    /// Once EXEC comes, after MULTI.
    Queued,
    /// Never: one of them was refused.
    Aborted,
}

/// A command that waits for EXEC.
#[derive(Debug, Drop)]
pub(crate) struct Queued {
    pub(crate) command: Plain,
    /// Its name and its arguments.
    pub(crate) words: Vec<Vec<u8>>,
}

impl Session {
    /// A connection that begins, with RESP2 as a server has it, or with RESP3.
    pub fn new(alloc: Global, protocol: Protocol) -> Session
        ensures { result ≡ new_session protocol }
    {
        Session {
            protocol,
            name: Vec::new(alloc),
            mode: Mode::AtOnce,
            queue: Vec::new(alloc),
            watched: Vec::new(alloc),
            is_touched: false,
        }
    }

    /// Watches no key any more.
    pub(crate) fn unwatch(&mut self)
        ensures { self.new ≡ record self.old { watched = []; is_touched = false } }
    {
        self.watched.clear();
        self.is_touched = false;
    }
}
