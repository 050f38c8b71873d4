//! A server of stream commands in memory: no socket, no file and no clock.
//!
//! A command is a list of words, its name first. `Server::step` executes one at the time that its caller
//! passes, and replies as redis-server 7.0.15 does; `append_reply` writes the bytes of a reply.
#![tactic(auto)]

mod answer;
mod client;
mod commands;
mod incoming;
mod laws;
mod loopback;
mod quoted;
mod refusal;
mod server;
mod session;
mod transaction;
mod watching;
mod writing;

pub use answer::{Answer, Reply, Status};
pub use client::Client;
pub use incoming::ProtocolError;
pub use laws::{
    replies_are_read, xack_is_the_event, xadd_is_the_event, xautoclaim_is_the_event,
    xdel_is_the_events,
};
pub use loopback::{Loopback, LoopbackReader, LoopbackWriter};
pub use redis_wire::Protocol;
pub use server::Server;
pub use session::Session;
pub use writing::append_reply;
