//! A worker's handler that is another program, in any language, at the other end of two pipes.
//!
//! For each entry the handler writes one line of JSON,
//! `{"id":"1-0","fields":[["name","value"],..],"stream":"orders"}`. Then it reads one line, the reply: `done`,
//! `later`, `later TEXT`, `dead TEXT` or `stop`. The next line is written after the reply.
//!
//! An entry is done only if the reply to its line is `done`, or `{"done":true}`. A reply of JSON may add
//! entries to other streams: `{"done":true,"add":[["stream",{"name":"value"}]]}`. They are sent before the
//! entry is acknowledged.
#![tactic(auto)]

mod added;
mod fault;
mod jobs;
pub mod laws;
mod line;
mod pipes;
mod reply;

pub use fault::Fault;
pub use jobs::{Jobs, Note};
pub use line::entry_line;
pub use pipes::{LONGEST, SteadyRead, SteadyWrite, read_line, write_line};
pub use reply::{Reply, take_reply, text_in, word_in};
