//! The reply of a child to an entry.
ghost use Rattle.std.specs.Prelude.{◌≡◌, ◌++◌, IfOk, None, Ok, OnErr, OnOk};
ghost use Rattle.worker.specs.Outbox.Sent.{unsent_of};
ghost use Rattle.worker_jobs.specs.VerdictOf.{commands_of_line, text_of, verdict_of, word_of};

use crate::added::queue_added;
use crate::fault::Fault;
use std::alloc::Global;
use worker::outbox::Outbox;

/// The reply of a child to an entry.
#[derive(Clone, Copy, Debug, PartialEq, Eq)]
pub enum Reply {
    /// `done`, or a reply of JSON: the entry is acknowledged after the worker has committed.
    Done,
    /// `later` or `later TEXT`: the entry stays pending, and is delivered again.
    Later,
    /// `dead TEXT`: the worker should give up the entry.
    Dead,
    /// `stop`: the entry stays pending, and the worker takes no other entry.
    Stop,
}

/// Parses a reply without its line end. If the reply is JSON, queues an XADD for each entry that it adds:
/// `{"done":true,"add":[["stream",{"name":"value"}]]}`. Returns `None`, and queues nothing, if the line is not
/// a reply. An `Err` queues nothing.
pub fn take_reply(alloc: Global, line: &[u8], outbox: &mut Outbox) -> Result<Option<Reply>, Fault>
    ensures reply { IfOk result (λ reply. reply ≡ verdict_of line.now) }
    ensures added { OnOk result (unsent_of outbox.new ≡ unsent_of outbox.old ++ commands_of_line line.now) }
    ensures none { result ≡ Ok None → unsent_of outbox.new ≡ unsent_of outbox.old }
    ensures err { OnErr result (unsent_of outbox.new ≡ unsent_of outbox.old) }
{
    if let Some(reply) = word_in(line) {
        return Ok(Some(reply));
    }
    if queue_added(alloc, line, outbox)? {
        Ok(Some(Reply::Done))
    } else {
        Ok(None)
    }
}

/// Parses a reply that is not JSON, without its line end. Returns `None` if the line is not such a reply.
pub fn word_in(line: &[u8]) -> Option<Reply>
    ensures { result ≡ word_of line.now }
{
    if line == b"done".as_slice() {
        Some(Reply::Done)
    } else if line == b"stop".as_slice() {
        Some(Reply::Stop)
    } else if line == b"later".as_slice() || line.starts_with(b"later ".as_slice()) {
        Some(Reply::Later)
    } else if line.starts_with(b"dead ".as_slice()) {
        Some(Reply::Dead)
    } else {
        None
    }
}

/// Returns the text after the first space of a line. The text is empty if the line has no space.
pub fn text_in(line: &[u8]) -> &[u8]
    ensures { result.now ≡ text_of line.now }
{
    let mut rest = line;
    while let [first, more @ ..] = rest {
        if *first == b' ' {
            return more;
        }
        rest = more;
    }
    rest
}
