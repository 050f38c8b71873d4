//! The replies of the server.
ghost use Rattle.std.specs.Prelude.{◌≡◌};
ghost use Rattle.server_commands.specs.Sent.{status_text};

use server_store::EntryId;

/// The outcome of a command.
#[derive(Debug, Drop)]
pub enum Reply {
    /// The command was done.
    Done(Answer),
    /// It was refused and nothing was changed: a code, a space and a message.
    Refused(Vec<u8>),
    /// The outcomes of EXEC: for each command its reply, or why it was refused.
    Executed(Vec<Result<Answer, Vec<u8>>>),
}

/// The reply to a command that was done.
#[derive(Debug, Drop)]
pub enum Answer {
    /// The status `OK`.
    Okay,
    /// Another status.
    Status(Status),
    /// A short text: a status, or bytes if it has a CR or LF.
    Line(Vec<u8>),
    Int(i64),
    Bytes(Vec<u8>),
    /// The text of an id.
    Id(EntryId),
    /// A null.
    Nil,
    /// A null array, which RESP2 writes differently.
    NilArray,
    Array(Vec<Answer>),
    /// Each name with its reply: in RESP2 an array of pairs, in RESP3 a map.
    Rows(Vec<(Vec<u8>, Answer)>),
    /// Each name with its reply: in RESP2 names and replies in turn, in RESP3 a map.
    Map(Vec<(Vec<u8>, Answer)>),
}

/// A status other than `OK`.
#[derive(Clone, Copy, Debug, PartialEq, Eq)]
pub enum Status {
    /// `PONG`
    Pong,
    /// `QUEUED`: EXEC will execute the command.
    Queued,
    /// `stream`: a key that is there.
    Stream,
    /// `none`: a key that is not.
    Missing,
}

impl Status {
    /// The text of the status.
    pub fn text(self) -> &'static [u8]
        ensures { result.now ≡ status_text self }
    {
        match self {
            Status::Pong => b"PONG",
            Status::Queued => b"QUEUED",
            Status::Stream => b"stream",
            Status::Missing => b"none",
        }
    }
}
