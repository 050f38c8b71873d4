//! `XGROUP HELP`, `XINFO HELP`.
ghost use Rattle.std.specs.Prelude.{IfOk};
ghost use Rattle.server_commands.specs.Kinds.{IsInfo};

use super::answers::put;
use crate::answer::Answer;
use std::alloc::{AllocError, Global};

/// `XGROUP HELP`
pub(super) fn of_groups(alloc: Global) -> Result<Answer, AllocError>
    ensures { IfOk result IsInfo }
{
    reply_with_lines(
        alloc,
        &[
            "XGROUP <subcommand> [<arg> [value] [opt] ...]. Subcommands are:",
            "CREATE <key> <groupname> <id|$> [option]",
            "    Create a new consumer group. Options are:",
            "    * MKSTREAM",
            "      Create the empty stream if it does not exist.",
            "    * ENTRIESREAD entries_read",
            "      Set the group's entries_read counter (internal use).",
            "CREATECONSUMER <key> <groupname> <consumer>",
            "    Create a new consumer in the specified group.",
            "DELCONSUMER <key> <groupname> <consumer>",
            "    Remove the specified consumer.",
            "DESTROY <key> <groupname>",
            "    Remove the specified group.",
            "SETID <key> <groupname> <id|$> [ENTRIESREAD entries_read]",
            "    Set the current group ID and entries_read counter.",
            "HELP",
            "    Prints this help.",
        ],
    )
}

/// `XINFO HELP`
pub(super) fn of_info(alloc: Global) -> Result<Answer, AllocError>
    ensures { IfOk result IsInfo }
{
    reply_with_lines(
        alloc,
        &[
            "XINFO <subcommand> [<arg> [value] [opt] ...]. Subcommands are:",
            "CONSUMERS <key> <groupname>",
            "    Show consumers of <groupname>.",
            "GROUPS <key>",
            "    Show the stream consumer groups.",
            "STREAM <key> [FULL [COUNT <count>]",
            "    Show information about the stream.",
            "HELP",
            "    Prints this help.",
        ],
    )
}

/// The lines as one reply.
fn reply_with_lines(alloc: Global, texts: &[&'static str]) -> Result<Answer, AllocError>
    ensures { IfOk result IsInfo }
{
    let mut answers = Vec::new(alloc);
    for text in texts {
        let line = Vec::from_slice(alloc, text.as_bytes())?;
        put(&mut answers, Answer::Line(line))?;
    }
    Ok(Answer::Array(answers))
}
