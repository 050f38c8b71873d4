//! A worker with an outbox, over a server in memory of its own. A line is one of these:
//!
//! | Line | What happens |
//! |---|---|
//! | `rounds 5` | 5 rounds, up to the first that fails |
//! | `send` | the commands in the outbox are sent |
//! | `commit` | the handler commits |
//! | `killed` | the worker and its outbox are dropped, and another worker starts |
//! | `starts 3` | another worker starts, which gives entries up after 3 deliveries, see `poison` |
//! | any other | a command to the server |
//!
//! Each line has a connection of its own. With `writes 170` at its end the connection breaks after 170 bytes
//! were written, and with `reads 136` after 136 bytes were read.
//!
//! The work adds the id of each entry to the stream `out`, and counts its commits. An entry with a field
//! `leave` is left pending.

ghost use Rattle.std.specs.Prelude.{◌≡◌, IfOk};
ghost use Rattle.test_sessions.specs.Scripts.{is_outbox_script};

mod poison;
mod work;

use crate::outbox::work::IdPoster;
use crate::workers::ScriptHandler;
use crate::{escape_bytes, make_group_settings, parse_number, push_exchange, split_at_mark};
use redis_connection::{Connection, ConnectionError};
use redis_wire::Limits;
use server_commands::{Loopback, Server};
use std::alloc::{AllocError, Global};
use std::io::{ErrorKind, Read, Write};
use worker::outbox::{OutboxError, PostError, Posting};
use worker::{Handler, NotCommitted, RequestError, RunError, Worker};

/// A worker with an outbox, its handler, and the handler of the workers that give entries up.
#[derive(Drop)]
struct Side {
    worker: Worker,
    posting: Posting<IdPoster>,
    handler: ScriptHandler,
}

/// Returns a new worker, with an empty outbox and new handlers.
fn make_side(alloc: Global) -> Result<Side, AllocError> {
    let settings = make_group_settings(alloc, "k", "ann")?;
    Ok(Side {
        worker: Worker::new(alloc, settings),
        posting: Posting::new(alloc, IdPoster::new()),
        handler: ScriptHandler::new(alloc),
    })
}

/// Plays the script if this module has one of this name. Returns whether it has.
pub fn play(alloc: Global, name: &str, lines: &str, out: &mut String) -> Result<bool, AllocError>
    ensures { IfOk result (λ played. played ≡ is_outbox_script name.now) }
{
    match name {
        "outbox" | "poison" => played!(play_alone(alloc, lines, out)),
        _ => Ok(false),
    }
}

/// Plays the lines over a server of their own.
fn play_alone(alloc: Global, lines: &str, out: &mut String) -> Result<(), AllocError> {
    let Ok(loopback) = Loopback::new(alloc, Server::new(alloc)) else {
        return Err(AllocError);
    };
    let mut side = make_side(alloc)?;
    play_lines(alloc, &loopback, &mut side, lines, out)
}

/// Plays the lines, and prints the outcome of each.
fn play_lines(
    alloc: Global,
    loopback: &Loopback,
    side: &mut Side,
    lines: &str,
    out: &mut String,
) -> Result<(), AllocError> {
    for line in lines.lines() {
        let text = do_line(alloc, loopback, side, line)?;
        push_exchange(out, line, text.as_str())?;
    }
    Ok(())
}

/// Executes a line over a new connection, and returns its outcome.
fn do_line(
    alloc: Global,
    loopback: &Loopback,
    side: &mut Side,
    line: &str,
) -> Result<String, AllocError> {
    let Ok((mut reader, mut writer)) = loopback.connect() else {
        return Err(AllocError);
    };
    if let Some((_rounds, bytes)) = line.split_once(" reads ") {
        reader.break_after(parse_number(bytes));
    }
    if let Some((_rounds, bytes)) = line.split_once(" writes ") {
        writer.break_after(parse_number(bytes));
    }
    do_line_between(alloc, reader, writer, side, line)
}

/// Executes a line over a connection of this reader and writer.
fn do_line_between<R: Read + Drop, W: Write + Drop>(
    alloc: Global,
    reader: R,
    writer: W,
    side: &mut Side,
    line: &str,
) -> Result<String, AllocError> {
    let mut connection = Connection::new(alloc, reader, writer, Limits::default())?;
    do_line_over(alloc, &mut connection, side, line)
}

/// Executes a line over a connection.
fn do_line_over<R: Read + Drop, W: Write + Drop>(
    alloc: Global,
    connection: &mut Connection<R, W>,
    side: &mut Side,
    line: &str,
) -> Result<String, AllocError> {
    let (verb, words) = split_at_mark(line, ' ');
    match verb {
        "rounds" => make_rounds(
            alloc,
            connection,
            side,
            parse_number(split_at_mark(words, ' ').0),
        ),
        "send" => send_outbox(alloc, connection, side),
        "commit" => commit_work(alloc, side),
        "starts" => poison::start_worker(alloc, connection, &mut side.handler, parse_number(words)),
        "killed" => {
            *side = make_side(alloc)?;
            String::from_str(alloc, "another begins")
        }
        _ => ask_server(alloc, connection, line),
    }
}

/// Makes this number of rounds, up to the first that fails. Returns the counts of rounds and commits as text.
fn make_rounds<R: Read + Drop, W: Write + Drop>(
    alloc: Global,
    connection: &mut Connection<R, W>,
    side: &mut Side,
    rounds: usize,
) -> Result<String, AllocError> {
    for made in 0..rounds {
        if let Some(cause) = make_round(alloc, connection, side)? {
            let commits = side.posting.work.commits;
            return format!(in alloc; "{made} rounds, {commits} commits; {cause}");
        }
    }
    let commits = side.posting.work.commits;
    format!(in alloc; "{rounds} rounds, {commits} commits")
}

/// Makes a round. Returns the reason if it failed, and `None` if it did not.
fn make_round<R: Read + Drop, W: Write + Drop>(
    alloc: Global,
    connection: &mut Connection<R, W>,
    side: &mut Side,
) -> Result<Option<String>, AllocError> {
    let result = side.posting.round(alloc, connection, &mut side.worker);
    if side.posting.work.ran_out {
        return Err(AllocError);
    }
    match result {
        Ok(_round) => Ok(None),
        Err(PostError::Outbox(error)) => Ok(Some(explain_outbox_error(alloc, &error)?)),
        Err(PostError::Round(error)) => Ok(Some(explain_round_error(alloc, &error)?)),
    }
}

/// Sends the commands in the outbox.
fn send_outbox<R: Read + Drop, W: Write + Drop>(
    alloc: Global,
    connection: &mut Connection<R, W>,
    side: &mut Side,
) -> Result<String, AllocError> {
    match side.posting.send(alloc, connection) {
        Ok(()) => String::from_str(alloc, "all is sent"),
        Err(error) => explain_outbox_error(alloc, &error),
    }
}

/// Has the handler commit.
fn commit_work(alloc: Global, side: &mut Side) -> Result<String, AllocError> {
    match side.posting.commit(alloc) {
        Ok(()) => String::from_str(alloc, "committed"),
        Err(NotCommitted) => String::from_str(alloc, "not committed"),
    }
}

/// Sends a command, and returns the bytes of the reply.
fn ask_server<R: Read + Drop, W: Write + Drop>(
    alloc: Global,
    connection: &mut Connection<R, W>,
    line: &str,
) -> Result<String, AllocError> {
    let command = format!(in alloc; "{line}\r\n")?;
    if connection.send_bytes(command.as_str().as_bytes()).is_err() {
        return Err(AllocError);
    }
    match connection.receive_in_place(alloc) {
        Ok(len) => escape_bytes(alloc, connection.received(len)),
        Err(_) => Err(AllocError),
    }
}

/// Returns why a round failed before it posted anything. An error that no script causes counts as memory that ran
/// out.
fn explain_round_error(alloc: Global, error: &RunError) -> Result<String, AllocError> {
    match error {
        RunError::Request(RequestError::NotCommitted) => format!(in alloc; "{error}"),
        RunError::Send(cause) if is_broken(cause) => format!(in alloc; "{error}"),
        RunError::Receive {
            asked: _,
            error: cause,
        } if is_broken(cause) => format!(in alloc; "{error}"),
        _ => Err(AllocError),
    }
}

/// Returns why not all commands were posted. An error that no script causes counts as memory that ran out.
fn explain_outbox_error(alloc: Global, error: &OutboxError) -> Result<String, AllocError> {
    match error {
        OutboxError::Connection(cause) if is_broken(cause) => format!(in alloc; "left: {error}"),
        OutboxError::Refused(_) => format!(in alloc; "left: {error}"),
        _ => Err(AllocError),
    }
}

/// Returns whether a connection broke at the byte that the line names.
fn is_broken(error: &ConnectionError) -> bool {
    match error {
        ConnectionError::Write(cause) => cause.kind() == ErrorKind::BrokenPipe,
        ConnectionError::Read(cause) => cause.kind() == ErrorKind::ConnectionReset,
        _ => false,
    }
}
