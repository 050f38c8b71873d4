//! Sends the queued commands to the server.
ghost use Rattle.std.specs.Prelude.{◌≡◌, ◌⊎◌, ℕ, List, false, true, IfOk, IfSome, OnErr, OnOk, string_bytes};
ghost use Rattle.redis_resp.specs.Value.{tree};
ghost use Rattle.redis_wire.specs.Packed.{command_bytes};
ghost use Rattle.redis_wire.specs.Reply.{answer};
ghost use Rattle.worker_table.specs.RowTable.OfPost.{post_of};
ghost use Rattle.worker_table.specs.RowTable.Rows.{LeavesNoOther};
ghost use Rattle.worker_table.specs.Forwarded.{AsksBy, HasSent, IsAdded, LeavesSent, has_entry, is_taken, is_too_small, look_words, shows_one};

use crate::row_table::{Post, TableError, WithOutbox};
use redis_connection::{Connection, ConnectionError};
use redis_resp::Value;
use redis_wire::{Reply, ServerError, pack_command};
use std::alloc::Global;
use std::io::{Read, Write};
use thiserror::Error;

/// The error of `XADD` if the id is not above the last id of the stream.
const TOO_SMALL: &[u8] =
    b"ERR The ID specified in XADD is equal or smaller than the target stream top item";

/// Why some queued commands were not sent. Commands that got a reply before the error are removed, except after
/// `Table`: then none is removed.
#[derive(Debug, Drop, Error)]
pub enum SendError {
    /// The error of the table.
    #[error("{0}")]
    Table(TableError),
    /// The post of this key stays queued, and so does each post after it.
    #[error("{first}-{second}: {error}")]
    Post {
        first: u64,
        second: u64,
        /// The stream that the command adds to, if there was memory to read its name.
        target: Option<String>,
        error: PostError,
    },
}

/// Why a post stays queued.
#[derive(Debug, Drop, Error)]
pub enum PostError {
    /// The command was not sent, or no reply was received.
    #[error("{0}")]
    Connection(ConnectionError),
    /// The server refused the command.
    #[error("the server replied {0}")]
    Refused(ServerError),
    /// The reply does not fit the command.
    #[error("the reply is not of this command")]
    NotAnAnswer,
    /// The id is not above the last id of the target, and the target has no entry with this id.
    #[error("its id is not above the last one, and no entry has it")]
    NotThere,
}

impl From<ConnectionError> for PostError {
    ghost use Rattle.worker_table.specs.declared.sending.PostError.TheVariants.{Connection};

    ghost from_gives = { λ e error. error ≡ Connection e };

    fn from(error: ConnectionError) -> PostError {
        PostError::Connection(error)
    }
}

/// Sends the queued commands one by one, in the order of their keys. Removes each command after its reply. A
/// command whose id is not above the last id counts as executed if the target has an entry with this id.
///
/// All changes are one transaction. If the table returns an error, the transaction is rolled back, and the next
/// call sends the commands again. After any other `Err` the commands that got a reply are removed. `sent`
/// counts the replies.
pub fn send_posts<T: WithOutbox, R: Read + Drop, W: Write + Drop>(
    alloc: Global,
    table: &mut T,
    connection: &mut Connection<R, W>,
    sent: &mut u64,
) -> Result<(), SendError>
    ensures ok { OnOk result (HasSent result connection.old (T.committed table.old)
        connection.new (T.committed table.new)) }
    ensures err { OnErr result ((T.committed table.new ≡ T.committed table.old)
        ⊎ HasSent result connection.old (T.committed table.old) connection.new (T.committed table.new)) }
    ensures crash { LeavesSent connection.old (T.committed table.old) (T.may_leave table.old) (T.may_leave table.new) }
{
    match send_and_commit(alloc, table, connection, sent) {
        Ok(ended) => ended,
        Err(error) => {
            table.roll_back();
            Err(SendError::Table(error))
        }
    }
}

/// Sends the queued commands, and commits. Returns how the sending ended. An `Err` leaves the transaction open.
fn send_and_commit<T: WithOutbox, R: Read + Drop, W: Write + Drop>(
    alloc: Global,
    table: &mut T,
    connection: &mut Connection<R, W>,
    sent: &mut u64,
) -> Result<Result<(), SendError>, TableError>
    ensures ok { IfOk result (λ ended. HasSent ended connection.old (T.committed table.old)
        connection.new (T.committed table.new)) }
    ensures err { OnErr result (T.committed table.new ≡ T.committed table.old) }
    ensures crash { LeavesSent connection.old (T.committed table.old) (T.may_leave table.old) (T.may_leave table.new) }
{
    table.begin()?;
    let ended = send_each(alloc, table, connection, sent)?;
    table.commit()?;
    Ok(ended)
}

/// Sends posts until none is left or one fails. Returns how the sending ended.
fn send_each<T: WithOutbox, R: Read + Drop, W: Write + Drop>(
    alloc: Global,
    table: &mut T,
    connection: &mut Connection<R, W>,
    sent: &mut u64,
) -> Result<Result<(), SendError>, TableError>
    ensures sent { IfOk result (λ ended. HasSent ended connection.old (T.seen table.old)
        connection.new (T.seen table.new)) }
    ensures committed { T.committed table.new ≡ T.committed table.old }
    ensures crash { LeavesNoOther (T.may_leave table.old) (T.may_leave table.new) }
{
    for _ in 0..u64::MAX {
        let Some(post) = table.first(alloc)? else {
            return Ok(Ok(()));
        };
        if let Err(error) = send_post(alloc, connection, &post) {
            return Ok(Err(SendError::Post {
                first: post.first,
                second: post.second,
                target: target_of(alloc, &post),
                error,
            }));
        }
        table.remove(alloc, &post)?;
        *sent = sent.saturating_add(1);
    }
    Err(TableError::Refused("too many posts"))
}

/// Returns the stream that the command of a post adds to, read from the query of the post. Returns `None`
/// unless the query is `XRANGE target id id` with the id of the post, or if memory runs out.
pub fn target_of(alloc: Global, post: &Post) -> Option<String>
    ensures { IfSome result (λ target. (id : List ℕ) × ((post_of post.now).question
        ≡ command_bytes (look_words (string_bytes target) id))) }
{
    let text = str::from_utf8(&post.question).ok()?;
    let (length, rest) = text
        .strip_prefix("*4\r\n$6\r\nXRANGE\r\n$")?
        .split_once("\r\n")?;
    let target = rest.get(..length.parse::<usize>().ok()?)?;
    let id = format!(in alloc; "{}-{}", post.first, post.second).ok()?;
    let question = pack_command(alloc, &("XRANGE", target, id.as_str(), id.as_str())).ok()?;
    if question.as_slice() != post.question.as_slice() {
        return None;
    }
    String::from_str(alloc, target).ok()
}

/// Sends a post. Returns `Ok` if the server executed the command, or if the target has an entry with its id.
fn send_post<R: Read + Drop, W: Write + Drop>(
    alloc: Global,
    connection: &mut Connection<R, W>,
    post: &Post,
) -> Result<(), PostError>
    ensures { OnOk result (IsAdded (post_of post.now) connection.old connection.new) }
{
    let reply = ask(alloc, connection, &post.command)?;
    if is_too_small(reply)? {
        return find_entry(alloc, connection, post);
    }
    Ok(())
}

/// Returns true if the reply is the error that the id is not above the last one. Returns false if the command
/// was executed.
fn is_too_small(reply: Reply) -> Result<bool, PostError>
    ensures small { IfOk result (λ small. small ≡ true → is_too_small (answer reply) ≡ true) }
    ensures taken { IfOk result (λ small. small ≡ false → is_taken (answer reply) ≡ true) }
{
    match reply {
        Reply::Value(_) => Ok(false),
        Reply::Error(error) => {
            if error.text.as_slice() == TOO_SMALL {
                return Ok(true);
            }
            Err(PostError::Refused(error))
        }
        _ => Err(PostError::NotAnAnswer),
    }
}

/// Checks with `XRANGE` that the stream has an entry with the id of `post`.
fn find_entry<R: Read + Drop, W: Write + Drop>(
    alloc: Global,
    connection: &mut Connection<R, W>,
    post: &Post,
) -> Result<(), PostError>
    ensures { OnOk result ((a : _) × AsksBy (post_of post.now).question a connection.old connection.new
        × (shows_one a ≡ true)) }
{
    let reply = ask(alloc, connection, &post.question)?;
    if shows_one(reply)? {
        return Ok(());
    }
    Err(PostError::NotThere)
}

/// Whether the reply contains an entry.
fn shows_one(reply: Reply) -> Result<bool, PostError>
    ensures { IfOk result (λ shown. shown ≡ true → shows_one (answer reply) ≡ true) }
{
    match reply {
        Reply::Value(value) => has_entry(value),
        Reply::Error(error) => Err(PostError::Refused(error)),
        _ => Err(PostError::NotAnAnswer),
    }
}

/// Whether the value is an array that contains an entry.
fn has_entry(value: Value) -> Result<bool, PostError>
    ensures { IfOk result (λ has. has ≡ true → has_entry (tree value) ≡ true) }
{
    match value {
        Value::Array(entries) => Ok(!entries.is_empty()),
        _ => Err(PostError::NotAnAnswer),
    }
}

/// Sends bytes, and receives a reply.
fn ask<R: Read + Drop, W: Write + Drop>(
    alloc: Global,
    connection: &mut Connection<R, W>,
    bytes: &[u8],
) -> Result<Reply, ConnectionError>
    ensures { IfOk result (λ reply. AsksBy bytes.now (answer reply) connection.old connection.new) }
{
    connection.send_bytes(bytes)?;
    connection.receive(alloc)
}
