//! `PING`, `SELECT`, `CLIENT`, and the other commands of the connection.
ghost use Rattle.std.specs.Prelude.{◌≡◌, ◌<◌, length, IfOk, OnErr};

use super::answers::bytes_answer;
use super::words::is_word;
use super::{
    NOT_AN_INTEGER, SYNTAX, check_name, hello, make_count_error, make_subcommand_error,
    make_subcount_error, parse_integer,
};
use crate::answer::{Answer, Status};
use crate::refusal::Refusal;
use crate::session::Session;
use std::alloc::Global;

/// The commands of the connection.
#[derive(Clone, Copy, Debug)]
pub(crate) enum Connection {
    Ping,
    Hello,
    Unwatch,
    Select,
    Client,
}

/// The subcommands of CLIENT.
#[derive(Clone, Copy)]
enum Action {
    SetName,
    GetName,
    Id,
}

const NO_SUCH_INDEX: Refusal = Refusal::Fixed("ERR DB index is out of range");

const WIDE_INDEX: Refusal = Refusal::Fixed(
    "ERR value is out of range, value must between -2147483648 and 2147483647",
);

/// Executes a command of the connection.
pub(super) fn answered(
    alloc: Global,
    session: &mut Session,
    asked: Connection,
    words: &[Vec<u8>],
) -> Result<Answer, Refusal>
    ensures { OnErr result (session.new ≡ session.old) }
{
    let [word, arguments @ ..] = words else {
        return Err(SYNTAX);
    };
    match asked {
        Connection::Ping => ping(alloc, word, arguments),
        Connection::Hello => hello::hello(alloc, session, arguments),
        Connection::Unwatch => {
            session.unwatch();
            Ok(Answer::Okay)
        }
        Connection::Select => select(arguments),
        Connection::Client => run_client(alloc, session, word, arguments),
    }
}

/// `PING [text]`
fn ping(alloc: Global, word: &[u8], arguments: &[Vec<u8>]) -> Result<Answer, Refusal> {
    match arguments {
        [] => Ok(Answer::Status(Status::Pong)),
        [text] => Ok(Answer::Bytes(text.clone()?)),
        _ => Err(make_count_error(alloc, word)),
    }
}

/// `SELECT index`, for index 0 only.
fn select(arguments: &[Vec<u8>]) -> Result<Answer, Refusal> {
    let [index, ..] = arguments else {
        return Err(SYNTAX);
    };
    match parse_integer(index) {
        Some(0) => Ok(Answer::Okay),
        Some(n) if i32::try_from(n).is_err() => Err(WIDE_INDEX),
        Some(_) => Err(NO_SUCH_INDEX),
        None => Err(NOT_AN_INTEGER),
    }
}

/// `CLIENT SETNAME name`, `CLIENT GETNAME`, `CLIENT ID`
fn run_client(
    alloc: Global,
    session: &mut Session,
    word: &[u8],
    arguments: &[Vec<u8>],
) -> Result<Answer, Refusal>
    ensures { OnErr result (session.new ≡ session.old) }
{
    match parse_action(alloc, word, arguments)? {
        Action::SetName => set_name(alloc, session, arguments),
        Action::GetName => reply_with_name(alloc, &session.name),
        Action::Id => Ok(Answer::Int(1)),
    }
}

/// Whether there is such an action of CLIENT, and it may have this many arguments.
pub(super) fn check(alloc: Global, word: &[u8], arguments: &[Vec<u8>]) -> Result<(), Refusal>
    ensures { IfOk result (λ _. 0 < length arguments.now) }
{
    let _action = parse_action(alloc, word, arguments)?;
    Ok(())
}

/// The action of this name, if it may have this many arguments.
fn parse_action(alloc: Global, word: &[u8], arguments: &[Vec<u8>]) -> Result<Action, Refusal>
    ensures { IfOk result (λ _. 0 < length arguments.now) }
{
    let [subcommand, behind @ ..] = arguments else {
        return Err(SYNTAX);
    };
    match find_action(subcommand) {
        Some(action) if has_right_count(action, behind.len()) => Ok(action),
        Some(_) => Err(make_subcount_error(alloc, word, subcommand)),
        None => Err(make_subcommand_error(alloc, word, subcommand)),
    }
}

/// The action of this name.
fn find_action(subcommand: &[u8]) -> Option<Action> {
    if is_word(subcommand, "SETNAME") {
        Some(Action::SetName)
    } else if is_word(subcommand, "GETNAME") {
        Some(Action::GetName)
    } else if is_word(subcommand, "ID") {
        Some(Action::Id)
    } else {
        None
    }
}

/// Whether the action may have this many arguments.
fn has_right_count(action: Action, count: usize) -> bool {
    match action {
        Action::SetName => count == 1,
        Action::GetName | Action::Id => count == 0,
    }
}

/// `SETNAME`; an empty name removes the name.
fn set_name(alloc: Global, session: &mut Session, arguments: &[Vec<u8>]) -> Result<Answer, Refusal>
    ensures { OnErr result (session.new ≡ session.old) }
{
    let [_, name, ..] = arguments else {
        return Err(SYNTAX);
    };
    check_name(name)?;
    session.name = Vec::from_slice(alloc, name)?;
    Ok(Answer::Okay)
}

/// `GETNAME` of a connection with this name.
fn reply_with_name(alloc: Global, name: &[u8]) -> Result<Answer, Refusal> {
    if name.is_empty() {
        return Ok(Answer::Nil);
    }
    Ok(bytes_answer(alloc, name)?)
}
