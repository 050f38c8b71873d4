//! `HELLO`.
ghost use Rattle.std.specs.Prelude.{◌≡◌, OnErr};

use super::answers::bytes_answer;
use super::words::{is_word, shown};
use super::{check_name, make_refusal, parse_integer, put_row};
use crate::answer::Answer;
use crate::refusal::Refusal;
use crate::session::Session;
use redis_wire::Protocol;
use std::alloc::{AllocError, Global};

const WRONG_PASSWORD: Refusal = Refusal::Fixed(
    "WRONGPASS invalid username-password pair or user is disabled.",
);

/// The options of HELLO.
#[derive(Clone, Copy)]
struct Options<'a> {
    user: Option<&'a [u8]>,
    name: Option<&'a [u8]>,
}

/// `HELLO [protover [AUTH username password] [SETNAME clientname]]`
pub(super) fn hello(
    alloc: Global,
    session: &mut Session,
    arguments: &[Vec<u8>],
) -> Result<Answer, Refusal>
    ensures { OnErr result (session.new ≡ session.old) }
{
    let [version, words @ ..] = arguments else {
        return Ok(make_greeting(alloc, session.protocol)?);
    };
    let protocol = parse_protocol(version)?;
    let options = parse_options(alloc, words)?;
    check_user(options.user)?;
    let answer = make_greeting(alloc, protocol)?;
    if let Some(name) = options.name {
        session.name = Vec::from_slice(alloc, name)?;
    }
    session.protocol = protocol;
    Ok(answer)
}

/// The protocol of this version.
fn parse_protocol(version: &[u8]) -> Result<Protocol, Refusal> {
    match parse_integer(version) {
        Some(2) => Ok(Protocol::Resp2),
        Some(3) => Ok(Protocol::Resp3),
        Some(_) => Err(Refusal::Fixed("NOPROTO unsupported protocol version")),
        None => Err(Refusal::Fixed("ERR Protocol version is not an integer or out of range")),
    }
}

/// The options, in any order.
fn parse_options(alloc: Global, words: &[Vec<u8>]) -> Result<Options<'_>, Refusal> {
    let mut options = Options {
        user: None,
        name: None,
    };
    let mut rest = words;
    for _ in 0..words.len() {
        match rest {
            [] => break,
            _ => rest = parse_option(alloc, &mut options, rest)?,
        }
    }
    Ok(options)
}

/// Parses one option, and returns the words after it.
fn parse_option<'a>(
    alloc: Global,
    options: &mut Options<'a>,
    words: &'a [Vec<u8>],
) -> Result<&'a [Vec<u8>], Refusal> {
    match words {
        [word, user, _password, behind @ ..] if is_word(word, "AUTH") => {
            options.user = Some(user.as_slice());
            Ok(behind)
        }
        [word, name, behind @ ..] if is_word(word, "SETNAME") => {
            check_name(name)?;
            options.name = Some(name.as_slice());
            Ok(behind)
        }
        [word, ..] => Err(make_option_error(alloc, word)),
        [] => Ok(words),
    }
}

/// The error for an option that HELLO does not have.
fn make_option_error(alloc: Global, word: &[u8]) -> Refusal {
    make_refusal(
        alloc,
        &[
            b"ERR Syntax error in HELLO option '",
            shown(word, usize::MAX),
            b"'",
        ],
    )
}

/// Whether there is such a user: `default`, with any password.
fn check_user(user: Option<&[u8]>) -> Result<(), Refusal> {
    match user {
        Some(name) if name != b"default".as_slice() => Err(WRONG_PASSWORD),
        _ => Ok(()),
    }
}

/// The reply of HELLO.
fn make_greeting(alloc: Global, protocol: Protocol) -> Result<Answer, AllocError> {
    let version = match protocol {
        Protocol::Resp2 => 2,
        Protocol::Resp3 => 3,
    };
    let mut rows = Vec::new(alloc);
    put_texts(
        alloc,
        &mut rows,
        [("server", "redis"), ("version", "7.0.15")],
    )?;
    put_row(alloc, &mut rows, "proto", Answer::Int(version))?;
    put_row(alloc, &mut rows, "id", Answer::Int(1))?;
    put_texts(
        alloc,
        &mut rows,
        [("mode", "standalone"), ("role", "master")],
    )?;
    put_row(alloc, &mut rows, "modules", Answer::Array(Vec::new(alloc)))?;
    Ok(Answer::Map(rows))
}

/// Appends names with their texts.
fn put_texts(
    alloc: Global,
    rows: &mut Vec<(Vec<u8>, Answer)>,
    more: [(&str, &str); 2],
) -> Result<(), AllocError> {
    for (name, text) in more {
        let text = bytes_answer(alloc, text.as_bytes())?;
        put_row(alloc, rows, name, text)?;
    }
    Ok(())
}
