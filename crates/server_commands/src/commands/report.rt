//! `DBSIZE`, `TIME`, `INFO`, `COMMAND`: reports on the server.
ghost use Rattle.std.specs.Prelude.{◌<◌, length as length_of, IfOk};
ghost use Rattle.server_commands.specs.Kinds.{IsArray, IsBytes};

use super::answers::put;
use super::words::is_word;
use super::{SYNTAX, make_subcommand_error};
use crate::answer::Answer;
use crate::refusal::Refusal;
use itoa::Buffer;
use std::alloc::{AllocError, Global};

/// The commands that report on the server.
#[derive(Clone, Copy, Debug)]
pub(crate) enum Report {
    KeyCount,
    Time,
    Info,
    Commands,
}

/// Whether there is such a subcommand of COMMAND.
pub(super) fn check(alloc: Global, word: &[u8], arguments: &[Vec<u8>]) -> Result<(), Refusal>
    ensures { IfOk result (λ _. 0 < length_of arguments.now) }
{
    let [subcommand, ..] = arguments else {
        return Err(SYNTAX);
    };
    if is_word(subcommand, "DOCS") {
        return Ok(());
    }
    Err(make_subcommand_error(alloc, word, subcommand))
}

/// `TIME`: whole seconds, and the microseconds beyond them.
pub(super) fn time(alloc: Global, now: u64) -> Result<Answer, AllocError>
    ensures { IfOk result IsArray }
{
    let mut parts = Vec::new(alloc);
    put(&mut parts, make_digits(alloc, now / 1000)?)?;
    put(&mut parts, make_digits(alloc, now % 1000 * 1000)?)?;
    Ok(Answer::Array(parts))
}

/// The digits of a number as bytes.
fn make_digits(alloc: Global, n: u64) -> Result<Answer, AllocError> {
    let text = Vec::from_slice(alloc, Buffer::new().format::<u64>(n).as_bytes())?;
    Ok(Answer::Bytes(text))
}

const SERVER: &str = "# Server\r\nredis_version:7.0.15\r\nredis_mode:standalone\r\n\
    arch_bits:64\r\n";

const CLIENTS: &str = "# Clients\r\nconnected_clients:1\r\nblocked_clients:0\r\n";

const PERSISTENCE: &str = "# Persistence\r\nloading:0\r\nasync_loading:0\r\n";

const REPLICATION: &str = "# Replication\r\nrole:master\r\nconnected_slaves:0\r\n";

const CLUSTER: &str = "# Cluster\r\ncluster_enabled:0\r\n";

/// `INFO [section ..]`
pub(super) fn info(alloc: Global, keys: usize, words: &[Vec<u8>]) -> Result<Answer, AllocError>
    ensures { IfOk result IsBytes }
{
    let sections = [
        ("server", SERVER),
        ("clients", CLIENTS),
        ("persistence", PERSISTENCE),
        ("replication", REPLICATION),
        ("cluster", CLUSTER),
        ("keyspace", "# Keyspace\r\n"),
    ];
    let mut text = Vec::new(alloc);
    for (name, section) in sections {
        if is_asked(words, name) {
            push_section(&mut text, section)?;
        }
    }
    if keys > 0 && is_asked(words, "keyspace") {
        push_key_count(&mut text, keys)?;
    }
    Ok(Answer::Bytes(text))
}

/// Whether a section is requested: each is, if none is named.
fn is_asked(words: &[Vec<u8>], name: &str) -> bool {
    let [_, names @ ..] = words else {
        return true;
    };
    for word in names {
        if is_word(word, name) || is_every(word) {
            return true;
        }
    }
    names.is_empty()
}

/// Whether the word selects every section.
fn is_every(word: &[u8]) -> bool {
    is_word(word, "all") || is_word(word, "default") || is_word(word, "everything")
}

/// A section, after an empty line if others are there.
fn push_section(text: &mut Vec<u8>, section: &str) -> Result<(), AllocError> {
    if !text.is_empty() {
        text.extend_from_slice(b"\r\n")?;
    }
    text.extend_from_slice(section.as_bytes())
}

/// How many keys there are.
fn push_key_count(text: &mut Vec<u8>, keys: usize) -> Result<(), AllocError> {
    text.extend_from_slice(b"db0:keys=")?;
    text.extend_from_slice(Buffer::new().format::<usize>(keys).as_bytes())?;
    text.extend_from_slice(b",expires=0,avg_ttl=0\r\n")
}
