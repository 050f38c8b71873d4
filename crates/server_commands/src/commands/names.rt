//! The commands by their names, and how many arguments each may have.

ghost use Rattle.std.specs.Prelude.{◌≡◌, ◌≢◌, ◌<◌, length as length_of, nat_le, Ok, Some, IfOk, IfSome, IsOk};
ghost use Rattle.server_commands.specs.Commands.{IsNamed, event_of, least_of};
ghost use Rattle.server_commands.specs.declared.commands.Change.{Change as Changing};
ghost use Rattle.server_commands.specs.declared.commands.Change.TheVariants.{Group};
ghost use Rattle.server_commands.specs.declared.commands.Command.TheVariants.{Plain as plain};
ghost use Rattle.server_commands.specs.declared.commands.Plain.TheVariants.{Change as change_plain};

use super::connection::Connection;
use super::report::Report;
use super::words::is_word;
use super::{
    Change, Command, LookUp, Plain, SYNTAX, Step, config, connection, group, info,
    make_count_error, make_unknown_error, report,
};
use crate::refusal::Refusal;
use std::alloc::Global;

/// The command of these words, if it exists and may have this many arguments.
pub(crate) fn command_in(alloc: Global, words: &[Vec<u8>]) -> Result<Command, Refusal>
    ensures some { IfOk result (λ _. 0 < length_of words.now) }
    ensures named { (change : Changing) → IsNamed change words.now → least_of change < length_of words.now
        → result ≡ Ok (plain (change_plain change)) }
{
    let [word, arguments @ ..] = words else {
        return Err(SYNTAX);
    };
    let Some(command) = find_command(word) else {
        return Err(make_unknown_error(alloc, word, arguments));
    };
    if !has_right_count(command, arguments.len()) {
        return Err(make_count_error(alloc, word));
    }
    check_subcommand(alloc, command, word, arguments)?;
    Ok(command)
}

/// The command of this name.
fn find_command(word: &[u8]) -> Option<Command>
    ensures { IfSome (event_of word.now) (λ change. result ≡ Some (plain (change_plain change))) }
{
    if let Some(change) = find_change(word) {
        return Some(Command::Plain(Plain::Change(change)));
    }
    if let Some(look_up) = find_look_up(word) {
        return Some(Command::Plain(Plain::LookUp(look_up)));
    }
    if let Some(report) = find_report(word) {
        return Some(Command::Plain(Plain::Report(report)));
    }
    if let Some(asked) = find_connection(word) {
        return Some(Command::Plain(Plain::Connection(asked)));
    }
    if is_word(word, "CONFIG") {
        return Some(Command::Plain(Plain::Configure));
    }
    Some(Command::Transaction(find_step(word)?))
}

/// The command of this name that changes streams.
fn find_change(word: &[u8]) -> Option<Change>
    ensures { IfSome (event_of word.now) (λ change. result ≡ Some change) }
{
    if let Some(change) = find_event(word) {
        return Some(change);
    }
    let names = [
        ("XTRIM", Change::Trim),
        ("XGROUP", Change::Group),
        ("XCLAIM", Change::Claim),
        ("XSETID", Change::SetId),
        ("DEL", Change::Delete),
        ("FLUSHALL", Change::DeleteAll),
        ("FLUSHDB", Change::DeleteAll),
    ];
    for (text, change) in names {
        if is_word(word, text) {
            return Some(change);
        }
    }
    None
}

/// The command of this name that is an event of the model of a group.
fn find_event(word: &[u8]) -> Option<Change>
    ensures { result ≡ event_of word.now }
{
    if is_word(word, "XADD") {
        Some(Change::Add)
    } else if is_word(word, "XREADGROUP") {
        Some(Change::ReadGroup)
    } else if is_word(word, "XACK") {
        Some(Change::Acknowledge)
    } else if is_word(word, "XAUTOCLAIM") {
        Some(Change::AutoClaim)
    } else if is_word(word, "XDEL") {
        Some(Change::DeleteEntries)
    } else {
        None
    }
}

/// The command of this name that reads streams.
fn find_look_up(word: &[u8]) -> Option<LookUp> {
    let names = [
        ("XREAD", LookUp::Read),
        ("XPENDING", LookUp::Pending),
        ("XRANGE", LookUp::Range),
        ("XREVRANGE", LookUp::ReverseRange),
        ("XLEN", LookUp::Len),
        ("XINFO", LookUp::Info),
        ("EXISTS", LookUp::Exists),
        ("TYPE", LookUp::Type),
    ];
    for (text, look_up) in names {
        if is_word(word, text) {
            return Some(look_up);
        }
    }
    None
}

/// The command of this name that reports on the server.
fn find_report(word: &[u8]) -> Option<Report> {
    let names = [
        ("DBSIZE", Report::KeyCount),
        ("TIME", Report::Time),
        ("INFO", Report::Info),
        ("COMMAND", Report::Commands),
    ];
    for (text, report) in names {
        if is_word(word, text) {
            return Some(report);
        }
    }
    None
}

/// The command of the connection of this name.
fn find_connection(word: &[u8]) -> Option<Connection> {
    let names = [
        ("PING", Connection::Ping),
        ("HELLO", Connection::Hello),
        ("UNWATCH", Connection::Unwatch),
        ("SELECT", Connection::Select),
        ("CLIENT", Connection::Client),
    ];
    for (text, asked) in names {
        if is_word(word, text) {
            return Some(asked);
        }
    }
    None
}

/// The command of a transaction of this name.
fn find_step(word: &[u8]) -> Option<Step> {
    let names = [
        ("MULTI", Step::Begin),
        ("EXEC", Step::Execute),
        ("DISCARD", Step::Discard),
        ("WATCH", Step::Watch),
    ];
    for (text, step) in names {
        if is_word(word, text) {
            return Some(step);
        }
    }
    None
}

/// Whether the command may have this many arguments.
fn has_right_count(command: Command, count: usize) -> bool
    ensures { (change : Changing) → command ≡ plain (change_plain change) → result ≡ nat_le (least_of change) count }
{
    match command {
        Command::Plain(Plain::Change(change)) => may_follow_change(change, count),
        Command::Plain(Plain::LookUp(look_up)) => may_follow_look_up(look_up, count),
        Command::Plain(Plain::Report(report)) => may_follow_report(report, count),
        Command::Plain(Plain::Connection(asked)) => may_follow_connection(asked, count),
        Command::Plain(Plain::Configure) => count >= 1,
        Command::Transaction(step) => may_follow_step(step, count),
    }
}

/// Whether it may have this many arguments.
fn may_follow_change(change: Change, count: usize) -> bool
    ensures { result ≡ nat_le (least_of change) count }
{
    match change {
        Change::DeleteAll => true,
        Change::Delete | Change::Group => count >= 1,
        Change::DeleteEntries | Change::SetId => count >= 2,
        Change::Acknowledge | Change::Trim => count >= 3,
        Change::Add => count >= 4,
        Change::Claim | Change::AutoClaim => count >= 5,
        Change::ReadGroup => count >= 6,
    }
}

/// Whether it may have this many arguments.
fn may_follow_look_up(look_up: LookUp, count: usize) -> bool {
    match look_up {
        LookUp::Info | LookUp::Exists => count >= 1,
        LookUp::Len | LookUp::Type => count == 1,
        LookUp::Pending => count >= 2,
        LookUp::Range | LookUp::ReverseRange | LookUp::Read => count >= 3,
    }
}

/// Whether it may have this many arguments.
fn may_follow_report(report: Report, count: usize) -> bool {
    match report {
        Report::KeyCount | Report::Time => count == 0,
        Report::Info => true,
        Report::Commands => count >= 1,
    }
}

/// Whether it may have this many arguments.
fn may_follow_connection(asked: Connection, count: usize) -> bool {
    match asked {
        Connection::Ping | Connection::Hello => true,
        Connection::Unwatch => count == 0,
        Connection::Select => count == 1,
        Connection::Client => count >= 1,
    }
}

/// Whether it may have this many arguments; EXEC has its own error for too many.
fn may_follow_step(step: Step, count: usize) -> bool {
    match step {
        Step::Begin | Step::Discard => count == 0,
        Step::Execute => true,
        Step::Watch => count >= 1,
    }
}

/// Whether there is such a subcommand, and it may have this many arguments.
fn check_subcommand(
    alloc: Global,
    command: Command,
    word: &[u8],
    arguments: &[Vec<u8>],
) -> Result<(), Refusal>
    ensures { (change : Changing) → command ≡ plain (change_plain change) → change ≢ Group → IsOk result }
{
    match command {
        Command::Plain(Plain::Change(Change::Group)) => group::check(alloc, word, arguments),
        Command::Plain(Plain::LookUp(LookUp::Info)) => info::check(alloc, word, arguments),
        Command::Plain(Plain::Report(Report::Commands)) => report::check(alloc, word, arguments),
        Command::Plain(Plain::Connection(Connection::Client)) => {
            connection::check(alloc, word, arguments)
        }
        Command::Plain(Plain::Configure) => config::check(alloc, word, arguments),
        _ => Ok(()),
    }
}
