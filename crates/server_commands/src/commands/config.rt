//! `CONFIG SET stream-node-max-entries`.
ghost use Rattle.std.specs.Prelude.{◌≡◌, ◌≤◌, ℕ, Ok, Some, codes, length, pos, IfOk, IsOk, OnOk, OnErr};
ghost use Rattle.server_commands.specs.Commands.{lower_case};
ghost use Rattle.server_commands.specs.Incoming.{strict_number};
ghost use Rattle.server_commands.specs.Nodes.{IsConfigured};
ghost use Rattle.server_commands.specs.declared.answer.Answer.TheVariants.{Okay};

use super::words::{is_word, shown};
use super::{SYNTAX, make_refusal, make_subcommand_error, make_subcount_error};
use crate::answer::Answer;
use crate::incoming::number_of;
use crate::refusal::Refusal;
use std::alloc::Global;

/// The name of the setting.
const SIZE: &str = "stream-node-max-entries";

/// Whether it is CONFIG SET with a name and a value at least.
pub(super) fn check(alloc: Global, word: &[u8], arguments: &[Vec<u8>]) -> Result<(), Refusal>
    ensures { IfOk result (λ _. 3 ≤ length arguments.now) }
{
    let [subcommand, pairs @ ..] = arguments else {
        return Err(SYNTAX);
    };
    if !is_word(subcommand, "SET") {
        return Err(make_subcommand_error(alloc, word, subcommand));
    }
    if pairs.len() < 2 {
        return Err(make_subcount_error(alloc, word, subcommand));
    }
    Ok(())
}

/// `CONFIG SET stream-node-max-entries number`
pub(super) fn set(
    alloc: Global,
    node_entries: &mut u64,
    words: &[Vec<u8>],
) -> Result<Answer, Refusal>
    ensures ok { OnOk result (IsConfigured words.now node_entries.new) }
    ensures done { (n : ℕ) → length words.now ≡ 4 → IsConfigured words.now n → result ≡ Ok Okay }
    ensures err { OnErr result (node_entries.new ≡ node_entries.old) }
{
    let [_, _, name, value, others @ ..] = words else {
        return Err(SYNTAX);
    };
    if others.len() % 2 == 1 {
        return Err(SYNTAX);
    }
    check_name(alloc, name)?;
    if let [other, ..] = others {
        check_name(alloc, other)?;
        return Err(make_value_error(alloc, other, b"duplicate parameter"));
    }
    *node_entries = parse_size(alloc, value)?;
    Ok(Answer::Okay)
}

/// Whether the setting of this name is the one that is known.
fn check_name(alloc: Global, name: &[u8]) -> Result<(), Refusal>
    ensures named { OnOk result (lower_case name.now ≡ codes "stream-node-max-entries") }
    ensures known { lower_case name.now ≡ codes "stream-node-max-entries" → IsOk result }
{
    if is_word(name, SIZE) {
        return Ok(());
    }
    Err(make_refusal(
        alloc,
        &[
            b"ERR Unknown option or number of arguments for CONFIG SET - '",
            shown(name, usize::MAX),
            b"'",
        ],
    ))
}

/// The number that the setting gets.
fn parse_size(alloc: Global, value: &[u8]) -> Result<u64, Refusal>
    ensures ok { IfOk result (λ size. strict_number value.now ≡ Some (pos size)) }
    ensures number { (n : ℕ) → strict_number value.now ≡ Some (pos n) → result ≡ Ok n }
{
    let Some(size) = number_of(value) else {
        return Err(make_value_error(
            alloc,
            SIZE.as_bytes(),
            b"argument couldn't be parsed into an integer",
        ));
    };
    match u64::try_from(size) {
        Ok(size) => Ok(size),
        Err(_) => Err(make_value_error(
            alloc,
            SIZE.as_bytes(),
            b"argument must be between 0 and 9223372036854775807 inclusive",
        )),
    }
}

/// The error for a setting of this name, and why.
fn make_value_error(alloc: Global, name: &[u8], fault: &[u8]) -> Refusal {
    make_refusal(
        alloc,
        &[
            b"ERR CONFIG SET failed (possibly related to argument '",
            shown(name, usize::MAX),
            b"') - ",
            fault,
        ],
    )
}
