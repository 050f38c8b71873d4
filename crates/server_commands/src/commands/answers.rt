//! Replies of commands.
ghost use Rattle.std.specs.Prelude.{◌≡◌, ◌++◌, ◌∷◌, [], map, IfOk, OnOk};
ghost use Rattle.redis_resp.specs.Tree.{bulk};
ghost use Rattle.server_commands.specs.Acknowledging.{count_answer};
ghost use Rattle.server_commands.specs.Claiming.{sent_claimed, sent_entry, sent_fields};
ghost use Rattle.server_commands.specs.Sent.{array_of, item_list, plain, sent};

use crate::answer::Answer;
use server_store::Entry;
use std::alloc::{AllocError, Global};

/// A count as a reply.
pub(super) fn number(n: u64) -> Answer
    ensures { result ≡ count_answer n }
{
    Answer::Int(i64::try_from(n).unwrap_or(i64::MAX))
}

/// A length as a reply.
pub(super) fn length(n: usize) -> Answer
    ensures { result ≡ count_answer n }
{
    Answer::Int(i64::try_from(n).unwrap_or(i64::MAX))
}

/// These replies as one array.
pub(super) fn array<const N: usize>(alloc: Global, items: [Answer; N]) -> Result<Answer, AllocError>
    ensures { IfOk result (λ answer. sent answer ≡ array_of (item_list (map sent items.entry))) }
{
    match Vec::from_array(alloc, items) {
        Ok(items) => Ok(Answer::Array(items)),
        Err(_) => Err(AllocError),
    }
}

/// Appends a reply.
pub(super) fn put(answers: &mut Vec<Answer>, answer: Answer) -> Result<(), AllocError>
    ensures { OnOk result (answers.new.items ≡ answers.old.items ++ answer ∷ []) }
{
    match answers.push(answer) {
        Ok(()) => Ok(()),
        Err(_) => Err(AllocError),
    }
}

/// Bytes as a reply.
pub(super) fn bytes_answer(alloc: Global, bytes: &[u8]) -> Result<Answer, AllocError>
    ensures { IfOk result (λ answer. sent answer ≡ plain (bulk bytes.now)) }
{
    Ok(Answer::Bytes(Vec::from_slice(alloc, bytes)?))
}

/// An entry as a reply: its id and its fields.
pub(super) fn entry_answer(alloc: Global, entry: &Entry) -> Result<Answer, AllocError>
    ensures { IfOk result (λ answer. sent answer ≡ sent_entry entry.now) }
{
    let fields = fields_answer(alloc, &entry.fields)?;
    array(alloc, [Answer::Id(entry.id), fields])
}

/// A claimed entry as a reply, or its id alone with JUSTID.
pub(super) fn claimed_answer(
    alloc: Global,
    entry: &Entry,
    only_id: bool,
) -> Result<Answer, AllocError>
    ensures { IfOk result (λ answer. sent answer ≡ sent_claimed only_id entry.now) }
{
    if only_id {
        Ok(Answer::Id(entry.id))
    } else {
        entry_answer(alloc, entry)
    }
}

/// The names and values of an entry as a reply.
pub(super) fn fields_answer(alloc: Global, fields: &[Vec<u8>]) -> Result<Answer, AllocError>
    ensures { IfOk result (λ answer. sent answer ≡ sent_fields fields.now) }
{
    let mut answers = Vec::with_capacity(alloc, fields.len())?;
    for field in fields {
        put(&mut answers, bytes_answer(alloc, field)?)?;
    }
    Ok(Answer::Array(answers))
}
