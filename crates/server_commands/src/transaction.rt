//! Transactions: `MULTI`, `EXEC`, `DISCARD`, `WATCH`.
ghost use Rattle.std.specs.Prelude.{◌≡◌, ◌≢◌, ◌<◌, ℕ, length, true, IfOk, OnOk, OnErr, Ok};
ghost use Rattle.std.specs.Global.{Vec};
ghost use Rattle.server_commands.specs.Commands.{IsNamed, PlainReplies, Replies, least_of};
ghost use Rattle.server_commands.specs.Nodes.{IsConfigured};
ghost use Rattle.server_commands.specs.Server.{IsRefused, queued_reply};
ghost use Rattle.server_commands.specs.Session.{forgotten, with_queued};
ghost use Rattle.server_commands.specs.Streams.{seen_streams};
ghost use Rattle.server_commands.specs.Watching.{is_touched};
ghost use Rattle.server_commands.specs.declared.answer.Answer.TheVariants.{NilArray, Okay};
ghost use Rattle.server_commands.specs.declared.commands.Change.{Change};
ghost use Rattle.server_commands.specs.declared.commands.Plain.TheVariants as plain;
ghost use Rattle.server_commands.specs.declared.answer.Reply.TheVariants.{Done, Refused};
ghost use Rattle.server_commands.specs.declared.refusal.Refusal.TheVariants.{Memory};
ghost use Rattle.server_commands.specs.declared.session.Mode.TheVariants.{AtOnce, Queued as IsQueued};

use crate::answer::{Answer, Reply, Status};
use crate::commands::{self, Command, Plain, Step};
use crate::refusal::Refusal;
use crate::session::{Mode, Queued, Session};
use crate::watching::{is_touched, note_all};
use server_store::Stream;
use std::alloc::{AllocError, Global};
use std::mem;

const NESTED: Refusal = Refusal::Fixed("ERR MULTI calls can not be nested");

const WATCH_INSIDE: Refusal = Refusal::Fixed("ERR WATCH inside MULTI is not allowed");

const NOT_BEGUN: Refusal = Refusal::Fixed("ERR EXEC without MULTI");

const NONE_TO_DISCARD: Refusal = Refusal::Fixed("ERR DISCARD without MULTI");

const ABORTED: Refusal = Refusal::Fixed(
    "EXECABORT Transaction discarded because of previous errors.",
);

const WRONG_EXECUTE: Refusal = Refusal::Fixed(
    "EXECABORT Transaction discarded because of: wrong number of arguments for 'exec' command",
);

/// The error of a command of a transaction if an allocation failed.
const OUT_OF_MEMORY: &str = "OOM command not allowed when used memory > 'maxmemory'.";

/// Executes a command, or queues it. If it is refused, no stream is changed.
pub(crate) fn answered(
    alloc: Global,
    streams: &mut Vec<Stream>,
    node_entries: &mut u64,
    now: u64,
    session: &mut Session,
    words: Vec<Vec<u8>>,
) -> Result<Reply, AllocError>
    ensures done { IfOk result (λ r. session.old.mode ≡ AtOnce → (change : Change) → IsNamed change words.items
        → least_of change < length words.items
        → Replies change words.items now streams.old.items streams.new.items r) }
    ensures err { OnErr result (seen_streams streams.new ≡ seen_streams streams.old) }
    ensures nodes { OnErr result (node_entries.new ≡ node_entries.old) }
    ensures unset { IfOk result (λ r. IsRefused r → node_entries.new ≡ node_entries.old) }
    ensures session { OnErr result (session.new ≡ session.old) }
    ensures refused { IfOk result (λ r. IsRefused r
        → seen_streams streams.new ≡ seen_streams streams.old) }
    ensures queued { IfOk result (λ r. session.old.mode ≡ IsQueued → (change : Change) → IsNamed change words.items
        → least_of change < length words.items → (r ≡ queued_reply)
        × (session.new ≡ with_queued (plain.Change change) words session.old)
        × (seen_streams streams.new ≡ seen_streams streams.old)) }
{
    match commands::command_in(alloc, &words) {
        Ok(Command::Transaction(step)) => execute_step(
            alloc,
            streams,
            node_entries,
            now,
            session,
            step,
            &words,
        ),
        Ok(Command::Plain(command)) if session.mode == Mode::AtOnce => {
            execute_now(alloc, streams, node_entries, now, session, command, words)
        }
        Ok(Command::Plain(command)) => queue_command(session, command, words),
        Err(refusal) => reject_command(alloc, session, refusal),
    }
}

/// Does a command, and notes whether a watched key is changed then.
fn execute_now(
    alloc: Global,
    streams: &mut Vec<Stream>,
    node_entries: &mut u64,
    now: u64,
    session: &mut Session,
    command: Plain,
    words: Vec<Vec<u8>>,
) -> Result<Reply, AllocError>
    ensures done { IfOk result (PlainReplies command words.items now streams.old.items streams.new.items) }
    ensures err { OnErr result (seen_streams streams.new ≡ seen_streams streams.old) }
    ensures nodes { OnErr result (node_entries.new ≡ node_entries.old) }
    ensures size { command ≢ plain.Configure → node_entries.new ≡ node_entries.old }
    ensures unset { IfOk result (λ r. IsRefused r → node_entries.new ≡ node_entries.old) }
    ensures configured { command ≡ plain.Configure
        → IfOk result (λ r. (IsRefused r → ⊥) → IsConfigured words.items node_entries.new) }
    ensures session { OnErr result (session.new ≡ session.old) }
    ensures refused { IfOk result (λ r. IsRefused r
        → seen_streams streams.new ≡ seen_streams streams.old) }
{
    match commands::run(alloc, streams, node_entries, now, session, command, words) {
        Ok(answer) => {
            session.is_touched = is_touched(streams, session);
            Ok(Reply::Done(answer))
        }
        Err(refusal) => reply_with_refusal(alloc, refusal),
    }
}

/// Queues a command; after an error in the transaction it is not kept.
fn queue_command(
    session: &mut Session,
    command: Plain,
    words: Vec<Vec<u8>>,
) -> Result<Reply, AllocError>
    ensures err { OnErr result (session.new ≡ session.old) }
    ensures reply { IfOk result (λ r. r ≡ queued_reply) }
    ensures kept { OnOk result (session.old.mode ≡ IsQueued → session.new ≡ with_queued command words session.old) }
    ensures none { session.old.mode ≢ IsQueued → session.new ≡ session.old }
{
    if session.mode == Mode::Queued {
        session.queue.push(Queued { command, words })?;
    }
    Ok(Reply::Done(Answer::Status(Status::Queued)))
}

/// Refuses a command before it is executed or queued: then the queued ones are not executed either.
fn reject_command(
    alloc: Global,
    session: &mut Session,
    refusal: Refusal,
) -> Result<Reply, AllocError>
    ensures { OnErr result (session.new ≡ session.old) }
{
    let reply = reply_with_refusal(alloc, refusal)?;
    if session.mode != Mode::AtOnce {
        session.mode = Mode::Aborted;
    }
    Ok(reply)
}

/// Replies that a command is refused.
fn reply_with_refusal(alloc: Global, refusal: Refusal) -> Result<Reply, AllocError>
    ensures { IfOk result (λ r. (refusal ≢ Memory) × (text : Vec ℕ) × (r ≡ Refused text)) }
{
    Ok(Reply::Refused(refusal.into_text(alloc)?))
}

/// Executes a command of a transaction.
fn execute_step(
    alloc: Global,
    streams: &mut Vec<Stream>,
    node_entries: &mut u64,
    now: u64,
    session: &mut Session,
    step: Step,
    words: &[Vec<u8>],
) -> Result<Reply, AllocError>
    ensures err { OnErr result (seen_streams streams.new ≡ seen_streams streams.old) }
    ensures nodes { OnErr result (node_entries.new ≡ node_entries.old) }
    ensures unset { IfOk result (λ r. IsRefused r → node_entries.new ≡ node_entries.old) }
    ensures session { OnErr result (session.new ≡ session.old) }
    ensures refused { IfOk result (λ r. IsRefused r
        → seen_streams streams.new ≡ seen_streams streams.old) }
{
    match step {
        Step::Begin => begin_transaction(alloc, session),
        Step::Execute if words.len() > 1 => drop_queue(alloc, session, WRONG_EXECUTE),
        Step::Execute => execute_transaction(alloc, streams, node_entries, now, session),
        Step::Discard => discard_queue(alloc, session),
        Step::Watch => watch(alloc, streams, session, words),
    }
}

/// `MULTI`
fn begin_transaction(alloc: Global, session: &mut Session) -> Result<Reply, AllocError>
    ensures err { OnErr result (session.new ≡ session.old) }
    ensures begins { session.old.mode ≡ AtOnce
        → (result ≡ Ok (Done Okay)) × (session.new ≡ record session.old { mode = IsQueued }) }
{
    if session.mode != Mode::AtOnce {
        return reply_with_refusal(alloc, NESTED);
    }
    session.mode = Mode::Queued;
    Ok(Reply::Done(Answer::Okay))
}

/// `WATCH key ..`
fn watch(
    alloc: Global,
    streams: &[Stream],
    session: &mut Session,
    words: &[Vec<u8>],
) -> Result<Reply, AllocError>
    ensures { OnErr result (session.new ≡ session.old) }
{
    if session.mode != Mode::AtOnce {
        return reply_with_refusal(alloc, WATCH_INSIDE);
    }
    if let [_, keys @ ..] = words {
        let mut more = note_all(alloc, streams, keys)?;
        session.watched.append(&mut more)?;
    }
    Ok(Reply::Done(Answer::Okay))
}

/// `DISCARD`
fn discard_queue(alloc: Global, session: &mut Session) -> Result<Reply, AllocError>
    ensures { OnErr result (session.new ≡ session.old) }
{
    if session.mode == Mode::AtOnce {
        return reply_with_refusal(alloc, NONE_TO_DISCARD);
    }
    forget(session);
    Ok(Reply::Done(Answer::Okay))
}

/// Drops the queued commands, and returns why.
fn drop_queue(alloc: Global, session: &mut Session, refusal: Refusal) -> Result<Reply, AllocError>
    ensures { OnErr result (session.new ≡ session.old) }
{
    let reply = reply_with_refusal(alloc, refusal)?;
    forget(session);
    Ok(reply)
}

/// Executes commands as they come, from now on, and watches no key.
fn forget(session: &mut Session)
    ensures { session.new ≡ forgotten session.old }
{
    session.unwatch();
    session.queue.clear();
    session.mode = Mode::AtOnce;
}

/// `EXEC`
fn execute_transaction(
    alloc: Global,
    streams: &mut Vec<Stream>,
    node_entries: &mut u64,
    now: u64,
    session: &mut Session,
) -> Result<Reply, AllocError>
    ensures err { OnErr result (seen_streams streams.new ≡ seen_streams streams.old) }
    ensures nodes { OnErr result (node_entries.new ≡ node_entries.old) }
    ensures unset { IfOk result (λ r. IsRefused r → node_entries.new ≡ node_entries.old) }
    ensures session { OnErr result (session.new ≡ session.old) }
    ensures refused { IfOk result (λ r. IsRefused r
        → seen_streams streams.new ≡ seen_streams streams.old) }
    ensures touched { session.old.mode ≡ IsQueued → is_touched streams.old.items session.old ≡ true
        → (result ≡ Ok (Done NilArray)) × (session.new ≡ forgotten session.old)
        × (seen_streams streams.new ≡ seen_streams streams.old) }
{
    match session.mode {
        Mode::AtOnce => reply_with_refusal(alloc, NOT_BEGUN),
        Mode::Aborted => drop_queue(alloc, session, ABORTED),
        Mode::Queued if is_touched(streams, session) => {
            forget(session);
            Ok(Reply::Done(Answer::NilArray))
        }
        Mode::Queued => {
            let mut outcomes = fail_for_memory(alloc, session.queue.len())?;
            let queue = mem::replace(&mut session.queue, Vec::new(alloc));
            forget(session);
            execute(
                alloc,
                streams,
                node_entries,
                now,
                session,
                queue,
                &mut outcomes,
            );
            Ok(Reply::Executed(outcomes))
        }
    }
}

/// The outcomes of `count` commands if an allocation failed.
fn fail_for_memory(
    alloc: Global,
    count: usize,
) -> Result<Vec<Result<Answer, Vec<u8>>>, AllocError> {
    let mut outcomes = Vec::with_capacity(alloc, count)?;
    for _ in 0..count {
        outcomes.push(Err(Vec::from_slice(alloc, OUT_OF_MEMORY.as_bytes())?))?;
    }
    Ok(outcomes)
}

/// Executes commands one after the other. If an allocation fails for one, its outcome stays the error, and the
/// streams stay as they are.
fn execute(
    alloc: Global,
    streams: &mut Vec<Stream>,
    node_entries: &mut u64,
    now: u64,
    session: &mut Session,
    queue: Vec<Queued>,
    outcomes: &mut Vec<Result<Answer, Vec<u8>>>,
) {
    for (queued, outcome) in queue.into_iter().zip(outcomes.iter_mut()) {
        match commands::run(
            alloc,
            streams,
            node_entries,
            now,
            session,
            queued.command,
            queued.words,
        ) {
            Ok(answer) => *outcome = Ok(answer),
            Err(refusal) => {
                if let Ok(text) = refusal.into_text(alloc) {
                    *outcome = Err(text);
                }
            }
        }
    }
}
