//! A handler that passes entries to a child process.
ghost use Rattle.std.specs.Prelude.{◌≡◌, ◌⊎◌, ◌∷◌, [], ◌++◌, IfOk, OnErr, OnOk, Some, string_bytes, true, false};
ghost use Rattle.worker_jobs.specs.Talk.{Exchanges, Talk, committed, talk_of, talked};
ghost use Rattle.worker_jobs.specs.Noted.{IsNoted, IsNotedFor};
ghost use Rattle.worker_jobs.specs.VerdictOf.{commands_of_line, text_of, verdict_of as verdict_of_line};
ghost use Rattle.worker.specs.Handling.{pair_of, verdict_of};
ghost use Rattle.worker.specs.Outbox.Sent.{SendsAll, SendsSome, unsent_of};

use crate::fault::Fault;
use crate::line::entry_line;
use crate::pipes::{SteadyRead, SteadyWrite, read_line, write_line};
use crate::reply::{Reply, take_reply, text_in};
use redis_connection::Connection;
use std::alloc::Global;
use std::io::{Read, Write};
use std::mem;
use worker::outbox::{Outbox, OutboxError};
use worker::{EntryRef, Handler, NotCommitted, Verdict};

/// A child's reply to an entry that stays pending.
#[derive(Debug, Drop)]
pub struct Note {
    /// The id of the entry.
    pub id: String,
    /// Whether the worker should give up the entry.
    pub dead: bool,
    /// The text of the reply.
    pub text: Vec<u8>,
}

/// A handler that passes entries to a child process: for each entry it writes one line and reads one line.
#[derive(Drop)]
pub struct Jobs<R: SteadyRead + Drop, W: SteadyWrite + Drop> {
    stream: String,
    replies: R,
    lines: W,
    /// The last reply. Its buffer is reused for the next reply.
    reply: Vec<u8>,
    /// Whether the handler returned `Stop`, and sends no more lines.
    over: bool,
    /// The number of entries that the handler received, of those done, of those committed, and of those that a
    /// reply left pending.
    pub seen: u64,
    pub done: u64,
    pub committed: u64,
    pub left: u64,
    /// The error of the child. `None` if the child's reply was `stop`.
    pub fault: Option<Fault>,
    /// The id of the entry at which the handler stopped, if there was memory to keep it.
    pub undone: Option<String>,
    notes: Vec<Note>,
    /// The commands for the entries that replies add, as long as the server has not replied to them.
    outbox: Outbox,
}

impl<R: SteadyRead + Drop, W: SteadyWrite + Drop> Jobs<R, W> {
    /// Creates a handler for the entries of `stream`. It reads the replies from `replies`, and writes the lines
    /// to `lines`.
    pub fn new(alloc: Global, stream: String, replies: R, lines: W) -> Jobs<R, W>
        ensures ends { (result.replies ≡ replies) × (result.lines ≡ lines) }
        ensures stream { result.stream ≡ stream }
        ensures begins { (result.over ≡ false) × (result.seen ≡ 0) × (result.done ≡ 0) × (result.committed ≡ 0)
            × (result.left ≡ 0) × (result.notes.items ≡ []) × (unsent_of result.outbox ≡ []) }
    {
        Jobs {
            stream,
            replies,
            lines,
            reply: Vec::new(alloc),
            over: false,
            seen: 0,
            done: 0,
            committed: 0,
            left: 0,
            fault: None,
            undone: None,
            notes: Vec::new(alloc),
            outbox: Outbox::new(alloc),
        }
    }

    /// Whether the handler returned `Stop`.
    pub fn is_over(&self) -> bool
        ensures { result ≡ self.now.over }
    {
        self.over
    }

    /// Returns the last reply.
    pub fn reply(&self) -> &[u8]
        ensures { result.now ≡ self.now.reply.items }
    {
        &self.reply
    }

    /// Returns the notes on entries that stay pending, in order, and leaves an empty list.
    pub fn take_notes(&mut self, alloc: Global) -> Vec<Note>
        ensures notes { result ≡ self.old.notes }
        ensures rest { self.new.notes.items ≡ [] }
        ensures kept { self.new ≡ record self.old { notes = self.new.notes } }
    {
        mem::replace(&mut self.notes, Vec::new(alloc))
    }

    /// Sends the commands for the entries that replies add, and receives the server's reply to each. Does
    /// nothing if there are no commands. After an `Err` the commands without a reply stay queued, and `commit`
    /// fails.
    pub fn send_added<I: Read + Drop, O: Write + Drop>(
        &mut self,
        alloc: Global,
        connection: &mut Connection<I, O>,
    ) -> Result<(), OutboxError>
        ensures sent { OnOk result (unsent_of self.new.outbox ≡ []) }
        ensures ok { OnOk result (((unsent_of self.old.outbox ≡ []) × (connection.new ≡ connection.old))
            ⊎ SendsAll (unsent_of self.old.outbox) connection.old connection.new) }
        ensures err { OnErr result (SendsSome (unsent_of self.old.outbox) (unsent_of self.new.outbox)
            connection.old connection.new) }
        ensures kept { self.new ≡ record self.old { outbox = self.new.outbox } }
    {
        if self.outbox.is_empty() {
            return Ok(());
        }
        self.outbox.send(alloc, connection)
    }

    /// Writes the line of an entry, and reads the reply. A line that was received before the entry was sent is
    /// an error, since it could be mistaken for the reply.
    fn exchange(&mut self, alloc: Global, entry: &EntryRef<'_>) -> Result<Reply, Fault>
        ensures stream { self.new.stream ≡ self.old.stream }
        ensures over { self.new.over ≡ self.old.over }
        ensures went { OnOk result (Exchanges (string_bytes self.old.stream) (pair_of entry.now)
            (W.contents self.old.lines) (W.contents self.new.lines)
            (R.remaining self.old.replies) (R.remaining self.new.replies) self.new.reply.items) }
        ensures says { IfOk result (λ reply. verdict_of_line self.new.reply.items ≡ Some reply) }
        ensures asked { OnOk result (R.ahead self.old.replies ≡ []) }
        ensures added { OnOk result (unsent_of self.new.outbox
            ≡ unsent_of self.old.outbox ++ commands_of_line self.new.reply.items) }
        ensures not_added { OnErr result (unsent_of self.new.outbox ≡ unsent_of self.old.outbox) }
        ensures notes { self.new.notes ≡ self.old.notes }
    {
        if self.replies.holds_more() {
            return Err(Fault::Unasked);
        }
        let mut line = entry_line(alloc, &self.stream, entry)?;
        write_line(&mut self.lines, &mut line)?;
        read_line(&mut self.replies, &mut self.reply)?;
        match take_reply(alloc, &self.reply, &mut self.outbox)? {
            Some(reply) => Ok(reply),
            None => Err(Fault::Unknown),
        }
    }

    /// Sends an entry to the child, and returns the child's reply. Keeps a note of the reply's text if the
    /// entry stays pending.
    fn ask(&mut self, alloc: Global, entry: &EntryRef<'_>) -> Result<Reply, Fault>
        ensures stream { self.new.stream ≡ self.old.stream }
        ensures over { self.new.over ≡ self.old.over }
        ensures went { OnOk result (Exchanges (string_bytes self.old.stream) (pair_of entry.now)
            (W.contents self.old.lines) (W.contents self.new.lines)
            (R.remaining self.old.replies) (R.remaining self.new.replies) self.new.reply.items) }
        ensures says { IfOk result (λ reply. verdict_of_line self.new.reply.items ≡ Some reply) }
        ensures added { OnOk result (unsent_of self.new.outbox
            ≡ unsent_of self.old.outbox ++ commands_of_line self.new.reply.items) }
        ensures not_added { OnErr result (unsent_of self.new.outbox ≡ unsent_of self.old.outbox) }
        ensures noted { IfOk result (λ reply. IsNotedFor reply (pair_of entry.now).0
            (text_of self.new.reply.items) self.old.notes.items self.new.notes.items) }
    {
        let reply = self.exchange(alloc, entry)?;
        match reply {
            Reply::Later => self.keep_note(alloc, entry.id(), false)?,
            Reply::Dead => self.keep_note(alloc, entry.id(), true)?,
            Reply::Done | Reply::Stop => {}
        }
        Ok(reply)
    }

    /// Keeps a note of the last reply, if the reply has a text or the entry should be given up.
    fn keep_note(&mut self, alloc: Global, id: &str, dead: bool) -> Result<(), Fault>
        ensures kept { self.new ≡ record self.old { notes = self.new.notes } }
        ensures noted { OnOk result (IsNoted id.now dead (text_of self.old.reply.items)
            self.old.notes.items self.new.notes.items) }
    {
        let text = text_in(&self.reply);
        if !dead && text.is_empty() {
            return Ok(());
        }
        let note = Note {
            id: String::from_str(alloc, id)?,
            dead,
            text: Vec::from_slice(alloc, text)?,
        };
        self.notes.push(note)?;
        Ok(())
    }

    /// Stops at the entry `id`, and records the fault.
    fn stop(&mut self, alloc: Global, id: &str, fault: Option<Fault>) -> Verdict
        ensures verdict { result ≡ Verdict.Stop }
        ensures over { self.new.over ≡ true }
        ensures outbox { self.new.outbox ≡ self.old.outbox }
    {
        self.over = true;
        self.fault = fault;
        self.undone = String::from_str(alloc, id).ok();
        Verdict::Stop
    }
}

impl<R: SteadyRead + Drop, W: SteadyWrite + Drop> Handler for Jobs<R, W> {
    ghost History = { Talk };

    ghost with_verdict = { talked };

    ghost with_commit = { committed };

    ghost history = { λ j. talk_of j.over (string_bytes j.stream) (W.contents j.lines) (R.remaining j.replies) };

    /// Sends the entry to the child. The entry is done if the reply is `done` or JSON. After the reply `stop`
    /// or a fault, the handler returns `Stop` and sends no other entry.
    fn handle(&mut self, alloc: Global, entry: &EntryRef<'_>) -> Verdict
        ensures history { ⟦<Jobs<R, W> as Handler>⟧.history self.new
            ≡ talked (⟦<Jobs<R, W> as Handler>⟧.history self.old) (pair_of entry.now) (verdict_of result) }
        ensures added { result ≡ Verdict.Done → unsent_of self.new.outbox
            ≡ unsent_of self.old.outbox ++ commands_of_line self.new.reply.items }
        ensures not_added { result ≡ Verdict.Stop → unsent_of self.new.outbox ≡ unsent_of self.old.outbox }
    {
        self.seen = self.seen.saturating_add(1);
        if self.over {
            return Verdict::Stop;
        }
        match self.ask(alloc, entry) {
            Ok(Reply::Done) => {
                self.done = self.done.saturating_add(1);
                Verdict::Done
            }
            Ok(Reply::Later) => {
                self.left = self.left.saturating_add(1);
                Verdict::LeavePending
            }
            Ok(Reply::Dead) => {
                self.left = self.left.saturating_add(1);
                Verdict::LeavePending
            }
            Ok(Reply::Stop) => self.stop(alloc, entry.id(), None),
            Err(fault) => self.stop(alloc, entry.id(), Some(fault)),
        }
    }

    /// Only counts the entries that are done, since the child's replies were received before. Fails if the
    /// server has not replied to all commands for the entries that replies add.
    fn commit(&mut self, _alloc: Global) -> Result<(), NotCommitted>
        ensures history { OnOk result (⟦<Jobs<R, W> as Handler>⟧.history self.new
            ≡ committed (⟦<Jobs<R, W> as Handler>⟧.history self.old)) }
        ensures history_kept { OnErr result (⟦<Jobs<R, W> as Handler>⟧.history self.new
            ≡ ⟦<Jobs<R, W> as Handler>⟧.history self.old) }
        ensures sent { OnOk result (unsent_of self.old.outbox ≡ []) }
    {
        if !self.outbox.is_empty() {
            return Err(NotCommitted);
        }
        self.committed = self.done;
        Ok(())
    }
}
