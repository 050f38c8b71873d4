//! A worker of a consumer group.
ghost use Rattle.std.specs.Prelude.{◌≡◌, ◌≢◌, ◌++◌, [], None, IfErr, IfOk, IfSome, IsErr, OnOk, OnErr, map, true};
ghost use Rattle.redis_resp.specs.Number.{unsigned_reading};
ghost use Rattle.redis_resp.specs.Refusal.{RefusesNumber};
ghost use Rattle.redis_resp.specs.Value.{tree};
ghost use Rattle.redis_wire.specs.Packed.{command_bytes};
ghost use Rattle.redis_wire.specs.Reply as wire;
ghost use Rattle.redis_wire.specs.Reply.{answer};
ghost use Rattle.model_server.specs.Group.Worker.{begins_again, start};
ghost use Rattle.stream_in_place.specs.SentMeaning.{sent_of};
ghost use Rattle.worker.specs.Answered.{Failed, Went};
ghost use Rattle.worker.specs.Answers.{by_error, by_value, group_after, is_gone, means};
ghost use Rattle.worker.specs.Machine.{Moved, at_request, commits, ending_said};
ghost use Rattle.worker.specs.Machine.{history_at_request, ids_of, is_settled, machine_of};
ghost use Rattle.worker.specs.Parts.{IsAcknowledged, IsOfGroup, IsRefused, Unread, state_by};
ghost use Rattle.worker.specs.Questions.{asks, phase_of, sentence};
ghost use Rattle.worker.specs.Requested.{OnNotCommitted, Unasked};
ghost use Rattle.worker.specs.Taking.{all_delivered};

mod in_place;

use crate::commands::append_question;
use crate::entries::take_entries;
use crate::error::{AnswerError, RequestError, WorkerError};
use crate::handler::{Handler, NotCommitted};
use crate::phases::{next_claim, next_own, next_round};
use crate::reading::{read_claim, read_entries, read_new};
use crate::state::{Asked, GroupState, MakeGroup, Phase, Settings};
use redis_resp::{Value, from_redis_value};
use redis_wire::{Reply, ServerError};
use std::alloc::{AllocError, Global};
use std::mem;
use stream_in_place::{EntryTape, SentRow};

/// Whether a worker's handler goes on.
#[derive(Clone, Copy, Debug, PartialEq, Eq)]
pub enum Progress {
    /// The handler goes on.
    GoesOn,
    /// The handler returned `Stop`. Entries that are not done are pending, and are read next.
    Stopped,
}

/// A worker of a consumer group, without input and output. `request` writes the next command.
/// `answered_in_place` takes the reply from the received bytes, and `answered` takes a decoded reply.
///
/// The worker acknowledges only entries that its handler has done and committed, and its own pending entries
/// that were deleted from the stream. The server returns deleted entries with nil in place of fields.
#[derive(Debug, Drop)]
pub struct Worker {
    settings: Settings,
    group: GroupState,
    phase: Phase,
    to_commit: Vec<String>,
    to_acknowledge: Vec<String>,
    asked: Asked,
    tape: EntryTape,
}

impl Worker {
    /// Returns a worker that begins with its own pending entries. Allocates nothing.
    pub fn new(alloc: Global, settings: Settings) -> Worker
        ensures machine { machine_of result ≡ start settings.every }
        ensures settings { result.settings ≡ settings }
        ensures group { result.group ≡ GroupState.Unknown }
        ensures asked { result.asked ≡ Asked.Nothing }
    {
        Worker::resumed(alloc, settings, Vec::new(alloc))
    }

    /// Returns a worker that first acknowledges these ids. Their entries were committed before the start, for
    /// example as the last lines of a file. Then the worker begins with its own pending entries. Allocates
    /// nothing.
    pub fn resumed(alloc: Global, settings: Settings, committed: Vec<String>) -> Worker
        ensures machine { machine_of result ≡ record (start settings.every) {
          to_acknowledge = ids_of committed;
        } }
        ensures settings { result.settings ≡ settings }
        ensures group { result.group ≡ GroupState.Unknown }
        ensures asked { result.asked ≡ Asked.Nothing }
    {
        Worker {
            settings,
            group: GroupState::Unknown,
            phase: Phase::Start,
            to_commit: Vec::new(alloc),
            to_acknowledge: committed,
            asked: Asked::Nothing,
            tape: EntryTape::new(alloc),
        }
    }

    /// Returns the command whose reply the worker waits for.
    pub fn asked(&self) -> Asked
        ensures { result ≡ self.now.asked }
    {
        self.asked
    }

    /// Whether there is nothing to commit and nothing to acknowledge.
    pub(crate) fn is_settled(&self) -> bool
        ensures { result ≡ is_settled (machine_of self.now) }
    {
        self.to_commit.is_empty() && self.to_acknowledge.is_empty()
    }

    /// Appends the bytes of the next command: `XACK` if committed entries are to be acknowledged, else `XGROUP CREATE`
    /// if the group is missing, else the command of the phase.
    ///
    /// If something is done and not committed, the handler commits first. An `Err` appends nothing, and the next call
    /// requests the same command again.
    pub fn request<H: Handler>(
        &mut self,
        alloc: Global,
        out: &mut Vec<u8>,
        handler: &mut H,
    ) -> Result<(), RequestError>
        ensures bytes { OnOk result (out.new.items ≡ out.old.items ++ command_bytes
            (sentence self.old.settings self.old.group (machine_of self.new).phase
            (machine_of self.new).to_acknowledge)) }
        ensures machine { OnOk result (machine_of self.new ≡ at_request (machine_of self.old)) }
        ensures asked { OnOk result (self.new.asked ≡ asks self.old.group
            (machine_of self.new).phase (machine_of self.new).to_acknowledge) }
        ensures history { OnOk result (H.history handler.new ≡ history_at_request H.with_commit
            (machine_of self.old) (H.history handler.old)) }
        ensures err { IfErr result (Unasked H.with_commit (machine_of self.old)
            (machine_of self.new) (H.history handler.old) (H.history handler.new)) }
        ensures failed { IfErr result (λ e. OnNotCommitted e (H.commit_failed handler.old handler.new)) }
        ensures err_bytes { OnErr result (out.new.items ≡ out.old.items) }
        ensures err_asked { OnErr result (self.new.asked ≡ self.old.asked) }
        ensures settings { self.new.settings ≡ self.old.settings }
        ensures group { self.new.group ≡ self.old.group }
    {
        self.commit(alloc, handler)?;
        let asked = append_question(
            alloc,
            out,
            &self.settings,
            self.group,
            &self.phase,
            &self.to_acknowledge,
        )?;
        self.asked = asked;
        Ok(())
    }

    /// Appends the command that follows the requested acknowledgement, and returns which command it is. Returns
    /// `None` and appends nothing if something must be committed before this command, or if memory runs out.
    pub(crate) fn append_following(&self, alloc: Global, out: &mut Vec<u8>) -> Option<Asked>
        ensures some { IfSome result (λ next. (self.now.asked ≡ Asked.Acknowledgement)
            × ((machine_of self.now).to_commit ≡ [])
            × (next ≡ asks self.now.group (machine_of self.now).phase [])
            × (out.new.items ≡ out.old.items ++ command_bytes
            (sentence self.now.settings self.now.group (machine_of self.now).phase []))) }
        ensures none { result ≡ None → out.new.items ≡ out.old.items }
    {
        if self.asked != Asked::Acknowledgement || !self.to_commit.is_empty() {
            return None;
        }
        match append_question(alloc, out, &self.settings, self.group, &self.phase, &[]) {
            Ok(asked) => Some(asked),
            Err(_) => None,
        }
    }

    /// Records that the worker waits for the reply to this command.
    pub(crate) fn wait_for(&mut self, question: Asked)
        ensures machine { machine_of self.new ≡ machine_of self.old }
        ensures group { self.new.group ≡ self.old.group }
        ensures asked { self.new.asked ≡ question }
        ensures settings { self.new.settings ≡ self.old.settings }
    {
        self.asked = question;
    }

    /// Calls the handler's `commit` for what is acknowledged next.
    fn commit<H: Handler>(&mut self, alloc: Global, handler: &mut H) -> Result<(), NotCommitted>
        ensures machine { OnOk result (machine_of self.new ≡ at_request (machine_of self.old)) }
        ensures history { OnOk result (H.history handler.new ≡ history_at_request H.with_commit
            (machine_of self.old) (H.history handler.old)) }
        ensures err { OnErr result ((commits (machine_of self.old) ≡ true) × (self.new ≡ self.old)
            × (H.history handler.new ≡ H.history handler.old)) }
        ensures failed { IsErr result → H.commit_failed handler.old handler.new }
        ensures settings { self.new.settings ≡ self.old.settings }
        ensures group { self.new.group ≡ self.old.group }
        ensures asked { self.new.asked ≡ self.old.asked }
    {
        if self.to_acknowledge.is_empty() && !self.to_commit.is_empty() {
            handler.commit(alloc)?;
            mem::swap(&mut self.to_commit, &mut self.to_acknowledge);
        }
        Ok(())
    }

    /// Takes the reply to the command that was requested last. An error names the command.
    pub fn answered<H: Handler>(
        &mut self,
        alloc: Global,
        reply: Reply,
        handler: &mut H,
    ) -> Result<Progress, AnswerError>
        ensures ok { IfOk result (Went H.with_verdict self.old.settings self.old.asked (answer reply)
            (machine_of self.old) (machine_of self.new)
            (H.history handler.old) (H.history handler.new)) }
        ensures err { IfErr result (λ e. Failed H.with_verdict self.old.settings self.old.asked
            (answer reply) (machine_of self.old) (machine_of self.new)
            (H.history handler.old) (H.history handler.new) e.error) }
        ensures err_asked { IfErr result (λ e. e.asked ≡ self.old.asked) }
        ensures group { self.new.group
            ≡ group_after self.old.settings self.old.group self.old.asked (answer reply) }
        ensures settings { self.new.settings ≡ self.old.settings }
        ensures asked { self.new.asked ≡ Asked.Nothing }
    {
        let asked = mem::replace(&mut self.asked, Asked::Nothing);
        match self.take_reply(alloc, asked, reply, handler) {
            Ok(progress) => Ok(progress),
            Err(error) => Err(AnswerError { asked, error }),
        }
    }

    /// Takes the reply to this command.
    fn take_reply<H: Handler>(
        &mut self,
        alloc: Global,
        asked: Asked,
        reply: Reply,
        handler: &mut H,
    ) -> Result<Progress, WorkerError>
        ensures ok { IfOk result (Went H.with_verdict self.old.settings asked (answer reply)
            (machine_of self.old) (machine_of self.new)
            (H.history handler.old) (H.history handler.new)) }
        ensures err { IfErr result (Failed H.with_verdict self.old.settings asked
            (answer reply) (machine_of self.old) (machine_of self.new)
            (H.history handler.old) (H.history handler.new)) }
        ensures group { self.new.group
            ≡ group_after self.old.settings self.old.group asked (answer reply) }
        ensures settings { self.new.settings ≡ self.old.settings }
        ensures asked { self.new.asked ≡ self.old.asked }
    {
        match reply {
            Reply::Value(value) => {
                self.group = update_group_after_value(self.group, asked);
                self.take_value(alloc, asked, value, handler)
            }
            Reply::Error(error) => self.take_error(asked, error),
            Reply::Group { .. } | Reply::Push { .. } => Err(WorkerError::NotAnAnswer),
        }
    }

    /// Begins again with the worker's own pending entries, after an acknowledgement of what is committed. Call
    /// this after a connection broke before a reply was received. `run`, `round` and `ask` call it themselves.
    pub fn begin_again(&mut self)
        ensures machine { machine_of self.new ≡ begins_again (machine_of self.old) }
        ensures group { self.new.group ≡ self.old.group }
        ensures asked { self.new.asked ≡ self.old.asked }
        ensures settings { self.new.settings ≡ self.old.settings }
    {
        self.phase = Phase::Start;
    }

    /// Takes an error in place of a value.
    fn take_error(&mut self, asked: Asked, error: ServerError) -> Result<Progress, WorkerError>
        ensures ok { IfOk result (λ p. (p ≡ Progress.GoesOn)
            × IsOfGroup (means self.old.settings.make_group asked error.text.items)) }
        ensures err { IfErr result (λ e. IsRefused asked error.text.items e
            × (means self.old.settings.make_group asked error.text.items ≡ None)) }
        ensures group { self.new.group
            ≡ by_error self.old.group (means self.old.settings.make_group asked error.text.items) }
        ensures machine { machine_of self.new ≡ machine_of self.old }
        ensures settings { self.new.settings ≡ self.old.settings }
        ensures asked { self.new.asked ≡ self.old.asked }
    {
        if asked == Asked::Nothing {
            return Err(WorkerError::NotAsked);
        }
        match update_group_after_error(self.settings.make_group, asked, &error) {
            Some(group) => {
                self.group = group;
                Ok(Progress::GoesOn)
            }
            None => Err(convert_server_error(asked, error)),
        }
    }

    /// Takes a value.
    fn take_value<H: Handler>(
        &mut self,
        alloc: Global,
        asked: Asked,
        value: Value,
        handler: &mut H,
    ) -> Result<Progress, WorkerError>
        ensures ok { IfOk result (Went H.with_verdict self.old.settings asked
            (wire.value (tree value)) (machine_of self.old) (machine_of self.new)
            (H.history handler.old) (H.history handler.new)) }
        ensures err { IfErr result (Failed H.with_verdict self.old.settings asked
            (wire.value (tree value)) (machine_of self.old) (machine_of self.new)
            (H.history handler.old) (H.history handler.new)) }
        ensures group { self.new.group ≡ self.old.group }
        ensures settings { self.new.settings ≡ self.old.settings }
        ensures asked { self.new.asked ≡ self.old.asked }
    {
        match asked {
            Asked::Nothing => Err(WorkerError::NotAsked),
            Asked::Acknowledgement => self.take_count(alloc, value),
            Asked::Group => Ok(Progress::GoesOn),
            Asked::First => self.take_own(alloc, value, handler),
            Asked::Own => self.take_own(alloc, value, handler),
            Asked::Claim => self.take_claimed(alloc, value, handler),
            Asked::New => self.take_new(alloc, value, handler),
        }
    }

    /// Takes the reply to XACK: nothing is left to acknowledge.
    fn take_count(&mut self, alloc: Global, value: Value) -> Result<Progress, WorkerError>
        ensures ok { IfOk result (λ p. (p ≡ Progress.GoesOn)
            × IsAcknowledged (tree value) (machine_of self.old) (machine_of self.new)) }
        ensures err { IfErr result (λ e. Unread (unsigned_reading 64) RefusesNumber (tree value) e
            × (machine_of self.new ≡ begins_again (machine_of self.old))) }
        ensures group { self.new.group ≡ self.old.group }
        ensures settings { self.new.settings ≡ self.old.settings }
        ensures asked { self.new.asked ≡ self.old.asked }
    {
        let phase = mem::replace(&mut self.phase, Phase::Start);
        let _count: usize = from_redis_value(alloc, value)?;
        self.to_acknowledge.clear();
        self.phase = phase;
        Ok(Progress::GoesOn)
    }

    /// Takes a reply with the worker's own pending entries.
    fn take_own<H: Handler>(
        &mut self,
        alloc: Global,
        value: Value,
        handler: &mut H,
    ) -> Result<Progress, WorkerError>
        ensures ok { IfOk result (Went H.with_verdict self.old.settings Asked.Own
            (wire.value (tree value)) (machine_of self.old) (machine_of self.new)
            (H.history handler.old) (H.history handler.new)) }
        ensures err { IfErr result (Failed H.with_verdict self.old.settings Asked.Own
            (wire.value (tree value)) (machine_of self.old) (machine_of self.new)
            (H.history handler.old) (H.history handler.new)) }
        ensures group { self.new.group ≡ self.old.group }
        ensures settings { self.new.settings ≡ self.old.settings }
        ensures asked { self.new.asked ≡ self.old.asked }
    {
        self.phase = Phase::Start;
        let entries = read_entries(alloc, &self.settings.key, value)?;
        let next = next_own(&entries)?;
        Ok(self.take(alloc, &entries, next, handler)?)
    }

    /// Takes a reply with claimed entries.
    fn take_claimed<H: Handler>(
        &mut self,
        alloc: Global,
        value: Value,
        handler: &mut H,
    ) -> Result<Progress, WorkerError>
        ensures ok { IfOk result (Went H.with_verdict self.old.settings Asked.Claim
            (wire.value (tree value)) (machine_of self.old) (machine_of self.new)
            (H.history handler.old) (H.history handler.new)) }
        ensures err { IfErr result (Failed H.with_verdict self.old.settings Asked.Claim
            (wire.value (tree value)) (machine_of self.old) (machine_of self.new)
            (H.history handler.old) (H.history handler.new)) }
        ensures group { self.new.group ≡ self.old.group }
        ensures settings { self.new.settings ≡ self.old.settings }
        ensures asked { self.new.asked ≡ self.old.asked }
    {
        self.phase = Phase::Start;
        let claim = read_claim(alloc, value)?;
        let next = next_claim(claim.next);
        Ok(self.take(alloc, &claim.claimed, next, handler)?)
    }

    /// Takes a reply with new entries.
    fn take_new<H: Handler>(
        &mut self,
        alloc: Global,
        value: Value,
        handler: &mut H,
    ) -> Result<Progress, WorkerError>
        ensures ok { IfOk result (Went H.with_verdict self.old.settings Asked.New
            (wire.value (tree value)) (machine_of self.old) (machine_of self.new)
            (H.history handler.old) (H.history handler.new)) }
        ensures err { IfErr result (Failed H.with_verdict self.old.settings Asked.New
            (wire.value (tree value)) (machine_of self.old) (machine_of self.new)
            (H.history handler.old) (H.history handler.new)) }
        ensures group { self.new.group ≡ self.old.group }
        ensures settings { self.new.settings ≡ self.old.settings }
        ensures asked { self.new.asked ≡ self.old.asked }
    {
        let phase = mem::replace(&mut self.phase, Phase::Start);
        let entries = read_new(alloc, &self.settings.key, value)?;
        let next = next_round(self.settings.every, phase);
        Ok(self.take(alloc, &entries, next, handler)?)
    }

    /// Passes entries to the handler, and goes on in this phase. If the handler stops before the last one, the worker
    /// begins again.
    fn take<H: Handler>(
        &mut self,
        alloc: Global,
        entries: &[SentRow],
        next: Phase,
        handler: &mut H,
    ) -> Result<Progress, AllocError>
        ensures moved { Moved H.with_verdict (all_delivered (map sent_of entries.now))
            (phase_of next) (machine_of self.old) (machine_of self.new)
            (H.history handler.old) (H.history handler.new) (ending_said result) }
        ensures group { self.new.group ≡ self.old.group }
        ensures settings { self.new.settings ≡ self.old.settings }
        ensures asked { self.new.asked ≡ self.old.asked }
    {
        self.phase = Phase::Start;
        match take_entries(alloc, &mut self.to_commit, entries, handler)? {
            Progress::GoesOn => {
                self.phase = next;
                Ok(Progress::GoesOn)
            }
            Progress::Stopped => Ok(Progress::Stopped),
        }
    }
}

/// Returns what is known of the group after a value. The group exists if entries were read from it, or if it
/// was created.
fn update_group_after_value(group: GroupState, asked: Asked) -> GroupState
    ensures { result ≡ by_value group asked }
{
    match asked {
        Asked::Nothing | Asked::Acknowledgement => group,
        Asked::Group | Asked::First | Asked::Own | Asked::Claim | Asked::New => GroupState::Known,
    }
}

/// Returns what an error says of the group: that it is missing, or that it exists. Only the first command of
/// all may find it missing.
fn update_group_after_error(
    make: MakeGroup,
    asked: Asked,
    error: &ServerError,
) -> Option<GroupState>
    ensures { result ≡ state_by (means make asked error.now.text.items) }
{
    match asked {
        Asked::Nothing | Asked::Acknowledgement | Asked::Own | Asked::Claim | Asked::New => None,
        Asked::Group => {
            if error.code() == b"BUSYGROUP".as_slice() {
                Some(GroupState::Known)
            } else {
                None
            }
        }
        Asked::First => {
            if make != MakeGroup::Never && error.code() == b"NOGROUP".as_slice() {
                Some(GroupState::Missing)
            } else {
                None
            }
        }
    }
}

/// Returns the error for an error reply, by its code.
fn convert_server_error(asked: Asked, error: ServerError) -> WorkerError
    requires { asked ≢ Asked.Nothing }
    ensures { IsRefused asked error.text.items result }
{
    if is_lost_group(asked, &error) {
        WorkerError::GroupIsGone(error)
    } else {
        WorkerError::Server(error)
    }
}

/// Whether an error reports that a known group is gone.
fn is_lost_group(asked: Asked, error: &ServerError) -> bool
    ensures { result ≡ is_gone asked error.now.text.items }
{
    match asked {
        Asked::Nothing | Asked::Acknowledgement | Asked::Group | Asked::First => false,
        Asked::Own | Asked::Claim | Asked::New => error.code() == b"NOGROUP".as_slice(),
    }
}
