//! Takes replies without a copy of their entries.
ghost use Rattle.std.specs.Prelude.{◌≡◌, IfErr, IfOk, Some, true};
ghost use Rattle.redis_resp.specs.Tree.{Tree};
ghost use Rattle.stream_in_place.specs.SentReading.{sent_autoclaim_reading, sent_streams_reading};
ghost use Rattle.worker.specs.Handed.{entries_sent};
ghost use Rattle.worker.specs.InPlace.{FailedInPlace, TakenByValue, TakenInPlace, WentInPlace, in_answer};
ghost use Rattle.worker.specs.Machine.{Moved, ending_said, machine_of};
ghost use Rattle.worker.specs.Parts.{reads_own};
ghost use Rattle.worker.specs.Questions.{phase_of};
ghost use Rattle.worker.specs.Session.{standing_of};
ghost use Rattle.worker.specs.Taking.{all_delivered};

use crate::entries::take_in_place;
use crate::error::{AnswerError, InPlaceError, WorkerError};
use crate::handler::Handler;
use crate::phases::{next_claim, next_own_in_place, next_round};
use crate::reading::{new_nil_id, nil_id_in_place, only_in_place};
use crate::state::{Asked, GroupState, Phase};
use crate::worker::{Progress, Worker};
use redis_wire::{Decoded, Limits, decode};
use std::alloc::{AllocError, Global};
use std::mem;
use stream_in_place::{AutoClaimRef, EntriesRef, EntryTape, StreamsRef};

impl Worker {
    /// Takes the reply to the last requested command, from the start of the bytes. The entries are passed to
    /// the handler as borrowed entries. If the reply has the form that servers write, only ids are copied:
    /// those to acknowledge, and the one to go on from. Any other reply is decoded, and taken as by `answered`.
    /// An error names the command.
    pub fn answered_in_place<H: Handler>(
        &mut self,
        alloc: Global,
        bytes: &[u8],
        limits: Limits,
        handler: &mut H,
    ) -> Result<Progress, InPlaceError>
        ensures ok { IfOk result (WentInPlace H.with_verdict self.old.settings limits bytes.now
            (standing_of self.old (H.history handler.old))
            (standing_of self.new (H.history handler.new))) }
        ensures err { IfErr result (FailedInPlace H.with_verdict self.old.settings limits bytes.now
            (standing_of self.old (H.history handler.old))
            (standing_of self.new (H.history handler.new))) }
        ensures settings { self.new.settings ≡ self.old.settings }
    {
        let mut tape = mem::replace(&mut self.tape, EntryTape::new(alloc));
        let result = self.take_with(alloc, &mut tape, bytes, limits, handler);
        self.tape = tape;
        result
    }

    /// Takes the reply at the start of the bytes, with these tables of offsets.
    fn take_with<H: Handler>(
        &mut self,
        alloc: Global,
        tape: &mut EntryTape,
        bytes: &[u8],
        limits: Limits,
        handler: &mut H,
    ) -> Result<Progress, InPlaceError>
        ensures taken { TakenInPlace H.with_verdict self.old.settings limits bytes.now
            (standing_of self.old (H.history handler.old))
            (standing_of self.new (H.history handler.new)) result }
        ensures settings { self.new.settings ≡ self.old.settings }
    {
        match self.asked {
            Asked::First => self.take_own_in_place(alloc, tape, bytes, limits, handler),
            Asked::Own => self.take_own_in_place(alloc, tape, bytes, limits, handler),
            Asked::Claim => self.take_claimed_in_place(alloc, tape, bytes, limits, handler),
            Asked::New => self.take_new_in_place(alloc, tape, bytes, limits, handler),
            Asked::Nothing | Asked::Acknowledgement | Asked::Group => {
                self.take_decoded(alloc, bytes, limits, handler)
            }
        }
    }

    /// Decodes and takes the reply at the start of the bytes.
    fn take_decoded<H: Handler>(
        &mut self,
        alloc: Global,
        bytes: &[u8],
        limits: Limits,
        handler: &mut H,
    ) -> Result<Progress, InPlaceError>
        ensures taken { TakenInPlace H.with_verdict self.old.settings limits bytes.now
            (standing_of self.old (H.history handler.old))
            (standing_of self.new (H.history handler.new)) result }
        ensures settings { self.new.settings ≡ self.old.settings }
    {
        match decode(alloc, bytes, limits) {
            Ok(Decoded::Complete { reply, .. }) => Ok(self.answered(alloc, reply, handler)?),
            Ok(Decoded::Incomplete) => Err(InPlaceError::Incomplete),
            Err(error) => Err(InPlaceError::Unread(error)),
        }
    }

    /// Takes a reply with the worker's own pending entries.
    fn take_own_in_place<H: Handler>(
        &mut self,
        alloc: Global,
        tape: &mut EntryTape,
        bytes: &[u8],
        limits: Limits,
        handler: &mut H,
    ) -> Result<Progress, InPlaceError>
        requires { reads_own self.old.asked ≡ true }
        ensures taken { TakenInPlace H.with_verdict self.old.settings limits bytes.now
            (standing_of self.old (H.history handler.old))
            (standing_of self.new (H.history handler.new)) result }
        ensures settings { self.new.settings ≡ self.old.settings }
    {
        let asked = self.asked;
        match tape.read_either_form(bytes, limits)? {
            Some(found) => {
                let outcome = self.take_found_own(alloc, found.streams, handler);
                name_answer_error(asked, outcome)
            }
            None => self.take_decoded(alloc, bytes, limits, handler),
        }
    }

    /// Takes a reply with claimed entries.
    fn take_claimed_in_place<H: Handler>(
        &mut self,
        alloc: Global,
        tape: &mut EntryTape,
        bytes: &[u8],
        limits: Limits,
        handler: &mut H,
    ) -> Result<Progress, InPlaceError>
        requires { self.old.asked ≡ Asked.Claim }
        ensures taken { TakenInPlace H.with_verdict self.old.settings limits bytes.now
            (standing_of self.old (H.history handler.old))
            (standing_of self.new (H.history handler.new)) result }
        ensures settings { self.new.settings ≡ self.old.settings }
    {
        let asked = self.asked;
        match tape.read_autoclaim(bytes, limits)? {
            Some(found) => {
                let outcome = self.take_found_claimed(alloc, found, handler);
                name_answer_error(asked, outcome)
            }
            None => self.take_decoded(alloc, bytes, limits, handler),
        }
    }

    /// Takes a reply with new entries.
    fn take_new_in_place<H: Handler>(
        &mut self,
        alloc: Global,
        tape: &mut EntryTape,
        bytes: &[u8],
        limits: Limits,
        handler: &mut H,
    ) -> Result<Progress, InPlaceError>
        requires { self.old.asked ≡ Asked.New }
        ensures taken { TakenInPlace H.with_verdict self.old.settings limits bytes.now
            (standing_of self.old (H.history handler.old))
            (standing_of self.new (H.history handler.new)) result }
        ensures settings { self.new.settings ≡ self.old.settings }
    {
        let asked = self.asked;
        match tape.read_either_form(bytes, limits)? {
            Some(found) => {
                let outcome = self.take_found_new(alloc, found.streams, handler);
                name_answer_error(asked, outcome)
            }
            None => self.take_decoded(alloc, bytes, limits, handler),
        }
    }

    /// Takes borrowed own pending entries of the worker.
    fn take_found_own<H: Handler>(
        &mut self,
        alloc: Global,
        streams: StreamsRef<'_>,
        handler: &mut H,
    ) -> Result<Progress, WorkerError>
        ensures taken { (t : Tree) → sent_streams_reading t ≡ Some streams.entry
            → TakenByValue H.with_verdict self.old.settings Asked.Own t (machine_of self.old)
            (machine_of self.new) (H.history handler.old) (H.history handler.new) result }
        ensures group { self.new.group ≡ GroupState.Known }
        ensures settings { self.new.settings ≡ self.old.settings }
        ensures asked { self.new.asked ≡ Asked.Nothing }
    {
        self.asked = Asked::Nothing;
        self.group = GroupState::Known;
        self.phase = Phase::Start;
        let Some(entries) = only_in_place(&self.settings.key, streams) else {
            return Err(WorkerError::OtherStream);
        };
        let next = next_own_in_place(alloc, &entries)?;
        Ok(self.take_in_place(alloc, entries, next, handler)?)
    }

    /// Takes borrowed claimed entries.
    fn take_found_claimed<H: Handler>(
        &mut self,
        alloc: Global,
        found: AutoClaimRef<'_>,
        handler: &mut H,
    ) -> Result<Progress, WorkerError>
        ensures taken { (t : Tree) → sent_autoclaim_reading t ≡ Some (record {
          next = found.entry.next_stream_id.now;
          claimed = found.entry.claimed;
          deleted = found.entry.deleted_ids;
        })
            → TakenByValue H.with_verdict self.old.settings Asked.Claim t (machine_of self.old)
            (machine_of self.new) (H.history handler.old) (H.history handler.new) result }
        ensures group { self.new.group ≡ GroupState.Known }
        ensures settings { self.new.settings ≡ self.old.settings }
        ensures asked { self.new.asked ≡ Asked.Nothing }
    {
        self.asked = Asked::Nothing;
        self.group = GroupState::Known;
        self.phase = Phase::Start;
        match nil_id_in_place(found.claimed.again()) {
            Some(id) => Err(WorkerError::NilFields(String::from_str(alloc, id)?)),
            None => {
                let next = next_claim(String::from_str(alloc, found.next_stream_id)?);
                Ok(self.take_in_place(alloc, Some(found.claimed), next, handler)?)
            }
        }
    }

    /// Takes borrowed new entries.
    fn take_found_new<H: Handler>(
        &mut self,
        alloc: Global,
        streams: StreamsRef<'_>,
        handler: &mut H,
    ) -> Result<Progress, WorkerError>
        ensures taken { (t : Tree) → sent_streams_reading t ≡ Some streams.entry
            → TakenByValue H.with_verdict self.old.settings Asked.New t (machine_of self.old)
            (machine_of self.new) (H.history handler.old) (H.history handler.new) result }
        ensures group { self.new.group ≡ GroupState.Known }
        ensures settings { self.new.settings ≡ self.old.settings }
        ensures asked { self.new.asked ≡ Asked.Nothing }
    {
        self.asked = Asked::Nothing;
        self.group = GroupState::Known;
        let phase = mem::replace(&mut self.phase, Phase::Start);
        let Some(entries) = only_in_place(&self.settings.key, streams) else {
            return Err(WorkerError::OtherStream);
        };
        match new_nil_id(&entries) {
            Some(id) => Err(WorkerError::NilFields(String::from_str(alloc, id)?)),
            None => {
                let next = next_round(self.settings.every, phase);
                Ok(self.take_in_place(alloc, entries, next, handler)?)
            }
        }
    }

    /// Passes borrowed entries to the handler, and goes on in this phase. If the handler stops before the last one, the
    /// worker begins again.
    fn take_in_place<H: Handler>(
        &mut self,
        alloc: Global,
        entries: Option<EntriesRef<'_>>,
        next: Phase,
        handler: &mut H,
    ) -> Result<Progress, AllocError>
        ensures moved { Moved H.with_verdict (all_delivered (entries_sent entries.entry))
            (phase_of next) (machine_of self.old) (machine_of self.new)
            (H.history handler.old) (H.history handler.new) (ending_said result) }
        ensures group { self.new.group ≡ self.old.group }
        ensures settings { self.new.settings ≡ self.old.settings }
        ensures asked { self.new.asked ≡ self.old.asked }
    {
        self.phase = Phase::Start;
        if let Some(entries) = entries {
            match take_in_place(alloc, &mut self.to_commit, entries, handler)? {
                Progress::GoesOn => {}
                Progress::Stopped => return Ok(Progress::Stopped),
            }
        }
        self.phase = next;
        Ok(Progress::GoesOn)
    }
}

/// Returns the result of a reply to this command. An error names the command.
fn name_answer_error(
    asked: Asked,
    outcome: Result<Progress, WorkerError>,
) -> Result<Progress, InPlaceError>
    ensures { result ≡ in_answer asked outcome }
{
    match outcome {
        Ok(progress) => Ok(progress),
        Err(error) => Err(InPlaceError::Answer(AnswerError { asked, error })),
    }
}
