//! A producer.
ghost use Rattle.std.specs.Prelude.{◌≡◌, ◌⊎◌, ◌+◌, ◌<◌, ◌≤◌, ◌^◌, ◌++◌, IfErr, IfOk, OnErr, OnOk, false, length, map};
ghost use Rattle.std.specs.Prelude.{IfSome, string_bytes, true};
ghost use Rattle.redis_wire.specs.Reply.{answer};
ghost use Rattle.worker_producer.specs.Executed.{IsExpected};
ghost use Rattle.worker_producer.specs.Learnt.{Learns, Took, Unlearnt, Untaken};
ghost use Rattle.worker_producer.specs.Machine.{Asks, AsksNone, Sends, Sent, Unsent, idle};
ghost use Rattle.worker_producer.specs.Machine.{stage_of, standing_of};
ghost use Rattle.worker_producer.specs.Records.{fields_of};
ghost use Rattle.worker_producer.specs.Replies.{is_executed};
ghost use Rattle.worker_producer.specs.Sentences.{ask_bytes, batch_bytes, head_of};
ghost use Rattle.worker_producer.specs.Unheard.{IsCause, IsNoError, IsUnexecuted};
ghost use Rattle.worker_producer.specs.declared.error.RequestError.TheVariants as causes;
ghost use Rattle.worker_producer.specs.declared.stage.Stage.TheVariants as stages;
ghost use Rattle.model_server.specs.Once.Feed.{asking, knows, numbered, waits};

use crate::batch::{append_batch, append_question};
use crate::error::{FeedError, RequestError};
use crate::executed::read_executed;
use crate::executed_reply::ExecutedReply;
use crate::last_id::read_last_id;
use crate::settings::Settings;
use crate::source::{Record, Source};
use crate::stage::{Asked, OnTheWay, Stage};
use redis_wire::Reply;
use std::alloc::Global;
use std::mem;

/// A producer that adds records to a stream, without input and output: `request` writes the next bytes to send, and
/// `answered` takes each reply. Each record is added once and in order, whatever fails, as long as no other client adds
/// to the stream.
#[derive(Debug, Drop)]
pub struct Producer {
    settings: Settings,
    pub(crate) stage: Stage,
    /// The number of replies still expected.
    pub(crate) coming: u64,
}

impl Producer {
    /// A producer that does not know the last id yet.
    pub fn new(settings: Settings) -> Producer
        ensures { result ≡ record { settings = settings; stage = Stage.Asking; coming = 0 } }
    {
        Producer {
            settings,
            stage: Stage::Asking,
            coming: 0,
        }
    }

    /// The current stage.
    pub fn stage(&self) -> Stage
        ensures { result ≡ self.now.stage }
    {
        self.stage
    }

    /// The number of replies still expected.
    pub fn coming(&self) -> u64
        ensures { result ≡ self.now.coming }
    {
        self.coming
    }

    /// Calls the source's `read_ahead` if a batch is on its way, since the records after it are read next.
    pub(crate) fn announce_next<S: Source>(&self, alloc: Global, source: &mut S)
        ensures { S.records source.new ≡ S.records source.old }
    {
        if let Stage::Waits(batch) = self.stage {
            source.read_ahead(alloc, batch.known + batch.sent, self.settings.batch);
        }
    }

    /// Counts down the expected replies.
    pub(crate) fn count_reply(&mut self)
        requires { 0 < self.old.coming }
        ensures coming { self.new.coming + 1 ≡ self.old.coming }
        ensures stage { self.new.stage ≡ self.old.stage }
        ensures settings { self.new.settings ≡ self.old.settings }
    {
        self.coming -= 1;
    }

    /// The bytes of the reply to EXEC if each record of the batch that is on its way is added; `None` if no batch is on
    /// its way, or if memory ran out.
    pub(crate) fn expect_executed(&self, alloc: Global) -> Option<ExecutedReply>
        ensures { IfSome result (λ reply. IsExpected self.now.settings.base self.now.stage reply.before reply.sent) }
    {
        let Stage::Waits(batch) = self.stage else {
            return None;
        };
        let Ok(before) = compute_id_before(self.settings.base, batch.known, batch.sent) else {
            return None;
        };
        ExecutedReply::new(alloc, before, batch.sent).ok()
    }

    /// The batch on its way, if it has this number of records and its last reply comes next.
    pub(crate) fn last_reply_of(&self, sent: u64) -> Option<OnTheWay>
        ensures stage { IfSome result (λ batch. self.now.stage ≡ stages.Waits batch) }
        ensures sent { IfSome result (λ batch. batch.sent ≡ sent) }
        ensures coming { IfSome result (λ _. self.now.coming ≡ 1) }
    {
        match self.stage {
            Stage::Waits(batch) => {
                if self.coming != 1 || batch.sent != sent {
                    return None;
                }
                Some(batch)
            }
            Stage::Asking | Stage::Knows(_) => None,
        }
    }

    /// Takes the last reply to a batch whose records are all added.
    pub(crate) fn count_executed(&mut self, batch: OnTheWay)
        ensures coming { self.new.coming ≡ 0 }
        ensures stage { stage_of self.new.stage ≡ knows (batch.known + batch.sent) }
        ensures settings { self.new.settings ≡ self.old.settings }
    {
        self.stage = Stage::Knows(batch.known + batch.sent);
        self.coming = 0;
    }

    /// Records that the connection was closed: no more replies are expected, and it reads the last id next. Call it
    /// also after a `FeedError` after which you close the connection.
    pub fn disconnected(&mut self)
        ensures standing { standing_of self.new ≡ idle }
        ensures settings { self.new.settings ≡ self.old.settings }
    {
        self.stage = Stage::Asking;
        self.coming = 0;
    }

    /// Appends the bytes to send next: `XINFO STREAM key` if it does not know the last id; else `MULTI`, `XADD` of each
    /// record of the next batch, and `EXEC`, or nothing if all records are added. It appends nothing while replies are
    /// expected. An `Err` appends nothing, and the next call requests the same again.
    #[tactic(auto, using(crate::proofs::TakenLemmas::still_to_come, crate::proofs::TakenLemmas::none_to_come))]
    pub fn request<S: Source>(
        &mut self,
        alloc: Global,
        out: &mut Vec<u8>,
        source: &mut S,
    ) -> Result<Asked, RequestError>
        ensures ok { IfOk result (Asks self.old.settings (S.records source.old)
            out.old.items out.new.items (standing_of self.old) (standing_of self.new)) }
        ensures err { IfErr result (AsksNone self.old.settings (S.records source.old)
            (standing_of self.old)) }
        ensures err_bytes { OnErr result (out.new.items ≡ out.old.items) }
        ensures err_standing { OnErr result (standing_of self.new ≡ standing_of self.old) }
        ensures settings { self.new.settings ≡ self.old.settings }
        ensures records { S.records source.new ≡ S.records source.old }
    {
        if self.coming > 0 {
            return Ok(Asked::Nothing);
        }
        match self.stage {
            Stage::Asking => self.ask(alloc, out),
            Stage::Knows(known) => self.send(alloc, out, known, source),
            Stage::Waits(_) => Ok(Asked::Nothing),
        }
    }

    /// Appends the command for the last id.
    fn ask(&mut self, alloc: Global, out: &mut Vec<u8>) -> Result<Asked, RequestError>
        ensures bytes { OnOk result (out.new.items
            ≡ out.old.items ++ ask_bytes (string_bytes self.old.settings.key)) }
        ensures standing { OnOk result (self.new ≡ record self.old { coming = 1 }) }
        ensures asked { IfOk result (λ a. a ≡ Asked.LastId) }
        ensures err { IfErr result (λ e. (e ≡ causes.TooLong) ⊎ (e ≡ causes.Memory)) }
        ensures err_bytes { OnErr result (out.new.items ≡ out.old.items) }
        ensures err_self { OnErr result (self.new ≡ self.old) }
    {
        append_question(alloc, out, self.settings.key.as_str())?;
        self.coming = 1;
        Ok(Asked::LastId)
    }

    /// Appends a batch of the records after the first `known` ones; nothing if there are none.
    fn send<S: Source>(
        &mut self,
        alloc: Global,
        out: &mut Vec<u8>,
        known: u64,
        source: &mut S,
    ) -> Result<Asked, RequestError>
        requires stage { self.old.stage ≡ Stage.Knows known }
        requires coming { self.old.coming ≡ 0 }
        ensures ok { IfOk result (Sends self.old.settings (S.records source.old) out.old.items
            out.new.items (knows known) (standing_of self.new)) }
        ensures err { IfErr result (AsksNone self.old.settings (S.records source.old)
            (record { stage = knows known; coming = 0 })) }
        ensures err_bytes { OnErr result (out.new.items ≡ out.old.items) }
        ensures err_self { OnErr result (self.new ≡ self.old) }
        ensures settings { self.new.settings ≡ self.old.settings }
        ensures records { S.records source.new ≡ S.records source.old }
    {
        let records = source.read(alloc, known, self.settings.batch)?;
        self.send_read(alloc, out, known, &records)
    }

    /// Appends a batch of these records; nothing if there are none.
    fn send_read(
        &mut self,
        alloc: Global,
        out: &mut Vec<u8>,
        known: u64,
        records: &[Record],
    ) -> Result<Asked, RequestError>
        requires stage { self.old.stage ≡ Stage.Knows known }
        requires coming { self.old.coming ≡ 0 }
        ensures ok { IfOk result (Sent self.old.settings
            (numbered (self.old.settings.base + known) (map fields_of records.now))
            out.old.items out.new.items (knows known) (standing_of self.new)) }
        ensures err { IfErr result (Unsent (self.old.settings.base + known + length records.now)) }
        ensures err_bytes { OnErr result (out.new.items ≡ out.old.items) }
        ensures err_self { OnErr result (self.new ≡ self.old) }
        ensures settings { self.new.settings ≡ self.old.settings }
    {
        if records.is_empty() {
            return Ok(Asked::Nothing);
        }
        self.send_records(alloc, out, known, records)
    }

    /// Appends a batch of these records, of which there is at least one.
    fn send_records(
        &mut self,
        alloc: Global,
        out: &mut Vec<u8>,
        known: u64,
        records: &[Record],
    ) -> Result<Asked, RequestError>
        ensures bytes { OnOk result (out.new.items
            ≡ out.old.items ++ batch_bytes (head_of self.old.settings)
            (numbered (self.old.settings.base + known) (map fields_of records.now))) }
        ensures standing { OnOk result (standing_of self.new ≡ record {
          stage = waits known (length records.now);
          coming = length records.now + 2;
        }) }
        ensures asked { IfOk result (λ a. a ≡ Asked.Records) }
        ensures fits { OnOk result (self.old.settings.base + known + length records.now < 2 ^ 64) }
        ensures err { IfErr result (Unsent (self.old.settings.base + known + length records.now)) }
        ensures err_bytes { OnErr result (out.new.items ≡ out.old.items) }
        ensures err_self { OnErr result (self.new ≡ self.old) }
        ensures settings { self.new.settings ≡ self.old.settings }
    {
        let sent = records.len() as u64;
        let before = compute_id_before(self.settings.base, known, sent)?;
        append_batch(alloc, out, &self.settings, before, records)?;
        self.stage = Stage::Waits(OnTheWay { known, sent });
        self.coming = sent + 2;
        Ok(Asked::Records)
    }

    /// Takes the next reply to the last request. `count` is how many records there are. Of the replies to a
    /// batch the last one counts, that of `EXEC`; an error before it is returned, and the others are still expected.
    /// After an error in the last one it reads the last id.
    #[tactic(auto, using(crate::proofs::TakenLemmas::taken))]
    pub fn answered(&mut self, alloc: Global, reply: Reply, count: u64) -> Result<(), FeedError>
        ensures ok { OnOk result (Took self.old.settings.base count (standing_of self.old)
            (standing_of self.new) (answer reply)) }
        ensures err { IfErr result (Untaken self.old.settings.base count (standing_of self.old)
            (standing_of self.new) (answer reply)) }
        ensures settings { self.new.settings ≡ self.old.settings }
    {
        if self.coming > 1 {
            self.coming -= 1;
            return take_queued(reply);
        }
        if self.coming == 0 {
            return Err(FeedError::NotAsked);
        }
        self.coming = 0;
        let stage = mem::replace(&mut self.stage, Stage::Asking);
        self.stage = compute_stage(alloc, self.settings.base, stage, reply, count)?;
        Ok(())
    }
}

/// The number in the id of the record before these. The ids of all of them fit 64 bits.
fn compute_id_before(base: u64, known: u64, sent: u64) -> Result<u64, RequestError>
    ensures ok { IfOk result (λ before. (before ≡ base + known) × (before + sent < 2 ^ 64)) }
    ensures err { IfErr result (λ e. (e ≡ causes.NoIdLeft) × (2 ^ 64 ≤ base + known + sent)) }
{
    match base.checked_add(known) {
        Some(before) => {
            if before.checked_add(sent).is_some() {
                Ok(before)
            } else {
                Err(RequestError::NoIdLeft)
            }
        }
        None => Err(RequestError::NoIdLeft),
    }
}

/// The stage after the last reply.
#[tactic(auto, using(crate::proofs::TakenLemmas::learnt_executed))]
fn compute_stage(
    alloc: Global,
    base: u64,
    stage: Stage,
    reply: Reply,
    count: u64,
) -> Result<Stage, FeedError>
    ensures ok { IfOk result (λ next. Learns base count (stage_of stage) (stage_of next)
        (answer reply)) }
    ensures err { IfErr result (Unlearnt base count (stage_of stage) (answer reply)) }
{
    match stage {
        Stage::Asking => compute_stage_by_last_id(alloc, base, reply, count),
        Stage::Waits(batch) => {
            read_executed(reply, batch.sent)?;
            Ok(Stage::Knows(batch.known + batch.sent))
        }
        Stage::Knows(_) => Err(FeedError::NotAnAnswer),
    }
}

/// How many records are added, by the last id: none if it is at or below the base.
fn compute_stage_by_last_id(
    alloc: Global,
    base: u64,
    reply: Reply,
    count: u64,
) -> Result<Stage, FeedError>
    ensures ok { IfOk result (λ next. Learns base count asking (stage_of next) (answer reply)) }
    ensures err { IfErr result (Unlearnt base count asking (answer reply)) }
{
    let (last, second) = read_last_id(alloc, reply)?;
    if last <= base {
        return Ok(Stage::Knows(0));
    }
    if second != 0 || last > base.saturating_add(count) {
        return Err(FeedError::OtherWriter);
    }
    Ok(Stage::Knows(last - base))
}

/// Checks that the reply to a command before EXEC is not an error.
fn take_queued(reply: Reply) -> Result<(), FeedError>
    ensures ok { OnOk result (IsNoError (answer reply)) }
    ensures err { IfErr result (IsCause (answer reply)) }
{
    match reply {
        Reply::Error(error) => Err(FeedError::Server(error)),
        _ => Ok(()),
    }
}
