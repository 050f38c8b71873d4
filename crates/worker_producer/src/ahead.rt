//! The commands of the next batch, made while a batch is on its way.
ghost use Rattle.std.specs.Prelude.{◌≡◌, [], IfSome, List, None, Option, false, true};
ghost use Rattle.std.specs.Option.{ForSome};
ghost use Rattle.worker_producer.specs.Ahead.{IsPrepared};
ghost use Rattle.worker_producer.specs.Machine.{Asks, standing_of};
ghost use Rattle.worker_producer.specs.Records.{Fields};
ghost use Rattle.model_server.specs.Once.Feed.{knows};

use crate::producer::Producer;
use crate::source::Source;
use crate::stage::{Asked, Stage};
use std::alloc::Global;

/// The commands that a producer sends once it knows that `known` records are added, and its state after them.
#[derive(Debug, Drop)]
pub(crate) struct Prepared {
    known: u64,
    bytes: Vec<u8>,
    asked: Asked,
    stage: Stage,
    coming: u64,
}

/// Returns the prepared bytes if some of them may be sent early, and none otherwise.
pub(crate) fn choose_early(ahead: &Option<Prepared>, is_early: bool) -> &[u8]
    ensures none { is_early ≡ false → result.now ≡ [] }
    ensures unprepared { ahead.now ≡ None → result.now ≡ [] }
    ensures all { is_early ≡ true → ForSome ahead.now (λ prepared. result.now ≡ prepared.bytes.items) }
{
    match ahead {
        Some(prepared) if is_early => &prepared.bytes,
        _ => &[],
    }
}

impl Producer {
    /// Prepares the batch after the one that is on its way. It returns `None` if no batch is, or if `request` fails: the
    /// next round then requests it again.
    pub(crate) fn prepare_next<S: Source>(
        &mut self,
        alloc: Global,
        source: &mut S,
    ) -> Option<Prepared>
        ensures prepared { IfSome result (IsPrepared self.old.settings (S.records source.old)) }
        ensures standing { standing_of self.new ≡ standing_of self.old }
        ensures settings { self.new.settings ≡ self.old.settings }
        ensures records { S.records source.new ≡ S.records source.old }
    {
        let (stage, coming) = (self.stage, self.coming);
        let Stage::Waits(batch) = stage else {
            return None;
        };
        let known = batch.known + batch.sent;
        self.stage = Stage::Knows(known);
        self.coming = 0;
        let prepared = self.prepare(alloc, source, known);
        self.stage = stage;
        self.coming = coming;
        prepared
    }

    /// Requests the batch after the first `known` records.
    fn prepare<S: Source>(&mut self, alloc: Global, source: &mut S, known: u64) -> Option<Prepared>
        requires { standing_of self.old ≡ record { stage = knows known; coming = 0 } }
        ensures prepared { IfSome result (IsPrepared self.old.settings (S.records source.old)) }
        ensures settings { self.new.settings ≡ self.old.settings }
        ensures records { S.records source.new ≡ S.records source.old }
    {
        let mut bytes = Vec::new(alloc);
        match self.request(alloc, &mut bytes, source) {
            Ok(asked) => Some(Prepared {
                known,
                bytes,
                asked,
                stage: self.stage,
                coming: self.coming,
            }),
            Err(_error) => None,
        }
    }

    /// The bytes of prepared commands, and what they ask, if they are the next ones of this producer.
    pub(crate) fn take_prepared(&mut self, prepared: Prepared) -> Option<(Vec<u8>, Asked)>
        ensures some { IfSome result (λ r. (all : Option (List Fields)) → IsPrepared self.old.settings all prepared
            → Asks self.old.settings all [] r.0.items (standing_of self.old) (standing_of self.new) r.1) }
        ensures none { result ≡ None → self.new ≡ self.old }
        ensures settings { self.new.settings ≡ self.old.settings }
    {
        match self.stage {
            Stage::Knows(known) => {
                if known != prepared.known || self.coming != 0 {
                    return None;
                }
            }
            Stage::Asking | Stage::Waits(_) => return None,
        }
        self.stage = prepared.stage;
        self.coming = prepared.coming;
        Some((prepared.bytes, prepared.asked))
    }
}
