//! A worker's handler with an outbox.
ghost use Rattle.std.specs.Prelude.{◌≡◌, ◌++◌, ℕ, [], List, IfErr, IfOk, IsErr, OnErr, OnOk};
ghost use Rattle.model_server.specs.Group.Worker as machine;
ghost use Rattle.worker.specs.Outbox.Posts.{FailsPosting, Posts, PostsRound, committed_after, posted_too, posts_by};
ghost use Rattle.worker.specs.Outbox.Sent.{SendsAll, SendsSome, SendsSomeBy, unsent_of};
ghost use Rattle.stream_in_place.specs.Sent.{Pairs};
ghost use Rattle.worker.specs.Handling.{pair_of, verdict_of};
ghost use Rattle.worker.specs.Session.{standing_of};

use crate::outbox::error::{OutboxError, PostError};
use crate::outbox::outbox::Outbox;
use crate::{EntryRef, Handler, NotCommitted, Round, Verdict, Worker};
use redis_connection::Connection;
use std::alloc::Global;
use std::io::{Read, Write};

/// The work on entries, and the commands that are sent for them.
pub trait Work {
    ghost History: { Type 0 };

    /// The history after one more verdict.
    ghost with_verdict: { History → List ℕ × Pairs → machine.Verdict → History };

    /// The history after one more commit.
    ghost with_commit: { History → History };

    /// Returns the history so far.
    ghost history: { Self → History };

    /// The relation between the work before a failed commit and the work after it.
    ghost commit_failed: { Self → Self → Type 0 } = { λ _ _. Unit {0} };

    /// The commands that are sent for an entry with this verdict, each as its bytes.
    ghost posts: { History → List ℕ × Pairs → machine.Verdict → List (List ℕ) };

    /// Handles an entry, and puts the commands for it into the outbox.
    fn handle(&mut self, alloc: Global, entry: &EntryRef<'_>, outbox: &mut Outbox) -> Verdict
        ensures history { history self.new ≡ with_verdict (history self.old)
            (pair_of entry.now) (verdict_of result) }
        ensures posts { unsent_of outbox.new ≡ unsent_of outbox.old
            ++ posts (history self.old) (pair_of entry.now) (verdict_of result) };

    /// Makes all its work durable. This is called after every command got its reply.
    fn commit(&mut self, alloc: Global) -> Result<(), NotCommitted>
        ensures ok { OnOk result (history self.new ≡ with_commit (history self.old)) }
        ensures err { OnErr result (history self.new ≡ history self.old) }
        ensures failed { IsErr result → commit_failed self.old self.new };
}

/// The handler of a worker: work with its outbox. The handler commits nothing while a command is in the outbox.
#[derive(Drop)]
pub struct Posting<W: Work + Drop> {
    /// The work.
    pub work: W,
    outbox: Outbox,
}

impl<W: Work + Drop> Posting<W> {
    /// Work with an empty outbox. Allocates nothing.
    pub fn new(alloc: Global, work: W) -> Posting<W>
        ensures work { result.work ≡ work }
        ensures outbox { unsent_of result.outbox ≡ [] }
    {
        Posting {
            work,
            outbox: Outbox::new(alloc),
        }
    }

    /// Makes a round, and then sends what is in the outbox, and takes a reply to each command.
    ///
    /// After `Outbox` call `send` over the next connection, before the next round: until then the worker acknowledges
    /// none of the entries.
    pub fn round<R: Read + Drop, O: Write + Drop>(
        &mut self,
        alloc: Global,
        connection: &mut Connection<R, O>,
        worker: &mut Worker,
    ) -> Result<Round, PostError>
        ensures ok { IfOk result (λ round. PostsRound (posted_too W.with_verdict W.posts)
            (committed_after W.with_commit) worker.old.settings connection.old connection.new
            (standing_of worker.old (⟦<Posting<W> as Handler>⟧.history self.old))
            (standing_of worker.new (⟦<Posting<W> as Handler>⟧.history self.new)) round.asked round.progress) }
        ensures err { IfErr result (FailsPosting (posted_too W.with_verdict W.posts)
            (committed_after W.with_commit) worker.old.settings connection.old connection.new
            (standing_of worker.old (⟦<Posting<W> as Handler>⟧.history self.old))
            (standing_of worker.new (⟦<Posting<W> as Handler>⟧.history self.new))) }
        ensures settings { worker.new.settings ≡ worker.old.settings }
    {
        let round = match worker.round(alloc, connection, self) {
            Ok(round) => round,
            Err(error) => return Err(PostError::Round(error)),
        };
        match self.outbox.send(alloc, connection) {
            Ok(()) => Ok(round),
            Err(error) => Err(PostError::Outbox(error)),
        }
    }

    /// Sends the commands that an earlier `round` or `send` left in the outbox, as `Outbox::send` does.
    pub fn send<R: Read + Drop, O: Write + Drop>(
        &mut self,
        alloc: Global,
        connection: &mut Connection<R, O>,
    ) -> Result<(), OutboxError>
        ensures ok { OnOk result ((unsent_of self.new.outbox ≡ [])
            × SendsAll (unsent_of self.old.outbox) connection.old connection.new) }
        ensures err { OnErr result (SendsSome (unsent_of self.old.outbox) (unsent_of self.new.outbox)
            connection.old connection.new) }
        ensures cause { IfErr result (λ e. SendsSomeBy e (unsent_of self.old.outbox) (unsent_of self.new.outbox)
            connection.old connection.new) }
        ensures work { self.new.work ≡ self.old.work }
    {
        self.outbox.send(alloc, connection)
    }
}

impl<W: Work + Drop> Handler for Posting<W> {
    ghost History = { Posts W.History };

    ghost with_verdict = { posted_too W.with_verdict W.posts };

    ghost with_commit = { committed_after W.with_commit };

    ghost history = { λ p. posts_by (W.history p.work) (unsent_of p.outbox) };

    ghost commit_failed = { λ old new. unsent_of old.outbox ≡ [] → W.commit_failed old.work new.work };

    fn handle(&mut self, alloc: Global, entry: &EntryRef<'_>) -> Verdict {
        self.work.handle(alloc, entry, &mut self.outbox)
    }

    /// Commits the work, unless a command is in the outbox.
    fn commit(&mut self, alloc: Global) -> Result<(), NotCommitted>
        ensures history { OnOk result (⟦<Posting<W> as Handler>⟧.history self.new
            ≡ committed_after W.with_commit (⟦<Posting<W> as Handler>⟧.history self.old)) }
        ensures history_kept { OnErr result (⟦<Posting<W> as Handler>⟧.history self.new
            ≡ ⟦<Posting<W> as Handler>⟧.history self.old) }
        ensures sent { OnOk result (unsent_of self.old.outbox ≡ []) }
        ensures failed { IsErr result → unsent_of self.old.outbox ≡ []
            → W.commit_failed self.old.work self.new.work }
    {
        if !self.outbox.is_empty() {
            return Err(NotCommitted);
        }
        self.work.commit(alloc)
    }
}
