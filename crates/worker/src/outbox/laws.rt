//! A law of commands in an outbox.
ghost use Rattle.worker.specs.Outbox.Posts.{NothingIsEarly};

use crate::outbox::posting::Work;

/// A round that commits begins with an empty outbox: each command of the entries before it got its reply. This
/// holds for each `Turned` of a worker over `Posting`, since a `Posting` commits nothing early.
pub fn nothing_is_early<W: Work>()
    ensures { NothingIsEarly W.with_verdict W.with_commit W.posts }
{}
