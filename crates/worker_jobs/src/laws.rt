//! Laws of the lines and the replies, over the rounds of a worker.
ghost use Rattle.worker_jobs.specs.Acknowledged.{AcknowledgedWasReplied};
ghost use Rattle.worker_jobs.specs.Tell.{LinesTellEntries};

/// A line determines its entry and its stream: two equal lines have the same stream, id and fields, in the same
/// order. A line has no line end within it.
pub fn lines_tell_entries()
    ensures { LinesTellEntries }
{}

/// Over all rounds of a worker whose pipes are known, the lines of entries were sent in order. One reply was
/// received for each line, in the same order. Before an id is acknowledged, the reply to the line of its entry
/// was `done`, or the server reported that the entry was deleted.
pub fn acknowledged_was_replied()
    ensures { AcknowledgedWasReplied }
{}
