//! The calls of `worker_journal` on a worker's file, in the terms of the model.
ghost use Rattle.std.specs.Prelude.{IfOk, OnErr, OnOk};
ghost use Rattle.model_workers.specs.Files.Bound.{CommitsSo, KeepsSo, LeavesSo, OpensSo};

use std::alloc::Global;
use worker_journal::{LineLog, LogError, LogFile};

/// Opens a worker's file. Whatever bytes a crash left after the committed ones, the log has the
/// file that the worker has after `Reopens`.
pub fn open<D: LogFile + Drop>(alloc: Global, file: D) -> Result<LineLog<D>, LogError>
    ensures { IfOk result (λ log. D.is_sound file
        → OpensSo D.seen D.may_leave D.is_sound file log.file log.len log.is_broken) }
{
    LineLog::open(alloc, file)
}

/// Commits the gathered lines. After `Ok` the log has the file that the worker has after `Commits`. After `Err`
/// the log has the file that it had before. A crash at any moment of the call leaves what `MayLeave` allows.
pub fn commit<D: LogFile + Drop>(log: &mut LineLog<D>) -> Result<(), LogError>
    ensures committed { OnOk result (CommitsSo D.seen D.may_leave D.is_sound log.old.batch.items
        log.old.file log.old.len log.old.is_broken log.new.file log.new.len log.new.is_broken) }
    ensures failed { OnErr result (KeepsSo D.seen D.may_leave D.is_sound
        log.old.file log.old.len log.old.is_broken log.new.file log.new.len log.new.is_broken) }
    ensures any_moment { LeavesSo D.seen D.may_leave D.is_sound D.moment D.left_since
        log.old.file log.old.len log.old.is_broken log.new.file }
{
    log.commit()
}
