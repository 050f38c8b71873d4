//! What holds for a worker that checks its file for each entry, over each schedule with failovers.
ghost use Rattle.model_workers.specs.Failover.Keeps.{EntriesLookUp};
ghost use Rattle.model_workers.specs.Failover.Schedule.{CodeLosesNothing, CodeLosesNothingAdded, CodeWritesEachRecord};
ghost use Rattle.model_workers.specs.Failover.Schedule.{CodeWritesOnce, CodeWritesTheLog};
ghost use Rattle.model_workers.specs.Failover.Schedule.{RunsAreEvents, RunsWait};

/// A handler keeps entries, and adds none whose id it has. It handles a reply and a commit exactly as the
/// consumer of `model_server::failover` does.
pub fn entries_are_looked_up()
    ensures { EntriesLookUp }
{}

/// A worker whose handler checks its file (`LooksUp`) is the consumer of `model_server::failover`, in which the
/// server may return to an earlier state. This holds after each schedule (`Runs`) of rounds, failed or
/// unconfirmed rounds, broken connections, crashes with the start after them, and failovers. If the worker
/// makes its rounds by `round_confirmed`, a WAIT follows each of its requests for entries.
///
/// There are four premises. The worker gets the reply that the model's server sent. The reply to WAIT is the
/// one that this server sent. A start reads back at least the lines of its last commit. After a failover the
/// master is a replica that confirmed: that is the model's own premise.
pub fn rounds_are_those_of_failover<R>()
    ensures runs { RunsAreEvents R }
    ensures waits { RunsWait R }
{}

/// After each schedule no id is twice in the worker's file, with or without WAIT.
///
/// If the worker and the producer send WAIT, each entry of the file is in the log, with its own fields. This
/// holds after any failover, and no consumer gets such an entry as new. Each record that the producer knew to
/// be in the stream is undelivered, pending, in the file, or deleted. If the producer once reported that all
/// are added, the file of a drained stream has each record once. The last two laws need that no other client
/// adds or acknowledges (`NobodyElse`), and that the ids fit (`Fit`). If no client deletes, the worker need not
/// send WAIT for the first of these two.
pub fn the_code_writes_each_entry_once<R>()
    ensures once { CodeWritesOnce R }
    ensures of_log { CodeWritesTheLog R }
    ensures kept { CodeLosesNothing R }
    ensures added { CodeLosesNothingAdded R }
    ensures all { CodeWritesEachRecord R }
{}
