//! What holds after every schedule of workers over one server, each with a file of lines.
ghost use Rattle.model_workers.specs.System.Alone.{CodeIsCountedAlone};
ghost use Rattle.model_workers.specs.System.Desks.{AsksAsItDoes, LettersAreMoves, OthersLeaveTheDesk, PostsAreMoves};
ghost use Rattle.model_workers.specs.System.Desks.{StartsWithANewDesk};
ghost use Rattle.model_workers.specs.System.Drained.{EnoughRoundsDrain, OneRoundIsOne};
ghost use Rattle.model_workers.specs.System.Law.{AcknowledgedIsSettled, EachEntryIsKept, LettersAreOfTheLog, LettersStay};
ghost use Rattle.model_workers.specs.System.Once.{CodeKeepsEach, CodeWritesInOrder, CodeWritesOnce};
ghost use Rattle.model_workers.specs.System.Once.{CodeWritesTheLog, CodeWritesTheRecords, FailuresAreEvents};
ghost use Rattle.model_workers.specs.System.Once.{RoundsAreEvents, RoundsRun, RunsAreEvents, SessionsRun};
ghost use Rattle.model_workers.specs.System.Once.{StartsAreEvents, StartsReadEnough};
ghost use Rattle.model_workers.specs.System.Rounds.{FailuresAreMoves, OthersChangeNothing, RoundsAreMoves, StartsAreMoves};

/// After any moves each entry that was ever added is undelivered, pending, deleted, or a line of some worker's
/// file, whatever a crash leaves of that file. Otherwise its dead letter was added and the reply arrived. Each
/// acknowledged entry is a line of some file, has such a letter, or was deleted. The premise is that a worker,
/// and its queue of dead letters, get only replies that are on their way to the worker (`AllHearTruly`).
pub fn each_entry_is_kept()
    ensures kept { EachEntryIsKept }
    ensures acknowledged { AcknowledgedIsSettled }
{}

/// A dead letter remains, whatever moves follow. Each dead letter is that of an entry that was added, and has
/// the fields of that entry in order.
pub fn letters_stay()
    ensures stay { LettersStay }
    ensures of_the_log { LettersAreOfTheLog }
{}

/// The contract of `Worker::round` describes a list of moves of the worker. These moves lead to the state of
/// the worker after a round, whether the round returns `Ok` or fails. Moves of the server and of other workers
/// do not change this state.
pub fn rounds_are_moves()
    ensures others { OthersChangeNothing }
    ensures rounds { RoundsAreMoves }
    ensures failures { FailuresAreMoves }
{}

/// The contracts of `DeadLetters` describe moves of a worker's queue of dead letters. An entry that is given up is
/// appended to it. For its first entry the queue sends the XADD of the dead letter, and after the reply the XACK of
/// that entry. After each reply the queue is in the state that its moves lead to, whatever others do meanwhile.
pub fn desks_are_moves()
    ensures posts { PostsAreMoves }
    ensures asks { AsksAsItDoes }
    ensures letters { LettersAreMoves }
    ensures starts { StartsWithANewDesk }
    ensures others { OthersLeaveTheDesk }
{}

/// The contracts of `Worker::resumed` and `Worker::new` describe a move of the worker, after a crash that left
/// any bytes after the committed ones. The premise is that the worker gets ids of entries that are committed,
/// and that are lines of its file.
pub fn starts_are_moves()
    ensures { StartsAreMoves }
{}

/// A worker's round that returns `Ok` is a round of `model_server::rounds`, if the server delivers its page and the
/// handler returns `done` for each entry. Enough of such rounds, with nothing between them, lead to a world where
/// no entry is pending or undelivered.
pub fn rounds_that_hear_the_page_are_rounds()
    ensures round { OneRoundIsOne }
    ensures drains { EnoughRoundsDrain }
{}

/// The contracts of `Worker::round`, `Worker::new` and `Worker::resumed` describe events of the consumer of
/// `model_server::once`. These are a round that returns `Ok`, a round that fails, and a crash with the start
/// after it. So after each schedule of these events (`Runs`) the worker and its file are that consumer. The
/// rounds of `Worker::run` are rounds of such a schedule too.
///
/// The premise of a round is that the worker gets the reply of the model's server to its request
/// (`HearsTheAnswer`). The premise of a start is that it reads back the lines of the last commit. This
/// holds if no reply had more entries than it reads lines.
pub fn rounds_are_those_of_once()
    ensures rounds { RoundsAreEvents }
    ensures failures { FailuresAreEvents }
    ensures starts { StartsAreEvents }
    ensures one { RoundsRun }
    ensures sessions { SessionsRun }
    ensures runs { RunsAreEvents }
    ensures enough { StartsReadEnough }
{}

/// After each schedule of the code no id is twice in the worker's file, and each entry of the file is in
/// the log, with its own fields. Each entry of the log is undelivered, or pending, or in the file, or
/// was deleted, if nobody else acknowledges. If the worker reads all in order (`AllInOrder`), the file
/// is a prefix of the log. It is the records once all are in and the stream is drained.
pub fn the_code_writes_each_entry_once()
    ensures once { CodeWritesOnce }
    ensures of_log { CodeWritesTheLog }
    ensures kept { CodeKeepsEach }
    ensures first { CodeWritesInOrder }
    ensures all { CodeWritesTheRecords }
{}

/// After each schedule of the code whose workers are started with `one_at_a_time`, a pending entry that was
/// delivered `n` times was delivered by itself at least `n - 1` times. So no entry is given up because another
/// one of its batch ends the process.
///
/// The premise is that the server respects COUNT, and redelivers to others one entry at a time
/// (`AllKeepToCount`).
pub fn the_code_counts_each_entry_alone()
    ensures { CodeIsCountedAlone }
{}
