//! What holds after every schedule of additions, deletions, reads, claims, lost replies, commits
//! and crashes of workers that have a file each.
ghost use Rattle.model_workers.specs.Files.Bound.{HeldLeavesSo};
ghost use Rattle.model_workers.specs.Files.Law.{AcknowledgedIsInAFile, BeginsWithAllItReads, BeginsWithItsLines};
ghost use Rattle.model_workers.specs.Files.Law.{EachEntryIsKept, FilesAreOfTheLog, FilesGrow};
ghost use Rattle.model_workers.specs.Files.Law.{LettersAreOfTheLog, LettersStay, LinesAreOfTheLog};
ghost use Rattle.model_workers.specs.Files.Law.{RepairsToWholeLines, TextIsAForm};

use worker_journal::LogFile;

/// After any list of events each entry that was ever added is undelivered, or pending, or is a
/// line of some worker's file, or has a dead letter, or was deleted. No crash removes a line of a
/// file, and the line has the id of the entry and its fields in order.
pub fn each_entry_is_kept()
    ensures { EachEntryIsKept }
{}

/// Each acknowledged entry is a line of some worker's file, whatever a crash leaves of that file. Otherwise it
/// has a dead letter, or was deleted.
pub fn what_is_acknowledged_is_in_a_file()
    ensures { AcknowledgedIsInAFile }
{}

/// The bytes committed to a file remain in it, and a dead letter remains.
pub fn nothing_is_taken_back()
    ensures files { FilesGrow }
    ensures letters { LettersStay }
{}

/// Each dead letter is that of an entry of the log. If each crash leaves only a prefix of what a
/// commit writes, a file has only lines of such entries after its earlier content.
pub fn nothing_is_made_up()
    ensures letters { LettersAreOfTheLog }
    ensures files { FilesAreOfTheLog }
    ensures lines { LinesAreOfTheLog }
{}

/// A worker that is started again begins to acknowledge only ids of lines of its own file, of entries
/// that were added. If each crash leaves only a prefix, and its file was new, it starts with all
/// ids that it reads back, in order.
pub fn a_started_worker_acknowledges_its_lines()
    ensures only { BeginsWithItsLines }
    ensures all { BeginsWithAllItReads }
{}

/// The model's file is a file of `worker_journal`. The repair by `worker_journal` leaves the lines of the
/// model, and its lines of text are a form.
pub fn files_are_those_of_line_log()
    ensures repaired { RepairsToWholeLines }
    ensures text { TextIsAForm }
{}

/// Everything that a crash may leave of a log with a worker's file is allowed by `MayLeave`. So it has
/// the line of each entry that is in this file.
pub fn a_log_leaves_what_the_model_says<D: LogFile>()
    ensures { HeldLeavesSo D.seen D.may_leave D.is_sound }
{}
