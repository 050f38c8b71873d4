//! Laws of the gathered and the committed lines, over the rounds of a worker.
ghost use Rattle.stream_drain.specs.Failover.{LinesAreOfTheLog, LinesLookUp, LinesLoseNothing, LinesOnce};
ghost use Rattle.stream_drain.specs.Failover.{LinesAreTheRecords, StartsOverTheModel};
ghost use Rattle.stream_drain.specs.Filed.{AcknowledgedIsFiled};
ghost use Rattle.stream_drain.specs.Lived.{RoundsAreLived};
ghost use Rattle.stream_drain.specs.Once.{LooksUpAsTheModel, NoIdIsTwice, StartsLookingUp};
ghost use Rattle.stream_drain.specs.Resumed.{KnownAreThere, ResumedIsLived, StartsOverItsFile};
ghost use Rattle.stream_drain.specs.Tell.{LinesAreAForm, LinesTellEntries};
ghost use Rattle.stream_drain.specs.Written.{GathersItsLines};

/// The gathered text consists of the lines of the entries that are done and not committed, in order. The
/// committed text is the first content of the file, followed by the lines of the committed entries, in order.
/// Each verdict and each commit keeps this true.
pub fn gathers_its_lines()
    ensures { GathersItsLines }
{}

/// Each round of the handler is a round of a worker that did the entries of the handler's lines. Therefore the
/// laws of `worker` hold. Before an id is acknowledged, its entry was done and committed, or the server
/// reported that it was deleted. The loop reports exactly the deleted entries that the replies of its rounds
/// report.
pub fn rounds_are_lived()
    ensures { RoundsAreLived }
{}

/// Before an id is acknowledged, each file that begins with the committed lines has a line with this id. Otherwise
/// the server reported that the entry was deleted. A crash leaves only such files, as `LineLog::commit` ensures.
/// This is not about entries that `--dead` gives up.
pub fn acknowledged_is_filed()
    ensures { AcknowledgedIsFiled }
{}

/// Let the file consist of lines of entries, and let a start with `--look-up` know the ids of its lines. Then each
/// known id has a line, as `acknowledged_is_filed` requires.
pub fn known_are_there()
    ensures { KnownAreThere }
{}

/// Let a worker start by acknowledging the entries of the last lines of its file. Then it is in a state after
/// these entries were committed. Therefore the laws above hold from its start.
pub fn resumed_is_lived()
    ensures { ResumedIsLived }
{}

/// If the file consists of lines of entries, the start of the program is a start of `model_workers::system`,
/// with the ids of the last lines. For such starts the law of that crate says that no id has two lines in a
/// file.
pub fn starts_over_its_file()
    ensures { StartsOverItsFile }
{}

/// A line determines its entry, in text and in JSON. Two entries with the same line have the same id, and the
/// same fields in the same order.
pub fn lines_tell_entries()
    ensures { LinesTellEntries }
{}

/// The lines are a form of `model_workers::files`, in text and in JSON. Therefore the laws of
/// `model_workers::files` and `model_workers::system` hold for lines of entries whose names and values are
/// bytes. All entries are such entries.
pub fn lines_are_a_form()
    ensures { LinesAreAForm }
{}

/// With `--look-up` no id has two lines in the file. This holds after every schedule of rounds, failures,
/// crashes and starts, whatever the server delivers.
///
/// The premises are that no id had two lines at first, and that each start knows the ids of the file. Also, a
/// crash must leave a prefix of the gathered lines. The program satisfies the premise on starts if its file
/// consists of lines of entries.
pub fn no_id_is_twice()
    ensures twice { NoIdIsTwice }
    ensures starts { StartsLookingUp }
{}

/// The consumer of `model_server::failover` also looks up each entry in its file. The handler's lines and that
/// consumer's file change in the same manner: with each reply, each commit, and each crash followed by a start.
/// The law of that crate says that no id occurs twice in the file, with any server.
pub fn looks_up_as_the_model()
    ensures { LooksUpAsTheModel }
{}

/// With `--look-up` the worker and its file are the consumer of `model_server::failover`, after each schedule
/// `Runs` of `model_workers::failover`. Such a schedule consists of rounds, failures, crashes followed by a
/// start, and failovers. Therefore no id has two lines. Each start over a file whose ids are known is a start
/// of that model.
///
/// Let the program use `--wait`, and let the producer send `WAIT` too. Then after any failover each entry of
/// the file is in the log, and is delivered to nobody as new. Each record that the producer counted as added is
/// not yet delivered, is pending, has a line, or was deleted. After the stream is drained, the file has each
/// record once. The premises are those of `model_workers::failover`.
pub fn is_the_consumer_of_failover()
    ensures looks_up { LinesLookUp }
    ensures starts { StartsOverTheModel }
    ensures once { LinesOnce }
    ensures of_log { LinesAreOfTheLog }
    ensures kept { LinesLoseNothing }
    ensures all { LinesAreTheRecords }
{}
