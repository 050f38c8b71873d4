//! Laws of producers over every schedule.
ghost use Rattle.worker_producer.specs.Confirmed.{NoneIsUnconfirmed, UnconfirmedAreRounds, UnconfirmedBreakOff};
ghost use Rattle.worker_producer.specs.Failover as failover;
ghost use Rattle.worker_producer.specs.Records.{Fields};
ghost use Rattle.worker_producer.specs.Schedule.{AskingNothingIsAll, BreaksAreEvents, BrokenSessionsRun, CodeAddsFirstRecords};
ghost use Rattle.worker_producer.specs.Schedule.{CodeAddsOnce, CodeKnowsWhatIsIn, FinishedIsAll, RoundsAreEvents, RoundsSendIt};
ghost use Rattle.worker_producer.specs.Schedule.{RunsAreEvents, SessionsRun, StartsAreEvents, ToldRecordsAreSent};
ghost use Rattle.worker_producer.specs.Step.{AnswersStayInStep, BreaksStayInStep, RequestsStayInStep};
ghost use Rattle.model_server.specs.Once.Law.{DoneIsAll, KnownIsIn, LogGrows, LogIsFirstRecords, LogOnce};

/// The laws of `model_server::once`, for records with fields: the stream has the first records, in order, each once, with its
/// own fields. As many records as the producer counts as added are in the stream. No other client adds to the stream.
pub fn nothing_twice()
    ensures first { LogIsFirstRecords Fields }
    ensures once { LogOnce Fields }
    ensures known { KnownIsIn Fields }
    ensures done { DoneIsAll Fields }
    ensures grows { LogGrows Fields }
{}

/// The contracts of `Producer::request`, `answered` and `disconnected` are steps of the model. Afterwards the producer
/// is in the state of the model's producer, and the commands on the way are those of the model.
pub fn stays_in_step()
    ensures requests { RequestsStayInStep }
    ensures answers { AnswersStayInStep }
    ensures breaks { BreaksStayInStep }
{}

/// The contracts of `Producer::round`, `disconnected` and `new` are events of the producer of `model_server::once`: a round
/// that returns Ok, one that breaks off, and a crash with the start after it. So after each schedule of them (`Runs`)
/// the producer is that of the model, and each round sends the bytes of the model's commands. The rounds of a session
/// are such rounds, and so are those of one that breaks off.
///
/// The premises of a round (`IsServed`) are two. It sends the next of the model's records, which holds for a source
/// whose records are known. The last reply is the one that the model's server sent.
pub fn rounds_are_those_of_once()
    ensures rounds { RoundsAreEvents }
    ensures bytes { RoundsSendIt }
    ensures told { ToldRecordsAreSent }
    ensures breaks { BreaksAreEvents }
    ensures starts { StartsAreEvents }
    ensures runs { RunsAreEvents }
    ensures sessions { SessionsRun }
    ensures broken { BrokenSessionsRun }
{}

/// After each schedule of the code the log is the first of the records, in order, each once, with its own fields. As
/// many records as the code counts as added are in it. If a round sends nothing, the log is all records, also if a
/// session ends by such a round. No other client adds to the stream.
pub fn the_code_adds_each_record_once()
    ensures first { CodeAddsFirstRecords }
    ensures once { CodeAddsOnce }
    ensures known { CodeKnowsWhatIsIn }
    ensures nothing { AskingNothingIsAll }
    ensures all { FinishedIsAll }
{}

/// Rounds without a WAIT are rounds as `Producer::run` makes them.
pub fn rounds_without_wait_are_rounds()
    ensures finished { UnconfirmedAreRounds }
    ensures broke { UnconfirmedBreakOff }
    ensures none { NoneIsUnconfirmed }
{}

/// A producer whose rounds are confirmed by WAIT (`Producer::round_confirmed`) is that of `model_server::failover`, in which
/// the server may go back to an earlier state. This holds after each schedule of such rounds, of rounds that break off
/// or are not confirmed, of crashes and of failovers. So as many records as it counts as added are in the log, and stay
/// there. If a round sends nothing, the log is all records, and stays so. No other client adds to the stream.
///
/// The premises of a round are those of `rounds_are_those_of_once`, and that the reply to WAIT is the one
/// that the server sent. The model's premise is that the new master is a replica that confirmed.
pub fn confirmed_records_stay()
    ensures runs { failover.RunsAreEvents }
    ensures waits { failover.RunsWait }
    ensures known { failover.CodeKnowsWhatStays }
    ensures all { failover.AskingNothingStaysAll }
{}
