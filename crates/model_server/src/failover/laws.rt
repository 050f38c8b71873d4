//! Laws that hold after every schedule with failovers, crashes, broken connections and late arrivals.
//!
//! 'With WAIT' is the premise `AllWait`: a WAIT follows each batch and each request for entries. `Fit` means that the
//! ids of the records fit into 64 bits. `NoOtherAdds` means that nobody else adds to the stream.
ghost use Rattle.model_server.specs.Failover.Law.{ComesAsWritten, EachComesOutOnce, FileIsOfLog};
ghost use Rattle.model_server.specs.Failover.Law.{FileGrows, FileIsOfRecords, FileOnce};
ghost use Rattle.model_server.specs.Failover.Law.{FileOnceOfAnyServer, HandledIsNotNew, KnownStaysIn};
ghost use Rattle.model_server.specs.Failover.Law.{LogIsFirstRecords, LogIsKept, LogIsOfRecords};
ghost use Rattle.model_server.specs.Failover.Law.{NothingConfirmedIsLost, ProducerLosesNothing};
ghost use Rattle.model_server.specs.Failover.Many.{EachFileOnce, NoneInTwoFiles};

/// No id is twice in the file of a consumer that looks up an entry's id in the file before it adds a line. This holds
/// with or without WAIT, and with any server, whatever it delivers. The file only grows.
pub fn nothing_comes_out_twice<F>()
    ensures once { FileOnce F }
    ensures any { FileOnceOfAnyServer F }
    ensures grows { FileGrows F }
{}

/// Each entry of the log and of the file is one of the records, with its own fields, if nobody else adds
/// (`NoOtherAdds`). A delivered entry whose id is in the file has the fields that it has there, if the ids fit too
/// (`Fit`). This holds with or without WAIT.
pub fn nothing_is_made_up<F>()
    ensures log { LogIsOfRecords F }
    ensures file { FileIsOfRecords F }
    ensures as_written { ComesAsWritten F }
{}

/// Each entry of the log is undelivered, pending or in the file, with or without WAIT. The premises are `Fit`, that
/// nobody deletes (`NoDeletes`), and that nobody else adds or acknowledges (`NoOtherAdds`, `NoOtherAcks`). So a
/// failover loses only entries that are no longer in the log. If the producer sends WAIT, none of these is a record
/// that it knows to be in the stream.
pub fn nothing_of_the_log_is_lost<F>()
    ensures kept { LogIsKept F }
    ensures added { ProducerLosesNothing F }
{}

/// If the producer always sends WAIT (`ProducerAlwaysWaits`) and nobody else adds (`NoOtherAdds`), the log is a prefix
/// of the records. After any failover it has at least the number of records that the producer knows to be in the
/// stream. The other premise is `Fit`.
pub fn what_is_confirmed_stays<F>()
    ensures first { LogIsFirstRecords F }
    ensures known { KnownStaysIn F }
{}

/// With WAIT each entry of the file is in the log, with its own fields, after any failover, whoever adds. No consumer
/// of the group gets it as a new entry again.
pub fn what_is_handled_stays<F>()
    ensures of_log { FileIsOfLog F }
    ensures not_new { HandledIsNotNew F }
{}

/// With WAIT each record that the producer knows to be in the stream is undelivered, pending, in the file or deleted,
/// after any failover. So the file has each record once if the producer was done (`IsDone`), the stream is drained
/// (`IsDrained`) and nothing is deleted. The other premises are `Fit` and that nobody else adds or acknowledges
/// (`NoOtherAdds`, `NoOtherAcks`).
pub fn nothing_confirmed_is_lost<F>()
    ensures kept { NothingConfirmedIsLost F }
    ensures once { EachComesOutOnce F }
{}

/// With several consumers of one group, each with a file, no id is twice in the file of a consumer. With WAIT no id is
/// in two files, after any failover and whoever adds. The other premise is that no claim takes an entry that another
/// consumer has (`AllFair`).
pub fn no_entry_comes_out_in_two_files<F>()
    ensures once { EachFileOnce F }
    ensures one { NoneInTwoFiles F }
{}
