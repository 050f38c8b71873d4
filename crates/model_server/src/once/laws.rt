//! Laws that hold after every schedule of batches, replies, crashes and late arrivals. The laws of a consumer hold of
//! any stream, whoever adds to it. Those about the producer's records have two premises: the ids of the records fit
//! into 64 bits (`Fit`), and nobody else adds (`NoOtherAdds`).
ghost use Rattle.model_server.specs.Once.Alone.{EachIsCountedAlone};
ghost use Rattle.model_server.specs.Once.Law.{DoneIsAll, EachComesOutOnce, EachIsKept, FileGrows};
ghost use Rattle.model_server.specs.Once.Law.{FileIsFirstOfLog, FileIsOfLog, FileOnce, KnownIsIn};
ghost use Rattle.model_server.specs.Once.Law.{LogGrows, LogIsFirstRecords, LogOnce, WhatGoesInComesOut};
ghost use Rattle.model_server.specs.Once.Many.{EachComesOutInOneFile, EachFileIsOfLog, EachFileOnce, EachIsKeptByOne, NoneInTwoFiles};
ghost use Rattle.model_server.specs.Once.Within.{CommitsAreWithin};

/// If nobody else adds, the log is a prefix of the records, with their own fields. It has at least the number of
/// records that the producer knows to be in the stream. If the producer is done (`IsDone`), the log is all records. No
/// id is twice in the log, whoever adds to it.
pub fn log_is_the_first_records<F>()
    ensures first { LogIsFirstRecords F }
    ensures once { LogOnce F }
    ensures known { KnownIsIn F }
    ensures done { DoneIsAll F }
{}

/// The log and the consumer's file only grow, at their ends. No event removes or changes an entry of them.
pub fn nothing_is_taken_back<F>()
    ensures log { LogGrows F }
    ensures file { FileGrows F }
{}

/// No id is twice in the consumer's file, whatever others add, read, claim, acknowledge and delete. Each
/// entry of the file is in the log, with its own fields.
pub fn nothing_comes_out_twice<F>()
    ensures once { FileOnce F }
    ensures of_log { FileIsOfLog F }
{}

/// If no reply has more than `n` entries, no commit adds more than `n` lines to the file. So a consumer that reads back
/// the last `n` lines at its start has all lines of its last commit.
pub fn no_commit_has_more_lines_than_an_answer<F>()
    ensures { CommitsAreWithin F }
{}

/// If no reply redelivers two entries, to the consumer or to another one, the delivery count of a pending entry counts
/// only this entry. One that was delivered `n` times was delivered by itself at least `n - 1` times.
pub fn each_is_counted_alone<F>()
    ensures { EachIsCountedAlone F }
{}

/// Each entry of the log is undelivered, pending, in the file, or deleted. The premise is that no other consumer
/// acknowledges (`NoOtherAcks`). So the file has each record once, in some order, if the producer is done and the
/// stream is drained (`IsDrained`). The other premises are that nobody else adds, and that nothing was deleted.
pub fn each_record_comes_out<F>()
    ensures kept { EachIsKept F }
    ensures once { EachComesOutOnce F }
{}

/// The file is a prefix of the log. It is the records, in order, if nobody else adds, the producer is done (`IsDone`)
/// and the stream is drained (`IsDrained`). The premise is that one consumer reads all in order (`AllInOrder`). The
/// server returns its own pending entries from the first on, and its handler never leaves one pending and continues.
/// Nobody else deletes, reads or claims.
pub fn what_goes_in_comes_out<F>()
    ensures first { FileIsFirstOfLog F }
    ensures all { WhatGoesInComesOut F }
{}

/// With several consumers of one group, each with a file, no id is twice in the file of a consumer. Each entry of a
/// file is in the log. No id is in two files if no claim takes an entry that another consumer has (`AllFair`). A
/// consumer has an entry in a reply on the way to it, as a line, or in its file.
pub fn no_entry_comes_out_in_two_files<F>()
    ensures once { EachFileOnce F }
    ensures of_log { EachFileIsOfLog F }
    ensures one { NoneInTwoFiles F }
{}

/// With several consumers, each entry of the log is undelivered, pending, in the file of a consumer, or deleted. The
/// premise is that nobody else acknowledges (`NoOtherAcks`). Each record is in exactly one file if the producer is
/// done, the stream is drained (`IsDrained`) and nothing was deleted. Two more premises are that nobody else adds, and
/// that no claim takes an entry that another consumer has (`AllFair`).
pub fn each_record_comes_out_in_one_file<F>()
    ensures kept { EachIsKeptByOne F }
    ensures one { EachComesOutInOneFile F }
{}
