//! What holds for a producer and a worker over one server.
ghost use Rattle.model_workers.specs.BothEnds.{EachComesOutOnce, FirstOnesComeOut, NothingComesOutTwice, WhatGoesInComesOut};

/// Under the conditions below, each record of a producer is in the worker's file exactly once. The producer and
/// the worker run over one server, in any order. Each may fail, crash and be started again, and batches may
/// arrive late.
///
/// No record is twice in the worker's file, and each entry of the file is a record. If the worker reads all in order,
/// the file is the first records, in order. It is all records if the producer's last round sent nothing and the
/// worker's last read returned nothing. In any order the file has each record once, if the group is drained.
///
/// The premises of a round are those of `rounds_are_those_of_once`, here and in `worker_producer`: the producer
/// and the worker take the replies that this server sent to them. No other client adds to the stream.
pub fn what_goes_in_comes_out()
    ensures twice { NothingComesOutTwice }
    ensures first { FirstOnesComeOut }
    ensures all { WhatGoesInComesOut }
    ensures each { EachComesOutOnce }
{}
