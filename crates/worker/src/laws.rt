//! What holds of workers over every schedule.
ghost use Rattle.model_server.specs.Group.Law.{AcknowledgedIsSettled, EachEntryIsKept, HandledAsDelivered};
ghost use Rattle.model_server.specs.Group.Law.{CommittedIsHandled, HandledIsOfTheLog};
ghost use Rattle.stream_in_place.specs.Sent.{Pairs};
ghost use Rattle.worker.specs.Life.{OnlyCommittedIsAcknowledged, SessionsAreLived};
ghost use Rattle.worker.specs.Session.{FailuresBeginAgain};
ghost use Rattle.worker.specs.Step.{AnswersStayInStep, CutsStayInStep, RequestsStayInStep};

/// The laws of `model_server::group`, for entries with fields. Each entry that was ever added is not yet delivered, or
/// pending, or handled and committed, or deleted.
pub fn nothing_is_lost()
    ensures kept { EachEntryIsKept Pairs }
    ensures acknowledged { AcknowledgedIsSettled Pairs }
    ensures committed { CommittedIsHandled Pairs }
    ensures handled { HandledIsOfTheLog Pairs }
    ensures delivered { HandledAsDelivered Pairs }
{}

/// The contracts of `Worker::answered` and `Worker::request` are steps of the model. Afterwards the worker is
/// in the state of the model's worker. Both handlers have done and committed equal entries, and both workers
/// send equal acknowledgements.
pub fn stays_in_step()
    ensures answers { AnswersStayInStep }
    ensures cuts { CutsStayInStep }
    ensures requests { RequestsStayInStep }
{}

/// A worker acknowledges an entry only after its handler returned `Done` for it and committed, or after the server
/// reported that it was deleted. This holds over any number of sessions, whether they end or break off. The commit may
/// be from before the worker was started. A session reports exactly the deleted entries that its replies report.
pub fn acknowledges_what_is_committed()
    ensures acknowledged { OnlyCommittedIsAcknowledged }
    ensures sessions { SessionsAreLived }
{}

/// A round may fail after its command was sent. Then a worker first creates the missing group, acknowledges committed
/// entries, or reads its own pending entries from the first on. This holds over any connection. So entries whose reply
/// was lost are delivered again at once.
pub fn begins_again()
    ensures { FailuresBeginAgain }
{}
