//! Laws that hold after every schedule of additions, deletions, reads, claims, lost replies, commits and crashes.
ghost use Rattle.model_server.specs.Group.Alone.{EachIsCountedAlone};
ghost use Rattle.model_server.specs.Group.Law.{AcknowledgedIsSettled, CommittedIsHandled, EachEntryIsKept};
ghost use Rattle.model_server.specs.Group.Law.{HandledAsDelivered, HandledIsOfTheLog, IdsAreUnique, LogAscends};

/// After any list of events from an empty stream, no entry of the log is lost. Each is undelivered, pending, handled
/// and committed with its own fields, or deleted from the stream. Each acknowledged entry was committed or deleted.
pub fn nothing_is_lost<F>()
    ensures kept { EachEntryIsKept F }
    ensures acknowledged { AcknowledgedIsSettled F }
{}

/// Each committed entry was handled. Each handled entry is in the log, with the fields that it was handled with.
pub fn nothing_is_made_up<F>()
    ensures committed { CommittedIsHandled F }
    ensures handled { HandledIsOfTheLog F }
{}

/// The ids of the log ascend, and no two of its entries have the same id.
pub fn ids_ascend<F>()
    ensures ascends { LogAscends F }
    ensures unique { IdsAreUnique F }
{}

/// An entry is handled at most as often as the server delivered it with its fields. One that is handled twice was
/// delivered twice, which requires a crash, a lost reply or a claim.
pub fn nothing_twice_without_a_delivery<F>()
    ensures { HandledAsDelivered F }
{}

/// If entries are redelivered one at a time, the delivery count of a pending entry counts only this entry. One that was
/// delivered `n` times was delivered by itself at least `n - 1` times, and it is not acknowledged. Deliveries of other
/// entries, and a crash after them, do not raise its count.
pub fn each_is_counted_alone<F>()
    ensures { EachIsCountedAlone F }
{}
