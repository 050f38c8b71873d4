//! Laws that hold after enough rounds of a worker if nothing fails.
ghost use Rattle.model_server.specs.Rounds.Law.{AllIsDrained, CountsWhatIsPending, LostIsHandedOutAgain, RoundsAreASchedule};

/// After `enough_rounds` or more rounds of one worker, no entry is pending and none is undelivered, whatever happened
/// before. Between these rounds nothing else happens: no other worker sends a request, and no earlier reply arrives.
/// The handler returns `done` for each entry.
pub fn all_is_drained<F>()
    ensures { AllIsDrained F }
{}

/// Rounds are a schedule of `model_server::group`, so each of its laws holds for them.
pub fn rounds_are_a_schedule<F>()
    ensures { RoundsAreASchedule F }
{}

/// If a worker starts over and does `again_rounds` or more, each entry that was pending for it is acknowledged. It was
/// handled in these rounds, with its own fields, or it was deleted. Entries that the worker had done before are left
/// out.
pub fn lost_is_handed_out_again<F>()
    ensures { LostIsHandedOutAgain F }
{}

/// The bounds count at most the pending entries that the group has.
pub fn what_is_pending_is_counted<F>()
    ensures { CountsWhatIsPending F }
{}
