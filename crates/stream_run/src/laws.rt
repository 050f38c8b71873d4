//! The law of the program's rounds.
ghost use Rattle.stream_run.specs.Rounds.{RoundsAreReached};

/// The law of `worker_jobs` holds for the state of the worker after the rounds of the program. Therefore each
/// id that the worker acknowledges had the reply `done`, or the server reported that its entry was deleted.
pub fn rounds_are_reached()
    ensures { RoundsAreReached }
{}
