//! What holds for the rounds of a loop.
ghost use Rattle.model_workers.specs.Loops.Lived.{LoopsAreLived};
ghost use Rattle.model_workers.specs.Loops.Scheduled.{LoopsRun};

/// The rounds of a loop are rounds of a worker's life. So the laws of `worker` hold for them: before an
/// id is acknowledged its entry was done and committed, or the server reported it as deleted. The
/// loop reports as deleted exactly the entries that the replies in its rounds reported.
pub fn loops_are_lived()
    ensures { LoopsAreLived }
{}

/// The rounds of the loop, and the one that ends it, are a schedule of `model_workers::system` (`Runs`), over
/// any number of lives. The law `the_code_writes_each_entry_once` holds for each such schedule. The premise of
/// a round is that the worker gets the reply that the model's server sent. In these schedules the commands of
/// the search for dead letters count as those of other clients.
pub fn loops_are_scheduled()
    ensures { LoopsRun }
{}
