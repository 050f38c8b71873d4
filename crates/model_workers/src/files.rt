//! Workers of a group, each with a file of lines of its own, as a state machine, and what holds for
//! the files after every schedule. Its functions are laws, and two calls of `worker_journal` whose
//! contracts refer to the machine.

pub mod laws;
pub mod log;
