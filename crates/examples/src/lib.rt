//! Callers of the stream layer to copy from. Each is proved from the public contracts. The program
//! `test_cases::callers` runs each on stored cases.
//!
//! `caller` is a first file of a repository of its own. `worker` and `batch` are the pure part of a
//! consumer-group worker. `stalled` claims entries of other consumers. `deletion` reads the replies to XDELEX
//! and XACKDEL, and `monitoring` those to XPENDING and XINFO. `producer` adds an entry once, even if it sends
//! the entry twice. `server` reads the arguments that a client sent. `wire` decodes a server's bytes to a
//! record. `order` has types of a user, and `readme` has the code of the README.
#![tactic(auto)]

pub mod batch;
pub mod caller;
pub mod deletion;
pub mod monitoring;
pub mod order;
pub mod producer;
pub mod readme;
pub mod server;
pub mod stalled;
pub mod wire;
pub mod worker;
