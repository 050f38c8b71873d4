//! Workers that fulfil their contracts, over one server, each with a file of lines, as state machines. Its
//! functions are laws, and two calls of the journal whose contracts refer to the machine.
#![tactic(auto)]

pub mod both_ends;
pub mod failover;
pub mod files;
pub mod letters;
pub mod loops;
pub mod system;
