//! A loop of rounds of a worker over one connection: the definitions for its contract, and what holds for it.
//!
//! `Loops` and `Stops` (specs/Loops/Loop.antt) list the rounds that were made, and the commands between them.
//! `Leads` (specs/Loops/Shown.antt) states this for a handler with a state of its own, such as lines or rows.

pub mod laws;
