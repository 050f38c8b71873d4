//! A stream of Redis with one consumer group as a state machine, and the laws that hold after every schedule. It runs
//! nothing: its functions are laws.

pub mod laws;
