//! A stream of Redis with a consumer group as state machines: rounds that drain it, a producer and a consumer
//! that crash, and a failover. It runs nothing: its functions are laws.
#![tactic(auto)]

pub mod failover;
pub mod group;
pub mod once;
pub mod rounds;
