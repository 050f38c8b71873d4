//! For monitoring tools: the state of a group, from one reply to XINFO STREAM FULL.

pub mod group_state;
