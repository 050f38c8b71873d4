//! Rounds of a worker of `model_server::group` without failures, and a number of them that drains the stream. It runs
//! nothing: its functions are laws.

pub mod laws;
