//! A failover of the server of `model_server::once`, as a state machine: the server returns to a state that a replica
//! has. It runs nothing: its functions are laws.

pub mod laws;
