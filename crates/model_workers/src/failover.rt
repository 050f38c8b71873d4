//! A worker that checks its file and sends WAIT, as the consumer of `model_server::failover`, whose server may return
//! to an earlier state. It runs nothing: its functions are laws.

pub mod laws;
