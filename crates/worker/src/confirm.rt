//! Rounds of a worker that replicas confirm: its handler receives an entry only after the required number of replicas
//! have its delivery. So no failover to one of these delivers the entry again as new.

mod error;
mod round;

pub use error::RoundError;
pub use round::round_confirmed;
