//! What a client of Redis Cluster computes itself: the slot of a key, the meaning of a node's error,
//! and the names of the partitions of a stream. Nothing here opens a connection.

mod bytes;
mod crc;
mod error;
pub mod laws;
mod partition;
mod reading;
mod slot;
mod step;

pub use crc::crc16;
pub use error::ClusterError;
pub use partition::{partition_of, partition_suffix, push_partition_name};
pub use reading::cluster_error;
pub use slot::{hash_tag, key_slot};
pub use step::NextStep;
