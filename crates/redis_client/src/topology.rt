//! The master of a slot, by the replies to CLUSTER SLOTS and CLUSTER SHARDS. Nothing here opens a
//! connection.

mod check;
mod error;
mod node;
mod range;
mod row;
mod shard;
mod topology;

pub use error::TopologyError;
pub use node::{Node, Role};
pub use range::SlotRange;
pub use shard::Shard;
pub use topology::Topology;
