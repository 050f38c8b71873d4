//! A stream and its groups in memory: entries in order, and what is pending for whom.
//!
//! It knows no command and no clock: a time, in milliseconds, is an argument.
#![tactic(auto)]

mod entry_id;
mod group;
pub mod laws;
mod pending_list;
mod room;
mod stream;
mod trim;

pub use entry_id::EntryId;
pub use group::{Consumer, Group, Held, Pending};
pub use pending_list::PendingList;
pub use room::Room;
pub use stream::{Entry, NODE_ENTRIES, Node, Stream};
pub use trim::{Bound, Trim};
