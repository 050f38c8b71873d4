//! Memory for what is delivered to a group.
use crate::group::Consumer;
use crate::pending_list::PendingList;

/// Memory for a consumer and for what is delivered to it, allocated before the group is changed.
///
/// `Group::room_for` allocates it, and `Group::see_in` gives it to the group.
#[derive(Debug, Drop)]
pub struct Room {
    /// The name of the consumer.
    pub name: Vec<u8>,
    /// For the pending entries, if the group has too little.
    pub pending: PendingList,
    /// For the consumers, if the group has too little.
    pub consumers: Vec<Consumer>,
}
