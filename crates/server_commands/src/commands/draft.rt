//! Changes of groups that are made at the end, with memory that was allocated before.
use server_store::Group;

/// The changes of a command to a group, before the group is changed.
#[derive(Drop)]
pub(super) struct Draft<'a> {
    pub(super) key: &'a [u8],
    /// The name of the group.
    pub(super) name: &'a [u8],
    /// The entries that the command delivers, and the consumer, if it exists.
    pub(super) part: Group,
}
