//! The errors of a node that concern the cluster.

/// An error of a node that concerns the cluster. The host is part of the text of the error.
#[derive(Clone, Copy, Debug, PartialEq, Eq)]
pub enum ClusterError<'a> {
    /// `MOVED`: the slot is served by this node from now on.
    Moved {
        /// The slot, from 0 to 16,383.
        slot: u16,
        /// The host: a name or an address. Empty if it is the host of the connection.
        host: &'a [u8],
        /// The port, not 0.
        port: u16,
    },
    /// `ASK`: the slot is migrating to this node, which already serves the key.
    Ask {
        /// The slot, from 0 to 16,383.
        slot: u16,
        /// The host: a name or an address. Empty if it is the host of the connection.
        host: &'a [u8],
        /// The port, not 0.
        port: u16,
    },
    /// `TRYAGAIN`: the keys of the command are on two nodes while their slot migrates.
    TryAgain,
    /// `CLUSTERDOWN`: slots are not served.
    ClusterDown,
    /// `LOADING`: the node is loading its data from disk.
    Loading,
    /// `MASTERDOWN`: the node is a replica that has lost its master.
    MasterDown,
    /// `READONLY`: the node is a replica, which accepts no writes.
    ReadOnly,
    /// `NOREPLICAS`: the node has too few replicas to accept a write.
    NoReplicas,
}
