use crate::address::NodeId;

/// A packet of a node, which counts its packets from 1 over all its starts.
#[derive(Clone, Copy, Debug, PartialEq, Eq)]
pub struct PacketId {
    pub node: NodeId,
    pub number: u64,
}
