// A node with its links, and how its run ends.
use net_link::Link;
use node_core::Node;

/// A serving node with two links: the first has the address of its first port, and the second that of its second.
#[derive(Drop)]
pub struct LinkedNode<L: Link> {
    pub node: Node,
    pub first: L,
    pub second: L,
}

/// What a node has to do: so many packets, in so many turns at most. A turn is one wait for a datagram at one of its
/// links.
#[derive(Clone, Copy)]
pub struct Work {
    pub packets: u32,
    pub turns: u64,
}

/// How the run of a node ended.
#[derive(Clone, Copy)]
pub enum NodeEnd {
    /// All its packets are done.
    Done,
    /// All its turns were taken.
    Spent,
    /// A link failed: its count of faults rose.
    Link,
    /// There was no memory.
    NoMemory,
}
