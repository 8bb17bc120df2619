use gateway_book::GatewayCounts;
use gw_base::PacketId;
use node_core::NodeCounts;

/// How a loop ended.
#[derive(Drop)]
pub enum LoopEnd {
    /// All packets are done, and each stands once.
    Fine {
        nodes: Vec<NodeCounts>,
        gateways: Vec<GatewayCounts>,
    },
    /// All packets are done, and this is the first, by node and number, that doesn't stand once: so many of its copies
    /// stand, and so many may.
    Wrong {
        packet: PacketId,
        places: u64,
        wanted: u64,
    },
    /// So many packets aren't done, of which this is the first, by node and number. Those that weren't submitted count,
    /// too. Each node with such a packet took all its turns, which are so many.
    Unfinished {
        turns: u64,
        packet: PacketId,
        count: u64,
    },
    /// A link failed: the count of faults of the links rose.
    Link,
    /// There was no memory.
    NoMemory,
}
