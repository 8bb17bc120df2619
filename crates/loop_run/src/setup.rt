/// How large a loop is: its gateways and nodes, the packets of each node, and how many turns each node takes at most. A
/// turn is one wait for a datagram, at one of the node's two ports.
#[derive(Clone, Copy)]
pub struct LoopSetup {
    /// From 1 to 4.
    pub gateways: u8,
    /// From 1 to 8.
    pub nodes: u8,
    /// From 1 to 1,000.
    pub packets: u32,
    /// From 1 to 10,000,000.
    pub turns: u64,
}
