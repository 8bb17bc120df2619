/// How many nodes and gateways a sample has, and how many packets are submitted in it.
#[derive(Clone, Copy)]
pub struct Extent {
    /// From 1 to 16.
    pub nodes: u8,
    /// From 1 to 8.
    pub gateways: u8,
    /// From 1 to 20,000.
    pub packets: u32,
}
