/// An IPv4 address, whose first octet is the top one, and a UDP port: `10.0.1.1` is `0x0A00_0101`.
#[derive(Clone, Copy, Debug, PartialEq, Eq)]
pub struct Addr {
    pub ip: u32,
    pub port: u16,
}

/// A serving node, known by its IPv4 address alone, whose first octet is the top one.
#[derive(Clone, Copy, Debug, PartialEq, Eq)]
pub struct NodeId(pub u32);

/// A gateway, known by its IPv4 address, whose first octet is the top one.
#[derive(Clone, Copy, Debug)]
pub struct GatewayId(pub u32);

/// A request's number counted on past 65,535, of which the wire carries the last 16 bits.
pub type Absolute = u64;
