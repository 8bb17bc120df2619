// The limits of a gateway.

/// The most nodes that a gateway knows.
pub const MOST_NODES: usize = 64;

/// The most copies that a gateway holds.
pub const MOST_COPIES: usize = 65_536;
