//! The types of elements (3GPP TS 32.295, clause 6.2).

/// Cause: why a request is made, or what became of it.
pub const CAUSE: u8 = 1;

/// Recovery: the restart counter of the sender.
pub const RECOVERY: u8 = 14;

/// Packet Transfer Command: what is to be done with packets.
pub const COMMAND: u8 = 126;

/// Sequence Numbers of Released Packets.
pub const RELEASED: u8 = 249;

/// Sequence Numbers of Cancelled Packets.
pub const CANCELLED: u8 = 250;

/// Charging Gateway Address (3GPP TS 29.060). That it has the address of the node that sends the
/// message is this project's own use.
pub const NODE_ADDRESS: u8 = 251;

/// Data Record Packet.
pub const PACKET: u8 = 252;

/// Requests Responded.
pub const RESPONDED: u8 = 253;

/// Address of Recommended Node.
pub const RECOMMENDED: u8 = 254;

/// Private Extension, which isn't looked at.
pub const PRIVATE: u8 = 255;
