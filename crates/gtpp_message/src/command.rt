//! The values of the element Packet Transfer Command (3GPP TS 32.295, clause 6.2.4.5).

/// Send Data Record Packet.
pub const SEND: u8 = 1;

/// Send possibly duplicated Data Record Packet.
pub const SEND_POSSIBLE: u8 = 2;

/// Cancel Data Packet.
pub const CANCEL: u8 = 3;

/// Release Data Packet.
pub const RELEASE: u8 = 4;
