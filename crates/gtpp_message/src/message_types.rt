//! The types of messages (3GPP TS 32.295, clause 6.2).

/// Echo Request.
pub const ECHO_REQUEST: u8 = 1;

/// Echo Response.
pub const ECHO_RESPONSE: u8 = 2;

/// Version Not Supported.
pub const VERSION_NOT_SUPPORTED: u8 = 3;

/// Node Alive Request.
pub const NODE_ALIVE_REQUEST: u8 = 4;

/// Node Alive Response.
pub const NODE_ALIVE_RESPONSE: u8 = 5;

/// Redirection Request.
pub const REDIRECTION_REQUEST: u8 = 6;

/// Redirection Response.
pub const REDIRECTION_RESPONSE: u8 = 7;

/// Data Record Transfer Request.
pub const TRANSFER_REQUEST: u8 = 240;

/// Data Record Transfer Response.
pub const TRANSFER_RESPONSE: u8 = 241;
