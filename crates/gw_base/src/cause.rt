//! The causes that messages carry (3GPP TS 32.295, clause 6.2.4.6): those of a request are below
//! 128, those of a response from 128 on.

/// System failure at a gateway that asks for redirection.
pub const SYSTEM_FAILING: u8 = 59;

/// The transmit buffers are becoming full.
pub const TRANSMIT_BUFFERS_FILLING: u8 = 60;

/// The receive buffers are becoming full.
pub const RECEIVE_BUFFERS_FILLING: u8 = 61;

/// Another node is about to go down.
pub const OTHER_NODE_GOING_DOWN: u8 = 62;

/// This node is about to go down.
pub const THIS_NODE_GOING_DOWN: u8 = 63;

/// Request accepted.
pub const ACCEPTED: u8 = 128;

/// CDR decoding error: a record isn't what its format says.
pub const CDR_DECODING_ERROR: u8 = 177;

/// Invalid message format.
pub const INVALID_MESSAGE_FORMAT: u8 = 193;

/// No resources available.
pub const NO_RESOURCES: u8 = 199;

/// A mandatory information element is incorrect.
pub const ELEMENT_INCORRECT: u8 = 201;

/// A mandatory information element is missing.
pub const ELEMENT_MISSING: u8 = 202;

/// System failure.
pub const SYSTEM_FAILURE: u8 = 204;

/// A request that concerns possibly duplicated packets is fulfilled already.
pub const DUPLICATE_ALREADY_FULFILLED: u8 = 252;

/// The request is fulfilled already.
pub const ALREADY_FULFILLED: u8 = 253;

/// The sequence numbers of released or cancelled packets are incorrect.
pub const NUMBERS_INCORRECT: u8 = 254;

/// The request isn't fulfilled.
pub const NOT_FULFILLED: u8 = 255;
