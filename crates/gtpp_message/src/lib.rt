//! The messages of GTP', the protocol that carries charging data records to a charging gateway
//! (3GPP TS 32.295, clause 6.2). A message lends its octets from the datagram that it is read of.
//!
//! The model is `MessageValue` of `specs/Message.antt`; `specs/Role.antt` has the order in which
//! each end of a path tests a datagram. The contract of `read_as` is that the first condition that
//! holds decides; that of `write`, that it gives the message's one spelling.
//!
//!     match read_as(Role::Gateway, datagram) {
//!         Reading::Message { number, message } => ..
//!         Reading::Refused { cause, number, .. } => ..
#![tactic(auto)]

pub mod command;
mod flaw;
pub mod laws;
mod message;
pub mod message_types;
mod needed;
mod packet;
mod parse;
mod parts;
mod path;
mod reading;
mod records;
mod role;
mod spell;

pub use message::{Message, Transfer};
pub use packet::Packet;
pub use parse::read;
pub use reading::{Reading, Why};
pub use records::Records;
pub use role::{Role, read_as};
pub use spell::{write, write_short};
