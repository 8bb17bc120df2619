//! The driver of a serving node (3GPP TS 32.295, clause 5): it sends each packet to its first
//! gateway, redirects it after silence or refusal, tests the first gateway before it releases a
//! duplicate, and never asks for both.
//!
//! The model is `NodeValue`, what the log of all that befell a node tells of it. The contract is that
//! each call is one step of it: a tick sends what is due (`specs/Sendings.antt`), octet for octet, and
//! what is heard counts as the definition heeds it.
//!
//!     let mut node = Node::new(alloc, address, &gateways, 1)?;
//!     let sent = node.tick(alloc)?;
//!     let heeded = node.hear(Port::First, from, octets);
#![tactic(auto)]

mod copies;
mod copy;
mod counts;
mod draft;
mod due;
mod fault;
mod hear;
pub mod laws;
mod logs;
mod message;
mod moving;
mod node;
mod node_packet;
mod outgoing;
mod packets;
mod patterns;
mod peer;
mod plan;
mod port;
mod responded;
mod sending;
mod submit;
mod tick;

pub use copy::{Command, Order, PacketCopy, Verdict};
pub use counts::{NodeCopy, NodeCounts, Phase, Tally};
pub use draft::Draft;
pub use fault::{DraftFault, SubmitFault};
pub use logs::{a_node_stands_for_its_log, each_call_goes_on, ticks_and_messages_follow_every_log};
pub use message::{Heeded, Outgoing};
pub use node::Node;
pub use peer::Peer;
pub use port::Port;
pub use sending::Sending;
