ghost use Rattle.std.specs.Prelude.{◌≡◌, IfOk};
ghost use Rattle.once_core.specs.Messages.{about, has_type, is_request, is_response};

use gtpp_message::message_types::{TRANSFER_REQUEST, TRANSFER_RESPONSE};
use gw_base::{Absolute, NoMemory, Octets};
use node_core::Port;
use std::alloc::Global;

/// A message that was sent, with what its sender meant by it. Gateways and nodes are places in the
/// world's lists, counted from 0.
///
/// What is meant by `start`, `number` and `named` isn't on the wire, but for the last 16 bits of the
/// numbers. A gateway or a node that hears a message goes by its octets. The three fields decide
/// whether the message is expired, and laws say by them what it means; an answer takes over the first
/// two.
#[derive(Drop)]
pub struct Message {
    /// Whether it goes from the node to the gateway, or the other way.
    pub to_gateway: bool,
    pub gateway: u8,
    pub node: u8,
    /// The port of the node.
    pub port: Port,
    /// How many starts the node had made: when it sent the message, or the one that this answers;
    /// of a Redirection Request, those that the gateway knew of.
    pub start: u8,
    /// The whole request number, or the path number. An answer has the number of what it answers.
    pub number: Absolute,
    /// The whole number of the copy that a release or a cancel names.
    pub named: Option<Absolute>,
    /// The octets of the datagram.
    pub octets: Octets,
}

impl Message {
    /// Whether it is a Data Record Transfer Request.
    pub fn is_request(&self) -> bool
        ensures { result ≡ is_request self.now }
    {
        has_type(TRANSFER_REQUEST, self.octets.octets())
    }

    /// Whether it is a Data Record Transfer Response.
    pub fn is_response(&self) -> bool
        ensures { result ≡ is_response self.now }
    {
        has_type(TRANSFER_RESPONSE, self.octets.octets())
    }

    /// The number of the copy that a request speaks of: the one that a release or a cancel names, else its
    /// own.
    pub fn about(&self) -> Absolute
        ensures { result ≡ about self.now }
    {
        match self.named {
            Some(named) => named,
            None => self.number,
        }
    }

    /// The same message.
    pub(crate) fn copy(&self, alloc: Global) -> Result<Message, NoMemory>
        ensures { IfOk result (λ message. message ≡ self.now) }
    {
        Ok(Message {
            to_gateway: self.to_gateway,
            gateway: self.gateway,
            node: self.node,
            port: self.port,
            start: self.start,
            number: self.number,
            named: self.named,
            octets: Octets::of(alloc, self.octets.octets())?,
        })
    }
}

/// Whether the octets are a message of this type.
fn has_type(kind: u8, octets: &[u8]) -> bool
    ensures { result ≡ has_type kind octets.now }
{
    match octets.get(1) {
        Some(k) => *k == kind,
        None => false,
    }
}

/// An answer that is sent once so many entries of the gateway's history are firm.
#[derive(Drop)]
pub struct Waiting {
    /// How many entries have to be firm, counted from the first of the history.
    pub front: u64,
    /// The answer.
    pub message: Message,
}
