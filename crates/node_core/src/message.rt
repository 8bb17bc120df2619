use crate::port::Port;
use gtpp_message::Why;
use gw_base::{Absolute, Addr, Octets, PacketId, Short};

/// A datagram that a tick sends.
#[derive(Drop)]
pub struct Outgoing {
    /// The node's port from which it goes.
    pub port: Port,
    /// The address of the gateway to which it goes.
    pub to: Addr,
    /// The whole message.
    pub octets: Octets,
    /// The path number or the whole request number that is meant.
    pub number: Absolute,
    /// The number of the copy that a release or a cancel names.
    pub named: Option<Absolute>,
}

/// What a node makes of a datagram.
#[derive(Drop)]
pub struct Heeded {
    /// The answer, which goes from the port that heard, to the sender.
    pub reply: Option<Short>,
    /// Why the datagram is dropped, where it is. The node is then as before.
    pub drop: Option<Why>,
    /// The first packet, in order of submission, that became resolved. A response that names several
    /// numbers may have made others resolved, too: `Node::counts` counts them all.
    pub resolved: Option<PacketId>,
    /// The first packet, in order of submission, that became done. Others may have become so, too.
    pub done: Option<PacketId>,
}
