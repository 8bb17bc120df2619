ghost use Rattle.std.specs.Prelude.{◌≡◌};
ghost use Rattle.node_core.specs.Octets.{gateway_of, named_by, number_of, port_of};
ghost use Rattle.node_core.specs.Packets.{is_of};

use crate::copy::Order;
use crate::port::Port;

/// A message that a node sends of its own accord. Gateways are places in the node's list, counted
/// from 0, packets are numbered from 1 over all starts of the node, and request numbers are whole
/// ones, of which the wire carries the last 16 bits.
#[derive(Clone, Copy, Debug, PartialEq, Eq)]
pub enum Sending {
    /// A Node Alive Request with this path number.
    Probe {
        gateway: u8,
        number: u16,
    },
    /// A copy of a packet, plain or a possible duplicate; a new one draws its number.
    Data {
        packet: u64,
        gateway: u8,
        number: u64,
        is_plain: bool,
        is_new: bool,
    },
    /// The empty packet with the number of a copy.
    Test {
        packet: u64,
        gateway: u8,
        number: u64,
    },
    /// A release or a cancel, with a number of its own, that names the number of a copy; a new one
    /// draws its own number.
    Command {
        packet: u64,
        gateway: u8,
        named: u64,
        number: u64,
        order: Order,
        is_new: bool,
    },
}

impl Sending {
    /// Whether it is of the packet with this number.
    pub(crate) fn is_of(&self, number: u64) -> bool
        ensures { result ≡ is_of number self.now }
    {
        match self {
            Sending::Probe { .. } => false,
            Sending::Data { packet, .. }
            | Sending::Test { packet, .. }
            | Sending::Command { packet, .. } => *packet == number,
        }
    }

    /// The port that it goes from, the gateway that it goes to, its number, and the number that it
    /// names as a release or a cancel.
    pub(crate) fn fields(&self) -> (Port, u8, u64, Option<u64>)
        ensures { result ≡ (port_of self.now, gateway_of self.now, number_of self.now, named_by self.now) }
    {
        match *self {
            Sending::Probe { gateway, number } => (Port::First, gateway, u64::from(number), None),
            Sending::Data {
                gateway,
                number,
                ..
            } => (Port::First, gateway, number, None),
            Sending::Test {
                gateway,
                number,
                ..
            } => (Port::Second, gateway, number, None),
            Sending::Command {
                gateway,
                named,
                number,
                ..
            } => (Port::Second, gateway, number, Some(named)),
        }
    }
}
