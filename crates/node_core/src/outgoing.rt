//! The datagrams of a tick.

ghost use Rattle.std.specs.Prelude.{◌≡◌, ◌≤◌, ◌+◌, IfOk, IfSome, length, map};
ghost use Rattle.gtpp_message.specs.Message.{Possible, TransferRequest};
ghost use Rattle.gtpp_message.specs.Values.{message_value, packet_value};
ghost use Rattle.gtpp_message.specs.Writing.{body_octets, written};
ghost use Rattle.gtpp_message.specs.Packet.{Empty, packet_octets};
ghost use Rattle.node_core.specs.Octets.{octets_of, order_of, outgoing, packet_numbered, wire};
ghost use Rattle.node_core.specs.Patterns.{the_patterns};

use crate::copy::Order;
use crate::draft::MOST_VALUE_OCTETS;
use crate::message::Outgoing;
use crate::node::Node;
use crate::patterns::Patterns;
use crate::peer::address_at;
use crate::sending::Sending;
use gtpp_message::{Message, Packet, Transfer, write, write_short};
use gw_base::{Buffer, NoMemory, Octets};
use std::alloc::Global;

/// How many octets a request has before the value of its packet: the header, the command, and type and
/// length of the packet's element.
const BEFORE_VALUE: usize = 11;

impl Node {
    /// The datagrams of these sendings.
    pub(crate) fn outgoing(
        &self,
        alloc: Global,
        sendings: &[Sending],
    ) -> Result<Vec<Outgoing>, NoMemory>
        ensures { IfOk result (λ sent. sent.items ≡ map (outgoing self.now) sendings.now) }
    {
        let patterns = patterns_for(sendings);
        let mut sent = Vec::with_capacity(alloc, sendings.len())?;
        for sending in sendings {
            sent.push(self.datagram(alloc, &patterns, sending)?)?;
        }
        Ok(sent)
    }

    /// The datagram of a sending.
    fn datagram(
        &self,
        alloc: Global,
        patterns: &Option<Patterns>,
        sending: &Sending,
    ) -> Result<Outgoing, NoMemory>
        requires { IfSome patterns.now (λ patterns. patterns ≡ the_patterns) }
        ensures { IfOk result (λ datagram. datagram ≡ outgoing self.now sending.now) }
    {
        let (port, gateway, number, named) = sending.fields();
        Ok(Outgoing {
            port,
            to: address_at(&self.gateways, gateway),
            octets: self.octets_of(alloc, patterns, sending)?,
            number,
            named,
        })
    }

    /// The octets of a sending.
    fn octets_of(
        &self,
        alloc: Global,
        patterns: &Option<Patterns>,
        sending: &Sending,
    ) -> Result<Octets, NoMemory>
        requires { IfSome patterns.now (λ patterns. patterns ≡ the_patterns) }
        ensures { IfOk result (λ octets. octets ≡ octets_of self.now sending.now) }
    {
        match *sending {
            Sending::Probe { number, .. } => {
                let address = self.address.to_be_bytes();
                let message = Message::NodeAliveRequest {
                    address: Some(&address),
                };
                Octets::of(alloc, write_short(number, &message).octets())
            }
            Sending::Data {
                packet,
                number,
                is_plain,
                ..
            } => {
                let packet = self.packet_numbered(packet);
                let room = BEFORE_VALUE + value_length(&packet);
                let body = if is_plain {
                    Transfer::Send(packet)
                } else {
                    Transfer::Possible(packet)
                };
                message_octets(alloc, room, number, &Message::TransferRequest { body })
            }
            Sending::Test { number, .. } => test_octets(alloc, patterns, number),
            Sending::Command {
                named,
                number,
                order,
                ..
            } => order_octets(alloc, patterns, number, order, named),
        }
    }

    /// What the packet with this number sends.
    fn packet_numbered(&self, packet: u64) -> Packet<'_>
        ensures packet { packet_value result ≡ packet_numbered self.now packet }
        ensures short { length (packet_octets (packet_numbered self.now packet)) ≤ MOST_VALUE_OCTETS }
    {
        let before = self.submissions - self.forms.len() as u64;
        match self.forms.get(packet.saturating_sub(before + 1) as usize) {
            Some(draft) => draft.packet(),
            None => Packet::Empty,
        }
    }
}

/// Whether its octets are those of every message of its kind but for the numbers.
fn has_pattern(sending: &Sending) -> bool {
    matches!(sending, Sending::Test { .. } | Sending::Command { .. })
}

/// The patterns, where one of these sendings is made by them.
fn patterns_for(sendings: &[Sending]) -> Option<Patterns>
    ensures { IfSome result (λ patterns. patterns ≡ the_patterns) }
{
    if sendings.iter().any(has_pattern) {
        Some(Patterns::spelled())
    } else {
        None
    }
}

/// The octets of a test.
fn test_octets(alloc: Global, patterns: &Option<Patterns>, number: u64) -> Result<Octets, NoMemory>
    requires { IfSome patterns.now (λ patterns. patterns ≡ the_patterns) }
    ensures { IfOk result (λ octets. octets ≡ written (wire number) (TransferRequest (Possible Empty))) }
{
    match patterns {
        Some(patterns) => patterns.test(alloc, number),
        None => {
            let patterns = Patterns::spelled();
            patterns.test(alloc, number)
        }
    }
}

/// The octets of a release or a cancel.
fn order_octets(
    alloc: Global,
    patterns: &Option<Patterns>,
    number: u64,
    order: Order,
    named: u64,
) -> Result<Octets, NoMemory>
    requires { IfSome patterns.now (λ patterns. patterns ≡ the_patterns) }
    ensures { IfOk result (λ octets. octets ≡ written (wire number) (TransferRequest (order_of order named))) }
{
    match patterns {
        Some(patterns) => patterns.order(alloc, number, order, named),
        None => {
            let patterns = Patterns::spelled();
            patterns.order(alloc, number, order, named)
        }
    }
}

/// How many octets the value of a packet has.
fn value_length(packet: &Packet<'_>) -> usize
    ensures { result ≡ length (packet_octets (packet_value packet.now)) }
{
    match packet {
        Packet::Full { value, .. } => value.len(),
        Packet::Empty => 0,
    }
}

/// The octets of a message with the last 16 bits of this number, where they have so much room.
fn message_octets(
    alloc: Global,
    room: usize,
    number: u64,
    message: &Message<'_>,
) -> Result<Octets, NoMemory>
    requires room { length (body_octets (message_value message.now)) + 6 ≤ room }
    requires short { length (body_octets (message_value message.now)) ≤ 65501 }
    ensures { IfOk result (λ octets. octets ≡ written (wire number) (message_value message.now)) }
{
    let mut buffer = Buffer::with(alloc, room)?;
    if let Err(_full) = write((number % 65_536) as u16, message, &mut buffer) {
        unreachable!()
    }
    Octets::of(alloc, buffer.octets())
}
