// A node of a world, and what it makes of what happens to it.
ghost use Rattle.std.specs.Prelude.{◌≡◌, ◌+◌, ◌<◌, ◌≤◌, [], ◌∷◌, ◌++◌, true, false, Some, IfOk, OnOk, map};
ghost use Rattle.gtpp_message.specs.Packet.{IsPacket};
ghost use Rattle.gtpp_message.specs.Values.{packet_value};
ghost use Rattle.node_core.specs.Log.{Began, Halted};
ghost use Rattle.node_core.specs.Submitting.{refusal_of};
ghost use Rattle.node_core.specs.Ticks.{tick_entries};
ghost use Rattle.once_core.specs.NodeMoves.{HasHeard, HasTaken, draft_of_packet, due_messages, first_kept, message_kept, submitted_entries, with_all, with_entries};
ghost use Rattle.once_core.specs.World.{draft_of};

use crate::addresses::{addresses_of, gateway_address, gateway_at, node_id};
use crate::expired::is_expired_at_node;
use crate::gateway_turn::answering;
use crate::message::Message;
use gtpp_message::{Packet, Records};
use gw_base::{NoMemory, Octets};
use node_core::{Draft, DraftFault, Node, Outgoing, SubmitFault};
use std::alloc::Global;
use std::marker::Model;

/// The most packets of a node over all its starts.
const MOST_SUBMISSIONS: u64 = 4_611_686_018_427_355_136;

/// A node of a world.
#[derive(Drop)]
pub struct KeptNode {
    pub(crate) node: Node,
    /// How many starts it has made.
    pub(crate) starts: u8,
}

impl Model for KeptNode {
    ghost use Rattle.std.specs.Prelude.{◌≤◌};
    ghost use Rattle.once_core.specs.Standing.{NodeKept};

    ghost Value = { NodeKept };

    ghost view = { λ n. record { node = n.node; starts = n.starts } };

    ghost invariant = { λ n. 1 ≤ n.starts };
}

impl KeptNode {
    /// What drives it.
    pub fn node(&self) -> &Node
        ensures { result.now ≡ self.now.node }
    {
        &self.node
    }

    /// The node in this place, which runs, where there are so many gateways.
    pub(crate) fn new(alloc: Global, gateways: u8, place: u8) -> Result<KeptNode, NoMemory>
        requires { 1 ≤ gateways }
        ensures { IfOk result (λ node. node ≡ first_kept gateways place) }
    {
        let addresses = addresses_of(alloc, gateways)?;
        Ok(KeptNode {
            node: Node::new(alloc, node_id(place).0, &addresses, 1)?,
            starts: 1,
        })
    }

    /// The node is given a packet, by the octets of its value. What is no draft, or what the node
    /// refuses, does nothing.
    pub(crate) fn submit(&mut self, alloc: Global, packet: &Octets) -> Result<(), NoMemory>
        requires { self.old.node.is_running ≡ true }
        ensures { OnOk result (self.new
            ≡ with_entries (submitted_entries self.old.node (draft_of packet.now)) self.old) }
    {
        match draft_of(alloc, packet.octets())? {
            Some(draft) => self.submit_draft(alloc, draft),
            None => Ok(()),
        }
    }

    fn submit_draft(&mut self, alloc: Global, draft: Draft) -> Result<(), NoMemory>
        requires { self.old.node.is_running ≡ true }
        ensures { OnOk result (self.new ≡ with_entries (submitted_entries self.old.node (Some draft)) self.old) }
    {
        if self.node.counts().packets >= MOST_SUBMISSIONS {
            return Ok(());
        }
        match self.node.submit(alloc, draft) {
            Ok(_) => Ok(()),
            Err((fault, _)) => refused(fault),
        }
    }

    /// The node in this place sends what is due.
    pub(crate) fn tick(
        &mut self,
        alloc: Global,
        place: u8,
        sends: &mut Vec<Message>,
    ) -> Result<(), NoMemory>
        requires { self.old.node.is_running ≡ true }
        ensures node { OnOk result (self.new ≡ with_entries (tick_entries self.old.node) self.old) }
        ensures sends { OnOk result (sends.new.items ≡ sends.old.items ++ due_messages place self.old) }
    {
        let due = self.node.tick(alloc)?;
        send_all(alloc, place, self.starts, &due, sends)
    }

    /// A message reaches the node, unless it is halted or the message is expired.
    pub(crate) fn deliver(
        &mut self,
        alloc: Global,
        message: &Message,
        sends: &mut Vec<Message>,
    ) -> Result<(), NoMemory>
        ensures { OnOk result (HasHeard self.old message.now self.new sends.old.items sends.new.items) }
    {
        if !self.node.runs() {
            return Ok(());
        }
        if is_expired_at_node(self.starts, &self.node, message) {
            return Ok(());
        }
        let from = gateway_address(message.gateway);
        let heeded = self.node.hear(message.port, from, message.octets.octets());
        match heeded.reply {
            Some(reply) => Ok(sends.push(answering(alloc, message, reply)?)?),
            None => Ok(()),
        }
    }

    /// Whether it runs.
    pub(crate) fn runs(&self) -> bool
        ensures { result ≡ self.now.node.is_running }
    {
        self.node.runs()
    }

    /// How many starts it has made, from 1 on.
    pub(crate) fn starts(&self) -> u8
        ensures starts { result ≡ self.now.starts }
        ensures some { 1 ≤ result }
    {
        self.starts
    }

    /// The node stops.
    pub(crate) fn halt(&mut self)
        ensures { self.new ≡ with_entries (Halted ∷ []) self.old }
    {
        self.node.halt();
    }

    /// The node, which is halted, starts again.
    pub(crate) fn start(&mut self)
        requires halted { self.old.node.is_running ≡ false }
        requires few { self.old.starts < 255 }
        ensures node { self.new.node ≡ (with_entries (Began ∷ []) self.old).node }
        ensures starts { self.new.starts ≡ self.old.starts + 1 }
    {
        self.node.start();
        self.starts += 1;
    }
}

/// Sends these datagrams of the node in this place, in this start.
fn send_all(
    alloc: Global,
    place: u8,
    starts: u8,
    due: &[Outgoing],
    sends: &mut Vec<Message>,
) -> Result<(), NoMemory>
    ensures { OnOk result (sends.new.items ≡ sends.old.items ++ map (message_kept place starts) due.now) }
{
    for datagram in due {
        sends.push(message_of(alloc, place, starts, datagram)?)?;
    }
    Ok(())
}

/// The message of a datagram that the node in this place sends in this start.
fn message_of(
    alloc: Global,
    place: u8,
    starts: u8,
    datagram: &Outgoing,
) -> Result<Message, NoMemory>
    ensures { IfOk result (λ message. message ≡ message_kept place starts datagram.now) }
{
    Ok(Message {
        to_gateway: true,
        gateway: gateway_at(datagram.to),
        node: place,
        port: datagram.port,
        start: starts,
        number: datagram.number,
        named: datagram.named,
        octets: Octets::of(alloc, datagram.octets.octets())?,
    })
}

/// The packet with these octets, where a draft can be that packet and it has records.
fn draft_of(alloc: Global, octets: &[u8]) -> Result<Option<Draft>, NoMemory>
    ensures { IfOk result (λ found. found ≡ draft_of octets.now) }
{
    match Packet::of(octets) {
        Some(packet) => draft_of_packet(alloc, packet),
        None => Ok(None),
    }
}

fn draft_of_packet(alloc: Global, packet: Packet<'_>) -> Result<Option<Draft>, NoMemory>
    requires { IsPacket (packet_value packet) }
    ensures { IfOk result (λ found. found ≡ draft_of_packet (packet_value packet.entry)) }
{
    let Packet::Full {
        format,
        version,
        ..
    } = packet
    else {
        return Ok(None);
    };
    with_all(Draft::new(alloc, format, version), packet.records())
}

/// A draft with these records behind its own, where it takes them and has one then.
fn with_all(mut draft: Draft, mut records: Records<'_>) -> Result<Option<Draft>, NoMemory>
    ensures { IfOk result (λ found. found ≡ with_all draft records.entry) }
{
    while let Some(record) = records.next() {
        if !takes(&mut draft, record)? {
            return Ok(None);
        }
    }
    if draft.is_empty() {
        Ok(None)
    } else {
        Ok(Some(draft))
    }
}

/// Whether a draft takes a record, which it has then.
fn takes(draft: &mut Draft, octets: &[u8]) -> Result<bool, NoMemory>
    ensures { IfOk result (λ takes. HasTaken draft.old octets.now draft.new takes) }
{
    match draft.add(octets) {
        Ok(()) => Ok(true),
        Err(DraftFault::NoMemory) => Err(NoMemory),
        Err(DraftFault::Count) => Ok(false),
        Err(DraftFault::TooBig) => Ok(false),
        Err(DraftFault::Ber(_)) => Ok(false),
    }
}

/// A packet that was refused for this reason. Want of memory is none.
fn refused(fault: SubmitFault) -> Result<(), NoMemory>
    ensures { OnOk result (refusal_of fault ≡ Some fault) }
{
    match fault {
        SubmitFault::NoMemory => Err(NoMemory),
        SubmitFault::Empty => Ok(()),
        SubmitFault::InFlight => Ok(()),
        SubmitFault::NumbersOut { .. } => Ok(()),
    }
}
