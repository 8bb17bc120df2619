// What a node sends over its links, and what it hears.
ghost use Rattle.std.specs.Prelude.{◌≡◌, ◌≤◌, ◌<◌, ◌^◌, ◌∷◌, [], OnOk, Some, length, true};
ghost use Rattle.net_link.specs.Steps.{most_octets};
ghost use Rattle.node_core.specs.Submitting.{refusal_of};
ghost use Rattle.node_core.specs.declared.port.Port.TheVariants.{First, Second};
ghost use Rattle.node_run.specs.Outcomes.{StaysAt};
ghost use Rattle.node_run.specs.Packets.{filled};
ghost use Rattle.node_run.specs.Running.{Turn, only_at, other_port, sent_among};
ghost use Rattle.node_run.specs.Steps.{CanRun, HasHeard, HasReceived, HasTicked, HasTurned, HaveSent, StopsBy};

use crate::linked::LinkedNode;
use crate::packets::packet;
use gw_base::{Addr, Failed, NoMemory};
use net_link::{Heard, Link, LinkStop};
use node_core::{Node, Outgoing, Port, SubmitFault};
use std::alloc::Global;

/// The port of the next turn.
pub(crate) fn other_port(port: Port) -> Port
    ensures { result ≡ other_port port }
{
    match port {
        Port::First => Port::Second,
        Port::Second => Port::First,
    }
}

/// Whether it is want of memory that a packet isn't taken for. Else the node takes no more: 64 packets are open, or
/// numbers are used up.
fn stop_by(fault: SubmitFault) -> Result<(), NoMemory>
    ensures { OnOk result (refusal_of fault ≡ Some fault) }
{
    match fault {
        SubmitFault::NoMemory => Err(NoMemory),
        SubmitFault::Empty | SubmitFault::InFlight | SubmitFault::NumbersOut { .. } => Ok(()),
    }
}

/// Lets a node take its next packets, of so many in all, as long as it takes more.
fn fill(alloc: Global, node: &mut Node, packets: u32) -> Result<(), NoMemory>
    requires { node.old.is_running ≡ true }
    ensures filled { OnOk result (node.new ≡ filled packets node.old) }
    ensures runs { node.new.is_running ≡ true }
{
    let mut next = node.counts().packets;
    while next < u64::from(packets) {
        let draft = packet(alloc, next as u32)?;
        match node.submit(alloc, draft) {
            Ok(_) => next += 1,
            Err((fault, _)) => {
                stop_by(fault)?;
                return Ok(());
            }
        }
    }
    Ok(())
}

impl<L: Link> LinkedNode<L> {
    /// Sends a datagram from a port.
    fn send(&mut self, port: Port, to: Addr, octets: &[u8]) -> Result<(), LinkStop>
        ensures sent { OnOk result (HaveSent L.Link
            (only_at First port (record { peer = to; octets = octets.now } ∷ []))
            (only_at Second port (record { peer = to; octets = octets.now } ∷ [])) self.old self.new) }
        ensures node { self.new.node ≡ self.old.node }
        ensures stops { StopsBy L.Link result self.new }
        ensures stays { StaysAt L.Link self.old self.new }
    {
        match port {
            Port::First => self.first.send(to, octets),
            Port::Second => self.second.send(to, octets),
        }
    }

    /// Sends datagrams, each from its port.
    fn send_all(&mut self, all: &[Outgoing]) -> Result<(), LinkStop>
        ensures sent { OnOk result (HaveSent L.Link (sent_among First all.now) (sent_among Second all.now)
            self.old self.new) }
        ensures node { self.new.node ≡ self.old.node }
        ensures stops { StopsBy L.Link result self.new }
        ensures stays { StaysAt L.Link self.old self.new }
    {
        for outgoing in all {
            self.send(outgoing.port, outgoing.to, outgoing.octets.octets())?;
        }
        Ok(())
    }

    /// Lets the node take its next packets, of so many in all, and tick, and sends what is due.
    pub(crate) fn tick(&mut self, alloc: Global, packets: u32) -> Result<(), LinkStop>
        requires { self.old.node.is_running ≡ true }
        ensures ticked { OnOk result (HasTicked L.Link packets self.old self.new) }
        ensures runs { self.new.node.is_running ≡ true }
        ensures stops { StopsBy L.Link result self.new }
        ensures stays { StaysAt L.Link self.old self.new }
    {
        fill(alloc, &mut self.node, packets)?;
        let sent = self.node.tick(alloc)?;
        self.send_all(&sent)?;
        Ok(())
    }

    /// Takes a turn at a port: where a datagram comes, the node hears it, and its reply is sent; else it ticks.
    pub(crate) fn turn(
        &mut self,
        alloc: Global,
        packets: u32,
        port: Port,
        buffer: &mut [u8],
    ) -> Result<(), LinkStop>
        requires can { CanRun L.Link self.old }
        requires long { most_octets ≤ length buffer.old }
        ensures turned { OnOk result ((turn : Turn) × HasTurned L.Link packets port turn self.old self.new) }
        ensures runs { self.new.node.is_running ≡ true }
        ensures stops { StopsBy L.Link result self.new }
        ensures stays { StaysAt L.Link self.old self.new }
    {
        match self.receive(port, buffer) {
            Ok(Heard::Datagram { from, length }) => {
                self.hear(port, from, &buffer[..length])?;
                Ok(())
            }
            Ok(Heard::Quiet) => {
                self.tick(alloc, packets)?;
                Ok(())
            }
            Err(Failed) => Err(LinkStop::Failed),
        }
    }

    /// Waits for a datagram at a port.
    fn receive(&mut self, port: Port, buffer: &mut [u8]) -> Result<Heard, Failed>
        requires { most_octets ≤ length buffer.old }
        ensures received { HasReceived L.Link port buffer.new result self.old self.new }
        ensures node { self.new.node ≡ self.old.node }
    {
        match port {
            Port::First => self.first.receive(buffer),
            Port::Second => self.second.receive(buffer),
        }
    }

    /// Lets the node hear a datagram at a port, and sends its reply from there.
    fn hear(&mut self, port: Port, from: Addr, octets: &[u8]) -> Result<(), LinkStop>
        requires { self.old.node.is_running ≡ true }
        ensures heard { OnOk result (HasHeard L.Link port (record { peer = from; octets = octets.now })
            self.old self.new) }
        ensures runs { self.new.node.is_running ≡ true }
        ensures stops { StopsBy L.Link result self.new }
        ensures stays { StaysAt L.Link self.old self.new }
    {
        match self.node.hear(port, from, octets).reply {
            Some(reply) => self.send(port, from, reply.octets()),
            None => Ok(()),
        }
    }
}
