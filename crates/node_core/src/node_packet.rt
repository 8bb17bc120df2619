ghost use Rattle.std.specs.Prelude.{◌≡◌, [], OnOk, IfOk, option_map, slice_get};
ghost use Rattle.node_core.specs.Counting.{node_copy, phase_of_copies};
ghost use Rattle.node_core.specs.Moving.{waits_at};
ghost use Rattle.node_core.specs.Packets.{is_done, is_resolved, packet_after, packet_hearing, while_open};
ghost use Rattle.node_core.specs.Submitting.{least, unsettled_at};

use crate::copies;
use crate::copy::PacketCopy;
use crate::counts::{NodeCopy, Phase};
use crate::port::Port;
use crate::responded::Responded;
use crate::sending::Sending;
use gw_base::NoMemory;
use std::alloc::Global;
use std::marker::Model;

/// A packet as its node follows it: its number and its copies in order of sending.
#[derive(Drop)]
pub(crate) struct NodePacket {
    number: u64,
    copies: Vec<PacketCopy>,
}

impl Model for NodePacket {
    ghost use Rattle.node_core.specs.Packets.{PacketState};

    ghost Value = { PacketState };

    ghost view = { λ p. record { number = p.number; copies = p.copies.items } };
}

impl NodePacket {
    /// A packet without copies. It takes no memory.
    pub fn new(alloc: Global, number: u64) -> NodePacket
        ensures { result ≡ record { number = number; copies = [] } }
    {
        NodePacket {
            number,
            copies: Vec::new(alloc),
        }
    }

    /// The same packet once more.
    pub fn copied(&self, alloc: Global) -> Result<NodePacket, NoMemory>
        ensures { IfOk result (λ packet. packet ≡ self.now) }
    {
        Ok(NodePacket {
            number: self.number,
            copies: self.copies.as_slice().to_vec(alloc)?,
        })
    }

    /// Its number, counted from 1 over all starts of its node.
    pub fn number(&self) -> u64
        ensures { result ≡ self.now.number }
    {
        self.number
    }

    /// Its copies, in order of sending.
    pub fn copies(&self) -> &[PacketCopy]
        ensures { result.now ≡ self.now.copies }
    {
        &self.copies
    }

    /// Whether its records are filed once.
    pub fn is_resolved(&self) -> bool
        ensures { result ≡ is_resolved self.now.copies }
    {
        copies::is_resolved(&self.copies)
    }

    /// Whether it is resolved and every other copy is out of the way.
    pub fn is_done(&self) -> bool
        ensures { result ≡ is_done self.now.copies }
    {
        copies::is_done(&self.copies)
    }

    /// How far the node has come with it.
    pub fn phase(&self) -> Phase
        ensures { result ≡ phase_of_copies self.now.copies }
    {
        if self.is_done() {
            Phase::Done
        } else if self.is_resolved() {
            Phase::Resolved
        } else {
            Phase::Open
        }
    }

    /// The k-th copy, counted from 0.
    pub fn copy(&self, k: usize) -> Option<NodeCopy>
        ensures { result ≡ option_map node_copy (slice_get self.now.copies k) }
    {
        match self.copies.get(k) {
            None => None,
            Some(copy) => Some(NodeCopy {
                gateway: copy.gateway,
                number: copy.number,
            }),
        }
    }

    /// Whether it is open and nothing is known of its copy at this gateway.
    pub fn waits_at(&self, gateway: u8) -> bool
        ensures { result ≡ waits_at gateway self.now }
    {
        !self.is_done() && copies::is_unknown_at(gateway, &self.copies)
    }

    /// The least of its unsettled numbers at a gateway and of one more.
    pub fn least_at(&self, gateway: u8, number: u64) -> u64
        ensures { result ≡ least number (unsettled_at gateway self.now) }
    {
        if self.is_done() {
            return number;
        }
        copies::least_at(gateway, number, &self.copies)
    }

    /// Hears a response from a gateway, unless it is done.
    pub fn hear(&mut self, port: Port, gateway: u8, cause: u8, numbers: &Responded<'_>)
        ensures { self.new ≡ while_open (packet_hearing port gateway cause numbers.now) self.old }
    {
        if !self.is_done() {
            copies::hear(&mut self.copies, port, gateway, cause, numbers);
        }
    }

    /// Notes a sending, where it is of this packet.
    pub fn send(&mut self, sending: &Sending) -> Result<(), NoMemory>
        ensures { OnOk result (self.new ≡ packet_after sending.now self.old) }
    {
        if sending.is_of(self.number) {
            copies::note_sending(&mut self.copies, sending)?;
        }
        Ok(())
    }
}
