ghost use Rattle.std.specs.Prelude.{◌≡◌, ◌≤◌, [], ◌∷◌, IsFalse, IfOk, length, map};
ghost use Rattle.node_core.specs.Counting.{copy_of, counts_of, phase_of};
ghost use Rattle.node_core.specs.Log.{Began, Halted};
ghost use Rattle.node_core.specs.Peers.{AreNumbers, last_number, peer_anew};
ghost use Rattle.node_core.specs.Value.{befell, forgotten, node_of};

use crate::counts::{NodeCopy, NodeCounts, Phase, Tally};
use crate::draft::Draft;
use crate::packets::Packets;
use crate::peer::{self, Peer};
use gw_base::{Addr, NoMemory, NodeId};
use path_mgmt::NodePath;
use std::alloc::Global;
use std::marker::Model;

/// The driver of a serving node.
#[derive(Drop)]
pub struct Node {
    pub(crate) address: u32,
    pub(crate) is_running: bool,
    pub(crate) gateways: Vec<Peer>,
    /// The restart counter, which `paths` has too.
    pub(crate) counter: u8,
    pub(crate) paths: NodePath,
    pub(crate) favourite: u8,
    /// How many ticks the favourite has been quiet, at most 3.
    pub(crate) quiet: u8,
    pub(crate) submissions: u64,
    /// What became of the packets of earlier starts.
    pub(crate) before: Tally,
    pub(crate) packets: Packets,
    /// What each of the packets sends.
    pub(crate) forms: Vec<Draft>,
}

impl Model for Node {
    ghost use Rattle.node_core.specs.Value.{NodeValue};

    ghost Value = { NodeValue };

    ghost use Rattle.node_core.specs.NodeFields.{IsSoundNode, value_of_node};

    ghost view = { value_of_node };

    ghost invariant = { IsSoundNode };
}

impl Node {
    /// A node with this IPv4 address, which runs, has no packets and knows none of its 1 to 255
    /// gateways to be alive. Where two of them have one IPv4 address, what comes from there comes
    /// from the first. The counter is the restart counter of this first start.
    ///
    /// `NoMemory`: there was no memory for the list of its gateways.
    pub fn new(
        alloc: Global,
        address: u32,
        gateways: &[Addr],
        counter: u8,
    ) -> Result<Node, NoMemory>
        requires some { 1 ≤ length gateways.now }
        requires most { length gateways.now ≤ 255 }
        ensures { IfOk result (λ node. node
            ≡ node_of (record { address = address; gateways = gateways.now; counter = counter }) (Began ∷ [])) }
    {
        Ok(Node {
            address,
            is_running: true,
            gateways: peers_of(alloc, gateways)?,
            counter,
            paths: NodePath::new(counter),
            favourite: 0,
            quiet: 0,
            submissions: 0,
            before: Tally {
                resolved: 0,
                done: 0,
            },
            packets: Packets::new(alloc),
            forms: Vec::new(alloc),
        })
    }

    /// Halts the node. It forgets all but its restart counter and its counts of packets.
    pub fn halt(&mut self)
        ensures { self.new ≡ befell Halted self.old }
    {
        self.forget();
        self.is_running = false;
    }

    /// Starts a halted node again: its restart counter rises by one, and returns to 0 behind 255.
    pub fn start(&mut self)
        requires { IsFalse self.old.is_running }
        ensures { self.new ≡ befell Began self.old }
    {
        self.counter = if self.counter == u8::MAX {
            0
        } else {
            self.counter + 1
        };
        self.paths = NodePath::new(self.counter);
        self.forget();
        self.is_running = true;
    }

    /// Forgets what a halt forgets.
    fn forget(&mut self)
        ensures { self.new ≡ forgotten self.old.paths.counter self.old.is_running self.old }
    {
        let tally = self.packets.tally();
        self.before = Tally {
            resolved: self.before.resolved + tally.resolved,
            done: self.before.done + tally.done,
        };
        peer::renew(&mut self.gateways);
        self.paths = NodePath::new(self.counter);
        self.favourite = 0;
        self.quiet = 0;
        self.packets.clear();
        self.forms.clear();
    }

    /// Whether the node runs.
    pub fn runs(&self) -> bool
        ensures { result ≡ self.now.is_running }
    {
        self.is_running
    }

    /// The node's address.
    pub fn id(&self) -> NodeId
        ensures { result.0 ≡ self.now.address }
    {
        NodeId(self.address)
    }

    /// The restart counter.
    pub fn counter(&self) -> u8
        ensures { result ≡ self.now.paths.counter }
    {
        self.counter
    }

    /// The place of the gateway to which the next new copy of a packet goes.
    pub fn favourite(&self) -> u8
        ensures { result ≡ self.now.favourite_place }
    {
        self.favourite
    }

    /// How many packets were submitted, became resolved and became done, over all starts.
    pub fn counts(&self) -> NodeCounts
        ensures { result ≡ counts_of self.now }
    {
        let tally = self.packets.tally();
        NodeCounts {
            packets: self.submissions,
            resolved: self.before.resolved + tally.resolved,
            done: self.before.done + tally.done,
        }
    }

    /// How far the node has come with a packet, by its number: packets are counted from 1 over all
    /// starts. It is `Unknown` where no packet with this number was submitted since the start, also
    /// where one was in an earlier start.
    pub fn phase(&self, packet: u64) -> Phase
        ensures { result ≡ phase_of self.now packet }
    {
        match self.packets.numbered(self.submissions, packet) {
            None => Phase::Unknown,
            Some(packet) => packet.phase(),
        }
    }

    /// The k-th copy of a packet that was submitted since the start, counted from 0, in order of
    /// sending; `None` where there is none.
    pub fn copy(&self, packet: u64, k: usize) -> Option<NodeCopy>
        ensures { result ≡ copy_of self.now packet k }
    {
        match self.packets.numbered(self.submissions, packet) {
            None => None,
            Some(packet) => packet.copy(k),
        }
    }

    /// The last request number that was drawn for a gateway since the start, 65,535 where none was.
    /// The gateway is a place in the list that the node was made with, counted from 0; where there is
    /// none in that place, it is 65,535, too.
    pub fn last_number(&self, gateway: u8) -> u64
        ensures { result ≡ last_number self.now.gateways gateway }
    {
        peer::last_number(&self.gateways, gateway)
    }
}

/// The gateways as at a start.
#[tactic(auto, using(crate::proofs::NodeLemmas::numbers_anew))]
fn peers_of(alloc: Global, gateways: &[Addr]) -> Result<Vec<Peer>, NoMemory>
    ensures peers { IfOk result (λ peers. peers.items ≡ map peer_anew gateways.now) }
    ensures numbers { IfOk result (λ peers. AreNumbers peers.items) }
{
    let mut peers = Vec::with_capacity(alloc, gateways.len())?;
    for address in gateways {
        peers.push(Peer::anew(*address))?;
    }
    Ok(peers)
}
