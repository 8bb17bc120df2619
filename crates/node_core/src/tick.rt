ghost use Rattle.std.specs.Prelude.{◌≡◌, ◌≤◌, ◌<◌, ◌++◌, IsTrue, IfOk, IfSome, OnOk, OnErr, length, map, drop};
ghost use Rattle.node_core.specs.Moving.{favourite_by, is_silent, moved_at_tick, quiet_by};
ghost use Rattle.node_core.specs.Octets.{outgoing};
ghost use Rattle.node_core.specs.Peers.{AreNumbers, all_drawn};
ghost use Rattle.node_core.specs.Sendings.{due_for_all, probe_of, probes};
ghost use Rattle.node_core.specs.Sound.{IsSettled, planned};
ghost use Rattle.node_core.specs.Ticks.{due, due_by, tick_entries};
ghost use Rattle.node_core.specs.Value.{befallen};

use crate::due::Aim;
use crate::message::Outgoing;
use crate::moving::next_place;
use crate::node::Node;
use crate::node_packet::NodePacket;
use crate::packets::Packets;
use crate::peer::{Peer, draw};
use crate::sending::Sending;
use gw_base::NoMemory;
use path_mgmt::NodePath;
use std::alloc::Global;

/// The ticks without a message from the favourite after which it may move.
const MOST_QUIET: u8 = 3;

/// What a tick does to a node, before it is done.
#[derive(Drop)]
struct TickPlan {
    peers: Vec<Peer>,
    /// The packets from the first open one on.
    packets: Vec<NodePacket>,
    sendings: Vec<Sending>,
}

impl Node {
    /// Moves the favourite where it is silent, and sends what is due: a Node Alive Request to each
    /// gateway that isn't alive, and then what the open packets need, in order of submission.
    /// Without memory the node is as before.
    pub fn tick(&mut self, alloc: Global) -> Result<Vec<Outgoing>, NoMemory>
        requires { IsTrue self.old.is_running }
        ensures sent { IfOk result (λ sent. sent.items ≡ map (outgoing self.old) (due self.old)) }
        ensures node { OnOk result (self.new ≡ befallen (tick_entries self.old) self.old) }
        ensures unchanged { OnErr result (self.new ≡ self.old) }
    {
        let moved = self.moved_at_tick();
        let favourite = favourite_by(moved, self.favourite);
        let aim = Aim {
            favourite,
            is_alive: self.paths.is_alive(favourite),
        };
        let plan = plan(alloc, aim, &self.paths, &self.gateways, &self.packets)?;
        let sent = self.outgoing(alloc, &plan.sendings)?;
        self.favourite = favourite;
        self.quiet = (quiet_by(moved, self.quiet) + 1).min(MOST_QUIET);
        self.gateways = plan.peers;
        self.packets.replace(plan.packets);
        Ok(sent)
    }

    /// Where the favourite moves at the start of a tick, if it does: it has been quiet, and isn't
    /// alive or an open packet waits for it.
    fn moved_at_tick(&self) -> Option<u8>
        ensures moved { result ≡ moved_at_tick self.now }
        ensures within { IfSome result (λ place. place < length self.now.gateways) }
    {
        if self.is_silent() {
            next_place(self.gateways.len(), self.favourite)
        } else {
            None
        }
    }

    fn is_silent(&self) -> bool
        ensures { result ≡ is_silent self.now }
    {
        if self.quiet < MOST_QUIET {
            return false;
        }
        !self.paths.is_alive(self.favourite) || self.packets.wait_at(self.favourite)
    }
}

/// The favourite, once one is appointed or not.
fn favourite_by(appointed: Option<u8>, gateway: u8) -> u8
    ensures { result ≡ favourite_by appointed gateway }
{
    match appointed {
        None => gateway,
        Some(appointed) => appointed,
    }
}

/// How long the favourite has been quiet, once one is appointed or not.
fn quiet_by(appointed: Option<u8>, quiet: u8) -> u8
    ensures { result ≡ quiet_by appointed quiet }
{
    match appointed {
        None => quiet,
        Some(_) => 0,
    }
}

/// Plans a tick.
fn plan(
    alloc: Global,
    aim: Aim,
    paths: &NodePath,
    gateways: &[Peer],
    packets: &Packets,
) -> Result<TickPlan, NoMemory>
    requires numbers { AreNumbers gateways.now }
    requires most { length gateways.now ≤ 255 }
    ensures sendings { IfOk result (λ plan. plan.sendings.items
        ≡ due_by aim.favourite aim.is_alive paths.now gateways.now packets.now.packets) }
    ensures peers { IfOk result (λ plan. plan.peers.items
        ≡ all_drawn (due_by aim.favourite aim.is_alive paths.now gateways.now packets.now.packets) gateways.now) }
    ensures numbers { IfOk result (λ plan. AreNumbers plan.peers.items) }
    ensures packets { IfOk result (λ plan. plan.packets.items
        ≡ planned aim.favourite aim.is_alive (all_drawn (probes paths.now gateways.now) gateways.now)
        (drop packets.now.settled packets.now.packets)) }
    ensures settled { OnOk result (IsSettled packets.now) }
{
    let mut peers = gateways.to_vec(alloc)?;
    let reserved = gateways.len().saturating_add(packets.count_open());
    let mut sendings = Vec::with_capacity(alloc, reserved)?;
    let packets = plan_with(
        alloc,
        aim,
        paths,
        gateways,
        &mut peers,
        packets,
        &mut sendings,
    )?;
    Ok(TickPlan {
        peers,
        packets,
        sendings,
    })
}

/// Appends what is due, and notes the numbers that it draws.
#[tactic(auto, using(crate::proofs::PlanLemmas::all_drawn_append))]
fn plan_with(
    alloc: Global,
    aim: Aim,
    paths: &NodePath,
    gateways: &[Peer],
    peers: &mut [Peer],
    packets: &Packets,
    sendings: &mut Vec<Sending>,
) -> Result<Vec<NodePacket>, NoMemory>
    requires numbers { AreNumbers peers.old }
    requires most { length gateways.now ≤ 255 }
    ensures sendings { OnOk result (sendings.new.items ≡ sendings.old.items
        ++ (probes paths.now gateways.now
        ++ due_for_all aim.favourite aim.is_alive (all_drawn (probes paths.now gateways.now) peers.old)
        packets.now.packets)) }
    ensures peers { OnOk result (peers.new ≡ all_drawn (probes paths.now gateways.now
        ++ due_for_all aim.favourite aim.is_alive (all_drawn (probes paths.now gateways.now) peers.old)
        packets.now.packets) peers.old) }
    ensures numbers { AreNumbers peers.new }
    ensures packets { IfOk result (λ after. after.items
        ≡ planned aim.favourite aim.is_alive (all_drawn (probes paths.now gateways.now) peers.old)
        (drop packets.now.settled packets.now.packets)) }
    ensures settled { OnOk result (IsSettled packets.now) }
{
    probe(paths, gateways, peers, sendings)?;
    packets.plan(alloc, aim, peers, sendings)
}

/// Appends a Node Alive Request to each gateway that isn't alive, and notes its number.
fn probe(
    paths: &NodePath,
    gateways: &[Peer],
    peers: &mut [Peer],
    sendings: &mut Vec<Sending>,
) -> Result<(), NoMemory>
    requires numbers { AreNumbers peers.old }
    requires most { length gateways.now ≤ 255 }
    ensures sendings { OnOk result (sendings.new.items ≡ sendings.old.items ++ probes paths.now gateways.now) }
    ensures peers { OnOk result (peers.new ≡ all_drawn (probes paths.now gateways.now) peers.old) }
    ensures numbers { AreNumbers peers.new }
{
    for i in 0..gateways.len() {
        let gateway = i as u8;
        probe_one(
            paths.is_alive(gateway),
            gateway,
            gateways[i],
            peers,
            sendings,
        )?;
    }
    Ok(())
}

/// Appends a Node Alive Request to a gateway unless it is alive, and notes its number.
fn probe_one(
    is_alive: bool,
    gateway: u8,
    peer: Peer,
    peers: &mut [Peer],
    sendings: &mut Vec<Sending>,
) -> Result<(), NoMemory>
    requires { AreNumbers peers.old }
    ensures sendings { OnOk result (sendings.new.items ≡ sendings.old.items ++ probe_of is_alive gateway peer) }
    ensures peers { OnOk result (peers.new ≡ all_drawn (probe_of is_alive gateway peer) peers.old) }
    ensures numbers { AreNumbers peers.new }
{
    if is_alive {
        return Ok(());
    }
    let sending = Sending::Probe {
        gateway,
        number: peer.path,
    };
    draw(peers, &sending);
    sendings.push(sending)?;
    Ok(())
}
