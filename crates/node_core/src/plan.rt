//! What a tick sends for the packets, planned on copies of them, so that want of memory changes
//! nothing.

ghost use Rattle.std.specs.Prelude.{◌≡◌, ◌++◌, OnOk};
ghost use Rattle.node_core.specs.Packets.{packet_after_all};
ghost use Rattle.node_core.specs.Peers.{AreNumbers, all_drawn};
ghost use Rattle.node_core.specs.Sendings.{due_for, due_for_all};
ghost use Rattle.node_core.specs.Sound.{planned};

use crate::due::{Aim, due_for};
use crate::node_packet::NodePacket;
use crate::peer::{Peer, draw};
use crate::sending::Sending;
use gw_base::NoMemory;
use std::alloc::Global;

/// Appends the packets as they are after the tick, and what is due for them, each with the numbers
/// behind those of the packets before it.
#[tactic(auto, using(crate::proofs::PlanLemmas::planned_more, crate::proofs::PlanLemmas::due_more, crate::proofs::PlanLemmas::planned_none, crate::proofs::PlanLemmas::due_none, crate::proofs::PlanLemmas::all_drawn_append))]
pub(crate) fn plan_all(
    alloc: Global,
    aim: Aim,
    peers: &mut [Peer],
    packets: &[NodePacket],
    after: &mut Vec<NodePacket>,
    sendings: &mut Vec<Sending>,
) -> Result<(), NoMemory>
    requires { AreNumbers peers.old }
    ensures packets { OnOk result (after.new.items
        ≡ after.old.items ++ planned aim.favourite aim.is_alive peers.old packets.now) }
    ensures sendings { OnOk result (sendings.new.items
        ≡ sendings.old.items ++ due_for_all aim.favourite aim.is_alive peers.old packets.now) }
    ensures peers { OnOk result (peers.new
        ≡ all_drawn (due_for_all aim.favourite aim.is_alive peers.old packets.now) peers.old) }
    ensures numbers { AreNumbers peers.new }
{
    for packet in packets {
        let mut packet = packet.copied(alloc)?;
        plan(aim, peers, &mut packet, sendings)?;
        after.push(packet)?;
    }
    Ok(())
}

/// Plans what is due for a packet, and notes it.
fn plan(
    aim: Aim,
    peers: &mut [Peer],
    packet: &mut NodePacket,
    sendings: &mut Vec<Sending>,
) -> Result<(), NoMemory>
    requires { AreNumbers peers.old }
    ensures packet { OnOk result (packet.new
        ≡ packet_after_all (due_for aim.favourite aim.is_alive peers.old packet.old) packet.old) }
    ensures sendings { OnOk result (sendings.new.items
        ≡ sendings.old.items ++ due_for aim.favourite aim.is_alive peers.old packet.old) }
    ensures peers { OnOk result (peers.new
        ≡ all_drawn (due_for aim.favourite aim.is_alive peers.old packet.old) peers.old) }
    ensures numbers { AreNumbers peers.new }
{
    let before = sendings.len();
    due_for(aim, peers, packet, sendings)?;
    let (_, own) = sendings.as_slice().split_at(before);
    send_all(own, peers, packet)
}

/// Notes these sendings of a packet, and the numbers that they draw.
#[tactic(auto, using(crate::proofs::PlanLemmas::after_more, crate::proofs::PlanLemmas::drawn_more, crate::proofs::PlanLemmas::after_none, crate::proofs::PlanLemmas::drawn_none))]
fn send_all(
    sendings: &[Sending],
    peers: &mut [Peer],
    packet: &mut NodePacket,
) -> Result<(), NoMemory>
    requires { AreNumbers peers.old }
    ensures packet { OnOk result (packet.new ≡ packet_after_all sendings.now packet.old) }
    ensures peers { OnOk result (peers.new ≡ all_drawn sendings.now peers.old) }
    ensures numbers { AreNumbers peers.new }
{
    for sending in sendings {
        draw(peers, sending);
        packet.send(sending)?;
    }
    Ok(())
}
