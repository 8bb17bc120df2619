ghost use Rattle.std.specs.Prelude.{◌≡◌, ◌<◌, ◌≤◌, ◌^◌, IsTrue, IfOk, IfErr, OnOk, IfSome, OnErr, None, Some, length};
ghost use Rattle.node_core.specs.Log.{Submitted};
ghost use Rattle.node_core.specs.Submitting.{next_packet, numbers_out, out_at, refusal, refusal_of};
ghost use Rattle.node_core.specs.Value.{befell};

use crate::draft::Draft;
use crate::fault::SubmitFault;
use crate::node::Node;
use crate::packets::Packets;
use crate::peer::Peer;
use gw_base::{NodeId, PacketId};
use std::alloc::Global;

/// The most open packets of a node.
pub const MOST_OPEN: usize = 64;

/// The window of the numbers of a gateway that open packets have.
pub const NUMBER_WINDOW: u64 = 16_384;

impl Node {
    /// Takes a packet, which the next ticks send. The node runs, and over all its starts fewer than
    /// 2^62 packets were submitted to it.
    ///
    /// The faults are tested in the order in which [`SubmitFault`] lists them; the last of them is
    /// `NoMemory`, where there is no memory for one more packet. After each the node is as before, and
    /// the draft is given back as it was.
    pub fn submit(&mut self, alloc: Global, draft: Draft) -> Result<PacketId, (SubmitFault, Draft)>
        requires running { IsTrue self.old.is_running }
        requires few { self.old.submissions < 2 ^ 62 }
        ensures taken { IfOk result (λ id. id ≡ next_packet self.old) }
        ensures unrefused { OnOk result (refusal self.old draft ≡ None) }
        ensures node { OnOk result (self.new ≡ befell (Submitted draft) self.old) }
        ensures refused { IfErr result (λ e. refusal_of e.0 ≡ refusal self.old draft) }
        ensures given_back { IfErr result (λ e. e.1 ≡ draft) }
        ensures unchanged { OnErr result (self.new ≡ self.old) }
    {
        if draft.is_empty() {
            return Err((SubmitFault::Empty, draft));
        }
        if self.packets.count_open() >= MOST_OPEN {
            return Err((SubmitFault::InFlight, draft));
        }
        if let Some(fault) = numbers_out(&self.gateways, &self.packets) {
            return Err((fault, draft));
        }
        self.add(alloc, draft)
    }

    /// Takes a packet that isn't refused.
    fn add(&mut self, alloc: Global, draft: Draft) -> Result<PacketId, (SubmitFault, Draft)>
        requires few { self.old.submissions < 2 ^ 62 }
        ensures taken { IfOk result (λ id. id ≡ next_packet self.old) }
        ensures node { OnOk result (self.new ≡ befell (Submitted draft) self.old) }
        ensures memory { IfErr result (λ e. e.0 ≡ SubmitFault.NoMemory) }
        ensures given_back { IfErr result (λ e. e.1 ≡ draft) }
        ensures unchanged { OnErr result (self.new ≡ self.old) }
    {
        let number = self.submissions + 1;
        if let Err(failed) = self.forms.push(draft) {
            return Err((SubmitFault::NoMemory, failed.value));
        }
        if self.packets.push(alloc, number).is_err() {
            return match self.forms.pop() {
                Some(draft) => Err((SubmitFault::NoMemory, draft)),
                None => unreachable!(),
            };
        }
        self.submissions = number;
        Ok(PacketId {
            node: NodeId(self.address),
            number,
        })
    }
}

/// The first gateway whose numbers are used up, if there is one.
#[tactic(auto, using(crate::proofs::PlanLemmas::out_more, crate::proofs::PlanLemmas::out_none))]
fn numbers_out(gateways: &[Peer], packets: &Packets) -> Option<SubmitFault>
    requires { length gateways.now ≤ 255 }
    ensures fault { result ≡ numbers_out 0 gateways.now packets.now.packets }
    ensures told { IfSome result (λ fault. refusal_of fault ≡ Some fault) }
{
    for i in 0..gateways.len() {
        let fault = out_at(i as u8, gateways[i].next, packets);
        if fault.is_some() {
            return fault;
        }
    }
    None
}

/// The fault where the numbers of a gateway are used up.
fn out_at(gateway: u8, next: u64, packets: &Packets) -> Option<SubmitFault>
    ensures fault { result ≡ out_at gateway next packets.now.packets }
    ensures told { IfSome result (λ fault. refusal_of fault ≡ Some fault) }
{
    let oldest = packets.oldest_at(gateway, next);
    if next.saturating_sub(oldest) < NUMBER_WINDOW {
        return None;
    }
    Some(SubmitFault::NumbersOut {
        gateway,
        oldest,
        next,
    })
}
