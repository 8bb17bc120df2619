// A list of entries as answers observe it: each question is a scan of the list.
ghost use Rattle.std.specs.Prelude.{◌≡◌, ◌≤◌, ◌+◌, ◌-◌, ◌*◌, ◌^◌, IfOk, filter, length, nat_le};
ghost use Rattle.entry_codec.specs.Room.{capacity_of};
ghost use Rattle.gw_base.specs.Entry.{act_view};
ghost use Rattle.gw_base.specs.HeldKeys.{held_keys};
ghost use Rattle.gw_base.specs.Known.{is_known, known_nodes};
ghost use Rattle.gateway_answer.specs.Plain.{IsBounded};
ghost use Rattle.gateway_answer.specs.Steps.{holds_one, promised_by};
ghost use Rattle.gw_base.specs.View.{stays_held};

use crate::costs::{cost_of, costs_of};
use crate::observe::Observe;
use entry_codec::{capacity, promised};
use gateway_index::{MOST_COPIES, MOST_NODES};
use gw_base::{Absolute, Act, HistoryEntry, KeyState, NoMemory, NodeId, Opening, PacketKey, scan};
use scan::HeldKey;
use std::alloc::Global;

/// The entries of a gateway whose journal lies on so many octets.
#[derive(Drop)]
pub(crate) struct Listed<'a> {
    history: &'a [HistoryEntry],
    size: u64,
    known: Vec<NodeId>,
    held: Vec<HeldKey>,
    ghost knows: { known.items ≡ known_nodes history.now },
    ghost holds: { held.items ≡ held_keys history.now },
    ghost bounded: { IsBounded history.now },
}

impl<'a> Listed<'a> {
    /// These entries.
    pub(crate) fn of(
        alloc: Global,
        history: &'a [HistoryEntry],
        size: u64,
    ) -> Result<Listed<'a>, NoMemory>
        requires { IsBounded history.now }
        ensures { IfOk result (λ listed. (listed.history.now ≡ history.now) × (listed.size ≡ size)) }
    {
        Ok(Listed {
            history,
            size,
            known: scan::known_nodes(alloc, history)?,
            held: scan::held_keys(alloc, history)?,
        })
    }
}

impl Observe for Listed<'_> {
    ghost use Rattle.gw_base.specs.Observed.{observed};
    ghost use Rattle.gateway_answer.specs.Answered.{room_for};

    ghost seen = { λ s node. observed s.history.now node };

    ghost room = { λ s act. room_for s.history.now s.size act };

    fn own(&self) -> u8 {
        (scan::start_count(self.history) % 256) as u8
    }

    fn opening(&self, node: NodeId) -> Option<Opening> {
        scan::opening(self.history, node)
    }

    fn top(&self, node: NodeId) -> Option<Absolute> {
        scan::top(self.history, node)
    }

    fn state(&self, node: NodeId, number: Absolute) -> KeyState {
        scan::present_state_is_that_of_the_epoch();
        let epoch = scan::epoch(self.history, node);
        scan::state(
            self.history,
            PacketKey {
                node,
                epoch,
                number,
            },
        )
    }

    fn has_place(&self, node: NodeId) -> bool {
        is_known(&self.known, node) || self.known.len() < MOST_NODES
    }

    fn may_hold(&self) -> bool {
        self.held.len() < MOST_COPIES
    }

    fn has_room(&self, act: &Act<'_>) -> bool {
        let due = scan::is_close_due(self.history);
        let promised = promised_by(&self.held, due, act);
        has_room(costs_of(self.history), cost_of(*act), promised, self.size)
    }
}

fn is_known(known: &[NodeId], node: NodeId) -> bool
    ensures { result ≡ is_known known.now node }
{
    known.iter().any(|k| k.0 == node.0)
}

/// What is promised behind an act, by the keys that are held and by whether a Close is due.
fn promised_by(held: &[HeldKey], due: bool, act: &Act<'_>) -> u128
    ensures value { result ≡ promised_by held.now due (act_view act.now) }
    ensures bound { result ≤ 76 * 2 ^ 64 + 106 }
{
    let stay = count_staying(held, act);
    promised(stay as u64, holds_one(act), act.due_after(due))
}

/// How many keys stay held after an act.
fn count_staying(held: &[HeldKey], act: &Act<'_>) -> usize
    ensures { result ≡ length (filter (λ key. stays_held (act_view act.now) key) held.now) }
{
    held.iter().filter(|key| act.stays_held(**key)).count()
}

/// How many keys an act holds.
fn holds_one(act: &Act<'_>) -> u64
    ensures value { result ≡ holds_one (act_view act.now) }
    ensures bound { result ≤ 1 }
{
    match act {
        Act::Hold { .. } => 1,
        _ => 0,
    }
}

/// Whether costs and promises are within the capacity of a journal on so many octets.
fn has_room(costs: u128, cost: u64, promised: u128, size: u64) -> bool
    requires { promised ≤ 76 * 2 ^ 64 + 106 }
    ensures { result ≡ nat_le (costs + cost + promised) (capacity_of size) }
{
    if costs > u128::from(size) {
        return false;
    }
    costs + u128::from(cost) + promised <= u128::from(capacity(size))
}
