// The keys that a tally keeps.
ghost use Rattle.std.specs.Prelude.{◌≡◌, ◌<◌, ◌≤◌, ◌+◌, ◌^◌, true, false, length, vec_capacity, filter, [], IfOk, OnOk, OnErr};
ghost use Rattle.gw_base.specs.Entry.{act_view};
ghost use Rattle.gw_base.specs.View.{stays_held};
ghost use Rattle.gw_base.specs.declared.history.HistoryAct.TheVariants.{Hold};
ghost use Rattle.cgf_journal.specs.Kept.{AreNoted, AreReady, HasNoRoom, HaveRoom, KeepsFirm, Kept, held_in_order, held_of};
ghost use Rattle.cgf_journal.specs.Sorted.{count_held};
ghost use Rattle.cgf_journal.specs.Tally.{held_after};

use crate::key::KeptKey;
use crate::sorted::SortedKeys;
use gw_base::{Absolute, Act, NoMemory, NodeId};
use std::alloc::Global;
use std::marker::Model;

/// How many keys that came last stand in a list of their own.
const LATE: usize = 1024;

/// The keys that the firm entries hold and those that all hold, in two lists in order: a short one of those that came
/// last, so that one more key moves few others, and one of all before them.
#[derive(Drop)]
pub(crate) struct KeptKeys {
    early: SortedKeys,
    late: SortedKeys,
    /// Where both lists are made one.
    spare: Vec<KeptKey>,
}

impl Model for KeptKeys {
    ghost Value = { Kept };

    ghost view = { λ k. record {
      firm = held_in_order true k.early k.late;
      live = held_in_order false k.early k.late;
      count = length k.early.keys.items + length k.late.keys.items;
      reserved = k.early.reserved;
    } };

    ghost invariant = { λ k. AreReady k.early k.late (vec_capacity k.spare) };
}

impl KeptKeys {
    /// No keys, and memory for so many.
    pub(crate) fn reserve(alloc: Global, count: usize) -> Result<KeptKeys, NoMemory>
        ensures { IfOk result (λ keys. keys ≡ record { firm = []; live = []; count = 0; reserved = count }) }
    {
        Ok(KeptKeys {
            early: SortedKeys::reserve(alloc, count)?,
            late: SortedKeys::reserve(alloc, LATE)?,
            spare: Vec::with_capacity(alloc, count)?,
        })
    }

    /// How many keys the firm entries hold, or else all.
    pub(crate) fn count(&self, firm: bool) -> u64
        ensures { result ≡ length (held_of firm self.now) }
    {
        self.early.count(firm) + self.late.count(firm)
    }

    /// How many of these stay held after an entry. An entry that begins no epoch, and whose numbers are in ascending
    /// order, takes two searches for each of these.
    pub(crate) fn count_staying(&self, firm: bool, act: &Act<'_>) -> u64
        ensures { result ≡ length (filter (λ key. stays_held (act_view act.now) key) (held_of firm self.now)) }
    {
        self.early.count_staying(firm, act) + self.late.count_staying(firm, act)
    }

    /// What one more entry makes of the keys that all entries hold. Without memory nothing changes.
    pub(crate) fn note(&mut self, act: &Act<'_>) -> Result<(), NoMemory>
        ensures ok { OnOk result (self.new.live ≡ held_after (act_view act.now) self.old.live) }
        ensures grows { OnOk result (KeepsFirm (count_held (act_view act.now)) self.old self.new) }
        ensures err { OnErr result (self.new ≡ self.old) }
        ensures full { OnErr result (HasNoRoom (count_held (act_view act.now)) self.old) }
    {
        match *act {
            Act::Hold {
                node,
                number,
                packet,
            } => {
                make_room(&mut self.early, &mut self.late, &mut self.spare)?;
                hold(&mut self.early, &mut self.late, node, number, packet);
            }
            Act::Start
            | Act::Tick
            | Act::Close
            | Act::Path { .. }
            | Act::File { .. }
            | Act::Seal { .. }
            | Act::Release { .. }
            | Act::Cancel { .. } => let_go(&mut self.early, &mut self.late, act),
        }
        Ok(())
    }

    /// Makes what all entries hold firm.
    pub(crate) fn settle(&mut self)
        ensures value { self.new ≡ record {
          firm = self.old.live;
          live = self.old.live;
          count = self.old.count;
          reserved = self.old.reserved;
        } }
        ensures within { length self.old.live ≤ self.old.count }
    {
        self.early.settle();
        self.late.settle();
    }

    /// Goes back to what the firm entries hold: other keys are kept no more.
    pub(crate) fn revert(&mut self)
        ensures { self.new ≡ record {
          firm = self.old.firm;
          live = self.old.firm;
          count = length self.old.firm;
          reserved = self.old.reserved;
        } }
    {
        self.early.revert();
        self.late.revert();
    }
}

// Makes room for one more key in the late list, where it is full, by taking its keys into the early one.
fn make_room(
    early: &mut SortedKeys,
    late: &mut SortedKeys,
    spare: &mut Vec<KeptKey>,
) -> Result<(), NoMemory>
    requires { AreReady early.old late.old (vec_capacity spare.old) }
    ensures ok { OnOk result (HaveRoom early.old late.old early.new late.new) }
    ensures ready { AreReady early.new late.new (vec_capacity spare.new) }
    ensures err { OnErr result ((early.new ≡ early.old) × (late.new ≡ late.old)) }
    ensures full { OnErr result (early.old.reserved ≤ length early.old.keys.items + length late.old.keys.items) }
{
    if !late.is_full() {
        return Ok(());
    }
    early.absorb(late, spare)
}

// Holds a number of a node in the late list.
fn hold(
    early: &mut SortedKeys,
    late: &mut SortedKeys,
    node: NodeId,
    number: Absolute,
    packet: &[u8],
)
    requires { length late.old.keys.items < late.old.reserved }
    ensures small { number < 2 ^ 64 }
    ensures noted { AreNoted (Hold node number packet.now) 1 early.old late.old early.new late.new }
{
    let Ok(()) = late.note(&Act::Hold {
        node,
        number,
        packet,
    }) else {
        unreachable!();
    };
    let Ok(()) = early.note(&Act::Seal { node, number }) else {
        unreachable!();
    };
}

// What an entry that holds no key makes of two lists.
fn let_go(early: &mut SortedKeys, late: &mut SortedKeys, act: &Act<'_>)
    requires { count_held (act_view act.now) ≡ 0 }
    ensures { AreNoted (act_view act.now) 0 early.old late.old early.new late.new }
{
    let Ok(()) = early.note(act) else {
        unreachable!();
    };
    let Ok(()) = late.note(act) else {
        unreachable!();
    };
}
