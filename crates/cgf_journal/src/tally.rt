ghost use Rattle.std.specs.Prelude.{◌≡◌, ◌+◌, ◌*◌, ◌<◌, ◌≤◌, ◌^◌, false, [], if◌then◌else◌, nat_le, IfOk, OnOk, OnErr};
ghost use Rattle.gw_base.specs.Entry.{entry_view};
ghost use Rattle.entry_codec.specs.Room.{capacity_of};
ghost use Rattle.entry_codec.specs.Spelling.{cost_of};
ghost use Rattle.cgf_journal.specs.Reserved.{cheapest_hold};
ghost use Rattle.cgf_journal.specs.Tally.{free_beside, has_room_behind, tally_behind, tally_of};

use crate::kept::KeptKeys;
use crate::sum::{Sum, count_added};
use entry_codec::{capacity, cost, promised};
use gw_base::{Entry, NoMemory};
use std::alloc::Global;
use std::marker::Model;

/// What the entries of a trail cost of its journal and what they promise: the firm ones, and all of
/// them.
#[derive(Drop)]
pub(crate) struct Tally {
    keys: KeptKeys,
    firm: Sum,
    live: Sum,
}

impl Model for Tally {
    ghost use Rattle.cgf_journal.specs.Kept.{ArePaid};
    ghost use Rattle.cgf_journal.specs.Sums.{tally_with};
    ghost use Rattle.cgf_journal.specs.Tally.{Tallies};

    ghost Value = { Tallies };

    ghost view = { λ t. record {
      firm = tally_with t.firm t.keys.firm;
      live = tally_with t.live t.keys.live;
      reserved = t.keys.reserved;
    } };

    ghost invariant = { λ t. ArePaid t.keys t.firm t.live };
}

impl Tally {
    /// The tally of no entry, with memory for so many keys.
    pub(crate) fn reserve(alloc: Global, count: usize) -> Result<Tally, NoMemory>
        ensures { IfOk result (λ tally. tally ≡ record { firm = tally_of []; live = tally_of []; reserved = count }) }
    {
        let none = Sum {
            costs: 0,
            is_close_due: false,
        };
        Ok(Tally {
            keys: KeptKeys::reserve(alloc, count)?,
            firm: none,
            live: none,
        })
    }

    /// Counts one more entry after the others. It takes memory only where there are as many keys as were reserved;
    /// without it nothing changes.
    pub(crate) fn add(&mut self, entry: &Entry<'_>) -> Result<(), NoMemory>
        requires { self.old.live.costs + cost_of (entry_view entry.now) < 2 ^ 64 }
        ensures ok { OnOk result (self.new ≡ record {
          firm = self.old.firm;
          live = tally_behind self.old.live (entry_view entry.now);
          reserved = self.old.reserved;
        }) }
        ensures err { OnErr result (self.new ≡ self.old) }
        ensures full { OnErr result (cheapest_hold * (self.old.reserved + 1) ≤ self.old.live.costs +
            cost_of (entry_view entry.now)) }
    {
        self.keys.note(&entry.act)?;
        self.live = self.live.after(entry);
        Ok(())
    }

    /// Makes all entries firm.
    pub(crate) fn settle(&mut self)
        ensures { self.new ≡ record { firm = self.old.live; live = self.old.live; reserved = self.old.reserved } }
    {
        self.keys.settle();
        self.firm = self.live;
    }

    /// Takes all entries out but the firm ones.
    pub(crate) fn revert(&mut self)
        ensures { self.new ≡ record { firm = self.old.firm; live = self.old.firm; reserved = self.old.reserved } }
    {
        self.keys.revert();
        self.live = self.firm;
    }

    /// Whether an area of this size has room for one more entry after the firm ones, or else after all.
    pub(crate) fn has_room(&self, behind_firm: bool, entry: &Entry<'_>, size: u64) -> bool
        ensures { result ≡ has_room_behind (if behind_firm then self.now.firm else self.now.live)
            (entry_view entry.now) size }
    {
        let sum = Sum::of(behind_firm, self.firm, self.live);
        let due = entry.act.due_after(sum.is_close_due);
        let cost = cost(entry);
        // Where there is room even if each key stays held, none is looked at.
        let held = self.keys.count(behind_firm);
        if fits(sum.costs, cost, held, 1, due, size) {
            return true;
        }
        let staying = self.keys.count_staying(behind_firm, &entry.act);
        fits(sum.costs, cost, staying, count_added(&entry.act), due, size)
    }

    /// The octets that the firm entries, or else all, leave of the capacity of an area of this size.
    pub(crate) fn free(&self, behind_firm: bool, size: u64) -> u64
        ensures { result ≡ free_beside (if behind_firm then self.now.firm else self.now.live) size }
    {
        let sum = Sum::of(behind_firm, self.firm, self.live);
        let held = self.keys.count(behind_firm);
        let taken = u128::from(sum.costs) + promised(held, 0, sum.is_close_due);
        let whole = u128::from(capacity(size));
        whole.saturating_sub(taken) as u64
    }

    /// What the firm entries cost.
    pub(crate) fn firm_costs(&self) -> u64
        ensures { result ≡ self.now.firm.costs }
    {
        self.firm.costs
    }

    /// What all entries cost.
    pub(crate) fn costs(&self) -> u64
        ensures { result ≡ self.now.live.costs }
    {
        self.live.costs
    }
}

/// Whether costs, one more cost and what is promised are within the capacity.
fn fits(costs: u64, cost: u64, held: u64, more: u64, due: bool, size: u64) -> bool
    ensures { result ≡ nat_le (costs + cost + (76 * (held + more) + (if due then 30 else 0))) (capacity_of size) }
{
    u128::from(costs) + u128::from(cost) + promised(held, more, due) <= u128::from(capacity(size))
}
