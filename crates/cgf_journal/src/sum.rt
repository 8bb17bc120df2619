// What entries cost, and whether a Close is due after them.
ghost use Rattle.std.specs.Prelude.{◌≡◌, ◌+◌, ◌<◌, ◌^◌, [], if◌then◌else◌, length};
ghost use Rattle.gw_base.specs.Entry.{act_view, entry_view};
ghost use Rattle.gw_base.specs.HeldKeys.{held_by};
ghost use Rattle.entry_codec.specs.Spelling.{cost_of};
ghost use Rattle.cgf_journal.specs.Sums.{sum_after};

use entry_codec::cost;
use gw_base::{Act, Entry};

/// What entries cost, and whether a Close is due after them.
#[derive(Clone, Copy)]
pub(crate) struct Sum {
    pub(crate) costs: u64,
    pub(crate) is_close_due: bool,
}

impl Sum {
    /// That of the firm entries, or else that of all.
    pub(crate) fn of(behind_firm: bool, firm: Sum, live: Sum) -> Sum
        ensures { result ≡ (if behind_firm then firm else live) }
    {
        if behind_firm { firm } else { live }
    }

    /// The sum after one more entry.
    pub(crate) fn after(self, entry: &Entry<'_>) -> Sum
        requires { self.costs + cost_of (entry_view entry.now) < 2 ^ 64 }
        ensures { result ≡ sum_after self (entry_view entry.now) }
    {
        Sum {
            costs: self.costs + cost(entry),
            is_close_due: entry.act.due_after(self.is_close_due),
        }
    }
}

/// How many keys an entry holds: one or none.
pub(crate) fn count_added(act: &Act<'_>) -> u64
    ensures { result ≡ length (held_by (act_view act.now) []) }
{
    match act {
        Act::Hold { .. } => 1,
        _ => 0,
    }
}
