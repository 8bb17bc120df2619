// What entries cost of a journal.
ghost use Rattle.std.specs.Prelude.{◌≡◌, ◌≤◌, ◌-◌, ◌^◌, List};
ghost use Rattle.entry_codec.specs.Room.{costs_of};
ghost use Rattle.entry_codec.specs.Spelling.{cost_of};
ghost use Rattle.gw_base.specs.Entry.{act_view};
ghost use Rattle.gw_base.specs.declared.history.HistoryEntry.{HistoryEntry};
ghost use Rattle.gateway_answer.specs.Answered.{entry_by, no_caller};

use gw_base::{Act, Caller, Entry, HistoryEntry, Moment};

/// What entries cost of a journal, in octets: for each its own, and the five before the content of a
/// batch.
pub fn costs_of(history: &[HistoryEntry]) -> u128
    ensures { result ≡ costs_of history.now }
{
    let mut costs: u128 = 0;
    for entry in history {
        costs += u128::from(cost_of(entry.act.lent()));
    }
    costs
}

/// What an act costs.
pub(crate) fn cost_of(act: Act<'_>) -> u64
    ensures value { (h : List HistoryEntry) → result ≡ cost_of (entry_by h 0 no_caller (act_view act.entry)) }
    ensures bound { result ≤ 2 ^ 64 - 1 }
{
    entry_codec::cost(&Entry {
        moment: first_moment(),
        caller: Caller::NONE,
        act,
    })
}

fn first_moment() -> Moment {
    match Moment::of(0) {
        Some(moment) => moment,
        None => unreachable!(),
    }
}
