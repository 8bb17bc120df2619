ghost use Rattle.std.specs.Prelude.{◌≡◌};
ghost use Rattle.gw_base.specs.TickDue.{is_long_ago, is_tick_due, last_tick, tick_after};

use crate::history::{HistoryAct, HistoryEntry};
use crate::moment::Moment;
use crate::scan::{is_close_due, moment_after};

impl HistoryEntry {
    /// The moment of the last Tick after the last Close, after this entry.
    fn tick_after(&self, last: Option<Moment>) -> Option<Moment>
        ensures { result ≡ tick_after last self.now.act self.now.moment }
    {
        match self.act {
            HistoryAct::Tick => Some(self.moment),
            HistoryAct::Close => None,
            _ => last,
        }
    }
}

/// The moment of the last Tick after the last Close, where there is one.
#[tactic(auto, using(crate::proofs::Scans::tick_is))]
pub fn last_tick(history: &[HistoryEntry]) -> Option<Moment>
    ensures { result ≡ last_tick history.now }
{
    let mut last = None;
    for entry in history {
        last = entry.tick_after(last);
    }
    last
}

/// Whether a moment lies at least the open time, in seconds, back.
pub fn is_long_ago(open_time: u64, now: Moment, moment: Moment) -> bool
    ensures { result ≡ is_long_ago open_time now moment }
{
    match now.seconds().checked_sub(moment.seconds()) {
        Some(since) => open_time <= since,
        None => false,
    }
}

/// Whether a Tick is due: a Close is due, and no Tick stands after the last Close, or the last one
/// lies at least the open time, in seconds, before the moment that the new Tick would bear. That is
/// the present moment, and where the clock ran back that of the last entry.
pub fn is_tick_due(history: &[HistoryEntry], open_time: u64, now: Moment) -> bool
    ensures { result ≡ is_tick_due open_time now history.now }
{
    if !is_close_due(history) {
        return false;
    }
    match last_tick(history) {
        Some(moment) => is_long_ago(open_time, moment_after(history, now), moment),
        None => true,
    }
}
