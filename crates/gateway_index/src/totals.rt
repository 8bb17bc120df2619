ghost use Rattle.std.specs.Prelude.{◌≡◌};
ghost use Rattle.gw_base.specs.Entry.{entry_view};
ghost use Rattle.gateway_index.specs.Sides.{no_totals, totals_after};

use gw_base::{Act, Entry, Moment};

/// What an index keeps of all entries together. Both counts stand still at 2^64 - 1.
#[derive(Clone, Copy)]
pub struct Totals {
    /// How often the gateway began to run.
    pub starts: u64,
    /// How many keys of earlier epochs are held.
    pub stranded: u64,
    /// The moment of the last entry.
    pub moment: Moment,
    /// Whether a File or a Release stands after the last Close.
    pub is_close_due: bool,
    /// The moment of the last Tick after the last Close.
    pub last_tick: Option<Moment>,
}

impl Totals {
    /// Those of no entry.
    pub(crate) fn none() -> Totals
        ensures { result ≡ no_totals }
    {
        let Some(moment) = Moment::of(0) else {
            unreachable!()
        };
        Totals {
            starts: 0,
            stranded: 0,
            moment,
            is_close_due: false,
            last_tick: None,
        }
    }

    /// What every entry changes of them.
    pub(crate) fn after(self, entry: &Entry<'_>) -> Totals
        ensures { result ≡ totals_after (entry_view entry.now) self }
    {
        let starts = match entry.act {
            Act::Start => self.starts.saturating_add(1),
            _ => self.starts,
        };
        let last_tick = match entry.act {
            Act::Tick => Some(entry.moment),
            Act::Close => None,
            _ => self.last_tick,
        };
        Totals {
            starts,
            moment: entry.moment,
            is_close_due: entry.act.due_after(self.is_close_due),
            last_tick,
            ..self
        }
    }
}
