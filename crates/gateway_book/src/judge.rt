//! Whether the entries of a journal are fit, as it is opened.
ghost use Rattle.std.specs.Prelude.{◌≡◌, ◌≤◌, ◌&&◌, ◌+◌, ◌<◌, false, [], nat_le, IfOk};
ghost use Rattle.gw_base.specs.Entry.{act_view};
ghost use Rattle.gateway_answer.specs.Fit.{is_act_fit, latest_moment};
ghost use Rattle.gateway_index.specs.Index.{observed_by, side_of};

use crate::observed::an_index_is_enough;
use crate::seen::Seen;
use cgf_journal::Judge;
use entry_codec::{capacity, cost, promised};
use gateway_answer::is_act_fit;
use gateway_index::Index;
use gateway_index::laws::an_index_tells_its_history;
use gw_base::{Entry, NoMemory};
use std::alloc::Global;

/// Judges entries by an index that follows them.
#[derive(Drop)]
pub(crate) struct FitJudge {
    pub(crate) index: Index,
    /// What the entries cost.
    pub(crate) costs: u64,
}

impl FitJudge {
    ghost use Rattle.gateway_book.specs.Judging.{IsJudging, is_within};

    /// The judge of no entry.
    pub(crate) fn new(alloc: Global) -> Result<FitJudge, NoMemory>
        ensures { IfOk result (λ judge. IsJudging judge []) }
    {
        Ok(FitJudge {
            index: Index::new(alloc)?,
            costs: 0,
        })
    }

    // Whether an entry is fit, but for room.
    fn may_stand(&self, entry: &Entry<'_>) -> bool
        ensures value { result ≡ (nat_le (side_of false self.now.index).totals.moment entry.now.moment
            && is_act_fit (observed_by false self.now.index) (act_view entry.now.act)) }
        ensures moment { entry.now.moment ≤ latest_moment }
    {
        let moment = entry.moment.seconds();
        if moment < self.index.totals(false).moment.seconds() {
            return false;
        }
        let seen = Seen {
            index: &self.index,
            has_room: false,
        };
        is_act_fit(&seen, &entry.act)
    }

    // Whether what the entries cost and promise is within the capacity of an area of this size.
    fn is_within(&self, size: u64) -> bool
        ensures { result ≡ is_within self.now size }
    {
        let held = self.index.held(false);
        let totals = self.index.totals(false);
        let taken = u128::from(self.costs) + promised(held, 0, totals.is_close_due);
        taken <= u128::from(capacity(size))
    }
}

impl Judge for FitJudge {
    ghost use Rattle.gateway_answer.specs.Fit.{IsFit};
    ghost use Rattle.gateway_book.specs.Judging.{IsJudging};

    ghost follows = { λ judge h. IsJudging judge h };

    ghost fits = { λ size h e. IsFit size h e };

    fn take(&mut self, entry: &Entry<'_>, size: u64) -> Result<bool, NoMemory> {
        an_index_tells_its_history();
        an_index_is_enough();
        if !self.may_stand(entry) {
            return Ok(false);
        }
        let Some(costs) = self.costs.checked_add(cost(entry)) else {
            return Ok(false);
        };
        self.index.note(entry);
        self.costs = costs;
        Ok(self.is_within(size))
    }
}
