// The calls of an object in memory, and what is planned for them.
ghost use Rattle.std.specs.Prelude.{◌≡◌, false};
ghost use Rattle.area_disk.specs.Plan.{schedule_of, armed, with_stopped, next_fate, next_read_fails, after_call, after_read};

use crate::{Fate, Plan};
use std::marker::Model;

/// Counts the calls of an object in memory, and says what its plan makes of them. Contracts see it as its
/// `Schedule`. Its counts stand still at 2^64 - 1, and calls past the last number run. No call takes memory.
#[derive(Drop)]
pub struct PlannedCalls {
    plan: Plan,
    calls: u64,
    reads: u64,
    stopped: bool,
}

impl Model for PlannedCalls {
    ghost use Rattle.area_disk.specs.Plan.{Schedule};

    ghost Value = { Schedule };

    ghost view = { λ p. record {
      calls = p.calls;
      reads = p.reads;
      fail = p.plan.fail.items;
      read_fail = p.plan.read_fail.items;
      stop = p.plan.stop;
      stopped = p.stopped;
    } };
}

impl PlannedCalls {
    /// No call was made yet.
    pub fn new(plan: Plan) -> PlannedCalls
        ensures { result ≡ schedule_of plan }
    {
        PlannedCalls {
            plan,
            calls: 0,
            reads: 0,
            stopped: false,
        }
    }

    /// What is planned for the next counted call.
    #[tactic(auto, unfolding(crate::specs::Plan::next_fate))]
    pub fn next_fate(&self) -> Fate
        ensures { result ≡ next_fate self.now }
    {
        if self.stopped {
            return Fate::Fails;
        }
        let Some(number) = self.calls.checked_add(1) else {
            return Fate::Runs;
        };
        if self.plan.fail.contains(&number) {
            return Fate::Fails;
        }
        match self.plan.stop {
            Some(stop) if stop.call == number => Fate::Stops(stop.outcome),
            _ => Fate::Runs,
        }
    }

    /// Counts one call, of which this comes.
    pub fn count(&mut self, fate: Fate)
        ensures { self.new ≡ after_call fate self.old }
    {
        self.calls = self.calls.saturating_add(1);
        if let Fate::Stops(_) = fate {
            self.stopped = true;
        }
    }

    // Whether the next read fails.
    #[tactic(auto, unfolding(crate::specs::Plan::next_read_fails))]
    fn next_read_fails(&self) -> bool
        ensures { result ≡ next_read_fails self.now }
    {
        if self.stopped {
            return true;
        }
        match self.reads.checked_add(1) {
            Some(number) => self.plan.read_fail.contains(&number),
            None => false,
        }
    }

    /// Counts one read, and says whether it fails.
    pub fn count_read(&mut self) -> bool
        ensures fails { result ≡ next_read_fails self.old }
        ensures counted { self.new ≡ after_read self.old }
    {
        let fails = self.next_read_fails();
        self.reads = self.reads.saturating_add(1);
        fails
    }

    /// The number of counted calls since the plan was armed.
    pub fn calls(&self) -> u64
        ensures { result ≡ self.now.calls }
    {
        self.calls
    }

    /// Whether a stop came that wasn't revived.
    pub fn is_stopped(&self) -> bool
        ensures { result ≡ self.now.stopped }
    {
        self.stopped
    }

    /// Puts this plan in the place of the one before, and counts the calls anew from 1.
    pub fn arm(&mut self, plan: Plan)
        ensures { self.new ≡ armed plan self.old }
    {
        self.plan = plan;
        self.calls = 0;
        self.reads = 0;
    }

    /// From now on every call fails, or calls run as planned.
    pub fn set_stopped(&mut self, stopped: bool)
        ensures { self.new ≡ with_stopped stopped self.old }
    {
        self.stopped = stopped;
    }
}
