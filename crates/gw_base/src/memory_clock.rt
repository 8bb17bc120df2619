ghost use Rattle.std.specs.Prelude.{◌≡◌, ◌≤◌, ◌<◌, Some, length, slice_get, OnOk, OnErr};
ghost use Rattle.gw_base.specs.Faults.{Rose};
ghost use Rattle.gw_base.specs.MemoryClock.{after_first, GivesAsPlanned};

use crate::clock::Clock;
use crate::fault::Failed;
use crate::moment::Moment;
use std::marker::Model;

/// A clock that gives the moments that it was made with, and fails at the calls that it is told to.
#[derive(Drop)]
pub struct MemoryClock {
    moments: Vec<Moment>,
    given: usize,
    calls: u64,
    fail: Vec<u64>,
    faults: u64,
}

impl Model for MemoryClock {
    ghost use Rattle.std.specs.Prelude.{drop, length, ◌<◌};
    ghost use Rattle.gw_base.specs.MemoryClock.{MemoryTime};

    ghost Value = { MemoryTime };

    ghost view = { λ c. record {
      left = drop c.given c.moments.items;
      calls = c.calls;
      fail = c.fail.items;
      faults = c.faults;
    } };

    ghost invariant = { λ c. c.given < length c.moments.items };
}

impl MemoryClock {
    /// A clock that gives these moments in order, and then the last one again, and fails at the
    /// calls whose numbers, counted from 1, are in `fail`.
    pub fn new(moments: Vec<Moment>, fail: Vec<u64>) -> MemoryClock
        requires { 0 < length moments.items }
        ensures { result ≡ record { left = moments.items; calls = 0; fail = fail.items; faults = 0 } }
    {
        MemoryClock {
            moments,
            given: 0,
            calls: 0,
            fail,
            faults: 0,
        }
    }

    /// The next moment, which is passed where it isn't the last.
    fn give(&mut self) -> Moment
        ensures given { slice_get self.old.left 0 ≡ Some result }
        ensures left { self.new ≡ record self.old { left = after_first self.old.left } }
    {
        let moment = self.moments[self.given];
        if self.given + 1 < self.moments.len() {
            self.given += 1;
        }
        moment
    }
}

impl Clock for MemoryClock {
    ghost faults = { λ c. c.faults };

    fn now(&mut self) -> Result<Moment, Failed>
        ensures counted { self.old.faults ≤ self.new.faults }
        ensures ok { OnOk result (self.new.faults ≡ self.old.faults) }
        ensures failed { OnErr result (Rose self.old.faults self.new.faults) }
        ensures gives { GivesAsPlanned self.old self.new result }
    {
        self.calls = self.calls.saturating_add(1);
        if self.fail.contains(&self.calls) {
            self.faults = self.faults.saturating_add(1);
            return Err(Failed);
        }
        Ok(self.give())
    }
}
