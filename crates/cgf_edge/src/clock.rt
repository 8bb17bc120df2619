ghost use Rattle.std.specs.Prelude.{◌≡◌};

use gw_base::{Failed, Moment};
use std::time::Clock;

/// The system's clock. A moment before 1970 or after 2099 is a fault, and so is a clock that can't be read.
#[derive(Drop)]
pub struct SystemClock<'a, R: Clock> {
    clock: &'a R,
    faults: u64,
}

impl<'a, R: Clock> SystemClock<'a, R> {
    /// The clock of this system. It has failed no call yet.
    pub fn new(clock: &'a R) -> Self
        ensures clock { result.clock.now ≡ clock.now }
        ensures faults { result.faults ≡ 0 }
    {
        SystemClock { clock, faults: 0 }
    }

    /// The present second, where it is one that a moment can say.
    fn read(&self) -> Option<Moment> {
        let since_1970 = self.clock.since_1970().ok()?;
        Moment::of(since_1970.as_secs())
    }
}

impl<R: Clock> gw_base::Clock for SystemClock<'_, R> {
    ghost faults = { λ s. s.faults };

    fn now(&mut self) -> Result<Moment, Failed> {
        match self.read() {
            Some(moment) => Ok(moment),
            None => {
                self.faults = self.faults.saturating_add(1);
                Err(Failed)
            }
        }
    }
}
