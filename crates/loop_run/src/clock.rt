// The clock of a loop.
use gw_base::{Clock, Failed, Moment};

/// A clock that stands still, at 0. It never fails.
#[derive(Drop)]
pub(crate) struct StillClock;

impl Clock for StillClock {
    ghost faults = { λ clock. 0 };

    fn now(&mut self) -> Result<Moment, Failed> {
        let Some(first) = Moment::of(0) else {
            unreachable!();
        };
        Ok(first)
    }
}
