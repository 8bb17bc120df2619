ghost use Rattle.std.specs.Prelude.{◌≡◌, ◌≤◌, OnOk, OnErr};
ghost use Rattle.gw_base.specs.Faults.{Rose};

use crate::fault::Failed;
use crate::moment::Moment;

/// A clock, which may go backward or stand still.
pub trait Clock {
    ghost use Rattle.std.specs.Prelude.{ℕ};

    /// How many faults there were. The count never falls, and stands still at 2^64 - 1.
    ghost faults: { Self → ℕ };

    /// Some moment.
    fn now(&mut self) -> Result<Moment, Failed>
        ensures counted { faults self.old ≤ faults self.new }
        ensures ok { OnOk result (faults self.new ≡ faults self.old) }
        ensures failed { OnErr result (Rose (faults self.old) (faults self.new)) };
}
