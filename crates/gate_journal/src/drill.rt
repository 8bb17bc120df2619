// A journal on an area that is a `Drill`.
ghost use Rattle.std.specs.Prelude.{◌≡◌};
ghost use Rattle.area_disk.specs.Plan.{armed};

use crate::Journal;
use area_disk::laws::area_laws;
use area_disk::{DrillArea, Plan};

impl<A: DrillArea> Journal<A> {
    ghost use Rattle.gate_journal.specs.Journal.{area_of};
    ghost use Rattle.gate_journal.specs.Kept.{IsArmed};

    /// Puts this plan in the place of the one before it. The calls of the device are counted anew from 1.
    pub fn arm(&mut self, plan: Plan)
        ensures plan { A.schedule (area_of self.new) ≡ armed plan (A.schedule (area_of self.old)) }
        ensures kept { A.kept (area_of self.old) (area_of self.new) }
        ensures same { IsArmed self.old self.new }
    {
        area_laws::<A>();
        self.area.arm(plan);
    }

    /// The number of counted calls of the device since the plan was armed.
    pub fn calls(&self) -> u64
        ensures { result ≡ (A.schedule (area_of self.now)).calls }
    {
        self.area.calls()
    }

    /// Whether the device is stopped.
    pub fn stopped(&self) -> bool
        ensures { result ≡ (A.schedule (area_of self.now)).stopped }
    {
        self.area.stopped()
    }
}
