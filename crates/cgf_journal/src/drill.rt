// A trail on an area that is a `Drill`.
ghost use Rattle.std.specs.Prelude.{◌≡◌, IsTrue};
ghost use Rattle.area_disk.specs.Plan.{armed};
ghost use Rattle.gate_journal.specs.Moments.{Leaves};

use crate::Trail;
use area_disk::{DrillArea, Plan};

impl<A: DrillArea> Trail<A> {
    ghost use Rattle.cgf_journal.specs.Outcomes.{IsKept};
    ghost use Rattle.cgf_journal.specs.Trail.{area_of, stop_stands, torn_stands};
    ghost use Rattle.area_disk.specs.declared.plan.Outcome3.{Outcome3};

    /// Puts this plan in the place of the one before it. The calls of the device are counted anew from 1.
    pub fn arm(&mut self, plan: Plan)
        ensures plan { A.schedule (area_of self.new) ≡ armed plan (A.schedule (area_of self.old)) }
        ensures kept_area { A.kept (area_of self.old) (area_of self.new) }
        ensures kept { IsKept self.old self.new }
        ensures stop { IsTrue A.tells_fate → (outcome : Outcome3) →
            stop_stands outcome self.new ≡ stop_stands outcome self.old }
        ensures torn_stands { torn_stands self.new ≡ torn_stands self.old }
        ensures crash { Leaves A.Area (area_of self.old) (area_of self.new) (A.may_leave (area_of self.old)) }
        ensures faults { A.faults (area_of self.new) ≡ A.faults (area_of self.old) }
    {
        self.journal.arm(plan);
    }

    /// The number of counted calls of the device since the plan was armed.
    pub fn calls(&self) -> u64
        ensures { result ≡ (A.schedule (area_of self.now)).calls }
    {
        self.journal.calls()
    }

    /// Whether the device is stopped.
    pub fn stopped(&self) -> bool
        ensures { result ≡ (A.schedule (area_of self.now)).stopped }
    {
        self.journal.stopped()
    }
}
