//! Laws of areas, and of a plan that arms one call. Each holds for all areas, plans and schedules, and stands on a
//! function that does nothing.

ghost use Rattle.std.specs.Prelude.{◌≡◌, ◌+◌, ◌<◌, ℕ, [], ◌∷◌, None, Some, true, false};
ghost use Rattle.area_disk.specs.Armed.{Armed, IsArmed, after_one, calls_under, planned_in, then_calls};
ghost use Rattle.area_disk.specs.Armed.Armed.{Nothing, Fail as to_fail, Stop as to_stop};
ghost use Rattle.area_disk.specs.Disk.{last_count};
ghost use Rattle.area_disk.specs.Plan.{Schedule, after_call, armed, is_stop, next_fate, next_read_fails, with_reads};
ghost use Rattle.area_disk.specs.declared.plan.Fate.{Fate};
ghost use Rattle.area_disk.specs.declared.plan.Fate.TheVariants.{Fails};
ghost use Rattle.area_disk.specs.declared.plan.Outcome3.{Outcome3};
ghost use Rattle.area_disk.specs.declared.plan.Plan.{Plan};
ghost use Rattle.area_disk.specs.AreaLaws.{AreaLaws};

use crate::Area;

/// What a read gives, what a crash may leave and what is planned of an area go together as `Area` says. A caller calls
/// it so that these facts are known there.
pub fn area_laws<A: Area>()
    ensures { AreaLaws A.Area }
{}

/// A plan that is empty arms nothing.
pub fn arms_nothing()
    ensures { (plan : Plan) (s : Schedule) → s.stopped ≡ false → plan.read_fail.items ≡ [] → plan.fail.items ≡ [] →
        plan.stop ≡ None → IsArmed Nothing (armed plan s) }
{}

/// A plan with one failure arms it: so many calls run before it.
pub fn arms_fail()
    ensures { (plan : Plan) (s : Schedule) → s.stopped ≡ false → plan.read_fail.items ≡ [] → (k : ℕ) → k < last_count →
        plan.fail.items ≡ (k + 1) ∷ [] → plan.stop ≡ None → IsArmed (to_fail k) (armed plan s) }
{}

/// A plan with a stop alone arms it: so many calls run before it.
pub fn arms_stop()
    ensures { (plan : Plan) (s : Schedule) → s.stopped ≡ false → plan.read_fail.items ≡ [] →
        (k : ℕ) (outcome : Outcome3) → k < last_count → plan.fail.items ≡ [] →
        plan.stop ≡ Some (record { call = k + 1; outcome = outcome }) → IsArmed (to_stop k outcome) (armed plan s) }
{}

/// The next counted call comes out as is armed.
pub fn armed_next()
    ensures { (a : Armed) (s : Schedule) → IsArmed a s → next_fate s ≡ planned_in a 0 }
{}

/// After a call that ran or failed, one call less runs before the armed one.
pub fn armed_after()
    ensures { (a : Armed) (s : Schedule) (fate : Fate) → is_stop fate ≡ false → IsArmed a s →
        IsArmed (after_one a) (after_call fate s) }
{}

/// Reads leave what is armed, and none of them fails.
pub fn armed_reads()
    ensures kept { (a : Armed) (s : Schedule) (reads : ℕ) → IsArmed a s → IsArmed a (with_reads reads s) }
    ensures run { (a : Armed) (s : Schedule) → IsArmed a s → next_read_fails s ≡ false }
{}

/// From a stop on every call fails.
pub fn stopped_fails()
    ensures calls { (s : Schedule) → s.stopped ≡ true → next_fate s ≡ Fails }
    ensures reads { (s : Schedule) → s.stopped ≡ true → next_read_fails s ≡ true }
{}

/// What comes of calls is what comes of the first of them and then of the others.
pub fn calls_go_on()
    ensures { (a : Armed) (first others : ℕ) →
        calls_under a (first + others) ≡ then_calls first others (calls_under a first) }
{}
