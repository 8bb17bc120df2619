// Objects in memory whose failures and stops are planned.
ghost use Rattle.std.specs.Prelude.{◌≡◌, IsTrue, true, false};
ghost use Rattle.area_disk.specs.Disk.{Within};
ghost use Rattle.area_disk.specs.Record.{GoesOn, nothing, stopped};
ghost use Rattle.area_disk.specs.Plan.{Schedule, armed, with_stopped, most_unsynced};
ghost use Rattle.area_disk.specs.declared.plan.Outcome3.{Outcome3};

use crate::{Area, Outcome3, Plan};

/// An object in memory that fails and stops as planned, so that what stands on it can be tried at each call.
///
/// A stop leaves the contents that its outcome names, which are contents that a crash may leave. From a stop until
/// `revive` every call of the object fails and raises its count of faults. No call of `Drill` takes memory or is a
/// counted call.
pub trait Drill {
    /// The calls made since the plan was armed, and what is planned for those to come.
    ghost schedule: { Self → Schedule };

    /// Nothing that a read gives or that a crash may leave differs between the two.
    ghost kept: { Self → Self → Type 0 };

    /// The second has what a stop of the first with this outcome leaves, and nothing else.
    ghost left: { Self → Outcome3 → Self → Type 0 };

    /// Puts this plan in the place of the one before. The calls and the reads are counted anew from 1.
    fn arm(&mut self, plan: Plan)
        ensures plan { schedule self.new ≡ armed plan (schedule self.old) }
        ensures kept { kept self.old self.new };

    /// The number of counted calls since the plan was armed. It stands still at 2^64 - 1.
    fn calls(&self) -> u64
        ensures { result ≡ (schedule self.now).calls };

    /// Stops at once, between two calls.
    fn stop(&mut self, outcome: Outcome3)
        ensures stopped { schedule self.new ≡ with_stopped true (schedule self.old) }
        ensures left { left self.old outcome self.new };

    /// Whether a stop came that wasn't revived.
    fn stopped(&self) -> bool
        ensures { result ≡ (schedule self.now).stopped };

    /// Ends a stop: calls run again, as planned. Without a stop it does nothing.
    fn revive(&mut self)
        ensures running { schedule self.new ≡ with_stopped false (schedule self.old) }
        ensures kept { kept self.old self.new };
}

/// An area that is a `Drill`. It has no calls of its own: its laws say what the calls of `Drill` do to an area.
pub trait DrillArea: Area + Drill {
    /// It tells what a read gives, what a crash may leave, its counted calls and its plan.
    ghost tells: { IsTrue Self.tells_octets × IsTrue Self.tells_crash ×
        IsTrue Self.tells_calls × IsTrue Self.tells_fate };

    /// The plan that was armed decides what comes of the area's calls.
    ghost same_schedule: { (a : Self) → (Self.fate a).schedule ≡ Self.schedule a };

    /// What is kept.
    ghost kept_size: { (old new : Self) → Self.kept old new → Self.size new ≡ Self.size old };

    ghost kept_octets: { (old new : Self) → Self.kept old new → Self.octets new ≡ Self.octets old };

    ghost kept_crash: { (old new : Self) → Self.kept old new → Within (Self.may_leave old) (Self.may_leave new) };

    ghost kept_time: { (old new : Self) → Self.kept old new →
        GoesOn Self.most_room (nothing (Self.moments old).room)
        (Self.moments old) (Self.moments new) (Self.may_leave new) };

    ghost kept_leaves: { (old new : Self) (o : Outcome3) → Self.kept old new →
        (Self.fate new).leaves o ≡ (Self.fate old).leaves o };

    ghost kept_spare: { (old new : Self) → Self.kept old new → (Self.fate new).spare ≡ (Self.fate old).spare };

    ghost kept_faults: { (old new : Self) → Self.kept old new → Self.faults new ≡ Self.faults old };

    /// What a stop leaves.
    ghost left_size: { (old new : Self) (o : Outcome3) → Self.left old o new → Self.size new ≡ Self.size old };

    ghost left_octets: { (old new : Self) (o : Outcome3) → Self.left old o new →
        Self.octets new ≡ (Self.fate old).leaves o };

    ghost left_crash: { (old new : Self) (o : Outcome3) → Self.left old o new →
        Within (Self.may_leave old) (Self.may_leave new) };

    ghost left_time: { (old new : Self) (o : Outcome3) → Self.left old o new →
        GoesOn Self.most_room (stopped (Self.moments old).room)
        (Self.moments old) (Self.moments new) (Self.may_leave new) };

    ghost left_leaves: { (old new : Self) (o p : Outcome3) → Self.left old o new →
        (Self.fate new).leaves p ≡ (Self.fate old).leaves o };

    ghost left_spare: { (old new : Self) (o : Outcome3) → Self.left old o new → (Self.fate new).spare ≡ most_unsynced };

    ghost left_faults: { (old new : Self) (o : Outcome3) → Self.left old o new → Self.faults new ≡ Self.faults old };
}
