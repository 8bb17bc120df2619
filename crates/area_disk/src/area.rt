// An area as a journal sees it: a fixed number of octets, with a disk model.
ghost use Rattle.std.specs.Prelude.{◌≡◌, ◌≤◌, ◌+◌, ℕ, List, length, take, drop, Bool, IsTrue, OnOk, Some, codes};
ghost use Rattle.area_disk.specs.Disk.{overwritten, Torn, Follows, Within, Only, counted, HasCause};
ghost use Rattle.area_disk.specs.Plan.{Prospect, WriteAsPlanned, SyncAsPlanned, ReadAsPlanned};
ghost use Rattle.area_disk.specs.Record.{GoesOn, Moments, Room, nothing, write_of, sync_of};
ghost use Rattle.area_disk.specs.declared.plan.Outcome3.{Outcome3};
ghost use Rattle.area_disk.specs.declared.plan.Outcome3.TheVariants.{New};

use std::alloc::AllocError;
use std::error::Error;
use std::fmt;

/// A call of a device failed. Its count of faults rose in this call.
#[derive(Clone, Copy, Debug, PartialEq, Eq)]
pub struct Failed;

impl fmt::Display for Failed {
    ghost output = { λ _. Some (codes "the device failed") };

    fn fmt<W: fmt::Write>(&self, f: &mut fmt::Formatter<W>) -> fmt::Result {
        write!(f, "the device failed")
    }
}

impl Error for Failed {}

/// There was no memory for it, and nothing was made.
#[derive(Clone, Copy, Debug)]
pub struct NoMemory;

impl fmt::Display for NoMemory {
    ghost output = { λ _. Some (codes "out of memory") };

    fn fmt<W: fmt::Write>(&self, f: &mut fmt::Formatter<W>) -> fmt::Result {
        write!(f, "out of memory")
    }
}

impl Error for NoMemory {}

impl From<AllocError> for NoMemory {
    fn from(_: AllocError) -> Self {
        NoMemory
    }
}

/// A fixed number of octets on a device.
///
/// Between two syncs each written range may hold any octets after a crash, and octets outside stay. After a sync
/// that succeeds, a crash leaves what a read gives. A failed write may leave any octets in its range.
///
/// What a read gives, what a crash may leave, the number of counted calls and what is planned for the calls to come
/// is each told or not by a type: where it isn't told, no clause speaks of it. No call takes memory.
pub trait Area: Drop {
    /// The number of its octets, which stays.
    ghost size: { Self → ℕ };

    /// Whether it tells what a read gives.
    ghost tells_octets: { Bool };

    /// What a read gives. After a call that failed, no more than that a crash may leave it.
    ghost octets: { Self → List ℕ };

    /// Whether it tells what a crash may leave.
    ghost tells_crash: { Bool };

    /// What a crash at this moment may leave.
    ghost may_leave: { Self → List ℕ → Type 0 };

    /// What it tells of its moments: which one this is, from which one on it is told what a crash might have left, and
    /// how much the record of them takes before it begins anew. Where it has room for what a call adds, the moments
    /// that were told stay told.
    ghost moments: { Self → Moments };

    /// The room of an empty record of moments.
    ghost most_room: { Room };

    /// Whether it tells the number of its counted calls.
    ghost tells_calls: { Bool };

    /// How many writes and syncs were made, the failed ones included.
    ghost calls: { Self → ℕ };

    /// Whether it tells what is planned for the calls to come, and what a stop leaves.
    ghost tells_fate: { Bool };

    /// What is planned for the calls to come, and what each outcome of a stop would leave now.
    ghost fate: { Self → Prospect };

    /// How often the device has failed. It stands still at its last value, which counts as risen.
    ghost faults: { Self → ℕ };

    /// The number of octets.
    fn length(&self) -> u64
        ensures { result ≡ size self.now };

    /// Fills `into` with the octets from place `at` on. It changes nothing but the count of faults. After `Failed`
    /// `into` may hold anything.
    fn read_at(&mut self, at: u64, into: &mut [u8]) -> Result<(), Failed>
        requires { at + length into.old ≤ size self.old }

        ensures read { IsTrue tells_octets →
            OnOk result (into.new ≡ take (length into.old) (drop at (octets self.old))) }
        ensures size { size self.new ≡ size self.old }
        ensures octets { octets self.new ≡ octets self.old }

        ensures crash { Within (may_leave self.old) (may_leave self.new) }
        ensures time { GoesOn most_room (nothing (moments self.old).room)
            (moments self.old) (moments self.new) (may_leave self.new) }

        ensures calls { IsTrue tells_calls → calls self.new ≡ calls self.old }
        ensures planned { IsTrue tells_fate → ReadAsPlanned (fate self.old) result (fate self.new) }
        ensures cause { HasCause (faults self.old) (faults self.new) result };

    /// Writes `from` over the octets from place `at` on. Until a sync, a crash may leave any octets there; so it may
    /// after `Failed`, and then a read gives no more than what a crash may leave.
    fn write_at(&mut self, at: u64, from: &[u8]) -> Result<(), Failed>
        requires { at + length from.now ≤ size self.old }

        ensures size { size self.new ≡ size self.old }
        ensures written { IsTrue tells_octets →
            OnOk result (octets self.new ≡ overwritten (octets self.old) at from.now) }

        ensures crash { Follows (Torn at (length from.now)) (may_leave self.old) (may_leave self.new) }
        ensures time { GoesOn most_room (write_of (moments self.old).room at (length from.now) result)
            (moments self.old) (moments self.new) (may_leave self.new) }

        ensures calls { IsTrue tells_calls → calls self.new ≡ counted 1 (calls self.old) }
        ensures planned { IsTrue tells_fate → WriteAsPlanned (fate self.old) at from.now result (fate self.new) }
        ensures cause { HasCause (faults self.old) (faults self.new) result };

    /// Waits until what was written stands. After it a crash leaves what a read gives. `Failed` may have settled
    /// nothing, and then a read gives no more than what a crash might have left before.
    fn sync(&mut self) -> Result<(), Failed>
        ensures size { size self.new ≡ size self.old }
        ensures octets { IsTrue tells_octets → OnOk result (octets self.new ≡ octets self.old) }

        ensures durable { IsTrue tells_crash → OnOk result (Only (octets self.new) (may_leave self.new)) }
        ensures crash { Within (may_leave self.old) (may_leave self.new) }
        ensures time { GoesOn most_room (sync_of (moments self.old).room result)
            (moments self.old) (moments self.new) (may_leave self.new) }

        ensures calls { IsTrue tells_calls → calls self.new ≡ counted 1 (calls self.old) }
        ensures planned { IsTrue tells_fate → SyncAsPlanned (fate self.old) result (fate self.new) }
        ensures cause { HasCause (faults self.old) (faults self.new) result };

    /// A crash may leave what a read gives.
    ghost holds: { (a : Self) → may_leave a (octets a) };

    /// A read gives all the octets.
    ghost whole: { (a : Self) → IsTrue tells_octets → length (octets a) ≡ size a };

    /// A crash leaves as many octets.
    ghost same_size: { (a : Self) (c : List ℕ) → IsTrue tells_crash → may_leave a c → length c ≡ size a };

    /// So it did at each moment since one that is told.
    ghost same_size_since: { (a : Self) (t : ℕ) (c : List ℕ) →
        IsTrue tells_crash → (moments a).told_from ≤ t → t ≤ (moments a).now → (moments a).left_since t c →
        length c ≡ size a };

    /// This moment is one of those since an earlier one.
    ghost counts_now: { (a : Self) (t : ℕ) (c : List ℕ) →
        (moments a).told_from ≤ t → t ≤ (moments a).now → may_leave a c → (moments a).left_since t c };

    /// Since this moment there is no other.
    ghost only_now: { (a : Self) (c : List ℕ) → (moments a).told_from ≤ (moments a).now →
        (moments a).left_since (moments a).now c → may_leave a c };

    /// What a stop would leave is what a crash may leave.
    ghost may_stop: { (a : Self) (o : Outcome3) → IsTrue tells_fate → may_leave a ((fate a).leaves o) };

    /// A stop that keeps what was written would leave what a read gives.
    ghost stops_new: { (a : Self) → IsTrue tells_fate → (fate a).leaves New ≡ octets a };

    /// The plan counts the counted calls.
    ghost counts_calls: { (a : Self) → IsTrue tells_fate → (fate a).schedule.calls ≡ calls a };
}
