// An area in memory with planned failures and stops.
ghost use Rattle.std.specs.Prelude.{◌≡◌, ◌-◌, ◌+◌, length, true, false, IsErr, IfOk};
ghost use Rattle.std.proofs.Common.{refl};
ghost use Rattle.area_disk.specs.Disk.{HasCause, Only, zeros};
ghost use Rattle.area_disk.specs.Plan.{IsFresh, next_fate, fate_with, most_unsynced};
ghost use Rattle.area_disk.specs.Outside.{same_refl};
ghost use Rattle.area_disk.specs.Past.{all_room};
ghost use Rattle.area_disk.specs.Memory.{prospect_of, moments_in, DiskMayLeave, disk_counts_now, disk_only_now, disk_same_size, disk_may_stop, IsKept, IsLeft, kept_disk_size, kept_present, kept_within, kept_goes, kept_leaves_of, kept_disk_spare, left_within, left_goes, left_leaves_of, left_disk_spare};
ghost use Rattle.area_disk.specs.declared.plan.Outcome3.{Outcome3};

use crate::disk::Disk;
use crate::past::MOST_UNSYNCED;
use crate::{Area, Drill, DrillArea, Failed, Fate, NoMemory, Outcome3, Plan, PlannedCalls};
use std::alloc::Global;

/// An area in memory, which fails and stops as planned.
///
/// It tells all that an area can tell. A call that is planned to fail changes nothing but the counts, and so does a
/// write that finds 65,536 writes unsynced. For the moments before now it keeps a record of the counted calls that ran
/// or stopped it, with room for 65,536 calls and 8,388,608 octets that they wrote. Where a call doesn't fit, the
/// record begins anew with it, and moments before that call aren't told; after a call that alone wrote more, no
/// moment before its end is told. A stop counts as a write of the stretch from the first octet to the last that it
/// may have changed.
#[derive(Drop)]
pub struct MemoryArea {
    disk: Disk,
    planned: PlannedCalls,
    faults: u64,
}

impl MemoryArea {
    /// An area of `length` octets, each of them 0, with this plan. It takes at most three times its length and
    /// 16 MiB. `NoMemory` where there is no memory for that.
    #[tactic(auto, using(crate::specs::Octets::length_zeros))]
    pub fn new(alloc: Global, length: u64, plan: Plan) -> Result<MemoryArea, NoMemory>
        ensures size { IfOk result (λ area. ⟦<MemoryArea as Area>⟧.size area ≡ length) }
        ensures octets { IfOk result (λ area. ⟦<MemoryArea as Area>⟧.octets area ≡ zeros length) }
        ensures durable { IfOk result (λ area. Only (zeros length) (⟦<MemoryArea as Area>⟧.may_leave area)) }
        ensures plan { IfOk result (λ area. IsFresh plan (zeros length) (⟦<MemoryArea as Area>⟧.fate area)) }
        ensures told { IfOk result (λ area.
            (⟦<MemoryArea as Area>⟧.moments area).told_from ≡ (⟦<MemoryArea as Area>⟧.moments area).now) }
        ensures room { IfOk result (λ area. (⟦<MemoryArea as Area>⟧.moments area).room ≡ all_room) }
        ensures faults { IfOk result (λ area. ⟦<MemoryArea as Area>⟧.faults area ≡ 0) }
    {
        let disk = Disk::new(alloc, length as usize)?;
        Ok(MemoryArea {
            disk,
            planned: PlannedCalls::new(plan),
            faults: 0,
        })
    }

    // What comes of the next write.
    fn write_fate(&self) -> Fate
        ensures { result ≡
            fate_with (most_unsynced - length self.now.disk.unsynced.items) (next_fate self.now.planned) }
    {
        if self.disk.unsynced.len() >= MOST_UNSYNCED {
            return Fate::Fails;
        }
        self.planned.next_fate()
    }
}

// Counts one fault, and fails.
fn fail(faults: &mut u64) -> Result<(), Failed>
    ensures fails { IsErr result }
    ensures cause { HasCause faults.old faults.new result }
{
    *faults = faults.saturating_add(1);
    Err(Failed)
}

impl Area for MemoryArea {
    ghost size = { λ a. length a.disk.present.items };

    ghost tells_octets = { true };

    ghost octets = { λ a. a.disk.present.items };

    ghost tells_crash = { true };

    ghost may_leave = { λ a octets. DiskMayLeave a.disk octets };

    ghost moments = { λ a. moments_in a.disk };

    ghost most_room = { all_room };

    ghost tells_calls = { true };

    ghost calls = { λ a. a.planned.calls };

    ghost tells_fate = { true };

    ghost fate = { prospect_of };

    ghost faults = { λ a. a.faults };

    ghost holds = { λ a. same_refl a.disk.unsynced.items a.disk.present.items };

    ghost whole = { λ a told. refl };

    ghost same_size = { λ a octets told left. left.size };

    ghost same_size_since = { λ a t octets tells told le left. disk_same_size a.disk t octets left };

    ghost counts_now = { λ a t octets told le left. disk_counts_now a.disk t octets le left };

    ghost only_now = { λ a octets told left. disk_only_now a.disk octets told left };

    ghost may_stop = { λ a o told. disk_may_stop a.disk o };

    ghost stops_new = { λ a told. refl };

    ghost counts_calls = { λ a told. refl };

    fn length(&self) -> u64 {
        self.disk.present.len() as u64
    }

    fn read_at(&mut self, at: u64, into: &mut [u8]) -> Result<(), Failed> {
        if self.planned.count_read() {
            return fail(&mut self.faults);
        }
        let at = at as usize;
        into.copy_from_slice(&self.disk.present[at..at + into.len()]);
        Ok(())
    }

    fn write_at(&mut self, at: u64, from: &[u8]) -> Result<(), Failed> {
        let fate = self.write_fate();
        self.planned.count(fate);
        match fate {
            Fate::Runs => {
                self.disk.write(at as usize, from);
                Ok(())
            }
            Fate::Fails => fail(&mut self.faults),
            Fate::Stops(outcome) => {
                self.disk.stop(at as usize, from, outcome);
                fail(&mut self.faults)
            }
        }
    }

    fn sync(&mut self) -> Result<(), Failed> {
        let fate = self.planned.next_fate();
        self.planned.count(fate);
        match fate {
            Fate::Runs => {
                self.disk.settle();
                Ok(())
            }
            Fate::Fails => fail(&mut self.faults),
            Fate::Stops(outcome) => {
                self.disk.stop_between(outcome);
                fail(&mut self.faults)
            }
        }
    }
}

impl Drill for MemoryArea {
    ghost schedule = { λ a. a.planned };

    ghost kept = { IsKept };

    ghost left = { IsLeft };

    fn arm(&mut self, plan: Plan) {
        self.planned.arm(plan);
    }

    fn calls(&self) -> u64 {
        self.planned.calls()
    }

    fn stop(&mut self, outcome: Outcome3) {
        self.disk.stop_between(outcome);
        self.planned.set_stopped(true);
    }

    fn stopped(&self) -> bool {
        self.planned.is_stopped()
    }

    fn revive(&mut self) {
        self.planned.set_stopped(false);
    }
}

impl DrillArea for MemoryArea {
    ghost tells = { (refl, refl, refl, refl) };

    ghost same_schedule = { λ a. refl };

    ghost kept_size = { kept_disk_size };

    ghost kept_octets = { kept_present };

    ghost kept_crash = { kept_within };

    ghost kept_time = { kept_goes };

    ghost kept_leaves = { λ old new o kept. kept_leaves_of old new kept o };

    ghost kept_spare = { kept_disk_spare };

    ghost kept_faults = { λ old new kept. kept.faults };

    ghost left_size = { λ old new o left. left.size };

    ghost left_octets = { λ old new o left. left.present };

    ghost left_crash = { left_within };

    ghost left_time = { left_goes };

    ghost left_leaves = { λ old new o p left. left_leaves_of old new o left p };

    ghost left_spare = { left_disk_spare };

    ghost left_faults = { λ old new o left. left.faults };
}
