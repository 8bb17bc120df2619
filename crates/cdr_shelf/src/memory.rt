// A shelf in memory with planned failures and stops.
ghost use Rattle.std.specs.Prelude.{◌≡◌, ◌↔◌, ◌++◌, ℕ, [], IfOk, IsNone, None, option_map, is_err, true, false, if◌then◌else◌};
ghost use Rattle.std.proofs.Common.{refl};
ghost use Rattle.area_disk.specs.Disk.{HasCause};
ghost use Rattle.area_disk.specs.Plan.{after_call, is_failure, schedule_of};
ghost use Rattle.cdr_shelf.specs.Files.{IsFresh, file_named, sealed_as};
ghost use Rattle.cdr_shelf.specs.Holding.{unsealed_in};
ghost use Rattle.cdr_shelf.specs.Steps.{Left, StepsAt, is_done, is_refused, left_by, left_unsealed};

use crate::contents::Contents;
use crate::{DrillShelf, FileName, Shelf, ShelfStop};
use area_disk::{Drill, Failed, Fate, NoMemory, Outcome3, Plan, PlannedCalls};
use std::alloc::Global;

/// A shelf in memory, which fails and stops as planned.
///
/// It tells all that a shelf can tell. A call that is planned to fail changes nothing but the counts. A stop in a
/// `seal` seals the file with the outcome `New` alone. A stop leaves of an unsealed file that was synced since its last
/// write what was written; of another one nothing with the outcome `Old`, what was written with `New`, and as many
/// octets `5A` with `Rot`.
#[derive(Drop)]
pub struct MemoryShelf {
    contents: Contents,
    planned: PlannedCalls,
    faults: u64,
}

impl MemoryShelf {
    /// An empty shelf with this plan, and room for what it notes of each stream. `NoMemory` where there is no memory
    /// for that.
    pub fn new(alloc: Global, plan: Plan) -> Result<MemoryShelf, NoMemory>
        ensures files { IfOk result (λ shelf. ⟦<MemoryShelf as Shelf>⟧.files shelf ≡ []) }
        ensures unsealed { IfOk result (λ shelf. (s : ℕ) → ⟦<MemoryShelf as Shelf>⟧.unsealed shelf s ≡ None) }
        ensures plan { IfOk result (λ shelf. ⟦<MemoryShelf as Shelf>⟧.plan shelf ≡ schedule_of plan) }
        ensures faults { IfOk result (λ shelf. ⟦<MemoryShelf as Shelf>⟧.faults shelf ≡ 0) }
    {
        let mut contents = Contents::new(alloc);
        contents.reserve(u8::MAX)?;
        Ok(MemoryShelf {
            contents,
            planned: PlannedCalls::new(plan),
            faults: 0,
        })
    }

    /// The octets of the sealed file with this name; `None` exactly where no sealed file has it.
    pub fn file(&self, name: FileName) -> Option<&[u8]>
        ensures octets { option_map (λ octets. octets.now) result ≡
            file_named name (⟦<MemoryShelf as Shelf>⟧.files self.now) }
        ensures none { IsNone result ↔ IsFresh name (⟦<MemoryShelf as Shelf>⟧.files self.now) }
    {
        self.contents.file(name)
    }

    // Counts one call, of which this comes once it did what it does, and makes its end.
    fn finish(&mut self, fate: Fate) -> Result<(), Failed>
        ensures fails { is_err result ≡ is_failure fate }
        ensures planned { self.new.planned ≡ after_call fate self.old.planned }
        ensures files { self.new.contents.files ≡ self.old.contents.files }
        ensures left { Left fate (unsealed_in self.old.contents) (unsealed_in self.new.contents) }
        ensures cause { HasCause self.old.faults self.new.faults result }
    {
        self.planned.count(fate);
        match fate {
            Fate::Runs => return Ok(()),
            Fate::Fails => {}
            Fate::Stops(outcome) => self.contents.stop(outcome),
        }
        self.faults = self.faults.saturating_add(1);
        Err(Failed)
    }

    // Seals the stream's unsealed file, or does nothing.
    fn seal_where(&mut self, done: bool, stream: u8)
        ensures planned { self.new.planned ≡ self.old.planned }
        ensures faults { self.new.faults ≡ self.old.faults }
        ensures files { self.new.contents.files ≡ (if done
            then self.old.contents.files ++ sealed_as (unsealed_in self.old.contents stream)
            else self.old.contents.files) }
        ensures ended { StepsAt stream (λ f. if done then left_unsealed f else f)
            (unsealed_in self.old.contents) (unsealed_in self.new.contents) }
    {
        if done {
            self.contents.seal(stream);
        }
    }
}

// Whether a call with this fate isn't made at all.
fn is_refused(fate: Fate) -> bool
    ensures { result ≡ is_refused fate }
{
    matches!(fate, Fate::Fails)
}

// Whether a seal with this fate is done.
fn is_done(fate: Fate) -> bool
    ensures { result ≡ is_done fate }
{
    matches!(fate, Fate::Runs | Fate::Stops(Outcome3::New))
}

impl Shelf for MemoryShelf {
    ghost tells_files = { true };

    ghost files = { λ s. s.contents.files };

    ghost unsealed = { λ s. unsealed_in s.contents };

    ghost tells_calls = { true };

    ghost calls = { λ s. s.planned.calls };

    ghost tells_plan = { true };

    ghost plan = { λ s. s.planned };

    ghost faults = { λ s. s.faults };

    ghost counts_calls = { λ s told. refl };

    fn begin(&mut self, name: FileName) -> Result<(), ShelfStop> {
        let fate = self.planned.next_fate();
        if is_refused(fate) {
            return Ok(self.finish(fate)?);
        }
        self.contents.begin(name)?;
        Ok(self.finish(fate)?)
    }

    fn write_at(&mut self, stream: u8, at: u32, from: &[u8]) -> Result<(), ShelfStop> {
        let fate = self.planned.next_fate();
        if is_refused(fate) {
            return Ok(self.finish(fate)?);
        }
        self.contents.write(stream, at, from)?;
        Ok(self.finish(fate)?)
    }

    fn sync(&mut self, stream: u8) -> Result<(), Failed> {
        let fate = self.planned.next_fate();
        if is_refused(fate) {
            return self.finish(fate);
        }
        self.contents.sync(stream);
        self.finish(fate)
    }

    fn seal(&mut self, stream: u8) -> Result<(), Failed> {
        let fate = self.planned.next_fate();
        self.seal_where(is_done(fate), stream);
        self.finish(fate)
    }

    fn sealed(&mut self, stream: u8) -> Result<u32, Failed> {
        if self.planned.count_read() {
            self.faults = self.faults.saturating_add(1);
            return Err(Failed);
        }
        Ok(self.contents.greatest(stream))
    }
}

impl Drill for MemoryShelf {
    ghost schedule = { λ s. s.planned };

    ghost kept = { λ old new. (new.contents ≡ old.contents) × (new.faults ≡ old.faults) };

    ghost left = { λ old o new. (new.contents.files ≡ old.contents.files) ×
        ((s : ℕ) → unsealed_in new.contents s ≡ left_by o (unsealed_in old.contents s)) × (new.faults ≡ old.faults) };

    fn arm(&mut self, plan: Plan) {
        self.planned.arm(plan);
    }

    fn calls(&self) -> u64 {
        self.planned.calls()
    }

    fn stop(&mut self, outcome: Outcome3) {
        self.contents.stop(outcome);
        self.planned.set_stopped(true);
    }

    fn stopped(&self) -> bool {
        self.planned.is_stopped()
    }

    fn revive(&mut self) {
        self.planned.set_stopped(false);
    }
}

impl DrillShelf for MemoryShelf {
    ghost use Rattle.std.specs.Prelude.{refl};
    ghost use Rattle.std.proofs.Common.{ap};
    ghost use Rattle.cdr_shelf.specs.Holding.{Holding, unsealed_in};

    ghost tells = { (refl, refl, refl) };

    ghost same_plan = { λ s. refl };

    ghost kept_files = { λ old new kept. ap (λ (h : Holding). h.files) kept.0 };

    ghost kept_unsealed = { λ old new stream kept. ap (λ (h : Holding). unsealed_in h stream) kept.0 };

    ghost kept_faults = { λ old new kept. kept.1 };

    ghost left_files = { λ old new o left. left.0 };

    ghost left_unsealed = { λ old new o stream left. left.1 stream };

    ghost left_faults = { λ old new o left. left.2 };
}
