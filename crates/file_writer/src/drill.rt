// A writer on a shelf that is a `Drill`.
ghost use Rattle.std.specs.Prelude.{◌≡◌, ℕ, List, false};
ghost use Rattle.area_disk.specs.Plan.{armed, with_stopped};
ghost use Rattle.gw_base.specs.declared.item.Item.{Item};

use crate::Writer;
use area_disk::Plan;
use cdr_shelf::DrillShelf;

impl<F: DrillShelf> Writer<F> {
    ghost use Rattle.file_writer.specs.Writer.{IsAt, first_of, is_broken, sealed_in, settings_in, shelf_of, taken_of};

    /// Puts this plan in the place of the one before it. The calls of the shelf are counted anew from 1.
    pub fn arm(&mut self, plan: Plan)
        ensures plan { F.schedule (shelf_of self.new) ≡ armed plan (F.schedule (shelf_of self.old)) }
        ensures kept { F.kept (shelf_of self.old) (shelf_of self.new) }
        ensures broken { is_broken self.new ≡ is_broken self.old }
        ensures settings { settings_in self.new ≡ settings_in self.old }
        ensures count { (first_of self.new ≡ first_of self.old) × (taken_of self.new ≡ taken_of self.old) }
        ensures sealed { (s : ℕ) → sealed_in self.new s ≡ sealed_in self.old s }
        ensures at { (closed : ℕ → ℕ) (items : List Item) → IsAt self.old closed items → IsAt self.new closed items }
    {
        self.shelf.arm(plan);
    }

    /// Ends a stop of the shelf: its calls run again, as planned. Without a stop it does nothing.
    pub fn revive(&mut self)
        ensures running { F.schedule (shelf_of self.new) ≡ with_stopped false (F.schedule (shelf_of self.old)) }
        ensures kept { F.kept (shelf_of self.old) (shelf_of self.new) }
        ensures broken { is_broken self.new ≡ is_broken self.old }
        ensures settings { settings_in self.new ≡ settings_in self.old }
        ensures count { (first_of self.new ≡ first_of self.old) × (taken_of self.new ≡ taken_of self.old) }
        ensures sealed { (s : ℕ) → sealed_in self.new s ≡ sealed_in self.old s }
        ensures at { (closed : ℕ → ℕ) (items : List Item) → IsAt self.old closed items → IsAt self.new closed items }
    {
        self.shelf.revive();
    }

    /// The number of counted calls of the shelf since the plan was armed.
    pub fn calls(&self) -> u64
        ensures { result ≡ (F.schedule (shelf_of self.now)).calls }
    {
        self.shelf.calls()
    }

    /// Whether the shelf is stopped.
    pub fn stopped(&self) -> bool
        ensures { result ≡ (F.schedule (shelf_of self.now)).stopped }
    {
        self.shelf.stopped()
    }
}
