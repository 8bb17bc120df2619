// Shelves in memory whose failures and stops are planned.
ghost use Rattle.std.specs.Prelude.{◌≡◌, ℕ, IsTrue};
ghost use Rattle.area_disk.specs.declared.plan.Outcome3.{Outcome3};
ghost use Rattle.cdr_shelf.specs.Steps.{left_by};

use crate::Shelf;
use area_disk::Drill;

/// A shelf that is a `Drill`. It has no calls of its own: its laws say what the calls of `Drill` do to a shelf.
pub trait DrillShelf: Shelf + Drill {
    /// It tells what it holds, its counted calls and its plan.
    ghost tells: { IsTrue Self.tells_files × IsTrue Self.tells_calls × IsTrue Self.tells_plan };

    /// The plan that was armed decides what comes of the shelf's calls.
    ghost same_plan: { (s : Self) → Self.plan s ≡ Self.schedule s };

    /// What is kept.
    ghost kept_files: { (old new : Self) → Self.kept old new → Self.files new ≡ Self.files old };

    ghost kept_unsealed: { (old new : Self) (stream : ℕ) → Self.kept old new →
        Self.unsealed new stream ≡ Self.unsealed old stream };

    ghost kept_faults: { (old new : Self) → Self.kept old new → Self.faults new ≡ Self.faults old };

    /// What a stop between two calls leaves: all that is sealed, and of each unsealed file what its outcome says.
    ghost left_files: { (old new : Self) (o : Outcome3) → Self.left old o new → Self.files new ≡ Self.files old };

    ghost left_unsealed: { (old new : Self) (o : Outcome3) (stream : ℕ) → Self.left old o new →
        Self.unsealed new stream ≡ left_by o (Self.unsealed old stream) };

    ghost left_faults: { (old new : Self) (o : Outcome3) → Self.left old o new → Self.faults new ≡ Self.faults old };
}
