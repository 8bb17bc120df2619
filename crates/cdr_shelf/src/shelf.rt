// A shelf as a writer of files sees it: sealed files, which stay, and one file per stream that is being written.
ghost use Rattle.std.specs.Prelude.{◌≡◌, ℕ, List, Bool, IsTrue, IsSome, IfOk, Option, false};
ghost use Rattle.area_disk.specs.Disk.{HasCause};
ghost use Rattle.area_disk.specs.Plan.{Schedule};
ghost use Rattle.cdr_shelf.specs.Files.{SealedFile, UnsealedFile, IsFresh, greatest_in};
ghost use Rattle.cdr_shelf.specs.Calls.{Seals, Steps, state_by, told_by};
ghost use Rattle.cdr_shelf.specs.Steps.{ReadAsPlanned, TakesWrite, begun, is_memory, synced, written};

use crate::FileName;
use area_disk::Failed;
use std::alloc::AllocError;
use std::error::Error;
use std::fmt;

/// Why a file wasn't begun or written.
#[derive(Clone, Copy, Debug, PartialEq, Eq)]
pub enum ShelfStop {
    /// The shelf failed. Its count of faults rose in this call.
    Failed,
    /// There was no memory for it, and the shelf is as before.
    NoMemory,
}

impl fmt::Display for ShelfStop {
    ghost use Rattle.std.specs.Prelude.{Some};
    ghost use Rattle.cdr_shelf.specs.FaultText.{shelf_stop_text};

    ghost output = { λ stop. Some (shelf_stop_text stop) };

    fn fmt<W: fmt::Write>(&self, f: &mut fmt::Formatter<W>) -> fmt::Result {
        f.write_str(match self {
            ShelfStop::Failed => "the shelf failed",
            ShelfStop::NoMemory => "out of memory",
        })
    }
}

impl Error for ShelfStop {}

impl From<AllocError> for ShelfStop {
    ghost use Rattle.std.specs.Prelude.{◌≡◌};
    ghost use Rattle.cdr_shelf.specs.declared.shelf.ShelfStop.TheVariants as stop;

    ghost from_gives = { λ _ e. e ≡ stop.NoMemory };

    fn from(_: AllocError) -> Self {
        ShelfStop::NoMemory
    }
}

impl From<Failed> for ShelfStop {
    ghost use Rattle.std.specs.Prelude.{◌≡◌};
    ghost use Rattle.cdr_shelf.specs.declared.shelf.ShelfStop.TheVariants as stop;

    ghost from_gives = { λ _ e. e ≡ stop.Failed };

    fn from(_: Failed) -> Self {
        ShelfStop::Failed
    }
}

/// Files by name: those that are sealed, which stay, and at most one unsealed file per stream.
///
/// After a crash all sealed files are there, and the file whose seal was going on is sealed or not. An unsealed file
/// may then hold anything or be missing, so after a crash or a call that failed nothing is told of unsealed files
/// beyond the plan. A seal stands only where the file was synced since the last write.
///
/// What it holds, its counted calls, and what is planned for the calls to come is each told or not by a type: where
/// it isn't told, no clause speaks of it. Counted calls are `begin`, `write_at`, `sync` and `seal`; `sealed` is a
/// read.
pub trait Shelf: Drop {
    /// Whether it tells what it holds.
    ghost tells_files: { Bool };

    /// The sealed files, in the order in which they were sealed. This list only grows, by whole files: what is sealed
    /// at any moment of a call, in it or after a crash in it, is the list before the call or the list after it.
    ghost files: { Self → List SealedFile };

    /// The unsealed file of each stream, by the stream's number.
    ghost unsealed: { Self → ℕ → Option UnsealedFile };

    /// Whether it tells the number of its counted calls.
    ghost tells_calls: { Bool };

    /// How many counted calls were made, the failed ones included.
    ghost calls: { Self → ℕ };

    /// Whether it tells what is planned for the calls to come.
    ghost tells_plan: { Bool };

    /// What is planned for the calls to come.
    ghost plan: { Self → Schedule };

    /// How often the shelf has failed. It stands still at its last value, which counts as risen.
    ghost faults: { Self → ℕ };

    /// Makes an empty file with this name the unsealed file of the name's stream, in the place of the one before. No
    /// sealed file has the name.
    fn begin(&mut self, name: FileName) -> Result<(), ShelfStop>
        requires { IsTrue tells_files → IsFresh name (files self.old) }
        ensures steps { let state = state_by files unsealed calls plan faults in
            Steps (told_by tells_files tells_calls tells_plan) name.stream (begun name) (is_memory result)
            (state self.old) (state self.new) result };

    /// Writes `from` over the octets of the stream's unsealed file from octet `at` on, which is at most its end. The
    /// file grows where `from` reaches past its end.
    fn write_at(&mut self, stream: u8, at: u32, from: &[u8]) -> Result<(), ShelfStop>
        requires { IsTrue tells_files → TakesWrite at (unsealed self.old stream) }
        ensures steps { let state = state_by files unsealed calls plan faults in
            Steps (told_by tells_files tells_calls tells_plan) stream (written at from.now) (is_memory result)
            (state self.old) (state self.new) result };

    /// Waits until what was written of the stream's unsealed file stands.
    fn sync(&mut self, stream: u8) -> Result<(), Failed>
        requires { IsTrue tells_files → IsSome (unsealed self.old stream) }
        ensures steps { let state = state_by files unsealed calls plan faults in
            Steps (told_by tells_files tells_calls tells_plan) stream synced false
            (state self.old) (state self.new) result };

    /// Seals the stream's unsealed file, which is synced before. A file that wasn't synced since its last write
    /// isn't sealed by it. After `Failed` the file may be sealed or not. It takes no memory.
    fn seal(&mut self, stream: u8) -> Result<(), Failed>
        requires { IsTrue tells_files → IsSome (unsealed self.old stream) }
        ensures seals { let state = state_by files unsealed calls plan faults in
            Seals (told_by tells_files tells_calls tells_plan) stream (state self.old) (state self.new) result };

    /// The greatest sequence number of a sealed file of this stream, 0 where there is none. It changes nothing but the
    /// count of faults.
    fn sealed(&mut self, stream: u8) -> Result<u32, Failed>
        ensures greatest { IsTrue tells_files → IfOk result (λ n. n ≡ greatest_in stream (files self.old)) }
        ensures files { files self.new ≡ files self.old }
        ensures unsealed { (s : ℕ) → unsealed self.new s ≡ unsealed self.old s }

        ensures calls { IsTrue tells_calls → calls self.new ≡ calls self.old }
        ensures planned { IsTrue tells_plan → ReadAsPlanned (plan self.old) result (plan self.new) }
        ensures cause { HasCause (faults self.old) (faults self.new) result };

    /// The plan counts the counted calls.
    ghost counts_calls: { (s : Self) → IsTrue tells_plan → (plan s).calls ≡ calls s };
}
