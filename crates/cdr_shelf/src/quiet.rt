// A shelf in memory that never fails.
ghost use Rattle.std.specs.Prelude.{◌≡◌, ◌↔◌, ◌^◌, ◌<◌, ℕ, [], length, IsNone, None, option_map, slice_get, true, false};
ghost use Rattle.cdr_shelf.specs.Files.{IsFresh, file_named, file_of};
ghost use Rattle.cdr_shelf.specs.Holding.{unsealed_in};

use crate::contents::Contents;
use crate::{FileName, Shelf, ShelfStop};
use area_disk::Failed;
use std::alloc::Global;

/// A shelf in memory whose calls never fail. It tells what it holds, and nothing of its calls.
#[derive(Drop)]
pub struct QuietShelf {
    contents: Contents,
}

impl QuietShelf {
    /// An empty shelf.
    pub fn new(alloc: Global) -> QuietShelf
        ensures files { ⟦<QuietShelf as Shelf>⟧.files result ≡ [] }
        ensures unsealed { (s : ℕ) → ⟦<QuietShelf as Shelf>⟧.unsealed result s ≡ None }
    {
        QuietShelf {
            contents: Contents::new(alloc),
        }
    }

    /// The octets of the sealed file with this name; `None` exactly where no sealed file has it.
    pub fn file(&self, name: FileName) -> Option<&[u8]>
        ensures octets { option_map (λ octets. octets.now) result ≡
            file_named name (⟦<QuietShelf as Shelf>⟧.files self.now) }
        ensures none { IsNone result ↔ IsFresh name (⟦<QuietShelf as Shelf>⟧.files self.now) }
    {
        self.contents.file(name)
    }

    /// The name and the octets of the sealed file before which so many others were sealed; `None` exactly where there are
    /// no more.
    pub fn nth(&self, k: usize) -> Option<(FileName, &[u8])>
        ensures file { option_map (λ file. file_of file.0 file.1.now) result ≡
            slice_get (⟦<QuietShelf as Shelf>⟧.files self.now) k }
        ensures few { length (⟦<QuietShelf as Shelf>⟧.files self.now) < 2 ^ 64 }
    {
        self.contents.nth(k)
    }
}

impl Shelf for QuietShelf {
    ghost use Rattle.area_disk.specs.Quiet.{not_told};
    ghost use Rattle.cdr_shelf.specs.Quiet.{no_plan};

    ghost tells_files = { true };

    ghost files = { λ s. s.contents.files };

    ghost unsealed = { λ s. unsealed_in s.contents };

    ghost tells_calls = { false };

    ghost calls = { λ s. 0 };

    ghost tells_plan = { false };

    ghost plan = { λ s. no_plan };

    ghost faults = { λ s. 0 };

    ghost counts_calls = { λ s told. not_told told };

    fn begin(&mut self, name: FileName) -> Result<(), ShelfStop> {
        self.contents.begin(name)?;
        Ok(())
    }

    fn write_at(&mut self, stream: u8, at: u32, from: &[u8]) -> Result<(), ShelfStop> {
        self.contents.write(stream, at, from)?;
        Ok(())
    }

    fn sync(&mut self, stream: u8) -> Result<(), Failed> {
        self.contents.sync(stream);
        Ok(())
    }

    fn seal(&mut self, stream: u8) -> Result<(), Failed> {
        self.contents.seal(stream);
        Ok(())
    }

    fn sealed(&mut self, stream: u8) -> Result<u32, Failed> {
        Ok(self.contents.greatest(stream))
    }
}
