ghost use Rattle.std.specs.Prelude.{◌≡◌, IfOk, IsSome, OnOk, string_bytes};
ghost use Rattle.cgf_edge.specs.Folder.{with_slash};

use crate::name::{Paths, greatest};
use crate::open::{make_new, open_folder};
use crate::part::{Part, waiting_room};
use crate::trouble::Troubles;
use crate::{DiskFile, Trouble};
use area_disk::{Failed, NoMemory};
use cdr_shelf::{FileName, Shelf, ShelfStop};
use std::alloc::{AllocError, Global};
use std::fs;
use std::fs::{File, Files};
use std::io::ErrorKind;

/// So many streams have a number of two digits.
const STREAMS: usize = 100;

/// The shelf in a folder, which must be there. It is opened and locked at the first call.
///
/// The file that stream SS writes has the name `SS.part`, a sealed file `SS-NNNNNNNNNN.cdr`. A part that an earlier run
/// left is removed when the stream begins its next file, and is never read. Files with other names stay as they are.
/// What follows in a part is written together, at the latest by `sync` and `seal`.
///
/// `begin` and `seal` refuse a name that a sealed file has. After a sync of the folder that failed each call fails, and
/// after one of a file each write, sync and seal of that file.
///
/// It tells nothing of what it holds.
#[derive(Drop)]
pub struct FolderShelf<'a, R: Files> {
    files: &'a R,
    alloc: Global,
    path: String,
    folder: Option<DiskFile>,
    parts: Vec<Option<Part>>,
    troubles: Troubles,
}

impl<'a, R: Files<File = File>> FolderShelf<'a, R> {
    /// The shelf in the folder at this path, which isn't opened yet, with room for what it notes of each stream.
    /// `NoMemory` where there is no memory for that. It has failed no call yet.
    pub fn new(alloc: Global, files: &'a R, path: &str) -> Result<Self, NoMemory>
        ensures files { IfOk result (λ shelf. shelf.files.now ≡ files.now) }
        ensures path { IfOk result (λ shelf. string_bytes shelf.path ≡ with_slash path.now) }
        ensures faults { IfOk result (λ shelf. shelf.troubles.count ≡ 0) }
    {
        let path = with_slash(alloc, path)?;
        let parts = no_parts(alloc)?;
        Ok(FolderShelf {
            files,
            alloc,
            path,
            folder: None,
            parts,
            troubles: Troubles::new(),
        })
    }

    /// What the last call that failed has failed with, unless that was an earlier sync alone.
    pub fn trouble(&self) -> Option<Trouble>
        ensures { result ≡ self.now.troubles.last }
    {
        self.troubles.last
    }

    /// Opens the folder where that wasn't done yet. It fails after a sync of it that failed.
    fn open(&mut self) -> Result<(), Trouble>
        ensures open { OnOk result (IsSome self.new.folder) }
        ensures troubles { self.new.troubles ≡ self.old.troubles }
    {
        if let Some(folder) = &self.folder {
            if folder.is_unsynced() {
                return Err(Trouble::Unsynced);
            }
            return Ok(());
        }
        let folder = open_folder(self.files, self.path.as_str())?;
        self.folder = Some(DiskFile::new(folder));
        Ok(())
    }

    /// Makes an empty file of this name the stream's part, with this room for what waits.
    fn make(&mut self, stream: u8, paths: Paths, waiting: Vec<u8>) -> Result<(), Trouble>
        ensures troubles { self.new.troubles ≡ self.old.troubles }
    {
        self.open()?;
        if fs::exists(self.files, paths.sealed.as_str())? {
            return Err(Trouble::Sealed);
        }
        let Some(place) = self.parts.get_mut(stream as usize) else {
            return Err(Trouble::NoFile);
        };
        *place = None;
        remove_leftover(self.files, paths.part.as_str())?;
        let file = DiskFile::new(make_new(self.files, paths.part.as_str())?);
        *place = Some(Part::new(file, paths, waiting));
        Ok(())
    }

    fn write(&mut self, stream: u8, at: u32, from: &[u8]) -> Result<(), Trouble>
        ensures troubles { self.new.troubles ≡ self.old.troubles }
    {
        self.open()?;
        match self.parts.get_mut(stream as usize) {
            Some(Some(part)) => part.write(u64::from(at), from),
            _ => Err(Trouble::NoFile),
        }
    }

    fn settle(&mut self, stream: u8) -> Result<(), Trouble>
        ensures troubles { self.new.troubles ≡ self.old.troubles }
    {
        self.open()?;
        match self.parts.get_mut(stream as usize) {
            Some(Some(part)) => part.sync(),
            _ => Err(Trouble::NoFile),
        }
    }

    /// Syncs the stream's part and gives it the name of a sealed file.
    fn rename(&mut self, stream: u8) -> Result<(), Trouble>
        ensures troubles { self.new.troubles ≡ self.old.troubles }
    {
        self.open()?;
        let Some(place) = self.parts.get_mut(stream as usize) else {
            return Err(Trouble::NoFile);
        };
        seal_part(self.files, place)?;
        self.folder.as_mut().unwrap().sync_all()
    }

    fn list(&mut self, stream: u8) -> Result<u32, Trouble>
        ensures troubles { self.new.troubles ≡ self.old.troubles }
    {
        self.open()?;
        self.folder.as_mut().unwrap().sync_all()?;
        Ok(greatest(self.files, self.path.as_str(), stream)?)
    }
}

/// The path of a folder with a slash behind it; an empty one names no folder, and stays so.
fn with_slash(alloc: Global, path: &str) -> Result<String, AllocError>
    ensures { IfOk result (λ whole. string_bytes whole ≡ with_slash path.now) }
{
    let mut whole = String::from_str(alloc, path)?;
    if !path.is_empty() {
        whole.push('/')?;
    }
    Ok(whole)
}

/// A place for the part of each stream.
fn no_parts(alloc: Global) -> Result<Vec<Option<Part>>, AllocError> {
    let mut parts = Vec::new(alloc);
    for _ in 0..STREAMS {
        parts.push(None)?;
    }
    Ok(parts)
}

/// Removes a part that an earlier run left.
fn remove_leftover<R: Files>(files: &R, path: &str) -> Result<(), Trouble> {
    match fs::remove_file(files, path) {
        Ok(()) => Ok(()),
        Err(error) => {
            if error.kind() == ErrorKind::NotFound {
                Ok(())
            } else {
                Err(Trouble::System(error))
            }
        }
    }
}

/// Syncs a part and renames it, where no sealed file has the name.
fn seal_part<R: Files>(files: &R, place: &mut Option<Part>) -> Result<(), Trouble> {
    let Some(part) = place else {
        return Err(Trouble::NoFile);
    };
    part.sync()?;
    if fs::exists(files, part.paths.sealed.as_str())? {
        return Err(Trouble::Sealed);
    }
    fs::rename(files, part.paths.part.as_str(), part.paths.sealed.as_str())?;
    *place = None;
    Ok(())
}

impl<R: Files<File = File>> Shelf for FolderShelf<'_, R> {
    ghost use Rattle.std.specs.Prelude.{[], None, false};
    ghost use Rattle.area_disk.specs.Quiet.{not_told};
    ghost use Rattle.cdr_shelf.specs.Quiet.{no_plan};

    ghost tells_files = { false };

    ghost files = { λ s. [] };

    ghost unsealed = { λ s stream. None };

    ghost tells_calls = { false };

    ghost calls = { λ s. 0 };

    ghost tells_plan = { false };

    ghost plan = { λ s. no_plan };

    ghost faults = { λ s. s.troubles.count };

    ghost counts_calls = { λ s told. not_told told };

    fn begin(&mut self, name: FileName) -> Result<(), ShelfStop> {
        let paths = Paths::new(self.alloc, self.path.as_str(), name)?;
        let waiting = waiting_room(self.alloc)?;
        let done = self.make(name.stream, paths, waiting);
        Ok(self.troubles.told(done)?)
    }

    fn write_at(&mut self, stream: u8, at: u32, from: &[u8]) -> Result<(), ShelfStop> {
        let done = self.write(stream, at, from);
        Ok(self.troubles.told(done)?)
    }

    fn sync(&mut self, stream: u8) -> Result<(), Failed> {
        let done = self.settle(stream);
        self.troubles.told(done)
    }

    fn seal(&mut self, stream: u8) -> Result<(), Failed> {
        let done = self.rename(stream);
        self.troubles.told(done)
    }

    fn sealed(&mut self, stream: u8) -> Result<u32, Failed> {
        let done = self.list(stream);
        self.troubles.told(done)
    }
}
