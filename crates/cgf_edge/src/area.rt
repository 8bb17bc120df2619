ghost use Rattle.std.specs.Prelude.{◌≡◌, None, IsSome, OnOk};

use crate::coming::Coming;
use crate::open::open_area;
use crate::trouble::Troubles;
use crate::window::Window;
use crate::{DiskFile, Trouble};
use area_disk::{Area, Failed};
use std::alloc::Global;
use std::fs::{File, Files};

/// So many octets are read alone.
const FEW: usize = 2048;

/// How many are read at once else.
const AHEAD: usize = 4096;

/// How many of those that were written last are kept.
const WRITTEN: usize = 65_536;

/// The area in a file, which is opened, locked and allocated at the first call: where it is missing it is made, and
/// where an earlier start was stopped while it filled it, it is filled to its end.
///
/// A call fails where the file can't be opened so, and the next one tries again. A file that somebody else has locked,
/// one that isn't regular, and one of another length stay as they were.
///
/// Few octets are read with those behind them, up to the next write, and what was written last is kept: who reads one
/// entry behind the other has most without a call of the system. Where there is no memory for that each read is a call.
/// Those behind a write are asked for, so that the next one finds them in memory.
///
/// It tells nothing of what it holds. From a `sync` that failed on each write and sync fails, while reads go on.
#[derive(Drop)]
pub struct FileArea<'a, R: Files> {
    files: &'a R,
    path: &'a str,
    length: u64,
    file: Option<DiskFile>,
    ahead: Window,
    written: Window,
    coming: Coming,
    troubles: Troubles,
}

impl<'a, R: Files<File = File>> FileArea<'a, R> {
    /// The area of `length` octets in the file at this path, which isn't opened yet. It has failed no call yet.
    pub fn new(alloc: Global, files: &'a R, path: &'a str, length: u64) -> Self
        ensures files { result.files.now ≡ files.now }
        ensures path { result.path.now ≡ path.now }
        ensures length { result.length ≡ length }
        ensures file { result.file ≡ None }
        ensures faults { result.troubles.count ≡ 0 }
    {
        FileArea {
            files,
            path,
            length,
            file: None,
            ahead: Window::new(alloc, AHEAD),
            written: Window::new(alloc, WRITTEN),
            coming: Coming::new(),
            troubles: Troubles::new(),
        }
    }

    /// What the last call that failed has failed with, unless that was an earlier sync alone.
    pub fn trouble(&self) -> Option<Trouble>
        ensures { result ≡ self.now.troubles.last }
    {
        self.troubles.last
    }

    /// Opens the file where that wasn't done yet.
    fn open(&mut self) -> Result<(), Trouble>
        ensures open { OnOk result (IsSome self.new.file) }
        ensures length { self.new.length ≡ self.old.length }
        ensures troubles { self.new.troubles ≡ self.old.troubles }
    {
        if self.file.is_some() {
            return Ok(());
        }
        let file = open_area(self.files, self.path, self.length)?;
        self.file = Some(DiskFile::new(file));
        Ok(())
    }

    fn read(&mut self, at: u64, into: &mut [u8]) -> Result<(), Trouble>
        ensures length { self.new.length ≡ self.old.length }
        ensures troubles { self.new.troubles ≡ self.old.troubles }
    {
        self.open()?;
        let file = self.file.as_ref().unwrap();
        if self.written.give(at, into) || self.ahead.give(at, into) {
            return Ok(());
        }
        if into.len() < FEW {
            self.ahead.read(file, at, self.length);
            if self.ahead.give(at, into) {
                return Ok(());
            }
        }
        file.read(at, into)
    }

    fn write(&mut self, at: u64, from: &[u8]) -> Result<(), Trouble>
        ensures length { self.new.length ≡ self.old.length }
        ensures troubles { self.new.troubles ≡ self.old.troubles }
    {
        self.open()?;
        self.ahead.forget();
        let file = self.file.as_ref().unwrap();
        self.coming.ask(file, at, self.length);
        match file.write(at, from) {
            Ok(()) => {
                self.written.note(at, from);
                Ok(())
            }
            Err(trouble) => {
                self.written.forget();
                Err(trouble)
            }
        }
    }

    fn settle(&mut self) -> Result<(), Trouble>
        ensures length { self.new.length ≡ self.old.length }
        ensures troubles { self.new.troubles ≡ self.old.troubles }
    {
        self.open()?;
        self.file.as_mut().unwrap().sync_data()
    }
}

impl<R: Files<File = File>> Area for FileArea<'_, R> {
    ghost use Rattle.std.specs.Prelude.{[], false};
    ghost use Rattle.std.proofs.Common.{refl};
    ghost use Rattle.std.proofs.Math.Bridge.{no_suc-le-zero};
    ghost use Rattle.area_disk.specs.Quiet.{no_moments, no_prospect, no_room, not_told};

    ghost size = { λ a. a.length };

    ghost tells_octets = { false };

    ghost octets = { λ a. [] };

    ghost tells_crash = { false };

    ghost may_leave = { λ a c. c ≡ [] };

    ghost moments = { λ a. no_moments };

    ghost most_room = { no_room };

    ghost tells_calls = { false };

    ghost calls = { λ a. 0 };

    ghost tells_fate = { false };

    ghost fate = { λ a. no_prospect };

    ghost faults = { λ a. a.troubles.count };

    ghost holds = { λ a. refl };

    ghost whole = { λ a told. not_told told };

    ghost same_size = { λ a c told left. not_told told };

    ghost same_size_since = { λ a t c tells told le left. not_told tells };

    ghost counts_now = { λ a t c le now left. tt };

    ghost only_now = { λ a c le left. absurd (no_suc-le-zero le) };

    ghost may_stop = { λ a o told. not_told told };

    ghost stops_new = { λ a told. not_told told };

    ghost counts_calls = { λ a told. not_told told };

    fn length(&self) -> u64 {
        self.length
    }

    fn read_at(&mut self, at: u64, into: &mut [u8]) -> Result<(), Failed> {
        match self.read(at, into) {
            Ok(()) => Ok(()),
            Err(trouble) => Err(self.troubles.failed(trouble)),
        }
    }

    #[tactic(auto, using(crate::proofs::Untold::follows))]
    fn write_at(&mut self, at: u64, from: &[u8]) -> Result<(), Failed> {
        match self.write(at, from) {
            Ok(()) => Ok(()),
            Err(trouble) => Err(self.troubles.failed(trouble)),
        }
    }

    fn sync(&mut self) -> Result<(), Failed> {
        match self.settle() {
            Ok(()) => Ok(()),
            Err(trouble) => Err(self.troubles.failed(trouble)),
        }
    }
}
