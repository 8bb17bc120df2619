// The file that a stream writes. Octets that follow one another wait, so that one call of the system writes many.
ghost use Rattle.std.specs.Prelude.{◌≡◌, true, is_err};

use crate::name::Paths;
use crate::{DiskFile, Trouble};
use std::alloc::{AllocError, Global};

/// How many octets wait, unless more come at once.
const WAITING: usize = 65_536;

/// A file that is written, and what waits to be written to it.
///
/// What waits stands in the file once a write of other octets, or a sync, was made. Where the system refuses it, that
/// call fails and it waits still. After a sync that failed each call fails.
#[derive(Drop)]
pub struct Part {
    file: DiskFile,
    pub paths: Paths,
    at: u64,
    waiting: Vec<u8>,
}

/// Room for the octets that wait for a file.
pub fn waiting_room(alloc: Global) -> Result<Vec<u8>, AllocError> {
    Ok(Vec::with_capacity(alloc, WAITING)?)
}

impl Part {
    /// The empty file with these paths, and room for what waits.
    pub fn new(file: DiskFile, paths: Paths, waiting: Vec<u8>) -> Part {
        Part {
            file,
            paths,
            at: 0,
            waiting,
        }
    }

    /// Whether so many octets from place `at` on can wait behind those that wait.
    fn has_room(&self, at: u64, count: usize) -> bool {
        let waits = self.waiting.len();
        let end = self.at.saturating_add(waits as u64);
        at == end && waits.saturating_add(count) <= self.waiting.capacity()
    }

    /// Writes what waits.
    fn flush(&mut self) -> Result<(), Trouble>
        ensures { self.old.file.is_unsynced ≡ true → self.new.file.is_unsynced ≡ true }
    {
        if self.waiting.is_empty() {
            return Ok(());
        }
        self.file.write(self.at, &self.waiting)?;
        self.at = self.at.saturating_add(self.waiting.len() as u64);
        self.waiting.clear();
        Ok(())
    }

    /// Writes all of `from` from place `at` on, or lets it wait.
    pub fn write(&mut self, at: u64, from: &[u8]) -> Result<(), Trouble>
        ensures { self.old.file.is_unsynced ≡ true → is_err result ≡ true }
    {
        if self.file.is_unsynced() {
            return Err(Trouble::Unsynced);
        }
        if !self.has_room(at, from.len()) {
            self.flush()?;
            self.at = at;
        }
        match self.waiting.extend_from_slice(from) {
            Ok(()) => Ok(()),
            Err(_) => self.file.write(at, from),
        }
    }

    /// Writes what waits, and waits until all of the file stands.
    pub fn sync(&mut self) -> Result<(), Trouble>
        ensures { self.old.file.is_unsynced ≡ true → is_err result ≡ true }
    {
        self.flush()?;
        self.file.sync_all()
    }
}
