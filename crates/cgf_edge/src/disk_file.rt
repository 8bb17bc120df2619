ghost use Rattle.std.specs.Prelude.{◌≡◌, ◌||◌, true, false, is_err};

use crate::Trouble;
use std::fs::File;
use std::os::fd::AsRawFd;
use std::os::unix::fs::FileExt;

/// An open file whose octets stand once a sync succeeds.
///
/// From a sync that failed on each write and sync fails: the system takes what it couldn't write for written, so that
/// its next sync would succeed. Reads go on.
#[derive(Drop)]
pub struct DiskFile {
    file: File,
    is_unsynced: bool,
}

impl DiskFile {
    /// The file, of which no sync has failed.
    pub fn new(file: File) -> DiskFile
        ensures { result.is_unsynced ≡ false }
    {
        DiskFile {
            file,
            is_unsynced: false,
        }
    }

    /// Whether a sync has failed.
    pub fn is_unsynced(&self) -> bool
        ensures { result ≡ self.now.is_unsynced }
    {
        self.is_unsynced
    }

    /// Fills `into` with the octets from place `at` on.
    pub fn read(&self, at: u64, into: &mut [u8]) -> Result<(), Trouble> {
        self.file.read_exact_at(into, at)?;
        Ok(())
    }

    /// Asks the system to read so many octets from place `at` on, which are used soon. Where it doesn't, it reads them
    /// once they are used.
    pub fn will_need(&self, at: u64, count: u32) {
        if let Ok(at) = i64::try_from(at) {
            let descriptor = self.file.as_raw_fd();
            let _ = libc::posix_fadvise(
                descriptor,
                at,
                i64::from(count),
                libc::POSIX_FADV_WILLNEED,
            );
        }
    }

    /// Writes all of `from` from place `at` on.
    pub fn write(&self, at: u64, from: &[u8]) -> Result<(), Trouble>
        ensures { self.now.is_unsynced ≡ true → is_err result ≡ true }
    {
        if self.is_unsynced {
            return Err(Trouble::Unsynced);
        }
        self.file.write_all_at(from, at)?;
        Ok(())
    }

    /// Waits until the octets stand, and the length where it grew.
    pub fn sync_data(&mut self) -> Result<(), Trouble>
        ensures fails { self.old.is_unsynced ≡ true → is_err result ≡ true }
        ensures from_then_on { self.new.is_unsynced ≡ (self.old.is_unsynced || is_err result) }
    {
        if self.is_unsynced {
            return Err(Trouble::Unsynced);
        }
        let done = self.file.sync_data();
        self.is_unsynced = done.is_err();
        done.map_err(Trouble::System)
    }

    /// Waits until all that the system keeps of it stands: of a folder, its names.
    pub fn sync_all(&mut self) -> Result<(), Trouble>
        ensures fails { self.old.is_unsynced ≡ true → is_err result ≡ true }
        ensures from_then_on { self.new.is_unsynced ≡ (self.old.is_unsynced || is_err result) }
    {
        if self.is_unsynced {
            return Err(Trouble::Unsynced);
        }
        let done = self.file.sync_all();
        self.is_unsynced = done.is_err();
        done.map_err(Trouble::System)
    }
}
