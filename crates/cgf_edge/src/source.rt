ghost use Rattle.std.specs.Prelude.{◌≡◌, ◌≤◌, None, length, IfOk, OnOk, IsSome, option_and_then};
ghost use Rattle.std.specs.Io.KnownBytes.{ReadConsumes};

use crate::again::read_again;
use gw_base::{Failed, Source};
use std::fs::Files;
use std::io::Read;
use std::{fs, io};

/// A source over a reader. It tells what is left where the reader does. A read that a signal interrupts is made again.
#[derive(Drop)]
pub struct ReaderSource<R: Read + Drop> {
    reader: R,
    faults: u64,
}

impl<R: Read + Drop> ReaderSource<R> {
    /// A source of what the reader has left. It has failed no call yet.
    pub fn new(reader: R) -> Self
        ensures reader { result.reader ≡ reader }
        ensures faults { result.faults ≡ 0 }
    {
        ReaderSource { reader, faults: 0 }
    }
}

impl<R: Read + Drop> Source for ReaderSource<R> {
    ghost left = { λ s. R.remaining s.reader };

    ghost faults = { λ s. s.faults };

    fn take(&mut self, into: &mut [u8]) -> Result<usize, Failed> {
        match read_again(&mut self.reader, into) {
            Ok(count) => Ok(count),
            Err(_) => {
                self.faults = self.faults.saturating_add(1);
                Err(Failed)
            }
        }
    }
}

/// The source of a file that is opened at the first call. It tells what is left where the open file
/// does. Where the file can't be opened, the call fails.
#[derive(Drop)]
pub struct FileSource<'a, R: Files> {
    files: &'a R,
    path: &'a str,
    file: Option<R::File>,
    faults: u64,
}

impl<'a, R: Files> FileSource<'a, R> {
    /// The source of the file at this path, which isn't opened yet. It has failed no call yet.
    pub fn new(files: &'a R, path: &'a str) -> Self
        ensures files { result.files.now ≡ files.now }
        ensures path { result.path.now ≡ path.now }
        ensures file { result.file ≡ None }
        ensures faults { result.faults ≡ 0 }
    {
        FileSource {
            files,
            path,
            file: None,
            faults: 0,
        }
    }

    /// Reads on in the file, which it opens where that wasn't done yet.
    fn read(&mut self, into: &mut [u8]) -> io::Result<usize>
        ensures within { IfOk result (λ count. count ≤ length into.new) }
        ensures read { ReadConsumes (option_and_then R.File.remaining self.old.file)
            (option_and_then R.File.remaining self.new.file) result into.new }
        ensures open { OnOk result (IsSome self.new.file) }
        ensures faults { self.new.faults ≡ self.old.faults }
    {
        if let Some(file) = &mut self.file {
            return read_again(file, into);
        }
        let mut file = fs::open(self.files, self.path)?;
        let count = read_again(&mut file, into)?;
        self.file = Some(file);
        Ok(count)
    }
}

impl<R: Files> Source for FileSource<'_, R> {
    ghost use Rattle.std.specs.Prelude.{option_and_then};

    ghost left = { λ s. option_and_then R.File.remaining s.file };

    ghost faults = { λ s. s.faults };

    fn take(&mut self, into: &mut [u8]) -> Result<usize, Failed> {
        match self.read(into) {
            Ok(count) => Ok(count),
            Err(_) => {
                self.faults = self.faults.saturating_add(1);
                Err(Failed)
            }
        }
    }
}
