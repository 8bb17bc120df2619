// The names of files in the folder of a shelf: `SS.part` while stream SS writes it, `SS-NNNNNNNNNN.cdr` once it is
// sealed.
use cdr_shelf::FileName;
use std::alloc::{AllocError, Global};
use std::fs::Files;
use std::io;
use std::io::{ErrorKind, Read};

/// So many digits has the number of a sealed file.
const DIGITS: usize = 10;

/// The paths of one file: while it is written, and once it is sealed.
#[derive(Drop)]
pub struct Paths {
    pub part: String,
    pub sealed: String,
}

impl Paths {
    /// Those of this file in a folder, whose path ends in a slash.
    pub fn new(alloc: Global, folder: &str, name: FileName) -> Result<Paths, AllocError> {
        let FileName { stream, sequence } = name;
        Ok(Paths {
            part: format!(in alloc; "{folder}{stream:02}.part")?,
            sealed: format!(in alloc; "{folder}{stream:02}-{sequence:010}.cdr")?,
        })
    }
}

/// The greatest number of a sealed file of this stream in a folder, 0 where it has none. Other names are passed over.
pub fn greatest<R: Files>(files: &R, folder: &str, stream: u8) -> io::Result<u32> {
    let mut names = files.open_dir(folder)?;
    let mut piece = [0; 4096];
    let mut greatest = 0;
    'pieces: for _ in 0..u64::MAX {
        let count = names.read(&mut piece)?;
        if count == 0 {
            return Ok(greatest);
        }
        greatest = greatest_among(&piece[..count], stream).max(greatest);
    }
    Err(io::Error::from(ErrorKind::TimedOut))
}

/// The greatest number of this stream among names, each of which ends in an octet 0.
fn greatest_among(names: &[u8], stream: u8) -> u32 {
    let mut greatest = 0;
    'names: for name in names.split(|octet| *octet == 0) {
        greatest = number_of(name, stream).unwrap_or(0).max(greatest);
    }
    greatest
}

/// The number of the sealed file of this stream that has this name.
fn number_of(name: &[u8], stream: u8) -> Option<u32> {
    let stem = name.strip_suffix(b".cdr".as_slice())?;
    let (front, sequence) = stem.split_at_checked(3)?;
    let (dash, own) = front.split_last()?;
    if *dash != b'-' || sequence.len() != DIGITS || number(own)? != u64::from(stream) {
        return None;
    }
    u32::try_from(number(sequence)?).ok()
}

/// The number that these digits are.
fn number(digits: &[u8]) -> Option<u64> {
    let mut value = 0u64;
    'digits: for digit in digits {
        if !digit.is_ascii_digit() {
            return None;
        }
        value = value.checked_mul(10)?.checked_add(u64::from(*digit & 15))?;
    }
    Some(value)
}
