//! How the file of an area and the folder of a shelf are opened.

ghost use Rattle.std.specs.Prelude.{◌≡◌, ◌<◌, Ok, Err};
ghost use Rattle.cgf_edge.specs.declared.trouble.Trouble.TheVariants.{Length};

use crate::Trouble;
use std::fs::{File, Files, OpenOptions};
use std::os::fd::AsRawFd;
use std::os::unix::fs::FileExt;
use std::{fs, io};

/// So many octets are written at once where a file is filled.
const PIECE: usize = 4096;

/// The greatest number of a descriptor that is one of a standard stream.
const LAST_STREAM: i32 = 2;

/// Opens the file of an area of `length` octets and locks it. It is made where it is missing, and filled with zeros to
/// its length where it is new or a start was stopped while it filled it. A file of another length, one that isn't
/// regular, and one that somebody else has are refused, and stay as they were.
pub fn open_area<R: Files<File = File>>(
    files: &R,
    path: &str,
    length: u64,
) -> Result<File, Trouble> {
    let file = OpenOptions::new()
        .read(true)
        .write(true)
        .create(true)
        .open(files, path)?;
    let file = away_from_streams(file)?;
    file.try_lock()?;
    let found = file.metadata()?;
    if !found.is_file() {
        return Err(Trouble::NotAFile);
    }
    allocate(&file, found.len(), length)?;
    settle(&file)?;
    let folder = fs::open(files, folder_of(path))?;
    folder.sync_all()?;
    Ok(file)
}

/// Opens a folder and locks it. Its path ends in a slash, so that nothing but a folder is opened.
pub fn open_folder<R: Files<File = File>>(files: &R, path: &str) -> Result<File, Trouble> {
    let folder = away_from_streams(fs::open(files, path)?)?;
    folder.try_lock()?;
    Ok(folder)
}

/// Makes a file that isn't there, to be written.
pub fn make_new<R: Files<File = File>>(files: &R, path: &str) -> Result<File, Trouble> {
    let file = OpenOptions::new()
        .write(true)
        .create_new(true)
        .open(files, path)?;
    Ok(away_from_streams(file)?)
}

/// The same open file under a number that no standard stream has. Where one of these was closed before the start, the
/// next file gets its number, and what is written to the stream would go into the file.
fn away_from_streams(file: File) -> io::Result<File> {
    if file.as_raw_fd() > LAST_STREAM {
        return Ok(file);
    }
    file.try_clone()
}

/// Fills a file that has `found` octets to `length`, where its first octet is 0 or missing.
fn allocate(file: &File, found: u64, length: u64) -> Result<(), Trouble>
    ensures long { length < found → result ≡ Err (Length found) }
    ensures whole { found ≡ length → result ≡ Ok tt }
{
    if found == length {
        return Ok(());
    }
    if found > length || !is_blank(file, found)? {
        return Err(Trouble::Length(found));
    }
    fill(file, found, length)?;
    Ok(())
}

/// Whether the first of its octets is 0 or missing.
fn is_blank(file: &File, found: u64) -> io::Result<bool> {
    let mut first = [0];
    if found > 0 {
        file.read_exact_at(&mut first, 0)?;
    }
    Ok(first[0] == 0)
}

/// Writes zeros from one place up to another.
fn fill(file: &File, from: u64, to: u64) -> io::Result<()> {
    let zeros = [0; PIECE];
    'pieces: for at in (from..to).step_by(PIECE) {
        let count = to.saturating_sub(at).min(PIECE as u64) as usize;
        file.write_all_at(&zeros[..count], at)?;
    }
    Ok(())
}

/// Syncs the file and lets the system forget its copy: where a sync of an earlier process failed, the copy may be other
/// than what stands.
fn settle(file: &File) -> io::Result<()> {
    file.sync_all()?;
    match libc::posix_fadvise(file.as_raw_fd(), 0, 0, libc::POSIX_FADV_DONTNEED) {
        0 => Ok(()),
        code => Err(io::Error::from_raw_os_error(code)),
    }
}

/// The folder that the path names a file of.
fn folder_of(path: &str) -> &str {
    match path.rsplit_once('/') {
        None => ".",
        Some((folder, _)) => { if folder.is_empty() { "/" } else { folder } }
    }
}
