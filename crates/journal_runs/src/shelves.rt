//! A shelf of CDR files in memory.
//!
//! - `shelf`: begins one.
//! - `files`: writes the first two files of stream 3 that aren't sealed, in six counted calls each: the six octets of a
//!   file end with that of its sequence number. What comes of it.
//! - `begin`: what comes of the beginning of the first file, which isn't sealed.
//! - `halves`: a shelf on which a file was written, and another written and synced, when it was stopped between two
//!   calls, and left rot. It is revived, and both are sealed.
//! - `file STREAM SEQUENCE`: the octets of a sealed file. `sealed STREAM`: the greatest sequence number of one.
//! - `bench calls`, `bench stopped`: what it says. `bench revive`: revives it.
//! - `quiet`: on a shelf that never fails, a file that is sealed before it is synced, and after; the other file of the
//!   stream; the greatest numbers of streams 3 and 4. Then what comes of one more file, and the greatest of its stream.

ghost use Rattle.std.specs.Prelude.{IsTrue};
ghost use Rattle.cdr_shelf.specs.Files.{IsFresh};

use crate::plans::no_plan;
use area_disk::{Drill, Outcome3};
use cdr_shelf::{FileName, MemoryShelf, QuietShelf, Shelf, ShelfStop};
use run_lines::{bad, first_word, number};
use std::alloc::Global;
use std::io;

const FIRST: FileName = FileName {
    stream: 3,
    sequence: 1,
};

const SECOND: FileName = FileName {
    stream: 3,
    sequence: 2,
};

const OTHER: FileName = FileName {
    stream: 200,
    sequence: 9,
};

pub(crate) fn begin(rt: &HostRuntime, shelf: &mut Option<MemoryShelf>) -> io::Result<()> {
    let Ok(made) = MemoryShelf::new(rt.alloc(), no_plan(rt.alloc())) else {
        return Err(bad());
    };
    *shelf = Some(made);
    print!(rt; "a shelf")
}

/// Writes a file of six octets, the last of them that of its sequence number, in six counted calls.
fn write_file<S: Shelf>(shelf: &mut S, name: FileName) -> Result<(), ShelfStop>
    requires { IsTrue S.tells_files → IsFresh name (S.files shelf.old) }
{
    let stream = name.stream;
    shelf.begin(name)?;
    shelf.write_at(stream, 0, &[1, 2, 3, 4])?;
    shelf.write_at(stream, 2, &name.sequence.to_be_bytes())?;
    shelf.write_at(stream, 1, &[7, 8, 9])?;
    shelf.sync(stream)?;
    shelf.seal(stream)?;
    Ok(())
}

/// Writes the files that aren't sealed, in order.
fn write_missing(shelf: &mut MemoryShelf) -> Result<(), ShelfStop> {
    'files: for name in [FIRST, SECOND] {
        let None = shelf.file(name) else {
            continue;
        };
        write_file(shelf, name)?;
    }
    Ok(())
}

pub(crate) fn write_files(rt: &HostRuntime, shelf: &mut MemoryShelf) -> io::Result<()> {
    print!(rt; "{:?}", write_missing(shelf))
}

pub(crate) fn begin_file(rt: &HostRuntime, shelf: &mut MemoryShelf) -> io::Result<()> {
    let None = shelf.file(FIRST) else {
        return Err(bad());
    };
    print!(rt; "{:?}", shelf.begin(FIRST))
}

/// A shelf that was stopped between two calls, and whose files are sealed after it.
fn stopped_between(alloc: Global) -> Result<MemoryShelf, ShelfStop> {
    let Ok(mut shelf) = MemoryShelf::new(alloc, no_plan(alloc)) else {
        return Err(ShelfStop::NoMemory);
    };
    shelf.begin(FIRST)?;
    shelf.write_at(3, 0, &[1, 2])?;
    shelf.begin(OTHER)?;
    shelf.write_at(200, 0, &[3])?;
    shelf.sync(200)?;
    shelf.stop(Outcome3::Rot);
    shelf.revive();
    shelf.seal(3)?;
    shelf.seal(200)?;
    Ok(shelf)
}

pub(crate) fn halves(rt: &HostRuntime, shelf: &mut Option<MemoryShelf>) -> io::Result<()> {
    let Ok(made) = stopped_between(rt.alloc()) else {
        return Err(bad());
    };
    *shelf = Some(made);
    print!(rt; "sealed")
}

pub(crate) fn file(rt: &HostRuntime, shelf: &mut MemoryShelf, words: &str) -> io::Result<()> {
    let (stream, sequence) = first_word(words);
    let stream = number(stream, 255)? as u8;
    let sequence = number(sequence, 4_294_967_295)? as u32;
    print!(rt; "{:?}", shelf.file(FileName { stream, sequence }))
}

pub(crate) fn sealed(rt: &HostRuntime, shelf: &mut MemoryShelf, words: &str) -> io::Result<()> {
    let stream = number(words, 255)? as u8;
    print!(rt; "{:?}", shelf.sealed(stream))
}

pub(crate) fn tell(rt: &HostRuntime, shelf: &mut MemoryShelf, word: &str) -> io::Result<()> {
    match word {
        "calls" => print!(rt; "{}", shelf.calls()),
        "stopped" => print!(rt; "{}", shelf.stopped()),
        "revive" => {
            shelf.revive();
            print!(rt; "revived")
        }
        _ => Err(bad()),
    }
}

/// A shelf that never fails, with two files of which one was sealed before its sync, and how many files it had then.
fn quiet_shelf(alloc: Global) -> Result<(QuietShelf, bool), ShelfStop> {
    let mut shelf = QuietShelf::new(alloc);
    shelf.begin(SECOND)?;
    shelf.write_at(3, 0, &[4])?;
    shelf.begin(FIRST)?;
    shelf.write_at(3, 0, &[1, 2])?;
    shelf.seal(3)?;
    let is_sealed = shelf.file(FIRST).is_some();
    shelf.sync(3)?;
    shelf.seal(3)?;
    Ok((shelf, is_sealed))
}

pub(crate) fn quiet(rt: &HostRuntime) -> io::Result<()> {
    let Ok((mut shelf, is_sealed)) = quiet_shelf(rt.alloc()) else {
        return Err(bad());
    };
    print!(rt;
        "{is_sealed}, {:?}, {:?}, ",
        shelf.file(FIRST),
        shelf.file(SECOND)
    )?;
    print!(rt; "{:?}, {:?}, ", shelf.sealed(3), shelf.sealed(4))?;
    let None = shelf.file(OTHER) else {
        return Err(bad());
    };
    print!(rt; "{:?}, ", write_file(&mut shelf, OTHER))?;
    print!(rt; "{:?}", shelf.sealed(200))
}
