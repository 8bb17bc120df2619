//! An area in memory.
//!
//! - `area LENGTH`: begins one of so many octets.
//! - `write AT OCTETS`: what comes of a write. `again COUNT AT OCTETS`: of the last of so many.
//! - `read AT COUNT`: what comes of a read, and what stands in the room for it then.
//! - `crash OUTCOME`: stops it between two calls, and revives it.
//! - `device sync`: what comes of a sync. `device calls`, `device stopped`: what it says. `device revive` revives it.

ghost use Rattle.std.specs.Prelude.{◌+◌, ◌<◌, ◌≤◌, OnErr, OnOk};

use crate::plans::{no_plan, outcome_of};
use crate::words::{MOST, octets};
use area_disk::{Area, Drill, Failed, MemoryArea};
use run_lines::{bad, first_word, next, number};
use std::io;

pub(crate) fn begin(
    rt: &HostRuntime,
    area: &mut Option<MemoryArea>,
    words: &str,
) -> io::Result<()> {
    let length = number(words, MOST)?;
    let Ok(made) = MemoryArea::new(rt.alloc(), length, no_plan(rt.alloc())) else {
        return Err(bad());
    };
    *area = Some(made);
    print!(rt; "{length} octets")
}

/// Refuses octets that there aren't.
fn bound<A: Area>(area: &A, at: u64, count: usize) -> io::Result<()>
    ensures inside { OnOk result (at + count ≤ A.size area.now) }
    ensures outside { OnErr result (A.size area.now < at + count) }
{
    let length = area.length();
    if at > length {
        return Err(bad());
    }
    if count as u64 > length - at {
        return Err(bad());
    }
    Ok(())
}

/// Writes octets for which there is room.
fn write_at<A: Area>(area: &mut A, at: u64, octets: &[u8]) -> io::Result<Result<(), Failed>> {
    bound(area, at, octets.len())?;
    Ok(area.write_at(at, octets))
}

pub(crate) fn write(rt: &HostRuntime, area: &mut MemoryArea, words: &str) -> io::Result<()> {
    let (at, word) = next(words, MOST)?;
    let octets = octets(rt.alloc(), word)?;
    print!(rt; "{:?}", write_at(area, at, &octets)?)
}

pub(crate) fn again(rt: &HostRuntime, area: &mut MemoryArea, words: &str) -> io::Result<()> {
    let (count, words) = first_word(words);
    let (at, word) = next(words, MOST)?;
    let octets = octets(rt.alloc(), word)?;
    let mut last = Ok(());
    for _ in 0..number(count, MOST)? {
        last = write_at(area, at, &octets)?;
    }
    print!(rt; "{last:?}")
}

/// Reads octets that there are.
fn read_at<A: Area>(area: &mut A, at: u64, into: &mut [u8]) -> io::Result<Result<(), Failed>> {
    bound(area, at, into.len())?;
    Ok(area.read_at(at, into))
}

pub(crate) fn read(rt: &HostRuntime, area: &mut MemoryArea, words: &str) -> io::Result<()> {
    let (at, count) = next(words, MOST)?;
    let count = number(count, MOST)? as usize;
    let mut into = vec![in rt.alloc(); 0; count]?;
    let answer = read_at(area, at, &mut into)?;
    print!(rt; "{answer:?}, {into:?}")
}

pub(crate) fn crash(rt: &HostRuntime, area: &mut MemoryArea, words: &str) -> io::Result<()> {
    let outcome = outcome_of(words)?;
    area.stop(outcome);
    area.revive();
    print!(rt; "revived")
}

pub(crate) fn tell(rt: &HostRuntime, area: &mut MemoryArea, word: &str) -> io::Result<()> {
    match word {
        "sync" => print!(rt; "{:?}", area.sync()),
        "calls" => print!(rt; "{}", area.calls()),
        "stopped" => print!(rt; "{}", area.stopped()),
        "revive" => {
            area.revive();
            print!(rt; "revived")
        }
        _ => Err(bad()),
    }
}
