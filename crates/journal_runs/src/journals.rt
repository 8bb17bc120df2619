//! A journal of batches on an area of 100 octets.
//!
//! - `open`: opens the journal of the area, and says where its list ends, or why it isn't opened.
//! - `draft`, `draft founded`: drafts it, and founds it.
//! - `append OCTETS`: what comes of a batch.
//! - `batch`: where the first batch lies, and its octets.
//! - `journal end`, `journal calls`, `journal stopped`, `journal closed`: what it says. `journal reopen`: what comes of it.

use crate::scene::Scene;
use crate::words::octets;
use area_disk::{Area, MemoryArea};
use gate_journal::{Journal, LONGEST_BATCH, OpenFault};
use run_lines::bad;
use std::alloc::Global;
use std::io;

/// The address of the gateway whose journals these are.
const ADDRESS: u32 = 0x0A00_0001;

/// How many octets the area has.
const LENGTH: u64 = 100;

/// Where the first gate of a journal stands.
const FIRST_GATE: u64 = 32;

/// Opens the journal of an area of the one length.
fn opened<A: Area>(alloc: Global, area: A) -> io::Result<Result<Journal<A>, (OpenFault, A)>> {
    if area.length() != LENGTH {
        return Err(bad());
    }
    Ok(Journal::open(alloc, area, ADDRESS, 0))
}

pub(crate) fn open(rt: &HostRuntime, scene: &mut Scene) -> io::Result<()> {
    let Some(area) = scene.area.take() else {
        return Err(bad());
    };
    match opened(rt.alloc(), area)? {
        Ok(journal) => {
            let end = journal.end();
            scene.journal = Some(journal);
            print!(rt; "end {end}")
        }
        Err((fault, area)) => {
            scene.area = Some(area);
            print!(rt; "{fault:?}")
        }
    }
}

/// Drafts the journal of an area of the one length.
fn drafted<A: Area>(alloc: Global, area: A, is_founded: bool) -> io::Result<Journal<A>> {
    if area.length() != LENGTH {
        return Err(bad());
    }
    let Ok(mut journal) = Journal::draft(alloc, area, ADDRESS, 0) else {
        return Err(bad());
    };
    if !is_founded {
        return Ok(journal);
    }
    match journal.found() {
        Ok(()) => Ok(journal),
        Err(_) => Err(bad()),
    }
}

pub(crate) fn draft(rt: &HostRuntime, scene: &mut Scene, words: &str) -> io::Result<()> {
    let Some(area) = scene.area.take() else {
        return Err(bad());
    };
    scene.journal = Some(drafted(rt.alloc(), area, words == "founded")?);
    print!(rt; "drafted")
}

pub(crate) fn append(
    rt: &HostRuntime,
    journal: &mut Journal<MemoryArea>,
    words: &str,
) -> io::Result<()> {
    let batch = octets(rt.alloc(), words)?;
    if batch.len() > LONGEST_BATCH {
        return Err(bad());
    }
    if journal.is_closed() {
        return Err(bad());
    }
    print!(rt; "{:?}", journal.append(&batch))
}

/// Reads the first batch of a journal that has one, of two octets.
fn first_pair<A: Area>(journal: &mut Journal<A>) -> io::Result<(u64, [u8; 2])> {
    let mut pair = [0; 2];
    if journal.is_closed() {
        return Err(bad());
    }
    if journal.end() <= FIRST_GATE {
        return Err(bad());
    }
    let Ok(Some((at, 2))) = journal.batch(FIRST_GATE) else {
        return Err(bad());
    };
    match journal.read(at, &mut pair) {
        Ok(()) => Ok((at, pair)),
        Err(_) => Err(bad()),
    }
}

pub(crate) fn batch(rt: &HostRuntime, journal: &mut Journal<MemoryArea>) -> io::Result<()> {
    print!(rt; "{:?}", first_pair(journal)?)
}

pub(crate) fn tell(
    rt: &HostRuntime,
    journal: &mut Journal<MemoryArea>,
    word: &str,
) -> io::Result<()> {
    match word {
        "end" => print!(rt; "{}", journal.end()),
        "calls" => print!(rt; "{}", journal.calls()),
        "stopped" => print!(rt; "{}", journal.stopped()),
        "closed" => print!(rt; "{}", journal.is_closed()),
        "reopen" => print!(rt; "{:?}", journal.reopen()),
        _ => Err(bad()),
    }
}
