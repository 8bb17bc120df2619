//! A job over words and an input in memory.
ghost use Rattle.std.specs.Prelude.{◌≤◌};
ghost use Rattle.gate_journal.specs.Format.{fewest_octets, most_octets};

use area_disk::QuietArea;
use cdr_shelf::QuietShelf;
use cgf_top::{Ended, Played, Status, run_cgf, stream_places};
use gw_base::{MemoryClock, MemorySink, MemorySource, Moment, Octets};
use net_link::MemoryLinks;
use run_lines::{bad, no_memory};
use std::alloc::Global;
use std::io;
use std::sync::Wait;
use std::thread::Threads;
use std::time::Clock;

/// How many octets the source gives a call, and how many the job may write.
const PIECE: usize = 65_536;

const MOST_WRITTEN: usize = 1_100_000;

/// How many datagrams a link can send. None comes anywhere.
const ROOM: usize = 1_000;

/// How many octets the area has of a job that uses none.
const UNUSED: u64 = 100;

/// What a job is handed: how many octets its area has, and how many its source gives a call. Of a `stream` its words say
/// both: the length of the journal, and the source's piece in place of a file.
struct Outside {
    length: u64,
    piece: usize,
}

/// The outside of the job over these words.
fn outside_of(words: &[String]) -> Outside
    ensures long { fewest_octets ≤ result.length }
    ensures short { result.length ≤ most_octets }
    ensures piece { 1 ≤ result.piece }
{
    match stream_places(words) {
        Some(places) => Outside {
            length: places.length,
            piece: places.file.parse::<usize>().unwrap_or(PIECE).max(1),
        },
        None => Outside {
            length: UNUSED,
            piece: PIECE,
        },
    }
}

/// What stands in front of an input in hexadecimal.
const OCTETS: &str = "octets ";

/// How a job ended, what it wrote, the shelf that it was handed, how many books and nodes of a loop it handed back, and
/// how many areas, shelves and nodes, where it handed back a network.
#[derive(Drop)]
pub(crate) struct Done {
    pub(crate) status: Status,
    pub(crate) printed: Vec<u8>,
    pub(crate) shelf: QuietShelf,
    pub(crate) looped: (usize, usize),
    pub(crate) played: Option<(usize, usize, usize)>,
}

/// The job over these words, with single spaces between them, and this input.
pub(crate) fn run<R: Threads + Wait + Clock + Sync + Alloc<A = Global>>(
    rt: &R,
    words: &str,
    input: &str,
) -> io::Result<Done> {
    let alloc = rt.alloc();
    let mut given = Vec::new(alloc);
    for word in words.split(' ') {
        given.push(String::from_str(alloc, word)?)?;
    }
    let input = Octets::from_vec(octets_of(alloc, input)?);
    let Outside { length, piece } = outside_of(&given);
    let mut source = MemorySource::new(input, piece, Vec::new(alloc));
    let sink = MemorySink::new(alloc, MOST_WRITTEN, Vec::new(alloc));
    let mut sink = sink.map_err(|_| no_memory())?;
    let Ok(area) = QuietArea::new(alloc, length) else {
        return Err(no_memory());
    };
    let shelf = QuietShelf::new(alloc);
    let links = MemoryLinks::new(alloc, Vec::new(alloc), ROOM, Vec::new(alloc));
    let mut links = links.map_err(|_| no_memory())?;
    let mut clock = MemoryClock::new(vec![in alloc; first_moment()]?, Vec::new(alloc));
    let Ended {
        status,
        area: _,
        shelf,
        looped,
        played,
    } = run_cgf(
        rt,
        alloc,
        &given,
        &mut source,
        &mut sink,
        area,
        shelf,
        &mut links,
        &mut clock,
    );
    Ok(Done {
        status,
        printed: sink.octets().to_vec(alloc)?,
        shelf,
        looped: (looped.books.len(), looped.nodes.len()),
        played: played.map(handed_back),
    })
}

/// The moment 0.
fn first_moment() -> Moment {
    let Some(moment) = Moment::of(0) else {
        unreachable!();
    };
    moment
}

/// The octets of an input.
fn octets_of(alloc: Global, input: &str) -> io::Result<Vec<u8>> {
    let Some(digits) = input.strip_prefix(OCTETS) else {
        return Ok(input.as_bytes().to_vec(alloc)?);
    };
    hex::decode(alloc, digits.trim_end()).map_err(|_| bad())
}

/// How many areas, shelves and nodes there are.
fn handed_back(played: Played) -> (usize, usize, usize) {
    (played.areas.len(), played.shelves.len(), played.nodes.len())
}
