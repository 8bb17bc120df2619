//! The history that a gateway keeps on a journal. Its entries were made in one second and by one caller. An ACT is
//! `start`, `path`, `file`, `hold`, `seal`, `release`, `cancel`, `tick` or `close`.
//!
//! - `open-trail`: opens the history of the area, and says how many entries it has, or why it isn't opened.
//!   `open-trail GENERATION`: the same in this generation. `open-trail GENERATION judged`: with a judge that takes none.
//! - `push ACT`: what comes of one more entry, or that it has no room.
//! - `commit`: what comes of a commit.
//! - `entry K`: the entry at place K, which is firm, and its octets.
//! - `place K`: how many octets the entry at place K has, which may wait.
//! - `trail free`, `trail length`, `trail firm`, `trail calls`, `trail stopped`, `trail closed`: what it says.
//!   `trail waiting`: how many octets wait, and behind how many. `trail reopen`: what comes of it.

use crate::scene::Scene;
use crate::words::MOST;
use area_disk::{Area, MemoryArea};
use cgf_journal::{Judge, OpenFault, Trail};
use entry_codec::read;
use gw_base::{Act, Caller, Entry, Moment, NoMemory, NodeId};
use run_lines::{bad, first_word, number};
use std::alloc::Global;
use std::io;

/// The address of the gateway whose history this is.
const ADDRESS: u32 = 0x0A00_0001;

const NODE: NodeId = NodeId(0x0A00_0009);

/// A packet of 11 octets.
const PACKET: [u8; 11] = [1, 1, 6, 0, 0, 5, 0xA0, 3, 0x80, 1, 5];

/// The most octets of an entry here.
const MOST_OCTETS: usize = 128;

/// To this judge no entry is fit.
#[derive(Clone, Copy)]
struct TakesNone;

impl Judge for TakesNone {
    ghost use Rattle.std.specs.Prelude.{⊤};

    ghost follows = { λ judge h. ⊤ };

    ghost fits = { λ size h e. ⊥ };

    fn take(&mut self, _: &Entry<'_>, _: u64) -> Result<bool, NoMemory> {
        Ok(false)
    }
}

fn path() -> Act<'static> {
    Act::Path {
        node: NODE,
        port: 3386,
        counter: 7,
    }
}

fn file() -> Act<'static> {
    Act::File {
        node: NODE,
        number: 65_538,
        packet: &PACKET,
    }
}

fn hold() -> Act<'static> {
    Act::Hold {
        node: NODE,
        number: 65_536,
        packet: &PACKET,
    }
}

fn seal() -> Act<'static> {
    Act::Seal {
        node: NODE,
        number: 65_537,
    }
}

fn release() -> Act<'static> {
    Act::Release {
        node: NODE,
        numbers: &[65_536],
    }
}

fn cancel() -> Act<'static> {
    Act::Cancel {
        node: NODE,
        numbers: &[1, 2],
    }
}

/// Opens the history of an area that is large enough for one.
fn opened<A: Area>(
    alloc: Global,
    area: A,
    words: &str,
) -> io::Result<Result<Trail<A>, (OpenFault, A)>> {
    if area.length() < 100 {
        return Err(bad());
    }
    if area.length() > 1000 {
        return Err(bad());
    }
    if words.is_empty() {
        return Ok(Trail::open(alloc, area, ADDRESS));
    }
    let (generation, judge) = first_word(words);
    let generation = number(generation, 4_294_967_295)? as u32;
    if judge == "judged" {
        let mut judge = TakesNone;
        return Ok(Trail::open_judged(alloc, area, ADDRESS, generation, &mut judge));
    }
    Ok(Trail::open_at(alloc, area, ADDRESS, generation))
}

pub(crate) fn open(rt: &HostRuntime, scene: &mut Scene, words: &str) -> io::Result<()> {
    let Some(area) = scene.area.take() else {
        return Err(bad());
    };
    match opened(rt.alloc(), area, words)? {
        Ok(trail) => {
            let length = trail.length();
            scene.trail = Some(trail);
            print!(rt; "length {length}")
        }
        Err((fault, area)) => {
            scene.area = Some(area);
            print!(rt; "{fault:?}")
        }
    }
}

pub(crate) fn push(rt: &HostRuntime, trail: &mut Trail<MemoryArea>, word: &str) -> io::Result<()> {
    match word {
        "start" => push_entry(rt, trail, Act::Start),
        "path" => push_entry(rt, trail, path()),
        "file" => push_entry(rt, trail, file()),
        "hold" => push_entry(rt, trail, hold()),
        "seal" => push_entry(rt, trail, seal()),
        "release" => push_entry(rt, trail, release()),
        "cancel" => push_entry(rt, trail, cancel()),
        "tick" => push_entry(rt, trail, Act::Tick),
        "close" => push_entry(rt, trail, Act::Close),
        _ => Err(bad()),
    }
}

/// Prints what comes of an entry more.
fn push_entry(rt: &HostRuntime, trail: &mut Trail<MemoryArea>, act: Act<'_>) -> io::Result<()> {
    let Some(moment) = Moment::of(1_709_164_800) else {
        return Err(bad());
    };
    let caller = Caller {
        session: 1,
        serial: 2,
    };
    let entry = Entry {
        moment,
        caller,
        act,
    };
    if trail.is_closed() {
        return Err(bad());
    }
    if !trail.room(&entry) {
        return print!(rt; "no room");
    }
    print!(rt; "{:?}", trail.push(&entry))
}

pub(crate) fn commit(rt: &HostRuntime, trail: &mut Trail<MemoryArea>) -> io::Result<()> {
    if trail.is_closed() {
        return Err(bad());
    }
    print!(rt; "{:?}", trail.commit())
}

/// The octets of a firm entry.
fn octets_of<A: Area>(alloc: Global, trail: &mut Trail<A>, k: u64) -> io::Result<Vec<u8>> {
    if k >= trail.length() {
        return Err(bad());
    }
    if k >= trail.firm() {
        return Err(bad());
    }
    let place = trail.entry_at(k);
    let mut octets = vec![in alloc; 0; place.length as usize]?;
    match trail.read(place, &mut octets) {
        Ok(()) => Ok(octets),
        Err(_) => Err(bad()),
    }
}

pub(crate) fn entry(
    rt: &HostRuntime,
    trail: &mut Trail<MemoryArea>,
    words: &str,
) -> io::Result<()> {
    let k = number(words, MOST)?;
    let octets = octets_of(rt.alloc(), trail, k)?;
    if octets.len() > MOST_OCTETS {
        return Err(bad());
    }
    let mut numbers = [0; 16];
    print!(rt; "{:?}", read(&octets, &mut numbers))
}

pub(crate) fn place(
    rt: &HostRuntime,
    trail: &mut Trail<MemoryArea>,
    words: &str,
) -> io::Result<()> {
    let k = number(words, MOST)?;
    if k >= trail.length() {
        return Err(bad());
    }
    print!(rt; "{}", trail.entry_at(k).length)
}

pub(crate) fn tell(rt: &HostRuntime, trail: &mut Trail<MemoryArea>, word: &str) -> io::Result<()> {
    match word {
        "free" => print!(rt; "{}", trail.free()),
        "length" => print!(rt; "{}", trail.length()),
        "firm" => print!(rt; "{}", trail.firm()),
        "calls" => print!(rt; "{}", trail.calls()),
        "stopped" => print!(rt; "{}", trail.stopped()),
        "closed" => print!(rt; "{}", trail.is_closed()),
        "waiting" => {
            let waiting = trail.waiting();
            print!(rt; "{} behind {}", waiting.octets.len(), waiting.at)
        }
        "reopen" => reopen(rt, trail),
        _ => Err(bad()),
    }
}

fn reopen(rt: &HostRuntime, trail: &mut Trail<MemoryArea>) -> io::Result<()> {
    if !trail.is_closed() {
        return Err(bad());
    }
    print!(rt; "{:?}", trail.reopen())
}
