//! What a replay hands out: the areas, shelves and nodes that it ran.

use crate::told::{nothing, played_before_end, reports, script_of, settles};
use area_disk::{Area, MemoryArea};
use cdr_shelf::{FileName, MemoryShelf};
use gateway_book::{Book, Setup};
use node_core::{Node, NodeCounts};
use replay_world::{Played, Replay};
use std::alloc::Global;
use std::process::Abort;

/// Two gateways and two nodes: a packet is filed at the first gateway, and the second gateway is stopped.
const FILED: &str =
    "gateways 2\nnodes 2\nreserve 30000\nat 1709164800\ntick 1\nflow\nflow\nflow\ncommit 1\ncommit 2\n\
flow\nsubmit 1 1 0600 A003800105\ntick 1\nflow\ncommit 1\nflow\nstop 2\nend\n";

/// What is printed for its settling and its report.
const REPORTED: &str = "file 1 00-0000000001.cdr \
0000003D0000003460602E8008002E80080000000001000000010400000000000000000000FFFF0A0000010000000000000000\
0000056020A003800105\ngateway 1 entries 4 records 1 held 0 stranded 0\n\
gateway 2 entries 3 records 0 held 0 stranded 0\nnode 1 packets 1 resolved 1 done 1\n\
node 2 packets 0 resolved 0 done 0\n";

/// The file of the packet, octet for octet.
const FILE: [u8; 61] = [
    0, 0, 0, 0x3D, 0, 0, 0, 0x34, 0x60, 0x60, 0x2E, 0x80, 8, 0, 0x2E, 0x80, 8, 0, 0, 0, 0, 1, 0, 0,
    0, 1, 4, 0, 0, 0, 0, 0, 0, 0, 0, 0, 0, 0xFF, 0xFF, 0x0A, 0, 0, 1, 0, 0, 0, 0, 0, 0, 0, 0, 0, 0,
    5, 0x60, 0x20, 0xA0, 3, 0x80, 1, 5,
];

/// A settling and a report print what an `end` prints, and what is handed out then is what they tell of.
#[test]
fn what_was_run_is_handed_out(rt: HostRuntime) {
    let alloc = rt.alloc();
    let mut replay = played_before_end(&rt, alloc, &script_of(&rt, alloc, FILED));
    assert_reports(&rt, alloc, &mut replay);
    let played = replay.into_played();
    assert_files(&rt, &played);
    assert_nodes(&rt, &played);
    assert_histories(&rt, alloc, played);
}

fn assert_reports(rt: &impl Abort, alloc: Global, replay: &mut Replay) {
    let mut out = nothing(rt, alloc);
    settles(rt, alloc, replay, &mut out, "settled");
    assert!(rt; out.octets().is_empty());
    reports(rt, alloc, replay, &mut out, "reported");
    assert_eq!(rt; out.octets(), REPORTED.as_bytes());
    // A report changes nothing.
    reports(rt, alloc, replay, &mut out, "reported again");
    assert!(rt; out.octets().ends_with(REPORTED.as_bytes()));
}

fn assert_files(rt: &impl Abort, played: &Played) {
    assert_eq!(rt; played.shelves.len(), 2);
    assert_file(rt, &played.shelves[0], 1, Some(FILE.as_slice()));
    assert_file(rt, &played.shelves[0], 2, None);
    assert_file(rt, &played.shelves[1], 1, None);
}

/// The file of a shelf that has this number.
fn assert_file(rt: &impl Abort, shelf: &MemoryShelf, sequence: u32, wanted: Option<&[u8]>) {
    let name = FileName {
        stream: 0,
        sequence,
    };
    assert_eq!(rt; shelf.file(name), wanted);
}

fn assert_nodes(rt: &impl Abort, played: &Played) {
    assert_eq!(rt; played.nodes.len(), 2);
    assert!(rt; played.nodes[0].runs());
    assert_counts(rt, &played.nodes[0], 1);
    assert_counts(rt, &played.nodes[1], 0);
}

/// A node that sent so many packets, all of which are done.
fn assert_counts(rt: &impl Abort, node: &Node, count: u64) {
    let counts = NodeCounts {
        packets: count,
        resolved: count,
        done: count,
    };
    assert_eq!(rt; node.counts(), counts);
}

/// A book that is opened on an area has the history of its gateway, and a Start more.
fn assert_histories(rt: &impl Abort, alloc: Global, played: Played) {
    let Played {
        mut areas,
        shelves: _,
        nodes: _,
    } = played;
    let other = areas.pop();
    let one = areas.pop();
    assert!(rt; areas.is_empty());
    assert_history(rt, alloc, one, 0x0A00_0001, 5);
    assert_history(rt, alloc, other, 0x0A00_0002, 4);
}

fn assert_history(
    rt: &impl Abort,
    alloc: Global,
    area: Option<MemoryArea>,
    address: u32,
    entries: u64,
) {
    let Some(area) = area else {
        panic!(rt; "no area of {address}");
    };
    let book = opened(rt, alloc, area, address);
    assert_eq!(rt; book.counts().entries, entries);
}

fn opened(rt: &impl Abort, alloc: Global, area: MemoryArea, address: u32) -> Book<MemoryArea> {
    assert!(rt; area.length() >= 30_000);
    assert!(rt; area.length() <= 30_000);
    let setup = Setup {
        address,
        open_time: 3_600,
    };
    match Book::open(alloc, area, setup) {
        Ok(book) => book,
        Err(_) => panic!(rt; "no book of {address}"),
    }
}
