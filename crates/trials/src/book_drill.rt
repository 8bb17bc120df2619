// A book whose device fails or stops at each of its calls.
ghost use Rattle.std.specs.Prelude.{◌≤◌};

use crate::book::{
    FROM, REQUEST, answered, area, area_of, commits, entries, failing, firm, moment, open, opened,
    revived, sends, settles, sound, stopping, take,
};
use area_disk::{Drill, MemoryArea, Outcome3, Stop};
use gateway_book::{Book, BookFault, Outcome, Settled};
use gtpp_message::Why;
use gw_base::Addr;
use std::alloc::Global;
use std::process::Abort;

// Five calls of the device make an area anew, and the next four are a commit's. The call that fails, the cause of the
// request that is sent once more, and how many entries are firm after the next commit.
const FAILURES: [(u64, u8, u64); 4] = [(6, 128, 1), (7, 128, 1), (8, 128, 1), (9, 253, 2)];

// How many calls its device was given.
fn calls(book: &Book<MemoryArea>) -> u64 {
    book.calls()
}

// Whether its device stopped.
fn is_stopped(book: &Book<MemoryArea>) -> bool {
    book.stopped()
}

// A book whose first commit failed at this call of the device, and took an accepted request with it.
fn failed(rt: &impl Abort, alloc: Global, call: u64) -> Book<MemoryArea> {
    let area = area(rt, alloc, 400, failing(rt, alloc, &[call]));
    let mut book = opened(rt, alloc, area);
    let first = sends(rt, &mut book, FROM, &REQUEST, 128);
    assert!(rt; !commits(&mut book));
    assert_eq!(rt; calls(&book), call);
    let lost = Settled::Lost { faults: 1 };
    settles(rt, &book, (first.front, first.faults), lost);
    book
}

// The request is sent once more, and a commit succeeds.
fn serves_again(rt: &impl Abort, book: &mut Book<MemoryArea>, again: u8, wanted: u64) {
    let second = sends(rt, book, FROM, &REQUEST, again);
    assert!(rt; commits(book));
    settles(rt, book, (second.front, second.faults), Settled::Firm);
    assert_eq!(rt; firm(book), wanted);
}

#[test]
fn a_commit_may_fail_at_each_of_its_calls(rt: HostRuntime) {
    for (call, again, firm) in &FAILURES {
        let mut book = failed(&rt, rt.alloc(), *call);
        serves_again(&rt, &mut book, *again, *firm);
    }
}

const MODES: [Outcome3; 3] = [Outcome3::Old, Outcome3::New, Outcome3::Rot];

// How many calls an opening makes after one that was stopped while it made the area anew, by the call and the mode:
// five where it makes the area anew once more.
const OPENINGS: [(u64, [u64; 3]); 5] = [
    (1, [5, 5, 5]),
    (2, [5, 5, 5]),
    (3, [5, 5, 5]),
    (4, [5, 1, 5]),
    (5, [5, 1, 5]),
];

// The area after an opening that was stopped.
fn stopped_opening(rt: &impl Abort, alloc: Global, stop: Stop) -> MemoryArea {
    match open(rt, alloc, area(rt, alloc, 400, stopping(alloc, stop))) {
        Ok(_) => panic!(rt; "opened"),
        Err((fault, area)) => {
            assert_eq!(rt; fault, BookFault::Device);
            assert!(rt; area.stopped());
            area
        }
    }
}

// The book after the device runs again, which makes so many calls to open it.
fn opened_again(rt: &impl Abort, alloc: Global, area: MemoryArea, wanted: u64) -> Book<MemoryArea> {
    let book = opened(rt, alloc, revived(alloc, area));
    assert_eq!(rt; calls(&book), wanted);
    book
}

// Stops an opening at this call, in each mode.
fn stop_openings(rt: &impl Abort, alloc: Global, call: u64, row: &[u64; 3]) {
    for (mode, calls) in MODES.iter().zip(row) {
        let outcome = *mode;
        let area = stopped_opening(rt, alloc, Stop { call, outcome });
        let book = opened_again(rt, alloc, area, *calls);
        assert_eq!(rt; entries(&book), 1);
    }
}

#[test]
fn an_opening_may_be_stopped_at_each_of_its_calls(rt: HostRuntime) {
    for (call, row) in &OPENINGS {
        stop_openings(&rt, rt.alloc(), *call, row);
    }
}

// How many entries are firm after a commit of two was stopped, by the call and the mode.
const COMMITS: [(u64, [u64; 3]); 4] = [
    (6, [0, 0, 0]),
    (7, [0, 0, 0]),
    (8, [0, 2, 0]),
    (9, [0, 2, 0]),
];

// The area after a commit of an accepted request that was stopped.
fn stopped_commit(rt: &impl Abort, alloc: Global, stop: Stop) -> MemoryArea {
    let area = area(rt, alloc, 400, stopping(alloc, stop));
    let mut book = opened(rt, alloc, area);
    let _ = answered(rt, &mut book, FROM, &REQUEST, 5);
    assert!(rt; !commits(&mut book));
    assert!(rt; is_stopped(&book));
    area_of(book)
}

// Stops a commit at this call, in each mode.
fn stop_commits(rt: &impl Abort, alloc: Global, call: u64, row: &[u64; 3]) {
    for (mode, wanted) in MODES.iter().zip(row) {
        let outcome = *mode;
        let area = stopped_commit(rt, alloc, Stop { call, outcome });
        let book = opened_again(rt, alloc, area, 1);
        assert_eq!(rt; firm(&book), *wanted);
    }
}

#[test]
fn a_commit_may_be_stopped_at_each_of_its_calls(rt: HostRuntime) {
    for (call, row) in &COMMITS {
        stop_commits(&rt, rt.alloc(), *call, row);
    }
}

/// An Echo Request, a Node Alive Request, and an Echo Request of version 1.
const ASKED: [[u8; 6]; 3] = [
    [0x4E, 0x01, 0x00, 0x00, 0x00, 0x01],
    [0x4E, 0x04, 0x00, 0x00, 0x00, 0x02],
    [0x2E, 0x01, 0x00, 0x00, 0x00, 0x03],
];

// The types of the messages that answer them: Echo Response, Echo Request, Version Not Supported.
const TOLD: [u8; 3] = [2, 1, 3];

/// An Echo Response with the restart counter 5.
const ECHO: [u8; 8] = [0x4E, 0x02, 0x00, 0x02, 0x00, 0x00, 0x0E, 0x05];

/// The same record as possibly duplicated.
const POSSIBLE: [u8; 22] = [
    0x4E, 0xF0, 0x00, 0x10, 0x00, 0x00, 0x7E, 0x02, 0xFC, 0x00, 0x0B, 0x01, 0x01, 0x06, 0x00, 0x00,
    0x05, 0xA0, 0x03, 0x80, 0x01, 0x05,
];

/// The empty packet under the number 0.
const EMPTY: [u8; 11] = [
    0x4E, 0xF0, 0x00, 0x05, 0x00, 0x00, 0x7E, 0x02, 0xFC, 0x00, 0x00,
];

/// A release of the number 0.
const RELEASE: [u8; 13] = [
    0x4E, 0xF0, 0x00, 0x07, 0x00, 0x01, 0x7E, 0x04, 0xF9, 0x00, 0x02, 0x00, 0x00,
];

/// A cancel of the number 0.
const CANCEL: [u8; 13] = [
    0x4E, 0xF0, 0x00, 0x07, 0x00, 0x02, 0x7E, 0x03, 0xFA, 0x00, 0x02, 0x00, 0x00,
];

// The requests of a node that isn't known where no other has a place, and the causes of their answers.
const REFUSED: [(&[u8], u8); 5] = [
    (&REQUEST, 199),
    (&POSSIBLE, 199),
    (&EMPTY, 199),
    (&RELEASE, 254),
    (&CANCEL, 254),
];

fn node(index: u32) -> Addr
    requires { index ≤ 100 }
{
    Addr {
        ip: 0x0A00_0101 + index,
        port: 40_001,
    }
}

// A book that knows 64 nodes.
fn full(rt: &impl Abort, alloc: Global) -> Book<MemoryArea> {
    let mut book = opened(rt, alloc, area(rt, alloc, 20_000, sound(alloc)));
    for index in 0..64 {
        let _ = sends(rt, &mut book, node(index), &REQUEST, 128);
    }
    book
}

// The type of the message that answers a datagram.
fn type_told(rt: &impl Abort, book: &mut Book<MemoryArea>, from: Addr, octets: &[u8]) -> u8 {
    let receipt = answered(rt, book, from, octets, 5);
    let reply = receipt.reply.octets();
    assert!(rt; reply.len() >= 6);
    reply[1]
}

fn is_told(rt: &impl Abort, book: &mut Book<MemoryArea>, from: Addr) {
    for (octets, kind) in ASKED.iter().zip(&TOLD) {
        assert_eq!(rt; type_told(rt, book, from, octets), *kind);
    }
}

fn is_dropped(rt: &impl Abort, book: &mut Book<MemoryArea>, from: Addr, octets: &[u8]) {
    match take(book, from, octets, moment(rt, 5)) {
        Outcome::Drop(Why::NoRoom) => {}
        _ => panic!(rt; "not dropped"),
    }
}

fn is_refused(rt: &impl Abort, book: &mut Book<MemoryArea>, from: Addr) {
    for (octets, wanted) in REFUSED {
        let _ = sends(rt, book, from, octets, wanted);
    }
}

#[test]
fn a_65th_node_finds_no_place(rt: HostRuntime) {
    let mut book = full(&rt, rt.alloc());
    let last = node(64);
    is_told(&rt, &mut book, last);
    is_dropped(&rt, &mut book, last, &ECHO);
    is_refused(&rt, &mut book, last);
    assert_eq!(&rt; entries(&book), 65);
}
