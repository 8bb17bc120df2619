// A book is opened, commits, and is opened again.
use crate::book::{SETUP, area, area_of, commits, entries, firm, open_as, opened, settles, sound};
use area_disk::{Area, MemoryArea};
use gateway_book::{Book, BookFault, Settled, Setup};
use gw_base::{KeyState, NodeId};
use std::alloc::Global;
use std::process::Abort;

const NODE: NodeId = NodeId(0x0A00_0009);

// The Start waits for a commit, and then is firm.
fn start_is_committed(rt: &impl Abort, book: &mut Book<MemoryArea>) {
    assert_eq!(rt; entries(book), 1);
    settles(rt, book, (1, 0), Settled::NotYet { firm: 0 });
    assert!(rt; commits(book));
    settles(rt, book, (1, 0), Settled::Firm);
}

// Of a node that never sent there is no path, and its first number is fresh.
fn knows_no_node(rt: &impl Abort, book: &Book<MemoryArea>) {
    assert_eq!(rt; book.path(0), None);
    let key = book.key(NODE, 0);
    assert_eq!(rt; (key.number, key.state), (65_536, KeyState::Fresh));
}

// The area of another gateway is refused.
fn another_is_refused(rt: &impl Abort, alloc: Global, area: MemoryArea) {
    assert_eq!(rt; area.length(), 300);
    let other = Setup {
        address: 0x0A00_0002,
        ..SETUP
    };
    match open_as(rt, alloc, area, other) {
        Ok(_) => panic!(rt; "opened"),
        Err((fault, _)) => assert_eq!(rt; fault, BookFault::NotOurs { at: 19 }),
    }
}

// A book is opened twice, and then by another gateway.
fn open_twice(rt: &impl Abort, alloc: Global) {
    let mut book = opened(rt, alloc, area(rt, alloc, 300, sound(alloc)));
    start_is_committed(rt, &mut book);
    knows_no_node(rt, &book);
    let again = opened(rt, alloc, area_of(book));
    assert_eq!(rt; entries(&again), 2);
    assert_eq!(rt; firm(&again), 1);
    another_is_refused(rt, alloc, area_of(again));
}

#[test]
fn an_opening_records_a_start(rt: HostRuntime) {
    open_twice(&rt, rt.alloc());
}
