// What a book's history makes for a writer of files.
use crate::book::{FROM, answered, area, area_of, cause, closes, commits, failing, opened, ticks};
use area_disk::MemoryArea;
use gateway_book::{Book, Marked};
use gw_base::{CdrKind, Item};
use std::alloc::Global;
use std::process::Abort;

/// Release 3, version 0, format 1.
const KIND: CdrKind = CdrKind {
    release: 3,
    version: 0,
    format: 1,
    extension: 0,
};

/// Sends a request, which is accepted.
fn send(rt: &impl Abort, book: &mut Book<MemoryArea>, request: &[u8], seconds: u64) {
    let receipt = answered(rt, book, FROM, request, seconds);
    assert_eq!(rt; cause(rt, &receipt), 128);
}

/// A request with one record, whose last octet tells it from others: under a command and a number.
const fn one_record(command: u8, number: u8, record: u8) -> [u8; 22] {
    [
        0x4E, 0xF0, 0, 0x10, 0, number, 0x7E, command, 0xFC, 0, 0x0B, 1, 1, 6, 0, 0, 5, 0xA0, 3,
        0x80, 1, record,
    ]
}

const fn two_records(command: u8, number: u8, record: u8, second: u8) -> [u8; 29] {
    [
        0x4E, 0xF0, 0, 0x17, 0, number, 0x7E, command, 0xFC, 0, 0x12, 2, 1, 6, 0, 0, 5, 0xA0, 3,
        0x80, 1, record, 0, 5, 0xA0, 3, 0x80, 1, second,
    ]
}

/// A request that releases packets, or cancels them.
const fn listing(command: u8, list: u8, number: u8, listed: u8) -> [u8; 13] {
    [
        0x4E, 0xF0, 0, 7, 0, number, 0x7E, command, list, 0, 2, 0, listed,
    ]
}

const fn listing_two(command: u8, list: u8, number: u8, listed: u8, other: u8) -> [u8; 15] {
    [
        0x4E, 0xF0, 0, 9, 0, number, 0x7E, command, list, 0, 4, 0, listed, 0, other,
    ]
}

/// An item: the last octet of a record, or what the mark is, and its moment.
#[derive(Clone, Copy, Debug, PartialEq, Eq)]
enum Expected {
    Record(u8, u64),
    Tick(u64),
    Close(u64),
}

fn told(rt: &impl Abort, item: &Item) -> Expected {
    match item {
        Item::Part {
            kind,
            tag,
            octets,
            moment,
        } => {
            assert_eq!(rt; *kind, KIND);
            assert!(rt; tag.is_some());
            let [0xA0, 3, 0x80, 1, last] = octets.octets() else {
                panic!(rt; "another record")
            };
            Expected::Record(*last, moment.seconds())
        }
        Item::Tick { moment } => Expected::Tick(moment.seconds()),
        Item::Close { moment } => Expected::Close(moment.seconds()),
    }
}

/// The items of the first batch, and those of the second and the third.
const ALL: [Expected; 9] = [
    Expected::Record(5, 10),
    Expected::Record(6, 10),
    Expected::Record(11, 30),
    Expected::Record(7, 30),
    Expected::Tick(90),
    Expected::Close(95),
    Expected::Record(10, 96),
    Expected::Record(12, 97),
    Expected::Record(13, 98),
];

/// What is asked for, and what is given: items from a number on, at most so many; how many they are, and where they
/// begin in the list above.
type Question = (u64, u32, usize, usize);

/// The items are these, from this one on.
fn are_as_expected(rt: &impl Abort, items: &[Item], first: usize) {
    let mut expected = ALL.iter();
    for _ in 0..first {
        expected.next();
    }
    for item in items {
        match expected.next() {
            Some(expected) => assert_eq!(rt; told(rt, item), *expected, "from {first}"),
            None => panic!(rt; "one item more"),
        }
    }
}

fn ask(
    rt: &impl Abort,
    alloc: Global,
    book: &mut Book<MemoryArea>,
    (from, max, count, first): Question,
) {
    match book.items(alloc, from, max) {
        Ok(items) => {
            assert_eq!(rt; items.len(), count, "{from} {max}");
            are_as_expected(rt, &items, first);
        }
        Err(_) => panic!(rt; "no items"),
    }
}

/// What is asked for where the first batch is firm.
const FIRST: [Question; 12] = [
    (0, 100, 7, 0),
    (0, 0, 0, 0),
    (0, 1, 1, 0),
    (1, 1, 1, 1),
    (1, 2, 2, 1),
    (3, 3, 3, 3),
    (0, 7, 7, 0),
    (6, 1, 1, 6),
    (6, 5, 1, 6),
    (7, 5, 0, 7),
    (u64::MAX, u32::MAX, 0, 7),
    (2, u32::MAX, 5, 2),
];

/// What is asked for where all are.
const LAST: [Question; 6] = [
    (0, 2, 2, 0),
    (2, 4, 4, 2),
    (6, 2, 2, 6),
    (8, 2, 1, 8),
    (9, 2, 0, 9),
    (0, 100, 9, 0),
];

fn ask_all(rt: &impl Abort, alloc: Global, book: &mut Book<MemoryArea>, questions: &[Question]) {
    for asked in questions {
        ask(rt, alloc, book, *asked);
    }
}

/// What comes before the Tick, which is made at 90.
fn before_the_tick(rt: &impl Abort, book: &mut Book<MemoryArea>) {
    send(rt, book, &two_records(1, 0, 5, 6), 10);
    send(rt, book, &one_record(2, 1, 7), 20);
    send(rt, book, &two_records(2, 2, 8, 9), 20);
    send(rt, book, &one_record(2, 3, 10), 20);
    send(rt, book, &one_record(2, 4, 11), 20);
    send(rt, book, &listing_two(4, 0xF9, 5, 4, 1), 30);
}

/// The Tick, the Close and what is released behind them.
fn marks(rt: &impl Abort, book: &mut Book<MemoryArea>) {
    let ticked = Marked::Made {
        front: 8,
        faults: 0,
    };
    ticks(rt, book, 90, ticked);
    send(rt, book, &listing(3, 0xFA, 6, 2), 91);
    let closed = Marked::Made {
        front: 10,
        faults: 0,
    };
    closes(rt, book, 95, closed);
    send(rt, book, &listing(4, 0xF9, 7, 3), 96);
}

/// A book of which nothing is firm, and which has no items.
fn before_a_commit(rt: &impl Abort, alloc: Global) -> Book<MemoryArea> {
    // five calls of the device make an area anew, and each commit makes four: the second commit fails at its last call,
    // and what it wrote stands
    let area = area(rt, alloc, 4000, failing(rt, alloc, &[13]));
    let mut book = opened(rt, alloc, area);
    ask(rt, alloc, &mut book, (0, 100, 0, 0));
    before_the_tick(rt, &mut book);
    marks(rt, &mut book);
    ask(rt, alloc, &mut book, (0, 100, 0, 0));
    book
}

/// A commit succeeds, and the next one fails: both leave the items of the first.
fn first_batch(rt: &impl Abort, alloc: Global, book: &mut Book<MemoryArea>) {
    assert!(rt; commits(book));
    send(rt, book, &one_record(1, 8, 12), 97);
    ask_all(rt, alloc, book, &FIRST);
    assert!(rt; !commits(book));
    ask_all(rt, alloc, book, &FIRST);
}

/// The second batch stands after all, and an item stays what it was.
fn other_batches(rt: &impl Abort, alloc: Global, book: &mut Book<MemoryArea>) {
    assert!(rt; commits(book));
    send(rt, book, &one_record(1, 9, 13), 98);
    assert!(rt; commits(book));
    ask_all(rt, alloc, book, &LAST);
}

/// The book after its area is opened again has the items of all batches.
fn opened_again(rt: &impl Abort, alloc: Global, book: Book<MemoryArea>) {
    let mut again = opened(rt, alloc, area_of(book));
    ask(rt, alloc, &mut again, (0, 100, 9, 0));
}

#[test]
fn the_firm_records_and_marks_are_told_in_order(rt: HostRuntime) {
    let mut book = before_a_commit(&rt, rt.alloc());
    first_batch(&rt, rt.alloc(), &mut book);
    other_batches(&rt, rt.alloc(), &mut book);
    opened_again(&rt, rt.alloc(), book);
}
