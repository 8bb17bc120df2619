// What tests of a gateway's book share: a book on an area in memory, and its calls, each by itself. Who calls these
// learns their answer alone, so that tests stay short to prove.
use area_disk::{Area, Drill, MemoryArea, Plan, Stop};
use gateway_book::{Book, BookFault, Marked, Outcome, Receipt, Settled, Setup, prepare};
use gw_base::{Addr, Caller, Moment};
use std::alloc::Global;
use std::process::Abort;

pub const SETUP: Setup = Setup {
    address: 0x0A00_0001,
    open_time: 60,
};

pub const FROM: Addr = Addr {
    ip: 0x0A00_0101,
    port: 40_001,
};

/// A Data Record Transfer Request with one record under the number 0.
pub const REQUEST: [u8; 22] = [
    0x4E, 0xF0, 0x00, 0x10, 0x00, 0x00, 0x7E, 0x01, 0xFC, 0x00, 0x0B, 0x01, 0x01, 0x06, 0x00, 0x00,
    0x05, 0xA0, 0x03, 0x80, 0x01, 0x05,
];

/// A device of which nothing fails.
pub(crate) fn sound(alloc: Global) -> Plan {
    Plan {
        fail: Vec::new(alloc),
        read_fail: Vec::new(alloc),
        stop: None,
    }
}

/// A device whose counted calls with these numbers fail.
pub(crate) fn failing(rt: &impl Abort, alloc: Global, calls: &[u64]) -> Plan {
    let mut fail = Vec::new(alloc);
    if fail.extend_from_slice(calls).is_err() {
        panic!(rt; "no memory for a plan");
    }
    Plan {
        fail,
        read_fail: Vec::new(alloc),
        stop: None,
    }
}

/// A device that stops at a counted call.
pub(crate) fn stopping(alloc: Global, stop: Stop) -> Plan {
    Plan {
        fail: Vec::new(alloc),
        read_fail: Vec::new(alloc),
        stop: Some(stop),
    }
}

pub(crate) fn area(rt: &impl Abort, alloc: Global, length: u64, plan: Plan) -> MemoryArea {
    match MemoryArea::new(alloc, length, plan) {
        Ok(area) => area,
        Err(_) => panic!(rt; "no memory for an area"),
    }
}

/// The area after the device runs again, with nothing planned.
pub(crate) fn revived(alloc: Global, mut area: MemoryArea) -> MemoryArea {
    area.revive();
    area.arm(sound(alloc));
    area
}

pub(crate) fn open(
    rt: &impl Abort,
    alloc: Global,
    area: MemoryArea,
) -> Result<Book<MemoryArea>, (BookFault, MemoryArea)> {
    open_as(rt, alloc, area, SETUP)
}

pub(crate) fn open_as(
    rt: &impl Abort,
    alloc: Global,
    area: MemoryArea,
    setup: Setup,
) -> Result<Book<MemoryArea>, (BookFault, MemoryArea)> {
    assert!(rt; area.length() >= 100);
    assert!(rt; area.length() <= 100_000);
    Book::open(alloc, area, setup)
}

pub(crate) fn opened(rt: &impl Abort, alloc: Global, area: MemoryArea) -> Book<MemoryArea> {
    match open(rt, alloc, area) {
        Ok(book) => book,
        Err(_) => panic!(rt; "not opened"),
    }
}

pub(crate) fn moment(rt: &impl Abort, seconds: u64) -> Moment {
    match Moment::of(seconds) {
        Some(moment) => moment,
        None => panic!(rt; "no such moment"),
    }
}

pub(crate) fn take(book: &mut Book<MemoryArea>, from: Addr, octets: &[u8], now: Moment) -> Outcome {
    book.take(from, &prepare(octets), now, Caller::NONE)
}

/// The answer to a datagram.
pub(crate) fn answered(
    rt: &impl Abort,
    book: &mut Book<MemoryArea>,
    from: Addr,
    octets: &[u8],
    seconds: u64,
) -> Receipt {
    match take(book, from, octets, moment(rt, seconds)) {
        Outcome::Answer(receipt) => receipt,
        _ => panic!(rt; "not answered"),
    }
}

/// The cause of a Data Record Transfer Response.
pub(crate) fn cause(rt: &impl Abort, receipt: &Receipt) -> u8 {
    let octets = receipt.reply.octets();
    assert!(rt; octets.len() == 13);
    octets[7]
}

/// Sends a request, which is answered by this cause.
pub(crate) fn sends(
    rt: &impl Abort,
    book: &mut Book<MemoryArea>,
    from: Addr,
    octets: &[u8],
    wanted: u8,
) -> Receipt {
    let receipt = answered(rt, book, from, octets, 5);
    assert_eq!(rt; cause(rt, &receipt), wanted);
    receipt
}

/// Whether a commit succeeds.
pub(crate) fn commits(book: &mut Book<MemoryArea>) -> bool {
    book.commit().is_ok()
}

/// Whether what was answered at this front and these faults may be sent is told so.
pub(crate) fn settles(
    rt: &impl Abort,
    book: &Book<MemoryArea>,
    (front, faults): (u64, u64),
    wanted: Settled,
) {
    assert_eq!(rt; book.settled(front, faults), wanted);
}

/// How many entries there are.
pub(crate) fn entries(book: &Book<MemoryArea>) -> u64 {
    book.counts().entries
}

/// How many entries are firm.
pub(crate) fn firm(book: &Book<MemoryArea>) -> u64 {
    book.counts().firm
}

pub(crate) fn area_of(book: Book<MemoryArea>) -> MemoryArea {
    book.into_area()
}

/// A Tick at this moment is answered so.
pub(crate) fn ticks(rt: &impl Abort, book: &mut Book<MemoryArea>, seconds: u64, wanted: Marked) {
    assert_eq!(rt; book.tick(moment(rt, seconds), Caller::NONE), wanted);
}

/// A Close at this moment is answered so.
pub(crate) fn closes(rt: &impl Abort, book: &mut Book<MemoryArea>, seconds: u64, wanted: Marked) {
    assert_eq!(rt; book.close(moment(rt, seconds), Caller::NONE), wanted);
}
