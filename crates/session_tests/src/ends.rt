//! Who writes the files, and how a gateway ends.
ghost use Rattle.std.specs.Prelude.{◌≡◌, true};
ghost use Rattle.file_writer.specs.Writer.{is_broken};
ghost use Rattle.gateway_book.specs.Book.{value_of};
ghost use Rattle.gateway_book.specs.Turning.{tells_lists};
ghost use Rattle.node_session.specs.Writing.{IsActorOf, IsWriterOf, knowledge_of, writer_of};
ghost use Rattle.turn_cell.specs.Cell.{ArePassesOf, IsPassOf};

use crate::desk::{Cell, HERE, commit, day, node, numbers, opened, plan, request};
use area_disk::{Area, MemoryArea, Plan};
use cdr_file::Offset16;
use cdr_shelf::{FileName, MemoryShelf};
use file_rotate::Limits;
use file_writer::Writer;
use gateway_book::{Book, prepare};
use gw_base::{Caller, Moment};
use node_session::{FileActor, Filing, SettleFault, settle};
use route_filter::Rules;
use std::alloc::Global;
use std::process::Abort;
use std::sync::Wait;
use turn_cell::{Pass, TurnCell};

// A writer on a shelf in memory of whose calls these fail.
fn writer(rt: &impl Abort, alloc: Global, fail: &[u64]) -> Writer<MemoryShelf>
    ensures { is_broken result ≡ true }
{
    let Ok(shelf) = MemoryShelf::new(alloc, plan(rt, alloc, fail)) else {
        panic!(rt; "no memory for a shelf")
    };
    let limits = Limits {
        size: 1_000_000,
        count: 1_000_000,
        open_time: 60,
    };
    let Some(offset) = Offset16::of(0) else {
        panic!(rt; "no such offset")
    };
    Writer::new(shelf, Rules::none(alloc), limits, offset, HERE.ip, 1)
}

// Puts octets behind others.
fn put(rt: &impl Abort, octets: &mut Vec<u8>, more: &[u8]) {
    let Ok(()) = octets.extend_from_slice(more) else {
        panic!(rt; "no memory for a request")
    };
}

// A request with 70 records.
fn seventy(rt: &impl Abort, alloc: Global) -> Vec<u8> {
    let head = [
        0x4E, 0xF0, 1, 0xF3, 0, 0, 0x7E, 1, 0xFC, 1, 0xEE, 70, 1, 6, 0,
    ];
    let mut octets = Vec::new(alloc);
    put(rt, &mut octets, &head);
    for _ in 0..70 {
        put(rt, &mut octets, &[0, 5, 0xA0, 3, 0x80, 1, 5]);
    }
    octets
}

// A book that took a request, which isn't firm.
fn filed(rt: &impl Abort, alloc: Global, octets: &[u8]) -> Book<MemoryArea> {
    let mut book = opened(rt, alloc);
    commit(rt, &mut book);
    let _answer = book.take(node(1), &prepare(octets), day(rt), Caller::NONE);
    book
}

// A plan by which the first reading fails.
fn unread(rt: &impl Abort, alloc: Global) -> Plan {
    Plan {
        fail: Vec::new(alloc),
        read_fail: numbers(rt, alloc, &[1]),
        stop: None,
    }
}

// The one pass of a cell that has just been made.
fn only(rt: &impl Abort, cell: &Cell, mut passes: Vec<Pass>) -> Pass
    requires { ArePassesOf cell.now passes.items }
    ensures { IsPassOf cell.now result }
{
    let Some(pass) = passes.pop() else {
        panic!(rt; "no pass")
    };
    pass
}

// A cell with a book, and who writes its files.
fn actor(
    rt: &impl Abort,
    alloc: Global,
    book: Book<MemoryArea>,
    writer: Writer<MemoryShelf>,
) -> (Cell, FileActor<MemoryShelf>)
    requires { is_broken writer ≡ true }
    ensures own { IsActorOf result.0 result.1 }
    ensures writer { is_broken (writer_of result.1) ≡ true }
{
    let Ok((cell, passes)) = TurnCell::new(alloc, book, 1) else {
        panic!(rt; "no memory for a cell")
    };
    let pass = only(rt, &cell, passes);
    (cell, FileActor::new(pass, writer))
}

// A book with a firm history of 70 records, whose first reading fails.
fn unread_book(rt: &impl Abort, alloc: Global) -> Book<MemoryArea> {
    let mut book = filed(rt, alloc, &seventy(rt, alloc));
    commit(rt, &mut book);
    book.arm(unread(rt, alloc));
    book
}

// What comes of a step.
fn step<R: Wait>(rt: &R, alloc: Global, cell: &Cell, actor: &mut FileActor<MemoryShelf>) -> Filing
    requires own { IsActorOf cell.now actor.old }
    requires writer { IsWriterOf (tells_lists ⟦<MemoryArea as Area>⟧) (knowledge_of actor.old).known
        (writer_of actor.old) }
    ensures own { IsActorOf cell.now actor.new }
    ensures writer { IsWriterOf (tells_lists ⟦<MemoryArea as Area>⟧) (knowledge_of actor.new).known
        (writer_of actor.new) }
{
    actor.step(rt, alloc, cell)
}

// What came of five steps over a history of 70 records, of which the area fails in the first, and the shelf in the
// second.
fn five_steps<R: Abort + Wait>(rt: &R, alloc: Global) -> [Filing; 5] {
    let (cell, mut actor) = actor(rt, alloc, unread_book(rt, alloc), writer(rt, alloc, &[1]));
    let one = step(rt, alloc, &cell, &mut actor);
    let two = step(rt, alloc, &cell, &mut actor);
    let three = step(rt, alloc, &cell, &mut actor);
    let four = step(rt, alloc, &cell, &mut actor);
    let five = step(rt, alloc, &cell, &mut actor);
    [one, two, three, four, five]
}

#[test]
fn who_writes_the_files_takes_64_records_at_most_and_goes_on_after_a_fault(rt: HostRuntime) {
    let wanted = [
        Filing::Area,
        Filing::Shelf,
        Filing::Took { items: 64 },
        Filing::Took { items: 6 },
        Filing::Took { items: 0 },
    ];
    assert!(rt; five_steps(&rt, rt.alloc()) == wanted);
}

// What a gateway told that ended: how many entries it has, how many are firm, how many copies are held and stranded.
type Ended = Result<[u64; 4], SettleFault>;

// Ends a gateway.
fn end(
    alloc: Global,
    book: &mut Book<MemoryArea>,
    writer: &mut Writer<MemoryShelf>,
    now: Moment,
) -> Ended
    requires { IsWriterOf (tells_lists ⟦<MemoryArea as Area>⟧) (value_of book.old).firm writer.old }
    ensures { IsWriterOf (tells_lists ⟦<MemoryArea as Area>⟧) (value_of book.new).firm writer.new }
{
    let counts = settle(alloc, book, writer, now, Caller::NONE)?;
    Ok([counts.entries, counts.firm, counts.held, counts.stranded])
}

// Whether the first file of a writer's shelf has these octets.
fn is_first(writer: Writer<MemoryShelf>, file: &[u8]) -> bool {
    let first = FileName {
        stream: 0,
        sequence: 1,
    };
    match writer.into_shelf().file(first) {
        Some(octets) => octets == file,
        None => false,
    }
}

// What a gateway told that took one record and ended twice, where these calls of its area and of its shelf fail, and
// whether its first file is this.
fn ended(
    rt: &impl Abort,
    alloc: Global,
    area: &[u64],
    shelf: &[u64],
    file: &[u8],
) -> (Ended, Ended, bool) {
    let now = day(rt);
    let mut book = filed(rt, alloc, &request(0));
    book.arm(plan(rt, alloc, area));
    let mut writer = writer(rt, alloc, shelf);
    let one = end(alloc, &mut book, &mut writer, now);
    let two = end(alloc, &mut book, &mut writer, now);
    (one, two, is_first(writer, file))
}

// The file of one record that was filed on 29 February at midnight.
const FILE: [u8; 61] = [
    0, 0, 0, 0x3D, 0, 0, 0, 0x34, 0x60, 0x60, 0x2E, 0x80, 8, 0, 0x2E, 0x80, 8, 0, 0, 0, 0, 1, 0, 0,
    0, 1, 4, 0, 0, 0, 0, 0, 0, 0, 0, 0, 0, 0xFF, 0xFF, 0x0A, 0, 0, 1, 0, 0, 0, 0, 0, 0, 0, 0, 0, 0,
    5, 0x60, 0x20, 0xA0, 3, 0x80, 1, 5,
];

#[test]
fn a_gateway_that_ends_makes_all_firm_and_files_it_or_tells_which_device_failed(rt: HostRuntime) {
    let alloc = rt.alloc();
    let whole = Ok([3, 3, 0, 0]);
    assert!(rt; ended(&rt, alloc, &[], &[], &FILE) == (whole, whole, true));
    let shelf = Err(SettleFault::Shelf);
    assert!(rt; ended(&rt, alloc, &[], &[1], &FILE) == (shelf, whole, true));
    let area = Err(SettleFault::Area);
    assert!(rt; ended(&rt, alloc, &[1], &[], &FILE) == (area, Ok([1, 1, 0, 0]), false));
}
