//! Two sessions on two threads that share a gateway's book, whose device fails now and then.
ghost use Rattle.std.specs.Prelude.{◌≡◌};
ghost use Rattle.turn_cell.specs.Cell.{ArePassesOf, AreNew, IsPassOf, begun, knowledge};
ghost use Rattle.gateway_book.specs.Turning.{facts_of};

use crate::marks::{Marks, mark};
use area_disk::{Area, MemoryArea, Plan};
use gateway_book::laws::a_turn_owes;
use gateway_book::{Book, Marked, Outcome, Receipt, Settled, Setup, prepare};
use gw_base::{Addr, Caller, Item, Moment};
use std::alloc::Global;
use std::process::Abort;
use std::sync::Wait;
use std::thread::{self, Threads};
use turn_cell::{Pass, Turn, TurnCell};

type Cell = TurnCell<Book<MemoryArea>>;

// How many requests each session sends.
const REQUESTS: u64 = 50;

// A Data Record Transfer Request under this number, whose one record ends with this octet.
fn request(number: u8, record: u8) -> [u8; 22] {
    [
        0x4E, 0xF0, 0, 0x10, 0, number, 0x7E, 1, 0xFC, 0, 0x0B, 1, 1, 6, 0, 0, 5, 0xA0, 3, 0x80, 1,
        record,
    ]
}

// Takes a request of a session, which has a node of its own.
#[derive(Drop)]
struct Asking {
    who: Caller,
    now: Moment,
    octets: [u8; 22],
}

impl<A: Area> Turn<Book<A>> for Asking {
    ghost use Rattle.std.specs.Prelude.{Some};
    ghost use Rattle.gateway_book.specs.Caller.{IsCounted};

    type Answer = Outcome;

    ghost session = { λ turn. Some turn.who.session };

    ghost does = { λ turn found left answer drops added. IsCounted left answer };

    fn run(self, value: &mut Book<A>) -> Outcome {
        a_turn_owes::<A>();
        let from = Addr {
            ip: 0x0A00_0101u32.wrapping_add(self.who.session),
            port: 3386,
        };
        value.take(from, &prepare(&self.octets), self.now, self.who)
    }
}

// Commits, and asks what has become of an answer.
#[derive(Drop)]
struct Committing {
    front: u64,
    faults: u64,
}

impl<A: Area> Turn<Book<A>> for Committing {
    ghost use Rattle.std.specs.Prelude.{◌≡◌, None};
    ghost use Rattle.cgf_journal.specs.Trail.{firm_length};
    ghost use Rattle.gateway_book.specs.Calls.{settled_by};

    type Answer = Settled;

    ghost session = { λ turn. None };

    ghost does = { λ turn found left answer drops added.
        answer ≡ settled_by left.cuts (firm_length left.trail) turn.front turn.faults };

    fn run(self, value: &mut Book<A>) -> Settled {
        a_turn_owes::<A>();
        let _committed = value.commit();
        value.settled(self.front, self.faults)
    }
}

// What became of a session's requests: a bit each for those that were told to be firm, and how many were lost, and how
// many weren't accepted.
#[derive(Clone, Copy)]
struct Told {
    firm: u64,
    lost: u64,
    failed: u64,
}

// The receipt of an answer that accepts its request.
fn accepted(outcome: Outcome) -> Option<Receipt> {
    match outcome {
        Outcome::Answer(receipt) => {
            if receipt.cause == Some(128) {
                Some(receipt)
            } else {
                None
            }
        }
        Outcome::Drop(_) => None,
    }
}

// Sends a request.
fn ask<R: Wait>(rt: &R, cell: &Cell, pass: Pass, who: Caller, now: Moment) -> (Outcome, Pass)
    requires own { IsPassOf cell.now pass }
    requires session { who.session ≡ (knowledge pass).number }
    ensures own { IsPassOf cell.now result.1 }
    ensures same { (knowledge result.1).number ≡ (knowledge pass).number }
{
    let [.., number] = who.serial.to_be_bytes();
    let [.., session] = who.session.to_be_bytes();
    let octets = request(number, session.wrapping_mul(100).wrapping_add(number));
    cell.with(rt, pass, Asking { who, now, octets })
}

// What has become of an answer, behind a commit.
fn settle<R: Wait>(rt: &R, cell: &Cell, pass: Pass, receipt: &Receipt) -> (Settled, Pass)
    requires own { IsPassOf cell.now pass }
    ensures own { IsPassOf cell.now result.1 }
    ensures same { (knowledge result.1).number ≡ (knowledge pass).number }
{
    let turn = Committing {
        front: receipt.front,
        faults: receipt.faults,
    };
    cell.with(rt, pass, turn)
}

// Sends a request, and learns what has become of its answer.
fn send<R: Wait>(rt: &R, cell: &Cell, pass: Pass, who: Caller, now: Moment, told: &mut Told) -> Pass
    requires own { IsPassOf cell.now pass }
    requires session { who.session ≡ (knowledge pass).number }
    ensures own { IsPassOf cell.now result }
    ensures same { (knowledge result).number ≡ (knowledge pass).number }
{
    let (outcome, pass) = ask(rt, cell, pass, who, now);
    let Some(receipt) = accepted(outcome) else {
        told.failed = told.failed.wrapping_add(1);
        return pass;
    };
    let (settled, pass) = settle(rt, cell, pass, &receipt);
    match settled {
        Settled::Firm => told.firm |= 1u64.wrapping_shl((who.serial % 64) as u32),
        _ => told.lost = told.lost.wrapping_add(1),
    }
    pass
}

// Sends all requests of a session.
fn send_all<R: Wait>(rt: &R, cell: &Cell, mut pass: Pass, session: u32, now: Moment) -> (Told, Pass)
    requires own { IsPassOf cell.now pass }
    requires session { session ≡ (knowledge pass).number }
    ensures own { IsPassOf cell.now result.1 }
    ensures same { (knowledge result.1).number ≡ session }
{
    let mut told = Told {
        firm: 0,
        lost: 0,
        failed: 0,
    };
    for serial in 0..REQUESTS {
        let who = Caller { session, serial };
        pass = send(rt, cell, pass, who, now, &mut told);
    }
    (told, pass)
}

// Two sessions at once.
fn two_at_once<R: Threads + Wait + Sync>(
    rt: &R,
    cell: &Cell,
    a: Pass,
    b: Pass,
    now: Moment,
) -> (Told, Told, Pass, Pass)
    requires a { IsPassOf cell.now a × ((knowledge a).number ≡ 0) }
    requires b { IsPassOf cell.now b × ((knowledge b).number ≡ 1) }
    ensures { IsPassOf cell.now result.2 × IsPassOf cell.now result.3
        × ((knowledge result.3).number ≡ 1) }
{
    let (one, two) = thread::join(
        rt,
        move ||
            requires { IsPassOf cell.now a × ((knowledge a).number ≡ 0) }
            ensures { IsPassOf cell.entry.now result.1 }
        { send_all(rt, cell, a, 0, now) },
        move ||
            requires { IsPassOf cell.now b × ((knowledge b).number ≡ 1) }
            ensures { IsPassOf cell.entry.now result.1 × ((knowledge result.1).number ≡ 1) }
        { send_all(rt, cell, b, 1, now) },
    );
    (one.0, two.0, one.1, two.1)
}

// The two passes of a cell that has just been made, the first one first.
fn both<R: Abort>(rt: &R, cell: &Cell, mut passes: Vec<Pass>) -> (Pass, Pass, Vec<Pass>)
    requires { AreNew cell.now.table.shared.table_id (facts_of (begun cell.now)) 2 passes.items }
    ensures a { IsPassOf cell.now result.0 × ((knowledge result.0).number ≡ 0) }
    ensures b { IsPassOf cell.now result.1 × ((knowledge result.1).number ≡ 1) }
    ensures rest { ArePassesOf cell.now result.2.items }
{
    let Some(b) = passes.pop() else {
        panic!(rt; "no pass");
    };
    let Some(a) = passes.pop() else {
        panic!(rt; "no other pass");
    };
    (a, b, passes)
}

// A device of whose calls the 12th, the 13th, the 30th and the 52nd fail. The 12th is a commit's, and the next an
// opening's again.
fn plan<R: Abort>(rt: &R, alloc: Global) -> Plan {
    let mut fail = Vec::new(alloc);
    assert!(rt; fail.extend_from_slice(&[12, 13, 30, 52]).is_ok());
    Plan {
        fail,
        read_fail: Vec::new(alloc),
        stop: None,
    }
}

// A book on an area in memory of such a device.
fn opened<R: Abort>(rt: &R, alloc: Global) -> Book<MemoryArea> {
    let Ok(area) = MemoryArea::new(alloc, 50_000, plan(rt, alloc)) else {
        panic!(rt; "no memory");
    };
    let setup = Setup {
        address: 0x0A00_0001,
        open_time: 60,
    };
    match Book::open(alloc, area, setup) {
        Ok(book) => book,
        Err(_) => panic!(rt; "not opened"),
    }
}

// The bit of the request of a session whose record this is.
fn bit_of(item: &Item, session: u8) -> Option<u64> {
    let Item::Part { octets, .. } = item else {
        return None;
    };
    let [.., record] = octets.octets() else {
        return None;
    };
    let serial = record.wrapping_sub(session.wrapping_mul(100));
    if serial < 50 {
        Some(1u64.wrapping_shl(serial as u32))
    } else {
        None
    }
}

// A bit for each request of a session whose record is filed, and whether one is filed twice.
fn filed(items: &[Item], session: u8) -> (u64, bool) {
    let mut found = 0u64;
    let mut twice = false;
    for item in items {
        let bit = bit_of(item, session).unwrap_or(0);
        twice = twice || found & bit != 0;
        found |= bit;
    }
    (found, twice)
}

// A cell with a book, and the passes of two sessions, the first one first.
fn made<R: Abort>(rt: &R, alloc: Global, book: Book<MemoryArea>) -> (Cell, Pass, Pass, Vec<Pass>)
    ensures a { IsPassOf result.0 result.1 × ((knowledge result.1).number ≡ 0) }
    ensures b { IsPassOf result.0 result.2 × ((knowledge result.2).number ≡ 1) }
    ensures rest { ArePassesOf result.0 result.3.items }
{
    match TurnCell::new(alloc, book, 2) {
        Ok((cell, passes)) => {
            let (a, b, passes) = both(rt, &cell, passes);
            (cell, a, b, passes)
        }
        Err(_) => panic!(rt; "no memory"),
    }
}

// Gives a pass back.
fn back<R: Abort>(rt: &R, cell: &Cell, passes: &mut Vec<Pass>, pass: Pass)
    requires { ArePassesOf cell.now passes.old.items × IsPassOf cell.now pass }
    ensures { ArePassesOf cell.now passes.new.items }
{
    match passes.push(pass) {
        Ok(()) => {}
        Err(_) => panic!(rt; "no memory"),
    }
}

// The book of a cell whose passes are all given.
fn ended<R: Abort>(rt: &R, cell: Cell, passes: Vec<Pass>) -> Book<MemoryArea>
    requires { ArePassesOf cell passes.items }
{
    match cell.finish(passes) {
        Ok(book) => book,
        Err(_) => panic!(rt; "not ended"),
    }
}

fn moment<R: Abort>(rt: &R) -> Moment {
    let Some(now) = Moment::of(1_709_164_800) else {
        panic!(rt; "no moment");
    };
    now
}

// What was told of the requests of both sessions, what became of marks behind them, and the book as they left it.
fn shared<R: Threads + Wait + Sync + Abort>(
    rt: &R,
    alloc: Global,
) -> (Told, Told, Marks, Book<MemoryArea>) {
    let now = moment(rt);
    let (cell, a, b, mut passes) = made(rt, alloc, opened(rt, alloc));
    let (one, two, a, b) = two_at_once(rt, &cell, a, b, now);
    let (marks, b) = mark(rt, &cell, b, 1, now);
    back(rt, &cell, &mut passes, a);
    back(rt, &cell, &mut passes, b);
    (one, two, marks, ended(rt, cell, passes))
}

// Each request was answered, and each that was told to be firm is filed, once.
fn keeps(items: &[Item], session: u8, told: Told) -> bool {
    let (found, twice) = filed(items, session);
    let firm = told.firm.count_ones() as u64;
    !twice
        && told.firm & !found == 0
        && firm.wrapping_add(told.lost).wrapping_add(told.failed) == REQUESTS
}

// What the book files, behind a commit, which tells that what was answered at first is lost.
fn items<R: Abort>(rt: &R, alloc: Global, book: &mut Book<MemoryArea>) -> Vec<Item> {
    assert!(rt; book.commit().is_ok());
    assert_eq!(rt; book.settled(0, 0), Settled::Lost { faults: 4 });
    match book.items(alloc, 0, 1000) {
        Ok(items) => items,
        Err(_) => panic!(rt; "no items"),
    }
}

// Files are open: the first Tick is due, and a Close; behind that no other.
fn are_made<R: Abort>(rt: &R, marks: Marks) {
    assert!(rt; matches!(marks.tick, Marked::Made { .. }));
    assert!(rt; matches!(marks.close, Marked::Made { .. }));
    assert_eq!(rt; marks.another, Marked::NotDue);
}

fn is_closed(items: &[Item]) -> bool {
    matches!(items.last(), Some(Item::Close { .. }))
}

#[test]
fn what_two_sessions_are_told_is_firm_stays_whatever_fails(rt: HostRuntime) {
    let (one, two, marks, mut book) = shared(&rt, rt.alloc());
    are_made(&rt, marks);
    let items = items(&rt, rt.alloc(), &mut book);
    assert!(rt; is_closed(&items));
    assert!(rt; keeps(&items, 0, one));
    assert!(rt; keeps(&items, 1, two));
    assert!(rt; one.lost.wrapping_add(two.lost) > 0);
}
