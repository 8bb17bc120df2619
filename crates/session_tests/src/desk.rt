//! What sessions stand on: a book, its cell, jobs, and a session with a link.
ghost use Rattle.std.specs.Prelude.{◌≡◌, Some};
ghost use Rattle.gateway_book.specs.Turning.{facts_of};
ghost use Rattle.net_link.specs.Memory.{told_of};
ghost use Rattle.net_link.specs.Net.{told_by};
ghost use Rattle.node_session.specs.Passes.{IsWorkerOf, pass_of};
ghost use Rattle.turn_cell.specs.Cell.{AreNew, ArePassesOf, IsPassOf, begun, knowledge};

use area_disk::{MemoryArea, Plan};
use gateway_book::{Book, Setup};
use gw_base::{Addr, Moment, Octets};
use job_inbox::Job;
use net_link::{Links, MemoryLink, MemoryLinks};
use node_session::{Gate, Served, Worker};
use std::alloc::Global;
use std::process::Abort;
use std::sync::Wait;
use turn_cell::{Pass, TurnCell};

pub(crate) type Cell = TurnCell<Book<MemoryArea>>;

/// Where the gateway receives.
pub(crate) const HERE: Addr = Addr {
    ip: 0x0A00_0001,
    port: 3386,
};

/// A Data Record Transfer Request under this number, with one record.
pub(crate) fn request(number: u8) -> [u8; 22] {
    [
        0x4E, 0xF0, 0, 0x10, 0, number, 0x7E, 1, 0xFC, 0, 0x0B, 1, 1, 6, 0, 0, 5, 0xA0, 3, 0x80, 1,
        5,
    ]
}

/// Its response with this cause.
pub(crate) fn response(number: u8, cause: u8) -> [u8; 13] {
    [0x4E, 0xF1, 0, 7, 0, number, 1, cause, 0xFD, 0, 2, 0, number]
}

/// The node of a session, of two: 10.0.1.2 of session 0, and 10.0.1.1 of session 1.
pub(crate) fn node(session: u32) -> Addr {
    Addr {
        ip: 0x0A00_0102u32.wrapping_sub(session),
        port: 40_001,
    }
}

/// The first second of 29 February 2024.
pub(crate) fn day(rt: &impl Abort) -> Moment {
    let Some(moment) = Moment::of(1_709_164_800) else {
        panic!(rt; "no such moment")
    };
    moment
}

/// A datagram of a session's node.
pub(crate) fn job(rt: &impl Abort, alloc: Global, session: u32, serial: u64, octets: &[u8]) -> Job {
    let Ok(octets) = Octets::of(alloc, octets) else {
        panic!(rt; "no memory for a job")
    };
    Job {
        from: node(session),
        octets,
        moment: day(rt),
        serial,
    }
}

/// A list of numbers.
pub(crate) fn numbers(rt: &impl Abort, alloc: Global, numbers: &[u64]) -> Vec<u64> {
    let Ok(list) = numbers.to_vec(alloc) else {
        panic!(rt; "no memory for numbers")
    };
    list
}

/// A plan by which these counted calls fail.
pub(crate) fn plan(rt: &impl Abort, alloc: Global, fail: &[u64]) -> Plan {
    Plan {
        fail: numbers(rt, alloc, fail),
        read_fail: Vec::new(alloc),
        stop: None,
    }
}

// A book that was opened on an area in memory.
fn open(rt: &impl Abort, alloc: Global) -> Book<MemoryArea> {
    let Ok(area) = MemoryArea::new(alloc, 50_000, plan(rt, alloc, &[])) else {
        panic!(rt; "no memory for an area")
    };
    let setup = Setup {
        address: HERE.ip,
        open_time: 60,
    };
    let Ok(book) = Book::open(alloc, area, setup) else {
        panic!(rt; "not opened")
    };
    book
}

/// A book on an area in memory, with a Start that isn't firm. None of the area's calls is counted yet.
pub(crate) fn opened(rt: &impl Abort, alloc: Global) -> Book<MemoryArea> {
    let mut book = open(rt, alloc);
    book.arm(plan(rt, alloc, &[]));
    book
}

/// Makes the history of a book firm.
pub(crate) fn commit(rt: &impl Abort, book: &mut Book<MemoryArea>) {
    let Ok(_) = book.commit() else {
        panic!(rt; "not committed")
    };
}

/// A session with its link.
#[derive(Drop)]
pub(crate) struct Desk {
    pub worker: Worker,
    pub link: MemoryLink,
}

/// A reply with this cause, and its front.
pub(crate) fn replied(cause: u8, front: u64) -> Served {
    Served::Replied {
        cause: Some(cause),
        front,
    }
}

/// Serves a job at a desk.
pub(crate) fn answer<G: Gate, R: Wait>(
    rt: &R,
    cell: &Cell,
    gate: &G,
    desk: Desk,
    job: Job,
) -> (Served, Desk)
    requires own { IsWorkerOf cell.now desk.worker }
    ensures own { IsWorkerOf cell.now result.1.worker }
    ensures address { (told_of result.1.link).address ≡ (told_of desk.link).address }
{
    let Desk {
        mut worker,
        mut link,
    } = desk;
    let served = worker.serve_one(rt, cell, job, gate, &mut link);
    (served, Desk { worker, link })
}

/// What makes links that have room to send 64 datagrams and fail at these calls.
pub(crate) fn net(rt: &impl Abort, alloc: Global, fail: &[u64]) -> MemoryLinks {
    let Ok(links) = MemoryLinks::new(alloc, Vec::new(alloc), 64, numbers(rt, alloc, fail)) else {
        panic!(rt; "no memory for links")
    };
    links
}

// The two passes of a cell that has just been made, the first one first.
fn both(rt: &impl Abort, cell: &Cell, mut passes: Vec<Pass>) -> (Pass, Pass)
    requires { AreNew cell.now.table.shared.table_id (facts_of (begun cell.now)) 2 passes.items }
    ensures a { IsPassOf cell.now result.0 × ((knowledge result.0).number ≡ 0) }
    ensures b { IsPassOf cell.now result.1 × ((knowledge result.1).number ≡ 1) }
{
    let Some(b) = passes.pop() else {
        panic!(rt; "no passes")
    };
    let Some(a) = passes.pop() else {
        panic!(rt; "one pass")
    };
    (a, b)
}

// A session's desk, with a link at the gateway's address.
fn open_desk(rt: &impl Abort, links: &mut MemoryLinks, session: u32, pass: Pass) -> Desk
    requires { session ≡ (knowledge pass).number }
    ensures worker { pass_of result.worker ≡ Some pass }
    ensures address { (told_of result.link).address ≡ HERE }
    ensures made { (told_by links.new).IsMade HERE }
{
    let Ok(link) = links.make(HERE) else {
        panic!(rt; "no link")
    };
    Desk {
        worker: Worker::new(session, pass),
        link,
    }
}

/// A cell with a book, and two sessions, the first one first.
pub(crate) fn desks(
    rt: &impl Abort,
    alloc: Global,
    book: Book<MemoryArea>,
    mut links: MemoryLinks,
) -> (Cell, MemoryLinks, Desk, Desk)
    ensures one { IsWorkerOf result.0 result.2.worker }
    ensures other { IsWorkerOf result.0 result.3.worker }
    ensures one_link { (told_of result.2.link).address ≡ HERE }
    ensures other_link { (told_of result.3.link).address ≡ HERE }
    ensures made { (told_by result.1).IsMade HERE }
{
    let Ok((cell, passes)) = TurnCell::new(alloc, book, 2) else {
        panic!(rt; "no memory for a cell")
    };
    let (a, b) = both(rt, &cell, passes);
    let one = open_desk(rt, &mut links, 0, a);
    let other = open_desk(rt, &mut links, 1, b);
    (cell, links, one, other)
}

// Puts a pass behind others.
fn put(rt: &impl Abort, cell: &Cell, passes: &mut Vec<Pass>, pass: Pass)
    requires { ArePassesOf cell.now passes.old.items × IsPassOf cell.now pass }
    ensures { ArePassesOf cell.now passes.new.items }
{
    let Ok(()) = passes.push(pass) else {
        panic!(rt; "no memory for a pass")
    };
}

/// How many calls of the area were counted, once a cell has ended with its two sessions.
pub(crate) fn ended(rt: &impl Abort, alloc: Global, cell: Cell, one: Worker, other: Worker) -> u64
    requires one { IsWorkerOf cell one }
    requires other { IsWorkerOf cell other }
{
    let mut passes = Vec::new(alloc);
    put(rt, &cell, &mut passes, one.into_pass());
    put(rt, &cell, &mut passes, other.into_pass());
    let Ok(book) = cell.finish(passes) else {
        panic!(rt; "a pass is missing")
    };
    book.calls()
}

/// How many calls of the area were counted, and the links with what was sent: first by the first session.
pub(crate) fn finished(
    rt: &impl Abort,
    alloc: Global,
    cell: Cell,
    mut links: MemoryLinks,
    one: Desk,
    other: Desk,
) -> (u64, MemoryLinks)
    requires one { IsWorkerOf cell one.worker }
    requires other { IsWorkerOf cell other.worker }
    requires one_link { (told_of one.link).address ≡ HERE }
    requires other_link { (told_of other.link).address ≡ HERE }
    requires made { (told_by links).IsMade HERE }
{
    links.back(one.link);
    links.back(other.link);
    (ended(rt, alloc, cell, one.worker, other.worker), links)
}

/// Whether these replies were sent and no more, the n-th with this number and this cause.
pub(crate) fn were_sent(links: &MemoryLinks, replies: &[(u8, u8)]) -> bool {
    for k in 0..replies.len() {
        let (number, cause) = replies[k];
        let Some(post) = links.sent(k) else {
            return false;
        };
        if post.octets.octets() != response(number, cause).as_slice() {
            return false;
        }
    }
    links.sent(replies.len()).is_none()
}
