//! Two sessions on two threads: one commit for both, and what a commit that fails takes from the other.
ghost use Rattle.std.specs.Prelude.{◌≡◌};
ghost use Rattle.net_link.specs.Memory.{told_of};
ghost use Rattle.node_session.specs.Passes.{IsWorkerOf};

use crate::desk::{
    Cell, Desk, answer, commit, desks, finished, job, net, opened, plan, replied, request,
    were_sent,
};
use area_disk::MemoryArea;
use gateway_book::Book;
use job_inbox::Job;
use net_link::MemoryLinks;
use node_session::{Gate, Go, Served};
use std::alloc::Global;
use std::process::Abort;
use std::sync::Wait;
use std::sync::atomic::{AtomicBool, Ordering};
use std::thread::{self, Threads};

// How often a gate looks before it gives up.
const TRIES: u64 = 100_000_000;

// Whether a flag is set, asked so often.
fn is_set(flag: &AtomicBool, tries: u64) -> bool {
    for _ in 0..tries {
        if flag.load(Ordering::SeqCst) {
            return true;
        }
        thread::yield_now();
    }
    false
}

// A gate that holds the first session until it is open, for so many looks. The second one may open it as it enters.
#[derive(Drop)]
struct Barrier {
    entered: AtomicBool,
    open: AtomicBool,
    is_opened_by_the_second: bool,
    tries: u64,
}

impl Gate for Barrier {
    ghost use Rattle.std.specs.Prelude.{⊤};

    ghost may = { λ gate session serial go. ⊤ };

    fn enter(&self, session: u32, _serial: u64) -> Go {
        if session != 0 {
            if self.is_opened_by_the_second {
                self.open.store(true, Ordering::SeqCst);
            }
            return Go::On;
        }
        self.entered.store(true, Ordering::SeqCst);
        if is_set(&self.open, self.tries) {
            Go::On
        } else {
            Go::Over
        }
    }
}

// A gate that is closed.
fn closed(is_opened_by_the_second: bool, tries: u64) -> Barrier {
    Barrier {
        entered: AtomicBool::new(false),
        open: AtomicBool::new(false),
        is_opened_by_the_second,
        tries,
    }
}

// The second session serves two jobs once the first one has entered, and then opens the gate.
fn overtake<R: Wait>(
    rt: &R,
    cell: &Cell,
    gate: &Barrier,
    desk: Desk,
    jobs: (Job, Job),
) -> (Served, Served, Desk)
    requires own { IsWorkerOf cell.now desk.worker }
    ensures own { IsWorkerOf cell.now result.2.worker }
    ensures address { (told_of result.2.link).address ≡ (told_of desk.link).address }
{
    let (second, third) = jobs;
    is_set(&gate.entered, TRIES);
    let (one, desk) = answer(rt, cell, gate, desk, second);
    let (other, desk) = answer(rt, cell, gate, desk, third);
    gate.open.store(true, Ordering::SeqCst);
    (one, other, desk)
}

// The first session serves a job while the second one serves two.
fn at_once<R: Threads + Wait + Sync>(
    rt: &R,
    cell: &Cell,
    gate: &Barrier,
    one: (Desk, Job),
    other: (Desk, (Job, Job)),
) -> ((Served, Desk), (Served, Served, Desk))
    requires one { IsWorkerOf cell.now one.0.worker }
    requires other { IsWorkerOf cell.now other.0.worker }
    ensures one { IsWorkerOf cell.now result.0.1.worker }
    ensures other { IsWorkerOf cell.now result.1.2.worker }
    ensures one_link { (told_of result.0.1.link).address ≡ (told_of one.0.link).address }
    ensures other_link { (told_of result.1.2.link).address ≡ (told_of other.0.link).address }
{
    thread::join(
        rt,
        move ||
            requires { IsWorkerOf cell.now one.0.worker }
            ensures { IsWorkerOf cell.entry.now result.1.worker
                × ((told_of result.1.link).address ≡ (told_of one.0.link).address) }
        { answer(rt, cell, gate, one.0, one.1) },
        move ||
            requires { IsWorkerOf cell.now other.0.worker }
            ensures { IsWorkerOf cell.entry.now result.2.worker
                × ((told_of result.2.link).address ≡ (told_of other.0.link).address) }
        { overtake(rt, cell, gate, other.0, other.1) },
    )
}

// What became of a request of the first session and of two of the second one, the first of which opens the gate as it
// enters, if this says so; how often the area was written or synced for them, and the links.
fn three_jobs<R: Abort + Threads + Wait + Sync>(
    rt: &R,
    alloc: Global,
    book: Book<MemoryArea>,
    is_opened_by_the_second: bool,
    third: u8,
) -> ([Served; 3], u64, MemoryLinks) {
    let first = job(rt, alloc, 0, 1, &request(0));
    let second = job(rt, alloc, 1, 1, &request(0));
    let third = job(rt, alloc, 1, 2, &request(third));
    let gate = closed(is_opened_by_the_second, TRIES);
    let (cell, links, one, other) = desks(rt, alloc, book, net(rt, alloc, &[]));
    let ((a, one), (b, c, other)) = at_once(
        rt,
        &cell,
        &gate,
        (one, first),
        (other, (second, third)),
    );
    let (calls, links) = finished(rt, alloc, cell, links, one, other);
    ([a, b, c], calls, links)
}

#[test]
fn one_commit_makes_the_entries_of_two_sessions_firm(rt: HostRuntime) {
    let alloc = rt.alloc();
    // The third job is the second one's repeat, which adds no entry.
    let (told, calls, links) = three_jobs(&rt, alloc, opened(&rt, alloc), true, 0);
    assert!(rt; told == [replied(128, 2), replied(128, 3), replied(253, 3)]);
    assert_eq!(rt; calls, 4);
    assert!(rt; were_sent(&links, &[(0, 128), (0, 128), (0, 253)]));
}

// A book whose Start is firm, and whose next write fails.
fn failing(rt: &impl Abort, alloc: Global) -> Book<MemoryArea> {
    let mut book = opened(rt, alloc);
    commit(rt, &mut book);
    book.arm(plan(rt, alloc, &[1]));
    book
}

#[test]
fn a_commit_that_fails_loses_the_answer_of_a_session_that_waits(rt: HostRuntime) {
    let alloc = rt.alloc();
    let (told, _calls, links) = three_jobs(&rt, alloc, failing(&rt, alloc), false, 1);
    assert!(rt; told == [Served::Lost, Served::Lost, replied(128, 2)]);
    assert!(rt; were_sent(&links, &[(0, 204), (0, 204), (1, 128)]));
}

// What became of a request of each session, where the second one begins when the first one has ended, and the links.
fn one_by_one<R: Abort + Wait>(rt: &R, alloc: Global) -> ([Served; 2], MemoryLinks) {
    let first = job(rt, alloc, 0, 1, &request(0));
    let second = job(rt, alloc, 1, 1, &request(0));
    let gate = closed(true, 1000);
    let (cell, links, one, other) = desks(rt, alloc, opened(rt, alloc), net(rt, alloc, &[]));
    let (a, one) = answer(rt, &cell, &gate, one, first);
    let (b, other) = answer(rt, &cell, &gate, other, second);
    let (_calls, links) = finished(rt, alloc, cell, links, one, other);
    ([a, b], links)
}

#[test]
fn a_session_that_is_alone_at_the_gate_is_over(rt: HostRuntime) {
    let (told, links) = one_by_one(&rt, rt.alloc());
    assert!(rt; told == [Served::Over, replied(128, 3)]);
    assert!(rt; were_sent(&links, &[(0, 128)]));
}
