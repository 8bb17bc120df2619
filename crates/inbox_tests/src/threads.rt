//! Four threads that push and take at once, at an inbox that is soon full.
ghost use Rattle.job_inbox.specs.Inbox.{ArePassesOf, IsPassOf};

use gw_base::{Addr, Moment, Octets};
use job_inbox::{Inbox, InboxPass, Job};
use std::alloc::Global;
use std::process::Abort;
use std::sync::Wait;
use std::thread::{self, Threads};

// How many jobs each thread pushes, and how many it takes; and how many the inbox has room for.
const JOBS: u64 = 25_000;

const ROOM: usize = 4;

// How often a thread tries before it gives up.
const TRIES: u64 = 100_000_000;

// What a thread has: its pass, the number of its first job, how often it took each job, and whether a job was handed
// back to it.
#[derive(Drop)]
struct Desk {
    pass: InboxPass,
    first: u64,
    counts: Vec<u8>,
    refused: bool,
}

// A job of this number, without octets.
pub(crate) fn job(rt: &impl Abort, alloc: Global, serial: u64) -> Job {
    let Some(moment) = Moment::of(serial) else {
        panic!(rt; "no such moment");
    };
    Job {
        from: Addr {
            ip: 0x0A00_0001,
            port: 3386,
        },
        octets: Octets::from_vec(Vec::new(alloc)),
        moment,
        serial,
    }
}

// Pushes jobs with the numbers from this one on, until one is handed back: the number of that one, or else the end.
fn push_some<R: Wait + Abort>(
    rt: &R,
    alloc: Global,
    inbox: &Inbox,
    mut pass: InboxPass,
    first: u64,
    end: u64,
) -> (u64, InboxPass)
    requires { IsPassOf inbox.now pass }
    ensures { IsPassOf inbox.now result.1 }
{
    for number in first..end {
        let (pushed, now) = inbox.push(rt, pass, job(rt, alloc, number));
        pass = now;
        if pushed.is_err() {
            return (number, pass);
        }
    }
    (end, pass)
}

// Takes jobs until there is none, at most so many, and counts each at its number: how many may still be taken.
fn take_some<R: Wait>(
    rt: &R,
    inbox: &Inbox,
    mut pass: InboxPass,
    most: u64,
    counts: &mut Vec<u8>,
) -> (u64, InboxPass)
    requires { IsPassOf inbox.now pass }
    ensures { IsPassOf inbox.now result.1 }
{
    for taken in 0..most {
        let (job, now) = inbox.pop(rt, pass);
        pass = now;
        let Some(job) = job else {
            return (most - taken, pass);
        };
        if let Some(count) = counts.get_mut(job.serial as usize) {
            *count = count.saturating_add(1);
        }
    }
    (0, pass)
}

// Pushes all jobs of a thread and takes as many, whosever they are.
fn work<R: Wait + Abort>(rt: &R, alloc: Global, inbox: &Inbox, desk: Desk) -> Desk
    requires { IsPassOf inbox.now desk.pass }
    ensures { IsPassOf inbox.now result.pass }
{
    let Desk {
        mut pass,
        first,
        mut counts,
        mut refused,
    } = desk;
    let end = first.saturating_add(JOBS);
    let mut next = first;
    let mut left = JOBS;
    for _ in 0..TRIES {
        let (reached, pushed) = push_some(rt, alloc, inbox, pass, next, end);
        let (wanted, taken) = take_some(rt, inbox, pushed, left, &mut counts);
        pass = taken;
        if reached < end {
            refused = true;
        }
        next = reached;
        left = wanted;
        if next == end && left == 0 {
            break;
        }
        thread::yield_now();
    }
    Desk {
        pass,
        first,
        counts,
        refused,
    }
}

// Two threads at once.
fn two_at_once<R: Threads + Wait + Abort + Sync>(
    rt: &R,
    alloc: Global,
    inbox: &Inbox,
    desks: (Desk, Desk),
) -> (Desk, Desk)
    requires { IsPassOf inbox.now desks.0.pass × IsPassOf inbox.now desks.1.pass }
    ensures { IsPassOf inbox.now result.0.pass × IsPassOf inbox.now result.1.pass }
{
    let (a, b) = desks;
    thread::join(
        rt,
        move ||
            requires { IsPassOf inbox.now a.pass }
            ensures { IsPassOf inbox.entry.now result.pass }
        { work(rt, alloc, inbox, a) },
        move ||
            requires { IsPassOf inbox.now b.pass }
            ensures { IsPassOf inbox.entry.now result.pass }
        { work(rt, alloc, inbox, b) },
    )
}

// Four threads at once.
fn four_at_once<R: Threads + Wait + Abort + Sync>(
    rt: &R,
    alloc: Global,
    inbox: &Inbox,
    one: (Desk, Desk),
    other: (Desk, Desk),
) -> ((Desk, Desk), (Desk, Desk))
    requires one { IsPassOf inbox.now one.0.pass × IsPassOf inbox.now one.1.pass }
    requires other { IsPassOf inbox.now other.0.pass × IsPassOf inbox.now other.1.pass }
    ensures one { IsPassOf inbox.now result.0.0.pass × IsPassOf inbox.now result.0.1.pass }
    ensures other { IsPassOf inbox.now result.1.0.pass × IsPassOf inbox.now result.1.1.pass }
{
    thread::join(
        rt,
        move ||
            requires { IsPassOf inbox.now one.0.pass × IsPassOf inbox.now one.1.pass }
            ensures { IsPassOf inbox.entry.now result.0.pass × IsPassOf inbox.entry.now result.1.pass }
        { two_at_once(rt, alloc, inbox, one) },
        move ||
            requires { IsPassOf inbox.now other.0.pass × IsPassOf inbox.now other.1.pass }
            ensures { IsPassOf inbox.entry.now result.0.pass × IsPassOf inbox.entry.now result.1.pass }
        { two_at_once(rt, alloc, inbox, other) },
    )
}

// A count for each job of all threads, each of so much.
fn counts_of(rt: &impl Abort, alloc: Global, count: u8) -> Vec<u8> {
    match Vec::from_elem(alloc, count, 4 * JOBS as usize) {
        Ok(counts) => counts,
        Err(_) => panic!(rt; "no memory for counts"),
    }
}

// A thread's desk, with the next pass of a list.
fn open_desk(
    rt: &impl Abort,
    alloc: Global,
    inbox: &Inbox,
    passes: &mut Vec<InboxPass>,
    place: u64,
) -> Desk
    requires { ArePassesOf inbox.now passes.old.items }
    ensures own { IsPassOf inbox.now result.pass }
    ensures others { ArePassesOf inbox.now passes.new.items }
{
    let Some(pass) = passes.pop() else {
        panic!(rt; "no pass is left");
    };
    Desk {
        pass,
        first: place.saturating_mul(JOBS),
        counts: counts_of(rt, alloc, 0),
        refused: false,
    }
}

fn add(sums: &mut [u8], counts: &[u8]) {
    for (sum, count) in sums.iter_mut().zip(counts.iter()) {
        *sum = sum.saturating_add(*count);
    }
}

// Puts a pass back.
fn put_back(rt: &impl Abort, inbox: &Inbox, pass: InboxPass, passes: &mut Vec<InboxPass>)
    requires passes { ArePassesOf inbox.now passes.old.items }
    requires own { IsPassOf inbox.now pass }
    ensures { ArePassesOf inbox.now passes.new.items }
{
    match passes.push(pass) {
        Ok(()) => {}
        Err(_) => panic!(rt; "no memory for a pass"),
    }
}

// Adds what a thread counted, and puts its pass back: whether a job was handed back to it.
fn clear_desk(
    rt: &impl Abort,
    inbox: &Inbox,
    desk: Desk,
    passes: &mut Vec<InboxPass>,
    sums: &mut Vec<u8>,
) -> bool
    requires passes { ArePassesOf inbox.now passes.old.items }
    requires own { IsPassOf inbox.now desk.pass }
    ensures { ArePassesOf inbox.now passes.new.items }
{
    let Desk {
        pass,
        first: _,
        counts,
        refused,
    } = desk;
    add(sums.as_mut_slice(), counts.as_slice());
    put_back(rt, inbox, pass, passes);
    refused
}

// Runs four threads, each with a pass: whether a job was handed back. Some job is surely handed back: a thread takes
// none before, or before it has pushed all of its own.
fn run_four<R: Threads + Wait + Abort + Sync>(
    rt: &R,
    alloc: Global,
    inbox: &Inbox,
    passes: &mut Vec<InboxPass>,
    sums: &mut Vec<u8>,
) -> bool
    requires { ArePassesOf inbox.now passes.old.items }
    ensures { ArePassesOf inbox.now passes.new.items }
{
    let a = open_desk(rt, alloc, inbox, passes, 0);
    let b = open_desk(rt, alloc, inbox, passes, 1);
    let c = open_desk(rt, alloc, inbox, passes, 2);
    let d = open_desk(rt, alloc, inbox, passes, 3);
    let ((a, b), (c, d)) = four_at_once(rt, alloc, inbox, (a, b), (c, d));
    let refused = [
        clear_desk(rt, inbox, a, passes, sums),
        clear_desk(rt, inbox, b, passes, sums),
        clear_desk(rt, inbox, c, passes, sums),
        clear_desk(rt, inbox, d, passes, sums),
    ];
    refused != [false; 4]
}

// An inbox with four passes.
fn four_passes(rt: &impl Abort, alloc: Global) -> (Inbox, Vec<InboxPass>)
    ensures { ArePassesOf result.0 result.1.items }
{
    match Inbox::new(alloc, ROOM, 4) {
        Ok(made) => made,
        Err(_) => panic!(rt; "no memory for an inbox"),
    }
}

// A job is handed back, each is taken once, and the inbox ends with its four passes.
#[test]
fn four_threads_at_an_inbox_lose_no_job_and_take_none_twice(rt: HostRuntime) {
    let alloc = rt.alloc();
    let (inbox, mut passes) = four_passes(&rt, alloc);
    let mut sums = counts_of(&rt, alloc, 0);
    assert!(rt; run_four(&rt, alloc, &inbox, &mut passes, &mut sums));
    assert!(rt; sums == counts_of(&rt, alloc, 1));
    assert!(rt; inbox.finish(passes).is_ok());
}
