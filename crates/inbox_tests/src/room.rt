//! An inbox on one thread: no job is handed back that it has room for, and what it holds comes out in its order.
ghost use Rattle.job_inbox.specs.Inbox.{IsPassOf};

use crate::threads::job;
use job_inbox::{Inbox, InboxPass, Job};
use std::alloc::Global;
use std::process::Abort;
use std::sync::Wait;

// The number of the job that was handed back, if one was.
fn refused(pushed: Result<(), Job>) -> Option<u64> {
    match pushed {
        Ok(()) => None,
        Err(job) => Some(job.serial),
    }
}

// The number of the job that came, if one did.
fn taken(popped: Option<Job>) -> Option<u64> {
    match popped {
        Some(job) => Some(job.serial),
        None => None,
    }
}

// An inbox that has room for two jobs, and a pass of it.
fn inbox_of_two(rt: &impl Abort, alloc: Global) -> (Inbox, InboxPass)
    ensures { IsPassOf result.0 result.1 }
{
    let Ok((inbox, mut passes)) = Inbox::new(alloc, 2, 2) else {
        panic!(rt; "no memory for an inbox");
    };
    match passes.pop() {
        Some(pass) => (inbox, pass),
        None => panic!(rt; "no pass is left"),
    }
}

// What came of three pushes and three pops.
fn told<R: Wait + Abort>(rt: &R, alloc: Global) -> [Option<u64>; 6] {
    let (inbox, pass) = inbox_of_two(rt, alloc);
    let (one, pass) = inbox.push(rt, pass, job(rt, alloc, 1));
    let (two, pass) = inbox.push(rt, pass, job(rt, alloc, 2));
    let (three, pass) = inbox.push(rt, pass, job(rt, alloc, 3));
    let (first, pass) = inbox.pop(rt, pass);
    let (second, pass) = inbox.pop(rt, pass);
    let (third, _pass) = inbox.pop(rt, pass);
    [
        refused(one),
        refused(two),
        refused(three),
        taken(first),
        taken(second),
        taken(third),
    ]
}

#[test]
fn a_job_that_has_room_is_taken_in_and_a_held_one_comes_out(rt: HostRuntime) {
    let wanted = [None, None, Some(3), Some(1), Some(2), None];
    assert_eq!(rt; told(&rt, rt.alloc()), wanted);
}
