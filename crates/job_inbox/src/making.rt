// How an inbox and its passes are made.
ghost use Rattle.std.specs.Prelude.{◌≡◌, ◌<◌, ◌≤◌, [], IfOk, vec_capacity, vec_len};
ghost use lib.ListN.{replicate};
ghost use Rattle.crossbeam_queue.specs.Passes.{IsPassOf as IsSeatOf, view};
ghost use Rattle.job_inbox.specs.Inbox.{ArePassesOf, Has, capacity_of, known_by, made_by};
ghost use Rattle.job_inbox.specs.Rule.{begun, idle, unbegun};

use crate::hand::{Begin, First, PassCount};
use crate::inbox::{Inbox, InboxPass, Queue, Seat};
use gw_base::NoMemory;
use std::alloc::Global;
use std::marker::Brand;

// A seat that has all the passes that are to be made.
fn begin<J: PassCount>(queue: &Queue, mut seat: Seat, passes: u32) -> Seat
    requires own { IsSeatOf queue.now seat }
    requires first { view seat ≡ unbegun }
    requires count { J.passes ≡ passes }
    requires some { 0 < passes }
    ensures own { IsSeatOf queue.now result }
    ensures all { view result ≡ begun passes }
{
    queue.another::<Begin<J>>(&mut seat)
}

// Gives each pass a seat of its own, into a list that has room for them.
fn deal(inbox: &Inbox, mut seat: Seat, all: &mut Vec<InboxPass>)
    requires seat { Has inbox.now seat (replicate inbox.now.made idle) }
    requires room { (all.old.items ≡ []) × (vec_len all.old ≡ 0) × (inbox.now.made ≤ vec_capacity all.old) }
    ensures own { ArePassesOf inbox.now all.new.items }
    ensures idle { known_by all.new.items ≡ replicate inbox.now.made idle }
{
    for _ in 0..inbox.made {
        let own = inbox.queue.another::<First>(&mut seat);
        all.push_reserved(InboxPass { seat: own });
    }
}

impl Inbox {
    /// An inbox with room for so many jobs, and so many passes to it.
    pub fn new(
        alloc: Global,
        capacity: usize,
        passes: u32,
    ) -> Result<(Inbox, Vec<InboxPass>), NoMemory>
        requires room { 0 < capacity }
        requires some { 0 < passes }
        ensures inbox { IfOk result (λ new. (capacity_of new.0 ≡ capacity) × (made_by new.0 ≡ passes)) }
        ensures own { IfOk result (λ new. ArePassesOf new.0 new.1.items) }
        ensures idle { IfOk result (λ new. known_by new.1.items ≡ replicate passes idle) }
    {
        let mut all = Vec::with_capacity(alloc, passes as usize)?;
        let (queue, seat) = Queue::ruled(alloc, capacity)?;
        let seat = begin::<Brand>(&queue, seat, passes);
        let inbox = Inbox {
            queue,
            made: passes,
        };
        deal(&inbox, seat, &mut all);
        Ok((inbox, all))
    }
}
