// Who receives.
ghost use Rattle.std.specs.Prelude.{◌≡◌, ◌≢◌, ◌≤◌, ◌<◌, IfErr, IfOk, length};
ghost use Rattle.net_link.specs.Steps.{most_octets};

use crate::dispatched::Dispatched;
use gw_base::{Addr, Clock, Failed, Octets};
use job_inbox::{Inbox, InboxPass, Job};
use net_link::{Heard, Link};
use std::alloc::Global;
use std::sync::Wait;

/// The most octets of a datagram.
const MOST_OCTETS: usize = 65_507;

/// Receives datagrams, and hands each to the session of its node.
#[derive(Drop)]
pub struct Dispatcher {
    pub(crate) passes: Vec<InboxPass>,
    pub(crate) serial: u64,
    buffer: Vec<u8>,
    alloc: Global,
    ghost roomy: { most_octets ≤ length buffer.items },
}

impl Dispatcher {
    ghost use Rattle.node_session.specs.Receiving.{passes_of, serial_of};

    /// One with these passes. For want of memory they come back.
    pub fn new(alloc: Global, passes: Vec<InboxPass>) -> Result<Dispatcher, Vec<InboxPass>>
        ensures passes { IfOk result (λ made. (passes_of made ≡ passes.items) × (serial_of made ≡ 0)) }
        ensures err { IfErr result (λ back. back ≡ passes) }
    {
        let Ok(buffer) = Vec::from_elem(alloc, 0, MOST_OCTETS) else {
            return Err(passes);
        };
        Ok(Dispatcher {
            passes,
            serial: 0,
            buffer,
            alloc,
        })
    }

    /// Its passes.
    pub fn into_passes(self) -> Vec<InboxPass>
        ensures { result.items ≡ passes_of self }
    {
        self.passes
    }
}

impl Dispatcher {
    ghost use Rattle.std.specs.Prelude.{OnErr, OnOk, take};
    ghost use Rattle.node_session.specs.Receiving.{AreOfEach, ComesOf, TellsOf, WasFull, hands_of, passes_of, with_job};

    /// Waits for a datagram for a while, and pushes it, as a job with the next serial, to the inbox of its node's
    /// session. Serials begin at 1, and stay at 2^64 - 1 once there. The passes are one of each inbox, in their order.
    pub fn step<L: Link, C: Clock, R: Wait>(
        &mut self,
        rt: &R,
        link: &mut L,
        clock: &mut C,
        inboxes: &[Inbox],
    ) -> Dispatched
        requires some { 0 < length inboxes.now }
        requires own { AreOfEach inboxes.now (passes_of self.old) }
        ensures own { AreOfEach inboxes.now (passes_of self.new) }
        ensures tells { TellsOf inboxes.now self.old self.new (L.state link.old) (L.state link.new)
            (C.faults clock.old) (C.faults clock.new) result }
        ensures later { ((L.state link.old).faults ≤ (L.state link.new).faults)
            × (C.faults clock.old ≤ C.faults clock.new) }
        ensures stood { result ≢ Dispatched.Clock → C.faults clock.new ≡ C.faults clock.old }
    {
        match link.receive(self.buffer.as_mut_slice()) {
            Ok(Heard::Datagram { from, length }) => self.dispatch(rt, from, length, clock, inboxes),
            Ok(Heard::Quiet) => Dispatched::Quiet,
            Err(Failed) => Dispatched::Link,
        }
    }

    // Makes a job of the first octets of the buffer, and pushes it.
    fn dispatch<C: Clock, R: Wait>(
        &mut self,
        rt: &R,
        from: Addr,
        count: usize,
        clock: &mut C,
        inboxes: &[Inbox],
    ) -> Dispatched
        requires some { 0 < length inboxes.now }
        requires own { AreOfEach inboxes.now (passes_of self.old) }
        requires count { count ≤ most_octets }
        ensures own { AreOfEach inboxes.now (passes_of self.new) }
        ensures later { C.faults clock.old ≤ C.faults clock.new }
        ensures stood { result ≢ Dispatched.Clock → C.faults clock.new ≡ C.faults clock.old }
        ensures comes { ComesOf inboxes.now (λ job. (job.from ≡ from) × (job.octets ≡ take count self.old.buffer.items))
            self.old self.new (C.faults clock.old) (C.faults clock.new) result }
    {
        let Ok(octets) = Octets::of(self.alloc, &self.buffer[..count]) else {
            return Dispatched::NoMemory;
        };
        let Ok(moment) = clock.now() else {
            return Dispatched::Clock;
        };
        self.serial = self.serial.saturating_add(1);
        let job = Job {
            from,
            octets,
            moment,
            serial: self.serial,
        };
        let session = from.ip as usize % inboxes.len();
        let Ok(()) = self.push(rt, session, job, inboxes) else {
            return Dispatched::Full;
        };
        Dispatched::Pushed
    }

    // Pushes a job to one of the inboxes.
    fn push<R: Wait>(&mut self, rt: &R, k: usize, job: Job, inboxes: &[Inbox]) -> Result<(), Job>
        requires own { AreOfEach inboxes.now (passes_of self.old) }
        requires within { k < length inboxes.now }
        ensures own { AreOfEach inboxes.now (passes_of self.new) }
        ensures rest { self.new ≡ record self.old { passes = self.new.passes } }
        ensures ok { OnOk result (hands_of self.new ≡ with_job k job (hands_of self.old)) }
        ensures kept { OnErr result (hands_of self.new ≡ hands_of self.old) }
        ensures full { OnErr result (WasFull inboxes.now k (hands_of self.old)) }
    {
        let pass = self.passes.remove(k);
        let (pushed, pass) = inboxes[k].push(rt, pass, job);
        let Ok(()) = self.passes.insert(k, pass) else {
            unreachable!();
        };
        pushed
    }
}
