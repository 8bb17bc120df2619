//! Who receives, on one thread: what becomes of each datagram, and what it pushes.
ghost use Rattle.std.specs.Prelude.{◌≡◌, ◌≤◌, ◌<◌, ◌∷◌, [], length};
ghost use Rattle.job_inbox.specs.Inbox.{IsPassOf};
ghost use Rattle.net_link.specs.Memory.{AreShort};
ghost use Rattle.node_session.specs.Receiving.{AreOfEach, passes_of};

use crate::desk::{HERE, day, node, numbers};
use gw_base::{Clock, Failed, Moment, Octets};
use job_inbox::{Inbox, InboxPass, Job};
use net_link::{Links, MemoryLink, MemoryLinks, Post};
use node_session::{Dispatched, Dispatcher};
use std::alloc::Global;
use std::process::Abort;
use std::sync::Wait;

// A clock that stands still, or fails.
#[derive(Drop)]
struct StillClock {
    at: Moment,
    fails: bool,
    faults: u64,
}

impl Clock for StillClock {
    ghost faults = { λ clock. clock.faults };

    fn now(&mut self) -> Result<Moment, Failed> {
        if self.fails {
            self.faults = self.faults.saturating_add(1);
            return Err(Failed);
        }
        Ok(self.at)
    }
}

// Puts a post for the gateway, of the node of a session, behind others.
fn put(rt: &impl Abort, alloc: Global, posts: &mut Vec<Post>, session: u32, octet: u8)
    requires { AreShort posts.old.items }
    ensures { AreShort posts.new.items }
{
    let Ok(octets) = Octets::of(alloc, &[octet]) else {
        panic!(rt; "no memory for a datagram")
    };
    let post = Post {
        at: HERE,
        peer: node(session),
        octets,
    };
    let Ok(()) = posts.push(post) else {
        panic!(rt; "no memory for a post")
    };
}

// Four posts, of which the third is of another node.
fn posts(rt: &impl Abort, alloc: Global) -> Vec<Post>
    ensures { AreShort result.items }
{
    let mut posts = Vec::new(alloc);
    put(rt, alloc, &mut posts, 1, 1);
    put(rt, alloc, &mut posts, 1, 2);
    put(rt, alloc, &mut posts, 0, 3);
    put(rt, alloc, &mut posts, 1, 4);
    posts
}

// Whether this job came, with this number, of this session's node, with this octet.
fn is_job(job: Option<Job>, serial: u64, session: u32, octet: u8) -> bool {
    match job {
        Some(job) => {
            job.serial == serial
                && job.from == node(session)
                && job.octets.octets() == [octet].as_slice()
        }
        None => false,
    }
}

// An inbox with room for one job, who pushes to it, and who takes from it.
fn inbox(rt: &impl Abort, alloc: Global) -> (Inbox, InboxPass, InboxPass)
    ensures pushes { IsPassOf result.0 result.1 }
    ensures takes { IsPassOf result.0 result.2 }
{
    let Ok((inbox, mut passes)) = Inbox::new(alloc, 1, 2) else {
        panic!(rt; "no memory for an inbox")
    };
    let Some(takes) = passes.pop() else {
        panic!(rt; "no passes")
    };
    let Some(pushes) = passes.pop() else {
        panic!(rt; "one pass")
    };
    (inbox, pushes, takes)
}

// Who receives, for two inboxes.
fn dispatcher(rt: &impl Abort, alloc: Global, even: InboxPass, odd: InboxPass) -> Dispatcher
    ensures { passes_of result ≡ even ∷ odd ∷ [] }
{
    let mut passes = Vec::new(alloc);
    let Ok(()) = passes.push(even) else {
        panic!(rt; "no memory for a pass")
    };
    let Ok(()) = passes.push(odd) else {
        panic!(rt; "no memory for a pass")
    };
    let Ok(dispatcher) = Dispatcher::new(alloc, passes) else {
        panic!(rt; "no memory for a dispatcher")
    };
    dispatcher
}

// A link that receives four datagrams, and whose sixth call fails.
fn link(rt: &impl Abort, alloc: Global) -> MemoryLink {
    let Ok(mut links) = MemoryLinks::new(alloc, posts(rt, alloc), 0, numbers(rt, alloc, &[6]))
    else {
        panic!(rt; "no memory for links")
    };
    let Ok(link) = links.make(HERE) else {
        panic!(rt; "no link")
    };
    link
}

// What comes of a step.
fn step<R: Wait>(
    rt: &R,
    dispatcher: &mut Dispatcher,
    link: &mut MemoryLink,
    clock: &mut StillClock,
    inboxes: &[Inbox],
) -> Dispatched
    requires some { 0 < length inboxes.now }
    requires own { AreOfEach inboxes.now (passes_of dispatcher.old) }
    ensures own { AreOfEach inboxes.now (passes_of dispatcher.new) }
{
    dispatcher.step(rt, link, clock, inboxes)
}

// What came of six steps, where the clock fails in the fourth.
fn steps<R: Wait>(
    rt: &R,
    dispatcher: &mut Dispatcher,
    mut link: MemoryLink,
    mut clock: StillClock,
    inboxes: &[Inbox],
) -> [Dispatched; 6]
    requires some { 0 < length inboxes.now }
    requires own { AreOfEach inboxes.now (passes_of dispatcher.old) }
{
    let one = step(rt, dispatcher, &mut link, &mut clock, inboxes);
    let two = step(rt, dispatcher, &mut link, &mut clock, inboxes);
    let three = step(rt, dispatcher, &mut link, &mut clock, inboxes);
    clock.fails = true;
    let four = step(rt, dispatcher, &mut link, &mut clock, inboxes);
    let five = step(rt, dispatcher, &mut link, &mut clock, inboxes);
    let six = step(rt, dispatcher, &mut link, &mut clock, inboxes);
    [one, two, three, four, five, six]
}

// What came of six steps over two inboxes with room for one job each, and whether both jobs that were pushed came.
fn six_steps<R: Abort + Wait>(rt: &R, alloc: Global) -> ([Dispatched; 6], bool, bool) {
    let (even, even_pushes, even_takes) = inbox(rt, alloc);
    let (odd, odd_pushes, odd_takes) = inbox(rt, alloc);
    let mut dispatcher = dispatcher(rt, alloc, even_pushes, odd_pushes);
    let clock = StillClock {
        at: day(rt),
        fails: false,
        faults: 0,
    };
    let inboxes = [even, odd];
    let told = steps(rt, &mut dispatcher, link(rt, alloc), clock, &inboxes);
    let (first, _pass) = inboxes[1].pop(rt, odd_takes);
    let (third, _pass) = inboxes[0].pop(rt, even_takes);
    (told, is_job(first, 1, 1, 1), is_job(third, 3, 0, 3))
}

#[test]
fn who_receives_tells_what_became_of_each_datagram(rt: HostRuntime) {
    let wanted = [
        Dispatched::Pushed,
        Dispatched::Full,
        Dispatched::Pushed,
        Dispatched::Clock,
        Dispatched::Quiet,
        Dispatched::Link,
    ];
    assert!(rt; six_steps(&rt, rt.alloc()) == (wanted, true, true));
}
