// The whole loop.
ghost use Rattle.std.specs.Prelude.{◌≡◌, ◌≤◌, ◌<◌, ◌^◌};
ghost use Rattle.gw_base.specs.declared.address.Addr.{Addr};
ghost use Rattle.loop_run.specs.Addresses.{IsLoop};
ghost use Rattle.loop_run.specs.Ending.{EndsAs};
ghost use Rattle.loop_run.specs.Finishing.{end_by};

use crate::collecting::{Collected, collect};
use crate::end::LoopEnd;
use crate::ending::finish;
use crate::looped::Looped;
use crate::running::run_seats;
use crate::seating::make_all;
use crate::setup::LoopSetup;
use net_link::Links;
use node_run::{NoWatch, NodeWatch};
use session_run::Stop;
use std::alloc::Global;
use std::sync::Wait;
use std::thread::Threads;
use std::time::Clock;

/// Lets gateways and nodes run against one another, over links, each on threads of its own where they can be made. A
/// node sends its packets until all are done or its turns are taken; a gateway serves until its first quiet turn after
/// all nodes have ended. Then each book is committed, and all links are given back, whatever happened.
///
/// The books and the nodes are handed out, but after `Link` and `NoMemory`.
pub fn run_loop<L: Links, R: Threads + Wait + Clock + Sync>(
    rt: &R,
    alloc: Global,
    setup: LoopSetup,
    links: &mut L,
) -> (LoopEnd, Looped)
where
    L::Link: Send,
    requires within { IsLoop setup }
    requires turns { (at : Addr) → (L.state links.old).turns at < 2 ^ 63 }
    ensures ends { EndsAs setup (L.state links.old) (L.state links.new) result.1 result.0 }
    ensures later { (L.state links.old).faults ≤ (L.state links.new).faults }
{
    run_loop_watched(rt, alloc, setup, links, &NoWatch)
}

/// The same, and the nodes tell `watch` of each of their turns.
pub fn run_loop_watched<L: Links, W: NodeWatch + Sync, R: Threads + Wait + Clock + Sync>(
    rt: &R,
    alloc: Global,
    setup: LoopSetup,
    links: &mut L,
    watch: &W,
) -> (LoopEnd, Looped)
where
    L::Link: Send,
    requires within { IsLoop setup }
    requires turns { (at : Addr) → (L.state links.old).turns at < 2 ^ 63 }
    ensures ends { EndsAs setup (L.state links.old) (L.state links.new) result.1 result.0 }
    ensures later { (L.state links.old).faults ≤ (L.state links.new).faults }
{
    let (seats, stop) = make_all(alloc, setup, links);
    if let Some(stop) = stop {
        let _left = collect(alloc, setup, seats, links);
        return (end_by(stop), Looped::none(alloc));
    }
    let seats = run_seats(rt, alloc, setup, seats, watch);
    let Collected { looped, stop } = collect(alloc, setup, seats, links);
    match stop {
        Some(stop) => (end_by(stop), Looped::none(alloc)),
        None => finish(alloc, setup, looped),
    }
}

/// How a loop ends that stopped.
fn end_by(stop: Stop) -> LoopEnd
    ensures { result ≡ end_by stop }
{
    match stop {
        Stop::Link | Stop::Clock => LoopEnd::Link,
        Stop::NoMemory => LoopEnd::NoMemory,
    }
}
