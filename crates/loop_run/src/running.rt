// All who take part in a loop run, on threads.
ghost use Rattle.std.specs.Prelude.{◌≡◌, length};
ghost use Rattle.loop_run.specs.Addresses.{IsLoop};
ghost use Rattle.loop_run.specs.Seats.{AllRan, AllSit, RanAt, SitsAt};

use crate::clock::StillClock;
use crate::seat::Seat;
use crate::setup::LoopSetup;
use area_disk::QuietArea;
use cdr_shelf::QuietShelf;
use net_link::Link;
use node_run::{LinkedNode, NodeWatch, Work};
use session_run::{Gateway, Ran, Until, run};
use std::alloc::Global;
use std::mem;
use std::sync::Wait;
use std::sync::atomic::{AtomicU64, Ordering};
use std::thread::{Threads, for_each_mut};
use std::time::Clock;

/// All run who sit in these seats.
pub(crate) fn run_seats<L: Link + Send, W: NodeWatch + Sync, R: Threads + Wait + Clock + Sync>(
    rt: &R,
    alloc: Global,
    setup: LoopSetup,
    mut seats: Vec<Seat<L>>,
    watch: &W,
) -> Vec<Seat<L>>
    requires within { IsLoop setup }
    requires sit { AllSit L.Link setup seats.items }
    ensures ran { AllRan L.Link setup result.items }
    ensures count { length result.items ≡ length seats.items }
{
    run_all(rt, alloc, setup, seats.as_mut_slice(), watch);
    seats
}

/// All run, on a thread each where they can be made, and else one after the other: then the nodes take their turns
/// before the gateways serve.
fn run_all<L: Link + Send, W: NodeWatch + Sync, R: Threads + Wait + Clock + Sync>(
    rt: &R,
    alloc: Global,
    setup: LoopSetup,
    seats: &mut [Seat<L>],
    watch: &W,
)
    requires within { IsLoop setup }
    requires sit { AllSit L.Link setup seats.old }
    ensures ran { AllRan L.Link setup seats.new }
    ensures count { length seats.new ≡ length seats.old }
{
    let ended = AtomicU64::new(0);
    let count = &ended;
    let threads = seats.len().max(1);
    for_each_mut(
        rt,
        seats,
        threads,
        &move |place: usize, seat: &mut Seat<L>|
            requires { IsLoop setup × SitsAt L.Link setup place seat.now }
            ensures { RanAt L.Link setup place seat.exit.now }
        { run_seat(rt, alloc, setup, count, place, seat, watch) },
    );
}

/// One who takes part runs: a node until its packets are done or its turns taken, a gateway until its first quiet turn
/// after all nodes have ended.
fn run_seat<L: Link + Send, W: NodeWatch, R: Threads + Wait + Clock + Sync>(
    rt: &R,
    alloc: Global,
    setup: LoopSetup,
    ended: &AtomicU64,
    place: usize,
    seat: &mut Seat<L>,
    watch: &W,
)
    requires within { IsLoop setup }
    requires sits { SitsAt L.Link setup place seat.old }
    ensures { RanAt L.Link setup place seat.new }
{
    *seat = match mem::replace(seat, Seat::Empty) {
        Seat::Node(linked) => run_node(alloc, setup, ended, place, linked, watch),
        Seat::Gateway(gateway) => run_gateway(rt, alloc, setup, ended, place, gateway),
        other => other,
    };
}

/// A node runs, and is counted among those that have ended.
fn run_node<L: Link, W: NodeWatch>(
    alloc: Global,
    setup: LoopSetup,
    ended: &AtomicU64,
    place: usize,
    linked: LinkedNode<L>,
    watch: &W,
) -> Seat<L>
    requires within { IsLoop setup }
    requires sits { SitsAt L.Link setup place (Seat.Node linked) }
    ensures { RanAt L.Link setup place result }
{
    let work = Work {
        packets: setup.packets,
        turns: setup.turns,
    };
    let (end, linked) = linked.run(alloc, work, place, watch);
    let _before = ended.fetch_add(1, Ordering::SeqCst);
    Seat::RanNode(end, linked)
}

/// A gateway serves.
fn run_gateway<L: Link + Send, R: Threads + Wait + Clock + Sync>(
    rt: &R,
    alloc: Global,
    setup: LoopSetup,
    ended: &AtomicU64,
    place: usize,
    gateway: Gateway<QuietArea, QuietShelf, L>,
) -> Seat<L>
    requires { SitsAt L.Link setup place (Seat.Gateway gateway) }
    ensures { RanAt L.Link setup place result }
{
    let address = gateway.address;
    let until = Until::QuietAfter {
        count: ended,
        all: u64::from(setup.nodes),
    };
    let Ran {
        gateway,
        last: _,
        stop,
    } = run(rt, alloc, gateway, &mut StillClock, until);
    let Gateway {
        book,
        writer,
        address: _,
        links,
    } = gateway;
    let gateway = Gateway {
        book,
        writer,
        address,
        links,
    };
    Seat::RanGateway(stop, gateway)
}
