// All seats of a loop are made.
ghost use Rattle.std.specs.Prelude.{◌≡◌, ◌≤◌, ◌+◌, [], length, vec_capacity};
ghost use Rattle.loop_run.specs.Addresses.{IsLoop, gateways_of};
ghost use Rattle.loop_run.specs.Making.{HasMadeSeats, MakesSeats};

use crate::addresses::gateways_of;
use crate::making::{make_gateway, make_node};
use crate::seat::Seat;
use crate::setup::LoopSetup;
use gw_base::Addr;
use net_link::Links;
use session_run::Stop;
use std::alloc::Global;

/// The seats of all nodes, and behind them those of all gateways; or as many as could be made, and why there aren't
/// all.
pub(crate) fn make_all<L: Links>(
    alloc: Global,
    setup: LoopSetup,
    links: &mut L,
) -> (Vec<Seat<L::Link>>, Option<Stop>)
    requires { IsLoop setup }
    ensures { MakesSeats L.Link.Link setup (setup.nodes + setup.gateways) (L.state links.old) (L.state links.new)
        result.0.items result.1 }
{
    let count = usize::from(setup.nodes) + usize::from(setup.gateways);
    let Ok(mut seats) = Vec::with_capacity(alloc, count) else {
        return (Vec::new(alloc), Some(Stop::NoMemory));
    };
    let Ok(addresses) = gateways_of(alloc, setup.gateways) else {
        return (seats, Some(Stop::NoMemory));
    };
    if let Some(stop) = seat_nodes(alloc, setup, &addresses, links, &mut seats) {
        return (seats, Some(stop));
    }
    let stop = seat_gateways(alloc, setup, links, &mut seats);
    (seats, stop)
}

/// Makes the seats of all nodes, or as many as can be made.
fn seat_nodes<L: Links>(
    alloc: Global,
    setup: LoopSetup,
    gateways: &[Addr],
    links: &mut L,
    seats: &mut Vec<Seat<L::Link>>,
) -> Option<Stop>
    requires within { IsLoop setup }
    requires gateways { gateways.now ≡ gateways_of setup.gateways }
    requires none { seats.old.items ≡ [] }
    requires room { setup.nodes + setup.gateways ≤ vec_capacity seats.old }
    ensures made { MakesSeats L.Link.Link setup setup.nodes (L.state links.old) (L.state links.new) seats.new.items
        result }
    ensures room { vec_capacity seats.new ≡ vec_capacity seats.old }
{
    for place in 0..setup.nodes {
        match make_node(alloc, gateways, place, links) {
            Ok(linked) => seats.push_reserved(Seat::Node(linked)),
            Err(stop) => return Some(stop),
        }
    }
    None
}

/// Makes the seats of all gateways, or as many as can be made.
fn seat_gateways<L: Links>(
    alloc: Global,
    setup: LoopSetup,
    links: &mut L,
    seats: &mut Vec<Seat<L::Link>>,
) -> Option<Stop>
    requires within { IsLoop setup }
    requires nodes { HasMadeSeats L.Link.Link setup (L.state links.old) (L.state links.old) seats.old.items }
    requires count { length seats.old.items ≡ setup.nodes }
    requires room { setup.nodes + setup.gateways ≤ vec_capacity seats.old }
    ensures { MakesSeats L.Link.Link setup (setup.nodes + setup.gateways) (L.state links.old) (L.state links.new)
        seats.new.items result }
{
    for place in 0..setup.gateways {
        match make_gateway(alloc, place, links) {
            Ok(gateway) => seats.push_reserved(Seat::Gateway(gateway)),
            Err(stop) => return Some(stop),
        }
    }
    None
}
