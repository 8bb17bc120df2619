// What a loop ran is taken apart.
ghost use Rattle.std.specs.Prelude.{◌≡◌, ◌+◌, ◌<◌, ◌^◌, All, None, length};
ghost use Rattle.gw_base.specs.declared.address.Addr.{Addr as Address};
ghost use Rattle.loop_run.specs.Addresses.{IsLoop};
ghost use Rattle.loop_run.specs.Collecting.{CanLeave, HasCollected, IsKnownGateway, IsKnownNode, Leaves, LeavesGateway, LeavesNode, StoppedBy};
ghost use Rattle.loop_run.specs.Seats.{AllRan};

use crate::books::commit;
use crate::laws::nodes_of_a_loop_keep_all;
use crate::looped::Looped;
use crate::seat::Seat;
use crate::setup::LoopSetup;
use area_disk::QuietArea;
use cdr_shelf::QuietShelf;
use net_link::Links;
use node_run::{LinkedNode, NodeEnd};
use session_run::laws::{what_is_in_turn_stays_so, what_links_sent};
use session_run::{Gateway, Stop, give_back};
use std::alloc::Global;

/// What was taken apart: the books and the nodes, and why the loop stopped, if it did.
#[derive(Drop)]
pub(crate) struct Collected {
    pub looped: Looped,
    pub stop: Option<Stop>,
}

/// Takes all seats apart: each book is committed, and all links are given back. So are those of seats that never ran.
pub(crate) fn collect<L: Links>(
    alloc: Global,
    setup: LoopSetup,
    seats: Vec<Seat<L::Link>>,
    links: &mut L,
) -> Collected
    requires within { IsLoop setup }
    requires seats { All (CanLeave L.Link.Link (L.state links.old)) seats.items }
    ensures collected { AllRan L.Link.Link setup seats.items → length seats.items ≡ setup.nodes + setup.gateways →
        ((at : Address) → (L.state links.old).turns at < 2 ^ 63) → result.stop ≡ None →
        HasCollected setup (L.state links.old) (L.state links.new) result }
    ensures stopped { StoppedBy (L.state links.old) (L.state links.new) result }
{
    nodes_of_a_loop_keep_all();
    what_is_in_turn_stays_so();
    let mut looped = Looped::none(alloc);
    let mut stop: Option<Stop> = None;
    for seat in seats {
        let why = leave(seat, links, &mut looped);
        stop = stop.or(why);
    }
    Collected { looped, stop }
}

/// Takes one who took part apart, and tells why the loop stops, if it does.
fn leave<L: Links>(seat: Seat<L::Link>, links: &mut L, looped: &mut Looped) -> Option<Stop>
    requires { CanLeave L.Link.Link (L.state links.old) seat }
    ensures { Leaves L.Link.Link seat (L.state links.old) (L.state links.new) looped.old looped.new result }
{
    match seat {
        Seat::Node(linked) => leave_node(linked, NodeEnd::Done, links, looped),
        Seat::RanNode(end, linked) => leave_node(linked, end, links, looped),
        Seat::Gateway(gateway) => leave_gateway(gateway, None, links, looped),
        Seat::RanGateway(stop, gateway) => leave_gateway(gateway, stop, links, looped),
        Seat::Empty => None,
    }
}

/// Takes a node apart.
fn leave_node<L: Links>(
    linked: LinkedNode<L::Link>,
    end: NodeEnd,
    links: &mut L,
    looped: &mut Looped,
) -> Option<Stop>
    requires { IsKnownNode L.Link.Link (L.state links.old) linked }
    ensures { LeavesNode L.Link.Link linked end (L.state links.old) (L.state links.new) looped.old looped.new result }
{
    let LinkedNode {
        node,
        first,
        second,
    } = linked;
    links.back(first);
    links.back(second);
    let Ok(()) = looped.nodes.push(node) else {
        return Some(Stop::NoMemory);
    };
    match end {
        NodeEnd::Done => None,
        NodeEnd::Spent => None,
        NodeEnd::Link => Some(Stop::Link),
        NodeEnd::NoMemory => Some(Stop::NoMemory),
    }
}

/// Takes a gateway apart, and commits its book.
fn leave_gateway<L: Links>(
    gateway: Gateway<QuietArea, QuietShelf, L::Link>,
    stop: Option<Stop>,
    links: &mut L,
    looped: &mut Looped,
) -> Option<Stop>
    requires { IsKnownGateway L.Link.Link (L.state links.old) gateway }
    ensures { LeavesGateway L.Link.Link gateway stop (L.state links.old) (L.state links.new) looped.old looped.new
        result }
{
    what_links_sent::<L::Link>();
    let Gateway {
        book,
        writer: _,
        address,
        links: made,
    } = gateway;
    give_back(links, made, address);
    let Ok(()) = looped.books.push(commit(book)) else {
        return Some(Stop::NoMemory);
    };
    stop
}
