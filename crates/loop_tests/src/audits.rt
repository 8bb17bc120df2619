//! The audit of a node and of two books that are moved by hand.
ghost use Rattle.std.specs.Prelude.{◌≡◌, ◌≤◌, length, true};
ghost use Rattle.loop_audit.specs.Standing.{AllKeepAll, KeepsAll};
ghost use Rattle.loop_run.specs.Looped.{node_made};
ghost use Rattle.net_link.specs.Datagrams.{IsNewAt};
ghost use Rattle.net_link.specs.Memory.{AreShort, told_of};
ghost use Rattle.net_link.specs.Steps.{most_octets};
ghost use Rattle.node_run.specs.Outcomes.{AreNewLinks};

use area_disk::QuietArea;
use gateway_book::{Book, Setup, prepare};
use gw_base::{Addr, Caller, Moment, NodeId, Octets, PacketId};
use loop_run::{Audited, audit, nodes_of_a_loop_keep_all};
use net_link::{Link, Links, MemoryLink, MemoryLinks, Post};
use node_core::Node;
use node_run::{LinkedNode, NoWatch, NodeEnd, Work};
use std::alloc::Global;
use std::process::Abort;

/// The gateways and the ports of the node, as in a loop.
const GATEWAYS: [Addr; 2] = [
    Addr {
        ip: 0x7F00_000B,
        port: 3386,
    },
    Addr {
        ip: 0x7F00_000C,
        port: 3386,
    },
];

const FIRST: Addr = Addr {
    ip: 0x7F00_0065,
    port: 40_001,
};

const SECOND: Addr = Addr {
    ip: 0x7F00_0065,
    port: 40_002,
};

/// How many octets the area of a gateway has.
const AREA_LENGTH: u64 = 4_096;

/// Told by a gateway: that it is alive, and that it is about to go down.
const ALIVE: [u8; 6] = [0x4E, 5, 0, 0, 0, 0];

const REDIRECTION: [u8; 8] = [0x4E, 6, 0, 2, 0, 0, 1, 63];

/// Told by the node: that its restart counter is 1; and a packet of one record, with number 0.
const STARTED: [u8; 8] = [0x4E, 2, 0, 2, 0, 0, 14, 1];

const PACKET: [u8; 22] = [
    0x4E, 0xF0, 0, 0x10, 0, 0, 0x7E, 1, 0xFC, 0, 0x0B, 1, 1, 6, 0, 0, 5, 0xA0, 3, 0x80, 1, 5,
];

/// A datagram of a gateway that comes to the node's first port.
fn post<R: Abort>(rt: &R, alloc: Global, gateway: Addr, octets: &[u8]) -> Post
    requires { length octets.now ≤ most_octets }
    ensures { length result.octets ≤ most_octets }
{
    let Ok(octets) = Octets::of(alloc, octets) else {
        panic!(rt; "no memory");
    };
    Post {
        at: FIRST,
        peer: gateway,
        octets,
    }
}

/// What the node hears in its first, third and fifth turn.
fn posts<R: Abort>(rt: &R, alloc: Global) -> Vec<Post>
    ensures { AreShort result.items }
{
    let one = post(rt, alloc, GATEWAYS[0], &ALIVE);
    let other = post(rt, alloc, GATEWAYS[1], &ALIVE);
    let last = post(rt, alloc, GATEWAYS[0], &REDIRECTION);
    match vec![in alloc; one, other, last] {
        Ok(posts) => posts,
        Err(_) => panic!(rt; "no memory"),
    }
}

/// A node with one packet, of which it sends a copy to the first gateway in its second turn, and one to the other in
/// its sixth, both under the number 0.
fn node<R: Abort>(rt: &R, alloc: Global) -> Node
    ensures { KeepsAll result }
{
    let Ok(node) = Node::new(alloc, FIRST.ip, &GATEWAYS, 1) else {
        panic!(rt; "no memory");
    };
    let mut links = links(rt, alloc);
    let linked = LinkedNode {
        node,
        first: link(rt, &mut links, FIRST),
        second: link(rt, &mut links, SECOND),
    };
    ran(rt, alloc, linked)
}

/// Links in memory to which those come.
fn links<R: Abort>(rt: &R, alloc: Global) -> MemoryLinks {
    match MemoryLinks::new(alloc, posts(rt, alloc), 64, Vec::new(alloc)) {
        Ok(links) => links,
        Err(_) => panic!(rt; "no memory"),
    }
}

/// One of them, at an address.
fn link<R: Abort>(rt: &R, links: &mut MemoryLinks, at: Addr) -> MemoryLink
    ensures { IsNewAt at (told_of result) }
{
    match links.make(at) {
        Ok(link) => link,
        Err(_) => panic!(rt; "no memory"),
    }
}

/// A node of a loop of two gateways after its six turns, in which its packet wasn't done.
fn ran<L: Link, R: Abort>(rt: &R, alloc: Global, linked: LinkedNode<L>) -> Node
    requires made { linked.node ≡ node_made (record { gateways = 2; nodes = 1; packets = 1; turns = 6 }) 0 }
    requires runs { linked.node.is_running ≡ true }
    requires new { AreNewLinks L.Link linked }
    ensures { KeepsAll result }
{
    nodes_of_a_loop_keep_all();
    let work = Work {
        packets: 1,
        turns: 6,
    };
    let (end, linked) = linked.run(alloc, work, 0, &NoWatch);
    match end {
        NodeEnd::Spent => linked.node,
        NodeEnd::Done | NodeEnd::Link | NodeEnd::NoMemory => panic!(rt; "not six turns"),
    }
}

/// This node alone.
fn nodes<R: Abort>(rt: &R, alloc: Global) -> Vec<Node>
    ensures { AllKeepAll result.items }
{
    match vec![in alloc; node(rt, alloc)] {
        Ok(nodes) => nodes,
        Err(_) => panic!(rt; "no memory"),
    }
}

/// The new book of a gateway.
fn opened<R: Abort>(rt: &R, alloc: Global, gateway: Addr) -> Book<QuietArea> {
    let Ok(area) = QuietArea::new(alloc, AREA_LENGTH) else {
        panic!(rt; "no memory");
    };
    let setup = Setup {
        address: gateway.ip,
        open_time: 3_600,
    };
    match Book::open(alloc, area, setup) {
        Ok(book) => book,
        Err(_) => panic!(rt; "not opened"),
    }
}

/// The book takes a datagram of the node.
fn take<R: Abort>(rt: &R, book: &mut Book<QuietArea>, datagram: &[u8]) {
    let Some(now) = Moment::of(0) else {
        panic!(rt; "no moment");
    };
    let _outcome = book.take(FIRST, &prepare(datagram), now, Caller::NONE);
}

fn commits(book: &mut Book<QuietArea>) -> bool {
    book.commit().is_ok()
}

/// The book of a gateway that took these datagrams of the node.
fn book<R: Abort>(rt: &R, alloc: Global, gateway: Addr, datagrams: &[&[u8]]) -> Book<QuietArea> {
    let mut book = opened(rt, alloc, gateway);
    for datagram in datagrams {
        take(rt, &mut book, datagram);
    }
    assert!(rt; commits(&mut book));
    book
}

/// The books of its gateways that took these datagrams.
fn books<R: Abort>(rt: &R, alloc: Global, one: &[&[u8]], other: &[&[u8]]) -> Vec<Book<QuietArea>> {
    let one = book(rt, alloc, GATEWAYS[0], one);
    let other = book(rt, alloc, GATEWAYS[1], other);
    match vec![in alloc; one, other] {
        Ok(books) => books,
        Err(_) => panic!(rt; "no memory"),
    }
}

/// What the audit finds of the node and of these books.
fn audited<R: Abort>(rt: &R, alloc: Global, one: &[&[u8]], other: &[&[u8]]) -> Audited {
    let nodes = nodes(rt, alloc);
    let mut books = books(rt, alloc, one, other);
    match audit(books.as_mut_slice(), nodes.as_slice()) {
        Ok(audited) => audited,
        Err(_) => panic!(rt; "no audit"),
    }
}

#[test]
fn a_packet_that_two_gateways_filed_is_wrong(rt: HostRuntime) {
    let packet = PacketId {
        node: NodeId(FIRST.ip),
        number: 1,
    };
    let wrong = Audited::Wrong {
        packet,
        places: 2,
        wanted: 1,
    };
    let filed: [&[u8]; 2] = [&STARTED, &PACKET];
    let none: [&[u8]; 1] = [&STARTED];
    assert!(rt; audited(&rt, rt.alloc(), &filed, &filed) == wrong);
    // One of them alone is as it has to be; and so is none, as the node wasn't told that one filed it.
    assert!(rt; audited(&rt, rt.alloc(), &none, &filed) == Audited::Fine);
    assert!(rt; audited(&rt, rt.alloc(), &none, &none) == Audited::Fine);
}
