//! Whether each packet stands once.
ghost use Rattle.std.specs.Prelude.{◌≡◌, ◌≤◌, ◌==◌, ◌&&◌, ◌||◌, nat_lt, Ok, Some, count_by, length, map, option_map};
ghost use Rattle.std.specs.List.{find};
ghost use Rattle.area_disk.specs.Moments.{Told};
ghost use Rattle.node_core.specs.Counting.{copies_among, node_copy, packet_numbered};
ghost use Rattle.node_core.specs.Packets.{PacketState};
ghost use Rattle.node_core.specs.declared.copy.PacketCopy.{PacketCopy};
ghost use Rattle.loop_audit.specs.Audit.{audit_of, is_filed, is_wrong, looked_at, stands_at, tells_filed, wanted, wrong_at, wrong_if};
ghost use Rattle.loop_audit.specs.Standing.{AllKeepAll, KeepsAll, histories_of};
ghost use Rattle.loop_audit.specs.Steps.{is_resolved_by};

use crate::audited::Audited;
use area_disk::Area;
use gateway_book::{Book, Key};
use gw_base::{KeyState, NoMemory, NodeId, PacketId};
use node_core::{Node, NodeCopy, Phase};

/// A packet has a copy at each gateway of its node at most, and a node has at most 255.
const MOST_COPIES: usize = 255;

/// How many copies of a packet may stand.
const WANTED: u64 = 1;

/// The first packet, by node and number, of which more than one copy stands at its gateway, or none though it is
/// resolved. A copy stands where the gateway has filed it, at once or as a release, in the epoch of the node's restart
/// counter.
///
/// The books are those of the nodes' gateways, in their order, and no node was halted. The call takes no memory: its
/// answer is always `Ok`, and it changes no book.
pub fn audit<A: Area>(books: &mut [Book<A>], nodes: &[Node]) -> Result<Audited, NoMemory>
    requires kept { AllKeepAll nodes.now }
    ensures verdict { Told A.Area → result ≡ Ok (audit_of (histories_of books.old) nodes.now) }
    ensures unchanged { books.new ≡ books.old }
{
    for node in nodes {
        if let Some(wrong) = first_wrong(books, node) {
            return Ok(wrong);
        }
    }
    Ok(Audited::Fine)
}

/// The first packet of a node that is wrong.
fn first_wrong<A: Area>(books: &[Book<A>], node: &Node) -> Option<Audited>
    requires { KeepsAll node.now }
    ensures { Told A.Area → result ≡ option_map wrong_at
        (find is_wrong (map (looked_at (histories_of books.now) node.now) node.now.packets)) }
{
    for before in 0..node.counts().packets {
        if let Some(wrong) = wrong_packet(books, node, before + 1) {
            return Some(wrong);
        }
    }
    None
}

/// The packet with this number, where it is wrong.
fn wrong_packet<A: Area>(books: &[Book<A>], node: &Node, number: u64) -> Option<Audited>
    requires { length (copies_among node.now.packets number) ≤ MOST_COPIES }
    ensures { Told A.Area → (packet : PacketState) → packet_numbered node.now.packets number ≡ Some packet →
        result ≡ wrong_if (looked_at (histories_of books.now) node.now packet) }
{
    let places = count_places(books, node, number);
    if is_wrong(places, is_resolved(node.phase(number))) {
        return Some(Audited::Wrong {
            packet: PacketId {
                node: node.id(),
                number,
            },
            places,
            wanted: WANTED,
        });
    }
    None
}

/// Whether a packet is wrong of which so many copies stand, where one has to or none.
fn is_wrong(places: u64, must_stand: bool) -> bool
    ensures { result ≡ (nat_lt wanted places || (places == 0 && must_stand)) }
{
    places > WANTED || (places == 0 && must_stand)
}

/// Whether a packet in this phase is known to be filed.
fn is_resolved(phase: Phase) -> bool
    ensures { result ≡ is_resolved_by phase }
{
    match phase {
        Phase::Resolved | Phase::Done => true,
        Phase::Open | Phase::Unknown => false,
    }
}

/// How many copies of a packet stand.
fn count_places<A: Area>(books: &[Book<A>], node: &Node, number: u64) -> u64
    requires { length (copies_among node.now.packets number) ≤ MOST_COPIES }
    ensures { Told A.Area → result ≡ count_by (stands_at (histories_of books.now) node.now)
        (copies_among node.now.packets number) }
{
    let mut places = 0u64;
    for k in 0..MOST_COPIES {
        let Some(copy) = node.copy(number, k) else {
            return places;
        };
        places += u64::from(stands(books, node, copy));
    }
    places
}

/// Whether a copy stands at its gateway.
fn stands<A: Area>(books: &[Book<A>], node: &Node, copy: NodeCopy) -> bool
    ensures { Told A.Area → (of : PacketCopy) → copy ≡ node_copy of →
        result ≡ stands_at (histories_of books.now) node.now of }
{
    match books.get(usize::from(copy.gateway)) {
        Some(book) => tells_filed(
            node.counter(),
            copy.number,
            book.key(node.id(), (copy.number % 65_536) as u16),
        ),
        None => false,
    }
}

/// Whether a key is that of a filed copy with this number, in the epoch that began with this restart counter.
fn tells_filed(counter: u8, number: u64, key: Key) -> bool
    ensures { result ≡ tells_filed counter number key }
{
    key.start == counter && key.number == number && is_filed(key.state)
}

/// Whether the records under a number were filed.
fn is_filed(state: KeyState) -> bool
    ensures { result ≡ is_filed state }
{
    match state {
        KeyState::Filed | KeyState::Released => true,
        KeyState::Fresh | KeyState::Sealed | KeyState::Held | KeyState::Cancelled => false,
    }
}
