// How a loop ends that nothing stopped.
ghost use Rattle.std.specs.Prelude.{◌≡◌, ℕ, ◌+◌, ◌^◌, ◌≤◌, ◌∷◌, ◌++◌, [], List, Some, length};
ghost use Rattle.gw_base.specs.declared.packet.PacketId.{PacketId as Id};
ghost use Rattle.loop_audit.specs.Standing.{AllKeepAll};
ghost use Rattle.loop_run.specs.Ending.{AreAllFirm, CountsAs, TellsCounts, open_packets, packets_open};
ghost use Rattle.loop_run.specs.declared.looped.Looped.{Looped as Ran};
ghost use Rattle.loop_run.specs.declared.setup.LoopSetup.{LoopSetup as Setup};
ghost use Rattle.loop_run.specs.Finishing.{AreAlike, Finishes, UpTo, open_at, open_of};

use crate::counts::{gateway_counts, node_counts};
use crate::end::LoopEnd;
use crate::looped::Looped;
use crate::setup::LoopSetup;
use area_disk::QuietArea;
use gateway_book::Book;
use gw_base::{NoMemory, PacketId};
use loop_audit::{Audited, audit};
use node_core::{Node, Phase};
use std::alloc::Global;

/// The packets that aren't done: the first, by node and number, and how many there are.
#[derive(Clone, Copy)]
struct Open {
    first: PacketId,
    count: u64,
}

/// Ends a loop that nothing stopped, and hands out what it ran, unless there is no memory.
pub(crate) fn finish(alloc: Global, setup: LoopSetup, looped: Looped) -> (LoopEnd, Looped)
    requires firm { AreAllFirm looped.books.items }
    requires kept { AllKeepAll looped.nodes.items }
    requires few { length looped.nodes.items ≤ 8 }
    ensures { Finishes setup looped result.1 result.0 }
{
    let Looped { mut books, nodes } = looped;
    let end = end_of(alloc, setup, books.as_mut_slice(), nodes.as_slice());
    hand_out(alloc, end, Looped { books, nodes })
}

/// Hands out what was run with its end, unless there is no memory.
fn hand_out(alloc: Global, end: LoopEnd, looped: Looped) -> (LoopEnd, Looped)
    ensures { (setup : Setup) (was : Ran) → CountsAs setup was.books.items was.nodes.items end →
        AreAlike was.books.items looped.books.items → looped.nodes.items ≡ was.nodes.items →
        Finishes setup was result.1 result.0 }
{
    match end {
        LoopEnd::Fine { nodes, gateways } => (LoopEnd::Fine { nodes, gateways }, looped),
        LoopEnd::Wrong {
            packet,
            places,
            wanted,
        } => {
            let end = LoopEnd::Wrong {
                packet,
                places,
                wanted,
            };
            (end, looped)
        }
        LoopEnd::Unfinished {
            turns,
            packet,
            count,
        } => {
            let end = LoopEnd::Unfinished {
                turns,
                packet,
                count,
            };
            (end, looped)
        }
        LoopEnd::Link | LoopEnd::NoMemory => (LoopEnd::NoMemory, Looped::none(alloc)),
    }
}

/// The end of a loop: packets that aren't done decide first, then the audit.
fn end_of(alloc: Global, setup: LoopSetup, books: &mut [Book<QuietArea>], nodes: &[Node]) -> LoopEnd
    requires firm { AreAllFirm books.old }
    requires kept { AllKeepAll nodes.now }
    requires few { length nodes.now ≤ 8 }
    ensures ends { CountsAs setup books.old nodes.now result }
    ensures same { AreAlike books.old books.new }
{
    if let Some(open) = open_among(nodes, setup.packets) {
        return LoopEnd::Unfinished {
            turns: setup.turns,
            packet: open.first,
            count: open.count,
        };
    }
    match audit(books, nodes) {
        Ok(Audited::Fine) => fine(alloc, books, nodes),
        Ok(
            Audited::Wrong {
                packet,
                places,
                wanted,
            },
        ) => LoopEnd::Wrong {
            packet,
            places,
            wanted,
        },
        Err(NoMemory) => LoopEnd::NoMemory,
    }
}

/// The packets of nodes that aren't done, of so many of each.
fn open_among(nodes: &[Node], packets: u32) -> Option<Open>
    requires { length nodes.now ≤ 8 }
    ensures { result ≡ open_of (open_packets packets nodes.now) }
{
    let mut found: Option<Open> = None;
    for node in nodes {
        found = with_node(found, node, packets);
    }
    found
}

/// Those found, with those of one node more.
fn with_node(found: Option<Open>, node: &Node, packets: u32) -> Option<Open>
    requires { UpTo (2 ^ 62) found }
    ensures found { (before : List Id) → found ≡ open_of before →
        result ≡ open_of (before ++ packets_open packets node.now) }
    ensures few { (n : ℕ) → UpTo n found → UpTo (n + packets) result }
{
    let mut found = found;
    for place in 0..packets {
        found = with_number(found, node, u64::from(place) + 1);
    }
    found
}

/// Those found, with the packet of a node with this number, where it isn't done.
fn with_number(found: Option<Open>, node: &Node, number: u64) -> Option<Open>
    requires { UpTo (2 ^ 63) found }
    ensures found { (before : List Id) → found ≡ open_of before →
        result ≡ open_of (before ++ open_at node.now number) }
    ensures few { (n : ℕ) → UpTo n found → UpTo (n + 1) result }
{
    if node.phase(number) == Phase::Done {
        return found;
    }
    let packet = PacketId {
        node: node.id(),
        number,
    };
    Some(with_one(found, packet))
}

/// Those found, and one more.
fn with_one(found: Option<Open>, packet: PacketId) -> Open
    requires { UpTo (2 ^ 63) found }
    ensures found { (before : List Id) → found ≡ open_of before → Some result ≡ open_of (before ++ packet ∷ []) }
    ensures few { (n : ℕ) → UpTo n found → result.count ≤ n + 1 }
{
    match found {
        Some(Open { first, count }) => Open {
            first,
            count: count + 1,
        },
        None => Open {
            first: packet,
            count: 1,
        },
    }
}

/// The end of a loop in which each packet stands once.
fn fine(alloc: Global, books: &mut [Book<QuietArea>], nodes: &[Node]) -> LoopEnd
    requires { AreAllFirm books.old }
    ensures ends { TellsCounts books.old nodes.now result }
    ensures same { AreAlike books.old books.new }
{
    let Ok(nodes) = node_counts(alloc, nodes) else {
        return LoopEnd::NoMemory;
    };
    match gateway_counts(alloc, books) {
        Ok(gateways) => LoopEnd::Fine { nodes, gateways },
        Err(NoMemory) => LoopEnd::NoMemory,
    }
}
