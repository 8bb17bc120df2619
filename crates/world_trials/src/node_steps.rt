//! A node that is played step by step, and what it tells at each step.

use crate::calls::had;
use gtpp_message::Why;
use gw_base::{Addr, NodeId, PacketId};
use node_core::{Draft, Heeded, Node, NodeCopy, Outgoing, Phase, Port, SubmitFault};
use std::alloc::Global;
use std::process::Abort;

/// A datagram that a node sends: the port that it goes from, the gateway that it goes to, its number, the number that it
/// names, and its octets.
pub(crate) type Sent = (Port, u8, u64, Option<u64>, &'static [u8]);

/// What befalls a node. Gateways are places from 0.
#[derive(Clone, Copy)]
pub(crate) enum Step<'a> {
    /// It is halted, and started again with this restart counter.
    Restarts(u8),
    /// The packet with one record is submitted.
    Submits,
    /// A tick appoints a gateway, if it does, and sends just this.
    Ticks(Option<u8>, &'a [Sent]),
    /// A gateway asks for the counter, and then tells that it is alive.
    ComesAlive(u8),
    /// A gateway says that it is about to go down, and this one is appointed.
    GoesDown(u8, u8),
    /// A gateway answers a number with a cause, at a port; whether this makes the first packet resolved, and done.
    Answers(Port, u8, u64, u8, (bool, bool)),
    /// Nothing: a packet has come so far, and has just these copies, which are gateways with numbers; and these are the
    /// last numbers that were drawn for three gateways.
    Stands(u64, Phase, &'a [(u8, u64)], (u64, u64, u64)),
}

/// The node's address.
const ADDRESS: u32 = 0x0A00_0101;

/// An Echo Request, and a Node Alive Response, with number 0.
const ECHO_REQUEST: [u8; 6] = [0x4E, 1, 0, 0, 0, 0];

const ALIVE_RESPONSE: [u8; 6] = [0x4E, 5, 0, 0, 0, 0];

/// The Redirection Request of a gateway that is about to go down, and the response to it.
const REDIRECTION: [u8; 8] = [0x4E, 6, 0, 2, 0, 0, 1, 63];

const REDIRECTED: [u8; 8] = [0x4E, 7, 0, 2, 0, 0, 1, 128];

/// The gateways of the nodes.
pub(crate) const GATEWAYS: [Addr; 3] = [
    Addr {
        ip: 0x0A00_0001,
        port: 3386,
    },
    Addr {
        ip: 0x0A00_0002,
        port: 3386,
    },
    Addr {
        ip: 0x0A00_0003,
        port: 3386,
    },
];

/// The address of the gateway at a place.
pub(crate) fn at(place: u8) -> Addr {
    Addr {
        ip: 0x0A00_0001 + u32::from(place),
        port: 3386,
    }
}

/// The octets of the reply, none where there is none.
fn reply(heeded: &Heeded) -> &[u8] {
    match &heeded.reply {
        None => &[],
        Some(reply) => reply.octets(),
    }
}

/// The packet with one record.
fn draft(rt: &impl Abort, alloc: Global) -> Draft {
    let mut draft = Draft::new(alloc, 1, 0x0600);
    assert_eq!(rt; draft.add(&[0xA0, 3, 0x80, 1, 5]), Ok(()));
    draft
}

/// A node with these gateways, which has its first start.
pub(crate) fn anew(rt: &impl Abort, alloc: Global, gateways: &[Addr]) -> Node {
    if gateways.is_empty() || gateways.len() > 3 {
        panic!(rt; "no node has {} gateways here", gateways.len());
    }
    had(rt, Node::new(alloc, ADDRESS, gateways, 1))
}

/// The number of the packet that a node takes, or why it takes none.
pub(crate) fn submitted(
    rt: &impl Abort,
    alloc: Global,
    node: &mut Node,
) -> Result<u64, SubmitFault> {
    if !node.runs() || node.counts().packets >= 0x4000_0000_0000_0000 {
        panic!(rt; "the node takes no packet");
    }
    match node.submit(alloc, draft(rt, alloc)) {
        Ok(id) => Ok(id.number),
        Err((fault, _)) => Err(fault),
    }
}

/// What a node that runs sends, and what it makes of a datagram.
fn ticked(rt: &impl Abort, alloc: Global, node: &mut Node) -> Vec<Outgoing> {
    if !node.runs() {
        panic!(rt; "the node is halted");
    }
    had(rt, node.tick(alloc))
}

fn heard(rt: &impl Abort, node: &mut Node, port: Port, from: Addr, octets: &[u8]) -> Heeded {
    if !node.runs() {
        panic!(rt; "the node is halted");
    }
    node.hear(port, from, octets)
}

/// A node that doesn't run starts.
fn starts(rt: &impl Abort, node: &mut Node) {
    if node.runs() {
        panic!(rt; "the node isn't halted");
    }
    node.start();
}

/// A node plays these steps.
pub(crate) fn play(rt: &impl Abort, alloc: Global, node: &mut Node, steps: &[Step<'_>]) {
    for step in steps {
        play_one(rt, alloc, node, *step);
    }
}

fn play_one(rt: &impl Abort, alloc: Global, node: &mut Node, step: Step<'_>) {
    match step {
        Step::Restarts(counter) => restart(rt, node, counter),
        Step::Submits => submit(rt, alloc, node),
        Step::Ticks(appointed, wanted) => tick(rt, alloc, node, appointed, wanted),
        Step::ComesAlive(gateway) => comes_alive(rt, node, gateway),
        Step::GoesDown(gateway, next) => goes_down(rt, node, gateway, next),
        Step::Answers(port, gateway, number, cause, made) => {
            answer(rt, node, port, gateway, number, cause, made)
        }
        Step::Stands(packet, phase, copies, last) => stands(rt, node, packet, phase, copies, last),
    }
}

fn restart(rt: &impl Abort, node: &mut Node, counter: u8) {
    node.halt();
    starts(rt, node);
    assert!(rt; node.runs());
    assert_eq!(rt; node.counter(), counter);
    assert_eq!(rt; node.favourite(), 0);
}

/// A node takes one more packet.
pub(crate) fn submit(rt: &impl Abort, alloc: Global, node: &mut Node) {
    let number = node.counts().packets.saturating_add(1);
    assert_eq!(rt; submitted(rt, alloc, node), Ok(number));
    assert_eq!(rt; node.counts().packets, number);
    assert_eq!(rt; node.phase(number), Phase::Open);
}

fn tick(rt: &impl Abort, alloc: Global, node: &mut Node, appointed: Option<u8>, wanted: &[Sent]) {
    let favourite = match appointed {
        None => node.favourite(),
        Some(gateway) => gateway,
    };
    are_sent(rt, &ticked(rt, alloc, node), wanted);
    assert_eq!(rt; node.favourite(), favourite);
}

fn are_sent(rt: &impl Abort, datagrams: &[Outgoing], wanted: &[Sent]) {
    assert_eq!(rt; datagrams.len(), wanted.len());
    for (datagram, one) in datagrams.iter().zip(wanted) {
        is_sent(rt, datagram, *one);
    }
}

fn is_sent(rt: &impl Abort, datagram: &Outgoing, wanted: Sent) {
    let (port, gateway, number, named, octets) = wanted;
    assert_eq!(rt; (datagram.port, datagram.to), (port, at(gateway)));
    assert_eq!(rt; (datagram.number, datagram.named), (number, named));
    assert_eq!(rt; datagram.octets.octets(), octets);
}

/// A node reads a datagram, drops it for this or not, and replies this; no packet becomes resolved or done.
pub(crate) fn reads(
    rt: &impl Abort,
    node: &mut Node,
    from: Addr,
    octets: &[u8],
    drop: Option<Why>,
    wanted: &[u8],
) {
    let heeded = heard(rt, node, Port::First, from, octets);
    assert_eq!(rt; heeded.drop, drop, "{octets:?}");
    assert_eq!(rt; reply(&heeded), wanted, "{octets:?}");
    assert_eq!(rt; (heeded.resolved, heeded.done), (None, None), "{octets:?}");
}

fn comes_alive(rt: &impl Abort, node: &mut Node, gateway: u8) {
    let told = [0x4E, 2, 0, 2, 0, 0, 0x0E, node.counter()];
    reads(rt, node, at(gateway), &ECHO_REQUEST, None, &told);
    reads(rt, node, at(gateway), &ALIVE_RESPONSE, None, &[]);
}

fn goes_down(rt: &impl Abort, node: &mut Node, gateway: u8, next: u8) {
    reads(rt, node, at(gateway), &REDIRECTION, None, &REDIRECTED);
    assert_eq!(rt; node.favourite(), next);
}

/// The first packet, if it was made.
fn first(is_made: bool) -> Option<PacketId> {
    if is_made {
        Some(PacketId {
            node: NodeId(ADDRESS),
            number: 1,
        })
    } else {
        None
    }
}

fn answer(
    rt: &impl Abort,
    node: &mut Node,
    port: Port,
    gateway: u8,
    number: u64,
    cause: u8,
    made: (bool, bool),
) {
    let last = (number % 256) as u8;
    let octets = [0x4E, 0xF1, 0, 7, 0, last, 1, cause, 0xFD, 0, 2, 0, last];
    let heeded = heard(rt, node, port, at(gateway), &octets);
    assert_eq!(rt; heeded.drop, None, "{gateway} {cause}");
    assert!(rt; reply(&heeded).is_empty(), "{gateway} {cause}");
    assert_eq!(rt; heeded.resolved, first(made.0), "{gateway} {cause}");
    assert_eq!(rt; heeded.done, first(made.1), "{gateway} {cause}");
}

/// The copy in a place.
fn copy_at(copies: &[(u8, u64)], place: usize) -> Option<NodeCopy> {
    match copies.get(place) {
        None => None,
        Some((gateway, number)) => Some(NodeCopy {
            gateway: *gateway,
            number: *number,
        }),
    }
}

fn stands(
    rt: &impl Abort,
    node: &Node,
    packet: u64,
    phase: Phase,
    copies: &[(u8, u64)],
    last: (u64, u64, u64),
) {
    assert_eq!(rt; node.phase(packet), phase, "packet {packet}");
    for k in 0..4 {
        assert_eq!(rt;
            node.copy(packet, k),
            copy_at(copies, k),
            "packet {packet} copy {k}"
        );
    }
    let drawn = (
        node.last_number(0),
        node.last_number(1),
        node.last_number(2),
    );
    assert_eq!(rt; drawn, last, "packet {packet}");
}
