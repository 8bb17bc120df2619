//! A serving node, and the draft of a packet. Gateways have the addresses 10.0.0.1, 10.0.0.2 and so on, and numbers from
//! 1 on; a node has the address 10.0.1.1, and its ports are `first` and `second`.
//!
//! - `serving COUNT`: begins a node with so many gateways and the restart counter 1.
//! - `ready COUNT`: the same, with a first tick, after which each gateway asks for the counter and tells that it is alive,
//!   and with a packet of one record.
//! - `submit`: whether the node takes one more such packet, by its number.
//! - `turn`: what a tick sends: each datagram with the port that it goes from and the gateway that it goes to.
//! - `hears PORT GATEWAY OCTETS`: the reply, why the datagram is dropped, and the packets that become resolved and done.
//! - `restart`: halts the node and starts it again; its counter then.
//! - `packets`: its counts, and of the first packet how far it has come, its second copy, and the last number there.
//! - `draft FORMAT VERSION`: begins a draft. `grow OCTETS`: whether it takes a record, and the octets of its value.
//!   `grow-zeros COUNT LENGTH`: the same of so many records of so many zeros, of the last, and how many octets there are.

use crate::words::{octets, print_octets};
use gw_base::{Addr, PacketId};
use node_core::{Draft, DraftFault, Heeded, Node, Outgoing, Port};
use run_lines::{bad, first_word, next, no_memory, number};
use std::alloc::Global;
use std::io;

/// The node's address.
const ADDRESS: u32 = 0x0A00_0101;

/// The address before that of the first gateway.
const BEFORE_GATEWAYS: u32 = 0x0A00_0000;

const GATEWAY_PORT: u16 = 3386;

/// The most gateways of a node here.
const MOST_GATEWAYS: u64 = 255;

/// The record of each packet.
const RECORD: [u8; 5] = [0xA0, 3, 0x80, 1, 5];

/// An Echo Request with number 7, and a Node Alive Response with number 0.
const ECHO_REQUEST: [u8; 6] = [0x4E, 1, 0, 0, 0, 7];

const ALIVE_RESPONSE: [u8; 6] = [0x4E, 5, 0, 0, 0, 0];

/// The address of the gateway with this number.
fn address(gateway: u8) -> Addr {
    Addr {
        ip: BEFORE_GATEWAYS + u32::from(gateway),
        port: GATEWAY_PORT,
    }
}

fn port_of(word: &str) -> io::Result<Port> {
    match word {
        "first" => Ok(Port::First),
        "second" => Ok(Port::Second),
        _ => Err(bad()),
    }
}

/// A node with as many gateways as a word says.
fn node_of(alloc: Global, words: &str) -> io::Result<(Node, u8)> {
    let count = number(words, MOST_GATEWAYS)? as u8;
    let mut gateways = Vec::new(alloc);
    for gateway in 1..=count {
        gateways.push(address(gateway))?;
    }
    if gateways.is_empty() || gateways.len() > 255 {
        return Err(bad());
    }
    match Node::new(alloc, ADDRESS, &gateways, 1) {
        Ok(node) => Ok((node, count)),
        Err(_) => Err(no_memory()),
    }
}

pub(crate) fn serving(rt: &HostRuntime, node: &mut Option<Node>, words: &str) -> io::Result<()> {
    let (begun, count) = node_of(rt.alloc(), words)?;
    *node = Some(begun);
    print!(rt; "{count} gateways")
}

pub(crate) fn ready(rt: &HostRuntime, node: &mut Option<Node>, words: &str) -> io::Result<()> {
    let (mut begun, count) = node_of(rt.alloc(), words)?;
    make_ready(rt, &mut begun, count)?;
    *node = Some(begun);
    Ok(())
}

/// Makes a node ready, and prints how many datagrams it sends at first, and the number of its packet.
fn make_ready(rt: &HostRuntime, node: &mut Node, count: u8) -> io::Result<()> {
    print!(rt; "{} datagrams, ", ticked(rt.alloc(), node)?.len())?;
    for gateway in 1..=count {
        hear(node, gateway, &ECHO_REQUEST)?;
        hear(node, gateway, &ALIVE_RESPONSE)?;
    }
    print!(rt; "packet {:?}", submitted(rt.alloc(), node)?)
}

/// Hears a datagram at the first port, whose answer doesn't matter.
fn hear(node: &mut Node, gateway: u8, octets: &[u8]) -> io::Result<()> {
    if !node.runs() {
        return Err(bad());
    }
    let _heeded = node.hear(Port::First, address(gateway), octets);
    Ok(())
}

/// Whether a node takes a packet of one record, by its number.
fn submitted(alloc: Global, node: &mut Node) -> io::Result<Result<u64, node_core::SubmitFault>> {
    let mut draft = Draft::new(alloc, 1, 0x0600);
    let Ok(()) = draft.add(&RECORD) else {
        return Err(bad());
    };
    if !node.runs() || node.counts().packets >= 0x4000_0000_0000_0000 {
        return Err(bad());
    }
    match node.submit(alloc, draft) {
        Ok(id) => Ok(Ok(id.number)),
        Err((fault, _)) => Ok(Err(fault)),
    }
}

pub(crate) fn submit(rt: &HostRuntime, node: &mut Node) -> io::Result<()> {
    print!(rt; "{:?}", submitted(rt.alloc(), node)?)
}

/// What a tick sends.
fn ticked(alloc: Global, node: &mut Node) -> io::Result<Vec<Outgoing>> {
    if !node.runs() {
        return Err(bad());
    }
    match node.tick(alloc) {
        Ok(sent) => Ok(sent),
        Err(_) => Err(no_memory()),
    }
}

pub(crate) fn turn(rt: &HostRuntime, node: &mut Node) -> io::Result<()> {
    let sent = ticked(rt.alloc(), node)?;
    print!(rt; "{}", sent.len())?;
    for datagram in &sent {
        let to = datagram.to.ip.wrapping_sub(BEFORE_GATEWAYS);
        print!(rt; ", {:?} {to} ", datagram.port)?;
        print_octets(rt, datagram.octets.octets())?;
    }
    Ok(())
}

/// A packet by its number.
fn number_of(packet: Option<PacketId>) -> Option<u64> {
    match packet {
        Some(id) => Some(id.number),
        None => None,
    }
}

pub(crate) fn hears(rt: &HostRuntime, node: &mut Node, words: &str) -> io::Result<()> {
    let (port, words) = first_word(words);
    let port = port_of(port)?;
    let (gateway, datagram) = next(words, MOST_GATEWAYS)?;
    if !node.runs() {
        return Err(bad());
    }
    let octets = octets(rt.alloc(), datagram)?;
    print_heeded(rt, &node.hear(port, address(gateway as u8), &octets))
}

/// Prints what a node makes of a datagram.
fn print_heeded(rt: &HostRuntime, heeded: &Heeded) -> io::Result<()> {
    match &heeded.reply {
        Some(reply) => print_octets(rt, reply.octets())?,
        None => print!(rt; "no reply")?,
    }
    let (resolved, done) = (number_of(heeded.resolved), number_of(heeded.done));
    print!(rt;
        ", dropped {:?}, resolved {resolved:?}, done {done:?}",
        heeded.drop
    )
}

pub(crate) fn restart(rt: &HostRuntime, node: &mut Node) -> io::Result<()> {
    node.halt();
    print!(rt; "{:?}, ", node.phase(1))?;
    if node.runs() {
        return Err(bad());
    }
    node.start();
    print!(rt; "counter {} of {:?}", node.counter(), node.id())
}

pub(crate) fn packets(rt: &HostRuntime, node: &Node) -> io::Result<()> {
    print!(rt; "{:?}, ", node.counts())?;
    print!(rt;
        "{:?}, {:?}, {}",
        node.phase(1),
        node.copy(1, 1),
        node.last_number(1)
    )
}

pub(crate) fn begin_draft(rt: &HostRuntime, draft: &mut Draft, words: &str) -> io::Result<()> {
    let (format, version) = first_word(words);
    let format = number(format, 255)? as u8;
    let version = number(version, 65_535)? as u16;
    *draft = Draft::new(rt.alloc(), format, version);
    print!(rt; "{}", draft.is_empty())
}

pub(crate) fn grow(rt: &HostRuntime, draft: &mut Draft, words: &str) -> io::Result<()> {
    let record = octets(rt.alloc(), words)?;
    print_added(rt, draft.add(&record))?;
    print_octets(rt, draft.octets())
}

/// Prints whether a draft took a record.
fn print_added(rt: &HostRuntime, added: Result<(), DraftFault>) -> io::Result<()> {
    match added {
        Ok(()) => print!(rt; "Ok, "),
        Err(fault) => print!(rt; "{fault:?}, {fault}, "),
    }
}

/// Adds a record to a draft so many times; what comes of the last.
fn added(draft: &mut Draft, count: u64, record: &[u8]) -> Result<(), DraftFault> {
    let mut last = Ok(());
    for _ in 0..count {
        last = draft.add(record);
    }
    last
}

pub(crate) fn grow_zeros(rt: &HostRuntime, draft: &mut Draft, words: &str) -> io::Result<()> {
    let (count, words) = next(words, 1_000)?;
    let length = number(words, 65_536)? as usize;
    let record = vec![in rt.alloc(); 0; length]?;
    print_added(rt, added(draft, count, &record))?;
    print!(rt; "{} octets", draft.octets().len())
}
