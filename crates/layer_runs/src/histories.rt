//! Histories, and what the first entries of one tell. An ACT is `start`, `tick`, `close`, `path NODE COUNTER`,
//! `file NODE NUMBER`, `hold NODE NUMBER`, `seal NODE NUMBER`, `release NODE NUMBER` or `cancel NODE NUMBER`.
//!
//! - `act SECONDS ACT`: an entry more, and how many there are.
//! - `key LENGTH NODE EPOCH NUMBER`: the state of a key.
//! - `epoch LENGTH NODE`: a node's present epoch, and the greatest number that it names.
//! - `begun LENGTH NODE`: the restart counter with which the present epoch opened, if it did, and the node's start.
//! - `copies LENGTH`: the held and the stranded copies, whether a Close is due, and the octets that are promised.
//! - `moment LENGTH SECONDS`: the moment of an entry that is made then.
//! - `due LENGTH SECONDS`: whether a Tick is due then, at an open time of a minute.
//! - `told`: how often the gateway began to run, the known nodes, the held keys, and the last Tick.
//! - `owned K`: the entry at place K, lent, owned and lent again.

use crate::words;
use gw_base::scan::{
    copies_of, epoch, held_keys, is_close_due, is_tick_due, known_nodes, last_tick, moment_after,
    opening, promised_octets, start, start_count, state, top,
};
use gw_base::{Absolutes, Caller, HistoryAct, HistoryEntry, NodeId, Octets, PacketKey};
use run_lines::{bad, first_word, next, no_memory, number};
use std::alloc::Global;
use std::io;

/// The open time of files, in seconds.
const OPEN_TIME: u64 = 60;

/// The port of each node.
const PORT: u16 = 3386;

/// A packet of no records.
const PACKET: [u8; 4] = [1, 1, 6, 0];

fn node_of(word: &str) -> io::Result<NodeId> {
    let node = number(word, 4_294_967_295)? as u32;
    Ok(NodeId(node))
}

fn act_of(alloc: Global, words: &str) -> io::Result<HistoryAct> {
    let (form, words) = first_word(words);
    match form {
        "start" => return Ok(HistoryAct::Start),
        "tick" => return Ok(HistoryAct::Tick),
        "close" => return Ok(HistoryAct::Close),
        _ => {}
    }
    let (node, value) = first_word(words);
    let node = node_of(node)?;
    if form == "path" {
        return Ok(HistoryAct::Path {
            node,
            port: PORT,
            counter: number(value, 255)? as u8,
        });
    }
    act_of_number(alloc, form, node, number(value, u64::MAX)?)
}

fn act_of_number(alloc: Global, form: &str, node: NodeId, number: u64) -> io::Result<HistoryAct> {
    match form {
        "file" => Ok(HistoryAct::File {
            node,
            number,
            packet: packet(alloc)?,
        }),
        "hold" => Ok(HistoryAct::Hold {
            node,
            number,
            packet: packet(alloc)?,
        }),
        "seal" => Ok(HistoryAct::Seal { node, number }),
        "release" => Ok(HistoryAct::Release {
            node,
            numbers: Absolutes::from_vec(vec![in alloc; number]?),
        }),
        "cancel" => Ok(HistoryAct::Cancel {
            node,
            numbers: Absolutes::from_vec(vec![in alloc; number]?),
        }),
        _ => Err(bad()),
    }
}

fn packet(alloc: Global) -> io::Result<Octets> {
    match Octets::of(alloc, &PACKET) {
        Ok(packet) => Ok(packet),
        Err(_) => Err(no_memory()),
    }
}

pub(crate) fn act(
    rt: &HostRuntime,
    history: &mut Vec<HistoryEntry>,
    words: &str,
) -> io::Result<()> {
    let (seconds, act) = first_word(words);
    let moment = words::moment(seconds)?;
    let act = act_of(rt.alloc(), act)?;
    history.push(HistoryEntry {
        moment,
        caller: Caller::NONE,
        act,
    })?;
    print!(rt; "{}", history.len())
}

/// The first entries, as many as the first word says, and the words behind it.
fn front<'a, 'b>(
    history: &'a [HistoryEntry],
    words: &'b str,
) -> io::Result<(&'a [HistoryEntry], &'b str)> {
    let (length, words) = next(words, 1_000)?;
    let length = length as usize;
    if length > history.len() {
        return Err(bad());
    }
    Ok((&history[..length], words))
}

fn key_of(words: &str) -> io::Result<PacketKey> {
    let (node, words) = next(words, 4_294_967_295)?;
    let (epoch, words) = next(words, u64::MAX)?;
    Ok(PacketKey {
        node: NodeId(node as u32),
        epoch,
        number: number(words, u64::MAX)?,
    })
}

pub(crate) fn key(rt: &HostRuntime, history: &[HistoryEntry], words: &str) -> io::Result<()> {
    let (front, words) = front(history, words)?;
    print!(rt; "{:?}", state(front, key_of(words)?))
}

pub(crate) fn epoch_and_top(
    rt: &HostRuntime,
    history: &[HistoryEntry],
    words: &str,
) -> io::Result<()> {
    let (front, node) = front(history, words)?;
    let node = node_of(node)?;
    print!(rt; "{}, {:?}", epoch(front, node), top(front, node))
}

pub(crate) fn begun(rt: &HostRuntime, history: &[HistoryEntry], words: &str) -> io::Result<()> {
    let (front, node) = front(history, words)?;
    let node = node_of(node)?;
    let counter = match opening(front, node) {
        Some(opening) => Some(opening.counter),
        None => None,
    };
    print!(rt; "{counter:?}, {}", start(front, node))
}

pub(crate) fn copies(rt: &HostRuntime, history: &[HistoryEntry], words: &str) -> io::Result<()> {
    let (front, _) = front(history, words)?;
    let is_due = is_close_due(front);
    print!(rt;
        "{:?}, {is_due}, {}",
        copies_of(front),
        promised_octets(front)
    )
}

pub(crate) fn moment(rt: &HostRuntime, history: &[HistoryEntry], words: &str) -> io::Result<()> {
    let (front, now) = front(history, words)?;
    print!(rt; "{}", moment_after(front, words::moment(now)?).seconds())
}

pub(crate) fn due(rt: &HostRuntime, history: &[HistoryEntry], words: &str) -> io::Result<()> {
    let (front, now) = front(history, words)?;
    print!(rt; "{}", is_tick_due(front, OPEN_TIME, words::moment(now)?))
}

pub(crate) fn told(rt: &HostRuntime, history: &[HistoryEntry]) -> io::Result<()> {
    print!(rt; "{}, ", start_count(history))?;
    match known_nodes(rt.alloc(), history) {
        Ok(known) => print!(rt; "{known:?}, ")?,
        Err(_) => return Err(no_memory()),
    }
    match held_keys(rt.alloc(), history) {
        Ok(held) => print!(rt; "{held:?}, ")?,
        Err(_) => return Err(no_memory()),
    }
    match last_tick(history) {
        Some(last) => print!(rt; "Some({})", last.seconds()),
        None => print!(rt; "None"),
    }
}

pub(crate) fn owned(rt: &HostRuntime, history: &[HistoryEntry], words: &str) -> io::Result<()> {
    let Some(entry) = history.get(number(words, 1_000)? as usize) else {
        return Err(bad());
    };
    match entry.lent().to_owned(rt.alloc()) {
        Ok(owned) => print!(rt; "{:?}", owned.lent()),
        Err(_) => Err(no_memory()),
    }
}
