//! Copies that a gateway holds: after each line, how many there are.
//!
//! - `hold NODE NUMBER AT`: holds the copy of a node's number, which lies there, unless it is held.
//! - `hold-first NODE COUNT`: the same of the numbers below COUNT, each at the place of its number; of the last.
//! - `find NODE NUMBER`, `take NODE NUMBER`: where it lies, and that it is held no more.
//! - `drop NODE`: how many of a node were held, which are held no more.

use dup_buffer::{Held, HoldFault};
use gw_base::{NodeId, Place};
use run_lines::{next, number};
use std::io;

/// Holds a copy that isn't held yet.
fn held_once(held: &mut Held, node: NodeId, number: u64, at: u64) -> Result<(), HoldFault> {
    match held.find(node, number) {
        None => held.hold(node, number, Place { at, length: 12 }),
        Some(_) => Ok(()),
    }
}

/// A node and a number, and the words behind them.
fn key_of(words: &str) -> io::Result<(NodeId, u64, &str)> {
    let (node, words) = next(words, 4_294_967_295)?;
    let (number, words) = next(words, u64::MAX)?;
    Ok((NodeId(node as u32), number, words))
}

pub(crate) fn hold(rt: &HostRuntime, held: &mut Held, words: &str) -> io::Result<()> {
    let (node, key, at) = key_of(words)?;
    let answer = held_once(held, node, key, number(at, u64::MAX)?);
    print!(rt; "{answer:?}, {}", held.count())
}

pub(crate) fn hold_first(rt: &HostRuntime, held: &mut Held, words: &str) -> io::Result<()> {
    let (node, count, _) = key_of(words)?;
    let mut last = Ok(());
    for number in 0..count {
        last = held_once(held, node, number, number);
    }
    print!(rt; "{last:?}, {}", held.count())
}

pub(crate) fn find(rt: &HostRuntime, held: &Held, words: &str) -> io::Result<()> {
    let (node, number, _) = key_of(words)?;
    print!(rt; "{:?}, {}", held.find(node, number), held.count())
}

pub(crate) fn take(rt: &HostRuntime, held: &mut Held, words: &str) -> io::Result<()> {
    let (node, number, _) = key_of(words)?;
    let taken = held.take(node, number);
    print!(rt; "{taken:?}, {}", held.count())
}

pub(crate) fn drop_node(rt: &HostRuntime, held: &mut Held, words: &str) -> io::Result<()> {
    let node = number(words, 4_294_967_295)? as u32;
    let dropped = held.drop_node(NodeId(node));
    print!(rt; "{dropped}, {}", held.count())
}
