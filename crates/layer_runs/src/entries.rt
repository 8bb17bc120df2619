//! Entries of a history, and their octets.
//!
//! - `entry OCTETS`: the entry that they begin with, how many octets it has and what it costs, or the first wrong octet.
//! - `spell OCTETS`: whether the buffer has room for the entry that they are, and what it holds then.

use crate::words::{octets, print_octets};
use entry_codec::{cost, read, write};
use gw_base::Buffer;
use run_lines::bad;
use std::io;

/// The most octets of an entry of a line.
const MOST_OCTETS: usize = 128;

pub(crate) fn entry(rt: &HostRuntime, words: &str) -> io::Result<()> {
    let octets = octets(rt.alloc(), words)?;
    let mut numbers = [0; 16];
    if octets.len() > MOST_OCTETS {
        return Err(bad());
    }
    match read(&octets, &mut numbers) {
        Ok((entry, length)) => print!(rt; "{entry:?}, {length} octets, costs {}", cost(&entry)),
        Err(fault) => print!(rt; "{fault:?}"),
    }
}

pub(crate) fn spell(rt: &HostRuntime, buffer: &mut Buffer, words: &str) -> io::Result<()> {
    let octets = octets(rt.alloc(), words)?;
    let mut numbers = [0; 16];
    if octets.len() > MOST_OCTETS {
        return Err(bad());
    }
    let Ok((entry, _)) = read(&octets, &mut numbers) else {
        return Err(bad());
    };
    if cost(&entry) > 200 {
        return Err(bad());
    }
    match write(&entry, buffer) {
        Ok(()) => print!(rt; "Ok, ")?,
        Err(full) => print!(rt; "{full:?}, ")?,
    }
    print_octets(rt, buffer.octets())
}
