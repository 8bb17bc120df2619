//! Rules, and the stream that they give.
//!
//! - `add LINE`: whether the line is a rule more.
//! - `fill COUNT LINE`: the same of so many such lines, of the last.
//! - `stream OCTETS FORMAT`: the stream of a record with this identifier, or with none, of a packet of this format.

use crate::words::octets;
use gw_base::Tag;
use route_filter::Rules;
use run_lines::{bad, first_word, number};
use std::io;

pub(crate) fn add(rt: &HostRuntime, rules: &mut Rules, line: &str) -> io::Result<()> {
    print!(rt; "{:?}", rules.add(line))
}

pub(crate) fn fill(rt: &HostRuntime, rules: &mut Rules, words: &str) -> io::Result<()> {
    let (count, line) = first_word(words);
    let mut last = Ok(());
    for _ in 0..number(count, 1000)? {
        last = rules.add(line);
    }
    print!(rt; "{last:?}")
}

/// The tag that an identifier says, or none.
fn tag_of(rt: &HostRuntime, word: &str) -> io::Result<Option<Tag>> {
    if word == "none" {
        return Ok(None);
    }
    let octets = octets(rt.alloc(), word)?;
    match ber_frame::identifier(&octets) {
        Ok(tag) => Ok(Some(tag)),
        Err(_) => Err(bad()),
    }
}

pub(crate) fn stream(rt: &HostRuntime, rules: &Rules, words: &str) -> io::Result<()> {
    let (tag, format) = first_word(words);
    let format = number(format, 255)? as u8;
    print!(rt; "{}", rules.stream(tag_of(rt, tag)?, format))
}
