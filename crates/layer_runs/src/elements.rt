//! Headers of messages, the elements of their bodies, and lists of numbers.
//!
//! - `header OCTETS`: the header that they begin with, or why they are refused, and how that is said.
//! - `headed KIND LENGTH NUMBER`: the octets of a header.
//! - `element KIND OCTETS`: the first element of this type in a body, or the first faulty one, and how that is said.
//! - `numbers OCTETS`: the numbers that they are.
//! - `put KIND OCTETS`: whether the buffer has room for an element, and what it holds then.

use crate::words::{octets, print_octets};
use gtpp_elements::Numbers;
use gtpp_header::Header;
use gw_base::Buffer;
use run_lines::{bad, first_word, number};
use std::io;

pub(crate) fn header(rt: &HostRuntime, words: &str) -> io::Result<()> {
    let octets = octets(rt.alloc(), words)?;
    match gtpp_header::read(&octets) {
        Ok(header) => print!(rt; "{header:?}"),
        Err(fault) => print!(rt; "{fault:?}, {fault}"),
    }
}

pub(crate) fn headed(rt: &HostRuntime, words: &str) -> io::Result<()> {
    let (kind, words) = first_word(words);
    let (length, number_of) = first_word(words);
    let header = Header {
        kind: number(kind, 255)? as u8,
        length: number(length, 65_535)? as u16,
        number: number(number_of, 65_535)? as u16,
    };
    print_octets(rt, &gtpp_header::write(header))
}

pub(crate) fn element(rt: &HostRuntime, words: &str) -> io::Result<()> {
    let (kind, body) = first_word(words);
    let kind = number(kind, 255)? as u8;
    let body = octets(rt.alloc(), body)?;
    match gtpp_elements::read(&body) {
        Ok(elements) => print!(rt; "{:?}", elements.first(kind)),
        Err(fault) => print!(rt; "{fault:?}, {fault}"),
    }
}

pub(crate) fn numbers(rt: &HostRuntime, words: &str) -> io::Result<()> {
    let octets = octets(rt.alloc(), words)?;
    match Numbers::of(&octets) {
        Ok(numbers) => each_number(rt, &numbers),
        Err(fault) => print!(rt; "{fault:?}, {fault}"),
    }
}

/// Prints how many numbers there are, each of them, and the octets that spell them.
fn each_number(rt: &HostRuntime, numbers: &Numbers<'_>) -> io::Result<()> {
    print!(rt; "{}:", numbers.count())?;
    for k in 0..numbers.count() {
        print!(rt; " {}", numbers.at(k))?;
    }
    print!(rt; ", ")?;
    print_octets(rt, numbers.octets())
}

pub(crate) fn put_one(rt: &HostRuntime, buffer: &mut Buffer, words: &str) -> io::Result<()> {
    let (kind, value) = first_word(words);
    let kind = number(kind, 255)? as u8;
    let value = octets(rt.alloc(), value)?;
    if value.len() > 65_535 || kind < 128 && value.len() != 1 {
        return Err(bad());
    }
    let put = gtpp_elements::put(kind, &value, buffer);
    match put {
        Ok(()) => print!(rt; "Ok, ")?,
        Err(full) => print!(rt; "{full:?}, {full}, ")?,
    }
    print_octets(rt, buffer.octets())
}
