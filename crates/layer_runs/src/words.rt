//! Words of a line, and what they say.

use gw_base::Moment;
use run_lines::{NOTHING, bad, number};
use std::alloc::Global;
use std::io;

/// The moment so many seconds after 1970.
pub(crate) fn moment(word: &str) -> io::Result<Moment> {
    match Moment::of(number(word, u64::MAX)?) {
        Some(moment) => Ok(moment),
        None => Err(bad()),
    }
}

/// The octets that a word says in hexadecimal.
pub(crate) fn octets(alloc: Global, word: &str) -> io::Result<Vec<u8>> {
    if word == NOTHING {
        return Ok(Vec::new(alloc));
    }
    match hex::decode(alloc, word) {
        Ok(octets) => Ok(octets),
        Err(_) => Err(bad()),
    }
}

/// Prints octets in hexadecimal.
pub(crate) fn print_octets(rt: &HostRuntime, octets: &[u8]) -> io::Result<()> {
    if octets.is_empty() {
        return print!(rt; "{NOTHING}");
    }
    let text = hex::encode_upper(rt.alloc(), octets)?;
    print!(rt; "{text}")
}

/// The text in which `\n` and `\r` are written for a line feed and a carriage return.
pub(crate) fn unescaped(alloc: Global, text: &str) -> io::Result<Vec<u8>> {
    let mut octets = Vec::new(alloc);
    let mut escaped = false;
    for octet in text.as_bytes() {
        if escaped {
            octets.push(if *octet == b'n' { b'\n' } else { b'\r' })?;
        } else if *octet != b'\\' {
            octets.push(*octet)?;
        }
        escaped = !escaped && *octet == b'\\';
    }
    Ok(octets)
}
