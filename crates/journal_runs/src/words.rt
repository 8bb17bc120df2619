//! Words of a line, and what they say.

use run_lines::{NOTHING, number};
use std::alloc::Global;
use std::io;

/// The most octets of a line, the most places and the most calls.
pub(crate) const MOST: u64 = 16_777_216;

/// The numbers of a list with commas between them; of `-` none.
pub(crate) fn numbers(alloc: Global, word: &str) -> io::Result<Vec<u64>> {
    let mut numbers = Vec::new(alloc);
    if word == NOTHING {
        return Ok(numbers);
    }
    for one in word.split(',') {
        numbers.push(number(one, MOST)?)?;
    }
    Ok(numbers)
}

/// The octets that a word says.
pub(crate) fn octets(alloc: Global, word: &str) -> io::Result<Vec<u8>> {
    if let Some((count, octet)) = word.split_once('x') {
        let octet = number(octet, 255)? as u8;
        let count = number(count, MOST)? as usize;
        return Ok(vec![in alloc; octet; count]?);
    }
    let mut octets = Vec::new(alloc);
    for octet in word.split(',') {
        octets.push(number(octet, 255)? as u8)?;
    }
    Ok(octets)
}
