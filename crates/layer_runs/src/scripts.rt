//! Scripts as they are read and printed, what a line says, and samples. In a TEXT `\n` is a line feed and `\r` a carriage
//! return.
//!
//! - `front COUNT TEXT`: so many of this text stand in front of the scripts that follow.
//! - `script feed TEXT`, `script replay TEXT`, `script serve TEXT`: the text of the script as it is printed, or why it is
//!   refused.
//! - `says feed LINE`, `says replay LINE`: what the line says.
//! - `sample SEED NODES GATEWAYS PACKETS`: how many lines and octets the text of a sample has, the sum of its octets,
//!   each times its place from 1, modulo 2^32, and whether it reads as a script that is printed so.

use crate::words::unescaped;
use gw_base::Octets;
use run_lines::{bad, first_word, next, no_memory, number};
use std::alloc::Global;
use std::io;
use world_script::{Script, ScriptKind, print, read, sample};

/// The most times that a text may stand in front.
const MOST_TIMES: u64 = 16_777_216;

fn kind_of(word: &str) -> ScriptKind {
    match word {
        "feed" => ScriptKind::Feed,
        "serve" => ScriptKind::Serve,
        _ => ScriptKind::Replay,
    }
}

pub(crate) fn front(rt: &HostRuntime, text: &mut Vec<u8>, words: &str) -> io::Result<()> {
    let (count, more) = first_word(words);
    let more = unescaped(rt.alloc(), more)?;
    for _ in 0..number(count, MOST_TIMES)? {
        text.extend_from_slice(&more)?;
    }
    print!(rt; "{} octets", text.len())
}

/// The text of a script.
fn text_of(alloc: Global, script: &Script) -> io::Result<Octets> {
    match print(alloc, script) {
        Ok(text) => Ok(text),
        Err(_) => Err(no_memory()),
    }
}

/// Prints the text of a script with each line feed as `\n`.
fn print_text(rt: &HostRuntime, script: &Script) -> io::Result<()> {
    let text = text_of(rt.alloc(), script)?;
    match str::from_utf8(text.octets()) {
        Ok(text) => print!(rt; "{text:?}"),
        Err(_) => Err(bad()),
    }
}

pub(crate) fn script(rt: &HostRuntime, front: &[u8], words: &str) -> io::Result<()> {
    let (kind, text) = first_word(words);
    let mut octets = front.to_vec(rt.alloc())?;
    octets.extend_from_slice(&unescaped(rt.alloc(), text)?)?;
    match read(rt.alloc(), &octets, kind_of(kind)) {
        Ok(script) => print_text(rt, &script),
        Err(fault) => print!(rt; "{fault:?}"),
    }
}

pub(crate) fn says(rt: &HostRuntime, words: &str) -> io::Result<()> {
    let (kind, line) = first_word(words);
    let mut octets = unescaped(rt.alloc(), line)?;
    octets.extend_from_slice(b"\nend")?;
    match read(rt.alloc(), &octets, kind_of(kind)) {
        Ok(script) => print!(rt; "{:?}", script.line(0)),
        Err(fault) => print!(rt; "{fault:?}"),
    }
}

/// The sum of octets, each times its place from 1, modulo 2^32.
fn weighed(text: &[u8]) -> u32 {
    let mut sum: u32 = 0;
    let mut place: u32 = 0;
    for octet in text {
        place = place.wrapping_add(1);
        sum = sum.wrapping_add(place.wrapping_mul(u32::from(*octet)));
    }
    sum
}

/// Whether a text is a replay that is printed so.
fn is_printed(alloc: Global, text: &Octets) -> io::Result<bool> {
    let Ok(script) = read(alloc, text.octets(), ScriptKind::Replay) else {
        return Ok(false);
    };
    let printed = text_of(alloc, &script)?;
    Ok(printed.octets() == text.octets())
}

pub(crate) fn sampled(rt: &HostRuntime, words: &str) -> io::Result<()> {
    let (seed, words) = next(words, u64::MAX)?;
    let (nodes, words) = next(words, 16)?;
    let (gateways, words) = next(words, 8)?;
    let packets = number(words, 20_000)?;
    if nodes == 0 {
        return Err(bad());
    }
    if gateways == 0 {
        return Err(bad());
    }
    if packets == 0 {
        return Err(bad());
    }
    match sample(
        rt.alloc(),
        seed,
        nodes as u8,
        gateways as u8,
        packets as u32,
    ) {
        Ok(script) => print_sample(rt, &script),
        Err(_) => Err(no_memory()),
    }
}

/// Prints what there is of the script of a sample.
fn print_sample(rt: &HostRuntime, script: &Script) -> io::Result<()> {
    let text = text_of(rt.alloc(), script)?;
    let octets = text.octets().len();
    let sum = weighed(text.octets());
    let reads = is_printed(rt.alloc(), &text)?;
    print!(rt;
        "{} lines, {octets} octets, sum {sum}, ",
        script.lines().len()
    )?;
    print!(rt; "reads as printed: {reads}")
}
