//! The outside in memory: an input, an output and a clock, each of which fails at one call.
//!
//! - `source FAIL PIECE OCTETS`: an input of these octets, which gives pieces and fails at the call of this number.
//! - `pull N`: what comes of a call with room for so many octets, and what stands in the room then.
//! - `sink FAIL ROOM`: an output with so much room. `push OCTETS`: what comes of a call, and all that was written.
//! - `clock FAIL SECONDS ..`: a clock of these moments. `now`: what comes of a call.

use crate::words::{moment, octets, print_octets};
use gw_base::{Clock, Failed, MemoryClock, MemorySink, MemorySource, Moment, Octets, Sink, Source};
use run_lines::{bad, first_word, next, no_memory, number};
use std::alloc::Global;
use std::io;

/// The most octets that a call is given room for.
const MOST: u64 = 65_536;

/// An input without octets.
pub(crate) fn no_source(alloc: Global) -> MemorySource {
    MemorySource::new(Octets::from_vec(Vec::new(alloc)), 1, Vec::new(alloc))
}

/// An output without room.
pub(crate) fn no_sink(alloc: Global) -> io::Result<MemorySink> {
    sink_of(alloc, 0, Vec::new(alloc))
}

fn sink_of(alloc: Global, room: usize, fail: Vec<u64>) -> io::Result<MemorySink> {
    match MemorySink::new(alloc, room, fail) {
        Ok(sink) => Ok(sink),
        Err(_) => Err(no_memory()),
    }
}

/// The call that fails, alone in a list.
fn fail_of(alloc: Global, word: &str) -> io::Result<Vec<u64>> {
    let call = number(word, MOST)?;
    Ok(vec![in alloc; call]?)
}

pub(crate) fn source(rt: &HostRuntime, source: &mut MemorySource, words: &str) -> io::Result<()> {
    let (fail, words) = first_word(words);
    let (piece, input) = next(words, MOST)?;
    if piece == 0 {
        return Err(bad());
    }
    let input = octets(rt.alloc(), input)?;
    let fail = fail_of(rt.alloc(), fail)?;
    print!(rt; "{} octets", input.len())?;
    *source = MemorySource::new(Octets::from_vec(input), piece as usize, fail);
    Ok(())
}

/// Takes once from a source.
fn take_once<S: Source>(source: &mut S, into: &mut [u8]) -> Result<usize, Failed> {
    source.take(into)
}

pub(crate) fn pull(rt: &HostRuntime, source: &mut MemorySource, words: &str) -> io::Result<()> {
    let room = number(words, MOST)? as usize;
    let mut into = vec![in rt.alloc(); 0; room]?;
    let taken = take_once(source, &mut into);
    print!(rt; "{taken:?}, ")?;
    print_octets(rt, &into)
}

pub(crate) fn sink(rt: &HostRuntime, sink: &mut MemorySink, words: &str) -> io::Result<()> {
    let (fail, room) = first_word(words);
    let room = number(room, MOST)? as usize;
    let fail = fail_of(rt.alloc(), fail)?;
    *sink = sink_of(rt.alloc(), room, fail)?;
    print!(rt; "room {room}")
}

/// Puts once into a sink.
fn put_once<S: Sink>(sink: &mut S, from: &[u8]) -> Result<usize, Failed> {
    sink.put(from)
}

pub(crate) fn push(rt: &HostRuntime, sink: &mut MemorySink, words: &str) -> io::Result<()> {
    let from = octets(rt.alloc(), words)?;
    let put = put_once(sink, &from);
    print!(rt; "{put:?}, ")?;
    print_octets(rt, sink.octets())
}

pub(crate) fn clock(
    rt: &HostRuntime,
    clock: &mut Option<MemoryClock>,
    words: &str,
) -> io::Result<()> {
    let (fail, words) = first_word(words);
    let moments = moments_of(rt.alloc(), words)?;
    if moments.is_empty() {
        return Err(bad());
    }
    print!(rt; "{} moments", moments.len())?;
    *clock = Some(MemoryClock::new(moments, fail_of(rt.alloc(), fail)?));
    Ok(())
}

fn moments_of(alloc: Global, words: &str) -> io::Result<Vec<Moment>> {
    let mut moments = Vec::new(alloc);
    for word in words.split(' ') {
        moments.push(moment(word)?)?;
    }
    Ok(moments)
}

/// Asks a clock once.
fn ask_once<C: Clock>(clock: &mut C) -> Result<u64, Failed> {
    Ok(clock.now()?.seconds())
}

pub(crate) fn now(rt: &HostRuntime, clock: &mut MemoryClock) -> io::Result<()> {
    print!(rt; "{:?}", ask_once(clock))
}
