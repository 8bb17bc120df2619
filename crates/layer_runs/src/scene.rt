//! What the lines of a group add to: a buffer, rules, a text, a history, a node's paths, the files of a stream, held
//! copies, a serving node and a draft, the outside in memory.
//!
//! `room N OCTETS` begins the buffer anew, with so many octets of room and these in it.

use crate::outside::{no_sink, no_source};
use crate::words::octets;
use dup_buffer::Held;
use file_rotate::Cutter;
use gw_base::{Buffer, HistoryEntry, MemoryClock, MemorySink, MemorySource};
use node_core::{Draft, Node};
use path_mgmt::NodePath;
use route_filter::Rules;
use run_lines::{bad, next, no_memory};
use std::alloc::Global;
use std::io;

/// The room of a buffer for which a group has no line.
const ROOM: usize = 64;

/// The restart counter of the node whose paths there are.
const COUNTER: u8 = 6;

fn buffer(alloc: Global, room: usize) -> io::Result<Buffer> {
    match Buffer::with(alloc, room) {
        Ok(buffer) => Ok(buffer),
        Err(_) => Err(no_memory()),
    }
}

fn held(alloc: Global) -> io::Result<Held> {
    match Held::new(alloc, 0) {
        Ok(held) => Ok(held),
        Err(_) => Err(no_memory()),
    }
}

/// What the lines of a group add to.
#[derive(Drop)]
pub(crate) struct Scene {
    pub(crate) buffer: Buffer,
    pub(crate) rules: Rules,
    pub(crate) text: Vec<u8>,
    pub(crate) history: Vec<HistoryEntry>,
    pub(crate) path: NodePath,
    pub(crate) cutter: Option<Cutter>,
    pub(crate) held: Held,
    pub(crate) serving: Option<Node>,
    pub(crate) draft: Draft,
    pub(crate) source: MemorySource,
    pub(crate) sink: MemorySink,
    pub(crate) clock: Option<MemoryClock>,
}

impl Scene {
    /// What there is before the first line of a group.
    pub(crate) fn new(alloc: Global) -> io::Result<Scene> {
        Ok(Scene {
            buffer: buffer(alloc, ROOM)?,
            rules: Rules::none(alloc),
            text: Vec::new(alloc),
            history: Vec::new(alloc),
            path: NodePath::new(COUNTER),
            cutter: None,
            held: held(alloc)?,
            serving: None,
            draft: Draft::new(alloc, 1, 0),
            source: no_source(alloc),
            sink: no_sink(alloc)?,
            clock: None,
        })
    }

    /// Begins the buffer anew.
    pub(crate) fn begin_buffer(&mut self, rt: &HostRuntime, words: &str) -> io::Result<()> {
        let (room, front) = next(words, 65_535)?;
        let front = octets(rt.alloc(), front)?;
        let mut buffer = buffer(rt.alloc(), room as usize)?;
        if buffer.free() < front.len() {
            return Err(bad());
        }
        buffer.append(&front);
        self.buffer = buffer;
        print!(rt; "room {room}")
    }
}
