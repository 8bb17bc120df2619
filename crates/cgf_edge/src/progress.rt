ghost use Rattle.std.specs.Prelude.{◌≡◌};

use crate::nodes::Nodes;
use gw_base::{Failed, Sink};
use std::alloc::Global;
use std::io::{Print, Write};
use std::sync::atomic::{AtomicU64, Ordering};

/// From so many lines on a job is long.
const LONG: u64 = 100_000;

/// What a line of the terminal is emptied by: its start, and the control sequence EL of ECMA-48, clause 8.3.41.
const EMPTY: &[u8] = b"\r\x1b[K";

/// What the line of a terminal shows: 1 more than the hundredths of a job, or 0 where it shows nothing.
#[derive(Drop)]
pub struct Line {
    shown: AtomicU64,
}

impl Line {
    /// Nothing is shown yet.
    pub fn new() -> Line {
        Line {
            shown: AtomicU64::new(0),
        }
    }

    /// Empties the line on this terminal, where something is shown.
    fn clear<W: Write>(&self, terminal: &mut Option<W>) {
        if self.shown.swap(0, Ordering::SeqCst) > 0 {
            write(terminal, EMPTY);
        }
    }

    /// From now on it shows so many hundredths. It tells whether that is something else than before.
    fn turn_to(&self, hundredths: u64) -> bool {
        let shown = hundredths.saturating_add(1);
        self.shown.swap(shown, Ordering::SeqCst) != shown
    }

    /// Shows so many hundredths on this terminal, where others are shown.
    fn show<W: Write>(&self, terminal: &mut Option<W>, hundredths: u64) {
        if !self.turn_to(hundredths) {
            return;
        }
        let line = [
            b'\r',
            b'c',
            b'g',
            b'f',
            b':',
            b' ',
            digit(hundredths, 100),
            digit(hundredths, 10),
            b'0' + (hundredths % 10) as u8,
            b' ',
            b'%',
        ];
        write(terminal, &line);
    }
}

/// What can't be shown is left out.
fn write<W: Write>(terminal: &mut Option<W>, octets: &[u8]) {
    if let Some(terminal) = terminal {
        let _ = terminal.write_all(octets);
    }
}

/// The digit of a number of hundredths that counts tens or hundreds, a space where nothing stands there.
fn digit(hundredths: u64, unit: u64) -> u8 {
    if unit == 0 || hundredths < unit {
        return b' ';
    }
    b'0' + (hundredths / unit % 10) as u8
}

/// Tells how far a long job or a loop is, on one line of a terminal that is written anew; without a terminal it tells
/// nothing.
#[derive(Drop)]
pub struct Progress<'a, W: Write + Drop> {
    alloc: Global,
    line: &'a Line,
    terminal: Option<W>,
    nodes: Nodes,
}

impl<'a, W: Write + Drop> Progress<'a, W> {
    /// Shows on this line of this terminal.
    pub fn new(alloc: Global, line: &'a Line, terminal: Option<W>) -> Self {
        Progress {
            alloc,
            line,
            terminal,
            nodes: Nodes::new(),
        }
    }

    /// So many of all lines were run.
    pub fn ran(&mut self, lines: u64, all: u64) {
        if all >= LONG {
            self.line
                .show(&mut self.terminal, lines.saturating_mul(100) / all);
        }
    }

    /// Empties the line, where something is shown.
    pub fn clear(&mut self) {
        self.line.clear(&mut self.terminal);
    }
}

impl<W: Write + Print + Drop> Progress<'_, W> {
    /// The node of a loop in this place has so many packets done, where all nodes have so many, and this gateway is its
    /// favourite. A line is written where the hundredths of all packets or a favourite are others than before.
    pub fn turned(&self, place: usize, done: u64, all: u64, favourite: u8) {
        let Some(terminal) = &self.terminal else {
            return;
        };
        let has_moved = self.nodes.turned(place, done, favourite);
        let done = self.nodes.done();
        let is_further = self.line.turn_to(done.saturating_mul(100) / all.max(1));
        if !has_moved && !is_further {
            return;
        }
        if let Ok(line) = self.nodes.line(self.alloc, done, all) {
            let _ = Print::write_all(terminal, line.as_bytes());
        }
    }
}

/// A sink that empties the line of a terminal before it writes, so that nothing stands behind what was shown. It tells
/// what the sink behind it tells.
#[derive(Drop)]
pub struct BehindProgress<'a, K: Sink + Drop, W: Write + Drop> {
    sink: K,
    line: &'a Line,
    terminal: Option<W>,
}

impl<'a, K: Sink + Drop, W: Write + Drop> BehindProgress<'a, K, W> {
    /// This sink, behind this line of this terminal.
    pub fn new(sink: K, line: &'a Line, terminal: Option<W>) -> Self
        ensures { result.sink ≡ sink }
    {
        BehindProgress {
            sink,
            line,
            terminal,
        }
    }
}

impl<K: Sink + Drop, W: Write + Drop> Sink for BehindProgress<'_, K, W> {
    ghost written = { λ s. K.written s.sink };

    ghost faults = { λ s. K.faults s.sink };

    fn put(&mut self, from: &[u8]) -> Result<usize, Failed> {
        self.line.clear(&mut self.terminal);
        self.sink.put(from)
    }
}
