//! The top call with a sink over a writer, as the program has it.

use crate::job::{source, unused_area, unused_links, words_of};
use cdr_shelf::QuietShelf;
use cgf_edge::{SystemClock, WriterSink};
use cgf_top::{InputKind, Status, run_cgf};
use std::alloc::Global;
use std::io;
use std::io::Write;
use std::process::Abort;
use std::sync::Wait;
use std::thread::Threads;
use std::time::Clock;

/// A writer that takes 20 octets a call, and fails at its third call and from then on.
#[derive(Drop)]
struct FullWriter {
    calls: u8,
}

impl Write for FullWriter {
    fn write(&mut self, from: &[u8]) -> io::Result<usize> {
        self.calls = self.calls.saturating_add(1);
        if self.calls > 2 {
            return Err(io::Error::from(io::ErrorKind::Other));
        }
        Ok(from.len().min(20))
    }

    fn flush(&mut self) -> io::Result<()> {
        Ok(())
    }
}

/// How a job over this script ends, whose sink fails in the middle.
fn ended<R: Abort + Threads + Wait + Clock + Sync + Alloc<A = Global>>(
    rt: &R,
    script: &str,
) -> Status {
    let alloc = rt.alloc();
    let words = words_of(rt, alloc, &["feed", "-"]);
    let mut source = source(rt, alloc, script.as_bytes(), 7, &[]);
    let mut sink = WriterSink::new(FullWriter { calls: 0 });
    let area = unused_area(rt, alloc);
    let mut links = unused_links(rt, alloc);
    let mut clock = SystemClock::new(rt);
    let ended = run_cgf(
        rt,
        alloc,
        &words,
        &mut source,
        &mut sink,
        area,
        QuietShelf::new(alloc),
        &mut links,
        &mut clock,
    );
    ended.status
}

/// What is printed for the one script has more than 40 octets, and for the other 27 before the line that goes back.
#[test]
fn a_sink_that_fails_in_the_middle_ends_the_job(rt: HostRuntime) {
    assert_eq!(&rt; ended(&rt, "end\n"), Status::Write);
    let back_in_time = "at 5\nin 10.0.1.1:40001 4EF0000500007E02FC0000\nat 4\nend\n";
    let earlier = Status::Input {
        place: 3,
        kind: InputKind::Earlier,
    };
    assert_eq!(&rt; ended(&rt, back_in_time), earlier);
}
