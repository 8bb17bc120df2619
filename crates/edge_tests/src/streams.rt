use crate::disk::{holds, lay, opened_behind};
use cgf_edge::{BehindProgress, FileSource, Line, Progress, ReaderSource, WriterSink};
use gw_base::{Failed, Sink, Source};
use std::alloc::Global;
use std::fmt::Display;
use std::fs::{File, Files};
use std::io;
use std::io::{Print, Read, Write};
use std::process::Abort;

/// A reader that is interrupted, gives two octets, fails once, and then is at its end.
#[derive(Drop)]
struct FaultyReader {
    calls: u8,
}

impl Read for FaultyReader {
    fn read(&mut self, into: &mut [u8]) -> io::Result<usize> {
        self.calls = self.calls.saturating_add(1);
        if self.calls <= 2 {
            return Err(io::Error::from(io::ErrorKind::Interrupted));
        }
        if self.calls == 4 {
            return Err(io::Error::from(io::ErrorKind::Other));
        }
        match into {
            [first, second, ..] if self.calls == 3 => {
                *first = 7;
                *second = 9;
                Ok(2)
            }
            _ => Ok(0),
        }
    }
}

/// A writer that is interrupted at each other call, takes one octet at the others, and keeps the last.
#[derive(Drop)]
struct SlowWriter {
    calls: u8,
    last: u8,
}

impl Write for SlowWriter {
    fn write(&mut self, from: &[u8]) -> io::Result<usize> {
        self.calls = self.calls.saturating_add(1);
        if self.calls % 2 == 1 {
            return Err(io::Error::from(io::ErrorKind::Interrupted));
        }
        match from {
            [] => Ok(0),
            [first, ..] => {
                self.last = *first;
                Ok(1)
            }
        }
    }

    fn flush(&mut self) -> io::Result<()> {
        Ok(())
    }
}

/// What a source says that it took.
fn takes<S: Source>(
    rt: &impl Abort,
    source: &mut S,
    into: &mut [u8],
    taken: Result<usize, Failed>,
) {
    assert_eq!(rt; source.take(into), taken);
}

#[test]
fn a_reader_that_fails_is_not_at_its_end_and_an_interruption_is_no_fault(rt: HostRuntime) {
    let mut source = ReaderSource::new(FaultyReader { calls: 0 });
    let mut into = [0; 4];
    takes(&rt, &mut source, &mut into, Ok(2));
    assert_eq!(rt; into, [7, 9, 0, 0]);
    takes(&rt, &mut source, &mut into, Err(Failed));
    takes(&rt, &mut source, &mut into, Ok(0));
}

/// How many octets each piece of a file has, and what stands at the end of the room for them then.
const PIECES: [(usize, u8); 5] = [(10, b'1'), (10, b'2'), (5, b'2'), (0, b'2'), (0, b'2')];

/// Takes the next piece.
fn takes_piece<S: Source>(
    rt: &impl Abort,
    source: &mut S,
    into: &mut [u8; 10],
    (count, last): (usize, u8),
) {
    takes(rt, source, into, Ok(count));
    assert_eq!(rt; into[9], last);
}

#[test]
fn a_file_is_read_on_from_piece_to_piece(rt: HostRuntime) {
    lay(&rt, "pieces", "1111111111222222222222222");
    let mut source = FileSource::new(&rt, "pieces");
    let mut into = [0; 10];
    for piece in PIECES {
        takes_piece(&rt, &mut source, &mut into, piece);
    }
}

/// What stands at a path can't be read.
fn is_no_file<R: Files<File = File> + Abort>(rt: &R, path: &str) {
    let mut source = FileSource::new(rt, path);
    let mut into = [0; 10];
    assert!(rt; source.take(&mut into).is_err(), "{path}");
    assert!(rt; source.take(&mut into).is_err(), "{path}");
}

#[test]
fn what_cannot_be_read_as_a_file_is_a_fault(rt: HostRuntime) {
    is_no_file(&rt, "missing");
    is_no_file(&rt, ".");
}

/// Puts octets.
fn puts<K: Sink>(rt: &impl Abort, sink: &mut K, octets: &str, put: Result<usize, Failed>) {
    assert_eq!(rt; sink.put(octets.as_bytes()), put, "{octets}");
}

#[test]
fn a_sink_says_how_much_was_written_and_what_was_not(rt: HostRuntime) {
    let mut sink = WriterSink::new(SlowWriter { calls: 0, last: 0 });
    puts(&rt, &mut sink, "abc", Ok(1));
    puts(&rt, &mut sink, "bc", Ok(1));
    puts(&rt, &mut sink, "", Ok(0));
    let mut sink = WriterSink::new(opened_behind(&rt, "/dev/full"));
    puts(&rt, &mut sink, "abc", Err(Failed));
    puts(&rt, &mut sink, "abc", Err(Failed));
}

/// One more handle of a file.
fn cloned(rt: &impl Abort, file: &File) -> File {
    match file.try_clone() {
        Ok(file) => file,
        Err(_) => panic!(rt; "no further handle"),
    }
}

/// How many lines were run, and of how many.
const RUNS: [(u64, u64); 5] = [
    (50_000, 99_999),
    (0, 200_000),
    (1_999, 200_000),
    (2_000, 200_000),
    (199_999, 200_000),
];

fn run_all(progress: &mut Progress<'_, File>) {
    for (lines, all) in RUNS {
        progress.ran(lines, all);
    }
}

/// Runs once more, and clears the line each time.
fn clear(progress: &mut Progress<'_, File>) {
    progress.clear();
    progress.ran(100_000, 200_000);
    progress.clear();
    progress.clear();
}

/// Runs where there is no terminal.
fn run_unseen(alloc: Global, line: &Line) {
    let mut nowhere: Progress<'_, SlowWriter> = Progress::new(alloc, line, None);
    nowhere.ran(1, 200_000);
    nowhere.clear();
}

/// A long job is shown in hundredths on one line, which is written anew where they change. It is empty before the first
/// octet of the report, which goes to the same terminal, and at the end. A short job isn't shown, and none is where
/// there is no terminal.
#[test]
fn a_long_job_is_shown_on_a_terminal_and_cleared_before_the_report(rt: HostRuntime) {
    let terminal = opened_behind(&rt, "shown");
    let line = Line::new();
    let mut sink = BehindProgress::new(
        WriterSink::new(cloned(&rt, &terminal)),
        &line,
        Some(cloned(&rt, &terminal)),
    );
    let mut progress = Progress::new(rt.alloc(), &line, Some(terminal));
    run_all(&mut progress);
    puts(&rt, &mut sink, "report\n", Ok(7));
    puts(&rt, &mut sink, "report\n", Ok(7));
    clear(&mut progress);
    holds(
        &rt,
        "shown",
        "\rcgf:   0 %\rcgf:   1 %\rcgf:  99 %\r\x1b[Kreport\nreport\n\rcgf:  50 %\r\x1b[K",
    );
    run_unseen(rt.alloc(), &line);
}

/// A terminal that is a file.
#[derive(Drop)]
struct Paper(File);

impl Write for Paper {
    fn write(&mut self, from: &[u8]) -> io::Result<usize> {
        self.0.write(from)
    }

    fn flush(&mut self) -> io::Result<()> {
        self.0.flush()
    }
}

impl Print for Paper {
    fn print<D: Display + Drop>(&self, value: D) -> io::Result<()> {
        let mut file = &self.0;
        write!(file, "{value}")
    }

    fn println<D: Display + Drop>(&self, value: D) -> io::Result<()> {
        let mut file = &self.0;
        writeln!(file, "{value}")
    }

    fn write_all(&self, bytes: &[u8]) -> io::Result<()> {
        let mut file = &self.0;
        file.write_all(bytes)
    }
}

/// The place of a node, how many packets it has done, and its favourite.
const TURNS: [(usize, u64, u8); 6] = [
    (0, 0, 0),
    (1, 1, 1),
    (0, 1, 0),
    (0, 2, 0),
    (0, 2, 1),
    (8, 9, 0),
];

/// The line of a loop says how many packets are done of all, and which gateway each node holds for its favourite. It is
/// written anew where the hundredths of all packets or a favourite change.
#[test]
fn nodes_of_a_loop_are_shown_on_a_terminal(rt: HostRuntime) {
    let line = Line::new();
    let terminal = Paper(opened_behind(&rt, "nodes"));
    let mut progress = Progress::new(rt.alloc(), &line, Some(terminal));
    for (place, done, favourite) in TURNS {
        progress.turned(place, done, 200, favourite);
    }
    progress.clear();
    holds(
        &rt,
        "nodes",
        "\rcgf:    0 of 200 packets done, favourites 1\
\rcgf:    1 of 200 packets done, favourites 1 2\
\rcgf:    2 of 200 packets done, favourites 1 2\
\rcgf:    3 of 200 packets done, favourites 2 2\r\x1b[K",
    );
}
