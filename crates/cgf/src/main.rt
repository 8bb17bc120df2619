//! The program: it makes the real input and output, hands them to the top call, and tells how that
//! ended.
//!
//! It has no model of its own. The adapters over readers and writers are those of `cgf_edge`; the exit
//! code is the number of the status.
#![tactic(auto)]

ghost use Rattle.std.specs.Prelude.{◌≡◌, ◌≢◌, ◌⊎◌, ◌≤◌, None, Some, map, string_bytes, true};
ghost use Rattle.std.specs.Io.KnownBytes.{Appends};
ghost use Rattle.std.specs.Process.{exit_status};
ghost use Rattle.gate_journal.specs.Format.{fewest_octets, most_octets};
ghost use Rattle.cgf_jobs.specs.Command.{command_of};
ghost use Rattle.cgf_jobs.specs.Ending.{HasCause, WordsDecide};
ghost use Rattle.cgf_jobs.specs.Job.{job_of};
ghost use Rattle.cgf_jobs.specs.Run.{HasRead, is_reported, report_of, status_number};
ghost use Rattle.cgf_service.specs.ServeEnds.{IsGatewayEnd};
ghost use Rattle.cgf_service.specs.Serving.{serving_of};
ghost use Rattle.cgf_service.specs.declared.serving.Serving.{Serving};
ghost use Rattle.cgf_service.specs.declared.streaming.Streaming.{Streaming};
ghost use Rattle.cgf_top.specs.OverFiles.{is_over_files};
ghost use Rattle.cgf_service.specs.Streaming.{streaming_of};

use area_disk::{Area, QuietArea};
use cdr_shelf::{QuietShelf, Shelf};
use cgf_edge::{
    BehindProgress, FileArea, FileSource, FolderShelf, Line, Progress, ReaderSource, SystemClock,
    Trouble, WriterSink, accept,
};
use cgf_top::{
    Ended, NodeTurn, Status, StreamPlaces, Watch, run_watched, serve_places, stream_places,
    tcp_address,
};
use gw_base::{Sink, Source};
use net_link::UdpLinks;
use std::env;
use std::io::{ErrorKind, IsTerminal, Print, Stderr, Write};
use std::process::ExitCode;
use std::sync::Wait;
use std::thread::Threads;
use std::time::Clock;

/// The word that names the standard input.
const STANDARD_INPUT: &str = "-";

fn main(rt: HostRuntime) -> ExitCode {
    let status = match words(&rt) {
        Ok(words) => run(&rt, &rt, &words),
        Err(status) => status,
    };
    ended(&rt, status)
}

/// Says on the standard error how the job ended, where it isn't done, and gives the exit code.
fn ended(rt: &HostRuntime, status: Status) -> ExitCode
    ensures { exit_status result ≡ status_number status }
{
    if status != Status::Done {
        let _ = eprintln!(rt; "{status}");
    }
    ExitCode::from(status.number())
}

/// The words after the program's name.
fn words(rt: &HostRuntime) -> Result<Vec<String>, Status> {
    let all = env::args(rt).map_err(|error| without_words(error.kind()))?;
    let mut words = Vec::new(rt.alloc());
    for word in all.skip(1) {
        words.push(word).map_err(|_| Status::Memory)?;
    }
    Ok(words)
}

/// How the job ends where the words can't be had. Words that aren't text are none of the forms.
fn without_words(kind: ErrorKind) -> Status
    ensures memory { kind ≡ ErrorKind.OutOfMemory → result ≡ Status.Memory }
    ensures words { kind ≢ ErrorKind.OutOfMemory → result ≡ Status.Words }
{
    match kind {
        ErrorKind::OutOfMemory => Status::Memory,
        _ => Status::Words,
    }
}

/// How many octets the area has of a job that uses none.
const UNUSED: u64 = 100;

/// Runs the job. Its outside is real: links over UDP and the system's clock, and for `serve` and `stream` the area in the
/// file and the shelf in the folder that their words name, both opened once they are used. `main` alone can hand on the
/// threads of its handle, so they come as a handle of their own.
fn run<R: Threads + Wait + Clock + Sync>(threads: &R, rt: &HostRuntime, words: &[String]) -> Status
    ensures words { result ≡ Status.Words → (command_of (map string_bytes words.now) ≡ None)
        × (is_over_files (map string_bytes words.now) ≡ true) }
    ensures told { command_of (map string_bytes words.now) ≡ None → is_over_files (map string_bytes words.now) ≡ true →
        (result ≡ Status.Words) ⊎ (result ≡ Status.Memory) }
    ensures serves { (of : Serving) → serving_of (map string_bytes words.now) ≡ Some of → IsGatewayEnd result }
    ensures streams { (of : Streaming) → streaming_of (map string_bytes words.now) ≡ Some of → IsGatewayEnd result }
{
    if let Some(places) = serve_places(words) {
        let places = StreamPlaces {
            length: places.length,
            area: places.area,
            folder: places.folder,
            file: STANDARD_INPUT,
        };
        return run_placed(threads, rt, words, places);
    }
    if let Some(places) = stream_places(words) {
        return run_placed(threads, rt, words, places);
    }
    let Ok(area) = QuietArea::new(rt.alloc(), UNUSED) else {
        return Status::Memory;
    };
    let ended = run_with(
        threads,
        rt,
        words,
        second(words),
        area,
        QuietShelf::new(rt.alloc()),
    );
    ended.status
}

/// The path of the file that a job over files reads, where its words have one.
fn second(words: &[String]) -> Option<&str> {
    match words {
        [_, file] if file.as_str() != STANDARD_INPUT => Some(file.as_str()),
        _ => None,
    }
}

/// Serves, or answers a stream, with a real area and a real shelf. What is read is a file, the standard input, or the one
/// connection that is accepted at an address. Where the area or the shelf failed, one line on the standard error says
/// which, and with what.
fn run_placed<R: Threads + Wait + Clock + Sync>(
    threads: &R,
    rt: &HostRuntime,
    words: &[String],
    places: StreamPlaces<'_>,
) -> Status
    requires long { fewest_octets ≤ places.length }
    requires short { places.length ≤ most_octets }
    ensures words { result ≡ Status.Words → (command_of (map string_bytes words.now) ≡ None)
        × (is_over_files (map string_bytes words.now) ≡ true) }
    ensures serves { (of : Serving) → serving_of (map string_bytes words.now) ≡ Some of → IsGatewayEnd result }
    ensures streams { (of : Streaming) → streaming_of (map string_bytes words.now) ≡ Some of → IsGatewayEnd result }
{
    let Ok(shelf) = FolderShelf::new(rt.alloc(), rt, places.folder) else {
        return Status::Memory;
    };
    let area = FileArea::new(rt.alloc(), rt, places.area, places.length);
    let ended = match tcp_address(places.file.as_bytes()) {
        Some(at) => {
            let (mut source, mut sink) = accept(rt, at);
            let line = Line::new();
            let mut watch = Shown(Progress::new(rt.alloc(), &line, terminal(rt)));
            run_over(
                threads,
                rt,
                words,
                &mut source,
                &mut sink,
                area,
                shelf,
                &mut watch,
            )
        }
        None if places.file == STANDARD_INPUT => run_with(threads, rt, words, None, area, shelf),
        None => run_with(threads, rt, words, Some(places.file), area, shelf),
    };
    tell(rt, "area", places.area, ended.area.trouble());
    tell(rt, "folder", places.folder, ended.shelf.trouble());
    ended.status
}

/// Says on the standard error what an object has failed with, where it has.
fn tell(rt: &HostRuntime, object: &str, path: &str, trouble: Option<Trouble>) {
    if let Some(trouble) = trouble {
        let _ = eprintln!(rt; "cgf: {object} {path}: {trouble}");
    }
}

/// Runs the job over the file at a path, which is opened once it is to be read, or the standard input, with this area and
/// this shelf. Where the standard error is a terminal, it shows there how far a long job is, and the line is empty before
/// anything is written.
fn run_with<A: Area + Send, F: Shelf + Send, R: Threads + Wait + Clock + Sync>(
    threads: &R,
    rt: &HostRuntime,
    words: &[String],
    path: Option<&str>,
    area: A,
    shelf: F,
) -> Ended<A, F>
    requires long { fewest_octets ≤ A.size area }
    requires short { A.size area ≤ most_octets }
    ensures words { result.status ≡ Status.Words → (command_of (map string_bytes words.now) ≡ None)
        × (is_over_files (map string_bytes words.now) ≡ true) }
    ensures told { command_of (map string_bytes words.now) ≡ None → is_over_files (map string_bytes words.now) ≡ true →
        (result.status ≡ Status.Words) ⊎ (result.status ≡ Status.Memory) }
    ensures serves { (of : Serving) → serving_of (map string_bytes words.now) ≡ Some of → IsGatewayEnd result.status }
    ensures streams { (of : Streaming) → streaming_of (map string_bytes words.now) ≡ Some of → IsGatewayEnd result.status }
{
    let line = Line::new();
    let mut sink = BehindProgress::new(WriterSink::new(rt.stdout()), &line, terminal(rt));
    let mut watch = Shown(Progress::new(rt.alloc(), &line, terminal(rt)));
    match path {
        Some(path) => {
            let mut source = FileSource::new(rt, path);
            run_over(
                threads,
                rt,
                words,
                &mut source,
                &mut sink,
                area,
                shelf,
                &mut watch,
            )
        }
        None => {
            let mut source = ReaderSource::new(rt.stdin());
            run_over(
                threads,
                rt,
                words,
                &mut source,
                &mut sink,
                area,
                shelf,
                &mut watch,
            )
        }
    }
}

/// Runs the job over a source and a sink, an area and a shelf, and shows how far it is.
fn run_over<
    S: Source,
    K: Sink,
    A: Area + Send,
    F: Shelf + Send,
    W: Write + Print + Drop + Sync,
    R: Threads + Wait + Clock + Sync,
>(
    threads: &R,
    rt: &HostRuntime,
    words: &[String],
    source: &mut S,
    sink: &mut K,
    area: A,
    shelf: F,
    watch: &mut Shown<'_, W>,
) -> Ended<A, F>
    requires long { fewest_octets ≤ A.size area }
    requires short { A.size area ≤ most_octets }
    ensures words { is_over_files (map string_bytes words.now) ≡ true →
        WordsDecide (command_of (map string_bytes words.now)) result.status source.old source.new }
    ensures known { result.status ≡ Status.Words → is_over_files (map string_bytes words.now) ≡ true }
    ensures report { is_over_files (map string_bytes words.now) ≡ true → is_reported result.status ≡ true →
        let job = job_of S.Source K.Sink (map string_bytes words.now) source.old source.new sink.old sink.new in
        (input : HasRead job result.status) ×
        Appends (K.written sink.old) (K.written sink.new) (report_of input.command input.octets) }
    ensures cause { HasCause result.status (S.faults source.old) (S.faults source.new) (K.faults sink.old)
        (K.faults sink.new) }
    ensures serves { (of : Serving) → serving_of (map string_bytes words.now) ≡ Some of → IsGatewayEnd result.status }
    ensures streams { (of : Streaming) → streaming_of (map string_bytes words.now) ≡ Some of → IsGatewayEnd result.status }
{
    let mut links = UdpLinks::new(rt.alloc(), rt);
    let mut clock = SystemClock::new(rt);
    let ended = run_watched(
        threads,
        rt.alloc(),
        words,
        source,
        sink,
        area,
        shelf,
        &mut links,
        &mut clock,
        watch,
    );
    watch.0.clear();
    ended
}

/// Who shows how far a job is.
#[derive(Drop)]
struct Shown<'a, W: Write + Drop>(Progress<'a, W>);

impl<W: Write + Print + Drop> Watch for Shown<'_, W> {
    fn ran(&mut self, lines: u64, all: u64) {
        self.0.ran(lines, all);
    }

    fn turned(&self, turn: NodeTurn) {
        self.0
            .turned(turn.place, turn.done, turn.all, turn.favourite);
    }
}

/// The standard error, where it is a terminal.
fn terminal(rt: &HostRuntime) -> Option<Stderr> {
    let stderr = rt.stderr();
    if stderr.is_terminal() {
        Some(stderr)
    } else {
        None
    }
}
