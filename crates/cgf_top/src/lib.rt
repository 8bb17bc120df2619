//! The job of the program, over any source and any sink.
//!
//! The contract is that of `run_cgf`: which command the words ask for, and all that it does. The commands are those of
//! `cgf_jobs`, with the definitions of what each does.
//!
//!     let ended = run_cgf(&rt, alloc, &words, &mut source, &mut sink, area, shelf, &mut links, &mut clock);
#![tactic(auto)]

ghost use Rattle.std.specs.Prelude.{◌≡◌, ◌<◌, ◌≤◌, ◌^◌, Some, false, true, None, map, string_bytes};
ghost use Rattle.gate_journal.specs.Format.{fewest_octets, most_octets};
ghost use Rattle.gw_base.specs.declared.address.Addr.{Addr};
ghost use Rattle.cgf_jobs.specs.Command.{command_of};
ghost use Rattle.cgf_jobs.specs.Ending.{DoesJob, WordsDecide};
ghost use Rattle.cgf_jobs.specs.Job.{job_of};
ghost use Rattle.cgf_jobs.specs.NetworkReport.{HandsNetwork};
ghost use Rattle.cgf_jobs.specs.Run.{may_have_written};
ghost use Rattle.cgf_service.specs.ServeEnds.{IsUntouched, Serves};
ghost use Rattle.cgf_service.specs.Serving.{serving_of};
ghost use Rattle.cgf_service.specs.StreamEnds.{Streams, may_have_used};
ghost use Rattle.cgf_service.specs.Streaming.{streaming_of};
ghost use Rattle.cgf_service.specs.declared.serving.Serving.{Serving};
ghost use Rattle.cgf_service.specs.declared.streaming.Streaming.{Streaming};
ghost use Rattle.cgf_top.specs.LoopEnds.{IsNoLoop, LoopsBy};
ghost use Rattle.cgf_top.specs.Looping.{looping_of};
ghost use Rattle.cgf_top.specs.OverFiles.{is_over_files};

mod looping;
mod watch;

use crate::looping::{loop_back, looping_of};
use crate::watch::Nobody;
use area_disk::Area;
use cdr_shelf::Shelf;
use cgf_jobs::{JobEnd, do_job};
pub use cgf_jobs::{InputKind, NodeTurn, Played, Status, StoreFault, Watch};
use cgf_service::{GatewayEnd, Serving, Streaming, serve_gateway, stream_gateway};
pub use cgf_service::{ServePlaces, StreamPlaces, serve_places, stream_places, tcp_address};
use gw_base::{Sink, Source};
pub use loop_run::Looped;
use net_link::Links;
use std::alloc::Global;
use std::sync::Wait;
use std::thread::Threads;
use std::time::Clock;

/// How a job ended, and what it ran.
#[derive(Drop)]
pub struct Ended<A: Area, F: Shelf> {
    /// How it ended.
    pub status: Status,
    /// The area that was handed in, as the job left it. `serve` and `stream` alone use it.
    pub area: A,
    /// The shelf that was handed in, in the same way.
    pub shelf: F,
    /// The books and the nodes of a loop that ran, also where its report wasn't written. Both lists are empty for every
    /// other job, where a link failed, and where there was no memory for the loop.
    pub looped: Looped,
    /// The network of a `replay` or a `drill` that is done: its areas, its shelves and its nodes.
    pub played: Option<Played>,
}

/// Does what the words ask, with the source as their file: `feed FILE` reads a script, feeds a gateway with its
/// datagrams, and writes the reply to each or why it is dropped, the CDR files and the gateway's counts to the sink;
/// `show FILE` reads a CDR file and writes its listing; `replay FILE` reads a script, runs gateways and nodes by its
/// lines, and writes each message, what becomes of it, and at the end all files and counts. `sample SEED NODES GATEWAYS
/// PACKETS` reads nothing, and writes the script that the seed gives; `drill SEED NODES GATEWAYS PACKETS` runs that
/// script, and writes what all gateways and nodes count together then.
///
/// `serve IP PORT TURNS LENGTH AREA FOLDER` reads settings, opens the area and the shelf that were handed in, serves at
/// the address with four sessions on threads for so many turns of its link, settles, and writes the gateway's counts. The
/// area, the shelf and the clock are its own; every other job but `stream` leaves them as they are.
///
/// `stream IP NODE LENGTH AREA FOLDER FILE` opens a gateway on the area and the shelf that were handed in, with the
/// default settings, and reads octets: each message of GTP' among them counts as sent from NODE, and is answered. The
/// replies are written, each once it is firm, and nothing else; at the end of the octets the gateway settles. Where they
/// are bad, end within a message, or are 2^40, the place is named, behind the replies to the messages before it.
///
/// `loopback GATEWAYS NODES PACKETS TURNS` lets gateways and nodes of this machine run against one another, on threads, up
/// to so many turns of each node, and looks whether each packet stands once. It writes what all count where it does. The
/// links are its own, and those of `serve`.
///
/// A network that ran to its end is handed back, and a loop that did; the area and the shelf always are.
///
/// The area has 100 to 268,435,456 octets. The numbers of the words have the ranges of docs/formats/scripts.md and
/// docs/OPERATING.md.
///
/// An input that the grammar refuses writes nothing. A line of a script that can't be run, since it sets a moment before
/// the present one, or the world refuses it, ends the job: what was printed for the lines before it is written.
pub fn run_cgf<
    S: Source,
    K: Sink,
    A: Area + Send,
    F: Shelf + Send,
    L: Links,
    C: gw_base::Clock,
    R: Threads + Wait + Clock + Sync,
>(
    rt: &R,
    alloc: Global,
    words: &[String],
    source: &mut S,
    sink: &mut K,
    area: A,
    shelf: F,
    links: &mut L,
    clock: &mut C,
) -> Ended<A, F>
where
    L::Link: Send,
    requires long { fewest_octets ≤ A.size area }
    requires short { A.size area ≤ most_octets }
    requires turns { (at : Addr) → (L.state links.old).turns at < 2 ^ 63 }

    // A replay that is done hands back the network that its script is. In the files of all its gateways each record of
    // each packet that its node ever resolved stands at exactly one place of its own, and each record of any other
    // packet at one at most; no copy that is held or was cancelled puts one there, and the files have no other record.
    // Each file is sealed, and no shelf has another. What its lines print, which `job` says is written, ends with these
    // files. A drill prints sums instead; all else holds of it too, for the script of its seed. Of a replay it holds
    // where the source tells the script. docs/PROMISES.md (The headline) reads the definitions aloud.
    ensures once { HandsNetwork (map string_bytes words.now) (S.left source.old) result.status result.played }
    // A gateway that served hands back the area of a history that has grown from the one handed in by answers to
    // datagrams that its links received, and the shelf with just its files, stream by stream; each reply that they sent
    // rests on it. However it ends, neither the history that was handed in nor what was answered is lost, and the shelf
    // has the first ones of the files of a history that goes on, if it had those of the one before.
    ensures serves { (of : Serving) → serving_of (map string_bytes words.now) ≡ Some of → Serves A.Area F.Shelf of
        (job_of S.Source K.Sink (map string_bytes words.now) source.old source.new sink.old sink.new)
        area result.area shelf result.shelf (L.state links.old) (L.state links.new) (C.faults clock.old)
        (C.faults clock.new) result.status result.played }
    // A gateway that answered a stream has written the replies to its messages, however the source cut it into pieces, and
    // at `Done` hands back the area of the history that these left, and the shelf with just its files. However it ends,
    // nothing that was answered is lost, and of the files it is as with `serves`.
    ensures streams { (of : Streaming) → streaming_of (map string_bytes words.now) ≡ Some of →
        (links.new ≡ links.old) × Streams A.Area F.Shelf of
        (job_of S.Source K.Sink (map string_bytes words.now) source.old source.new sink.old sink.new)
        area result.area shelf result.shelf (C.faults clock.old) (C.faults clock.new) result.status result.played }
    // A loop hands back nodes that are what they are by what they heard, and books of the answers to what their gateways
    // heard; and these decide how it ends. It reads nothing. Every other job hands back none.
    ensures loops { LoopsBy source.old source.new area result.area shelf result.shelf clock.old clock.new
        (job_of S.Source K.Sink (map string_bytes words.now) source.old source.new sink.old sink.new)
        (L.state links.old) (L.state links.new) result.status result.looped result.played
        (looping_of (map string_bytes words.now)) }
    // Every other job, and a `serve` that ends before its gateway is opened, leaves the outside as it is.
    ensures outside { may_have_used (serving_of (map string_bytes words.now))
        (streaming_of (map string_bytes words.now)) result.status ≡ false →
        looping_of (map string_bytes words.now) ≡ None →
        IsUntouched area result.area shelf result.shelf links.old links.new clock.old clock.new }
    // What was read and written, what is handed back, and why every other job ended so.
    ensures job { is_over_files (map string_bytes words.now) ≡ true → DoesJob
        (job_of S.Source K.Sink (map string_bytes words.now) source.old source.new sink.old sink.new)
        result.status result.played }
    // Words that are none of the forms end as `Words`, and no others do, unless there is no memory to parse them. Nothing
    // is read of them, nor where the command has no input. But for a stream, nothing is written but at `Done`, at
    // `Write`, and at a line that can't be run.
    ensures words { is_over_files (map string_bytes words.now) ≡ true →
        WordsDecide (command_of (map string_bytes words.now)) result.status source.old source.new }
    ensures untouched { streaming_of (map string_bytes words.now) ≡ None → may_have_written result.status ≡ false →
        sink.new ≡ sink.old }
{
    run_watched(
        rt,
        alloc,
        words,
        source,
        sink,
        area,
        shelf,
        links,
        clock,
        &mut Nobody,
    )
}

/// The same, and tells `watch` how far the lines of a network and the nodes of a loop are.
pub fn run_watched<
    S: Source,
    K: Sink,
    A: Area + Send,
    F: Shelf + Send,
    L: Links,
    C: gw_base::Clock,
    W: Watch + Sync,
    R: Threads + Wait + Clock + Sync,
>(
    rt: &R,
    alloc: Global,
    words: &[String],
    source: &mut S,
    sink: &mut K,
    area: A,
    shelf: F,
    links: &mut L,
    clock: &mut C,
    watch: &mut W,
) -> Ended<A, F>
where
    L::Link: Send,
    requires long { fewest_octets ≤ A.size area }
    requires short { A.size area ≤ most_octets }
    requires turns { (at : Addr) → (L.state links.old).turns at < 2 ^ 63 }
    ensures once { HandsNetwork (map string_bytes words.now) (S.left source.old) result.status result.played }
    ensures serves { (of : Serving) → serving_of (map string_bytes words.now) ≡ Some of → Serves A.Area F.Shelf of
        (job_of S.Source K.Sink (map string_bytes words.now) source.old source.new sink.old sink.new)
        area result.area shelf result.shelf (L.state links.old) (L.state links.new) (C.faults clock.old)
        (C.faults clock.new) result.status result.played }
    ensures streams { (of : Streaming) → streaming_of (map string_bytes words.now) ≡ Some of →
        (links.new ≡ links.old) × Streams A.Area F.Shelf of
        (job_of S.Source K.Sink (map string_bytes words.now) source.old source.new sink.old sink.new)
        area result.area shelf result.shelf (C.faults clock.old) (C.faults clock.new) result.status result.played }
    ensures loops { LoopsBy source.old source.new area result.area shelf result.shelf clock.old clock.new
        (job_of S.Source K.Sink (map string_bytes words.now) source.old source.new sink.old sink.new)
        (L.state links.old) (L.state links.new) result.status result.looped result.played
        (looping_of (map string_bytes words.now)) }
    ensures outside { may_have_used (serving_of (map string_bytes words.now))
        (streaming_of (map string_bytes words.now)) result.status ≡ false →
        looping_of (map string_bytes words.now) ≡ None →
        IsUntouched area result.area shelf result.shelf links.old links.new clock.old clock.new }
    ensures job { is_over_files (map string_bytes words.now) ≡ true → DoesJob
        (job_of S.Source K.Sink (map string_bytes words.now) source.old source.new sink.old sink.new)
        result.status result.played }
    ensures words { is_over_files (map string_bytes words.now) ≡ true →
        WordsDecide (command_of (map string_bytes words.now)) result.status source.old source.new }
    ensures untouched { streaming_of (map string_bytes words.now) ≡ None → may_have_written result.status ≡ false →
        sink.new ≡ sink.old }
{
    match Serving::of(words) {
        Some(serving) => {
            let GatewayEnd {
                status,
                area,
                shelf,
            } = serve_gateway(rt, alloc, serving, source, sink, area, shelf, links, clock);
            Ended {
                status,
                area,
                shelf,
                looped: Looped::none(alloc),
                played: None,
            }
        }
        None => run_unserved(
            rt, alloc, words, source, sink, area, shelf, links, clock, watch,
        ),
    }
}

/// The same where the words aren't those of `serve`.
fn run_unserved<
    S: Source,
    K: Sink,
    A: Area,
    F: Shelf,
    L: Links,
    C: gw_base::Clock,
    W: Watch + Sync,
    R: Threads + Wait + Clock + Sync,
>(
    rt: &R,
    alloc: Global,
    words: &[String],
    source: &mut S,
    sink: &mut K,
    area: A,
    shelf: F,
    links: &mut L,
    clock: &mut C,
    watch: &mut W,
) -> Ended<A, F>
where
    L::Link: Send,
    requires long { fewest_octets ≤ A.size area }
    requires short { A.size area ≤ most_octets }
    requires turns { (at : Addr) → (L.state links.old).turns at < 2 ^ 63 }
    ensures once { HandsNetwork (map string_bytes words.now) (S.left source.old) result.status result.played }
    ensures streams { (of : Streaming) → streaming_of (map string_bytes words.now) ≡ Some of →
        (links.new ≡ links.old) × Streams A.Area F.Shelf of
        (job_of S.Source K.Sink (map string_bytes words.now) source.old source.new sink.old sink.new)
        area result.area shelf result.shelf (C.faults clock.old) (C.faults clock.new) result.status result.played }
    ensures loops { LoopsBy source.old source.new area result.area shelf result.shelf clock.old clock.new
        (job_of S.Source K.Sink (map string_bytes words.now) source.old source.new sink.old sink.new)
        (L.state links.old) (L.state links.new) result.status result.looped result.played
        (looping_of (map string_bytes words.now)) }
    ensures outside { streaming_of (map string_bytes words.now) ≡ None →
        looping_of (map string_bytes words.now) ≡ None →
        IsUntouched area result.area shelf result.shelf links.old links.new clock.old clock.new }
    ensures job { streaming_of (map string_bytes words.now) ≡ None → looping_of (map string_bytes words.now) ≡ None →
        DoesJob (job_of S.Source K.Sink (map string_bytes words.now) source.old source.new sink.old sink.new)
        result.status result.played }
    ensures words { streaming_of (map string_bytes words.now) ≡ None → looping_of (map string_bytes words.now) ≡ None →
        WordsDecide (command_of (map string_bytes words.now)) result.status source.old source.new }
    ensures untouched { streaming_of (map string_bytes words.now) ≡ None → may_have_written result.status ≡ false →
        sink.new ≡ sink.old }
{
    match looping_of(words) {
        Some(setup) => {
            let (status, looped) = loop_back(rt, alloc, setup, sink, links, watch);
            Ended {
                status,
                area,
                shelf,
                looped,
                played: None,
            }
        }
        None => run_on_one(alloc, words, source, sink, area, shelf, clock, watch),
    }
}

/// The same without threads: answers a stream, or does a job over files.
fn run_on_one<S: Source, K: Sink, A: Area, F: Shelf, C: gw_base::Clock, W: Watch>(
    alloc: Global,
    words: &[String],
    source: &mut S,
    sink: &mut K,
    area: A,
    shelf: F,
    clock: &mut C,
    watch: &mut W,
) -> Ended<A, F>
    requires long { fewest_octets ≤ A.size area }
    requires short { A.size area ≤ most_octets }
    ensures once { HandsNetwork (map string_bytes words.now) (S.left source.old) result.status result.played }
    ensures streams { (of : Streaming) → streaming_of (map string_bytes words.now) ≡ Some of → Streams A.Area F.Shelf of
        (job_of S.Source K.Sink (map string_bytes words.now) source.old source.new sink.old sink.new)
        area result.area shelf result.shelf (C.faults clock.old) (C.faults clock.new) result.status result.played }
    ensures outside { streaming_of (map string_bytes words.now) ≡ None →
        (result.area ≡ area) × (result.shelf ≡ shelf) × (clock.new ≡ clock.old) }
    ensures no_loop { IsNoLoop result.looped }
    ensures job { streaming_of (map string_bytes words.now) ≡ None → DoesJob
        (job_of S.Source K.Sink (map string_bytes words.now) source.old source.new sink.old sink.new)
        result.status result.played }
    ensures words { streaming_of (map string_bytes words.now) ≡ None →
        WordsDecide (command_of (map string_bytes words.now)) result.status source.old source.new }
    ensures untouched { streaming_of (map string_bytes words.now) ≡ None → may_have_written result.status ≡ false →
        sink.new ≡ sink.old }
{
    match Streaming::of(words) {
        Some(streaming) => {
            let GatewayEnd {
                status,
                area,
                shelf,
            } = stream_gateway(alloc, streaming, source, sink, area, shelf, clock);
            Ended {
                status,
                area,
                shelf,
                looped: Looped::none(alloc),
                played: None,
            }
        }
        None => {
            let JobEnd { status, played } = do_job(alloc, words, source, sink, watch);
            Ended {
                status,
                area,
                shelf,
                looped: Looped::none(alloc),
                played,
            }
        }
    }
}
