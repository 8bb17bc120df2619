//! Jobs beyond what they write for an input, which `story_runs` compares: that words decide before anything is read, in
//! which pieces an input comes, what reads nothing, what a fault of the source or the sink leads to, the line of each
//! status, and a report of a million octets.

ghost use Rattle.std.specs.Prelude.{◌≡◌, ◌≤◌, ◌<◌, ◌^◌};
ghost use Rattle.gate_journal.specs.Format.{fewest_octets, most_octets};
ghost use Rattle.gw_base.specs.declared.address.Addr.{Addr};
ghost use Rattle.net_link.specs.Net.{told_by};

use area_disk::{Area, QuietArea};
use cdr_shelf::QuietShelf;
use cgf_top::{Ended, InputKind, Played, Status, run_cgf};
use gw_base::{MemoryClock, MemorySink, MemorySource, Moment, Octets};
use net_link::{Links, MemoryLinks};
use std::alloc::Global;
use std::process::Abort;
use std::sync::Wait;
use std::thread::Threads;
use std::time::Clock;

/// A script that sends a packet of one record.
const FIRST: &[u8] =
    b"at 1709164800\nin 10.0.1.1:40001 4EF0001000007E01FC000B010106000005A003800105\nend\n";

/// What is printed for it.
const FIRST_REPORT: &[u8] = b"4EF1000700000180FD00020000\n\
file 1 00-0000000001.cdr 0000003D0000003460602E8008002E80080000000001000000010400000000000000000000FFFF\
0A00000100000000000000000000056020A003800105\n\
gateway 1 entries 3 records 1 held 0 stranded 0\n";

/// A CDR file of one record.
const ONE_CDR: &[u8] = b"\
\x00\x00\x00\x3D\x00\x00\x00\x34\x60\x60\x2E\x80\x08\x00\x2E\x80\x08\x00\x00\x00\x00\x01\x00\x00\x00\x01\x04\
\x00\x00\x00\x00\x00\x00\x00\x00\x00\x00\xFF\xFF\x0A\x00\x00\x01\x00\x00\x00\x00\x00\x00\x00\x00\x00\x00\x05\
\x60\x20\xA0\x03\x80\x01\x05";

/// The listing of it.
const LISTING: &[u8] = b"file 61 52 3.0 3.0 02-29/00:00/+00:00 02-29/00:00/+00:00 1 1 4 \
00000000000000000000FFFF0A00000100000000 0\ncdr 1 5 3.0 1 0 A003800105\n";

/// A script whose fourth line sets an earlier moment, behind one reply.
const BACK_IN_TIME: &[u8] = b"at 5\nin 10.0.1.1:40001 4EF0000500007E02FC0000\nat 5\nat 4\n\
in 10.0.1.1:40001 4EF0000500017E02FC0000\nend\n";

/// How a job ended, what it wrote, and how many areas, shelves and nodes it handed back, if a network.
#[derive(Drop)]
pub(crate) struct Done {
    pub(crate) status: Status,
    pub(crate) printed: Vec<u8>,
    pub(crate) handed: Option<(usize, usize, usize)>,
}

/// Words.
pub(crate) fn words_of(rt: &impl Abort, alloc: Global, words: &[&str]) -> Vec<String> {
    let mut given = Vec::new(alloc);
    for word in words {
        put_word(rt, alloc, &mut given, word);
    }
    given
}

/// Puts a word behind others.
fn put_word(rt: &impl Abort, alloc: Global, words: &mut Vec<String>, word: &str) {
    let Ok(word) = String::from_str(alloc, word) else {
        panic!(rt; "no memory for a word")
    };
    let Ok(()) = words.push(word) else {
        panic!(rt; "no memory for words")
    };
}

/// A clock that stands at a moment.
pub(crate) fn clock_at(rt: &impl Abort, alloc: Global, seconds: u64) -> MemoryClock {
    let Some(moment) = Moment::of(seconds) else {
        panic!(rt; "no such moment")
    };
    let Ok(moments) = vec![in alloc; moment] else {
        panic!(rt; "no memory for a moment")
    };
    MemoryClock::new(moments, Vec::new(alloc))
}

/// Does what words ask, over an area and a shelf of which nothing fails, at a moment.
pub(crate) fn run<L: Links, R: Threads + Wait + Clock + Sync + Alloc<A = Global>>(
    rt: &R,
    words: &[String],
    source: &mut MemorySource,
    sink: &mut MemorySink,
    area: QuietArea,
    links: &mut L,
    clock: &mut MemoryClock,
) -> Ended<QuietArea, QuietShelf>
where
    L::Link: Send,
    requires long { fewest_octets ≤ ⟦<QuietArea as Area>⟧.size area }
    requires short { ⟦<QuietArea as Area>⟧.size area ≤ most_octets }
    requires turns { (at : Addr) → (L.state links.old).turns at < 2 ^ 63 }
{
    let shelf = QuietShelf::new(rt.alloc());
    run_cgf(
        rt,
        rt.alloc(),
        words,
        source,
        sink,
        area,
        shelf,
        links,
        clock,
    )
}

/// A source of these octets in pieces of this size, which fails at these calls.
pub(crate) fn source(
    rt: &impl Abort,
    alloc: Global,
    input: &[u8],
    piece: usize,
    fail: &[u64],
) -> MemorySource
    requires { 1 ≤ piece }
{
    let Ok(input) = Octets::of(alloc, input) else {
        panic!(rt; "no memory for an input")
    };
    let Ok(fail) = fail.to_vec(alloc) else {
        panic!(rt; "no memory for calls")
    };
    MemorySource::new(input, piece, fail)
}

/// A sink with room for so many octets, which fails at these calls.
pub(crate) fn sink(rt: &impl Abort, alloc: Global, room: usize, fail: &[u64]) -> MemorySink {
    let Ok(fail) = fail.to_vec(alloc) else {
        panic!(rt; "no memory for calls")
    };
    match MemorySink::new(alloc, room, fail) {
        Ok(sink) => sink,
        Err(_) => panic!(rt; "no memory for what is printed"),
    }
}

/// What a sink was given.
pub(crate) fn printed(rt: &impl Abort, alloc: Global, sink: &MemorySink) -> Vec<u8> {
    match sink.octets().to_vec(alloc) {
        Ok(printed) => printed,
        Err(_) => panic!(rt; "no memory for what was printed"),
    }
}

/// The area of a job that uses none.
pub(crate) fn unused_area(rt: &impl Abort, alloc: Global) -> QuietArea
    ensures { ⟦<QuietArea as Area>⟧.size result ≡ 100 }
{
    match QuietArea::new(alloc, 100) {
        Ok(area) => area,
        Err(_) => panic!(rt; "no memory for an area"),
    }
}

/// The links of a job that uses none.
pub(crate) fn unused_links(rt: &impl Abort, alloc: Global) -> MemoryLinks
    ensures { (at : Addr) → (told_by result).turns at < 2 ^ 63 }
{
    match MemoryLinks::new(alloc, Vec::new(alloc), 0, Vec::new(alloc)) {
        Ok(links) => links,
        Err(_) => panic!(rt; "no memory for links"),
    }
}

/// A job over these words, where the source gives pieces of this size, and source and sink fail at these calls. Each
/// test of a job over files comes here.
pub(crate) fn job<R: Abort + Threads + Wait + Clock + Sync + Alloc<A = Global>>(
    rt: &R,
    words: &[&str],
    input: &[u8],
    piece: usize,
    fail_source: &[u64],
    fail_sink: &[u64],
) -> Done
    requires { 1 ≤ piece }
{
    let alloc = rt.alloc();
    let given = words_of(rt, alloc, words);
    let mut source = source(rt, alloc, input, piece, fail_source);
    let mut sink = sink(rt, alloc, 1_100_000, fail_sink);
    let area = unused_area(rt, alloc);
    let mut links = unused_links(rt, alloc);
    let mut clock = clock_at(rt, alloc, 0);
    let Ended {
        status,
        area: _,
        shelf: _,
        looped: _,
        played,
    } = run(
        rt,
        &given,
        &mut source,
        &mut sink,
        area,
        &mut links,
        &mut clock,
    );
    Done {
        status,
        printed: printed(rt, alloc, &sink),
        handed: handed(played),
    }
}

/// How many gateways, as areas and as shelves, and nodes were handed back.
fn handed(played: Option<Played>) -> Option<(usize, usize, usize)> {
    match played {
        None => None,
        Some(played) => Some((played.areas.len(), played.shelves.len(), played.nodes.len())),
    }
}

/// What is printed for an input, in pieces of this size.
fn is_told<R: Abort + Threads + Wait + Clock + Sync + Alloc<A = Global>>(
    rt: &R,
    command: &str,
    input: &[u8],
    piece: usize,
    told: &[u8],
)
    requires { 1 ≤ piece }
{
    let done = job(rt, &[command, "-"], input, piece, &[], &[]);
    assert_eq!(rt; done.status, Status::Done);
    assert_eq!(rt; done.printed.as_slice(), told);
}

#[test]
fn an_input_comes_in_pieces(rt: HostRuntime) {
    is_told(&rt, "feed", FIRST, 4096, FIRST_REPORT);
    is_told(&rt, "feed", FIRST, 1, FIRST_REPORT);
    is_told(&rt, "show", ONE_CDR, 4096, LISTING);
    is_told(&rt, "show", ONE_CDR, 1, LISTING);
}

/// Words of none of the forms.
const NO_FORMS: [&[&str]; 28] = [
    &[],
    &["-V"],
    &["--", "feed", "-"],
    &["feed"],
    &["show"],
    &["show", "-x"],
    &["list", "-"],
    &["feed", "-x"],
    &["feed", "--help"],
    &["feed", "a", "b"],
    &["replay"],
    &["replay", "-x"],
    &["replay", "-", "-"],
    &["sample", "7", "4", "3"],
    &["drill", "07", "1", "1", "1"],
    &["drill", "+7", "1", "1", "1"],
    &["drill", "-7", "1", "1", "1"],
    &["drill", "18446744073709551616", "1", "1", "1"],
    &["drill", "7", "0", "1", "1"],
    &["drill", "7", "17", "1", "1"],
    &["drill", "7", "1", "0", "1"],
    &["drill", "7", "1", "9", "1"],
    &["drill", "7", "1", "1", "0"],
    &["drill", "7", "1", "1", "20001"],
    &["drill", "7", "1", "1", "1", "1"],
    &["sample", "7", "1", "1", ""],
    &["sample", "", "1", "1", "1"],
    &["samples", "7", "1", "1", "1"],
];

/// A job over these words, where source and sink fail at these calls, ends so, prints nothing, and hands nothing back.
fn ends<R: Abort + Threads + Wait + Clock + Sync + Alloc<A = Global>>(
    rt: &R,
    words: &[&str],
    input: &[u8],
    fail_source: &[u64],
    fail_sink: &[u64],
    status: Status,
) {
    let done = job(rt, words, input, 20, fail_source, fail_sink);
    assert_eq!(rt; done.status, status);
    assert!(rt; done.printed.is_empty());
    assert_eq!(rt; done.handed, None);
}

/// Nothing is read where words are none of the forms: the source, which would fail, isn't asked.
#[test]
fn words_decide_before_anything_is_read(rt: HostRuntime) {
    for words in NO_FORMS {
        ends(&rt, words, FIRST, &[1], &[1], Status::Words);
    }
}

/// A job that has no input, and hands back so many areas, shelves and nodes.
fn reads_nothing<R: Abort + Threads + Wait + Clock + Sync + Alloc<A = Global>>(
    rt: &R,
    words: &[&str],
    handed: Option<(usize, usize, usize)>,
) {
    let done = job(rt, words, b"frob\n", 4096, &[1], &[]);
    assert_eq!(rt; done.status, Status::Done);
    assert_eq!(rt; done.handed, handed);
}

/// A sample and a drill read nothing. The last is a sample of the greatest numbers.
#[test]
fn the_script_of_a_seed_has_no_input(rt: HostRuntime) {
    reads_nothing(&rt, &["sample", "7", "1", "1", "1"], None);
    let handed = Some((3, 3, 4));
    reads_nothing(&rt, &["drill", "7", "4", "3", "2000"], handed);
    let greatest = ["sample", "18446744073709551615", "16", "8", "1"];
    reads_nothing(&rt, &greatest, None);
}

/// A job, at which calls its source fails, which gives 20 octets a call, at which its sink fails, and how it ends.
type Faulty = (
    &'static [&'static str],
    &'static [u8],
    &'static [u64],
    &'static [u64],
    Status,
);

const FAULTS: [Faulty; 8] = [
    (&["feed", "-"], FIRST, &[], &[1], Status::Write),
    (&["feed", "-"], BACK_IN_TIME, &[], &[1], Status::Write),
    (&["show", "-"], ONE_CDR, &[3], &[], Status::Read),
    (&["show", "-"], ONE_CDR, &[], &[1], Status::Write),
    (&["replay", "-"], b"end\n", &[1], &[], Status::Read),
    (&["replay", "-"], b"end\n", &[], &[1], Status::Write),
    (
        &["sample", "7", "1", "1", "1"],
        b"",
        &[],
        &[1],
        Status::Write,
    ),
    (
        &["drill", "7", "1", "1", "1"],
        b"",
        &[],
        &[1],
        Status::Write,
    ),
];

/// How the job of the first script ends, of which the source and the sink fail at these calls.
fn feeds_to<R: Abort + Threads + Wait + Clock + Sync + Alloc<A = Global>>(
    rt: &R,
    fail_source: &[u64],
    fail_sink: &[u64],
    status: Status,
) {
    let input = FIRST;
    let done = job(rt, &["feed", "-"], input, 20, fail_source, fail_sink);
    assert_eq!(rt; done.status, status);
}

#[test]
fn a_fault_of_the_input_or_the_output_is_told(rt: HostRuntime) {
    for (words, input, fail_source, fail_sink, status) in FAULTS {
        ends(&rt, words, input, fail_source, fail_sink, status);
    }
    // The source is called six times, the last time behind its last octet, and the sink once.
    for call in 1..=6 {
        feeds_to(&rt, &[call], &[], Status::Read);
    }
    feeds_to(&rt, &[7], &[2], Status::Done);
}

/// How many octets the sample of seed 7 has for 2,000 packets of four nodes at three gateways, and a sum of them all,
/// as the plain model of `tools/model` prints it; and the same of what is printed for it, with 13,062 messages.
const LARGE_SAMPLE: (usize, u64) = (285_540, 0xE129_6560_560B_D2A1);

const LARGE_REPLAY: (usize, u64) = (1_006_092, 0xB8C_3321_989A_DB4F);

/// A sum of octets that tells their order.
fn sum_of(octets: &[u8]) -> u64 {
    let mut sum = 0u64;
    for octet in octets {
        sum = sum
            .wrapping_mul(1_099_511_628_211)
            .wrapping_add(u64::from(*octet));
    }
    sum
}

/// What a job prints that ends well has so many octets, and this sum; and how much it hands back.
fn is_summed(
    rt: &impl Abort,
    done: &Done,
    sum: (usize, u64),
    handed: Option<(usize, usize, usize)>,
) {
    assert_eq!(rt; done.status, Status::Done);
    assert_eq!(rt; (done.printed.len(), sum_of(&done.printed)), sum);
    assert_eq!(rt; done.handed, handed);
}

/// With losses, repeats and stops each packet is done in the end, and its records are filed once.
#[test]
fn a_sample_of_2000_packets_runs_as_the_plain_model_runs_it(rt: HostRuntime) {
    let words = ["sample", "7", "4", "3", "2000"];
    let sample = job(&rt, &words, b"", 4096, &[], &[]);
    is_summed(&rt, &sample, LARGE_SAMPLE, None);
    let done = job(&rt, &["replay", "-"], &sample.printed, 65_536, &[], &[]);
    is_summed(&rt, &done, LARGE_REPLAY, Some((3, 3, 4)));
}

/// The number of a status, and the line that is printed for it.
fn has_line(rt: &impl Abort, alloc: Global, status: Status, number: u8, line: &str) {
    assert_eq!(rt; status.number(), number);
    let Ok(printed) = format!(in alloc; "{status}") else {
        panic!(rt; "no memory for a line")
    };
    assert_eq!(rt; printed.as_str(), line);
}

#[test]
fn each_status_has_its_number_and_its_line(rt: HostRuntime) {
    let lines = [
        (Status::Words, 1, "cgf: words"),
        (
            Status::Input {
                place: 1,
                kind: InputKind::Earlier,
            },
            2,
            "cgf: input 1: Earlier",
        ),
        (
            Status::Input {
                place: 16_777_217,
                kind: InputKind::TooLong,
            },
            2,
            "cgf: input 16777217: TooLong",
        ),
        (Status::Read, 3, "cgf: read"),
        (Status::Write, 4, "cgf: write"),
        (Status::Memory, 5, "cgf: memory"),
    ];
    for (status, number, line) in lines {
        has_line(&rt, rt.alloc(), status, number, line);
    }
    assert_eq!(&rt; Status::Done.number(), 0);
}
