//! A message that reaches a gateway whose batch is nearly full: the gateway commits first, and each of the four calls
//! of that stops or fails.

use crate::told::{joined, nothing, played_before_end, put, reports, runs, script_of, settles};
use gw_base::Octets;
use replay_world::Replay;
use std::alloc::Global;
use std::process::Abort;
use world_script::Script;

/// Fourteen packets with one record of 60,004 octets each: after thirteen of them fewer than 270,000 octets of the
/// batch are free.
fn packets(rt: &impl Abort, alloc: Global) -> Script {
    let mut text = String::new(alloc);
    put(
        rt,
        &mut text,
        "reserve 2000000\ntick 1\nflow\nflow\nflow\ncommit 1\nflow\n",
    );
    put_packets(rt, &mut text, &record(rt, alloc));
    put(rt, &mut text, "tick 1\nend\n");
    script_of(rt, alloc, &text)
}

/// Puts the packets behind a text.
fn put_packets(rt: &impl Abort, text: &mut String, record: &str) {
    for _ in 0..14 {
        put_packet(rt, text, record);
    }
}

fn put_packet(rt: &impl Abort, text: &mut String, record: &str) {
    put(rt, text, "submit 1 1 0600 ");
    put(rt, text, record);
    put(rt, text, "\n");
}

/// The record of each packet.
fn record(rt: &impl Abort, alloc: Global) -> String {
    let mut record = String::new(alloc);
    put(rt, &mut record, "0482EA60");
    for _ in 0..3_750 {
        put(rt, &mut record, "00000000000000000000000000000000");
    }
    record
}

/// What `flow` prints: each of the thirteen packets that wait is told of the failure, and so is the one that came.
const FAULTED: &str =
    "fault 1\nm 19 g1 n1:1 4EF10007000001CCFD00020000\nm 20 g1 n1:1 4EF10007000101CCFD00020001\n\
m 21 g1 n1:1 4EF10007000201CCFD00020002\nm 22 g1 n1:1 4EF10007000301CCFD00020003\n\
m 23 g1 n1:1 4EF10007000401CCFD00020004\nm 24 g1 n1:1 4EF10007000501CCFD00020005\n\
m 25 g1 n1:1 4EF10007000601CCFD00020006\nm 26 g1 n1:1 4EF10007000701CCFD00020007\n\
m 27 g1 n1:1 4EF10007000801CCFD00020008\nm 28 g1 n1:1 4EF10007000901CCFD00020009\n\
m 29 g1 n1:1 4EF10007000A01CCFD0002000A\nm 30 g1 n1:1 4EF10007000B01CCFD0002000B\n\
m 31 g1 n1:1 4EF10007000C01CCFD0002000C\nm 32 g1 n1:1 4EF10007000D01CCFD0002000D\n";

/// The thirteen are answered, and the one that came waits for the next commit.
const ANSWERED: &str =
    "m 19 g1 n1:1 4EF1000700000180FD00020000\nm 20 g1 n1:1 4EF1000700010180FD00020001\n\
m 21 g1 n1:1 4EF1000700020180FD00020002\nm 22 g1 n1:1 4EF1000700030180FD00020003\n\
m 23 g1 n1:1 4EF1000700040180FD00020004\nm 24 g1 n1:1 4EF1000700050180FD00020005\n\
m 25 g1 n1:1 4EF1000700060180FD00020006\nm 26 g1 n1:1 4EF1000700070180FD00020007\n\
m 27 g1 n1:1 4EF1000700080180FD00020008\nm 28 g1 n1:1 4EF1000700090180FD00020009\n\
m 29 g1 n1:1 4EF10007000A0180FD0002000A\nm 30 g1 n1:1 4EF10007000B0180FD0002000B\n\
m 31 g1 n1:1 4EF10007000C0180FD0002000C\n";

/// What is armed, what `flow` prints, and how many entries and records there are after a settling.
type Case = (&'static str, &'static str, u64, u64);

const CASES: [Case; 13] = [
    ("arm 1 1 old", "stopped 1\n", 3, 0),
    ("arm 1 1 new", "stopped 1\n", 3, 0),
    ("arm 1 2 old", "stopped 1\n", 3, 0),
    ("arm 1 2 new", "stopped 1\n", 3, 0),
    ("arm 1 3 old", "stopped 1\n", 3, 0),
    ("arm 1 3 new", "stopped 1\n", 17, 13),
    ("arm 1 4 old", "stopped 1\n", 3, 0),
    ("arm 1 4 new", "stopped 1\n", 17, 13),
    ("fail 1 1", FAULTED, 2, 0),
    ("fail 1 2", FAULTED, 2, 0),
    ("fail 1 3", FAULTED, 2, 0),
    ("fail 1 4", FAULTED, 16, 13),
    // The commit has four calls.
    ("fail 1 5", ANSWERED, 17, 14),
];

/// What is printed where this is armed, and a `flow` is to bring the packets.
fn flows(rt: &impl Abort, alloc: Global, replay: &mut Replay, arms: &str) -> Octets {
    let script = script_of(rt, alloc, &joined(rt, alloc, &[arms, "\nflow\nend\n"]));
    let mut out = nothing(rt, alloc);
    runs(rt, alloc, replay, (&script, 2), &mut out, arms);
    out
}

/// What is reported after a settling.
fn counts_of(rt: &impl Abort, alloc: Global, entries: u64, records: u64) -> String {
    match format!(in alloc;
        "gateway 1 entries {entries} records {records} held 0 stranded 0\nnode 1 packets 14 resolved 0 done 0\n"
    ) {
        Ok(counts) => counts,
        Err(_) => panic!(rt; "no memory for counts"),
    }
}

/// Plays a case after the packets.
fn plays(rt: &impl Abort, alloc: Global, packets: &Script, case: Case) {
    let (arms, told, entries, records) = case;
    let mut replay = played_before_end(rt, alloc, packets);
    let mut out = flows(rt, alloc, &mut replay, arms);
    assert_eq!(rt; out.octets(), told.as_bytes(), "{arms}");
    settles(rt, alloc, &mut replay, &mut out, arms);
    reports(rt, alloc, &mut replay, &mut out, arms);
    let counts = counts_of(rt, alloc, entries, records);
    assert!(rt; out.octets().ends_with(counts.as_bytes()), "{arms}");
}

#[test]
fn a_gateway_whose_batch_is_nearly_full_commits_first(rt: HostRuntime) {
    let alloc = rt.alloc();
    let packets = packets(&rt, alloc);
    for case in CASES {
        plays(&rt, alloc, &packets, case);
    }
}
