//! A story of an answer that is lost, in which each call of each area and of the shelf that files the record stops or
//! fails. After it the record stands at most once, and where its packet is resolved it does; in the end the packet is
//! done.

use crate::told::{begun, joined, nothing, script_of};
use gw_base::Octets;
use replay_world::{LineEnd, Replay, Summary};
use std::alloc::Global;
use std::process::Abort;
use world_script::Line;

/// Before anything is armed.
const BEFORE: &str = "gateways 2\nreserve 4000\nlimit records 1\nat 1709164800\n";

/// The node is alive at both gateways. Its packet is filed at the first, and the answer is lost; a copy of it is held at
/// the second, and cancelled once the first has told that it filed the packet. Then come rounds in which all goes well.
const STORY: &str =
    "tick 1\nflow\nflow\nflow\ncommit 1\ncommit 2\nflow\nsubmit 1 1 0600 A003800105\n\
tick 1\ndeliver 9\ncommit 1\nwrite 1\nredirect 1 63\ndeliver 11\ntick 1\ndeliver 13\ncommit 2\ndeliver 14\ntick 1\n\
deliver 15\ndeliver 16\ntick 1\ndeliver 17\ncommit 2\ndeliver 18\nopen 1\nopen 2\n";

const ROUND: &str = "tick 1\nflow\ncommit 1\ncommit 2\nflow\n";

/// A device: what it is called behind `fail` and `arm`, its gateway, and the first of its calls that the story doesn't
/// make.
type Device = (&'static str, u64, u64);

const DEVICES: [Device; 3] = [("", 1, 9), ("", 2, 13), ("shelf", 1, 8)];

/// How a call is armed: to fail, or to stop in a mode.
const WAYS: [(&str, &str); 4] = [
    ("fail", ""),
    ("arm", " old"),
    ("arm", " new"),
    ("arm", " rot"),
];

#[test]
fn a_record_stands_once_whichever_call_stops_or_fails(rt: HostRuntime) {
    for device in DEVICES {
        assert_of_device(&rt, rt.alloc(), device);
    }
}

/// Each call of a device, and the one beyond, is armed in each way.
fn assert_of_device(rt: &impl Abort, alloc: Global, device: Device) {
    let (.., beyond) = device;
    for call in 1..=beyond {
        assert_of_call(rt, alloc, device, call);
    }
}

/// A call of a device is armed in each way.
fn assert_of_call(rt: &impl Abort, alloc: Global, device: Device, call: u64) {
    let (.., beyond) = device;
    for way in WAYS {
        let arms = arms_of(rt, alloc, device, call, way);
        assert_stands_once(rt, alloc, &arms, call < beyond);
    }
}

/// The line by which a call of a device is armed.
fn arms_of(
    rt: &impl Abort,
    alloc: Global,
    (device, gateway, _): Device,
    call: u64,
    (way, mode): (&str, &str),
) -> String {
    match format!(in alloc; "{way}{device} {gateway} {call}{mode}\n") {
        Ok(line) => line,
        Err(_) => panic!(rt; "no memory for a line"),
    }
}

/// The story and the rounds run with this in front of them, but for lines that the world refuses. It is told that a
/// device stopped or failed exactly where the call is made.
fn assert_stands_once(rt: &impl Abort, alloc: Global, arms: &str, is_met: bool) {
    let text = joined(
        rt,
        alloc,
        &[BEFORE, arms, STORY, ROUND, ROUND, ROUND, "end\n"],
    );
    let script = script_of(rt, alloc, &text);
    let mut replay = begun(rt, alloc, &script);
    let met = steps_all(rt, alloc, &mut replay, script.lines(), arms);
    assert_eq!(rt; met, is_met, "{arms}");
    assert_is_done(rt, sums_of(rt, alloc, &mut replay), arms);
}

/// Runs lines, but for those that the world refuses. Whether one tells what a device did.
fn steps_all(
    rt: &impl Abort,
    alloc: Global,
    replay: &mut Replay,
    lines: &[Line],
    arms: &str,
) -> bool {
    let mut met = false;
    for line in lines {
        met |= steps(rt, alloc, replay, line, arms);
    }
    met
}

/// Runs a line, or leaves it where the world refuses it. Whether it tells what a device did.
fn steps(rt: &impl Abort, alloc: Global, replay: &mut Replay, line: &Line, arms: &str) -> bool {
    let mut out = nothing(rt, alloc);
    assert!(rt; replay.run_line(alloc, line, &mut out) != LineEnd::NoMemory);
    // The story ends with two of these.
    if matches!(line, Line::Open { .. }) {
        assert_is_once(rt, sums_of(rt, alloc, replay), arms);
    }
    tells(&out)
}

/// What a whole network counts.
fn sums_of(rt: &impl Abort, alloc: Global, replay: &mut Replay) -> Summary {
    match replay.summary(alloc) {
        Ok(sums) => sums,
        Err(_) => panic!(rt; "no memory for a summary"),
    }
}

fn assert_is_once(rt: &impl Abort, sums: Summary, arms: &str) {
    assert!(rt; sums.gateways.records <= 1, "{arms}");
    assert!(rt; sums.nodes.resolved <= sums.gateways.records, "{arms}");
}

fn assert_is_done(rt: &impl Abort, sums: Summary, arms: &str) {
    assert_eq!(rt; sums.gateways.records, 1, "{arms}");
    assert_eq!(rt; sums.nodes.done, 1, "{arms}");
}

/// Whether what was printed begins with what a device did.
fn tells(out: &Octets) -> bool {
    let printed = out.octets();
    printed.starts_with(b"stopped")
        || printed.starts_with(b"fault")
        || printed.starts_with(b"shelf fault")
}
