//! Scripts are played, and what they print. Who calls these learns their answer alone, so that tests stay short to
//! prove.

use gw_base::Octets;
use replay_world::{LineEnd, Replay};
use std::alloc::Global;
use std::process::Abort;
use world_script::{Script, ScriptKind, read};

/// Puts a piece behind a text.
pub(crate) fn put(rt: &impl Abort, text: &mut String, piece: &str) {
    let Ok(()) = text.push_str(piece) else {
        panic!(rt; "no memory for a text")
    };
}

/// The text of pieces, one behind the other.
pub(crate) fn joined(rt: &impl Abort, alloc: Global, pieces: &[&str]) -> String {
    let mut text = String::new(alloc);
    for piece in pieces {
        put(rt, &mut text, piece);
    }
    text
}

/// The script that a text is.
pub(crate) fn script_of(rt: &impl Abort, alloc: Global, text: &str) -> Script {
    match read(alloc, text.as_bytes(), ScriptKind::Replay) {
        Ok(script) => script,
        Err(_) => panic!(rt; "no script"),
    }
}

/// A replay of a script, of which no line was run.
pub(crate) fn begun(rt: &impl Abort, alloc: Global, script: &Script) -> Replay {
    match Replay::new(alloc, script) {
        Ok(replay) => replay,
        Err(_) => panic!(rt; "no memory for a replay"),
    }
}

/// Where nothing was printed.
pub(crate) fn nothing(rt: &impl Abort, alloc: Global) -> Octets {
    match Octets::of(alloc, b"") {
        Ok(octets) => octets,
        Err(_) => panic!(rt; "no memory for octets"),
    }
}

/// A line, a settling or a report ran.
fn ran(rt: &impl Abort, end: LineEnd, why: &str) {
    assert_eq!(rt; end, LineEnd::Ran, "{why}");
}

/// Settles a replay.
pub(crate) fn settles(
    rt: &impl Abort,
    alloc: Global,
    replay: &mut Replay,
    out: &mut Octets,
    why: &str,
) {
    ran(rt, replay.settle(alloc, out), why);
}

/// Lets a replay report.
pub(crate) fn reports(
    rt: &impl Abort,
    alloc: Global,
    replay: &mut Replay,
    out: &mut Octets,
    why: &str,
) {
    ran(rt, replay.report(alloc, out), why);
}

/// Runs the first lines of a script, so many.
pub(crate) fn runs(
    rt: &impl Abort,
    alloc: Global,
    replay: &mut Replay,
    (script, count): (&Script, usize),
    out: &mut Octets,
    why: &str,
) {
    let Some(lines) = script.lines().get(..count) else {
        panic!(rt; "too few lines")
    };
    for line in lines {
        ran(rt, replay.run_line(alloc, line, out), why);
    }
}

/// A replay of a script, of which all lines but the last, its `end`, were run.
pub(crate) fn played_before_end(rt: &impl Abort, alloc: Global, script: &Script) -> Replay {
    let mut replay = begun(rt, alloc, script);
    let mut out = nothing(rt, alloc);
    let count = script.lines().len().saturating_sub(1);
    runs(
        rt,
        alloc,
        &mut replay,
        (script, count),
        &mut out,
        "before the end",
    );
    replay
}

/// What a text prints, of which all lines run.
fn printed(rt: &impl Abort, alloc: Global, text: &str) -> Octets {
    let script = script_of(rt, alloc, text);
    let mut replay = begun(rt, alloc, &script);
    let mut out = nothing(rt, alloc);
    let count = script.lines().len();
    runs(rt, alloc, &mut replay, (&script, count), &mut out, text);
    out
}

/// A text runs with its `end`, and this is printed.
pub(crate) fn assert_told(rt: &impl Abort, alloc: Global, text: &str, told: &str) {
    let out = printed(rt, alloc, text);
    assert_eq!(rt; out.octets(), told.as_bytes(), "{text}");
}
