//! A stop, with either outcome, and a failure at each call of an area.

use crate::told::{assert_told, joined, played_before_end, script_of};
use area_disk::Drill;
use replay_world::Played;
use std::alloc::Global;
use std::process::Abort;

/// A packet is sent and recorded, and isn't firm yet.
const RECORDED: &str = "reserve 30000\ntick 1\nflow\nflow\nflow\ncommit 1\nflow\n\
submit 1 1 0600 A003800105\ntick 1\nflow\n";

const RECORDED_TOLD: &str = "m 1 n1:1 g1 4E0400070000FB00040A000101\nm 2 g1 n1:1 4E0100000000\n\
m 3 n1:1 g1 4E02000200000E01\nm 4 g1 n1:1 4E0500000000\npacket 1.1\n\
m 5 n1:1 g1 4EF0001000007E01FC000B010106000005A003800105\n";

/// The packet's file, and the packet is done.
const FILED: &str = "file 1 00-0000000001.cdr \
0000003D000000346060108008001080080000000001000000010400000000000000000000FFFF0A0000010000000000000000\
0000056020A003800105\n";

const DONE: &str = "node 1 packets 1 resolved 1 done 1\n";

/// Lines behind a stop, and behind a failure: the node sends the packet again, and it is answered.
const OPENED: &str = "open 1\ntick 1\nflow\ncommit 1\nflow\nend\n";

const AGAIN: &str = "flow\ntick 1\nflow\ncommit 1\nflow\nend\n";

/// What is printed for them, where the entry of the packet is lost, and where it stands.
const OPENED_LOST: &str = "stopped 1\nm 6 n1:1 g1 4EF0001000007E01FC000B010106000005A003800105\n\
m 7 g1 n1:1 4EF1000700000180FD00020000\nresolved 1.1\ndone 1.1\n";

const OPENED_KEPT: &str = "stopped 1\nm 6 n1:1 g1 4EF0001000007E01FC000B010106000005A003800105\n\
m 7 g1 n1:1 4EF10007000001FDFD00020000\nresolved 1.1\ndone 1.1\n";

const AGAIN_LOST: &str = "fault 1\nm 6 g1 n1:1 4EF10007000001CCFD00020000\n\
m 7 n1:1 g1 4EF0001000007E01FC000B010106000005A003800105\nm 8 g1 n1:1 4EF1000700000180FD00020000\n\
resolved 1.1\ndone 1.1\n";

const AGAIN_KEPT: &str = "fault 1\nm 6 g1 n1:1 4EF10007000001CCFD00020000\n\
m 7 n1:1 g1 4EF0001000007E01FC000B010106000005A003800105\nm 8 g1 n1:1 4EF10007000001FDFD00020000\n\
resolved 1.1\ndone 1.1\n";

/// The commit has four calls, so that nothing comes of what is armed for a fifth.
const NOT_REACHED: &str = "m 6 g1 n1:1 4EF1000700000180FD00020000\nresolved 1.1\ndone 1.1\n";

/// The counts of the gateway.
const COUNTS_4: &str = "gateway 1 entries 4 records 1 held 0 stranded 0\n";

const COUNTS_5: &str = "gateway 1 entries 5 records 1 held 0 stranded 0\n";

/// What is armed, the lines behind the commit, and what is printed for them: before the file, and behind it.
type Commit = [&'static str; 4];

const COMMITS: [Commit; 18] = [
    ["arm 1 1 old", OPENED, OPENED_LOST, COUNTS_5],
    ["arm 1 1 new", OPENED, OPENED_LOST, COUNTS_5],
    ["arm 1 2 old", OPENED, OPENED_LOST, COUNTS_5],
    ["arm 1 2 new", OPENED, OPENED_LOST, COUNTS_5],
    ["arm 1 3 old", OPENED, OPENED_LOST, COUNTS_5],
    ["arm 1 3 new", OPENED, OPENED_KEPT, COUNTS_5],
    ["arm 1 4 old", OPENED, OPENED_LOST, COUNTS_5],
    ["arm 1 4 new", OPENED, OPENED_KEPT, COUNTS_5],
    ["fail 1 1", AGAIN, AGAIN_LOST, COUNTS_4],
    ["fail 1 2", AGAIN, AGAIN_LOST, COUNTS_4],
    ["fail 1 3", AGAIN, AGAIN_LOST, COUNTS_4],
    ["fail 1 4", AGAIN, AGAIN_KEPT, COUNTS_4],
    ["arm 1 5 old", AGAIN, NOT_REACHED, COUNTS_4],
    ["arm 1 5 new", AGAIN, NOT_REACHED, COUNTS_4],
    ["fail 1 5", AGAIN, NOT_REACHED, COUNTS_4],
    // What is armed later takes the place of what was armed before.
    ["arm 1 1 new\nfail 1 4", AGAIN, AGAIN_KEPT, COUNTS_4],
    ["fail 1 1\narm 1 3 new", OPENED, OPENED_KEPT, COUNTS_5],
    ["arm 1 1 old\nfail 1 5", AGAIN, NOT_REACHED, COUNTS_4],
];

#[test]
fn a_commit_stops_or_fails_at_each_call(rt: HostRuntime) {
    for commit in COMMITS {
        assert_commit(&rt, rt.alloc(), commit);
    }
}

fn assert_commit(rt: &impl Abort, alloc: Global, [arms, rest, told, counts]: Commit) {
    let text = joined(rt, alloc, &[RECORDED, arms, "\ncommit 1\n", rest]);
    let wanted = joined(rt, alloc, &[RECORDED_TOLD, told, FILED, counts, DONE]);
    assert_told(rt, alloc, &text, &wanted);
}

/// What is printed for a commit that fails, and of a node whose packet isn't resolved.
const FAULTED: &str = "fault 1\nm 6 g1 n1:1 4EF10007000001CCFD00020000\n";

const NOT_RESOLVED: &str = "node 1 packets 1 resolved 0 done 0\n";

/// What is printed of a gateway whose commit failed at the fourth call, where its journal is opened again in this line,
/// up to the end: its torn entry is lost.
const STOPPED_LOST: &str = "stopped 1\ngateway 1 entries 3 records 0 held 0 stranded 0\n";

/// And of one whose commit failed before that.
const GONE: &str = "gateway 1 entries 2 records 0 held 0 stranded 0\n";

/// A line that opens the journal again stops or fails at the one call of that, and goes on where nothing is armed for
/// it.
#[test]
fn an_opening_again_stops_or_fails(rt: HostRuntime) {
    let alloc = rt.alloc();
    assert_opening(&rt, alloc, "commit 1", "", COUNTS_4);
    assert_opening(
        &rt,
        alloc,
        "deliver 5",
        "m 7 g1 n1:1 4EF10007000001FDFD00020000\n",
        COUNTS_4,
    );
    assert_opening(&rt, alloc, "mark 1", "", COUNTS_5);
    assert_opening(&rt, alloc, "close 1", "", COUNTS_4);
    assert_no_opening(&rt, alloc, "arm 1 1 old");
    assert_no_opening(&rt, alloc, "arm 1 1 new");
    assert_no_opening(&rt, alloc, "fail 1 1");
    assert_gone(&rt, alloc, "arm 1 1 old", ["", "", STOPPED_LOST]);
    assert_gone(&rt, alloc, "arm 1 1 new", ["", "", STOPPED_LOST]);
    assert_gone(&rt, alloc, "fail 1 1", ["fault 1\n", "", GONE]);
    assert_gone(&rt, alloc, "fail 1 2", ["", "", GONE]);
}

/// A line that opens the journal again. This is what it prints where it goes on, and the counts then.
fn assert_opening(rt: &impl Abort, alloc: Global, line: &str, told: &str, counts: &str) {
    let old = ["", "", STOPPED_LOST];
    assert_again(rt, alloc, ["fail 1 4", "arm 1 1 old", line], old);
    let new = ["stopped 1\n", FILED, COUNTS_5];
    assert_again(rt, alloc, ["fail 1 4", "arm 1 1 new", line], new);
    let failed = ["fault 1\n", FILED, COUNTS_4];
    assert_again(rt, alloc, ["fail 1 4", "fail 1 1", line], failed);
    let calm = [told, FILED, counts];
    assert_again(rt, alloc, ["fail 1 4", "fail 1 2", line], calm);
}

/// Two lines open nothing, so nothing comes of what is armed.
fn assert_no_opening(rt: &impl Abort, alloc: Global, arms: &str) {
    let asked = ["m 7 g1 n1:1 4E0600020000013F\n", FILED, COUNTS_4];
    let written = ["", FILED, COUNTS_4];
    assert_again(rt, alloc, ["fail 1 4", arms, "redirect 1 63"], asked);
    assert_again(rt, alloc, ["fail 1 4", arms, "write 1"], written);
}

/// A batch whose commit failed before its fourth call is gone.
fn assert_gone(rt: &impl Abort, alloc: Global, arms: &str, told: [&str; 3]) {
    assert_again(rt, alloc, ["fail 1 1", arms, "commit 1"], told);
    assert_again(rt, alloc, ["fail 1 2", arms, "commit 1"], told);
    assert_again(rt, alloc, ["fail 1 3", arms, "commit 1"], told);
}

/// A commit fails, something is armed, a line runs, and this is printed from it to the nodes' lines.
fn assert_again(rt: &impl Abort, alloc: Global, armed: [&str; 3], told: [&str; 3]) {
    let text = text_again(rt, alloc, armed);
    assert_told(rt, alloc, &text, &told_again(rt, alloc, told));
}

fn text_again(rt: &impl Abort, alloc: Global, [fails, arms, line]: [&str; 3]) -> String {
    joined(
        rt,
        alloc,
        &[RECORDED, fails, "\ncommit 1\n", arms, "\n", line, "\nend\n"],
    )
}

fn told_again(rt: &impl Abort, alloc: Global, [told, file, counts]: [&str; 3]) -> String {
    joined(
        rt,
        alloc,
        &[RECORDED_TOLD, FAULTED, told, file, counts, NOT_RESOLVED],
    )
}

/// Three packets of one node are recorded, and one commit of four calls answers them.
#[test]
fn three_packets_have_one_commit(rt: HostRuntime) {
    let alloc = rt.alloc();
    let script = script_of(
        &rt,
        alloc,
        "reserve 30000\ntick 1\nflow\nflow\nflow\ncommit 1\nflow\nsubmit 1 1 0600 A003800105\n\
submit 1 1 0600 A003800105\nsubmit 1 1 0600 A003800105\ntick 1\nflow\nfail 1 9\ncommit 1\nend\n",
    );
    let Played {
        areas,
        shelves: _,
        nodes: _,
    } = played_before_end(&rt, alloc, &script).into_played();
    assert_eq!(rt; areas.len(), 1);
    assert_eq!(rt; areas[0].calls(), 4);
}
