//! The worked stories of a node.

use crate::node_steps::{GATEWAYS, Sent, Step, anew, at, play, reads, submit, submitted};
use gtpp_message::Why;
use gw_base::Addr;
use node_core::{Phase, Port, SubmitFault};
use std::alloc::Global;
use std::process::Abort;

/// The first two request numbers of a gateway, and what stands for the last one where none was drawn.
const FIRST: u64 = 65_536;

const SECOND: u64 = 65_537;

const NONE: u64 = 65_535;

/// The copies of a packet at the gateways.
const COPY_0: (u8, u64) = (0, FIRST);

const COPY_1: (u8, u64) = (1, FIRST);

const COPY_2: (u8, u64) = (2, FIRST);

/// Node Alive Requests to the gateways.
const ALIVE_REQUEST: [u8; 13] = [0x4E, 4, 0, 7, 0, 0, 0xFB, 0, 4, 0x0A, 0, 1, 1];

const PROBE_0: Sent = (Port::First, 0, 0, None, &ALIVE_REQUEST);

const PROBE_1: Sent = (Port::First, 1, 0, None, &ALIVE_REQUEST);

const PROBE_2: Sent = (Port::First, 2, 0, None, &ALIVE_REQUEST);

/// The plain copy of a packet.
const PACKET: [u8; 22] = [
    0x4E, 0xF0, 0, 16, 0, 0, 0x7E, 1, 0xFC, 0, 11, 1, 1, 6, 0, 0, 5, 0xA0, 3, 0x80, 1, 5,
];

const PLAIN: Sent = (Port::First, 0, FIRST, None, &PACKET);

/// Its duplicates at the other gateways.
const POSSIBLE: [u8; 22] = [
    0x4E, 0xF0, 0, 16, 0, 0, 0x7E, 2, 0xFC, 0, 11, 1, 1, 6, 0, 0, 5, 0xA0, 3, 0x80, 1, 5,
];

const DUPLICATE_1: Sent = (Port::First, 1, FIRST, None, &POSSIBLE);

const DUPLICATE_2: Sent = (Port::First, 2, FIRST, None, &POSSIBLE);

/// The tests of its copies.
const EMPTY: [u8; 11] = [0x4E, 0xF0, 0, 5, 0, 0, 0x7E, 2, 0xFC, 0, 0];

const TEST_0: Sent = (Port::Second, 0, FIRST, None, &EMPTY);

const TEST_1: Sent = (Port::Second, 1, FIRST, None, &EMPTY);

/// What is asked of a duplicate that is held.
const CANCEL: [u8; 13] = [0x4E, 0xF0, 0, 7, 0, 1, 0x7E, 3, 0xFA, 0, 2, 0, 0];

const CANCEL_1: Sent = (Port::Second, 1, SECOND, Some(FIRST), &CANCEL);

const RELEASE: [u8; 13] = [0x4E, 0xF0, 0, 7, 0, 1, 0x7E, 4, 0xF9, 0, 2, 0, 0];

const RELEASE_1: Sent = (Port::Second, 1, SECOND, Some(FIRST), &RELEASE);

const RELEASE_2: Sent = (Port::Second, 2, SECOND, Some(FIRST), &RELEASE);

/// Two gateways become alive, and a packet is submitted.
const READY: [Step<'static>; 6] = [
    Step::Ticks(None, &[PROBE_0, PROBE_1]),
    Step::ComesAlive(0),
    Step::ComesAlive(1),
    Step::Stands(1, Phase::Unknown, &[], (NONE, NONE, NONE)),
    Step::Submits,
    Step::Stands(1, Phase::Open, &[], (NONE, NONE, NONE)),
];

/// Its duplicate is held at the second gateway, and its plain copy is tested.
const TESTED: [Step<'static>; 7] = [
    Step::Ticks(None, &[PLAIN]),
    Step::Stands(1, Phase::Open, &[COPY_0], (FIRST, NONE, NONE)),
    Step::GoesDown(0, 1),
    Step::Ticks(None, &[DUPLICATE_1]),
    Step::Answers(Port::First, 1, FIRST, 128, (false, false)),
    Step::Ticks(None, &[TEST_0]),
    Step::Stands(1, Phase::Open, &[COPY_0, COPY_1], (FIRST, FIRST, NONE)),
];

/// It was filed, and the node starts again.
const FILED: [Step<'static>; 17] = [
    Step::Answers(Port::Second, 0, FIRST, 253, (true, false)),
    Step::Stands(1, Phase::Resolved, &[COPY_0, COPY_1], (FIRST, FIRST, NONE)),
    Step::Ticks(None, &[CANCEL_1]),
    Step::Ticks(None, &[CANCEL_1]),
    Step::Stands(1, Phase::Resolved, &[COPY_0, COPY_1], (FIRST, SECOND, NONE)),
    Step::Answers(Port::Second, 1, SECOND, 128, (false, true)),
    Step::Ticks(None, &[]),
    Step::Stands(1, Phase::Done, &[COPY_0, COPY_1], (FIRST, SECOND, NONE)),
    Step::Restarts(2),
    Step::Stands(1, Phase::Unknown, &[], (NONE, NONE, NONE)),
    Step::Ticks(None, &[PROBE_0, PROBE_1]),
    Step::ComesAlive(0),
    Step::ComesAlive(1),
    Step::Submits,
    Step::Ticks(None, &[PLAIN]),
    Step::Stands(1, Phase::Unknown, &[], (FIRST, NONE, NONE)),
    Step::Stands(2, Phase::Open, &[COPY_0], (FIRST, NONE, NONE)),
];

/// Its duplicate is released.
const RELEASED: [Step<'static>; 7] = [
    Step::Answers(Port::Second, 0, FIRST, 128, (false, false)),
    Step::Ticks(None, &[RELEASE_1]),
    Step::Stands(1, Phase::Open, &[COPY_0, COPY_1], (FIRST, SECOND, NONE)),
    Step::Answers(Port::Second, 1, SECOND, 128, (true, true)),
    Step::Ticks(None, &[]),
    Step::Stands(1, Phase::Done, &[COPY_0, COPY_1], (FIRST, SECOND, NONE)),
    Step::Restarts(2),
];

/// Of two duplicates at three gateways one is released and one is cancelled.
const BOTH: [Step<'static>; 21] = [
    Step::Ticks(None, &[PROBE_0, PROBE_1, PROBE_2]),
    Step::ComesAlive(0),
    Step::ComesAlive(1),
    Step::ComesAlive(2),
    Step::Submits,
    Step::Ticks(None, &[PLAIN]),
    Step::GoesDown(0, 1),
    Step::Ticks(None, &[DUPLICATE_1]),
    Step::GoesDown(1, 2),
    Step::Ticks(None, &[DUPLICATE_2]),
    Step::Answers(Port::First, 2, FIRST, 128, (false, false)),
    Step::Ticks(None, &[TEST_0]),
    Step::Answers(Port::Second, 0, FIRST, 128, (false, false)),
    Step::Ticks(None, &[RELEASE_2, TEST_1]),
    Step::Answers(Port::Second, 2, SECOND, 128, (true, false)),
    Step::Answers(Port::Second, 1, FIRST, 252, (false, false)),
    Step::Stands(
        1,
        Phase::Resolved,
        &[COPY_0, COPY_1, COPY_2],
        (FIRST, FIRST, SECOND),
    ),
    Step::Ticks(None, &[CANCEL_1]),
    Step::Answers(Port::Second, 1, SECOND, 128, (false, true)),
    Step::Ticks(None, &[]),
    Step::Stands(
        1,
        Phase::Done,
        &[COPY_0, COPY_1, COPY_2],
        (FIRST, SECOND, SECOND),
    ),
];

/// Nobody answers. The tick that appoints a gateway is the first of its three.
const SILENT: [Step<'static>; 11] = [
    Step::Ticks(None, &[PLAIN]),
    Step::Ticks(None, &[PLAIN]),
    Step::Ticks(None, &[PLAIN]),
    Step::Stands(1, Phase::Open, &[COPY_0], (FIRST, NONE, NONE)),
    Step::Ticks(Some(1), &[DUPLICATE_1]),
    Step::Ticks(None, &[DUPLICATE_1]),
    Step::Ticks(None, &[DUPLICATE_1]),
    Step::Ticks(Some(0), &[PLAIN]),
    Step::Stands(1, Phase::Open, &[COPY_0, COPY_1], (FIRST, FIRST, NONE)),
    Step::Stands(2, Phase::Unknown, &[], (FIRST, FIRST, NONE)),
    Step::Restarts(2),
];

/// A node with so many gateways after these parts of a story tells so many packets, of which so many became resolved and
/// done.
fn comes_to(
    rt: &impl Abort,
    alloc: Global,
    gateways: &[Addr],
    parts: &[&[Step<'_>]],
    wanted: (u64, u64, u64),
) {
    let mut node = anew(rt, alloc, gateways);
    for part in parts {
        play(rt, alloc, &mut node, part);
    }
    let counts = node.counts();
    assert_eq!(rt; (counts.packets, counts.resolved, counts.done), wanted);
}

#[test]
fn a_filed_packet_and_the_next_start(rt: HostRuntime) {
    let parts: [&[Step<'_>]; 3] = [&READY, &TESTED, &FILED];
    comes_to(&rt, rt.alloc(), &GATEWAYS[..2], &parts, (2, 1, 1));
}

#[test]
fn a_released_duplicate(rt: HostRuntime) {
    let parts: [&[Step<'_>]; 3] = [&READY, &TESTED, &RELEASED];
    comes_to(&rt, rt.alloc(), &GATEWAYS[..2], &parts, (1, 1, 1));
}

#[test]
fn a_release_and_a_cancel(rt: HostRuntime) {
    comes_to(&rt, rt.alloc(), &GATEWAYS, &[&BOTH], (1, 1, 1));
}

#[test]
fn silence(rt: HostRuntime) {
    let parts: [&[Step<'_>]; 2] = [&READY, &SILENT];
    comes_to(&rt, rt.alloc(), &GATEWAYS[..2], &parts, (1, 0, 0));
}

#[test]
fn sixty_four_open_packets(rt: HostRuntime) {
    let alloc = rt.alloc();
    let mut node = anew(&rt, alloc, &GATEWAYS[..1]);
    for _ in 0..64 {
        submit(&rt, alloc, &mut node);
    }
    let more = submitted(&rt, alloc, &mut node);
    assert_eq!(rt; more, Err(SubmitFault::InFlight));
    assert_eq!(rt; node.counts().packets, 64);
    assert_eq!(rt; node.phase(1), Phase::Open);
    assert_eq!(rt; node.phase(64), Phase::Open);
    assert_eq!(rt; node.phase(65), Phase::Unknown);
}

/// A datagram, why it is dropped, and the reply to it.
type Read = (&'static [u8], Option<Why>, &'static [u8]);

/// The answer to an Echo Request with number 5.
const TOLD: [u8; 8] = [0x4E, 2, 0, 2, 0, 5, 0x0E, 1];

const READ: [Read; 8] = [
    (&[0x4E, 0xF0, 0, 0, 0], Some(Why::Short), &[]),
    (&[0x5E, 1, 0, 0, 0, 0], Some(Why::NotPrime), &[]),
    (&[0x4E, 1, 0, 5, 0, 0], Some(Why::Cut), &[]),
    (&[0x4E, 0x63, 0, 0, 0, 0], Some(Why::UnknownType), &[]),
    (
        &[0x4E, 2, 0, 0, 0, 1],
        Some(Why::Malformed { cause: 202 }),
        &[],
    ),
    (&[0x4E, 5, 0, 0, 0, 0], None, &[]),
    (&[0x4E, 1, 0, 0, 0, 5], None, &TOLD),
    (&[0x4E, 1, 0, 0, 0, 5, 0xFF, 0xFF], None, &TOLD),
];

/// What a node makes of a datagram of a gateway; from a sender that is no gateway it is stray.
fn reads_first(rt: &impl Abort, alloc: Global, read: Read) {
    let (octets, drop, wanted) = read;
    let mut node = anew(rt, alloc, &GATEWAYS[..2]);
    reads(rt, &mut node, at(1), octets, drop, wanted);
    reads(rt, &mut node, at(2), octets, Some(Why::Stray), &[]);
}

#[test]
fn which_datagrams_are_dropped(rt: HostRuntime) {
    for read in READ {
        reads_first(&rt, rt.alloc(), read);
    }
}
