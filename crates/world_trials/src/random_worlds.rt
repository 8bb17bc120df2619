//! Random worlds of fixed seeds, with losses, repeats, stops and restarts. Each record of each packet
//! has octets of its own: after each event these are looked for in the firm parts of all histories.
ghost use Rattle.std.specs.Prelude.{◌<◌};

use crate::calls::{does, had, moment, stepped};
use gateway_answer::{FiledRecord, filed};
use gw_base::{HistoryAct, HistoryEntry, KeyState, Octets, scan};
use node_core::{Node, Phase};
use once_core::{Event, Stepped, World};
use std::alloc::Global;
use std::process::Abort;

/// The seeds of the worlds, and how many events each has. `bench/world.sh` takes others.
const SEEDS: [u64; 3] = [26, 163, 124];

const EVENTS: u64 = 300;

/// The gateways and the nodes.
const GATEWAYS: u8 = 3;

const NODES: u8 = 2;

/// A packet that a node took: the place of its node, and its number there, from 1 on.
#[derive(Clone, Copy, PartialEq, Eq)]
struct Taken {
    node: u8,
    number: u64,
}

/// What worlds came to: how many packets became resolved, and how many entries are firm at the end.
#[derive(Clone, Copy)]
struct Seen {
    resolved: u64,
    seals: u64,
    releases: u64,
    cancels: u64,
}

/// Whole numbers that look random.
#[derive(Drop)]
struct Lots {
    state: u64,
}

impl Lots {
    /// One below this.
    fn below(&mut self, count: u64) -> u64
        requires { 0 < count }
        ensures { result < count }
    {
        self.state = self
            .state
            .wrapping_mul(6_364_136_223_846_793_005)
            .wrapping_add(1_442_695_040_888_963_407);
        (self.state >> 33) % count
    }

    /// A gateway, and a node.
    fn gateway(&mut self) -> u8 {
        self.below(u64::from(GATEWAYS)) as u8 + 1
    }

    fn node(&mut self) -> u8 {
        self.below(u64::from(NODES)) as u8 + 1
    }
}

/// The last two octets of a packet's number.
fn high_of(taken: Taken) -> u8 {
    (taken.number / 256 % 256) as u8
}

fn low_of(taken: Taken) -> u8 {
    (taken.number % 256) as u8
}

/// The record of a packet with this index.
fn record_of(taken: Taken, index: u8) -> [u8; 8] {
    let (high, low) = (high_of(taken), low_of(taken));
    [0xA0, 6, 0x80, 4, taken.node, high, low, index]
}

/// A packet of two records, of format 1 and version 0x0600.
fn packet_of<R: Abort>(rt: &R, alloc: Global, taken: Taken) -> Octets {
    let (node, high, low) = (taken.node, high_of(taken), low_of(taken));
    let octets = [
        2, 1, 6, 0, 0, 8, 0xA0, 6, 0x80, 4, node, high, low, 0, 0, 8, 0xA0, 6, 0x80, 4, node, high,
        low, 1,
    ];
    had(rt, Octets::of(alloc, &octets))
}

/// A node is given its next packet.
fn submission<R: Abort>(rt: &R, alloc: Global, world: &World, node: u8) -> Event {
    let place = node.saturating_sub(1);
    let taken = Taken {
        node: place,
        number: packets_at(world, place).saturating_add(1),
    };
    let packet = packet_of(rt, alloc, taken);
    Event::Submit { node, packet }
}

/// How many packets the node in this place took.
fn packets_at(world: &World, node: u8) -> u64 {
    match world.nodes().get(usize::from(node)) {
        Some(kept) => kept.node().counts().packets,
        None => 0,
    }
}

/// What happens next. Half of it are messages, mostly late ones.
fn draw<R: Abort>(rt: &R, alloc: Global, lots: &mut Lots, world: &World) -> Event {
    let lot = lots.below(24);
    if lot == 0 {
        submission(rt, alloc, world, lots.node())
    } else {
        drawn(lots, world.messages().len() as u64, lot)
    }
}

/// What this lot stands for, where so many messages were sent.
fn drawn(lots: &mut Lots, sent: u64, lot: u64) -> Event {
    match lot {
        1..=4 => Event::Tick { node: lots.node() },
        5..=8 => Event::Commit {
            gateway: lots.gateway(),
        },
        9 | 10 => rare(lots),
        11..=20 => Event::Deliver {
            message: sent.saturating_sub(lots.below(6)).max(1),
        },
        _ => Event::Deliver {
            message: lots.below(sent.saturating_add(1)).saturating_add(1),
        },
    }
}

/// What happens now and then.
fn rare(lots: &mut Lots) -> Event {
    match lots.below(12) {
        0 => Event::Cut {
            gateway: lots.gateway(),
            keep: lots.below(40),
        },
        1 => Event::Halt { node: lots.node() },
        2 => Event::Mark {
            gateway: lots.gateway(),
        },
        3 => Event::Close {
            gateway: lots.gateway(),
        },
        4 | 5 => Event::Open {
            gateway: lots.gateway(),
        },
        6 | 7 => Event::Start { node: lots.node() },
        _ => Event::Redirect {
            gateway: lots.gateway(),
            cause: 63,
            to: None,
        },
    }
}

/// The messages behind these first ones are delivered, up to the last so far: how many are now no
/// longer under way.
fn flow<R: Abort>(rt: &R, alloc: Global, world: &mut World, before: u64) -> u64 {
    let sent = world.messages().len() as u64;
    for place in before..sent {
        delivers(rt, alloc, world, place.saturating_add(1));
    }
    sent
}

fn delivers<R: Abort>(rt: &R, alloc: Global, world: &mut World, message: u64) {
    does(rt, alloc, world, &Event::Deliver { message });
}

/// Both nodes ask whether the gateways are alive, and these make firm what they learn of them.
fn ticks<R: Abort>(rt: &R, alloc: Global, world: &mut World) {
    for place in 0..NODES {
        asks(rt, alloc, world, place.saturating_add(1));
    }
}

fn asks<R: Abort>(rt: &R, alloc: Global, world: &mut World, node: u8) {
    does(rt, alloc, world, &Event::Tick { node });
}

fn commits<R: Abort>(rt: &R, alloc: Global, world: &mut World) {
    for place in 0..GATEWAYS {
        commits_one(rt, alloc, world, place.saturating_add(1));
    }
}

fn commits_one<R: Abort>(rt: &R, alloc: Global, world: &mut World, gateway: u8) {
    does(rt, alloc, world, &Event::Commit { gateway });
}

/// Both nodes become alive at all gateways.
fn become_alive<R: Abort>(rt: &R, alloc: Global, world: &mut World) {
    ticks(rt, alloc, world);
    let asked = flow(rt, alloc, world, 0);
    let told = flow(rt, alloc, world, asked);
    let learnt = flow(rt, alloc, world, told);
    commits(rt, alloc, world);
    let _ = flow(rt, alloc, world, learnt);
}

/// Notes which packets of the present start of this node are resolved.
fn note<R: Abort>(rt: &R, resolved: &mut Vec<Taken>, world: &World, place: u8) {
    let Some(kept) = world.nodes().get(usize::from(place)) else {
        panic!(rt; "no node");
    };
    for before in 0..packets_at(world, place) {
        let taken = Taken {
            node: place,
            number: before.saturating_add(1),
        };
        note_one(rt, resolved, kept.node(), taken);
    }
}

fn note_one<R: Abort>(rt: &R, resolved: &mut Vec<Taken>, node: &Node, taken: Taken) {
    let phase = node.phase(taken.number);
    let is_resolved = phase == Phase::Resolved || phase == Phase::Done;
    if is_resolved && !resolved.contains(&taken) {
        assert!(rt; resolved.push(taken).is_ok());
    }
}

fn note_all<R: Abort>(rt: &R, resolved: &mut Vec<Taken>, world: &World) {
    for place in 0..NODES {
        note(rt, resolved, world, place);
    }
}

/// How many of these records have these octets.
fn count(records: &[FiledRecord], octets: &[u8]) -> usize {
    records
        .iter()
        .filter(|record| record.octets.octets() == octets)
        .count()
}

/// At how many places of all gateways' files these octets stand.
fn places(records: &[Vec<FiledRecord>], octets: &[u8]) -> usize {
    let mut found: usize = 0;
    for filed in records {
        found = found.saturating_add(count(filed, octets));
    }
    found
}

/// Whether a record of a packet stands as often as it should.
fn is_record_once(records: &[Vec<FiledRecord>], record: &[u8], is_resolved: bool) -> bool {
    let found = places(records, record);
    found == 1 || found == 0 && !is_resolved
}

/// Whether both records of a packet do.
fn is_packet_once(records: &[Vec<FiledRecord>], taken: Taken, is_resolved: bool) -> bool {
    is_record_once(records, &record_of(taken, 0), is_resolved)
        && is_record_once(records, &record_of(taken, 1), is_resolved)
}

/// Both records of each packet that a node took stand as often as they should.
fn are_once<R: Abort>(
    rt: &R,
    world: &World,
    records: &[Vec<FiledRecord>],
    node: u8,
    resolved: &[Taken],
) {
    for before in 0..packets_at(world, node) {
        let number = before.saturating_add(1);
        let taken = Taken { node, number };
        assert!(rt; is_packet_once(records, taken, resolved.contains(&taken)));
    }
}

/// The records that a gateway filed. There are none of a copy that is held or was cancelled.
fn filed_by<R: Abort>(rt: &R, alloc: Global, firm: &[HistoryEntry]) -> Vec<FiledRecord> {
    let records = had(rt, filed(alloc, firm));
    are_filed(rt, firm, &records);
    records
}

fn are_filed<R: Abort>(rt: &R, firm: &[HistoryEntry], records: &[FiledRecord]) {
    for record in records {
        let state = scan::state(firm, record.key);
        assert!(rt; state == KeyState::Filed || state == KeyState::Released);
    }
}

/// The records that each gateway filed.
fn records_of<R: Abort>(rt: &R, alloc: Global, world: &World) -> Vec<Vec<FiledRecord>> {
    let mut records = Vec::new(alloc);
    for gateway in world.gateways() {
        assert!(rt; records.push(filed_by(rt, alloc, gateway.firm())).is_ok());
    }
    records
}

/// Each record of each packet stands as often as it should.
fn check<R: Abort>(rt: &R, alloc: Global, world: &World, resolved: &[Taken]) {
    let records = records_of(rt, alloc, world);
    for node in 0..NODES {
        are_once(rt, world, &records, node, resolved);
    }
}

/// The clock moves to this minute.
fn goes_on<R: Abort>(rt: &R, alloc: Global, world: &mut World, minute: u64) {
    let now = moment(rt, minute.saturating_mul(60));
    does(rt, alloc, world, &Event::Moment { now });
}

/// An event happens, which the world may refuse.
fn happens<R: Abort>(rt: &R, alloc: Global, world: &mut World, lots: &mut Lots) {
    let event = draw(rt, alloc, lots, world);
    assert!(rt; stepped(alloc, world, &event) != Stepped::NoMemory);
}

/// A minute passes, in which an event happens.
fn passes<R: Abort>(
    rt: &R,
    alloc: Global,
    world: &mut World,
    lots: &mut Lots,
    resolved: &mut Vec<Taken>,
    minute: u64,
) {
    goes_on(rt, alloc, world, minute);
    happens(rt, alloc, world, lots);
    note_all(rt, resolved, world);
    check(rt, alloc, world, resolved);
}

/// The world of this seed after all its events.
fn run<R: Abort>(rt: &R, alloc: Global, seed: u64) -> World {
    let mut world = had(rt, World::new(alloc, GATEWAYS, NODES));
    let mut lots = Lots { state: seed };
    let mut resolved = Vec::new(alloc);
    become_alive(rt, alloc, &mut world);
    for minute in 0..EVENTS {
        passes(rt, alloc, &mut world, &mut lots, &mut resolved, minute);
    }
    world
}

/// With an entry more.
fn with_entry(mut seen: Seen, act: &HistoryAct) -> Seen {
    match act {
        HistoryAct::Seal { .. } => seen.seals = seen.seals.saturating_add(1),
        HistoryAct::Release { .. } => seen.releases = seen.releases.saturating_add(1),
        HistoryAct::Cancel { .. } => seen.cancels = seen.cancels.saturating_add(1),
        _ => {}
    }
    seen
}

fn with_entries(mut seen: Seen, entries: &[HistoryEntry]) -> Seen {
    for entry in entries {
        seen = with_entry(seen, &entry.act);
    }
    seen
}

/// With a world more.
fn with_world(mut seen: Seen, world: &World) -> Seen {
    for kept in world.nodes() {
        seen.resolved = seen.resolved.saturating_add(kept.node().counts().resolved);
    }
    for gateway in world.gateways() {
        seen = with_entries(seen, gateway.firm());
    }
    seen
}

#[test]
fn each_record_is_filed_once_in_random_worlds(rt: HostRuntime) {
    let mut seen = Seen {
        resolved: 0,
        seals: 0,
        releases: 0,
        cancels: 0,
    };
    for seed in SEEDS {
        seen = with_world(seen, &run(&rt, rt.alloc(), seed));
    }
    assert!(rt; seen.resolved > 0 && seen.seals > 0);
    assert!(rt; seen.releases > 0 && seen.cancels > 0);
}
