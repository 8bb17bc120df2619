//! Worlds that run: the worked stories, a node with all its starts, and refusals in their order.
ghost use Rattle.std.specs.Prelude.{◌≤◌};

use crate::calls::{does, had, moment, stepped};
use crate::world_stories::{
    ANSWER_LOST, COPY_LATE, Do, Kind, NODE, PACKET, STARTED_AGAIN, Story, TWO_DUPLICATES, kind_of,
};
use gw_base::{Addr, Caller, HistoryAct, HistoryEntry, Octets};
use node_core::{Phase, Port};
use once_core::{
    Event, KeptGateway, KeptNode, Stepped, World, WorldKind, addresses_of, node_address, node_id,
    port_at,
};
use std::alloc::Global;
use std::process::Abort;

/// The moment of the stories.
const NOW: u64 = 1_709_164_800;

/// A world of so many gateways and a node.
fn anew<R: Abort>(rt: &R, alloc: Global, gateways: u8) -> World
    requires some { 1 ≤ gateways }
    requires few { gateways ≤ 8 }
{
    had(rt, World::new(alloc, gateways, 1))
}

fn submission<R: Abort>(rt: &R, alloc: Global, node: u8) -> Event {
    let packet = had(rt, Octets::of(alloc, &PACKET));
    Event::Submit { node, packet }
}

fn event<R: Abort>(rt: &R, alloc: Global, play: Do) -> Event {
    match play {
        Do::Tick => Event::Tick { node: 1 },
        Do::Submit => submission(rt, alloc, 1),
        Do::Halt => Event::Halt { node: 1 },
        Do::Start => Event::Start { node: 1 },
        Do::GoesDown(gateway) => Event::Redirect {
            gateway,
            cause: 63,
            to: None,
        },
        Do::Commit(gateway) => Event::Commit { gateway },
        Do::Close(gateway) => Event::Close { gateway },
        Do::Deliver(message) => Event::Deliver { message },
    }
}

/// The world refuses an event.
fn refuses<R: Abort>(rt: &R, alloc: Global, world: &mut World, event: &Event, kind: WorldKind) {
    assert_eq!(rt; stepped(alloc, world, event), Stepped::Refused(kind));
}

fn play_one<R: Abort>(rt: &R, alloc: Global, world: &mut World, one: Do) {
    let event = event(rt, alloc, one);
    does(rt, alloc, world, &event);
}

fn play<R: Abort>(rt: &R, alloc: Global, world: &mut World, all: &[Do]) {
    for one in all {
        play_one(rt, alloc, world, *one);
    }
}

/// The first gateways of the world, for the number of them that stories have.
fn first_world<R: Abort>(rt: &R, alloc: Global, gateways: u8) -> World {
    if gateways == 3 {
        anew(rt, alloc, 3)
    } else {
        anew(rt, alloc, 2)
    }
}

/// All that waits is committed, the files of each gateway are closed, and that is committed.
fn ends<R: Abort>(rt: &R, alloc: Global, world: &mut World, gateways: u8) {
    for place in 0..gateways {
        ends_one(rt, alloc, world, place.saturating_add(1));
    }
}

fn ends_one<R: Abort>(rt: &R, alloc: Global, world: &mut World, gateway: u8) {
    let all = [Do::Commit(gateway), Do::Close(gateway), Do::Commit(gateway)];
    play(rt, alloc, world, &all);
}

/// The clock of all gateways moves.
fn comes_to_be<R: Abort>(rt: &R, alloc: Global, world: &mut World, seconds: u64) {
    let now = moment(rt, seconds);
    does(rt, alloc, world, &Event::Moment { now });
}

/// The world comes to its end: how many messages it had once the node was alive.
fn runs<R: Abort>(rt: &R, alloc: Global, world: &mut World, story: &Story) -> usize {
    comes_to_be(rt, alloc, world, NOW);
    play(rt, alloc, world, story.begins);
    let before = world.messages().len();
    play(rt, alloc, world, story.events);
    ends(rt, alloc, world, story.gateways);
    before
}

/// Entries are these, made at this moment. No session made one, and a Start bears the first moment.
fn check_kinds<R: Abort>(rt: &R, history: &[HistoryEntry], kinds: &[Kind], seconds: u64) {
    assert_eq!(rt; history.len(), kinds.len());
    for (entry, kind) in history.iter().zip(kinds) {
        check_entry(rt, entry, *kind, seconds);
    }
}

fn check_entry<R: Abort>(rt: &R, entry: &HistoryEntry, kind: Kind, seconds: u64) {
    let since = match &entry.act {
        HistoryAct::Start => 0,
        _ => seconds,
    };
    assert_eq!(rt; kind_of(entry), kind);
    assert_eq!(rt; entry.moment, moment(rt, since));
    assert_eq!(rt; entry.caller, Caller::NONE);
}

/// Each gateway has these entries, made at this moment, and all are firm.
fn check_entries<R: Abort>(rt: &R, world: &World, entries: &[&[Kind]], seconds: u64) {
    assert_eq!(rt; world.gateways().len(), entries.len());
    for (gateway, wanted) in world.gateways().iter().zip(entries) {
        check_gateway(rt, gateway, wanted, seconds);
    }
}

fn check_gateway<R: Abort>(rt: &R, gateway: &KeptGateway, wanted: &[Kind], seconds: u64) {
    check_kinds(rt, gateway.firm(), wanted, seconds);
    assert!(rt; gateway.rest().is_empty());
}

/// The messages behind the first ones have these octets.
fn check_sent<R: Abort>(rt: &R, world: &World, before: usize, sent: &[&[u8]]) {
    assert_eq!(rt; world.messages().len(), before.saturating_add(sent.len()));
    for (index, wanted) in sent.iter().enumerate() {
        check_message(rt, world, before.saturating_add(index), wanted);
    }
}

fn check_message<R: Abort>(rt: &R, world: &World, place: usize, wanted: &[u8]) {
    let Some(message) = world.messages().get(place) else {
        panic!(rt; "no message");
    };
    assert_eq!(rt; message.octets.octets(), wanted);
}

/// Each packet of the node is done, or isn't.
fn check_packets<R: Abort>(rt: &R, world: &World, packets: &[bool]) {
    let [kept] = world.nodes() else {
        panic!(rt; "no node");
    };
    assert_eq!(rt; kept.node().counts().packets, packets.len() as u64);
    for (index, is_done) in packets.iter().enumerate() {
        check_packet(rt, kept, (index as u64).saturating_add(1), *is_done);
    }
}

fn check_packet<R: Abort>(rt: &R, kept: &KeptNode, number: u64, is_done: bool) {
    assert_eq!(rt; kept.node().phase(number) == Phase::Done, is_done);
}

fn check<R: Abort>(rt: &R, alloc: Global, story: &Story) {
    let mut world = first_world(rt, alloc, story.gateways);
    let before = runs(rt, alloc, &mut world, story);
    check_entries(rt, &world, story.entries, NOW);
    check_sent(rt, &world, before, story.sent);
    check_packets(rt, &world, story.is_done);
}

#[test]
fn stories_come_to_what_they_should(rt: HostRuntime) {
    let alloc = rt.alloc();
    check(&rt, alloc, &ANSWER_LOST);
    check(&rt, alloc, &COPY_LATE);
    check(&rt, alloc, &TWO_DUPLICATES);
    check(&rt, alloc, &STARTED_AGAIN);
}

/// The octets of the first messages: each gateway is asked whether it is alive.
#[test]
fn a_tick_asks_who_is_alive(rt: HostRuntime) {
    let alloc = rt.alloc();
    let mut world = anew(&rt, alloc, 2);
    let done = Stepped::Done { first: 1, count: 2 };
    assert_eq!(rt; stepped(alloc, &mut world, &Event::Tick { node: 1 }), done);
    let asked = [0x4E, 4, 0, 7, 0, 0, 0xFB, 0, 4, 10, 0, 1, 1];
    check_sent(&rt, &world, 0, &[&asked, &asked]);
    let none = Stepped::Done { first: 3, count: 0 };
    assert_eq!(rt;
        stepped(alloc, &mut world, &Event::Commit { gateway: 2 }),
        none
    );
}

/// A world of two gateways and a node, whose moment is 7 and whose first gateway stopped.
fn first_stopped<R: Abort>(rt: &R, alloc: Global) -> World {
    let mut world = anew(rt, alloc, 2);
    comes_to_be(rt, alloc, &mut world, 7);
    does(
        rt,
        alloc,
        &mut world,
        &Event::Cut {
            gateway: 1,
            keep: 0,
        },
    );
    world
}

/// The events that such a world refuses, and why.
fn refusals<R: Abort>(rt: &R) -> [(Event, WorldKind); 9] {
    let now = moment(rt, 6);
    let (gateway, cause) = (1, 63);
    let to = Some(3);
    [
        (Event::Moment { now }, WorldKind::Earlier),
        (Event::Commit { gateway: 0 }, WorldKind::NoGateway),
        (Event::Commit { gateway: 3 }, WorldKind::NoGateway),
        (Event::Mark { gateway }, WorldKind::Stopped),
        (Event::Redirect { gateway, cause, to }, WorldKind::NoGateway),
        (Event::Open { gateway: 2 }, WorldKind::Running),
        (Event::Tick { node: 2 }, WorldKind::NoNode),
        (Event::Start { node: 1 }, WorldKind::Running),
        (Event::Deliver { message: 1 }, WorldKind::NoMessage),
    ]
}

fn refuses_all<R: Abort>(rt: &R, alloc: Global, world: &mut World, cases: &[(Event, WorldKind)]) {
    for (event, kind) in cases {
        refuses(rt, alloc, world, event, *kind);
    }
}

#[test]
fn the_first_reason_to_refuse_counts(rt: HostRuntime) {
    let alloc = rt.alloc();
    let mut world = first_stopped(&rt, alloc);
    refuses_all(&rt, alloc, &mut world, &refusals(&rt));
    let halt = Event::Halt { node: 1 };
    does(&rt, alloc, &mut world, &halt);
    refuses(&rt, alloc, &mut world, &halt, WorldKind::Halted);
}

/// How many messages there are: the number of the last.
fn sent(world: &World) -> u64 {
    world.messages().len() as u64
}

/// The node, which has no packet yet, becomes alive at the one gateway, which learns its counter.
fn becomes_alive<R: Abort>(rt: &R, alloc: Global, world: &mut World) {
    play(rt, alloc, world, &[Do::Tick]);
    let asked = sent(world);
    let answers = [
        Do::Deliver(asked),
        Do::Deliver(asked.saturating_add(1)),
        Do::Deliver(asked.saturating_add(2)),
        Do::Commit(1),
        Do::Deliver(asked.saturating_add(3)),
    ];
    play(rt, alloc, world, &answers);
}

/// The node becomes alive and sends a copy of a packet: the number of that message.
fn sends_a_copy<R: Abort>(rt: &R, alloc: Global, world: &mut World) -> u64 {
    becomes_alive(rt, alloc, world);
    play(rt, alloc, world, &[Do::Submit, Do::Tick]);
    sent(world)
}

/// The node halts and starts again, 254 times, and becomes alive each time.
fn starts_often<R: Abort>(rt: &R, alloc: Global, world: &mut World) {
    for _ in 0..254_u8 {
        starts_again(rt, alloc, world);
    }
}

fn starts_again<R: Abort>(rt: &R, alloc: Global, world: &mut World) {
    play(rt, alloc, world, &[Do::Halt, Do::Start]);
    becomes_alive(rt, alloc, world);
}

/// A packet is filed at the one gateway.
fn files<R: Abort>(rt: &R, alloc: Global, world: &mut World) {
    play(rt, alloc, world, &[Do::Submit, Do::Tick]);
    let copy = sent(world);
    let answers = [
        Do::Deliver(copy),
        Do::Commit(1),
        Do::Deliver(copy.saturating_add(1)),
    ];
    play(rt, alloc, world, &answers);
}

/// The one gateway learnt each counter from 1 to 255, and then filed a packet; all of it is firm.
fn check_counters<R: Abort>(rt: &R, world: &World) {
    let [gateway] = world.gateways() else {
        panic!(rt; "not one gateway");
    };
    assert_eq!(rt; gateway.firm().len(), 257);
    for (place, entry) in gateway.firm().iter().enumerate() {
        check_entry(rt, entry, kind_at(place), 0);
    }
    assert!(rt; gateway.rest().is_empty());
}

/// What the entry in a place is then.
fn kind_at(place: usize) -> Kind {
    match place {
        0 => Kind::Opened,
        1..=255 => Kind::Learnt(place as u8),
        _ => Kind::Filed(65_536),
    }
}

/// A node has 255 starts, and each is told to a gateway. A copy that was sent in the first of them
/// comes to nothing in the last.
#[test]
fn a_node_starts_255_times(rt: HostRuntime) {
    let alloc = rt.alloc();
    let mut world = anew(&rt, alloc, 1);
    let message = sends_a_copy(&rt, alloc, &mut world);
    starts_often(&rt, alloc, &mut world);
    files(&rt, alloc, &mut world);
    check_counters(&rt, &world);
    check_packets(&rt, &world, &[false, true]);
    comes_to_nothing(&rt, alloc, &mut world, message);
    check_counters(&rt, &world);
    starts_no_more(&rt, alloc, &mut world);
}

/// A message is delivered, and nothing is sent.
fn comes_to_nothing<R: Abort>(rt: &R, alloc: Global, world: &mut World, message: u64) {
    let first = sent(world).saturating_add(1);
    let nothing = Stepped::Done { first, count: 0 };
    assert_eq!(rt; stepped(alloc, world, &Event::Deliver { message }), nothing);
}

/// The node halts, and doesn't start again.
fn starts_no_more<R: Abort>(rt: &R, alloc: Global, world: &mut World) {
    play(rt, alloc, world, &[Do::Halt]);
    refuses(
        rt,
        alloc,
        world,
        &Event::Start { node: 1 },
        WorldKind::Restarts,
    );
}

/// Gateways stand one after the other from 10.0.0.1 on, and nodes from 10.0.1.1 on.
#[test]
fn gateways_and_nodes_have_addresses(rt: HostRuntime) {
    let gateways = had(&rt, addresses_of(rt.alloc(), 2));
    let wanted = [
        Addr {
            ip: 0x0A00_0001,
            port: 3_386,
        },
        Addr {
            ip: 0x0A00_0002,
            port: 3_386,
        },
    ];
    assert_eq!(rt; gateways.as_slice(), wanted.as_slice());
    assert_eq!(rt; node_id(0), NODE);
    let second = Addr {
        ip: 0x0A00_0110,
        port: 40_002,
    };
    assert_eq!(rt; node_address(15, Port::Second), second);
    assert_eq!(rt; port_at(second), Port::Second);
}
