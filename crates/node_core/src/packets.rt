ghost use Rattle.std.specs.Prelude.{◌≡◌, ◌≤◌, ◌+◌, ◌-◌, ◌++◌, ◌∷◌, [], length, map, take, drop, IfOk, OnOk, OnErr, option_map, slice_get, if◌then◌else◌};
ghost use Rattle.std.specs.List.{list_any};
ghost use Rattle.std.specs.Option.{option_or};
ghost use Rattle.node_core.specs.Counting.{packet_numbered};
ghost use Rattle.node_core.specs.Hearing.{first_made};
ghost use Rattle.node_core.specs.Log.{done_among, resolved_among};
ghost use Rattle.node_core.specs.Moving.{waits_at};
ghost use Rattle.node_core.specs.Packets.{is_done, is_resolved, packet_hearing, while_open};
ghost use Rattle.node_core.specs.Peers.{AreNumbers, all_drawn};
ghost use Rattle.node_core.specs.Sendings.{due_for_all};
ghost use Rattle.node_core.specs.Sound.{AllDone, AreNumbered, IsSettled, planned};
ghost use Rattle.node_core.specs.Submitting.{oldest_number, open_among};

use crate::counts::Tally;
use crate::due::Aim;
use crate::node_packet::NodePacket;
use crate::peer::Peer;
use crate::plan::plan_all;
use crate::port::Port;
use crate::responded::Responded;
use crate::sending::Sending;
use gw_base::NoMemory;
use std::alloc::Global;
use std::marker::Model;

/// The packets since a node's start, in order of submission. Those before the first open one are
/// all done, and cost nothing more.
#[derive(Drop)]
pub(crate) struct Packets {
    packets: Vec<NodePacket>,
    first: usize,
}

impl Model for Packets {
    ghost use Rattle.node_core.specs.Sound.{IsSettled, KeptPackets};

    ghost Value = { KeptPackets };

    ghost view = { λ p. record { packets = p.packets.items; settled = p.first } };

    ghost invariant = { λ p. IsSettled (record { packets = p.packets.items; settled = p.first }) };
}

/// The first packets that became resolved, and done.
#[derive(Clone, Copy)]
pub(crate) struct Made {
    pub resolved: Option<u64>,
    pub done: Option<u64>,
}

impl Made {
    /// What was made first, where `later` was made later.
    fn or(self, later: Made) -> Made
        ensures { result ≡ record {
          resolved = option_or self.resolved later.resolved;
          done = option_or self.done later.done;
        } }
    {
        Made {
            resolved: first_of(self.resolved, later.resolved),
            done: first_of(self.done, later.done),
        }
    }
}

fn first_of(one: Option<u64>, other: Option<u64>) -> Option<u64>
    ensures { result ≡ option_or one other }
{
    match one {
        Some(number) => Some(number),
        None => other,
    }
}

/// A packet hears a response; tells whether that made it resolved, and done.
fn hear_one(
    packet: &mut NodePacket,
    port: Port,
    gateway: u8,
    cause: u8,
    numbers: &Responded<'_>,
) -> Made
    ensures packet { packet.new ≡ while_open (packet_hearing port gateway cause numbers.now) packet.old }
    ensures resolved { result.resolved
        ≡ first_made is_resolved (while_open (packet_hearing port gateway cause numbers.now)) (packet.old ∷ []) }
    ensures done { result.done
        ≡ first_made is_done (while_open (packet_hearing port gateway cause numbers.now)) (packet.old ∷ []) }
{
    let was_resolved = packet.is_resolved();
    let was_done = packet.is_done();
    packet.hear(port, gateway, cause, numbers);
    Made {
        resolved: number_if(!was_resolved && packet.is_resolved(), packet.number()),
        done: number_if(!was_done && packet.is_done(), packet.number()),
    }
}

fn number_if(holds: bool, number: u64) -> Option<u64>
    ensures { result ≡ (if holds then Some number else None) }
{
    if holds { Some(number) } else { None }
}

/// How many of these packets are open.
fn count_open(packets: &[NodePacket]) -> usize
    ensures { result ≡ open_among packets.now }
{
    packets.iter().filter(|packet| !packet.is_done()).count()
}

/// How many of them are resolved.
pub(crate) fn count_resolved(packets: &[NodePacket]) -> usize
    ensures count { result ≡ resolved_among packets.now }
    ensures most { result ≤ length packets.now }
{
    packets.iter().filter(|packet| packet.is_resolved()).count()
}

/// How many of them are done.
pub(crate) fn count_done(packets: &[NodePacket]) -> usize
    ensures count { result ≡ done_among packets.now }
    ensures most { result ≤ length packets.now }
{
    packets.iter().filter(|packet| packet.is_done()).count()
}

/// Whether an open one has a copy at this gateway of which nothing is known.
pub(crate) fn wait_at(gateway: u8, packets: &[NodePacket]) -> bool
    ensures { result ≡ list_any (waits_at gateway) packets.now }
{
    packets.iter().any(|packet| packet.waits_at(gateway))
}

/// The least of their unsettled numbers at a gateway and of one more.
#[tactic(auto, using(crate::proofs::SettledLemmas::oldest_more, crate::proofs::SettledLemmas::oldest_none))]
fn oldest_at(gateway: u8, next: u64, packets: &[NodePacket]) -> u64
    ensures { result ≡ oldest_number gateway next packets.now }
{
    let mut oldest = next;
    for packet in packets {
        oldest = packet.least_at(gateway, oldest);
    }
    oldest
}

/// The packets hear a response from a gateway, of which those before `from` are done; tells the
/// first that it made resolved, and done.
fn hear_all(
    packets: &mut [NodePacket],
    from: usize,
    port: Port,
    gateway: u8,
    cause: u8,
    numbers: &Responded<'_>,
) -> Made
    requires within { from ≤ length packets.old }
    requires done { AllDone (take from packets.old) }
    ensures packets { packets.new ≡ map (while_open (packet_hearing port gateway cause numbers.now)) packets.old }
    ensures resolved { result.resolved
        ≡ first_made is_resolved (while_open (packet_hearing port gateway cause numbers.now)) packets.old }
    ensures done { result.done
        ≡ first_made is_done (while_open (packet_hearing port gateway cause numbers.now)) packets.old }
    ensures still { AllDone (take from packets.new) }
{
    let mut made = Made {
        resolved: None,
        done: None,
    };
    for i in from..packets.len() {
        let packet = &mut packets[i];
        made = made.or(hear_one(packet, port, gateway, cause, numbers));
    }
    made
}

/// The place of the first open packet, from one on before which all are done.
#[tactic(auto, using(crate::proofs::SettledLemmas::one_more_done))]
fn first_open(packets: &[NodePacket], from: usize) -> usize
    requires within { from ≤ length packets.now }
    requires done { AllDone (take from packets.now) }
    ensures within { result ≤ length packets.now }
    ensures done { AllDone (take result packets.now) }
{
    let mut first = from;
    while first < packets.len() && packets[first].is_done() {
        first += 1;
    }
    first
}

impl Packets {
    /// No packets. It takes no memory.
    pub fn new(alloc: Global) -> Packets
        ensures { result.packets ≡ [] }
    {
        Packets {
            packets: Vec::new(alloc),
            first: 0,
        }
    }

    /// How many there are.
    pub fn len(&self) -> usize
        ensures { result ≡ length self.now.packets }
    {
        self.packets.len()
    }

    /// The packet at a place.
    pub fn at(&self, place: usize) -> Option<&NodePacket>
        ensures { option_map (λ packet. packet.now) result ≡ slice_get self.now.packets place }
    {
        self.packets.get(place)
    }

    /// The packet with this number, where the last of them has the number `last`.
    pub fn numbered(&self, last: u64, number: u64) -> Option<&NodePacket>
        requires within { length self.now.packets ≤ last }
        requires numbered { AreNumbered (last - length self.now.packets) self.now.packets }
        ensures { option_map (λ packet. packet.now) result ≡ packet_numbered self.now.packets number }
    {
        let before = last - self.packets.len() as u64;
        if number <= before {
            return None;
        }
        self.at((number - before - 1) as usize)
    }

    /// Adds a packet without copies. Without memory nothing changes.
    pub fn push(&mut self, alloc: Global, number: u64) -> Result<(), NoMemory>
        ensures ok { OnOk result (self.new.packets ≡ self.old.packets ++ record { number = number; copies = [] } ∷ []) }
        ensures err { OnErr result (self.new ≡ self.old) }
    {
        self.packets.push(NodePacket::new(alloc, number))?;
        Ok(())
    }

    /// Forgets the packets.
    pub fn clear(&mut self)
        ensures { self.new.packets ≡ [] }
    {
        self.packets.clear();
        self.first = 0;
    }

    /// The packets from the first open one on.
    fn open(&self) -> &[NodePacket]
        ensures packets { result.now ≡ drop self.now.settled self.now.packets }
        ensures settled { IsSettled self.now }
    {
        let (_, open) = self.packets.as_slice().split_at(self.first);
        open
    }

    /// How many are open.
    #[tactic(auto, using(crate::proofs::SettledLemmas::open_settled))]
    pub fn count_open(&self) -> usize
        ensures { result ≡ open_among self.now.packets }
    {
        count_open(self.open())
    }

    /// How many are resolved, and how many are done.
    #[tactic(auto, using(crate::proofs::SettledLemmas::resolved_settled, crate::proofs::SettledLemmas::done_settled))]
    pub fn tally(&self) -> Tally
        ensures tally { result ≡ record {
          resolved = resolved_among self.now.packets;
          done = done_among self.now.packets;
        } }
        ensures resolved { result.resolved ≤ length self.now.packets }
        ensures done { result.done ≤ length self.now.packets }
    {
        let open = self.open();
        let settled = self.packets.len() - open.len();
        Tally {
            resolved: (settled + count_resolved(open)) as u64,
            done: (settled + count_done(open)) as u64,
        }
    }

    /// Whether an open packet has a copy at this gateway of which nothing is known.
    #[tactic(auto, using(crate::proofs::SettledLemmas::waits_settled))]
    pub fn wait_at(&self, gateway: u8) -> bool
        ensures { result ≡ list_any (waits_at gateway) self.now.packets }
    {
        wait_at(gateway, self.open())
    }

    /// The least unsettled number of a gateway, or the next one where none is unsettled.
    #[tactic(auto, using(crate::proofs::SettledLemmas::oldest_settled))]
    pub fn oldest_at(&self, gateway: u8, next: u64) -> u64
        ensures { result ≡ oldest_number gateway next self.now.packets }
    {
        oldest_at(gateway, next, self.open())
    }

    /// They hear a response from a gateway. It takes no memory.
    pub fn hear(&mut self, port: Port, gateway: u8, cause: u8, numbers: &Responded<'_>) -> Made
        ensures packets { self.new.packets
            ≡ map (while_open (packet_hearing port gateway cause numbers.now)) self.old.packets }
        ensures resolved { result.resolved
            ≡ first_made is_resolved (while_open (packet_hearing port gateway cause numbers.now)) self.old.packets }
        ensures done { result.done
            ≡ first_made is_done (while_open (packet_hearing port gateway cause numbers.now)) self.old.packets }
    {
        let first = self.first;
        let made = hear_all(&mut self.packets, first, port, gateway, cause, numbers);
        self.first = first_open(&self.packets, first);
        made
    }

    /// Plans what is due for them: the packets from the first open one on as they are after the
    /// tick, and what is sent.
    pub fn plan(
        &self,
        alloc: Global,
        aim: Aim,
        peers: &mut [Peer],
        sendings: &mut Vec<Sending>,
    ) -> Result<Vec<NodePacket>, NoMemory>
        requires { AreNumbers peers.old }
        ensures packets { IfOk result (λ after. after.items
            ≡ planned aim.favourite aim.is_alive peers.old (drop self.now.settled self.now.packets)) }
        ensures sendings { OnOk result (sendings.new.items
            ≡ sendings.old.items ++ due_for_all aim.favourite aim.is_alive peers.old self.now.packets) }
        ensures peers { OnOk result (peers.new
            ≡ all_drawn (due_for_all aim.favourite aim.is_alive peers.old self.now.packets) peers.old) }
        ensures numbers { AreNumbers peers.new }
        ensures settled { IsSettled self.now }
    {
        let unsettled = self.open();
        let mut after = Vec::with_capacity(alloc, unsettled.len())?;
        plan_all(alloc, aim, peers, unsettled, &mut after, sendings)?;
        Ok(after)
    }

    /// Puts planned packets in the place of those from the first open one on. It takes no memory.
    pub fn replace(&mut self, mut after: Vec<NodePacket>)
        requires { length after.items + self.old.settled ≡ length self.old.packets }
        ensures { self.new.packets ≡ take self.old.settled self.old.packets ++ after.items }
    {
        let first = self.first;
        self.packets[first..].swap_with_slice(&mut after);
    }
}
