// A replay: its gateways, nodes and messages.
ghost use Rattle.std.specs.Prelude.{◌≡◌, ◌∷◌, ◌++◌, ◌<◌, ◌≤◌, [], ℕ, IfOk, List, OnOk, Some, length, vec_capacity, vec_len};
ghost use Rattle.node_core.specs.Log.{Began};
ghost use Rattle.once_core.specs.Addresses.{addresses_from};
ghost use Rattle.once_core.specs.Beginning.{first_gateway, times_of};
ghost use Rattle.once_core.specs.Gateway.{Gateway};
ghost use Rattle.replay_world.specs.Played.{EachHandedOut, HasPlayed, HaveRoom};
ghost use Rattle.replay_world.specs.Sending.{HasSent};
ghost use Rattle.replay_gateway.specs.Settings.{AreSet, AreSound};
ghost use Rattle.replay_world.specs.Settled.{AreWritten, HasPlayedOut};
ghost use Rattle.replay_gateway.specs.Setup.{Setup, rules_in, setup_of};
ghost use Rattle.replay_world.specs.Stands.{EachStands, Stands, nodes_from};
ghost use Rattle.replay_gateway.specs.Machine.{Machine as MachineValue, first_machine};
ghost use Rattle.replay_world.specs.Value.{ReplayValue, replay_of};

use crate::notices::print_sent;
use area_disk::MemoryArea;
use cdr_shelf::MemoryShelf;
use gw_base::{Addr, Moment, NoMemory, Octets};
use indexmap::IndexSet;
use node_core::Node;
use once_core::world_laws::turns_reach_worlds;
use once_core::{Message, addresses_of, node_id};
use replay_gateway::laws::a_gateway_that_wrote_all_rests;
use replay_gateway::{Machine, Settings, rules_of};
use std::alloc::Global;
use world_script::Script;

/// A network from a script.
#[derive(Drop)]
pub struct Replay {
    pub(crate) gateways: Vec<Machine>,
    pub(crate) nodes: Vec<Node>,
    /// The present moment.
    pub(crate) moment: Moment,
    pub(crate) messages: Vec<Message>,
    /// The messages that wait, by their numbers from 1, in order.
    pub(crate) waiting: IndexSet<u64>,
    /// Places for the areas and the shelves of all gateways, which `into_played` fills.
    pub(crate) areas: Vec<MemoryArea>,
    pub(crate) shelves: Vec<MemoryShelf>,
    /// Whether there was no memory for something, so that it does nothing more.
    pub(crate) has_failed: bool,
}

/// What a replay ran: the areas and the shelves of its gateways, and its nodes, each in order of their numbers.
#[derive(Drop)]
pub struct Played {
    /// The area of each gateway, which keeps its whole history: of one that is up the firm entries, and maybe those
    /// that aren't firm yet.
    pub areas: Vec<MemoryArea>,
    /// The shelf of each gateway, which has all files that are closed by the items that were written.
    pub shelves: Vec<MemoryShelf>,
    /// Each node as it ended.
    pub nodes: Vec<Node>,
}

impl Replay {
    /// All gateways of a script, opened on empty areas, and all its nodes, which run. `NoMemory`: there was no memory
    /// for them.
    pub fn new(alloc: Global, script: &Script) -> Result<Replay, NoMemory>
        ensures stands { IfOk result (Stands (replay_of script.now.lines)) }
        ensures gateways { OnOk result (1 ≤ (setup_of script.now.lines).gateways) }
    {
        turns_reach_worlds();
        let settings = Settings::of(script);
        let gateways = machines_of(alloc, script, &settings)?;
        let addresses = addresses_of(alloc, settings.gateways)?;
        let nodes = nodes_of(alloc, &addresses, settings.nodes)?;
        let Some(moment) = Moment::of(0) else {
            unreachable!();
        };
        Ok(Replay {
            gateways,
            nodes,
            moment,
            messages: Vec::new(alloc),
            waiting: IndexSet::new(alloc),
            areas: Vec::with_capacity(alloc, usize::from(settings.gateways))?,
            shelves: Vec::with_capacity(alloc, usize::from(settings.gateways))?,
            has_failed: false,
        })
    }

    /// Sends a message: it is printed and waits.
    pub(crate) fn send(
        &mut self,
        alloc: Global,
        message: Message,
        out: &mut Octets,
    ) -> Result<(), NoMemory>
        ensures { OnOk result (HasSent (message ∷ []) out.old out.new self.old self.new) }
    {
        let number = self.messages.len() as u64 + 1;
        print_sent(alloc, out, number, &message)?;
        self.messages.push(message)?;
        let Ok(_) = self.waiting.insert(number) else {
            return Err(NoMemory);
        };
        Ok(())
    }

    /// Sends messages, one after the other.
    pub(crate) fn send_all(
        &mut self,
        alloc: Global,
        messages: Vec<Message>,
        out: &mut Octets,
    ) -> Result<(), NoMemory>
        ensures { OnOk result (HasSent messages.items out.old out.new self.old self.new) }
    {
        for message in messages {
            self.send(alloc, message, out)?;
        }
        Ok(())
    }

    /// What it ran: the area and the shelf of each gateway, and the nodes. It takes no memory.
    pub fn into_played(self) -> Played
        ensures played { (v : ReplayValue) → Stands v self → HasPlayed v result }
        ensures at_rest { (v : ReplayValue) → Stands v self → AreWritten v → HasPlayedOut v result }
    {
        a_gateway_that_wrote_all_rests();
        let Replay {
            gateways,
            nodes,
            moment: _,
            messages: _,
            waiting: _,
            areas,
            shelves,
            has_failed: _,
        } = self;
        let (areas, shelves) = hand_out(gateways, areas, shelves);
        Played {
            areas,
            shelves,
            nodes,
        }
    }
}

/// All gateways of a script with these settings, opened on empty areas.
fn machines_of(
    alloc: Global,
    script: &Script,
    settings: &Settings,
) -> Result<Vec<Machine>, NoMemory>
    requires { AreSound settings.now }
    ensures { AreSet (setup_of script.now.lines) settings.now → IfOk result (λ gateways.
        EachStands (setup_of script.now.lines) 0
        (times_of settings.now.gateways (first_gateway (rules_in (setup_of script.now.lines))))
        (times_of settings.now.gateways first_machine) gateways.items) }
{
    let mut gateways = Vec::new(alloc);
    for place in 0..settings.gateways {
        let rules = rules_of(alloc, script)?;
        let machine = Machine::new(alloc, place, settings, rules)?;
        gateways.push(machine)?;
    }
    Ok(gateways)
}

/// So many nodes that know these gateways, which run.
fn nodes_of(alloc: Global, addresses: &[Addr], count: u8) -> Result<Vec<Node>, NoMemory>
    requires some { 1 ≤ length addresses.now }
    requires most { length addresses.now ≤ 255 }
    ensures { (gateways : ℕ) → addresses.now ≡ addresses_from 0 gateways →
        IfOk result (λ nodes. nodes.items ≡ nodes_from gateways 0 (times_of count (Began ∷ []))) }
{
    let mut nodes = Vec::new(alloc);
    for place in 0..count {
        let node = Node::new(alloc, node_id(place).0, addresses, 1)?;
        nodes.push(node)?;
    }
    Ok(nodes)
}

/// The areas and the shelves of gateways, for which there is room behind these.
fn hand_out(
    machines: Vec<Machine>,
    areas: Vec<MemoryArea>,
    shelves: Vec<MemoryShelf>,
) -> (Vec<MemoryArea>, Vec<MemoryShelf>)
    ensures { (setup : Setup) (gs : List Gateway) (ms : List MachineValue) → EachStands setup 0 gs ms machines.items →
        HaveRoom (length machines.items) areas.items (vec_capacity areas) shelves.items (vec_capacity shelves) →
        EachHandedOut setup 0 gs ms result.0.items result.1.items }
{
    let mut areas = areas;
    let mut shelves = shelves;
    for machine in machines {
        let (area, shelf) = machine.into_parts();
        keep(area, shelf, &mut areas, &mut shelves);
    }
    (areas, shelves)
}

/// An area and a shelf join others, where there is room for them.
fn keep(
    area: Option<MemoryArea>,
    shelf: MemoryShelf,
    areas: &mut Vec<MemoryArea>,
    shelves: &mut Vec<MemoryShelf>,
)
    ensures areas { (a : MemoryArea) → area ≡ Some a → vec_len areas.old < vec_capacity areas.old →
        (areas.new.items ≡ areas.old.items ++ a ∷ []) × (vec_capacity areas.old ≤ vec_capacity areas.new) }
    ensures shelves { vec_len shelves.old < vec_capacity shelves.old →
        (shelves.new.items ≡ shelves.old.items ++ shelf ∷ [])
        × (vec_capacity shelves.old ≤ vec_capacity shelves.new) }
{
    if let Some(area) = area {
        let _kept = areas.push(area);
    }
    let _kept = shelves.push(shelf);
}
