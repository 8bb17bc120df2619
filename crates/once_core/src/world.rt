// A world of gateways and nodes that runs.
ghost use Rattle.std.specs.Prelude.{◌≡◌, ◌≤◌, [], ◌∷◌, None, true, IfOk, OnOk};
ghost use Rattle.node_core.specs.Log.{Began};
ghost use Rattle.once_core.specs.Beginning.{default_rules, first_gateway, times_of};
ghost use Rattle.once_core.specs.Standing.{nodes_kept};

use crate::event::{Event, Stepped};
use crate::gateway::KeptGateway;
use crate::message::Message;
use crate::node_turn::KeptNode;
use crate::refusing::place_of;
use crate::room::first_moment;
use crate::world_laws::{each_record_is_filed_once, each_record_stands_once, turns_reach_worlds};
use gw_base::{Moment, NoMemory, Octets};
use std::alloc::Global;
use std::marker::Model;

/// Gateways and nodes, with all messages ever sent between them. No device fails in it.
#[derive(Drop)]
pub struct World {
    pub(crate) gateways: Vec<KeptGateway>,
    pub(crate) nodes: Vec<KeptNode>,
    pub(crate) moment: Moment,
    pub(crate) messages: Vec<Message>,
    /// Whether memory was wanted once: nothing is played any more.
    pub(crate) is_spent: bool,
}

impl Model for World {
    ghost use Rattle.once_core.specs.Standing.{WorldKept};

    ghost Value = { WorldKept };

    ghost use Rattle.once_core.specs.WorldFields.{world_value};

    ghost view = { world_value };

    ghost use Rattle.std.specs.Prelude.{◌≤◌, length};

    ghost invariant = { λ w. length w.gateways.items ≤ 8 };
}

impl World {
    ghost use Rattle.once_core.specs.Beginning.{IsReached, world_of};
    ghost use Rattle.once_core.specs.KeptTurn.{no_message, no_running_node, reaching, refusal_kept, refusal_to_start, turn_kept};
    ghost use Rattle.once_core.specs.Standing.{Stands};
    ghost use Rattle.once_core.specs.Stepping.{FilesOnce, StepGives};
    ghost use Rattle.once_core.specs.World as of;

    /// A world of 1 to 8 gateways and 1 to 16 nodes, all of which run. `NoMemory`: there was no memory
    /// for them.
    pub fn new(alloc: Global, gateways: u8, nodes: u8) -> Result<World, NoMemory>
        requires gateways { 1 ≤ gateways × gateways ≤ 8 }
        requires nodes { 1 ≤ nodes × nodes ≤ 16 }
        ensures { IfOk result (λ world. Stands (world_of default_rules gateways nodes) world) }
    {
        Ok(World {
            gateways: first_gateways(alloc, gateways)?,
            nodes: first_nodes(alloc, gateways, nodes)?,
            moment: first_moment(),
            messages: Vec::new(alloc),
            is_spent: false,
        })
    }

    /// Its gateways, in the order of their numbers.
    pub fn gateways(&self) -> &[KeptGateway]
        ensures { result.now ≡ self.now.gateways }
    {
        &self.gateways
    }

    /// Its nodes, in the order of their numbers.
    pub fn nodes(&self) -> &[KeptNode]
        ensures { result.now ≡ self.now.nodes }
    {
        &self.nodes
    }

    /// All messages that were ever sent, in order: that with number 1 is the first.
    pub fn messages(&self) -> &[Message]
        ensures { result.now ≡ self.now.messages }
    {
        &self.messages
    }

    /// Plays an event, where the world allows it. A refusal takes no memory. Where memory was wanted
    /// once, each later step answers so, too.
    pub fn step(&mut self, alloc: Global, event: &Event) -> Stepped
        ensures gives { (w : of.World) → Stands w self.old → StepGives w event.now self.new result }
        ensures once { (w : of.World) → Stands w self.old → IsReached w → FilesOnce w event.now self.new result }
        ensures spent { self.old.is_spent ≡ true → result ≡ Stepped.NoMemory }
        ensures stays_spent { self.old.is_spent ≡ true → self.new.is_spent ≡ true }
    {
        node_core::a_node_stands_for_its_log();
        turns_reach_worlds();
        each_record_is_filed_once();
        each_record_stands_once();
        if self.is_spent {
            return Stepped::NoMemory;
        }
        if let Some(kind) = self.refusal_of(event) {
            return Stepped::Refused(kind);
        }
        let before = self.messages.len() as u64;
        match self.play(alloc, event) {
            Ok(()) => Stepped::Done {
                first: before + 1,
                count: self.messages.len() as u64 - before,
            },
            Err(NoMemory) => {
                self.is_spent = true;
                Stepped::NoMemory
            }
        }
    }

    /// Plays an event that the world allows.
    fn play(&mut self, alloc: Global, event: &Event) -> Result<(), NoMemory>
        requires { refusal_kept self.old event.now ≡ None }
        ensures { OnOk result (self.new ≡ turn_kept self.old event.now) }
    {
        match event {
            Event::Submit { node, packet } => self.submit(alloc, *node, packet),
            Event::Tick { node } => self.tick(alloc, *node),
            Event::Halt { node } => Ok(self.halt(*node)),
            Event::Start { node } => Ok(self.start(*node)),
            Event::Deliver { message } => self.deliver(alloc, *message),
            Event::Moment { now } => {
                self.moment = *now;
                Ok(())
            }
            Event::Commit { gateway } => self.commit(alloc, *gateway),
            Event::Cut { gateway, keep } => Ok(self.cut(*gateway, *keep)),
            Event::Open { gateway } => self.open(alloc, *gateway),
            Event::Redirect { gateway, cause, to } => self.redirect(alloc, *gateway, *cause, *to),
            Event::Mark { gateway } => self.mark(alloc, *gateway),
            Event::Close { gateway } => self.close(alloc, *gateway),
        }
    }

    fn submit(&mut self, alloc: Global, number: u8, packet: &Octets) -> Result<(), NoMemory>
        requires { no_running_node self.old number ≡ None }
        ensures { OnOk result (self.new ≡ turn_kept self.old (Event.Submit number packet.now)) }
    {
        match self.nodes.get_mut(place_of(number)) {
            Some(node) => node.submit(alloc, packet),
            None => Ok(()),
        }
    }

    fn tick(&mut self, alloc: Global, number: u8) -> Result<(), NoMemory>
        requires { no_running_node self.old number ≡ None }
        ensures { OnOk result (self.new ≡ turn_kept self.old (Event.Tick number)) }
    {
        match self.nodes.get_mut(place_of(number)) {
            Some(node) => node.tick(alloc, number.saturating_sub(1), &mut self.messages),
            None => Ok(()),
        }
    }

    fn halt(&mut self, number: u8)
        requires { no_running_node self.old number ≡ None }
        ensures { self.new ≡ turn_kept self.old (Event.Halt number) }
    {
        if let Some(node) = self.nodes.get_mut(place_of(number)) {
            node.halt();
        }
    }

    fn start(&mut self, number: u8)
        requires { refusal_to_start self.old number ≡ None }
        ensures { self.new ≡ turn_kept self.old (Event.Start number) }
    {
        if let Some(node) = self.nodes.get_mut(place_of(number)) {
            node.start();
        }
    }

    /// A message reaches its receiver.
    fn deliver(&mut self, alloc: Global, number: u64) -> Result<(), NoMemory>
        requires { no_message self.old number ≡ None }
        ensures { OnOk result (self.new ≡ turn_kept self.old (Event.Deliver number)) }
    {
        match self.messages.get(number.saturating_sub(1) as usize) {
            Some(message) => {
                let message = message.copy(alloc)?;
                self.reach(alloc, &message)
            }
            None => Ok(()),
        }
    }

    /// This message reaches its receiver.
    fn reach(&mut self, alloc: Global, message: &Message) -> Result<(), NoMemory>
        ensures { OnOk result (self.new ≡ reaching self.old message.now) }
    {
        if message.to_gateway {
            match self.gateways.get_mut(usize::from(message.gateway)) {
                Some(gateway) => gateway.deliver(alloc, self.moment, message, &mut self.messages),
                None => Ok(()),
            }
        } else {
            match self.nodes.get_mut(usize::from(message.node)) {
                Some(node) => node.deliver(alloc, message, &mut self.messages),
                None => Ok(()),
            }
        }
    }

    fn commit(&mut self, alloc: Global, number: u8) -> Result<(), NoMemory>
        ensures { OnOk result (self.new ≡ turn_kept self.old (Event.Commit number)) }
    {
        match self.gateways.get_mut(place_of(number)) {
            Some(gateway) => gateway.commit(alloc, &mut self.messages),
            None => Ok(()),
        }
    }

    fn cut(&mut self, number: u8, keep: u64)
        ensures { self.new ≡ turn_kept self.old (Event.Cut number keep) }
    {
        if let Some(gateway) = self.gateways.get_mut(place_of(number)) {
            gateway.cut(keep);
        }
    }

    fn open(&mut self, alloc: Global, number: u8) -> Result<(), NoMemory>
        ensures { OnOk result (self.new ≡ turn_kept self.old (Event.Open number)) }
    {
        match self.gateways.get_mut(place_of(number)) {
            Some(gateway) => gateway.open(alloc),
            None => Ok(()),
        }
    }

    fn redirect(
        &mut self,
        alloc: Global,
        number: u8,
        cause: u8,
        to: Option<u8>,
    ) -> Result<(), NoMemory>
        ensures { OnOk result (self.new ≡ turn_kept self.old (Event.Redirect number cause to)) }
    {
        let place = number.saturating_sub(1);
        let to = match to {
            Some(other) => Some(other.saturating_sub(1)),
            None => None,
        };
        match self.gateways.get_mut(usize::from(place)) {
            Some(gateway) => gateway.redirect(alloc, place, cause, to, &mut self.messages),
            None => Ok(()),
        }
    }

    fn mark(&mut self, alloc: Global, number: u8) -> Result<(), NoMemory>
        ensures { OnOk result (self.new ≡ turn_kept self.old (Event.Mark number)) }
    {
        match self.gateways.get_mut(place_of(number)) {
            Some(gateway) => gateway.mark(alloc, self.moment, &mut self.messages),
            None => Ok(()),
        }
    }

    fn close(&mut self, alloc: Global, number: u8) -> Result<(), NoMemory>
        ensures { OnOk result (self.new ≡ turn_kept self.old (Event.Close number)) }
    {
        match self.gateways.get_mut(place_of(number)) {
            Some(gateway) => gateway.close(alloc, self.moment, &mut self.messages),
            None => Ok(()),
        }
    }
}

/// So many gateways that were opened on empty journals.
#[tactic(auto, using(crate::proofs::ArmLemmas::times_more))]
fn first_gateways(alloc: Global, count: u8) -> Result<Vec<KeptGateway>, NoMemory>
    ensures gateways { IfOk result (λ all. all.items ≡ times_of count (first_gateway default_rules)) }
{
    let mut all = Vec::new(alloc);
    for _place in 0..count {
        all.push(KeptGateway::new(alloc)?)?;
    }
    Ok(all)
}

/// So many nodes that have just begun.
#[tactic(auto, using(crate::proofs::ArmLemmas::nodes_more))]
fn first_nodes(alloc: Global, gateways: u8, count: u8) -> Result<Vec<KeptNode>, NoMemory>
    requires { 1 ≤ gateways }
    ensures { IfOk result (λ all. all.items ≡ nodes_kept gateways 0 (times_of count (Began ∷ []))) }
{
    let mut all = Vec::new(alloc);
    for place in 0..count {
        all.push(KeptNode::new(alloc, gateways, place)?)?;
    }
    Ok(all)
}
