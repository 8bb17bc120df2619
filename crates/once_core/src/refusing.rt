// Which events a world doesn't allow, and why.
ghost use Rattle.std.specs.Prelude.{◌≡◌, ◌<◌, ◌≤◌, ◌-◌, None, length};

use crate::event::{Event, WorldKind};
use crate::world::World;

/// A node's counter of starts is one octet.
const MOST_STARTS: u8 = 255;

impl World {
    ghost use Rattle.once_core.specs.KeptTurn.{HasBegun, is_down_at, no_gateway, no_message, no_node, no_running_gateway, no_running_node, refusal_kept, refusal_to_open, refusal_to_redirect, refusal_to_start, runs_at, starts_at};

    /// Why the world doesn't allow an event, by the first reason that holds.
    pub(crate) fn refusal_of(&self, event: &Event) -> Option<WorldKind>
        ensures kind { result ≡ refusal_kept self.now event.now }
        ensures begun { result ≡ None → HasBegun self.now event.now }
    {
        match event {
            Event::Submit { node, .. } | Event::Tick { node } | Event::Halt { node } => {
                self.no_running_node(*node)
            }
            Event::Start { node } => self.refusal_to_start(*node),
            Event::Deliver { message } => self.no_message(*message),
            Event::Commit { gateway }
            | Event::Cut { gateway, .. }
            | Event::Mark { gateway }
            | Event::Close { gateway } => self.no_running_gateway(*gateway),
            Event::Redirect { gateway, to, .. } => self.refusal_to_redirect(*gateway, *to),
            Event::Open { gateway } => self.refusal_to_open(*gateway),
            Event::Moment { now } => {
                if *now < self.moment {
                    Some(WorldKind::Earlier)
                } else {
                    None
                }
            }
        }
    }

    fn no_message(&self, number: u64) -> Option<WorldKind>
        ensures { result ≡ no_message self.now number }
    {
        if number == 0 || number > self.messages.len() as u64 {
            Some(WorldKind::NoMessage)
        } else {
            None
        }
    }

    fn no_gateway(&self, number: u8) -> Option<WorldKind>
        ensures { result ≡ no_gateway self.now number }
    {
        if number == 0 || usize::from(number) > self.gateways.len() {
            Some(WorldKind::NoGateway)
        } else {
            None
        }
    }

    /// Whether the gateway is stopped, or isn't there.
    fn is_down_at(&self, place: usize) -> bool
        ensures { result ≡ is_down_at self.now place }
    {
        match self.gateways.get(place) {
            Some(gateway) => gateway.is_down(),
            None => true,
        }
    }

    fn no_running_gateway(&self, number: u8) -> Option<WorldKind>
        ensures { result ≡ no_running_gateway self.now number }
    {
        if let Some(kind) = self.no_gateway(number) {
            return Some(kind);
        }
        if self.is_down_at(place_of(number)) {
            Some(WorldKind::Stopped)
        } else {
            None
        }
    }

    fn refusal_to_open(&self, number: u8) -> Option<WorldKind>
        ensures { result ≡ refusal_to_open self.now number }
    {
        if let Some(kind) = self.no_gateway(number) {
            return Some(kind);
        }
        if self.is_down_at(place_of(number)) {
            None
        } else {
            Some(WorldKind::Running)
        }
    }

    fn refusal_to_redirect(&self, number: u8, to: Option<u8>) -> Option<WorldKind>
        ensures { result ≡ refusal_to_redirect self.now number to }
    {
        let Some(to) = to else {
            return self.no_running_gateway(number);
        };
        if let Some(kind) = self.no_gateway(number) {
            return Some(kind);
        }
        if let Some(kind) = self.no_gateway(to) {
            return Some(kind);
        }
        self.no_running_gateway(number)
    }

    fn no_node(&self, number: u8) -> Option<WorldKind>
        ensures kind { result ≡ no_node self.now number }
        ensures within { result ≡ None → number - 1 < length self.now.nodes }
    {
        if number == 0 || usize::from(number) > self.nodes.len() {
            Some(WorldKind::NoNode)
        } else {
            None
        }
    }

    /// Whether the node is there and runs.
    fn runs_at(&self, place: usize) -> bool
        ensures { result ≡ runs_at self.now place }
    {
        match self.nodes.get(place) {
            Some(node) => node.runs(),
            None => false,
        }
    }

    /// How many starts the node has made, 0 where it isn't there.
    fn starts_at(&self, place: usize) -> u8
        ensures starts { result ≡ starts_at self.now place }
        ensures some { place < length self.now.nodes → 1 ≤ result }
    {
        match self.nodes.get(place) {
            Some(node) => node.starts(),
            None => 0,
        }
    }

    fn no_running_node(&self, number: u8) -> Option<WorldKind>
        ensures { result ≡ no_running_node self.now number }
    {
        if let Some(kind) = self.no_node(number) {
            return Some(kind);
        }
        if self.runs_at(place_of(number)) {
            None
        } else {
            Some(WorldKind::Halted)
        }
    }

    fn refusal_to_start(&self, number: u8) -> Option<WorldKind>
        ensures kind { result ≡ refusal_to_start self.now number }
        ensures begun { result ≡ None → 1 ≤ starts_at self.now (number - 1) }
    {
        if let Some(kind) = self.no_node(number) {
            return Some(kind);
        }
        let place = place_of(number);
        if self.runs_at(place) {
            return Some(WorldKind::Running);
        }
        if self.starts_at(place) >= MOST_STARTS {
            Some(WorldKind::Restarts)
        } else {
            None
        }
    }
}

/// The place of the gateway or node with this number, which counts from 1.
pub(crate) fn place_of(number: u8) -> usize
    ensures { result ≡ number - 1 }
{
    usize::from(number.saturating_sub(1))
}
