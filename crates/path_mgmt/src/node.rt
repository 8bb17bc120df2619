ghost use Rattle.std.specs.Prelude.{◌≡◌, ℕ, ◌||◌, false};
ghost use Rattle.path_mgmt.specs.NodePath.{heard_at_node, is_alive, node_after, node_anew, tells_alive};

use crate::event::{PathAnswer, PathEvent};
use std::marker::Model;

/// The node's end of its paths: its restart counter, and which of the gateways 0 to 255 are alive.
#[derive(Drop)]
pub struct NodePath {
    counter: u8,
    alive: [bool; 256],
}

impl Model for NodePath {
    ghost use Rattle.path_mgmt.specs.NodePath.{PathsOfNode};

    ghost Value = { PathsOfNode };

    ghost view = { λ node. record { counter = node.counter; alive = node.alive } };
}

impl NodePath {
    /// A node with this restart counter, to which no gateway is alive yet.
    pub fn new(counter: u8) -> NodePath
        ensures node { result ≡ node_anew counter }
        ensures none_alive { (gateway : ℕ) → is_alive result gateway ≡ false }
    {
        NodePath {
            counter,
            alive: [false; 256],
        }
    }

    /// What the node makes of a message that comes from this gateway.
    ///
    /// A Node Alive Response makes the gateway alive, and nothing makes it not alive again.
    pub fn hear(&mut self, gateway: u8, event: PathEvent) -> PathAnswer
        ensures answer { result ≡ heard_at_node self.old.counter event }
        ensures node { self.new ≡ node_after self.old gateway event }
        ensures alive { (other : ℕ) →
            is_alive self.new other ≡ (tells_alive other (gateway, event) || is_alive self.old other) }
    {
        match event {
            PathEvent::EchoAsked { number } => PathAnswer::replying(PathEvent::EchoTold {
                number,
                counter: self.counter,
            }),
            PathEvent::AliveTold { .. } => {
                self.alive[usize::from(gateway)] = true;
                PathAnswer {
                    reply: None,
                    changed: None,
                    alive: true,
                }
            }
            PathEvent::EchoTold { .. } | PathEvent::AliveAsked { .. } => PathAnswer::silence(),
        }
    }

    /// Whether the gateway is alive.
    pub fn is_alive(&self, gateway: u8) -> bool
        ensures { result ≡ is_alive self.now gateway }
    {
        let place = usize::from(gateway);
        self.alive[place]
    }
}
