//! Who is told how far nodes are.
use node_core::Node;

/// One who is told how far nodes are, by the threads that run them. No clause speaks of it: nothing that a node does
/// depends on it.
pub trait NodeWatch {
    /// The node in this place has taken a turn.
    fn turned(&self, place: usize, node: &Node);
}

/// Nobody is told.
#[derive(Drop)]
pub struct NoWatch;

impl NodeWatch for NoWatch {
    fn turned(&self, _place: usize, _node: &Node) {}
}
