//! Who is told how far a job is.

/// One who is told how far a job is. No clause speaks of it: nothing that a job does depends on it.
pub trait Watch {
    /// So many of all lines of a network were run.
    fn ran(&mut self, lines: u64, all: u64);

    /// A node of a loop has taken a turn. The threads of the nodes tell it.
    fn turned(&self, turn: NodeTurn);
}

/// How far a node of a loop is after a turn.
#[derive(Clone, Copy)]
pub struct NodeTurn {
    /// The place of the node, counted from 0.
    pub place: usize,
    /// How many of its packets are done.
    pub done: u64,
    /// How many packets all nodes have.
    pub all: u64,
    /// The place of the gateway that is its favourite, counted from 0.
    pub favourite: u8,
}
