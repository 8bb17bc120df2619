/// How many packets a node has, over all its starts.
#[derive(Clone, Copy, Debug, PartialEq, Eq)]
pub struct NodeCounts {
    /// Packets that were submitted.
    pub packets: u64,
    /// Packets that became resolved: by what the node was told, their records are filed once.
    pub resolved: u64,
    /// Packets that became done: by what it was told, every other copy is out of the way, too.
    pub done: u64,
}

/// Packets that became resolved, and that became done.
#[derive(Clone, Copy)]
pub struct Tally {
    pub resolved: u64,
    pub done: u64,
}

/// How far a node has come with a packet.
#[derive(Clone, Copy, Debug, PartialEq, Eq)]
pub enum Phase {
    /// No packet with this number was submitted since the start: one of an earlier start is forgotten.
    Unknown,
    /// It isn't resolved.
    Open,
    /// It is resolved, and a copy of it isn't out of the way yet.
    Resolved,
    /// It is resolved, and each duplicate of it is out of the way: sealed, released or cancelled.
    Done,
}

/// A copy of a packet.
#[derive(Clone, Copy, Debug, PartialEq, Eq)]
pub struct NodeCopy {
    /// The gateway's place in the list that the node was made with, counted from 0.
    pub gateway: u8,
    /// The copy's request number there.
    pub number: u64,
}
