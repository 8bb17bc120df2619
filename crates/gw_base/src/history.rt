ghost use Rattle.std.specs.Prelude.{◌≡◌, List, ℕ};

use crate::address::{Absolute, NodeId};
use crate::moment::Moment;
use crate::octets::Octets;
use std::marker::Model;

/// The session that made an entry, and the number of that session's job.
#[derive(Clone, Copy, Debug, PartialEq, Eq)]
pub struct Caller {
    pub session: u32,
    pub serial: u64,
}

impl Caller {
    /// The caller of an entry that no session made.
    pub const NONE: Caller = Caller {
        session: 0,
        serial: 0,
    };
}

/// One entry of a gateway's history, which owns what it says.
#[derive(Drop)]
pub struct HistoryEntry {
    pub moment: Moment,
    pub caller: Caller,
    pub act: HistoryAct,
}

/// What an entry records. A packet is the value of a Data Record Packet (3GPP TS 32.295, clause
/// 6.2.4.5).
#[derive(Drop)]
pub enum HistoryAct {
    /// The gateway began to run.
    Start,
    /// A node's restart counter changed, so that an epoch of it began.
    Path {
        node: NodeId,
        port: u16,
        counter: u8,
    },
    /// A packet's records are filed.
    File {
        node: NodeId,
        number: Absolute,
        packet: Octets,
    },
    /// A possibly duplicated packet is held.
    Hold {
        node: NodeId,
        number: Absolute,
        packet: Octets,
    },
    /// A number was tested before a packet came under it.
    Seal {
        node: NodeId,
        number: Absolute,
    },
    /// Held packets are released: their records are filed.
    Release {
        node: NodeId,
        numbers: Absolutes,
    },
    /// Held packets are cancelled.
    Cancel {
        node: NodeId,
        numbers: Absolutes,
    },
    /// Files that have been open for long enough are closed.
    Tick,
    /// All open files are closed.
    Close,
}

/// A list of request numbers.
#[derive(Drop)]
pub struct Absolutes {
    numbers: Vec<Absolute>,
}

impl Model for Absolutes {
    ghost use Rattle.std.specs.Prelude.{List, ℕ};

    ghost Value = { List ℕ };

    ghost view = { λ a. a.numbers.items };
}

impl Absolutes {
    /// The numbers of a `Vec`, which takes no memory.
    pub fn from_vec(numbers: Vec<Absolute>) -> Absolutes
        ensures { result ≡ numbers.items }
    {
        Absolutes { numbers }
    }

    /// Gives the `Vec` back.
    pub fn into_vec(self) -> Vec<Absolute>
        ensures { result.items ≡ self }
    {
        self.numbers
    }

    /// The numbers, in order.
    pub fn numbers(&self) -> &[Absolute]
        ensures { result.now ≡ self.now }
    {
        &self.numbers
    }
}

/// A request number of a node, within one of the node's epochs. The epochs are counted by the Path
/// entries that began them; epoch 0 is the one before the first.
#[derive(Clone, Copy, Debug)]
pub struct PacketKey {
    pub node: NodeId,
    pub epoch: u64,
    pub number: Absolute,
}

/// What the Path entry that began a node's epoch says of the node: the port that it sent from, and
/// its restart counter.
#[derive(Clone, Copy)]
pub struct Opening {
    pub port: u16,
    pub counter: u8,
}
