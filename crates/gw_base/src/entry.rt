ghost use Rattle.std.specs.Prelude.{◌≡◌, IfOk};
ghost use Rattle.gw_base.specs.Entry.{act_view, entry_view};

use crate::address::{Absolute, NodeId};
use crate::fault::NoMemory;
use crate::history::{Absolutes, Caller, HistoryAct, HistoryEntry};
use crate::moment::Moment;
use crate::octets::Octets;
use std::alloc::Global;

/// One entry of a gateway's history, which borrows its packet or its numbers.
#[derive(Clone, Copy, Debug)]
pub struct Entry<'a> {
    pub moment: Moment,
    pub caller: Caller,
    pub act: Act<'a>,
}

/// What an entry records. A packet is the value of a Data Record Packet (3GPP TS 32.295, clause
/// 6.2.4.5).
#[derive(Clone, Copy, Debug)]
pub enum Act<'a> {
    /// The gateway began to run.
    Start,
    /// A node's restart counter changed, so that an epoch of it began.
    Path {
        node: NodeId,
        port: u16,
        counter: u8,
    },
    /// A packet's records are filed.
    File {
        node: NodeId,
        number: Absolute,
        packet: &'a [u8],
    },
    /// A possibly duplicated packet is held.
    Hold {
        node: NodeId,
        number: Absolute,
        packet: &'a [u8],
    },
    /// A number was tested before a packet came under it.
    Seal {
        node: NodeId,
        number: Absolute,
    },
    /// Held packets are released: their records are filed.
    Release {
        node: NodeId,
        numbers: &'a [Absolute],
    },
    /// Held packets are cancelled.
    Cancel {
        node: NodeId,
        numbers: &'a [Absolute],
    },
    /// Files that have been open for long enough are closed.
    Tick,
    /// All open files are closed.
    Close,
}

impl Entry<'_> {
    /// The same entry, which owns what it says.
    pub fn to_owned(&self, alloc: Global) -> Result<HistoryEntry, NoMemory>
        ensures { IfOk result (λ entry. entry ≡ entry_view self.now) }
    {
        Ok(HistoryEntry {
            moment: self.moment,
            caller: self.caller,
            act: self.act.to_owned(alloc)?,
        })
    }
}

impl Act<'_> {
    /// The same act, which owns what it says.
    pub fn to_owned(&self, alloc: Global) -> Result<HistoryAct, NoMemory>
        ensures { IfOk result (λ act. act ≡ act_view self.now) }
    {
        Ok(match *self {
            Act::Start => HistoryAct::Start,
            Act::Path {
                node,
                port,
                counter,
            } => HistoryAct::Path {
                node,
                port,
                counter,
            },
            Act::File {
                node,
                number,
                packet,
            } => HistoryAct::File {
                node,
                number,
                packet: Octets::of(alloc, packet)?,
            },
            Act::Hold {
                node,
                number,
                packet,
            } => HistoryAct::Hold {
                node,
                number,
                packet: Octets::of(alloc, packet)?,
            },
            Act::Seal { node, number } => HistoryAct::Seal { node, number },
            Act::Release { node, numbers } => HistoryAct::Release {
                node,
                numbers: Absolutes::from_vec(numbers.to_vec(alloc)?),
            },
            Act::Cancel { node, numbers } => HistoryAct::Cancel {
                node,
                numbers: Absolutes::from_vec(numbers.to_vec(alloc)?),
            },
            Act::Tick => HistoryAct::Tick,
            Act::Close => HistoryAct::Close,
        })
    }
}

impl HistoryEntry {
    /// The same entry, lent.
    pub fn lent(&self) -> Entry<'_>
        ensures { entry_view result ≡ self.now }
    {
        Entry {
            moment: self.moment,
            caller: self.caller,
            act: self.act.lent(),
        }
    }
}

impl HistoryAct {
    /// The same act, lent.
    pub fn lent(&self) -> Act<'_>
        ensures { act_view result ≡ self.now }
    {
        match self {
            HistoryAct::Start => Act::Start,
            HistoryAct::Path {
                node,
                port,
                counter,
            } => Act::Path {
                node: *node,
                port: *port,
                counter: *counter,
            },
            HistoryAct::File {
                node,
                number,
                packet,
            } => Act::File {
                node: *node,
                number: *number,
                packet: packet.octets(),
            },
            HistoryAct::Hold {
                node,
                number,
                packet,
            } => Act::Hold {
                node: *node,
                number: *number,
                packet: packet.octets(),
            },
            HistoryAct::Seal { node, number } => Act::Seal {
                node: *node,
                number: *number,
            },
            HistoryAct::Release { node, numbers } => Act::Release {
                node: *node,
                numbers: numbers.numbers(),
            },
            HistoryAct::Cancel { node, numbers } => Act::Cancel {
                node: *node,
                numbers: numbers.numbers(),
            },
            HistoryAct::Tick => Act::Tick,
            HistoryAct::Close => Act::Close,
        }
    }
}
