use gw_base::{Moment, Octets};

/// What happens next in a world. Gateways, nodes and messages are counted from 1.
#[derive(Drop)]
pub enum Event {
    /// A node is given a packet, by the octets of its value. What is no draft, or what the node refuses,
    /// does nothing.
    Submit {
        node: u8,
        packet: Octets,
    },
    /// A node sends what is due.
    Tick {
        node: u8,
    },
    /// A message that was sent before reaches its receiver, for the first time or again.
    Deliver {
        message: u64,
    },
    /// A gateway makes its history firm.
    Commit {
        gateway: u8,
    },
    /// A gateway stops; so many of its entries are left, and the firm ones in any case.
    Cut {
        gateway: u8,
        keep: u64,
    },
    /// A gateway that stopped begins to run again.
    Open {
        gateway: u8,
    },
    /// A node stops.
    Halt {
        node: u8,
    },
    /// A node that stopped starts again.
    Start {
        node: u8,
    },
    /// A gateway asks each node to which it has a path to send elsewhere, to another gateway where one
    /// is given.
    Redirect {
        gateway: u8,
        cause: u8,
        to: Option<u8>,
    },
    /// The clock of all gateways moves.
    Moment {
        now: Moment,
    },
    /// A gateway closes files that have been open for long, where a mark is due.
    Mark {
        gateway: u8,
    },
    /// A gateway closes all files, where that is due.
    Close {
        gateway: u8,
    },
}

/// Why a world doesn't allow an event. Where several hold, the first of them counts.
#[derive(Clone, Copy, Debug, PartialEq, Eq)]
pub enum WorldKind {
    /// The moment is less than the present one.
    Earlier,
    /// There is no gateway with this number.
    NoGateway,
    /// There is no node with this number.
    NoNode,
    /// No message with this number was sent.
    NoMessage,
    /// The node is halted.
    Halted,
    /// The gateway is stopped.
    Stopped,
    /// What is to be opened or started runs.
    Running,
    /// It would be the node's 256th start.
    Restarts,
}

/// What came of an event.
#[derive(Clone, Copy, Debug, PartialEq, Eq)]
pub enum Stepped {
    /// It was played, and these messages were sent: so many, the first of which has this number.
    Done { first: u64, count: u64 },
    /// The world doesn't allow it, and is as before.
    Refused(WorldKind),
    /// There isn't enough memory, and no event is played any more.
    NoMemory,
}
