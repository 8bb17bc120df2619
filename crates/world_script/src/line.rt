use crate::mode::Mode;
use crate::records::Records;
use gw_base::{Addr, Moment, Octets};

/// A line of a script. Gateways, nodes, messages and calls are counted from 1; a number that nothing
/// is counted by may stand all the same.
#[derive(Debug, Drop)]
pub enum Line {
    /// An empty line or a comment.
    Blank,
    /// The length of the journal's area in octets, from 100 to 268,435,456.
    Reserve {
        length: u64,
    },
    /// How many CDRs a file has at most, from 1 to 1,000,000.
    LimitRecords {
        count: u32,
    },
    /// How many octets a file has before it is closed, from 1 to 1,000,000,000.
    LimitSize {
        size: u32,
    },
    /// How many seconds a file is open before it is closed, from 1 to 1,000,000.
    LimitOpen {
        seconds: u64,
    },
    /// The offset of local time from UTC in minutes, from -959 to 959.
    Offset {
        minutes: i16,
    },
    /// The profile of CDR files, 1 or 2.
    Profile {
        profile: u8,
    },
    /// A rule, as the whole line says it.
    Rule {
        text: Octets,
    },
    /// How many gateways there are, from 1 to 8. Replays alone have this setting and the next.
    Gateways {
        count: u8,
    },
    /// How many nodes there are, from 1 to 16.
    Nodes {
        count: u8,
    },
    /// The end of the script.
    End,
    /// The present moment.
    At {
        moment: Moment,
    },
    /// A datagram that reaches the gateway. Feeds alone have this line.
    Datagram {
        from: Addr,
        octets: Octets,
    },
    /// Files that have been open for long enough are closed at this gateway, 1 in a feed.
    Mark {
        gateway: u64,
    },
    /// All open files are closed at this gateway, 1 in a feed.
    Close {
        gateway: u64,
    },
    /// A node has records of this format and version to send. Replays alone have this line and those
    /// that follow.
    Submit {
        node: u64,
        format: u8,
        version: u16,
        records: Records,
    },
    /// A node does what is due.
    Tick {
        node: u64,
    },
    /// A node stops, and forgets its packets.
    Halt {
        node: u64,
    },
    /// A node that stopped starts again.
    Start {
        node: u64,
    },
    /// A message that was sent comes, once more or for the first time.
    Deliver {
        message: u64,
    },
    /// Each waiting message comes, in order.
    Flow,
    /// Each waiting message comes, comes twice, waits on or is lost, as the words of this seed say.
    Mix {
        seed: u64,
    },
    /// What a gateway has recorded is made firm.
    Commit {
        gateway: u64,
    },
    /// The records of a gateway's firm entries are written into files.
    Write {
        gateway: u64,
    },
    /// A gateway asks each node that it knows to go to another, to gateway `to` where that is given.
    /// The cause is 59 to 63.
    Redirect {
        gateway: u64,
        cause: u8,
        to: Option<u64>,
    },
    /// A gateway stops between two calls.
    Stop {
        gateway: u64,
    },
    /// A gateway that stopped is opened again.
    Open {
        gateway: u64,
    },
    /// A gateway stops in this write or sync of its area from now on, counted from 1.
    Arm {
        gateway: u64,
        call: u64,
        mode: Mode,
    },
    /// This write or sync of a gateway's area from now on fails.
    Fail {
        gateway: u64,
        call: u64,
    },
    /// A gateway stops in this call of its shelf from now on, counted from 1: a beginning of a file, a write, a sync or
    /// a seal.
    ArmShelf {
        gateway: u64,
        call: u64,
        mode: Mode,
    },
    /// This call of a gateway's shelf from now on fails.
    FailShelf {
        gateway: u64,
        call: u64,
    },
    /// Nothing is armed any more, and each gateway runs, closes its files and writes them.
    Settle,
}
