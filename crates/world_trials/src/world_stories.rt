//! Stories of a node and two or three gateways, and what each comes to, octet for octet.

use gw_base::{HistoryAct, HistoryEntry, NodeId, Octets};

/// A packet of one record, of format 1 and version 0x0600.
pub(crate) const PACKET: [u8; 11] = [1, 1, 6, 0, 0, 5, 0xA0, 3, 0x80, 1, 5];

/// The node of the stories, and the first of its ports.
pub(crate) const NODE: NodeId = NodeId(0x0A00_0101);

const PORT: u16 = 40_001;

/// What happens to the node, to a gateway or to a message.
#[derive(Clone, Copy)]
pub(crate) enum Do {
    Tick,
    Submit,
    Halt,
    Start,
    /// The gateway is about to go down.
    GoesDown(u8),
    Commit(u8),
    Close(u8),
    Deliver(u64),
}

use Do::{Commit, Deliver, GoesDown, Halt, Start, Submit, Tick};

/// What an entry records, of the one node and its packet.
#[derive(Clone, Copy, Debug, PartialEq, Eq)]
pub(crate) enum Kind {
    Opened,
    /// The node's counter.
    Learnt(u8),
    Filed(u64),
    Held(u64),
    Sealed(u64),
    Released(u64),
    Cancelled(u64),
    Closed,
    /// It isn't of the node or its packet, or there is none of it in these stories.
    Other,
}

use Kind::{Cancelled, Closed, Filed, Held, Learnt, Opened, Released, Sealed};

fn is_packet(node: NodeId, packet: &Octets) -> bool {
    node == NODE && packet.octets() == PACKET.as_slice()
}

/// The one number that a list of the node's names.
fn named(node: NodeId, numbers: &[u64]) -> Option<u64> {
    match numbers {
        [number] if node == NODE => Some(*number),
        _ => None,
    }
}

/// What an entry records, where it is of the stories' node and packet.
pub(crate) fn kind_of(entry: &HistoryEntry) -> Kind {
    match &entry.act {
        HistoryAct::Start => Kind::Opened,
        HistoryAct::Path {
            node,
            port,
            counter,
        } if *node == NODE && *port == PORT => Kind::Learnt(*counter),
        HistoryAct::File {
            node,
            number,
            packet,
        } if is_packet(*node, packet) => Kind::Filed(*number),
        HistoryAct::Hold {
            node,
            number,
            packet,
        } if is_packet(*node, packet) => Kind::Held(*number),
        HistoryAct::Seal { node, number } if *node == NODE => Kind::Sealed(*number),
        HistoryAct::Release { node, numbers } => match named(*node, numbers.numbers()) {
            Some(number) => Kind::Released(number),
            None => Kind::Other,
        },
        HistoryAct::Cancel { node, numbers } => match named(*node, numbers.numbers()) {
            Some(number) => Kind::Cancelled(number),
            None => Kind::Other,
        },
        HistoryAct::Close => Kind::Closed,
        _ => Kind::Other,
    }
}

/// A story: how the node becomes alive, what happens then, the messages that are sent then, the
/// entries of each gateway at the end, once its files are closed, all of them firm, and whether each
/// packet is done.
pub(crate) struct Story {
    pub(crate) gateways: u8,
    pub(crate) begins: &'static [Do],
    pub(crate) events: &'static [Do],
    pub(crate) sent: &'static [&'static [u8]],
    pub(crate) entries: &'static [&'static [Kind]],
    pub(crate) is_done: &'static [bool],
}

/// The plain copy of the packet, and a duplicate, under number 0.
const COPY: &[u8] = &[
    0x4E, 0xF0, 0, 0x10, 0, 0, 0x7E, 1, 0xFC, 0, 0x0B, 1, 1, 6, 0, 0, 5, 0xA0, 3, 0x80, 1, 5,
];

const DUPLICATE: &[u8] = &[
    0x4E, 0xF0, 0, 0x10, 0, 0, 0x7E, 2, 0xFC, 0, 0x0B, 1, 1, 6, 0, 0, 5, 0xA0, 3, 0x80, 1, 5,
];

/// The test of number 0; the release and the cancel of it, under number 1.
const TEST: &[u8] = &[0x4E, 0xF0, 0, 5, 0, 0, 0x7E, 2, 0xFC, 0, 0];

const RELEASE: &[u8] = &[0x4E, 0xF0, 0, 7, 0, 1, 0x7E, 4, 0xF9, 0, 2, 0, 0];

const CANCEL: &[u8] = &[0x4E, 0xF0, 0, 7, 0, 1, 0x7E, 3, 0xFA, 0, 2, 0, 0];

/// The answers to number 0: accepted, filed before, held before, and refused as it was sealed; and
/// number 1 accepted.
const ACCEPTED: &[u8] = &[0x4E, 0xF1, 0, 7, 0, 0, 1, 0x80, 0xFD, 0, 2, 0, 0];

const FILED_BEFORE: &[u8] = &[0x4E, 0xF1, 0, 7, 0, 0, 1, 0xFD, 0xFD, 0, 2, 0, 0];

const HELD_BEFORE: &[u8] = &[0x4E, 0xF1, 0, 7, 0, 0, 1, 0xFC, 0xFD, 0, 2, 0, 0];

const NOT_FULFILLED: &[u8] = &[0x4E, 0xF1, 0, 7, 0, 0, 1, 0xFF, 0xFD, 0, 2, 0, 0];

const ONE_ACCEPTED: &[u8] = &[0x4E, 0xF1, 0, 7, 0, 1, 1, 0x80, 0xFD, 0, 2, 0, 1];

/// A gateway's Redirection Request, and the answer to it.
const REDIRECTION: &[u8] = &[0x4E, 6, 0, 2, 0, 0, 1, 0x3F];

const REDIRECTED: &[u8] = &[0x4E, 7, 0, 2, 0, 0, 1, 0x80];

/// How the node becomes alive: it asks, is asked for its counter, which is 2 here, tells it, and is
/// answered.
const ALIVE_REQUEST: &[u8] = &[0x4E, 4, 0, 7, 0, 0, 0xFB, 0, 4, 10, 0, 1, 1];

const ECHO_REQUEST: &[u8] = &[0x4E, 1, 0, 0, 0, 0];

const SECOND_START: &[u8] = &[0x4E, 2, 0, 2, 0, 0, 0x0E, 2];

const ALIVE_RESPONSE: &[u8] = &[0x4E, 5, 0, 0, 0, 0];

/// The node becomes alive at two gateways, by eight messages.
const ALIVE_AT_TWO: &[Do] = &[
    Tick,
    Deliver(1),
    Deliver(2),
    Deliver(3),
    Deliver(4),
    Deliver(5),
    Deliver(6),
    Commit(1),
    Commit(2),
    Deliver(7),
    Deliver(8),
];

/// The same at three, by twelve.
const ALIVE_AT_THREE: &[Do] = &[
    Tick,
    Deliver(1),
    Deliver(2),
    Deliver(3),
    Deliver(4),
    Deliver(5),
    Deliver(6),
    Deliver(7),
    Deliver(8),
    Deliver(9),
    Commit(1),
    Commit(2),
    Commit(3),
    Deliver(10),
    Deliver(11),
    Deliver(12),
];

/// The answer to the plain copy is lost. The test of its number finds it filed, and the duplicate
/// is cancelled.
pub(crate) const ANSWER_LOST: Story = Story {
    gateways: 2,
    begins: ALIVE_AT_TWO,
    events: &[
        Submit,
        Tick,
        Deliver(9),
        Commit(1),
        GoesDown(1),
        Deliver(11),
        Tick,
        Deliver(13),
        Commit(2),
        Deliver(14),
        Tick,
        Deliver(15),
        Deliver(16),
        Tick,
        Deliver(17),
        Commit(2),
        Deliver(18),
        Tick,
    ],
    sent: &[
        COPY,
        ACCEPTED,
        REDIRECTION,
        REDIRECTED,
        DUPLICATE,
        ACCEPTED,
        TEST,
        FILED_BEFORE,
        CANCEL,
        ONE_ACCEPTED,
    ],
    entries: &[
        &[Opened, Learnt(1), Filed(65_536), Closed],
        &[Opened, Learnt(1), Held(65_536), Cancelled(65_536)],
    ],
    is_done: &[true],
};

/// The plain copy is late: its number is sealed, the duplicate is released, and then it comes.
pub(crate) const COPY_LATE: Story = Story {
    gateways: 2,
    begins: ALIVE_AT_TWO,
    events: &[
        Submit,
        Tick,
        GoesDown(1),
        Deliver(10),
        Tick,
        Deliver(12),
        Commit(2),
        Deliver(13),
        Tick,
        Deliver(14),
        Commit(1),
        Deliver(15),
        Tick,
        Deliver(16),
        Commit(2),
        Deliver(17),
        Deliver(9),
        Tick,
    ],
    sent: &[
        COPY,
        REDIRECTION,
        REDIRECTED,
        DUPLICATE,
        ACCEPTED,
        TEST,
        ACCEPTED,
        RELEASE,
        ONE_ACCEPTED,
        NOT_FULFILLED,
    ],
    entries: &[
        &[Opened, Learnt(1), Sealed(65_536)],
        &[Opened, Learnt(1), Held(65_536), Released(65_536), Closed],
    ],
    is_done: &[true],
};

/// Two duplicates, of which the first is late: the second is released, and the first is cancelled
/// once it was held.
pub(crate) const TWO_DUPLICATES: Story = Story {
    gateways: 3,
    begins: ALIVE_AT_THREE,
    events: &[
        Submit,
        Tick,
        GoesDown(1),
        Deliver(14),
        Tick,
        GoesDown(2),
        Deliver(17),
        Tick,
        Deliver(19),
        Commit(3),
        Deliver(20),
        Tick,
        Deliver(21),
        Commit(1),
        Deliver(22),
        Tick,
        Deliver(23),
        Commit(3),
        Deliver(25),
        Deliver(16),
        Commit(2),
        Deliver(24),
        Deliver(27),
        Tick,
        Deliver(28),
        Commit(2),
        Deliver(29),
        Tick,
    ],
    sent: &[
        COPY,
        REDIRECTION,
        REDIRECTED,
        DUPLICATE,
        REDIRECTION,
        REDIRECTED,
        DUPLICATE,
        ACCEPTED,
        TEST,
        ACCEPTED,
        RELEASE,
        TEST,
        ONE_ACCEPTED,
        ACCEPTED,
        HELD_BEFORE,
        CANCEL,
        ONE_ACCEPTED,
    ],
    entries: &[
        &[Opened, Learnt(1), Sealed(65_536)],
        &[Opened, Learnt(1), Held(65_536), Cancelled(65_536)],
        &[Opened, Learnt(1), Held(65_536), Released(65_536), Closed],
    ],
    is_done: &[true],
};

/// The node starts again while its plain copy is under way, which outlives its start.
pub(crate) const STARTED_AGAIN: Story = Story {
    gateways: 2,
    begins: ALIVE_AT_TWO,
    events: &[
        Submit,
        Tick,
        GoesDown(1),
        Deliver(10),
        Tick,
        Deliver(12),
        Commit(2),
        Halt,
        Start,
        Tick,
        Deliver(14),
        Deliver(15),
        Deliver(16),
        Deliver(17),
        Deliver(18),
        Deliver(19),
        Commit(1),
        Commit(2),
        Deliver(20),
        Deliver(21),
        Submit,
        Tick,
        Deliver(22),
        Commit(1),
        Deliver(9),
        Deliver(23),
    ],
    sent: &[
        COPY,
        REDIRECTION,
        REDIRECTED,
        DUPLICATE,
        ACCEPTED,
        ALIVE_REQUEST,
        ALIVE_REQUEST,
        ECHO_REQUEST,
        ECHO_REQUEST,
        SECOND_START,
        SECOND_START,
        ALIVE_RESPONSE,
        ALIVE_RESPONSE,
        COPY,
        ACCEPTED,
    ],
    entries: &[
        &[Opened, Learnt(1), Learnt(2), Filed(65_536), Closed],
        &[Opened, Learnt(1), Held(65_536), Learnt(2)],
    ],
    is_done: &[false, true],
};
