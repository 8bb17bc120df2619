ghost use Rattle.std.specs.Prelude.{◌≡◌, ◌-◌};
ghost use Rattle.cgf_jobs.specs.Run.{status_number};

use crate::input_kind::InputKind;
use gw_base::PacketId;
use std::fmt;

/// Why a gateway's store failed it.
#[derive(Clone, Copy, Debug, PartialEq, Eq)]
pub enum StoreFault {
    /// The device of the area or that of the shelf failed.
    Device,
    /// The area is of another format, or another gateway's: this octet of it shows that. It stays as it was.
    NotOurs { at: u64 },
}

/// How the job ended.
#[derive(Clone, Copy, Debug, PartialEq, Eq)]
pub enum Status {
    /// The input was read to its end, and the job is done.
    Done,
    /// The words are none of the forms. Nothing was read or written.
    Words,
    /// The first place of the input that is refused: a script's line, by its number from 1, or an octet of a file or a
    /// stream, by its place from 0. Nothing was written but for a line that can't be run, where the report of the lines
    /// before it was, and of a stream, where the replies to the messages before it were.
    Input {
        place: u64,
        kind: InputKind,
    },
    /// The source failed. Nothing was written, of a stream the replies to the messages before.
    Read,
    /// The sink failed. A front of the report, or of a stream's replies, may have been written.
    Write,
    /// There was no memory for the job. Nothing was written, or of a stream that had ended well all replies.
    Memory,
    /// A gateway's journal or its files failed it, as it was opened or as it settled. Nothing was written, of a stream
    /// its replies.
    Store(StoreFault),
    /// A link failed a gateway or a node, or the clock a gateway that served or answered a stream. Nothing was written,
    /// of a stream the replies to the messages before.
    Link,
    /// All packets of a loop are done, and this is the first, by node and number, that doesn't stand once at its
    /// gateways: so many of its copies stand, and so many may. Nothing was written.
    Audit {
        packet: PacketId,
        places: u64,
        wanted: u64,
    },
    /// So many packets of a loop aren't done, of which this is the first, by node and number. Each node with such a
    /// packet took all its turns, which are so many. Nothing was written.
    Unfinished {
        turns: u64,
        packet: PacketId,
        count: u64,
    },
}

impl Status {
    /// The number that the program ends with.
    pub fn number(self) -> u8
        ensures { result ≡ status_number self }
    {
        match self {
            Status::Done => 0,
            Status::Words => 1,
            Status::Input { .. } => 2,
            Status::Read => 3,
            Status::Write => 4,
            Status::Memory => 5,
            Status::Store(_) => 6,
            Status::Link => 7,
            Status::Audit { .. } => 8,
            Status::Unfinished { .. } => 9,
        }
    }
}

/// The address that the nodes of a loop count from: the first is at 127.0.0.101.
const BEFORE_NODES: u32 = 0x7F00_0064;

/// The number of a packet's node in its loop, from 1.
fn node_number(packet: PacketId) -> u32
    ensures { result ≡ packet.node.0 - BEFORE_NODES }
{
    packet.node.0.saturating_sub(BEFORE_NODES)
}

impl fmt::Display for Status {
    ghost use Rattle.std.specs.Prelude.{Some};
    ghost use Rattle.cgf_jobs.specs.StatusText.{status_text};

    ghost output = { λ status. Some (status_text status) };

    fn fmt<W: fmt::Write>(&self, f: &mut fmt::Formatter<W>) -> fmt::Result {
        match self {
            Status::Done => write!(f, "cgf: done"),
            Status::Words => write!(f, "cgf: words"),
            Status::Input { place, kind } => write!(f, "cgf: input {place}: {kind}"),
            Status::Read => write!(f, "cgf: read"),
            Status::Write => write!(f, "cgf: write"),
            Status::Memory => write!(f, "cgf: memory"),
            Status::Store(StoreFault::Device) => write!(f, "cgf: store"),
            Status::Store(StoreFault::NotOurs { at }) => write!(f, "cgf: store {at}"),
            Status::Link => write!(f, "cgf: link"),
            Status::Audit {
                packet,
                places,
                wanted,
            } => {
                let (node, number) = (node_number(*packet), packet.number);
                write!(f, "cgf: audit {node}.{number} {places} of {wanted}")
            }
            Status::Unfinished {
                turns,
                packet,
                count,
            } => {
                let (node, number) = (node_number(*packet), packet.number);
                write!(f, "cgf: unfinished {turns} {node}.{number} {count}")
            }
        }
    }
}
