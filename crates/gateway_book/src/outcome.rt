ghost use Rattle.std.specs.Prelude.{◌≡◌};
ghost use Rattle.gateway_book.specs.Calls.{gateway_counts_with};

use gtpp_message::Why;
use gw_base::Short;

/// What a gateway is set up with.
#[derive(Clone, Copy)]
pub struct Setup {
    /// Its IPv4 address, the first octet highest.
    pub address: u32,
    /// For how many seconds a file may stay open before a Tick closes it.
    pub open_time: u64,
}

/// Why a book wasn't opened.
#[derive(Clone, Copy, Debug, PartialEq, Eq)]
pub enum BookFault {
    /// The device failed.
    Device,
    /// The area stands for no history of such a gateway, and isn't new either.
    NotOurs {
        /// The first octet of the header that differs, or the first open gate whose batch isn't
        /// whole or holds an entry that isn't fit.
        at: u64,
    },
    /// There was no memory, and nothing was written.
    NoMemory,
}

/// What became of a datagram.
#[derive(Drop)]
pub enum Outcome {
    /// It is answered.
    Answer(Receipt),
    /// It isn't answered.
    Drop(Why),
}

/// An answer, and when it may be sent.
#[derive(Drop)]
pub struct Receipt {
    /// The octets of the message that goes back to the sender.
    pub reply: Short,
    /// Its cause, where that is a Data Record Transfer Response.
    pub cause: Option<u8>,
    /// The length of the history after the answer, which the firm part has to reach first.
    pub front: u64,
    /// How many commits and openings again had failed by then.
    pub faults: u64,
}

/// What became of a mark.
#[derive(Clone, Copy, Debug, PartialEq, Eq)]
pub enum Marked {
    /// It was recorded.
    Made {
        /// The length of the history after it.
        front: u64,
        /// How many commits and openings again had failed by then.
        faults: u64,
    },
    /// It isn't due.
    NotDue,
    /// It is due, and there is no room for it.
    NoRoom,
    /// The device failed, and nothing was recorded.
    Device,
}

/// What has become of an answer by now.
#[derive(Clone, Copy, Debug, PartialEq, Eq)]
pub enum Settled {
    /// All that it rests on is firm: it may be sent.
    Firm,
    /// So many entries are firm, which aren't enough.
    NotYet {
        firm: u64,
    },
    /// A commit or an opening again has failed since, and the answer is void.
    Lost {
        /// How many have failed by now.
        faults: u64,
    },
}

/// A commit or an opening again failed, and the book is broken until one succeeds.
#[derive(Clone, Copy, Debug)]
pub struct Broken {
    /// How many have failed by now.
    pub faults: u64,
}

/// Why items aren't told.
#[derive(Clone, Copy, Debug)]
pub enum ItemsFault {
    /// The device failed.
    Device,
    /// There was no memory; or the area, which then doesn't tell what it was given, gave octets that spell no entry.
    NoMemory,
}

/// How much a gateway has recorded and holds.
#[derive(Clone, Copy)]
pub struct Counts {
    /// The entries of the history.
    pub entries: u64,
    /// Those of them that are firm.
    pub firm: u64,
    /// The copies that are held in present epochs.
    pub held: u64,
    /// Those of earlier epochs that were neither released nor cancelled.
    pub stranded: u64,
    /// The octets of the journal that costs and promises leave.
    pub free: u64,
}

/// What is reported of a gateway.
#[derive(Clone, Copy)]
pub struct GatewayCounts {
    /// The entries of its history.
    pub entries: u64,
    /// The records that its firm entries have filed.
    pub records: usize,
    /// The copies that are held in present epochs.
    pub held: u64,
    /// Those of earlier epochs that were neither released nor cancelled.
    pub stranded: u64,
}

impl Counts {
    /// What is reported of a gateway that counts this, and whose firm entries have filed so many records.
    pub fn gateway_counts(self, records: usize) -> GatewayCounts
        ensures { result ≡ gateway_counts_with self records }
    {
        GatewayCounts {
            entries: self.entries,
            records,
            held: self.held,
            stranded: self.stranded,
        }
    }
}
