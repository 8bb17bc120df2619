use ber_frame::BerFault;
use std::error::Error;
use std::fmt;

/// Why a record isn't added to a draft, which is as before.
#[derive(Clone, Copy, Debug, PartialEq, Eq)]
pub enum DraftFault {
    /// The draft has 255 records.
    Count,
    /// The request that sends the packet would pass 65,507 octets.
    TooBig,
    /// The format is 1, and the record isn't one BER value.
    Ber(BerFault),
    NoMemory,
}

/// Why a node doesn't take a packet. The node and the draft are as before.
#[derive(Clone, Copy, Debug, PartialEq, Eq)]
pub enum SubmitFault {
    /// The draft has no record.
    Empty,
    /// 64 packets are open.
    InFlight,
    /// The next request number of this gateway, the first such in order, is 16,384 or more above
    /// the oldest one that an open packet has there.
    NumbersOut { gateway: u8, oldest: u64, next: u64 },
    NoMemory,
}

impl fmt::Display for DraftFault {
    ghost use Rattle.std.specs.Prelude.{Some};
    ghost use Rattle.node_core.specs.FaultText.{draft_fault_text};

    ghost output = { λ fault. Some (draft_fault_text fault) };

    fn fmt<W: fmt::Write>(&self, f: &mut fmt::Formatter<W>) -> fmt::Result {
        match self {
            DraftFault::Count => write!(f, "the packet has 255 records"),
            DraftFault::TooBig => write!(f, "the request would be too long for a datagram"),
            DraftFault::Ber(_) => write!(f, "the record isn't one BER value"),
            DraftFault::NoMemory => write!(f, "out of memory"),
        }
    }
}

impl Error for DraftFault {}

impl fmt::Display for SubmitFault {
    ghost use Rattle.std.specs.Prelude.{Some};
    ghost use Rattle.node_core.specs.FaultText.{submit_fault_text};

    ghost output = { λ fault. Some (submit_fault_text fault) };

    fn fmt<W: fmt::Write>(&self, f: &mut fmt::Formatter<W>) -> fmt::Result {
        match self {
            SubmitFault::Empty => write!(f, "the packet has no record"),
            SubmitFault::InFlight => write!(f, "64 packets are open"),
            SubmitFault::NumbersOut { .. } => write!(f, "the numbers of a gateway are used up"),
            SubmitFault::NoMemory => write!(f, "out of memory"),
        }
    }
}

impl Error for SubmitFault {}
