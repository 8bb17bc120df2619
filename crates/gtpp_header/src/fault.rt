use std::error::Error;
use std::fmt;

/// Why octets are not read as a header, in the order of the tests (3GPP TS 32.295, clause 6.1).
#[derive(Clone, Copy, Debug)]
pub enum HeadFault {
    /// There are fewer octets than a header has.
    Short,
    /// The protocol type is that of GTP, and not of GTP'.
    NotPrime,
    /// The version is not 2. A version has three bits, so it is at most 7.
    Version {
        /// The version that octet 1 names.
        version: u8,
        /// The message type.
        kind: u8,
        /// The sequence number, for the reply that names the version spoken here.
        number: u16,
    },
    /// Fewer octets follow the header than its length says.
    Cut {
        /// The length that the header says, in octets.
        length: u16,
    },
}

impl fmt::Display for HeadFault {
    ghost use Rattle.std.specs.Prelude.{Some};
    ghost use Rattle.gtpp_header.specs.FaultText.{head_fault_text};

    ghost output = { λ fault. Some (head_fault_text fault) };

    fn fmt<W: fmt::Write>(&self, f: &mut fmt::Formatter<W>) -> fmt::Result {
        match self {
            HeadFault::Short => write!(f, "fewer octets than a header has"),
            HeadFault::NotPrime => write!(f, "the protocol type is not that of GTP'"),
            HeadFault::Version { version, .. } => write!(f, "version {version} of GTP'"),
            HeadFault::Cut { length } => write!(f, "fewer than {length} octets of payload"),
        }
    }
}

impl Error for HeadFault {}
