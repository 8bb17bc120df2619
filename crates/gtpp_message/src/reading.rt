ghost use Rattle.std.specs.Prelude.{◌≡◌};
ghost use Rattle.gtpp_message.specs.Names.{name_of};

use crate::message::Message;

/// What the octets of a datagram are read as.
#[derive(Debug, Drop)]
pub enum Reading<'a> {
    /// A message, with its sequence number.
    Message {
        number: u16,
        message: Message<'a>,
    },
    /// A message of a known type with a body that isn't one of that type.
    Refused {
        /// The type of the message.
        kind: u8,
        /// The cause that answers it: 193, 201 or 202.
        cause: u8,
        number: u16,
    },
    /// A message of another version of GTP'.
    OtherVersion {
        /// The type of the message.
        kind: u8,
        number: u16,
    },
    /// What isn't answered.
    Drop(Why),
}

/// Why a datagram isn't answered.
#[derive(Clone, Copy, Debug, PartialEq, Eq)]
pub enum Why {
    /// It has fewer octets than a header.
    Short,
    /// It is of GTP, and not of GTP'.
    NotPrime,
    /// It has fewer octets than its header says.
    Cut,
    /// The type of the message is unknown.
    UnknownType,
    /// The receiver is not one to which such a message is sent.
    Stray,
    /// The body isn't one of the message's type, and no message answers that.
    Malformed {
        /// The cause that would answer it.
        cause: u8,
    },
    /// There is no room for what it calls for.
    NoRoom,
    /// The device failed.
    Device,
}

impl Why {
    /// Its name, as reports print it.
    pub fn name(self) -> &'static str
        ensures { result.now ≡ name_of self }
    {
        match self {
            Why::Short => "Short",
            Why::NotPrime => "NotPrime",
            Why::Cut => "Cut",
            Why::UnknownType => "UnknownType",
            Why::Stray => "Stray",
            Why::Malformed { .. } => "Malformed",
            Why::NoRoom => "NoRoom",
            Why::Device => "Device",
        }
    }
}
