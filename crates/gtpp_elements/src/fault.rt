use std::error::Error;
use std::fmt;

/// Why a body is no list of elements. The first faulty element decides.
#[derive(Clone, Copy, Debug)]
pub enum ElementFault {
    /// The element runs past the body.
    Overrun {
        /// How many octets of the body stand before the element.
        at: usize,
    },
    /// Bit 8 of the element's type is clear, and the type is none whose length is known.
    UnknownFixed {
        /// The element's type.
        kind: u8,
        /// How many octets of the body stand before the element.
        at: usize,
    },
}

/// A list of sequence numbers has an odd number of octets.
#[derive(Clone, Copy, Debug)]
pub struct OddLength;

impl fmt::Display for ElementFault {
    ghost use Rattle.std.specs.Prelude.{Some};
    ghost use Rattle.gtpp_elements.specs.FaultText.{element_fault_text};

    ghost output = { λ fault. Some (element_fault_text fault) };

    fn fmt<W: fmt::Write>(&self, f: &mut fmt::Formatter<W>) -> fmt::Result {
        match self {
            ElementFault::Overrun { at } => write!(f, "the element at {at} runs past the body"),
            ElementFault::UnknownFixed { kind, at } => {
                write!(
                    f,
                    "the element at {at} has the unknown type {kind} without a length"
                )
            }
        }
    }
}

impl Error for ElementFault {}

impl fmt::Display for OddLength {
    ghost use Rattle.std.specs.Prelude.{Some, codes};

    ghost output = { λ _. Some (codes "an odd number of octets") };

    fn fmt<W: fmt::Write>(&self, f: &mut fmt::Formatter<W>) -> fmt::Result {
        write!(f, "an odd number of octets")
    }
}

impl Error for OddLength {}
