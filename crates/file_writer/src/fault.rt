use cdr_shelf::ShelfStop;
use std::error::Error;
use std::fmt;

/// Why items weren't taken, or the sealed files weren't asked for. The writer is broken until it recovers.
#[derive(Clone, Copy, Debug, PartialEq, Eq)]
pub enum ShelfFault {
    /// The shelf failed: its count of faults rose in this call.
    Device,
    /// The shelf had no memory for a call.
    NoMemory,
}

impl fmt::Display for ShelfFault {
    ghost use Rattle.std.specs.Prelude.{Some};
    ghost use Rattle.file_writer.specs.FaultText.{shelf_fault_text};

    ghost output = { λ fault. Some (shelf_fault_text fault) };

    fn fmt<W: fmt::Write>(&self, f: &mut fmt::Formatter<W>) -> fmt::Result {
        f.write_str(match self {
            ShelfFault::Device => "the shelf failed",
            ShelfFault::NoMemory => "out of memory",
        })
    }
}

impl Error for ShelfFault {}
