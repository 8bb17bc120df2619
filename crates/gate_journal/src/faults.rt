// Why a call of a journal failed.
ghost use Rattle.std.specs.Prelude.{Some, codes};
ghost use Rattle.gate_journal.specs.FaultText.{append_fault_text, open_fault_text};

use std::error::Error;
use std::fmt;

/// The device failed. Its count of faults rose in this call.
#[derive(Clone, Copy, Debug)]
pub struct Device;

impl fmt::Display for Device {
    ghost output = { λ _. Some (codes "the device failed") };

    fn fmt<W: fmt::Write>(&self, f: &mut fmt::Formatter<W>) -> fmt::Result {
        write!(f, "the device failed")
    }
}

impl Error for Device {}

/// Why a journal wasn't opened or drafted. The area is handed back beside it.
#[derive(Clone, Copy, Debug)]
pub enum OpenFault {
    /// The device failed. Its count of faults rose in this call. An area whose making it broke off is made anew by
    /// the next opening, or stands for no batch.
    Device,
    /// The area is no journal with this address and generation, and this octet shows it: the first octet of the
    /// header that differs, or the open gate of the first batch that isn't whole. Nothing was written.
    NotOurs { at: u64 },
    /// There was no memory for the buffer. Nothing was written.
    NoMemory,
}

impl fmt::Display for OpenFault {
    ghost output = { λ fault. Some (open_fault_text fault) };

    fn fmt<W: fmt::Write>(&self, f: &mut fmt::Formatter<W>) -> fmt::Result {
        match *self {
            OpenFault::Device => write!(f, "the device failed"),
            OpenFault::NotOurs { at } => write!(f, "no journal of ours: octet {at}"),
            OpenFault::NoMemory => write!(f, "out of memory"),
        }
    }
}

impl Error for OpenFault {}

/// Why a batch wasn't appended.
#[derive(Clone, Copy, Debug)]
pub enum AppendFault {
    /// The device failed. Its count of faults rose in this call. The journal is closed until it is opened again; the
    /// batch then stands or it doesn't.
    Device,
    /// The batch, with its gate and its length, has more octets than these, which are free. Nothing changed.
    Full { free: u64 },
}

impl fmt::Display for AppendFault {
    ghost output = { λ fault. Some (append_fault_text fault) };

    fn fmt<W: fmt::Write>(&self, f: &mut fmt::Formatter<W>) -> fmt::Result {
        match *self {
            AppendFault::Device => write!(f, "the device failed"),
            AppendFault::Full { free } => write!(
                f,
                "the batch doesn't fit: {free} octets are free"
            ),
        }
    }
}

impl Error for AppendFault {}
