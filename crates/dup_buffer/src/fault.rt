use std::error::Error;
use std::fmt;

/// Why a copy isn't held. All copies are held as before.
#[derive(Clone, Copy, Debug)]
pub enum HoldFault {
    /// As many copies are held as a gateway may hold, 65,536.
    Full,
    /// There was no memory for one more copy, and no spare room.
    NoMemory,
}

impl fmt::Display for HoldFault {
    ghost use Rattle.std.specs.Prelude.{Some};
    ghost use Rattle.dup_buffer.specs.FaultText.{hold_fault_text};

    ghost output = { λ fault. Some (hold_fault_text fault) };

    fn fmt<W: fmt::Write>(&self, f: &mut fmt::Formatter<W>) -> fmt::Result {
        f.write_str(match self {
            HoldFault::Full => "65,536 copies are held",
            HoldFault::NoMemory => "out of memory",
        })
    }
}

impl Error for HoldFault {}
