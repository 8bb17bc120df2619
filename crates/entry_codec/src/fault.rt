use std::error::Error;
use std::fmt;

/// No prefix of the octets is an entry.
#[derive(Clone, Copy, Debug)]
pub struct EntryFault {
    /// The first octet, counted from 0, at which that is certain: an entry begins with the octets
    /// before it, and none with it too. It is the number of octets where they end too early.
    pub at: usize,
}

impl fmt::Display for EntryFault {
    ghost use Rattle.std.specs.Prelude.{◌++◌, Some, codes};
    ghost use Rattle.std.specs.Fmt.{decimal};

    ghost output = { λ fault. Some (codes "no entry has the octet at " ++ decimal fault.at) };

    fn fmt<W: fmt::Write>(&self, f: &mut fmt::Formatter<W>) -> fmt::Result {
        write!(f, "no entry has the octet at {}", self.at)
    }
}

impl Error for EntryFault {}
