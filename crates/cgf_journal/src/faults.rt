// Why a call of a trail failed.
use std::error::Error;
use std::fmt;

/// An entry wasn't pushed, and nothing changed: it has more octets than these, which are free of the 1,048,576 of a
/// batch. All are free after a commit.
#[derive(Clone, Copy, Debug)]
pub struct BatchFull {
    pub free: u64,
}

impl fmt::Display for BatchFull {
    ghost use Rattle.std.specs.Prelude.{◌++◌, Some, codes};
    ghost use Rattle.std.specs.Fmt.{decimal};

    ghost output = { λ fault. Some (codes "the batch has " ++ decimal fault.free ++ codes " octets free") };

    fn fmt<W: fmt::Write>(&self, f: &mut fmt::Formatter<W>) -> fmt::Result {
        write!(f, "the batch has {} octets free", self.free)
    }
}

impl Error for BatchFull {}
