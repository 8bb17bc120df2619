ghost use Rattle.std.specs.Prelude.{◌≡◌, option_map};
ghost use Rattle.cdr_file.specs.ClosureReason.{code_of};

use cdr_file::ClosureReason;

/// Where an item cuts the stream: the codes of the reasons for which files are closed there
/// (3GPP TS 32.297, clause 6.1.1).
#[derive(Clone, Copy, Debug)]
pub struct Cut {
    /// Why the open file is closed before this item, if it is: 5 before a record of another kind, 2
    /// at a Tick, 4 at a Close.
    pub before: Option<u8>,
    /// Why the file that has this record is closed after it, if it is: 1 where it has reached the
    /// size, else 3 where it has reached the count.
    pub after: Option<u8>,
}

impl Cut {
    /// The cut for these reasons.
    pub(crate) fn of(before: Option<ClosureReason>, after: Option<ClosureReason>) -> Cut
        ensures { result ≡ record { before = option_map code_of before; after = option_map code_of after } }
    {
        Cut {
            before: code_of(before),
            after: code_of(after),
        }
    }
}

/// The code of a reason, if there is one.
fn code_of(reason: Option<ClosureReason>) -> Option<u8>
    ensures { result ≡ option_map code_of reason }
{
    match reason {
        Some(reason) => Some(reason.code()),
        None => None,
    }
}
