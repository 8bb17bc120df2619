//! Entries of a gateway's history as octets of its journal: each has one spelling, and none is the
//! beginning of another's.
//!
//! The model is `HistoryEntry` of `gw_base`; `specs/Spelling.antt` has its octets, and
//! `specs/Room.antt` which entries a journal has room for. The contract of `read` is that it gives
//! the one entry that the octets begin with, or the first octet at which it is certain that there
//! is none.
//!
//!     write(&entry, &mut buffer)?;
//!     let (entry, length) = read(octets, &mut numbers)?;
#![tactic(auto)]

ghost use Rattle.std.specs.Prelude.{◌≡◌, ◌≤◌, ◌*◌, length, take, IfOk, IfErr, OnErr};
ghost use Rattle.gw_base.specs.declared.history.HistoryEntry.{HistoryEntry};
ghost use Rattle.gw_base.specs.Entry.{entry_view};
ghost use Rattle.entry_codec.specs.Fault.{BeginsWith, IsFirstWrong};
ghost use Rattle.entry_codec.specs.Spelling.{HasSpelling, entry_length, spelling};

use gw_base::Entry;

mod fault;
mod fits;
mod kind;
pub mod laws;
mod reading;
mod room;
mod writing;

pub use fault::EntryFault;
pub use room::{capacity, promised};
pub use writing::{cost, write};

/// Reads the entry that the octets begin with, and says how many octets it has.
///
/// The entry borrows its packet from the octets, and its numbers from `numbers`, which needs an
/// eighth as many places as there are octets and whose front is overwritten.
pub fn read<'a>(octets: &'a [u8], numbers: &'a mut [u64]) -> Result<(Entry<'a>, usize), EntryFault>
    requires { length octets.now ≤ 8 * length numbers.old }
    ensures fits { IfOk result (λ x. HasSpelling (entry_view x.0)) }
    ensures size { IfOk result (λ x. x.1 ≡ entry_length (entry_view x.0)) }
    ensures spelled { IfOk result (λ x. take x.1 octets.now ≡ spelling (entry_view x.0)) }
    ensures only { IfOk result (λ x. (e : HistoryEntry) → BeginsWith octets.now e → e ≡ entry_view x.0) }
    ensures none { OnErr result ((e : HistoryEntry) → ¬ (BeginsWith octets.now e)) }
    ensures first_wrong { IfErr result (λ fault. IsFirstWrong octets.now fault.at) }
{
    match reading::entry_of(octets, numbers) {
        Ok((entry, rest)) => Ok((entry, octets.len() - rest.len())),
        Err(rest) => Err(EntryFault {
            at: octets.len() - rest.len(),
        }),
    }
}
