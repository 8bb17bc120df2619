//! A journal of batches behind gates.
//!
//! The model is a list of batches, of which one may be torn; `specs/Format.antt` says which octets
//! of an area stand for it. The contract is that of `append`: a crash at any moment of the call
//! leaves the batches before it, or these and the new one, and after `Ok` both.
//!
//!     let mut journal = Journal::open(alloc, area, address, 0)?;
//!     journal.append(batch)?;
#![tactic(auto)]

mod before;
mod device;
mod drill;
mod faults;
mod format;
mod journal;
mod opening;
mod reading;
mod starting;

pub use before::{batch_before, read_before};
pub use faults::{AppendFault, Device, OpenFault};
pub use format::LONGEST_BATCH;
pub use journal::{Front, Journal};
pub use starting::starts;
