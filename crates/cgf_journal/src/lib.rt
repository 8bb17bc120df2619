//! A gateway's history on a journal: the entries that stand, and those that wait for a commit.
//!
//! The model is a list of entries with its firm front, `specs/Trail.antt`; `specs/Format.antt` says
//! which octets of an area stand for it. The contract is that of `Trail::commit`: a crash at any
//! moment leaves the firm entries, or all, and after `Ok` all.
//!
//!     let mut trail = Trail::open(alloc, area, address)?;
//!     if trail.room(&entry) {
//!         trail.push(&entry)?;
//!     }
//!     trail.commit()?;
#![tactic(auto)]

mod contents;
mod drill;
mod faults;
mod judge;
mod kept;
mod key;
pub mod laws;
mod listing;
mod merging;
mod opening;
mod places;
mod sorted;
mod sum;
mod tally;
mod trail;

pub use faults::BatchFull;
pub use gate_journal::{Device, OpenFault};
pub use judge::Judge;
pub use trail::{Trail, Waiting};
