//! When the CDR file of one stream of records is closed, and why (3GPP TS 32.297, clause 6.1.1).
//!
//! The records of a stream are cut into files one after the other: `division_of` of
//! `specs/Division.antt` says which file has which records. The contract of a `Cutter` is that its
//! answers, over any items, mark that division.
//!
//!     let mut cutter = Cutter::new(limits, profile);
//!     let cut = cutter.put(kind, length, moment);
//!     // cut says whether a file is closed before the record, and whether one is after it
#![tactic(auto)]

mod cut;
mod cutter;
mod laws;
mod limits;
mod open_file;

pub use cut::Cut;
pub use cutter::Cutter;
pub use laws::{
    cutter_divides, cutter_keeps_the_open_run, cutter_keeps_the_run,
    division_closes_where_files_end, division_goes_on,
};
pub use limits::Limits;
