//! The outer framing of charging data records (3GPP TS 32.298): whether octets are one BER value
//! (ITU-T X.690, clause 8.1), and what is wrong with those that aren't.
//!
//! The model is `BerValue` of `specs/Value.antt`, a relation between octets and their outer tag.
//! The contract of `check` is that it accepts just these octets, and else tells the first fault of
//! `specs/Faults.antt` with its place.
//!
//!     let tag = check(record)?;
#![tactic(auto)]

mod fault;
mod frame;
mod head;
pub mod laws;
mod walk;

pub use fault::{BerFault, BerKind};
pub use frame::{check, front_tag, identifier};
pub use gw_base::Tag;
