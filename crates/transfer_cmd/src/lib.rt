//! What a gateway answers to a Data Record Transfer Request (3GPP TS 32.295, clause 6.2.4.5), by
//! the state of the number that it names.
//!
//! There is no state: `decide` is the table of `specs/Table.antt`, and `judge` the rule for lists
//! of `specs/Lists.antt`.
//!
//!     let (cause, given) = decide(KeyState::Fresh, Ask::Send);
//!     let verdict = judge(&states, true);
#![tactic(auto)]

mod decision;
pub mod laws;
mod verdict;

pub use decision::{Ask, decide};
pub use verdict::{Verdict, is_held, judge};
