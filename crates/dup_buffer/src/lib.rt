//! Which possibly duplicated packets a gateway holds, and where each lies in its journal.
//!
//! The model is `Copies` of `specs/Copies.antt`: the place of each held number of a node, and how
//! many there are. The contract of each call is one step on it, and a fault leaves it as it was.
//!
//!     held.hold(node, number, place)?;
//!     let place = held.find(node, number);
#![tactic(auto)]

mod copy;
mod fault;
mod held;
mod merging;
mod order;

pub use fault::HoldFault;
pub use held::Held;
