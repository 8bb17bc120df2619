//! The information elements of GTP' messages (3GPP TS 32.295, clause 6.2), lent from the octets of
//! a message without a copy.
//!
//! The model is a list of `Element`, a type and a value; `specs/Elements.antt` says which octets
//! spell it. The contract of `read` is that the body spells just these elements, or that this is
//! its first fault.
//!
//!     let elements = read(body)?;
//!     let command = elements.first(element_types::COMMAND);
#![tactic(auto)]

mod element;
pub mod element_types;
mod elements;
mod fault;
pub mod laws;
mod numbers;
mod table;
mod write;

pub use elements::{Elements, read};
pub use fault::{ElementFault, OddLength};
pub use numbers::Numbers;
pub use write::put;
