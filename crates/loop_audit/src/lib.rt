//! The audit: whether each packet of some nodes stands once at their gateways.
//!
//! The model is `audit_of` (`specs/Audit.antt`), over the histories that the gateways' books stand for and the values
//! of the nodes. It is the first packet, by node and number, of which two copies stand or more, or none though it is
//! resolved.
//!
//!     let audited = audit(&mut books, &nodes)?;
#![tactic(auto)]

mod audited;
mod auditing;

pub use audited::Audited;
pub use auditing::audit;
