//! A gateway of a replay, in memory: its book over an area, the writer of its files over a shelf, and the
//! answers that wait. A failure or a stop may be armed for each call of the area and of the shelf. Beside it
//! stands what feeds and gateways that serve use, too: the settings of a script (`Settings`, `rules_of`).
//!
//! The model is a `Gateway` of `once_core` with a `Machine` of `specs/Machine.antt`: what is armed and
//! what is written. [`Machine`] stands for both by `specs/Standing.antt`. The contract is that of its
//! calls: what is armed decides what a call makes of the gateway, and which messages it sends.
//!
//!     let mut machine = Machine::new(alloc, place, &Settings::of(&script), rules_of(alloc, &script)?)?;
//!     machine.arm(failing(alloc, 1)?);
//!     let sent = machine.ask(alloc, GatewayCall::Commit, now)?;
//!     let wrote = machine.write(alloc)?;
#![tactic(auto)]

mod calls;
mod fallen;
mod files;
mod gateway_report;
pub mod laws;
mod machine;
mod messages;
mod plans;
mod redirecting;
mod settings;
mod site;
mod taking;
mod writing;

pub use calls::GatewayCall;
pub use files::Wrote;
pub use gateway_book::GatewayCounts;
pub use gateway_report::{print_counts, print_name};
pub use machine::{Came, Machine, Sent};
pub use messages::Ends;
pub use plans::{failing, stopping};
pub use settings::{Settings, rules_of};
pub use taking::{Delivery, Ending};
