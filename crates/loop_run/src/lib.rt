//! A loop: gateways and nodes of one machine against one another, over real links, on threads; and the audit of what
//! they did.
//!
//! The model is what each node heard, turn by turn, from which follows all that it is and sent (`node_run`), and what
//! each gateway heard, to which its history has the answers (`specs/Looped.antt`). The contract of `run_loop` is that
//! what it hands out is so, and that its end is just what this counts and the audit finds (`specs/Ending.antt`).
//!
//!     let (end, looped) = run_loop(rt, alloc, LoopSetup { gateways, nodes, packets, turns }, links);
//!
//! Nothing is said of progress: that a packet arrives, or that all are done within their turns.
#![tactic(auto)]

mod addresses;
mod books;
mod clock;
mod collecting;
mod counts;
mod end;
mod ending;
mod laws;
mod looped;
mod looping;
mod making;
mod running;
mod seat;
mod seating;
mod setup;

pub use end::LoopEnd;
pub use gateway_book::GatewayCounts;
pub use laws::nodes_of_a_loop_keep_all;
pub use loop_audit::{Audited, audit};
pub use looped::Looped;
pub use looping::{run_loop, run_loop_watched};
pub use node_core::NodeCounts;
pub use node_run::NodeWatch;
pub use setup::LoopSetup;
