//! A whole network from a script: what each line makes of gateways, nodes and messages, and what it
//! prints. [`Replay`] runs the lines on real parts in memory: the gateways of `replay_gateway`, and
//! nodes.
//!
//! The model is `ReplayValue` of `specs/Value.antt`; a replay stands for one by `specs/Stands.antt`. The
//! contract is that of `Replay::run_line`: a line does and prints what `specs/Lines.antt` and
//! `specs/Telling.antt` say, whatever is armed, and one that the world refuses changes nothing. The laws
//! say that each line moves the world as its turns, and that each record of each packet is filed once.
//!
//!     let mut replay = Replay::new(alloc, &script)?;
//!     let end = replay.run_line(alloc, line, &mut printed);
//!     let played = replay.into_played();
#![tactic(auto)]

mod delivering;
mod gateway_lines;
pub mod laws;
mod lines;
mod node_lines;
mod notices;
mod refusals;
mod replay;
mod report;
mod settling;
mod summary;

pub use lines::LineEnd;
pub use replay::{Played, Replay};
pub use report::print_node;
pub use summary::{GatewaySums, NodeSums, Summary, print_summary};
