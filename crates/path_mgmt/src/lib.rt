//! The path between a serving node and a charging gateway (3GPP TS 32.295, clause 6.2): what each
//! end answers to the other's path management messages, and what it learns by them.
//!
//! The model of a gateway's end is the counter that opened the node's present epoch, that of a
//! node's end its own counter and which gateways are alive. The contract of both `hear`s is the
//! definition, by cases: `specs/GatewayPath.antt` and `specs/NodePath.antt`.
//!
//!     let answer = GatewayPath::hear(known, PathEvent::EchoTold { number, counter }, own);
//!     // answer.changed is the counter that opens a new epoch, answer.reply goes back
#![tactic(auto)]

mod event;
mod gateway;
pub mod laws;
mod node;

pub use event::{PathAnswer, PathEvent};
pub use gateway::GatewayPath;
pub use node::NodePath;
