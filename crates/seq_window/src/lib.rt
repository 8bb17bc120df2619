//! The request numbers of one node in its present epoch: a window of numbers below the greatest one, with a state for
//! each. Numbers go on without end, though the wire carries 16 bits of them.
//!
//! The model is `Seen` of `specs/Seen.antt`: the greatest number, and the state of each number. The contract of each
//! call is one step on it. The laws say which list of calls gives which states, and that a window follows the history
//! of its node's entries.
//!
//!     let number = window.near(wire);
//!     if window.state(number) == KeyState::Fresh {
//!         window.set(number, KeyState::Filed);
//!     }
#![tactic(auto)]

pub mod laws;
mod ring;
mod window;

pub use window::Window;
