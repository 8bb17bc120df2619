//! GTP' over a stream of octets, such as TCP carries: each message is as long as its header says, and the next one
//! follows it.
//!
//! `specs/Frames.antt` says which messages a stream has, as a list; `specs/Stream.antt` what a deframer knows of it. The
//! contract of each call is how the deframer goes on to follow the stream, however it is cut into pieces.
//!
//!     let (used, end) = deframer.push(piece);
//!     if let FrameEnd::Whole = end {
//!         handle(deframer.octets());
//!         deframer.next();
//!     }
#![tactic(auto)]

mod deframer;
mod frame;
pub mod laws;
mod taking;

pub use deframer::Deframer;
pub use frame::{FrameEnd, FrameKind};
