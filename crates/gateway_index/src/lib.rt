//! What a gateway keeps of its history, so that it answers without reading it: of each node the Path that opened its
//! present epoch and a window of its numbers, the copies that are held, and some counts.
//!
//! The model is `Side` of `specs/Sides.antt`: an index has a firm side and a live side. The contract is that of
//! `Index`: each side follows a history, entry by entry, and tells of it what `laws` say. Whoever asks says by `true`
//! that the firm side is meant, and by `false` the live side.
//!
//!     let mut index = Index::new(alloc)?;
//!     index.note(&entry);
//!     let state = index.state(false, node, number);
#![tactic(auto)]

mod held_pair;
mod index;
pub mod laws;
mod limits;
mod nodes;
mod noting;
mod paths;
mod totals;
mod window_pair;
mod windows;

pub use index::Index;
pub use limits::{MOST_COPIES, MOST_NODES};
pub use totals::Totals;
