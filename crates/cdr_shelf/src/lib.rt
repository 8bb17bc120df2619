//! Shelves of CDR files (3GPP TS 32.297, clause 6): sealed files, which stay, and one file per stream
//! that is being written.
//!
//! The model is that of the trait `Shelf`: the sealed files, a list in order of sealing that only
//! grows, so that what is sealed at any moment of a call is the list before it or after it; the
//! unsealed file of each stream; its counted calls, its faults and its plan. `specs/Steps.antt` says
//! what each call makes of an unsealed file, and what a plan makes of each call. `MemoryShelf` and
//! `QuietShelf` are proved to be shelves, and a `Drill` fails or stops at the calls that its plan
//! names.
//!
//!     shelf.begin(name)?;
//!     shelf.write_at(name.stream, 0, octets)?;
//!     shelf.sync(name.stream)?;
//!     shelf.seal(name.stream)?;
#![tactic(auto)]

mod contents;
mod drill;
mod file_name;
pub mod laws;
mod memory;
mod quiet;
mod shelf;
mod stored;

pub use drill::DrillShelf;
pub use file_name::FileName;
pub use memory::MemoryShelf;
pub use quiet::QuietShelf;
pub use shelf::{Shelf, ShelfStop};
