//! Writes filed records into CDR files (3GPP TS 32.297), stream by stream, on a shelf.
//!
//! The model is the files into which a list of items is divided: `files_of` of `specs/Files.antt`, and
//! `specs/Streams.antt` for each stream. The contract is that of `Writer::advance`: after any number of
//! its calls of the shelf the files that are sealed are the first of these, and at `Ok` they are all
//! that the items close.
//!
//!     let mut writer = Writer::new(shelf, rules, limits, offset, address, profile);
//!     writer.recover()?;
//!     let taken = writer.advance(&items)?;
#![tactic(auto)]

mod all_streams;
mod asking;
mod drill;
mod fault;
mod gateway;
pub mod laws;
mod one_file;
pub mod places;
mod progress;
mod shelf_calls;
mod stream;
mod writer;

pub use fault::ShelfFault;
pub use writer::Writer;
