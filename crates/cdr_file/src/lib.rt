//! CDR files (3GPP TS 32.297, clause 6.1): the header of a file, the header of each CDR in it, the
//! timestamps that they carry, and why a file was closed; reading a file, and listing it.
//!
//! The octets of a whole file are `file_octets` of `specs/CdrFile.antt`: the header of the file,
//! and then each CDR after its own header. `Spells` of `specs/Spelling.antt` says which octets are
//! a file. The contract of `read` is that it reads just these, and else tells the first fault with
//! its place.
//!
//!     let header = run_header(run, sequence, ClosureReason::Manual, offset, address);
//!     let file = read(alloc, &octets)?;
#![tactic(auto)]

mod cdr_header;
mod closure;
mod fault;
mod file;
mod file_header;
mod filed_kind;
mod head_octets;
mod laws;
mod listing;
mod octet;
mod offset;
mod reading;
mod run;
mod stamp_fields;
mod timestamp;

pub use cdr_header::{CdrHeader, write_cdr};
pub use closure::ClosureReason;
pub use fault::{FileFault, FileKind};
pub use file::{Cdr, CdrFile, Cdrs};
pub use file_header::{FileHeader, write_header};
pub use filed_kind::FiledKind;
pub use head_octets::HeadOctets;
pub use laws::{
    each_stamp_fits, file_octets_law, run_facts_law, stamp_fields_law, what_is_read_is_spelled,
    what_is_spelled_is_read, what_is_written_is_read,
};
pub use listing::{cdr_line, head_lines, list};
pub use offset::Offset16;
pub use reading::read;
pub use run::{RunFacts, cdr_header_length, header_length, node_address, run_header};
pub use stamp_fields::StampFields;
pub use timestamp::stamp;
