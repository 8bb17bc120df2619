//! What each command over files does with what it is handed.
//!
//! The model is the octets of an input, a script or a CDR file, and what is printed for them: `report_of` of
//! `specs/Run.antt`. `do_job` is all of them; a gateway that serves or answers a stream stands above, in `cgf_service`.
//!
//!     let end = do_job(alloc, &words, &mut source, &mut sink, &mut watch);
#![tactic(auto)]

mod command;
mod feed;
mod files;
mod gateway;
mod input;
mod input_kind;
mod job;
mod network;
mod output;
mod printing;
mod report;
mod show;
mod status;
mod watch;
mod words;

pub use command::MOST_SCRIPT_READ;
pub use input::{ReadEnd, read_input};
pub use input_kind::InputKind;
pub use job::{JobEnd, do_job};
pub use output::write_all;
pub use printing::print_counts;
pub use replay_world::Played;
pub use status::{Status, StoreFault};
pub use watch::{NodeTurn, Watch};
pub use words::is_option;
