//! The sessions of a gateway on threads: one receives, two answer for four sessions, one writes files, until told.
//!
//! `run` takes a book, a writer of files and five links of one address, and hands them back with what it did: the
//! history goes on by answers to datagrams that were heard (`GoesOn`), each reply rests on what is firm (`IsReply`,
//! `specs/History.antt`), and the writer has taken items of that history. Each part stays what it is for as long as it
//! runs: a desk of a session (`HasWorked`), the reception (`HasDispatched`), and who writes (`HasWritten`, `specs/`).
//!
//!     let ran = run(rt, alloc, Gateway { book, writer, address, links }, clock, Until::Turns(turns));
//!
//! Where no thread can be made all that came is received first, then answered, and the files are written last.
//! Nothing is said of progress.
#![tactic(auto)]

mod beside;
mod desk;
mod desks;
mod ending;
mod filing;
mod gateway;
mod gathering;
pub mod laws;
mod links;
mod making;
mod pace;
mod receiving;
mod reception;
mod round;
mod running;
mod signals;
mod stop;
mod until;

pub use gateway::{Gateway, Ran};
pub use links::{give_back, make_links};
pub use running::run;
pub use stop::Stop;
pub use until::Until;
