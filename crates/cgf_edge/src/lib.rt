//! The real outside: readers, files, standard streams, connections over TCP, a folder and the system's clock, behind the
//! traits of the gateway.
//!
//! It has no model of its own. A source and a sink tell what their reader and writer tell. The area and the shelf tell
//! nothing of what they hold: their clauses are that a call fails only where the count of faults rose, and that from a
//! failed sync on each write and sync of a file fails. What the system does with a file is trusted.
//!
//!     let mut area = FileArea::new(rt.alloc(), &rt, "journal.area", 16_777_216);
//!     let mut shelf = FolderShelf::new(rt.alloc(), &rt, "cdrs")?;
//!     let mut clock = SystemClock::new(&rt);
#![tactic(auto)]

mod again;
mod area;
mod clock;
mod coming;
mod connection;
mod disk_file;
mod name;
mod nodes;
mod open;
mod part;
mod progress;
mod shelf;
mod sink;
mod source;
mod trouble;
mod window;

pub use area::FileArea;
pub use clock::SystemClock;
pub use connection::{ConnectionSink, ConnectionSource, accept};
pub use disk_file::DiskFile;
pub use progress::{BehindProgress, Line, Progress};
pub use shelf::FolderShelf;
pub use sink::WriterSink;
pub use source::{FileSource, ReaderSource};
pub use trouble::Trouble;
