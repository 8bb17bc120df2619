//! Areas of a fixed number of octets, with a stated disk model: what a read gives, and what a crash
//! at any moment may leave.
//!
//! The model is that of the trait `Area`: its octets, what a crash may leave, its counted calls,
//! its faults and its plan; `specs/Disk.antt` says what a write and a sync make of them.
//! `MemoryArea` and `QuietArea` are proved to be areas, and a `Drill` fails or stops at the calls
//! that its plan names.
//!
//!     let mut area = MemoryArea::new(alloc, 4096, plan)?;
//!     area.write_at(32, octets)?;
//!     area.sync()?;
#![tactic(auto)]

mod area;
mod disk;
mod drill;
pub mod laws;
mod memory;
mod past;
mod plan;
mod planned;
mod quiet;
mod stretch;

pub use area::{Area, Failed, NoMemory};
pub use drill::{Drill, DrillArea};
pub use memory::MemoryArea;
pub use plan::{Fate, Outcome3, Plan, Stop};
pub use planned::PlannedCalls;
pub use quiet::QuietArea;
