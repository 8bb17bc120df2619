//! What the lines of a group act on: an area, or the journal or the trail on it, and a shelf.
//!
//! - `arm PLAN`: what is planned from now on for the calls of whichever there is.
//! - `close`: the journal or the trail is given up, and its area stands alone; how many octets that has.

use crate::plans::plan_of;
use area_disk::{Area, Drill, MemoryArea};
use cdr_shelf::MemoryShelf;
use cgf_journal::Trail;
use gate_journal::Journal;
use run_lines::bad;
use std::io;

#[derive(Drop)]
pub(crate) struct Scene {
    pub(crate) area: Option<MemoryArea>,
    pub(crate) journal: Option<Journal<MemoryArea>>,
    pub(crate) trail: Option<Trail<MemoryArea>>,
    pub(crate) shelf: Option<MemoryShelf>,
}

impl Scene {
    /// What there is before the first line of a group.
    pub(crate) fn new() -> Scene {
        Scene {
            area: None,
            journal: None,
            trail: None,
            shelf: None,
        }
    }

    pub(crate) fn arm(&mut self, rt: &HostRuntime, words: &str) -> io::Result<()> {
        let plan = plan_of(rt.alloc(), words)?;
        if let Some(area) = &mut self.area {
            area.arm(plan);
        } else if let Some(journal) = &mut self.journal {
            journal.arm(plan);
        } else if let Some(trail) = &mut self.trail {
            trail.arm(plan);
        } else if let Some(shelf) = &mut self.shelf {
            shelf.arm(plan);
        }
        print!(rt; "armed")
    }

    pub(crate) fn close(&mut self, rt: &HostRuntime) -> io::Result<()> {
        if let Some(journal) = self.journal.take() {
            self.area = Some(journal.into_area());
        }
        if let Some(trail) = self.trail.take() {
            self.area = Some(trail.into_area());
        }
        match &self.area {
            Some(area) => print!(rt; "{} octets", area.length()),
            None => Err(bad()),
        }
    }
}
