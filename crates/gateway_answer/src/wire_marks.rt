ghost use Rattle.std.specs.Prelude.{◌≡◌, ◌<◌, false, true, length, replicate, slice_index_or, slice_set, IfOk};
ghost use Rattle.gateway_answer.specs.WireMarks.{AreClear, wire_numbers};

use gw_base::NoMemory;
use std::alloc::Global;
use std::marker::Model;

/// How many sequence numbers there are.
const WIRE_NUMBERS: usize = 65_536;

/// A mark on each sequence number, set or not.
#[derive(Drop)]
pub(crate) struct WireMarks {
    marks: Vec<bool>,
}

impl Model for WireMarks {
    ghost use Rattle.std.specs.Prelude.{◌≡◌, Bool, List, length};
    ghost use Rattle.gateway_answer.specs.WireMarks.{wire_numbers};

    ghost Value = { List Bool };

    ghost view = { λ m. m.marks.items };

    ghost invariant = { λ m. length m.marks.items ≡ wire_numbers };
}

impl WireMarks {
    /// No number is marked.
    pub(crate) fn new(alloc: Global) -> Result<WireMarks, NoMemory>
        ensures { IfOk result (λ marks. marks ≡ replicate wire_numbers false) }
    {
        let marks = vec![in alloc; false; WIRE_NUMBERS]?;
        Ok(WireMarks { marks })
    }

    /// Takes all marks away.
    pub(crate) fn clear(&mut self)
        ensures { AreClear self.new }
    {
        self.marks.fill(false);
    }

    /// Whether a number is marked.
    pub(crate) fn has(&self, wire: u16) -> bool
        ensures { result ≡ slice_index_or self.now wire false }
    {
        self.marks[usize::from(wire)]
    }

    /// Marks a number.
    pub(crate) fn set(&mut self, wire: u16)
        ensures { self.new ≡ slice_set self.old wire true }
    {
        self.marks[usize::from(wire)] = true;
    }
}
