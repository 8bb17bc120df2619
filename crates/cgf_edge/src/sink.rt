ghost use Rattle.std.specs.Prelude.{◌≡◌, ◌≤◌};
ghost use Rattle.gw_base.specs.Faults.{Rose};

use crate::again::write_again;
use gw_base::{Failed, Sink};
use std::io::Write;

/// A sink over a writer. It tells what was written where the writer does. A write that a signal interrupts is made
/// again.
#[derive(Drop)]
pub struct WriterSink<W: Write + Drop> {
    writer: W,
    faults: u64,
}

impl<W: Write + Drop> WriterSink<W> {
    /// A sink whose octets go to the writer. It has failed no call yet.
    pub fn new(writer: W) -> Self
        ensures writer { result.writer ≡ writer }
        ensures faults { result.faults ≡ 0 }
    {
        WriterSink { writer, faults: 0 }
    }

    fn fail(&mut self) -> Failed
        ensures rose { Rose self.old.faults self.new.faults }
        ensures counted { self.old.faults ≤ self.new.faults }
        ensures writer { self.new.writer ≡ self.old.writer }
    {
        self.faults = self.faults.saturating_add(1);
        Failed
    }
}

impl<W: Write + Drop> Sink for WriterSink<W> {
    ghost written = { λ s. W.contents s.writer };

    ghost faults = { λ s. s.faults };

    fn put(&mut self, from: &[u8]) -> Result<usize, Failed> {
        match write_again(&mut self.writer, from) {
            Ok(0) if !from.is_empty() => Err(self.fail()),
            Ok(count) => Ok(count),
            Err(_) => Err(self.fail()),
        }
    }
}
