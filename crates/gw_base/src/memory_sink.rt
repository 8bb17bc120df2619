ghost use Rattle.std.specs.Prelude.{◌≡◌, ◌≢◌, ◌<◌, ◌≤◌, ◌⊎◌, [], length, take, OnOk, OnErr, IfOk};
ghost use Rattle.std.specs.Io.KnownBytes.{Appends};
ghost use Rattle.gw_base.specs.Faults.{Rose};
ghost use Rattle.gw_base.specs.MemorySink.{PutsAsPlanned};
ghost use Rattle.gw_base.specs.Written.{AppendsFront};

use crate::fault::{Failed, NoMemory};
use crate::sink::Sink;
use std::alloc::Global;
use std::marker::Model;

/// A sink that holds what was written, tells it, and fails at the calls that it is told to and at
/// a piece that it has no room for.
#[derive(Drop)]
pub struct MemorySink {
    buffer: Vec<u8>,
    written: usize,
    calls: u64,
    fail: Vec<u64>,
    faults: u64,
}

impl Model for MemorySink {
    ghost use Rattle.std.specs.Prelude.{take, length, ◌≤◌};
    ghost use Rattle.gw_base.specs.MemorySink.{MemoryOutput};

    ghost Value = { MemoryOutput };

    ghost view = { λ s. record {
      written = take s.written s.buffer.items;
      room = length s.buffer.items;
      calls = s.calls;
      fail = s.fail.items;
      faults = s.faults;
    } };

    ghost invariant = { λ s. s.written ≤ length s.buffer.items };
}

impl MemorySink {
    /// An empty sink with room for `room` octets, that fails at the calls whose numbers, counted
    /// from 1, are in `fail`.
    pub fn new(alloc: Global, room: usize, fail: Vec<u64>) -> Result<MemorySink, NoMemory>
        ensures { IfOk result (λ sink.
            sink ≡ record { written = []; room = room; calls = 0; fail = fail.items; faults = 0 }) }
    {
        Ok(MemorySink {
            buffer: vec![in alloc; 0; room]?,
            written: 0,
            calls: 0,
            fail,
            faults: 0,
        })
    }

    /// What was written.
    pub fn octets(&self) -> &[u8]
        ensures { result.now ≡ self.now.written }
    {
        &self.buffer[..self.written]
    }
}

impl Sink for MemorySink {
    ghost use Rattle.std.specs.Prelude.{Some};

    ghost written = { λ s. Some s.written };

    ghost faults = { λ s. s.faults };

    fn put(&mut self, from: &[u8]) -> Result<usize, Failed>
        ensures within { IfOk result (λ n. n ≤ length from.now) }
        ensures appended { IfOk result (λ n.
            Appends (Some self.old.written) (Some self.new.written) (take n from.now)) }
        ensures front { OnErr result (AppendsFront (Some self.old.written) (Some self.new.written) from.now) }
        ensures stalled { result ≡ Ok 0 → 0 < length from.now → Rose self.old.faults self.new.faults }
        ensures counted { self.old.faults ≤ self.new.faults }
        ensures ok { OnOk result (result ≢ Ok 0 ⊎ length from.now ≡ 0 → self.new.faults ≡ self.old.faults) }
        ensures failed { OnErr result (Rose self.old.faults self.new.faults) }
        ensures puts { PutsAsPlanned self.old self.new from.now result }
    {
        self.calls = self.calls.saturating_add(1);
        let room = self.buffer.len() - self.written;
        if self.fail.contains(&self.calls) || room < from.len() {
            self.faults = self.faults.saturating_add(1);
            return Err(Failed);
        }
        let end = self.written + from.len();
        self.buffer[self.written..end].copy_from_slice(from);
        self.written = end;
        Ok(from.len())
    }
}
