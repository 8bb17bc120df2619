ghost use Rattle.std.specs.Prelude.{◌≡◌, ◌≤◌, ◌+◌, length, take, drop, min, OnOk, OnErr, IfOk};
ghost use Rattle.std.specs.Io.KnownBytes.{ReadConsumes};
ghost use Rattle.gw_base.specs.Faults.{Rose};
ghost use Rattle.gw_base.specs.MemorySource.{TakesAsPlanned};

use crate::fault::Failed;
use crate::octets::Octets;
use crate::source::Source;
use std::marker::Model;

/// A source that holds its octets, tells them, and fails at the calls that it is told to.
#[derive(Drop)]
pub struct MemorySource {
    octets: Vec<u8>,
    taken: usize,
    piece: usize,
    calls: u64,
    fail: Vec<u64>,
    faults: u64,
}

impl Model for MemorySource {
    ghost use Rattle.std.specs.Prelude.{drop, length, ◌≤◌};
    ghost use Rattle.gw_base.specs.MemorySource.{MemoryInput};

    ghost Value = { MemoryInput };

    ghost view = { λ s. record {
      left = drop s.taken s.octets.items;
      piece = s.piece;
      calls = s.calls;
      fail = s.fail.items;
      faults = s.faults;
    } };

    ghost invariant = { λ s. (s.taken ≤ length s.octets.items) × (1 ≤ s.piece) };
}

impl MemorySource {
    /// A source of these octets that gives at most `piece` of them a call, and fails at the calls
    /// whose numbers, counted from 1, are in `fail`.
    pub fn new(octets: Octets, piece: usize, fail: Vec<u64>) -> MemorySource
        requires { 1 ≤ piece }
        ensures { result ≡ record { left = octets; piece = piece; calls = 0; fail = fail.items; faults = 0 } }
    {
        MemorySource {
            octets: octets.into_vec(),
            taken: 0,
            piece,
            calls: 0,
            fail,
            faults: 0,
        }
    }

    /// Copies up to `piece` octets of what is left into the front of `into`, and says how many.
    fn give(&mut self, into: &mut [u8]) -> usize
        ensures count { result ≡ min self.old.piece (min (length into.old) (length self.old.left)) }
        ensures given { take result into.new ≡ take result self.old.left }
        ensures left { self.new ≡ record self.old { left = drop result self.old.left } }
    {
        let left = self.octets.len() - self.taken;
        let n = self.piece.min(into.len()).min(left);
        let end = self.taken + n;
        into[..n].copy_from_slice(&self.octets[self.taken..end]);
        self.taken = end;
        n
    }
}

impl Source for MemorySource {
    ghost use Rattle.std.specs.Prelude.{Some};

    ghost left = { λ s. Some s.left };

    ghost faults = { λ s. s.faults };

    fn take(&mut self, into: &mut [u8]) -> Result<usize, Failed>
        ensures within { IfOk result (λ n. n ≤ length into.new) }
        ensures taken { ReadConsumes (Some self.old.left) (Some self.new.left) result into.new }
        ensures counted { self.old.faults ≤ self.new.faults }
        ensures ok { OnOk result (self.new.faults ≡ self.old.faults) }
        ensures failed { OnErr result (Rose self.old.faults self.new.faults) }
        ensures takes { TakesAsPlanned self.old self.new (length into.old) result }
    {
        self.calls = self.calls.saturating_add(1);
        if self.fail.contains(&self.calls) {
            self.faults = self.faults.saturating_add(1);
            return Err(Failed);
        }
        Ok(self.give(into))
    }
}
