// An area in memory that never fails.
ghost use Rattle.std.specs.Prelude.{◌≡◌, ◌≤◌, ◌<◌, ◌+◌, ◌^◌, ℕ, true, false, length, take, drop, vec_capacity, IfOk};
ghost use Rattle.area_disk.specs.Disk.{zeros, overwritten};
ghost use Rattle.area_disk.specs.Quiet.{padded};

use crate::stretch::overwrite;
use crate::{Area, Failed, NoMemory};
use std::alloc::Global;
use std::marker::Model;

/// An area in memory whose calls never fail. It tells what a read gives, which is what a crash leaves, and nothing
/// of moments and of its calls. Contracts see it as the list of its octets.
///
/// All its memory is taken as it is made, and first touched by the writes.
#[derive(Drop)]
pub struct QuietArea {
    /// Its octets up to the last one that was written. Those behind them are 0.
    octets: Vec<u8>,
    size: u64,
}

impl Model for QuietArea {
    ghost use Rattle.std.specs.Prelude.{List, ℕ, ◌≤◌, length, vec_capacity};
    ghost use Rattle.area_disk.specs.Quiet.{padded};

    ghost Value = { List ℕ };

    ghost view = { λ a. padded a.size a.octets.items };

    ghost invariant = { λ a. (length a.octets.items ≤ a.size) × (a.size ≤ vec_capacity a.octets) };
}

// Makes the octets reach up to this place, for which there is memory. Those that are new are 0.
#[tactic(auto, using(crate::proofs::Padded::padded_whole), unfolding(crate::specs::Disk::zeros))]
fn reach(octets: &mut Vec<u8>, end: usize)
    requires { end ≤ vec_capacity octets.old }
    ensures octets { octets.new.items ≡ padded end octets.old.items }
    ensures capacity { vec_capacity octets.old ≤ vec_capacity octets.new }
{
    if octets.len() >= end {
        return;
    }
    match octets.resize(end, 0) {
        Ok(()) => {}
        Err(_) => unreachable!(),
    }
}

// Writes over the octets from place `at` on, for which there is memory.
#[tactic(auto, using(crate::proofs::Padded::padded_reaches))]
fn write(octets: &mut Vec<u8>, at: usize, from: &[u8])
    requires { at + length from.now ≤ vec_capacity octets.old }
    ensures octets { octets.new.items ≡ overwritten (padded (at + length from.now) octets.old.items) at from.now }
    ensures capacity { vec_capacity octets.old ≤ vec_capacity octets.new }
{
    reach(octets, at + from.len());
    overwrite(octets, at, from);
}

// Fills `into` with the octets from place `at` on, and with 0 behind the last of them.
fn read(octets: &[u8], at: usize, into: &mut [u8])
    requires { at + length into.old < 2 ^ 64 }
    ensures { (n : ℕ) → at + length into.old ≤ n →
        into.new ≡ take (length into.old) (drop at (padded n octets.now)) }
{
    if at + into.len() <= octets.len() {
        into.copy_from_slice(&octets[at..at + into.len()]);
        return;
    }
    into.fill(0);
    if at < octets.len() {
        into[..octets.len() - at].copy_from_slice(&octets[at..]);
    }
}

impl QuietArea {
    /// An area of `length` octets, each of them 0. `NoMemory` where there is no memory for them.
    #[tactic(auto, using(crate::specs::Octets::length_zeros))]
    pub fn new(alloc: Global, length: u64) -> Result<QuietArea, NoMemory>
        ensures size { IfOk result (λ area. ⟦<QuietArea as Area>⟧.size area ≡ length) }
        ensures octets { IfOk result (λ area. area ≡ zeros length) }
    {
        let octets = Vec::with_capacity(alloc, length as usize)?;
        Ok(QuietArea {
            octets,
            size: length,
        })
    }

    // Writes over its octets.
    fn put(&mut self, at: u64, from: &[u8])
        requires { at + length from.now ≤ length self.old }
        ensures { self.new ≡ overwritten self.old at from.now }
    {
        write(&mut self.octets, at as usize, from);
    }
}

impl Area for QuietArea {
    ghost use Rattle.std.proofs.Common.{refl, ap, le_trans};
    ghost use Rattle.std.proofs.Math.Bridge.{no_suc-le-zero};
    ghost use Rattle.area_disk.specs.Quiet.{no_moments, no_prospect, no_room, not_told};

    ghost size = { λ a. length a };

    ghost tells_octets = { true };

    ghost octets = { λ a. a };

    ghost tells_crash = { true };

    ghost may_leave = { λ a c. c ≡ a };

    ghost moments = { λ a. no_moments };

    ghost most_room = { no_room };

    ghost tells_calls = { false };

    ghost calls = { λ a. 0 };

    ghost tells_fate = { false };

    ghost fate = { λ a. no_prospect };

    ghost faults = { λ a. 0 };

    ghost holds = { λ a. refl };

    ghost whole = { λ a told. refl };

    ghost same_size = { λ a c told left. ap length left };

    ghost same_size_since = { λ a t c tells told le left. absurd (no_suc-le-zero (le_trans told le)) };

    ghost counts_now = { λ a t c le now left. tt };

    ghost only_now = { λ a c le left. absurd (no_suc-le-zero le) };

    ghost may_stop = { λ a o told. not_told told };

    ghost stops_new = { λ a told. not_told told };

    ghost counts_calls = { λ a told. not_told told };

    #[tactic(auto, using(crate::proofs::Padded::length_padded))]
    fn length(&self) -> u64 {
        self.size
    }

    #[tactic(auto, using(crate::proofs::Padded::length_padded))]
    fn read_at(&mut self, at: u64, into: &mut [u8]) -> Result<(), Failed> {
        read(&self.octets, at as usize, into);
        Ok(())
    }

    fn write_at(&mut self, at: u64, from: &[u8]) -> Result<(), Failed> {
        self.put(at, from);
        Ok(())
    }

    fn sync(&mut self) -> Result<(), Failed> {
        Ok(())
    }
}
