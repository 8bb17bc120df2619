// The octets of an area in memory, and its past.
ghost use Rattle.std.specs.Prelude.{◌≡◌, ◌+◌, ◌<◌, ◌≤◌, [], ◌∷◌, ◌++◌, length, IfOk, vec_capacity, true, false};
ghost use Rattle.area_disk.specs.Disk.{overwritten, zeros};
ghost use Rattle.area_disk.specs.Plan.{most_unsynced, written_as};
ghost use Rattle.area_disk.specs.Stretch.{SameOutside, EachFits, first_place, left_as, left_by};
ghost use Rattle.area_disk.specs.Past.{noted, stop_change};
ghost use Rattle.area_disk.specs.Sound.{IsSound};

use crate::past::{History, MOST_UNSYNCED};
use crate::stretch::{Stretch, copy_stretches, fill_stretches, hull, overwrite, zeroed};
use crate::{NoMemory, Outcome3};
use std::alloc::Global;

// What an octet holds that a stop rotted.
const ROT: u8 = 0x5A;

/// What a read gives, what stood at the last sync, the stretches in which they may differ, and the past.
#[derive(Drop)]
pub struct Disk {
    pub present: Vec<u8>,
    pub firm: Vec<u8>,
    pub unsynced: Vec<Stretch>,
    pub past: History,
    ghost sound: { IsSound present.items firm.items unsynced.items (vec_capacity unsynced) past },
}

impl Disk {
    /// So many octets, each of them 0, and all room for what is to come.
    pub fn new(alloc: Global, length: usize) -> Result<Disk, NoMemory>
        ensures present { IfOk result (λ disk. disk.present.items ≡ zeros length) }
        ensures firm { IfOk result (λ disk. disk.firm.items ≡ zeros length) }
        ensures unsynced { IfOk result (λ disk. disk.unsynced.items ≡ []) }
        ensures past { IfOk result (λ disk.
            disk.past ≡ record { first = 0; image = zeros length; unsynced = []; changes = [] }) }
    {
        let present = zeroed(alloc, length)?;
        let firm = zeroed(alloc, length)?;
        let base = zeroed(alloc, length)?;
        let unsynced = Vec::with_capacity(alloc, MOST_UNSYNCED + 1)?;
        let past = History::new(alloc, base)?;
        Ok(Disk {
            present,
            firm,
            unsynced,
            past,
        })
    }

    /// Writes these octets, which are unsynced then.
    pub fn write(&mut self, at: usize, from: &[u8])
        requires fits { at + length from.now ≤ length self.old.present.items }
        requires spare { length self.old.unsynced.items < most_unsynced }
        ensures present { self.new.present.items ≡ overwritten self.old.present.items at from.now }
        ensures firm { self.new.firm.items ≡ self.old.firm.items }
        ensures unsynced { self.new.unsynced.items ≡
            self.old.unsynced.items ++ (record { at = at; count = length from.now }) ∷ [] }
        ensures past { self.new.past ≡ noted (record { at = at; octets = from.now; settles = false }) self.old.past }
    {
        self.past.note(at, from, false, &self.unsynced);
        overwrite(&mut self.present, at, from);
        let written = Stretch {
            at,
            count: from.len(),
        };
        self.unsynced.push(written).unwrap();
    }

    /// Makes what a read gives stand: nothing is unsynced then.
    pub fn settle(&mut self)
        ensures present { self.new.present.items ≡ self.old.present.items }
        ensures firm { self.new.firm.items ≡ self.old.present.items }
        ensures unsynced { self.new.unsynced.items ≡ [] }
        ensures past { self.new.past ≡ noted (record { at = 0; octets = []; settles = true }) self.old.past }
    {
        copy_stretches(&self.present, &mut self.firm, &self.unsynced);
        self.past.note(0, &[], true, &self.unsynced);
        self.unsynced.clear();
    }

    /// Stops in the write of these octets, with this outcome. Nothing is unsynced then.
    pub fn stop(&mut self, at: usize, from: &[u8], outcome: Outcome3)
        requires { at + length from.now ≤ length self.old.present.items }
        ensures size { length self.new.present.items ≡ length self.old.present.items }
        ensures present { let old = self.old in
            let left = left_as outcome old.firm.items old.present.items old.unsynced.items in
            self.new.present.items ≡ written_as outcome left at from.now }
        ensures firm { self.new.firm.items ≡ self.new.present.items }
        ensures unsynced { self.new.unsynced.items ≡ [] }
        ensures past { let stretches = self.old.unsynced.items ++ (record { at = at; count = length from.now }) ∷ [] in
            self.new.past ≡ noted (stop_change stretches self.new.present.items) self.old.past }
    {
        let earlier = self.unsynced.len();
        let written = Stretch {
            at,
            count: from.len(),
        };
        self.unsynced.push(written).unwrap();
        leave(
            outcome,
            &mut self.present,
            &self.firm,
            &self.unsynced,
            at,
            from,
        );
        copy_stretches(&self.present, &mut self.firm, &self.unsynced);
        let whole = hull(&self.unsynced, self.present.len());
        let octets = &self.present[whole.at..whole.at + whole.count];
        self.past
            .note(whole.at, octets, true, &self.unsynced[..earlier]);
        self.unsynced.clear();
    }

    /// Stops between two writes, with this outcome. Nothing is unsynced then.
    pub fn stop_between(&mut self, outcome: Outcome3)
        ensures size { length self.new.present.items ≡ length self.old.present.items }
        ensures present { self.new.present.items ≡
            left_as outcome self.old.firm.items self.old.present.items self.old.unsynced.items }
        ensures firm { self.new.firm.items ≡ self.new.present.items }
        ensures unsynced { self.new.unsynced.items ≡ [] }
        ensures past { self.new.past ≡
            noted (stop_change self.old.unsynced.items self.new.present.items) self.old.past }
    {
        let at = self.first_unsynced();
        self.stop(at, &[], outcome);
    }

    // A place in what is unsynced, or 0.
    fn first_unsynced(&self) -> usize
        ensures first { result ≡ first_place self.now.unsynced.items }
        ensures inside { result ≤ length self.now.present.items }
    {
        match self.unsynced.first() {
            Some(stretch) => stretch.at,
            None => 0,
        }
    }
}

// Makes of `present` what this outcome of a stop in the write of these octets leaves.
fn leave(
    outcome: Outcome3,
    present: &mut [u8],
    firm: &[u8],
    unsynced: &[Stretch],
    at: usize,
    from: &[u8],
)
    requires fits { at + length from.now ≤ length present.old }
    requires fit { EachFits (length present.old) unsynced.now }
    requires agrees { SameOutside unsynced.now present.old firm.now }
    ensures { present.new ≡ left_by outcome firm.now present.old unsynced.now at from.now }
{
    match outcome {
        Outcome3::Old => copy_stretches(firm, present, unsynced),
        Outcome3::New => overwrite(present, at, from),
        Outcome3::Rot => fill_stretches(present, unsynced, ROT),
    }
}
