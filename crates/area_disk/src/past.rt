// The record of an area's counted calls, from which each moment's octets can be told.
ghost use Rattle.std.specs.Prelude.{◌≡◌, ◌+◌, ◌≤◌, ◌<◌, ◌&&◌, nat_lt, nat_le, [], length, IfOk};
ghost use Rattle.area_disk.specs.Plan.{most_unsynced};
ghost use Rattle.area_disk.specs.Past.{Past, image_after, unsynced_after, changes_of, written_by, EachWithin, anew, pushed, noted, most_calls, most_octets, octets_in};

use crate::NoMemory;
use crate::stretch::{Stretch, overwrite};
use std::alloc::Global;
use std::marker::Model;

// How many counted calls a record has room for, and how many octets that they wrote.
const MOST_CALLS: usize = 65_536;

const MOST_OCTETS: usize = 8_388_608;

// How many writes an area takes before a sync.
pub const MOST_UNSYNCED: usize = 65_536;

/// One counted call: where it wrote and how many octets, and whether nothing was unsynced after it.
#[derive(Clone, Copy)]
pub struct Call {
    pub at: usize,
    pub count: usize,
    pub settles: bool,
}

/// The octets of an area at a first moment, and its counted calls since.
#[derive(Drop)]
pub struct History {
    base: Vec<u8>,
    base_unsynced: Vec<Stretch>,
    first: u64,
    calls: Vec<Call>,
    octets: Vec<u8>,
}

impl Model for History {
    ghost use Rattle.std.specs.Prelude.{vec_capacity, length};
    ghost use Rattle.area_disk.specs.Past.{Past, changes_of, IsKept};

    ghost Value = { Past };

    ghost view = { λ h. record {
      first = h.first;
      image = h.base.items;
      unsynced = h.base_unsynced.items;
      changes = changes_of h.calls.items h.octets.items;
    } };

    ghost invariant = { λ h.
        IsKept (length h.base.items) h.calls.items h.octets.items
        (vec_capacity h.calls) (vec_capacity h.octets) (vec_capacity h.base_unsynced) };
}

impl History {
    /// A record without calls over these octets, with all its room.
    pub fn new(alloc: Global, base: Vec<u8>) -> Result<History, NoMemory>
        ensures { IfOk result (λ h. h ≡ record { first = 0; image = base.items; unsynced = []; changes = [] }) }
    {
        let base_unsynced = Vec::with_capacity(alloc, MOST_UNSYNCED + 1)?;
        let calls = Vec::with_capacity(alloc, MOST_CALLS)?;
        let octets = Vec::with_capacity(alloc, MOST_OCTETS)?;
        Ok(History {
            base,
            base_unsynced,
            first: 0,
            calls,
            octets,
        })
    }

    /// Takes in one call more, which wrote these octets. `unsynced` is what was unsynced before it.
    pub fn note(&mut self, at: usize, octets: &[u8], settles: bool, unsynced: &[Stretch])
        requires fits { at + length octets.now ≤ length self.old.image }
        requires unsynced { unsynced.now ≡ unsynced_after self.old.changes self.old.unsynced }
        requires room { length unsynced.now ≤ most_unsynced }
        ensures { self.new ≡ noted (record { at = at; octets = octets.now; settles = settles }) self.old }
    {
        if octets.len() > MOST_OCTETS {
            return self.pass(at, octets, settles, unsynced);
        }
        if self.has_room(octets.len()) {
            self.push(at, octets, settles);
        } else {
            self.begin_anew(unsynced);
            self.push(at, octets, settles);
        }
    }

    // Whether one call more with so many octets fits.
    fn has_room(&self, count: usize) -> bool
        requires { count ≤ most_octets }
        ensures { result ≡
            (nat_lt (length self.now.changes) most_calls && nat_le (octets_in self.now.changes + count) most_octets) }
    {
        self.calls.len() < MOST_CALLS && self.octets.len() + count <= MOST_OCTETS
    }

    // The octets as they are now become those at first.
    fn begin_anew(&mut self, unsynced: &[Stretch])
        requires unsynced { unsynced.now ≡ unsynced_after self.old.changes self.old.unsynced }
        requires room { length unsynced.now ≤ most_unsynced }
        ensures anew { self.new ≡ anew self.old }
        ensures size { length self.new.image ≡ length self.old.image }
    {
        replay(&mut self.base, &self.calls, &self.octets);
        self.base_unsynced.clear();
        self.base_unsynced.extend_from_slice(unsynced).unwrap();
        self.first = self.first.saturating_add(self.calls.len() as u64);
        self.calls.clear();
        self.octets.clear();
    }

    fn push(&mut self, at: usize, octets: &[u8], settles: bool)
        requires fits { at + length octets.now ≤ length self.old.image }
        requires few_calls { length self.old.changes < most_calls }
        requires few_octets { octets_in self.old.changes + length octets.now ≤ most_octets }
        ensures { self.new ≡ pushed (record { at = at; octets = octets.now; settles = settles }) self.old }
    {
        self.octets.extend_from_slice(octets).unwrap();
        self.calls
            .push(Call {
                at,
                count: octets.len(),
                settles,
            })
            .unwrap();
    }

    // Takes in a call that alone is too large for the room.
    fn pass(&mut self, at: usize, octets: &[u8], settles: bool, unsynced: &[Stretch])
        requires fits { at + length octets.now ≤ length self.old.image }
        requires unsynced { unsynced.now ≡ unsynced_after self.old.changes self.old.unsynced }
        requires room { length unsynced.now ≤ most_unsynced }
        ensures { self.new ≡ anew (pushed (record { at = at; octets = octets.now; settles = settles }) self.old) }
    {
        self.begin_anew(unsynced);
        overwrite(&mut self.base, at, octets);
        self.first = self.first.saturating_add(1);
        if settles {
            self.base_unsynced.clear();
        } else {
            let written = Stretch {
                at,
                count: octets.len(),
            };
            self.base_unsynced.push(written).unwrap();
        }
    }
}

// Makes the changes of these calls, whose octets stand one after the other.
fn replay(image: &mut [u8], calls: &[Call], octets: &[u8])
    requires total { written_by calls.now ≡ length octets.now }
    requires fit { EachWithin (length image.old) calls.now }
    ensures { image.new ≡ image_after (changes_of calls.now octets.now) image.old }
{
    let mut rest = octets;
    'calls: for call in calls {
        let (written, after) = rest.split_at(call.count);
        overwrite(image, call.at, written);
        rest = after;
    }
}
