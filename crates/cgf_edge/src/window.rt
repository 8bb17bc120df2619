// Octets of a file that are in memory.

use crate::DiskFile;
use std::alloc::Global;

/// Octets of a file from a place on, as the file has them: those that were read ahead, or that were written last. Who
/// reads few at a time, one behind the other, has most of them without a call of the system.
#[derive(Drop)]
pub struct Window {
    room: usize,
    at: u64,
    count: usize,
    octets: Vec<u8>,
}

impl Window {
    /// One that has none, with room for so many. It takes no memory yet.
    pub fn new(alloc: Global, room: usize) -> Window {
        Window {
            room,
            at: 0,
            count: 0,
            octets: Vec::new(alloc),
        }
    }

    /// Forgets them.
    pub fn forget(&mut self) {
        self.count = 0;
    }

    // Those that it has.
    fn known(&self) -> &[u8] {
        match self.octets.as_slice().split_at_checked(self.count) {
            Some((known, _)) => known,
            None => &[],
        }
    }

    /// Fills `into` with the octets from place `at` on, and tells whether it has them all. Else `into` stays.
    pub fn give(&self, at: u64, into: &mut [u8]) -> bool {
        let known = self.known();
        let Some(skip) = at.checked_sub(self.at) else {
            return false;
        };
        if skip > known.len() as u64 {
            return false;
        }
        let (_, rest) = known.split_at(skip as usize);
        if rest.len() < into.len() {
            return false;
        }
        let (found, _) = rest.split_at(into.len());
        into.copy_from_slice(found);
        true
    }

    // Forgets them, and begins at another place. It tells whether it has its memory, which it takes once.
    fn begin(&mut self, at: u64) -> bool {
        self.count = 0;
        self.at = at;
        if self.octets.len() < self.room {
            return self.octets.resize(self.room, 0).is_ok();
        }
        true
    }

    /// Reads octets of a file of this length from place `at` on, as many as there is room for. Where there is no memory,
    /// or the file isn't read, it has none.
    pub fn read(&mut self, file: &DiskFile, at: u64, length: u64) {
        if !self.begin(at) {
            return;
        }
        let count = length.saturating_sub(at).min(self.room as u64) as usize;
        let Some((front, _)) = self.octets.as_mut_slice().split_at_mut_checked(count) else {
            return;
        };
        if file.read(at, front).is_ok() {
            self.count = count;
        }
    }

    /// Notes octets that were written from place `at` on. It has those that were written one behind the other, as far as
    /// there is room; with those that don't go on from them it begins anew.
    pub fn note(&mut self, at: u64, from: &[u8]) {
        let behind = at.saturating_add(from.len() as u64);
        if self.count > 0 && behind <= self.at {
            return;
        }
        if !self.go_on(at, from) {
            if self.begin(at) {
                let _ = self.put(0, from);
            }
        }
    }

    // Puts octets that were written inside those that it has, or behind them. It tells whether they were, and there was
    // room.
    fn go_on(&mut self, at: u64, from: &[u8]) -> bool {
        match at.checked_sub(self.at) {
            Some(place) => place <= self.count as u64 && self.put(place as usize, from),
            None => false,
        }
    }

    // Puts octets at a place of the memory, and tells whether there was room.
    fn put(&mut self, place: usize, from: &[u8]) -> bool {
        let Some((_, rest)) = self.octets.as_mut_slice().split_at_mut_checked(place) else {
            return false;
        };
        let Some((to, _)) = rest.split_at_mut_checked(from.len()) else {
            return false;
        };
        to.copy_from_slice(from);
        self.count = self.count.max(place.saturating_add(from.len()));
        true
    }
}
