// What a shelf in memory holds.
ghost use Rattle.std.specs.Prelude.{◌≡◌, ◌↔◌, ◌++◌, ◌+◌, ◌^◌, ◌<◌, ◌≤◌, ℕ, [], map, length, OnOk, OnErr, IsNone, None, get_or, sum_by, vec_len, vec_capacity, option_map, slice_get};
ghost use Rattle.cdr_shelf.specs.Files.{IsFresh, sealed_as, greatest_in, file_named, file_of};
ghost use Rattle.cdr_shelf.specs.Steps.{TakesWrite, begun, written, synced, left_unsealed, left_by, StepsAt};
ghost use Rattle.cdr_shelf.specs.Holding.{unsealed_in, is_there};

use crate::FileName;
use crate::stored::{OpenFile, StoredFile, stop_slot, sync_slot, take_synced, write_slot};
use area_disk::Outcome3;
use std::alloc::{AllocError, Global};
use std::marker::Model;

/// The sealed files in order of sealing, and the unsealed file of each stream in the place with its number. There is
/// room for the seal of each unsealed file.
#[derive(Drop)]
pub struct Contents {
    alloc: Global,
    sealed: Vec<StoredFile>,
    unsealed: Vec<Option<OpenFile>>,
}

impl Model for Contents {
    ghost use Rattle.std.specs.Prelude.{◌+◌, ◌≤◌, length, sum_by, vec_capacity};
    ghost use Rattle.cdr_shelf.specs.Holding.{Holding, is_there};

    ghost Value = { Holding };

    ghost view = { λ c. record { files = c.sealed.items; places = c.unsealed.items } };

    ghost invariant = { λ c. length c.sealed.items + sum_by is_there c.unsealed.items ≤ vec_capacity c.sealed };
}

impl Contents {
    /// No files.
    pub fn new(alloc: Global) -> Contents
        ensures { result ≡ record { files = []; places = [] } }
    {
        Contents {
            alloc,
            sealed: Vec::new(alloc),
            unsealed: Vec::new(alloc),
        }
    }

    /// Takes room for the unsealed file of each stream up to this one.
    pub fn reserve(&mut self, stream: u8) -> Result<(), AllocError>
        ensures files { self.new.files ≡ self.old.files }
        ensures unsealed { (s : ℕ) → unsealed_in self.new s ≡ unsealed_in self.old s }
        ensures room { OnOk result (stream < length self.new.places) }
    {
        grow(&mut self.unsealed, stream as usize)?;
        Ok(())
    }

    /// Begins an empty file with this name.
    pub fn begin(&mut self, name: FileName) -> Result<(), AllocError>
        ensures files { self.new.files ≡ self.old.files }
        ensures ok { OnOk result (StepsAt name.stream (begun name) (unsealed_in self.old) (unsealed_in self.new)) }
        ensures err { OnErr result ((s : ℕ) → unsealed_in self.new s ≡ unsealed_in self.old s) }
    {
        let place = name.stream as usize;
        grow(&mut self.unsealed, place)?;
        // Room for the seal of each unsealed file; where there is as much, nothing grows.
        self.sealed.reserve(self.unsealed.len())?;
        self.unsealed[place] = Some(OpenFile::new(self.alloc, name));
        Ok(())
    }

    /// Writes to the stream's unsealed file.
    pub fn write(&mut self, stream: u8, at: u32, from: &[u8]) -> Result<(), AllocError>
        requires { TakesWrite at (unsealed_in self.old stream) }
        ensures files { self.new.files ≡ self.old.files }
        ensures ok { OnOk result (StepsAt stream (written at from.now) (unsealed_in self.old) (unsealed_in self.new)) }
        ensures err { OnErr result ((s : ℕ) → unsealed_in self.new s ≡ unsealed_in self.old s) }
    {
        let place = stream as usize;
        if place >= self.unsealed.len() {
            return Ok(());
        }
        let slot = &mut self.unsealed[place];
        write_slot(slot, at as usize, from)
    }

    /// Syncs the stream's unsealed file.
    pub fn sync(&mut self, stream: u8)
        ensures files { self.new.files ≡ self.old.files }
        ensures synced { StepsAt stream synced (unsealed_in self.old) (unsealed_in self.new) }
    {
        let place = stream as usize;
        if place < self.unsealed.len() {
            let slot = &mut self.unsealed[place];
            sync_slot(slot);
        }
    }

    /// Seals the stream's unsealed file, where it was synced since the last write.
    pub fn seal(&mut self, stream: u8)
        ensures files { self.new.files ≡ self.old.files ++ sealed_as (unsealed_in self.old stream) }
        ensures ended { StepsAt stream left_unsealed (unsealed_in self.old) (unsealed_in self.new) }
    {
        let place = stream as usize;
        if place >= self.unsealed.len() {
            return;
        }
        let slot = &mut self.unsealed[place];
        if let Some(file) = take_synced(slot) {
            self.sealed.push(file).unwrap();
        }
    }

    /// Leaves what a stop with this outcome leaves.
    pub fn stop(&mut self, outcome: Outcome3)
        ensures files { self.new.files ≡ self.old.files }
        ensures left { (s : ℕ) → unsealed_in self.new s ≡ left_by outcome (unsealed_in self.old s) }
    {
        stop_all(&mut self.unsealed, outcome);
    }

    /// The octets of the sealed file with this name.
    pub fn file(&self, name: FileName) -> Option<&[u8]>
        ensures octets { option_map (λ octets. octets.now) result ≡ file_named name self.now.files }
        ensures none { IsNone result ↔ IsFresh name self.now.files }
    {
        'files: for file in &self.sealed {
            if file.name == name {
                return Some(&file.octets);
            }
        }
        None
    }

    /// The sealed file before which so many others were sealed.
    pub fn nth(&self, k: usize) -> Option<(FileName, &[u8])>
        ensures file { option_map (λ file. file_of file.0 file.1.now) result ≡ slice_get self.now.files k }
        ensures few { length self.now.files < 2 ^ 64 }
    {
        let _count = self.sealed.len();
        let file = self.sealed.get(k)?;
        Some((file.name, &file.octets))
    }

    /// The greatest sequence number of a sealed file of this stream, or 0.
    pub fn greatest(&self, stream: u8) -> u32
        ensures { result ≡ greatest_in stream self.now.files }
    {
        let mut greatest = 0;
        'files: for file in &self.sealed {
            if file.name.stream == stream {
                greatest = file.name.sequence.max(greatest);
            }
        }
        greatest
    }
}

// Makes an empty place for each stream up to this one.
fn grow(places: &mut Vec<Option<OpenFile>>, last: usize) -> Result<(), AllocError>
    requires { last < 256 }
    ensures same { (k : ℕ) → get_or places.new.items k None ≡ get_or places.old.items k None }
    ensures there { sum_by is_there places.new.items ≡ sum_by is_there places.old.items }
    ensures ok { OnOk result (last < vec_len places.new) }
{
    'places: for _ in places.len()..last + 1 {
        places.push(None)?;
    }
    Ok(())
}

// Leaves in each place what a stop leaves of its file.
fn stop_all(places: &mut Vec<Option<OpenFile>>, outcome: Outcome3)
    ensures { places.new.items ≡ map (left_by outcome) places.old.items }
{
    stop_each(places, outcome);
}

fn stop_each(places: &mut [Option<OpenFile>], outcome: Outcome3)
    ensures { places.new ≡ map (left_by outcome) places.old }
{
    'places: for place in places.iter_mut() {
        stop_slot(place, outcome);
    }
}
