// The files of a shelf in memory: a sealed one, and one that is being written.
ghost use Rattle.std.specs.Prelude.{◌≡◌, ◌≤◌, [], length, OnOk, OnErr, true, false, Some, option_to_list};
ghost use Rattle.area_disk.specs.Disk.{overwritten};
ghost use Rattle.cdr_shelf.specs.Files.{sealed_as};
ghost use Rattle.cdr_shelf.specs.Steps.{TakesWrite, written, synced, left_unsealed, left_by, rotten};

use crate::FileName;
use area_disk::Outcome3;
use std::alloc::{AllocError, Global};
use std::marker::Model;

// What an octet holds that a stop rotted.
const ROT: u8 = 0x5A;

/// A sealed file.
#[derive(Drop)]
pub struct StoredFile {
    pub name: FileName,
    pub octets: Vec<u8>,
}

impl Model for StoredFile {
    ghost use Rattle.cdr_shelf.specs.Files.{SealedFile};

    ghost Value = { SealedFile };

    ghost view = { λ f. record { name = f.name; octets = f.octets.items } };
}

/// A file that was begun and isn't sealed.
#[derive(Drop)]
pub struct OpenFile {
    pub name: FileName,
    pub octets: Vec<u8>,
    pub is_synced: bool,
}

impl Model for OpenFile {
    ghost use Rattle.cdr_shelf.specs.Files.{UnsealedFile};

    ghost Value = { UnsealedFile };

    ghost view = { λ f. record { name = f.name; octets = f.octets.items; is_synced = f.is_synced } };
}

impl OpenFile {
    /// An empty file with this name.
    pub fn new(alloc: Global, name: FileName) -> OpenFile
        ensures { result ≡ record { name = name; octets = []; is_synced = false } }
    {
        OpenFile {
            name,
            octets: Vec::new(alloc),
            is_synced: false,
        }
    }

    /// Writes over its octets from this one on, and grows where they reach past its end.
    pub fn write(&mut self, at: usize, from: &[u8]) -> Result<(), AllocError>
        requires { at ≤ length self.old.octets }
        ensures ok { OnOk result (self.new ≡ record {
          name = self.old.name;
          octets = overwritten self.old.octets at from.now;
          is_synced = false;
        }) }
        ensures err { OnErr result (self.new ≡ self.old) }
    {
        put(&mut self.octets, at, from)?;
        self.is_synced = false;
        Ok(())
    }

    /// Makes each octet one that a stop rotted, and the file one that stands.
    pub fn rot(&mut self)
        ensures { self.new ≡ rotten self.old }
    {
        let count = self.octets.len();
        self.octets.clear();
        self.octets.resize(count, ROT).unwrap();
        self.is_synced = true;
    }
}

// Writes over these octets from place `at` on, and appends what reaches past their end.
fn put(octets: &mut Vec<u8>, at: usize, from: &[u8]) -> Result<(), AllocError>
    requires { at ≤ length octets.old.items }
    ensures ok { OnOk result (octets.new.items ≡ overwritten octets.old.items at from.now) }
    ensures err { OnErr result (octets.new.items ≡ octets.old.items) }
{
    let inside = from.len().min(octets.len() - at);
    let (over, beyond) = from.split_at(inside);
    octets.extend_from_slice(beyond)?;
    octets[at..at + inside].copy_from_slice(over);
    Ok(())
}

/// Writes to the file in this place.
pub fn write_slot(slot: &mut Option<OpenFile>, at: usize, from: &[u8]) -> Result<(), AllocError>
    requires { TakesWrite at slot.old }
    ensures ok { OnOk result (slot.new ≡ written at from.now slot.old) }
    ensures err { OnErr result (slot.new ≡ slot.old) }
{
    match slot {
        Some(file) => file.write(at, from),
        None => Ok(()),
    }
}

/// Syncs the file in this place.
pub fn sync_slot(slot: &mut Option<OpenFile>)
    ensures { slot.new ≡ synced slot.old }
{
    if let Some(file) = slot {
        file.is_synced = true;
    }
}

/// Takes the file out of this place where it was synced since the last write, as a sealed one.
pub fn take_synced(slot: &mut Option<OpenFile>) -> Option<StoredFile>
    ensures taken { option_to_list result ≡ sealed_as slot.old }
    ensures left { slot.new ≡ left_unsealed slot.old }
{
    match slot {
        Some(file) if file.is_synced => {}
        _ => return None,
    }
    let file = slot.take()?;
    Some(StoredFile {
        name: file.name,
        octets: file.octets,
    })
}

/// Leaves in this place what a stop leaves of its file.
pub fn stop_slot(slot: &mut Option<OpenFile>, outcome: Outcome3)
    ensures { slot.new ≡ left_by outcome slot.old }
{
    let Some(file) = slot else {
        return;
    };
    if file.is_synced {
        return;
    }
    match outcome {
        Outcome3::Old => *slot = None,
        Outcome3::New => file.is_synced = true,
        Outcome3::Rot => file.rot(),
    }
}
