//! How firm entries are read.
ghost use Rattle.std.specs.Prelude.{◌≡◌, ◌≤◌, ◌<◌, ◌*◌, slice_get, IfOk, OnOk, Some, length, vec_len};
ghost use Rattle.gate_journal.specs.Moments.{Told};
ghost use Rattle.cgf_journal.specs.Trail.{firm_entries, firm_length};
ghost use Rattle.gw_base.specs.Entry.{entry_view};
ghost use Rattle.gw_base.specs.declared.history.HistoryEntry.{HistoryEntry};
ghost use Rattle.gateway_book.specs.Read.{HasCauseOf, IsRead, RunsOn};

use crate::ItemsFault;
use area_disk::Area;
use cgf_journal::Trail;
use gw_base::{Entry, NoMemory};
use std::alloc::Global;

/// The octets of an entry that was read, and the numbers that it lists.
#[derive(Drop)]
pub(crate) struct EntryBuffers {
    octets: Vec<u8>,
    numbers: Vec<u64>,
}

impl EntryBuffers {
    /// No octets, which take no memory.
    pub(crate) fn new(alloc: Global) -> EntryBuffers
        ensures octets { vec_len result.octets ≡ 0 }
        ensures numbers { vec_len result.numbers ≡ 0 }
    {
        EntryBuffers {
            octets: Vec::new(alloc),
            numbers: Vec::new(alloc),
        }
    }

    // Makes room for an entry of so many octets.
    fn fit(&mut self, length: usize) -> Result<(), NoMemory>
        ensures octets { OnOk result (length ≤ vec_len self.new.octets) }
        ensures numbers { OnOk result (length ≤ 8 * vec_len self.new.numbers) }
    {
        if self.octets.len() < length {
            self.octets.resize(length, 0)?;
        }
        let numbers = length / 8 + 1;
        if self.numbers.len() < numbers {
            self.numbers.resize(numbers, 0)?;
        }
        Ok(())
    }
}

/// Reads the k-th entry, which is firm.
///
/// Octets that spell no entry are no more than an area may give that doesn't tell what it was given; then there is no
/// answer but `NoMemory`.
pub(crate) fn read_entry<'a, A: Area>(
    trail: &mut Trail<A>,
    k: u64,
    buffers: &'a mut EntryBuffers,
) -> Result<Entry<'a>, ItemsFault>
    requires { k < firm_length trail.old }
    ensures entry { Told A.Area → (e : HistoryEntry) → slice_get (firm_entries trail.old) k ≡ Some e →
        IfOk result (λ entry. entry_view entry ≡ e) }
    ensures read { IsRead trail.old trail.new }
    ensures cause { HasCauseOf trail.old trail.new result }
    ensures runs { RunsOn trail.old result }
{
    let _firm = trail.firm();
    let place = trail.entry_at(k);
    let length = place.length as usize;
    let Ok(()) = buffers.fit(length) else {
        return Err(ItemsFault::NoMemory);
    };
    let octets = &mut buffers.octets[..length];
    let Ok(()) = trail.read(place, octets) else {
        return Err(ItemsFault::Device);
    };
    match entry_codec::read(octets, &mut buffers.numbers) {
        Ok((entry, _)) => Ok(entry),
        Err(_) => Err(ItemsFault::NoMemory),
    }
}
