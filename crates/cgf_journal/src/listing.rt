// The batches that an opening finds, taken in one after the other.
ghost use Rattle.std.specs.Prelude.{vec_len, ◌≡◌, ◌≢◌, ℕ, ◌+◌, ◌*◌, ◌<◌, ◌≤◌, IsTrue, false, List, [], ◌∷◌, ◌++◌, length, Ok, Err, OnOk, OnErr, IfOk};
ghost use Rattle.gate_journal.specs.Format.{end_of, fewest_octets, most_octets};
ghost use Rattle.gate_journal.specs.Journal.{IsSettled, area_of, batches, end, is_closed};
ghost use Rattle.gate_journal.specs.Kept.{IsKept};
ghost use Rattle.gate_journal.specs.Moments.{Kept, Told};
ghost use Rattle.gate_journal.specs.Planned.{ReadsRun};
ghost use Rattle.entry_codec.specs.Room.{capacity_of};
ghost use Rattle.cgf_journal.specs.Fit.{AreFit};
ghost use Rattle.cgf_journal.specs.Format.{entries_in};
ghost use Rattle.cgf_journal.specs.Judged.{IsJudged};
ghost use Rattle.cgf_journal.specs.Opening.{AreListed, AreListedBefore, AreTakenIn, BreaksAt, IsTakenUpTo, ListingCause};

use crate::contents::take_in;
use crate::judge::Judge;
use crate::places::Places;
use crate::tally::Tally;
use area_disk::Area;
use entry_codec::capacity;
use gate_journal::{Device, Journal, OpenFault, batch_before, read_before};
use gw_base::NoMemory;
use std::alloc::Global;

/// What an entry costs at least.
const CHEAPEST: usize = 30;

/// What a Hold costs at least.
const CHEAPEST_HOLD: usize = 42;

// Makes a buffer long enough for the content of a batch.
fn lengthen(content: &mut Vec<u8>, length: usize) -> Result<(), NoMemory>
    ensures { OnOk result (length ≤ vec_len content.new) }
{
    if content.len() >= length {
        return Ok(());
    }
    content.resize(length, 0)?;
    Ok(())
}

// Makes a list long enough for the numbers that an entry of a batch may name.
fn lengthen_numbers(numbers: &mut Vec<u64>, length: usize) -> Result<(), NoMemory>
    ensures { OnOk result (length ≤ 8 * vec_len numbers.new) }
{
    let count = length / 8 + 1;
    if numbers.len() >= count {
        return Ok(());
    }
    numbers.resize(count, 0)?;
    Ok(())
}

// Room for the content of a batch, and for the numbers that an entry of it may name.
fn room_for<'c>(
    content: &'c mut Vec<u8>,
    numbers: &mut Vec<u64>,
    count: u32,
) -> Result<&'c mut [u8], NoMemory>
    ensures content { IfOk result (λ content. length content.now ≡ count) }
    ensures numbers { OnOk result (count ≤ 8 * vec_len numbers.new) }
{
    let count = count as usize;
    lengthen(content, count)?;
    lengthen_numbers(numbers, count)?;
    Ok(&mut content[..count])
}

/// What an opening has taken in.
#[derive(Drop)]
pub(crate) struct Listing {
    /// The numbers of one entry.
    pub(crate) numbers: Vec<u64>,
    pub(crate) places: Places,
    pub(crate) tally: Tally,
}

impl Listing {
    /// A listing that has taken in nothing. Memory is reserved for the places of all entries and keys that an area of
    /// this size has room for.
    pub(crate) fn new(alloc: Global, size: u64) -> Result<Listing, NoMemory>
        requires { size ≤ most_octets }
        ensures { IfOk result (λ listing. AreTakenIn size 32 [] listing.places listing.tally) }
    {
        let capacity = capacity(size) as usize;
        Ok(Listing {
            numbers: Vec::new(alloc),
            places: Places::reserve(alloc, capacity / CHEAPEST)?,
            tally: Tally::reserve(alloc, capacity / CHEAPEST_HOLD)?,
        })
    }

    // Takes in the batch behind this gate, which has this content and whose entries are fit, and answers the next gate.
    fn take_fit<J: Judge>(
        &mut self,
        judge: &mut J,
        gate: u64,
        content: &[u8],
        size: u64,
    ) -> Result<u64, OpenFault>
        requires long { fewest_octets ≤ size }
        requires short { size ≤ most_octets }
        requires inside { gate + 5 + length content.now ≤ size }
        requires numbers { length content.now ≤ 8 * vec_len self.old.numbers }
        requires costs { self.old.tally.live.costs ≤ capacity_of size }

        ensures next { IfOk result (λ next. next ≡ gate + 5 + length content.now) }
        ensures taken { (some : List (List ℕ)) → AreTakenIn size gate some self.old.places self.old.tally →
            IsJudged J.Judge size judge.old (entries_in some) →
            OnOk result (AreTakenIn size (gate + 5 + length content.now) (some ++ content.now ∷ [])
            self.new.places self.new.tally
            × IsJudged J.Judge size judge.new (entries_in (some ++ content.now ∷ []))) }
        ensures unfit { (some : List (List ℕ)) → AreTakenIn size gate some self.old.places self.old.tally →
            IsJudged J.Judge size judge.old (entries_in some) →
            (at : ℕ) → result ≡ Err (OpenFault.NotOurs at) → (at ≡ gate) ×
            (AreFit J.fits size (some ++ content.now ∷ []) → ⊥) }
        ensures device { result ≢ Err OpenFault.Device }
    {
        let at = gate + 5;
        match take_in(
            judge,
            content,
            at,
            size,
            &mut self.numbers,
            &mut self.places,
            &mut self.tally,
        ) {
            Ok(true) => {
                if capacity(size) < self.tally.costs() {
                    return Err(OpenFault::NotOurs { at: gate });
                }
                Ok(at + content.len() as u64)
            }
            Ok(false) => Err(OpenFault::NotOurs { at: gate }),
            Err(NoMemory) => Err(OpenFault::NoMemory),
        }
    }
}

// Takes in the batch of a journal behind this gate, and answers the next gate.
fn take_next<A: Area, J: Judge>(
    journal: &mut Journal<A>,
    gate: u64,
    size: u64,
    content: &mut Vec<u8>,
    listing: &mut Listing,
    judge: &mut J,
) -> Result<u64, OpenFault>
    requires ready { is_closed journal.old ≡ false }
    requires ends { Told A.Area → end journal.old ≡ end_of (batches journal.old) }
    requires size { size ≡ A.size (area_of journal.old) }
    requires long { fewest_octets ≤ size }
    requires short { size ≤ most_octets }
    requires end { end journal.old < size }
    requires inside { gate < end journal.old }
    requires taken { IsTakenUpTo (AreListed A.Area (batches journal.old)) (IsJudged J.Judge size judge.old)
        size gate listing.old.places listing.old.tally }

    ensures next { IfOk result (λ next. (gate < next) × (next ≤ end journal.old)) }
    ensures taken { IfOk result (λ next.
        IsTakenUpTo (AreListed A.Area (batches journal.old)) (IsJudged J.Judge size judge.new)
        size next listing.new.places listing.new.tally) }
    ensures breaks { Told A.Area → (at : ℕ) → result ≡ Err (OpenFault.NotOurs at) →
        BreaksAt (AreFit J.fits size) (batches journal.old) at }
    ensures kept { IsKept journal.old journal.new }
    ensures cause { ListingCause (A.faults (area_of journal.old)) (A.faults (area_of journal.new)) result }
    ensures runs { IsTrue A.tells_fate → ReadsRun (A.fate (area_of journal.old)).schedule →
        result ≢ Err OpenFault.Device }
{
    let Ok(found) = journal.batch(gate) else {
        return Err(OpenFault::Device);
    };
    let Some((place, length)) = found else {
        return Err(OpenFault::NotOurs { at: gate });
    };
    let Ok(content) = room_for(content, &mut listing.numbers, length) else {
        return Err(OpenFault::NoMemory);
    };
    let Ok(()) = journal.read(place, content) else {
        return Err(OpenFault::Device);
    };
    listing.take_fit(judge, gate, content, size)
}

/// Takes in all batches of a journal, whose entries a judge finds fit.
///
/// `NotOurs` says which is the first that isn't entries within the capacity, or isn't fit.
pub(crate) fn list<A: Area, J: Judge>(
    journal: &mut Journal<A>,
    size: u64,
    content: &mut Vec<u8>,
    listing: &mut Listing,
    judge: &mut J,
) -> Result<(), OpenFault>
    requires ready { is_closed journal.old ≡ false }
    requires settled { IsSettled journal.old }
    requires size { size ≡ A.size (area_of journal.old) }
    requires long { fewest_octets ≤ size }
    requires short { size ≤ most_octets }
    requires taken { AreTakenIn size 32 [] listing.old.places listing.old.tally }
    requires follows { J.follows judge.old [] }

    ensures taken { OnOk result (IsTakenUpTo (AreListed A.Area (batches journal.old))
        (IsJudged J.Judge size judge.new) size (end journal.old) listing.new.places listing.new.tally) }
    ensures breaks { Told A.Area → (at : ℕ) → result ≡ Err (OpenFault.NotOurs at) →
        BreaksAt (AreFit J.fits size) (batches journal.old) at }
    ensures some { Told A.Area → OnErr result (batches journal.old ≢ []) }
    ensures kept { IsKept journal.old journal.new }
    ensures cause { ListingCause (A.faults (area_of journal.old)) (A.faults (area_of journal.new)) result }
    ensures runs { IsTrue A.tells_fate → ReadsRun (A.fate (area_of journal.old)).schedule →
        result ≢ Err OpenFault.Device }
{
    let end = journal.end();
    let mut gate = 32;
    while gate < end {
        gate = take_next(journal, gate, size, content, listing, judge)?;
    }
    Ok(())
}

// Takes in the batch of an area behind this gate, of those before octet `end`, and answers the next gate.
fn take_before<A: Area, J: Judge>(
    area: &mut A,
    gate: u64,
    end: u64,
    size: u64,
    content: &mut Vec<u8>,
    listing: &mut Listing,
    judge: &mut J,
) -> Result<u64, OpenFault>
    requires size { size ≡ A.size area.old }
    requires long { fewest_octets ≤ size }
    requires short { size ≤ most_octets }
    requires inside { gate < end }
    requires taken { IsTakenUpTo (AreListedBefore A.tells_octets (A.octets area.old) end)
        (IsJudged J.Judge size judge.old) size gate listing.old.places listing.old.tally }

    ensures next { IfOk result (λ next. (gate < next) × (next ≤ end)) }
    ensures taken { IfOk result (λ next.
        IsTakenUpTo (AreListedBefore A.tells_octets (A.octets area.old) end) (IsJudged J.Judge size judge.new)
        size next listing.new.places listing.new.tally) }
    ensures breaks { (all : List (List ℕ)) → AreListedBefore A.tells_octets (A.octets area.old) end all → (at : ℕ) →
        result ≡ Err (OpenFault.NotOurs at) → BreaksAt (AreFit J.fits size) all at }
    ensures kept { Kept A.Area area.old area.new }
    ensures cause { ListingCause (A.faults area.old) (A.faults area.new) result }
    ensures runs { IsTrue A.tells_fate → ReadsRun (A.fate area.old).schedule → result ≢ Err OpenFault.Device }
{
    let Ok(found) = batch_before(area, gate, end) else {
        return Err(OpenFault::Device);
    };
    let Some((place, length)) = found else {
        return Err(OpenFault::NotOurs { at: gate });
    };
    let Ok(content) = room_for(content, &mut listing.numbers, length) else {
        return Err(OpenFault::NoMemory);
    };
    let Ok(()) = read_before(area, place, content) else {
        return Err(OpenFault::Device);
    };
    listing.take_fit(judge, gate, content, size)
}

/// Takes in all batches of an area before the one at octet `end`, whose entries a judge finds fit.
///
/// `NotOurs` says which is the first that isn't entries within the capacity, or isn't fit.
pub(crate) fn list_before<A: Area, J: Judge>(
    area: &mut A,
    end: u64,
    size: u64,
    content: &mut Vec<u8>,
    listing: &mut Listing,
    judge: &mut J,
) -> Result<(), OpenFault>
    requires size { size ≡ A.size area.old }
    requires long { fewest_octets ≤ size }
    requires short { size ≤ most_octets }
    requires taken { AreTakenIn size 32 [] listing.old.places listing.old.tally }
    requires follows { J.follows judge.old [] }

    ensures are_fit { (all : List (List ℕ)) → AreListedBefore A.tells_octets (A.octets area.old) end all →
        OnOk result (AreFit J.fits size all) }
    ensures breaks { (all : List (List ℕ)) → AreListedBefore A.tells_octets (A.octets area.old) end all → (at : ℕ) →
        result ≡ Err (OpenFault.NotOurs at) → BreaksAt (AreFit J.fits size) all at }
    ensures begun { OnErr result (32 < end) }
    ensures kept { Kept A.Area area.old area.new }
    ensures cause { ListingCause (A.faults area.old) (A.faults area.new) result }
    ensures runs { IsTrue A.tells_fate → ReadsRun (A.fate area.old).schedule → result ≢ Err OpenFault.Device }
{
    let mut gate = 32;
    while gate < end {
        gate = take_before(area, gate, end, size, content, listing, judge)?;
    }
    Ok(())
}
