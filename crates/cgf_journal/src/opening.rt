// How a trail is opened.
ghost use Rattle.std.specs.Prelude.{◌≡◌, ◌≢◌, ◌⊎◌, ◌≤◌, ℕ, IsTrue, false, [], List, length, IfOk, IfErr, OnErr};
ghost use Rattle.area_disk.specs.Disk.{Rose};
ghost use Rattle.gw_base.specs.declared.history.HistoryEntry.{HistoryEntry};
ghost use Rattle.gate_journal.specs.Format.{Starts, fewest_octets, header, longest_batch, most_octets};
ghost use Rattle.gate_journal.specs.Journal as gates;
ghost use Rattle.gate_journal.specs.Moments.{Kept, Told};
ghost use Rattle.gate_journal.specs.Opening.{is_device};
ghost use Rattle.gate_journal.specs.Planned.{ReadsRun};
ghost use Rattle.gate_journal.specs.declared.journal.Front.TheVariants.{Founded};
ghost use Rattle.cgf_journal.specs.Fit.{AreFit, IsUnfitTo, StandsFit};
ghost use Rattle.cgf_journal.specs.Format.{IsForeignTo, StandsFor};
ghost use Rattle.cgf_journal.specs.Judged.{IsJudged};
ghost use Rattle.cgf_journal.specs.OpenPlan.{OpenFollows, is_memory};
ghost use Rattle.cgf_journal.specs.Opening.{AreListed, AreListedBefore, AreTakenIn, BreaksAt, IsTakenUpTo};
ghost use Rattle.cgf_journal.specs.Results.{FindsHistory, IsFresh, IsMadeAnew, IsOpened, IsRefused, IsTrailOf, OnArea, RefusesForeign, RoseByDevice};
ghost use Rattle.cgf_journal.specs.Trail.{area_of, firm_entries};

use crate::Trail;
use crate::judge::{Judge, TakesAll};
use crate::listing::{Listing, list, list_before};
use area_disk::Area;
use area_disk::laws::area_laws;
use entry_codec::laws::entries_are_read_back;
use gate_journal::{Journal, LONGEST_BATCH, OpenFault};
use gw_base::Buffer;
use std::alloc::Global;

// The fault of an area that the journal refused: the first batch before octet `at` that isn't entries within the
// capacity, or isn't fit, or else the one that the journal found there.
fn fault_before<A: Area, J: Judge>(
    area: &mut A,
    at: u64,
    size: u64,
    content: &mut Vec<u8>,
    mut listing: Listing,
    judge: &mut J,
) -> OpenFault
    requires size { size ≡ A.size area.old }
    requires long { fewest_octets ≤ size }
    requires short { size ≤ most_octets }
    requires taken { AreTakenIn size 32 [] listing.places listing.tally }
    requires follows { J.follows judge.old [] }

    ensures here { at ≤ 32 → result ≡ OpenFault.NotOurs at }
    ensures first { (all : List (List ℕ)) → AreListedBefore A.tells_octets (A.octets area.old) at all → (place : ℕ) →
        result ≡ OpenFault.NotOurs place →
        BreaksAt (AreFit J.fits size) all place ⊎ (AreFit J.fits size all × (place ≡ at)) }
    ensures kept { Kept A.Area area.old area.new }
    ensures device { result ≡ OpenFault.Device → Rose (A.faults area.old) (A.faults area.new) }
    ensures faults { A.faults area.old ≤ A.faults area.new }
    ensures still { result ≢ OpenFault.Device → A.faults area.new ≡ A.faults area.old }
    ensures runs { IsTrue A.tells_fate → ReadsRun (A.fate area.old).schedule → result ≢ OpenFault.Device }
{
    match list_before(area, at, size, content, &mut listing, judge) {
        Ok(()) => OpenFault::NotOurs { at },
        Err(fault) => fault,
    }
}

impl<A: Area> Trail<A> {
    /// Opens the history of an area, for a gateway's address and generation 0, as `open_at` does.
    pub fn open(alloc: Global, area: A, address: u32) -> Result<Trail<A>, (OpenFault, A)>
        requires long { fewest_octets ≤ A.size area }
        requires short { A.size area ≤ most_octets }

        ensures ok { let h = header (A.size area) address 0 in IfOk result (IsOpened A.Area h area (StandsFor h)) }
        ensures err { let h = header (A.size area) address 0 in IfErr result (IsRefused A.Area area (IsForeignTo h)) }
        ensures reads { Told A.Area → (h : List HistoryEntry) →
            StandsFor (header (A.size area) address 0) (A.octets area) h →
            FindsHistory A.Area area result h }
        ensures anew { Told A.Area → Starts (header (A.size area) address 0) (A.octets area) →
            IsMadeAnew A.Area (header (A.size area) address 0) area result }
        ensures foreign { Told A.Area → (at : ℕ) → IsForeignTo (header (A.size area) address 0) (A.octets area) at →
            RefusesForeign A.Area area result at }
        ensures size { OnArea result (λ now. A.size now ≡ A.size area) }
        ensures planned { IsTrue A.tells_fate → is_memory result ≡ false →
            OpenFollows A.Area area result (header (A.size area) address 0) }
    {
        Trail::open_at(alloc, area, address, 0)
    }

    /// Opens the history of an area, for a gateway's address and a generation. It makes one sync and reads; an area
    /// whose making began, or whose octet 0 is 0, is made anew with four calls of the device more, and has no entry.
    ///
    /// It refuses an area that is no journal of this gateway's, or whose batches aren't entries within the capacity,
    /// with `NotOurs` and the place that shows it: the first octet of the header that differs, or the first open gate
    /// whose batch isn't whole. It hands the area back where it fails; after `NotOurs` and `NoMemory` nothing was
    /// written.
    ///
    /// It takes memory for the entries that will wait (1,048,576 octets), for the longest batch and the numbers of its
    /// entries, and for the places and keys of as many entries as the area has octets for: 8 octets for each 30 and
    /// twice 16 for each 42, and 16,384 for the keys that come last. So no later call takes any.
    pub fn open_at(
        alloc: Global,
        area: A,
        address: u32,
        generation: u32,
    ) -> Result<Trail<A>, (OpenFault, A)>
        requires long { fewest_octets ≤ A.size area }
        requires short { A.size area ≤ most_octets }

        // The area stands for the history found, or it was made anew.
        ensures ok { let h = header (A.size area) address generation in
            IfOk result (IsOpened A.Area h area (StandsFor h)) }
        ensures err { let h = header (A.size area) address generation in
            IfErr result (IsRefused A.Area area (IsForeignTo h)) }
        // The history found is the one that the area stands for.
        ensures reads { Told A.Area → (h : List HistoryEntry) →
            StandsFor (header (A.size area) address generation) (A.octets area) h →
            FindsHistory A.Area area result h }
        ensures anew { Told A.Area → Starts (header (A.size area) address generation) (A.octets area) →
            IsMadeAnew A.Area (header (A.size area) address generation) area result }
        ensures foreign { Told A.Area → (at : ℕ) →
            IsForeignTo (header (A.size area) address generation) (A.octets area) at →
            RefusesForeign A.Area area result at }
        ensures size { OnArea result (λ now. A.size now ≡ A.size area) }
        ensures planned { IsTrue A.tells_fate → is_memory result ≡ false →
            OpenFollows A.Area area result (header (A.size area) address generation) }
    {
        let mut judge = TakesAll;
        Trail::open_judged(alloc, area, address, generation, &mut judge)
    }

    /// Opens the history of an area as `open_at` does, and asks a judge of each entry, in order. It refuses with
    /// `NotOurs` a batch with an entry that isn't fit, too: the place is the first open gate whose batch isn't whole or
    /// isn't fit. The judge then was asked of entries of other batches, and at `Ok` of all.
    pub fn open_judged<J: Judge>(
        alloc: Global,
        area: A,
        address: u32,
        generation: u32,
        judge: &mut J,
    ) -> Result<Trail<A>, (OpenFault, A)>
        requires long { fewest_octets ≤ A.size area }
        requires short { A.size area ≤ most_octets }
        requires follows { J.follows judge.old [] }

        // The area stands for the history found, which is fit, or it was made anew.
        ensures ok { let h = header (A.size area) address generation in
            IfOk result (IsOpened A.Area h area (StandsFit J.fits h)) }
        ensures follows { Told A.Area → IfOk result (λ trail. J.follows judge.new (firm_entries trail)) }
        ensures err { let h = header (A.size area) address generation in
            IfErr result (IsRefused A.Area area (IsUnfitTo J.fits h)) }
        // The history found is the one that the area stands for.
        ensures reads { Told A.Area → (h : List HistoryEntry) →
            StandsFit J.fits (header (A.size area) address generation) (A.octets area) h →
            FindsHistory A.Area area result h }
        ensures anew { Told A.Area → Starts (header (A.size area) address generation) (A.octets area) →
            IsMadeAnew A.Area (header (A.size area) address generation) area result }
        ensures foreign { Told A.Area → (at : ℕ) →
            IsUnfitTo J.fits (header (A.size area) address generation) (A.octets area) at →
            RefusesForeign A.Area area result at }
        ensures size { OnArea result (λ now. A.size now ≡ A.size area) }
        ensures planned { IsTrue A.tells_fate → is_memory result ≡ false →
            OpenFollows A.Area area result (header (A.size area) address generation) }
    {
        area_laws::<A>();
        let size = area.length();
        let mut content = Vec::new(alloc);
        let Ok(listing) = Listing::new(alloc, size) else {
            return Err((OpenFault::NoMemory, area));
        };
        let Ok(waiting) = Buffer::with(alloc, LONGEST_BATCH) else {
            return Err((OpenFault::NoMemory, area));
        };
        entries_are_read_back();
        match Journal::open(alloc, area, address, generation) {
            Ok(journal) => Trail::over(journal, size, waiting, &mut content, listing, judge),
            Err((OpenFault::NotOurs { at }, mut area)) => {
                let fault = fault_before(&mut area, at, size, &mut content, listing, judge);
                Err((fault, area))
            }
            Err((OpenFault::Device, area)) => Err((OpenFault::Device, area)),
            Err((OpenFault::NoMemory, area)) => Err((OpenFault::NoMemory, area)),
        }
    }

    // Takes in the batches of a journal, and makes a trail of it.
    fn over<J: Judge>(
        mut journal: Journal<A>,
        size: u64,
        waiting: Buffer,
        content: &mut Vec<u8>,
        mut listing: Listing,
        judge: &mut J,
    ) -> Result<Trail<A>, (OpenFault, A)>
        requires ready { gates.is_closed journal ≡ false }
        requires founded { gates.front_of journal ≡ Founded }
        requires settled { gates.IsSettled journal }
        requires size { size ≡ A.size (gates.area_of journal) }
        requires long { fewest_octets ≤ size }
        requires short { size ≤ most_octets }
        requires waiting { waiting ≡ record { octets = []; capacity = longest_batch } }
        requires taken { AreTakenIn size 32 [] listing.places listing.tally }
        requires follows { J.follows judge.old [] }

        ensures taken { Told A.Area →
            IfOk result (IsTrailOf J.fits size (gates.batches journal) (J.follows judge.new)) }
        ensures fresh { IfOk result (λ trail. IsFresh (gates.header_of journal) trail) }

        ensures breaks { Told A.Area → IfErr result (λ fault. (at : ℕ) → fault.0 ≡ OpenFault.NotOurs at →
            BreaksAt (AreFit J.fits size) (gates.batches journal) at) }
        ensures some { Told A.Area → OnErr result (gates.batches journal ≢ []) }
        ensures kept { OnArea result (λ now. Kept A.Area (gates.area_of journal) now) }
        ensures cause { RoseByDevice A.Area (gates.area_of journal) result }
        ensures runs { IsTrue A.tells_fate → ReadsRun (A.fate (gates.area_of journal)).schedule →
            is_device result ≡ false }
    {
        match list(&mut journal, size, content, &mut listing, judge) {
            Ok(()) => Ok(Trail::made(journal, size, waiting, listing, judge)),
            Err(fault) => Err((fault, journal.into_area())),
        }
    }

    // A trail on a journal whose batches were all taken in.
    fn made<J: Judge>(
        journal: Journal<A>,
        size: u64,
        waiting: Buffer,
        listing: Listing,
        judge: &J,
    ) -> Trail<A>
        requires ready { gates.is_closed journal ≡ false }
        requires founded { gates.front_of journal ≡ Founded }
        requires settled { gates.IsSettled journal }
        requires size { size ≡ A.size (gates.area_of journal) }
        requires waiting { waiting ≡ record { octets = []; capacity = longest_batch } }
        requires taken { IsTakenUpTo (AreListed A.Area (gates.batches journal)) (IsJudged J.Judge size judge.now)
            size (gates.end journal) listing.places listing.tally }

        ensures taken { Told A.Area → IsTrailOf J.fits size (gates.batches journal) (J.follows judge.now) result }
        ensures fresh { IsFresh (gates.header_of journal) result }
        ensures area { area_of result ≡ gates.area_of journal }
    {
        area_laws::<A>();
        let Listing {
            numbers: _,
            places,
            mut tally,
        } = listing;
        tally.settle();
        Trail {
            firm: places.len(),
            journal,
            size,
            waiting,
            places,
            tally,
        }
    }
}
