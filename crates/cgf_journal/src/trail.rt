// A history on a journal.
ghost use Rattle.std.specs.Prelude.{◌≡◌, ◌↔◌, ℕ, ◌+◌, ◌-◌, ◌*◌, ◌<◌, ◌≤◌, ◌^◌, IsTrue, false, true, [], ◌∷◌, ◌++◌, length, slice_get, Some, Ok, Err, OnOk, OnErr, IfOk, is_err};
ghost use Rattle.area_disk.specs.Disk.{HasCause};
ghost use Rattle.gw_base.specs.Entry.{entry_view};
ghost use Rattle.gw_base.specs.HeldKeys.{promised_octets};
ghost use Rattle.gw_base.specs.declared.history.HistoryEntry.{HistoryEntry};
ghost use Rattle.gate_journal.specs.Format.{fewest_octets, longest_batch, most_octets};
ghost use Rattle.gate_journal.specs.Moments.{Kept, Told};
ghost use Rattle.std.proofs.Props.{props};
ghost use Rattle.entry_codec.specs.Content.{AreEntries, spelled};
ghost use Rattle.entry_codec.specs.Props.{IsAct-prop};
ghost use Rattle.entry_codec.specs.Room.{capacity_of, costs_of, has_room};
ghost use Rattle.entry_codec.specs.Spelling.{cost_of, entry_length, spelling};
ghost use Rattle.cgf_journal.specs.Format.{StandsFor, cheapest_entry};
ghost use Rattle.cgf_journal.specs.Reserved.{AreEnough, cheapest_hold};
ghost use Rattle.cgf_journal.specs.Sound.{IsSound};
ghost use Rattle.cgf_journal.specs.Tally.{tally_behind};

use crate::faults::BatchFull;
use crate::places::Places;
use crate::tally::Tally;
use area_disk::Area;
use area_disk::laws::area_laws;
use entry_codec::laws::entries_are_read_back;
use entry_codec::{cost, write};
use gate_journal::{AppendFault, Device, Journal};
use gw_base::{Buffer, Entry, Place};

/// Entries that aren't firm, as octets.
#[derive(Clone, Copy)]
pub struct Waiting<'a> {
    /// How many octets spell the firm entries.
    pub at: u64,
    /// The octets that spell the entries after them, one after the other.
    pub octets: &'a [u8],
}

/// A gateway's history on a journal: the firm entries, which every crash leaves, and those after them, which wait for
/// a commit.
///
/// A commit makes all waiting entries firm at once. Where it fails the trail is closed, and its entries are the firm
/// ones; the others are torn, and stand again or are dropped when it is opened again.
#[derive(Drop)]
pub struct Trail<A: Area> {
    pub(crate) journal: Journal<A>,
    /// The length of the area.
    pub(crate) size: u64,
    /// The octets of the entries after the firm ones.
    pub(crate) waiting: Buffer,
    /// The places of all entries, those that wait included.
    pub(crate) places: Places,
    /// How many entries are firm.
    pub(crate) firm: usize,
    pub(crate) tally: Tally,
    ghost enough: { AreEnough size places.reserved tally.reserved },
    ghost sound: { IsSound journal size waiting places.items firm tally } by { Prim.hlevel (IsAct-prop, props) },
}

impl<A: Area> Trail<A> {
    ghost use Rattle.area_disk.specs.declared.plan.Outcome3.{Outcome3};
    ghost use Rattle.area_disk.specs.declared.plan.Outcome3.TheVariants.{New};
    ghost use Rattle.cgf_journal.specs.Outcomes.{AllFirm, AreTorn, CommitCalls, CommitPlanned, CrashLeaves, FirmPlacesStay, FirmStays, IsKept, IsPushed, IsReopened, ReadPlanned, ReopenCalls, ReopenPlanned, Stays, TornDropped, TornStand, UnmadeIfNone};
    ghost use Rattle.cgf_journal.specs.Trail.{IsAtRest, IsFirmPlaceOf, IsPlace, IsPlaceOf, IsSettled, LiesAt, area_of, entries, firm_entries, firm_length, free_of, has_room_of, header_of, is_closed, left_by_stop, length_of, stop_stands, torn_stands, waiting, waiting_octets};

    /// Adds an entry after the others. It is firm after the next commit. It takes no memory.
    ///
    /// `Entry` may say anything for which there is room. Until the next commit at most 1,048,576 octets of entries
    /// wait.
    pub fn push(&mut self, entry: &Entry<'_>) -> Result<(), BatchFull>
        requires room { has_room_of self.old (entry_view entry.now) ≡ true }
        requires ready { is_closed self.old ≡ false }

        ensures ok { OnOk result (IsPushed self.old self.new (entry_view entry.now)) }
        ensures full { (free : ℕ) → (result ≡ Err (record { free = free })) ↔
            ((free + waiting_octets self.old ≡ longest_batch) × (free < entry_length (entry_view entry.now))) }
        ensures err { OnErr result (IsKept self.old self.new) }
        ensures stays { FirmStays self.old self.new }
    {
        entries_are_read_back();
        let free = self.waiting.free() as u64;
        let length = cost(entry) - 5;
        if free < length {
            return Err(BatchFull { free });
        }
        let at = self.journal.end() + 5 + self.waiting.octets().len() as u64;
        let place = Place {
            at,
            length: length as u32,
        };
        note(&mut self.places, &mut self.tally, place, entry);
        match write(entry, &mut self.waiting) {
            Ok(()) => Ok(()),
            Err(_) => unreachable!(),
        }
    }

    /// Makes all entries firm: they are one batch of the journal. It answers how many there are.
    ///
    /// It makes four calls of the device, none where no entry waits, and takes no memory. After `Device` the trail is
    /// closed: its entries are the firm ones, and those that waited are torn.
    pub fn commit(&mut self) -> Result<u64, Device>
        requires ready { is_closed self.old ≡ false }

        ensures ok { IfOk result (AllFirm self.old self.new) }
        ensures err { OnErr result (AreTorn self.old self.new) }
        ensures closed { is_closed self.new ≡ is_err result }
        // A crash at any moment of the call leaves the firm entries, or all.
        ensures any_moment { CrashLeaves self.old self.new (firm_entries self.old) (entries self.old) }
        ensures stays { Stays self.old self.new }
        ensures unmade { UnmadeIfNone self.old self.new result }
        ensures device { CommitCalls self.old self.new result }
        ensures planned { CommitPlanned self.old self.new result }
    {
        area_laws::<A>();
        if self.waiting.octets().is_empty() {
            let is_closed = self.journal.is_closed();
            prove!(!is_closed);
            return Ok(self.firm as u64);
        }
        match self.journal.append(self.waiting.octets()) {
            Ok(()) => {
                self.firm = self.places.len();
                self.tally.settle();
                self.waiting.clear();
                Ok(self.firm as u64)
            }
            Err(AppendFault::Device) => Err(Device),
            Err(AppendFault::Full { .. }) => unreachable!(),
        }
    }

    /// Opens a closed trail again: it makes one sync, then reads, and writes nothing. It answers whether the torn
    /// entries stand, as the gate of their batch then reads: they are firm, or else they are dropped. After `Device`
    /// the trail is closed as before.
    ///
    /// It takes no memory.
    pub fn reopen(&mut self) -> Result<bool, Device>
        requires closed { is_closed self.old ≡ true }

        ensures ok { IfOk result (IsReopened self.old self.new) }
        ensures taken_in { result ≡ Ok true → TornStand self.old self.new }
        ensures dropped { result ≡ Ok false → TornDropped self.old self.new }
        ensures err { OnErr result (IsKept self.old self.new) }
        // A crash at any moment of the call leaves the firm entries, with the torn ones or without.
        ensures any_moment { CrashLeaves self.old self.new (firm_entries self.old) (firm_entries self.old ++
            waiting self.old) }
        ensures stays { FirmPlacesStay self.old self.new }
        ensures device { ReopenCalls self.old self.new result }
        ensures planned { ReopenPlanned self.old self.new result }
    {
        area_laws::<A>();
        let end = self.journal.end();
        self.journal.reopen()?;
        if self.journal.end() == end {
            self.places.truncate(self.firm);
            self.tally.revert();
            self.waiting.clear();
            return Ok(false);
        }
        self.firm = self.places.len();
        self.tally.settle();
        self.waiting.clear();
        Ok(true)
    }

    /// Whether a commit failed after which it takes no entry until it is opened again.
    pub fn is_closed(&self) -> bool
        ensures closed { result ≡ is_closed self.now }
        ensures settled { Told A.Area → result ≡ false → IsSettled self.now }
        ensures open { Told A.Area → result ≡ false → entries self.now ≡ firm_entries self.now ++ waiting self.now }
        ensures rests { IsAtRest self.now }
        ensures stop { IsTrue A.tells_fate → Told A.Area → (outcome : Outcome3) →
            StandsFor (header_of self.now) ((A.fate (area_of self.now)).leaves outcome)
            (left_by_stop outcome self.now) }
        ensures torn { IsTrue A.tells_fate → torn_stands self.now ≡ stop_stands New self.now }
    {
        area_laws::<A>();
        self.journal.is_closed()
    }

    /// Whether there is room for an entry, whatever it says. It takes no memory.
    pub fn room(&self, entry: &Entry<'_>) -> bool
        ensures counted { result ≡ has_room_of self.now (entry_view entry.now) }
        ensures room { Told A.Area → result ≡
            has_room (entries self.now) (entry_view entry.now) (A.size (area_of self.now)) }
    {
        self.tally
            .has_room(self.journal.is_closed(), entry, self.size)
    }

    /// The number of octets that costs and promises leave of the capacity, 0 where they leave none.
    pub fn free(&self) -> u64
        ensures counted { result ≡ free_of self.now }
        ensures free { Told A.Area → result ≡
            capacity_of (A.size (area_of self.now)) - (costs_of (entries self.now) +
            promised_octets (entries self.now)) }
    {
        self.tally.free(self.journal.is_closed(), self.size)
    }

    /// How many entries it has; of a closed trail, the firm ones. Each costs 30 octets of the area at least.
    pub fn length(&self) -> u64
        ensures counted { result ≡ length_of self.now }
        ensures length { Told A.Area → result ≡ length (entries self.now) }
        ensures bound { cheapest_entry * result ≤ A.size (area_of self.now) }
    {
        if self.journal.is_closed() {
            self.firm as u64
        } else {
            self.places.len() as u64
        }
    }

    /// How many of them are firm.
    pub fn firm(&self) -> u64
        ensures counted { result ≡ firm_length self.now }
        ensures length { Told A.Area → result ≡ length (firm_entries self.now) }
        ensures bound { result ≤ length_of self.now }
    {
        self.firm as u64
    }

    /// The entries after the firm ones, as octets, and how many octets spell the firm ones. Those of a closed trail are
    /// the torn ones.
    pub fn waiting(&self) -> Waiting<'_>
        ensures entries { AreEntries result.octets.now (waiting self.now) }
        ensures counted { length result.octets.now ≡ waiting_octets self.now }
        ensures short { waiting_octets self.now ≤ longest_batch }
        ensures none { waiting_octets self.now ≡ 0 → length_of self.now ≡ firm_length self.now }
        ensures at { Told A.Area → result.at ≡ length (spelled (firm_entries self.now)) }
    {
        Waiting {
            at: self.tally.firm_costs() - 5 * self.firm as u64,
            octets: self.waiting.octets(),
        }
    }

    /// The place of the k-th entry, counted from 0. An entry that waits has its place from the next commit on.
    pub fn entry_at(&self, k: u64) -> Place
        requires { k < length_of self.now }
        ensures place { IsPlaceOf self.now k result }
        // A firm entry lies there in the area.
        ensures lies { Told A.Area → (e : HistoryEntry) → k < firm_length self.now →
            slice_get (firm_entries self.now) k ≡ Some e → LiesAt result e (A.octets (area_of self.now)) }
        ensures length { Told A.Area → (e : HistoryEntry) → slice_get (entries self.now) k ≡ Some e →
            result.length ≡ entry_length e }
    {
        let _closed = self.journal.is_closed();
        self.places.at(k as usize)
    }

    /// Reads the octets of a firm entry. After `Device` `into` may hold anything, and the trail is as before.
    ///
    /// It takes no memory.
    pub fn read(&mut self, place: Place, into: &mut [u8]) -> Result<(), Device>
        requires place { IsPlace self.old place }
        requires length { length into.old ≡ place.length }

        ensures read { Told A.Area → (k : ℕ) (e : HistoryEntry) → IsFirmPlaceOf self.old k place →
            slice_get (firm_entries self.old) k ≡ Some e → OnOk result ((into.new ≡ spelling e) ×
            AreEntries into.new (e ∷ [])) }
        ensures kept { IsKept self.old self.new }
        ensures torn_stands { torn_stands self.new ≡ torn_stands self.old }
        ensures area { Kept A.Area (area_of self.old) (area_of self.new) }
        ensures cause { HasCause (A.faults (area_of self.old)) (A.faults (area_of self.new)) result }
        ensures planned { IsTrue A.tells_fate → ReadPlanned self.old self.new result }
    {
        self.journal.read(place.at, into)
    }

    /// Hands the area back as it is. It takes no memory.
    pub fn into_area(self) -> A
        ensures area { result ≡ area_of self }
        ensures long { fewest_octets ≤ A.size result }
        ensures short { A.size result ≤ most_octets }
        ensures rests { IsAtRest self }
        ensures stop { IsTrue A.tells_fate → Told A.Area → (outcome : Outcome3) →
            StandsFor (header_of self) ((A.fate (area_of self)).leaves outcome) (left_by_stop outcome self) }
    {
        area_laws::<A>();
        let _closed = self.journal.is_closed();
        let Trail {
            journal,
            size: _,
            waiting: _,
            places: _,
            firm: _,
            tally: _,
        } = self;
        journal.into_area()
    }
}

// Keeps the place of one more entry, and counts it, where memory is reserved for both.
fn note(places: &mut Places, tally: &mut Tally, place: Place, entry: &Entry<'_>)
    requires costs { tally.old.live.costs + cost_of (entry_view entry.now) < 2 ^ 64 }
    requires fits { place.at < 2 ^ 32 }
    requires place { length places.old.items < places.old.reserved }
    requires key { tally.old.live.costs + cost_of (entry_view entry.now) < cheapest_hold * (tally.old.reserved + 1) }
    ensures place { places.new.items ≡ places.old.items ++ place ∷ [] }
    ensures reserved { places.new.reserved ≡ places.old.reserved }
    ensures tally { tally.new ≡ record {
      firm = tally.old.firm;
      live = tally_behind tally.old.live (entry_view entry.now);
      reserved = tally.old.reserved;
    } }
{
    let Ok(()) = places.push(place) else {
        unreachable!();
    };
    let Ok(()) = tally.add(entry) else {
        unreachable!();
    };
}
