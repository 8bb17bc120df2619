// A journal of batches on an area.
ghost use Rattle.std.specs.Prelude.{vec_capacity, min, ◌≡◌, ◌↔◌, ◌≢◌, ℕ, ◌+◌, ◌<◌, ◌≤◌, IsTrue, IsNone, IfSome, false, true, length, is_err, OnOk, OnErr, IfOk};
ghost use Rattle.area_disk.specs.Disk.{HasCause, Only};
ghost use Rattle.area_disk.specs.Plan.{ReadAsPlanned};
ghost use Rattle.gate_journal.specs.Format.{end_of, fewest_octets, header, longest_batch, longest_frame, most_octets};
ghost use Rattle.gate_journal.specs.Moments.{Counts, CountsOne, Told};
ghost use Rattle.gate_journal.specs.Planned.{ReadsRun};
ghost use Rattle.gate_journal.specs.State.{IsListed, IsSound, batches_below, front_after, gate_after};
ghost use Rattle.gate_journal.specs.Verdicts.{content_at};

use crate::device::{add, put};
use crate::format::{FIRST, OPEN, fill};
use crate::reading::{Behind, read_gate, see};
use crate::{AppendFault, Device};
use area_disk::laws::area_laws;
use area_disk::{Area, Failed};

/// How far a journal's area is made.
#[derive(Clone, Copy)]
pub enum Front {
    /// It has its whole header.
    Founded,
    /// Octet 0 isn't written yet, so that an opening makes the area anew.
    Draft,
    /// A write of octet 0 failed, and it isn't known whether it stands.
    Founding,
}

/// A list of batches on an area, each behind a gate of its own, which survives a stop inside any call of the device.
///
/// A batch is a list of at most 1,048,576 octets. It is written behind a closed gate, and the gate is opened when it
/// stands; so a crash leaves the whole batch or none of it.
#[derive(Drop)]
pub struct Journal<A: Area> {
    pub(crate) area: A,
    /// Where a batch and its frame are put together, with memory for the longest. After a failed append it keeps the
    /// batch.
    buffer: Vec<u8>,
    /// The place of the first closed gate.
    gate: u64,
    /// The length of the batch in the buffer.
    torn_length: u64,
    /// Whether that batch may stand behind the gate.
    is_torn: bool,
    front: Front,
    address: u32,
    generation: u32,
    ghost sound: { IsSound A.Area area buffer.items gate torn_length is_torn front address generation },
    ghost room: { min longest_frame (A.size area) ≤ vec_capacity buffer },
}

impl<A: Area> Journal<A> {
    ghost use Rattle.area_disk.specs.declared.plan.Outcome3.TheVariants.{New};
    ghost use Rattle.gate_journal.specs.Appending.{AppendCounts, AppendLeaves, AppendsAsPlanned, IsAppended, IsTorn};
    ghost use Rattle.gate_journal.specs.Founding.{FoundFollows, FoundLeaves, FoundStays, IsFounded, IsFounding};
    ghost use Rattle.gate_journal.specs.Journal.{IsSettled, NoneTorn, Rests, StopLeaves, area_of, batches, end, free_of, front_of, header_of, is_closed, stop_stands, torn_stands};
    ghost use Rattle.gate_journal.specs.Kept.{IsKept, IsUnchanged, Stays};
    ghost use Rattle.gate_journal.specs.Reading.{IsContent, IsFound, IsGate, IsInside, IsRead};
    ghost use Rattle.gate_journal.specs.Reopening.{IsReopened, IsStill, ReopenFollows, ReopenLeaves, ReopenStays};
    ghost use Rattle.gate_journal.specs.declared.journal.Front.TheVariants.{Draft, Founding};

    // A journal over an area whose octets are those of one.
    pub(crate) fn over(
        area: A,
        buffer: Vec<u8>,
        gate: u64,
        front: Front,
        address: u32,
        generation: u32,
    ) -> Self
        requires long { fewest_octets ≤ A.size area }
        requires short { A.size area ≤ most_octets }
        requires low { 32 ≤ gate }
        requires high { gate < A.size area }
        requires room { min longest_frame (A.size area) ≤ vec_capacity buffer }
        requires front { front ≢ Founding }
        requires listed { Told A.Area → IsListed (header (A.size area) address generation) front gate (A.octets area) }
        requires durable { Told A.Area → Only (A.octets area) (A.may_leave area) }

        ensures area { area_of result ≡ area }
        ensures batches { batches result ≡ batches_below gate (A.octets area) }
        ensures end { end result ≡ gate }
        ensures front { front_of result ≡ front }
        ensures closed { is_closed result ≡ false }
        ensures header { header_of result ≡ header (A.size area) address generation }
        ensures settled { IsSettled result }
    {
        area_laws::<A>();
        Journal {
            area,
            buffer,
            gate,
            torn_length: 0,
            is_torn: false,
            front,
            address,
            generation,
        }
    }

    /// Adds a batch of at most 1,048,576 octets. At `Ok` it stands: from then on every crash leaves it. At `Full`
    /// the journal is as before, and `free` octets are free, of which a batch takes five more than it has. After
    /// `Device` the journal is closed, and the batch is torn.
    ///
    /// It makes four calls of the device, none at `Full`, and takes no memory.
    pub fn append(&mut self, batch: &[u8]) -> Result<(), AppendFault>
        requires short { length batch.now ≤ longest_batch }
        requires ready { is_closed self.old ≡ false }

        ensures ok { OnOk result (IsAppended self.old self.new batch.now) }
        ensures full { (free : ℕ) →
            (result ≡ Err (AppendFault.Full free)) ↔ ((free ≡ free_of self.old) × (free < length batch.now + 5)) }
        ensures unchanged { (free : ℕ) → result ≡ Err (AppendFault.Full free) → IsUnchanged self.old self.new }
        ensures torn { result ≡ Err AppendFault.Device → IsTorn self.old self.new batch.now }

        // A crash at any moment of the call leaves the batches from before it, with the new one or without.
        ensures any_moment { Told A.Area → AppendLeaves self.old self.new batch.now }
        ensures stays { Stays self.old self.new }
        ensures counted { AppendCounts self.old self.new result }
        ensures planned { AppendsAsPlanned self.old self.new (length batch.now) (is_err result) }
    {
        area_laws::<A>();
        let free = self.area.length() - 1 - self.gate;
        let length = batch.len() as u64;
        if free < length + 5 {
            return Err(AppendFault::Full { free });
        }
        fill(&mut self.buffer, batch);
        self.torn_length = length;
        match add(&mut self.area, self.gate, self.buffer.as_slice()) {
            Ok(()) => {
                self.gate = self.gate + 5 + length;
                Ok(())
            }
            Err(Failed) => {
                self.is_torn = true;
                Err(AppendFault::Device)
            }
        }
    }

    /// Opens the journal again after a fault of the device: it makes one sync, then reads, and writes nothing. At `Ok`
    /// it isn't closed any more, and a batch whose append failed stands exactly where its gate is open. At `Device` it
    /// is as before.
    ///
    /// It takes no memory.
    pub fn reopen(&mut self) -> Result<(), Device>
        ensures ok { OnOk result (IsReopened self.old self.new) }
        ensures err { OnErr result (IsStill self.old self.new) }

        // A crash at any moment of the call leaves the batches, with one whose append failed or without.
        ensures any_moment { ReopenLeaves self.old self.new }
        ensures stays { ReopenStays self.old self.new }
        ensures counted { CountsOne A.Area (area_of self.old) (area_of self.new) result }
        ensures planned { IsTrue A.tells_fate → ReopenFollows self.old self.new (is_err result) }
    {
        area_laws::<A>();
        match see(&mut self.area, self.gate) {
            Ok(ends) => {
                self.gate = next_gate(self.is_torn, self.gate, self.torn_length, ends.gate);
                self.front = next_front(self.front, ends.first);
                self.is_torn = false;
                Ok(())
            }
            Err(Failed) => Err(Device),
        }
    }

    /// Founds a draft: it writes octet 0 of the area and waits until that stands. At `Ok` the journal is as one that
    /// was opened. At `Device` it is closed, and an opening finds the batches, or makes the area anew.
    ///
    /// It makes two calls of the device, and takes no memory.
    pub fn found(&mut self) -> Result<(), Device>
        requires draft { front_of self.old ≡ Draft }
        requires ready { is_closed self.old ≡ false }

        ensures ok { OnOk result (IsFounded self.new) }
        ensures err { OnErr result (IsFounding self.new) }

        // A crash at any moment of the call leaves an area that starts, or one with the batches.
        ensures any_moment { FoundLeaves self.old self.new }
        ensures stays { FoundStays self.old self.new }
        ensures counted { Counts 2 A.Area (area_of self.old) (area_of self.new) result }
        ensures planned { IsTrue A.tells_fate → FoundFollows self.old self.new result }
    {
        area_laws::<A>();
        match put(&mut self.area, 0, &[FIRST]) {
            Ok(()) => {
                self.front = Front::Founded;
                Ok(())
            }
            Err(Failed) => {
                self.front = Front::Founding;
                Err(Device)
            }
        }
    }

    /// Reads octets of one batch, from octet `at` of the area on. At `Device` `into` may hold anything, and the journal
    /// is as before.
    ///
    /// It takes no memory.
    pub fn read(&mut self, at: u64, into: &mut [u8]) -> Result<(), Device>
        requires inside { IsInside self.old at (length into.old) }

        ensures content { Told A.Area → OnOk result (IsRead self.old at (length into.old) into.new) }
        ensures kept { IsKept self.old self.new }
        ensures planned { IsTrue A.tells_fate →
            ReadAsPlanned (A.fate (area_of self.old)) result (A.fate (area_of self.new)) }
        ensures cause { HasCause (A.faults (area_of self.old)) (A.faults (area_of self.new)) result }
    {
        area_laws::<A>();
        match self.area.read_at(at, into) {
            Ok(()) => Ok(()),
            Err(Failed) => Err(Device),
        }
    }

    /// The place and the length of the content behind the gate at this octet, or `None` at the first closed gate.
    /// Octet 32 is a gate, and so is each octet behind a batch. At `Device` the journal is as before.
    ///
    /// It takes no memory.
    pub fn batch(&mut self, gate: u64) -> Result<Option<(u64, u32)>, Device>
        requires gate { IsGate self.old gate }
        requires ready { is_closed self.old ≡ false }

        ensures found { Told A.Area → IfOk result (λ found. IsFound self.old gate found) }
        ensures some { IfOk result (λ found.
            IfSome found (λ content. IsContent self.old self.new gate content.0 content.1)) }
        ensures none { Told A.Area → IfOk result (λ found. IsNone found ↔ (gate ≡ end self.old)) }
        ensures end { gate ≡ end self.old → IfOk result (λ found. IsNone found) }
        ensures kept { IsKept self.old self.new }
        ensures runs { IsTrue A.tells_fate → ReadsRun (A.fate (area_of self.old)).schedule → is_err result ≡ false }
        ensures cause { HasCause (A.faults (area_of self.old)) (A.faults (area_of self.new)) result }
    {
        area_laws::<A>();
        if gate >= self.gate {
            return Ok(None);
        }
        match read_gate(&mut self.area, gate) {
            Ok(behind) => Ok(content_behind(behind, gate, self.gate)),
            Err(Failed) => Err(Device),
        }
    }

    /// The place of the first closed gate, where the next batch goes.
    pub fn end(&self) -> u64
        ensures place { result ≡ end self.now }
        ensures low { 32 ≤ result }
        ensures high { result < A.size (area_of self.now) }
        ensures told { Told A.Area → result ≡ end_of (batches self.now) }
    {
        area_laws::<A>();
        self.gate
    }

    /// Whether a call failed after which it takes no batch until it is opened again.
    pub fn is_closed(&self) -> bool
        ensures closed { result ≡ is_closed self.now }
        ensures settled { result ≡ false → IsSettled self.now }
        ensures none_torn { result ≡ false → NoneTorn self.now }

        // A crash leaves the batches, with one whose append failed or without.
        ensures rests { Rests self.now }
        ensures torn { IsTrue A.tells_fate → torn_stands self.now ≡ stop_stands New self.now }
        ensures stop { IsTrue A.tells_fate → Told A.Area → StopLeaves self.now }
    {
        area_laws::<A>();
        match self.front {
            Front::Founded | Front::Draft => self.is_torn,
            Front::Founding => true,
        }
    }

    /// Hands the area back as it is.
    pub fn into_area(self) -> A
        ensures area { result ≡ area_of self }
        ensures long { fewest_octets ≤ A.size result }
        ensures short { A.size result ≤ most_octets }
        ensures rests { Rests self }
        ensures stop { IsTrue A.tells_fate → Told A.Area → StopLeaves self }
    {
        area_laws::<A>();
        let Journal {
            area,
            buffer: _,
            gate: _,
            torn_length: _,
            is_torn: _,
            front: _,
            address: _,
            generation: _,
        } = self;
        area
    }
}

// The gate behind a batch that may stand, or before it.
fn next_gate(is_torn: bool, gate: u64, length: u64, octet: u8) -> u64
    requires fits { is_torn ≡ true → gate + length + 6 ≤ most_octets }
    ensures { result ≡ gate_after is_torn gate length octet }
{
    if is_torn {
        if octet == OPEN {
            return gate + 5 + length;
        }
    }
    gate
}

fn next_front(front: Front, first: u8) -> Front
    ensures { result ≡ front_after front first }
{
    match front {
        Front::Founded => Front::Founded,
        Front::Draft => Front::Draft,
        Front::Founding => {
            if first == FIRST {
                Front::Founded
            } else {
                Front::Draft
            }
        }
    }
}

// The place and the length of the content of a whole batch that ends before the first closed gate.
pub(crate) fn content_behind(behind: Behind, gate: u64, end: u64) -> Option<(u64, u32)>
    requires fits { gate < end }
    requires short { end ≤ most_octets }
    ensures { result ≡ content_at behind gate end }
{
    match behind {
        Behind::Shut => None,
        Behind::Cut => None,
        Behind::Whole { length } => {
            if end < gate + 5 + u64::from(length) {
                None
            } else {
                Some((gate + 5, length))
            }
        }
    }
}
