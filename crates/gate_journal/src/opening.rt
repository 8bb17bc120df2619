// How a journal is opened, drafted and made anew.
ghost use Rattle.std.specs.Prelude.{vec_capacity, ◌≡◌, ◌⊎◌, ◌+◌, ◌≤◌, ℕ, IsTrue, min, false, [], ◌∷◌, ◌++◌, length, take, drop, slice_index, is_err, OnOk, IfOk, IfErr, IsErrAnd};
ghost use Rattle.area_disk.specs.Disk.{HasCause, Only, counted};
ghost use Rattle.gate_journal.specs.Format.{IsBroken, IsForeign, Starts, fewest_octets, header, longest_frame, most_octets};
ghost use Rattle.gate_journal.specs.Journal.{area_of};
ghost use Rattle.gate_journal.specs.Making.{IsAnew, IsDeviceOr, IsReadyWith};
ghost use Rattle.gate_journal.specs.Moments.{Calls, Kept, Leaves, RoseUpTo, Told};
ghost use Rattle.gate_journal.specs.OpenPlanned.{DraftFollows, MadeBy, OpenFollows};
ghost use Rattle.gate_journal.specs.Opening.{DraftCounts, IsDrafted, IsLaid, IsMaking, IsOpened, IsRefused, IsUndrafted, OnArea, OpenCounts, OpenLeaves, RoseByDevice, header_for, is_device};
ghost use Rattle.gate_journal.specs.Planned.{ReadsRun, after_append, after_put, append_fails, course_of, ending_of, is_ended};
ghost use Rattle.gate_journal.specs.Verdicts.{IsVerdict};
ghost use Rattle.gate_journal.specs.declared.journal.Front.TheVariants.{Draft, Founded};
ghost use Rattle.gate_journal.specs.declared.reading.Verdict.TheVariants.{Starts as Begins};

use crate::device::put;
use crate::format::{CLOSED, LONGEST_BATCH, header_of};
use crate::reading::{Scanned, Verdict, look, scan};
use crate::{Device, Front, Journal, OpenFault};
use area_disk::laws::area_laws;
use area_disk::{Area, Failed};
use std::alloc::{AllocError, Global};

// All of a header but its first octet, and a closed gate behind it.
fn front_octets(header: &[u8; 32]) -> [u8; 32]
    ensures { result ≡ drop 1 header.now ++ 0 ∷ [] }
{
    let mut front = [CLOSED; 32];
    front[..31].copy_from_slice(&header[1..]);
    front
}

// Makes an area that starts, without its octet 0.
fn lay_front<A: Area>(area: &mut A, header: &[u8; 32], blank: bool) -> Result<(), Failed>
    requires long { fewest_octets ≤ A.size area.old }
    requires first { slice_index header.now 0 ≡ 67 }
    requires begun { IsTrue A.tells_octets → IsVerdict header.now (A.octets area.old) (Begins blank) }

    ensures size { A.size area.new ≡ A.size area.old }
    ensures laid { IsTrue A.tells_octets → OnOk result (IsLaid header.now (A.octets area.new)) }
    ensures durable { IsTrue A.tells_crash → OnOk result (Only (A.octets area.new) (A.may_leave area.new)) }
    ensures any_moment { IsTrue A.tells_octets → Only (A.octets area.old) (A.may_leave area.old) →
        Leaves A.Area area.old area.new (Starts header.now) }
    ensures calls { IsTrue A.tells_calls → Calls 2 (A.calls area.old) (A.calls area.new) result }
    ensures fails { IsTrue A.tells_fate → is_err result ≡ is_ended (ending_of (course_of (A.fate area.old))) }
    ensures course { IsTrue A.tells_fate → course_of (A.fate area.new) ≡ after_put (course_of (A.fate area.old)) }
    ensures cause { HasCause (A.faults area.old) (A.faults area.new) result }
{
    area_laws::<A>();
    if blank {
        let front = front_octets(header);
        put(area, 1, &front)
    } else {
        put(area, 32, &[CLOSED])
    }
}

// An empty buffer with memory for the longest batch and its frame in an area of this length.
fn buffer_for(alloc: Global, length: u64) -> Result<Vec<u8>, AllocError>
    requires { length ≤ most_octets }
    ensures { IfOk result (λ buffer. min longest_frame length ≤ vec_capacity buffer) }
{
    let most = length.min(LONGEST_BATCH as u64 + 5);
    Vec::with_capacity(alloc, most as usize)
}

// Makes an area that starts, without its octet 0, and a draft on it.
fn lay<A: Area>(
    alloc: Global,
    mut area: A,
    blank: bool,
    address: u32,
    generation: u32,
) -> Result<Journal<A>, (OpenFault, A)>
    requires long { fewest_octets ≤ A.size area }
    requires short { A.size area ≤ most_octets }
    requires begun { IsTrue A.tells_octets →
        IsVerdict (header (A.size area) address generation) (A.octets area) (Begins blank) }
    requires durable { IsTrue A.tells_crash → Only (A.octets area) (A.may_leave area) }

    ensures ok { IfOk result (λ journal. IsAnew Draft (header_for A.Area area address generation) journal) }
    ensures fault { IfErr result (λ fault. IsDeviceOr area fault) }
    ensures any_moment { Told A.Area →
        OnArea result (λ now. Leaves A.Area area now (Starts (header_for A.Area area address generation))) }
    ensures size { OnArea result (λ now. A.size now ≡ A.size area) }
    ensures calls { IsTrue A.tells_calls →
        IfOk result (λ journal. A.calls (area_of journal) ≡ counted 2 (A.calls area)) }
    ensures calls_device { IsTrue A.tells_calls →
        IfErr result (λ fault. fault.0 ≡ OpenFault.Device → RoseUpTo 2 (A.calls area) (A.calls fault.1)) }
    ensures planned { IsTrue A.tells_fate → is_ended (ending_of (course_of (A.fate area))) ≡ false →
        MadeBy A.Area result (after_put (course_of (A.fate area))) }
    ensures cause { RoseByDevice A.Area area result }
{
    let length = area.length();
    let Ok(buffer) = buffer_for(alloc, length) else {
        return Err((OpenFault::NoMemory, area));
    };
    let header = header_of(length, address, generation);
    match lay_front(&mut area, &header, blank) {
        Ok(()) => Ok(Journal::over(area, buffer, 32, Front::Draft, address, generation)),
        Err(Failed) => Err((OpenFault::Device, area)),
    }
}

// Reads the batches of an area that has its header.
fn list<A: Area>(
    alloc: Global,
    mut area: A,
    address: u32,
    generation: u32,
) -> Result<Journal<A>, (OpenFault, A)>
    requires long { fewest_octets ≤ A.size area }
    requires short { A.size area ≤ most_octets }
    requires same { IsTrue A.tells_octets → take 32 (A.octets area) ≡ header (A.size area) address generation }
    requires durable { IsTrue A.tells_crash → Only (A.octets area) (A.may_leave area) }

    ensures ok { IfOk result (λ journal. IsReadyWith Founded (header_for A.Area area address generation) journal) }
    ensures broken { IsTrue A.tells_octets → IfErr result (λ fault. (at : ℕ) → fault.0 ≡ OpenFault.NotOurs at →
        IsBroken (header_for A.Area area address generation) (A.octets area) at) }
    ensures foreign { IsTrue A.tells_octets → (at : ℕ) →
        IsBroken (header_for A.Area area address generation) (A.octets area) at →
        IsErrAnd result (λ fault. (fault.0 ≡ OpenFault.NotOurs at) ⊎ (fault.0 ≡ OpenFault.Device)) }
    ensures kept { OnArea result (λ now. Kept A.Area area now) }
    ensures runs { IsTrue A.tells_fate → ReadsRun (A.fate area).schedule → is_device result ≡ false }
    ensures cause { RoseByDevice A.Area area result }
{
    area_laws::<A>();
    match scan(&mut area) {
        Ok(Scanned::End { gate }) => {
            let Ok(buffer) = buffer_for(alloc, area.length()) else {
                return Err((OpenFault::NoMemory, area));
            };
            Ok(Journal::over(area, buffer, gate, Front::Founded, address, generation))
        }
        Ok(Scanned::Broken { at }) => Err((OpenFault::NotOurs { at }, area)),
        Err(Failed) => Err((OpenFault::Device, area)),
    }
}

// Makes an area anew: it starts until octet 0 stands, and then it stands for no batch.
fn make_anew<A: Area>(
    alloc: Global,
    area: A,
    blank: bool,
    address: u32,
    generation: u32,
) -> Result<Journal<A>, (OpenFault, A)>
    requires long { fewest_octets ≤ A.size area }
    requires short { A.size area ≤ most_octets }
    requires begun { IsTrue A.tells_octets →
        IsVerdict (header (A.size area) address generation) (A.octets area) (Begins blank) }
    requires durable { IsTrue A.tells_crash → Only (A.octets area) (A.may_leave area) }

    ensures ok { IfOk result (λ journal. IsAnew Founded (header_for A.Area area address generation) journal) }
    ensures fault { IfErr result (λ fault. IsDeviceOr area fault) }
    ensures any_moment { Told A.Area →
        OnArea result (λ now. Leaves A.Area area now (IsMaking (header_for A.Area area address generation))) }
    ensures size { OnArea result (λ now. A.size now ≡ A.size area) }
    ensures calls { IsTrue A.tells_calls →
        IfOk result (λ journal. A.calls (area_of journal) ≡ counted 4 (A.calls area)) }
    ensures calls_device { IsTrue A.tells_calls →
        IfErr result (λ fault. fault.0 ≡ OpenFault.Device → RoseUpTo 4 (A.calls area) (A.calls fault.1)) }
    ensures planned { IsTrue A.tells_fate →
        append_fails (ending_of (course_of (A.fate area))) (ending_of (after_put (course_of (A.fate area)))) ≡ false →
        MadeBy A.Area result (after_append (course_of (A.fate area))) }
    ensures cause { RoseByDevice A.Area area result }
{
    match lay(alloc, area, blank, address, generation) {
        Err(fault) => Err(fault),
        Ok(mut journal) => match journal.found() {
            Ok(()) => Ok(journal),
            Err(Device) => Err((OpenFault::Device, journal.into_area())),
        },
    }
}

impl<A: Area> Journal<A> {
    /// Opens the journal of an area, for a gateway's address and a generation. It makes one sync and reads; an area
    /// whose making began, or whose octet 0 is 0, is made anew with four calls of the device more.
    ///
    /// It takes memory for one buffer of at most 1,048,581 octets, and hands the area back where it fails.
    pub fn open(
        alloc: Global,
        mut area: A,
        address: u32,
        generation: u32,
    ) -> Result<Journal<A>, (OpenFault, A)>
        requires long { fewest_octets ≤ A.size area }
        requires short { A.size area ≤ most_octets }

        ensures ok { IfOk result (λ journal.
            IsOpened A.Area area (header_for A.Area area address generation) journal) }
        ensures err { IfErr result (λ fault.
            IsRefused A.Area area (header_for A.Area area address generation) fault.0 fault.1) }
        ensures foreign { Told A.Area → (at : ℕ) →
            IsForeign (header_for A.Area area address generation) (A.octets area) at →
            IsErrAnd result (λ fault. (fault.0 ≡ OpenFault.NotOurs at) ⊎ (fault.0 ≡ OpenFault.Device)) }
        ensures any_moment { OnArea result (λ now.
            OpenLeaves A.Area area (header_for A.Area area address generation) now) }
        ensures size { OnArea result (λ now. A.size now ≡ A.size area) }
        ensures counted { OpenCounts A.Area area result (header_for A.Area area address generation) }
        ensures planned { IsTrue A.tells_fate →
            OpenFollows A.Area area result (header_for A.Area area address generation) }
    {
        let header = header_of(area.length(), address, generation);
        match look(&mut area, &header) {
            Ok(Verdict::Starts { blank }) => make_anew(alloc, area, blank, address, generation),
            Ok(Verdict::Same) => list(alloc, area, address, generation),
            Ok(Verdict::Other { at }) => Err((OpenFault::NotOurs { at }, area)),
            Err(Failed) => Err((OpenFault::Device, area)),
        }
    }

    /// Makes a draft on an area that an opening would make anew, for a gateway's address and a generation. It makes all
    /// of the journal but octet 0 of the area, with three calls of the device. Batches may be appended to it; until
    /// `found` every crash leaves an area that an opening makes anew.
    ///
    /// It refuses an area that doesn't start with `NotOurs { at: 0 }`. It takes memory for one buffer of at most
    /// 1,048,581 octets, and hands the area back where it fails.
    pub fn draft(
        alloc: Global,
        mut area: A,
        address: u32,
        generation: u32,
    ) -> Result<Journal<A>, (OpenFault, A)>
        requires long { fewest_octets ≤ A.size area }
        requires short { A.size area ≤ most_octets }

        ensures ok { IfOk result (λ journal.
            IsDrafted A.Area area (header_for A.Area area address generation) journal) }
        ensures err { IfErr result (λ fault.
            IsUndrafted A.Area area (header_for A.Area area address generation) fault.0 fault.1) }

        // A crash at any moment leaves what it could before, or an area that starts.
        ensures any_moment { Told A.Area → OnArea result (λ now. Leaves A.Area area now
            (λ c. A.may_leave area c ⊎ Starts (header_for A.Area area address generation) c)) }
        ensures size { OnArea result (λ now. A.size now ≡ A.size area) }
        ensures counted { DraftCounts A.Area area result }
        ensures planned { IsTrue A.tells_fate → DraftFollows A.Area area result }
    {
        let header = header_of(area.length(), address, generation);
        match look(&mut area, &header) {
            Ok(Verdict::Starts { blank }) => lay(alloc, area, blank, address, generation),
            Ok(Verdict::Same) => Err((OpenFault::NotOurs { at: 0 }, area)),
            Ok(Verdict::Other { at: _ }) => Err((OpenFault::NotOurs { at: 0 }, area)),
            Err(Failed) => Err((OpenFault::Device, area)),
        }
    }
}
