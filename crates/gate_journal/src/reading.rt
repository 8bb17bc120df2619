// What an opening reads: the header, and the batches up to the first closed gate.
ghost use Rattle.std.specs.Prelude.{◌≡◌, ◌≢◌, ◌+◌, ◌<◌, ◌≤◌, IsTrue, IfOk, OnOk, MatchOption, false, is_err, length, take, drop, slice_index};
ghost use Rattle.area_disk.specs.Disk.{Only, HasCause, counted};
ghost use Rattle.byteorder.specs.Endian.{big_number, big_bytes};
ghost use Rattle.gate_journal.specs.Format.{fewest_octets, gate_at, length_at, most_octets};
ghost use Rattle.gate_journal.specs.Planned.{ReadsRun, SyncPlanned};
ghost use Rattle.gate_journal.specs.Moments.{Leaves, Kept};
ghost use Rattle.gate_journal.specs.Verdicts.{IsVerdict, IsBehind, Fits, IsScanned, LiesIn};

use crate::format::{LONGEST_BATCH, OPEN};
use area_disk::laws::area_laws;
use area_disk::{Area, Failed};
use byteorder::{BigEndian, ByteOrder};

/// What the first octets of an area say of it.
#[derive(Clone, Copy)]
pub enum Verdict {
    /// An opening makes it anew. `blank` where octet 0 is 0; else it has all of its header but octet 0.
    Starts { blank: bool },
    /// It has the header.
    Same,
    /// It differs from the header, and this is the first octet that does.
    Other { at: u64 },
}

/// What stands at a gate.
#[derive(Clone, Copy)]
pub enum Behind {
    /// It is closed.
    Shut,
    /// It is open, and behind it stands a whole batch.
    Whole { length: u32 },
    /// It is open, and the batch behind it isn't whole.
    Cut,
}

/// Where the batches of an area end.
#[derive(Clone, Copy)]
pub enum Scanned {
    /// At this gate, which is closed.
    End { gate: u64 },
    /// At this gate, which is open and has no whole batch behind it.
    Broken { at: u64 },
}

fn first_difference(header: &[u8; 32], read: &[u8; 32]) -> Option<usize>
    ensures { MatchOption result (header.now ≡ read.now) (λ at. (at < 32) ×
        (take at read.now ≡ take at header.now) × (slice_index read.now at ≢ slice_index header.now at)) }
{
    for i in 0..32 {
        if header[i] != read[i] {
            return Some(i);
        }
    }
    None
}

fn rest_differs(header: &[u8; 32], read: &[u8; 32]) -> bool
    ensures same { result ≡ false → drop 1 read.now ≡ drop 1 header.now }
    ensures other { IsTrue result → drop 1 read.now ≢ drop 1 header.now }
{
    header[1..] != read[1..]
}

fn judge(header: &[u8; 32], read: &[u8; 32]) -> Verdict
    ensures { IsVerdict header.now read.now result }
{
    if read[0] == 0 {
        return Verdict::Starts { blank: true };
    }
    match first_difference(header, read) {
        None => Verdict::Same,
        Some(at) => {
            if at == 0 && !rest_differs(header, read) {
                return Verdict::Starts { blank: false };
            }
            Verdict::Other { at: at as u64 }
        }
    }
}

/// Waits until what was written stands, and reads the first octets.
pub fn look<A: Area>(area: &mut A, header: &[u8; 32]) -> Result<Verdict, Failed>
    requires { fewest_octets ≤ A.size area.old }

    ensures size { A.size area.new ≡ A.size area.old }
    ensures octets { IsTrue A.tells_octets → OnOk result (A.octets area.new ≡ A.octets area.old) }
    ensures verdict { IsTrue A.tells_octets → IfOk result (λ v. IsVerdict header.now (A.octets area.old) v) }
    ensures durable { IsTrue A.tells_crash → OnOk result (Only (A.octets area.new) (A.may_leave area.new)) }
    ensures any_moment { Leaves A.Area area.old area.new (A.may_leave area.old) }

    ensures calls { IsTrue A.tells_calls → A.calls area.new ≡ counted 1 (A.calls area.old) }
    ensures planned { IsTrue A.tells_fate → SyncPlanned (A.fate area.old) (is_err result) (A.fate area.new) }
    ensures cause { HasCause (A.faults area.old) (A.faults area.new) result }
{
    area.sync()?;
    let mut read = [0; 32];
    area.read_at(0, &mut read)?;
    Ok(judge(header, &read))
}

fn number_of(field: &[u8; 4]) -> u32
    ensures number { result ≡ big_number 4 field.now }
    ensures spelled { big_bytes 4 result ≡ field.now }
{
    BigEndian::read_u32(field)
}

// Reads one octet.
fn octet_at<A: Area>(area: &mut A, at: u64) -> Result<u8, Failed>
    requires { at < A.size area.old }

    ensures octet { IsTrue A.tells_octets → IfOk result (λ octet. octet ≡ gate_at (A.octets area.old) at) }
    ensures kept { Kept A.Area area.old area.new }
    ensures runs { IsTrue A.tells_fate → ReadsRun (A.fate area.old).schedule → is_err result ≡ false }
    ensures cause { HasCause (A.faults area.old) (A.faults area.new) result }
{
    area_laws::<A>();
    let mut octet = [0; 1];
    area.read_at(at, &mut octet)?;
    Ok(octet[0])
}

// Reads the length that stands behind a gate.
fn length_behind<A: Area>(area: &mut A, at: u64) -> Result<u32, Failed>
    requires inside { at + 5 ≤ A.size area.old }
    requires short { A.size area.old ≤ most_octets }

    ensures length { IsTrue A.tells_octets → IfOk result (λ length. (length ≡ length_at (A.octets area.old) at) ×
        (take 4 (drop (at + 1) (A.octets area.old)) ≡ big_bytes 4 length)) }
    ensures kept { Kept A.Area area.old area.new }
    ensures runs { IsTrue A.tells_fate → ReadsRun (A.fate area.old).schedule → is_err result ≡ false }
    ensures cause { HasCause (A.faults area.old) (A.faults area.new) result }
{
    area_laws::<A>();
    let mut field = [0; 4];
    area.read_at(at + 1, &mut field)?;
    Ok(number_of(&field))
}

/// Reads a gate and the length behind it.
pub fn read_gate<A: Area>(area: &mut A, at: u64) -> Result<Behind, Failed>
    requires inside { at < A.size area.old }
    requires short { A.size area.old ≤ most_octets }

    ensures reads { IsTrue A.tells_octets → IfOk result (λ b. IsBehind (A.octets area.old) at b) }
    ensures fits { IfOk result (λ b. Fits (A.size area.old) at b) }
    ensures kept { Kept A.Area area.old area.new }
    ensures runs { IsTrue A.tells_fate → ReadsRun (A.fate area.old).schedule → is_err result ≡ false }
    ensures cause { HasCause (A.faults area.old) (A.faults area.new) result }
{
    let gate = octet_at(area, at)?;
    if gate != OPEN {
        return Ok(Behind::Shut);
    }
    let size = area.length();
    if size < at + 6 {
        return Ok(Behind::Cut);
    }
    let length = length_behind(area, at)?;
    if length as usize > LONGEST_BATCH {
        return Ok(Behind::Cut);
    }
    if size <= at + 5 + u64::from(length) {
        return Ok(Behind::Cut);
    }
    Ok(Behind::Whole { length })
}

/// Reads the gates and the lengths of the batches, up to the first gate that is closed or has no whole batch.
pub fn scan<A: Area>(area: &mut A) -> Result<Scanned, Failed>
    requires long { fewest_octets ≤ A.size area.old }
    requires short { A.size area.old ≤ most_octets }

    ensures reads { IsTrue A.tells_octets → IfOk result (λ s. IsScanned (A.octets area.old) s) }
    ensures inside { IfOk result (λ s. LiesIn (A.size area.old) s) }
    ensures kept { Kept A.Area area.old area.new }
    ensures runs { IsTrue A.tells_fate → ReadsRun (A.fate area.old).schedule → is_err result ≡ false }
    ensures cause { HasCause (A.faults area.old) (A.faults area.new) result }
{
    area_laws::<A>();
    let mut at = 32;
    'batches: loop {
        match read_gate(area, at)? {
            Behind::Shut => return Ok(Scanned::End { gate: at }),
            Behind::Cut => return Ok(Scanned::Broken { at }),
            Behind::Whole { length } => at += 5 + u64::from(length),
        }
    }
}

/// Octet 0 and the octet of a gate.
#[derive(Clone, Copy)]
pub struct Ends {
    pub first: u8,
    pub gate: u8,
}

/// Waits until what was written stands, and reads octet 0 and a gate.
pub fn see<A: Area>(area: &mut A, gate: u64) -> Result<Ends, Failed>
    requires { gate < A.size area.old }

    ensures size { A.size area.new ≡ A.size area.old }
    ensures octets { IsTrue A.tells_octets → OnOk result (A.octets area.new ≡ A.octets area.old) }
    ensures seen { IsTrue A.tells_octets → IfOk result (λ e.
        (e.first ≡ slice_index (A.octets area.old) 0) × (e.gate ≡ gate_at (A.octets area.old) gate)) }
    ensures durable { IsTrue A.tells_crash → OnOk result (Only (A.octets area.new) (A.may_leave area.new)) }
    ensures any_moment { Leaves A.Area area.old area.new (A.may_leave area.old) }

    ensures calls { IsTrue A.tells_calls → A.calls area.new ≡ counted 1 (A.calls area.old) }
    ensures planned { IsTrue A.tells_fate → SyncPlanned (A.fate area.old) (is_err result) (A.fate area.new) }
    ensures cause { HasCause (A.faults area.old) (A.faults area.new) result }
{
    area_laws::<A>();
    area.sync()?;
    let first = octet_at(area, 0)?;
    let gate = octet_at(area, gate)?;
    Ok(Ends { first, gate })
}
