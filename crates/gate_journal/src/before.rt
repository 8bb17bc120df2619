// Batches before a place of an area, whatever stands at that place: those of an area that is no journal.
ghost use Rattle.std.specs.Prelude.{◌≡◌, ◌+◌, ◌<◌, ◌≤◌, IsTrue, IfOk, IfSome, OnOk, false, is_err, length};
ghost use Rattle.area_disk.specs.Disk.{HasCause};
ghost use Rattle.gate_journal.specs.Before.{IsFoundBefore, IsReadBefore};
ghost use Rattle.gate_journal.specs.Format.{longest_batch, most_octets};
ghost use Rattle.gate_journal.specs.Moments.{Kept};
ghost use Rattle.gate_journal.specs.Planned.{ReadsRun};

use crate::Device;
use crate::journal::content_behind;
use crate::reading::read_gate;
use area_disk::laws::area_laws;
use area_disk::{Area, Failed};

/// The place and the length of the content behind the gate at this octet, of a batch that ends at octet `end` of the
/// area or before it, or `None` where there is none. Octet 32 is a gate, and so is each octet behind a batch.
///
/// It takes no memory.
pub fn batch_before<A: Area>(
    area: &mut A,
    gate: u64,
    end: u64,
) -> Result<Option<(u64, u32)>, Device>
    requires inside { gate < end }
    requires short { A.size area.old ≤ most_octets }

    ensures found { IsTrue A.tells_octets → IfOk result (λ found. IsFoundBefore (A.octets area.old) end gate found) }
    ensures inside { IfOk result (λ found.
        IfSome found (λ content. (content.0 ≡ gate + 5) × (content.0 + content.1 ≤ end))) }
    ensures within { IfOk result (λ found. IfSome found (λ content. content.0 + content.1 < A.size area.old)) }
    ensures short { IfOk result (λ found. IfSome found (λ content. content.1 ≤ longest_batch)) }
    ensures kept { Kept A.Area area.old area.new }
    ensures runs { IsTrue A.tells_fate → ReadsRun (A.fate area.old).schedule → is_err result ≡ false }
    ensures cause { HasCause (A.faults area.old) (A.faults area.new) result }
{
    area_laws::<A>();
    let end = end.min(area.length());
    if end <= gate {
        return Ok(None);
    }
    match read_gate(area, gate) {
        Ok(behind) => Ok(content_behind(behind, gate, end)),
        Err(Failed) => Err(Device),
    }
}

/// Reads octets of one batch of those before octet `end`, from octet `at` of the area on. At `Device` `into` may hold
/// anything.
///
/// It takes no memory.
pub fn read_before<A: Area>(area: &mut A, at: u64, into: &mut [u8]) -> Result<(), Device>
    requires inside { at + length into.old ≤ A.size area.old }

    ensures content { IsTrue A.tells_octets →
        OnOk result (IsReadBefore (A.octets area.old) at (length into.old) into.new) }
    ensures kept { Kept A.Area area.old area.new }
    ensures runs { IsTrue A.tells_fate → ReadsRun (A.fate area.old).schedule → is_err result ≡ false }
    ensures cause { HasCause (A.faults area.old) (A.faults area.new) result }
{
    match area.read_at(at, into) {
        Ok(()) => Ok(()),
        Err(Failed) => Err(Device),
    }
}
