// Writes to an area that stand once they are answered.
ghost use Rattle.std.specs.Prelude.{◌≡◌, ◌≢◌, ◌+◌, ◌≤◌, length, IsTrue, OnOk};
ghost use Rattle.area_disk.specs.Disk.{overwritten, Torn, Only, HasCause};
ghost use Rattle.gate_journal.specs.Adding.{added, IsAdding};
ghost use Rattle.gate_journal.specs.Format.{gate_at, most_octets, open_gate};
ghost use Rattle.gate_journal.specs.Planned.{PutPlanned, AppendPlanned};
ghost use Rattle.gate_journal.specs.Moments.{Told, Leaves, Calls};

use crate::format::OPEN;
use area_disk::laws::area_laws;
use area_disk::{Area, Failed};

/// Writes, and waits until it stands.
pub fn put<A: Area>(area: &mut A, at: u64, from: &[u8]) -> Result<(), Failed>
    requires { at + length from.now ≤ A.size area.old }

    ensures size { A.size area.new ≡ A.size area.old }
    ensures written { IsTrue A.tells_octets →
        OnOk result (A.octets area.new ≡ overwritten (A.octets area.old) at from.now) }
    ensures durable { IsTrue A.tells_crash → OnOk result (Only (A.octets area.new) (A.may_leave area.new)) }
    ensures any_moment { Only (A.octets area.old) (A.may_leave area.old) →
        Leaves A.Area area.old area.new (Torn at (length from.now) (A.octets area.old)) }

    ensures calls { IsTrue A.tells_calls → Calls 2 (A.calls area.old) (A.calls area.new) result }
    ensures planned { IsTrue A.tells_fate → PutPlanned (A.fate area.old) at from.now result (A.fate area.new) }
    ensures cause { HasCause (A.faults area.old) (A.faults area.new) result }
{
    area_laws::<A>();
    area.write_at(at, from)?;
    area.sync()
}

/// Writes a frame behind a closed gate and, when it stands, opens the gate.
pub fn add<A: Area>(area: &mut A, gate: u64, frame: &[u8]) -> Result<(), Failed>
    requires inside { gate + 1 + length frame.now ≤ A.size area.old }
    requires short { A.size area.old ≤ most_octets }

    ensures size { A.size area.new ≡ A.size area.old }
    ensures added { IsTrue A.tells_octets → OnOk result (A.octets area.new ≡ added gate frame.now (A.octets area.old)) }
    ensures durable { IsTrue A.tells_crash → OnOk result (Only (A.octets area.new) (A.may_leave area.new)) }
    ensures any_moment { Told A.Area →
        gate_at (A.octets area.old) gate ≢ open_gate → Only (A.octets area.old) (A.may_leave area.old) →
        Leaves A.Area area.old area.new (IsAdding gate frame.now (A.octets area.old)) }

    ensures calls { IsTrue A.tells_calls → Calls 4 (A.calls area.old) (A.calls area.new) result }
    ensures planned { IsTrue A.tells_fate → Told A.Area →
        gate_at (A.octets area.old) gate ≢ open_gate → Only (A.octets area.old) (A.may_leave area.old) →
        AppendPlanned (A.fate area.old) gate result (A.fate area.new) }
    ensures cause { HasCause (A.faults area.old) (A.faults area.new) result }
{
    area_laws::<A>();
    put(area, gate + 1, frame)?;
    put(area, gate, &[OPEN])
}
