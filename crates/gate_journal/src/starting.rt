// Whether an opening makes an area anew.
ghost use Rattle.std.specs.Prelude.{◌≡◌, ◌↔◌, ◌≤◌, IsTrue, IfOk, OnOk, is_err};
ghost use Rattle.area_disk.specs.Disk.{Only};
ghost use Rattle.gate_journal.specs.Format.{Starts, fewest_octets, header};
ghost use Rattle.gate_journal.specs.Moments.{CountsOne, Leaves};
ghost use Rattle.gate_journal.specs.Planned.{SyncPlanned};

use crate::Device;
use crate::format::header_of;
use crate::reading::{Verdict, look};
use area_disk::{Area, Failed};

/// Whether an opening with this address and generation makes the area anew, as its first octets tell. It makes one sync
/// and reads, and writes nothing. After `Device` a read gives no more than what a crash might have left before.
///
/// It takes no memory.
pub fn starts<A: Area>(area: &mut A, address: u32, generation: u32) -> Result<bool, Device>
    requires { fewest_octets ≤ A.size area.old }

    ensures starts { IsTrue A.tells_octets → IfOk result (λ starts.
        IsTrue starts ↔ Starts (header (A.size area.old) address generation) (A.octets area.old)) }
    ensures size { A.size area.new ≡ A.size area.old }
    ensures octets { IsTrue A.tells_octets → OnOk result (A.octets area.new ≡ A.octets area.old) }
    ensures durable { IsTrue A.tells_crash → OnOk result (Only (A.octets area.new) (A.may_leave area.new)) }
    ensures any_moment { Leaves A.Area area.old area.new (A.may_leave area.old) }
    ensures counted { CountsOne A.Area area.old area.new result }
    ensures planned { IsTrue A.tells_fate → SyncPlanned (A.fate area.old) (is_err result) (A.fate area.new) }
{
    let header = header_of(area.length(), address, generation);
    match look(area, &header) {
        Ok(Verdict::Starts { blank: _ }) => Ok(true),
        Ok(Verdict::Same) => Ok(false),
        Ok(Verdict::Other { at: _ }) => Ok(false),
        Err(Failed) => Err(Device),
    }
}
